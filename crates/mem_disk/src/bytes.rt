ghost use Rattle.std.specs.Prelude.{◌≡◌, ◌+◌, ◌≤◌, length, vec_capacity};
ghost use Rattle.leaf_edges.specs.Disks.{overwritten};
ghost use Rattle.mem_disk.specs.Contents.{torn_bytes};

/// Puts the new bytes at `place`, and past the end where they don't fit before it. There is room.
pub(crate) fn overwrite(bytes: &mut Vec<u8>, place: usize, new: &[u8])
    requires { place + length new.now ≤ vec_capacity bytes.old }
    ensures items { bytes.new.items ≡ overwritten bytes.old.items place new.now }
    ensures capacity { vec_capacity bytes.old ≤ vec_capacity bytes.new }
{
    let start = place.min(bytes.len());
    let inside = new.len().min(bytes.len() - start);
    bytes[start..start + inside].copy_from_slice(&new[..inside]);
    // There is room, so this can't fail.
    let _grown = bytes.extend_from_slice(&new[inside..]);
}

/// Puts the first half of the new bytes, rounded down, at `place`, and 0xA5 in the rest of their
/// range.
pub(crate) fn overwrite_torn(bytes: &mut Vec<u8>, place: usize, new: &[u8])
    requires { place + length new.now ≤ vec_capacity bytes.old }
    ensures items { bytes.new.items ≡ overwritten bytes.old.items place (torn_bytes new.now) }
    ensures capacity { vec_capacity bytes.old ≤ vec_capacity bytes.new }
{
    let half = new.len() / 2;
    overwrite(bytes, place, &new[..half]);
    for i in half..new.len() {
        overwrite(bytes, place + i, &[0xA5]);
    }
}
