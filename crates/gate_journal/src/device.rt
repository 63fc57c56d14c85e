ghost use Rattle.std.specs.Prelude.{◌≡◌, ◌+◌, ◌≤◌, [], ◌∷◌, length, take, drop, IfOk, OnOk, OnErr, IsErrOf, IfErr};
ghost use Rattle.leaf_edges.specs.Disks.{Only, Follows, Torn, Unchanged, LeavesOnly, overwritten, wrote, synced};
ghost use Rattle.gate_journal.specs.Journals.{Does, LookCauses, MayTear, WriteFaults};
ghost use Rattle.gate_journal.specs.Walks.{Looks};
ghost use Rattle.gate_journal.specs.declared.fault.LoadFault.TheVariants.{ReadFault};

use crate::{AppendFault, LoadFault};
use leaf_edges::Disk;

/// How many bytes the disk has.
pub(crate) fn length_of<D: Disk>(disk: &mut D) -> Result<u64, LoadFault>
    ensures value { D.tells → IfOk result (λ len. len ≡ length (D.seen disk.old)) }
    ensures looks { D.tells → Looks D.seen D.images D.unsynced D.done D.failed D.moment D.left_since disk.old disk.new }
    ensures kind { IfErr result (λ fault. fault ≡ ReadFault) }
    ensures cause { LookCauses (D.faults disk.old) (D.faults disk.new) result }
    ensures leads { D.leads disk.old disk.new }
{
    match disk.len() {
        Ok(len) => Ok(len),
        Err(_) => Err(LoadFault::ReadFault),
    }
}

/// Fills the buffer with the bytes from `place` on.
pub(crate) fn fill<D: Disk>(disk: &mut D, place: u64, buf: &mut [u8]) -> Result<(), LoadFault>
    requires { D.tells → place + length buf.old ≤ length (D.seen disk.old) }
    ensures bytes { D.tells → OnOk result (buf.new ≡ take (length buf.old) (drop place (D.seen disk.old))) }
    ensures looks { D.tells → Looks D.seen D.images D.unsynced D.done D.failed D.moment D.left_since disk.old disk.new }
    ensures kind { IfErr result (λ fault. fault ≡ ReadFault) }
    ensures cause { LookCauses (D.faults disk.old) (D.faults disk.new) result }
    ensures leads { D.leads disk.old disk.new }
{
    match disk.read(place, buf) {
        Ok(()) => Ok(()),
        Err(_) => Err(LoadFault::ReadFault),
    }
}

/// Writes the bytes at `place` and syncs.
pub(crate) fn write_and_sync<D: Disk>(
    disk: &mut D,
    place: u64,
    bytes: &[u8],
) -> Result<(), AppendFault>
    requires { D.tells → place ≤ length (D.seen disk.old) }
    ensures written { D.tells → OnOk result (D.seen disk.new ≡ overwritten (D.seen disk.old) place bytes.now) }
    ensures durable { D.tells → OnOk result (Only (D.seen disk.new) (D.images disk.new)) }
    ensures crash { D.tells → Follows (Torn place (length bytes.now)) (D.images disk.old) (D.images disk.new) }
    ensures any_moment { D.tells → LeavesOnly D.moment D.left_since disk.old disk.new (MayTear (D.images disk.old) place (length bytes.now)) }
    ensures memory { D.tells → IsErrOf result AppendFault.NoMemory → Unchanged D.seen D.images D.unsynced D.done D.failed disk.old disk.new }
    ensures calls { D.tells → Does D.done D.failed disk.old disk.new (wrote place bytes.now ∷ synced ∷ []) result }
    ensures cause { WriteFaults (D.faults disk.old) (D.faults disk.new) result }
    ensures leads { D.leads disk.old disk.new }
{
    disk.write_at(place, bytes)?;
    disk.sync()?;
    Ok(())
}
