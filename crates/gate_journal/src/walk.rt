ghost use Rattle.std.specs.Prelude.{◌≡◌, ◌+◌, ◌≤◌, ◌<◌, ◌^◌, drop, length, Some, IfSome, IfOk, OnOk};
ghost use Rattle.std.specs.Int.{w32, w64, to_le_bytes, from_le_bytes};
ghost use Rattle.gate_journal.specs.Areas.{max_area, max_body, end_of};
ghost use Rattle.gate_journal.specs.Journals.{LookCauses};
ghost use Rattle.gate_journal.specs.Walks.{Looks, ReadsHead, ReadsRecord, ReadsBody, ReadsBodies, FitsBefore};

use crate::device::fill;
use crate::{Ending, LoadFault};
use leaf_edges::Disk;
use nats_text::{Bytes, List};
use std::alloc::Global;

/// How an area begins.
pub(crate) const MAGIC: [u8; 8] = *b"LEAFJRN1";

/// The byte of an open gate, and of the area gate of an area that counts.
pub(crate) const OPEN: u8 = 1;

/// The byte that is written as a closed gate; any but `OPEN` is one.
pub(crate) const CLOSED: u8 = 0;

/// How many bytes stand before the first gate.
pub(crate) const HEAD_LEN: u64 = 17;

/// How many bytes of a record stand before its body.
pub(crate) const RECORD_HEAD_LEN: u64 = 5;

/// The most bytes of a body.
const MAX_BODY: u64 = 2_097_152;

/// What the head of an area says.
#[derive(Clone, Copy, Debug)]
pub(crate) struct Head {
    pub counts: bool,
    pub generation: u64,
}

/// The number in 4 bytes little-endian.
fn read_u32(bytes: [u8; 4]) -> u32
    ensures value { result ≡ from_le_bytes w32 bytes }
    ensures spelling { to_le_bytes w32 result ≡ bytes }
{
    u32::from_le_bytes(bytes)
}

/// The number in 8 bytes little-endian.
fn read_u64(bytes: [u8; 8]) -> u64
    ensures value { result ≡ from_le_bytes w64 bytes }
    ensures spelling { to_le_bytes w64 result ≡ bytes }
{
    u64::from_le_bytes(bytes)
}

/// What stands at a gate's place.
#[derive(Drop)]
pub(crate) enum Next {
    /// A record with this body.
    Body(Bytes),
    /// No record.
    End(Ending),
}

/// The bodies of an area that counts, and where and how their records end.
#[derive(Drop)]
pub(crate) struct Walk {
    pub bodies: List<Bytes>,
    pub end: u64,
    pub ending: Ending,
}

/// Reads the head of an area on a disk with this many bytes, `None` where there is none.
pub(crate) fn read_head<D: Disk>(disk: &mut D, len: u64) -> Result<Option<Head>, LoadFault>
    requires { D.tells → len ≡ length (D.seen disk.old) }
    ensures answer { D.tells → ReadsHead (D.seen disk.old) result }
    ensures long { IfOk result (λ found. IfSome found (λ _. 18 ≤ len)) }
    ensures looks { D.tells → Looks D.seen D.images D.unsynced D.done D.failed D.moment D.left_since disk.old disk.new }
    ensures cause { LookCauses (D.faults disk.old) (D.faults disk.new) result }
    ensures leads { D.leads disk.old disk.new }
{
    // A gate follows the head in every area.
    if len <= HEAD_LEN {
        return Ok(None);
    }
    let mut head = [0u8; 17];
    fill(disk, 0, &mut head)?;
    if &head[..8] != MAGIC.as_slice() {
        return Ok(None);
    }
    let mut generation = [0u8; 8];
    generation.copy_from_slice(&head[9..]);
    Ok(Some(Head {
        counts: head[8] == OPEN,
        generation: read_u64(generation),
    }))
}

/// Reads the record behind the open gate at `place`, `None` where its length is bad.
fn read_record<D: Disk>(
    alloc: Global,
    disk: &mut D,
    place: u64,
    len: u64,
) -> Result<Option<Bytes>, LoadFault>
    requires len { D.tells → len ≡ length (D.seen disk.old) }
    requires gate { place < len }
    requires most { len ≤ max_area }
    ensures answer { D.tells → ReadsRecord (drop (place + 1) (D.seen disk.old)) result }
    ensures fits { IfOk result (λ found. IfSome found (λ body. place + 5 + length body ≤ len)) }
    ensures looks { D.tells → Looks D.seen D.images D.unsynced D.done D.failed D.moment D.left_since disk.old disk.new }
    ensures cause { LookCauses (D.faults disk.old) (D.faults disk.new) result }
    ensures leads { D.leads disk.old disk.new }
{
    let rest = len - place;
    if rest < RECORD_HEAD_LEN {
        return Ok(None);
    }
    let mut size = [0u8; 4];
    fill(disk, place + 1, &mut size)?;
    let size = read_u32(size) as u64;
    if size == 0 || size > MAX_BODY || size > rest - RECORD_HEAD_LEN {
        return Ok(None);
    }
    let mut body = vec![in alloc; 0u8; size as usize]?;
    fill(disk, place + RECORD_HEAD_LEN, &mut body)?;
    Ok(Some(List::from_vec(body)))
}

/// Reads what stands at a gate's place.
fn next_body<D: Disk>(alloc: Global, disk: &mut D, place: u64, len: u64) -> Result<Next, LoadFault>
    requires len { D.tells → len ≡ length (D.seen disk.old) }
    requires place { place ≤ len }
    requires most { len ≤ max_area }
    ensures answer { D.tells → ReadsBody (drop place (D.seen disk.old)) result }
    ensures fits { FitsBefore place len result }
    ensures looks { D.tells → Looks D.seen D.images D.unsynced D.done D.failed D.moment D.left_since disk.old disk.new }
    ensures cause { LookCauses (D.faults disk.old) (D.faults disk.new) result }
    ensures leads { D.leads disk.old disk.new }
{
    if place == len {
        return Ok(Next::End(Ending::Missing));
    }
    let mut gate = [0u8; 1];
    fill(disk, place, &mut gate)?;
    if gate[0] != OPEN {
        return Ok(Next::End(Ending::Closed));
    }
    match read_record(alloc, disk, place, len)? {
        Some(body) => Ok(Next::Body(body)),
        None => Ok(Next::End(Ending::Unreadable)),
    }
}

/// Reads the bodies of an area that counts, up to what ends their records.
pub(crate) fn read_bodies<D: Disk>(alloc: Global, disk: &mut D, len: u64) -> Result<Walk, LoadFault>
    requires len { D.tells → len ≡ length (D.seen disk.old) }
    requires head { 17 ≤ len }
    requires most { len ≤ max_area }
    ensures answer { D.tells → ReadsBodies (drop 17 (D.seen disk.old)) result }
    ensures end { IfOk result (λ found. found.end ≡ end_of found.bodies) }
    ensures looks { D.tells → Looks D.seen D.images D.unsynced D.done D.failed D.moment D.left_since disk.old disk.new }
    ensures cause { LookCauses (D.faults disk.old) (D.faults disk.new) result }
    ensures leads { D.leads disk.old disk.new }
{
    let mut bodies = List::new(alloc);
    let mut place = HEAD_LEN;
    loop {
        match next_body(alloc, disk, place, len)? {
            Next::Body(body) => {
                place += RECORD_HEAD_LEN + body.len() as u64;
                bodies.push(body)?;
            }
            Next::End(ending) => {
                return Ok(Walk {
                    bodies,
                    end: place,
                    ending,
                });
            }
        }
    }
}
