ghost use Rattle.std.specs.Prelude.{◌≡◌, ◌⊎◌, ◌+◌, ◌≤◌, List as Items, ℕ, [], ◌∷◌, ◌++◌, length, IfOk, IfErr, OnOk, OnErr, IsErrOf, IsTrue};
ghost use Rattle.leaf_edges.specs.Disks.{Only, Unchanged, Elapses, LeavesOnly, wrote, synced};
ghost use Rattle.gate_journal.specs.Areas.{max_body, max_area};
ghost use Rattle.gate_journal.specs.Journals.{Stands, IsBeforeOrAfter, MayTear, OfArea, Reads, Syncs, Does, LoadCauses, LookCauses, WriteFaults, with_body, staged, append_calls, new_area, new_journal};
ghost use Rattle.gate_journal.specs.declared.fault.AppendFault.TheVariants.{NoMemory as OutOfMemory};

use crate::device::write_and_sync;
use crate::walk::{CLOSED, MAGIC, OPEN, RECORD_HEAD_LEN};
use crate::{AppendFault, Area, Ending, LoadFault};
use leaf_edges::Disk;
use nats_text::{Bytes, List};
use std::alloc::Global;
use std::marker::Model;

/// The generation of a new area that counts.
const FIRST_GENERATION: u64 = 1;

/// A journal on a disk, as it was loaded and appended to. Contracts see whether its area counts, its
/// generation, and the place of the closed gate behind its bodies.
#[derive(Debug, Drop)]
pub struct Journal {
    counts: bool,
    generation: u64,
    end: u64,
    /// What the next append writes first. It is kept so that an append takes no new memory each time.
    buf: Vec<u8>,
}

impl Model for Journal {
    ghost use Rattle.gate_journal.specs.Journals.{JournalState};

    ghost Value = { JournalState };

    ghost view = { λ j. record { counts = j.counts; generation = j.generation; end = j.end } };
}

/// The bytes of a new area.
fn area_bytes(alloc: Global, counts: bool) -> Result<Vec<u8>, AppendFault>
    ensures bytes { IfOk result (λ bytes. bytes.items ≡ new_area counts) }
    ensures memory { IfErr result (λ fault. fault ≡ OutOfMemory) }
{
    let (area_gate, generation) = if counts {
        (OPEN, FIRST_GENERATION)
    } else {
        (CLOSED, 0)
    };
    let mut bytes = Vec::from_slice(alloc, &MAGIC)?;
    bytes.extend_from_slice(&[area_gate])?;
    bytes.extend_from_slice(&generation.to_le_bytes())?;
    bytes.extend_from_slice(&[CLOSED])?;
    Ok(bytes)
}

/// Puts into the buffer what stands behind the gate of a body's record, and a closed gate.
fn stage(buf: &mut Vec<u8>, body: &[u8]) -> Result<(), AppendFault>
    requires { length body.now ≤ max_body }
    ensures bytes { OnOk result (buf.new.items ≡ staged body.now) }
    ensures memory { IfErr result (λ fault. fault ≡ OutOfMemory) }
{
    buf.clear();
    buf.extend_from_slice(&(body.len() as u32).to_le_bytes())?;
    buf.extend_from_slice(body)?;
    buf.extend_from_slice(&[CLOSED])?;
    Ok(())
}

impl Journal {
    /// Makes the area of an empty disk, and syncs: one that counts has generation 1, the other
    /// generation 0, and neither has bodies. At `NoMemory` nothing was written; after `DiskFault` the
    /// area may be there, a part of it, or other bytes.
    pub fn format<D: Disk>(alloc: Global, disk: &mut D, counts: bool) -> Result<(), AppendFault>
        requires empty { D.tells → D.seen disk.old ≡ [] }
        ensures area { D.tells → OnOk result (D.seen disk.new ≡ new_area counts) }
        ensures durable { D.tells → OnOk result (Only (new_area counts) (D.images disk.new)) }
        ensures stands { D.tells → OnOk result (IsTrue counts → Stands D.images disk.new new_journal []) }
        // At each moment of the call a crash leaves an image from before, or what a torn write of the 18
        // bytes made of one.
        ensures any_moment { D.tells → LeavesOnly D.moment D.left_since disk.old disk.new (MayTear (D.images disk.old) 0 18) }
        ensures memory { D.tells → IsErrOf result AppendFault.NoMemory → Unchanged D.seen D.images D.unsynced D.done D.failed disk.old disk.new }
        ensures calls { D.tells → Does D.done D.failed disk.old disk.new (wrote 0 (new_area counts) ∷ synced ∷ []) result }
        ensures cause { WriteFaults (D.faults disk.old) (D.faults disk.new) result }
        ensures leads { D.leads disk.old disk.new }
    {
        let area = area_bytes(alloc, counts)?;
        write_and_sync(disk, 0, &area)
    }

    /// Syncs, and reads the area and its bodies. It writes nothing.
    pub fn load<D: Disk>(alloc: Global, disk: &mut D) -> Result<(Journal, List<Bytes>), LoadFault>
        ensures answer { D.tells → Reads (D.seen disk.old) result }
        ensures stands { D.tells → IfOk result (λ loaded. IsTrue loaded.0.counts → Stands D.images disk.new loaded.0 loaded.1) }
        // But for a SyncFault the disk reads as before, and a crash leaves that alone.
        ensures durable { D.tells → IsErrOf result LoadFault.SyncFault ⊎ ((D.seen disk.new ≡ D.seen disk.old) × Only (D.seen disk.old) (D.images disk.new)) }
        ensures any_moment { D.tells → LeavesOnly D.moment D.left_since disk.old disk.new (D.images disk.old) }
        ensures calls { D.tells → Syncs D.done D.failed D.unsynced disk.old disk.new result }
        ensures cause { LoadCauses (D.faults disk.old) (D.faults disk.new) result }
        ensures leads { D.leads disk.old disk.new }
    {
        match Area::load(alloc, disk)? {
            Some(area) => Journal::of_area(alloc, area),
            None => Err(LoadFault::BadJournal { place: 0 }),
        }
    }

    /// Reads the area and its bodies. It writes and syncs nothing.
    pub fn read_only<D: Disk>(
        alloc: Global,
        disk: &mut D,
    ) -> Result<(Journal, List<Bytes>), LoadFault>
        ensures answer { D.tells → Reads (D.seen disk.old) result }
        ensures same { D.tells → Unchanged D.seen D.images D.unsynced D.done D.failed disk.old disk.new }
        ensures time { D.tells → Elapses D.moment D.left_since D.images disk.old disk.new }
        // No answer is SyncFault.
        ensures cause { LookCauses (D.faults disk.old) (D.faults disk.new) result }
        ensures leads { D.leads disk.old disk.new }
    {
        match Area::read(alloc, disk)? {
            Some(area) => Journal::of_area(alloc, area),
            None => Err(LoadFault::BadJournal { place: 0 }),
        }
    }

    /// The journal and the bodies of an area whose records end at a closed gate. Of any other area it is
    /// `BadJournal`, at the place where the records end, and no other fault comes.
    pub fn of_area(alloc: Global, area: Area) -> Result<(Journal, List<Bytes>), LoadFault>
        ensures answer { OfArea area result }
    {
        if area.ending() != Ending::Closed {
            return Err(LoadFault::BadJournal { place: area.end() });
        }
        let journal = Journal {
            counts: area.counts(),
            generation: area.generation(),
            end: area.end(),
            buf: Vec::new(alloc),
        };
        Ok((journal, area.into_bodies()))
    }

    /// Adds a body of 1 to 2,097,152 bytes to an area that counts, with which it has at most `2^40`
    /// bytes. Four calls of the disk make it whole after a crash or not there at all: a write of the
    /// body behind its closed gate, a sync, a write that opens the gate, a sync. After `DiskFault` the
    /// body may be there or not, as the next load tells; after `NoMemory` it isn't there.
    pub fn append<D: Disk>(&mut self, disk: &mut D, body: &[u8]) -> Result<(), AppendFault>
        requires some { 1 ≤ length body.now }
        requires most { length body.now ≤ max_body }
        requires room { self.old.end + 6 + length body.now ≤ max_area }
        requires stands { D.tells → (bodies : Items (Items ℕ)) × Stands D.images disk.old self.old bodies }
        // At each moment of the call a crash leaves the bodies as before, or with the new one last.
        ensures any_moment { (bodies : Items (Items ℕ)) → D.tells → Stands D.images disk.old self.old bodies →
            LeavesOnly D.moment D.left_since disk.old disk.new (IsBeforeOrAfter self.old.generation bodies body.now) }
        ensures ok { (bodies : Items (Items ℕ)) → D.tells → Stands D.images disk.old self.old bodies →
            OnOk result (Stands D.images disk.new self.new (bodies ++ body.now ∷ [])) }
        ensures memory { (bodies : Items (Items ℕ)) → D.tells → Stands D.images disk.old self.old bodies →
            IsErrOf result AppendFault.NoMemory → Stands D.images disk.new self.new bodies }
        ensures grows { OnOk result (self.new ≡ with_body self.old body.now) }
        ensures journal { OnErr result (self.new ≡ self.old) }
        ensures calls { D.tells → Does D.done D.failed disk.old disk.new (append_calls self.old.end body.now) result }
        ensures cause { WriteFaults (D.faults disk.old) (D.faults disk.new) result }
        ensures leads { D.leads disk.old disk.new }
    {
        stage(&mut self.buf, body)?;
        write_and_sync(disk, self.end + 1, &self.buf)?;
        write_and_sync(disk, self.end, &[OPEN])?;
        self.end += RECORD_HEAD_LEN + body.len() as u64;
        Ok(())
    }

    /// Whether the area counts.
    pub fn counts(&self) -> bool
        ensures { result ≡ self.now.counts }
    {
        self.counts
    }

    /// The number by which the newer of two areas that count is told.
    pub fn generation(&self) -> u64
        ensures { result ≡ self.now.generation }
    {
        self.generation
    }

    /// The place of the closed gate behind the bodies, in bytes; 17 in an area that doesn't count.
    pub fn end(&self) -> u64
        ensures { result ≡ self.now.end }
    {
        self.end
    }
}
