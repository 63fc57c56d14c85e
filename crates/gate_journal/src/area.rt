ghost use Rattle.std.specs.Prelude.{◌≡◌, ◌≤◌, ◌⊎◌, [], take, length, IfOk, IfSome, IsErrOf, IsTrue};
ghost use Rattle.leaf_edges.specs.Disks.{Only, Unchanged, Elapses, LeavesOnly};
ghost use Rattle.gate_journal.specs.Areas.{end_of, no_area};
ghost use Rattle.gate_journal.specs.declared.area.Ending.TheVariants.{Closed};
ghost use Rattle.gate_journal.specs.Journals.{Stands, ReadsArea, Syncs, LoadCauses, LookCauses, journal_of};

use crate::LoadFault;
use crate::device::length_of;
use crate::walk::{HEAD_LEN, Head, RECORD_HEAD_LEN, read_bodies, read_head};
use leaf_edges::Disk;
use nats_text::{Bytes, List};
use std::alloc::Global;
use std::marker::Model;

/// The most bytes of an area.
const MAX_LEN: u64 = 1 << 40;

/// How the records of an area end.
#[derive(Clone, Copy, Debug, PartialEq, Eq)]
pub enum Ending {
    /// At a closed gate.
    Closed,
    /// At the end of the disk, where a gate is due.
    Missing,
    /// At an open gate behind which no body can be read: its length is 0, above 2,097,152, or passes the
    /// end of the disk.
    Unreadable,
}

/// What a disk holds of a journal, whole or broken. Contracts see whether the area counts, its
/// generation, its bodies, and how their records end.
#[derive(Debug, Drop)]
pub struct Area {
    counts: bool,
    generation: u64,
    bodies: List<Bytes>,
    /// The place where the records end.
    end: u64,
    ending: Ending,
}

impl Model for Area {
    ghost use Rattle.std.specs.Prelude.{◌≡◌, ◌<◌, ◌^◌};
    ghost use Rattle.gate_journal.specs.Areas.{AreaState, end_of};

    ghost Value = { AreaState };

    ghost view = { λ a. record { counts = a.counts; generation = a.generation; bodies = a.bodies; ending = a.ending } };

    ghost invariant = { λ a. (a.end ≡ end_of a.bodies) × (a.end < 2 ^ 64) };
}

impl Area {
    /// Syncs, and reads what a disk holds, `None` where its bytes have no head. It writes nothing, and
    /// `BadJournal` doesn't come.
    pub fn load<D: Disk>(alloc: Global, disk: &mut D) -> Result<Option<Area>, LoadFault>
        ensures answer { D.tells → ReadsArea (D.seen disk.old) result }
        // Where it counts and is whole, the journal that `Journal::of_area` makes of it stands.
        ensures stands { D.tells → IfOk result (λ found. IfSome found (λ area. IsTrue area.counts → area.ending ≡ Closed → Stands D.images disk.new (journal_of area) area.bodies)) }
        // But for a SyncFault the disk reads as before, and a crash leaves that alone.
        ensures durable { D.tells → IsErrOf result LoadFault.SyncFault ⊎ ((D.seen disk.new ≡ D.seen disk.old) × Only (D.seen disk.old) (D.images disk.new)) }
        ensures any_moment { D.tells → LeavesOnly D.moment D.left_since disk.old disk.new (D.images disk.old) }
        ensures calls { D.tells → Syncs D.done D.failed D.unsynced disk.old disk.new result }
        ensures cause { LoadCauses (D.faults disk.old) (D.faults disk.new) result }
        ensures leads { D.leads disk.old disk.new }
    {
        match disk.sync() {
            Ok(()) => Area::read(alloc, disk),
            Err(_) => Err(LoadFault::SyncFault),
        }
    }

    /// Reads what a disk holds, `None` where its bytes have no head. It writes and syncs nothing, and
    /// `SyncFault` and `BadJournal` don't come.
    pub fn read<D: Disk>(alloc: Global, disk: &mut D) -> Result<Option<Area>, LoadFault>
        ensures answer { D.tells → ReadsArea (D.seen disk.old) result }
        ensures same { D.tells → Unchanged D.seen D.images D.unsynced D.done D.failed disk.old disk.new }
        ensures time { D.tells → Elapses D.moment D.left_since D.images disk.old disk.new }
        // No answer is SyncFault.
        ensures cause { LookCauses (D.faults disk.old) (D.faults disk.new) result }
        ensures leads { D.leads disk.old disk.new }
    {
        let len = length_of(disk)?;
        if len > MAX_LEN {
            return Err(LoadFault::TooLong { len });
        }
        let Some(head) = read_head(disk, len)? else {
            return Ok(None);
        };
        if !head.counts {
            return Ok(Some(Area::without_bodies(alloc, head)));
        }
        let walk = read_bodies(alloc, disk, len)?;
        Ok(Some(Area {
            counts: true,
            generation: head.generation,
            bodies: walk.bodies,
            end: walk.end,
            ending: walk.ending,
        }))
    }

    /// The area of a disk that isn't there.
    pub fn absent(alloc: Global) -> Area
        ensures { result ≡ no_area }
    {
        Area::without_bodies(
            alloc,
            Head {
                counts: false,
                generation: 0,
            },
        )
    }

    fn without_bodies(alloc: Global, head: Head) -> Area
        ensures { result ≡ record { counts = head.counts; generation = head.generation; bodies = []; ending = Closed } }
    {
        Area {
            counts: head.counts,
            generation: head.generation,
            bodies: List::new(alloc),
            end: HEAD_LEN,
            ending: Ending::Closed,
        }
    }

    /// Whether it counts.
    pub fn counts(&self) -> bool
        ensures { result ≡ self.now.counts }
    {
        self.counts
    }

    /// The number by which the newer of two areas that count is told.
    pub fn generation(&self) -> u64
        ensures { result ≡ self.now.generation }
    {
        self.generation
    }

    /// The bodies, the first first.
    pub fn bodies(&self) -> &[Bytes]
        ensures { result.now ≡ self.now.bodies }
    {
        self.bodies.as_slice()
    }

    /// The bodies, the first first.
    pub fn into_bodies(self) -> List<Bytes>
        ensures { result ≡ self.bodies }
    {
        let Area { bodies, .. } = self;
        bodies
    }

    /// How the records end.
    pub fn ending(&self) -> Ending
        ensures { result ≡ self.now.ending }
    {
        self.ending
    }

    /// The place where the records end, in bytes from the disk's first.
    pub fn end(&self) -> u64
        ensures { result ≡ end_of self.now.bodies }
    {
        self.end
    }

    /// The place of the gate of the body with this index, counted from 0.
    pub fn place_of(&self, index: usize) -> u64
        requires { index ≤ length self.now.bodies }
        ensures { result ≡ end_of (take index self.now.bodies) }
    {
        let mut place = HEAD_LEN;
        for body in &self.bodies.as_slice()[..index] {
            place += RECORD_HEAD_LEN + body.len() as u64;
        }
        place
    }
}
