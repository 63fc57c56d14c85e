ghost use Rattle.std.specs.Prelude.{◌≡◌, ◌==◌, ℕ, List as Items, true, false, Ok, IfOk, IfErr, OnOk, length};
ghost use Rattle.leaf_edges.specs.Disks.{Only, Unchanged, Elapses};
ghost use Rattle.record_log.specs.Opening.{FailsBy, OpenCauses, OpenDoes};
ghost use Rattle.record_log.specs.Loading.{AreLoaded, LeavesOrTears, OpensArea, OpensBoth, DoesArea, AreaCauses, tallied};
ghost use Rattle.record_log.specs.Standing.{as_loaded};

use crate::read::{bad_head, read_areas};
use crate::{OpenFault, Part};
use gate_journal::{Area, Journal};
use leaf_edges::Disk;
use log_replay::Replay;
use std::alloc::Global;

/// What an opening finds.
#[derive(Drop)]
pub(crate) struct Loaded {
    pub journal: Journal,
    /// Whether the journal is that of the spare.
    pub on_spare: bool,
    pub replay: Replay,
}

/// Opens two disks: formats each that is empty, syncs and reads them, and replays the log for which they
/// stand.
pub(crate) fn load_disks<D: Disk>(
    alloc: Global,
    main: &mut D,
    spare: &mut D,
) -> Result<Loaded, OpenFault>
    ensures loaded { IfOk result (AreLoaded D.tells D.seen D.images main.old spare.old main.new spare.new) }
    ensures fault { D.tells → IfErr result (FailsBy (D.seen main.old) (D.seen spare.old)) }
    ensures main { D.tells → LeavesOrTears D.moment D.left_since D.seen D.images main.old main.new }
    ensures spare { D.tells → LeavesOrTears D.moment D.left_since D.seen D.images spare.old spare.new }
    ensures calls { D.tells → OpenDoes D.seen D.unsynced D.done main.old spare.old main.new spare.new result }
    ensures cause { OpenCauses D.faults main.old spare.old main.new spare.new result }
    ensures leads { D.leads main.old main.new × D.leads spare.old spare.new }
{
    let first = ready_area(alloc, main, true)?;
    let second = ready_area(alloc, spare, false)?;
    open_areas(alloc, first, second)
}

/// Formats the disk where it is empty, as one that counts or as one that doesn't, and syncs any other;
/// then reads what it holds, `None` where its bytes have no head.
fn ready_area<D: Disk>(alloc: Global, disk: &mut D, counts: bool) -> Result<Option<Area>, OpenFault>
    ensures answer { D.tells → OpensArea (as_loaded counts (D.seen disk.old)) result }
    ensures only { D.tells → OnOk result (Only (as_loaded counts (D.seen disk.old)) (D.images disk.new)) }
    ensures leaves { D.tells → LeavesOrTears D.moment D.left_since D.seen D.images disk.old disk.new }
    ensures calls { D.tells → DoesArea D.seen D.unsynced D.done counts disk.old disk.new result }
    ensures cause { AreaCauses (D.faults disk.old) (D.faults disk.new) result }
    ensures leads { D.leads disk.old disk.new }
{
    if is_empty(disk)? {
        Journal::format(alloc, disk, counts)?;
        Ok(Area::read(alloc, disk)?)
    } else {
        Ok(Area::load(alloc, disk)?)
    }
}

/// Whether the disk has no bytes.
fn is_empty<D: Disk>(disk: &mut D) -> Result<bool, OpenFault>
    ensures value { D.tells → IfOk result (λ empty. empty ≡ (length (D.seen disk.old) == 0)) }
    ensures same { D.tells → Unchanged D.seen D.images D.unsynced D.done D.failed disk.old disk.new }
    ensures time { D.tells → Elapses D.moment D.left_since D.images disk.old disk.new }
    ensures kind { IfErr result (λ fault. fault ≡ OpenFault.ReadFault) }
    ensures cause { AreaCauses (D.faults disk.old) (D.faults disk.new) result }
    ensures leads { D.leads disk.old disk.new }
{
    match disk.len() {
        Ok(len) => Ok(len == 0),
        Err(_) => Err(OpenFault::ReadFault),
    }
}

/// The journal of the area that is taken of two, each `None` where its disk has no head, and what is held
/// of its log.
fn open_areas(alloc: Global, main: Option<Area>, spare: Option<Area>) -> Result<Loaded, OpenFault>
    ensures { OpensBoth main spare result }
{
    let Some(main) = main else {
        return Err(OpenFault::from(bad_head(Part::Main)));
    };
    let Some(spare) = spare else {
        return Err(OpenFault::from(bad_head(Part::Spare)));
    };
    let (on_spare, replay) = read_areas(alloc, &main, &spare)?;
    let taken = if on_spare { spare } else { main };
    let (journal, _) = Journal::of_area(alloc, taken)?;
    Ok(Loaded {
        journal,
        on_spare,
        replay,
    })
}

/// How many calls of the disks failed, after an opening that failed by this.
pub(crate) fn tallied(faults: u64, fault: OpenFault) -> u64
    ensures { result ≡ tallied faults fault }
{
    match fault {
        OpenFault::ReadFault | OpenFault::SyncFault => faults.saturating_add(1),
        OpenFault::BadJournal { .. } | OpenFault::TooLong { .. } | OpenFault::NoMemory => faults,
    }
}
