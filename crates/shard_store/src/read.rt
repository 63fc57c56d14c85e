ghost use Rattle.std.specs.Option.{option_map};
ghost use Rattle.leaf_edges.specs.Disks.{Unchanged, Elapses};
ghost use Rattle.record_log.specs.Stores.{OnSpares, StoreCauses};
ghost use Rattle.shard_store.specs.Reads.{ReadsStore};

use crate::list::streams;
use crate::{Facts, StoreFault};
use leaf_edges::Disk;
use nats_text::List;
use record_log::read_store;
use std::alloc::Global;
use stream_fold::Numbered;

/// Reads the log for which two disks of a shard stand, and gives the number of its last opening and the
/// streams that stand at its end, in byte order of their names: the facts of each, and the messages that
/// are kept. A spare that isn't there holds nothing. It writes and syncs nothing.
///
/// `TooLong` comes first, then `BadJournal`: a disk without a head, at place 0; no area that counts, at
/// place 8; a disk that ends where a gate is due; an open gate without a record that may follow. Each is
/// sought on the first disk before the spare.
pub fn read_streams<D: Disk>(
    alloc: Global,
    disk: &mut D,
    spare: &mut Option<D>,
) -> Result<(u64, List<(Facts, List<Numbered>)>), StoreFault>
    ensures answer { D.tells → ReadsStore (D.seen disk.old) (option_map D.seen spare.old) result }
    ensures same { D.tells → Unchanged D.seen D.images D.unsynced D.done D.failed disk.old disk.new }
    ensures time { D.tells → Elapses D.moment D.left_since D.images disk.old disk.new }
    ensures spare_same { D.tells → OnSpares (Unchanged D.seen D.images D.unsynced D.done D.failed) spare.old spare.new }
    ensures spare_time { D.tells → OnSpares (Elapses D.moment D.left_since D.images) spare.old spare.new }
    ensures cause { StoreCauses D.faults disk.old disk.new spare.old spare.new result }
    ensures leads { D.leads disk.old disk.new }
    ensures spare_leads { OnSpares D.leads spare.old spare.new }
{
    let replay = read_store(alloc, disk, spare)?;
    let shown = streams(alloc, &replay)?;
    Ok((replay.boot, shown))
}
