//! The first load of a shard.
ghost use Rattle.std.specs.Prelude.{◌≡◌, ◌≢◌, ◌≤◌, ◌++◌, ◌∷◌, [], ℕ, List as Items, IfOk, IfErr, OnOk, true, false};
ghost use Rattle.record_codec.specs.declared.records.Rec.{Rec as Record};
ghost use Rattle.record_log.specs.Opening.{OpenCauses, fault_alone};
ghost use Rattle.record_log.specs.Standing.{EachStandsFor, SinceStandFor, SinceStandOrTorn, IsUntorn};
ghost use Rattle.shard_machine.specs.Legal.{IsLegal};
ghost use Rattle.shard_machine.specs.Steps.{end_after};
ghost use Rattle.shard_machine.specs.Views.{View};
ghost use Rattle.log_replay.specs.Replays.{IsReplayOf};
ghost use Rattle.shard_table.specs.Holding.{Holds};
ghost use Rattle.shard_calls.specs.DeviceCalls.{AppendsAtMost};
ghost use Rattle.shard_calls.specs.FirstLoads.{IsLoaded, LoadFails, LoadDoes, OnLog, OpeningFails, has_opening, held_of, opened_log, opened_logs};
ghost use Rattle.shard_calls.specs.Memories.{at};
ghost use Rattle.shard_calls.specs.Shards.{Keeps, IsFor};

use crate::adding::{AddFault, add_opening};
use crate::memory::Memory;
use leaf_edges::Disk;
use log_replay::Replay;
use record_log::{OpenFault, RecordLog};
use std::alloc::Global;

/// Opens the log of two disks, adds its next opening, and answers by this memory from then on. A fault
/// gives the disks back.
pub(crate) fn load_log<D: Disk>(
    alloc: Global,
    main: D,
    spare: D,
    memory: &mut Memory,
) -> Result<RecordLog<D>, (OpenFault, D, D)>
    ensures loaded { (v : View) → Holds memory.old.table v → IfOk result (λ log. IsLoaded D.tells D.seen D.images main spare v.node (at memory.new log)) }
    ensures counts { IfOk result (λ log. log.faults ≡ 0) }
    ensures fault { D.tells → IfErr result (λ failed. LoadFails (D.seen main) (D.seen spare) failed.0) }
    ensures any_moment { (t u : ℕ) (logs : Items (Items Record)) → D.tells → D.seen main ≢ [] → D.seen spare ≢ [] → t ≤ D.moment main → u ≤ D.moment spare →
        SinceStandFor D.left_since t u main spare logs → OnLog (λ m s. SinceStandFor D.left_since t u m s (logs ++ opened_logs logs)) result }
    ensures from_empty { (t u : ℕ) (logs : Items (Items Record)) → D.tells → t ≤ D.moment main → u ≤ D.moment spare →
        SinceStandFor D.left_since t u main spare logs → OnLog (SinceStandOrTorn D.seen D.images D.left_since t u main spare (logs ++ opened_logs logs)) result }
    ensures later { D.tells → OnLog (λ m s. (D.moment main ≤ D.moment m) × (D.moment spare ≤ D.moment s)) result }
    ensures calls { D.tells → OnLog (LoadDoes D.seen D.unsynced D.done main spare) result }
    ensures cause { OnLog (λ m s. OpenCauses D.faults main spare m s (fault_alone result)) result }
    ensures leads { OnLog (λ m s. D.leads main m × D.leads spare s) result }
{
    match RecordLog::open(alloc, main, spare) {
        Ok((log, streams)) => {
            let mut log = log;
            match open_first(alloc, &mut log, memory, streams) {
                Ok(()) => Ok(log),
                Err(fault) => {
                    let (main, spare) = log.close();
                    Err((fault, main, spare))
                }
            }
        }
        Err(failed) => Err(failed),
    }
}

/// Adds the next opening to the log that was just opened and left these streams, and answers by them from
/// then on.
fn open_first<D: Disk>(
    alloc: Global,
    log: &mut RecordLog<D>,
    memory: &mut Memory,
    streams: Replay,
) -> Result<(), OpenFault>
    requires is_open { log.old.is_open ≡ true }
    requires replayed { (before : Items Record) × IsLegal before × IsReplayOf streams before }
    ensures keeps { (v : View) (before : Items Record) → Holds memory.old.table v → IsLegal before → IsReplayOf streams before → log.old.end ≡ end_after 17 before →
        OnOk result ((has_opening before ≡ true) × Keeps (at memory.new log.new) (held_of v.node (opened_log before))) }
    ensures stands { (node : Items ℕ) (before : Items Record) → D.tells → IsLegal before → IsReplayOf streams before → log.old.end ≡ end_after 17 before →
        EachStandsFor D.images log.old.main log.old.spare (before ∷ []) → OnOk result (IsFor D.images log.new (held_of node (opened_log before)) (opened_log before)) }
    ensures fault { (before : Items Record) → IsLegal before → IsReplayOf streams before → log.old.end ≡ end_after 17 before → IfErr result (OpeningFails before) }
    ensures any_moment { (t u : ℕ) (before : Items Record) (logs : Items (Items Record)) → D.tells → t ≤ D.moment log.old.main → u ≤ D.moment log.old.spare →
        IsLegal before → IsReplayOf streams before → log.old.end ≡ end_after 17 before → EachStandsFor D.images log.old.main log.old.spare (before ∷ []) →
        SinceStandFor D.left_since t u log.old.main log.old.spare logs → SinceStandFor D.left_since t u log.new.main log.new.spare (opened_log before ∷ logs) }
    ensures since_opened { (t u : ℕ) (main spare : D) (before : Items Record) (logs : Items (Items Record)) → D.tells → t ≤ D.moment log.old.main → u ≤ D.moment log.old.spare →
        IsLegal before → IsReplayOf streams before → log.old.end ≡ end_after 17 before → EachStandsFor D.images log.old.main log.old.spare (before ∷ []) →
        IsUntorn D.seen D.images true main log.old.main → IsUntorn D.seen D.images false spare log.old.spare →
        SinceStandOrTorn D.seen D.images D.left_since t u main spare logs log.old.main log.old.spare → SinceStandOrTorn D.seen D.images D.left_since t u main spare (opened_log before ∷ logs) log.new.main log.new.spare }
    ensures later { D.tells → (D.moment log.old.main ≤ D.moment log.new.main) × (D.moment log.old.spare ≤ D.moment log.new.spare) }
    ensures counts { OnOk result (log.new.faults ≡ log.old.faults) }
    ensures calls { D.tells → AppendsAtMost D.done log.old log.new }
    ensures cause { OpenCauses D.faults log.old.main log.old.spare log.new.main log.new.spare result }
    ensures leads { D.leads log.old.main log.new.main × D.leads log.old.spare log.new.spare }
{
    let numbered = streams.boot < (1 << 63) - 1;
    let number = streams.boot.saturating_add(1);
    match add_opening(alloc, log, number, numbered) {
        Ok(()) => {
            memory.open(streams);
            Ok(())
        }
        Err(AddFault::DiskFault) => Err(OpenFault::SyncFault),
        Err(AddFault::Full { end, need }) => Err(OpenFault::TooLong {
            len: end.saturating_add(need),
        }),
        Err(AddFault::NoMemory) => Err(OpenFault::NoMemory),
    }
}
