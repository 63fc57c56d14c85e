ghost use Rattle.std.specs.Prelude.{◌≡◌, ◌&&◌, List as Items, true, false, OnOk, OnErr, IfErr};
ghost use Rattle.record_codec.specs.declared.records.Rec.{Rec as Record};
ghost use Rattle.shard_machine.specs.Images.{image};
ghost use Rattle.shard_machine.specs.Legal.{IsLegal};
ghost use Rattle.shard_machine.specs.Steps.{Held, view_in, end_after};
ghost use Rattle.shard_machine.specs.Views.{View, Effect};
ghost use Rattle.log_replay.specs.Replays.{IsReplayOf};
ghost use Rattle.shard_table.specs.Answering.{record_in};
ghost use Rattle.shard_calls.specs.Causes.{CallCauses, ReadyCauses, is_unread, is_unreadable};
ghost use Rattle.shard_calls.specs.DeviceCalls.{AppendsAtMost, AppendsFront, AppendsOf, CallDoes, LoadsAndAppends, LoadsFront, LoadsOf, OpeningOf};
ghost use Rattle.shard_calls.specs.LogsRead.{ReadsOrNot, StepsFromRead};
ghost use Rattle.shard_calls.specs.Memories.{at};
ghost use Rattle.shard_calls.specs.PreparedCalls.{IsReadyIn};
ghost use Rattle.shard_calls.specs.Shards.{Keeps, IsFor, StepsFrom, StepsOn, Readies, IsReread};

use crate::adding::{AddFault, add, add_opening};
use crate::doubt::{Failure, doubted_entry, not_opened, refusing};
use crate::memory::Memory;
use leaf_edges::Disk;
use log_replay::Replay;
use record_codec::Rec;
use record_log::RecordLog;
use shard_machine::{ShardCall, ShardRefusal, ShardReply, refused};
use shard_table::{Answered, Prepared};
use std::alloc::Global;

/// Answers a call; a shard that isn't loaded loads first.
pub(crate) fn answer<D: Disk>(
    alloc: Global,
    log: &mut RecordLog<D>,
    memory: &mut Memory,
    call: &ShardCall,
) -> ShardReply
    ensures loaded { (h : Held) → Keeps (at memory.old log.old) h → h.loaded ≡ true → StepsFrom call.now result (at memory.new log.new) h }
    ensures read { (h : Held) → Keeps (at memory.old log.old) h → h.loaded ≡ false → StepsFromRead call.now result (at memory.new log.new) h }
    ensures on { (h : Held) (before : Items Record) → D.tells → Keeps (at memory.old log.old) h → IsFor D.images log.old h before →
        StepsOn D.images D.moment D.left_since log.old call.now result (at memory.new log.new) h before }
    ensures stood { (h : Held) (before : Items Record) → D.tells → Keeps (at memory.old log.old) h → IsFor D.images log.old h before → is_unread result.outcome ≡ false }
    ensures cause { CallCauses D.faults log.old log.new result }
    ensures calls { D.tells → CallDoes D.seen D.unsynced D.done (memory.old.loaded && log.old.is_open) log.old log.new }
    ensures appends { (h : Held) → D.tells → Keeps (at memory.old log.old) h → h.loaded ≡ true → AppendsOf D.done log.old log.new call.now h }
    ensures loads { (h : Held) (before : Items Record) → D.tells → Keeps (at memory.old log.old) h → IsFor D.images log.old h before → h.loaded ≡ false →
        LoadsAndAppends D.seen D.unsynced D.done log.old log.new call.now h }
    ensures leads { D.leads log.old.main log.new.main × D.leads log.old.spare log.new.spare }
{
    match ready(alloc, log, memory) {
        Ok(()) => perform(alloc, log, memory, call),
        Err(failure) => {
            let Failure { why, doubted } = failure;
            refused(alloc, call, why, doubted)
        }
    }
}

/// Answers a call of a shard that is loaded.
pub(crate) fn perform<D: Disk>(
    alloc: Global,
    log: &mut RecordLog<D>,
    memory: &mut Memory,
    call: &ShardCall,
) -> ShardReply
    requires loaded { memory.old.loaded ≡ true }
    requires is_open { log.old.is_open ≡ true }
    ensures loaded { (h : Held) → Keeps (at memory.old log.old) h → StepsFrom call.now result (at memory.new log.new) h }
    ensures on { (h : Held) (before : Items Record) → D.tells → Keeps (at memory.old log.old) h → IsFor D.images log.old h before →
        StepsOn D.images D.moment D.left_since log.old call.now result (at memory.new log.new) h before }
    ensures cause { CallCauses D.faults log.old log.new result }
    ensures calls { D.tells → AppendsAtMost D.done log.old log.new }
    ensures appends { (h : Held) → D.tells → Keeps (at memory.old log.old) h → AppendsOf D.done log.old log.new call.now h }
    ensures leads { D.leads log.old.main log.new.main × D.leads log.old.spare log.new.spare }
{
    match memory.answer(call) {
        Err(why) => refused(alloc, call, why, None),
        Ok(Answered::Done(reply)) => reply,
        Ok(Answered::Append(prepared)) => write(alloc, log, memory, call, prepared),
    }
}

/// Adds the record of a call that is prepared, and does the rest of what the call does.
fn write<D: Disk>(
    alloc: Global,
    log: &mut RecordLog<D>,
    memory: &mut Memory,
    call: &ShardCall,
    prepared: Prepared,
) -> ShardReply
    requires loaded { memory.old.loaded ≡ true }
    requires is_open { log.old.is_open ≡ true }
    requires is_prepared { (v : View) × (e : Effect) × IsReadyIn memory.old.table prepared call.now v e }
    ensures loaded { (h : Held) (e : Effect) → Keeps (at memory.old log.old) h → IsReadyIn memory.old.table prepared call.now (view_in h) e →
        StepsFrom call.now result (at memory.new log.new) h }
    ensures on { (h : Held) (e : Effect) (before : Items Record) → D.tells → Keeps (at memory.old log.old) h → IsFor D.images log.old h before → IsReadyIn memory.old.table prepared call.now (view_in h) e →
        StepsOn D.images D.moment D.left_since log.old call.now result (at memory.new log.new) h before }
    ensures cause { CallCauses D.faults log.old log.new result }
    ensures calls { D.tells → AppendsFront D.done log.old log.new (record_in prepared) }
    ensures leads { D.leads log.old.main log.new.main × D.leads log.old.spare log.new.spare }
{
    let numbered = memory.has_number(prepared.record());
    match add(alloc, log, prepared.record(), numbered) {
        Ok(()) => memory.commit(prepared, call),
        Err(AddFault::DiskFault) => {
            let doubted = memory.leave_in_doubt(prepared);
            refused(alloc, call, ShardRefusal::DiskFault, doubted)
        }
        Err(AddFault::Full { end, need }) => {
            refused(alloc, call, ShardRefusal::JournalFull { end, need }, None)
        }
        Err(AddFault::NoMemory) => refused(alloc, call, ShardRefusal::NoMemory, None),
    }
}

/// Loads, where it isn't loaded.
pub(crate) fn ready<D: Disk>(
    alloc: Global,
    log: &mut RecordLog<D>,
    memory: &mut Memory,
) -> Result<(), Failure>
    ensures ready { OnOk result ((memory.new.loaded ≡ true) × (log.new.is_open ≡ true)) }
    ensures loaded { (h : Held) → Keeps (at memory.old log.old) h → h.loaded ≡ true → OnOk result (Keeps (at memory.new log.new) h) }
    ensures was { (h : Held) → Keeps (at memory.old log.old) h → OnErr result (h.loaded ≡ false) }
    ensures read { (h : Held) → Keeps (at memory.old log.old) h → h.loaded ≡ false → ReadsOrNot h (at memory.new log.new) result }
    ensures on { (h : Held) (before : Items Record) → D.tells → Keeps (at memory.old log.old) h → IsFor D.images log.old h before →
        Readies D.images D.moment D.left_since log.old (at memory.new log.new) h before result }
    ensures stood { (h : Held) (before : Items Record) → D.tells → Keeps (at memory.old log.old) h → IsFor D.images log.old h before → IfErr result (λ failure. is_unreadable failure.why ≡ false) }
    ensures same { (memory.old.loaded && log.old.is_open) ≡ true → log.new ≡ log.old }
    ensures cause { ReadyCauses D.faults log.old log.new result }
    ensures calls { D.tells → LoadsFront D.seen D.unsynced D.done log.old log.new }
    ensures opens { (h : Held) (before : Items Record) → D.tells → Keeps (at memory.old log.old) h → IsFor D.images log.old h before → h.loaded ≡ false →
        LoadsOf D.seen D.unsynced D.done log.old log.new h }
    ensures leads { D.leads log.old.main log.new.main × D.leads log.old.spare log.new.spare }
{
    if is_ready(log, memory) {
        return Ok(());
    }
    memory.unload();
    let Ok(doubted) = doubted_entry(memory.doubt()) else {
        return Err(refusing(ShardRefusal::NoMemory));
    };
    match log.reopen() {
        Ok(streams) => begin(alloc, log, memory, streams),
        Err(fault) => Err(not_opened(fault, doubted)),
    }
}

/// Whether a shard answers without reading its disks first.
fn is_ready<D: Disk>(log: &RecordLog<D>, memory: &Memory) -> bool
    ensures { result ≡ (memory.now.loaded && log.now.is_open) }
{
    memory.is_loaded() && log.is_open()
}

/// Adds the next opening to the log that was just read and left these streams, and answers by them from
/// then on.
fn begin<D: Disk>(
    alloc: Global,
    log: &mut RecordLog<D>,
    memory: &mut Memory,
    streams: Replay,
) -> Result<(), Failure>
    requires is_open { log.old.is_open ≡ true }
    requires replayed { (before : Items Record) × IsLegal before × IsReplayOf streams before }
    ensures ready { OnOk result ((memory.new.loaded ≡ true) × (log.new.is_open ≡ true)) }
    ensures read { (h : Held) (before : Items Record) → Keeps (at memory.old log.old) h → h.loaded ≡ false → IsLegal before → IsReplayOf streams before → log.old.end ≡ end_after 17 before →
        ReadsOrNot h (at memory.new log.new) result }
    ensures on { (h : Held) (before settled : Items Record) → D.tells → Keeps (at memory.old log.old) h → IsReread D.images log.old streams h before settled →
        Readies D.images D.moment D.left_since log.old (at memory.new log.new) h before result }
    ensures stood { IfErr result (λ failure. is_unreadable failure.why ≡ false) }
    ensures cause { ReadyCauses D.faults log.old log.new result }
    ensures calls { D.tells → AppendsAtMost D.done log.old log.new }
    ensures opens { (h : Held) (before settled : Items Record) → D.tells → Keeps (at memory.old log.old) h → IsReread D.images log.old streams h before settled → OpeningOf D.done log.old log.new h }
    ensures leads { D.leads log.old.main log.new.main × D.leads log.old.spare log.new.spare }
{
    let numbered = streams.boot < (1 << 63) - 1;
    let number = streams.boot.saturating_add(1);
    match add_opening(alloc, log, number, numbered) {
        Ok(()) => {
            memory.open(streams);
            Ok(())
        }
        Err(AddFault::DiskFault) => {
            memory.leave_opening_in_doubt(streams, number);
            Err(refusing(ShardRefusal::DiskFault))
        }
        Err(AddFault::Full { end, need }) => {
            Err(refusing(ShardRefusal::JournalFull { end, need }))
        }
        Err(AddFault::NoMemory) => Err(refusing(ShardRefusal::NoMemory)),
    }
}
