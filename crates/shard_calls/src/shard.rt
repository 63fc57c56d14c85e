ghost use Rattle.std.specs.Prelude.{◌≡◌, ◌≢◌, ◌≤◌, ◌++◌, ◌&&◌, [], ℕ, List as Items, true, false, None, IfOk, IfErr, if◌then◌else◌};
ghost use Rattle.mem_disk.specs.MemDisks.{DiskState};
ghost use Rattle.record_codec.specs.declared.records.Rec.{Rec as Record};
ghost use Rattle.record_log.specs.Fuses.{fused};
ghost use Rattle.record_log.specs.Opening.{OpenCauses, fault_alone};
ghost use Rattle.record_log.specs.Standing.{SinceStandFor, SinceStandOrTorn};
ghost use Rattle.shard_machine.specs.Images.{live_in};
ghost use Rattle.shard_machine.specs.Steps.{Held, view_in};
ghost use Rattle.shard_table.specs.Holding.{copy_seen, match_seen};
ghost use Rattle.shard_calls.specs.Causes.{CallCauses, is_unread};
ghost use Rattle.shard_calls.specs.DeviceCalls.{AppendsOf, CallDoes, LoadsAndAppends};
ghost use Rattle.shard_calls.specs.FirstLoads.{IsLoaded, LoadFails, LoadDoes, OnDisks, opened_logs};
ghost use Rattle.shard_calls.specs.LogsRead.{StepsFromRead};
ghost use Rattle.shard_calls.specs.Shards.{Keeps, IsFor, StepsFrom, StepsOn};

use crate::calls::answer;
use crate::memory::Memory;
use crate::opening::load_log;
use leaf_edges::Disk;
use mem_disk::{Fate, MemDisk};
use nats_text::{List, Name, Pattern};
use record_log::{OpenFault, RecordLog};
use replica_ask::Phase;
use shard_machine::{ShardCall, ShardReply};
use shard_table::Table;
use std::alloc::Global;
use std::marker::Model;
use stream_fold::BoundTo;

/// A shard: its log on two disks, and all that it answers by in memory. Contracts see what it keeps in
/// memory and its log. After a fault of a disk it loads again at its next call.
#[derive(Drop)]
pub struct Shard<D: Disk> {
    alloc: Global,
    log: RecordLog<D>,
    memory: Memory,
}

impl<D: Disk> Model for Shard<D> {
    ghost use Rattle.std.specs.Coded.{codes};
    ghost use Rattle.shard_calls.specs.Memories.{ShardState, shard_code};
    ghost use Rattle.shard_calls.specs.contracts.memory.Memory as memory_row;

    ghost Value = { ShardState D };

    ghost coded = { shard_code memory_row.the_row.coded D.code };

    ghost view = { λ s. record { memory = s.memory; log = s.log } };
}

impl<D: Disk> Shard<D> {
    /// Loads the shard of this node from its two disks: formats each that is empty, reads the log for which
    /// they stand, and adds the next opening to it.
    ///
    /// A fault gives the disks back. `TooLong` comes first where a disk is too long, then `BadJournal`; last
    /// comes `TooLong` where the opening has no room, with the bytes that the journal would have with it, up to
    /// `2^64 - 1`. After `SyncFault` the opening may be in the log or not.
    pub fn load(alloc: Global, disk: D, spare: D, node: Name) -> Result<Shard<D>, (OpenFault, D, D)>
        ensures loaded { IfOk result (IsLoaded D.tells D.seen D.images disk spare node) }
        ensures counts { IfOk result (λ shard. shard.log.faults ≡ 0) }
        ensures fault { D.tells → IfErr result (λ failed. LoadFails (D.seen disk) (D.seen spare) failed.0) }
        // Whatever logs two disks with bytes stood for, they stand for them, or for one with its next
        // opening, at each moment.
        ensures any_moment { (t u : ℕ) (logs : Items (Items Record)) → D.tells → D.seen disk ≢ [] → D.seen spare ≢ [] → t ≤ D.moment disk → u ≤ D.moment spare →
            SinceStandFor D.left_since t u disk spare logs → OnDisks (λ m s. SinceStandFor D.left_since t u m s (logs ++ opened_logs logs)) result }
        // The same whatever the disks held, but for a torn write of the new area on a disk that was empty.
        ensures from_empty { (t u : ℕ) (logs : Items (Items Record)) → D.tells → t ≤ D.moment disk → u ≤ D.moment spare →
            SinceStandFor D.left_since t u disk spare logs → OnDisks (SinceStandOrTorn D.seen D.images D.left_since t u disk spare (logs ++ opened_logs logs)) result }
        ensures later { D.tells → OnDisks (λ m s. (D.moment disk ≤ D.moment m) × (D.moment spare ≤ D.moment s)) result }
        ensures calls { D.tells → OnDisks (LoadDoes D.seen D.unsynced D.done disk spare) result }
        ensures cause { OnDisks (λ m s. OpenCauses D.faults disk spare m s (fault_alone result)) result }
        ensures leads { OnDisks (λ m s. D.leads disk m × D.leads spare s) result }
    {
        let mut memory = Memory::new(Table::new(alloc, node));
        match load_log(alloc, disk, spare, &mut memory) {
            Ok(log) => Ok(Shard { alloc, log, memory }),
            Err(failed) => Err(failed),
        }
    }

    /// Answers a call, which its caller keeps. A shard that isn't loaded loads first.
    pub fn answer(&mut self, call: &ShardCall) -> ShardReply
        ensures loaded { (h : Held) → Keeps self.old h → h.loaded ≡ true → StepsFrom call.now result self.new h }
        // On whatever disks, a call that loads first is a step from what some log leaves, or is refused by
        // what kept the shard from loading.
        ensures read { (h : Held) → Keeps self.old h → h.loaded ≡ false → StepsFromRead call.now result self.new h }
        ensures on { (h : Held) (before : Items Record) → D.tells → Keeps self.old h → IsFor D.images self.old.log h before →
            StepsOn D.images D.moment D.left_since self.old.log call.now result self.new h before }
        // Disks that stand for a log are never told to hold none, or to be too long.
        ensures stood { (h : Held) (before : Items Record) → D.tells → Keeps self.old h → IsFor D.images self.old.log h before → is_unread result.outcome ≡ false }
        ensures cause { CallCauses D.faults self.old.log self.new.log result }
        ensures calls { D.tells → CallDoes D.seen D.unsynced D.done (self.old.memory.loaded && self.old.log.is_open) self.old.log self.new.log }
        ensures appends { (h : Held) → D.tells → Keeps self.old h → h.loaded ≡ true → AppendsOf D.done self.old.log self.new.log call.now h }
        ensures loads { (h : Held) (before : Items Record) → D.tells → Keeps self.old h → IsFor D.images self.old.log h before → h.loaded ≡ false →
            LoadsAndAppends D.seen D.unsynced D.done self.old.log self.new.log call.now h }
        ensures leads { D.leads self.old.log.main self.new.log.main × D.leads self.old.log.spare self.new.log.spare }
    {
        answer(self.alloc, &mut self.log, &mut self.memory, call)
    }

    /// Answers a call as [`answer`](Shard::answer) does, and lets it go.
    pub fn call(&mut self, call: ShardCall) -> ShardReply
        ensures loaded { (h : Held) → Keeps self.old h → h.loaded ≡ true → StepsFrom call result self.new h }
        // On whatever disks, a call that loads first is a step from what some log leaves, or is refused by
        // what kept the shard from loading.
        ensures read { (h : Held) → Keeps self.old h → h.loaded ≡ false → StepsFromRead call result self.new h }
        ensures on { (h : Held) (before : Items Record) → D.tells → Keeps self.old h → IsFor D.images self.old.log h before →
            StepsOn D.images D.moment D.left_since self.old.log call result self.new h before }
        // Disks that stand for a log are never told to hold none, or to be too long.
        ensures stood { (h : Held) (before : Items Record) → D.tells → Keeps self.old h → IsFor D.images self.old.log h before → is_unread result.outcome ≡ false }
        ensures cause { CallCauses D.faults self.old.log self.new.log result }
        ensures calls { D.tells → CallDoes D.seen D.unsynced D.done (self.old.memory.loaded && self.old.log.is_open) self.old.log self.new.log }
        ensures appends { (h : Held) → D.tells → Keeps self.old h → h.loaded ≡ true → AppendsOf D.done self.old.log self.new.log call h }
        ensures loads { (h : Held) (before : Items Record) → D.tells → Keeps self.old h → IsFor D.images self.old.log h before → h.loaded ≡ false →
            LoadsAndAppends D.seen D.unsynced D.done self.old.log self.new.log call h }
        ensures leads { D.leads self.old.log.main self.new.log.main × D.leads self.old.log.spare self.new.log.spare }
    {
        let reply = self.answer(&call);
        drop(call);
        reply
    }

    /// How many calls of its disks failed since it was loaded, up to `2^64 - 1`.
    pub fn faults(&self) -> u64
        ensures { result ≡ self.now.log.faults }
    {
        self.log.faults()
    }

    /// The number of its last opening, as far as it is known.
    pub fn boot(&self) -> u64
        ensures { (h : Held) → Keeps self.now h → result ≡ h.image.boot }
    {
        self.memory.boot()
    }

    /// The place of the closed gate behind the last record of its journal, in bytes; 0 where it isn't loaded.
    pub fn end(&self) -> u64
        ensures { (h : Held) → Keeps self.now h → result ≡ (if h.loaded then h.end else 0) }
    {
        if self.memory.is_loaded() {
            self.log.end()
        } else {
            0
        }
    }

    /// How far the copy of a stream is with its origin, which has this index, and what it is bound to; `None`
    /// where no such copy stands, or the shard isn't loaded.
    pub fn copy(&self, stream: &Name, index: u32) -> Option<(Phase, Option<BoundTo>)>
        ensures loaded { (h : Held) → Keeps self.now h → h.loaded ≡ true → result ≡ copy_seen (view_in h) stream.now index }
        ensures unloaded { (h : Held) → Keeps self.now h → h.loaded ≡ false → result ≡ None }
    {
        if self.memory.is_loaded() {
            self.memory.copy(stream, index)
        } else {
            None
        }
    }

    /// The least kept number of a stream at or after `from` of a subject that one of the filters matches. All
    /// subjects match where there is no filter. `None` also where no such stream stands.
    pub fn next_match(&self, stream: &Name, from: u64, filters: &List<Pattern>) -> Option<u64>
        ensures { (h : Held) → Keeps self.now h → result ≡ match_seen from filters.now (live_in h.image stream.now) }
    {
        self.memory.next_match(stream, from, filters)
    }

    /// Gives the disks back, the main one first.
    pub fn close(self) -> (D, D)
        ensures { result ≡ (self.log.main, self.log.spare) }
    {
        let Shard { log, .. } = self;
        log.close()
    }
}

impl Shard<MemDisk> {
    /// Sets the fuse of the disk that counts, and with 0 takes the fuses of both away.
    pub fn fuse(&mut self, call: u64, fate: Fate)
        ensures { self.new ≡ record self.old { log = fused self.old.log call fate } }
    {
        self.log.fuse(call, fate);
    }
}
