ghost use Rattle.std.specs.Prelude.{◌≡◌, ◌<◌, ◌+◌, ◌^◌, ◌≤◌, List as Items, true, false, Some, None, IfOk};
ghost use Rattle.record_codec.specs.declared.records.Rec.{Rec as Record};
ghost use Rattle.shard_machine.specs.Images.{image, live_in, next};
ghost use Rattle.shard_machine.specs.Legal.{IsLegal};
ghost use Rattle.shard_machine.specs.Logs.{boot};
ghost use Rattle.shard_machine.specs.Steps.{entry_of, has_number};
ghost use Rattle.shard_machine.specs.Views.{View, Effect};
ghost use Rattle.log_replay.specs.Replays.{IsReplayOf};
ghost use Rattle.shard_table.specs.Answering.{Gives, record_in};
ghost use Rattle.shard_table.specs.Effects.{opened, effected};
ghost use Rattle.shard_table.specs.Holding.{Holds, copy_seen, match_seen};

use log_replay::Replay;
use nats_text::{List, Name, Pattern};
use record_codec::Rec;
use replica_ask::Phase;
use shard_machine::{ShardCall, ShardRefusal, ShardReply};
use shard_table::{Answered, Prepared, Table};
use std::marker::Model;
use stream_fold::{BoundTo, Entry};

/// What a shard keeps in memory, beside its log.
#[derive(Drop)]
pub(crate) struct Memory {
    table: Table,
    /// Whether the shard answers without reading its disks first.
    loaded: bool,
    /// The record that the log may have or not, since a disk failed while it was written.
    doubt: Option<Rec>,
}

impl Model for Memory {
    ghost use Rattle.std.specs.Coded.{codes};
    ghost use Rattle.record_codec.specs.contracts.records.Rec as rec_row;
    ghost use Rattle.shard_table.specs.contracts.table.Table as table_row;
    ghost use Rattle.shard_calls.specs.Memories.{MemoryParts, IsWhole};

    ghost Value = { MemoryParts };

    ghost coded = { Prim.hlevel (codes, table_row.the_row.coded, rec_row.the_row.coded) };

    ghost view = { λ m. record { table = m.table; loaded = m.loaded; doubt = m.doubt } };

    ghost invariant = { λ m. IsWhole m.loaded m.table };
}

impl Memory {
    ghost use Rattle.shard_calls.specs.Causes.{tells_fault};
    ghost use Rattle.shard_calls.specs.PreparedCalls.{IsReadyIn, IsReadyToAppend};
    ghost use Rattle.shard_machine.specs.declared.call.ShardCall.{ShardCall as Called};
    ghost use Rattle.shard_table.specs.declared.table.Table.{Table as Holder};

    /// What a shard keeps that has read nothing yet.
    pub fn new(table: Table) -> Memory
        requires { (v : View) × Holds table v }
        ensures table { result.table ≡ table }
        ensures loaded { result.loaded ≡ false }
        ensures doubt { result.doubt ≡ None }
    {
        Memory {
            table,
            loaded: false,
            doubt: None,
        }
    }

    /// Whether the shard answers without reading its disks first.
    pub fn is_loaded(&self) -> bool
        ensures { result ≡ self.now.loaded }
    {
        self.loaded
    }

    /// The record in doubt.
    pub fn doubt(&self) -> &Option<Rec>
        ensures { result.now ≡ self.now.doubt }
    {
        &self.doubt
    }

    /// The shard reads its disks before it answers again.
    pub fn unload(&mut self)
        ensures table { self.new.table ≡ self.old.table }
        ensures loaded { self.new.loaded ≡ false }
        ensures doubt { self.new.doubt ≡ self.old.doubt }
    {
        self.loaded = false;
    }

    /// Answers a call of a shard that is loaded, or prepares the record that it makes.
    pub fn answer(&mut self, call: &ShardCall) -> Result<Answered, ShardRefusal>
        requires { self.old.loaded ≡ true }
        ensures gives { (v : View) → Holds self.old.table v → Gives v call.now result self.new.table }
        ensures prepared { IfOk result (IsReadyToAppend self.new.table call.now) }
        ensures faultless { tells_fault result ≡ false }
        ensures loaded { self.new.loaded ≡ true }
        ensures doubt { self.new.doubt ≡ self.old.doubt }
    {
        self.table.answer(call)
    }

    /// Whether the numbers that a record makes are below `2^63`.
    pub fn has_number(&self, it: &Rec) -> bool
        ensures { (v : View) → Holds self.now.table v → result ≡ has_number v.image it.now }
    {
        self.table.has_number(it)
    }

    /// Does what a call does whose record is in the log now.
    pub fn commit(&mut self, prepared: Prepared, call: &ShardCall) -> ShardReply
        requires loaded { self.old.loaded ≡ true }
        requires ready { (v : View) × (e : Effect) × IsReadyIn self.old.table prepared call.now v e × (has_number v.image (record_in prepared) ≡ true) }
        ensures done { (v : View) (e : Effect) → IsReadyIn self.old.table prepared call.now v e → has_number v.image (record_in prepared) ≡ true →
            (result ≡ e.reply) × Holds self.new.table (effected v e) }
        ensures loaded { self.new.loaded ≡ true }
        ensures doubt { self.new.doubt ≡ self.old.doubt }
    {
        self.table.commit(prepared, call)
    }

    /// The record of a call may be in the log or not. It gives the record's entry.
    pub fn leave_in_doubt(&mut self, prepared: Prepared) -> Option<Entry>
        requires { (t : Holder) × (called : Called) × (v : View) × (e : Effect) × IsReadyIn t prepared called v e }
        ensures entry { result ≡ entry_of (record_in prepared) }
        ensures table { self.new.table ≡ self.old.table }
        ensures loaded { self.new.loaded ≡ false }
        ensures doubt { self.new.doubt ≡ Some (record_in prepared) }
    {
        let (it, entry) = prepared.into_doubt();
        self.doubt = Some(it);
        self.loaded = false;
        entry
    }

    /// The log was read, and an opening was added to it.
    pub fn open(&mut self, streams: Replay)
        requires { (log : Items Record) × IsLegal log × IsReplayOf streams log × (boot log + 1 < 2 ^ 63) }
        ensures holds { (v : View) (log : Items Record) → Holds self.old.table v → IsLegal log → IsReplayOf streams log → boot log + 1 < 2 ^ 63 →
            Holds self.new.table (opened v.node (next (image log) (Record.Boot (boot log + 1)))) }
        ensures loaded { self.new.loaded ≡ true }
        ensures doubt { self.new.doubt ≡ None }
    {
        self.table.reload(streams);
        self.table.open();
        self.doubt = None;
        self.loaded = true;
    }

    /// The log was read, and an opening may be in it or not.
    pub fn leave_opening_in_doubt(&mut self, streams: Replay, number: u64)
        requires { (log : Items Record) × IsLegal log × IsReplayOf streams log }
        ensures holds { (v : View) (log : Items Record) → Holds self.old.table v → IsLegal log → IsReplayOf streams log → Holds self.new.table (opened v.node (image log)) }
        ensures loaded { self.new.loaded ≡ false }
        ensures doubt { self.new.doubt ≡ Some (Record.Boot number) }
    {
        self.table.reload(streams);
        self.doubt = Some(Rec::Boot { boot: number });
        self.loaded = false;
    }

    /// The number of the last opening of the log, as far as it is known, else 0.
    pub fn boot(&self) -> u64
        ensures { (v : View) → Holds self.now.table v → result ≡ v.image.boot }
    {
        self.table.boot()
    }

    /// How far the copy of a stream is with its origin, which has this index, and what it is bound to.
    pub fn copy(&self, stream: &Name, index: u32) -> Option<(Phase, Option<BoundTo>)>
        ensures { (v : View) → Holds self.now.table v → result ≡ copy_seen v stream.now index }
    {
        self.table.copy(stream, index)
    }

    /// The least kept number of a stream at or after `from` of a subject that one of the filters matches.
    pub fn next_match(&self, stream: &Name, from: u64, filters: &List<Pattern>) -> Option<u64>
        ensures { (v : View) → Holds self.now.table v → result ≡ match_seen from filters.now (live_in v.image stream.now) }
    {
        self.table.next_match(stream, from, filters)
    }
}
