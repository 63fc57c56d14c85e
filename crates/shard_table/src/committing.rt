//! Calls whose records are in the journal.
ghost use Rattle.std.specs.Prelude.{◌≡◌, ℕ, Some};
ghost use Rattle.js_wire.specs.declared.packet.Packet.{Packet as Sent};
ghost use Rattle.shard_machine.specs.declared.call.ShardCall.{ShardCall as Called};
ghost use Rattle.shard_machine.specs.declared.call.ShardCall.TheVariants as calls;
ghost use Rattle.shard_machine.specs.Answers.{addressee, copy_of_asker};
ghost use Rattle.shard_machine.specs.Images.{MayFollowImage};
ghost use Rattle.shard_machine.specs.Views.{View, Effect, Copy};
ghost use Rattle.shard_copies.specs.Asked.{ShowsAskers, decided_at};
ghost use Rattle.shard_table.specs.Effects.{effected};
ghost use Rattle.shard_table.specs.Hearing.{moved_on};

use crate::hearing::addressee;
use crate::{Prepared, Table};
use js_wire::Packet;
use nats_text::{List, Name};
use record_codec::Rec;
use shard_copies::Asking;
use shard_machine::{Outcome, ShardCall, ShardReply};
use shard_streams::{PreparedCreate, PreparedEntry};
use stream_fold::Decision;
use tap_row::Notice;

impl Table {
    ghost use Rattle.shard_table.specs.Answering.{Commits, IsPrepared, MayCommit, record_in};
    ghost use Rattle.shard_table.specs.Holding.{Holds};
    ghost use Rattle.shard_table.specs.declared.answered.Prepared.TheVariants as ready;

    /// Does what was prepared for a call, once its record is in the journal. It takes no memory.
    ///
    /// Nothing else may have been called in between.
    pub fn commit(&mut self, prepared: Prepared, call: &ShardCall) -> ShardReply
        requires { (v : View) × (e : Effect) × IsPrepared self.old prepared v call.now e × MayFollowImage v.image (record_in prepared) × Holds self.old v }
        ensures { (v : View) (e : Effect) → IsPrepared self.old prepared v call.now e → MayFollowImage v.image (record_in prepared) → Holds self.old v → (result ≡ e.reply) × Holds self.new (effected v e) }
    {
        match prepared {
            Prepared::Writes { entry, outcome } => self.commit_write(entry, outcome),
            Prepared::Stores { entry, decision } => self.commit_store(entry, decision, call),
            Prepared::Binds {
                entry,
                decision,
                notices,
            } => self.commit_bind(entry, decision, notices, call),
            Prepared::Makes { stream, asking } => self.commit_make(stream, asking),
            Prepared::Takes { name, removal } => self.commit_take(name, removal),
        }
    }

    fn commit_write(&mut self, entry: PreparedEntry, outcome: Outcome) -> ShardReply
        requires { (v : View) × (e : Effect) × (called : Called) × MayCommit self.old (ready.Writes entry outcome) v called e }
        ensures { (v : View) (e : Effect) (called : Called) → MayCommit self.old (ready.Writes entry outcome) v called e → Commits v e result self.new }
    {
        let (entry, notices) = self.streams.commit_entry(entry);
        ShardReply {
            outcome,
            entry: Some(entry),
            packets: List::new(self.alloc),
            notices,
        }
    }

    fn commit_store(
        &mut self,
        entry: PreparedEntry,
        decision: Decision,
        call: &ShardCall,
    ) -> ShardReply
        requires { (v : View) × (e : Effect) × MayCommit self.old (ready.Stores entry decision) v call.now e }
        ensures { (v : View) (e : Effect) → MayCommit self.old (ready.Stores entry decision) v call.now e → Commits v e result self.new }
    {
        let (entry, notices) = self.streams.commit_entry(entry);
        self.move_on_with(&decision, call);
        ShardReply {
            outcome: Outcome::Heard(decision),
            entry: Some(entry),
            packets: List::new(self.alloc),
            notices,
        }
    }

    fn commit_bind(
        &mut self,
        entry: PreparedEntry,
        decision: Decision,
        notices: List<Notice>,
        call: &ShardCall,
    ) -> ShardReply
        requires { (v : View) × (e : Effect) × MayCommit self.old (ready.Binds entry decision notices) v call.now e }
        ensures { (v : View) (e : Effect) → MayCommit self.old (ready.Binds entry decision notices) v call.now e → Commits v e result self.new }
    {
        let (entry, told) = self.streams.commit_entry(entry);
        drop(told);
        self.move_on_with(&decision, call);
        ShardReply {
            outcome: Outcome::Heard(decision),
            entry: Some(entry),
            packets: List::new(self.alloc),
            notices,
        }
    }

    /// The copy that a call was for follows its decision.
    fn move_on_with(&mut self, decision: &Decision, call: &ShardCall)
        ensures streams { self.new.streams ≡ self.old.streams }
        ensures consumers { self.new.consumers ≡ self.old.consumers }
        ensures askers { (v : View) (c : Copy) (packet : Sent) (now : ℕ) → ShowsAskers self.old.askers v v.askers → call.now ≡ calls.Heard packet now → copy_of_asker v (addressee packet) ≡ Some c → decision.now ≡ decided_at v now packet (Some c) → ShowsAskers self.new.askers v (moved_on v c decision.now packet now) }
    {
        match call {
            ShardCall::Heard { packet, now } => self.move_on_by(decision, packet, *now),
            _ => (),
        }
    }

    /// The copy that a packet names follows its decision about it.
    fn move_on_by(&mut self, decision: &Decision, packet: &Packet, now: u64)
        ensures streams { self.new.streams ≡ self.old.streams }
        ensures consumers { self.new.consumers ≡ self.old.consumers }
        ensures askers { (v : View) (c : Copy) → ShowsAskers self.old.askers v v.askers → copy_of_asker v (addressee packet.now) ≡ Some c → decision.now ≡ decided_at v now packet.now (Some c) → ShowsAskers self.new.askers v (moved_on v c decision.now packet.now now) }
    {
        match addressee(packet) {
            Some(id) => self
                .askers
                .follow(&id.stream, id.index, decision, packet, now),
            None => (),
        }
    }

    fn commit_make(&mut self, stream: PreparedCreate, asking: Asking) -> ShardReply
        requires { (v : View) × (e : Effect) × (called : Called) × MayCommit self.old (ready.Makes stream asking) v called e }
        ensures { (v : View) (e : Effect) (called : Called) → MayCommit self.old (ready.Makes stream asking) v called e → Commits v e result self.new }
    {
        self.streams.commit_create(stream);
        let packets = self.askers.asked(asking);
        ShardReply {
            outcome: Outcome::Made { fresh: true },
            entry: None,
            packets,
            notices: List::new(self.alloc),
        }
    }

    fn commit_take(&mut self, name: Name, removal: Rec) -> ShardReply
        ensures { (v : View) (e : Effect) (called : Called) → MayCommit self.old (ready.Takes name removal) v called e → Commits v e result self.new }
    {
        drop(removal);
        self.streams.commit_remove(&name);
        self.consumers.remove(&name);
        self.askers.idle_under(&name);
        ShardReply {
            outcome: Outcome::Removed,
            entry: None,
            packets: List::new(self.alloc),
            notices: List::new(self.alloc),
        }
    }
}
