//! Packets for the copies of a shard.
ghost use Rattle.std.specs.Prelude.{◌≡◌, ℕ, [], ◌∷◌, true, None, Some, Ok, IfOk};
ghost use Rattle.std.specs.Option.{option_copied};
ghost use Rattle.std.specs.Str.{bytes_eq};
ghost use Rattle.js_wire.specs.declared.packet.Packet.{Packet as Sent};
ghost use Rattle.stream_fold.specs.declared.decision.Decision.TheVariants as decided;
ghost use Rattle.stream_fold.specs.declared.decision.Reason.TheVariants as reason;
ghost use Rattle.tap_row.specs.declared.notice.Notice.TheVariants as notice;
ghost use Rattle.shard_machine.specs.declared.call.ShardCall.TheVariants as call;
ghost use Rattle.shard_machine.specs.declared.reply.Outcome.TheVariants as what;
ghost use Rattle.shard_machine.specs.Answers.{addressee};
ghost use Rattle.shard_machine.specs.Views.{View, replied};
ghost use Rattle.shard_table.specs.Hearing.{MovesOn};
ghost use Rattle.shard_table.specs.declared.answered.Answered.TheVariants as given;

use crate::replies::with_outcome;
use crate::{Answered, Prepared, Table};
use js_wire::{AskerId, Packet};
use nats_text::{List, Name, NoMemory};
use shard_copies::{Asking, flow_answer};
use shard_machine::{Outcome, ShardRefusal, ShardReply};
use std::alloc::Global;
use stream_fold::laws::facts_of_histories;
use stream_fold::{Decision, Entry, Reason, Why};
use tap_row::Notice;

impl Table {
    ghost use Rattle.shard_table.specs.Answering.{Gives};
    ghost use Rattle.shard_table.specs.Hearing.{IsHeard};
    ghost use Rattle.shard_table.specs.Holding.{Holds};

    pub(crate) fn heard(&mut self, packet: &Packet, now: u64) -> Result<Answered, ShardRefusal>
        requires { (v : View) × Holds self.old v }
        ensures { (v : View) → Holds self.old v → Gives v (call.Heard packet.now now) result self.new }
    {
        match addressee(packet) {
            Some(id) => self.heard_by(id, packet, now),
            None => Ok(self.ignored()),
        }
    }

    /// A packet comes for the copy of an asker, which may be of another node.
    fn heard_by(
        &mut self,
        id: &AskerId,
        packet: &Packet,
        now: u64,
    ) -> Result<Answered, ShardRefusal>
        requires { (v : View) × Holds self.old v × (addressee packet.now ≡ Some id.now) }
        ensures { (v : View) → Holds self.old v → addressee packet.now ≡ Some id.now → Gives v (call.Heard packet.now now) result self.new }
    {
        if is_same(&id.node, self.askers.node()) {
            self.hear(id, packet, now)
        } else {
            Ok(self.ignored())
        }
    }

    /// A packet for a copy that isn't here is ignored.
    fn ignored(&self) -> Answered
        ensures { result ≡ given.Done (replied (what.Heard (decided.Ignore reason.Foreign)) None [] []) }
    {
        Answered::Done(with_outcome(
            self.alloc,
            Outcome::Heard(Decision::Ignore(Reason::Foreign)),
        ))
    }

    /// A packet comes for a copy of this node.
    fn hear(&mut self, id: &AskerId, packet: &Packet, now: u64) -> Result<Answered, ShardRefusal>
        requires { (v : View) × Holds self.old v × (addressee packet.now ≡ Some id.now) × (bytes_eq id.now.node v.node ≡ true) }
        ensures { (v : View) → Holds self.old v → addressee packet.now ≡ Some id.now → bytes_eq id.now.node v.node ≡ true → Gives v (call.Heard packet.now now) result self.new }
    {
        facts_of_histories();
        match self.streams.live(&id.stream) {
            None => Ok(self.ignored()),
            Some(standing) => {
                match self.askers.decide(
                    self.alloc,
                    &id.stream,
                    &standing.state,
                    id.index,
                    packet,
                    now,
                ) {
                    Ok(decision) => self.follow(id, decision, packet, now),
                    Err(NoMemory) => Err(ShardRefusal::NoMemory),
                }
            }
        }
    }

    /// A copy of this node follows its decision about a packet.
    fn follow(
        &mut self,
        id: &AskerId,
        decision: Decision,
        packet: &Packet,
        now: u64,
    ) -> Result<Answered, ShardRefusal>
        requires { (v : View) × Holds self.old v × IsHeard v id.now decision packet.now now }
        ensures { (v : View) → Holds self.old v → IsHeard v id.now decision packet.now now → Gives v (call.Heard packet.now now) result self.new }
    {
        match decision {
            Decision::Store(entry) => self.store(id, entry),
            Decision::Bind(entry) => self.bind(id, entry),
            Decision::Rebind => Ok(self.move_on(id, Decision::Rebind, packet, now)),
            Decision::Skip => Ok(self.move_on(id, Decision::Skip, packet, now)),
            Decision::Ignore(reason) => Ok(Answered::Done(with_outcome(
                self.alloc,
                Outcome::Heard(Decision::Ignore(reason)),
            ))),
            Decision::AskAgain(why) => self.ask_again(id, why, now),
            Decision::Reply => self.reply(id, packet, now),
            Decision::Heard => Ok(self.move_on(id, Decision::Heard, packet, now)),
            Decision::Refused => Ok(Answered::Done(with_outcome(
                self.alloc,
                Outcome::Heard(Decision::Refused),
            ))),
            Decision::Stop { kept, seen } => self.stop(id, kept, seen, packet, now),
        }
    }
}

impl Table {
    ghost use Rattle.shard_table.specs.Answering.{Gives};
    ghost use Rattle.shard_table.specs.Hearing.{IsHeard};
    ghost use Rattle.shard_table.specs.Holding.{Holds};

    /// The copy stores a message.
    fn store(&mut self, id: &AskerId, entry: Entry) -> Result<Answered, ShardRefusal>
        requires { (v : View) × (packet : Sent) × (now : ℕ) × Holds self.old v × IsHeard v id.now (decided.Store entry) packet now }
        ensures { (v : View) (packet : Sent) (now : ℕ) → Holds self.old v → IsHeard v id.now (decided.Store entry) packet now → Gives v (call.Heard packet now) result self.new }
    {
        match copy_of(&entry) {
            Ok(copy) => self.store_ready(id, entry, copy),
            Err(NoMemory) => Err(ShardRefusal::NoMemory),
        }
    }

    /// Makes a message ready, of which there is a copy.
    fn store_ready(
        &mut self,
        id: &AskerId,
        entry: Entry,
        copy: Entry,
    ) -> Result<Answered, ShardRefusal>
        requires { (v : View) × (packet : Sent) × (now : ℕ) × Holds self.old v × IsHeard v id.now (decided.Store entry) packet now }
        ensures { (v : View) (packet : Sent) (now : ℕ) → Holds self.old v → IsHeard v id.now (decided.Store entry) packet now → copy ≡ entry → Gives v (call.Heard packet now) result self.new }
    {
        match self.streams.prepare_entry(&id.stream, copy) {
            Ok(prepared) => Ok(Answered::Append(Prepared::Stores {
                entry: prepared,
                decision: Decision::Store(entry),
            })),
            Err(NoMemory) => Err(ShardRefusal::NoMemory),
        }
    }

    /// The copy is bound, of which the taps are told.
    fn bind(&mut self, id: &AskerId, entry: Entry) -> Result<Answered, ShardRefusal>
        requires { (v : View) × (packet : Sent) × (now : ℕ) × Holds self.old v × IsHeard v id.now (decided.Bind entry) packet now }
        ensures { (v : View) (packet : Sent) (now : ℕ) → Holds self.old v → IsHeard v id.now (decided.Bind entry) packet now → Gives v (call.Heard packet now) result self.new }
    {
        match copy_of(&entry) {
            Ok(copy) => self.bind_telling(id, entry, copy),
            Err(NoMemory) => Err(ShardRefusal::NoMemory),
        }
    }

    /// Makes a binding ready, of which there is a copy.
    fn bind_telling(
        &mut self,
        id: &AskerId,
        entry: Entry,
        copy: Entry,
    ) -> Result<Answered, ShardRefusal>
        requires { (v : View) × (packet : Sent) × (now : ℕ) × Holds self.old v × IsHeard v id.now (decided.Bind entry) packet now }
        ensures { (v : View) (packet : Sent) (now : ℕ) → Holds self.old v → IsHeard v id.now (decided.Bind entry) packet now → copy ≡ entry → Gives v (call.Heard packet now) result self.new }
    {
        match bound_notice(self.alloc, id) {
            Ok(notices) => self.bind_ready(id, entry, copy, notices),
            Err(NoMemory) => Err(ShardRefusal::NoMemory),
        }
    }

    /// Makes a binding ready, of which there is a copy, with what is told of it.
    fn bind_ready(
        &mut self,
        id: &AskerId,
        entry: Entry,
        copy: Entry,
        notices: List<Notice>,
    ) -> Result<Answered, ShardRefusal>
        requires { (v : View) × (packet : Sent) × (now : ℕ) × Holds self.old v × IsHeard v id.now (decided.Bind entry) packet now }
        ensures { (v : View) (packet : Sent) (now : ℕ) → Holds self.old v → IsHeard v id.now (decided.Bind entry) packet now → copy ≡ entry → notices ≡ notice.Bound id.now.stream id.now.index ∷ [] → Gives v (call.Heard packet now) result self.new }
    {
        match self.streams.prepare_entry(&id.stream, copy) {
            Ok(prepared) => Ok(Answered::Append(Prepared::Binds {
                entry: prepared,
                decision: Decision::Bind(entry),
                notices,
            })),
            Err(NoMemory) => Err(ShardRefusal::NoMemory),
        }
    }

    /// The copy asks its origin anew, of which the taps are told.
    fn ask_again(&mut self, id: &AskerId, why: Why, now: u64) -> Result<Answered, ShardRefusal>
        ensures { (v : View) (packet : Sent) → Holds self.old v → IsHeard v id.now (decided.AskAgain why) packet now → Gives v (call.Heard packet now) result self.new }
    {
        match asked_notice(self.alloc, id) {
            Ok(notices) => self.ask_telling(id, why, notices, now),
            Err(NoMemory) => Err(ShardRefusal::NoMemory),
        }
    }

    /// The copy asks its origin anew. No stream but one that stands has a copy that asks.
    fn ask_telling(
        &mut self,
        id: &AskerId,
        why: Why,
        notices: List<Notice>,
        now: u64,
    ) -> Result<Answered, ShardRefusal>
        ensures { (v : View) (packet : Sent) → Holds self.old v → IsHeard v id.now (decided.AskAgain why) packet now → notices ≡ notice.AskedAgain id.now.stream id.now.index ∷ [] → Gives v (call.Heard packet now) result self.new }
    {
        let mut asking = Asking::behind(self.alloc, List::new(self.alloc));
        match self.streams.live(&id.stream) {
            None => Err(ShardRefusal::NoMemory),
            Some(standing) => {
                match self.askers.ask_again(
                    self.alloc,
                    &id.stream,
                    &standing.state,
                    id.index,
                    now,
                    &mut asking,
                ) {
                    Ok(()) => {
                        let packets = self.askers.asked(asking);
                        Ok(heard_reply(Decision::AskAgain(why), packets, notices))
                    }
                    Err(NoMemory) => Err(ShardRefusal::NoMemory),
                }
            }
        }
    }

    /// The copy answers the flow request that stands in the packet.
    fn reply(&mut self, id: &AskerId, packet: &Packet, now: u64) -> Result<Answered, ShardRefusal>
        ensures { (v : View) → Holds self.old v → IsHeard v id.now decided.Reply packet.now now → Gives v (call.Heard packet.now now) result self.new }
    {
        let mut packets = List::new(self.alloc);
        match flow_answer(packet, &mut packets) {
            Ok(()) => {
                self.askers
                    .follow(&id.stream, id.index, &Decision::Reply, packet, now);
                Ok(heard_reply(Decision::Reply, packets, List::new(self.alloc)))
            }
            Err(NoMemory) => Err(ShardRefusal::NoMemory),
        }
    }

    /// The copy stops, since its origin was made anew.
    fn stop(
        &mut self,
        id: &AskerId,
        kept: u64,
        seen: u64,
        packet: &Packet,
        now: u64,
    ) -> Result<Answered, ShardRefusal>
        ensures { (v : View) → Holds self.old v → IsHeard v id.now (decided.Stop kept seen) packet.now now → Gives v (call.Heard packet.now now) result self.new }
    {
        match stopped_notice(self.alloc, id, kept, seen) {
            Ok(notices) => {
                let decision = Decision::Stop { kept, seen };
                self.askers
                    .follow(&id.stream, id.index, &decision, packet, now);
                Ok(heard_reply(decision, List::new(self.alloc), notices))
            }
            Err(NoMemory) => Err(ShardRefusal::NoMemory),
        }
    }

    /// The copy follows a decision of which nothing is sent and told.
    fn move_on(&mut self, id: &AskerId, decision: Decision, packet: &Packet, now: u64) -> Answered
        ensures { (v : View) → Holds self.old v → IsHeard v id.now decision packet.now now → MovesOn decision → Gives v (call.Heard packet.now now) (Ok result) self.new }
    {
        self.askers
            .follow(&id.stream, id.index, &decision, packet, now);
        heard_reply(decision, List::new(self.alloc), List::new(self.alloc))
    }
}

/// The reply of a packet that was heard, where no record is made.
fn heard_reply(decision: Decision, packets: List<Packet>, notices: List<Notice>) -> Answered
    ensures { result ≡ given.Done (replied (what.Heard decision) None packets notices) }
{
    Answered::Done(ShardReply {
        outcome: Outcome::Heard(decision),
        entry: None,
        packets,
        notices,
    })
}

/// What is told where a copy found its origin.
fn bound_notice(alloc: Global, id: &AskerId) -> Result<List<Notice>, NoMemory>
    ensures { IfOk result (λ notices. notices ≡ notice.Bound id.now.stream id.now.index ∷ []) }
{
    let mut notices = List::new(alloc);
    notices.push(Notice::Bound {
        stream: id.stream.clone()?,
        index: id.index,
    })?;
    Ok(notices)
}

/// What is told where a copy that missed a message asked its origin again.
fn asked_notice(alloc: Global, id: &AskerId) -> Result<List<Notice>, NoMemory>
    ensures { IfOk result (λ notices. notices ≡ notice.AskedAgain id.now.stream id.now.index ∷ []) }
{
    let mut notices = List::new(alloc);
    notices.push(Notice::AskedAgain {
        stream: id.stream.clone()?,
        index: id.index,
    })?;
    Ok(notices)
}

/// What is told where a copy stopped.
fn stopped_notice(
    alloc: Global,
    id: &AskerId,
    kept: u64,
    seen: u64,
) -> Result<List<Notice>, NoMemory>
    ensures { IfOk result (λ notices. notices ≡ notice.Stopped id.now.stream id.now.index kept seen ∷ []) }
{
    let mut notices = List::new(alloc);
    notices.push(Notice::Stopped {
        stream: id.stream.clone()?,
        index: id.index,
        kept,
        seen,
    })?;
    Ok(notices)
}

fn copy_of(entry: &Entry) -> Result<Entry, NoMemory>
    ensures { IfOk result (λ copy. copy ≡ entry.now) }
{
    Ok(entry.clone()?)
}

/// Whether one name is the other.
fn is_same(one: &Name, other: &Name) -> bool
    ensures { result ≡ bytes_eq one.now other.now }
{
    one.bytes() == other.bytes()
}

/// The asker that a packet names.
pub fn addressee(packet: &Packet) -> Option<&AskerId>
    ensures { option_copied result ≡ addressee packet.now }
{
    match packet {
        Packet::Ask { .. } => None,
        Packet::Answer { asker, .. } => Some(asker),
        Packet::Refuse { asker, .. } => Some(asker),
        Packet::Delivery { asker, .. } => Some(asker),
        Packet::Beat { asker, .. } => Some(asker),
        Packet::FlowAsk { asker, .. } => Some(asker),
        Packet::FlowReply { .. } => None,
    }
}
