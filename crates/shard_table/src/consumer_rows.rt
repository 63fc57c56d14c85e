//! The calls on consumers.
ghost use Rattle.std.specs.Prelude.{◌≡◌, ℕ, List as Items, Some, Ok, IfOk};
ghost use Rattle.js_wire.specs.declared.packet.Packet.TheVariants as packet;
ghost use Rattle.nats_text.specs.declared.message.Start.{Start as Begin};
ghost use Rattle.shard_machine.specs.declared.call.ShardCall.{ShardCall as Called};
ghost use Rattle.shard_machine.specs.declared.call.ShardCall.TheVariants as call;
ghost use Rattle.shard_machine.specs.Answers.{Answers, consumer_start, makes_consumer};
ghost use Rattle.shard_machine.specs.Images.{NameFacts, live_in};
ghost use Rattle.shard_machine.specs.Views.{View};

use crate::replies::with_packets;
use crate::{Answered, Table};
use js_wire::{AskerId, Packet};
use nats_text::{List, Name, NoMemory, Pattern, Stamp, Start};
use push_consumer::Wanted;
use shard_copies::consumer_start;
use shard_machine::{Outcome, ShardRefusal, ShardReply};
use stream_fold::laws::facts_of_histories;

impl Table {
    ghost use Rattle.shard_table.specs.Answering.{Gives};
    ghost use Rattle.shard_table.specs.Holding.{Holds};

    pub(crate) fn make_consumer(&mut self, ask: &Packet, now: u64) -> Result<Answered, ShardRefusal>
        ensures { (v : View) → Holds self.old v → Gives v (call.MakeConsumer ask.now now) result self.new }
    {
        match ask {
            Packet::Ask {
                asker,
                attempt,
                origin,
                stream,
                start,
                filters,
            } => self.make_for(asker, *attempt, origin, stream, *start, filters, now),
            Packet::Answer { .. } => Err(ShardRefusal::NoStream),
            Packet::Refuse { .. } => Err(ShardRefusal::NoStream),
            Packet::Delivery { .. } => Err(ShardRefusal::NoStream),
            Packet::Beat { .. } => Err(ShardRefusal::NoStream),
            Packet::FlowAsk { .. } => Err(ShardRefusal::NoStream),
            Packet::FlowReply { .. } => Err(ShardRefusal::NoStream),
        }
    }

    /// A copy asks for messages of a stream.
    fn make_for(
        &mut self,
        asker: &AskerId,
        attempt: Stamp,
        origin: &Name,
        stream: &Name,
        start: Start,
        filters: &List<Pattern>,
        now: u64,
    ) -> Result<Answered, ShardRefusal>
        ensures { (v : View) → Holds self.old v → Gives v (call.MakeConsumer (packet.Ask asker.now attempt origin.now stream.now start filters.now) now) result self.new }
    {
        match self.streams.live(stream) {
            None => Err(ShardRefusal::NoStream),
            Some(standing) => {
                let from = consumer_start(&standing.state, start);
                self.make_from(asker, attempt, origin, stream, from, filters, now)
            }
        }
    }

    /// A copy asks for messages of a stream that stands, from a number on.
    fn make_from(
        &mut self,
        asker: &AskerId,
        attempt: Stamp,
        origin: &Name,
        stream: &Name,
        from: u64,
        filters: &List<Pattern>,
        now: u64,
    ) -> Result<Answered, ShardRefusal>
        ensures { (v : View) (known : NameFacts) (start : Begin) → Holds self.old v → live_in v.image stream.now ≡ Some known → from ≡ consumer_start known.stream start → Gives v (call.MakeConsumer (packet.Ask asker.now attempt origin.now stream.now start filters.now) now) result self.new }
    {
        match self.consumers.refusal(stream, asker, attempt) {
            Some(why) => Err(why),
            None => match wanted(asker, attempt, origin, from, filters) {
                Ok(wanted) => self.make_wanted(stream, wanted, now),
                Err(NoMemory) => Err(ShardRefusal::NoMemory),
            },
        }
    }

    /// Makes a consumer of a stream that stands.
    fn make_wanted(
        &mut self,
        stream: &Name,
        wanted: Wanted,
        now: u64,
    ) -> Result<Answered, ShardRefusal>
        ensures { (v : View) (called : Called) (known : NameFacts) → Holds self.old v → live_in v.image stream.now ≡ Some known → Answers v called (Ok (makes_consumer v now known stream.now wanted)) → Gives v called result self.new }
    {
        let incarnation = self.streams.incarnation(stream);
        let mut packets = List::new(self.alloc);
        match self
            .consumers
            .make(stream, incarnation, wanted, now, &mut packets)
        {
            Ok(made) => Ok(Answered::Done(ShardReply {
                outcome: Outcome::Consumer(made),
                entry: None,
                packets,
                notices: List::new(self.alloc),
            })),
            Err(NoMemory) => Err(ShardRefusal::NoMemory),
        }
    }

    pub(crate) fn pump(
        &mut self,
        name: &Name,
        budget: u32,
        now: u64,
    ) -> Result<Answered, ShardRefusal>
        ensures { (v : View) → Holds self.old v → Gives v (call.Pump name.now budget now) result self.new }
    {
        facts_of_histories();
        match self.streams.live(name) {
            None => Err(ShardRefusal::NoStream),
            Some(standing) => {
                match self
                    .consumers
                    .pump(self.alloc, name, &standing.state, budget, now)
                {
                    Ok(packets) => Ok(Answered::Done(with_packets(self.alloc, packets))),
                    Err(NoMemory) => Err(ShardRefusal::NoMemory),
                }
            }
        }
    }

    pub(crate) fn flow_reply(&mut self, packet: &Packet) -> Result<Answered, ShardRefusal>
        ensures { (v : View) → Holds self.old v → Gives v (call.FlowReply packet.now) result self.new }
    {
        match packet {
            Packet::FlowReply {
                origin: _,
                stream,
                consumer,
                token,
            } => self.take_reply(stream, *consumer, *token),
            Packet::Ask { .. } => Err(ShardRefusal::NoStream),
            Packet::Answer { .. } => Err(ShardRefusal::NoStream),
            Packet::Refuse { .. } => Err(ShardRefusal::NoStream),
            Packet::Delivery { .. } => Err(ShardRefusal::NoStream),
            Packet::Beat { .. } => Err(ShardRefusal::NoStream),
            Packet::FlowAsk { .. } => Err(ShardRefusal::NoStream),
        }
    }

    /// A copy answers a flow request of the consumer of this name.
    fn take_reply(
        &mut self,
        stream: &Name,
        consumer: Stamp,
        token: u64,
    ) -> Result<Answered, ShardRefusal>
        ensures { (v : View) (origin : Items ℕ) → Holds self.old v → Gives v (call.FlowReply (packet.FlowReply origin stream.now consumer token)) result self.new }
    {
        match self.streams.live(stream) {
            None => Err(ShardRefusal::NoStream),
            Some(_) => {
                self.consumers.reply(stream, consumer, token);
                Ok(Answered::Done(with_packets(self.alloc, List::new(self.alloc))))
            }
        }
    }
}

/// What a copy wants that asks for messages from a number on.
fn wanted(
    asker: &AskerId,
    attempt: Stamp,
    origin: &Name,
    start: u64,
    filters: &List<Pattern>,
) -> Result<Wanted, NoMemory>
    ensures { IfOk result (λ wanted. wanted ≡ record { asker = asker.now; attempt = attempt; origin = origin.now; start = start; filters = filters.now }) }
{
    Ok(Wanted {
        asker: asker.clone()?,
        attempt,
        origin: origin.clone()?,
        start,
        filters: filters.clone()?,
    })
}
