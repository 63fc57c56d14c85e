ghost use Rattle.std.specs.Prelude.{◌≡◌, ℕ, ◌+◌, [], ◌∷◌, ◌++◌, map, filter, find, flat_map, count_by, not, if◌then◌else◌, IfOk, OnOk, OnErr};
ghost use Rattle.std.specs.Option.{option_copied};
ghost use Rattle.push_consumer.specs.declared.wanted.Wanted.{Wanted};
ghost use Rattle.push_consumer.specs.Progress.{new_consumer, after_beat};
ghost use Rattle.push_consumer.specs.Pumps.{pump_packets, pumped};
ghost use Rattle.replica_ask.specs.Orders.{same_stamp};
ghost use Rattle.shard_machine.specs.Images.{NameFacts};
ghost use Rattle.shard_machine.specs.Views.{View};
ghost use Rattle.shard_machine.specs.Answers.{reads_stream, serves, is_earlier, makes_for, makes_consumer, for_stream, consumers_of, takes_token, paused_for, beats_of};
ghost use Rattle.shard_copies.specs.Standing.{no_consumers, with_all, next_stamp, answer_to, refused_or, ShowsConsumers};

use crate::lists::{
    answer, consumer_for, copied_name, count_beats, count_of, drop_earlier, drop_of, next_count,
    pause_for, reads, refused_attempt, take_reply,
};
use crate::pumps::{pumped_of, put_back};
use js_wire::{AskerId, Packet};
use nats_text::{List, Name, NoMemory, Stamp};
use push_consumer::{Consumer, Wanted};
use shard_machine::ShardRefusal;
use std::alloc::Global;
use std::marker::Model;
use stream_fold::StreamState;

/// How many consumers a stream may have.
const MOST: usize = 1_024;

/// The consumers of a shard that stand, in the order of their names, and how many were made since its last
/// opening.
#[derive(Debug, Drop)]
pub struct Consumers {
    boot: u64,
    given: u64,
    all: Vec<Consumer>,
}

impl Model for Consumers {
    ghost use Rattle.shard_copies.specs.Standing.{ConsumersState};

    ghost Value = { ConsumersState };

    ghost view = { λ s. record { boot = s.boot; given = s.given; all = s.all.items } };
}

impl Consumers {
    /// The consumers of a shard that was never opened: none.
    pub fn new(alloc: Global) -> Consumers
        ensures { result ≡ no_consumers 0 }
    {
        Consumers {
            boot: 0,
            given: 0,
            all: Vec::new(alloc),
        }
    }

    /// The shard was opened, as its opening of this number: no consumer stands, and none was made.
    pub fn begin(&mut self, boot: u64)
        ensures { self.new ≡ no_consumers boot }
    {
        self.boot = boot;
        self.given = 0;
        self.all.clear();
    }

    /// All consumers go.
    pub fn clear(&mut self)
        ensures { self.new ≡ with_all self.old [] }
    {
        self.all.clear();
    }

    /// The number of the shard's last opening.
    pub fn boot(&self) -> u64
        ensures { result ≡ self.now.boot }
    {
        self.boot
    }

    /// How many consumers were made since then.
    pub fn given(&self) -> u64
        ensures { result ≡ self.now.given }
    {
        self.given
    }

    /// How many consumers read a stream.
    pub fn count_of(&self, name: &Name) -> usize
        ensures { result ≡ count_by (reads_stream name.now) self.now.all }
    {
        count_of(&self.all, name)
    }

    /// Why no consumer is made for this attempt of an asker, if none is: the attempt isn't later than the
    /// one for which the asker's consumer was made, or the stream has 1,024 consumers and none of the asker.
    pub fn refusal(&self, name: &Name, asker: &AskerId, attempt: Stamp) -> Option<ShardRefusal>
        ensures { (v : View) (now : ℕ) (known : NameFacts) (what : Wanted) → ShowsConsumers self.now v → what.asker ≡ asker.now → what.attempt ≡ attempt → makes_for v now known name.now what (find (serves name.now asker.now) v.consumers) ≡ refused_or result (makes_consumer v now known name.now what) }
    {
        match consumer_for(&self.all, name, asker) {
            None if count_of(&self.all, name) >= MOST => Some(ShardRefusal::TooManyConsumers),
            None => None,
            Some(present) => refused_attempt(present.wanted().attempt, attempt),
        }
    }

    /// Makes a consumer of a stream of this incarnation, in place of an earlier one of the asker, and adds
    /// the answer to the packets. It gives the consumer's name. `NoMemory`, which comes also where `2^64 - 1`
    /// consumers were made, leaves the consumers as they were.
    pub fn make(
        &mut self,
        name: &Name,
        incarnation: u64,
        wanted: Wanted,
        now: u64,
        packets: &mut List<Packet>,
    ) -> Result<Stamp, NoMemory>
        ensures name { IfOk result (λ made. made ≡ next_stamp self.old) }
        ensures answer { OnOk result (packets.new ≡ packets.old ++ answer_to (next_stamp self.old) incarnation wanted ∷ []) }
        ensures after { OnOk result (self.new ≡ record { boot = self.old.boot; given = self.old.given + 1; all = filter (λ c. not (serves name.now wanted.asker c)) self.old.all ++ new_consumer (next_stamp self.old) name.now wanted now ∷ [] }) }
        ensures err { OnErr result (self.new ≡ self.old) }
    {
        let count = next_count(self.given)?;
        let made = Stamp {
            boot: self.boot,
            count,
        };
        let stream = copied_name(name)?;
        self.all.reserve(1)?;
        packets.push(answer(made, incarnation, &wanted)?)?;
        drop_earlier(&mut self.all, name, &wanted.asker);
        self.all
            .push_reserved(Consumer::new(made, stream, wanted, now));
        self.given = count;
        Ok(made)
    }

    /// The consumers of a stream go.
    pub fn remove(&mut self, name: &Name)
        ensures { self.new ≡ with_all self.old (filter (λ c. not (reads_stream name.now c)) self.old.all) }
    {
        drop_of(&mut self.all, name);
    }

    /// Each consumer of a stream sends what it may, at most so many messages. The packets of earlier consumers
    /// come first. `NoMemory` leaves the consumers as they were.
    pub fn pump(
        &mut self,
        alloc: Global,
        name: &Name,
        state: &StreamState,
        budget: u32,
        now: u64,
    ) -> Result<List<Packet>, NoMemory>
        ensures packets { IfOk result (λ packets. packets ≡ flat_map (pump_packets state.now.held.rows budget) (consumers_of name.now self.old.all)) }
        ensures after { OnOk result (self.new ≡ with_all self.old (for_stream name.now (pumped state.now.held.rows budget now) self.old.all)) }
        ensures err { OnErr result (self.new ≡ self.old) }
    {
        let mut pumped = pumped_of(alloc, &self.all, name, state, budget, now)?;
        put_back(&mut self.all, name, &mut pumped.consumers);
        Ok(pumped.packets)
    }

    /// A copy answers a flow request of the consumer of this name.
    pub fn reply(&mut self, name: &Name, consumer: Stamp, token: u64)
        ensures { self.new ≡ with_all self.old (for_stream name.now (λ c. if same_stamp c.name consumer then takes_token token c else c) self.old.all) }
    {
        take_reply(&mut self.all, name, consumer, token);
    }

    /// A node comes into reach, or goes out of it: the consumers of its askers go on, or pause.
    pub fn reach(&mut self, node: &Name, there: bool)
        ensures { self.new ≡ with_all self.old (map (paused_for node.now there) self.old.all) }
    {
        pause_for(&mut self.all, node, there);
    }

    /// Adds the beats of a stream's consumers for which it is time. They count as sent by [`Consumers::beaten`].
    pub fn add_beats(
        &self,
        name: &Name,
        now: u64,
        packets: &mut List<Packet>,
    ) -> Result<(), NoMemory>
        ensures { (v : View) → ShowsConsumers self.now v → OnOk result (packets.new ≡ packets.old ++ beats_of v now name.now) }
    {
        for consumer in &self.all {
            if reads(consumer, name) && consumer.beats(now) {
                packets.push(consumer.beat()?)?;
            }
        }
        Ok(())
    }

    /// The beats for which it is time, of the consumers of all streams, count as sent.
    pub fn beaten(&mut self, now: u64)
        ensures { self.new ≡ with_all self.old (map (after_beat now) self.old.all) }
    {
        count_beats(&mut self.all, now);
    }
}
