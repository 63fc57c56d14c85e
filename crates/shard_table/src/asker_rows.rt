//! The calls in which copies ask, and consumers beat, pause or go on.
ghost use Rattle.std.specs.Prelude.{◌≡◌, true, flat_map, IfOk, OnOk};
ghost use Rattle.shard_machine.specs.declared.call.ShardCall.TheVariants as call;
ghost use Rattle.shard_machine.specs.Answers.{beats_of};
ghost use Rattle.shard_machine.specs.Images.{live_names};
ghost use Rattle.shard_machine.specs.Views.{View, all_copies, copies_under};
ghost use Rattle.shard_copies.specs.Asked.{AreKept, Asks, chosen};
ghost use Rattle.shard_copies.specs.declared.chosen.Chosen.TheVariants as those;

use crate::replies::with_packets;
use crate::{Answered, Table};
use js_wire::Packet;
use nats_text::{List, Name, NoMemory};
use shard_copies::{Asking, Chosen};
use shard_machine::ShardRefusal;

impl Table {
    ghost use Rattle.shard_table.specs.Answering.{Gives};
    ghost use Rattle.shard_table.specs.Holding.{Holds};

    pub(crate) fn reach(
        &mut self,
        node: &Name,
        there: bool,
        now: u64,
    ) -> Result<Answered, ShardRefusal>
        ensures { (v : View) → Holds self.old v → Gives v (call.Reach node.now there now) result self.new }
    {
        if there {
            self.reach_again(node, now)
        } else {
            self.consumers.reach(node, false);
            Ok(Answered::Done(with_packets(self.alloc, List::new(self.alloc))))
        }
    }

    /// A node comes into reach.
    fn reach_again(&mut self, node: &Name, now: u64) -> Result<Answered, ShardRefusal>
        ensures { (v : View) → Holds self.old v → Gives v (call.Reach node.now true now) result self.new }
    {
        match those_of(node) {
            Ok(which) => self.reach_those(node, &which, now),
            Err(NoMemory) => Err(ShardRefusal::NoMemory),
        }
    }

    /// Copies of streams of a node that comes into reach ask.
    fn reach_those(
        &mut self,
        node: &Name,
        which: &Chosen,
        now: u64,
    ) -> Result<Answered, ShardRefusal>
        ensures { (v : View) → Holds self.old v → which.now ≡ those.OfNode node.now → Gives v (call.Reach node.now true now) result self.new }
    {
        let mut asking = Asking::behind(self.alloc, List::new(self.alloc));
        match self.ask_all(which, now, &mut asking) {
            Ok(()) => {
                self.consumers.reach(node, true);
                let packets = self.askers.asked(asking);
                Ok(Answered::Done(with_packets(self.alloc, packets)))
            }
            Err(NoMemory) => Err(ShardRefusal::NoMemory),
        }
    }

    pub(crate) fn tick(&mut self, now: u64) -> Result<Answered, ShardRefusal>
        ensures { (v : View) → Holds self.old v → Gives v (call.Tick now) result self.new }
    {
        match self.beats(now) {
            Ok(beats) => self.tick_behind(beats, now),
            Err(NoMemory) => Err(ShardRefusal::NoMemory),
        }
    }

    /// Copies that are due ask, behind the beats of consumers.
    fn tick_behind(&mut self, beats: List<Packet>, now: u64) -> Result<Answered, ShardRefusal>
        ensures { (v : View) → Holds self.old v → beats ≡ flat_map (beats_of v now) (live_names v.image) → Gives v (call.Tick now) result self.new }
    {
        let mut asking = Asking::behind(self.alloc, beats);
        match self.ask_all(&Chosen::Due, now, &mut asking) {
            Ok(()) => {
                self.consumers.beaten(now);
                let packets = self.askers.asked(asking);
                Ok(Answered::Done(with_packets(self.alloc, packets)))
            }
            Err(NoMemory) => Err(ShardRefusal::NoMemory),
        }
    }

    pub(crate) fn link_lost(&mut self) -> Result<Answered, ShardRefusal>
        ensures { (v : View) → Holds self.old v → Gives v call.LinkLost result self.new }
    {
        self.askers.idle_all();
        Ok(Answered::Done(with_packets(self.alloc, List::new(self.alloc))))
    }

    /// The beats for which it is time, by the names of the streams.
    fn beats(&self, now: u64) -> Result<List<Packet>, NoMemory>
        ensures { (v : View) → Holds self.now v → IfOk result (λ beats. beats ≡ flat_map (beats_of v now) (live_names v.image)) }
    {
        let names = self.streams.names()?;
        let mut beats = List::new(self.alloc);
        for name in names.as_slice() {
            self.consumers.add_beats(name, now, &mut beats)?;
        }
        Ok(beats)
    }

    /// Those of all copies that are meant ask, by the name of their stream and then by index.
    fn ask_all(&mut self, which: &Chosen, now: u64, asking: &mut Asking) -> Result<(), NoMemory>
        ensures held { (v : View) → Holds self.old v → Holds self.new v }
        ensures kept { AreKept self.old.askers asking.old → OnOk result (AreKept self.new.askers asking.new) }
        ensures asks { (v : View) → Holds self.old v → OnOk result (Asks asking.old asking.new v now (chosen which.now v now (all_copies v.image))) }
    {
        let names = self.streams.names()?;
        for name in names.as_slice() {
            self.ask_under(name, which, now, asking)?;
        }
        Ok(())
    }

    /// Those of a stream's copies that are meant ask.
    fn ask_under(
        &mut self,
        name: &Name,
        which: &Chosen,
        now: u64,
        asking: &mut Asking,
    ) -> Result<(), NoMemory>
        ensures held { (v : View) → Holds self.old v → Holds self.new v }
        ensures kept { AreKept self.old.askers asking.old → OnOk result (AreKept self.new.askers asking.new) }
        ensures asks { (v : View) → Holds self.old v → OnOk result (Asks asking.old asking.new v now (chosen which.now v now (copies_under v.image name.now))) }
    {
        match self.streams.live(name) {
            None => Ok(()),
            Some(standing) => {
                self.askers
                    .ask(self.alloc, name, &standing.state, which, now, asking)
            }
        }
    }
}

/// The copies of streams of a node.
fn those_of(node: &Name) -> Result<Chosen, NoMemory>
    ensures { IfOk result (λ which. which ≡ those.OfNode node.now) }
{
    Ok(Chosen::OfNode(node.clone()?))
}
