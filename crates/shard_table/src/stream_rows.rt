//! The calls on streams.
ghost use Rattle.std.specs.Prelude.{◌≡◌, map, Some, Ok, IfOk};
ghost use Rattle.record_codec.specs.declared.records.Rec.TheVariants as rec;
ghost use Rattle.shard_machine.specs.declared.call.ShardCall.{ShardCall as Called};
ghost use Rattle.shard_machine.specs.declared.call.ShardCall.TheVariants as call;
ghost use Rattle.shard_machine.specs.Answers.{fact_of_copy};
ghost use Rattle.shard_machine.specs.Images.{NameFacts, live_in};
ghost use Rattle.shard_machine.specs.Views.{View, copies_of};
ghost use Rattle.shard_streams.specs.Halves.{IsMadeReady};
ghost use Rattle.shard_streams.specs.Plans.{DoesWith, MakesStream, PlansCreate, TakesStream};
ghost use Rattle.shard_table.specs.declared.answered.Prepared.TheVariants as ready;

use crate::replies::with_outcome;
use crate::{Answered, Prepared, Table};
use nats_text::{List, Message, Name, NoMemory, Pattern};
use record_codec::Rec;
use shard_copies::{Asking, Chosen};
use shard_machine::{CopyFact, Outcome, ShardRefusal, Which};
use shard_streams::{Creation, Plan, PreparedCreate};
use stream_fold::Config;

impl Table {
    ghost use Rattle.shard_table.specs.Answering.{Gives};
    ghost use Rattle.shard_table.specs.Holding.{Holds};

    pub(crate) fn update(&mut self, config: &Config) -> Result<Answered, ShardRefusal>
        requires { (v : View) × Holds self.old v }
        ensures { (v : View) → Holds self.old v → Gives v (call.Update config.now) result self.new }
    {
        match self.streams.updates(config) {
            Ok(plan) => self.write(&config.name, plan),
            Err(why) => Err(why),
        }
    }

    pub(crate) fn publish(
        &mut self,
        name: &Name,
        message: &Message,
        now: u64,
    ) -> Result<Answered, ShardRefusal>
        requires { (v : View) × Holds self.old v }
        ensures { (v : View) → Holds self.old v → Gives v (call.Publish name.now message.now now) result self.new }
    {
        match self.streams.publishes(name, message, now) {
            Ok(plan) => self.write(name, plan),
            Err(why) => Err(why),
        }
    }

    pub(crate) fn delete(&mut self, name: &Name, seq: u64) -> Result<Answered, ShardRefusal>
        requires { (v : View) × Holds self.old v }
        ensures { (v : View) → Holds self.old v → Gives v (call.Delete name.now seq) result self.new }
    {
        match self.streams.deletes(name, seq) {
            Ok(plan) => self.write(name, plan),
            Err(why) => Err(why),
        }
    }

    pub(crate) fn purge(
        &mut self,
        name: &Name,
        pattern: &Pattern,
        below: Option<u64>,
    ) -> Result<Answered, ShardRefusal>
        requires { (v : View) × Holds self.old v }
        ensures { (v : View) → Holds self.old v → Gives v (call.Purge name.now pattern.now below) result self.new }
    {
        match self.streams.purges(name, pattern, below) {
            Ok(plan) => self.write(name, plan),
            Err(why) => Err(why),
        }
    }

    pub(crate) fn expire(&mut self, name: &Name, now: u64) -> Result<Answered, ShardRefusal>
        requires { (v : View) × Holds self.old v }
        ensures { (v : View) → Holds self.old v → Gives v (call.Expire name.now now) result self.new }
    {
        match self.streams.expires(name, now) {
            Ok(plan) => self.write(name, plan),
            Err(why) => Err(why),
        }
    }

    /// Does what was planned for a call on a stream: its entry is to be written, or nothing changes.
    fn write(&mut self, name: &Name, plan: Plan) -> Result<Answered, ShardRefusal>
        requires { (v : View) × (called : Called) × Holds self.old v × DoesWith v called name.now plan.outcome plan.entry }
        ensures { (v : View) (called : Called) → Holds self.old v → DoesWith v called name.now plan.outcome plan.entry → Gives v called result self.new }
    {
        let Plan { entry, outcome } = plan;
        match entry {
            None => Ok(Answered::Done(with_outcome(self.alloc, outcome))),
            Some(entry) => match self.streams.prepare_entry(name, entry) {
                Ok(entry) => Ok(Answered::Append(Prepared::Writes { entry, outcome })),
                Err(NoMemory) => {
                    drop(outcome);
                    Err(ShardRefusal::NoMemory)
                }
            },
        }
    }

    pub(crate) fn create(&mut self, config: &Config, now: u64) -> Result<Answered, ShardRefusal>
        requires { (v : View) × Holds self.old v }
        ensures { (v : View) → Holds self.old v → Gives v (call.Create config.now now) result self.new }
    {
        match self.streams.creates(config) {
            Ok(creation) => self.create_as(creation, config, now),
            Err(why) => Err(why),
        }
    }

    /// Does what was planned for the creation of a stream.
    fn create_as(
        &mut self,
        creation: Creation,
        config: &Config,
        now: u64,
    ) -> Result<Answered, ShardRefusal>
        requires { (v : View) × Holds self.old v × PlansCreate v config.now now (Ok creation) }
        ensures { (v : View) → Holds self.old v → PlansCreate v config.now now (Ok creation) → Gives v (call.Create config.now now) result self.new }
    {
        match creation {
            Creation::Stands => {
                Ok(Answered::Done(with_outcome(self.alloc, Outcome::Made { fresh: false })))
            }
            Creation::New => self.make(config, now),
        }
    }

    /// Makes a stream ready.
    fn make(&mut self, config: &Config, now: u64) -> Result<Answered, ShardRefusal>
        requires { (v : View) × Holds self.old v × MakesStream v config.now now }
        ensures { (v : View) → Holds self.old v → MakesStream v config.now now → Gives v (call.Create config.now now) result self.new }
    {
        match self.streams.prepare_create(config, now) {
            Ok(stream) => self.make_asking(config, stream, now),
            Err(NoMemory) => Err(ShardRefusal::NoMemory),
        }
    }

    /// Makes ready what the copies of a stream ask once it stands.
    fn make_asking(
        &mut self,
        config: &Config,
        stream: PreparedCreate,
        now: u64,
    ) -> Result<Answered, ShardRefusal>
        ensures { (v : View) → Holds self.old v → MakesStream v config.now now → IsMadeReady self.old.streams.replay stream config.now now → Gives v (call.Create config.now now) result self.new }
    {
        let mut asking = Asking::behind(self.alloc, List::new(self.alloc));
        match self.askers.ask(
            self.alloc,
            &config.name,
            stream.state(),
            &Chosen::All,
            now,
            &mut asking,
        ) {
            Ok(()) => Ok(Answered::Append(Prepared::Makes { stream, asking })),
            Err(NoMemory) => Err(ShardRefusal::NoMemory),
        }
    }

    pub(crate) fn remove(&mut self, name: &Name) -> Result<Answered, ShardRefusal>
        ensures { (v : View) → Holds self.old v → Gives v (call.Remove name.now) result self.new }
    {
        match self.streams.removes(name) {
            Ok(()) => self.take(name),
            Err(why) => Err(why),
        }
    }

    /// Makes the removal of a stream ready.
    fn take(&mut self, name: &Name) -> Result<Answered, ShardRefusal>
        ensures { (v : View) → Holds self.old v → TakesStream v name.now → Gives v (call.Remove name.now) result self.new }
    {
        match removal_of(name) {
            Ok(prepared) => Ok(Answered::Append(prepared)),
            Err(NoMemory) => Err(ShardRefusal::NoMemory),
        }
    }

    pub(crate) fn get(&mut self, name: &Name, which: &Which) -> Result<Answered, ShardRefusal>
        ensures { (v : View) → Holds self.old v → Gives v (call.Get name.now which.now) result self.new }
    {
        match self.streams.find(name, which) {
            Ok(row) => Ok(Answered::Done(with_outcome(self.alloc, Outcome::Found(row)))),
            Err(why) => Err(why),
        }
    }

    pub(crate) fn info(&mut self, name: &Name) -> Result<Answered, ShardRefusal>
        ensures { (v : View) → Holds self.old v → Gives v (call.Info name.now) result self.new }
    {
        match self.streams.live(name) {
            None => Err(ShardRefusal::NoStream),
            Some(standing) => {
                match self.askers.copy_facts(self.alloc, name, &standing.state) {
                    Ok(copies) => self.show(name, copies),
                    Err(NoMemory) => Err(ShardRefusal::NoMemory),
                }
            }
        }
    }

    /// Shows the facts of a stream that stands, with those of its copies.
    fn show(&self, name: &Name, copies: List<CopyFact>) -> Result<Answered, ShardRefusal>
        ensures { (v : View) (known : NameFacts) → Holds self.now v → live_in v.image name.now ≡ Some known → copies ≡ map (fact_of_copy v) (copies_of name.now known.stream) → Gives v (call.Info name.now) result self.now }
    {
        let consumers = self.consumers.count_of(name) as u64;
        match self.streams.facts(name, consumers, copies) {
            Ok(facts) => Ok(Answered::Done(with_outcome(self.alloc, Outcome::Info(facts)))),
            Err(why) => Err(why),
        }
    }

    pub(crate) fn names(&mut self) -> Result<Answered, ShardRefusal>
        ensures { (v : View) → Holds self.old v → Gives v call.Names result self.new }
    {
        match self.streams.names() {
            Ok(names) => Ok(Answered::Done(with_outcome(self.alloc, Outcome::Listed(names)))),
            Err(NoMemory) => Err(ShardRefusal::NoMemory),
        }
    }
}

/// A stream of this name that is to go.
fn removal_of(name: &Name) -> Result<Prepared, NoMemory>
    ensures { IfOk result (λ prepared. prepared ≡ ready.Takes name.now (rec.Remove name.now)) }
{
    Ok(Prepared::Takes {
        name: name.clone()?,
        removal: Rec::Remove {
            name: name.clone()?,
        },
    })
}
