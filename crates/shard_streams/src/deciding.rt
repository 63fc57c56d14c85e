ghost use Rattle.std.specs.Prelude.{◌≡◌, ℕ, List as Items, None};
ghost use Rattle.stream_fold.specs.Checking.{config_fault};
ghost use Rattle.stream_fold.specs.Held.{StandsFor};
ghost use Rattle.stream_fold.specs.Histories.{History};
ghost use Rattle.stream_fold.specs.declared.entry.Entry.TheVariants as change;
ghost use Rattle.shard_machine.specs.Views.{View};
ghost use Rattle.shard_machine.specs.declared.call.ShardCall.TheVariants as call;
ghost use Rattle.shard_streams.specs.HeldImages.{HoldsImage, ShowsLive};
ghost use Rattle.shard_streams.specs.Plans.{ClaimsName, Plans, PlansCreate, PlansRemove};

use crate::members::{changed_member, has_config, limits_of};
use crate::publishing::publish;
use crate::removing::{delete, expire, purge};
use crate::{Creation, Plan, Streams};
use log_replay::Standing;
use nats_text::{Message, Name, NoMemory, Pattern};
use shard_machine::{Outcome, ShardRefusal};
use std::alloc::Global;
use stream_fold::laws::facts_of_histories;
use stream_fold::{Config, ConfigFault, Entry};

/// The greatest number of streams of a shard.
const MOST_STREAMS: usize = 256;

impl Streams {
    /// Whether a stream may be made, or one of this configuration stands. Refusals are `BadConfig`,
    /// `NameTaken`, `TooManyStreams` and `NoMemory`. That the incarnation is below `2^63` is for the caller
    /// to see.
    pub fn creates(&self, config: &Config) -> Result<Creation, ShardRefusal>
        ensures { (v : View) (now : ℕ) → HoldsImage self.now.replay v.image → PlansCreate v config.now now result }
    {
        match config.check(self.alloc) {
            Ok(()) => self.creates_right(config),
            Err(ConfigFault::Bad { member }) => Err(ShardRefusal::BadConfig { member }),
            Err(ConfigFault::NoMemory) => Err(ShardRefusal::NoMemory),
        }
    }

    /// The same for a configuration that a stream may have.
    fn creates_right(&self, config: &Config) -> Result<Creation, ShardRefusal>
        ensures { (v : View) (now : ℕ) → HoldsImage self.now.replay v.image → config_fault config.now ≡ None → PlansCreate v config.now now result }
    {
        facts_of_histories();
        match self.live(&config.name) {
            Some(standing) => claim(standing, config),
            None => {
                if self.count() < MOST_STREAMS {
                    Ok(Creation::New)
                } else {
                    Err(ShardRefusal::TooManyStreams)
                }
            }
        }
    }

    /// The entry that changes the limits of a stream. Refusals are `NoStream`, `BadConfig` and `NoMemory`.
    pub fn updates(&self, config: &Config) -> Result<Plan, ShardRefusal>
        ensures { (v : View) → HoldsImage self.now.replay v.image → Plans v (call.Update config.now) config.now.name result }
    {
        match self.live(&config.name) {
            None => Err(ShardRefusal::NoStream),
            Some(standing) => update(self.alloc, standing, config),
        }
    }

    /// Whether a stream stands that may go. The refusal is `NoStream`.
    pub fn removes(&self, name: &Name) -> Result<(), ShardRefusal>
        ensures { (v : View) → HoldsImage self.now.replay v.image → PlansRemove v name.now result }
    {
        match self.live(name) {
            None => Err(ShardRefusal::NoStream),
            Some(_) => Ok(()),
        }
    }

    /// The entry that stores a message which is published at this moment, in nanoseconds since 1970, or the
    /// number that it repeats. Refusals are `NoStream`, also where the stream doesn't take the subject, `Of`
    /// and `NoMemory`.
    pub fn publishes(&self, name: &Name, message: &Message, now: u64) -> Result<Plan, ShardRefusal>
        ensures { (v : View) → HoldsImage self.now.replay v.image → Plans v (call.Publish name.now message.now now) name.now result }
    {
        match self.live(name) {
            None => Err(ShardRefusal::NoStream),
            Some(standing) => publish(self.alloc, standing, message, now),
        }
    }

    /// The entry that takes a message away. Refusals are `NoStream` and `NoMessage`.
    pub fn deletes(&self, name: &Name, seq: u64) -> Result<Plan, ShardRefusal>
        ensures { (v : View) → HoldsImage self.now.replay v.image → Plans v (call.Delete name.now seq) name.now result }
    {
        match self.live(name) {
            None => Err(ShardRefusal::NoStream),
            Some(standing) => delete(standing, seq),
        }
    }

    /// The entry that takes away what matches and has a number below, all that matches where none is named.
    /// Where that is nothing no entry is written. Refusals are `NoStream` and `NoMemory`.
    pub fn purges(
        &self,
        name: &Name,
        pattern: &Pattern,
        below: Option<u64>,
    ) -> Result<Plan, ShardRefusal>
        ensures { (v : View) → HoldsImage self.now.replay v.image → Plans v (call.Purge name.now pattern.now below) name.now result }
    {
        match self.live(name) {
            None => Err(ShardRefusal::NoStream),
            Some(standing) => purge(standing, pattern, below),
        }
    }

    /// The entry that takes away what is as old at this moment, in nanoseconds since 1970, as the limit on
    /// age says. Where that is nothing no entry is written. The refusal is `NoStream`.
    pub fn expires(&self, name: &Name, now: u64) -> Result<Plan, ShardRefusal>
        ensures { (v : View) → HoldsImage self.now.replay v.image → Plans v (call.Expire name.now now) name.now result }
    {
        match self.live(name) {
            None => Err(ShardRefusal::NoStream),
            Some(standing) => Ok(expire(standing, now)),
        }
    }
}

/// A stream of the name stands: with this configuration, or another one.
fn claim(standing: &Standing, config: &Config) -> Result<Creation, ShardRefusal>
    ensures { (h : History) → StandsFor standing.now.state h → ClaimsName standing.now.state.held.limits config.now result }
{
    match has_config(&standing.state, config) {
        Ok(true) => Ok(Creation::Stands),
        Ok(false) => Err(ShardRefusal::NameTaken),
        Err(NoMemory) => Err(ShardRefusal::NoMemory),
    }
}

/// The entry that gives a stream another configuration.
fn update(alloc: Global, standing: &Standing, config: &Config) -> Result<Plan, ShardRefusal>
    ensures { (v : View) → ShowsLive v.image config.now.name (Some standing.now) → Plans v (call.Update config.now) config.now.name result }
{
    match config.check(alloc) {
        Ok(()) => limit(alloc, standing, config),
        Err(ConfigFault::Bad { member }) => Err(ShardRefusal::BadConfig { member }),
        Err(ConfigFault::NoMemory) => Err(ShardRefusal::NoMemory),
    }
}

/// The same of a configuration that a stream may have.
fn limit(alloc: Global, standing: &Standing, config: &Config) -> Result<Plan, ShardRefusal>
    ensures { (v : View) → ShowsLive v.image config.now.name (Some standing.now) → config_fault config.now ≡ None → Plans v (call.Update config.now) config.now.name result }
{
    match limits_of(config) {
        Ok(entry) => limit_by(alloc, standing, config, entry),
        Err(NoMemory) => Err(ShardRefusal::NoMemory),
    }
}

/// The same with the entry that is to be written.
fn limit_by(
    alloc: Global,
    standing: &Standing,
    config: &Config,
    entry: Entry,
) -> Result<Plan, ShardRefusal>
    ensures { (v : View) → ShowsLive v.image config.now.name (Some standing.now) → config_fault config.now ≡ None → entry ≡ change.Limits config.now → Plans v (call.Update config.now) config.now.name result }
{
    facts_of_histories();
    if standing.state.fits(&entry) {
        return Ok(Plan {
            entry: Some(entry),
            outcome: Outcome::Updated,
        });
    }
    match changed_member(alloc, standing.state.config(), config) {
        Ok(member) => Err(ShardRefusal::BadConfig { member }),
        Err(NoMemory) => Err(ShardRefusal::NoMemory),
    }
}
