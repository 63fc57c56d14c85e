//! What a publish is answered, and the entry that stores its message.
ghost use Rattle.std.specs.Prelude.{◌≡◌, ◌<◌, ◌+◌, ◌^◌, ℕ, List as Items, IfErr, IfOk, None, Some, max, true};
ghost use Rattle.std.specs.List.{list_any};
ghost use Rattle.nats_text.specs.Matching.{matches};
ghost use Rattle.stream_fold.specs.declared.entry.Entry.TheVariants as entry;
ghost use Rattle.shard_machine.specs.Answers.{takes_subject};
ghost use Rattle.shard_machine.specs.Images.{NameFacts};
ghost use Rattle.shard_machine.specs.Views.{View};
ghost use Rattle.shard_machine.specs.declared.call.ShardCall.TheVariants as call;
ghost use Rattle.shard_machine.specs.declared.reply.Outcome.TheVariants as outcome;
ghost use Rattle.shard_streams.specs.HeldImages.{IsStreamOf, ShowsLive};
ghost use Rattle.shard_streams.specs.Plans.{Plans, PlansPublish, refusal_for};

use crate::Plan;
use log_replay::Standing;
use nats_text::{Message, NoMemory, Subject, matches};
use shard_machine::{Outcome, ShardRefusal};
use std::alloc::Global;
use stream_fold::laws::{facts_of_histories, facts_of_publishes};
use stream_fold::{Config, Entry, Refusal, StreamState, Verdict};

/// The entry that stores a message, or the number that it repeats.
pub fn publish(
    alloc: Global,
    standing: &Standing,
    message: &Message,
    now: u64,
) -> Result<Plan, ShardRefusal>
    ensures { (v : View) (name : Items ℕ) → ShowsLive v.image name (Some standing.now) → Plans v (call.Publish name message.now now) name result }
{
    facts_of_histories();
    if takes_subject(standing.state.config(), &message.subject) {
        publish_taken(alloc, standing, message, now)
    } else {
        Err(ShardRefusal::NoStream)
    }
}

/// The same of a message whose subject the stream takes.
fn publish_taken(
    alloc: Global,
    standing: &Standing,
    message: &Message,
    now: u64,
) -> Result<Plan, ShardRefusal>
    ensures { (v : View) (name : Items ℕ) → ShowsLive v.image name (Some standing.now) → takes_subject standing.now.state.held.limits message.now.subject ≡ true → Plans v (call.Publish name message.now now) name result }
{
    facts_of_histories();
    match standing.state.stored_subject(alloc, &message.subject) {
        Ok(None) => publish_lent(alloc, standing, message, now),
        Ok(Some(subject)) => publish_under(alloc, standing, message, subject, now),
        Err(NoMemory) => Err(ShardRefusal::NoMemory),
    }
}

/// The same under another subject.
fn publish_under(
    alloc: Global,
    standing: &Standing,
    message: &Message,
    subject: Subject,
    now: u64,
) -> Result<Plan, ShardRefusal>
    ensures { (v : View) (name : Items ℕ) (known : NameFacts) → IsStreamOf name standing.now known → PlansPublish v name known.stream (record message.now { subject = subject }) now result }
{
    match with_subject(message, subject) {
        Ok(copy) => publish_own(alloc, standing, copy, now),
        Err(NoMemory) => Err(ShardRefusal::NoMemory),
    }
}

/// The same under the message's own subject, of which a copy is stored.
fn publish_lent(
    alloc: Global,
    standing: &Standing,
    message: &Message,
    now: u64,
) -> Result<Plan, ShardRefusal>
    ensures { (v : View) (name : Items ℕ) (known : NameFacts) → IsStreamOf name standing.now known → PlansPublish v name known.stream message.now now result }
{
    facts_of_histories();
    facts_of_publishes();
    match standing.state.check(alloc, message, now) {
        Ok(Verdict::Fresh) => store_copy(&standing.state, message, now),
        Ok(Verdict::Duplicate { seq }) => Ok(repeat(seq)),
        Err(why) => Err(refusal_for(why)),
    }
}

/// The same of a message that is stored itself.
fn publish_own(
    alloc: Global,
    standing: &Standing,
    message: Message,
    now: u64,
) -> Result<Plan, ShardRefusal>
    ensures { (v : View) (name : Items ℕ) (known : NameFacts) → IsStreamOf name standing.now known → PlansPublish v name known.stream message now result }
{
    facts_of_histories();
    facts_of_publishes();
    match standing.state.check(alloc, &message, now) {
        Ok(Verdict::Fresh) => Ok(store(&standing.state, message, now)),
        Ok(Verdict::Duplicate { seq }) => Ok(repeat(seq)),
        Err(why) => Err(refusal_for(why)),
    }
}

/// Whether one of the stream's patterns takes the subject.
fn takes_subject(config: &Config, subject: &Subject) -> bool
    ensures { result ≡ takes_subject config.now subject.now }
{
    config
        .subjects
        .as_slice()
        .iter()
        .any(|pattern| matches(pattern, subject))
}

/// A copy of the message under another subject.
fn with_subject(message: &Message, subject: Subject) -> Result<Message, NoMemory>
    ensures { IfOk result (λ copy. copy ≡ record message.now { subject = subject }) }
{
    Ok(Message {
        subject,
        headers: message.headers.clone()?,
        payload: message.payload.clone()?,
        time: message.time,
    })
}

/// A copy of the message is stored.
fn store_copy(state: &StreamState, message: &Message, now: u64) -> Result<Plan, ShardRefusal>
    ensures ok { IfOk result (λ plan. (plan.entry ≡ Some (entry.Put (state.now.held.last + 1) (record message.now { time = max now state.now.held.clock }) None)) × (plan.outcome ≡ outcome.Stored (state.now.held.last + 1))) }
    ensures bound { IfOk result (λ _. state.now.held.last < 2 ^ 63) }
    ensures err { IfErr result (λ why. why ≡ ShardRefusal.NoMemory) }
{
    match message.clone() {
        Ok(copy) => Ok(store(state, copy, now)),
        Err(_) => Err(ShardRefusal::NoMemory),
    }
}

/// The message is stored under the next number, at the greater of this moment and the stream's clock.
fn store(state: &StreamState, message: Message, now: u64) -> Plan
    ensures entry { result.entry ≡ Some (entry.Put (state.now.held.last + 1) (record message { time = max now state.now.held.clock }) None) }
    ensures outcome { result.outcome ≡ outcome.Stored (state.now.held.last + 1) }
    ensures bound { state.now.held.last < 2 ^ 63 }
{
    let seq = state.last() + 1;
    let mut message = message;
    message.time = now.max(state.clock());
    Plan {
        entry: Some(Entry::Put {
            seq,
            message,
            mark: None,
        }),
        outcome: Outcome::Stored { seq },
    }
}

/// The message repeats the one of a number.
fn repeat(seq: u64) -> Plan
    ensures entry { result.entry ≡ None }
    ensures outcome { result.outcome ≡ outcome.Duplicate seq }
{
    Plan {
        entry: None,
        outcome: Outcome::Duplicate { seq },
    }
}

/// The shard's refusal for the stream's.
fn refusal_for(why: Refusal) -> ShardRefusal
    ensures { result ≡ refusal_for why }
{
    match why {
        Refusal::NoMemory => ShardRefusal::NoMemory,
        why => ShardRefusal::Of(why),
    }
}
