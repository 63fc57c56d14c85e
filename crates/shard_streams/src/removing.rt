//! Messages that go: which entry takes them, and how many they are.
ghost use Rattle.std.specs.Prelude.{◌≡◌, ◌<◌, ◌^◌, ℕ, List as Items, IfOk, Ok, Some, count_by};
ghost use Rattle.stream_fold.specs.Histories.{is_expired, is_purged};
ghost use Rattle.stream_fold.specs.declared.entry.Entry.TheVariants as change;
ghost use Rattle.shard_machine.specs.Answers.{below_or_all};
ghost use Rattle.shard_machine.specs.Views.{View};
ghost use Rattle.shard_machine.specs.declared.call.ShardCall.TheVariants as call;
ghost use Rattle.shard_streams.specs.HeldImages.{ShowsLive};
ghost use Rattle.shard_streams.specs.Plans.{Plans};

use crate::Plan;
use log_replay::Standing;
use nats_text::{NoMemory, Pattern, matches};
use shard_machine::{Outcome, ShardRefusal};
use stream_fold::laws::facts_of_histories;
use stream_fold::{Entry, Numbered};

/// The entry that takes the message of a number.
pub fn delete(standing: &Standing, seq: u64) -> Result<Plan, ShardRefusal>
    ensures { (v : View) (name : Items ℕ) → ShowsLive v.image name (Some standing.now) → Plans v (call.Delete name seq) name result }
{
    facts_of_histories();
    match standing.state.kept(seq) {
        None => Err(ShardRefusal::NoMessage),
        Some(_) => Ok(Plan {
            entry: Some(Entry::Del { seq }),
            outcome: Outcome::Deleted,
        }),
    }
}

/// The entry that takes what matches and has a number below.
pub fn purge(
    standing: &Standing,
    pattern: &Pattern,
    below: Option<u64>,
) -> Result<Plan, ShardRefusal>
    ensures { (v : View) (name : Items ℕ) → ShowsLive v.image name (Some standing.now) → Plans v (call.Purge name pattern.now below) name result }
{
    facts_of_histories();
    let below = below_or_all(below, standing.state.last());
    let count = purged_count(pattern, below, standing.state.rows());
    let outcome = Outcome::Purged { count };
    if count == 0 {
        return Ok(Plan {
            entry: None,
            outcome,
        });
    }
    match purge_of(pattern, below) {
        Ok(entry) => Ok(Plan {
            entry: Some(entry),
            outcome,
        }),
        Err(NoMemory) => Err(ShardRefusal::NoMemory),
    }
}

fn purge_of(pattern: &Pattern, below: u64) -> Result<Entry, NoMemory>
    ensures { IfOk result (λ entry. entry ≡ change.Purge pattern.now below) }
{
    Ok(Entry::Purge {
        pattern: pattern.clone()?,
        below,
    })
}

/// The entry that takes what is too old.
pub fn expire(standing: &Standing, now: u64) -> Plan
    ensures { (v : View) (name : Items ℕ) → ShowsLive v.image name (Some standing.now) → Plans v (call.Expire name now) name (Ok result) }
{
    facts_of_histories();
    let count = expired_count(standing.state.config().max_age, now, standing.state.rows());
    let outcome = Outcome::Expired { count };
    if count == 0 {
        return Plan {
            entry: None,
            outcome,
        };
    }
    Plan {
        entry: Some(Entry::Expire { now }),
        outcome,
    }
}

/// The number below which a purge takes, one past the last where none is named.
fn below_or_all(below: Option<u64>, last: u64) -> u64
    requires { last < 2 ^ 63 }
    ensures { result ≡ below_or_all below last }
{
    match below {
        None => last + 1,
        Some(below) => below,
    }
}

fn purged_count(pattern: &Pattern, below: u64, rows: &[Numbered]) -> u64
    ensures { result ≡ count_by (is_purged pattern.now below) rows.now }
{
    rows.iter()
        .filter(|row| is_purged(pattern, below, row))
        .count() as u64
}

fn is_purged(pattern: &Pattern, below: u64, row: &Numbered) -> bool
    ensures { result ≡ is_purged pattern.now below row.now }
{
    row.seq < below && matches(pattern, &row.message.subject)
}

fn expired_count(max_age: u64, now: u64, rows: &[Numbered]) -> u64
    ensures { result ≡ count_by (is_expired max_age now) rows.now }
{
    rows.iter()
        .filter(|row| is_expired(max_age, now, row))
        .count() as u64
}

fn is_expired(max_age: u64, now: u64, row: &Numbered) -> bool
    ensures { result ≡ is_expired max_age now row.now }
{
    max_age != 0 && max_age <= now && row.message.time <= now - max_age
}
