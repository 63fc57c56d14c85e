ghost use Rattle.std.specs.Prelude.{◌≡◌, ◌++◌, map, IfOk, OnOk, if◌then◌else◌, []};
ghost use Rattle.world_links.specs.States.{moments};
ghost use Rattle.world_steps.specs.Routes.{followers, is_accepted, listed, operated, pump, pump_if};
ghost use Rattle.world_steps.specs.Works.{has_failed, is_want};

use crate::jobs::{copied, operated, pump};
use nats_text::{Name, NoMemory};
use shard_machine::{Outcome, ShardCall, ShardRefusal};
use std::collections::VecDeque;
use world_steps::Job;

/// Whether a call failed for want of memory, or of a disk.
pub fn has_failed(outcome: &Outcome) -> bool
    ensures { result ≡ has_failed outcome.now }
{
    match outcome {
        Outcome::Refused(why) => is_want(why),
        _ => false,
    }
}

fn is_want(why: &ShardRefusal) -> bool
    ensures { result ≡ is_want why.now }
{
    match why {
        ShardRefusal::JournalFull { .. } => true,
        ShardRefusal::BadJournal { .. } => true,
        ShardRefusal::NoMemory => true,
        ShardRefusal::DiskFault => true,
        _ => false,
    }
}

fn is_accepted(outcome: &Outcome) -> bool
    ensures { result ≡ is_accepted outcome.now }
{
    match outcome {
        Outcome::Refused(_) => false,
        _ => true,
    }
}

/// Puts what follows a call before all that is due: an operation that was accepted is followed by a pump of its
/// stream at the moment `now`, a list of names by a pump of each at the moment `timer`.
pub fn follow(
    jobs: &mut VecDeque<Job>,
    now: u64,
    timer: u64,
    call: &ShardCall,
    outcome: &Outcome,
) -> Result<(), NoMemory>
    ensures { OnOk result (jobs.new.items ≡ followers (moments now timer) call.now outcome.now ++ jobs.old.items) }
{
    pump_listed(jobs, timer, outcome)?;
    if is_accepted(outcome) {
        pump_operated(jobs, now, call)?;
    }
    Ok(())
}

/// Puts a pump of the stream of an operation first.
fn pump_operated(jobs: &mut VecDeque<Job>, now: u64, call: &ShardCall) -> Result<(), NoMemory>
    ensures { OnOk result (jobs.new.items ≡ pump_if now (operated call.now) ++ jobs.old.items) }
{
    if let Some(name) = operated(call) {
        jobs.push_front(pump(now, copied(name)?))?;
    }
    Ok(())
}

/// Puts a pump of each stream that was listed first.
fn pump_listed(jobs: &mut VecDeque<Job>, timer: u64, outcome: &Outcome) -> Result<(), NoMemory>
    ensures { OnOk result (jobs.new.items ≡ map (pump timer) (listed outcome.now) ++ jobs.old.items) }
{
    match outcome {
        Outcome::Listed(names) => pump_each(jobs, timer, names.as_slice()),
        _ => Ok(()),
    }
}

fn pump_each(jobs: &mut VecDeque<Job>, timer: u64, names: &[Name]) -> Result<(), NoMemory>
    ensures { OnOk result (jobs.new.items ≡ map (pump timer) names.now ++ jobs.old.items) }
{
    let mut left = names.len();
    'pumps: while left > 0 {
        left -= 1;
        let name = copied(&names[left])?;
        jobs.push_front(pump(timer, name))?;
    }
    Ok(())
}
