//! The pairs that have changed, in the order of their changes, which have numbers.
ghost use Rattle.std.specs.Prelude.{◌≡◌, ⊤, MatchOption, ◌-◌, ◌≤◌, false, drop, IfOk};
ghost use Rattle.std.specs.List.{list_any};
ghost use Rattle.told_pairs.specs.declared.pair.Pair.{Pair as Key};
ghost use Rattle.told_pairs.specs.Keys.{same_key};
ghost use Rattle.told_pairs.specs.Wants.{most};
ghost use Rattle.told_pairs.specs.Tellings.{next_change, IsListed, IsNoted, IsShorter, Marks};

use crate::pair::{Pair, copied};
use nats_text::NoMemory;
use std::alloc::Global;
use std::collections::{BTreeSet, VecDeque};

/// As many changes are listed at most. A link that missed more has missed as many as there can be pairs.
const MAX_LISTED: usize = 65_536;

/// The last changes, each as its pair. A link that missed one before these looks at all pairs.
#[derive(Drop)]
pub struct ChangeLog {
    pub pairs: VecDeque<Pair>,
    /// The number of the first of them.
    pub base: u64,
}

/// Lists a change of a pair, in place of the oldest where as many are listed as may be. Where there is no memory
/// for it, no change up to this one is listed any more.
pub fn note(changes: &mut ChangeLog, pair: Pair)
    requires { next_change changes.old.pairs.items changes.old.base ≤ most }
    ensures { IsNoted pair changes.old.pairs.items changes.old.base changes.new.pairs.items changes.new.base }
{
    shorten(changes);
    mark(changes, pair);
}

fn mark(changes: &mut ChangeLog, pair: Pair)
    requires { next_change changes.old.pairs.items changes.old.base ≤ most }
    ensures { Marks pair changes.old.pairs.items changes.old.base changes.new.pairs.items changes.new.base }
{
    let number = next_number(changes);
    if number == u64::MAX {
        return;
    }
    if let Err(failed) = changes.pairs.push_back(pair) {
        drop(failed);
        changes.pairs.clear();
        changes.base = number + 1;
    }
}

/// Lets the oldest change go where as many are listed as may be.
fn shorten(changes: &mut ChangeLog)
    requires { next_change changes.old.pairs.items changes.old.base ≤ most }
    ensures { IsShorter changes.old.pairs.items changes.old.base changes.new.pairs.items changes.new.base }
{
    if changes.pairs.len() >= MAX_LISTED {
        changes.pairs.pop_front();
        changes.base += 1;
    }
}

/// Where the changes from this number on begin in the list, if all of them are listed.
pub fn place_of(changes: &ChangeLog, number: u64) -> Option<usize>
    requires { next_change changes.now.pairs.items changes.now.base ≤ most }
    ensures { MatchOption result ⊤ (λ at. IsListed changes.now.pairs.items changes.now.base number × (at ≡ number - changes.now.base)) }
{
    if number < changes.base || next_number(changes) == u64::MAX {
        return None;
    }
    Some((number - changes.base) as usize)
}

/// The number of the next change.
pub fn next_number(changes: &ChangeLog) -> u64
    requires { next_change changes.now.pairs.items changes.now.base ≤ most }
    ensures { result ≡ next_change changes.now.pairs.items changes.now.base }
{
    changes.base + changes.pairs.len() as u64
}

/// The pairs that have changed from a place in the list on.
pub fn changed_from(
    alloc: Global,
    changes: &ChangeLog,
    from: usize,
) -> Result<BTreeSet<Pair>, NoMemory>
    ensures { IfOk result (λ set. (p : Key) → list_any (same_key p) set.keys ≡ false → list_any (same_key p) (drop from changes.now.pairs.items) ≡ false) }
{
    let mut set = BTreeSet::new(alloc);
    for at in from..changes.pairs.len() {
        set.insert(copied(&changes.pairs[at])?)?;
    }
    Ok(set)
}
