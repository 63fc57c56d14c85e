//! What was found, in order.
ghost use Rattle.std.specs.Prelude.{◌≡◌, IfOk, OnOk};
ghost use Rattle.interest_list.specs.Orders.{in_order, placed_among};
ghost use Rattle.interest_list.specs.Lists.{subscription_cmp};
ghost use Rattle.pattern_tree.specs.Reached.{seen};
ghost use Rattle.pattern_tree.specs.Standing.{all_of};

use crate::Entry;
use nats_text::NoMemory;
use std::alloc::Global;
use std::collections::BTreeSet;

/// The entries of these sets, in order.
pub fn in_order<'a>(alloc: Global, sets: &[&'a BTreeSet<Entry>]) -> Result<Vec<&'a Entry>, NoMemory>
    ensures { IfOk result (λ it. seen it.items ≡ in_order subscription_cmp (all_of (seen sets.now))) }
{
    let mut found = BTreeSet::new(alloc);
    for set in sets {
        add_all(&mut found, *set)?;
    }
    listed(alloc, found)
}

// Adds the entries of a set.
fn add_all<'a>(found: &mut BTreeSet<&'a Entry>, set: &'a BTreeSet<Entry>) -> Result<(), NoMemory>
    ensures { OnOk result (seen found.new.keys ≡ placed_among subscription_cmp set.now.keys (seen found.old.keys)) }
{
    for entry in set {
        found.replace(entry)?;
    }
    Ok(())
}

fn listed<'a>(alloc: Global, found: BTreeSet<&'a Entry>) -> Result<Vec<&'a Entry>, NoMemory>
    ensures { IfOk result (λ it. seen it.items ≡ seen found.entry.keys) }
{
    let mut list = Vec::new(alloc);
    for entry in found {
        list.push(entry)?;
    }
    Ok(list)
}
