ghost use Rattle.std.specs.Prelude.{◌≡◌, [], length, filter, not, false, IfOk, IfErr, IfSome, OnOk, OnErr};
ghost use Rattle.std.specs.List.{find, list_any};
ghost use Rattle.std.specs.List.Sorted.{IsStrictlySortedBy};
ghost use Rattle.std.specs.BTreeSet.{replace_key};
ghost use Rattle.std.specs.Option.{option_copied};
ghost use Rattle.interest_list.specs.Orders.{placed};
ghost use Rattle.interest_list.specs.Lists.{subscription_cmp};
ghost use Rattle.pattern_tree.specs.Order.{is_same};
ghost use Rattle.pattern_tree.specs.Reached.{seen};
ghost use Rattle.pattern_tree.specs.Standing.{matching};

use crate::Entry;
use crate::found::in_order;
use crate::listing::{Listing, list, unlist};
use crate::walk::walk;
use interest_list::Subscription;
use nats_text::{NoMemory, Subject};
use std::alloc::Global;
use std::collections::{BTreeMap, BTreeSet};
use std::marker::Model;

/// The subscriptions of a node. Contracts see them as the list in the order of their holders.
#[derive(Drop)]
pub struct PatternTree {
    alloc: Global,
    in_order: BTreeSet<Entry>,
    by_pattern: Listing,
}

impl Model for PatternTree {
    ghost use Rattle.std.specs.Prelude.{List};
    ghost use Rattle.interest_list.specs.declared.subscription.Subscription.{Subscription};
    ghost use Rattle.pattern_tree.specs.Standing.{IsListed};

    ghost Value = { List Subscription };

    ghost view = { λ tree. tree.in_order.keys };

    ghost invariant = { λ tree. IsListed tree.in_order.keys tree.by_pattern };
}

impl PatternTree {
    /// No subscription stands yet. It takes no memory.
    pub fn new(alloc: Global) -> PatternTree
        ensures { result ≡ [] }
    {
        PatternTree {
            alloc,
            in_order: BTreeSet::new(alloc),
            by_pattern: BTreeMap::new(alloc),
        }
    }

    /// How many subscriptions stand.
    pub fn len(&self) -> usize
        ensures { result ≡ length self.now }
    {
        self.in_order.len()
    }

    /// The subscription that stands and is equal to this one.
    pub fn get(&self, entry: &Entry) -> Option<&Entry>
        ensures { option_copied result ≡ find (is_same entry.now) self.now }
    {
        self.in_order.get(entry)
    }

    /// Puts a subscription at its place, or in place of the one that is equal, which has to have the same
    /// pattern. Without memory all stays as it was.
    pub fn put(&mut self, subscription: &Subscription) -> Result<(), NoMemory>
        requires { IfSome (find (is_same subscription.now) self.old) (λ s. s.pattern ≡ subscription.now.pattern) }
        ensures ok { OnOk result (self.new ≡ placed subscription_cmp subscription.now self.old) }
        ensures err { OnErr result (self.new ≡ self.old) }
    {
        let entry = Entry::of(self.alloc, subscription)?;
        let copy = Entry::of(self.alloc, subscription)?;
        list(self.alloc, &mut self.by_pattern, copy)?;
        let Err(entry) = stand(&mut self.in_order, entry) else {
            return Ok(());
        };
        unlist(&mut self.by_pattern, entry.pattern(), &entry);
        Err(NoMemory)
    }

    /// Takes the subscription away that is equal to this one. It takes no memory.
    pub fn take(&mut self, entry: &Entry) -> Option<Entry>
        ensures taken { result ≡ find (is_same entry.now) self.old }
        ensures others { self.new ≡ filter (λ s. not (is_same entry.now s)) self.old }
    {
        let taken = self.in_order.take(entry)?;
        unlist(&mut self.by_pattern, taken.pattern(), entry);
        Some(taken)
    }

    /// The subscriptions whose pattern matches the subject. It looks only at patterns that begin as one that
    /// matches would.
    pub fn matching(&self, subject: &Subject) -> Result<Vec<&Entry>, NoMemory>
        ensures { IfOk result (λ it. seen it.items ≡ matching subject.now self.now) }
    {
        let none = Vec::new(self.alloc);
        let sets = walk(self.alloc, &self.by_pattern, &[], subject.bytes(), none)?;
        in_order(self.alloc, sets.as_slice())
    }
}

// Puts an entry in order, in place of one that is equal. Without memory it comes back, and none is equal.
fn stand(in_order: &mut BTreeSet<Entry>, entry: Entry) -> Result<(), Entry>
    ensures ok { OnOk result (in_order.new.keys ≡ replace_key subscription_cmp in_order.old.keys entry) }
    ensures back { IfErr result (λ back. back ≡ entry) }
    ensures err { OnErr result (in_order.new.keys ≡ in_order.old.keys) }
    ensures absent { OnErr result (list_any (is_same entry) in_order.old.keys ≡ false) }
    ensures rises { IsStrictlySortedBy subscription_cmp in_order.new.keys }
{
    match in_order.replace(entry) {
        Ok(replaced) => {
            drop(replaced);
            Ok(())
        }
        Err(failed) => Err(failed.value),
    }
}
