ghost use Rattle.std.specs.Prelude.{◌≡◌, ◌<◌, ℕ, ◌∷◌, [], List as Items, true, false, length, IsTrue, IfOk, OnOk, OnErr};
ghost use Rattle.interest_list.specs.declared.subscription.Subscription.{Subscription as Sub};
ghost use Rattle.interest_list.specs.Lists.{max_subscriptions};
ghost use Rattle.interest_list.specs.Tellings.{told, news, informed};
ghost use Rattle.interest_list.specs.Changes.{forgotten, is_weight};
ghost use Rattle.told_pairs.specs.Wants.{IsOf, pair_of};

use crate::change_log::{ChangeLog, note};
use crate::links::{Links, forget, tell};
use crate::pair::Pair;
use crate::telling::told;
use crate::wants::{Wants, holding, lower, raise, reweigh, tidy};
use interest_list::{Subscription, Told};
use leaf_frames::LeafFrame;
use nats_text::{List, NoMemory};
use std::alloc::Global;
use std::collections::{BTreeMap, VecDeque};
use std::marker::Model;
use subject_transform::DomainMap;

/// Who wants each pair of pattern and queue that crosses to other nodes, and what each link was told.
///
/// Contracts speak of the subscriptions of which it is kept: `IsOf subs wants` says that `wants` is that of
/// these subscriptions. Each is added once, and taken away as it was added.
#[derive(Drop)]
pub struct ToldPairs {
    alloc: Global,
    domain: DomainMap,
    wants: Wants,
    links: Links,
    changes: ChangeLog,
}

impl Model for ToldPairs {
    ghost use Rattle.std.specs.Prelude.{map};
    ghost use Rattle.told_pairs.specs.Tellings.{Pairs, AreCovered, told_link};

    ghost Value = { Pairs };

    ghost view = { λ it. record { wants = it.wants.entries; told_to = map told_link it.links.entries } };

    ghost invariant = { λ it. AreCovered it.wants.entries it.links.entries it.changes.pairs.items it.changes.base };
}

impl ToldPairs {
    /// Nobody wants anything, and no link was told anything. It takes no memory.
    pub fn new(alloc: Global, domain: DomainMap) -> ToldPairs
        ensures wants { IsOf [] result.wants }
        ensures told_to { result.told_to ≡ [] }
    {
        ToldPairs {
            alloc,
            domain,
            wants: BTreeMap::new(alloc),
            links: BTreeMap::new(alloc),
            changes: ChangeLog {
                pairs: VecDeque::new(alloc),
                base: 0,
            },
        }
    }

    /// One more subscription stands. Without memory nothing has changed.
    pub fn add(&mut self, sub: &Subscription) -> Result<(), NoMemory>
        requires { IsTrue (is_weight sub.now.weight) }
        ensures ok { OnOk result ((subs : Items Sub) → IsOf subs self.old.wants → length subs < max_subscriptions → IsOf (sub.now ∷ subs) self.new.wants) }
        ensures told_to { self.new.told_to ≡ self.old.told_to }
        ensures err { OnErr result (self.new ≡ self.old) }
    {
        if !self.domain.crosses(&sub.pattern) {
            return Ok(());
        }
        let pair = pair_of(sub)?;
        raise(
            self.alloc,
            &mut self.wants,
            &pair,
            holding(&sub.holder),
            sub.weight,
        )?;
        note(&mut self.changes, pair);
        Ok(())
    }

    /// A subscription is gone. It takes no memory.
    pub fn remove(&mut self, sub: Subscription)
        ensures wants { (subs : Items Sub) → IsOf (sub ∷ subs) self.old.wants → IsOf subs self.new.wants }
        ensures told_to { self.new.told_to ≡ self.old.told_to }
    {
        if self.domain.crosses(&sub.pattern) {
            let link = holding(&sub.holder);
            let weight = sub.weight;
            let pair = into_pair(sub);
            lower(&mut self.wants, &pair, link, weight);
            tidy(&mut self.wants, &pair);
            note(&mut self.changes, pair);
        }
    }

    /// A subscription has another weight now. It takes no memory.
    pub fn reweigh(&mut self, sub: Subscription, weight: u32)
        requires { IsTrue (is_weight weight) }
        ensures wants { (subs : Items Sub) → IsOf (sub ∷ subs) self.old.wants → length subs < max_subscriptions → IsOf (record sub { weight = weight } ∷ subs) self.new.wants }
        ensures told_to { self.new.told_to ≡ self.old.told_to }
    {
        if self.domain.crosses(&sub.pattern) {
            let link = holding(&sub.holder);
            let before = sub.weight;
            let pair = into_pair(sub);
            reweigh(&mut self.wants, &pair, link, before, weight);
            note(&mut self.changes, pair);
        }
    }

    /// What a link is to be told: each pair that others than this link want, in byte order, with the weight of
    /// the group.
    pub fn told(&self, link: u64) -> Result<List<Told>, NoMemory>
        ensures { IfOk result (λ it. (subs : Items Sub) → IsOf subs self.now.wants → it ≡ told link subs) }
    {
        told(self.alloc, &self.wants, link)
    }

    /// The frames that tell a link what has changed since it was told last: LS- for each pair that is gone, then
    /// LS+ for each that is new or has another weight. Without memory it counts as not told.
    pub fn changes_for(&mut self, link: u64) -> Result<List<LeafFrame>, NoMemory>
        ensures wants { self.new.wants ≡ self.old.wants }
        ensures frames { IfOk result (λ it. (subs : Items Sub) → IsOf subs self.old.wants → it ≡ news link (record { subs = subs; told_to = self.old.told_to })) }
        ensures ok { OnOk result ((subs : Items Sub) → IsOf subs self.old.wants → record { subs = subs; told_to = self.new.told_to } ≡ informed link (record { subs = subs; told_to = self.old.told_to })) }
        ensures err { OnErr result (self.new.told_to ≡ self.old.told_to) }
    {
        tell(
            self.alloc,
            &self.wants,
            &self.changes,
            &mut self.links,
            link,
        )
    }

    /// All that a link was told is gone. It takes no memory.
    pub fn forget(&mut self, link: u64)
        ensures wants { self.new.wants ≡ self.old.wants }
        ensures told_to { self.new.told_to ≡ forgotten link self.old.told_to }
    {
        forget(&mut self.links, link);
    }
}

fn pair_of(sub: &Subscription) -> Result<Pair, NoMemory>
    ensures { IfOk result (λ it. it ≡ pair_of sub.now) }
{
    Ok(Pair {
        pattern: sub.pattern.clone()?,
        queue: sub.queue.clone()?,
    })
}

fn into_pair(sub: Subscription) -> Pair
    ensures { result ≡ pair_of sub }
{
    let Subscription {
        holder,
        pattern,
        queue,
        ..
    } = sub;
    drop(holder);
    Pair { pattern, queue }
}
