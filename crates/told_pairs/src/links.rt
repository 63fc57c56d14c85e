//! What each link was told.
ghost use Rattle.std.specs.Prelude.{◌≡◌, ℕ, ◌≤◌, false, None, Some, map, cond, List as Items, OnOk, OnErr, IfOk};
ghost use Rattle.std.specs.List.{list_any};
ghost use Rattle.std.specs.Map.{keys_of, lookup};
ghost use Rattle.std.specs.Ordering.{is_eq, nat_cmp};
ghost use Rattle.interest_list.specs.declared.subscription.Subscription.{Subscription as Sub};
ghost use Rattle.interest_list.specs.Orders.{placed};
ghost use Rattle.interest_list.specs.Lists.{link_cmp};
ghost use Rattle.interest_list.specs.Tellings.{told, changes as frames_between, told_before};
ghost use Rattle.interest_list.specs.Changes.{forgotten};
ghost use Rattle.told_pairs.specs.declared.pair.Pair.{Pair as Key};
ghost use Rattle.told_pairs.specs.Keys.{same_key};
ghost use Rattle.told_pairs.specs.Wants.{IsOf, most};
ghost use Rattle.told_pairs.specs.Tellings.{AreCovered, IsCovered, AreAll, told_list, told_link, next_change};

use crate::change_log::{ChangeLog, changed_from, next_number, place_of};
use crate::pair::{Pair, copied};
use crate::telling::{frames, make_places, settle};
use crate::wants::Wants;
use leaf_frames::LeafFrame;
use nats_text::{List, NoMemory};
use std::alloc::Global;
use std::collections::{BTreeMap, BTreeSet};
use std::marker::Model;

/// What a link was told.
#[derive(Drop)]
pub struct LinkTold {
    /// The weight of each pair, and 0 where there is a place for it and it wasn't told.
    told: ToldWeights,
    /// The number of the first change of which it wasn't told, if it was told anything.
    seen: Option<u64>,
}

impl Model for LinkTold {
    ghost use Rattle.told_pairs.specs.Tellings.{LinkTellings};

    ghost Value = { LinkTellings };

    ghost view = { λ to. record { told = to.told.entries; seen = to.seen } };
}

/// The weight of each pair.
pub type ToldWeights = BTreeMap<Pair, u32>;

/// What each link was told, by its number.
pub type Links = BTreeMap<u64, LinkTold>;

/// The frames that tell a link what has changed, which counts as told from then on. Without memory nothing was told.
pub fn tell(
    alloc: Global,
    wants: &Wants,
    changes: &ChangeLog,
    links: &mut Links,
    link: u64,
) -> Result<List<LeafFrame>, NoMemory>
    requires { AreCovered wants.now.entries links.old.entries changes.now.pairs.items changes.now.base }
    ensures covered { AreCovered wants.now.entries links.new.entries changes.now.pairs.items changes.now.base }
    ensures frames { IfOk result (λ it. (subs : Items Sub) → IsOf subs wants.now.entries → it ≡ frames_between (told_before link (map told_link links.old.entries)) (told link subs)) }
    ensures ok { OnOk result ((subs : Items Sub) → IsOf subs wants.now.entries → map told_link links.new.entries ≡ placed link_cmp (record { link = link; told = told link subs }) (map told_link links.old.entries)) }
    ensures err { OnErr result (map told_link links.new.entries ≡ map told_link links.old.entries) }
{
    match links.get_mut(&link) {
        Some(to) => inform(alloc, wants, changes, link, to),
        None => tell_first(alloc, wants, changes, links, link),
    }
}

// The same of a link that was told nothing before.
fn tell_first(
    alloc: Global,
    wants: &Wants,
    changes: &ChangeLog,
    links: &mut Links,
    link: u64,
) -> Result<List<LeafFrame>, NoMemory>
    requires covered { AreCovered wants.now.entries links.old.entries changes.now.pairs.items changes.now.base }
    requires never { lookup (λ l. is_eq (nat_cmp link l)) links.old.entries ≡ None }
    ensures covered { AreCovered wants.now.entries links.new.entries changes.now.pairs.items changes.now.base }
    ensures frames { IfOk result (λ it. (subs : Items Sub) → IsOf subs wants.now.entries → it ≡ frames_between (told_before link (map told_link links.old.entries)) (told link subs)) }
    ensures ok { OnOk result ((subs : Items Sub) → IsOf subs wants.now.entries → map told_link links.new.entries ≡ placed link_cmp (record { link = link; told = told link subs }) (map told_link links.old.entries)) }
    ensures err { OnErr result (map told_link links.new.entries ≡ map told_link links.old.entries) }
{
    let mut to = LinkTold {
        told: BTreeMap::new(alloc),
        seen: None,
    };
    let frames = inform(alloc, wants, changes, link, &mut to)?;
    links.insert(link, to)?;
    Ok(frames)
}

/// All that a link was told is gone.
pub fn forget(links: &mut Links, link: u64)
    ensures told { map told_link links.new.entries ≡ forgotten link (map told_link links.old.entries) }
    ensures others { (l : ℕ) → lookup (λ k. is_eq (nat_cmp l k)) links.new.entries ≡ cond (is_eq (nat_cmp link l)) None (lookup (λ k. is_eq (nat_cmp l k)) links.old.entries) }
{
    // Links stand in order, as `len` says.
    let _ = links.len();
    links.remove(&link);
}

// The frames for a link, which holds what it is told from then on.
fn inform(
    alloc: Global,
    wants: &Wants,
    changes: &ChangeLog,
    link: u64,
    to: &mut LinkTold,
) -> Result<List<LeafFrame>, NoMemory>
    requires ends { next_change changes.now.pairs.items changes.now.base ≤ most }
    requires covered { IsCovered wants.now.entries changes.now.pairs.items changes.now.base link to.old }
    ensures covered { IsCovered wants.now.entries changes.now.pairs.items changes.now.base link to.new }
    ensures frames { IfOk result (λ it. (subs : Items Sub) → IsOf subs wants.now.entries → it ≡ frames_between (told_list to.old.told) (told link subs)) }
    ensures ok { OnOk result ((subs : Items Sub) → IsOf subs wants.now.entries → told_list to.new.told ≡ told link subs) }
    ensures err { OnErr result (told_list to.new.told ≡ told_list to.old.told) }
{
    let pairs = pairs_to_tell(alloc, wants, changes, link, to)?;
    // Pairs stand in order before and after, as `len` says.
    let _ = to.told.len();
    let frames = frames(alloc, wants, link, &to.told, &pairs)?;
    make_places(&mut to.told, &pairs)?;
    settle(&mut to.told, wants, link, &pairs);
    let _ = to.told.len();
    to.seen = Some(next_number(changes));
    Ok(frames)
}

// Each pair of which a link is to be told something else than it was told, and others that may have changed.
fn pairs_to_tell(
    alloc: Global,
    wants: &Wants,
    changes: &ChangeLog,
    link: u64,
    to: &LinkTold,
) -> Result<BTreeSet<Pair>, NoMemory>
    requires ends { next_change changes.now.pairs.items changes.now.base ≤ most }
    requires covered { IsCovered wants.now.entries changes.now.pairs.items changes.now.base link to.now }
    ensures { IfOk result (λ set. AreAll wants.now.entries link to.now.told set.keys) }
{
    match to.seen {
        Some(seen) => changed_since(alloc, wants, changes, link, to, seen),
        None => all_pairs(alloc, wants, &to.told),
    }
}

fn changed_since(
    alloc: Global,
    wants: &Wants,
    changes: &ChangeLog,
    link: u64,
    to: &LinkTold,
    seen: u64,
) -> Result<BTreeSet<Pair>, NoMemory>
    requires ends { next_change changes.now.pairs.items changes.now.base ≤ most }
    requires covered { IsCovered wants.now.entries changes.now.pairs.items changes.now.base link to.now }
    requires seen { to.now.seen ≡ Some seen }
    ensures { IfOk result (λ set. AreAll wants.now.entries link to.now.told set.keys) }
{
    match place_of(changes, seen) {
        Some(from) => changed_from(alloc, changes, from),
        None => all_pairs(alloc, wants, &to.told),
    }
}

// All pairs that somebody wants or that were told.
fn all_pairs(alloc: Global, wants: &Wants, told: &ToldWeights) -> Result<BTreeSet<Pair>, NoMemory>
    ensures { IfOk result (λ set. (link : ℕ) → AreAll wants.now.entries link told.now.entries set.keys) }
{
    let mut set = BTreeSet::new(alloc);
    add_keys(&mut set, wants)?;
    add_keys(&mut set, told)?;
    Ok(set)
}

fn add_keys<V>(set: &mut BTreeSet<Pair>, map: &BTreeMap<Pair, V>) -> Result<(), NoMemory>
    ensures old { OnOk result ((p : Key) → list_any (same_key p) set.new.keys ≡ false → list_any (same_key p) set.old.keys ≡ false) }
    ensures keys { OnOk result ((p : Key) → list_any (same_key p) set.new.keys ≡ false → list_any (same_key p) (keys_of map.now.entries) ≡ false) }
{
    for pair in map.keys() {
        set.insert(copied(pair)?)?;
    }
    Ok(())
}
