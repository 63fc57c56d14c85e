//! What a link is told, pair by pair.
ghost use Rattle.std.specs.Prelude.{◌≡◌, ℕ, ◌==◌, ◌<◌, ◌++◌, ◌∷◌, [], true, false, cond, map, nat_lt, option_map, List as Items, IfOk, OnOk};
ghost use Rattle.std.specs.BTreeMap.{IsOrdered};
ghost use Rattle.std.specs.BTreeSet.{IsOrdered as AreOrdered};
ghost use Rattle.std.specs.List.{list_any};
ghost use Rattle.interest_list.specs.declared.subscription.Subscription.{Subscription as Sub};
ghost use Rattle.interest_list.specs.Tellings.{told, frame_on, frame_off};
ghost use Rattle.told_pairs.specs.declared.pair.Pair.{Pair as Key};
ghost use Rattle.told_pairs.specs.Keys.{key_cmp, same_key};
ghost use Rattle.told_pairs.specs.Wants.{IsOf, to_tell};
ghost use Rattle.told_pairs.specs.Tellings.{come, gone, has_place, told_at, told_list};

use crate::links::ToldWeights;
use crate::pair::{Pair, copied};
use crate::wants::{Wants, to_tell};
use interest_list::Told;
use leaf_frames::LeafFrame;
use nats_text::{Bytes, List, NoMemory};
use std::alloc::Global;
use std::collections::BTreeSet;

/// Each pair that others than this link want, in order.
pub fn told(alloc: Global, wants: &Wants, link: u64) -> Result<List<Told>, NoMemory>
    ensures { IfOk result (λ it. (subs : Items Sub) → IsOf subs wants.now.entries → it ≡ told link subs) }
{
    let mut all = Vec::new(alloc);
    for pair in wants.keys() {
        add_told(&mut all, pair, to_tell(wants, pair, link))?;
    }
    Ok(List::from_vec(all))
}

fn add_told(all: &mut Vec<Told>, pair: &Pair, weight: u32) -> Result<(), NoMemory>
    ensures { OnOk result (all.new.items ≡ all.old.items ++ told_list ((pair.now, weight) ∷ [])) }
{
    if weight > 0 {
        all.push(Told {
            pattern: pair.pattern.clone()?,
            queue: pair.queue.clone()?,
            weight,
        })?;
    }
    Ok(())
}

/// LS- for each of these pairs that is gone, then LS+ for each that is new or has another weight.
pub fn frames(
    alloc: Global,
    wants: &Wants,
    link: u64,
    told: &ToldWeights,
    pairs: &BTreeSet<Pair>,
) -> Result<List<LeafFrame>, NoMemory>
    ensures frames { IfOk result (λ it. it ≡ map frame_off (gone (λ p. told_at p told.now.entries) (λ p. to_tell link p wants.now.entries) pairs.now.keys)
        ++ map frame_on (come (λ p. told_at p told.now.entries) (λ p. to_tell link p wants.now.entries) pairs.now.keys)) }
    ensures pairs { IfOk result (λ _. AreOrdered key_cmp pairs.now) }
{
    let mut frames = Vec::new(alloc);
    add_all_gone(&mut frames, wants, link, told, pairs)?;
    add_all_new(&mut frames, wants, link, told, pairs)?;
    Ok(List::from_vec(frames))
}

fn add_all_gone(
    frames: &mut Vec<LeafFrame>,
    wants: &Wants,
    link: u64,
    told: &ToldWeights,
    pairs: &BTreeSet<Pair>,
) -> Result<(), NoMemory>
    ensures frames { OnOk result (frames.new.items ≡ frames.old.items ++ map frame_off (gone (λ p. told_at p told.now.entries) (λ p. to_tell link p wants.now.entries) pairs.now.keys)) }
    ensures pairs { OnOk result (AreOrdered key_cmp pairs.now) }
{
    for pair in pairs {
        add_gone(frames, pair, weight(told, pair), to_tell(wants, pair, link))?;
    }
    Ok(())
}

fn add_all_new(
    frames: &mut Vec<LeafFrame>,
    wants: &Wants,
    link: u64,
    told: &ToldWeights,
    pairs: &BTreeSet<Pair>,
) -> Result<(), NoMemory>
    ensures { OnOk result (frames.new.items ≡ frames.old.items ++ map frame_on (come (λ p. told_at p told.now.entries) (λ p. to_tell link p wants.now.entries) pairs.now.keys)) }
{
    for pair in pairs {
        add_new(frames, pair, weight(told, pair), to_tell(wants, pair, link))?;
    }
    Ok(())
}

fn add_gone(frames: &mut Vec<LeafFrame>, pair: &Pair, before: u32, now: u32) -> Result<(), NoMemory>
    ensures { OnOk result (frames.new.items ≡ frames.old.items ++ map frame_off (told_list ((pair.now, cond (now == 0) before 0) ∷ []))) }
{
    if now == 0 && before > 0 {
        frames.push(LeafFrame::SubOff {
            pattern: pair.pattern.clone()?,
            queue: pair.queue.clone()?,
        })?;
    }
    Ok(())
}

fn add_new(frames: &mut Vec<LeafFrame>, pair: &Pair, before: u32, now: u32) -> Result<(), NoMemory>
    ensures { OnOk result (frames.new.items ≡ frames.old.items ++ map frame_on (told_list ((pair.now, cond (before == now) 0 now) ∷ []))) }
{
    if before != now && now > 0 {
        frames.push(LeafFrame::SubOn {
            pattern: pair.pattern.clone()?,
            queue: weighted(&pair.queue, now)?,
        })?;
    }
    Ok(())
}

fn weighted(queue: &Option<Bytes>, weight: u32) -> Result<Option<(Bytes, u32)>, NoMemory>
    ensures { IfOk result (λ it. it ≡ option_map (λ q. (q, weight)) queue.now) }
{
    match queue {
        None => Ok(None),
        Some(bytes) => Ok(Some((bytes.clone()?, weight))),
    }
}

/// The weight of the pair that was told, and 0 where it wasn't.
fn weight(told: &ToldWeights, pair: &Pair) -> u32
    ensures { result ≡ told_at pair.now told.now.entries }
{
    match told.get(pair) {
        Some(weight) => *weight,
        None => 0,
    }
}

/// Makes a place for the weight of each of these pairs. Nothing else is told by it.
pub fn make_places(told: &mut ToldWeights, pairs: &BTreeSet<Pair>) -> Result<(), NoMemory>
    ensures same { (p : Key) → told_at p told.new.entries ≡ told_at p told.old.entries }
    ensures list { told_list told.new.entries ≡ told_list told.old.entries }
    ensures places { OnOk result ((p : Key) → list_any (same_key p) pairs.now.keys ≡ true → has_place p told.new.entries ≡ true) }
{
    for pair in pairs {
        make_place(told, pair)?;
    }
    Ok(())
}

fn make_place(told: &mut ToldWeights, pair: &Pair) -> Result<(), NoMemory>
    ensures same { (p : Key) → told_at p told.new.entries ≡ told_at p told.old.entries }
    ensures list { told_list told.new.entries ≡ told_list told.old.entries }
    ensures stay { (p : Key) → has_place p told.old.entries ≡ true → has_place p told.new.entries ≡ true }
    ensures place { OnOk result (has_place pair.now told.new.entries ≡ true) }
{
    if !told.contains_key(pair) {
        told.insert(copied(pair)?, 0)?;
    }
    Ok(())
}

/// Each of these pairs has the weight that the link is to be told. There is a place for it.
pub fn settle(told: &mut ToldWeights, wants: &Wants, link: u64, pairs: &BTreeSet<Pair>)
    requires { (p : Key) → list_any (same_key p) pairs.now.keys ≡ true → has_place p told.old.entries ≡ true }
    ensures { (p : Key) → told_at p told.new.entries ≡ cond (list_any (same_key p) pairs.now.keys) (to_tell link p wants.now.entries) (told_at p told.old.entries) }
{
    for pair in pairs {
        set_weight(told, pair, to_tell(wants, pair, link));
    }
}

fn set_weight(told: &mut ToldWeights, pair: &Pair, weight: u32)
    requires { 0 < weight → has_place pair.now told.old.entries ≡ true }
    ensures at { (p : Key) → told_at p told.new.entries ≡ cond (same_key pair.now p) weight (told_at p told.old.entries) }
    ensures stay { (p : Key) → has_place p told.old.entries ≡ true → has_place p told.new.entries ≡ cond (same_key pair.now p) (nat_lt 0 weight) true }
{
    if weight == 0 {
        told.remove(pair);
    } else {
        write_weight(told, pair, weight);
    }
}

fn write_weight(told: &mut ToldWeights, pair: &Pair, weight: u32)
    requires { has_place pair.now told.old.entries ≡ true }
    ensures at { (p : Key) → told_at p told.new.entries ≡ cond (same_key pair.now p) weight (told_at p told.old.entries) }
    ensures stay { (p : Key) → has_place p told.old.entries ≡ true → has_place p told.new.entries ≡ true }
{
    if let Some(place) = told.get_mut(pair) {
        *place = weight;
    }
}
