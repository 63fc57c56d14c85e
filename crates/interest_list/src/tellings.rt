//! What a link is told, and the frames that tell it what has changed.
ghost use Rattle.std.specs.Prelude.{◌≡◌, ◌++◌, filter, map, not, option_map, IfOk, OnOk, OnErr};
ghost use Rattle.interest_list.specs.Lists.{told_cmp, link_cmp};
ghost use Rattle.interest_list.specs.Orders.{placed, in_order};
ghost use Rattle.interest_list.specs.Tellings.{of_others, is_same_pair, group_weight, told_weight, telling, told, same_pair, has_pair, has_told, frame_on, frame_off, changes, told_before};
ghost use Rattle.interest_list.specs.Changes.{all_news, all_informed};

use crate::kept::{copied, is_link, queue_bytes, same_queue};
use crate::order::place;
use crate::{Carrier, Subscription, Told, ToldTo};
use leaf_frames::LeafFrame;
use nats_text::{Bytes, List, NoMemory};
use std::alloc::Global;
use subject_transform::DomainMap;

/// The greatest weight of a group.
const MAX_WEIGHT: u32 = 65_536;

/// Each pair of pattern and queue that others than this link want, in order.
pub fn told(
    alloc: Global,
    domain: &DomainMap,
    subs: &[Subscription],
    link: u64,
) -> Result<Vec<Told>, NoMemory>
    ensures { IfOk result (λ it. it.items ≡ told link subs.now) }
{
    let others = of_others(alloc, domain, subs, link)?;
    tellings(alloc, others.as_slice())
}

fn of_others(
    alloc: Global,
    domain: &DomainMap,
    subs: &[Subscription],
    link: u64,
) -> Result<Vec<Subscription>, NoMemory>
    ensures { IfOk result (λ it. it.items ≡ of_others link subs.now) }
{
    let mut found = Vec::new(alloc);
    for sub in subs {
        if domain.crosses(&sub.pattern) && !is_link(&sub.holder, link) {
            found.push(copied(sub)?)?;
        }
    }
    Ok(found)
}

fn tellings(alloc: Global, others: &[Subscription]) -> Result<Vec<Told>, NoMemory>
    ensures { IfOk result (λ it. it.items ≡ in_order told_cmp (map (telling others.now) others.now)) }
{
    let mut found = Vec::new(alloc);
    for sub in others {
        place(&mut found, telling(others, sub)?)?;
    }
    Ok(found)
}

fn telling(others: &[Subscription], sub: &Subscription) -> Result<Told, NoMemory>
    ensures { IfOk result (λ it. it ≡ telling others.now sub.now) }
{
    Ok(Told {
        pattern: sub.pattern.clone()?,
        queue: sub.queue.clone()?,
        weight: told_weight(others, sub),
    })
}

fn told_weight(others: &[Subscription], sub: &Subscription) -> u32
    ensures { result ≡ told_weight others.now sub.now }
{
    if sub.queue.is_none() {
        1
    } else {
        group_weight(others, sub)
    }
}

fn group_weight(others: &[Subscription], sub: &Subscription) -> u32
    ensures { result ≡ group_weight others.now sub.now }
{
    let mut total = 0;
    for other in others {
        if is_same_pair(sub, other) {
            total = MAX_WEIGHT.min(other.weight.saturating_add(total));
        }
    }
    total
}

fn is_same_pair(sub: &Subscription, other: &Subscription) -> bool
    ensures { result ≡ is_same_pair sub.now other.now }
{
    other.pattern.bytes() == sub.pattern.bytes()
        && same_queue(queue_bytes(&other.queue), queue_bytes(&sub.queue))
}

/// LS- for each pair that is gone, then LS+ for each that is new or has another weight.
pub fn changes(alloc: Global, old: &[Told], new: &[Told]) -> Result<List<LeafFrame>, NoMemory>
    ensures { IfOk result (λ it. it ≡ changes old.now new.now) }
{
    let mut frames = Vec::new(alloc);
    add_gone(&mut frames, old, new)?;
    add_new(&mut frames, old, new)?;
    Ok(List::from_vec(frames))
}

fn add_gone(frames: &mut Vec<LeafFrame>, old: &[Told], new: &[Told]) -> Result<(), NoMemory>
    ensures { OnOk result (frames.new.items ≡ frames.old.items ++ map frame_off (filter (λ t. not (has_pair new.now t)) old.now)) }
{
    for told in old {
        if !has_pair(new, told) {
            frames.push(frame_off(told)?)?;
        }
    }
    Ok(())
}

fn add_new(frames: &mut Vec<LeafFrame>, old: &[Told], new: &[Told]) -> Result<(), NoMemory>
    ensures { OnOk result (frames.new.items ≡ frames.old.items ++ map frame_on (filter (λ t. not (has_told old.now t)) new.now)) }
{
    for told in new {
        if !has_told(old, told) {
            frames.push(frame_on(told)?)?;
        }
    }
    Ok(())
}

fn has_pair(list: &[Told], told: &Told) -> bool
    ensures { result ≡ has_pair list.now told.now }
{
    list.iter().any(|other| same_pair(told, other))
}

fn has_told(list: &[Told], told: &Told) -> bool
    ensures { result ≡ has_told list.now told.now }
{
    list.iter().any(|other| same_pair(told, other) && told.weight == other.weight)
}

fn same_pair(told: &Told, other: &Told) -> bool
    ensures { result ≡ same_pair told.now other.now }
{
    told.pattern.bytes() == other.pattern.bytes()
        && same_queue(queue_bytes(&told.queue), queue_bytes(&other.queue))
}

fn frame_off(told: &Told) -> Result<LeafFrame, NoMemory>
    ensures { IfOk result (λ it. it ≡ frame_off told.now) }
{
    Ok(LeafFrame::SubOff {
        pattern: told.pattern.clone()?,
        queue: told.queue.clone()?,
    })
}

fn frame_on(told: &Told) -> Result<LeafFrame, NoMemory>
    ensures { IfOk result (λ it. it ≡ frame_on told.now) }
{
    Ok(LeafFrame::SubOn {
        pattern: told.pattern.clone()?,
        queue: weighted(&told.queue, told.weight)?,
    })
}

fn weighted(queue: &Option<Bytes>, weight: u32) -> Result<Option<(Bytes, u32)>, NoMemory>
    ensures { IfOk result (λ it. it ≡ option_map (λ q. (q, weight)) queue.now) }
{
    match queue {
        None => Ok(None),
        Some(bytes) => Ok(Some((bytes.clone()?, weight))),
    }
}

/// What a link was told.
pub fn told_before(told_to: &[ToldTo], link: u64) -> &[Told]
    ensures { result.now ≡ told_before link told_to.now }
{
    for to in told_to {
        if to.link == link {
            return to.told.as_slice();
        }
    }
    &[]
}

/// The frames that tell a link what has changed, which it counts as told from then on.
pub fn inform(
    alloc: Global,
    domain: &DomainMap,
    subs: &[Subscription],
    told_to: &mut Vec<ToldTo>,
    link: u64,
) -> Result<List<LeafFrame>, NoMemory>
    ensures frames { IfOk result (λ it. it ≡ changes (told_before link told_to.old.items) (told link subs.now)) }
    ensures ok { OnOk result (told_to.new.items ≡ placed link_cmp (record { link = link; told = told link subs.now }) told_to.old.items) }
    ensures err { OnErr result (told_to.new.items ≡ told_to.old.items) }
{
    let told = told(alloc, domain, subs, link)?;
    let frames = changes(alloc, told_before(told_to, link), told.as_slice())?;
    place(
        told_to,
        ToldTo {
            link,
            told: List::from_vec(told),
        },
    )?;
    Ok(frames)
}

/// The same for each of these links, behind what is there first.
pub fn inform_all<P: Carrier>(
    alloc: Global,
    domain: &DomainMap,
    subs: &[Subscription],
    told_to: &mut Vec<ToldTo>,
    links: &List<u64>,
    first: List<P>,
) -> Result<List<P>, NoMemory>
    ensures frames { IfOk result (λ it. it ≡ first ++ all_news P.carried links.now (record { subs = subs.now; told_to = told_to.old.items })) }
    ensures ok { OnOk result (record { subs = subs.now; told_to = told_to.new.items } ≡ all_informed links.now (record { subs = subs.now; told_to = told_to.old.items })) }
{
    let mut all = first.into_vec();
    for link in links.as_slice() {
        let frames = inform(alloc, domain, subs, told_to, *link)?;
        carry_all(&mut all, *link, frames)?;
    }
    Ok(List::from_vec(all))
}

fn carry_all<P: Carrier>(
    all: &mut Vec<P>,
    link: u64,
    frames: List<LeafFrame>,
) -> Result<(), NoMemory>
    ensures { OnOk result (all.new.items ≡ all.old.items ++ map (P.carried link) frames) }
{
    for frame in frames.into_vec() {
        all.push(P::carry(link, frame))?;
    }
    Ok(())
}
