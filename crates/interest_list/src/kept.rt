//! The list of subscriptions: what joins it and what leaves it.
ghost use Rattle.std.specs.Prelude.{◌≡◌, OnOk, OnErr, IfOk};
ghost use Rattle.std.specs.List.{list_any};
ghost use Rattle.std.specs.Option.{option_copied};
ghost use Rattle.interest_list.specs.Lists.{is_of_client, is_of_link, is_of_node, is_of, is_link, is_inner, is_full, same_queue};
ghost use Rattle.interest_list.specs.Changes.{without, refusal, changed, told_after, forgotten, Answers, first_refusal, after_all, MayAnswer};
ghost use Rattle.interest_list.specs.declared.change.Change.TheVariants.{Add as Adds, Remove as Removes, LinkOn as LinksOn, LinkOff as LinksOff, InnerOn as InnersOn, InnerOff as InnersOff};

use crate::order::place;
use crate::{Change, Holder, InterestFault, Subscription, Told, ToldTo};
use nats_text::{Bytes, List, NoMemory, Pattern};
use std::alloc::Global;

/// The most subscriptions that a node has.
const MAX_SUBSCRIPTIONS: usize = 65_536;

/// A client subscribes.
pub fn add(
    subs: &mut Vec<Subscription>,
    conn: u64,
    sid: Bytes,
    pattern: Pattern,
    queue: Option<Bytes>,
) -> Result<(), InterestFault>
    ensures answer { Answers (refusal (Adds conn sid pattern queue) subs.old.items) result }
    ensures ok { OnOk result (subs.new.items ≡ changed (Adds conn sid pattern queue) subs.old.items) }
    ensures err { OnErr result (subs.new.items ≡ subs.old.items) }
{
    if has_client(subs, conn, sid.as_slice()) {
        return Err(InterestFault::SidTaken);
    }
    if is_full(subs) {
        return Err(InterestFault::TooMany);
    }
    let subscription = Subscription {
        holder: Holder::Client { conn, sid },
        pattern,
        queue,
        weight: 1,
    };
    place(subs, subscription)?;
    Ok(())
}

/// A client ends the subscription of this number.
pub fn remove(subs: &mut Vec<Subscription>, conn: u64, sid: &[u8]) -> Result<(), InterestFault>
    ensures answer { Answers (refusal (Removes conn sid.now) subs.old.items) result }
    ensures ok { OnOk result (subs.new.items ≡ changed (Removes conn sid.now) subs.old.items) }
    ensures err { OnErr result (subs.new.items ≡ subs.old.items) }
{
    if !has_client(subs, conn, sid) {
        return Err(InterestFault::NoSid);
    }
    subs.retain(|sub| !is_of_client(sub, conn, sid));
    Ok(())
}

/// A link wants messages of a pattern, by all or by a group of this weight.
pub fn link_on(
    subs: &mut Vec<Subscription>,
    conn: u64,
    pattern: Pattern,
    queue: Option<Bytes>,
    weight: u32,
) -> Result<(), InterestFault>
    ensures answer { Answers (refusal (LinksOn conn pattern queue weight) subs.old.items) result }
    ensures ok { OnOk result (subs.new.items ≡ changed (LinksOn conn pattern queue weight) subs.old.items) }
    ensures err { OnErr result (subs.new.items ≡ subs.old.items) }
{
    if !has_link(subs, conn, &pattern, queue_bytes(&queue)) && is_full(subs) {
        return Err(InterestFault::TooMany);
    }
    let subscription = Subscription {
        holder: Holder::Link { conn },
        pattern,
        queue,
        weight,
    };
    place(subs, subscription)?;
    Ok(())
}

/// A link doesn't want messages of a pattern any more, by all or by a group.
pub fn link_off(
    subs: &mut Vec<Subscription>,
    conn: u64,
    pattern: &Pattern,
    queue: Option<&[u8]>,
) -> Result<(), InterestFault>
    ensures answer { Answers (refusal (LinksOff conn pattern.now (option_copied queue.entry)) subs.old.items) result }
    ensures ok { OnOk result (subs.new.items ≡ changed (LinksOff conn pattern.now (option_copied queue.entry)) subs.old.items) }
    ensures err { OnErr result (subs.new.items ≡ subs.old.items) }
{
    if !has_link(subs, conn, pattern, queue) {
        return Err(InterestFault::NoSid);
    }
    subs.retain(|sub| !is_of_link(sub, conn, pattern, queue));
    Ok(())
}

/// The node itself wants messages of a pattern.
pub fn inner_on(subs: &mut Vec<Subscription>, pattern: Pattern) -> Result<(), InterestFault>
    ensures answer { Answers (refusal (InnersOn pattern) subs.old.items) result }
    ensures ok { OnOk result (subs.new.items ≡ changed (InnersOn pattern) subs.old.items) }
    ensures err { OnErr result (subs.new.items ≡ subs.old.items) }
{
    if !has_inner(subs, &pattern) && is_full(subs) {
        return Err(InterestFault::TooMany);
    }
    let subscription = Subscription {
        holder: Holder::Inner,
        pattern,
        queue: None,
        weight: 1,
    };
    place(subs, subscription)?;
    Ok(())
}

/// The node itself doesn't want messages of a pattern any more.
pub fn inner_off(subs: &mut Vec<Subscription>, pattern: &Pattern) -> Result<(), InterestFault>
    ensures answer { Answers (refusal (InnersOff pattern.now) subs.old.items) result }
    ensures ok { OnOk result (subs.new.items ≡ changed (InnersOff pattern.now) subs.old.items) }
    ensures err { OnErr result (subs.new.items ≡ subs.old.items) }
{
    if !has_inner(subs, pattern) {
        return Err(InterestFault::NoSid);
    }
    subs.retain(|sub| !is_of_node(sub, pattern));
    Ok(())
}

/// All that a connection wanted is gone.
pub fn drop_conn(subs: &mut Vec<Subscription>, conn: u64)
    ensures { subs.new.items ≡ without (is_of conn) subs.old.items }
{
    subs.retain(|sub| !is_of(sub, conn));
}

/// All that a link was told is gone.
pub fn forget(told_to: &mut Vec<ToldTo>, conn: u64)
    ensures { told_to.new.items ≡ forgotten conn told_to.old.items }
{
    told_to.retain(|to| to.link != conn);
}

/// A copy of a subscription.
pub fn copied(sub: &Subscription) -> Result<Subscription, NoMemory>
    ensures { IfOk result (λ it. it ≡ sub.now) }
{
    Ok(sub.clone()?)
}

/// A copy of a list of subscriptions.
pub fn copied_list(subs: &Vec<Subscription>) -> Result<Vec<Subscription>, NoMemory>
    ensures { IfOk result (λ it. it.items ≡ subs.now.items) }
{
    Ok(subs.clone()?)
}

/// A copy of what was told to links.
pub fn copied_told(alloc: Global, told_to: &[ToldTo]) -> Result<Vec<ToldTo>, NoMemory>
    ensures { IfOk result (λ it. it.items ≡ told_to.now) }
{
    let mut all = Vec::new(alloc);
    for to in told_to {
        all.push(ToldTo {
            link: to.link,
            told: copied_pairs(alloc, to.told.as_slice())?,
        })?;
    }
    Ok(all)
}

fn copied_pairs(alloc: Global, told: &[Told]) -> Result<List<Told>, NoMemory>
    ensures { IfOk result (λ it. it ≡ told.now) }
{
    let mut all = Vec::new(alloc);
    for pair in told {
        all.push(copied_pair(pair)?)?;
    }
    Ok(List::from_vec(all))
}

fn copied_pair(pair: &Told) -> Result<Told, NoMemory>
    ensures { IfOk result (λ it. it ≡ pair.now) }
{
    Ok(pair.clone()?)
}

/// A copy of bytes.
pub fn copied_text(text: &Bytes) -> Result<Bytes, NoMemory>
    ensures { IfOk result (λ it. it ≡ text.now) }
{
    Ok(text.clone()?)
}

/// The bytes of a queue.
pub fn queue_bytes(queue: &Option<Bytes>) -> Option<&[u8]>
    ensures { option_copied result ≡ queue.now }
{
    match queue {
        None => None,
        Some(bytes) => Some(bytes.as_slice()),
    }
}

fn is_full(subs: &[Subscription]) -> bool
    ensures { result ≡ is_full subs.now }
{
    subs.len() >= MAX_SUBSCRIPTIONS
}

fn has_client(subs: &[Subscription], conn: u64, sid: &[u8]) -> bool
    ensures { result ≡ list_any (is_of_client conn sid.now) subs.now }
{
    subs.iter().any(|sub| is_of_client(sub, conn, sid))
}

fn has_link(subs: &[Subscription], conn: u64, pattern: &Pattern, queue: Option<&[u8]>) -> bool
    ensures { result ≡ list_any (is_of_link conn pattern.now (option_copied queue.entry)) subs.now }
{
    subs.iter().any(|sub| is_of_link(sub, conn, pattern, queue))
}

fn has_inner(subs: &[Subscription], pattern: &Pattern) -> bool
    ensures { result ≡ list_any (is_of_node pattern.now) subs.now }
{
    subs.iter().any(|sub| is_of_node(sub, pattern))
}

fn is_of_client(sub: &Subscription, conn: u64, sid: &[u8]) -> bool
    ensures { result ≡ is_of_client conn sid.now sub.now }
{
    match &sub.holder {
        Holder::Client {
            conn: other,
            sid: number,
        } => { *other == conn && number.as_slice() == sid }
        Holder::Link { .. } | Holder::Inner => false,
    }
}

fn is_of_link(sub: &Subscription, conn: u64, pattern: &Pattern, queue: Option<&[u8]>) -> bool
    ensures { result ≡ is_of_link conn pattern.now (option_copied queue.entry) sub.now }
{
    is_link(&sub.holder, conn)
        && sub.pattern.bytes() == pattern.bytes()
        && same_queue(queue_bytes(&sub.queue), queue)
}

fn is_of_node(sub: &Subscription, pattern: &Pattern) -> bool
    ensures { result ≡ is_of_node pattern.now sub.now }
{
    is_inner(&sub.holder) && sub.pattern.bytes() == pattern.bytes()
}

fn is_of(sub: &Subscription, conn: u64) -> bool
    ensures { result ≡ is_of conn sub.now }
{
    match &sub.holder {
        Holder::Client { conn: other, .. } => *other == conn,
        Holder::Link { conn: other } => *other == conn,
        Holder::Inner => false,
    }
}

pub fn is_link(holder: &Holder, conn: u64) -> bool
    ensures { result ≡ is_link conn holder.now }
{
    match holder {
        Holder::Link { conn: other } => *other == conn,
        Holder::Client { .. } | Holder::Inner => false,
    }
}

pub fn is_inner(holder: &Holder) -> bool
    ensures { result ≡ is_inner holder.now }
{
    match holder {
        Holder::Inner => true,
        Holder::Client { .. } | Holder::Link { .. } => false,
    }
}

pub fn same_queue(a: Option<&[u8]>, b: Option<&[u8]>) -> bool
    ensures { result ≡ same_queue (option_copied a.entry) (option_copied b.entry) }
{
    match (a, b) {
        (None, None) => true,
        (Some(queue), Some(group)) => queue == group,
        _ => false,
    }
}

/// Makes these changes one after another, up to the first that is refused.
pub fn make(
    subs: &mut Vec<Subscription>,
    told_to: &mut Vec<ToldTo>,
    changes: List<Change>,
) -> Result<(), InterestFault>
    ensures answer { MayAnswer (first_refusal changes subs.old.items) result }
    ensures ok { OnOk result (record { subs = subs.new.items; told_to = told_to.new.items } ≡ after_all changes (record { subs = subs.old.items; told_to = told_to.old.items })) }
{
    for change in changes.into_vec() {
        let made = make_one(subs, told_to, change);
        if made.is_err() {
            return made;
        }
    }
    Ok(())
}

fn make_one(
    subs: &mut Vec<Subscription>,
    told_to: &mut Vec<ToldTo>,
    change: Change,
) -> Result<(), InterestFault>
    ensures answer { Answers (refusal change subs.old.items) result }
    ensures subs { OnOk result (subs.new.items ≡ changed change subs.old.items) }
    ensures told_to { OnOk result (told_to.new.items ≡ told_after change told_to.old.items) }
{
    match change {
        Change::Add {
            conn,
            sid,
            pattern,
            queue,
        } => add(subs, conn, sid, pattern, queue),
        Change::Remove { conn, sid } => remove(subs, conn, sid.as_slice()),
        Change::LinkOn {
            conn,
            pattern,
            queue,
            weight,
        } => { link_on(subs, conn, pattern, queue, weight) }
        Change::LinkOff {
            conn,
            pattern,
            queue,
        } => { link_off(subs, conn, &pattern, queue_bytes(&queue)) }
        Change::InnerOn { pattern } => inner_on(subs, pattern),
        Change::InnerOff { pattern } => inner_off(subs, &pattern),
        Change::DropConn { conn } => {
            drop_conn(subs, conn);
            forget(told_to, conn);
            Ok(())
        }
    }
}
