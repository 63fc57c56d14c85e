//! Who gets a message.
ghost use Rattle.std.specs.Prelude.{◌≡◌, ◌∷◌, [], ◌++◌, filter, map, IfOk, OnOk};
ghost use Rattle.std.specs.List.{list_any, filter_map};
ghost use Rattle.std.specs.Option.{option_copied};
ghost use Rattle.std.specs.Str.{bytes_eq};
ghost use Rattle.interest_list.specs.Lists.{is_link, is_inner};
ghost use Rattle.interest_list.specs.Targets.{is_muted, came_by, may_get, is_live, is_plain, is_member, members, weights, at_weight, chosen, groups, is_served, served, client_target, link_target, links, inner_target, holders};

use crate::kept::{copied, copied_text, is_inner, is_link};
use crate::order::place;
use crate::{CameFrom, Holder, Subscription, Target};
use nats_text::{Bytes, List, NoMemory, Subject, matches};
use std::alloc::Global;

/// The subscriptions that match the subject and aren't shut out. `outward` says whether the subject crosses
/// to other nodes.
pub fn live(
    alloc: Global,
    subs: &[Subscription],
    subject: &Subject,
    outward: bool,
    from: CameFrom,
) -> Result<Vec<Subscription>, NoMemory>
    ensures { IfOk result (λ it. it.items ≡ filter (is_live subject.now outward from) subs.now) }
{
    let mut found = Vec::new(alloc);
    for sub in subs {
        if is_live(sub, subject, outward, from) {
            found.push(copied(sub)?)?;
        }
    }
    Ok(found)
}

fn is_live(sub: &Subscription, subject: &Subject, outward: bool, from: CameFrom) -> bool
    ensures { result ≡ is_live subject.now outward from sub.now }
{
    matches(&sub.pattern, subject) && may_get(&sub.holder, outward, from)
}

// Whether a holder isn't shut out.
fn may_get(holder: &Holder, outward: bool, from: CameFrom) -> bool
    ensures { result ≡ may_get outward from holder.now }
{
    match holder {
        Holder::Client { conn, .. } => !is_muted(from, *conn),
        Holder::Link { conn } => outward && !came_by(from, *conn),
        Holder::Inner => true,
    }
}

fn is_muted(from: CameFrom, conn: u64) -> bool
    ensures { result ≡ is_muted from conn }
{
    match from {
        CameFrom::Client { conn: other, echo } => other == conn && !echo,
        CameFrom::Link { .. } | CameFrom::Inner => false,
    }
}

fn came_by(from: CameFrom, conn: u64) -> bool
    ensures { result ≡ came_by from conn }
{
    match from {
        CameFrom::Link { conn: other } => other == conn,
        CameFrom::Client { .. } | CameFrom::Inner => false,
    }
}

/// The subscriptions that get the message: each plain one, and of each group that is served the chosen one.
pub fn served(
    alloc: Global,
    live: &[Subscription],
    given: Option<&List<Bytes>>,
    pick: u64,
) -> Result<Vec<Subscription>, NoMemory>
    ensures { IfOk result (λ it. it.items ≡ served (option_copied given.entry) pick live.now) }
{
    let mut found = plain(alloc, live)?;
    let groups = groups(alloc, live)?;
    add_chosen(&mut found, live, groups.as_slice(), given, pick)?;
    Ok(found)
}

fn plain(alloc: Global, live: &[Subscription]) -> Result<Vec<Subscription>, NoMemory>
    ensures { IfOk result (λ it. it.items ≡ filter is_plain live.now) }
{
    let mut found = Vec::new(alloc);
    for sub in live {
        if sub.queue.is_none() {
            found.push(copied(sub)?)?;
        }
    }
    Ok(found)
}

// Adds the chosen member of each group that is served.
fn add_chosen(
    found: &mut Vec<Subscription>,
    live: &[Subscription],
    groups: &[Bytes],
    given: Option<&List<Bytes>>,
    pick: u64,
) -> Result<(), NoMemory>
    ensures { OnOk result (found.new.items ≡ found.old.items ++ filter_map (chosen pick live.now) (filter (is_served (option_copied given.entry)) groups.now)) }
{
    for queue in groups {
        if is_served(given, queue) {
            add_member(found, live, queue, pick)?;
        }
    }
    Ok(())
}

// Adds the chosen member of a group.
fn add_member(
    found: &mut Vec<Subscription>,
    live: &[Subscription],
    queue: &Bytes,
    pick: u64,
) -> Result<(), NoMemory>
    ensures { OnOk result (found.new.items ≡ found.old.items ++ filter_map (chosen pick live.now) (queue.now ∷ [])) }
{
    if let Some(member) = chosen(live, queue, pick) {
        found.push(copied(member)?)?;
    }
    Ok(())
}

fn is_served(given: Option<&List<Bytes>>, queue: &Bytes) -> bool
    ensures { result ≡ is_served (option_copied given.entry) queue.now }
{
    match given {
        None => true,
        Some(queues) => has_text(queues.as_slice(), queue),
    }
}

fn has_text(groups: &[Bytes], queue: &Bytes) -> bool
    ensures { result ≡ list_any (λ g. bytes_eq g queue.now) groups.now }
{
    groups.iter().any(|group| same_text(group, queue))
}

fn same_text(group: &Bytes, queue: &Bytes) -> bool
    ensures { result ≡ bytes_eq group.now queue.now }
{
    group.as_slice() == queue.as_slice()
}

// The member of a group that gets the message.
fn chosen<'a>(live: &'a [Subscription], queue: &Bytes, pick: u64) -> Option<&'a Subscription>
    ensures { option_copied result ≡ chosen pick live.now queue.now }
{
    let total = weight_of(live, queue);
    if total == 0 {
        return None;
    }
    at_weight(live, queue, u128::from(pick) % total)
}

// The weights of a group's members together.
fn weight_of(live: &[Subscription], queue: &Bytes) -> u128
    ensures { result ≡ weights (members queue.now live.now) }
{
    let mut total = 0;
    for sub in live {
        if is_member(sub, queue) {
            total += u128::from(sub.weight);
        }
    }
    total
}

// The member of a group in whose weight the number falls.
fn at_weight<'a>(live: &'a [Subscription], queue: &Bytes, number: u128) -> Option<&'a Subscription>
    ensures { option_copied result ≡ at_weight number (members queue.now live.now) }
{
    let mut left = number;
    for sub in live {
        if is_member(sub, queue) {
            let weight = u128::from(sub.weight);
            if left < weight {
                return Some(sub);
            }
            left -= weight;
        }
    }
    None
}

fn is_member(sub: &Subscription, queue: &Bytes) -> bool
    ensures { result ≡ is_member queue.now sub.now }
{
    match &sub.queue {
        None => false,
        Some(group) => same_text(group, queue),
    }
}

// The groups, in byte order, each once.
fn groups(alloc: Global, subs: &[Subscription]) -> Result<Vec<Bytes>, NoMemory>
    ensures { IfOk result (λ it. it.items ≡ groups subs.now) }
{
    let mut found = Vec::new(alloc);
    for sub in subs {
        if let Some(queue) = &sub.queue {
            place(&mut found, copied_text(queue)?)?;
        }
    }
    Ok(found)
}

/// The holders of the subscriptions that get the message: each client, then each link once, then the node
/// itself once.
pub fn holders(alloc: Global, served: &[Subscription]) -> Result<List<Target>, NoMemory>
    ensures { IfOk result (λ it. it ≡ holders served.now) }
{
    let mut found = clients(alloc, served)?;
    let links = links(alloc, served)?;
    add_links(&mut found, served, links.as_slice())?;
    add_inner(&mut found, served)?;
    Ok(List::from_vec(found))
}

// Adds the node itself, where it is among those that get the message.
fn add_inner(found: &mut Vec<Target>, served: &[Subscription]) -> Result<(), NoMemory>
    ensures { OnOk result (found.new.items ≡ found.old.items ++ inner_target served.now) }
{
    if has_inner(served) {
        found.push(Target::Inner)?;
    }
    Ok(())
}

fn has_inner(served: &[Subscription]) -> bool
    ensures { result ≡ list_any (λ s. is_inner s.holder) served.now }
{
    served.iter().any(|sub| is_inner(&sub.holder))
}

fn clients(alloc: Global, served: &[Subscription]) -> Result<Vec<Target>, NoMemory>
    ensures { IfOk result (λ it. it.items ≡ filter_map client_target served.now) }
{
    let mut found = Vec::new(alloc);
    for sub in served {
        if let Holder::Client { conn, sid } = &sub.holder {
            found.push(client_target(*conn, sid)?)?;
        }
    }
    Ok(found)
}

fn client_target(conn: u64, sid: &Bytes) -> Result<Target, NoMemory>
    ensures { IfOk result (λ it. it ≡ Target.Client conn sid.now) }
{
    Ok(Target::Client {
        conn,
        sid: copied_text(sid)?,
    })
}

fn links(alloc: Global, served: &[Subscription]) -> Result<Vec<u64>, NoMemory>
    ensures { IfOk result (λ it. it.items ≡ links served.now) }
{
    let mut found = Vec::new(alloc);
    for sub in served {
        if let Holder::Link { conn } = &sub.holder {
            place(&mut found, *conn)?;
        }
    }
    Ok(found)
}

fn add_links(
    found: &mut Vec<Target>,
    served: &[Subscription],
    links: &[u64],
) -> Result<(), NoMemory>
    ensures { OnOk result (found.new.items ≡ found.old.items ++ map (link_target served.now) links.now) }
{
    for conn in links {
        let target = link_target(*found.allocator(), served, *conn)?;
        found.push(target)?;
    }
    Ok(())
}

fn link_target(alloc: Global, served: &[Subscription], conn: u64) -> Result<Target, NoMemory>
    ensures { IfOk result (λ it. it ≡ link_target served.now conn) }
{
    let own = of_link(alloc, served, conn)?;
    let queues = groups(alloc, own.as_slice())?;
    Ok(Target::Link {
        conn,
        queues: List::from_vec(queues),
    })
}

fn of_link(alloc: Global, served: &[Subscription], conn: u64) -> Result<Vec<Subscription>, NoMemory>
    ensures { IfOk result (λ it. it.items ≡ filter (λ s. is_link conn s.holder) served.now) }
{
    let mut found = Vec::new(alloc);
    for sub in served {
        if is_link(&sub.holder, conn) {
            found.push(copied(sub)?)?;
        }
    }
    Ok(found)
}
