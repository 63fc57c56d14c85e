//! Vectors that stand in an order.
ghost use Rattle.std.specs.Prelude.{◌≡◌, ◌<◌, ◌≤◌, length, set, insert, OnOk, OnErr, MatchResult};
ghost use Rattle.interest_list.specs.Orders.{text_cmp, queue_cmp, placed};
ghost use Rattle.interest_list.specs.Lists.{holder_cmp, pair_cmp};

use crate::{Holder, Subscription, Told, ToldTo};
use nats_text::{Bytes, NoMemory, Pattern};
use std::cmp::Ordering;

/// What has a place in an order.
pub trait Placed: Drop {
    ghost use Rattle.std.specs.declared.cmp.Ordering.{Ordering};

    ghost order: { Self → Self → Ordering };

    fn order(&self, other: &Self) -> Ordering
        ensures { result ≡ order self.now other.now };
}

impl Placed for u64 {
    ghost use Rattle.std.specs.Ordering.{nat_cmp};

    ghost order = { nat_cmp };

    fn order(&self, other: &u64) -> Ordering {
        self.cmp(other)
    }
}

impl Placed for Bytes {
    ghost use Rattle.interest_list.specs.Orders.{text_cmp};

    ghost order = { text_cmp };

    fn order(&self, other: &Bytes) -> Ordering {
        self.as_slice().cmp(other.as_slice())
    }
}

impl Placed for Told {
    ghost use Rattle.interest_list.specs.Lists.{told_cmp};

    ghost order = { told_cmp };

    fn order(&self, other: &Told) -> Ordering {
        pair_order(&self.pattern, &self.queue, &other.pattern, &other.queue)
    }
}

impl Placed for ToldTo {
    ghost use Rattle.interest_list.specs.Lists.{link_cmp};

    ghost order = { link_cmp };

    fn order(&self, other: &ToldTo) -> Ordering {
        self.link.cmp(&other.link)
    }
}

impl Placed for Subscription {
    ghost use Rattle.interest_list.specs.Lists.{subscription_cmp};

    ghost order = { subscription_cmp };

    fn order(&self, other: &Subscription) -> Ordering {
        let wants = pair_order(&self.pattern, &self.queue, &other.pattern, &other.queue);
        holder_order(&self.holder, &other.holder, wants)
    }
}

// By holder, and by what they want where the same link or the node holds both.
fn holder_order(a: &Holder, b: &Holder, wants: Ordering) -> Ordering
    ensures { result ≡ holder_cmp a.now b.now wants }
{
    match (a, b) {
        (
            Holder::Client { conn, sid },
            Holder::Client {
                conn: other,
                sid: number,
            },
        ) => { conn.cmp(other).then(text_order(sid, number)) }
        (Holder::Client { .. }, _) => Ordering::Less,
        (_, Holder::Client { .. }) => Ordering::Greater,
        (Holder::Link { conn }, Holder::Link { conn: other }) => conn.cmp(other).then(wants),
        (Holder::Link { .. }, Holder::Inner) => Ordering::Less,
        (Holder::Inner, Holder::Link { .. }) => Ordering::Greater,
        (Holder::Inner, Holder::Inner) => wants,
    }
}

fn pair_order(
    pattern: &Pattern,
    queue: &Option<Bytes>,
    other: &Pattern,
    group: &Option<Bytes>,
) -> Ordering
    ensures { result ≡ pair_cmp pattern.now queue.now other.now group.now }
{
    pattern
        .bytes()
        .cmp(other.bytes())
        .then(queue_order(queue, group))
}

fn queue_order(a: &Option<Bytes>, b: &Option<Bytes>) -> Ordering
    ensures { result ≡ queue_cmp a.now b.now }
{
    match (a, b) {
        (None, None) => Ordering::Equal,
        (None, Some(_)) => Ordering::Less,
        (Some(_), None) => Ordering::Greater,
        (Some(queue), Some(group)) => text_order(queue, group),
    }
}

fn text_order(a: &Bytes, b: &Bytes) -> Ordering
    ensures { result ≡ text_cmp a.now b.now }
{
    a.as_slice().cmp(b.as_slice())
}

/// Puts an item at its place: before the first that is greater, or in place of the one that is equal.
pub fn place<T: Placed>(items: &mut Vec<T>, item: T) -> Result<(), NoMemory>
    ensures ok { OnOk result (items.new.items ≡ placed T.order item items.old.items) }
    ensures err { OnErr result (items.new.items ≡ items.old.items) }
{
    match place_of(items, &item) {
        Ok(at) => items[at] = item,
        Err(at) => items.insert(at, item)?,
    }
    Ok(())
}

// The place of an item: `Ok` where one that is equal stands there, and else `Err`.
fn place_of<T: Placed>(items: &[T], item: &T) -> Result<usize, usize>
    ensures within { MatchResult result (λ at. at < length items.now) (λ at. at ≤ length items.now) }
    ensures placed { MatchResult result
        (λ at. placed T.order item.now items.now ≡ set items.now at item.now)
        (λ at. placed T.order item.now items.now ≡ insert items.now at item.now) }
{
    for at in 0..items.len() {
        match item.order(&items[at]) {
            Ordering::Less => return Err(at),
            Ordering::Equal => return Ok(at),
            Ordering::Greater => {}
        }
    }
    Err(items.len())
}
