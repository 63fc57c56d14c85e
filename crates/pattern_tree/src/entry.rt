ghost use Rattle.std.specs.Prelude.{◌≡◌, [], None, IfOk};
ghost use Rattle.std.specs.Option.{option_copied};
ghost use Rattle.interest_list.specs.Orders.{text_cmp, queue_cmp};
ghost use Rattle.interest_list.specs.Lists.{pair_cmp, subscription_cmp};
ghost use Rattle.interest_list.specs.Changes.{of_client, of_link, of_node};

use interest_list::{Holder, Subscription};
use nats_text::{Bytes, NoMemory, Pattern};
use std::alloc::Global;
use std::cmp::Ordering;
use std::marker::Model;

/// A subscription as it stands in a tree. In comparisons two are equal that can't stand side by side: the
/// same client's with one number, the same link's with one pattern and queue, the node's with one pattern.
#[derive(Clone, Debug, Drop)]
pub struct Entry {
    holder: Holder,
    pattern: Bytes,
    queue: Option<Bytes>,
    weight: u32,
}

impl Model for Entry {
    ghost use Rattle.interest_list.specs.declared.subscription.Subscription.{Subscription};

    ghost Value = { Subscription };

    ghost view = { λ e. record { holder = e.holder; pattern = e.pattern; queue = e.queue; weight = e.weight } };
}

impl Entry {
    /// The entry of a subscription.
    pub fn of(alloc: Global, subscription: &Subscription) -> Result<Entry, NoMemory>
        ensures { IfOk result (λ it. it ≡ subscription.now) }
    {
        Ok(Entry {
            holder: subscription.holder.clone()?,
            pattern: Bytes::from_slice(alloc, subscription.pattern.bytes())?,
            queue: subscription.queue.clone()?,
            weight: subscription.weight,
        })
    }

    /// What is equal to the subscription of a client with this number.
    pub fn of_client(alloc: Global, conn: u64, sid: &[u8]) -> Result<Entry, NoMemory>
        ensures { IfOk result (λ it. it ≡ of_client conn sid.now [] None) }
    {
        Ok(Entry {
            holder: Holder::Client {
                conn,
                sid: Bytes::from_slice(alloc, sid)?,
            },
            pattern: Bytes::new(alloc),
            queue: None,
            weight: 1,
        })
    }

    /// What is equal to the subscription of a link with this pattern and queue.
    pub fn of_link(
        alloc: Global,
        conn: u64,
        pattern: &Pattern,
        queue: Option<&[u8]>,
    ) -> Result<Entry, NoMemory>
        ensures { IfOk result (λ it. it ≡ of_link conn pattern.now (option_copied queue.entry) 1) }
    {
        Ok(Entry {
            holder: Holder::Link { conn },
            pattern: Bytes::from_slice(alloc, pattern.bytes())?,
            queue: copied_queue(alloc, queue)?,
            weight: 1,
        })
    }

    /// What is equal to the node's own subscription of this pattern.
    pub fn of_node(alloc: Global, pattern: &Pattern) -> Result<Entry, NoMemory>
        ensures { IfOk result (λ it. it ≡ of_node pattern.now) }
    {
        Ok(Entry {
            holder: Holder::Inner,
            pattern: Bytes::from_slice(alloc, pattern.bytes())?,
            queue: None,
            weight: 1,
        })
    }

    pub fn holder(&self) -> &Holder
        ensures { result.now ≡ self.now.holder }
    {
        &self.holder
    }

    pub fn pattern(&self) -> &[u8]
        ensures { result.now ≡ self.now.pattern }
    {
        self.pattern.as_slice()
    }

    pub fn queue(&self) -> Option<&[u8]>
        ensures { option_copied result ≡ self.now.queue }
    {
        match &self.queue {
            None => None,
            Some(queue) => Some(queue.as_slice()),
        }
    }

    pub fn weight(&self) -> u32
        ensures { result ≡ self.now.weight }
    {
        self.weight
    }
}

fn copied_queue(alloc: Global, queue: Option<&[u8]>) -> Result<Option<Bytes>, NoMemory>
    ensures { IfOk result (λ it. it ≡ option_copied queue.entry) }
{
    match queue {
        None => Ok(None),
        Some(bytes) => Ok(Some(Bytes::from_slice(alloc, bytes)?)),
    }
}

impl PartialEq for Entry {
    ghost use Rattle.std.specs.Cmp.{eq_by_cmp_equiv, partial_equiv_from_equiv};
    ghost use Rattle.pattern_tree.specs.Order.{is_same, subscriptions_total};

    ghost eq = { is_same };

    ghost laws = { partial_equiv_from_equiv (eq_by_cmp_equiv subscriptions_total) };

    fn eq(&self, other: &Entry) -> bool {
        order(self, other).is_eq()
    }
}

impl Eq for Entry {
    ghost use Rattle.std.specs.Cmp.{eq_by_cmp_equiv};
    ghost use Rattle.pattern_tree.specs.Order.{subscriptions_total};

    ghost laws = { eq_by_cmp_equiv subscriptions_total };
}

impl PartialOrd for Entry {
    ghost use Rattle.std.specs.Cmp.{po};
    ghost use Rattle.std.specs.Prelude.{Some, refl};
    ghost use Rattle.interest_list.specs.Lists.{subscription_cmp};
    ghost use Rattle.pattern_tree.specs.Order.{subscriptions_total};

    ghost partial_cmp = { λ a b. Some (subscription_cmp a b) };

    ghost laws = { po subscriptions_total (λ a b. refl) };

    fn partial_cmp(&self, other: &Entry) -> Option<Ordering> {
        Some(order(self, other))
    }
}

impl Ord for Entry {
    ghost use Rattle.std.specs.Prelude.{refl};
    ghost use Rattle.interest_list.specs.Lists.{subscription_cmp};
    ghost use Rattle.pattern_tree.specs.Order.{subscriptions_total};

    ghost cmp = { subscription_cmp };

    ghost total = { subscriptions_total };

    ghost matches_partial_cmp = { λ a b. refl };

    ghost matches_eq = { λ a b. refl };

    fn cmp(&self, other: &Entry) -> Ordering {
        order(self, other)
    }
}

// Clients by connection and number, then links by connection, pattern and queue, then the node by pattern.
fn order(a: &Entry, b: &Entry) -> Ordering
    ensures { result ≡ subscription_cmp a.now b.now }
{
    match (&a.holder, &b.holder) {
        (
            Holder::Client { conn, sid },
            Holder::Client {
                conn: other,
                sid: number,
            },
        ) => { conn.cmp(other).then(text_order(sid, number)) }
        (Holder::Client { .. }, _) => Ordering::Less,
        (_, Holder::Client { .. }) => Ordering::Greater,
        (Holder::Link { conn }, Holder::Link { conn: other }) => {
            conn.cmp(other).then(pair_order(a, b))
        }
        (Holder::Link { .. }, Holder::Inner) => Ordering::Less,
        (Holder::Inner, Holder::Link { .. }) => Ordering::Greater,
        (Holder::Inner, Holder::Inner) => pair_order(a, b),
    }
}

fn pair_order(a: &Entry, b: &Entry) -> Ordering
    ensures { result ≡ pair_cmp a.now.pattern a.now.queue b.now.pattern b.now.queue }
{
    text_order(&a.pattern, &b.pattern).then(queue_order(&a.queue, &b.queue))
}

fn queue_order(a: &Option<Bytes>, b: &Option<Bytes>) -> Ordering
    ensures { result ≡ queue_cmp a.now b.now }
{
    match (a, b) {
        (None, None) => Ordering::Equal,
        (None, Some(_)) => Ordering::Less,
        (Some(_), None) => Ordering::Greater,
        (Some(queue), Some(group)) => text_order(queue, group),
    }
}

fn text_order(a: &Bytes, b: &Bytes) -> Ordering
    ensures { result ≡ text_cmp a.now b.now }
{
    a.as_slice().cmp(b.as_slice())
}
