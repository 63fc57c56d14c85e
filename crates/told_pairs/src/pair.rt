//! The pairs of pattern and queue, in order.
ghost use Rattle.std.specs.Prelude.{◌≡◌, IfOk};
ghost use Rattle.interest_list.specs.Orders.{queue_cmp, text_cmp};
ghost use Rattle.told_pairs.specs.Keys.{key_cmp};

use nats_text::{Bytes, NoMemory, Pattern};
use std::cmp::Ordering;

/// A pattern and a queue that somebody wants, or a plain pattern.
#[derive(Clone, Debug, Drop)]
pub struct Pair {
    pub pattern: Pattern,
    pub queue: Option<Bytes>,
}

impl PartialEq for Pair {
    ghost use Rattle.std.specs.Cmp.{eq_by_cmp_equiv, partial_equiv_from_equiv};
    ghost use Rattle.std.specs.Ordering.{eq_by_cmp};
    ghost use Rattle.told_pairs.specs.Keys.{key_cmp, keys_total};

    ghost eq = { eq_by_cmp key_cmp };

    ghost laws = { partial_equiv_from_equiv (eq_by_cmp_equiv keys_total) };

    fn eq(&self, other: &Pair) -> bool {
        order(self, other).is_eq()
    }
}

impl Eq for Pair {
    ghost use Rattle.std.specs.Cmp.{eq_by_cmp_equiv};
    ghost use Rattle.told_pairs.specs.Keys.{keys_total};

    ghost laws = { eq_by_cmp_equiv keys_total };
}

impl PartialOrd for Pair {
    ghost use Rattle.std.specs.Cmp.{partial_order_from_total};
    ghost use Rattle.std.specs.Ordering.{as_partial_cmp};
    ghost use Rattle.told_pairs.specs.Keys.{key_cmp, keys_total};

    ghost partial_cmp = { as_partial_cmp key_cmp };

    ghost laws = { partial_order_from_total keys_total };

    fn partial_cmp(&self, other: &Pair) -> Option<Ordering> {
        Some(order(self, other))
    }
}

impl Ord for Pair {
    ghost use Rattle.std.specs.Prelude.{refl};
    ghost use Rattle.told_pairs.specs.Keys.{key_cmp, keys_total};

    ghost cmp = { key_cmp };

    ghost total = { keys_total };

    ghost matches_partial_cmp = { λ x y. refl };

    ghost matches_eq = { λ x y. refl };

    fn cmp(&self, other: &Pair) -> Ordering {
        order(self, other)
    }
}

fn order(a: &Pair, b: &Pair) -> Ordering
    ensures { result ≡ key_cmp a.now b.now }
{
    a.pattern
        .bytes()
        .cmp(b.pattern.bytes())
        .then(queue_order(&a.queue, &b.queue))
}

fn queue_order(a: &Option<Bytes>, b: &Option<Bytes>) -> Ordering
    ensures { result ≡ queue_cmp a.now b.now }
{
    match (a, b) {
        (None, None) => Ordering::Equal,
        (None, Some(_)) => Ordering::Less,
        (Some(_), None) => Ordering::Greater,
        (Some(queue), Some(group)) => text_order(queue, group),
    }
}

fn text_order(a: &Bytes, b: &Bytes) -> Ordering
    ensures { result ≡ text_cmp a.now b.now }
{
    a.as_slice().cmp(b.as_slice())
}

/// A copy of a pair.
pub fn copied(pair: &Pair) -> Result<Pair, NoMemory>
    ensures { IfOk result (λ it. it ≡ pair.now) }
{
    Ok(pair.clone()?)
}
