//! The rule of a lock's table, and what each step on it tells.
ghost use Rattle.turn_lock.specs.Turns.{Draws, Looks, Serves, Recalls, Fetches, Fills, dealt_left, dealt_right, half_left, half_right, joined, spent};

use crate::Kept;
use crate::rule::{Origin, View};
use atomic_table::{Join, Play, Split, TableRule};
use std::marker::{Brand, PhantomData};

pub struct Turns<V>(PhantomData<V>);

impl<V: Kept> TableRule<Option<V>, View<V::Step, V::Opening>, Origin<V>> for Turns<V> {
    ghost use Rattle.turn_lock.specs.Turns.{Holds, made};

    ghost holds = { λ key. Holds V.stands (V.opening key.value) key.seats };

    ghost first = { λ key. made (V.opening key.value) key.seats 2 };
}

/// A ticket was drawn.
pub struct Draw;

impl<T, S, O> Play<Option<T>, View<S, O>> for Draw {
    ghost then = { λ st m n r. Draws st.first m n r };
}

/// The number that is served was read.
pub struct Look<V>(PhantomData<V>);

impl<V: Kept> Play<Option<V>, View<V::Step, V::Opening>> for Look<V> {
    ghost then = { λ st m n r. Looks V.stands m n r };
}

/// The step that a holder made. Each call of `serve` picks it.
pub trait Told<S> {
    ghost use Rattle.std.specs.Prelude.{List};

    ghost steps: { List S };
}

impl<S> Told<S> for Brand {
    ghost use Rattle.std.specs.Prelude.{[]};

    ghost steps = { [] };
}

/// The next number is served.
pub struct Serve<J>(PhantomData<J>);

impl<T, S, O, J: Told<S>> Play<Option<T>, View<S, O>> for Serve<J> {
    ghost then = { λ st m n r. Serves J.steps m r };
}

/// What the two seats of the last join had seen was compared.
pub struct Recall;

impl<T, S, O> Play<Option<T>, View<S, O>> for Recall {
    ghost then = { λ st m n r. Recalls m r };
}

/// The empty slot was taken.
pub struct Fetch;

impl<T, S, O> Play<Option<T>, View<S, O>> for Fetch {
    ghost then = { λ st m n r. Fetches m r };
}

/// The value is in the slot.
pub struct Fill;

impl<T, S, O> Play<Option<T>, View<S, O>> for Fill {
    ghost then = { λ st m n r. Fills m r };
}

/// A seat with one share less, and one with one share.
pub struct Deal;

impl<S, O> Split<View<S, O>> for Deal {
    ghost left = { dealt_left };

    ghost right = { dealt_right };
}

/// Two seats with half the share.
pub struct Halve;

impl<S, O> Split<View<S, O>> for Halve {
    ghost left = { half_left };

    ghost right = { half_right };
}

/// One seat with both shares.
pub struct Unite;

impl<S, O> Join<View<S, O>> for Unite {
    ghost both = { joined };

    ghost spent = { spent };
}
