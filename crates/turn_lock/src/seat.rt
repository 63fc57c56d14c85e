//! A seat at rest, and one that holds the value.
use crate::Kept;
use crate::rule::View;
use std::marker::Model;

/// What the steps on the table are made with.
pub(crate) type Token<V> = atomic_table::Seat<
    Option<V>,
    View<<V as Kept>::Step, <V as Kept>::Opening>,
>;

/// The right to take turns of a lock, one after another. It has no bytes: contracts see what its user
/// knows of the history. A seat that is let go keeps its share, so that the lock can't be closed any
/// more.
#[derive(Drop)]
pub struct Seat<V: Kept> {
    pub(crate) inner: Token<V>,
}

impl<V: Kept> Model for Seat<V> {
    ghost use Rattle.turn_lock.specs.Shares.{SeatState};

    ghost Value = { SeatState V.Step V.Opening };

    ghost use Rattle.turn_lock.specs.Shares.{seat_state};
    ghost use Rattle.turn_lock.specs.Seats.{IsResting};

    ghost view = { λ s. seat_state s.inner.table_id s.inner.me.0 };

    ghost invariant = { λ s. IsResting s.inner.me };
}

/// A seat whose turn it is. Only `give` takes it back.
pub struct Turn<V: Kept> {
    pub(crate) ticket: u64,
    pub(crate) inner: Token<V>,
}

impl<V: Kept> Model for Turn<V> {
    ghost use Rattle.std.specs.Prelude.{◌+◌, ◌<◌, ◌^◌};
    ghost use Rattle.turn_lock.specs.Shares.{SeatState};

    ghost Value = { SeatState V.Step V.Opening };

    ghost use Rattle.turn_lock.specs.Shares.{seat_state};
    ghost use Rattle.turn_lock.specs.Seats.{IsHolding};

    ghost view = { λ s. seat_state s.inner.table_id s.inner.me.0 };

    ghost invariant = { λ s. IsHolding s.ticket s.inner.me × (s.ticket + 1 < 2 ^ 64) };
}

/// The value, lent for one turn, and the seat whose turn it is. `give` takes both back.
pub struct Held<V: Kept> {
    pub value: V,
    pub turn: Turn<V>,
}
