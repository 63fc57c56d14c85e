//! The lock as its users see it.
ghost use Rattle.std.specs.Prelude.{map, ◌≡◌, ℕ, ◌+◌, ◌<◌, ◌^◌, [], ◌∷◌, ◌++◌, Some, length, slice_get};
ghost use Rattle.turn_lock.specs.Own.{Owns, RisesFrom, Begins, merged, longer};
ghost use Rattle.turn_lock.specs.Shares.{IsOf, IsAll, half, both};

use crate::Kept;
use crate::gate::Gate;
use crate::plays::{Halve, Recall, Unite};
use crate::seat::{Held, Seat, Turn};
use std::marker::{Brand, Model};
use std::sync::Wait;

/// A lock round a value that stands for a history, a list of steps: each turn adds one. Turns come in
/// the order of their tickets, and the step of a turn stands in the history at its ticket, counted
/// from 0. Whoever takes turns needs a seat of the lock.
pub struct TurnLock<V: Kept> {
    pub(crate) gate: Gate<V>,
}

impl<V: Kept> Model for TurnLock<V> {
    ghost use Rattle.turn_lock.specs.Shares.{Lock};

    ghost Value = { Lock V.Opening };

    ghost view = { λ l. record { id = l.gate.table.shared.table_id; opening = V.opening l.gate.table.shared.key.value; seats = l.gate.table.shared.key.seats } };
}

impl<V: Kept> TurnLock<V> {
    /// Waits for the seat's turn, and lends the value. It stands for the history that the seat has
    /// then seen: that begins with what the seat had seen before, and the seat's own steps stand in it,
    /// each once. The last ticket is `2^64 - 2`: whoever comes later waits without end.
    pub fn take<R: Wait>(&self, rt: &R, seat: Seat<V>) -> Held<V>
        requires seat { IsOf self.now seat }
        ensures seat { IsOf self.now result.turn }
        ensures value { V.stands result.value self.now.opening result.turn.seen }
        ensures seen { Begins seat.seen result.turn.seen }
        ensures own { result.turn.own ≡ seat.own }
        ensures places { (k : ℕ) (x : V.Step) → Owns result.turn.own k x → slice_get result.turn.seen k ≡ Some x }
        ensures rising { RisesFrom 0 result.turn.own }
        ensures room { length result.turn.seen + 1 < 2 ^ 64 }
        ensures share { result.turn.share ≡ seat.share }
    {
        let Seat { mut inner } = seat;
        let ticket = self.gate.line_up(rt, &mut inner);
        self.gate.wait(rt, &mut inner, ticket);
        let value = self
            .gate
            .table
            .shared
            .exchange(&mut inner, 0, None)
            .unwrap();
        Held {
            value,
            turn: Turn { ticket, inner },
        }
    }

    /// Gives the value back with the step that the holder made, and wakes those who wait. The value
    /// has to stand for the history with this step at its end. The step itself isn't kept: it says
    /// to the proof what was done.
    pub fn give(&self, held: Held<V>, step: &V::Step) -> Seat<V>
        requires seat { IsOf self.now held.turn }
        requires stands { V.stands held.value self.now.opening (held.turn.seen ++ step.now ∷ []) }
        ensures seat { IsOf self.now result }
        ensures seen { result.seen ≡ held.turn.seen ++ step.now ∷ [] }
        ensures own { result.own ≡ held.turn.own ++ (length held.turn.seen, step.now) ∷ [] }
        ensures share { result.share ≡ held.turn.share }
    {
        let Held { value, turn } = held;
        let Turn { ticket, mut inner } = turn;
        let old = self.gate.table.shared.exchange(&mut inner, 0, Some(value));
        let None = old else { unreachable!() };
        self.gate.serve::<Brand>(&mut inner, ticket, step);
        // Only who drew a ticket before this look may sleep: who draws one later finds the new number.
        // All are woken, since the one whose turn it is can't be named.
        if self.gate.table.shared.peek(0) != ticket + 1 {
            self.gate.table.shared.wake_all(1);
        }
        Seat { inner }
    }

    /// Two seats that have seen what the one had, with half its share each. The first has its own
    /// steps.
    pub fn split(&self, seat: Seat<V>) -> (Seat<V>, Seat<V>)
        requires seat { IsOf self.now seat }
        ensures seats { IsOf self.now result.0 × IsOf self.now result.1 }
        ensures seen { (result.0.seen ≡ seat.seen) × (result.1.seen ≡ seat.seen) }
        ensures own { (result.0.own ≡ seat.own) × (result.1.own ≡ []) }
        ensures shares { (result.0.share ≡ half seat.share) × (result.1.share ≡ half seat.share) }
    {
        let Seat { mut inner } = seat;
        let other = self.gate.table.shared.split_seat::<Halve>(&mut inner);
        (Seat { inner }, Seat { inner: other })
    }

    /// One seat with what both had seen, which is the longer history, the own steps of both in the
    /// order of their tickets, and both shares.
    pub fn join(&self, a: Seat<V>, b: Seat<V>) -> Seat<V>
        requires a { IsOf self.now a }
        requires b { IsOf self.now b }
        ensures seat { IsOf self.now result }
        ensures seen { result.seen ≡ longer a.seen b.seen }
        ensures begins { Begins a.seen result.seen × Begins b.seen result.seen }
        ensures own { result.own ≡ merged a.own b.own }
        ensures rising { RisesFrom 0 result.own }
        ensures share { result.share ≡ both a.share b.share }
    {
        let Seat { mut inner } = a;
        let Seat { inner: other } = b;
        self.gate.table.shared.join_seat::<Unite>(&mut inner, other);
        // That both saw beginnings of one history a join can't tell its caller, and a load can.
        self.gate.table.shared.load::<Recall>(&mut inner, 0);
        Seat { inner }
    }

    /// The value, once all seats are joined into this one. It stands for the last history, which is
    /// the seat's own steps and no others.
    pub fn close(self, seat: Seat<V>) -> V
        requires seat { IsOf self seat }
        requires all { IsAll self.seats seat.share }
        ensures stands { V.stands result self.opening seat.seen }
        ensures whole { seat.seen ≡ map (λ (p : ℕ × V.Step). p.1) seat.own }
        ensures places { (k : ℕ) (x : V.Step) → Owns seat.own k x → slice_get seat.seen k ≡ Some x }
        ensures rising { RisesFrom 0 seat.own }
    {
        let Seat { inner } = seat;
        let TurnLock { gate } = self;
        let Gate { table } = gate;
        let mut closed = table.close_with(inner);
        let value = closed.take(0).unwrap();
        closed.free();
        value
    }
}
