//! A new lock, and its seats.
ghost use Rattle.std.specs.Prelude.{Some, None, ◌≡◌, ◌<◌, [], length, IfOk, IfErr};
ghost use Rattle.std.specs.List.{All};
ghost use Rattle.turn_lock.specs.Shares.{new_seat, seat_state};
ghost use Rattle.turn_lock.specs.Turns.{made, dealt_left, dealt_right};

use crate::Kept;
use crate::gate::Gate;
use crate::lock::TurnLock;
use crate::plays::{Deal, Fetch, Fill, Turns};
use crate::rule::{Origin, View};
use crate::seat::{Seat, Token};
use atomic_table::Table;
use nats_text::{List, NoMemory};
use std::alloc::Global;

impl<V: Kept> Gate<V> {
    // Puts the value into the slot.
    fn settle(
        table: Table<Option<V>, View<V::Step, V::Opening>, Origin<V>, Turns<V>, Global>,
        mut inner: Token<V>,
        value: V,
    ) -> (Gate<V>, Token<V>)
        requires table { (table.shared.table_id.words ≡ 2) × (table.shared.table_id.slots ≡ 1) × (inner.table_id ≡ table.shared.table_id) × (inner.id ≡ 0) }
        requires first { inner.me ≡ (made (V.opening table.shared.key.value) table.shared.key.seats 2, []) }
        requires stands { V.stands value (V.opening table.shared.key.value) [] }
        requires some { 0 < table.shared.key.seats }
        ensures lock { (result.0.table.shared.key ≡ table.shared.key) × (result.1.table_id ≡ result.0.table.shared.table_id) }
        ensures seat { result.1.me ≡ (made (V.opening table.shared.key.value) table.shared.key.seats 0, []) }
    {
        table.shared.load::<Fetch>(&mut inner, 1);
        let old = table.shared.exchange(&mut inner, 0, Some(value));
        let None = old else { unreachable!() };
        table.shared.store::<Fill>(&mut inner, 1, 0);
        (Gate { table }, inner)
    }

    // The lock with one seat, which has the whole share.
    fn open(alloc: Global, value: V, seats: u64) -> Result<(Gate<V>, Token<V>), V>
        requires stands { V.stands value (V.opening value) [] }
        requires some { 0 < seats }
        ensures lock { IfOk result (λ r. (r.0.table.shared.key.value ≡ value) × (r.0.table.shared.key.seats ≡ seats)) }
        ensures seat { IfOk result (λ r. (r.1.table_id ≡ r.0.table.shared.table_id) × (r.1.me ≡ (made (V.opening value) seats 0, []))) }
        ensures err { IfErr result (λ v. v ≡ value) }
    {
        let origin = Origin { value, seats };
        match Table::vacant(alloc, &[0, 0], 1, &origin) {
            Ok((table, inner)) => {
                let Origin { value, seats: _ } = origin;
                Ok(Gate::settle(table, inner, value))
            }
            Err(_) => {
                let Origin { value, seats: _ } = origin;
                Err(value)
            }
        }
    }

    // A seat with the share 1, taken from a seat with more.
    fn deal(&self, seat: &mut Token<V>) -> Seat<V>
        requires seat { seat.old.table_id ≡ self.now.table.shared.table_id }
        requires rests { (seat.old.me.0.turn ≡ None) × (seat.old.me.0.stage ≡ 0) }
        requires more { 1 < seat.old.me.0.parts }
        ensures left { (seat.new.table_id ≡ seat.old.table_id) × (seat.new.me ≡ (dealt_left seat.old.me.0, seat.old.me.1)) }
        ensures right { result ≡ seat_state seat.old.table_id (dealt_right seat.old.me.0) }
    {
        let inner = self.table.shared.split_seat::<Deal>(seat);
        Seat { inner }
    }
}

impl<V: Kept> TurnLock<V> {
    /// A lock round a value that stands for no steps yet, and so many seats, each with the share 1.
    /// Without memory the value comes back.
    pub fn new(
        alloc: Global,
        value: V,
        seats: u32,
    ) -> Result<(TurnLock<V>, List<Seat<V>>), (NoMemory, V)>
        requires stands { V.stands value (V.opening value) [] }
        requires some { 0 < seats }
        ensures lock { IfOk result (λ r. (r.0.opening ≡ V.opening value) × (r.0.seats ≡ seats)) }
        ensures count { IfOk result (λ r. length r.1 ≡ seats) }
        ensures seats { IfOk result (λ r. All (λ s. s ≡ new_seat r.0) r.1) }
        ensures err { IfErr result (λ e. e.1 ≡ value) }
    {
        let Ok(mut list) = Vec::with_capacity(alloc, seats as usize) else {
            return Err((NoMemory, value));
        };
        match Gate::open(alloc, value, seats as u64) {
            Ok((gate, inner)) => {
                let mut inner = inner;
                for _ in 1..seats {
                    list.push_reserved(gate.deal(&mut inner));
                }
                list.push_reserved(Seat { inner });
                Ok((TurnLock { gate }, List::from_vec(list)))
            }
            Err(value) => {
                list.destroy_empty();
                Err((NoMemory, value))
            }
        }
    }
}
