//! The table of a lock, and the steps on it. Its first word is the next ticket and its second the
//! number that is served, and its one slot holds the value.
ghost use Rattle.std.specs.Prelude.{◌≡◌, ◌+◌, ◌<◌, ◌^◌, [], ◌∷◌, ◌++◌, None, Some, length, MatchBool};
ghost use Rattle.atomic_table.specs.Table.{rest};
ghost use Rattle.turn_lock.specs.Turns.{Lends, drawn, gave};

use crate::Kept;
use crate::plays::{Draw, Look, Serve, Told, Turns};
use crate::rule::{Origin, View};
use crate::seat::Token;
use atomic_table::Table;
use std::alloc::Global;
use std::sync::Wait;

// How often a taker looks whether it is served before it sleeps: about as long as a sleep and a wake
// take. So a turn that is soon over costs no call of the system, and while another seat works for a
// millisecond no processor is used.
const LOOKS: u32 = 200;

pub(crate) struct Gate<V: Kept> {
    pub(crate) table: Table<Option<V>, View<V::Step, V::Opening>, Origin<V>, Turns<V>, Global>,
    ghost sized: { (table.shared.table_id.words ≡ 2) × (table.shared.table_id.slots ≡ 1) },
}

impl<V: Kept> Gate<V> {
    // Draws the ticket, if it is still the next.
    pub(crate) fn draw(&self, seat: &mut Token<V>, next: u64) -> bool
        requires seat { seat.old.table_id ≡ self.now.table.shared.table_id }
        requires idle { (seat.old.me.0.turn ≡ None) × (seat.old.me.0.stage ≡ 0) × (0 < seat.old.me.0.parts) }
        requires room { next + 1 < 2 ^ 64 }
        ensures drawn { MatchBool result (seat.new.me ≡ (drawn seat.old.me.0 next, seat.old.me.1)) (seat.new.me ≡ seat.old.me) }
        ensures same { (seat.new.table_id ≡ seat.old.table_id) × (seat.new.id ≡ seat.old.id) }
    {
        self.table
            .shared
            .compare_exchange::<Draw>(seat, 0, next, next + 1)
            == next
    }

    // Draws a ticket. After the last one it sleeps for ever.
    pub(crate) fn line_up<R: Wait>(&self, rt: &R, seat: &mut Token<V>) -> u64
        requires seat { seat.old.table_id ≡ self.now.table.shared.table_id }
        requires idle { (seat.old.me.0.turn ≡ None) × (seat.old.me.0.stage ≡ 0) × (0 < seat.old.me.0.parts) }
        ensures drawn { seat.new.me ≡ (drawn seat.old.me.0 result, seat.old.me.1) }
        ensures same { (seat.new.table_id ≡ seat.old.table_id) × (seat.new.id ≡ seat.old.id) }
        ensures room { result + 1 < 2 ^ 64 }
    {
        for _ in rt.forever() {
            let next = self.table.shared.peek(0);
            if next == u64::MAX {
                self.table.shared.park(rt, 0, u32::MAX);
            } else if self.draw(seat, next) {
                return next;
            }
        }
        unreachable!()
    }

    // Waits until the number is served, and then takes the slot.
    pub(crate) fn wait<R: Wait>(&self, rt: &R, seat: &mut Token<V>, ticket: u64)
        requires seat { seat.old.table_id ≡ self.now.table.shared.table_id }
        requires waits { (seat.old.me.0.turn ≡ Some ticket) × (seat.old.me.0.stage ≡ 0) × (0 < seat.old.me.0.parts) }
        ensures lent { Lends V.stands seat.old.me ticket seat.new.me }
        ensures same { (seat.new.table_id ≡ seat.old.table_id) × (seat.new.id ≡ seat.old.id) }
    {
        let mut looks = 0;
        for _ in rt.forever() {
            let found = self.table.shared.load::<Look<V>>(seat, 1);
            if found == ticket {
                return;
            }
            if looks < LOOKS {
                looks += 1;
            } else {
                self.table.shared.park(rt, 1, (found % (1 << 32)) as u32);
            }
        }
        unreachable!()
    }

    // Adds the step, gives the slot back and serves the next ticket.
    pub(crate) fn serve<J: Told<V::Step>>(&self, seat: &mut Token<V>, ticket: u64, _step: &V::Step)
        requires seat { (seat.old.table_id ≡ self.now.table.shared.table_id) × (seat.old.me.0.opening ≡ Some (V.opening self.now.table.shared.key.value)) }
        requires turn { (seat.old.me.0.turn ≡ Some ticket) × (seat.old.me.0.stage ≡ 1) × (0 < seat.old.me.0.parts) × (length seat.old.me.0.seen ≡ ticket) }
        requires room { ticket + 1 < 2 ^ 64 }
        requires stands { (x : V.Step) × (value : V) × (J.steps ≡ x ∷ []) × (seat.old.me.1 ≡ (0, Some value) ∷ []) × V.stands value (V.opening self.now.table.shared.key.value) (seat.old.me.0.seen ++ x ∷ []) }
        ensures served { (x : V.Step) × (J.steps ≡ x ∷ []) × (seat.new.me ≡ (gave seat.old.me.0 x, rest seat.old.me.1)) }
        ensures same { (seat.new.table_id ≡ seat.old.table_id) × (seat.new.id ≡ seat.old.id) }
    {
        self.table.shared.store::<Serve<J>>(seat, 1, ticket + 1);
    }
}
