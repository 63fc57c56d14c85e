//! A list of numbers, which stands for the steps that wrote them.
ghost use Rattle.std.specs.Prelude.{◌≡◌, ◌++◌, ◌∷◌, [], ℕ};
ghost use Rattle.std.specs.declared.option.Option.{Option};
ghost use Rattle.lock_rows.specs.Book.{written};
ghost use Rattle.turn_lock.specs.Own.{Begins};
ghost use Rattle.turn_lock.specs.Shares.{IsOf};

use std::alloc::Global;
use std::sync::Wait;
use turn_lock::{Kept, Seat, TurnLock};

#[derive(Drop)]
pub struct Book {
    pub numbers: Vec<u64>,
}

impl Kept for Book {
    // The number that was written, or `None` where there was no memory for it.
    type Step = Option<u64>;

    type Opening = ();

    ghost opening = { λ _. tt };

    ghost stands = { λ b _ h. b.numbers.items ≡ written h };
}

impl Book {
    pub fn new(alloc: Global) -> Book
        ensures { result.numbers.items ≡ [] }
    {
        Book {
            numbers: Vec::new(alloc),
        }
    }

    // Writes the number, and says which step that was.
    fn write(&mut self, number: u64) -> Option<u64>
        ensures { self.new.numbers.items ≡ self.old.numbers.items ++ written (result ∷ []) }
    {
        if self.numbers.push(number).is_ok() {
            Some(number)
        } else {
            None
        }
    }
}

/// Takes one turn, in which it writes the number, and says whether the book held what was expected.
pub fn write<R: Wait>(
    rt: &R,
    lock: &TurnLock<Book>,
    seat: Seat<Book>,
    expected: &[u64],
    number: u64,
) -> (Seat<Book>, bool)
    requires { IsOf lock.now seat }
    ensures lock { IsOf lock.now result.0 }
    ensures seen { Begins seat.seen result.0.seen }
    ensures share { result.0.share ≡ seat.share }
    ensures own { (k : ℕ) × (step : Option ℕ) × (result.0.own ≡ seat.own ++ (k, step) ∷ []) }
{
    let mut held = lock.take(rt, seat);
    let found = held.value().numbers.as_slice() == expected;
    let step = held.value().write(number);
    (lock.give(held, &step), found)
}
