ghost use Rattle.std.specs.Prelude.{◌≡◌, ◌+◌, ◌<◌, ◌^◌};
ghost use Rattle.turn_lock.specs.Shares.{IsOf, one};

use crate::book::{Book, write};
use std::sync::Wait;
use std::test::Fail;
use std::thread::{Threads, join};
use turn_lock::{Seat, TurnLock};

// Two seats on one thread, first A and then B, and the other way round.
#[test]
fn a_taker_finds_the_steps_of_the_turns_before(rt: HostRuntime) -> Result<(), Fail> {
    for is_a_first in [true, false] {
        let Ok((lock, seats)) = TurnLock::new(rt.alloc(), Book::new(rt.alloc()), 2) else {
            panic!(rt; "no memory")
        };
        let mut seats = seats.into_vec();
        let b = seats.pop().unwrap();
        let a = seats.pop().unwrap();
        seats.destroy_empty();
        let found_all;
        let (a, b) = if is_a_first {
            let (a, found_none) = write(&rt, &lock, a, &[], 7);
            let (b, found_a) = write(&rt, &lock, b, &[7], 8);
            let (a, found_both) = write(&rt, &lock, a, &[7, 8], 9);
            found_all = found_none && found_a && found_both;
            (a, b)
        } else {
            let (b, found_none) = write(&rt, &lock, b, &[], 8);
            let (a, found_b) = write(&rt, &lock, a, &[8], 7);
            let (a, found_both) = write(&rt, &lock, a, &[8, 7], 9);
            found_all = found_none && found_b && found_both;
            (a, b)
        };
        assert!(rt; found_all, "A first: {is_a_first}");
        let seat = lock.join(a, b);
        let book = lock.close(seat);
        let numbers = book.numbers.as_slice();
        if is_a_first {
            assert!(rt; numbers == [7, 8, 9].as_slice());
        } else {
            assert!(rt; numbers == [8, 7, 9].as_slice());
        }
    }
    Ok(())
}

// Takes so many turns, and writes the numbers from `first` on.
fn write_many<R: Wait>(
    rt: &R,
    lock: &TurnLock<Book>,
    seat: Seat<Book>,
    first: u64,
    count: u64,
) -> Seat<Book>
    requires lock { IsOf lock.now seat }
    requires fits { first + count < 2 ^ 64 }
    ensures lock { IsOf lock.now result }
    ensures share { result.share ≡ seat.share }
{
    let mut seat = seat;
    for number in first..first + count {
        seat = write(rt, lock, seat, &[], number).0;
    }
    seat
}

// How many numbers there are from 0 and from `middle` on, where each of these stands once and in its
// order, and no other.
fn runs(numbers: &[u64], middle: u64) -> Option<(u64, u64)> {
    let mut low = 0;
    let mut high = 0;
    for number in numbers {
        if *number == low {
            low = low.wrapping_add(1);
        } else if number.checked_sub(middle) == Some(high) {
            high = high.wrapping_add(1);
        } else {
            return None;
        }
    }
    Some((low, high))
}

fn write_on_two_threads<R: Threads + Wait + Sync>(
    rt: &R,
    lock: TurnLock<Book>,
    a: Seat<Book>,
    b: Seat<Book>,
) -> Book
    requires lock { lock.seats ≡ 2 }
    requires a { IsOf lock a × (a.share ≡ one) }
    requires b { IsOf lock b × (b.share ≡ one) }
{
    let (a, b) = join(
        rt,
        || write_many(rt, &lock, a, 0, 1_000),
        || write_many(rt, &lock, b, 1_000_000, 1_000),
    );
    let seat = lock.join(a, b);
    lock.close(seat)
}

#[test]
fn two_threads_write_each_number_once(rt: HostRuntime) -> Result<(), Fail> {
    let Ok((lock, seats)) = TurnLock::new(rt.alloc(), Book::new(rt.alloc()), 2) else {
        panic!(rt; "no memory")
    };
    let mut seats = seats.into_vec();
    let b = seats.pop().unwrap();
    let a = seats.pop().unwrap();
    seats.destroy_empty();
    let book = write_on_two_threads(&rt, lock, a, b);
    let found = runs(book.numbers.as_slice(), 1_000_000);
    assert!(rt; found == Some((1_000, 1_000)));
    Ok(())
}

// One more seat takes a turn, is cut in two and joined, and then joined to those before it.
fn gather<R: Wait>(
    rt: &R,
    lock: &TurnLock<Book>,
    all: Seat<Book>,
    seat: Seat<Book>,
    number: u64,
) -> Seat<Book>
    requires all { IsOf lock.now all × (all.share.halvings ≡ 1) }
    requires seat { IsOf lock.now seat × (seat.share ≡ one) }
    ensures lock { IsOf lock.now result }
    ensures share { result.share ≡ record { parts = all.share.parts + 2; halvings = 1 } }
{
    let (seat, _) = write(rt, lock, seat, &[], number);
    let (left, right) = lock.split(seat);
    lock.join(all, lock.join(left, right))
}

#[test]
fn a_thousand_seats_are_split_and_joined(rt: HostRuntime) -> Result<(), Fail> {
    let Ok((lock, seats)) = TurnLock::new(rt.alloc(), Book::new(rt.alloc()), 1_024) else {
        panic!(rt; "no memory")
    };
    let mut seats = seats.into_vec();
    let (left, right) = lock.split(seats.pop().unwrap());
    let mut all = lock.join(left, right);
    let mut number = 0;
    while let Some(seat) = seats.pop() {
        all = gather(&rt, &lock, all, seat, number);
        number += 1;
    }
    seats.destroy_empty();
    let book = lock.close(all);
    assert!(rt; runs(book.numbers.as_slice(), 1_000_000) == Some((1_023, 0)));
    Ok(())
}
