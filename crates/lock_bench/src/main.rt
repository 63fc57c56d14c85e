//! Takes the turns of a lock. The words are the number of threads, 1 or 2, how many turns each takes,
//! and how many microseconds each turn sleeps with the value. It prints how many turns were taken.
#![tactic(auto)]

ghost use Rattle.std.specs.Prelude.{◌≡◌, length};
ghost use Rattle.turn_lock.specs.Shares.{IsOf, one};

use std::env;
use std::process::ExitCode;
use std::sync::Wait;
use std::thread::{Threads, join, sleep};
use std::time::{Clock, Duration};
use turn_lock::{Kept, Seat, TurnLock};

/// A number of turns.
#[derive(Drop)]
struct Count {
    turns: u64,
}

impl Kept for Count {
    type Step = ();

    type Opening = ();

    ghost opening = { λ _. tt };

    ghost stands = { λ count _ turns. count.turns ≡ length turns };
}

/// How many turns, and for how long each sleeps.
#[derive(Clone, Copy)]
struct Work {
    turns: u64,
    pause: Duration,
}

fn take_turns<R: Wait + Clock>(
    rt: &R,
    lock: &TurnLock<Count>,
    seat: Seat<Count>,
    work: Work,
) -> Seat<Count>
    requires { IsOf lock.now seat }
    ensures lock { IsOf lock.now result }
    ensures share { result.share ≡ seat.share }
{
    let mut seat = seat;
    for _ in 0..work.turns {
        let mut held = lock.take(rt, seat);
        if !work.pause.is_zero() {
            sleep(rt, work.pause);
        }
        held.value().turns += 1;
        seat = lock.give(held, &());
    }
    seat
}

/// How many turns were taken by both seats.
fn taken(lock: TurnLock<Count>, a: Seat<Count>, b: Seat<Count>) -> u64
    requires lock { lock.seats ≡ 2 }
    requires a { IsOf lock a × (a.share ≡ one) }
    requires b { IsOf lock b × (b.share ≡ one) }
{
    let seat = lock.join(a, b);
    lock.close(seat).turns
}

/// Two threads take so many turns each.
fn together<R: Threads + Wait + Clock + Sync>(
    rt: &R,
    lock: TurnLock<Count>,
    a: Seat<Count>,
    b: Seat<Count>,
    work: Work,
) -> u64
    requires lock { lock.seats ≡ 2 }
    requires a { IsOf lock a × (a.share ≡ one) }
    requires b { IsOf lock b × (b.share ≡ one) }
{
    let (a, b) = join(
        rt,
        || take_turns(rt, &lock, a, work),
        || take_turns(rt, &lock, b, work),
    );
    taken(lock, a, b)
}

/// The number of threads, and what each does.
fn words(rt: HostRuntime) -> Option<(u64, Work)> {
    let mut words = env::args(&rt).ok()?.skip(1);
    let threads = words.next()?.parse().ok()?;
    let turns = words.next()?.parse().ok()?;
    let pause = Duration::from_micros(words.next()?.parse().ok()?);
    Some((threads, Work { turns, pause }))
}

fn main(rt: HostRuntime) -> ExitCode {
    let Some((threads, work)) = words(rt) else {
        return ExitCode::from(2);
    };
    let Ok((lock, seats)) = TurnLock::new(rt.alloc(), Count { turns: 0 }, 2) else {
        return ExitCode::from(1);
    };
    let mut seats = seats.into_vec();
    let b = seats.pop().unwrap();
    let a = seats.pop().unwrap();
    seats.destroy_empty();
    let turns = if threads == 2 {
        together(&rt, lock, a, b, work)
    } else {
        let a = take_turns(&rt, &lock, a, work);
        taken(lock, a, b)
    };
    if println!(rt; "{turns}").is_err() {
        return ExitCode::from(1);
    }
    ExitCode::from(0)
}
