//! Phases of askers.
ghost use Rattle.std.specs.Prelude.{◌≡◌};
ghost use Rattle.replica_ask.specs.Askers.{with_phase, bound_phase, took_phase};
ghost use Rattle.shard_machine.specs.Answers.{consumer_named, consumer_of, stopped_at};
ghost use Rattle.shard_copies.specs.Places.{moved_on};

use js_wire::Packet;
use nats_text::Stamp;
use replica_ask::{Asker, Phase};
use stream_fold::Decision;

/// Where a copy stopped: the incarnation that it is bound to, and the one that it saw.
pub fn stopped_at(phase: Phase) -> Option<(u64, u64)>
    ensures { result ≡ stopped_at phase }
{
    match phase {
        Phase::Idle => None,
        Phase::Asking { .. } => None,
        Phase::Bound { .. } => None,
        Phase::Stopped { kept, seen } => Some((kept, seen)),
    }
}

/// The consumer from which a copy is sent its messages.
pub fn consumer_of(phase: Phase) -> Option<Stamp>
    ensures { result ≡ consumer_of phase }
{
    match phase {
        Phase::Idle => None,
        Phase::Asking { .. } => None,
        Phase::Bound { consumer, .. } => Some(consumer),
        Phase::Stopped { .. } => None,
    }
}

/// The asker of a copy that followed a decision about a packet. One that asks again asks apart.
pub fn move_on(asker: &mut Asker, decision: &Decision, packet: &Packet, now: u64)
    ensures { asker.new ≡ moved_on decision.now packet.now now asker.old }
{
    match decision {
        Decision::Store(_) => took(asker, now),
        Decision::Bind(_) => bind(asker, consumer_named(packet), now),
        Decision::Rebind => bind(asker, consumer_named(packet), now),
        Decision::Skip => took(asker, now),
        Decision::Ignore(_) => {}
        Decision::AskAgain(_) => {}
        Decision::Reply => asker.heard(now),
        Decision::Heard => asker.heard(now),
        Decision::Refused => {}
        Decision::Stop { kept, seen } => asker.stop(*kept, *seen),
    }
}

/// The delivery that was awaited came, where one was.
fn took(asker: &mut Asker, now: u64)
    ensures { asker.new ≡ with_phase asker.old (took_phase now asker.old.phase) }
{
    match *asker.phase() {
        Phase::Idle => {}
        Phase::Asking { .. } => {}
        Phase::Bound { .. } => asker.took(now),
        Phase::Stopped { .. } => {}
    }
}

/// The answer that was awaited came, where one was.
fn bind(asker: &mut Asker, consumer: Stamp, now: u64)
    ensures { asker.new ≡ with_phase asker.old (bound_phase consumer now asker.old.phase) }
{
    match *asker.phase() {
        Phase::Idle => {}
        Phase::Asking { .. } => asker.bind(consumer, now),
        Phase::Bound { .. } => {}
        Phase::Stopped { .. } => {}
    }
}

/// The consumer that an answer names; no other packet binds.
fn consumer_named(packet: &Packet) -> Stamp
    ensures { result ≡ consumer_named packet.now }
{
    match packet {
        Packet::Answer { consumer, .. } => *consumer,
        _ => Stamp { boot: 0, count: 0 },
    }
}
