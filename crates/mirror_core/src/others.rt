ghost use Rattle.std.specs.Prelude.{◌≡◌, ◌<◌};
ghost use Rattle.stream_fold.specs.Copying.{bound as bound_in};
ghost use Rattle.stream_fold.specs.Fits.{Fits, index_count};
ghost use Rattle.stream_fold.specs.Histories.{History, stands};
ghost use Rattle.mirror_core.specs.Decisions.{of_answer, of_beat, on_answer, on_beat, other_decision};
ghost use Rattle.mirror_core.specs.Entries.{IfEntry, IsShortEntry};

use js_wire::Packet;
use replica_ask::Order;
use stream_fold::{BoundTo, Decision, Entry, Reason, Why};

/// What every copy decides about a packet that isn't the delivery which it awaits, where its index is
/// bound so: it is bound by the first answer, and a later answer has to be of the same incarnation of
/// the origin. An entry that binds it has a record, and may come next in each history whose copies have
/// the index and that binds it so.
pub fn other_decision(index: u32, bound: Option<BoundTo>, order: Order, packet: &Packet) -> Decision
    ensures exact { result ≡ other_decision index bound order packet.now }
    ensures short { IfEntry IsShortEntry result }
    ensures fits { (h : History) → index < index_count (stands h).limits.copies → bound ≡ bound_in index h.entries → IfEntry (Fits h) result }
{
    match order {
        Order::Next => Decision::Ignore(Reason::Foreign),
        Order::Old { number, next } => Decision::Ignore(Reason::Old { number, next }),
        Order::Foreign => Decision::Ignore(Reason::Foreign),
        Order::Gap { expected, got } => Decision::AskAgain(Why::Gap { expected, got }),
        Order::Beat => of_beat(packet),
        Order::FlowAsk => Decision::Reply,
        Order::Answer => of_answer(index, bound, packet),
        Order::Refuse => Decision::Refused,
    }
}

fn of_answer(index: u32, bound: Option<BoundTo>, packet: &Packet) -> Decision
    ensures exact { result ≡ of_answer index bound packet.now }
    ensures short { IfEntry IsShortEntry result }
    ensures fits { (h : History) → index < index_count (stands h).limits.copies → bound ≡ bound_in index h.entries → IfEntry (Fits h) result }
{
    match packet {
        Packet::Answer {
            incarnation,
            start,
            ..
        } => on_answer(index, bound, *incarnation, *start),
        _ => Decision::Ignore(Reason::Foreign),
    }
}

fn on_answer(index: u32, bound: Option<BoundTo>, incarnation: u64, start: u64) -> Decision
    ensures exact { result ≡ on_answer index bound incarnation start }
    ensures short { IfEntry IsShortEntry result }
    ensures fits { (h : History) → index < index_count (stands h).limits.copies → bound ≡ bound_in index h.entries → IfEntry (Fits h) result }
{
    match bound {
        None => Decision::Bind(Entry::Bind {
            index,
            incarnation,
            start,
        }),
        Some(to) if to.incarnation == incarnation => Decision::Rebind,
        Some(to) => Decision::Stop {
            kept: to.incarnation,
            seen: incarnation,
        },
    }
}

fn of_beat(packet: &Packet) -> Decision
    ensures exact { result ≡ of_beat packet.now }
    ensures short { IfEntry IsShortEntry result }
    ensures fits { (h : History) → IfEntry (Fits h) result }
{
    match packet {
        Packet::Beat { stalled, .. } => on_beat(*stalled),
        _ => Decision::Ignore(Reason::Foreign),
    }
}

fn on_beat(stalled: Option<u64>) -> Decision
    ensures exact { result ≡ on_beat stalled }
    ensures short { IfEntry IsShortEntry result }
    ensures fits { (h : History) → IfEntry (Fits h) result }
{
    match stalled {
        None => Decision::Heard,
        Some(_) => Decision::Reply,
    }
}
