ghost use Rattle.std.specs.Prelude.{◌≡◌, ◌<◌, ◌≤◌, ◌^◌, None, Some, IsTrue, IfOk, IfSome, OnErr};
ghost use Rattle.nats_text.specs.Text.{is_name};
ghost use Rattle.nats_text.specs.declared.origin.Origin.{Origin};
ghost use Rattle.record_codec.specs.Spelling.{IsMark};
ghost use Rattle.replica_ask.specs.Orders.{order};
ghost use Rattle.stream_fold.specs.Checking.{config_fault};
ghost use Rattle.stream_fold.specs.Copying.{bound as bound_in, binding_at, mark, origin_named};
ghost use Rattle.stream_fold.specs.Fits.{Fits, index_count};
ghost use Rattle.stream_fold.specs.Held.{StandsFor};
ghost use Rattle.stream_fold.specs.Histories.{History, stands, last};
ghost use Rattle.stream_fold.specs.Publishing.{content_size};
ghost use Rattle.mirror_core.specs.Entries.{IfEntry, IsJournalled, IsShortEntry};
ghost use Rattle.source_core.specs.Decisions.{of_sourced, on_made, on_sourced, source_decision};
ghost use Rattle.source_core.specs.Origins.{HasSource, IsSource};
ghost use Rattle.source_core.specs.Places.{AsksVia, LooksAt, LooksInto, reached_at};

use crate::made::via;
use js_wire::Packet;
use mirror_core::{content_size, is_back, is_large, legal_message, other_decision};
use nats_text::{Message, NoMemory, Origin};
use replica_ask::{Asker, Order};
use std::alloc::Global;
use stream_fold::{BoundTo, Copies, Decision, Entry, Mark, Reason, StreamState};

/// Where the stream of a source of this index stands at this moment: the source's mark, and the
/// stream's own last number and clock.
#[derive(Clone, Copy, Debug)]
struct Place {
    index: u32,
    mark: u64,
    last: u64,
    clock: u64,
    now: u64,
}

/// What a source of a stream does about a packet to it at a moment, in nanoseconds since 1970: it
/// stores what it makes of the origin's next message under the stream's next number, with the
/// message's number there as its mark, unless that is not past its mark or the message's content is
/// too large. `NoMemory` comes only where it has to find what it makes of a message.
pub fn decide(
    alloc: Global,
    state: &StreamState,
    index: u32,
    asker: &Asker,
    packet: &Packet,
    now: u64,
) -> Result<Decision, NoMemory>
    requires legal { config_fault state.now.held.limits ≡ None }
    requires source { HasSource index state.now.held.limits.copies }
    ensures exact { (h : History) (want : Origin) → StandsFor state.now h → origin_named index state.now.held.limits.copies ≡ Some want → IfOk result (λ decision. decision ≡ source_decision want index (binding_at index state.now.held.bindings) (record { mark = mark index h; last = state.now.held.last; clock = state.now.held.clock }) now (order asker.now.phase packet.now) packet.now) }

    // What comes into the journal may come next there, and has a record.
    ensures fits { (h : History) → StandsFor state.now h → IfOk result (λ decision. IfEntry (Fits h) decision) }
    ensures journalled { IfOk result (λ decision. IfEntry (IsJournalled state.now.held.limits.name) decision) }
    ensures memory { (h : History) → StandsFor state.now h → OnErr result (AsksVia (mark index h) (order asker.now.phase packet.now) packet.now) }
{
    legal_name(state);
    let want = origin_of(&state.config().copies, index);
    let place = Place {
        index,
        mark: state.mark(index),
        last: state.last(),
        clock: state.clock(),
        now,
    };
    decision_for(
        alloc,
        want,
        place,
        state.bound(index),
        asker.order(packet),
        packet,
    )
}

/// Looks at what every state has: a legal name.
fn legal_name(state: &StreamState)
    ensures { IsTrue (is_name state.now.held.limits.name) }
{
    let _name = state.config().name.bytes();
}

/// The origin of the source of an index.
fn origin_of(copies: &Copies, index: u32) -> &Origin
    requires { HasSource index copies.now }
    ensures { origin_named index copies.now ≡ Some result.now }
{
    match copies {
        Copies::Sources(origins) => &origins.as_slice()[index as usize],
        Copies::Nothing => unreachable!(),
        Copies::Mirror(_) => unreachable!(),
    }
}

fn decision_for(
    alloc: Global,
    want: &Origin,
    place: Place,
    bound: Option<BoundTo>,
    order: Order,
    packet: &Packet,
) -> Result<Decision, NoMemory>
    requires { IsSource want.now }
    ensures exact { IfOk result (λ decision. decision ≡ source_decision want.now place.index bound (reached_at place) place.now order packet.now) }
    ensures short { IfOk result (λ decision. IfEntry IsShortEntry decision) }
    ensures fits { (h : History) → place.index < index_count (stands h).limits.copies → bound ≡ bound_in place.index h.entries → last h.entries ≡ place.last → IfOk result (λ decision. IfEntry (Fits h) decision) }
    ensures memory { OnErr result (AsksVia place.mark order packet.now) }
{
    match order {
        Order::Next => of_sourced(alloc, want, place, packet),
        other => Ok(other_decision(place.index, bound, other, packet)),
    }
}

fn of_sourced(
    alloc: Global,
    want: &Origin,
    place: Place,
    packet: &Packet,
) -> Result<Decision, NoMemory>
    requires { IsSource want.now }
    ensures exact { IfOk result (λ decision. decision ≡ of_sourced want.now place.index (reached_at place) place.now packet.now) }
    ensures short { IfOk result (λ decision. IfEntry IsShortEntry decision) }
    ensures fits { (h : History) → last h.entries ≡ place.last → IfOk result (λ decision. IfEntry (Fits h) decision) }
    ensures memory { OnErr result (LooksInto place.mark packet.now) }
{
    match packet {
        Packet::Delivery { seq, message, .. } => on_sourced(alloc, want, place, *seq, message),
        _ => Ok(Decision::Ignore(Reason::Foreign)),
    }
}

fn on_sourced(
    alloc: Global,
    want: &Origin,
    place: Place,
    seq: u64,
    message: &Message,
) -> Result<Decision, NoMemory>
    requires { IsSource want.now }
    ensures exact { IfOk result (λ decision. decision ≡ on_sourced want.now place.index (reached_at place) place.now seq message.now) }
    ensures short { IfOk result (λ decision. IfEntry IsShortEntry decision) }
    ensures fits { (h : History) → last h.entries ≡ place.last → IfOk result (λ decision. IfEntry (Fits h) decision) }
    ensures memory { OnErr result (LooksAt place.mark seq message.now) }
{
    if is_back(place.mark, seq) {
        return Ok(Decision::Ignore(Reason::Back {
            seq,
            front: place.mark,
        }));
    }
    if is_large(message) {
        return Ok(Decision::Ignore(Reason::Large {
            size: content_size(message),
        }));
    }
    let made = via(alloc, place.index, want, message, seq)?;
    Ok(on_made(place, seq, made))
}

/// What the source makes of a message is stored under the next own number.
fn on_made(place: Place, seq: u64, made: Option<Message>) -> Decision
    requires number { seq < 2 ^ 63 }
    requires size { IfSome made (λ m. content_size m ≤ 2090000) }
    ensures exact { result ≡ on_made place.index (reached_at place) place.now seq made }
    ensures short { IfEntry IsShortEntry result }
    ensures fits { (h : History) → last h.entries ≡ place.last → IfEntry (Fits h) result }
{
    let Some(mut message) = made else {
        return Decision::Skip;
    };
    if place.last >= (1 << 63) - 1 {
        return Decision::Ignore(Reason::SeqEnd);
    }
    message.time = place.now.max(place.clock);
    legal_message(&message);
    Decision::Store(Entry::Put {
        seq: place.last + 1,
        message,
        mark: Some(mark_of(place.index, seq)),
    })
}

fn mark_of(index: u32, seq: u64) -> Mark
    ensures value { result ≡ record { index = index; seq = seq } }
    ensures fits { IsMark result }
{
    Mark { index, seq }
}
