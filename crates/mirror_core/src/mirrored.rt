ghost use Rattle.std.specs.Prelude.{◌≡◌, ◌<◌, ◌≤◌, IsTrue, IfOk, OnErr};
ghost use Rattle.nats_text.specs.Text.{is_name};
ghost use Rattle.replica_ask.specs.Orders.{order};
ghost use Rattle.stream_fold.specs.Checking.{is_mirror};
ghost use Rattle.stream_fold.specs.Copying.{binding_at, start_by, bound as bound_in};
ghost use Rattle.stream_fold.specs.Fits.{Fits, index_count};
ghost use Rattle.stream_fold.specs.Held.{StandsFor};
ghost use Rattle.stream_fold.specs.Histories.{History, stands, last};
ghost use Rattle.mirror_core.specs.Decisions.{mirror_decision, of_mirrored, on_mirrored};
ghost use Rattle.mirror_core.specs.Entries.{IfEntry, IsJournalled, IsShortEntry, IsStored, front_held};

use crate::{content_size, is_back, is_large, legal_message, other_decision};
use js_wire::Packet;
use nats_text::{Message, NoMemory, Start};
use replica_ask::{Asker, Order};
use std::alloc::Global;
use stream_fold::{BoundTo, Copies, Decision, Entry, Reason, StreamState};

/// What a mirror does about a packet to it: it stores the origin's next message under the number that
/// the message has there, unless that is not past the mirror's front or its content is too large.
/// `NoMemory` comes only where a message is to be stored.
pub fn decide(
    _alloc: Global,
    state: &StreamState,
    asker: &Asker,
    packet: &Packet,
) -> Result<Decision, NoMemory>
    requires { IsTrue (is_mirror state.now.held.limits.copies) }
    ensures exact { IfOk result (λ decision. decision ≡ mirror_decision (binding_at 0 state.now.held.bindings) (front_held state.now.held) (order asker.now.phase packet.now) packet.now) }

    // What comes into the journal may come next there, and has a record.
    ensures fits { (h : History) → StandsFor state.now h → IfOk result (λ decision. IfEntry (Fits h) decision) }
    ensures journalled { IfOk result (λ decision. IfEntry (IsJournalled state.now.held.limits.name) decision) }
    ensures memory { OnErr result (IsStored (mirror_decision (binding_at 0 state.now.held.bindings) (front_held state.now.held) (order asker.now.phase packet.now) packet.now)) }
{
    legal_name(state);
    decision_for(front_of(state), state.bound(0), asker.order(packet), packet)
}

/// Looks at what every state has: a legal name.
fn legal_name(state: &StreamState)
    ensures { IsTrue (is_name state.now.held.limits.name) }
{
    let _name = state.config().name.bytes();
}

fn decision_for(
    front: u64,
    bound: Option<BoundTo>,
    order: Order,
    packet: &Packet,
) -> Result<Decision, NoMemory>
    ensures exact { IfOk result (λ decision. decision ≡ mirror_decision bound front order packet.now) }
    ensures short { IfOk result (λ decision. IfEntry IsShortEntry decision) }
    ensures fits { (h : History) → 0 < index_count (stands h).limits.copies → bound ≡ bound_in 0 h.entries → last h.entries ≤ front → IfOk result (λ decision. IfEntry (Fits h) decision) }
    ensures memory { OnErr result (IsStored (mirror_decision bound front order packet.now)) }
{
    match order {
        Order::Next => of_mirrored(front, packet),
        other => Ok(other_decision(0, bound, other, packet)),
    }
}

fn of_mirrored(front: u64, packet: &Packet) -> Result<Decision, NoMemory>
    ensures exact { IfOk result (λ decision. decision ≡ of_mirrored front packet.now) }
    ensures short { IfOk result (λ decision. IfEntry IsShortEntry decision) }
    ensures fits { (h : History) → last h.entries ≤ front → IfOk result (λ decision. IfEntry (Fits h) decision) }
    ensures memory { OnErr result (IsStored (of_mirrored front packet.now)) }
{
    match packet {
        Packet::Delivery { seq, message, .. } => on_mirrored(front, *seq, message),
        _ => Ok(Decision::Ignore(Reason::Foreign)),
    }
}

fn on_mirrored(front: u64, seq: u64, message: &Message) -> Result<Decision, NoMemory>
    ensures exact { IfOk result (λ decision. decision ≡ on_mirrored front seq message.now) }
    ensures short { IfOk result (λ decision. IfEntry IsShortEntry decision) }
    ensures fits { (h : History) → last h.entries ≤ front → IfOk result (λ decision. IfEntry (Fits h) decision) }
    ensures memory { OnErr result (IsStored (on_mirrored front seq message.now)) }
{
    if is_back(front, seq) {
        return Ok(Decision::Ignore(Reason::Back { seq, front }));
    }
    if is_large(message) {
        return Ok(Decision::Ignore(Reason::Large {
            size: content_size(message),
        }));
    }
    legal_message(message);
    Ok(Decision::Store(Entry::Put {
        seq,
        message: message.clone()?,
        mark: None,
    }))
}

/// How far the mirror has come: its last number, or the one before its start.
fn front_of(state: &StreamState) -> u64
    ensures { result ≡ front_held state.now.held }
{
    let start = match &state.config().copies {
        Copies::Mirror(origin) => start_by(state.bound(0), origin.start),
        Copies::Nothing => 1,
        Copies::Sources(_) => 1,
    };
    state.last().max(start - 1)
}

/// Where a copy starts: at the start of its Bind, and before it at the configured one.
fn start_by(bound: Option<BoundTo>, start: Start) -> u64
    ensures value { result ≡ start_by bound start }
    ensures positive { 0 < result }
{
    match (bound, start) {
        (Some(to), _) => to.start.max(1),
        (None, Start::Seq(seq)) => seq.max(1),
        (None, Start::Time(_)) => 1,
    }
}
