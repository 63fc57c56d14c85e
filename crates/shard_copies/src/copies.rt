//! What is looked up of a stream's copies in its state.
ghost use Rattle.std.specs.Prelude.{◌≡◌, ℕ, ◌<◌, ◌+◌, List as Items, IfOk};
ghost use Rattle.stream_fold.specs.Copying.{number_since, start_by};
ghost use Rattle.stream_fold.specs.Facts.{facts, front_by_facts};
ghost use Rattle.stream_fold.specs.Held.{StandsFor};
ghost use Rattle.stream_fold.specs.Histories.{History};
ghost use Rattle.shard_machine.specs.Answers.{consumer_start};
ghost use Rattle.shard_machine.specs.Views.{origins_of, reached_by, ask_start, node_or};
ghost use Rattle.shard_copies.specs.Asked.{copy_of};

use nats_text::{Name, NoMemory, Origin, Start};
use std::slice;
use stream_fold::laws::facts_of_histories;
use stream_fold::{BoundTo, Copies, Numbered, StreamState};

/// At which number of a stream a consumer starts: at the one that is asked for, at least 1, or at the first
/// kept message since a moment, in nanoseconds since 1970.
pub fn consumer_start(state: &StreamState, start: Start) -> u64
    ensures { (h : History) → StandsFor state.now h → result ≡ consumer_start (facts h) start }
{
    facts_of_histories();
    match start {
        Start::Seq(number) => number.max(1),
        Start::Time(moment) => number_since(moment, state.rows(), state.last() + 1).max(1),
    }
}

fn number_since(moment: u64, rows: &[Numbered], end: u64) -> u64
    ensures { result ≡ number_since moment rows.now end }
{
    for row in rows {
        if moment <= row.message.time {
            return row.seq;
        }
    }
    end
}

/// The origins of a stream, by index.
pub fn origins(state: &StreamState) -> &[Origin]
    ensures { (h : History) → StandsFor state.now h → result.now ≡ origins_of (facts h).config.copies }
{
    facts_of_histories();
    origins_in(&state.config().copies)
}

fn origins_in(copies: &Copies) -> &[Origin]
    ensures { result.now ≡ origins_of copies.now }
{
    match copies {
        Copies::Nothing => &[],
        Copies::Mirror(origin) => slice::from_ref(origin),
        Copies::Sources(origins) => origins.as_slice(),
    }
}

/// The index behind this one.
pub fn next_index(index: u32) -> Result<u32, NoMemory>
    ensures { IfOk result (λ next. next ≡ index + 1) }
{
    index.checked_add(1).ok_or(NoMemory)
}

/// The node of an origin: the copy's own where none is named.
pub fn node_or<'a>(own: &'a Name, named: &'a Option<Name>) -> &'a Name
    ensures { result.now ≡ node_or own.now named.now }
{
    match named {
        None => own,
        Some(other) => other,
    }
}

/// How far the copy of an origin has come: a mirror to its front, a source to its mark.
pub fn reached(state: &StreamState, index: u32, want: &Origin) -> u64
    ensures { (h : History) → StandsFor state.now h → result ≡ reached_by (facts h).config.copies index want.now (facts h) }
{
    facts_of_histories();
    match &state.config().copies {
        Copies::Nothing => 0,
        Copies::Mirror(_) => front(state, want.start),
        Copies::Sources(_) => state.mark(index),
    }
}

/// How far a mirror has come: its last number, or the one before its start.
fn front(state: &StreamState, start: Start) -> u64
    ensures { (h : History) → StandsFor state.now h → result ≡ front_by_facts start (facts h) }
{
    facts_of_histories();
    state.last().max(start_by(state.bound(0), start) - 1)
}

/// Where a copy starts: at the start of its Bind, and before it at the configured one.
fn start_by(bound: Option<BoundTo>, start: Start) -> u64
    ensures value { result ≡ start_by bound start }
    ensures positive { 0 < result }
{
    match (bound, start) {
        (Some(to), _) => to.start.max(1),
        (None, Start::Seq(seq)) => seq.max(1),
        (None, Start::Time(_)) => 1,
    }
}

/// From where on a copy asks: at the configured start before it is bound, and then behind what it has.
pub fn ask_start(state: &StreamState, index: u32, want: &Origin) -> Result<Start, NoMemory>
    ensures { (name : Items ℕ) (h : History) → StandsFor state.now h → IfOk result (λ start. start ≡ ask_start (copy_of name index (facts h) want.now)) }
{
    facts_of_histories();
    if state.bound(index).is_none() {
        return Ok(want.start);
    }
    let next = reached(state, index, want).checked_add(1).ok_or(NoMemory)?;
    Ok(Start::Seq(next))
}
