ghost use Rattle.std.specs.Prelude.{◌≡◌, ◌<◌, ◌∷◌, [], List as Items, IfOk, OnOk};
ghost use Rattle.stream_fold.specs.Histories.{History, stands};
ghost use Rattle.stream_fold.specs.Copying.{front, start_by};
ghost use Rattle.stream_fold.specs.Held.{StandsFor};
ghost use Rattle.record_codec.specs.declared.records.Rec.{Rec as Record};
ghost use Rattle.shard_machine.specs.Logs.{Made};
ghost use Rattle.shard_machine.specs.Legal.{IsLegal};
ghost use Rattle.log_replay.specs.Replays.{IsReplayOf};
ghost use Rattle.shard_store.specs.Streams.{AreStreams, copy_fact, copy_facts, facts_of, source_facts};
ghost use Rattle.shard_store.specs.Reads.{IsMade, Shows, AddsShown};

use crate::{CopyFact, Facts};
use log_replay::{Known, Replay, Standing};
use nats_text::{List, NoMemory, Origin, Start};
use std::alloc::Global;
use stream_fold::{BoundTo, Copies, Numbered, StreamState};

/// The streams that stand at a log's end, in byte order of their names.
pub(crate) fn streams(
    alloc: Global,
    replay: &Replay,
) -> Result<List<(Facts, List<Numbered>)>, NoMemory>
    ensures { (log : Items Record) → IsLegal log → IsReplayOf replay.now log → IfOk result (AreStreams log) }
{
    let mut shown = List::new(alloc);
    for (_, known) in &replay.names {
        add_shown(alloc, known, &mut shown)?;
    }
    Ok(shown)
}

/// Adds what is shown of a name.
fn add_shown(
    alloc: Global,
    known: &Known,
    shown: &mut List<(Facts, List<Numbered>)>,
) -> Result<(), NoMemory>
    ensures { OnOk result (AddsShown known.now.incarnation known.now.stream shown.old shown.new) }
{
    if let Some(standing) = &known.stream {
        shown.push(show(alloc, known.incarnation, standing)?)?;
    }
    Ok(())
}

/// The facts and the messages of a stream that stands.
fn show(
    alloc: Global,
    incarnation: u64,
    standing: &Standing,
) -> Result<(Facts, List<Numbered>), NoMemory>
    ensures { IfOk result (Shows incarnation standing.now) }
{
    let facts = facts_of(alloc, incarnation, standing)?;
    let rows = copy_rows(alloc, standing.state.rows())?;
    Ok((facts, rows))
}

fn facts_of(alloc: Global, incarnation: u64, standing: &Standing) -> Result<Facts, NoMemory>
    ensures { (m : Made) → IsMade standing.now m → IfOk result (λ facts. facts ≡ facts_of incarnation m) }
{
    let state = &standing.state;
    let config = state.config().clone()?;
    let copies = copies_of(alloc, state)?;
    Ok(Facts {
        config,
        created: standing.created,
        incarnation,
        first: state.first(),
        last: state.last(),
        count: state.count(),
        bytes: state.size(),
        consumers: 0,
        copies,
    })
}

/// How far each copy has come, in the order of the configuration.
fn copies_of(alloc: Global, state: &StreamState) -> Result<List<CopyFact>, NoMemory>
    ensures { (h : History) → StandsFor state.now h → IfOk result (λ copies. copies ≡ copy_facts h (stands h).limits.copies) }
{
    match &state.config().copies {
        Copies::Nothing => Ok(List::new(alloc)),
        Copies::Mirror(origin) => mirror_of(alloc, state, origin),
        Copies::Sources(origins) => sources_of(alloc, state, origins.as_slice()),
    }
}

/// How far a mirror has come.
fn mirror_of(
    alloc: Global,
    state: &StreamState,
    origin: &Origin,
) -> Result<List<CopyFact>, NoMemory>
    ensures { (h : History) → StandsFor state.now h → IfOk result (λ copies. copies ≡ copy_fact (front origin.now.start h.entries) origin.now ∷ []) }
{
    let start = start_of(state.bound(0), origin.start);
    let mut facts = List::new(alloc);
    facts.push(copy_fact(state.last().max(start - 1), origin)?)?;
    Ok(facts)
}

/// Where a copy starts: at the number of its binding, and before it at the configured one.
fn start_of(bound: Option<BoundTo>, start: Start) -> u64
    ensures value { result ≡ start_by bound start }
    ensures positive { 0 < result }
{
    match (bound, start) {
        (Some(to), _) => to.start.max(1),
        (None, Start::Seq(seq)) => seq.max(1),
        (None, Start::Time(_)) => 1,
    }
}

/// How far each source has come, in the order of the configuration. An index of `2^32` or more, which
/// no legal configuration has, is answered as want of memory.
fn sources_of(
    alloc: Global,
    state: &StreamState,
    origins: &[Origin],
) -> Result<List<CopyFact>, NoMemory>
    ensures { (h : History) → StandsFor state.now h → IfOk result (λ copies. copies ≡ source_facts h 0 origins.now) }
{
    let mut facts = List::new(alloc);
    for (index, origin) in origins.iter().enumerate() {
        let Ok(number) = u32::try_from(index) else {
            return Err(NoMemory);
        };
        facts.push(copy_fact(state.mark(number), origin)?)?;
    }
    Ok(facts)
}

fn copy_fact(mark: u64, origin: &Origin) -> Result<CopyFact, NoMemory>
    ensures { IfOk result (λ fact. fact ≡ copy_fact mark origin.now) }
{
    Ok(CopyFact {
        node: origin.node.clone()?,
        stream: origin.stream.clone()?,
        mark,
        stopped: None,
        consumer: None,
    })
}

fn copy_rows(alloc: Global, rows: &[Numbered]) -> Result<List<Numbered>, NoMemory>
    ensures { IfOk result (λ copy. copy ≡ rows.now) }
{
    let mut copy = List::new(alloc);
    for row in rows {
        copy.push(row.clone()?)?;
    }
    Ok(copy)
}
