//! What the headers of a heartbeat say.
ghost use Rattle.std.specs.Prelude.{◌≡◌, ◌==◌, ◌&&◌, codes, IfOk};
ghost use Rattle.std.specs.Str.{bytes_eq};
ghost use Rattle.js_wire.specs.Received.{token_for, stalled_by, stalled_of, are_beat_names, beats_from, beats_of};

use crate::number::numeral;
use crate::words::{Beater, Flow, beater_of, flow_of};
use nats_text::{NoMemory, Pair, pieces};
use std::alloc::Global;

/// How far a consumer has come.
#[derive(Debug, Drop)]
pub(crate) struct Beats {
    pub beater: Beater,
    pub last_number: u64,
    pub last_seq: u64,
    pub stalled: Option<u64>,
}

fn token_for(beater: &Beater, flow: &Flow) -> Option<u64>
    ensures { result ≡ token_for beater.now flow.now }
{
    if is_of(beater, flow) {
        Some(flow.token)
    } else {
        None
    }
}

fn is_of(beater: &Beater, flow: &Flow) -> bool
    ensures { result ≡ (bytes_eq flow.now.origin beater.now.origin && bytes_eq flow.now.stream beater.now.stream && flow.now.consumer.boot == beater.now.consumer.boot && flow.now.consumer.count == beater.now.consumer.count) }
{
    flow.origin.bytes() == beater.origin.bytes()
        && flow.stream.bytes() == beater.stream.bytes()
        && flow.consumer.boot == beater.consumer.boot
        && flow.consumer.count == beater.consumer.count
}

/// The token of the one header that may stand behind the third.
fn stalled_of(
    alloc: Global,
    beater: &Beater,
    pairs: &[Pair],
) -> Result<Option<Option<u64>>, NoMemory>
    ensures { IfOk result (λ it. it ≡ stalled_of beater.now pairs.now) }
{
    match pairs {
        [] => Ok(Some(None)),
        [pair] => stalled_by(alloc, beater, pair),
        [_, _, ..] => Ok(None),
    }
}

fn stalled_by(alloc: Global, beater: &Beater, pair: &Pair) -> Result<Option<Option<u64>>, NoMemory>
    ensures { IfOk result (λ it. it ≡ stalled_by beater.now pair.now) }
{
    if pair.name.as_slice() != b"Nats-Consumer-Stalled".as_slice() {
        return Ok(None);
    }
    let words = pieces(alloc, pair.value.as_slice(), b'.')?;
    let Some(flow) = flow_of(alloc, &words)? else {
        return Ok(None);
    };
    match token_for(beater, &flow) {
        Some(token) => Ok(Some(Some(token))),
        None => Ok(None),
    }
}

fn are_beat_names(first: &Pair, second: &Pair, third: &Pair) -> bool
    ensures { result ≡ are_beat_names first.now second.now third.now }
{
    first.name.as_slice() == b"Leafd-Consumer".as_slice()
        && second.name.as_slice() == b"Nats-Last-Consumer".as_slice()
        && third.name.as_slice() == b"Nats-Last-Stream".as_slice()
}

fn beats_from(
    alloc: Global,
    consumer: &[u8],
    number: &[u8],
    seq: &[u8],
    others: &[Pair],
) -> Result<Option<Beats>, NoMemory>
    ensures { IfOk result (λ it. it ≡ beats_from consumer.now number.now seq.now others.now) }
{
    let words = pieces(alloc, consumer, b' ')?;
    let Some(beater) = beater_of(alloc, &words)? else {
        return Ok(None);
    };
    let Some(last_number) = numeral(number) else {
        return Ok(None);
    };
    let Some(last_seq) = numeral(seq) else {
        return Ok(None);
    };
    let Some(stalled) = stalled_of(alloc, &beater, others)? else {
        return Ok(None);
    };
    Ok(Some(Beats {
        beater,
        last_number,
        last_seq,
        stalled,
    }))
}

/// What the headers of a heartbeat say, each of which has its place.
pub(crate) fn beats_of(alloc: Global, pairs: &[Pair]) -> Result<Option<Beats>, NoMemory>
    ensures { IfOk result (λ it. it ≡ beats_of pairs.now) }
{
    let [first, second, third, others @ ..] = pairs else {
        return Ok(None);
    };
    if !are_beat_names(first, second, third) {
        return Ok(None);
    }
    beats_from(
        alloc,
        first.value.as_slice(),
        second.value.as_slice(),
        third.value.as_slice(),
        others,
    )
}
