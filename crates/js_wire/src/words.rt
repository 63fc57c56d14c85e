//! What the words of subjects say.
ghost use Rattle.std.specs.Prelude.{◌≡◌, ◌&&◌, codes, IfOk};
ghost use Rattle.std.specs.Str.{bytes_eq};
ghost use Rattle.nats_text.specs.Pieces.{pieces, views};
ghost use Rattle.js_wire.specs.Reading.{name_of, stamp_from, stamp_of, consumer_of, attempt_from, attempt_behind, attempt_of, flow_from, flow_of, receipt_from, receipt_behind, receipt_of, beater_of, create_of};

use crate::AskerId;
use crate::number::{numeral, small_numeral};
use nats_text::{Name, NoMemory, Stamp, TextFault, cut};
use std::alloc::Global;

/// One attempt of an asker.
#[derive(Debug, Drop)]
pub(crate) struct Attempt {
    pub asker: AskerId,
    pub attempt: Stamp,
}

/// A flow request of a consumer.
#[derive(Debug, Drop)]
pub(crate) struct Flow {
    pub origin: Name,
    pub stream: Name,
    pub consumer: Stamp,
    pub token: u64,
}

/// What tells that a delivery was taken.
#[derive(Debug, Drop)]
pub(crate) struct Receipt {
    pub stream: Name,
    pub consumer: Stamp,
    pub seq: u64,
    pub number: u64,
    pub time: u64,
    pub pending: u64,
}

/// The consumer that a heartbeat comes from.
#[derive(Debug, Drop)]
pub(crate) struct Beater {
    pub origin: Name,
    pub stream: Name,
    pub consumer: Stamp,
}

/// The stream that is asked for a consumer, and its node.
#[derive(Debug, Drop)]
pub(crate) struct Create {
    pub origin: Name,
    pub stream: Name,
}

/// A copy of the bytes, where they are a name.
fn name_of(alloc: Global, bytes: &[u8]) -> Result<Option<Name>, NoMemory>
    ensures { IfOk result (λ name. name ≡ name_of bytes.now) }
{
    match Name::read(alloc, bytes) {
        Ok(name) => Ok(Some(name)),
        Err(TextFault::Bad { .. }) => Ok(None),
        Err(TextFault::NoMemory) => Err(NoMemory),
    }
}

fn stamp_from(boot: &[u8], count: &[u8]) -> Option<Stamp>
    ensures { result ≡ stamp_from boot.now count.now }
{
    let boot = numeral(boot)?;
    let count = numeral(count)?;
    Some(Stamp { boot, count })
}

fn stamp_of(text: &[u8]) -> Option<Stamp>
    ensures { result ≡ stamp_of (pieces 67 text.now) }
{
    let (boot, behind) = cut(text, b'C')?;
    match cut(behind, b'C') {
        Some(_) => None,
        None => stamp_from(boot, behind),
    }
}

/// The consumer of a name `B<boot>C<count>`.
pub(crate) fn consumer_of(text: &[u8]) -> Option<Stamp>
    ensures { result ≡ consumer_of text.now }
{
    match text {
        [b'B', stamp @ ..] => stamp_of(stamp),
        _ => None,
    }
}

fn attempt_from(
    alloc: Global,
    node: &[u8],
    stream: &[u8],
    index: &[u8],
    boot: &[u8],
    count: &[u8],
) -> Result<Option<Attempt>, NoMemory>
    ensures { IfOk result (λ it. it ≡ attempt_from node.now stream.now index.now boot.now count.now) }
{
    let Some(index) = small_numeral(index) else {
        return Ok(None);
    };
    let Some(attempt) = stamp_from(boot, count) else {
        return Ok(None);
    };
    let Some(node) = name_of(alloc, node)? else {
        return Ok(None);
    };
    let Some(stream) = name_of(alloc, stream)? else {
        return Ok(None);
    };
    Ok(Some(Attempt {
        asker: AskerId {
            node,
            stream,
            index,
        },
        attempt,
    }))
}

/// The attempt of the words of a subject that ends in this word.
pub(crate) fn attempt_of(
    alloc: Global,
    words: &[&[u8]],
    end: &[u8],
) -> Result<Option<Attempt>, NoMemory>
    ensures { IfOk result (λ it. it ≡ attempt_of end.now (views words.now)) }
{
    let [system, copies, node, stream, numbers @ ..] = words else {
        return Ok(None);
    };
    if !is_attempt(system, copies) {
        return Ok(None);
    }
    attempt_behind(alloc, end, node, stream, numbers)
}

fn is_attempt(system: &[u8], copies: &[u8]) -> bool
    ensures { result ≡ (bytes_eq system.now (codes "$JS") && bytes_eq copies.now (codes "M")) }
{
    system == b"$JS".as_slice() && copies == b"M".as_slice()
}

/// The attempt of a node, a stream and the last four words of a subject.
fn attempt_behind(
    alloc: Global,
    end: &[u8],
    node: &[u8],
    stream: &[u8],
    words: &[&[u8]],
) -> Result<Option<Attempt>, NoMemory>
    ensures { IfOk result (λ it. it ≡ attempt_behind end.now node.now stream.now (views words.now)) }
{
    let [index, boot, count, last] = words else {
        return Ok(None);
    };
    if *last != end {
        return Ok(None);
    }
    attempt_from(alloc, node, stream, index, boot, count)
}

fn flow_from(
    alloc: Global,
    origin: &[u8],
    stream: &[u8],
    consumer: &[u8],
    token: &[u8],
) -> Result<Option<Flow>, NoMemory>
    ensures { IfOk result (λ it. it ≡ flow_from origin.now stream.now consumer.now token.now) }
{
    let Some(consumer) = consumer_of(consumer) else {
        return Ok(None);
    };
    let Some(token) = numeral(token) else {
        return Ok(None);
    };
    let Some(origin) = name_of(alloc, origin)? else {
        return Ok(None);
    };
    let Some(stream) = name_of(alloc, stream)? else {
        return Ok(None);
    };
    Ok(Some(Flow {
        origin,
        stream,
        consumer,
        token,
    }))
}

/// The flow request of the words of a subject.
pub(crate) fn flow_of(alloc: Global, words: &[&[u8]]) -> Result<Option<Flow>, NoMemory>
    ensures { IfOk result (λ it. it ≡ flow_of (views words.now)) }
{
    let [system, flow, origin, stream, consumer, token] = words else {
        return Ok(None);
    };
    if !is_flow(system, flow) {
        return Ok(None);
    }
    flow_from(alloc, origin, stream, consumer, token)
}

fn is_flow(system: &[u8], flow: &[u8]) -> bool
    ensures { result ≡ (bytes_eq system.now (codes "$JS") && bytes_eq flow.now (codes "FC")) }
{
    system == b"$JS".as_slice() && flow == b"FC".as_slice()
}

fn receipt_from(
    alloc: Global,
    stream: &[u8],
    consumer: &[u8],
    seq: &[u8],
    number: &[u8],
    time: &[u8],
    pending: &[u8],
) -> Result<Option<Receipt>, NoMemory>
    ensures { IfOk result (λ it. it ≡ receipt_from stream.now consumer.now seq.now number.now time.now pending.now) }
{
    let Some(consumer) = consumer_of(consumer) else {
        return Ok(None);
    };
    let Some(seq) = numeral(seq) else {
        return Ok(None);
    };
    let Some(number) = numeral(number) else {
        return Ok(None);
    };
    let Some(time) = numeral(time) else {
        return Ok(None);
    };
    let Some(pending) = numeral(pending) else {
        return Ok(None);
    };
    let Some(stream) = name_of(alloc, stream)? else {
        return Ok(None);
    };
    Ok(Some(Receipt {
        stream,
        consumer,
        seq,
        number,
        time,
        pending,
    }))
}

/// The receipt of the words of a subject.
pub(crate) fn receipt_of(alloc: Global, words: &[&[u8]]) -> Result<Option<Receipt>, NoMemory>
    ensures { IfOk result (λ it. it ≡ receipt_of (views words.now)) }
{
    let [system, taken, stream, consumer, once, numbers @ ..] = words else {
        return Ok(None);
    };
    if !is_receipt(system, taken, once) {
        return Ok(None);
    }
    receipt_behind(alloc, stream, consumer, numbers)
}

/// The receipt of a stream, a consumer and the words of four numbers.
fn receipt_behind(
    alloc: Global,
    stream: &[u8],
    consumer: &[u8],
    words: &[&[u8]],
) -> Result<Option<Receipt>, NoMemory>
    ensures { IfOk result (λ it. it ≡ receipt_behind stream.now consumer.now (views words.now)) }
{
    let [seq, number, time, pending] = words else {
        return Ok(None);
    };
    receipt_from(alloc, stream, consumer, seq, number, time, pending)
}

fn is_receipt(system: &[u8], taken: &[u8], once: &[u8]) -> bool
    ensures { result ≡ (bytes_eq system.now (codes "$JS") && bytes_eq taken.now (codes "ACK") && bytes_eq once.now (codes "1")) }
{
    system == b"$JS".as_slice() && taken == b"ACK".as_slice() && once == b"1".as_slice()
}

/// The consumer of the words of a heartbeat's header.
pub(crate) fn beater_of(alloc: Global, words: &[&[u8]]) -> Result<Option<Beater>, NoMemory>
    ensures { IfOk result (λ it. it ≡ beater_of (views words.now)) }
{
    let [origin, stream, consumer] = words else {
        return Ok(None);
    };
    let Some(consumer) = consumer_of(consumer) else {
        return Ok(None);
    };
    let Some(origin) = name_of(alloc, origin)? else {
        return Ok(None);
    };
    let Some(stream) = name_of(alloc, stream)? else {
        return Ok(None);
    };
    Ok(Some(Beater {
        origin,
        stream,
        consumer,
    }))
}

/// The node and the stream of the words of a subject on which a consumer is asked for.
pub(crate) fn create_of(alloc: Global, words: &[&[u8]]) -> Result<Option<Create>, NoMemory>
    ensures { IfOk result (λ it. it ≡ create_of (views words.now)) }
{
    let [system, origin, api, consumer, create, stream] = words else {
        return Ok(None);
    };
    if !is_create(system, api, consumer, create) {
        return Ok(None);
    }
    let Some(origin) = name_of(alloc, origin)? else {
        return Ok(None);
    };
    let Some(stream) = name_of(alloc, stream)? else {
        return Ok(None);
    };
    Ok(Some(Create { origin, stream }))
}

fn is_create(system: &[u8], api: &[u8], consumer: &[u8], create: &[u8]) -> bool
    ensures { result ≡ (bytes_eq system.now (codes "$JS") && bytes_eq api.now (codes "API") && bytes_eq consumer.now (codes "CONSUMER") && bytes_eq create.now (codes "CREATE")) }
{
    system == b"$JS".as_slice()
        && api == b"API".as_slice()
        && consumer == b"CONSUMER".as_slice()
        && create == b"CREATE".as_slice()
}
