//! The headers of packets.
ghost use Rattle.std.specs.Prelude.{◌≡◌, ◌∷◌, ◌++◌, [], Some, IsTrue, IfOk, OnOk, decimal};
ghost use Rattle.std.specs.List.{list_all};
ghost use Rattle.nats_text.specs.Headers.{is_legal_pair, is_line_text, is_header_name, is_header_value, legal, with_pair};
ghost use Rattle.js_wire.specs.Messages.{status_alone, idle_status, consumer_value, beat_pairs, delivery_headers};

use crate::number::{push_number, push_text};
use crate::subjects::{flow_subject, push_consumer};
use itoa::Buffer;
use nats_text::laws::header_blocks;
use nats_text::{Headers, Message, Name, NoMemory, Pair, Stamp, TextFault};
use std::alloc::Global;

/// Headers of a status text within a line, without pairs.
pub(crate) fn status_alone(alloc: Global, status: &[u8]) -> Result<Headers, NoMemory>
    requires { IsTrue (is_line_text status.now) }
    ensures { IfOk result (λ headers. headers ≡ status_alone status.now) }
{
    header_blocks();
    let mut block = Vec::new(alloc);
    push_text(&mut block, b"NATS/1.0 ")?;
    push_text(&mut block, status)?;
    push_text(&mut block, b"\r\n\r\n")?;
    match Headers::read(alloc, &block) {
        Ok(headers) => Ok(headers),
        Err(TextFault::Bad { .. }) => unreachable!(),
        Err(TextFault::NoMemory) => Err(NoMemory),
    }
}

/// The status of headers, without their pairs.
fn status_of(alloc: Global, headers: &Headers) -> Result<Headers, NoMemory>
    ensures { IfOk result (λ copy. copy ≡ record { status = headers.now.status; pairs = [] }) }
{
    match headers.status() {
        Some(status) => status_alone(alloc, status),
        None => Ok(Headers::empty(alloc)),
    }
}

/// Adds copies of pairs.
fn push_pairs(headers: &mut Headers, pairs: &[Pair]) -> Result<(), NoMemory>
    requires { IsTrue (list_all is_legal_pair pairs.now) }
    ensures { OnOk result (headers.new ≡ record { status = headers.old.status; pairs = headers.old.pairs ++ pairs.now }) }
{
    for pair in pairs {
        headers.add(pair.name.as_slice(), pair.value.as_slice())?;
    }
    Ok(())
}

/// Adds a number under a name.
fn push_count(headers: &mut Headers, name: &[u8], count: u64) -> Result<(), NoMemory>
    requires { IsTrue (is_header_name name.now) }
    ensures { OnOk result (headers.new ≡ with_pair name.now (decimal count) headers.old) }
{
    let mut digits = Buffer::new();
    headers.add(name, digits.format(count).as_bytes())
}

/// `<origin> <stream> <consumer>`.
fn consumer_value(
    alloc: Global,
    origin: &Name,
    stream: &Name,
    consumer: Stamp,
) -> Result<Vec<u8>, NoMemory>
    ensures exact { IfOk result (λ value. value.items ≡ consumer_value origin.now stream.now consumer) }
    ensures legal { IfOk result (λ value. IsTrue (is_header_value value.items)) }
{
    let mut value = Vec::new(alloc);
    push_text(&mut value, origin.bytes())?;
    push_text(&mut value, b" ")?;
    push_text(&mut value, stream.bytes())?;
    push_text(&mut value, b" ")?;
    push_consumer(&mut value, consumer)?;
    Ok(value)
}

/// The headers of a heartbeat.
pub(crate) fn beat_headers(
    alloc: Global,
    origin: &Name,
    stream: &Name,
    consumer: Stamp,
    last_number: u64,
    last_seq: u64,
    stalled: Option<u64>,
) -> Result<Headers, NoMemory>
    ensures { IfOk result (λ headers. headers ≡ record {
      status = Some idle_status;
      pairs = beat_pairs origin.now stream.now consumer last_number last_seq stalled;
    }) }
{
    let mut headers = status_alone(alloc, b"100 Idle Heartbeat")?;
    let value = consumer_value(alloc, origin, stream, consumer)?;
    headers.add(b"Leafd-Consumer", &value)?;
    push_count(&mut headers, b"Nats-Last-Consumer", last_number)?;
    push_count(&mut headers, b"Nats-Last-Stream", last_seq)?;
    if let Some(token) = stalled {
        let subject = flow_subject(alloc, origin, stream, consumer, token)?;
        headers.add(b"Nats-Consumer-Stalled", subject.bytes())?;
    }
    Ok(headers)
}

/// The headers of a delivery: its message's subject, and behind it the message's own.
pub(crate) fn delivery_headers(alloc: Global, message: &Message) -> Result<Headers, NoMemory>
    ensures { IfOk result (λ headers. headers ≡ delivery_headers message.now) }
{
    let mut headers = status_of(alloc, &message.headers)?;
    headers.add(b"Nats-Subject", message.subject.bytes())?;
    push_pairs(&mut headers, message.headers.pairs())?;
    Ok(headers)
}

/// The status of headers, with other pairs.
pub(crate) fn headers_behind(
    alloc: Global,
    headers: &Headers,
    pairs: &[Pair],
) -> Result<Headers, NoMemory>
    requires { IsTrue (list_all is_legal_pair pairs.now) }
    ensures { IfOk result (λ copy. copy ≡ record { status = headers.now.status; pairs = pairs.now }) }
{
    let mut copy = status_of(alloc, headers)?;
    push_pairs(&mut copy, pairs)?;
    Ok(copy)
}
