//! The packets of messages without JSON.
ghost use Rattle.std.specs.Prelude.{◌≡◌, ◌==◌, ◌&&◌, codes, length, if◌then◌else◌, IfOk, IsTrue};
ghost use Rattle.std.specs.List.{list_all};
ghost use Rattle.std.specs.Str.{bytes_eq};
ghost use Rattle.nats_text.specs.Headers.{has_none, is_legal_pair};
ghost use Rattle.nats_text.specs.Pieces.{views};
ghost use Rattle.nats_text.specs.Text.{is_subject};
ghost use Rattle.js_wire.specs.Messages.{flow_status, idle_status};
ghost use Rattle.js_wire.specs.Received.{is_empty, has_status, read_flow_reply, read_flow_ask, message_from, message_behind, read_delivery, read_beat, read_request, read_notice, read_plain};

use crate::Packet;
use crate::beats::beats_of;
use crate::headers::headers_behind;
use crate::words::{Flow, Receipt, attempt_of, flow_of, receipt_of};
use nats_text::{Headers, Message, NoMemory, Pair, Parcel, Subject, TextFault, pieces};
use std::alloc::Global;

fn has_status(status: &[u8], headers: &Headers) -> bool
    ensures { result ≡ has_status status.now headers.now }
{
    match headers.status() {
        Some(text) => text == status,
        None => false,
    }
}

fn has_no_headers(headers: &Headers) -> bool
    ensures { result ≡ has_none headers.now }
{
    headers.status().is_none() && headers.pairs().is_empty()
}

fn read_flow_reply(parcel: &Parcel, flow: Flow) -> Option<Packet>
    ensures { result ≡ read_flow_reply parcel.now flow }
{
    if has_no_headers(&parcel.headers) && parcel.payload.is_empty() {
        Some(Packet::FlowReply {
            origin: flow.origin,
            stream: flow.stream,
            consumer: flow.consumer,
            token: flow.token,
        })
    } else {
        None
    }
}

fn is_flow_ask(parcel: &Parcel) -> bool
    ensures { result ≡ (has_status flow_status parcel.now.headers && length parcel.now.headers.pairs == 0 && is_empty parcel.now.payload) }
{
    has_status(b"100 FlowControl Request", &parcel.headers)
        && parcel.headers.pairs().is_empty()
        && parcel.payload.is_empty()
}

fn read_flow_ask(alloc: Global, parcel: &Parcel, flow: Flow) -> Result<Option<Packet>, NoMemory>
    ensures { IfOk result (λ it. it ≡ read_flow_ask parcel.now flow) }
{
    if !is_flow_ask(parcel) {
        return Ok(None);
    }
    let words = pieces(alloc, parcel.subject.bytes(), b'.')?;
    let Some(attempt) = attempt_of(alloc, &words, b"D")? else {
        return Ok(None);
    };
    Ok(Some(Packet::FlowAsk {
        asker: attempt.asker,
        attempt: attempt.attempt,
        origin: flow.origin,
        stream: flow.stream,
        consumer: flow.consumer,
        token: flow.token,
    }))
}

/// A copy of the bytes, where they are a subject.
fn subject_of(alloc: Global, bytes: &[u8]) -> Result<Option<Subject>, NoMemory>
    ensures { IfOk result (λ it. it ≡ (if is_subject bytes.now then Some bytes.now else None)) }
{
    match Subject::read(alloc, bytes) {
        Ok(subject) => Ok(Some(subject)),
        Err(TextFault::Bad { .. }) => Ok(None),
        Err(TextFault::NoMemory) => Err(NoMemory),
    }
}

/// The message of a subject, which the first pair has to be, and of the pairs behind it.
fn message_from(
    alloc: Global,
    time: u64,
    parcel: &Parcel,
    first: &Pair,
    others: &[Pair],
) -> Result<Option<Message>, NoMemory>
    requires { IsTrue (list_all is_legal_pair others.now) }
    ensures { IfOk result (λ it. it ≡ message_from time parcel.now.headers.status parcel.now.payload first.now others.now) }
{
    if !is_subject_pair(first) {
        return Ok(None);
    }
    match subject_of(alloc, first.value.as_slice())? {
        Some(subject) => message_with(alloc, time, parcel, subject, others),
        None => Ok(None),
    }
}

fn is_subject_pair(pair: &Pair) -> bool
    ensures { result ≡ bytes_eq pair.now.name (codes "Nats-Subject") }
{
    pair.name.as_slice() == b"Nats-Subject".as_slice()
}

fn message_with(
    alloc: Global,
    time: u64,
    parcel: &Parcel,
    subject: Subject,
    pairs: &[Pair],
) -> Result<Option<Message>, NoMemory>
    requires { IsTrue (list_all is_legal_pair pairs.now) }
    ensures { IfOk result (λ it. it ≡ Some (record { subject = subject; headers = record { status = parcel.now.headers.status; pairs = pairs.now }; payload = parcel.now.payload; time = time })) }
{
    Ok(Some(Message {
        subject,
        headers: headers_behind(alloc, &parcel.headers, pairs)?,
        payload: parcel.payload.clone()?,
        time,
    }))
}

/// The message of a delivery, whose first pair is the subject.
fn message_behind(alloc: Global, time: u64, parcel: &Parcel) -> Result<Option<Message>, NoMemory>
    ensures { IfOk result (λ it. it ≡ message_behind time parcel.now.headers.status parcel.now.payload parcel.now.headers.pairs) }
{
    let [first, others @ ..] = parcel.headers.pairs() else {
        return Ok(None);
    };
    message_from(alloc, time, parcel, first, others)
}

fn read_delivery(
    alloc: Global,
    parcel: &Parcel,
    receipt: Receipt,
) -> Result<Option<Packet>, NoMemory>
    ensures { IfOk result (λ it. it ≡ read_delivery parcel.now receipt) }
{
    let words = pieces(alloc, parcel.subject.bytes(), b'.')?;
    let Some(attempt) = attempt_of(alloc, &words, b"D")? else {
        return Ok(None);
    };
    let Some(message) = message_behind(alloc, receipt.time, parcel)? else {
        return Ok(None);
    };
    Ok(Some(Packet::Delivery {
        asker: attempt.asker,
        attempt: attempt.attempt,
        stream: receipt.stream,
        consumer: receipt.consumer,
        number: receipt.number,
        seq: receipt.seq,
        pending: receipt.pending,
        message,
    }))
}

fn is_beat(parcel: &Parcel) -> bool
    ensures { result ≡ (has_status idle_status parcel.now.headers && is_empty parcel.now.payload) }
{
    has_status(b"100 Idle Heartbeat", &parcel.headers) && parcel.payload.is_empty()
}

fn read_beat(alloc: Global, parcel: &Parcel) -> Result<Option<Packet>, NoMemory>
    ensures { IfOk result (λ it. it ≡ read_beat parcel.now) }
{
    if !is_beat(parcel) {
        return Ok(None);
    }
    let words = pieces(alloc, parcel.subject.bytes(), b'.')?;
    let Some(attempt) = attempt_of(alloc, &words, b"D")? else {
        return Ok(None);
    };
    let Some(beats) = beats_of(alloc, parcel.headers.pairs())? else {
        return Ok(None);
    };
    Ok(Some(Packet::Beat {
        asker: attempt.asker,
        attempt: attempt.attempt,
        origin: beats.beater.origin,
        stream: beats.beater.stream,
        consumer: beats.beater.consumer,
        last_number: beats.last_number,
        last_seq: beats.last_seq,
        stalled: beats.stalled,
    }))
}

/// The packet of a message whose answer is awaited under these words.
fn read_request(alloc: Global, parcel: &Parcel, words: &[&[u8]]) -> Result<Option<Packet>, NoMemory>
    ensures { IfOk result (λ it. it ≡ read_request parcel.now (views words.now)) }
{
    if let Some(receipt) = receipt_of(alloc, words)? {
        return read_delivery(alloc, parcel, receipt);
    }
    if let Some(flow) = flow_of(alloc, words)? {
        return read_flow_ask(alloc, parcel, flow);
    }
    Ok(None)
}

/// The packet of a message whose answer isn't awaited.
fn read_notice(alloc: Global, parcel: &Parcel) -> Result<Option<Packet>, NoMemory>
    ensures { IfOk result (λ it. it ≡ read_notice parcel.now) }
{
    let words = pieces(alloc, parcel.subject.bytes(), b'.')?;
    match flow_of(alloc, &words)? {
        Some(flow) => Ok(read_flow_reply(parcel, flow)),
        None => read_beat(alloc, parcel),
    }
}

/// The packet of a message, where it carries one without JSON.
pub(crate) fn read_plain(alloc: Global, parcel: &Parcel) -> Result<Option<Packet>, NoMemory>
    ensures { IfOk result (λ it. it ≡ read_plain parcel.now parcel.now.reply) }
{
    match &parcel.reply {
        Some(reply) => {
            let words = pieces(alloc, reply.bytes(), b'.')?;
            read_request(alloc, parcel, &words)
        }
        None => read_notice(alloc, parcel),
    }
}
