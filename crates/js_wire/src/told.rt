//! The packets of messages with JSON, before they are compared with what they are written as.
ghost use Rattle.std.specs.Prelude.{◌≡◌, option_map, if◌then◌else◌, IfOk, None, Some};
ghost use Rattle.serde_json.specs.View.{view, items_view};
ghost use Rattle.nats_text.specs.Text.{is_pattern};
ghost use Rattle.js_wire.specs.Told.{data_of, whole_at, small_at, text_at, answer_told, refusal_told, reply_told, tell_reply, moment_told, start_told, pattern_told, patterns_told, filters_told, config_told, ask_told, tell_ask, tell};

use crate::Packet;
use crate::words::{Attempt, Create, attempt_of, consumer_of, create_of};
use jiff::Timestamp;
use nats_text::{List, NoMemory, Parcel, Pattern, Start, Subject, TextFault, pieces};
use serde_json::Value;
use std::alloc::Global;

/// The JSON of a text.
fn data_of(alloc: Global, text: &[u8]) -> Result<Option<Value>, NoMemory>
    ensures { IfOk result (λ it. option_map view it ≡ data_of text.now) }
{
    match Value::from_slice(alloc, text) {
        Ok(value) => Ok(Some(value)),
        Err(error) => {
            if error.is_memory() {
                Err(NoMemory)
            } else {
                Ok(None)
            }
        }
    }
}

fn whole_at(value: &Value, name: &str) -> Option<u64>
    ensures { result ≡ whole_at name.now (view value.now) }
{
    value.get(name).and_then(Value::as_u64)
}

fn small_at(value: &Value, name: &str) -> Option<u32>
    ensures { result ≡ small_at name.now (view value.now) }
{
    let number = whole_at(value, name)?;
    if number <= u32::MAX as u64 {
        Some(number as u32)
    } else {
        None
    }
}

fn text_at<'a>(value: &'a Value, name: &str) -> Option<&'a str>
    ensures { option_map (λ text. text.now) result ≡ text_at name.now (view value.now) }
{
    value.get(name).and_then(Value::as_str)
}

fn answer_told(attempt: Attempt, value: &Value) -> Option<Packet>
    ensures { result ≡ answer_told attempt (view value.now) }
{
    let incarnation = whole_at(value, "incarnation")?;
    let name = text_at(value, "name")?;
    let consumer = consumer_of(name.as_bytes())?;
    let start = whole_at(value, "start")?;
    Some(Packet::Answer {
        asker: attempt.asker,
        attempt: attempt.attempt,
        consumer,
        incarnation,
        start,
    })
}

fn refusal_told(attempt: Attempt, error: &Value) -> Option<Packet>
    ensures { result ≡ refusal_told attempt (view error.now) }
{
    let code = small_at(error, "code")?;
    let err_code = small_at(error, "err_code")?;
    Some(Packet::Refuse {
        asker: attempt.asker,
        attempt: attempt.attempt,
        code,
        err_code,
    })
}

fn reply_told(attempt: Attempt, value: &Value) -> Option<Packet>
    ensures { result ≡ reply_told attempt (view value.now) }
{
    match value.get("error") {
        Some(error) => refusal_told(attempt, error),
        None => answer_told(attempt, value),
    }
}

/// The answer or the refusal that a message tells of.
fn tell_reply(alloc: Global, parcel: &Parcel) -> Result<Option<Packet>, NoMemory>
    ensures { IfOk result (λ it. it ≡ tell_reply parcel.now) }
{
    let words = pieces(alloc, parcel.subject.bytes(), b'.')?;
    let Some(attempt) = attempt_of(alloc, &words, b"A")? else {
        return Ok(None);
    };
    let Some(value) = data_of(alloc, parcel.payload.as_slice())? else {
        return Ok(None);
    };
    Ok(reply_told(attempt, &value))
}

/// The moment that a text writes, in nanoseconds since 1970.
fn moment_told(text: &str) -> Option<u64>
    ensures { result ≡ moment_told text.now }
{
    let moment = text.parse::<Timestamp>().ok()?;
    u64::try_from(moment.as_nanosecond()).ok()
}

fn start_told(config: &Value) -> Option<Start>
    ensures { result ≡ start_told (view config.now) }
{
    if let Some(seq) = whole_at(config, "opt_start_seq") {
        return Some(Start::Seq(seq));
    }
    let text = text_at(config, "opt_start_time")?;
    let time = moment_told(text)?;
    Some(Start::Time(time))
}

/// A copy of the bytes, where they are a pattern.
fn pattern_of(alloc: Global, bytes: &[u8]) -> Result<Option<Pattern>, NoMemory>
    ensures { IfOk result (λ it. it ≡ (if is_pattern bytes.now then Some bytes.now else None)) }
{
    match Pattern::read(alloc, bytes) {
        Ok(pattern) => Ok(Some(pattern)),
        Err(TextFault::Bad { .. }) => Ok(None),
        Err(TextFault::NoMemory) => Err(NoMemory),
    }
}

fn pattern_told(alloc: Global, value: &Value) -> Result<Option<Pattern>, NoMemory>
    ensures { IfOk result (λ it. it ≡ pattern_told (view value.now)) }
{
    match value.as_str() {
        Some(text) => pattern_of(alloc, text.as_bytes()),
        None => Ok(None),
    }
}

fn patterns_told(alloc: Global, values: &[Value]) -> Result<Option<List<Pattern>>, NoMemory>
    ensures { IfOk result (λ it. it ≡ patterns_told (items_view values.now)) }
{
    let mut patterns = List::new(alloc);
    for value in values {
        let Some(pattern) = pattern_told(alloc, value)? else {
            return Ok(None);
        };
        patterns.push(pattern)?;
    }
    Ok(Some(patterns))
}

fn filters_told(alloc: Global, config: &Value) -> Result<Option<List<Pattern>>, NoMemory>
    ensures { IfOk result (λ it. it ≡ filters_told (view config.now)) }
{
    let Some(filters) = config.get("filter_subjects") else {
        return Ok(Some(List::new(alloc)));
    };
    match filters.as_array() {
        Some(values) => patterns_told(alloc, values),
        None => Ok(None),
    }
}

fn config_told(
    alloc: Global,
    attempt: Attempt,
    create: Create,
    config: &Value,
) -> Result<Option<Packet>, NoMemory>
    ensures { IfOk result (λ it. it ≡ config_told attempt create (view config.now)) }
{
    let Some(start) = start_told(config) else {
        return Ok(None);
    };
    let Some(filters) = filters_told(alloc, config)? else {
        return Ok(None);
    };
    Ok(Some(Packet::Ask {
        asker: attempt.asker,
        attempt: attempt.attempt,
        origin: create.origin,
        stream: create.stream,
        start,
        filters,
    }))
}

fn ask_told(
    alloc: Global,
    attempt: Attempt,
    create: Create,
    value: &Value,
) -> Result<Option<Packet>, NoMemory>
    ensures { IfOk result (λ it. it ≡ ask_told attempt create (view value.now)) }
{
    match value.get("config") {
        Some(config) => config_told(alloc, attempt, create, config),
        None => Ok(None),
    }
}

/// The request that a message tells of, whose answer is awaited under this subject.
fn tell_ask(alloc: Global, parcel: &Parcel, reply: &Subject) -> Result<Option<Packet>, NoMemory>
    ensures { IfOk result (λ it. it ≡ tell_ask parcel.now reply.now) }
{
    let reply_words = pieces(alloc, reply.bytes(), b'.')?;
    let Some(attempt) = attempt_of(alloc, &reply_words, b"A")? else {
        return Ok(None);
    };
    let words = pieces(alloc, parcel.subject.bytes(), b'.')?;
    let Some(create) = create_of(alloc, &words)? else {
        return Ok(None);
    };
    let Some(value) = data_of(alloc, parcel.payload.as_slice())? else {
        return Ok(None);
    };
    ask_told(alloc, attempt, create, &value)
}

/// The packet that a message tells of.
pub(crate) fn tell(alloc: Global, parcel: &Parcel) -> Result<Option<Packet>, NoMemory>
    ensures { IfOk result (λ it. it ≡ tell parcel.now parcel.now.reply) }
{
    match &parcel.reply {
        Some(reply) => tell_ask(alloc, parcel, reply),
        None => tell_reply(alloc, parcel),
    }
}
