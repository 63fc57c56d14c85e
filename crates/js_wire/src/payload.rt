//! The JSON of packets.
ghost use Rattle.std.specs.Prelude.{◌≡◌, false, IfOk, OnOk, string_bytes};
ghost use Rattle.std.specs.Str.{IsUtf8};
ghost use Rattle.serde_json.specs.Data.{array, string, put as with_member};
ghost use Rattle.serde_json.specs.View.{view, members_view};
ghost use Rattle.serde_json.specs.Written.{compact_text, has_float};
ghost use Rattle.js_wire.specs.Moments.{moment_text};
ghost use Rattle.js_wire.specs.Payloads.{answer_data, refusal_data, config_data, ask_data, texts, with_start, with_filters};
ghost use Rattle.js_wire.specs.Words.{consumer_name};

use jiff::Timestamp;
use jiff::fmt::temporal::DateTimePrinter;
use nats_text::{Bytes, Name, NoMemory, Pattern, Stamp, Start, Subject};
use serde_json::{Map, Value, json, push, put};
use std::alloc::{AllocError, Global};

/// The text of JSON without fractions.
fn text_of(alloc: Global, value: &Value) -> Result<Bytes, NoMemory>
    requires { has_float (view value.now) ≡ false }
    ensures { IfOk result (λ text. text ≡ compact_text (view value.now)) }
{
    let text = value.to_string(alloc)?;
    Ok(Bytes::from_vec(text.into_bytes()))
}

/// Bytes that are UTF-8, as a text.
fn as_text(bytes: &[u8]) -> &str
    requires { IsUtf8 bytes.now }
    ensures { result.now ≡ bytes.now }
{
    match str::from_utf8(bytes) {
        Ok(text) => text,
        Err(_) => unreachable!(),
    }
}

fn refusal(alloc: Global, code: u32, err_code: u32) -> Result<Value, AllocError>
    ensures { IfOk result (λ value. view value ≡ refusal_data code err_code) }
{
    json!(in alloc; {
        "error": {"code": code, "err_code": err_code},
        "type": "io.nats.jetstream.api.v1.consumer_create_response"
    })
}

/// `{"error":{"code":C,"err_code":E},"type":..}`.
pub(crate) fn refusal_text(alloc: Global, code: u32, err_code: u32) -> Result<Bytes, NoMemory>
    ensures { IfOk result (λ text. text ≡ compact_text (refusal_data code err_code)) }
{
    let value = refusal(alloc, code, err_code)?;
    text_of(alloc, &value)
}

fn consumer_name(alloc: Global, consumer: Stamp) -> Result<String, AllocError>
    ensures { IfOk result (λ name. string_bytes name ≡ consumer_name consumer) }
{
    format!(in alloc; "B{}C{}", consumer.boot, consumer.count)
}

fn answer(alloc: Global, consumer: Stamp, incarnation: u64, start: u64) -> Result<Value, AllocError>
    ensures { IfOk result (λ value. view value ≡ answer_data consumer incarnation start) }
{
    let name = consumer_name(alloc, consumer)?;
    json!(in alloc; {
        "incarnation": incarnation,
        "name": name.as_str(),
        "start": start,
        "type": "io.nats.jetstream.api.v1.consumer_create_response"
    })
}

/// `{"incarnation":I,"name":..,"start":S,"type":..}`.
pub(crate) fn answer_text(
    alloc: Global,
    consumer: Stamp,
    incarnation: u64,
    start: u64,
) -> Result<Bytes, NoMemory>
    ensures { IfOk result (λ text. text ≡ compact_text (answer_data consumer incarnation start)) }
{
    let value = answer(alloc, consumer, incarnation, start)?;
    text_of(alloc, &value)
}

/// An array of the texts of patterns.
fn filter_texts(alloc: Global, filters: &[Pattern]) -> Result<Value, AllocError>
    ensures { IfOk result (λ value. view value ≡ array (texts filters.now)) }
{
    let mut values = Vec::new(alloc);
    for filter in filters {
        let value = pattern_value(alloc, filter)?;
        push(&mut values, value)?;
    }
    Ok(Value::Array(values))
}

fn pattern_value(alloc: Global, pattern: &Pattern) -> Result<Value, AllocError>
    ensures { IfOk result (λ value. view value ≡ string pattern.now) }
{
    Value::try_from_str(alloc, as_text(pattern.bytes()))
}

fn name_value(alloc: Global, name: &Name) -> Result<Value, AllocError>
    ensures { IfOk result (λ value. view value ≡ string name.now) }
{
    Value::try_from_str(alloc, as_text(name.bytes()))
}

fn subject_value(alloc: Global, subject: &Subject) -> Result<Value, AllocError>
    ensures { IfOk result (λ value. view value ≡ string subject.now) }
{
    Value::try_from_str(alloc, as_text(subject.bytes()))
}

/// The text of a moment, `YYYY-MM-DDTHH:MM:SS.nnnnnnnnnZ`.
fn moment_value(alloc: Global, time: u64) -> Result<Value, AllocError>
    ensures { IfOk result (λ value. view value ≡ string (moment_text time)) }
{
    let Ok(moment) = Timestamp::from_nanosecond(i128::from(time)) else {
        unreachable!()
    };
    let printer = DateTimePrinter::new().precision(Some(9));
    let text = printer.timestamp_text(moment.to_plain());
    Value::try_from_str(alloc, text.as_str())
}

fn put_text(
    members: &mut Map<String, Value>,
    alloc: Global,
    key: &str,
    text: &str,
) -> Result<(), AllocError>
    ensures { OnOk result (members_view members.new.entries ≡ with_member key.now (string text.now) (members_view members.old.entries)) }
{
    let value = Value::try_from_str(alloc, text)?;
    put(members, alloc, key, value)
}

/// Adds the two members that say where a consumer starts.
fn put_start(
    members: &mut Map<String, Value>,
    alloc: Global,
    start: Start,
) -> Result<(), AllocError>
    ensures { OnOk result (members_view members.new.entries ≡ with_start start (members_view members.old.entries)) }
{
    match start {
        Start::Seq(seq) => {
            put_text(members, alloc, "deliver_policy", "by_start_sequence")?;
            put(members, alloc, "opt_start_seq", Value::from(seq))
        }
        Start::Time(time) => {
            put_text(members, alloc, "deliver_policy", "by_start_time")?;
            let text = moment_value(alloc, time)?;
            put(members, alloc, "opt_start_time", text)
        }
    }
}

/// Adds the filters, where there are some.
fn put_filters(
    members: &mut Map<String, Value>,
    alloc: Global,
    filters: &[Pattern],
) -> Result<(), AllocError>
    ensures { OnOk result (members_view members.new.entries ≡ with_filters filters.now (members_view members.old.entries)) }
{
    if filters.is_empty() {
        return Ok(());
    }
    let texts = filter_texts(alloc, filters)?;
    put(members, alloc, "filter_subjects", texts)
}

/// The configuration of the consumer that is asked for.
fn config(
    alloc: Global,
    deliver_subject: &Subject,
    start: Start,
    filters: &[Pattern],
) -> Result<Value, AllocError>
    ensures { IfOk result (λ value. view value ≡ config_data deliver_subject.now start filters.now) }
{
    let mut members = Map::new(alloc);
    put_text(&mut members, alloc, "ack_policy", "none")?;
    let subject = subject_value(alloc, deliver_subject)?;
    put(&mut members, alloc, "deliver_subject", subject)?;
    put(&mut members, alloc, "flow_control", Value::Bool(true))?;
    put(
        &mut members,
        alloc,
        "idle_heartbeat",
        Value::from(5_000_000_000u64),
    )?;
    put_start(&mut members, alloc, start)?;
    put_filters(&mut members, alloc, filters)?;
    Ok(Value::Object(members))
}

fn ask(
    alloc: Global,
    deliver_subject: &Subject,
    stream: &Name,
    start: Start,
    filters: &[Pattern],
) -> Result<Value, AllocError>
    ensures { IfOk result (λ value. view value ≡ ask_data deliver_subject.now stream.now start filters.now) }
{
    let config = config(alloc, deliver_subject, start, filters)?;
    let stream_name = name_value(alloc, stream)?;
    let mut members = Map::new(alloc);
    put(&mut members, alloc, "config", config)?;
    put(&mut members, alloc, "stream_name", stream_name)?;
    Ok(Value::Object(members))
}

/// `{"config":{..},"stream_name":..}`.
pub(crate) fn ask_text(
    alloc: Global,
    deliver_subject: &Subject,
    stream: &Name,
    start: Start,
    filters: &[Pattern],
) -> Result<Bytes, NoMemory>
    ensures { IfOk result (λ text. text ≡ compact_text (ask_data deliver_subject.now stream.now start filters.now)) }
{
    let value = ask(alloc, deliver_subject, stream, start, filters)?;
    text_of(alloc, &value)
}
