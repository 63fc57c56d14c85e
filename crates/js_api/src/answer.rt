//! The answers to requests.
ghost use Rattle.std.specs.Prelude.{◌≡◌, None, IfOk, map};
ghost use Rattle.std.specs.Str.{IsUtf8};
ghost use Rattle.serde_json.specs.Data.{array, string};
ghost use Rattle.serde_json.specs.View.{view, items_of};
ghost use Rattle.serde_json.specs.Written.{compact_text};
ghost use Rattle.js_api.specs.Answers.{HasTexts, response_type, creation_of, done_data, purged_data, listed_data, found_data, fault_data, answer_text};

use crate::message::message_value;
use crate::stream::stream_text;
use crate::text::{as_text, name_text, text_of};
use crate::{ApiCall, ApiReply};
use nats_text::{Bytes, Name, NoMemory};
use serde_json::{Map, Value, json, push, put};
use std::alloc::{AllocError, Global};
use stream_fold::Numbered;

/// The type of the answer to a request.
fn response_type(call: &ApiCall) -> &'static str
    ensures { result.now ≡ response_type call.now }
{
    match call {
        ApiCall::Create(_) => "io.nats.jetstream.api.v1.stream_create_response",
        ApiCall::Update(_) => "io.nats.jetstream.api.v1.stream_update_response",
        ApiCall::Remove(_) => "io.nats.jetstream.api.v1.stream_delete_response",
        ApiCall::Info(_) => "io.nats.jetstream.api.v1.stream_info_response",
        ApiCall::Names { .. } => "io.nats.jetstream.api.v1.stream_names_response",
        ApiCall::Purge { .. } => "io.nats.jetstream.api.v1.stream_purge_response",
        ApiCall::Get { .. } => "io.nats.jetstream.api.v1.stream_msg_get_response",
        ApiCall::Delete { .. } => "io.nats.jetstream.api.v1.stream_msg_delete_response",
    }
}

/// Whether a request made its stream, as the answer to its creation tells.
fn creation_of(call: &ApiCall, fresh: bool) -> Option<bool>
    ensures { result ≡ creation_of call.now fresh }
{
    match call {
        ApiCall::Create(_) => Some(fresh),
        _ => None,
    }
}

fn done_value(alloc: Global, kind: &str) -> Result<Value, AllocError>
    ensures { IfOk result (λ value. view value ≡ done_data kind.now) }
{
    json!(in alloc; {"success": true, "type": kind})
}

fn done_text(alloc: Global, kind: &str) -> Result<Bytes, NoMemory>
    ensures { IfOk result (λ text. text ≡ compact_text (done_data kind.now)) }
{
    let value = done_value(alloc, kind)?;
    text_of(alloc, &value)
}

fn purged_value(alloc: Global, count: u64, kind: &str) -> Result<Value, AllocError>
    ensures { IfOk result (λ value. view value ≡ purged_data count kind.now) }
{
    json!(in alloc; {"purged": count, "success": true, "type": kind})
}

fn purged_text(alloc: Global, count: u64, kind: &str) -> Result<Bytes, NoMemory>
    ensures { IfOk result (λ text. text ≡ compact_text (purged_data count kind.now)) }
{
    let value = purged_value(alloc, count, kind)?;
    text_of(alloc, &value)
}

/// An array of names.
fn names_value(alloc: Global, names: &[Name]) -> Result<Value, AllocError>
    ensures { IfOk result (λ value. view value ≡ array (items_of (map string names.now))) }
{
    let mut values = Vec::new(alloc);
    for name in names {
        let value = Value::try_from_str(alloc, name_text(name))?;
        push(&mut values, value)?;
    }
    Ok(Value::Array(values))
}

fn listed_value(
    alloc: Global,
    names: &[Name],
    offset: u64,
    total: u64,
    kind: &str,
) -> Result<Value, AllocError>
    ensures { IfOk result (λ value. view value ≡ listed_data names.now offset total kind.now) }
{
    let mut members = Map::new(alloc);
    put(&mut members, alloc, "limit", Value::from(1024u64))?;
    put(&mut members, alloc, "offset", Value::from(offset))?;
    let names = names_value(alloc, names)?;
    put(&mut members, alloc, "streams", names)?;
    put(&mut members, alloc, "total", Value::from(total))?;
    let kind = Value::try_from_str(alloc, kind)?;
    put(&mut members, alloc, "type", kind)?;
    Ok(Value::Object(members))
}

fn listed_text(
    alloc: Global,
    names: &[Name],
    offset: u64,
    total: u64,
    kind: &str,
) -> Result<Bytes, NoMemory>
    ensures { IfOk result (λ text. text ≡ compact_text (listed_data names.now offset total kind.now)) }
{
    let value = listed_value(alloc, names, offset, total, kind)?;
    text_of(alloc, &value)
}

fn found_value(alloc: Global, found: &Numbered, kind: &str) -> Result<Value, NoMemory>
    ensures { IfOk result (λ value. view value ≡ found_data found.now kind.now) }
{
    let mut members = Map::new(alloc);
    let message = message_value(alloc, found)?;
    put(&mut members, alloc, "message", message)?;
    let kind = Value::try_from_str(alloc, kind)?;
    put(&mut members, alloc, "type", kind)?;
    Ok(Value::Object(members))
}

fn found_text(alloc: Global, found: &Numbered, kind: &str) -> Result<Bytes, NoMemory>
    ensures { IfOk result (λ text. text ≡ compact_text (found_data found.now kind.now)) }
{
    let value = found_value(alloc, found, kind)?;
    text_of(alloc, &value)
}

fn fault_value(
    alloc: Global,
    code: u32,
    err_code: u32,
    text: &[u8],
    kind: &str,
) -> Result<Value, AllocError>
    requires { IsUtf8 text.now }
    ensures { IfOk result (λ value. view value ≡ fault_data code err_code text.now kind.now) }
{
    json!(in alloc; {
        "error": {"code": code, "description": as_text(text), "err_code": err_code},
        "type": kind
    })
}

fn fault_text(
    alloc: Global,
    code: u32,
    err_code: u32,
    text: &[u8],
    kind: &str,
) -> Result<Bytes, NoMemory>
    requires { IsUtf8 text.now }
    ensures { IfOk result (λ line. line ≡ compact_text (fault_data code err_code text.now kind.now)) }
{
    let value = fault_value(alloc, code, err_code, text, kind)?;
    text_of(alloc, &value)
}

/// The answer to a request, as one line of JSON whose members stand in byte order. The texts of the reply
/// have to be UTF-8, and its configuration one that a stream may have.
///
/// A payload and a header block are told as base64 (RFC 4648, section 4), a moment as
/// `YYYY-MM-DDTHH:MM:SS.nnnnnnnnnZ` (RFC 3339). Whether a stream was made is told where one was to be made.
pub fn write_answer(alloc: Global, call: &ApiCall, reply: &ApiReply) -> Result<Bytes, NoMemory>
    requires { HasTexts reply.now }
    ensures { IfOk result (λ text. text ≡ answer_text call.now reply.now) }
{
    let kind = response_type(call);
    match reply {
        ApiReply::Made {
            config,
            facts,
            fresh,
        } => stream_text(alloc, config, facts, creation_of(call, *fresh), kind),
        ApiReply::Info { config, facts } => stream_text(alloc, config, facts, None, kind),
        ApiReply::Done => done_text(alloc, kind),
        ApiReply::Purged { count } => purged_text(alloc, *count, kind),
        ApiReply::Listed {
            names,
            offset,
            total,
        } => listed_text(alloc, names.as_slice(), *offset, *total, kind),
        ApiReply::Found(found) => found_text(alloc, found, kind),
        ApiReply::Fault {
            code,
            err_code,
            text,
        } => fault_text(alloc, *code, *err_code, text.as_slice(), kind),
    }
}
