//! What a publish into a stream is answered.
ghost use Rattle.std.specs.Prelude.{◌≡◌, IfOk, OnOk};
ghost use Rattle.std.specs.Str.{IsUtf8};
ghost use Rattle.serde_json.specs.View.{view, members_view};
ghost use Rattle.serde_json.specs.Written.{compact_text};
ghost use Rattle.js_api.specs.Answers.{ack_data, ack_fault_data, ack_text, ack_fault_text, duplicate_put};

use crate::text::{as_text, name_text, text_of};
use nats_text::{Bytes, Name, NoMemory};
use serde_json::{Map, Value, json, put};
use std::alloc::{AllocError, Global};

/// Adds that a publish repeats a message, where it does.
fn put_duplicate(
    members: &mut Map<String, Value>,
    alloc: Global,
    duplicate: bool,
) -> Result<(), AllocError>
    ensures { OnOk result (members_view members.new.entries ≡ duplicate_put duplicate (members_view members.old.entries)) }
{
    if duplicate {
        put(members, alloc, "duplicate", Value::Bool(true))?;
    }
    Ok(())
}

fn ack_value(
    alloc: Global,
    domain: &Name,
    stream: &Name,
    seq: u64,
    duplicate: bool,
) -> Result<Value, AllocError>
    ensures { IfOk result (λ value. view value ≡ ack_data domain.now stream.now seq duplicate) }
{
    let mut members = Map::new(alloc);
    let domain = Value::try_from_str(alloc, name_text(domain))?;
    put(&mut members, alloc, "domain", domain)?;
    put_duplicate(&mut members, alloc, duplicate)?;
    put(&mut members, alloc, "seq", Value::from(seq))?;
    let stream = Value::try_from_str(alloc, name_text(stream))?;
    put(&mut members, alloc, "stream", stream)?;
    Ok(Value::Object(members))
}

/// The acknowledgement of a publish: the message stands in the stream under this number. `duplicate` tells
/// that it was there before.
pub fn write_ack(
    alloc: Global,
    domain: &Name,
    stream: &Name,
    seq: u64,
    duplicate: bool,
) -> Result<Bytes, NoMemory>
    ensures { IfOk result (λ text. text ≡ ack_text domain.now stream.now seq duplicate) }
{
    let value = ack_value(alloc, domain, stream, seq, duplicate)?;
    text_of(alloc, &value)
}

fn ack_fault_value(
    alloc: Global,
    domain: &Name,
    stream: &Name,
    code: u32,
    err_code: u32,
    text: &[u8],
) -> Result<Value, AllocError>
    requires { IsUtf8 text.now }
    ensures { IfOk result (λ value. view value ≡ ack_fault_data domain.now stream.now code err_code text.now) }
{
    json!(in alloc; {
        "domain": name_text(domain),
        "error": {"code": code, "description": as_text(text), "err_code": err_code},
        "seq": 0u64,
        "stream": name_text(stream)
    })
}

/// What a publish is answered that the stream refuses.
pub fn write_ack_fault(
    alloc: Global,
    domain: &Name,
    stream: &Name,
    code: u32,
    err_code: u32,
    text: &[u8],
) -> Result<Bytes, NoMemory>
    requires { IsUtf8 text.now }
    ensures { IfOk result (λ line. line ≡ ack_fault_text domain.now stream.now code err_code text.now) }
{
    let value = ack_fault_value(alloc, domain, stream, code, err_code, text)?;
    text_of(alloc, &value)
}
