//! Pieces of what is written.
ghost use Rattle.std.specs.Prelude.{◌≡◌, ◌++◌, false, decimal, string_bytes, IfOk, OnOk};
ghost use Rattle.std.specs.Str.{IsUtf8};
ghost use Rattle.base64.specs.Engines.{standard};
ghost use Rattle.base64.specs.GeneralPurpose.{encode_of};
ghost use Rattle.serde_json.specs.Data.{string};
ghost use Rattle.serde_json.specs.View.{view};
ghost use Rattle.serde_json.specs.Written.{compact_text, has_float};
ghost use Rattle.js_api.specs.Answers.{base64_data, moment_data};

use base64::engine::general_purpose::STANDARD;
use itoa::Buffer;
use moments::moment_text;
use nats_text::{Bytes, Name, NoMemory, Subject};
use serde_json::Value;
use std::alloc::{AllocError, Global};

/// Adds bytes.
pub(crate) fn push_text(text: &mut Vec<u8>, more: &[u8]) -> Result<(), NoMemory>
    ensures { OnOk result (text.new.items ≡ text.old.items ++ more.now) }
{
    text.extend_from_slice(more)?;
    Ok(())
}

/// Adds a number.
pub(crate) fn push_number(text: &mut Vec<u8>, number: u64) -> Result<(), NoMemory>
    ensures value { OnOk result (text.new.items ≡ text.old.items ++ decimal number) }
    ensures utf8 { IsUtf8 (decimal number) }
{
    let mut digits = Buffer::new();
    push_text(text, digits.format(number).as_bytes())
}

/// Adds a name.
pub(crate) fn push_name(text: &mut Vec<u8>, name: &Name) -> Result<(), NoMemory>
    ensures value { OnOk result (text.new.items ≡ text.old.items ++ name.now) }
    ensures utf8 { IsUtf8 name.now }
{
    push_text(text, name.bytes())
}

/// The text of JSON without fractions.
pub(crate) fn text_of(alloc: Global, value: &Value) -> Result<Bytes, NoMemory>
    requires { has_float (view value.now) ≡ false }
    ensures { IfOk result (λ text. text ≡ compact_text (view value.now)) }
{
    let text = value.to_string(alloc)?;
    Ok(Bytes::from_vec(text.into_bytes()))
}

/// Bytes that are UTF-8, as a text.
pub(crate) fn as_text(bytes: &[u8]) -> &str
    requires { IsUtf8 bytes.now }
    ensures { result.now ≡ bytes.now }
{
    match str::from_utf8(bytes) {
        Ok(text) => text,
        Err(_) => unreachable!(),
    }
}

/// A name as a text.
pub(crate) fn name_text(name: &Name) -> &str
    ensures { result.now ≡ name.now }
{
    as_text(name.bytes())
}

/// A subject as a text.
pub(crate) fn subject_text(subject: &Subject) -> &str
    ensures { result.now ≡ subject.now }
{
    as_text(subject.bytes())
}

/// Bytes as a text of base64.
pub(crate) fn base64_value(alloc: Global, bytes: &[u8]) -> Result<Value, AllocError>
    ensures { IfOk result (λ value. view value ≡ base64_data bytes.now) }
{
    Ok(Value::String(STANDARD.encode(alloc, bytes)?))
}

/// The text of a moment.
pub(crate) fn moment_value(alloc: Global, time: u64) -> Result<Value, NoMemory>
    ensures { IfOk result (λ value. view value ≡ moment_data time) }
{
    let text = moment_text(alloc, time)?;
    Ok(Value::try_from_str(alloc, as_text(text.as_slice()))?)
}
