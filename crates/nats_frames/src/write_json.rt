//! The JSON of CONNECT and of INFO, as it is written.
ghost use Rattle.std.specs.Prelude.{◌≡◌, ◌++◌, false, IfOk, OnOk, OnErr};
ghost use Rattle.std.specs.Str.{IsUtf8};
ghost use Rattle.serde_json.specs.View.{view};
ghost use Rattle.serde_json.specs.Written.{compact_text, has_float};
ghost use Rattle.nats_text.specs.Headers.{Extends};
ghost use Rattle.nats_frames.specs.Texts.{HasTexts, line_of};
ghost use Rattle.nats_frames.specs.Json.{connect_data, info_data};

use crate::write::append;
use crate::{ClientFrame, ServerInfo};
use nats_text::{Name, NoMemory};
use serde_json::{Value, json};
use std::alloc::{AllocError, Global};

pub(crate) fn append_connect(
    buf: &mut Vec<u8>,
    verbose: bool,
    headers: bool,
    no_responders: bool,
    echo: bool,
) -> Result<(), NoMemory>
    ensures ok { OnOk result (buf.new.items ≡ buf.old.items ++ line_of (ClientFrame.Connect verbose headers no_responders echo)) }
    ensures err { OnErr result (Extends buf.old.items buf.new.items) }
{
    append(buf, b"CONNECT ")?;
    let value = connect_value(*buf.allocator(), verbose, headers, no_responders, echo)?;
    append_json(buf, &value)
}

fn connect_value(
    alloc: Global,
    verbose: bool,
    headers: bool,
    no_responders: bool,
    echo: bool,
) -> Result<Value, AllocError>
    ensures { IfOk result (λ value. view value ≡ connect_data verbose headers no_responders echo) }
{
    json!(in alloc; {
        "echo": echo,
        "headers": headers,
        "no_responders": no_responders,
        "verbose": verbose
    })
}

pub(crate) fn append_info(buf: &mut Vec<u8>, info: &ServerInfo) -> Result<(), NoMemory>
    requires { HasTexts (ClientFrame.Info info.now) }
    ensures ok { OnOk result (buf.new.items ≡ buf.old.items ++ line_of (ClientFrame.Info info.now)) }
    ensures err { OnErr result (Extends buf.old.items buf.new.items) }
{
    append(buf, b"INFO ")?;
    let value = info_value(*buf.allocator(), info)?;
    append_json(buf, &value)
}

fn info_value(alloc: Global, info: &ServerInfo) -> Result<Value, AllocError>
    requires { HasTexts (ClientFrame.Info info.now) }
    ensures { IfOk result (λ value. view value ≡ info_data info.now) }
{
    json!(in alloc; {
        "go": as_text(info.go.as_slice()),
        "headers": info.headers,
        "host": as_text(info.host.as_slice()),
        "max_payload": info.max_payload,
        "port": info.port,
        "proto": info.proto,
        "server_id": name_text(&info.server_id),
        "server_name": name_text(&info.server_name),
        "version": as_text(info.version.as_slice())
    })
}

/// A name as a text.
pub fn name_text(name: &Name) -> &str
    ensures { result.now ≡ name.now }
{
    as_text(name.bytes())
}

// Bytes that are UTF-8, as a text.
fn as_text(bytes: &[u8]) -> &str
    requires { IsUtf8 bytes.now }
    ensures { result.now ≡ bytes.now }
{
    match str::from_utf8(bytes) {
        Ok(text) => text,
        Err(_) => unreachable!(),
    }
}

/// The text of JSON without fractions.
pub fn append_json(buf: &mut Vec<u8>, value: &Value) -> Result<(), NoMemory>
    requires { has_float (view value.now) ≡ false }
    ensures ok { OnOk result (buf.new.items ≡ buf.old.items ++ compact_text (view value.now)) }
    ensures err { OnErr result (buf.new.items ≡ buf.old.items) }
{
    let text = value.to_string(*buf.allocator())?;
    append(buf, text.as_bytes())
}
