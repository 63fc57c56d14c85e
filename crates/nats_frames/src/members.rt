//! The JSON of CONNECT and of INFO, as it is read.
ghost use Rattle.std.specs.Prelude.{◌≡◌, None, Some, if◌then◌else◌, option_map, option_and_then, IfOk};
ghost use Rattle.std.specs.Str.{is_utf8};
ghost use Rattle.serde_json.specs.Find.{get, as_str};
ghost use Rattle.serde_json.specs.Read.{read};
ghost use Rattle.serde_json.specs.View.{view};
ghost use Rattle.nats_text.specs.Text.{is_name};
ghost use Rattle.nats_frames.specs.Json.{if_object, object_of, switch_at, flag_at, text_at, name_at, whole_at, small_at, connect_of, numbers_of, server_of};

use crate::{ClientFrame, ServerInfo};
use nats_text::{Bytes, Name, NoMemory, TextFault};
use serde_json::Value;
use std::alloc::Global;

/// The object of a text in UTF-8, if it is one. Of two members of one name the last counts.
pub fn object_of(alloc: Global, text: &[u8]) -> Result<Option<Value>, NoMemory>
    ensures { IfOk result (λ it. option_map view it ≡ object_of text.now) }
{
    let value = data_of(alloc, text)?;
    Ok(object_in(value))
}

fn object_in(value: Option<Value>) -> Option<Value>
    ensures { option_map view result ≡ option_and_then if_object (option_map view value) }
{
    match value {
        Some(value) => if_object(value),
        None => None,
    }
}

// The JSON of a text in UTF-8, if it is JSON.
fn data_of(alloc: Global, text: &[u8]) -> Result<Option<Value>, NoMemory>
    ensures { IfOk result (λ it. option_map view it ≡ if is_utf8 text.now then read text.now else None) }
{
    match Value::from_slice(alloc, text) {
        Ok(value) => Ok(Some(value)),
        Err(error) => {
            if error.is_memory() {
                Err(NoMemory)
            } else {
                Ok(None)
            }
        }
    }
}

fn if_object(value: Value) -> Option<Value>
    ensures { option_map view result ≡ if_object (view value) }
{
    if value.is_object() {
        Some(value)
    } else {
        drop(value);
        None
    }
}

/// A switch, which is as given where it is absent.
pub fn switch_at(value: &Value, name: &str, absent: bool) -> Option<bool>
    ensures { result ≡ switch_at name.now absent (view value.now) }
{
    match value.get(name) {
        Some(member) => member.as_bool(),
        None => Some(absent),
    }
}

fn flag_at(value: &Value, name: &str) -> Option<bool>
    ensures { result ≡ flag_at name.now (view value.now) }
{
    value.get(name)?.as_bool()
}

fn str_at<'a>(value: &'a Value, name: &str) -> Option<&'a str>
    ensures { option_map (λ text. text.now) result ≡ option_and_then as_str (get name.now (view value.now)) }
{
    value.get(name)?.as_str()
}

fn text_at(alloc: Global, value: &Value, name: &str) -> Result<Option<Bytes>, NoMemory>
    ensures { IfOk result (λ text. text ≡ text_at name.now (view value.now)) }
{
    match str_at(value, name) {
        Some(text) => copied_text(alloc, text),
        None => Ok(None),
    }
}

fn copied_text(alloc: Global, text: &str) -> Result<Option<Bytes>, NoMemory>
    ensures { IfOk result (λ copy. copy ≡ if is_utf8 text.now then Some text.now else None) }
{
    Ok(Some(Bytes::from_slice(alloc, text.as_bytes())?))
}

/// The member that is the name of a node or a server.
pub fn name_at(alloc: Global, value: &Value, name: &str) -> Result<Option<Name>, NoMemory>
    ensures { IfOk result (λ it. it ≡ name_at name.now (view value.now)) }
{
    let Some(text) = str_at(value, name) else {
        return Ok(None);
    };
    read_name(alloc, text.as_bytes())
}

fn read_name(alloc: Global, text: &[u8]) -> Result<Option<Name>, NoMemory>
    ensures { IfOk result (λ it. it ≡ if is_name text.now then Some text.now else None) }
{
    match Name::read(alloc, text) {
        Ok(name) => Ok(Some(name)),
        Err(TextFault::Bad { place: _ }) => Ok(None),
        Err(TextFault::NoMemory) => Err(NoMemory),
    }
}

fn whole_at(value: &Value, name: &str) -> Option<u64>
    ensures { result ≡ whole_at name.now (view value.now) }
{
    value.get(name)?.as_u64()
}

fn small_at(value: &Value, name: &str) -> Option<u32>
    ensures { result ≡ small_at name.now (view value.now) }
{
    let number = whole_at(value, name)?;
    if number <= u32::MAX as u64 {
        Some(number as u32)
    } else {
        None
    }
}

/// The options of a client: members of other names are ignored.
pub(crate) fn connect_of(value: &Value) -> Option<ClientFrame>
    ensures { result ≡ connect_of (view value.now) }
{
    let verbose = switch_at(value, "verbose", true)?;
    let headers = switch_at(value, "headers", false)?;
    let no_responders = switch_at(value, "no_responders", false)?;
    let echo = switch_at(value, "echo", true)?;
    Some(ClientFrame::Connect {
        verbose,
        headers,
        no_responders,
        echo,
    })
}

/// What a server tells of itself: all nine members have to stand, and others are ignored.
pub(crate) fn server_of(alloc: Global, value: &Value) -> Result<Option<ServerInfo>, NoMemory>
    ensures { IfOk result (λ info. info ≡ server_of (view value.now)) }
{
    let Some(server_id) = name_at(alloc, value, "server_id")? else {
        return Ok(None);
    };
    let Some(server_name) = name_at(alloc, value, "server_name")? else {
        return Ok(None);
    };
    let Some(version) = text_at(alloc, value, "version")? else {
        return Ok(None);
    };
    let Some(go) = text_at(alloc, value, "go")? else {
        return Ok(None);
    };
    let Some(host) = text_at(alloc, value, "host")? else {
        return Ok(None);
    };
    Ok(numbers_of(server_id, server_name, version, go, host, value))
}

// The numbers of a server beside its texts.
fn numbers_of(
    server_id: Name,
    server_name: Name,
    version: Bytes,
    go: Bytes,
    host: Bytes,
    value: &Value,
) -> Option<ServerInfo>
    ensures { result ≡ numbers_of server_id server_name version go host (view value.now) }
{
    let port = small_at(value, "port")?;
    let headers = flag_at(value, "headers")?;
    let max_payload = whole_at(value, "max_payload")?;
    let proto = small_at(value, "proto")?;
    Some(ServerInfo {
        server_id,
        server_name,
        version,
        go,
        host,
        port,
        headers,
        max_payload,
        proto,
    })
}
