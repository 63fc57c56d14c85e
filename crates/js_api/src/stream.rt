//! The JSON of a stream: its configuration and what is told of its messages.
ghost use Rattle.std.specs.Prelude.{◌≡◌, true, false, codes, IfOk, OnOk};
ghost use Rattle.serde_json.specs.View.{view, members_view};
ghost use Rattle.serde_json.specs.Written.{compact_text, has_float};
ghost use Rattle.config_json.specs.Writing.{config_data, is_text};
ghost use Rattle.js_api.specs.Answers.{state_data, flag_put, stream_data};

use crate::StateFacts;
use crate::text::{moment_value, text_of};
use config_json::config_value;
use nats_text::{Bytes, NoMemory};
use serde_json::{Map, Value, json, put};
use std::alloc::{AllocError, Global};
use stream_fold::Config;

fn state_value(alloc: Global, facts: &StateFacts) -> Result<Value, AllocError>
    ensures { IfOk result (λ value. view value ≡ state_data facts.now) }
{
    json!(in alloc; {
        "bytes": facts.bytes,
        "consumer_count": facts.consumers,
        "first_seq": facts.first,
        "last_seq": facts.last,
        "messages": facts.count
    })
}

/// Adds whether a stream was made, where that is told.
fn put_creation(
    members: &mut Map<String, Value>,
    alloc: Global,
    created: Option<bool>,
) -> Result<(), AllocError>
    ensures { OnOk result (members_view members.new.entries ≡ flag_put (codes "did_create") created (members_view members.old.entries)) }
{
    if let Some(created) = created {
        put(members, alloc, "did_create", Value::Bool(created))?;
    }
    Ok(())
}

/// A stream: its configuration and what is told of its messages.
fn stream_value(
    alloc: Global,
    config: &Config,
    facts: &StateFacts,
    created: Option<bool>,
    kind: &str,
) -> Result<Value, NoMemory>
    requires { is_text config.now ≡ true }
    ensures value { IfOk result (λ value. view value ≡ stream_data config.now facts.now created kind.now) }
    ensures plain { IfOk result (λ _. has_float (config_data config.now) ≡ false) }
{
    let mut members = Map::new(alloc);
    let config = config_value(alloc, config)?;
    put(&mut members, alloc, "config", config)?;
    let moment = moment_value(alloc, facts.created)?;
    put(&mut members, alloc, "created", moment)?;
    put_creation(&mut members, alloc, created)?;
    let state = state_value(alloc, facts)?;
    put(&mut members, alloc, "state", state)?;
    let kind = Value::try_from_str(alloc, kind)?;
    put(&mut members, alloc, "type", kind)?;
    Ok(Value::Object(members))
}

/// `{"config":{..},"created":..,"did_create":..,"state":{..},"type":..}`.
pub(crate) fn stream_text(
    alloc: Global,
    config: &Config,
    facts: &StateFacts,
    created: Option<bool>,
    kind: &str,
) -> Result<Bytes, NoMemory>
    requires { is_text config.now ≡ true }
    ensures { IfOk result (λ text. text ≡ compact_text (stream_data config.now facts.now created kind.now)) }
{
    let value = stream_value(alloc, config, facts, created, kind)?;
    text_of(alloc, &value)
}
