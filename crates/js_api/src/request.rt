//! Which request a subject and its payload are.
ghost use Rattle.std.specs.Prelude.{◌≡◌, Err, option_map, option_and_then, IfOk};
ghost use Rattle.serde_json.specs.View.{view};
ghost use Rattle.config_json.specs.Answers.{IsRead};
ghost use Rattle.config_json.specs.declared.fault.ApiFault.TheVariants.{NotForClients};
ghost use Rattle.js_api.specs.declared.call.ApiCall.TheVariants.{Names, Get as GetCall};
ghost use Rattle.js_api.specs.declared.topic.Verb.TheVariants.{Create, Update, Purge, Get};
ghost use Rattle.js_api.specs.Requests.{IsReadAs, payload_of, offset_of, which_of, if_object, object_of, purge_of, deletion_of, config_named, or_bad, read_about, read_object, is_internal, read_topic, request_of};

use crate::members::{below_of, filter_of, is_named, keeps_none, offset_of, seq_of, which_of};
use crate::topic::{Topic, Verb, topic_of};
use crate::{ApiCall, ApiFault};
use config_json::{config_of_value, value_of_json};
use nats_text::{Bytes, Name, NoMemory, Subject};
use serde_json::{Map, Value};
use std::alloc::Global;
use stream_fold::Config;

/// The request that a subject and its payload are. `NotApi` comes exactly where the subject isn't one of the
/// API, `NotForClients` exactly where it is the one under which consumers are made, and else `BadRequest` or
/// `BadConfig` where the payload isn't what the request takes.
///
/// A payload is a JSON object, and no bytes at all count as one without members. Of two members of one name
/// the last counts, and members that a request doesn't know are ignored.
pub fn read_request(alloc: Global, subject: &Subject, payload: &[u8]) -> Result<ApiCall, ApiFault>
    ensures { IsRead result (request_of subject.now payload.now) }
{
    match topic_of(alloc, subject.bytes())? {
        Some(topic) => read_topic(alloc, topic, payload),
        None => Err(ApiFault::NotApi),
    }
}

fn is_internal(topic: &Topic) -> bool
    ensures { result ≡ is_internal topic.now }
{
    matches!(
        topic,
        Topic::Stream {
            verb: Verb::Consumer,
            ..
        }
    )
}

/// The object that a payload is, where its subject is one for clients.
fn payload_of(alloc: Global, topic: &Topic, payload: &[u8]) -> Result<Value, ApiFault>
    ensures { IsReadAs view result (payload_of topic.now payload.now) }
{
    if is_internal(topic) {
        return Err(ApiFault::NotForClients);
    }
    match object_of(alloc, payload)? {
        Some(value) => Ok(value),
        None => Err(ApiFault::BadRequest),
    }
}

fn read_topic(alloc: Global, topic: Topic, payload: &[u8]) -> Result<ApiCall, ApiFault>
    ensures { IsRead result (read_topic topic payload.now) }
{
    match payload_of(alloc, &topic, payload) {
        Ok(value) => read_object(alloc, topic, &value),
        Err(fault) => refused(topic, fault),
    }
}

/// Lets a request go that is refused.
fn refused(topic: Topic, fault: ApiFault) -> Result<ApiCall, ApiFault>
    ensures { result ≡ Err fault }
{
    drop(topic);
    Err(fault)
}

/// The object that a payload is.
fn object_of(alloc: Global, payload: &[u8]) -> Result<Option<Value>, NoMemory>
    ensures { IfOk result (λ it. option_map view it ≡ object_of payload.now) }
{
    if payload.is_empty() {
        return Ok(Some(Value::Object(Map::new(alloc))));
    }
    Ok(object_in(value_of_json(alloc, payload)?))
}

fn object_in(value: Option<Value>) -> Option<Value>
    ensures { option_map view result ≡ option_and_then if_object (option_map view value) }
{
    match value {
        Some(value) => if_object(value),
        None => None,
    }
}

fn if_object(value: Value) -> Option<Value>
    ensures { option_map view result ≡ if_object (view value) }
{
    if value.is_object() {
        Some(value)
    } else {
        drop(value);
        None
    }
}

fn read_object(alloc: Global, topic: Topic, value: &Value) -> Result<ApiCall, ApiFault>
    ensures { IsRead result (read_object topic (view value.now)) }
{
    match topic {
        Topic::Names => or_bad(names_of(value)),
        Topic::Stream { verb, name } => read_about(alloc, verb, name, value),
    }
}

fn names_of(value: &Value) -> Option<ApiCall>
    ensures { result ≡ option_map (λ n. Names n) (offset_of (view value.now)) }
{
    let offset = offset_of(value)?;
    Some(ApiCall::Names { offset })
}

fn or_bad(call: Option<ApiCall>) -> Result<ApiCall, ApiFault>
    ensures { IsRead result (or_bad call) }
{
    match call {
        Some(call) => Ok(call),
        None => Err(ApiFault::BadRequest),
    }
}

fn read_about(alloc: Global, verb: Verb, name: Name, value: &Value) -> Result<ApiCall, ApiFault>
    ensures { IsRead result (read_about verb name (view value.now)) }
{
    match verb {
        Verb::Create => read_create(alloc, name, value),
        Verb::Update => read_update(alloc, name, value),
        Verb::Remove => Ok(ApiCall::Remove(name)),
        Verb::Info => Ok(ApiCall::Info(name)),
        Verb::Purge => read_purge(alloc, name, value),
        Verb::Get => read_get(alloc, name, value),
        Verb::Delete => or_bad(deletion_of(name, value)),
        Verb::Consumer => not_for_clients(name),
    }
}

fn not_for_clients(name: Name) -> Result<ApiCall, ApiFault>
    ensures { result ≡ Err NotForClients }
{
    drop(name);
    Err(ApiFault::NotForClients)
}

fn read_create(alloc: Global, name: Name, value: &Value) -> Result<ApiCall, ApiFault>
    ensures { IsRead result (read_about Create name (view value.now)) }
{
    let config = config_named(alloc, name, value)?;
    Ok(ApiCall::Create(config))
}

fn read_update(alloc: Global, name: Name, value: &Value) -> Result<ApiCall, ApiFault>
    ensures { IsRead result (read_about Update name (view value.now)) }
{
    let config = config_named(alloc, name, value)?;
    Ok(ApiCall::Update(config))
}

fn read_purge(alloc: Global, name: Name, value: &Value) -> Result<ApiCall, ApiFault>
    ensures { IsRead result (read_about Purge name (view value.now)) }
{
    let call = purge_of(alloc, name, value)?;
    or_bad(call)
}

fn read_get(alloc: Global, name: Name, value: &Value) -> Result<ApiCall, ApiFault>
    ensures { IsRead result (read_about Get name (view value.now)) }
{
    let call = get_of(alloc, name, value)?;
    or_bad(call)
}

/// The configuration of a stream of this name.
fn config_named(alloc: Global, name: Name, value: &Value) -> Result<Config, ApiFault>
    ensures { IsRead result (config_named name (view value.now)) }
{
    if is_named(&name, value) {
        config_of_value(alloc, value)
    } else {
        Err(ApiFault::BadConfig {
            member: Bytes::from_slice(alloc, b"name")?,
        })
    }
}

fn purge_of(alloc: Global, name: Name, value: &Value) -> Result<Option<ApiCall>, NoMemory>
    ensures { IfOk result (λ it. it ≡ purge_of name (view value.now)) }
{
    if !keeps_none(value) {
        return Ok(None);
    }
    let Some(below) = below_of(value) else {
        return Ok(None);
    };
    let Some(pattern) = filter_of(alloc, value)? else {
        return Ok(None);
    };
    Ok(Some(ApiCall::Purge {
        name,
        pattern,
        below,
    }))
}

fn get_of(alloc: Global, name: Name, value: &Value) -> Result<Option<ApiCall>, NoMemory>
    ensures { IfOk result (λ it. it ≡ option_map (λ which. GetCall name which) (which_of (view value.now))) }
{
    let Some(which) = which_of(alloc, value)? else {
        return Ok(None);
    };
    Ok(Some(ApiCall::Get { name, which }))
}

fn deletion_of(name: Name, value: &Value) -> Option<ApiCall>
    ensures { result ≡ deletion_of name (view value.now) }
{
    let seq = seq_of(value)?;
    Some(ApiCall::Delete { name, seq })
}
