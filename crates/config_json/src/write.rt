//! A configuration, as it is written.
ghost use Rattle.std.specs.Prelude.{◌≡◌, false, true, map, codes, IfOk, OnOk};
ghost use Rattle.std.specs.List.{list_all};
ghost use Rattle.std.specs.Option.{option_map_or};
ghost use Rattle.std.specs.Str.{IsUtf8};
ghost use Rattle.serde_json.specs.Data.{array, object, string, member as json_member, no_members, put as with_member};
ghost use Rattle.serde_json.specs.View.{view, items_of, members_view};
ghost use Rattle.serde_json.specs.Written.{compact_text, has_float};
ghost use Rattle.moments.specs.Moments.{moment_text};
ghost use Rattle.config_json.specs.Origins.{api_of};
ghost use Rattle.config_json.specs.Writing.{config_data, config_text, copies_are_text, discard_data, is_text, limit_data, limit_members, mapping_data, mapping_is_text, origin_data, origin_is_text, with_copies, with_filter, with_maps, with_node, with_start, with_transform, with_words};

use crate::origin::api_of;
use moments::moment_text;
use nats_text::{Bytes, Mapping, Name, NoMemory, Origin, Pattern, Start};
use serde_json::{Map, Value, json, push, put};
use std::alloc::{AllocError, Global};
use stream_fold::{Config, Copies, Discard};

/// Bytes that are UTF-8, as a text.
fn as_text(bytes: &[u8]) -> &str
    requires { IsUtf8 bytes.now }
    ensures { result.now ≡ bytes.now }
{
    match str::from_utf8(bytes) {
        Ok(text) => text,
        Err(_) => unreachable!(),
    }
}

fn limit_value(limit: u64) -> Value
    ensures { view result ≡ limit_data limit }
{
    if limit == 0 {
        Value::from(-1i64)
    } else {
        Value::from(limit)
    }
}

fn discard_value(alloc: Global, discard: Discard) -> Result<Value, AllocError>
    ensures { IfOk result (λ value. view value ≡ discard_data discard) }
{
    match discard {
        Discard::Old => Value::try_from_str(alloc, "old"),
        Discard::New => Value::try_from_str(alloc, "new"),
    }
}

fn name_value(alloc: Global, name: &Name) -> Result<Value, AllocError>
    ensures { IfOk result (λ value. view value ≡ string name.now) }
{
    Value::try_from_str(alloc, as_text(name.bytes()))
}

fn pattern_value(alloc: Global, pattern: &Pattern) -> Result<Value, AllocError>
    ensures { IfOk result (λ value. view value ≡ string pattern.now) }
{
    Value::try_from_str(alloc, as_text(pattern.bytes()))
}

fn patterns_value(alloc: Global, patterns: &[Pattern]) -> Result<Value, AllocError>
    ensures { IfOk result (λ value. view value ≡ array (items_of (map string patterns.now))) }
{
    let mut values = Vec::new(alloc);
    for pattern in patterns {
        let value = pattern_value(alloc, pattern)?;
        push(&mut values, value)?;
    }
    Ok(Value::Array(values))
}

fn mapping_value(alloc: Global, mapping: &Mapping) -> Result<Value, AllocError>
    requires { mapping_is_text mapping.now ≡ true }
    ensures { IfOk result (λ value. view value ≡ mapping_data mapping.now) }
{
    json!(in alloc; {
        "dest": as_text(mapping.dest.as_slice()),
        "src": as_text(mapping.src.as_slice())
    })
}

fn maps_value(alloc: Global, maps: &[Mapping]) -> Result<Value, AllocError>
    requires { list_all mapping_is_text maps.now ≡ true }
    ensures { IfOk result (λ value. view value ≡ array (items_of (map mapping_data maps.now))) }
{
    let mut values = Vec::new(alloc);
    for mapping in maps {
        let value = mapping_value(alloc, mapping)?;
        push(&mut values, value)?;
    }
    Ok(Value::Array(values))
}

fn put_text(
    members: &mut Map<String, Value>,
    alloc: Global,
    key: &str,
    text: &str,
) -> Result<(), AllocError>
    ensures { OnOk result (members_view members.new.entries ≡ with_member key.now (string text.now) (members_view members.old.entries)) }
{
    let value = Value::try_from_str(alloc, text)?;
    put(members, alloc, key, value)
}

fn external_value(alloc: Global, node: &Name) -> Result<Value, NoMemory>
    ensures { IfOk result (λ value. view value ≡ object (json_member (codes "api") (string (api_of node.now)) no_members)) }
{
    let api = api_of(alloc, node)?;
    Ok(json!(in alloc; { "api": as_text(api.as_slice()) })?)
}

fn put_node(
    members: &mut Map<String, Value>,
    alloc: Global,
    node: &Option<Name>,
) -> Result<(), NoMemory>
    ensures { OnOk result (members_view members.new.entries ≡ with_node node.now (members_view members.old.entries)) }
{
    if let Some(node) = node {
        let value = external_value(alloc, node)?;
        put(members, alloc, "external", value)?;
    }
    Ok(())
}

fn put_filter(
    members: &mut Map<String, Value>,
    alloc: Global,
    filter: &Option<Pattern>,
) -> Result<(), NoMemory>
    ensures { OnOk result (members_view members.new.entries ≡ with_filter filter.now (members_view members.old.entries)) }
{
    if let Some(filter) = filter {
        let value = pattern_value(alloc, filter)?;
        put(members, alloc, "filter_subject", value)?;
    }
    Ok(())
}

fn moment_value(alloc: Global, time: u64) -> Result<Value, NoMemory>
    ensures { IfOk result (λ value. view value ≡ string (moment_text time)) }
{
    let text = moment_text(alloc, time)?;
    Ok(Value::try_from_str(alloc, as_text(text.as_slice()))?)
}

fn put_start(members: &mut Map<String, Value>, alloc: Global, start: Start) -> Result<(), NoMemory>
    ensures { OnOk result (members_view members.new.entries ≡ with_start start (members_view members.old.entries)) }
{
    match start {
        Start::Seq(seq) => put(members, alloc, "opt_start_seq", Value::from(seq))?,
        Start::Time(time) => {
            let text = moment_value(alloc, time)?;
            put(members, alloc, "opt_start_time", text)?;
        }
    }
    Ok(())
}

fn put_maps(
    members: &mut Map<String, Value>,
    alloc: Global,
    maps: &[Mapping],
) -> Result<(), NoMemory>
    requires { list_all mapping_is_text maps.now ≡ true }
    ensures { OnOk result (members_view members.new.entries ≡ with_maps maps.now (members_view members.old.entries)) }
{
    if maps.is_empty() {
        return Ok(());
    }
    let value = maps_value(alloc, maps)?;
    put(members, alloc, "subject_transforms", value)?;
    Ok(())
}

fn origin_value(alloc: Global, origin: &Origin) -> Result<Value, NoMemory>
    requires { origin_is_text origin.now ≡ true }
    ensures { IfOk result (λ value. view value ≡ origin_data origin.now) }
{
    let mut members = Map::new(alloc);
    put_node(&mut members, alloc, &origin.node)?;
    put_filter(&mut members, alloc, &origin.filter)?;
    let stream = name_value(alloc, &origin.stream)?;
    put(&mut members, alloc, "name", stream)?;
    put_start(&mut members, alloc, origin.start)?;
    put_maps(&mut members, alloc, origin.maps.as_slice())?;
    Ok(Value::Object(members))
}

fn origins_value(alloc: Global, origins: &[Origin]) -> Result<Value, NoMemory>
    requires { list_all origin_is_text origins.now ≡ true }
    ensures { IfOk result (λ value. view value ≡ array (items_of (map origin_data origins.now))) }
{
    let mut values = Vec::new(alloc);
    for origin in origins {
        let value = origin_value(alloc, origin)?;
        push(&mut values, value)?;
    }
    Ok(Value::Array(values))
}

fn limit_members(alloc: Global, config: &Config) -> Result<Map<String, Value>, AllocError>
    ensures { IfOk result (λ members. members_view members.entries ≡ limit_members config.now) }
{
    let mut members = Map::new(alloc);
    let discard = discard_value(alloc, config.discard)?;
    put(&mut members, alloc, "discard", discard)?;
    let window = Value::from(config.window);
    put(&mut members, alloc, "duplicate_window", window)?;
    put(&mut members, alloc, "max_age", Value::from(config.max_age))?;
    let max_bytes = limit_value(config.max_bytes);
    put(&mut members, alloc, "max_bytes", max_bytes)?;
    let max_msg_size = limit_value(config.max_msg_size);
    put(&mut members, alloc, "max_msg_size", max_msg_size)?;
    let max_msgs = limit_value(config.max_msgs);
    put(&mut members, alloc, "max_msgs", max_msgs)?;
    let max_per_subject = limit_value(config.max_per_subject);
    put(&mut members, alloc, "max_msgs_per_subject", max_per_subject)?;
    Ok(members)
}

/// Adds the other members that are always there.
fn put_words(
    members: &mut Map<String, Value>,
    alloc: Global,
    config: &Config,
) -> Result<(), AllocError>
    ensures { OnOk result (members_view members.new.entries ≡ with_words config.now (members_view members.old.entries)) }
{
    let name = name_value(alloc, &config.name)?;
    put(members, alloc, "name", name)?;
    put(members, alloc, "num_replicas", Value::from(1u64))?;
    put_text(members, alloc, "retention", "limits")?;
    put_text(members, alloc, "storage", "file")?;
    let subjects = patterns_value(alloc, config.subjects.as_slice())?;
    put(members, alloc, "subjects", subjects)
}

fn put_copies(
    members: &mut Map<String, Value>,
    alloc: Global,
    copies: &Copies,
) -> Result<(), NoMemory>
    requires { copies_are_text copies.now ≡ true }
    ensures { OnOk result (members_view members.new.entries ≡ with_copies copies.now (members_view members.old.entries)) }
{
    match copies {
        Copies::Nothing => {}
        Copies::Mirror(origin) => {
            let value = origin_value(alloc, origin)?;
            put(members, alloc, "mirror", value)?;
        }
        Copies::Sources(origins) => {
            let value = origins_value(alloc, origins.as_slice())?;
            put(members, alloc, "sources", value)?;
        }
    }
    Ok(())
}

fn put_transform(
    members: &mut Map<String, Value>,
    alloc: Global,
    transform: &Option<Mapping>,
) -> Result<(), NoMemory>
    requires { option_map_or mapping_is_text transform.now true ≡ true }
    ensures { OnOk result (members_view members.new.entries ≡ with_transform transform.now (members_view members.old.entries)) }
{
    if let Some(transform) = transform {
        let value = mapping_value(alloc, transform)?;
        put(members, alloc, "subject_transform", value)?;
    }
    Ok(())
}

fn config_object(alloc: Global, config: &Config) -> Result<Value, NoMemory>
    requires { is_text config.now ≡ true }
    ensures { IfOk result (λ value. view value ≡ config_data config.now) }
{
    let mut members = limit_members(alloc, config)?;
    put_words(&mut members, alloc, config)?;
    put_copies(&mut members, alloc, &config.copies)?;
    put_transform(&mut members, alloc, &config.transform)?;
    Ok(Value::Object(members))
}

/// The JSON of a configuration: a member of an answer of JetStream's API. All members from `name` to
/// `duplicate_window` stand in it, with -1 for no limit but 0 for no age, and of the others those
/// that the configuration has. [`has_texts`](crate::has_texts) tells the condition.
pub fn config_value(alloc: Global, config: &Config) -> Result<Value, NoMemory>
    requires { is_text config.now ≡ true }
    ensures value { IfOk result (λ value. view value ≡ config_data config.now) }
    ensures plain { IfOk result (λ value. has_float (view value) ≡ false) }
{
    let value = config_object(alloc, config)?;
    Ok(value)
}

/// The text of JSON without fractions.
fn text_of(alloc: Global, value: &Value) -> Result<Bytes, NoMemory>
    requires { has_float (view value.now) ≡ false }
    ensures { IfOk result (λ text. text ≡ compact_text (view value.now)) }
{
    let text = value.to_string(alloc)?;
    Ok(Bytes::from_vec(text.into_bytes()))
}

/// The text of a configuration: its JSON without blanks, with the members in byte order of their names.
/// [`has_texts`](crate::has_texts) tells the condition.
pub fn config_to_json(alloc: Global, config: &Config) -> Result<Bytes, NoMemory>
    requires { is_text config.now ≡ true }
    ensures { IfOk result (λ text. text ≡ config_text config.now) }
{
    let value = config_value(alloc, config)?;
    text_of(alloc, &value)
}
