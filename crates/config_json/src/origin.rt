//! The origins of mirrors and sources.
ghost use Rattle.std.specs.Prelude.{◌≡◌, codes, IfOk};
ghost use Rattle.std.specs.Str.{IsUtf8};
ghost use Rattle.serde_json.specs.Find.{get};
ghost use Rattle.serde_json.specs.View.{view, items_view};
ghost use Rattle.config_json.specs.Answers.{IsRead};
ghost use Rattle.config_json.specs.Others.{maybe, number_of, pattern_of};
ghost use Rattle.config_json.specs.Origins.{api_of, between, choice_in, external_of, node_at_last, node_from, origin_from, origin_of, origins_of, place_in, start_in, time_of};

use crate::ApiFault;
use crate::fault::bad;
use crate::mapping::{maps_in, text_at};
use crate::others::other_in;
use crate::value::{is_absent_or_word, name_from, name_in, number_of, pattern_of};
use moments::moment_of;
use nats_text::{Bytes, List, Mapping, Name, NoMemory, Origin, Pattern, Start};
use serde_json::Value;
use std::alloc::Global;

/// The members that an origin may have.
const MEMBERS: [&str; 6] = [
    "name",
    "opt_start_seq",
    "opt_start_time",
    "filter_subject",
    "subject_transforms",
    "external",
];

fn seq_in(value: &Value) -> Option<Option<u64>>
    ensures { result ≡ maybe number_of (get (codes "opt_start_seq") (view value.now)) }
{
    match value.get("opt_start_seq") {
        Some(member) => Some(Some(number_of(member)?)),
        None => Some(None),
    }
}

fn time_of(value: &Value) -> Option<u64>
    ensures { result ≡ time_of (view value.now) }
{
    let time = moment_of(value.as_str()?)?;
    if time < 1 << 63 { Some(time) } else { None }
}

fn start_in(seq: Option<u64>, value: &Value) -> Option<Start>
    ensures { result ≡ start_in seq (get (codes "opt_start_time") (view value.now)) }
{
    match (seq, value.get("opt_start_time")) {
        (None, None) => Some(Start::Seq(1)),
        (Some(seq), None) => Some(Start::Seq(seq)),
        (None, Some(member)) => Some(Start::Time(time_of(member)?)),
        (Some(_), Some(_)) => None,
    }
}

fn filter_in(alloc: Global, value: &Value) -> Result<Option<Option<Pattern>>, NoMemory>
    ensures { IfOk result (λ f. f ≡ maybe pattern_of (get (codes "filter_subject") (view value.now))) }
{
    let Some(member) = value.get("filter_subject") else {
        return Ok(Some(None));
    };
    match pattern_of(alloc, member)? {
        Some(pattern) => Ok(Some(Some(pattern))),
        None => Ok(None),
    }
}

/// What stands between the first four bytes of a text and its last four.
fn between(text: &[u8]) -> &[u8]
    ensures { result.now ≡ between text.now }
{
    if text.len() < 8 {
        return &[];
    }
    &text[4..text.len() - 4]
}

/// The subjects of a node's API, `$JS.<node>.API`.
pub(crate) fn api_of(alloc: Global, node: &Name) -> Result<Bytes, NoMemory>
    ensures value { IfOk result (λ text. text ≡ api_of node.now) }
    ensures text { IfOk result (λ text. IsUtf8 text) }
{
    let mut text = Vec::new(alloc);
    text.extend_from_slice(b"$JS.")?;
    text.extend_from_slice(node.bytes())?;
    text.extend_from_slice(b".API")?;
    Ok(Bytes::from_vec(text))
}

/// The node whose API has these subjects.
fn node_from(alloc: Global, text: &[u8]) -> Result<Option<Name>, NoMemory>
    ensures { IfOk result (λ n. n ≡ node_from text.now) }
{
    let Some(node) = name_from(alloc, between(text))? else {
        return Ok(None);
    };
    let api = api_of(alloc, &node)?;
    if text == api.as_slice() {
        Ok(Some(node))
    } else {
        Ok(None)
    }
}

fn external_of(alloc: Global, value: &Value) -> Result<Option<Name>, NoMemory>
    ensures { IfOk result (λ n. n ≡ external_of (view value.now)) }
{
    if other_in(&["api", "deliver"], value).is_some() {
        return Ok(None);
    }
    if !is_absent_or_word(value, "deliver", "") {
        return Ok(None);
    }
    match text_at(value, "api") {
        Some(text) => node_from(alloc, text.as_bytes()),
        None => Ok(None),
    }
}

fn node_in(alloc: Global, value: &Value) -> Result<Option<Option<Name>>, NoMemory>
    ensures { IfOk result (λ n. n ≡ maybe external_of (get (codes "external") (view value.now))) }
{
    let Some(member) = value.get("external") else {
        return Ok(Some(None));
    };
    match external_of(alloc, member)? {
        Some(node) => Ok(Some(Some(node))),
        None => Ok(None),
    }
}

/// Which stream is copied, and from where on.
#[derive(Drop)]
pub(crate) struct Place {
    stream: Name,
    start: Start,
}

/// What of a stream is copied.
#[derive(Drop)]
pub(crate) struct Choice {
    filter: Option<Pattern>,
    maps: List<Mapping>,
}

fn place_in(alloc: Global, value: &Value) -> Result<Place, ApiFault>
    ensures { IsRead result (place_in (view value.now)) }
{
    let Some(stream) = name_in(alloc, value)? else {
        return Err(bad(alloc, "name"));
    };
    let Some(seq) = seq_in(value) else {
        return Err(bad(alloc, "opt_start_seq"));
    };
    let Some(start) = start_in(seq, value) else {
        return Err(bad(alloc, "opt_start_time"));
    };
    Ok(Place { stream, start })
}

fn choice_in(alloc: Global, value: &Value) -> Result<Choice, ApiFault>
    ensures { IsRead result (choice_in (view value.now)) }
{
    let Some(filter) = filter_in(alloc, value)? else {
        return Err(bad(alloc, "filter_subject"));
    };
    let Some(maps) = maps_in(alloc, filter.is_some(), value)? else {
        return Err(bad(alloc, "subject_transforms"));
    };
    Ok(Choice { filter, maps })
}

/// The node of an origin, or the first wrong one of this and all later members.
fn node_at_last(alloc: Global, value: &Value) -> Result<Option<Name>, ApiFault>
    ensures { IsRead result (node_at_last (view value.now)) }
{
    let Some(node) = node_in(alloc, value)? else {
        return Err(bad(alloc, "external"));
    };
    match other_in(&MEMBERS, value) {
        Some(name) => Err(bad(alloc, name)),
        None => Ok(node),
    }
}

fn origin_from(alloc: Global, value: &Value) -> Result<Origin, ApiFault>
    ensures { IsRead result (origin_from (view value.now)) }
{
    let Place { stream, start } = place_in(alloc, value)?;
    let Choice { filter, maps } = choice_in(alloc, value)?;
    let node = node_at_last(alloc, value)?;
    Ok(Origin {
        node,
        stream,
        start,
        filter,
        maps,
    })
}

/// An origin in the member of this name, or its first wrong member.
pub(crate) fn origin_of(alloc: Global, holder: &str, value: &Value) -> Result<Origin, ApiFault>
    ensures { IsRead result (origin_of holder.now (view value.now)) }
{
    if value.is_object() {
        origin_from(alloc, value)
    } else {
        Err(bad(alloc, holder))
    }
}

/// The origins of sources, or their first wrong member.
pub(crate) fn origins_of(alloc: Global, values: &[Value]) -> Result<List<Origin>, ApiFault>
    ensures { IsRead result (origins_of (items_view values.now)) }
{
    let mut origins = List::new(alloc);
    for value in values {
        let origin = origin_of(alloc, "sources", value)?;
        origins.push(origin)?;
    }
    Ok(origins)
}
