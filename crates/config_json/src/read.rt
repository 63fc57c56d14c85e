//! A configuration, as JSON is read as one.
ghost use Rattle.std.specs.Prelude.{◌≡◌, codes, option_map, IfOk};
ghost use Rattle.serde_json.specs.Find.{get};
ghost use Rattle.serde_json.specs.View.{view};
ghost use Rattle.stream_fold.specs.Checking.{is_mirror};
ghost use Rattle.config_json.specs.Answers.{IsRead};
ghost use Rattle.config_json.specs.Reading.{config_from, config_if, config_in, config_of, config_with, data_of, null_in, rest_fault, transform_at_last, transform_in};

use crate::ApiFault;
use crate::copies::copies_in;
use crate::fault::bad;
use crate::limits::{Limits, limits_in};
use crate::mapping::transform_of;
use crate::others::other_in;
use crate::subjects::{subjects_in, subjects_or_name};
use crate::value::{is_absent_or_no_null, name_in};
use nats_text::{List, Mapping, Name, NoMemory, Pattern};
use serde_json::Value;
use std::alloc::Global;
use stream_fold::{Config, Copies};

/// The members that have a meaning here.
const MEMBERS: [&str; 19] = [
    "name",
    "subjects",
    "retention",
    "max_msgs",
    "max_bytes",
    "max_msgs_per_subject",
    "max_msg_size",
    "max_age",
    "storage",
    "num_replicas",
    "discard",
    "duplicate_window",
    "mirror",
    "sources",
    "subject_transform",
    "description",
    "metadata",
    "allow_direct",
    "mirror_direct",
];

fn is_mirror(copies: &Copies) -> bool
    ensures { result ≡ is_mirror copies.now }
{
    match copies {
        Copies::Mirror(_) => true,
        Copies::Nothing | Copies::Sources(_) => false,
    }
}

fn transform_in(
    alloc: Global,
    copies: &Copies,
    value: &Value,
) -> Result<Option<Option<Mapping>>, NoMemory>
    ensures { IfOk result (λ m. m ≡ transform_in copies.now (get (codes "subject_transform") (view value.now))) }
{
    let Some(member) = value.get("subject_transform") else {
        return Ok(Some(None));
    };
    if is_mirror(copies) {
        return Ok(None);
    }
    match transform_of(alloc, member)? {
        Some(map) => Ok(Some(Some(map))),
        None => Ok(None),
    }
}

fn null_in(value: &Value, name: &'static str) -> Option<&'static str>
    ensures { option_map (λ t. t.now) result ≡ null_in name.now (view value.now) }
{
    if is_absent_or_no_null(value, name) {
        None
    } else {
        Some(name)
    }
}

/// The first wrong one of the members that aren't kept.
fn rest_fault(value: &Value) -> Option<&str>
    ensures { option_map (λ t. t.now) result ≡ rest_fault (view value.now) }
{
    if let Some(name) = null_in(value, "description") {
        return Some(name);
    }
    if let Some(name) = null_in(value, "metadata") {
        return Some(name);
    }
    if let Some(name) = null_in(value, "allow_direct") {
        return Some(name);
    }
    if let Some(name) = null_in(value, "mirror_direct") {
        return Some(name);
    }
    other_in(&MEMBERS, value)
}

/// The stream's own transform, or the first wrong one of this and all later members.
fn transform_at_last(
    alloc: Global,
    copies: &Copies,
    value: &Value,
) -> Result<Option<Mapping>, ApiFault>
    ensures { IsRead result (transform_at_last copies.now (view value.now)) }
{
    let Some(transform) = transform_in(alloc, copies, value)? else {
        return Err(bad(alloc, "subject_transform"));
    };
    match rest_fault(value) {
        Some(name) => Err(bad(alloc, name)),
        None => Ok(transform),
    }
}

fn config_with(
    name: Name,
    subjects: List<Pattern>,
    limits: Limits,
    copies: Copies,
    transform: Option<Mapping>,
) -> Result<Config, NoMemory>
    ensures { IfOk result (λ c. c ≡ config_with name subjects limits copies transform) }
{
    let subjects = subjects_or_name(&name, &copies, subjects)?;
    Ok(Config {
        name,
        subjects,
        max_msgs: limits.max_msgs,
        max_bytes: limits.max_bytes,
        max_age: limits.max_age,
        max_per_subject: limits.max_per_subject,
        max_msg_size: limits.max_msg_size,
        discard: limits.discard,
        window: limits.window,
        transform,
        copies,
    })
}

fn config_from(alloc: Global, value: &Value) -> Result<Config, ApiFault>
    ensures { IsRead result (config_from (view value.now)) }
{
    let Some(name) = name_in(alloc, value)? else {
        return Err(bad(alloc, "name"));
    };
    let Some(subjects) = subjects_in(alloc, value)? else {
        return Err(bad(alloc, "subjects"));
    };
    let limits = limits_in(alloc, value)?;
    let copies = copies_in(alloc, subjects.as_slice(), &limits, value)?;
    let transform = transform_at_last(alloc, &copies, value)?;
    Ok(config_with(name, subjects, limits, copies, transform)?)
}

/// The configuration that JSON is, as a request of JetStream's API has it. What is no object is a
/// bad request. Otherwise the first wrong member is told, in the order of the table of members, and
/// then of any other members in byte order.
pub fn config_of_value(alloc: Global, value: &Value) -> Result<Config, ApiFault>
    ensures { IsRead result (config_in (view value.now)) }
{
    if value.is_object() {
        config_from(alloc, value)
    } else {
        Err(ApiFault::BadRequest)
    }
}

/// The JSON of a text in UTF-8, if it is JSON. Of two members of one name the last counts.
pub fn value_of_json(alloc: Global, text: &[u8]) -> Result<Option<Value>, NoMemory>
    ensures { IfOk result (λ it. option_map view it ≡ data_of text.now) }
{
    match Value::from_slice(alloc, text) {
        Ok(value) => Ok(Some(value)),
        Err(error) => {
            if error.is_memory() {
                Err(NoMemory)
            } else {
                Ok(None)
            }
        }
    }
}

/// The configuration that a text is: JSON in UTF-8, read as [`config_of_value`] reads it. What is no
/// JSON is a bad request.
pub fn config_of_json(alloc: Global, bytes: &[u8]) -> Result<Config, ApiFault>
    ensures { IsRead result (config_of bytes.now) }
{
    match value_of_json(alloc, bytes)? {
        Some(value) => config_of_value(alloc, &value),
        None => Err(ApiFault::BadRequest),
    }
}
