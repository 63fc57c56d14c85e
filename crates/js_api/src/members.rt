//! The members of a request, as they are read.
ghost use Rattle.std.specs.Prelude.{◌≡◌, codes, None, Some, if◌then◌else◌, option_map, option_and_then, IfOk};
ghost use Rattle.serde_json.specs.Find.{get, as_str};
ghost use Rattle.serde_json.specs.View.{view};
ghost use Rattle.nats_text.specs.Text.{is_pattern, is_subject};
ghost use Rattle.config_json.specs.Others.{maybe, pattern_of, whole_of};
ghost use Rattle.js_api.specs.Requests.{subject_text, offset_of, keeps_none, which_from, which_of, is_named};

use crate::Which2;
use nats_text::{Name, NoMemory, Pattern, Subject, TextFault};
use serde_json::Value;
use std::alloc::Global;

/// A whole number from 0 on. One with a fraction or an exponent is none.
fn whole_of(value: &Value) -> Option<u64>
    ensures { result ≡ whole_of (view value.now) }
{
    value.as_u64()
}

/// A copy of the bytes, where they are a pattern.
fn read_pattern(alloc: Global, text: &[u8]) -> Result<Option<Pattern>, NoMemory>
    ensures { IfOk result (λ it. it ≡ if is_pattern text.now then Some text.now else None) }
{
    match Pattern::read(alloc, text) {
        Ok(pattern) => Ok(Some(pattern)),
        Err(TextFault::Bad { .. }) => Ok(None),
        Err(TextFault::NoMemory) => Err(NoMemory),
    }
}

fn pattern_of(alloc: Global, value: &Value) -> Result<Option<Pattern>, NoMemory>
    ensures { IfOk result (λ it. it ≡ pattern_of (view value.now)) }
{
    match value.as_str() {
        Some(text) => read_pattern(alloc, text.as_bytes()),
        None => Ok(None),
    }
}

/// A copy of the bytes, where they are a subject.
fn read_subject(alloc: Global, text: &[u8]) -> Result<Option<Subject>, NoMemory>
    ensures { IfOk result (λ it. it ≡ if is_subject text.now then Some text.now else None) }
{
    match Subject::read(alloc, text) {
        Ok(subject) => Ok(Some(subject)),
        Err(TextFault::Bad { .. }) => Ok(None),
        Err(TextFault::NoMemory) => Err(NoMemory),
    }
}

fn subject_text(alloc: Global, value: &Value) -> Result<Option<Subject>, NoMemory>
    ensures { IfOk result (λ it. it ≡ subject_text (view value.now)) }
{
    match value.as_str() {
        Some(text) => read_subject(alloc, text.as_bytes()),
        None => Ok(None),
    }
}

/// The member `seq` of a request that has to have it.
pub(crate) fn seq_of(value: &Value) -> Option<u64>
    ensures { result ≡ option_and_then whole_of (get (codes "seq") (view value.now)) }
{
    whole_of(value.get("seq")?)
}

/// The member `seq` of a request that may have it.
pub(crate) fn below_of(value: &Value) -> Option<Option<u64>>
    ensures { result ≡ maybe whole_of (get (codes "seq") (view value.now)) }
{
    match value.get("seq") {
        Some(member) => Some(Some(whole_of(member)?)),
        None => Some(None),
    }
}

/// The member `filter` of a request that may have it.
pub(crate) fn filter_of(alloc: Global, value: &Value) -> Result<Option<Option<Pattern>>, NoMemory>
    ensures { IfOk result (λ it. it ≡ maybe pattern_of (get (codes "filter") (view value.now))) }
{
    match value.get("filter") {
        Some(member) => Ok(pattern_of(alloc, member)?.map(Some)),
        None => Ok(Some(None)),
    }
}

/// From which of the names on they are listed.
pub(crate) fn offset_of(value: &Value) -> Option<u64>
    ensures { result ≡ offset_of (view value.now) }
{
    match value.get("offset") {
        Some(member) => whole_of(member),
        None => Some(0),
    }
}

/// Whether no number of messages is to be kept in any case.
pub(crate) fn keeps_none(value: &Value) -> bool
    ensures { result ≡ keeps_none (view value.now) }
{
    match value.get("keep") {
        Some(member) => whole_of(member) == Some(0),
        None => true,
    }
}

/// Which message is asked for.
pub(crate) fn which_of(alloc: Global, value: &Value) -> Result<Option<Which2>, NoMemory>
    ensures { IfOk result (λ it. it ≡ which_of (view value.now)) }
{
    which_from(alloc, value.get("seq"), value.get("last_by_subj"))
}

fn which_from(
    alloc: Global,
    seq: Option<&Value>,
    subject: Option<&Value>,
) -> Result<Option<Which2>, NoMemory>
    ensures { IfOk result (λ it. it ≡ which_from (option_map (λ v. view v.now) seq.entry) (option_map (λ v. view v.now) subject.entry)) }
{
    match (seq, subject) {
        (Some(seq), None) => Ok(whole_of(seq).map(Which2::Seq)),
        (None, Some(subject)) => Ok(subject_text(alloc, subject)?.map(Which2::LastOf)),
        _ => Ok(None),
    }
}

/// Whether the member `name` is this name.
pub(crate) fn is_named(name: &Name, value: &Value) -> bool
    ensures { result ≡ is_named name.now (view value.now) }
{
    match name_text(value) {
        Some(text) => text.as_bytes() == name.bytes(),
        None => false,
    }
}

fn name_text(value: &Value) -> Option<&str>
    ensures { option_map (λ text. text.now) result ≡ option_and_then as_str (get (codes "name") (view value.now)) }
{
    value.get("name")?.as_str()
}
