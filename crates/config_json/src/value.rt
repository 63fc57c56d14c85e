//! What single members may be.
ghost use Rattle.std.specs.Prelude.{◌≡◌, None, Some, if◌then◌else◌, codes, option_and_then, IfOk};
ghost use Rattle.serde_json.specs.Find.{get};
ghost use Rattle.serde_json.specs.View.{view, items_view};
ghost use Rattle.nats_text.specs.Text.{is_name, is_pattern};
ghost use Rattle.config_json.specs.Others.{absent_or, absent_or_is, is_no_null, is_word, limit_from, limit_of, maybe, name_of, number_of, pattern_of, patterns_of, whole_of};

use nats_text::{List, Name, NoMemory, Pattern, TextFault};
use serde_json::Value;
use std::alloc::Global;

/// A copy of the bytes, where they are a name.
pub(crate) fn name_from(alloc: Global, text: &[u8]) -> Result<Option<Name>, NoMemory>
    ensures { IfOk result (λ it. it ≡ if is_name text.now then Some text.now else None) }
{
    match Name::read(alloc, text) {
        Ok(name) => Ok(Some(name)),
        Err(TextFault::Bad { .. }) => Ok(None),
        Err(TextFault::NoMemory) => Err(NoMemory),
    }
}

fn name_of(alloc: Global, value: &Value) -> Result<Option<Name>, NoMemory>
    ensures { IfOk result (λ it. it ≡ name_of (view value.now)) }
{
    match value.as_str() {
        Some(text) => name_from(alloc, text.as_bytes()),
        None => Ok(None),
    }
}

/// The member `name`, where it is a name.
pub(crate) fn name_in(alloc: Global, value: &Value) -> Result<Option<Name>, NoMemory>
    ensures { IfOk result (λ it. it ≡ option_and_then name_of (get (codes "name") (view value.now))) }
{
    match value.get("name") {
        Some(member) => name_of(alloc, member),
        None => Ok(None),
    }
}

fn pattern_from(alloc: Global, text: &[u8]) -> Result<Option<Pattern>, NoMemory>
    ensures { IfOk result (λ it. it ≡ if is_pattern text.now then Some text.now else None) }
{
    match Pattern::read(alloc, text) {
        Ok(pattern) => Ok(Some(pattern)),
        Err(TextFault::Bad { .. }) => Ok(None),
        Err(TextFault::NoMemory) => Err(NoMemory),
    }
}

pub(crate) fn pattern_of(alloc: Global, value: &Value) -> Result<Option<Pattern>, NoMemory>
    ensures { IfOk result (λ it. it ≡ pattern_of (view value.now)) }
{
    match value.as_str() {
        Some(text) => pattern_from(alloc, text.as_bytes()),
        None => Ok(None),
    }
}

pub(crate) fn patterns_of(
    alloc: Global,
    values: &[Value],
) -> Result<Option<List<Pattern>>, NoMemory>
    ensures { IfOk result (λ it. it ≡ patterns_of (items_view values.now)) }
{
    let mut patterns = List::new(alloc);
    for value in values {
        let Some(pattern) = pattern_of(alloc, value)? else {
            return Ok(None);
        };
        patterns.push(pattern)?;
    }
    Ok(Some(patterns))
}

pub(crate) fn is_word(value: &Value, word: &str) -> bool
    ensures { result ≡ is_word word.now (view value.now) }
{
    match value.as_str() {
        Some(text) => text == word,
        None => false,
    }
}

/// Whether a member is absent or this word.
pub(crate) fn is_absent_or_word(value: &Value, name: &str, word: &str) -> bool
    ensures { result ≡ absent_or_is (is_word word.now) (get name.now (view value.now)) }
{
    match value.get(name) {
        Some(member) => is_word(member, word),
        None => true,
    }
}

/// A whole number of 64 bits, written without a fraction and an exponent.
pub(crate) fn whole_of(value: &Value) -> Option<u64>
    ensures { result ≡ whole_of (view value.now) }
{
    value.as_u64()
}

/// A number that is 0 where it is absent.
pub(crate) fn whole_at(value: &Value, name: &str) -> Option<u64>
    ensures { result ≡ absent_or 0 whole_of (get name.now (view value.now)) }
{
    match value.get(name) {
        Some(member) => whole_of(member),
        None => Some(0),
    }
}

/// A number below 2^63.
pub(crate) fn number_of(value: &Value) -> Option<u64>
    ensures { result ≡ number_of (view value.now) }
{
    let number = whole_of(value)?;
    if number < 1 << 63 { Some(number) } else { None }
}

fn limit_from(number: i64) -> Option<u64>
    ensures { result ≡ limit_from number }
{
    if number == -1 {
        Some(0)
    } else {
        u64::try_from(number).ok()
    }
}

/// A limit, which is none at 0 and at -1.
fn limit_of(value: &Value) -> Option<u64>
    ensures { result ≡ limit_of (view value.now) }
{
    limit_from(value.as_i64()?)
}

/// A limit, which is none where it is absent.
pub(crate) fn limit_at(value: &Value, name: &str) -> Option<u64>
    ensures { result ≡ absent_or 0 limit_of (get name.now (view value.now)) }
{
    match value.get(name) {
        Some(member) => limit_of(member),
        None => Some(0),
    }
}

fn is_no_null(value: &Value) -> bool
    ensures { result ≡ is_no_null (view value.now) }
{
    !value.is_null()
}

/// Whether a member is absent or anything but null.
pub(crate) fn is_absent_or_no_null(value: &Value, name: &str) -> bool
    ensures { result ≡ absent_or_is is_no_null (get name.now (view value.now)) }
{
    match value.get(name) {
        Some(member) => is_no_null(member),
        None => true,
    }
}
