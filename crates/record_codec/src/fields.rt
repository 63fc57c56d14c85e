//! The fields that many records have, read from the front of bytes. Each reader answers the bytes
//! behind its field too.
ghost use Rattle.std.specs.Prelude.{◌≡◌, length};
ghost use Rattle.record_codec.specs.Reading.{Finds, Gives, u32_at, u64_at, text_at, name_at, subject_at, pattern_at, headers_at};

use crate::fault::{BadField, Stop};
use nats_text::{Headers, Name, Pattern, Subject, TextFault};
use std::alloc::Global;

// The field that begins here can't be read.
pub(crate) fn bad(bytes: &[u8]) -> Stop
    ensures { result ≡ Stop.Bad (length bytes.now) }
{
    Stop::Bad { left: bytes.len() }
}

// The same of a reader that takes no memory.
pub(crate) fn bad_field(bytes: &[u8]) -> BadField
    ensures { result.left ≡ length bytes.now }
{
    BadField { left: bytes.len() }
}

#[tactic(auto, unfolding(crate::specs::Reading::u32_at))]
pub(crate) fn u32_of(bytes: &[u8]) -> Result<(u32, &[u8]), BadField>
    ensures { Finds (λ x. (x.0, x.1.now)) result (u32_at bytes.now) }
{
    if bytes.len() < 4 {
        return Err(bad_field(bytes));
    }
    let (front, rest) = bytes.split_at(4);
    let number = u32::from_le_bytes([front[0], front[1], front[2], front[3]]);
    Ok((number, rest))
}

#[tactic(auto, unfolding(crate::specs::Reading::u64_at))]
pub(crate) fn u64_of(bytes: &[u8]) -> Result<(u64, &[u8]), BadField>
    ensures { Finds (λ x. (x.0, x.1.now)) result (u64_at bytes.now) }
{
    if bytes.len() < 8 {
        return Err(bad_field(bytes));
    }
    let (front, rest) = bytes.split_at(8);
    let number = u64::from_le_bytes([
        front[0], front[1], front[2], front[3], front[4], front[5], front[6], front[7],
    ]);
    Ok((number, rest))
}

#[tactic(auto, unfolding(crate::specs::Reading::text_at))]
pub(crate) fn text_of(bytes: &[u8]) -> Result<(&[u8], &[u8]), BadField>
    ensures { Finds (λ x. (x.0.now, x.1.now)) result (text_at bytes.now) }
{
    let (len, rest) = u32_of(bytes)?;
    let len = len as usize;
    if rest.len() < len {
        return Err(bad_field(bytes));
    }
    Ok(rest.split_at(len))
}

#[tactic(auto, unfolding(crate::specs::Reading::legal_at))]
pub(crate) fn name_of(alloc: Global, bytes: &[u8]) -> Result<(Name, &[u8]), Stop>
    ensures { Gives (λ x. (x.0, x.1.now)) result (name_at bytes.now) }
{
    let (text, rest) = text_of(bytes)?;
    match Name::read(alloc, text) {
        Ok(name) => Ok((name, rest)),
        Err(TextFault::Bad { .. }) => Err(bad(bytes)),
        Err(TextFault::NoMemory) => Err(Stop::NoMemory),
    }
}

#[tactic(auto, unfolding(crate::specs::Reading::legal_at))]
pub(crate) fn subject_of(alloc: Global, bytes: &[u8]) -> Result<(Subject, &[u8]), Stop>
    ensures { Gives (λ x. (x.0, x.1.now)) result (subject_at bytes.now) }
{
    let (text, rest) = text_of(bytes)?;
    match Subject::read(alloc, text) {
        Ok(subject) => Ok((subject, rest)),
        Err(TextFault::Bad { .. }) => Err(bad(bytes)),
        Err(TextFault::NoMemory) => Err(Stop::NoMemory),
    }
}

#[tactic(auto, unfolding(crate::specs::Reading::legal_at))]
pub(crate) fn pattern_of(alloc: Global, bytes: &[u8]) -> Result<(Pattern, &[u8]), Stop>
    ensures { Gives (λ x. (x.0, x.1.now)) result (pattern_at bytes.now) }
{
    let (text, rest) = text_of(bytes)?;
    match Pattern::read(alloc, text) {
        Ok(pattern) => Ok((pattern, rest)),
        Err(TextFault::Bad { .. }) => Err(bad(bytes)),
        Err(TextFault::NoMemory) => Err(Stop::NoMemory),
    }
}

#[tactic(auto, unfolding(crate::specs::Reading::headers_at))]
pub(crate) fn headers_of(alloc: Global, bytes: &[u8]) -> Result<(Headers, &[u8]), Stop>
    ensures { Gives (λ x. (x.0, x.1.now)) result (headers_at bytes.now) }
{
    let (text, rest) = text_of(bytes)?;
    if !Headers::is_written(text) {
        return Err(bad(bytes));
    }
    match Headers::read(alloc, text) {
        Ok(headers) => Ok((headers, rest)),
        Err(TextFault::Bad { .. }) => Err(bad(bytes)),
        Err(TextFault::NoMemory) => Err(Stop::NoMemory),
    }
}
