ghost use Rattle.std.specs.Prelude.{◌≡◌, ◌<◌, ◌+◌, ◌^◌, IfOk, length, find, ◌-◌};
ghost use Rattle.std.specs.List.{list_any};
ghost use Rattle.std.specs.Str.{bytes_eq};
ghost use Rattle.nats_text.specs.Matching.{matches};
ghost use Rattle.std.specs.Option.{option_copied};
ghost use Rattle.nats_text.specs.Sizes.{size};
ghost use Rattle.stream_fold.specs.Checking.{is_mirror};
ghost use Rattle.stream_fold.specs.Histories.{size_of};
ghost use Rattle.stream_fold.specs.Publishing.{GivesVerdict, later_refusal, bad_header, is_no_number, is_other_number, is_other_text, last_of, content_size, rows_with, next_match, is_next};
ghost use Rattle.stream_fold.specs.Held.{repeated_in, latest_in};
ghost use Rattle.stream_fold.specs.Parts.{held_in, verdict_held, IsSettled};
ghost use Rattle.stream_fold.specs.Counting.{pushed_out, full_refusal, other_subject_last};
ghost use Rattle.nats_text.specs.Headers.{has_name};

use crate::parts::{Parts, Sent};
use crate::trim::{are_within, count_of_subject, is_older};
use crate::{Copies, Discard, Numbered, Refusal, Verdict};
use nats_text::{Bytes, Headers, Message, NoMemory, Pattern, Subject, matches, number};
use std::alloc::Global;

/// What a publish of the message is answered, by the parts of a state.
pub fn verdict(
    parts: &Parts,
    alloc: Global,
    message: &Message,
    now: u64,
) -> Result<Verdict, Refusal>
    requires { IsSettled (held_in parts.now) }
    ensures { GivesVerdict result (verdict_held (held_in parts.now) message.now now) }
{
    if is_mirror(&parts.config.copies) {
        return Err(Refusal::IsMirror);
    }
    if let Some(name) = bad_header(message) {
        let name = Bytes::from_slice(alloc, name)?;
        return Err(Refusal::BadHeader { name });
    }
    if is_other_text(
        parts.config.name.bytes(),
        message.headers.get(b"Nats-Expected-Stream"),
    ) {
        return Err(Refusal::WrongStream);
    }
    if let Some(seq) = repeated(parts, message.headers.get(b"Nats-Msg-Id"), now) {
        return Ok(Verdict::Duplicate { seq });
    }
    match later_refusal(parts, message)? {
        Some(refusal) => Err(refusal),
        None => Ok(Verdict::Fresh),
    }
}

pub fn is_mirror(copies: &Copies) -> bool
    ensures { result ≡ is_mirror copies.now }
{
    match copies {
        Copies::Nothing => false,
        Copies::Mirror(_) => true,
        Copies::Sources(_) => false,
    }
}

/// The first header that a publish may not have.
fn bad_header(message: &Message) -> Option<&'static [u8]>
    ensures { option_copied result ≡ bad_header message.now }
{
    let headers = &message.headers;
    if has(headers, b"Nats-Rollup") {
        return Some(b"Nats-Rollup");
    }
    if has(headers, b"Nats-TTL") {
        return Some(b"Nats-TTL");
    }
    if has(headers, b"Nats-Expected-Last-Msg-Id") {
        return Some(b"Nats-Expected-Last-Msg-Id");
    }
    if is_no_number(headers.get(b"Nats-Expected-Last-Sequence")) {
        return Some(b"Nats-Expected-Last-Sequence");
    }
    if is_no_number(headers.get(b"Nats-Expected-Last-Subject-Sequence")) {
        return Some(b"Nats-Expected-Last-Subject-Sequence");
    }
    None
}

fn has(headers: &Headers, name: &[u8]) -> bool
    ensures { result ≡ has_name name.now headers.now }
{
    headers
        .pairs()
        .iter()
        .any(|pair| pair.name.as_slice() == name)
}

fn is_no_number(value: Option<&[u8]>) -> bool
    ensures { result ≡ is_no_number (option_copied value.entry) }
{
    match value {
        Some(value) => number(value).is_none(),
        None => false,
    }
}

fn is_other_number(wanted: u64, value: Option<&[u8]>) -> bool
    ensures { result ≡ is_other_number wanted (option_copied value.entry) }
{
    match value {
        Some(value) => match number(value) {
            Some(other) => other != wanted,
            None => false,
        },
        None => false,
    }
}

fn is_other_text(wanted: &[u8], value: Option<&[u8]>) -> bool
    ensures { result ≡ is_other_text wanted.now (option_copied value.entry) }
{
    match value {
        Some(value) => value != wanted,
        None => false,
    }
}

/// The number of which a publish under this identifier would be a repeat.
fn repeated(parts: &Parts, id: Option<&[u8]>, now: u64) -> Option<u64>
    ensures { result ≡ repeated_in (held_in parts.now) (option_copied id.entry) now }
{
    let sent = latest_sent(&parts.sent, id?)?;
    let moment = now.max(parts.clock);
    if is_older(sent.time, parts.window, moment) {
        None
    } else {
        Some(sent.seq)
    }
}

fn latest_sent<'a>(list: &'a [Sent], id: &[u8]) -> Option<&'a Sent>
    ensures { option_copied result ≡ latest_in id.now list.now }
{
    let mut latest = None;
    for sent in list {
        if sent.id.as_slice() == id {
            latest = Some(sent);
        }
    }
    latest
}

/// The first refusal behind the test for a repeat.
fn later_refusal(parts: &Parts, message: &Message) -> Result<Option<Refusal>, NoMemory>
    requires { IsSettled (held_in parts.now) }
    ensures { IfOk result (λ refusal. refusal ≡ later_refusal parts.now.config message.now parts.now.rows.rows parts.now.last) }
{
    let headers = &message.headers;
    let last = parts.last;
    if is_other_number(last, headers.get(b"Nats-Expected-Last-Sequence")) {
        return Ok(Some(Refusal::WrongLast { kept: last }));
    }
    if let Some(kept) = other_subject_last(parts, message) {
        return Ok(Some(Refusal::WrongSubjectLast { kept }));
    }
    let limit = parts.config.max_msg_size;
    let size = content_size(message)?;
    if limit != 0 && limit < size {
        return Ok(Some(Refusal::TooLarge { size, limit }));
    }
    if last == (1 << 63) - 1 {
        return Ok(Some(Refusal::SeqEnd));
    }
    refusal_of_full(parts, message)
}

/// The subject's last number, where the publish expects another one. It is looked up for a publish
/// that expects one alone.
fn other_subject_last(parts: &Parts, message: &Message) -> Option<u64>
    ensures { result ≡ other_subject_last message.now parts.now.rows.rows }
{
    let expected = message.headers.get(b"Nats-Expected-Last-Subject-Sequence");
    if expected.is_none() {
        return None;
    }
    let kept = last_of(parts.rows.as_slice(), message.subject.bytes()).unwrap_or(0);
    if is_other_number(kept, expected) {
        Some(kept)
    } else {
        None
    }
}

/// The greatest number of a subject.
pub fn last_of(rows: &[Numbered], subject: &[u8]) -> Option<u64>
    ensures { result ≡ last_of subject.now rows.now }
{
    let mut last = None;
    for row in rows {
        if row.message.subject.bytes() == subject {
            last = Some(row.seq);
        }
    }
    last
}

/// The size of header block and payload. No memory holds one past 64 bits.
fn content_size(message: &Message) -> Result<u64, NoMemory>
    ensures value { IfOk result (λ bytes. bytes ≡ content_size message.now) }
    ensures bound { IfOk result (λ bytes. bytes < 2 ^ 64 - 1) }
{
    let bytes = message
        .headers
        .written_len()
        .saturating_add(message.payload.len()) as u64;
    if bytes == u64::MAX {
        return Err(NoMemory);
    }
    Ok(bytes)
}

fn refusal_of_full(parts: &Parts, message: &Message) -> Result<Option<Refusal>, NoMemory>
    requires { IsSettled (held_in parts.now) }
    ensures { IfOk result (λ refusal. refusal ≡ full_refusal parts.now.config (rows_with parts.now.config message.now parts.now.rows.rows parts.now.last)) }
{
    if parts.config.discard == Discard::Old {
        return Ok(None);
    }
    let (count, bytes) = counts_with(parts, message)?;
    if are_within(&parts.config, count, bytes) {
        return Ok(None);
    }
    Ok(Some(Refusal::Full {
        count: count as u64,
        bytes,
    }))
}

/// How many messages of how many bytes would be kept with this one, the limit of each subject applied.
fn counts_with(parts: &Parts, message: &Message) -> Result<(usize, u64), NoMemory>
    requires { IsSettled (held_in parts.now) }
    ensures count { IfOk result (λ n. n.0 ≡ length (rows_with parts.now.config message.now parts.now.rows.rows parts.now.last)) }
    ensures bytes { IfOk result (λ n. n.1 ≡ size_of (rows_with parts.now.config message.now parts.now.rows.rows parts.now.last)) }
{
    let rows = parts.rows.as_slice();
    let total = parts.rows.total();
    match pushed_out(parts.config.max_per_subject, message.subject.bytes(), rows) {
        Some(row) => {
            let bytes = sum_with(total - row.message.size() as u64, message)?;
            Ok((rows.len(), bytes))
        }
        None => {
            let bytes = sum_with(total, message)?;
            Ok((rows.len() + 1, bytes))
        }
    }
}

/// The row that a new one of the subject pushes out.
fn pushed_out<'a>(most: u64, subject: &[u8], rows: &'a [Numbered]) -> Option<&'a Numbered>
    ensures { option_copied result ≡ pushed_out most subject.now rows.now }
{
    if most != 0 && most <= count_of_subject(subject, rows) as u64 {
        first_of_subject(subject, rows)
    } else {
        None
    }
}

fn first_of_subject<'a>(subject: &[u8], rows: &'a [Numbered]) -> Option<&'a Numbered>
    ensures { option_copied result ≡ find (λ row. bytes_eq row.message.subject subject.now) rows.now }
{
    for row in rows {
        if row.message.subject.bytes() == subject {
            return Some(row);
        }
    }
    None
}

/// The sum with the size of the message. No memory holds messages whose sizes have a sum past 64 bits.
fn sum_with(sum: u64, message: &Message) -> Result<u64, NoMemory>
    ensures value { IfOk result (λ all. all ≡ sum + size message.now) }
    ensures bound { IfOk result (λ all. all < 2 ^ 64) }
{
    if message.left_of(u64::MAX - sum).is_none() {
        return Err(NoMemory);
    }
    Ok(sum + message.size() as u64)
}

/// The least number at or after `from` of a subject that one of the filters matches.
pub fn next_match(from: u64, filters: &[Pattern], rows: &[Numbered]) -> Option<u64>
    ensures { result ≡ next_match from filters.now rows.now }
{
    for row in rows {
        if is_next(from, filters, row) {
            return Some(row.seq);
        }
    }
    None
}

fn is_next(from: u64, filters: &[Pattern], row: &Numbered) -> bool
    ensures { result ≡ is_next from filters.now row.now }
{
    from <= row.seq && (filters.is_empty() || any_matches(filters, &row.message.subject))
}

fn any_matches(filters: &[Pattern], subject: &Subject) -> bool
    ensures { result ≡ list_any (λ pattern. matches pattern subject.now) filters.now }
{
    filters.iter().any(|pattern| matches(pattern, subject))
}
