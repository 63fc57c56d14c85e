//! A destination, a token at a time.
ghost use Rattle.std.specs.Prelude.{◌≡◌, true, IsTrue, IfOk};
ghost use Rattle.nats_text.specs.Text.{tokens};
ghost use Rattle.subject_transform.specs.Parts.{read_part};
ghost use Rattle.subject_transform.specs.PartsOf.{reading, is_sound};
ghost use Rattle.subject_transform.specs.Reading.{fault_of};
ghost use Rattle.subject_transform.specs.Transforms.{star_count, ends_in_tail, same, read_last, read_tokens, read_destination, text_of, is_blank, without_blanks};

use crate::part::Part;
use crate::taken::first_piece;
use crate::value::push_value;
use crate::{TransformFault, TransformKind};
use nats_text::{Bytes, NoMemory, cut};
use std::alloc::Global;

/// The greatest length of a destination without its blanks in bytes.
const MAX_LEN: usize = 1024;

/// The first fault of a destination without blanks, for a source.
pub(crate) fn first_fault(source: &[u8], dest: &[u8]) -> Option<TransformFault>
    ensures { result ≡ fault_of (read_destination (tokens source.now) dest.now) }
{
    if dest.len() > MAX_LEN {
        return Some(TransformFault::Bad {
            place: 0,
            kind: TransformKind::BadDest,
        });
    }
    bad_token(star_count(source), ends_in_tail(source), dest)
}

// The first fault of the tokens.
fn bad_token(stars: u64, wants_tail: bool, dest: &[u8]) -> Option<TransformFault>
    ensures { result ≡ fault_of (read_tokens stars wants_tail 0 (tokens dest.now)) }
{
    let mut place = 0;
    let mut rest = dest;
    while let Some((token, after)) = cut(rest, b'.') {
        match Part::read(stars, false, token) {
            Err(kind) => return Some(TransformFault::Bad { place, kind }),
            Ok(_) => {
                place += token.len() as u64 + 1;
                rest = after;
            }
        }
    }
    match last_part(stars, wants_tail, rest) {
        Ok(_) => None,
        Err(kind) => Some(TransformFault::Bad { place, kind }),
    }
}

// The last token: a `>` exactly where the source ends in one.
fn last_part<'a>(stars: u64, wants_tail: bool, token: &'a [u8]) -> Result<Part<'a>, TransformKind>
    ensures value { reading result ≡ read_last stars wants_tail token.now (read_part stars true token.now) }
    ensures sound { IfOk result (λ part. IsTrue (is_sound part)) }
{
    match Part::read(stars, true, token) {
        Err(kind) => Err(kind),
        Ok(part) => {
            if same(wants_tail, token == b">".as_slice()) {
                Ok(part)
            } else {
                Err(TransformKind::TailMismatch)
            }
        }
    }
}

fn same(a: bool, b: bool) -> bool
    ensures { result ≡ same a b }
{
    if a { b } else { !b }
}

/// The values of the parts of a destination without blanks, with a dot between each two, for a subject
/// that the source matches; `None` where it is no destination for the source.
pub(crate) fn text_of(
    alloc: Global,
    source: &[u8],
    dest: &[u8],
    subject: &[u8],
) -> Result<Option<Bytes>, NoMemory>
    ensures { IfOk result (λ text. text ≡ text_of (tokens source.now) (tokens subject.now) (read_destination (tokens source.now) dest.now)) }
{
    if dest.len() > MAX_LEN {
        return Ok(None);
    }
    tokens_text(
        alloc,
        star_count(source),
        ends_in_tail(source),
        source,
        dest,
        subject,
    )
}

fn tokens_text(
    alloc: Global,
    stars: u64,
    wants_tail: bool,
    source: &[u8],
    dest: &[u8],
    subject: &[u8],
) -> Result<Option<Bytes>, NoMemory>
    ensures { IfOk result (λ text. text ≡ text_of (tokens source.now) (tokens subject.now) (read_tokens stars wants_tail 0 (tokens dest.now))) }
{
    let mut buf = Vec::new(alloc);
    let mut rest = dest;
    while let Some((token, after)) = cut(rest, b'.') {
        match Part::read(stars, false, token) {
            Err(_) => return Ok(None),
            Ok(part) => {
                push_value(&mut buf, source, subject, part)?;
                buf.push(b'.')?;
                rest = after;
            }
        }
    }
    match last_part(stars, wants_tail, rest) {
        Ok(part) => {
            push_value(&mut buf, source, subject, part)?;
            Ok(Some(Bytes::from_vec(buf)))
        }
        Err(_) => Ok(None),
    }
}

// How many tokens of a source are `*`.
fn star_count(source: &[u8]) -> u64
    ensures { result ≡ star_count (tokens source.now) }
{
    let mut count = 0;
    let mut rest = Some(source);
    while let Some(some) = rest {
        let (token, after) = first_piece(some, b'.');
        rest = after;
        if token == b"*".as_slice() {
            count += 1;
        }
    }
    count
}

// Whether the last token of a source is `>`.
fn ends_in_tail(source: &[u8]) -> bool
    ensures { result ≡ ends_in_tail (tokens source.now) }
{
    let mut rest = source;
    while let Some((_, after)) = cut(rest, b'.') {
        rest = after;
    }
    rest == b">".as_slice()
}

fn is_blank(byte: u8) -> bool
    ensures { result ≡ is_blank byte }
{
    byte == b' ' || byte == b'\t'
}

/// A copy of the bytes without the spaces and tabs.
pub(crate) fn without_blanks(alloc: Global, bytes: &[u8]) -> Result<Bytes, NoMemory>
    ensures { IfOk result (λ kept. kept ≡ without_blanks bytes.now) }
{
    let mut kept = Vec::new(alloc);
    for byte in bytes {
        if is_blank(*byte) {
            continue;
        }
        kept.push(*byte)?;
    }
    Ok(Bytes::from_vec(kept))
}
