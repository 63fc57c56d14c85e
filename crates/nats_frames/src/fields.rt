//! The fields of a line.
ghost use Rattle.std.specs.Prelude.{◌≡◌, ◌+◌, ◌<◌, [], ◌∷◌, ◌++◌, length, take, drop, option_map, IfOk, IfSome, OnOk, MatchOption};
ghost use Rattle.std.specs.List.{position_from};
ghost use Rattle.nats_text.specs.Headers.{is_blank, trim_start, trim_end, trimmed};
ghost use Rattle.nats_text.specs.Pieces.{views};
ghost use Rattle.nats_frames.specs.Fields.{parts, onto_filled, fields, from_blank, argument, size_of, is_short, quoted};

use nats_text::{NoMemory, number};
use std::alloc::Global;

/// The greatest length of a queue and of a sid, in bytes.
const MOST_SHORT: usize = 100;

/// The greatest number of digits of a size.
const MOST_DIGITS: usize = 9;

/// The fields of a line, which are separated by one or more spaces and tabs.
pub fn fields(alloc: Global, line: &[u8]) -> Result<Vec<&[u8]>, NoMemory>
    ensures { IfOk result (λ found. views found.items ≡ fields line.now) }
{
    let mut found = Vec::new(alloc);
    let mut rest = line;
    while let Some((part, behind)) = cut_blank(rest) {
        push_filled(&mut found, part)?;
        rest = behind;
    }
    push_filled(&mut found, rest)?;
    Ok(found)
}

// What stands before the first blank, and what stands behind it.
fn cut_blank(bytes: &[u8]) -> Option<(&[u8], &[u8])>
    ensures parts { MatchOption result (parts bytes.now ≡ bytes.now ∷ [])
        (λ p. parts bytes.now ≡ p.0.now ∷ parts p.1.now) }
    ensures shorter { IfSome result (λ p. length p.1.now < length bytes.now) }
{
    let at = place_of_blank(bytes)?;
    let (before, rest) = bytes.split_at(at);
    Some((before, &rest[1..]))
}

fn place_of_blank(bytes: &[u8]) -> Option<usize>
    ensures { MatchOption result (parts bytes.now ≡ bytes.now ∷ [])
        (λ at. (at < length bytes.now)
        × (parts bytes.now ≡ take at bytes.now ∷ parts (drop (at + 1) bytes.now))) }
{
    blank_position(bytes)
}

fn blank_position(bytes: &[u8]) -> Option<usize>
    ensures { result ≡ position_from is_blank 0 bytes.now }
{
    bytes.iter().position(|b| is_blank(*b))
}

// Adds a field, which is never empty.
fn push_filled<'a>(found: &mut Vec<&'a [u8]>, part: &'a [u8]) -> Result<(), NoMemory>
    ensures { OnOk result (views found.new.items ≡ views found.old.items ++ onto_filled part.now []) }
{
    if !part.is_empty() {
        found.push(part)?;
    }
    Ok(())
}

/// Whether a field may be a queue or a sid.
pub fn is_short(field: &[u8]) -> bool
    ensures { result ≡ is_short field.now }
{
    field.len() <= MOST_SHORT
}

/// The number that 1 to 9 digits write.
pub fn size_of(digits: &[u8]) -> Option<usize>
    ensures { result ≡ size_of digits.now }
{
    if digits.len() > MOST_DIGITS {
        return None;
    }
    let size = number(digits)?;
    Some(size as usize)
}

/// What stands behind the first field, without the blanks at both ends.
pub fn argument(line: &[u8]) -> &[u8]
    ensures { result.now ≡ argument line.now }
{
    trim_end(trim_start(from_blank(trim_start(line))))
}

/// A text in single quotes, without them.
pub fn quoted(text: &[u8]) -> Option<&[u8]>
    ensures { option_map (λ inner. inner.now) result ≡ quoted text.now }
{
    if text.len() > 1 && text[0] == b'\'' && text[text.len() - 1] == b'\'' {
        Some(&text[1..text.len() - 1])
    } else {
        None
    }
}

fn from_blank(line: &[u8]) -> &[u8]
    ensures { result.now ≡ from_blank line.now }
{
    let mut rest = line;
    while let [first, behind @ ..] = rest {
        if is_blank(*first) {
            break;
        }
        rest = behind;
    }
    rest
}

fn trim_start(text: &[u8]) -> &[u8]
    ensures { result.now ≡ trim_start text.now }
{
    let mut rest = text;
    while let [b' ' | b'\t', behind @ ..] = rest {
        rest = behind;
    }
    rest
}

fn trim_end(text: &[u8]) -> &[u8]
    ensures { result.now ≡ trim_end text.now }
{
    let mut rest = text;
    while let [before @ .., last] = rest {
        if !is_blank(*last) {
            break;
        }
        rest = before;
    }
    rest
}

fn is_blank(b: u8) -> bool
    ensures { result ≡ is_blank b }
{
    b == b' ' || b == b'\t'
}
