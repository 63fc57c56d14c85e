//! The arguments of functions.
ghost use Rattle.std.specs.Prelude.{◌≡◌, ◌≤◌, ◌∷◌, [], ℕ, List, drop, length, Err, Result, MatchOption};
ghost use Rattle.std.specs.List.{list_all};
ghost use Rattle.nats_text.specs.Numbers.{is_digit};
ghost use Rattle.nats_text.specs.Pieces.{pieces};
ghost use Rattle.subject_transform.specs.declared.fault.TransformKind.{TransformKind as Kind};
ghost use Rattle.subject_transform.specs.declared.fault.TransformKind.TheVariants.{BadFunction};
ghost use Rattle.subject_transform.specs.Parts.{Part as PartRead, short_number, is_number, number, is_index, is_separator, is_separator_byte, read_two};

use crate::taken::first_piece;
use nats_text::cut;

/// The greatest number of digits.
const MOST_DIGITS: usize = 10;

/// The number that 1 to 10 decimal digits write.
fn short_number(digits: &[u8]) -> Option<u64>
    ensures { result ≡ short_number digits.now }
{
    if digits.len() > MOST_DIGITS {
        return None;
    }
    nats_text::number(digits)
}

pub(crate) fn is_number(text: &[u8]) -> bool
    ensures { result ≡ is_number text.now }
{
    short_number(text).is_some()
}

/// The number that an argument writes, and 0 where it writes none.
pub(crate) fn number(text: &[u8]) -> u64
    ensures { result ≡ number text.now }
{
    short_number(text).unwrap_or(0)
}

/// Whether a source with so many `*` has one of this number.
pub(crate) fn is_index(stars: u64, text: &[u8]) -> bool
    ensures { result ≡ is_index stars text.now }
{
    let index = number(text);
    0 < index && index <= stars
}

/// Whether the texts between the commas are numbers.
pub(crate) fn are_numbers(text: &[u8]) -> bool
    ensures { result ≡ list_all is_number (pieces 44 text.now) }
{
    let mut rest = Some(text);
    while let Some(some) = rest {
        let (argument, after) = first_piece(some, b',');
        if !is_number(argument) {
            return false;
        }
        rest = after;
    }
    true
}

/// Whether a source with so many `*` has one of each of the numbers between the commas.
pub(crate) fn are_indexes(stars: u64, text: &[u8]) -> bool
    ensures { result ≡ list_all (is_index stars) (pieces 44 text.now) }
{
    let mut rest = Some(text);
    while let Some(some) = rest {
        let (argument, after) = first_piece(some, b',');
        if !is_index(stars, argument) {
            return false;
        }
        rest = after;
    }
    true
}

fn is_separator_byte(byte: u8) -> bool
    ensures { result ≡ is_separator_byte byte }
{
    byte > 32 && byte != b',' && byte != b'.' && byte != b'(' && byte != b')'
}

fn are_separator_bytes(text: &[u8]) -> bool
    ensures { result ≡ list_all is_separator_byte text.now }
{
    text.iter().all(|byte| is_separator_byte(*byte))
}

pub(crate) fn is_separator(text: &[u8]) -> bool
    ensures { result ≡ is_separator text.now }
{
    match text {
        [] => false,
        [_, ..] => are_separator_bytes(text),
    }
}

fn is_digit(byte: u8) -> bool
    ensures { result ≡ is_digit byte }
{
    b'0' <= byte && byte <= b'9'
}

pub(crate) fn are_digits(text: &[u8]) -> bool
    ensures { result ≡ list_all is_digit text.now }
{
    text.iter().all(|byte| is_digit(*byte))
}

/// The two texts on both sides of a comma, where it is the only one.
pub(crate) fn two_arguments(text: &[u8]) -> Option<(&[u8], &[u8])>
    ensures { MatchOption result ((read : List ℕ → List ℕ → Result PartRead Kind) → read_two read (pieces 44 text.now) ≡ Err BadFunction)
        (λ p. pieces 44 text.now ≡ p.0.now ∷ p.1.now ∷ []) }
{
    let (first, second) = cut(text, b',')?;
    match cut(second, b',') {
        Some(_) => None,
        None => Some((first, second)),
    }
}

/// The bytes behind so many.
pub(crate) fn behind(text: &[u8], count: usize) -> &[u8]
    requires { count ≤ length text.now }
    ensures { result.now ≡ drop count text.now }
{
    &text[count..]
}
