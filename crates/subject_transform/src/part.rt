//! The tokens of a destination, read one at a time. It takes no memory.
ghost use Rattle.std.specs.Prelude.{◌≡◌, ◌≤◌, ◌&&◌, ◌∷◌, [], length, IsTrue, IfOk};
ghost use Rattle.std.specs.List.{list_all};
ghost use Rattle.std.specs.Str.{is_utf8};
ghost use Rattle.nats_text.specs.Pieces.{pieces};
ghost use Rattle.subject_transform.specs.Parts.{is_number, number, is_count, is_length, is_bad_token, is_braced, is_dollar, if_numbered, read_part, read_wildcard, read_partition, read_two, read_split, read_dotted, read_function, read_closed, read_opened};
ghost use Rattle.subject_transform.specs.PartsOf.{part_of, is_sound, reading};

use crate::TransformKind;
use crate::argument::{
    are_digits, are_indexes, are_numbers, behind, is_index, is_number, is_separator, number,
    two_arguments,
};
use crate::function::{Dots, Function};
use nats_text::cut;

/// One token of a destination. An index is the number, from 1, of a `*` of the source.
#[derive(Clone, Copy)]
pub(crate) enum Part<'a> {
    /// It stands as it is.
    Literal(&'a [u8]),
    /// The tokens that the `>` of the source took.
    Rest,
    /// A token as it was taken.
    Token(u64),
    /// The number of a partition, of so many, for the tokens of the indexes between the commas.
    Partition { count: u64, indexes: &'a [u8] },
    /// A token, split at each separator.
    Split { index: u64, separator: &'a [u8] },
    /// A token with dots by this length.
    Dotted { dots: Dots, index: u64, len: u64 },
}

impl<'a> Part<'a> {
    /// Reads a token of a destination for a source with so many `*`.
    pub fn read(stars: u64, is_last: bool, token: &'a [u8]) -> Result<Part<'a>, TransformKind>
        ensures value { reading result ≡ read_part stars is_last token.now }
        ensures sound { IfOk result (λ part. IsTrue (is_sound part)) }
    {
        if is_bad_token(is_last, token) {
            return Err(TransformKind::BadDest);
        }
        if token == b">".as_slice() {
            return Ok(Part::Rest);
        }
        if is_dollar(token) {
            return wildcard(stars, behind(token, 1));
        }
        if is_braced(token) {
            return opened(stars, &token[2..token.len() - 2]);
        }
        Ok(Part::Literal(token))
    }
}

// Whether no destination may have this token, whatever the others are.
fn is_bad_token(is_last: bool, token: &[u8]) -> bool
    ensures { result ≡ is_bad_token is_last token.now }
{
    token.is_empty()
        || !is_utf8(token)
        || token == b"*".as_slice()
        || token == b">".as_slice() && !is_last
}

fn is_utf8(text: &[u8]) -> bool
    ensures { result ≡ is_utf8 text.now }
{
    match str::from_utf8(text) {
        Ok(_) => true,
        Err(_) => false,
    }
}

fn is_dollar(token: &[u8]) -> bool
    ensures value { result ≡ is_dollar token.now }
    ensures long { IsTrue result → 1 ≤ length token.now }
{
    token.len() > 1 && token.starts_with(b"$") && are_digits(behind(token, 1))
}

fn is_braced(token: &[u8]) -> bool
    ensures value { result ≡ is_braced token.now }
    ensures long { IsTrue result → 4 ≤ length token.now }
{
    token.len() >= 4 && token.starts_with(b"{{") && token.ends_with(b"}}")
}

// What stands between the braces: a name, and behind its `(` the arguments and a `)`.
fn opened<'a>(stars: u64, text: &'a [u8]) -> Result<Part<'a>, TransformKind>
    ensures value { reading result ≡ read_opened stars (pieces 40 text.now) }
    ensures sound { IfOk result (λ part. IsTrue (is_sound part)) }
{
    match cut(text, b'(') {
        Some((name, rest)) => closed(stars, name, rest),
        None => Err(TransformKind::BadFunction),
    }
}

fn closed<'a>(stars: u64, name: &[u8], text: &'a [u8]) -> Result<Part<'a>, TransformKind>
    ensures value { reading result ≡ read_closed stars name.now text.now }
    ensures sound { IfOk result (λ part. IsTrue (is_sound part)) }
{
    if !text.ends_with(b")") {
        return Err(TransformKind::BadFunction);
    }
    called(stars, Function::named(name), &text[..text.len() - 1])
}

fn called<'a>(
    stars: u64,
    function: Option<Function>,
    text: &'a [u8],
) -> Result<Part<'a>, TransformKind>
    ensures value { reading result ≡ read_function stars function (pieces 44 text.now) }
    ensures sound { IfOk result (λ part. IsTrue (is_sound part)) }
{
    match function {
        None => Err(TransformKind::BadFunction),
        Some(Function::Wildcard) => one_token(stars, text),
        Some(Function::Partition) => partition(stars, text),
        Some(Function::Split) => split(stars, text),
        Some(Function::Dotted(dots)) => dotted(stars, dots, text),
    }
}

// The part, where the numbers are such and each index is that of a `*`.
fn checked<'a>(are_numbers: bool, is_there: bool, part: Part<'a>) -> Result<Part<'a>, TransformKind>
    ensures value { reading result ≡ if_numbered are_numbers is_there (part_of part.entry) }
    ensures same { IfOk result (λ read. read ≡ part.entry) }
    ensures numbers { IfOk result (λ _. IsTrue are_numbers) }
{
    match (are_numbers, is_there) {
        (false, _) => Err(TransformKind::BadNumber),
        (true, false) => Err(TransformKind::BadIndex),
        (true, true) => Ok(part),
    }
}

fn one_token<'a>(stars: u64, text: &'a [u8]) -> Result<Part<'a>, TransformKind>
    ensures value { reading result ≡ read_wildcard stars (pieces 44 text.now) }
    ensures sound { IfOk result (λ part. IsTrue (is_sound part)) }
{
    match cut(text, b',') {
        Some(_) => Err(TransformKind::BadFunction),
        None => wildcard(stars, text),
    }
}

fn wildcard<'a>(stars: u64, index: &[u8]) -> Result<Part<'a>, TransformKind>
    ensures value { reading result ≡ read_wildcard stars (index.now ∷ []) }
    ensures sound { IfOk result (λ part. IsTrue (is_sound part)) }
{
    if index.is_empty() {
        return Err(TransformKind::BadFunction);
    }
    checked(
        is_number(index),
        is_index(stars, index),
        Part::Token(number(index)),
    )
}

fn partition<'a>(stars: u64, text: &'a [u8]) -> Result<Part<'a>, TransformKind>
    ensures value { reading result ≡ read_partition stars (pieces 44 text.now) }
    ensures sound { IfOk result (λ part. IsTrue (is_sound part)) }
{
    match cut(text, b',') {
        Some((count, indexes)) => {
            let part = Part::Partition {
                count: number(count),
                indexes,
            };
            checked(
                are_partition_numbers(count, indexes),
                are_indexes(stars, indexes),
                part,
            )
        }
        None => Err(TransformKind::BadFunction),
    }
}

fn are_partition_numbers(count: &[u8], indexes: &[u8]) -> bool
    ensures { result ≡ (is_number count.now && is_count (number count.now) && list_all is_number (pieces 44 indexes.now)) }
{
    is_number(count) && is_count(number(count)) && are_numbers(indexes)
}

fn is_count(count: u64) -> bool
    ensures { result ≡ is_count count }
{
    0 < count && count < 1 << 32
}

fn split<'a>(stars: u64, text: &'a [u8]) -> Result<Part<'a>, TransformKind>
    ensures value { reading result ≡ read_two (read_split stars) (pieces 44 text.now) }
    ensures sound { IfOk result (λ part. IsTrue (is_sound part)) }
{
    let Some((index, separator)) = two_arguments(text) else {
        return Err(TransformKind::BadFunction);
    };
    if !is_separator(separator) {
        return Err(TransformKind::BadFunction);
    }
    let part = Part::Split {
        index: number(index),
        separator,
    };
    checked(is_number(index), is_index(stars, index), part)
}

fn dotted<'a>(stars: u64, dots: Dots, text: &'a [u8]) -> Result<Part<'a>, TransformKind>
    ensures value { reading result ≡ read_two (read_dotted stars dots) (pieces 44 text.now) }
    ensures sound { IfOk result (λ part. IsTrue (is_sound part)) }
{
    let Some((index, len)) = two_arguments(text) else {
        return Err(TransformKind::BadFunction);
    };
    let part = Part::Dotted {
        dots,
        index: number(index),
        len: number(len),
    };
    checked(
        are_dotted_numbers(dots, index, len),
        is_index(stars, index),
        part,
    )
}

fn are_dotted_numbers(dots: Dots, index: &[u8], len: &[u8]) -> bool
    ensures { result ≡ (is_number index.now && is_number len.now && is_length dots (number len.now)) }
{
    is_number(index) && is_number(len) && dots.is_length(number(len))
}
