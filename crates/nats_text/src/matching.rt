ghost use Rattle.std.specs.Prelude.{◌≡◌, ◌↔◌, [], ◌∷◌, ◌||◌, IsTrue};
ghost use Rattle.std.specs.Str.{bytes_eq};
ghost use Rattle.nats_text.specs.Text.{tail, star, tokens};
ghost use Rattle.nats_text.specs.Matching.{matches, match_tokens, overlap, overlap_tokens, meets, is_within, within_tokens, Overlap, IsWithin};

use crate::{Pattern, Subject, cut};

/// Whether the pattern matches the subject: `*` takes one token, and `>`, which stands last, takes
/// one or more (the wildcards of NATS).
pub fn matches(pattern: &Pattern, subject: &Subject) -> bool
    ensures { result ≡ matches pattern.now subject.now }
{
    text_matches(pattern.bytes(), subject.bytes())
}

// The same of any two texts.
fn text_matches(pattern: &[u8], subject: &[u8]) -> bool
    ensures { result ≡ matches pattern.now subject.now }
{
    let mut wanted = pattern;
    let mut rest = subject;
    while let Some((part, wanted_after)) = cut(wanted, b'.') {
        let Some((token, rest_after)) = cut(rest, b'.') else {
            return false;
        };
        if !takes(part, token) {
            return false;
        }
        wanted = wanted_after;
        rest = rest_after;
    }
    last_takes(wanted, rest)
}

// Whether the last token of a pattern takes what is left of a subject.
fn last_takes(part: &[u8], rest: &[u8]) -> bool
    ensures { result ≡ match_tokens (part.now ∷ []) (tokens rest.now) }
{
    match cut(rest, b'.') {
        None => is_tail(part) || takes(part, rest),
        Some(_) => is_tail(part),
    }
}

/// Whether some list of tokens matches both patterns.
pub fn overlaps(a: &Pattern, b: &Pattern) -> bool
    ensures meaning { IsTrue result ↔ Overlap a.now b.now }
    ensures value { result ≡ overlap a.now b.now }
{
    texts_overlap(a.bytes(), b.bytes())
}

fn texts_overlap(a: &[u8], b: &[u8]) -> bool
    ensures { result ≡ overlap a.now b.now }
{
    let mut rest = a;
    let mut other_rest = b;
    while let Some((part, after)) = cut(rest, b'.') {
        let Some((other, other_after)) = cut(other_rest, b'.') else {
            return is_tail(other_rest);
        };
        if !meets(part, other) {
            return false;
        }
        rest = after;
        other_rest = other_after;
    }
    last_overlaps(rest, other_rest)
}

// Whether the last token of a pattern overlaps what is left of another.
fn last_overlaps(part: &[u8], rest: &[u8]) -> bool
    ensures { result ≡ overlap_tokens (part.now ∷ []) (tokens rest.now) }
{
    match cut(rest, b'.') {
        None => is_tail(part) || is_tail(rest) || meets(part, rest),
        Some(_) => is_tail(part),
    }
}

// Whether some token is taken by both tokens of patterns, neither of which is a `>` at its end.
fn meets(part: &[u8], other: &[u8]) -> bool
    ensures { result ≡ meets part.now other.now }
{
    part == b"*".as_slice() || other == b"*".as_slice() || part == other
}

/// Whether every list of tokens that matches `a` matches `b`.
pub fn within(a: &Pattern, b: &Pattern) -> bool
    ensures meaning { IsTrue result ↔ IsWithin a.now b.now }
    ensures value { result ≡ is_within a.now b.now }
{
    text_within(a.bytes(), b.bytes())
}

fn text_within(a: &[u8], b: &[u8]) -> bool
    ensures { result ≡ is_within a.now b.now }
{
    let mut rest = a;
    let mut wider_rest = b;
    while let Some((part, after)) = cut(rest, b'.') {
        let Some((wider, wider_after)) = cut(wider_rest, b'.') else {
            return is_tail(wider_rest);
        };
        if !takes(wider, part) {
            return false;
        }
        rest = after;
        wider_rest = wider_after;
    }
    last_within(rest, wider_rest)
}

// Whether the last token of a pattern is within what is left of another.
fn last_within(part: &[u8], rest: &[u8]) -> bool
    ensures { result ≡ within_tokens (part.now ∷ []) (tokens rest.now) }
{
    match cut(rest, b'.') {
        None => is_tail(rest) || !is_tail(part) && takes(rest, part),
        Some(_) => false,
    }
}

// Whether a token of a pattern that isn't a `>` at its end takes a token.
fn takes(part: &[u8], token: &[u8]) -> bool
    ensures { result ≡ (bytes_eq part.now star || bytes_eq part.now token.now) }
{
    part == b"*".as_slice() || part == token
}

fn is_tail(part: &[u8]) -> bool
    ensures { result ≡ bytes_eq part.now tail }
{
    part == b">".as_slice()
}
