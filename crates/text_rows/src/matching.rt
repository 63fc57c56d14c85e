//! Patterns and subjects of the NATS documentation ("Subject-Based Messaging"), and the edges between
//! them.
use crate::table::fields;
use nats_text::{Name, Pattern, Subject, TextFault, matches, overlaps, pieces, within};
use std::alloc::{AllocError, Global};
use std::test::Fail;

/// Each row is a pattern, a subject, and whether it matches.
const MATCHES: &[u8] = b"\
    time.us.east time.us.east yes\n\
    time.us.east time.us.west no\n\
    time.*.east time.us.east yes\n\
    time.*.east time.eu.east yes\n\
    time.*.east time.us.west no\n\
    time.*.east time.us.east.atlanta no\n\
    time.*.east time.east no\n\
    time.New*.east time.NewYork.east no\n\
    time.New*.east time.New*.east yes\n\
    time.us.* time.us.east yes\n\
    time.us.* time.us.east.atlanta no\n\
    time.us.* time.us no\n\
    time.us.> time.us.east yes\n\
    time.us.> time.us.east.atlanta yes\n\
    time.us.> time.us no\n\
    time.us.> time.eu.east no\n\
    *.*.east.> time.us.east.atlanta yes\n\
    *.*.east.> time.us.east no\n\
    > time yes\n\
    > time.us.east yes\n\
    * time yes\n\
    * time.us no\n\
    time times no\n\
    times time no\n\
    time Time no\n\
    time time.us no\n\
    time.us time no";

#[test]
fn patterns_match_subjects(rt: HostRuntime) -> Result<(), Fail> {
    for row in &pieces(rt.alloc(), MATCHES, b'\n')? {
        let is_right = is_match(rt.alloc(), row)?;
        assert!(rt; is_right, "{row:?}");
    }
    Ok(())
}

/// Whether a pattern takes a subject as a row says.
fn is_match(alloc: Global, row: &[u8]) -> Result<bool, TextFault> {
    let (pattern, row) = fields(row, b' ');
    let (subject, want) = fields(row, b' ');
    let pattern = Pattern::read(alloc, pattern)?;
    let subject = Subject::read(alloc, subject)?;
    Ok(matches(&pattern, &subject) == is_yes(want))
}

fn is_yes(word: &[u8]) -> bool {
    word == b"yes".as_slice()
}

/// Each row is two patterns, and whether they overlap, whether the first is within the second, and
/// whether the second is within the first.
const PATTERNS: &[u8] = b"\
    time.us.east time.us.east yes yes yes\n\
    time.us.east time.us.west no no no\n\
    time.us.east time.*.east yes yes no\n\
    time.us.east time.us.> yes yes no\n\
    time.us.east > yes yes no\n\
    time.us.east * no no no\n\
    time.us.* time.*.east yes no no\n\
    time.*.east time.us.west no no no\n\
    time.*.east time.*.* yes yes no\n\
    time.us.* time.us.> yes yes no\n\
    time.us.> time.us no no no\n\
    time.us.> time.us.east.atlanta yes no yes\n\
    time.us.> time.*.east.atlanta yes no no\n\
    time.us.> time.> yes yes no\n\
    time.us.> time.us.> yes yes yes\n\
    time.us.> time.eu.> no no no\n\
    > > yes yes yes\n\
    > * yes no yes\n\
    > *.> yes no yes\n\
    *.> *.* yes no yes\n\
    *.> * no no no\n\
    * *.* no no no\n\
    * time yes no yes";

#[test]
fn patterns_are_compared(rt: HostRuntime) -> Result<(), Fail> {
    for row in &pieces(rt.alloc(), PATTERNS, b'\n')? {
        let is_right = is_compared(rt.alloc(), row)?;
        assert!(rt; is_right, "{row:?}");
    }
    Ok(())
}

/// Whether two patterns stand to one another as a row says.
fn is_compared(alloc: Global, row: &[u8]) -> Result<bool, TextFault> {
    let (first, row) = fields(row, b' ');
    let (second, row) = fields(row, b' ');
    let (overlap, row) = fields(row, b' ');
    let (inside, around) = fields(row, b' ');
    let first = Pattern::read(alloc, first)?;
    let second = Pattern::read(alloc, second)?;
    Ok(
        overlaps(&first, &second) == is_yes(overlap)
            && overlaps(&second, &first) == is_yes(overlap)
            && within(&first, &second) == is_yes(inside)
            && within(&second, &first) == is_yes(around),
    )
}

// A subject of 1,024 bytes in 512 tokens, and a pattern of 512 wildcards.
#[test]
fn many_tokens_are_matched(rt: HostRuntime) -> Result<(), Fail> {
    let subject = tokens(rt.alloc(), b"tt", b".t")?;
    assert!(rt; subject.len() == 1024);
    let subject = Subject::read(rt.alloc(), &subject)?;
    let pattern = pattern_of_many(rt.alloc())?;
    assert!(rt; matches(&pattern, &subject));
    let exact = Pattern::of_subject(subject);
    assert!(rt;
        overlaps(&pattern, &exact) && within(&exact, &pattern) && !within(&pattern, &exact)
    );
    Ok(())
}

fn pattern_of_many(alloc: Global) -> Result<Pattern, TextFault> {
    let text = tokens(alloc, b"*", b".*")?;
    Pattern::read(alloc, &text)
}

fn tokens(alloc: Global, first: &[u8], next: &[u8]) -> Result<Vec<u8>, AllocError> {
    let mut text = first.to_vec(alloc)?;
    for _ in 1..512 {
        text.extend_from_slice(next)?;
    }
    Ok(text)
}

#[test]
fn a_name_is_a_subject_and_a_pattern(rt: HostRuntime) -> Result<(), Fail> {
    let name = Name::read(rt.alloc(), b"ORDERS")?;
    let pattern = Pattern::of_subject(Subject::of_name(name));
    assert!(rt; pattern.bytes() == b"ORDERS".as_slice());
    Ok(())
}
