//! How publishes are answered.
use crate::entries::{full, message, mirror, number_in, plain, state};
use crate::table::fields;
use nats_text::{TextFault, number, pieces};
use std::alloc::Global;
use std::process::Abort;
use std::test::Fail;
use stream_fold::{Refusal, StreamState, Verdict};

/// Each row is a header, the moment, and the answer with its first number.
fn expect_answers(
    rt: &impl Abort,
    alloc: Global,
    state: &StreamState,
    table: &[u8],
) -> Result<(), Fail> {
    for row in &pieces(alloc, table, b'\n')? {
        let is_right = answers(alloc, state, row)?;
        assert!(rt; is_right, "{row:?}");
    }
    Ok(())
}

fn answers(alloc: Global, state: &StreamState, row: &[u8]) -> Result<bool, TextFault> {
    let (name, rest) = fields(row, b' ');
    let (value, rest) = fields(rest, b' ');
    let (now, want) = fields(rest, b' ');
    let (word, seq) = fields(want, b' ');
    let (found, count) = answer(alloc, state, name, value, number_in(now))?;
    Ok(found == word && count == number(seq))
}

type Answer = (&'static [u8], Option<u64>);

fn answer(
    alloc: Global,
    state: &StreamState,
    name: &[u8],
    value: &[u8],
    now: u64,
) -> Result<Answer, TextFault> {
    let message = message(alloc, b"a", now, name, value)?;
    Ok(told(state.check(alloc, &message, now)))
}

/// The word of an answer, and its first number.
fn told(answer: Result<Verdict, Refusal>) -> Answer {
    match answer {
        Ok(Verdict::Fresh) => (b"Fresh", None),
        Ok(Verdict::Duplicate { seq }) => (b"Duplicate", Some(seq)),
        Err(refusal) => refused(&refusal),
    }
}

fn refused(refusal: &Refusal) -> Answer {
    match refusal {
        Refusal::IsMirror => (b"IsMirror", None),
        Refusal::BadHeader { .. } => (b"BadHeader", None),
        Refusal::WrongStream => (b"WrongStream", None),
        Refusal::WrongLast { kept } => (b"WrongLast", Some(*kept)),
        Refusal::WrongSubjectLast { kept } => (b"WrongSubjectLast", Some(*kept)),
        Refusal::TooLarge { size, .. } => (b"TooLarge", Some(*size)),
        Refusal::SeqEnd => (b"SeqEnd", None),
        Refusal::Full { count, .. } => (b"Full", Some(*count)),
        Refusal::NoMemory => (b"NoMemory", None),
    }
}

#[test]
fn a_full_stream_answers(rt: HostRuntime) -> Result<(), Fail> {
    let state = full(rt.alloc())?;
    expect_answers(&rt, rt.alloc(), &state, FULL)
}

const FULL: &[u8] = b"\
    Nats-Msg-Id x 14 Duplicate 1\n\
    Nats-Msg-Id x 15 Full 2\n\
    Nats-Msg-Id y 14 Full 2\n\
    Nats-TTL 1 14 BadHeader\n\
    Nats-Expected-Stream S 14 WrongStream\n\
    Nats-Expected-Stream M 14 Full 2\n\
    Nats-Expected-Last-Sequence 2 14 WrongLast 1\n\
    Nats-Expected-Last-Subject-Sequence 0 14 WrongSubjectLast 1";

#[test]
fn a_mirror_takes_no_publish(rt: HostRuntime) -> Result<(), Fail> {
    let state = mirrored(rt.alloc())?;
    expect_answers(
        &rt,
        rt.alloc(),
        &state,
        b"Nats-TTL 1 6 IsMirror\nA b 6 IsMirror",
    )
}

fn mirrored(alloc: Global) -> Result<StreamState, TextFault> {
    let config = mirror(alloc)?;
    state(alloc, config, b"put 1 a 5")
}

// The number 2^63 - 1 is the last one.
#[test]
fn numbers_come_to_an_end(rt: HostRuntime) -> Result<(), Fail> {
    let before = b"put 9223372036854775806 a 5";
    let after = b"put 9223372036854775806 a 5,put 9223372036854775807 a 6";
    expect_last(&rt, rt.alloc(), before, b"A b 6 Fresh")?;
    expect_last(&rt, rt.alloc(), after, b"A b 7 SeqEnd")
}

fn expect_last(rt: &impl Abort, alloc: Global, entries: &[u8], table: &[u8]) -> Result<(), Fail> {
    let state = after(alloc, entries)?;
    expect_answers(rt, alloc, &state, table)
}

fn after(alloc: Global, entries: &[u8]) -> Result<StreamState, TextFault> {
    let config = plain(alloc)?;
    state(alloc, config, entries)
}
