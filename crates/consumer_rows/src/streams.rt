//! Streams that keep what a text says.
ghost use Rattle.stream_fold.specs.Histories.{History};
ghost use Rattle.stream_fold.specs.Held.{StandsFor};

use crate::table::{fields, number_in};
use nats_text::{Bytes, Headers, List, Message, Name, Subject, TextFault, pieces};
use std::alloc::Global;
use stream_fold::{Config, Copies, Discard, Entry, StreamState};

/// A stream `S` without limits.
fn config(alloc: Global) -> Result<Config, TextFault> {
    Ok(Config {
        name: Name::read(alloc, b"S")?,
        subjects: List::new(alloc),
        max_msgs: 0,
        max_bytes: 0,
        max_age: 0,
        max_per_subject: 0,
        max_msg_size: 0,
        discard: Discard::Old,
        window: 1,
        transform: None,
        copies: Copies::Nothing,
    })
}

/// The entry of a text: `put SEQ SUBJECT LEN`, with a payload of so many bytes, or `del SEQ`.
fn entry(alloc: Global, text: &[u8]) -> Result<Entry, TextFault> {
    let (kind, rest) = fields(text, b' ');
    let (first, rest) = fields(rest, b' ');
    let seq = number_in(first);
    if kind == b"del".as_slice() {
        return Ok(Entry::Del { seq });
    }
    let (subject, len) = fields(rest, b' ');
    let message = message(alloc, subject, number_in(len) as usize)?;
    let mark = None;
    Ok(Entry::Put { seq, message, mark })
}

fn message(alloc: Global, subject: &[u8], len: usize) -> Result<Message, TextFault> {
    let subject = Subject::read(alloc, subject)?;
    Ok(Message {
        subject,
        headers: Headers::empty(alloc),
        payload: Bytes::from_vec(vec![in alloc; 7u8; len]?),
        time: 0,
    })
}

/// The state of the stream after those of these entries that fit, with commas between them.
pub fn state(alloc: Global, entries: &[u8]) -> Result<StreamState, TextFault> {
    let config = config(alloc)?;
    let mut state = StreamState::new(alloc, config)?;
    for text in &pieces(alloc, entries, b',')? {
        take(alloc, &mut state, text)?;
    }
    Ok(state)
}

fn take(alloc: Global, state: &mut StreamState, text: &[u8]) -> Result<(), TextFault>
    requires { (h : History) × StandsFor state.old h }
    ensures { (h : History) × StandsFor state.new h }
{
    let entry = entry(alloc, text)?;
    if !state.fits(&entry) {
        return Ok(());
    }
    state.reserve_for(&entry)?;
    state.apply(entry);
    Ok(())
}
