//! Configurations, entries from their texts, and the states that these leave.
ghost use Rattle.std.specs.Prelude.{◌≡◌, IfOk};
ghost use Rattle.stream_fold.specs.Histories.{History};
ghost use Rattle.stream_fold.specs.Held.{StandsFor};

use crate::table::fields;
use nats_text::{
    Bytes, Headers, List, Message, Name, Pattern, Start, Subject, TextFault, number, pieces,
};
use std::alloc::Global;
use stream_fold::{Config, Copies, Discard, Entry, Origin, StreamState};

/// A stream that keeps three messages, two of each subject, for 10 nanoseconds.
fn config(name: Name, subjects: List<Pattern>, copies: Copies) -> Config {
    Config {
        name,
        subjects,
        max_msgs: 3,
        max_bytes: 0,
        max_age: 10,
        max_per_subject: 2,
        max_msg_size: 0,
        discard: Discard::Old,
        window: 0,
        transform: None,
        copies,
    }
}

/// Such a stream `M` of the subject `a`.
pub fn plain(alloc: Global) -> Result<Config, TextFault> {
    let subjects = patterns(alloc, b"a")?;
    let name = Name::read(alloc, b"M")?;
    Ok(config(name, subjects, Copies::Nothing))
}

/// Such a mirror of the stream `S`.
pub fn mirror(alloc: Global) -> Result<Config, TextFault> {
    let stream = Name::read(alloc, b"S")?;
    let name = Name::read(alloc, b"M")?;
    let origin = Origin {
        node: None,
        stream,
        start: Start::Seq(1),
        filter: None,
        maps: List::new(alloc),
    };
    Ok(config(name, List::new(alloc), Copies::Mirror(origin)))
}

/// A stream `M` of the subject `a` that keeps one message and is full then.
pub fn full_of_one(alloc: Global) -> Result<Config, TextFault> {
    let mut config = plain(alloc)?;
    config.max_msgs = 1;
    config.discard = Discard::New;
    config.window = 10;
    Ok(config)
}

/// The patterns of a text, with commas between them.
pub fn patterns(alloc: Global, text: &[u8]) -> Result<List<Pattern>, TextFault> {
    let mut patterns = List::new(alloc);
    if text.is_empty() {
        return Ok(patterns);
    }
    for part in &pieces(alloc, text, b',')? {
        patterns.push(Pattern::read(alloc, part)?)?;
    }
    Ok(patterns)
}

/// A message on this subject at this time, with one header where it has a name.
pub fn message(
    alloc: Global,
    subject: &[u8],
    time: u64,
    name: &[u8],
    value: &[u8],
) -> Result<Message, TextFault> {
    let headers = headers(alloc, name, value)?;
    let payload = Bytes::from_slice(alloc, b"text")?;
    let subject = Subject::read(alloc, subject)?;
    Ok(Message {
        subject,
        headers,
        payload,
        time,
    })
}

fn headers(alloc: Global, name: &[u8], value: &[u8]) -> Result<Headers, TextFault> {
    let mut headers = Headers::empty(alloc);
    if Headers::legal(name, value) {
        headers.set(name, value)?;
    }
    Ok(headers)
}

/// The entry of a text: `put SEQ SUBJECT TIME [NAME VALUE]`, `del SEQ`, `purge PATTERN BELOW`,
/// `bind INDEX` or `expire NOW`.
fn entry(alloc: Global, text: &[u8]) -> Result<Entry, TextFault> {
    let (kind, rest) = fields(text, b' ');
    let (first, rest) = fields(rest, b' ');
    let seq = number_in(first);
    match kind {
        b"put" => put(alloc, seq, rest),
        b"del" => Ok(Entry::Del { seq }),
        b"purge" => purge(alloc, first, number_in(rest)),
        b"bind" => Ok(Entry::Bind {
            index: if seq == 0 { 0 } else { 1 },
            incarnation: 9,
            start: 2,
        }),
        _ => Ok(Entry::Expire { now: seq }),
    }
}

fn put(alloc: Global, seq: u64, text: &[u8]) -> Result<Entry, TextFault> {
    let (subject, rest) = fields(text, b' ');
    let (time, header) = fields(rest, b' ');
    let (name, value) = fields(header, b' ');
    let message = message(alloc, subject, number_in(time), name, value)?;
    let mark = None;
    Ok(Entry::Put { seq, message, mark })
}

fn purge(alloc: Global, pattern: &[u8], below: u64) -> Result<Entry, TextFault> {
    let pattern = Pattern::read(alloc, pattern)?;
    Ok(Entry::Purge { pattern, below })
}

/// A number of a row.
pub fn number_in(text: &[u8]) -> u64 {
    number(text).unwrap_or(0)
}

/// The state of a new stream after those of these entries that fit, with commas between them.
pub fn state(alloc: Global, config: Config, entries: &[u8]) -> Result<StreamState, TextFault>
    ensures { IfOk result (λ state. (h : History) × StandsFor state h) }
{
    let mut state = StreamState::new(alloc, config)?;
    for text in &pieces(alloc, entries, b',')? {
        takes(alloc, &mut state, text)?;
    }
    Ok(state)
}

/// A stream that is full of one message, which a client sent as `x` at the moment 5.
pub fn full(alloc: Global) -> Result<StreamState, TextFault> {
    let config = full_of_one(alloc)?;
    state(alloc, config, b"put 1 a 5 Nats-Msg-Id x")
}

/// Whether the entry of a text fits, and was taken.
pub fn takes(alloc: Global, state: &mut StreamState, text: &[u8]) -> Result<bool, TextFault>
    requires { (h : History) × StandsFor state.old h }
    ensures { (h : History) × StandsFor state.new h }
{
    let entry = entry(alloc, text)?;
    if !state.fits(&entry) {
        return Ok(false);
    }
    state.reserve_for(&entry)?;
    state.apply(entry);
    Ok(true)
}
