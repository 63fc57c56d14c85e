//! Calls of a shard as texts.
use crate::table::{fields, number_in};
use leafd_script::{Line, read_line};
use nats_text::{
    Bytes, Headers, List, Message, Name, NoMemory, Origin, Pattern, Start, Subject, TextFault,
};
use shard_machine::{ShardCall, Which};
use std::alloc::Global;
use std::test::Fail;
use stream_fold::{Config, Copies};

/// What a text asks for.
#[derive(Clone, Copy)]
enum Verb {
    Create,
    Gather,
    Update,
    Remove,
    Publish,
    PublishWithId,
    Delete,
    Purge,
    Expire,
    GetSeq,
    GetLast,
    Info,
    Names,
    Pump,
    Reach,
    Tick,
    LinkLost,
}

const VERBS: [(&[u8], Verb); 18] = [
    (b"stream", Verb::Create),
    (b"mirror", Verb::Create),
    (b"source", Verb::Gather),
    (b"update", Verb::Update),
    (b"remove", Verb::Remove),
    (b"pub", Verb::Publish),
    (b"hpub", Verb::PublishWithId),
    (b"del", Verb::Delete),
    (b"purge", Verb::Purge),
    (b"expire", Verb::Expire),
    (b"get", Verb::GetSeq),
    (b"last", Verb::GetLast),
    (b"info", Verb::Info),
    (b"names", Verb::Names),
    (b"pump", Verb::Pump),
    (b"reach", Verb::Reach),
    (b"tick", Verb::Tick),
    (b"lost", Verb::LinkLost),
];

fn verb_of(word: &[u8]) -> Option<Verb> {
    for (text, verb) in &VERBS {
        if *text == word {
            return Some(*verb);
        }
    }
    None
}

/// The call that a text stands for, at this moment: `stream n S OPTIONS`, `mirror n S ON OS`, `source S ON OS`,
/// `update stream n S OPTIONS`, `remove S`, `pub n S SUBJECT TEXT`, `hpub n S SUBJECT HEADER:VALUE TEXT`, `del n S SEQ`,
/// `purge n S PATTERN BELOW`, whose last words may be left out, `expire n S`, `get S SEQ`, `last S SUBJECT`, `info S`,
/// `names`, `pump S BUDGET`, `reach NODE 1`, `reach NODE 0`, `tick` or `lost`. The words behind `stream` and `mirror`
/// are those of a script.
pub fn call_of(alloc: Global, text: &[u8], now: u64) -> Result<ShardCall, Fail> {
    let (word, rest) = fields(text, b' ');
    let Some(verb) = verb_of(word) else {
        return Err("it is a call".into());
    };
    match verb {
        Verb::Create => creating(alloc, text, now),
        Verb::Gather => gathering(alloc, rest, now),
        Verb::Update => limiting(alloc, rest),
        Verb::Publish | Verb::PublishWithId | Verb::Delete | Verb::Purge | Verb::Expire => {
            let (_, rest) = fields(rest, b' ');
            Ok(changing(alloc, verb, rest, now)?)
        }
        _ => Ok(asking(alloc, verb, rest, now)?),
    }
}

/// The call of a stream that changes its messages.
fn changing(alloc: Global, verb: Verb, rest: &[u8], now: u64) -> Result<ShardCall, TextFault> {
    let (name, rest) = fields(rest, b' ');
    match verb {
        Verb::Publish => publishing(alloc, name, rest, now),
        Verb::PublishWithId => publishing_with_header(alloc, name, rest, now),
        Verb::Delete => deleting(alloc, name, rest),
        Verb::Purge => purging(alloc, name, rest),
        _ => expiring(alloc, name, now),
    }
}

/// Any other call.
fn asking(alloc: Global, verb: Verb, rest: &[u8], now: u64) -> Result<ShardCall, TextFault> {
    match verb {
        Verb::Remove => removing(alloc, rest),
        Verb::GetSeq => showing_seq(alloc, rest),
        Verb::GetLast => showing_last(alloc, rest),
        Verb::Info => informing(alloc, rest),
        Verb::Pump => pumping(alloc, rest, now),
        Verb::Reach => reaching(alloc, rest, now),
        Verb::Tick => Ok(ShardCall::Tick { now }),
        Verb::LinkLost => Ok(ShardCall::LinkLost),
        _ => Ok(ShardCall::Names),
    }
}

pub fn name_of(alloc: Global, bytes: &[u8]) -> Result<Name, TextFault> {
    Name::read(alloc, bytes)
}

/// The configuration of a line of a script.
fn config_in(alloc: Global, line: &[u8]) -> Result<Config, Fail> {
    match config_of(line_of(alloc, line)?) {
        Some(config) => Ok(config),
        None => Err("it makes a stream".into()),
    }
}

fn line_of(alloc: Global, line: &[u8]) -> Result<Line, Fail> {
    match read_line(alloc, line) {
        Ok(Some(line)) => Ok(line),
        Ok(None) => Err("the line says something".into()),
        Err(_) => Err("it is a line of a script".into()),
    }
}

fn config_of(line: Line) -> Option<Config> {
    match line {
        Line::Stream { config, .. } => Some(config),
        Line::Mirror { config, .. } => Some(config),
        other => {
            drop(other);
            None
        }
    }
}

fn creating(alloc: Global, line: &[u8], now: u64) -> Result<ShardCall, Fail> {
    let config = config_in(alloc, line)?;
    Ok(ShardCall::Create { config, now })
}

fn limiting(alloc: Global, line: &[u8]) -> Result<ShardCall, Fail> {
    let config = config_in(alloc, line)?;
    Ok(ShardCall::Update { config })
}

/// A stream that gathers the messages of one on another node.
fn gathering(alloc: Global, rest: &[u8], now: u64) -> Result<ShardCall, Fail> {
    let (name, origin) = fields(rest, b' ');
    let origins = origins_of(alloc, origin)?;
    match config_named(alloc, name) {
        Ok(config) => Ok(ShardCall::Create {
            config: gathered(config, origins),
            now,
        }),
        Err(fault) => {
            drop(origins);
            Err(fault)
        }
    }
}

/// The configuration with these origins in place of what it copies.
fn gathered(config: Config, origins: List<Origin>) -> Config {
    let Config {
        name,
        subjects,
        max_msgs,
        max_bytes,
        max_age,
        max_per_subject,
        max_msg_size,
        discard,
        window,
        transform,
        copies,
    } = config;
    drop(copies);
    Config {
        name,
        subjects,
        max_msgs,
        max_bytes,
        max_age,
        max_per_subject,
        max_msg_size,
        discard,
        window,
        transform,
        copies: Copies::Sources(origins),
    }
}

/// The configuration of a stream without options.
fn config_named(alloc: Global, name: &[u8]) -> Result<Config, Fail> {
    let mut line = b"stream n ".to_vec(alloc)?;
    line.extend_from_slice(name)?;
    config_in(alloc, line.as_slice())
}

/// The one origin of a stream on another node, from its first message on.
fn origins_of(alloc: Global, text: &[u8]) -> Result<List<Origin>, TextFault> {
    let (node, stream) = fields(text, b' ');
    let stream = name_of(alloc, stream)?;
    match name_of(alloc, node) {
        Ok(node) => Ok(list_of(alloc, origin_on(alloc, node, stream))?),
        Err(fault) => {
            drop(stream);
            Err(fault)
        }
    }
}

fn origin_on(alloc: Global, node: Name, stream: Name) -> Origin {
    Origin {
        node: Some(node),
        stream,
        start: Start::Seq(1),
        filter: None,
        maps: List::new(alloc),
    }
}

fn list_of(alloc: Global, origin: Origin) -> Result<List<Origin>, NoMemory> {
    let mut origins = List::new(alloc);
    match origins.push(origin) {
        Ok(()) => Ok(origins),
        Err(fault) => {
            drop(origins);
            Err(fault)
        }
    }
}

fn publishing(alloc: Global, name: &[u8], rest: &[u8], now: u64) -> Result<ShardCall, TextFault> {
    let (subject, text) = fields(rest, b' ');
    let message = message_of(alloc, subject, text)?;
    published(alloc, name, message, now)
}

fn published(
    alloc: Global,
    name: &[u8],
    message: Message,
    now: u64,
) -> Result<ShardCall, TextFault> {
    match name_of(alloc, name) {
        Ok(name) => Ok(ShardCall::Publish { name, message, now }),
        Err(fault) => {
            drop(message);
            Err(fault)
        }
    }
}

fn publishing_with_header(
    alloc: Global,
    name: &[u8],
    rest: &[u8],
    now: u64,
) -> Result<ShardCall, TextFault> {
    let (subject, rest) = fields(rest, b' ');
    let (header, text) = fields(rest, b' ');
    let message = message_with(alloc, subject, header, text)?;
    published(alloc, name, message, now)
}

/// A message with one header line, whose name and value have a colon between them.
fn message_with(
    alloc: Global,
    subject: &[u8],
    header: &[u8],
    text: &[u8],
) -> Result<Message, TextFault> {
    let (name, value) = fields(header, b':');
    let mut message = message_of(alloc, subject, text)?;
    if !Headers::legal(name, value) {
        return Ok(message);
    }
    match message.headers.add(name, value) {
        Ok(()) => Ok(message),
        Err(fault) => {
            drop(message);
            Err(fault.into())
        }
    }
}

fn message_of(alloc: Global, subject: &[u8], text: &[u8]) -> Result<Message, TextFault> {
    let payload = Bytes::from_slice(alloc, text)?;
    match Subject::read(alloc, subject) {
        Ok(subject) => Ok(plain_message(alloc, subject, payload)),
        Err(fault) => {
            drop(payload);
            Err(fault)
        }
    }
}

fn plain_message(alloc: Global, subject: Subject, payload: Bytes) -> Message {
    Message {
        subject,
        headers: Headers::empty(alloc),
        payload,
        time: 0,
    }
}

fn deleting(alloc: Global, name: &[u8], seq: &[u8]) -> Result<ShardCall, TextFault> {
    let name = name_of(alloc, name)?;
    let seq = number_in(seq);
    Ok(ShardCall::Delete { name, seq })
}

/// A purge of all that match a pattern, or of those below a number.
fn purging(alloc: Global, name: &[u8], rest: &[u8]) -> Result<ShardCall, TextFault> {
    let (pattern, below) = fields(rest, b' ');
    let pattern = if pattern.is_empty() {
        b">".as_slice()
    } else {
        pattern
    };
    let below = if below.is_empty() {
        None
    } else {
        Some(number_in(below))
    };
    let name = name_of(alloc, name)?;
    match Pattern::read(alloc, pattern) {
        Ok(pattern) => Ok(ShardCall::Purge {
            name,
            pattern,
            below,
        }),
        Err(fault) => {
            drop(name);
            Err(fault)
        }
    }
}

fn expiring(alloc: Global, name: &[u8], now: u64) -> Result<ShardCall, TextFault> {
    let name = name_of(alloc, name)?;
    Ok(ShardCall::Expire { name, now })
}

fn removing(alloc: Global, name: &[u8]) -> Result<ShardCall, TextFault> {
    let name = name_of(alloc, name)?;
    Ok(ShardCall::Remove { name })
}

fn showing_seq(alloc: Global, rest: &[u8]) -> Result<ShardCall, TextFault> {
    let (name, seq) = fields(rest, b' ');
    let name = name_of(alloc, name)?;
    let which = Which::Seq(number_in(seq));
    Ok(ShardCall::Get { name, which })
}

fn showing_last(alloc: Global, rest: &[u8]) -> Result<ShardCall, TextFault> {
    let (name, subject) = fields(rest, b' ');
    let name = name_of(alloc, name)?;
    match Subject::read(alloc, subject) {
        Ok(subject) => Ok(ShardCall::Get {
            name,
            which: Which::LastOf(subject),
        }),
        Err(fault) => {
            drop(name);
            Err(fault)
        }
    }
}

fn informing(alloc: Global, name: &[u8]) -> Result<ShardCall, TextFault> {
    let name = name_of(alloc, name)?;
    Ok(ShardCall::Info { name })
}

/// What the consumers of a stream are told to send.
pub fn pumping(alloc: Global, rest: &[u8], now: u64) -> Result<ShardCall, TextFault> {
    let (name, budget) = fields(rest, b' ');
    let name = name_of(alloc, name)?;
    let budget = u32::try_from(number_in(budget)).unwrap_or(0);
    Ok(ShardCall::Pump { name, budget, now })
}

fn reaching(alloc: Global, rest: &[u8], now: u64) -> Result<ShardCall, TextFault> {
    let (node, there) = fields(rest, b' ');
    let node = name_of(alloc, node)?;
    let there = there == b"1".as_slice();
    Ok(ShardCall::Reach { node, there, now })
}
