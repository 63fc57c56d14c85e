//! Which request a subject is.
ghost use Rattle.std.specs.Prelude.{◌≡◌, ◌&&◌, codes, IfOk};
ghost use Rattle.std.specs.Str.{bytes_eq};
ghost use Rattle.nats_text.specs.Pieces.{views};
ghost use Rattle.nats_text.specs.Text.{tokens};
ghost use Rattle.js_api.specs.Subjects.{about, stream_verb, message_verb, short_verb, long_verb, topic_behind, topic_in, topic_of};

use nats_text::{Name, NoMemory, TextFault, pieces};
use std::alloc::Global;

/// What is asked about one stream.
#[derive(Clone, Copy, Debug)]
pub(crate) enum Verb {
    Create,
    Update,
    Remove,
    Info,
    Purge,
    Get,
    Delete,
    /// A consumer is to be made, which a client can't ask for.
    Consumer,
}

/// What a subject of the API asks for.
#[derive(Debug, Drop)]
pub(crate) enum Topic {
    /// The names of the streams.
    Names,
    /// Something about the stream of this name.
    Stream { verb: Verb, name: Name },
}

/// `STREAM.<word>`.
fn stream_verb(word: &[u8]) -> Option<Verb>
    ensures { result ≡ stream_verb word.now }
{
    if word == b"CREATE".as_slice() {
        Some(Verb::Create)
    } else if word == b"UPDATE".as_slice() {
        Some(Verb::Update)
    } else if word == b"DELETE".as_slice() {
        Some(Verb::Remove)
    } else if word == b"INFO".as_slice() {
        Some(Verb::Info)
    } else if word == b"PURGE".as_slice() {
        Some(Verb::Purge)
    } else {
        None
    }
}

/// `STREAM.MSG.<word>`.
fn message_verb(word: &[u8]) -> Option<Verb>
    ensures { result ≡ message_verb word.now }
{
    if word == b"GET".as_slice() {
        Some(Verb::Get)
    } else if word == b"DELETE".as_slice() {
        Some(Verb::Delete)
    } else {
        None
    }
}

fn short_verb(group: &[u8], word: &[u8]) -> Option<Verb>
    ensures { result ≡ short_verb group.now word.now }
{
    if group == b"STREAM".as_slice() {
        stream_verb(word)
    } else if group == b"CONSUMER".as_slice() && word == b"CREATE".as_slice() {
        Some(Verb::Consumer)
    } else {
        None
    }
}

fn long_verb(group: &[u8], word: &[u8], more: &[u8]) -> Option<Verb>
    ensures { result ≡ long_verb group.now word.now more.now }
{
    if group == b"STREAM".as_slice() && word == b"MSG".as_slice() {
        message_verb(more)
    } else {
        None
    }
}

fn is_names(group: &[u8], word: &[u8]) -> bool
    ensures { result ≡ (bytes_eq group.now (codes "STREAM") && bytes_eq word.now (codes "NAMES")) }
{
    group == b"STREAM".as_slice() && word == b"NAMES".as_slice()
}

/// What is asked about a stream, where the last word is the name of one.
fn about(alloc: Global, verb: Option<Verb>, name: &[u8]) -> Result<Option<Topic>, NoMemory>
    ensures { IfOk result (λ topic. topic ≡ about verb name.now) }
{
    let Some(verb) = verb else {
        return Ok(None);
    };
    match Name::read(alloc, name) {
        Ok(name) => Ok(Some(Topic::Stream { verb, name })),
        Err(TextFault::Bad { .. }) => Ok(None),
        Err(TextFault::NoMemory) => Err(NoMemory),
    }
}

/// What the words behind `$JS.API` ask for.
fn topic_behind(alloc: Global, words: &[&[u8]]) -> Result<Option<Topic>, NoMemory>
    ensures { IfOk result (λ topic. topic ≡ topic_behind (views words.now)) }
{
    match words {
        [group, word] if is_names(group, word) => Ok(Some(Topic::Names)),
        [group, word, name] => about(alloc, short_verb(group, word), name),
        [group, word, more, name] => about(alloc, long_verb(group, word, more), name),
        _ => Ok(None),
    }
}

fn is_api(system: &[u8], api: &[u8]) -> bool
    ensures { result ≡ (bytes_eq system.now (codes "$JS") && bytes_eq api.now (codes "API")) }
{
    system == b"$JS".as_slice() && api == b"API".as_slice()
}

fn topic_in(alloc: Global, words: &[&[u8]]) -> Result<Option<Topic>, NoMemory>
    ensures { IfOk result (λ topic. topic ≡ topic_in (views words.now)) }
{
    let [system, api, words @ ..] = words else {
        return Ok(None);
    };
    if !is_api(system, api) {
        return Ok(None);
    }
    topic_behind(alloc, words)
}

/// What a subject asks for, where it is one of the API's.
pub(crate) fn topic_of(alloc: Global, subject: &[u8]) -> Result<Option<Topic>, NoMemory>
    ensures { IfOk result (λ topic. topic ≡ topic_of subject.now) }
{
    let words = pieces(alloc, subject, b'.')?;
    topic_in(alloc, &words)
}
