ghost use Rattle.std.specs.Prelude.{◌≡◌};
ghost use Rattle.nats_frames.specs.Frames.{is_word, shared_operation, client_operation, server_operation, operation_of};

use crate::Side;
use nats_text::{Bytes, Subject};

/// What a line's first field names.
#[derive(Clone, Copy)]
pub(crate) enum Operation {
    Connect,
    Publish,
    PublishHeaders,
    Subscribe,
    Unsubscribe,
    Info,
    Message,
    MessageHeaders,
    Ping,
    Pong,
    Okay,
    Error,
}

/// What a line says of a message before its header block and its payload are there.
#[derive(Drop)]
pub enum Envelope {
    Publication {
        headers: bool,
        subject: Subject,
        reply: Option<Subject>,
    },
    Delivery {
        headers: bool,
        sid: Bytes,
        subject: Subject,
        reply: Option<Subject>,
    },
    /// A publication whose subject or reply can't be read.
    Unreadable,
}

/// The operation of a line's first field, without regard to ASCII case.
pub(crate) fn operation_of(side: Side, word: &[u8]) -> Option<Operation>
    ensures { result ≡ operation_of side word.now }
{
    match side {
        Side::FromClient => client_operation(word),
        Side::FromServer => server_operation(word),
    }
}

fn client_operation(word: &[u8]) -> Option<Operation>
    ensures { result ≡ client_operation word.now }
{
    if is_word(b"PUB", word) {
        Some(Operation::Publish)
    } else if is_word(b"HPUB", word) {
        Some(Operation::PublishHeaders)
    } else if is_word(b"SUB", word) {
        Some(Operation::Subscribe)
    } else if is_word(b"UNSUB", word) {
        Some(Operation::Unsubscribe)
    } else if is_word(b"CONNECT", word) {
        Some(Operation::Connect)
    } else {
        shared_operation(word)
    }
}

fn server_operation(word: &[u8]) -> Option<Operation>
    ensures { result ≡ server_operation word.now }
{
    if is_word(b"MSG", word) {
        Some(Operation::Message)
    } else if is_word(b"HMSG", word) {
        Some(Operation::MessageHeaders)
    } else if is_word(b"+OK", word) {
        Some(Operation::Okay)
    } else if is_word(b"-ERR", word) {
        Some(Operation::Error)
    } else if is_word(b"INFO", word) {
        Some(Operation::Info)
    } else {
        shared_operation(word)
    }
}

fn shared_operation(word: &[u8]) -> Option<Operation>
    ensures { result ≡ shared_operation word.now }
{
    if is_word(b"PING", word) {
        Some(Operation::Ping)
    } else if is_word(b"PONG", word) {
        Some(Operation::Pong)
    } else {
        None
    }
}

/// Whether a word is an operation's, without regard to ASCII case.
pub fn is_word(operation: &[u8], word: &[u8]) -> bool
    ensures { result ≡ is_word operation.now word.now }
{
    word.eq_ignore_ascii_case(operation)
}
