ghost use Rattle.std.specs.Prelude.{◌≡◌};
ghost use Rattle.leaf_frames.specs.Frames.{operation_of};

use nats_frames::shared::is_word;

/// What a line's first field names.
#[derive(Clone, Copy)]
pub(crate) enum Operation {
    Info,
    Connect,
    SubscribeOn,
    SubscribeOff,
    Message,
    MessageHeaders,
    Ping,
    Pong,
    Error,
}

/// The operation of a line's first field, without regard to ASCII case.
pub(crate) fn operation_of(word: &[u8]) -> Option<Operation>
    ensures { result ≡ operation_of word.now }
{
    if is_word(b"LMSG", word) {
        Some(Operation::Message)
    } else if is_word(b"HMSG", word) {
        Some(Operation::MessageHeaders)
    } else if is_word(b"LS+", word) {
        Some(Operation::SubscribeOn)
    } else if is_word(b"LS-", word) {
        Some(Operation::SubscribeOff)
    } else if is_word(b"PING", word) {
        Some(Operation::Ping)
    } else if is_word(b"PONG", word) {
        Some(Operation::Pong)
    } else if is_word(b"INFO", word) {
        Some(Operation::Info)
    } else if is_word(b"CONNECT", word) {
        Some(Operation::Connect)
    } else if is_word(b"-ERR", word) {
        Some(Operation::Error)
    } else {
        None
    }
}
