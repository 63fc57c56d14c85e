ghost use Rattle.std.specs.Prelude.{◌≡◌};

use nats_text::{Bytes, NoMemory};
use thiserror::Error;

/// What a publish is answered that no refusal meets.
#[derive(Clone, Copy, Debug, PartialEq, Eq)]
pub enum Verdict {
    /// The message is a new one.
    Fresh,
    /// It repeats the message of this number, which a client published under the same `Nats-Msg-Id`
    /// within the duplicate window.
    Duplicate { seq: u64 },
}

/// Why a stream doesn't take a publish.
#[derive(Debug, Drop, Error)]
pub enum Refusal {
    /// The stream is a mirror.
    #[error("stream is a mirror")]
    IsMirror,
    /// A header isn't taken, or isn't a number where it has to be one.
    #[error("bad header")]
    BadHeader { name: Bytes },
    /// `Nats-Expected-Stream` names another stream.
    #[error("expected stream does not match")]
    WrongStream,
    /// `Nats-Expected-Last-Sequence` isn't the last number, which is `kept`.
    #[error("wrong last sequence: {kept}")]
    WrongLast { kept: u64 },
    /// `Nats-Expected-Last-Subject-Sequence` isn't the greatest kept number of the subject, which is
    /// `kept`, or 0 where none is kept.
    #[error("wrong last subject sequence: {kept}")]
    WrongSubjectLast { kept: u64 },
    /// Header block and payload have `size` bytes, more than the `limit`.
    #[error("message size exceeds maximum allowed: {size} of {limit}")]
    TooLarge { size: u64, limit: u64 },
    /// The last number is `2^63 - 1`.
    #[error("no sequence left")]
    SeqEnd,
    /// The stream takes no new message where it is full: `count` messages of `bytes` bytes would
    /// stand.
    #[error("stream is full: {count} messages of {bytes} bytes")]
    Full { count: u64, bytes: u64 },
    /// There was no memory.
    #[error("out of memory")]
    NoMemory,
}

impl From<NoMemory> for Refusal {
    ghost use Rattle.std.specs.Prelude.{◌≡◌};
    ghost use Rattle.stream_fold.specs.declared.verdict.Refusal.TheVariants.{NoMemory as NoRoom};

    ghost from_gives = { λ _ refusal. refusal ≡ NoRoom };

    fn from(_: NoMemory) -> Refusal {
        Refusal::NoMemory
    }
}
