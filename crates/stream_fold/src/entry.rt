ghost use Rattle.std.specs.Prelude.{◌≡◌};

use crate::Config;
use nats_text::{Message, Pattern};
use std::alloc::AllocError;

/// A number of the origin beside a message of a source.
#[derive(Clone, Copy, Debug, PartialEq, Eq)]
pub struct Mark {
    /// Which of the stream's sources it is, from 0.
    pub index: u32,
    /// The number of the message in that source's origin.
    pub seq: u64,
}

/// One change of a stream.
#[derive(Debug, Drop)]
pub enum Entry {
    /// A message under a new number.
    Put {
        seq: u64,
        message: Message,
        mark: Option<Mark>,
    },
    /// The message of this number goes.
    Del {
        seq: u64,
    },
    /// The messages that match and whose numbers are below `below` go.
    Purge {
        pattern: Pattern,
        below: u64,
    },
    /// The messages that are too old at this moment go.
    Expire {
        now: u64,
    },
    /// A copy is bound to an incarnation of its origin, from a number on.
    Bind {
        index: u32,
        incarnation: u64,
        start: u64,
    },
    /// The configuration is replaced.
    Limits {
        config: Config,
    },
}

/// A message with its number.
#[derive(Debug, Drop)]
pub struct Numbered {
    pub seq: u64,
    pub message: Message,
}

/// What a copy is bound to: an incarnation of its origin, and the number from which on it copies.
#[derive(Clone, Copy, Debug, PartialEq, Eq)]
pub struct BoundTo {
    pub incarnation: u64,
    pub start: u64,
}

impl Clone for Entry {
    ghost is_clone = { λ a b. b ≡ a };

    fn clone(&self) -> Result<Entry, AllocError> {
        match self {
            Entry::Put { seq, message, mark } => Ok(Entry::Put {
                seq: *seq,
                message: message.clone()?,
                mark: *mark,
            }),
            Entry::Del { seq } => Ok(Entry::Del { seq: *seq }),
            Entry::Purge { pattern, below } => Ok(Entry::Purge {
                pattern: pattern.clone()?,
                below: *below,
            }),
            Entry::Expire { now } => Ok(Entry::Expire { now: *now }),
            Entry::Bind {
                index,
                incarnation,
                start,
            } => Ok(Entry::Bind {
                index: *index,
                incarnation: *incarnation,
                start: *start,
            }),
            Entry::Limits { config } => Ok(Entry::Limits {
                config: config.clone()?,
            }),
        }
    }
}

impl Clone for Numbered {
    ghost is_clone = { λ a b. b ≡ a };

    fn clone(&self) -> Result<Numbered, AllocError> {
        Ok(Numbered {
            seq: self.seq,
            message: self.message.clone()?,
        })
    }
}
