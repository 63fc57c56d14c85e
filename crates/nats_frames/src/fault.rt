ghost use Rattle.std.specs.Prelude.{◌≡◌};
ghost use Rattle.nats_frames.specs.declared.fault.FeedFault.TheVariants.{NoMemory as OutOfMemory};

use nats_text::NoMemory;
use std::alloc::{AllocError, AllocFailed};
use thiserror::Error;

/// Why bytes are no frame. A connection that sends such bytes is told the text in a line `-ERR` and
/// is closed (the error messages of the NATS client protocol).
#[derive(Clone, Copy, Debug, PartialEq, Eq, Error)]
pub enum FrameText {
    /// The line begins with no operation of this side.
    #[error("unknown protocol operation")]
    UnknownOperation,
    /// The line, or what has to stand behind it, isn't as the operation says.
    #[error("parser error")]
    ParserError,
    /// The line is too long.
    #[error("maximum control line exceeded")]
    ControlLine,
    /// The header block and the payload are too long together.
    #[error("maximum payload violation")]
    PayloadViolation,
    /// A subject, pattern or reply of a line from a server can't be read.
    #[error("invalid subject")]
    InvalidSubject,
}

/// Where a stream stopped being frames: after so many bytes, which are those of the frames before. The
/// place stands still at `2^64 - 1`.
#[derive(Clone, Copy, Debug, PartialEq, Eq)]
pub struct Refused {
    pub text: FrameText,
    pub place: u64,
}

/// Why a feed gave no frame.
#[derive(Clone, Copy, Debug, PartialEq, Eq, Error)]
pub enum FeedFault {
    /// The stream isn't frames from this place on. The feed answers the same from then on.
    #[error("the stream is refused")]
    Refused(Refused),
    /// There was no memory. The feed is as it was.
    #[error("out of memory")]
    NoMemory,
}

impl From<NoMemory> for FeedFault {
    ghost from_gives = { λ _ e. e ≡ OutOfMemory };

    fn from(_: NoMemory) -> Self {
        FeedFault::NoMemory
    }
}

impl From<AllocError> for FeedFault {
    ghost from_gives = { λ _ e. e ≡ OutOfMemory };

    fn from(_: AllocError) -> Self {
        FeedFault::NoMemory
    }
}

impl<T: Drop> From<AllocFailed<T>> for FeedFault {
    ghost from_gives = { λ _ e. e ≡ OutOfMemory };

    fn from(_: AllocFailed<T>) -> Self {
        FeedFault::NoMemory
    }
}
