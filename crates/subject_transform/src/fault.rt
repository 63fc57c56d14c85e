ghost use Rattle.std.specs.Prelude.{◌≡◌};
ghost use Rattle.subject_transform.specs.Kinds.{kind_word};
ghost use Rattle.subject_transform.specs.declared.fault.TransformFault.TheVariants.{NoMemory as OutOfMemory};

use nats_text::NoMemory;
use std::alloc::{AllocError, AllocFailed};
use std::fmt;
use thiserror::Error;

/// What is wrong with a transform.
#[derive(Clone, Copy, Debug, PartialEq, Eq)]
pub enum TransformKind {
    /// The source is no pattern.
    BadSource,
    /// The destination has no bytes or more than 1,024, or the token is empty, isn't UTF-8, is `*`,
    /// or is a `>` before the last.
    BadDest,
    /// The token is a function of no known name or form, or with a wrong number of arguments.
    BadFunction,
    /// The source has no `*` of that number.
    BadIndex,
    /// An argument isn't 1 to 10 digits, or is out of its range.
    BadNumber,
    /// The source ends in `>` and the destination doesn't, or the other way round.
    TailMismatch,
}

impl TransformKind {
    /// The word by which it is told.
    pub fn word(self) -> &'static str
        ensures { result.now ≡ kind_word self }
    {
        match self {
            TransformKind::BadSource => "BadSource",
            TransformKind::BadDest => "BadDest",
            TransformKind::BadFunction => "BadFunction",
            TransformKind::BadIndex => "BadIndex",
            TransformKind::BadNumber => "BadNumber",
            TransformKind::TailMismatch => "TailMismatch",
        }
    }
}

impl fmt::Display for TransformKind {
    fn fmt<W: fmt::Write>(&self, f: &mut fmt::Formatter<W>) -> fmt::Result {
        f.write_str(self.word())
    }
}

/// Why two texts were not read as a transform.
#[derive(Clone, Copy, Debug, PartialEq, Eq, Error)]
pub enum TransformFault {
    /// The place is one of the source where the kind is `BadSource`. Else it is that of the first byte of
    /// the bad token in the destination without its blanks. Places are counted in bytes from 0.
    #[error("{kind} at {place}")]
    Bad { place: u64, kind: TransformKind },
    /// There was no memory.
    #[error("out of memory")]
    NoMemory,
}

impl From<NoMemory> for TransformFault {
    ghost from_gives = { λ _ e. e ≡ OutOfMemory };

    fn from(_: NoMemory) -> Self {
        TransformFault::NoMemory
    }
}

impl From<AllocError> for TransformFault {
    ghost from_gives = { λ _ e. e ≡ OutOfMemory };

    fn from(_: AllocError) -> Self {
        TransformFault::NoMemory
    }
}

impl<T: Drop> From<AllocFailed<T>> for TransformFault {
    ghost from_gives = { λ _ e. e ≡ OutOfMemory };

    fn from(_: AllocFailed<T>) -> Self {
        TransformFault::NoMemory
    }
}
