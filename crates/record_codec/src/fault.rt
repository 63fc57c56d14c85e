ghost use Rattle.std.specs.Prelude.{◌≡◌};
ghost use Rattle.record_codec.specs.declared.fault.RecFault.TheVariants.{NoMemory as DecodesNothing};
ghost use Rattle.record_codec.specs.declared.fault.Stop.TheVariants.{Bad as BadLeft, NoMemory as OutOfMemory};

use nats_text::NoMemory;
use std::alloc::{AllocError, AllocFailed};
use thiserror::Error;

/// Why a record was not read.
#[derive(Clone, Copy, Debug, PartialEq, Eq, Error)]
pub enum RecFault {
    /// The bytes are no record. The place, counted from 0, is that of the first byte of the first field
    /// that can't be read, or of the first byte behind a whole record.
    #[error("bad record at {place}")]
    Bad { place: u64 },
    /// There was no memory.
    #[error("out of memory")]
    NoMemory,
}

impl From<NoMemory> for RecFault {
    ghost from_gives = { λ _ e. e ≡ DecodesNothing };

    fn from(_: NoMemory) -> Self {
        RecFault::NoMemory
    }
}

/// Why a field was not read.
#[derive(Clone, Copy, Debug)]
pub(crate) enum Stop {
    /// So many bytes are left where the first field begins that can't be read.
    Bad { left: usize },
    /// There was no memory.
    NoMemory,
}

/// So many bytes are left where the field begins that can't be read.
#[derive(Clone, Copy, Debug)]
pub(crate) struct BadField {
    pub(crate) left: usize,
}

impl From<BadField> for Stop {
    ghost from_gives = { λ bad e. e ≡ BadLeft bad.left };

    fn from(bad: BadField) -> Self {
        Stop::Bad { left: bad.left }
    }
}

impl From<NoMemory> for Stop {
    ghost from_gives = { λ _ e. e ≡ OutOfMemory };

    fn from(_: NoMemory) -> Self {
        Stop::NoMemory
    }
}

impl From<AllocError> for Stop {
    ghost from_gives = { λ _ e. e ≡ OutOfMemory };

    fn from(_: AllocError) -> Self {
        Stop::NoMemory
    }
}

impl<T: Drop> From<AllocFailed<T>> for Stop {
    ghost from_gives = { λ _ e. e ≡ OutOfMemory };

    fn from(_: AllocFailed<T>) -> Self {
        Stop::NoMemory
    }
}
