ghost use Rattle.std.specs.Prelude.{◌≡◌};
ghost use Rattle.leafd_words.specs.declared.fault.WordsFault.TheVariants.{NoMemory as OutOfMemory};

use std::alloc::AllocError;
use thiserror::Error;

/// Why words were not read.
#[derive(Clone, Copy, Debug, PartialEq, Eq, Error)]
pub enum WordsFault {
    /// The words are no command.
    #[error("no such command")]
    Usage,
    /// There was no memory.
    #[error("out of memory")]
    NoMemory,
}

impl From<AllocError> for WordsFault {
    ghost from_gives = { λ _ e. e ≡ OutOfMemory };

    fn from(_: AllocError) -> Self {
        WordsFault::NoMemory
    }
}
