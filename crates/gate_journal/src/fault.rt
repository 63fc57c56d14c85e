ghost use Rattle.std.specs.Prelude.{◌≡◌};
ghost use Rattle.gate_journal.specs.Walks.{append_fault};
ghost use Rattle.gate_journal.specs.declared.fault.LoadFault.TheVariants.{NoMemory as LoadsWithoutMemory};
ghost use Rattle.gate_journal.specs.declared.fault.AppendFault.TheVariants.{NoMemory as AppendsWithoutMemory};

use leaf_edges::EdgeError;
use nats_text::NoMemory;
use std::alloc::{AllocError, AllocFailed};
use thiserror::Error;

/// Why a journal was not loaded.
#[derive(Clone, Copy, Debug, PartialEq, Eq, Error)]
pub enum LoadFault {
    /// The disk failed at its length or at a read.
    #[error("read fault")]
    ReadFault,
    /// The disk failed at the sync that a load begins with.
    #[error("sync fault")]
    SyncFault,
    /// The bytes are no area. The place, in bytes from the disk's first, is 0 for a bad head, else that
    /// of the first gate behind which nothing can be read.
    #[error("bad journal at {place}")]
    BadJournal { place: u64 },
    /// The disk has more than `2^40` bytes, namely this many.
    #[error("journal too long: {len} bytes")]
    TooLong { len: u64 },
    /// There was no memory.
    #[error("out of memory")]
    NoMemory,
}

impl From<NoMemory> for LoadFault {
    ghost from_gives = { λ _ e. e ≡ LoadsWithoutMemory };

    fn from(_: NoMemory) -> Self {
        LoadFault::NoMemory
    }
}

impl From<AllocError> for LoadFault {
    ghost from_gives = { λ _ e. e ≡ LoadsWithoutMemory };

    fn from(_: AllocError) -> Self {
        LoadFault::NoMemory
    }
}

/// Why a journal was not written.
#[derive(Clone, Copy, Debug, PartialEq, Eq, Error)]
pub enum AppendFault {
    /// The disk failed at a write or a sync. What it holds is told by the next load.
    #[error("disk fault")]
    DiskFault,
    /// There was no memory. The bodies are as before.
    #[error("out of memory")]
    NoMemory,
}

impl From<AllocError> for AppendFault {
    ghost from_gives = { λ _ e. e ≡ AppendsWithoutMemory };

    fn from(_: AllocError) -> Self {
        AppendFault::NoMemory
    }
}

impl From<EdgeError> for AppendFault {
    ghost from_gives = { λ error fault. fault ≡ append_fault error };

    fn from(error: EdgeError) -> Self {
        match error {
            EdgeError::Failed => AppendFault::DiskFault,
            EdgeError::NoMemory => AppendFault::NoMemory,
        }
    }
}
