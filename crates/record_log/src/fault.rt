ghost use Rattle.std.specs.Prelude.{◌≡◌};
ghost use Rattle.record_log.specs.Loading.{open_fault, load_fault, format_fault};
ghost use Rattle.record_log.specs.declared.fault.StoreFault.TheVariants.{NoMemory as ReadsNothing};
ghost use Rattle.record_log.specs.declared.fault.OpenFault.TheVariants.{NoMemory as OpensNothing};

use gate_journal::{AppendFault, LoadFault};
use nats_text::NoMemory;
use std::alloc::{AllocError, AllocFailed};
use thiserror::Error;

/// One of the two disks of a shard.
#[derive(Clone, Copy, Debug, PartialEq, Eq)]
pub enum Part {
    /// The disk whose name ends in `.a`.
    Main,
    /// The disk whose name ends in `.b`.
    Spare,
}

/// Why a store was not read. Nothing was written.
#[derive(Clone, Copy, Debug, PartialEq, Eq, Error)]
pub enum StoreFault {
    /// A disk failed at its length or at a read.
    #[error("read fault")]
    ReadFault,
    /// The bytes are no journal. The place is in bytes from the disk's first.
    #[error("bad journal at {place}")]
    BadJournal { part: Part, place: u64 },
    /// A disk has more than `2^40` bytes, namely this many.
    #[error("journal too long: {len} bytes")]
    TooLong { part: Part, len: u64 },
    /// There was no memory.
    #[error("out of memory")]
    NoMemory,
}

impl From<NoMemory> for StoreFault {
    ghost from_gives = { λ _ e. e ≡ ReadsNothing };

    fn from(_: NoMemory) -> Self {
        StoreFault::NoMemory
    }
}

impl From<AllocError> for StoreFault {
    ghost from_gives = { λ _ e. e ≡ ReadsNothing };

    fn from(_: AllocError) -> Self {
        StoreFault::NoMemory
    }
}

impl<T: Drop> From<AllocFailed<T>> for StoreFault {
    ghost from_gives = { λ _ e. e ≡ ReadsNothing };

    fn from(_: AllocFailed<T>) -> Self {
        StoreFault::NoMemory
    }
}

/// Why a log of records was not opened.
#[derive(Clone, Copy, Debug, PartialEq, Eq, Error)]
pub enum OpenFault {
    /// A disk failed at its length or at a read.
    #[error("read fault")]
    ReadFault,
    /// A disk failed at the sync that the opening begins with, or where an empty one was formatted.
    #[error("sync fault")]
    SyncFault,
    /// The bytes of a disk are no journal. The place is in bytes from the disk's first.
    #[error("bad journal at {place}")]
    BadJournal { place: u64 },
    /// A disk has more than `2^40` bytes, namely this many.
    #[error("journal too long: {len} bytes")]
    TooLong { len: u64 },
    /// There was no memory.
    #[error("out of memory")]
    NoMemory,
}

impl From<NoMemory> for OpenFault {
    ghost from_gives = { λ _ e. e ≡ OpensNothing };

    fn from(_: NoMemory) -> Self {
        OpenFault::NoMemory
    }
}

impl From<StoreFault> for OpenFault {
    ghost from_gives = { λ fault e. e ≡ open_fault fault };

    fn from(fault: StoreFault) -> Self {
        match fault {
            StoreFault::ReadFault => OpenFault::ReadFault,
            StoreFault::BadJournal { place, .. } => OpenFault::BadJournal { place },
            StoreFault::TooLong { len, .. } => OpenFault::TooLong { len },
            StoreFault::NoMemory => OpenFault::NoMemory,
        }
    }
}

impl From<LoadFault> for OpenFault {
    ghost from_gives = { λ fault e. e ≡ load_fault fault };

    fn from(fault: LoadFault) -> Self {
        match fault {
            LoadFault::ReadFault => OpenFault::ReadFault,
            LoadFault::SyncFault => OpenFault::SyncFault,
            LoadFault::BadJournal { place } => OpenFault::BadJournal { place },
            LoadFault::TooLong { len } => OpenFault::TooLong { len },
            LoadFault::NoMemory => OpenFault::NoMemory,
        }
    }
}

impl From<AppendFault> for OpenFault {
    ghost from_gives = { λ fault e. e ≡ format_fault fault };

    fn from(fault: AppendFault) -> Self {
        match fault {
            AppendFault::DiskFault => OpenFault::SyncFault,
            AppendFault::NoMemory => OpenFault::NoMemory,
        }
    }
}
