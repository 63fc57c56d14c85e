ghost use Rattle.std.specs.Prelude.{◌≡◌, ◌≤◌, [], false, None, IsErrOf};
ghost use Rattle.leaf_edges.specs.Causes.{CausesOne};
ghost use Rattle.std.proofs.Common.{arith};

use crate::span::Span;
use crate::{Disk, EdgeError};
use std::fs::File;
use std::io;
use std::marker::Model;
use std::os::unix::fs::FileExt;

/// The bytes that the rewriting of a range reads at a time.
const PIECE: usize = 4096;

/// A disk in a regular file of the system. It tells nothing of its content. A sync reaches the device
/// with the file's bytes and its length.
///
/// Where a sync fails, the system may count the bytes as written that never reached the device, so
/// that its next sync succeeds without them (Linux does). So a disk keeps the range that was written
/// since its last sync that succeeded; after a sync that failed, the next one first reads that range
/// back and writes it again. It finds there what was written unless the system has let those bytes go
/// from its memory meanwhile. And a disk that is opened after a failed sync, by this process or by a
/// later one, knows nothing of it: what it reads may stand in the system's memory alone, and a crash
/// of the machine may lose it although each sync from then on succeeds.
#[derive(Drop)]
pub struct FileDisk {
    file: File,
    faults: u64,
    unsynced: Span,
    is_in_doubt: bool,
}

/// Contracts see its count of faults.
impl Model for FileDisk {
    ghost use Rattle.std.specs.Prelude.{ℕ};

    ghost Value = { ℕ };

    ghost view = { λ d. d.faults };
}

impl FileDisk {
    /// A disk in this file. Where the file is open for reading alone, each write and each cut fails.
    pub fn new(file: File) -> FileDisk
        ensures { result ≡ 0 }
    {
        FileDisk {
            file,
            faults: 0,
            unsynced: Span::empty(),
            is_in_doubt: false,
        }
    }

    /// How many of its calls failed.
    pub fn fault_count(&self) -> u64
        ensures { result ≡ self.now }
    {
        self.faults
    }
}

/// Reads the bytes of a range back and writes them again, up to the file's end.
fn rewrite(file: &File, span: &Span) -> io::Result<()> {
    let mut piece = [0u8; PIECE];
    let end = span.end.min(file.metadata()?.len());
    let mut place = span.start;
    while place < end {
        let count = (end - place).min(PIECE as u64) as usize;
        file.read_exact_at(&mut piece[..count], place)?;
        file.write_all_at(&piece[..count], place)?;
        place += count as u64;
    }
    Ok(())
}

/// Brings what was written to the device; what a sync that failed left in doubt is written again.
fn reach_device(file: &File, unsynced: &Span, is_in_doubt: bool) -> io::Result<()> {
    if is_in_doubt {
        rewrite(file, unsynced)?;
    }
    file.sync_all()
}

/// Counts a fault at an error.
fn counted<T: Drop>(outcome: io::Result<T>, faults: &mut u64) -> Result<T, EdgeError>
    ensures cause { CausesOne faults.old faults.new result }
    ensures memory { IsErrOf result EdgeError.NoMemory → ⊥ }
{
    match outcome {
        Ok(answer) => Ok(answer),
        Err(_) => {
            *faults = faults.saturating_add(1);
            Err(EdgeError::Failed)
        }
    }
}

impl Disk for FileDisk {
    ghost tells = { ⊥ };

    ghost seen = { λ _. [] };

    ghost images = { λ _ _. ⊥ };

    ghost moment = { λ _. 0 };

    ghost left_since = { λ _ _ _. ⊥ };

    ghost unsynced = { λ _. false };

    ghost done = { λ _. [] };

    ghost failed = { λ _. None };

    ghost faults = { λ faults. faults };

    // No count falls.
    ghost leads = { λ old new. old ≤ new };

    ghost leads_here = { λ disk. Prim.omega arith };

    ghost leads_on = { λ one two three here there. Prim.omega (arith, here, there) };

    ghost seen_is_image = { λ _ told. absurd told };

    ghost synced_is_only = { λ _ told _. absurd told };

    ghost counts_now = { λ _ _ _ told _ _. absurd told };

    ghost only_now = { λ _ _ told _. absurd told };

    fn len(&mut self) -> Result<u64, EdgeError> {
        match counted(self.file.metadata(), &mut self.faults) {
            Ok(found) => Ok(found.len()),
            Err(error) => Err(error),
        }
    }

    fn read(&mut self, place: u64, buf: &mut [u8]) -> Result<(), EdgeError> {
        counted(self.file.read_exact_at(buf, place), &mut self.faults)
    }

    fn write_at(&mut self, place: u64, bytes: &[u8]) -> Result<(), EdgeError> {
        // A write that fails may have written a part.
        self.unsynced.add(place, bytes.len() as u64);
        counted(self.file.write_all_at(bytes, place), &mut self.faults)
    }

    fn cut(&mut self, len: u64) -> Result<(), EdgeError> {
        counted(self.file.set_len(len), &mut self.faults)?;
        self.unsynced.cut(len);
        Ok(())
    }

    fn sync(&mut self) -> Result<(), EdgeError> {
        let reached = reach_device(&self.file, &self.unsynced, self.is_in_doubt);
        self.is_in_doubt = reached.is_err();
        if reached.is_ok() {
            self.unsynced = Span::empty();
        }
        counted(reached, &mut self.faults)
    }
}
