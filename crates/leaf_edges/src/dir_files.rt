ghost use Rattle.std.specs.Prelude.{◌≡◌, ◌≤◌, ◌++◌, [], ℕ, List, length, false, None, OnErr, OnOk, IsErrOf};
ghost use Rattle.leaf_edges.specs.Causes.{Causes};
ghost use Rattle.std.proofs.Common.{arith};
ghost use Rattle.leaf_edges.specs.Files.{AddsText, CountsDisk, max_text};

use crate::{EdgeError, FileDisk, Files};
use std::alloc::AllocError;
use std::fs::{File, OpenOptions};
use std::io::{self, Read};
use std::marker::Model;
use std::path::{Path, PathBuf};

/// The most bytes that a text may have.
const MAX_TEXT: usize = 16_777_216;

/// The files of the system. A name is the text of a path, which begins in the folder unless it is
/// absolute, and may lead anywhere: by `..` and by links too. It tells nothing of their content.
///
/// A disk that is asked for with `make` is open for reading and writing, and is made where it isn't
/// there; its folder, which is there already, is synced each time, since a crash may have come between
/// the making of the file and that sync. Without `make` it is open for reading alone, so that a store
/// is read of which nothing may be written.
///
/// A disk that is asked for with `make` is locked by the advisory lock of its file (`flock`) until it
/// is given back: meanwhile another call with `make` on that file, of this process or of another, is a
/// fault. Nothing else heeds the lock: neither a call without `make` nor other programs, and some
/// networks' file systems don't keep it between machines.
#[derive(Drop)]
pub struct DirFiles {
    rt: HostRuntime,
    folder: String,
    faults: u64,
    disk_faults: u64,
}

/// Contracts see its two counts.
impl Model for DirFiles {
    ghost use Rattle.leaf_edges.specs.Files.{FileCounts};

    ghost Value = { FileCounts };

    ghost view = { λ f. record { faults = f.faults; disk_faults = f.disk_faults } };
}

impl DirFiles {
    /// The files in this folder, which is there already.
    pub fn new(rt: HostRuntime, folder: String) -> DirFiles
        ensures { result ≡ record { faults = 0; disk_faults = 0 } }
    {
        DirFiles {
            rt,
            folder,
            faults: 0,
            disk_faults: 0,
        }
    }

    /// How many of its calls failed.
    pub fn fault_count(&self) -> u64
        ensures { result ≡ self.now.faults }
    {
        self.faults
    }

    /// How many disks came back with a fault.
    pub fn disk_fault_count(&self) -> u64
        ensures { result ≡ self.now.disk_faults }
    {
        self.disk_faults
    }
}

/// The path of a name. A name that is no text has none.
fn path_of(rt: &HostRuntime, folder: &str, name: &[u8]) -> Result<PathBuf, EdgeError> {
    match str::from_utf8(name) {
        Ok(name) => Ok(Path::new(folder).join(rt.alloc(), name)?),
        Err(_) => Err(EdgeError::Failed),
    }
}

/// No answer, for want of memory or by a fault.
fn error_of(error: io::Error) -> EdgeError {
    if error.kind() == io::ErrorKind::OutOfMemory {
        EdgeError::NoMemory
    } else {
        EdgeError::Failed
    }
}

/// Opens a file that is there, for reading.
fn open(rt: &HostRuntime, path: Path<'_>) -> Result<Option<File>, EdgeError> {
    match File::open(rt, path) {
        Ok(file) => Ok(Some(file)),
        Err(error) if error.kind() == io::ErrorKind::NotFound => Ok(None),
        Err(error) => Err(error_of(error)),
    }
}

/// Opens a file for reading and writing, or makes it; locks it, and syncs the folder that has its
/// name.
fn open_locked(rt: &HostRuntime, path: Path<'_>) -> io::Result<File> {
    let file = OpenOptions::new()
        .read(true)
        .write(true)
        .create(true)
        .open(rt, path)?;
    file.try_lock()?;
    let folder = match path.parent() {
        Some(folder) if !folder.as_os_str().is_empty() => folder,
        _ => Path::new("."),
    };
    File::open(rt, folder)?.sync_all()?;
    Ok(file)
}

/// Opens the file of a disk.
fn open_disk(
    rt: &HostRuntime,
    folder: &str,
    name: &[u8],
    make: bool,
) -> Result<Option<File>, EdgeError> {
    let path = path_of(rt, folder, name)?;
    if !make {
        return open(rt, path.as_path());
    }
    match open_locked(rt, path.as_path()) {
        Ok(file) => Ok(Some(file)),
        Err(error) => Err(error_of(error)),
    }
}

/// Adds the bytes of a file, of which there are at most so many as a text may have.
fn add_bytes(file: File, buf: &mut Vec<u8>) -> Result<(), EdgeError>
    ensures ok { OnOk result ((bytes : List ℕ) × (buf.new.items ≡ buf.old.items ++ bytes) × (length bytes ≤ max_text)) }
    ensures err { OnErr result (buf.new.items ≡ buf.old.items) }
{
    let start = buf.len();
    match file.take(MAX_TEXT as u64 + 1).read_to_end(buf) {
        Ok(count) if count <= MAX_TEXT => Ok(()),
        Ok(_) => {
            buf.truncate(start);
            Err(EdgeError::Failed)
        }
        Err(error) => {
            buf.truncate(start);
            Err(error_of(error))
        }
    }
}

/// Reads a text that is there.
fn read_text(
    rt: &HostRuntime,
    folder: &str,
    name: &[u8],
    buf: &mut Vec<u8>,
) -> Result<bool, EdgeError>
    ensures { AddsText ⊥ None buf.old.items buf.new.items result }
{
    let path = match path_of(rt, folder, name) {
        Ok(path) => path,
        Err(error) => return Err(error),
    };
    match open(rt, path.as_path()) {
        Ok(Some(file)) => match add_bytes(file, buf) {
            Ok(()) => Ok(true),
            Err(error) => Err(error),
        },
        Ok(None) => Ok(false),
        Err(error) => Err(error),
    }
}

/// Counts a fault.
fn note<T: Drop>(outcome: Result<T, EdgeError>, faults: &mut u64) -> Result<T, EdgeError>
    ensures same { result ≡ outcome }
    ensures cause { Causes faults.old faults.new result }
{
    if let Err(EdgeError::Failed) = &outcome {
        *faults = faults.saturating_add(1);
    }
    outcome
}

impl Files for DirFiles {
    type D = FileDisk;

    ghost tells = { ⊥ };

    ghost place = { λ _ _. None };

    ghost is_out = { λ _ _. false };

    ghost handed = { λ _. [] };

    ghost text_of = { λ _ _. None };

    ghost faults = { λ f. f.faults };

    ghost disk_faults = { λ f. f.disk_faults };

    // No count falls.
    ghost leads = { λ old new. (old.faults ≤ new.faults) × (old.disk_faults ≤ new.disk_faults) };

    ghost leads_here = { λ files. (Prim.omega arith, Prim.omega arith) };

    ghost leads_on = { λ one two three here there. (Prim.omega (arith, here.0, there.0), Prim.omega (arith, here.1, there.1)) };

    ghost disks_tell = { λ told. absurd told };

    fn disk(&mut self, name: &[u8], make: bool) -> Result<Option<FileDisk>, EdgeError> {
        let opened = open_disk(&self.rt, self.folder.as_str(), name, make);
        match note(opened, &mut self.faults) {
            Ok(Some(file)) => Ok(Some(FileDisk::new(file))),
            Ok(None) => Ok(None),
            Err(error) => Err(error),
        }
    }

    fn text(&mut self, name: &[u8], buf: &mut Vec<u8>) -> Result<bool, EdgeError> {
        let read = read_text(&self.rt, self.folder.as_str(), name, buf);
        note(read, &mut self.faults)
    }

    fn back(&mut self, _name: &[u8], disk: FileDisk) {
        if disk.fault_count() != 0 {
            self.disk_faults = self.disk_faults.saturating_add(1);
        }
    }
}
