ghost use Rattle.std.specs.Prelude.{◌≡◌, ◌≤◌, ◌+◌, IfOk, IsTrue, length, max, vec_len, vec_capacity};
ghost use Rattle.leaf_edges.specs.Disks.{wrote};
ghost use Rattle.mem_disk.specs.Contents.{after_op};
ghost use Rattle.mem_disk.specs.Entries.{op_of, redone, EndsWithin};
ghost use Rattle.mem_disk.specs.MemDisks.{max_disk};

use crate::bytes::{overwrite, overwrite_torn};
use std::alloc::{AllocError, Global};

/// A call that a disk in memory keeps.
#[derive(Debug, Drop)]
pub(crate) enum Entry {
    Write { place: u64, bytes: Vec<u8> },
    Cut { len: u64 },
    Sync,
}

impl Entry {
    /// A write with a copy of these bytes.
    pub(crate) fn write(alloc: Global, place: u64, bytes: &[u8]) -> Result<Entry, AllocError>
        ensures { IfOk result (λ entry. op_of entry ≡ wrote place bytes.now) }
    {
        let bytes = bytes.to_vec(alloc)?;
        Ok(Entry::Write { place, bytes })
    }

    /// The place behind its last byte, and 0 where it is no write.
    pub(crate) fn end(&self) -> usize
        requires { EndsWithin max_disk (op_of self.now) }
        ensures { EndsWithin result (op_of self.now) }
    {
        match self {
            Entry::Write { place, bytes } => *place as usize + bytes.len(),
            Entry::Cut { .. } | Entry::Sync => 0,
        }
    }

    /// Does the call again, a write whole or torn. There is room for it.
    pub(crate) fn redo(&self, bytes: &mut Vec<u8>, torn: bool)
        requires room { EndsWithin (vec_capacity bytes.old) (op_of self.now) }
        ensures items { bytes.new.items ≡ after_op bytes.old.items (redone torn (op_of self.now)) }
        ensures capacity { vec_capacity bytes.old ≤ vec_capacity bytes.new }
    {
        match self {
            Entry::Write { place, bytes: new } => {
                if torn {
                    overwrite_torn(bytes, *place as usize, new);
                } else {
                    overwrite(bytes, *place as usize, new);
                }
            }
            Entry::Cut { len } => bytes.truncate(*len as usize),
            Entry::Sync => {}
        }
    }
}
