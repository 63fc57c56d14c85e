ghost use Rattle.std.specs.Prelude.{◌≡◌, ◌≤◌, ◌+◌, ℕ, List, Bool, true, ◌++◌, ◌∷◌, [], Some, None, cond, length, map, take, drop, option_map, All, IfSome, option_to_list, OnOk, OnErr, IsTrue, vec_len, vec_capacity};
ghost use Rattle.leaf_edges.specs.Disks.{Op, wrote, cut_to, synced};
ghost use Rattle.mem_disk.specs.Contents.{after_ops, seen_in, picked};
ghost use Rattle.mem_disk.specs.Entries.{op_of, ops_of, first_bytes, redone, EndsWithin};
ghost use Rattle.mem_disk.specs.MemDisks.{content_of, with_tried, crash_content, fresh_past, past_seen, past_unsynced, max_disk, IsChange};

use crate::Fate;
use crate::entry::Entry;
use std::alloc::{AllocError, Global};
use std::marker::Model;

/// The bytes of a disk in memory, with the writes, cuts and syncs that made them.
#[derive(Debug, Drop)]
pub(crate) struct History {
    bytes: Vec<u8>,
    /// The bytes before the first entry; anything where there is none.
    first: Vec<u8>,
    entries: Vec<Entry>,
    /// How many of the entries are on the disk.
    synced: usize,
    /// A write of which a crash may leave any part.
    tried: Option<Entry>,
}

impl Model for History {
    ghost use Rattle.mem_disk.specs.MemDisks.{Past};

    ghost Value = { Past };

    ghost use Rattle.mem_disk.specs.Histories.{past_of, IsKept};

    ghost view = { past_of };

    ghost invariant = { IsKept };
}

impl History {
    pub(crate) fn new(alloc: Global, bytes: Vec<u8>) -> History
        ensures { result ≡ fresh_past bytes.items }
    {
        History {
            bytes,
            first: Vec::new(alloc),
            entries: Vec::new(alloc),
            synced: 0,
            tried: None,
        }
    }

    /// What a read gives.
    pub(crate) fn bytes(&self) -> &[u8]
        ensures { result.now ≡ past_seen self.now }
    {
        self.bytes.as_slice()
    }

    /// Whether anything is unsynced.
    pub(crate) fn is_unsynced(&self) -> bool
        ensures { result ≡ past_unsynced self.now }
    {
        self.synced < self.entries.len() || self.tried.is_some()
    }

    /// Does a write or a cut and keeps it, with room for the next sync.
    pub(crate) fn add(&mut self, entry: Entry) -> Result<(), AllocError>
        requires change { IsChange (op_of entry) }
        requires small { EndsWithin max_disk (op_of entry) }
        ensures ok { OnOk result (self.new ≡ record self.old { done = self.old.done ++ op_of entry ∷ [] }) }
        ensures err { OnErr result (self.new ≡ self.old) }
    {
        make_room(
            &mut self.bytes,
            &mut self.first,
            &mut self.entries,
            entry.end(),
        )?;
        entry.redo(&mut self.bytes, false);
        self.entries.push_reserved(entry);
        Ok(())
    }

    /// Keeps a write that isn't done, but of which a crash may leave any part.
    pub(crate) fn add_tried(&mut self, entry: Entry) -> Result<(), AllocError>
        requires small { EndsWithin max_disk (op_of entry) }
        ensures ok { OnOk result (self.new ≡ record self.old { tried = Some (op_of entry) }) }
        ensures err { OnErr result (self.new ≡ self.old) }
    {
        make_room(
            &mut self.bytes,
            &mut self.first,
            &mut self.entries,
            entry.end(),
        )?;
        self.tried = Some(entry);
        Ok(())
    }

    /// Keeps a sync, for which there is room where anything is unsynced.
    pub(crate) fn sync(&mut self)
        requires idle { self.old.tried ≡ None }
        requires dirt { past_unsynced self.old ≡ true }
        ensures { self.new ≡ record self.old { done = self.old.done ++ synced ∷ [] } }
    {
        self.entries.push_reserved(Entry::Sync);
        self.synced = self.entries.len();
    }

    /// Puts the image that the fate picks in place, and forgets how it came to be.
    pub(crate) fn crash(&mut self, fate: Fate)
        ensures { self.new ≡ fresh_past (picked fate (crash_content self.old)) }
    {
        pick(
            &mut self.bytes,
            &self.first,
            &self.entries,
            self.synced,
            &self.tried,
            fate,
        );
        self.entries.clear();
        self.synced = 0;
        self.tried = None;
    }
}

/// Makes room for an entry, for that of the next sync and for bytes up to `end`, and keeps the bytes
/// from before the first entry.
fn make_room(
    bytes: &mut Vec<u8>,
    first: &mut Vec<u8>,
    entries: &mut Vec<Entry>,
    end: usize,
) -> Result<(), AllocError>
    ensures bytes { bytes.new.items ≡ bytes.old.items }
    ensures entries { entries.new.items ≡ entries.old.items }
    ensures first { first_bytes entries.old.items first.new.items bytes.old.items ≡ first_bytes entries.old.items first.old.items bytes.old.items }
    ensures kept { OnOk result (first.new.items ≡ first_bytes entries.old.items first.old.items bytes.old.items) }
    ensures room { OnOk result (end ≤ vec_capacity bytes.new) }
    ensures entry_room { OnOk result (vec_len entries.new + 2 ≤ vec_capacity entries.new) }
    ensures capacity { vec_capacity bytes.old ≤ vec_capacity bytes.new }
    ensures entry_capacity { vec_capacity entries.old ≤ vec_capacity entries.new }
{
    entries.reserve(2)?;
    bytes.reserve(end.saturating_sub(bytes.len()))?;
    if entries.is_empty() {
        first.clear();
        first.extend_from_slice(bytes)?;
    }
    Ok(())
}

/// Does the calls of these entries again, one after another, each write whole or torn. There is room.
fn replay(bytes: &mut Vec<u8>, entries: &[Entry], torn: bool)
    requires { All (EndsWithin (vec_capacity bytes.old)) (ops_of entries.now) }
    ensures items { bytes.new.items ≡ after_ops bytes.old.items (map (redone torn) (ops_of entries.now)) }
    ensures capacity { vec_capacity bytes.old ≤ vec_capacity bytes.new }
{
    for entry in entries {
        entry.redo(bytes, torn);
    }
}

/// Makes the bytes those of the last sync.
fn rewind(bytes: &mut Vec<u8>, first: &[u8], entries: &[Entry], synced: usize)
    requires mark { synced ≤ length entries.now }
    requires first { length (first_bytes entries.now first.now bytes.old.items) ≤ vec_capacity bytes.old }
    requires room { All (EndsWithin (vec_capacity bytes.old)) (ops_of entries.now) }
    ensures items { bytes.new.items ≡ after_ops (first_bytes entries.now first.now bytes.old.items) (take synced (ops_of entries.now)) }
    ensures capacity { vec_capacity bytes.old ≤ vec_capacity bytes.new }
{
    if entries.is_empty() {
        return;
    }
    bytes.clear();
    // There is room, so this can't fail.
    let _grown = bytes.extend_from_slice(first);
    replay(bytes, &entries[..synced], false);
}

/// Does the call that was tried again, a write whole or torn. There is room.
fn redo_tried(bytes: &mut Vec<u8>, tried: &Option<Entry>, torn: bool)
    requires { IfSome (option_map op_of tried.now) (EndsWithin (vec_capacity bytes.old)) }
    ensures { bytes.new.items ≡ after_ops bytes.old.items (map (redone torn) (option_to_list (option_map op_of tried.now))) }
{
    if let Some(entry) = tried {
        entry.redo(bytes, torn);
    }
}

/// Makes the bytes the image that the fate picks.
fn pick(
    bytes: &mut Vec<u8>,
    first: &[u8],
    entries: &[Entry],
    synced: usize,
    tried: &Option<Entry>,
    fate: Fate,
)
    requires mark { synced ≤ length entries.now }
    requires seen { after_ops (first_bytes entries.now first.now bytes.old.items) (ops_of entries.now) ≡ bytes.old.items }
    requires first { length (first_bytes entries.now first.now bytes.old.items) ≤ vec_capacity bytes.old }
    requires room { All (EndsWithin (vec_capacity bytes.old)) (ops_of entries.now) }
    requires tried { IfSome (option_map op_of tried.now) (EndsWithin (vec_capacity bytes.old)) }
    ensures { bytes.new.items ≡ picked fate (with_tried (record { base = after_ops (first_bytes entries.now first.now bytes.old.items) (take synced (ops_of entries.now)); since = drop synced (ops_of entries.now) }) (option_map op_of tried.now)) }
{
    match fate {
        Fate::Lost => rewind(bytes, first, entries, synced),
        Fate::All => redo_tried(bytes, tried, false),
        Fate::Torn => {
            rewind(bytes, first, entries, synced);
            replay(bytes, &entries[synced..], true);
            redo_tried(bytes, tried, true);
        }
    }
}
