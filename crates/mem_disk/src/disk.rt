ghost use Rattle.std.specs.Prelude.{◌≡◌, ◌≤◌, ◌<◌, ◌+◌, ◌^◌, ℕ, List, Bool, true, false, Some, length, take, drop, IfOk, OnOk, IsErrOf, IsTrue};
ghost use Rattle.leaf_edges.specs.Causes.{CausesOne};
ghost use Rattle.leaf_edges.specs.Disks.{Torn, Cut, Follows, Only, Unchanged, Elapses, Notes, NotesSync, overwritten, wrote, cut_to, synced};
ghost use Rattle.mem_disk.specs.Entries.{op_of};
ghost use Rattle.mem_disk.specs.MemDisks.{fresh_disk, max_disk, past_seen, PastImages, past_moment, PastLeftSince, past_unsynced, disk_tells, disk_seen, disk_images, disk_moment, disk_left_since, disk_unsynced, disk_done, disk_failed, disk_faults, refuses, counted, failed_at, burnt, IsSound, look_answer, write_answer, cut_answer, sync_answer, Answers, AnswersOrNot, crashed};
ghost use Rattle.mem_disk.specs.Leading.{LeadsTo};
ghost use Rattle.mem_disk.specs.LeadingLaws.{leads_here, leads_on};
ghost use Rattle.mem_disk.specs.DiskLaws.{past_seen_is_image, past_synced_is_only, past_only_now};
ghost use mathlib.Core.Logic.{inl};

use crate::Fate;
use crate::entry::Entry;
use crate::history::History;
use leaf_edges::{Disk, EdgeError};
use std::alloc::Global;
use std::marker::Model;

/// The most bytes that a disk in memory holds.
const MAX_LEN: u64 = 1 << 39;

/// A disk in memory. It keeps its writes, cuts and syncs, and tells from them the images since any
/// moment. The calls with the listed numbers fail, counted from 1 over the calls that didn't answer
/// `NoMemory`, and no others but by its fuse. A write past `2^39` bytes answers `NoMemory`, as does
/// one for whose bytes there is no memory.
#[derive(Debug, Drop)]
pub struct MemDisk {
    alloc: Global,
    history: History,
    last_failed: Option<Entry>,
    stopped: Option<Fate>,
    /// How many writes and syncs are left until it stops, that one included; 0 for none.
    fuse: u64,
    fuse_fate: Fate,
    failing: Vec<u64>,
    calls: u64,
    faults: u64,
}

impl Model for MemDisk {
    ghost use Rattle.mem_disk.specs.MemDisks.{DiskState};

    ghost Value = { DiskState };

    ghost use Rattle.mem_disk.specs.MemDiskFields.{disk_of, AreSound};

    ghost view = { disk_of };

    ghost invariant = { AreSound };
}

impl MemDisk {
    /// A disk with these bytes, at most `2^39` of them and all synced, whose calls with these numbers
    /// fail.
    pub fn new(alloc: Global, bytes: Vec<u8>, failing: Vec<u64>) -> MemDisk
        requires { length bytes.items ≤ max_disk }
        ensures value { result ≡ fresh_disk bytes.items failing.items }
        ensures sound { IsSound result }
    {
        MemDisk {
            alloc,
            history: History::new(alloc, bytes),
            last_failed: None,
            stopped: None,
            fuse: 0,
            fuse_fate: Fate::Lost,
            failing,
            calls: 0,
            faults: 0,
        }
    }

    /// What a read gives.
    pub fn bytes(&self) -> &[u8]
        ensures value { result.now ≡ past_seen self.now.past }
        ensures sound { IsSound self.now }
    {
        self.history.bytes()
    }

    /// Sets the fuse, which stops the disk at the write or sync of that number from now on: that call
    /// and all later ones fail until `after_crash`. 0 takes the fuse away. A sync with nothing
    /// unsynced isn't counted.
    pub fn fuse(&mut self, call: u64, fate: Fate)
        ensures { self.new ≡ record self.old { fuse = call; fuse_fate = fate } }
    {
        self.fuse = call;
        self.fuse_fate = fate;
    }

    /// Puts the image that the fate of the stop picks in place, and without a stop what was synced.
    /// Its record of calls, and its moments, begin anew.
    pub fn after_crash(&mut self)
        ensures value { self.new ≡ crashed self.old }
        ensures image { PastImages self.old.past (past_seen self.new.past) }
    {
        self.history.crash(self.stopped.unwrap_or(Fate::Lost));
        self.stopped = None;
    }

    /// How many of its calls failed, up to `2^64 - 1`.
    pub fn fault_count(&self) -> u64
        ensures value { result ≡ self.now.fault_count }
        ensures sound { IsSound self.now }
    {
        self.faults
    }

    pub(crate) fn forget_faults(&mut self)
        ensures { self.new ≡ record self.old { fault_count = 0 } }
    {
        self.faults = 0;
    }

    /// Whether the next call fails, whichever it is.
    fn refuses(&self) -> bool
        ensures value { result ≡ refuses self.now }
        ensures sound { IsSound self.now }
    {
        let number = self.calls.saturating_add(1);
        self.stopped.is_some() || self.failing.contains(&number)
    }

    fn count(&mut self)
        ensures { self.new ≡ counted self.old }
    {
        self.calls = self.calls.saturating_add(1);
    }

    /// Counts a write or a sync that was Ok.
    fn burn(&mut self)
        ensures { self.new ≡ burnt (counted self.old) }
    {
        self.calls = self.calls.saturating_add(1);
        self.fuse = self.fuse.saturating_sub(1);
    }

    /// Counts a write, cut or sync that fails, and keeps it as the last.
    fn fail(&mut self, entry: Entry) -> EdgeError
        ensures state { self.new ≡ failed_at (op_of entry) self.old }
        ensures error { result ≡ EdgeError.Failed }
    {
        self.calls = self.calls.saturating_add(1);
        self.faults = self.faults.saturating_add(1);
        self.last_failed = Some(entry);
        EdgeError::Failed
    }

    /// Counts a length or a read.
    fn look(&mut self) -> Result<(), EdgeError>
        ensures exact { Answers (look_answer self.old) self.new result }
        ensures sound { IsSound self.old }
    {
        let refused = self.refuses();
        self.count();
        if refused {
            self.faults = self.faults.saturating_add(1);
            return Err(EdgeError::Failed);
        }
        Ok(())
    }

    fn do_write(&mut self, place: u64, bytes: &[u8]) -> Result<(), EdgeError>
        requires { place ≤ length (past_seen self.old.past) }
        ensures exact { AnswersOrNot (write_answer (wrote place bytes.now) self.old) self.old self.new result }
        ensures sound { IsSound self.old }
        ensures limit { max_disk < place + length bytes.now → IsErrOf result EdgeError.NoMemory }
    {
        let alloc = self.alloc;
        if place > MAX_LEN || bytes.len() as u64 > MAX_LEN - place {
            return Err(EdgeError::NoMemory);
        }
        let entry = Entry::write(alloc, place, bytes)?;
        if self.refuses() {
            return Err(self.fail(entry));
        }
        if self.fuse == 1 {
            let tried = Entry::write(alloc, place, bytes)?;
            self.history.add_tried(tried)?;
            self.stopped = Some(self.fuse_fate);
            self.fuse = 0;
            return Err(self.fail(entry));
        }
        self.history.add(entry)?;
        self.burn();
        Ok(())
    }

    fn do_cut(&mut self, len: u64) -> Result<(), EdgeError>
        ensures exact { AnswersOrNot (cut_answer (cut_to len) self.old) self.old self.new result }
        ensures sound { IsSound self.old }
    {
        if self.refuses() {
            return Err(self.fail(Entry::Cut { len }));
        }
        self.history.add(Entry::Cut { len })?;
        self.count();
        Ok(())
    }

    fn do_sync(&mut self) -> Result<(), EdgeError>
        ensures exact { Answers (sync_answer self.old) self.new result }
        ensures sound { IsSound self.old }
    {
        if self.refuses() {
            return Err(self.fail(Entry::Sync));
        }
        if !self.history.is_unsynced() {
            self.count();
            return Ok(());
        }
        if self.fuse == 1 {
            self.stopped = Some(self.fuse_fate);
            self.fuse = 0;
            return Err(self.fail(Entry::Sync));
        }
        self.history.sync();
        self.burn();
        Ok(())
    }
}

impl Disk for MemDisk {
    ghost tells = { disk_tells };

    ghost seen = { disk_seen };

    ghost images = { disk_images };

    ghost moment = { disk_moment };

    ghost left_since = { disk_left_since };

    ghost unsynced = { disk_unsynced };

    ghost done = { disk_done };

    ghost failed = { disk_failed };

    ghost faults = { disk_faults };

    ghost leads = { LeadsTo };

    ghost leads_here = { leads_here };

    ghost leads_on = { leads_on };

    ghost seen_is_image = { λ d _. past_seen_is_image d.past };

    ghost synced_is_only = { λ d _ clean. past_synced_is_only d.past clean };

    ghost counts_now = { λ d t c _ later now. inl now };

    ghost only_now = { λ d c _ left. past_only_now d.past c left };

    fn len(&mut self) -> Result<u64, EdgeError>
        ensures value { disk_tells → IfOk result (λ len. len ≡ length (disk_seen self.old)) }
        ensures same { disk_tells → Unchanged disk_seen disk_images disk_unsynced disk_done disk_failed self.old self.new }
        ensures time { disk_tells → Elapses disk_moment disk_left_since disk_images self.old self.new }
        ensures memory { IsErrOf result EdgeError.NoMemory → ⊥ }
        ensures cause { CausesOne (disk_faults self.old) (disk_faults self.new) result }
        ensures leads { LeadsTo self.old self.new }
        // It fails exactly where it is stopped or its number is listed.
        ensures exact { Answers (look_answer self.old) self.new result }
    {
        match self.look() {
            Ok(()) => Ok(self.history.bytes().len() as u64),
            Err(error) => Err(error),
        }
    }

    fn read(&mut self, place: u64, buf: &mut [u8]) -> Result<(), EdgeError>
        requires { disk_tells → place + length buf.old ≤ length (disk_seen self.old) }
        ensures bytes { disk_tells → OnOk result (buf.new ≡ take (length buf.old) (drop place (disk_seen self.old))) }
        ensures same { disk_tells → Unchanged disk_seen disk_images disk_unsynced disk_done disk_failed self.old self.new }
        ensures time { disk_tells → Elapses disk_moment disk_left_since disk_images self.old self.new }
        ensures memory { IsErrOf result EdgeError.NoMemory → ⊥ }
        ensures cause { CausesOne (disk_faults self.old) (disk_faults self.new) result }
        ensures leads { LeadsTo self.old self.new }
        // It fails exactly where it is stopped or its number is listed.
        ensures exact { Answers (look_answer self.old) self.new result }
    {
        match self.look() {
            Ok(()) => {
                let start = place as usize;
                buf.copy_from_slice(&self.history.bytes()[start..start + buf.len()]);
                Ok(())
            }
            Err(error) => Err(error),
        }
    }

    fn write_at(&mut self, place: u64, bytes: &[u8]) -> Result<(), EdgeError>
        requires { disk_tells → place ≤ length (disk_seen self.old) }
        ensures written { disk_tells → OnOk result (disk_seen self.new ≡ overwritten (disk_seen self.old) place bytes.now) }
        ensures dirt { disk_tells → OnOk result (disk_unsynced self.new ≡ true) }
        ensures notes { disk_tells → Notes disk_done disk_failed self.old self.new (wrote place bytes.now) result }
        ensures crash { disk_tells → Follows (Torn place (length bytes.now)) (disk_images self.old) (disk_images self.new) }
        ensures memory { disk_tells → IsErrOf result EdgeError.NoMemory → Unchanged disk_seen disk_images disk_unsynced disk_done disk_failed self.old self.new }
        ensures time { disk_tells → Elapses disk_moment disk_left_since disk_images self.old self.new }
        ensures cause { CausesOne (disk_faults self.old) (disk_faults self.new) result }
        ensures leads { LeadsTo self.old self.new }
        // Where there is memory, it fails exactly where it is stopped, its number is listed or the
        // fuse stops it.
        ensures exact { AnswersOrNot (write_answer (wrote place bytes.now) self.old) self.old self.new result }
        // A disk in memory holds at most `2^39` bytes.
        ensures limit { max_disk < place + length bytes.now → IsErrOf result EdgeError.NoMemory }
    {
        self.do_write(place, bytes)
    }

    fn cut(&mut self, len: u64) -> Result<(), EdgeError>
        requires { disk_tells → len ≤ length (disk_seen self.old) }
        ensures shorter { disk_tells → OnOk result (disk_seen self.new ≡ take len (disk_seen self.old)) }
        ensures dirt { disk_tells → OnOk result (disk_unsynced self.new ≡ true) }
        ensures notes { disk_tells → Notes disk_done disk_failed self.old self.new (cut_to len) result }
        ensures crash { disk_tells → Follows (Cut len) (disk_images self.old) (disk_images self.new) }
        ensures memory { disk_tells → IsErrOf result EdgeError.NoMemory → Unchanged disk_seen disk_images disk_unsynced disk_done disk_failed self.old self.new }
        ensures time { disk_tells → Elapses disk_moment disk_left_since disk_images self.old self.new }
        ensures cause { CausesOne (disk_faults self.old) (disk_faults self.new) result }
        ensures leads { LeadsTo self.old self.new }
        // Where there is memory, it fails exactly where it is stopped or its number is listed.
        ensures exact { AnswersOrNot (cut_answer (cut_to len) self.old) self.old self.new result }
    {
        self.do_cut(len)
    }

    fn sync(&mut self) -> Result<(), EdgeError>
        ensures content { disk_tells → OnOk result (disk_seen self.new ≡ disk_seen self.old) }
        ensures durable { disk_tells → OnOk result (Only (disk_seen self.old) (disk_images self.new)) }
        ensures dirt { disk_tells → OnOk result (disk_unsynced self.new ≡ false) }
        ensures notes { disk_tells → NotesSync disk_done disk_failed disk_unsynced self.old self.new result }
        ensures crash { disk_tells → (c : List ℕ) → disk_images self.new c → disk_images self.old c }
        ensures time { disk_tells → Elapses disk_moment disk_left_since disk_images self.old self.new }
        ensures memory { IsErrOf result EdgeError.NoMemory → ⊥ }
        ensures cause { CausesOne (disk_faults self.old) (disk_faults self.new) result }
        ensures leads { LeadsTo self.old self.new }
        // It fails exactly where it is stopped, its number is listed or the fuse stops it.
        ensures exact { Answers (sync_answer self.old) self.new result }
    {
        self.do_sync()
    }
}
