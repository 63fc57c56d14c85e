ghost use Rattle.std.specs.Prelude.{◌++◌, ◌∷◌, option_map, IfOk, ◌≡◌, ◌<◌, ◌-◌, ◌^◌, ℕ, min, List, Bool, true, false, ◌||◌, [], None, Some, length, map, Option, option_copied, MatchOption, OnOk, OnErr, IsTrue, bytes_eq, slice_get, vec_len};
ghost use Rattle.leaf_edges.specs.Causes.{Causes, Rose};
ghost use Rattle.leaf_edges.specs.Memory.{is_failing, risen};
ghost use Rattle.leaf_edges.specs.Files.{TellsAs, IsEmptyDisk, SameFiles, GoesOut, GoesBack, HandsOut, IfHanded, AddsText, CountsDisk};
ghost use Rattle.mem_disk.specs.MemDisks.{fresh_disk, disk_seen, disk_images, disk_moment, disk_left_since, disk_unsynced, disk_done, disk_failed, disk_faults};
ghost use Rattle.mem_disk.specs.StoreLeading.{StoreLeadsTo, store_leads_here, store_leads_on};
ghost use Rattle.mem_disk.specs.Stores.{forgiven, has_name, IsFirstOf, disk_at, with_disk, text_in, store_tells, store_place, store_is_out, store_handed, store_text, store_faults, store_disk_faults, disk_answer, AnswersDisk, text_answer, AnswersText, returned, IsCounted};

use crate::{MemDisk, NamedDisk, NamedText};
use leaf_edges::{EdgeError, Files};
use std::alloc::{AllocError, Global};
use std::marker::Model;

/// The most bytes that a text may have.
const MAX_TEXT: usize = 16_777_216;

/// A store of files in memory. The calls of `disk` and `text` with the listed numbers fail, counted
/// from 1 over the calls that didn't answer `NoMemory`; any other fails only at a text that is too
/// long. Of a name that stands twice the first counts.
#[derive(Debug, Drop)]
pub struct MemFiles {
    alloc: Global,
    disks: Vec<NamedDisk>,
    texts: Vec<NamedText>,
    handed: Vec<Vec<u8>>,
    failing: Vec<u64>,
    calls: u64,
    faults: u64,
    disk_faults: u64,
}

impl Model for MemFiles {
    ghost use Rattle.mem_disk.specs.StoreLeading.{StoreLeadsTo, store_leads_here, store_leads_on};
    ghost use Rattle.mem_disk.specs.Stores.{Store};

    ghost Value = { Store };

    ghost use Rattle.mem_disk.specs.StoreFields.{store_of, AreCounts};

    ghost view = { store_of };

    ghost invariant = { AreCounts };
}

impl MemFiles {
    /// A store of these disks and texts, whose calls with these numbers fail.
    pub fn new(
        alloc: Global,
        disks: Vec<NamedDisk>,
        texts: Vec<NamedText>,
        failing: Vec<u64>,
    ) -> MemFiles
        ensures { result ≡ record { slots = disks.items; texts = texts.items; handed = []; failing = failing.items; calls = 0; fault_count = 0; disk_fault_count = 0 } }
    {
        MemFiles {
            alloc,
            disks,
            texts,
            handed: Vec::new(alloc),
            failing,
            calls: 0,
            faults: 0,
            disk_faults: 0,
        }
    }

    /// Whether the disk of a name is out.
    pub fn is_out(&self, name: &[u8]) -> bool
        ensures { result ≡ store_is_out self.now name.now }
    {
        match find(&self.disks, name) {
            Some(at) => self.disks[at].is_out(),
            None => false,
        }
    }

    /// How many disks came back with a fault, up to `2^64 - 1`.
    pub fn disk_fault_count(&self) -> u64
        ensures { result ≡ self.now.disk_fault_count }
    {
        self.disk_faults
    }

    /// Whether the next call of `disk` or `text` is one that is to fail.
    fn is_listed(&self) -> bool
        ensures value { result ≡ is_failing self.now.failing self.now.calls }
        ensures sound { IsCounted self.now }
    {
        let number = self.calls.saturating_add(1);
        self.failing.contains(&number)
    }

    fn count(&mut self)
        ensures { self.new ≡ record self.old { calls = risen self.old.calls } }
    {
        self.calls = self.calls.saturating_add(1);
    }

    /// Counts a call that fails.
    fn fail(&mut self)
        ensures state { self.new ≡ record self.old { calls = risen self.old.calls; fault_count = risen self.old.fault_count } }
        ensures rose { Rose self.old.fault_count self.new.fault_count }
    {
        self.calls = self.calls.saturating_add(1);
        self.faults = self.faults.saturating_add(1);
    }

    fn count_disk_fault(&mut self)
        ensures { self.new ≡ record self.old { disk_fault_count = risen self.old.disk_fault_count } }
    {
        self.disk_faults = self.disk_faults.saturating_add(1);
    }

    /// Puts a disk in its place.
    fn put_back(&mut self, name: &[u8], disk: MemDisk)
        requires { store_is_out self.old name.now ≡ true }
        ensures state { (at : ℕ) × IsFirstOf self.old.slots name.now at × (self.new ≡ record self.old { slots = with_disk self.old.slots at (Some disk) }) }
        ensures sound { IsCounted self.old }
    {
        match find(&self.disks, name) {
            Some(at) => shelve(&mut self.disks, at, disk),
            // A name whose disk is out is there.
            None => {}
        }
    }

    /// Hands out the disk at a place.
    fn hand_out(&mut self, name: &[u8], at: usize) -> Result<Option<MemDisk>, AllocError>
        requires { IsFirstOf self.old.slots name.now at }
        ensures disk { IfOk result (λ disk. disk ≡ option_map forgiven (disk_at self.old.slots at)) }
        ensures ok { OnOk result (self.new ≡ record self.old { slots = with_disk self.old.slots at None; handed = self.old.handed ++ name.now ∷ []; calls = risen self.old.calls }) }
        ensures err { OnErr result (self.new ≡ self.old) }
    {
        let copy = name.to_vec(self.alloc)?;
        self.handed.reserve(1)?;
        self.handed.push_reserved(copy);
        let disk = lend(&mut self.disks, at);
        self.count();
        Ok(forgive(disk))
    }

    /// Hands out an empty disk under a new name.
    fn hand_out_new(&mut self, name: &[u8]) -> Result<MemDisk, AllocError>
        ensures disk { IfOk result (λ disk. disk ≡ fresh_disk [] []) }
        ensures ok { OnOk result (self.new ≡ record self.old { slots = self.old.slots ++ record { name = name.now; disk = None } ∷ []; handed = self.old.handed ++ name.now ∷ []; calls = risen self.old.calls }) }
        ensures err { OnErr result (self.new ≡ self.old) }
    {
        let copy = name.to_vec(self.alloc)?;
        let key = name.to_vec(self.alloc)?;
        self.handed.reserve(1)?;
        self.disks.reserve(1)?;
        self.handed.push_reserved(copy);
        self.disks.push_reserved(NamedDisk::out(key));
        self.count();
        Ok(MemDisk::new(self.alloc, Vec::new(self.alloc), Vec::new(self.alloc)))
    }
}

/// The place of the first disk of this name.
fn find(disks: &[NamedDisk], name: &[u8]) -> Option<usize>
    ensures { MatchOption result (has_name disks.now name.now ≡ false) (λ at. IsFirstOf disks.now name.now at) }
{
    for (at, disk) in disks.iter().enumerate() {
        if disk.name() == name {
            return Some(at);
        }
    }
    None
}

/// The bytes of the first text of this name.
fn find_text<'a>(texts: &'a [NamedText], name: &[u8]) -> Option<&'a [u8]>
    ensures { option_copied result ≡ text_in texts.now name.now }
{
    for text in texts {
        if text.name() == name {
            return Some(text.bytes());
        }
    }
    None
}

/// Takes the disk from its place.
fn lend(disks: &mut Vec<NamedDisk>, at: usize) -> Option<MemDisk>
    requires { at < vec_len disks.old }
    ensures disks { disks.new.items ≡ with_disk disks.old.items at None }
    ensures disk { result ≡ disk_at disks.old.items at }
{
    disks[at].take()
}

/// Puts a disk in its place.
fn shelve(disks: &mut Vec<NamedDisk>, at: usize, disk: MemDisk)
    requires { at < vec_len disks.old }
    ensures { disks.new.items ≡ with_disk disks.old.items at (Some disk) }
{
    disks[at].put(disk);
}

/// Sets the disk's count of faults to 0.
fn forgive(disk: Option<MemDisk>) -> Option<MemDisk>
    ensures { result ≡ option_map forgiven disk }
{
    match disk {
        Some(mut disk) => {
            disk.forget_faults();
            Some(disk)
        }
        None => None,
    }
}

impl Files for MemFiles {
    type D = MemDisk;

    ghost tells = { store_tells };

    ghost place = { store_place };

    ghost is_out = { store_is_out };

    ghost handed = { store_handed };

    ghost text_of = { store_text };

    ghost faults = { store_faults };

    ghost disk_faults = { store_disk_faults };

    ghost leads = { StoreLeadsTo };

    ghost leads_here = { store_leads_here };

    ghost leads_on = { store_leads_on };

    ghost disks_tell = { λ _. tt };

    fn disk(&mut self, name: &[u8], make: bool) -> Result<Option<MemDisk>, EdgeError>
        requires { store_tells → store_is_out self.old name.now ≡ false }
        ensures disk { store_tells → HandsOut (TellsAs disk_seen disk_images disk_moment disk_left_since disk_unsynced disk_done disk_failed)
            (IsEmptyDisk disk_seen disk_images disk_unsynced disk_done disk_failed) (store_place self.old name.now) make result }
        ensures count { IfHanded result (λ disk. disk_faults disk ≡ 0) (Unit {0}) }
        ensures goes { store_tells → IfHanded result (λ _. GoesOut store_place store_is_out store_handed store_text name.now self.old self.new)
            (SameFiles store_place store_is_out store_handed store_text self.old self.new) }
        ensures disk_faults { store_disk_faults self.new ≡ store_disk_faults self.old }
        ensures cause { Causes (store_faults self.old) (store_faults self.new) result }
        ensures leads { StoreLeadsTo self.old self.new }
        // Where there is memory, it fails exactly where its number is listed.
        ensures exact { AnswersDisk (disk_answer self.old name.now make) self.old self.new result }
    {
        if self.is_listed() {
            self.fail();
            return Err(EdgeError::Failed);
        }
        match find(&self.disks, name) {
            Some(at) => match self.hand_out(name, at) {
                Ok(disk) => Ok(disk),
                Err(_) => Err(EdgeError::NoMemory),
            },
            None if make => match self.hand_out_new(name) {
                Ok(disk) => Ok(Some(disk)),
                Err(_) => Err(EdgeError::NoMemory),
            },
            None => {
                self.count();
                Ok(None)
            }
        }
    }

    fn text(&mut self, name: &[u8], buf: &mut Vec<u8>) -> Result<bool, EdgeError>
        ensures text { AddsText store_tells (store_text self.old name.now) buf.old.items buf.new.items result }
        ensures same { store_tells → SameFiles store_place store_is_out store_handed store_text self.old self.new }
        ensures disk_faults { store_disk_faults self.new ≡ store_disk_faults self.old }
        ensures cause { Causes (store_faults self.old) (store_faults self.new) result }
        ensures leads { StoreLeadsTo self.old self.new }
        // Where there is memory, it fails exactly where its number is listed or the text is too long.
        ensures exact { AnswersText (text_answer self.old name.now) self.old self.new buf.old.items buf.new.items result }
    {
        if self.is_listed() {
            self.fail();
            return Err(EdgeError::Failed);
        }
        match find_text(&self.texts, name) {
            None => {
                self.count();
                Ok(false)
            }
            Some(bytes) if bytes.len() > MAX_TEXT => {
                self.fail();
                Err(EdgeError::Failed)
            }
            Some(bytes) => match buf.extend_from_slice(bytes) {
                Ok(()) => {
                    self.count();
                    Ok(true)
                }
                Err(_) => Err(EdgeError::NoMemory),
            },
        }
    }

    fn back(&mut self, name: &[u8], disk: MemDisk)
        requires { store_tells → store_is_out self.old name.now ≡ true }
        ensures goes { store_tells → GoesBack store_place store_is_out store_handed store_text name.now disk self.old self.new }
        ensures faults { store_faults self.new ≡ store_faults self.old }
        ensures disk_faults { CountsDisk (disk_faults disk) (store_disk_faults self.old) (store_disk_faults self.new) }
        ensures leads { StoreLeadsTo self.old self.new }
        ensures exact { self.new ≡ returned self.old name.now disk }
    {
        let is_faulty = disk.fault_count() != 0;
        self.put_back(name, disk);
        if is_faulty {
            self.count_disk_fault();
        }
    }
}
