use crate::disks::put;
use crate::table::disk_of;
use leaf_edges::{Clock, Disk, EdgeError, Files};
use mem_disk::{MemDisk, MemFiles, NamedDisk, NamedText, SetClock};
use std::alloc::{AllocError, Global};
use std::test::Fail;

fn files_of(alloc: Global) -> Result<MemFiles, Fail> {
    let disks = one_disk(alloc)?;
    let texts = two_texts(alloc)?;
    let failing = vec![in alloc; 5]?;
    Ok(MemFiles::new(alloc, disks, texts, failing))
}

/// The disk `d`, whose first call fails.
fn one_disk(alloc: Global) -> Result<Vec<NamedDisk>, Fail> {
    let failing = vec![in alloc; 1]?;
    let disk = disk_of(alloc, b"one", failing)?;
    let name = b"d".to_vec(alloc)?;
    let mut disks = Vec::new(alloc);
    disks.push(NamedDisk::new(name, disk))?;
    Ok(disks)
}

/// The text `t`, and one that is too long.
fn two_texts(alloc: Global) -> Result<Vec<NamedText>, Fail> {
    let mut texts = Vec::new(alloc);
    texts.push(named_text(alloc, b"t", b"text".to_vec(alloc)?)?)?;
    texts.push(named_text(alloc, b"long", vec![in alloc; 0; 16_777_217]?)?)?;
    Ok(texts)
}

fn named_text(alloc: Global, name: &[u8], bytes: Vec<u8>) -> Result<NamedText, AllocError> {
    let name = name.to_vec(alloc)?;
    Ok(NamedText::new(name, bytes))
}

#[test]
fn a_store_gives_its_texts(rt: HostRuntime) -> Result<(), Fail> {
    let mut files = files_of(rt.alloc())?;
    let mut buf = b">".to_vec(rt.alloc())?;
    assert!(rt; gives_texts(&mut files, &mut buf));
    assert!(rt; buf.as_slice() == b">texttext".as_slice());
    Ok(())
}

/// Whether the text that is too long fails, and the fifth call, and no other.
fn gives_texts(files: &mut MemFiles, buf: &mut Vec<u8>) -> bool {
    files.text(b"t", buf) == Ok(true)
        && files.text(b"d", buf) == Ok(false)
        && files.text(b"long", buf) == Err(EdgeError::Failed)
        && files.text(b"t", buf) == Ok(true)
        && files.text(b"t", buf) == Err(EdgeError::Failed)
        && files.text(b"", buf) == Ok(false)
}

/// Hands out the disk of a name that isn't out.
fn take(files: &mut MemFiles, name: &[u8], make: bool) -> Result<Option<MemDisk>, EdgeError> {
    if files.is_out(name) {
        return Ok(None);
    }
    files.disk(name, make)
}

/// Hands out the disk of a name that has one in its place.
fn taken(files: &mut MemFiles, name: &[u8], make: bool) -> Result<MemDisk, EdgeError> {
    match take(files, name, make)? {
        Some(disk) => Ok(disk),
        None => Err(EdgeError::Failed),
    }
}

fn give_back(files: &mut MemFiles, name: &[u8], disk: MemDisk) {
    if files.is_out(name) {
        files.back(name, disk);
    }
}

#[test]
fn a_store_hands_out_its_disks(rt: HostRuntime) -> Result<(), Fail> {
    let mut files = files_of(rt.alloc())?;
    let goes_on = hands_out(&mut files)?;
    assert!(rt; goes_on);
    Ok(())
}

fn hands_out(files: &mut MemFiles) -> Result<bool, EdgeError> {
    let is_missing = take(files, b"new", false)?.is_none();
    let fails = fails_once(files)?;
    let is_forgiven = is_forgiven(files)?;
    make_new(files)?;
    // The fifth call is one that fails; the sixth isn't.
    let fifth = take(files, b"new", false).is_err();
    let sixth = taken(files, b"new", false)?;
    Ok(is_missing && fails && is_forgiven && fifth && sixth.bytes() == b"n".as_slice())
}

/// Whether the first call of the disk `d` fails, and the next one writes to it.
fn fails_once(files: &mut MemFiles) -> Result<bool, EdgeError> {
    let mut disk = taken(files, b"d", false)?;
    let is_out = files.is_out(b"d");
    let fails = disk.sync() == Err(EdgeError::Failed) && put(&mut disk, 3, b"s").is_ok();
    give_back(files, b"d", disk);
    Ok(is_out && fails && files.disk_fault_count() == 1)
}

/// Whether it comes out with what was written and without its fault, and goes back as a disk without one.
fn is_forgiven(files: &mut MemFiles) -> Result<bool, EdgeError> {
    let disk = taken(files, b"d", true)?;
    let is_it = disk.bytes() == b"ones".as_slice() && disk.fault_count() == 0;
    give_back(files, b"d", disk);
    Ok(is_it && files.disk_fault_count() == 1)
}

fn make_new(files: &mut MemFiles) -> Result<(), EdgeError> {
    let mut made = taken(files, b"new", true)?;
    let written = put(&mut made, 0, b"n");
    give_back(files, b"new", made);
    written
}

#[test]
fn a_clock_gives_its_moments(rt: HostRuntime) -> Result<(), Fail> {
    let mut clock = SetClock::new(vec![in rt.alloc(); 7, 5, u64::MAX]?);
    for want in [7, 5] {
        assert_eq!(rt; clock.now(), want);
    }
    let mut second = clock.fork();
    assert_eq!(rt; clock.now(), (1 << 63) - 1);
    assert_eq!(rt; clock.now(), (1 << 63) - 1);
    assert_eq!(rt; second.now(), 5);
    Ok(())
}

fn asks_send<T: Send>(_: &T) {}

#[test]
fn they_may_be_sent(rt: HostRuntime) -> Result<(), Fail> {
    asks_send(&files_of(rt.alloc())?);
    asks_send(&SetClock::new(Vec::new(rt.alloc())));
    Ok(())
}
