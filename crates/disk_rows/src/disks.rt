use crate::table::{disk_of, fields, number_in};
use leaf_edges::{Disk, EdgeError};
use mem_disk::{Fate, MemDisk};
use nats_text::pieces;
use std::alloc::Global;
use std::test::Fail;

/// A write at a place that the disk has.
pub fn put(disk: &mut MemDisk, place: u64, bytes: &[u8]) -> Result<(), EdgeError> {
    if place > disk.bytes().len() as u64 {
        return Ok(());
    }
    disk.write_at(place, bytes)
}

/// A cut to a length that the disk has.
fn shorten(disk: &mut MemDisk, len: u64) -> Result<(), EdgeError> {
    if len > disk.bytes().len() as u64 {
        return Ok(());
    }
    disk.cut(len)
}

/// Two writes, a sync, a cut, a write and a sync; the fuse counts all but the cut.
fn six_calls(disk: &mut MemDisk) -> Result<(), EdgeError> {
    put(disk, 1, b"XY")?;
    put(disk, 4, b"EFGHI")?;
    disk.sync()?;
    shorten(disk, 6)?;
    put(disk, 0, b"Q")?;
    disk.sync()
}

/// Each row is the call at which a fuse stops a disk of `abcd`, its fate, and the bytes that a crash
/// leaves.
const STOPS: &[u8] = b"\
    1 Lost abcd\n\
    1 All aXYd\n\
    1 Torn aX\xA5d\n\
    2 Lost abcd\n\
    2 All aXYdEFGHI\n\
    2 Torn aX\xA5dEF\xA5\xA5\xA5\n\
    3 Lost abcd\n\
    3 All aXYdEFGHI\n\
    3 Torn aX\xA5dEF\xA5\xA5\xA5\n\
    4 Lost aXYdEFGHI\n\
    4 All QXYdEF\n\
    4 Torn \xA5XYdEF\n\
    5 Lost aXYdEFGHI\n\
    5 All QXYdEF\n\
    5 Torn \xA5XYdEF\n\
    6 Lost QXYdEF\n\
    6 All QXYdEF\n\
    0 Torn QXYdEF";

#[test]
fn each_stop_leaves_its_image(rt: HostRuntime) -> Result<(), Fail> {
    for row in &pieces(rt.alloc(), STOPS, b'\n')? {
        let is_left = leaves(rt.alloc(), row)?;
        assert!(rt; is_left, "{row:?}");
    }
    Ok(())
}

/// Whether the disk of a row stops as it says, and a crash leaves its bytes.
fn leaves(alloc: Global, row: &[u8]) -> Result<bool, Fail> {
    let (call, row) = fields(row, b' ');
    let (fate, want) = fields(row, b' ');
    let call = number_in(call);
    let mut disk = disk_of(alloc, b"abcd", Vec::new(alloc))?;
    disk.fuse(call, fate_of(fate));
    let _ = six_calls(&mut disk);
    let stops = 0 < call && call < 6;
    let is_stopped = disk.len().is_err() && disk.fault_count() == 2;
    disk.after_crash();
    let is_left = disk.bytes() == want && disk.len() == Ok(want.len() as u64);
    Ok(is_stopped == stops && is_left)
}

/// The fate of this name.
pub fn fate_of(word: &[u8]) -> Fate {
    match word {
        b"Lost" => Fate::Lost,
        b"All" => Fate::All,
        _ => Fate::Torn,
    }
}

#[test]
fn listed_calls_fail_and_change_nothing(rt: HostRuntime) -> Result<(), Fail> {
    let failing = vec![in rt.alloc(); 2, 4, 6]?;
    let mut disk = disk_of(rt.alloc(), b"abcd", failing)?;
    assert!(rt; six_answers(&mut disk));
    assert!(rt; reads_end(&mut disk));
    assert!(rt; disk.fault_count() == 3);
    // What wasn't synced is lost.
    disk.after_crash();
    assert!(rt; disk.bytes() == b"abcd".as_slice());
    Ok(())
}

/// Whether the second, the fourth and the sixth call fail, and no other.
fn six_answers(disk: &mut MemDisk) -> bool {
    disk.fuse(1, Fate::All);
    // Nothing is unsynced, so the fuse doesn't count this sync.
    let first = disk.sync().is_ok() && put(disk, 0, b"x") == Err(EdgeError::Failed);
    disk.fuse(0, Fate::All);
    let second = put(disk, 4, b"efg").is_ok() && disk.sync() == Err(EdgeError::Failed);
    let third = shorten(disk, 6).is_ok() && shorten(disk, 1) == Err(EdgeError::Failed);
    first && second && third
}

/// Whether six bytes end with `def`.
fn reads_end(disk: &mut MemDisk) -> bool {
    let mut buf = [0u8; 3];
    disk.bytes().len() == 6 && disk.read(3, &mut buf).is_ok() && buf == *b"def"
}
