ghost use Rattle.std.specs.Prelude.{List as Items, ℕ};
ghost use Rattle.mem_disk.specs.MemDisks.{disk_images};
ghost use Rattle.gate_journal.specs.Journals.{Stands};

use crate::disks::fate_of;
use crate::table::{ONE_BODY, disk_of, fields, number_in, sound_disk, spoiled};
use gate_journal::{AppendFault, Area, Ending, Journal, LoadFault};
use leaf_edges::Disk;
use mem_disk::MemDisk;
use nats_text::{Bytes, List, pieces};
use std::alloc::Global;
use std::test::Fail;

/// The greatest length of a body, in bytes.
const LONGEST_BODY: usize = 2_097_152;

/// Appends a body, where there is room.
fn append_to(journal: &mut Journal, disk: &mut MemDisk, body: &[u8]) -> Result<(), AppendFault>
    requires { (bodies : Items (Items ℕ)) × Stands disk_images disk.old journal.old bodies }
{
    if body.is_empty() || body.len() > LONGEST_BODY || journal.end() > 1_000_000_000 {
        return Err(AppendFault::NoMemory);
    }
    journal.append(disk, body)
}

/// Loads a journal and appends a body to it, where it counts; answers its end.
fn load_and_append(alloc: Global, disk: &mut MemDisk, body: &[u8]) -> Result<u64, AppendFault> {
    match Journal::load(alloc, disk) {
        Ok((mut journal, _bodies)) => {
            if journal.counts() {
                append_to(&mut journal, disk, body)?;
            }
            Ok(journal.end())
        }
        // No test comes here.
        Err(_) => Err(AppendFault::NoMemory),
    }
}

/// How many bodies a load gives, and the journal's end.
fn loaded(alloc: Global, disk: &mut MemDisk) -> Result<(usize, u64), LoadFault> {
    let (journal, bodies) = Journal::load(alloc, disk)?;
    Ok((bodies.len(), journal.end()))
}

/// The same without a sync.
fn seen(alloc: Global, disk: &mut MemDisk) -> Result<(usize, u64), LoadFault> {
    let (journal, bodies) = Journal::read_only(alloc, disk)?;
    Ok((bodies.len(), journal.end()))
}

#[test]
fn a_body_is_appended(rt: HostRuntime) -> Result<(), Fail> {
    let mut disk = sound_disk(rt.alloc(), ONE_BODY)?;
    let end = load_and_append(rt.alloc(), &mut disk, b"\x07");
    assert!(rt; end == Ok(37));
    let want =
        b"LEAFJRN1\x01\x01\0\0\0\0\0\0\0\x01\x09\0\0\0\x01\x01\0\0\0\0\0\0\0\x01\x01\0\0\0\x07\0";
    assert!(rt; disk.bytes() == want.as_slice());
    Ok(())
}

#[test]
fn a_body_is_read(rt: HostRuntime) -> Result<(), Fail> {
    let mut disk = sound_disk(rt.alloc(), ONE_BODY)?;
    let (journal, bodies) = Journal::load(rt.alloc(), &mut disk)?;
    assert!(rt; journal.counts() && journal.generation() == 1 && journal.end() == 31);
    assert!(rt; is_last(&bodies, b"\x01\x01\0\0\0\0\0\0\0"));
    Ok(())
}

/// Whether the last body is this one.
fn is_last(bodies: &List<Bytes>, want: &[u8]) -> bool {
    match bodies.as_slice().last() {
        Some(body) => body.as_slice() == want,
        None => false,
    }
}

/// Each row is the call at which a fuse stops an append, its fate, and how many bodies and which end a
/// load finds after a crash.
const STOPS: &[u8] = b"\
    1 Lost 1 31\n\
    1 All 1 31\n\
    1 Torn 1 31\n\
    2 Lost 1 31\n\
    2 All 1 31\n\
    2 Torn 1 31\n\
    3 Lost 1 31\n\
    3 All 2 37\n\
    3 Torn 1 31\n\
    4 Lost 1 31\n\
    4 All 2 37\n\
    4 Torn 1 31";

#[test]
fn each_stop_of_an_append_leaves_its_bodies(rt: HostRuntime) -> Result<(), Fail> {
    for row in &pieces(rt.alloc(), STOPS, b'\n')? {
        let is_left = leaves(rt.alloc(), row)?;
        assert!(rt; is_left, "{row:?}");
    }
    Ok(())
}

/// Whether an append fails as a row says, and a crash leaves its bodies.
fn leaves(alloc: Global, row: &[u8]) -> Result<bool, Fail> {
    let (call, rest) = fields(row, b' ');
    let (fate, rest) = fields(rest, b' ');
    let (bodies, end) = fields(rest, b' ');
    let want = Ok((number_in(bodies) as usize, number_in(end)));
    let mut disk = sound_disk(alloc, ONE_BODY)?;
    disk.fuse(number_in(call), fate_of(fate));
    let appended = load_and_append(alloc, &mut disk, b"\x07");
    disk.after_crash();
    let is_left = loaded(alloc, &mut disk) == want && seen(alloc, &mut disk) == want;
    Ok(appended == Err(AppendFault::DiskFault) && is_left)
}

/// Each row is what is spoiled of the area, behind what a load finds: how many bodies and their end, or
/// the bad place.
const SPOILED: &[u8] = b"\
    read 0 17|32|17|\0\n\
    read 0 17|32|8|\0\n\
    read 0 17|32|8|\x02\n\
    read 1 31|32|31|\xA5\n\
    bad 31|31|31|\n\
    bad 17|25|25|\n\
    bad 0|17|17|\n\
    bad 0|32|0|M\n\
    bad 17|32|18|\xFF\xFF\xFF\xFF";

#[test]
fn bytes_are_read_or_break(rt: HostRuntime) -> Result<(), Fail> {
    for row in &pieces(rt.alloc(), SPOILED, b'\n')? {
        let is_found = finds(rt.alloc(), row)?;
        assert!(rt; is_found, "{row:?}");
    }
    Ok(())
}

fn finds(alloc: Global, row: &[u8]) -> Result<bool, Fail> {
    let (want, row) = fields(row, b'|');
    let mut disk = spoiled_disk(alloc, row)?;
    let is_loaded = loaded(alloc, &mut disk) == found(want);
    let is_seen = seen(alloc, &mut disk) == found(want);
    Ok(is_loaded && is_seen && disk.fault_count() == 0)
}

fn spoiled_disk(alloc: Global, row: &[u8]) -> Result<MemDisk, Fail> {
    let bytes = spoiled(alloc, row)?;
    sound_disk(alloc, &bytes)
}

fn found(want: &[u8]) -> Result<(usize, u64), LoadFault> {
    let (word, rest) = fields(want, b' ');
    let (first, second) = fields(rest, b' ');
    if word == b"read".as_slice() {
        Ok((number_in(first) as usize, number_in(second)))
    } else {
        Err(LoadFault::BadJournal {
            place: number_in(first),
        })
    }
}

/// Each row is what is spoiled of an area, behind its generation, whether it counts, how many bodies it
/// has, and where and how their records end.
const AREAS: &[u8] = b"\
    1 yes 1 31 Closed|32|0|L\n\
    1 yes 1 31 Missing|31|0|L\n\
    1 yes 0 17 Unreadable|25|0|L\n\
    1 no 0 17 Closed|32|8|\0\n\
    none|32|0|M";

#[test]
fn an_area_is_read_whole_or_broken(rt: HostRuntime) -> Result<(), Fail> {
    for row in &pieces(rt.alloc(), AREAS, b'\n')? {
        let is_read = reads_area(rt.alloc(), row)?;
        assert!(rt; is_read, "{row:?}");
    }
    Ok(())
}

fn reads_area(alloc: Global, row: &[u8]) -> Result<bool, Fail> {
    let (want, row) = fields(row, b'|');
    let mut disk = spoiled_disk(alloc, row)?;
    match Area::read(alloc, &mut disk) {
        Ok(Some(area)) => Ok(is_area(&area, want)),
        Ok(None) => Ok(want == b"none".as_slice()),
        Err(_) => Ok(false),
    }
}

fn is_area(area: &Area, want: &[u8]) -> bool {
    let (generation, rest) = fields(want, b' ');
    let (counts, rest) = fields(rest, b' ');
    let (bodies, rest) = fields(rest, b' ');
    let (end, ending) = fields(rest, b' ');
    let len = area.bodies().len();
    area.generation() == number_in(generation)
        && area.counts() == (counts == b"yes".as_slice())
        && len as u64 == number_in(bodies)
        && area.end() == number_in(end)
        && area.place_of(0) == 17
        && area.place_of(len) == area.end()
        && word_of(area.ending()) == ending
}

fn word_of(ending: Ending) -> &'static [u8] {
    match ending {
        Ending::Closed => b"Closed",
        Ending::Missing => b"Missing",
        Ending::Unreadable => b"Unreadable",
    }
}

#[test]
fn a_failed_call_is_told(rt: HostRuntime) -> Result<(), Fail> {
    // The sync of the first load, and the first read of the second, behind a sync and a length.
    let failing = vec![in rt.alloc(); 1, 4]?;
    let mut disk = disk_of(rt.alloc(), ONE_BODY, failing)?;
    assert!(rt; loaded(rt.alloc(), &mut disk) == Err(LoadFault::SyncFault));
    assert!(rt; loaded(rt.alloc(), &mut disk) == Err(LoadFault::ReadFault));
    assert!(rt; disk.fault_count() == 2);
    assert!(rt; loaded(rt.alloc(), &mut disk) == Ok((1, 31)));
    Ok(())
}

#[test]
fn a_failed_first_call_is_told(rt: HostRuntime) -> Result<(), Fail> {
    let failing = vec![in rt.alloc(); 1]?;
    let mut disk = disk_of(rt.alloc(), ONE_BODY, failing)?;
    assert!(rt; seen(rt.alloc(), &mut disk) == Err(LoadFault::ReadFault));
    assert!(rt; seen(rt.alloc(), &mut disk) == Ok((1, 31)));
    let failing = vec![in rt.alloc(); 1]?;
    let mut empty = MemDisk::new(rt.alloc(), Vec::new(rt.alloc()), failing);
    let formatted = Journal::format(rt.alloc(), &mut empty, true);
    assert!(rt; formatted == Err(AppendFault::DiskFault));
    Ok(())
}

#[test]
fn an_area_that_counts_is_formatted(rt: HostRuntime) {
    let mut disk = MemDisk::new(rt.alloc(), Vec::new(rt.alloc()), Vec::new(rt.alloc()));
    assert!(rt; Journal::format(rt.alloc(), &mut disk, true).is_ok());
    assert!(rt; disk.bytes() == b"LEAFJRN1\x01\x01\0\0\0\0\0\0\0\0".as_slice());
    assert!(rt; loaded(rt.alloc(), &mut disk) == Ok((0, 17)));
    assert!(rt; load_and_append(rt.alloc(), &mut disk, b"abc") == Ok(25));
    assert!(rt; loaded(rt.alloc(), &mut disk) == Ok((1, 25)));
}

#[test]
fn a_spare_area_is_formatted(rt: HostRuntime) -> Result<(), Fail> {
    let mut spare = MemDisk::new(rt.alloc(), Vec::new(rt.alloc()), Vec::new(rt.alloc()));
    assert!(rt; Journal::format(rt.alloc(), &mut spare, false).is_ok());
    assert!(rt; spare.bytes() == b"LEAFJRN1\0\0\0\0\0\0\0\0\0\0".as_slice());
    let (journal, bodies) = Journal::load(rt.alloc(), &mut spare)?;
    assert!(rt; !journal.counts() && bodies.is_empty() && journal.generation() == 0);
    Ok(())
}

#[test]
fn many_records_are_read(rt: HostRuntime) -> Result<(), Fail> {
    let mut disk = many_records(rt.alloc())?;
    assert!(rt; loaded(rt.alloc(), &mut disk) == Ok((10_000, 60_017)));
    assert!(rt; seen(rt.alloc(), &mut disk) == Ok((10_000, 60_017)));
    assert!(rt; load_and_append(rt.alloc(), &mut disk, b"\x08") == Ok(60_023));
    assert!(rt; loaded(rt.alloc(), &mut disk) == Ok((10_001, 60_023)));
    Ok(())
}

fn many_records(alloc: Global) -> Result<MemDisk, Fail> {
    let mut bytes = b"LEAFJRN1\x01\x01\0\0\0\0\0\0\0".to_vec(alloc)?;
    for _ in 0..10_000 {
        bytes.extend_from_slice(b"\x01\x01\0\0\0\x07")?;
    }
    bytes.push(0)?;
    sound_disk(alloc, &bytes)
}

// The body's record begins at 31 with a gate and a length of four bytes.
#[test]
fn the_longest_body_is_appended(rt: HostRuntime) -> Result<(), Fail> {
    let body = vec![in rt.alloc(); b'x'; LONGEST_BODY]?;
    let mut disk = sound_disk(rt.alloc(), ONE_BODY)?;
    let end = load_and_append(rt.alloc(), &mut disk, &body);
    assert!(rt; end == Ok(2_097_188));
    assert!(rt; ends_with(rt.alloc(), &mut disk, &body));
    Ok(())
}

/// Whether a load gives two bodies, of which the last is this one.
fn ends_with(alloc: Global, disk: &mut MemDisk, body: &[u8]) -> bool {
    match Journal::load(alloc, disk) {
        Ok((_journal, bodies)) => bodies.len() == 2 && is_last(&bodies, body),
        Err(_) => false,
    }
}
