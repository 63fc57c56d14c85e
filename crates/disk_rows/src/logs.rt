use crate::disks::fate_of;
use crate::table::{disk_of, fields, number_in, sound_disk};
use mem_disk::MemDisk;
use nats_text::pieces;
use record_codec::Rec;
use record_log::{AppendFault, OpenFault, RecordLog, prepare};
use std::alloc::Global;
use std::test::Fail;

/// The greatest length of a body, in bytes.
const LONGEST_BODY: usize = 2_097_152;

/// Appends the opening of this number, where the log is open and has room.
fn append_boot(alloc: Global, log: &mut RecordLog<MemDisk>, boot: u64) -> Result<(), AppendFault> {
    let Ok(body) = prepare(alloc, &Rec::Boot { boot }) else {
        return Err(AppendFault::NoMemory);
    };
    let is_body = !body.is_empty() && body.len() <= LONGEST_BODY;
    if !is_body || !log.is_open() || log.end() > 1_000_000_000 {
        return Err(AppendFault::NoMemory);
    }
    log.append(body.as_slice())
}

/// Opens two disks, appends the openings 1, 2 and 3 to the log, as far as they go, and gives the disks.
fn fill(alloc: Global, main: MemDisk, spare: MemDisk) -> (MemDisk, MemDisk) {
    match RecordLog::open(alloc, main, spare) {
        Ok((mut log, replay)) => {
            drop(replay);
            for boot in 1..4 {
                if append_boot(alloc, &mut log, boot).is_err() {
                    break;
                }
            }
            log.close()
        }
        Err((_, main, spare)) => (main, spare),
    }
}

/// The last opening that two disks hold.
fn boot_of(alloc: Global, main: MemDisk, spare: MemDisk) -> Result<u64, OpenFault> {
    match RecordLog::open(alloc, main, spare) {
        Ok((_, replay)) => Ok(replay.boot),
        Err((fault, _, _)) => Err(fault),
    }
}

#[test]
fn empty_disks_become_a_log(rt: HostRuntime) -> Result<(), Fail> {
    let main = sound_disk(rt.alloc(), b"")?;
    let spare = sound_disk(rt.alloc(), b"")?;
    let (main, spare) = fill(rt.alloc(), main, spare);
    let want = b"LEAFJRN1\x01\x01\0\0\0\0\0\0\0\
        \x01\x09\0\0\0\x01\x01\0\0\0\0\0\0\0\
        \x01\x09\0\0\0\x01\x02\0\0\0\0\0\0\0\
        \x01\x09\0\0\0\x01\x03\0\0\0\0\0\0\0\0";
    assert!(rt; main.bytes() == want.as_slice());
    assert!(rt; spare.bytes() == b"LEAFJRN1\0\0\0\0\0\0\0\0\0\0".as_slice());
    assert!(rt; boot_of(rt.alloc(), main, spare) == Ok(3));
    Ok(())
}

/// Each row is a call of the main disk that is stopped, a write or a sync of the first opening or of an
/// append, and the last opening that is found after a crash where what was unsynced is lost, is all there,
/// and is torn.
const STOPS: &[u8] = b"\
    1 0 0 0\n\
    2 0 0 0\n\
    3 0 0 0\n\
    4 0 0 0\n\
    5 0 1 0\n\
    6 0 1 0\n\
    7 1 1 1\n\
    8 1 1 1\n\
    9 1 2 1\n\
    10 1 2 1\n\
    11 2 2 2\n\
    12 2 2 2";

#[test]
fn each_stop_leaves_the_log_with_its_record_or_without(rt: HostRuntime) -> Result<(), Fail> {
    for row in &pieces(rt.alloc(), STOPS, b'\n')? {
        let (call, rest) = fields(row, b' ');
        let (lost, rest) = fields(rest, b' ');
        let (all, torn) = fields(rest, b' ');
        let wants: [(&[u8], &[u8]); 3] = [(b"Lost", lost), (b"All", all), (b"Torn", torn)];
        for (fate, want) in wants {
            let found = stopped(rt.alloc(), number_in(call), fate)?;
            assert!(rt; found == Ok(number_in(want)), "{row:?}");
        }
    }
    Ok(())
}

/// The last opening that is found after a crash at a call of the main disk.
fn stopped(alloc: Global, call: u64, fate: &[u8]) -> Result<Result<u64, OpenFault>, Fail> {
    let mut main = sound_disk(alloc, b"")?;
    main.fuse(call, fate_of(fate));
    let spare = sound_disk(alloc, b"")?;
    let (mut main, mut spare) = fill(alloc, main, spare);
    main.after_crash();
    spare.after_crash();
    Ok(boot_of(alloc, main, spare))
}

/// Each row is a call that fails of the main disk or of the spare, whichever it is, and what the first
/// opening answers.
const FAILURES: &[u8] = b"\
    main 1 read\n\
    main 2 sync\n\
    main 3 sync\n\
    main 4 read\n\
    main 5 read\n\
    main 6 read\n\
    main 7 opened\n\
    spare 1 read\n\
    spare 2 sync\n\
    spare 3 sync\n\
    spare 4 read\n\
    spare 5 read\n\
    spare 6 opened";

#[test]
fn a_failed_call_fails_an_opening(rt: HostRuntime) -> Result<(), Fail> {
    for row in &pieces(rt.alloc(), FAILURES, b'\n')? {
        let fails = fails_and_opens(rt.alloc(), row)?;
        assert!(rt; fails, "{row:?}");
    }
    Ok(())
}

/// Whether the first opening answers as a row says, and a second one opens.
fn fails_and_opens(alloc: Global, row: &[u8]) -> Result<bool, Fail> {
    let (part, rest) = fields(row, b' ');
    let (call, want) = fields(rest, b' ');
    let failing = vec![in alloc; number_in(call)]?;
    let broken = disk_of(alloc, b"", failing)?;
    let sound = sound_disk(alloc, b"")?;
    let (main, spare) = if part == b"main".as_slice() {
        (broken, sound)
    } else {
        (sound, broken)
    };
    match RecordLog::open(alloc, main, spare) {
        Ok((log, replay)) => {
            Ok(want == b"opened".as_slice() && replay.boot == 0 && log.faults() == 0)
        }
        Err((fault, main, spare)) => {
            let again = boot_of(alloc, main, spare);
            Ok(word_of(fault) == want && again == Ok(0))
        }
    }
}

fn word_of(fault: OpenFault) -> &'static [u8] {
    match fault {
        OpenFault::ReadFault => b"read",
        OpenFault::SyncFault => b"sync",
        _ => b"another",
    }
}

#[test]
fn a_log_is_opened_again_after_a_fault(rt: HostRuntime) -> Result<(), Fail> {
    let failing = vec![in rt.alloc(); 7]?;
    let main = disk_of(rt.alloc(), b"", failing)?;
    let spare = sound_disk(rt.alloc(), b"")?;
    let Ok((mut log, replay)) = RecordLog::open(rt.alloc(), main, spare) else {
        return Err("the disks open".into());
    };
    assert!(rt; replay.boot == 0 && log.is_open() && log.end() == 17 && log.faults() == 0);
    let appended = append_boot(rt.alloc(), &mut log, 1);
    assert!(rt; appended == Err(AppendFault::DiskFault));
    assert!(rt; !log.is_open() && log.end() == 0 && log.faults() == 1);
    let Ok(replay) = log.reopen() else {
        return Err("the disks open again".into());
    };
    assert!(rt; replay.boot == 0 && log.is_open() && log.end() == 17);
    assert!(rt; append_boot(rt.alloc(), &mut log, 1) == Ok(()));
    assert!(rt; log.end() == 31 && log.faults() == 1);
    log.fuse(4, fate_of(b"All"));
    assert!(rt; append_boot(rt.alloc(), &mut log, 2) == Err(AppendFault::DiskFault));
    let (mut main, spare) = log.close();
    main.after_crash();
    assert!(rt; boot_of(rt.alloc(), main, spare) == Ok(2));
    Ok(())
}

/// A part of a head, an area that does not count, and an open gate at the end of the disk.
#[test]
fn broken_disks_are_given_back(rt: HostRuntime) -> Result<(), Fail> {
    let rows: [(&[u8], u64); 3] = [
        (b"LEAF", 0),
        (b"LEAFJRN1\0\0\0\0\0\0\0\0\0\0", 8),
        (b"LEAFJRN1\x01\x01\0\0\0\0\0\0\0\x01", 17),
    ];
    for (bytes, place) in rows {
        let main = sound_disk(rt.alloc(), bytes)?;
        let spare = sound_disk(rt.alloc(), b"")?;
        let opened = boot_of(rt.alloc(), main, spare);
        assert!(rt; opened == Err(OpenFault::BadJournal { place }), "{bytes:?}");
    }
    Ok(())
}
