use crate::table::{ONE_BODY, disk_of, fields, number_in, sound_disk, spoiled};
use nats_text::pieces;
use shard_store::{Part, StoreFault, read_streams};
use std::alloc::Global;
use std::test::Fail;

/// An area that counts, of generation 2, without bodies.
const NEWER: &[u8] = b"LEAFJRN1\x01\x02\0\0\0\0\0\0\0\0";

/// The boot number that two disks hold, or the disk and the place at which it breaks.
type Found = (&'static [u8], u64);

fn found(alloc: Global, bytes: &[u8], spare: Option<&[u8]>) -> Result<Found, Fail> {
    let mut other = match spare {
        Some(bytes) => Some(sound_disk(alloc, bytes)?),
        None => None,
    };
    let mut disk = sound_disk(alloc, bytes)?;
    match read_streams(alloc, &mut disk, &mut other) {
        Ok((boot, streams)) if streams.is_empty() => Ok((b"boot", boot)),
        Ok(_) => Ok((b"streams", 0)),
        Err(fault) => Ok(told(&fault)),
    }
}

fn told(fault: &StoreFault) -> Found {
    match fault {
        StoreFault::BadJournal { part, place } => match part {
            Part::Main => (b"main", *place),
            Part::Spare => (b"spare", *place),
        },
        StoreFault::ReadFault => (b"read fault", 0),
        _ => (b"another fault", 0),
    }
}

/// Each row is what is spoiled of the area, behind the boot number or the bad place.
const SPOILED: &[u8] = b"\
    boot 1|32|0|L\n\
    boot 0|32|17|\0\n\
    main 0|32|0|M\n\
    main 8|32|8|\0\n\
    main 31|31|0|L\n\
    main 17|25|0|L\n\
    main 17|32|18|\xFF\xFF\xFF\xFF\n\
    main 17|32|18|\x01\0\0\0\x05\0";

#[test]
fn a_journal_breaks_at_its_place(rt: HostRuntime) -> Result<(), Fail> {
    for row in &pieces(rt.alloc(), SPOILED, b'\n')? {
        let breaks = breaks(rt.alloc(), row)?;
        assert!(rt; breaks, "{row:?}");
    }
    Ok(())
}

fn breaks(alloc: Global, row: &[u8]) -> Result<bool, Fail> {
    let (want, row) = fields(row, b'|');
    let bytes = spoiled(alloc, row)?;
    Ok(is_it(found(alloc, &bytes, None)?, want))
}

/// Whether a row says this.
fn is_it(found: Found, want: &[u8]) -> bool {
    let (word, number) = fields(want, b' ');
    found.0 == word && found.1 == number_in(number)
}

#[test]
fn the_newer_area_is_taken(rt: HostRuntime) -> Result<(), Fail> {
    let rows: [(&[u8], &[u8], &[u8]); 4] = [
        (ONE_BODY, NEWER, b"boot 0"),
        (NEWER, ONE_BODY, b"boot 0"),
        (ONE_BODY, ONE_BODY, b"boot 1"),
        (ONE_BODY, b"", b"spare 0"),
    ];
    for (bytes, spare, want) in rows {
        let found = found(rt.alloc(), bytes, Some(spare))?;
        assert!(rt; is_it(found, want), "{want:?}");
    }
    Ok(())
}

#[test]
fn a_fault_of_the_spare_is_told(rt: HostRuntime) -> Result<(), Fail> {
    let failing = Vec::from_array(rt.alloc(), [2])?;
    let mut spare = Some(disk_of(rt.alloc(), NEWER, failing)?);
    let mut disk = sound_disk(rt.alloc(), ONE_BODY)?;
    let read = read_streams(rt.alloc(), &mut disk, &mut spare);
    assert!(rt; matches!(read, Err(StoreFault::ReadFault)));
    Ok(())
}
