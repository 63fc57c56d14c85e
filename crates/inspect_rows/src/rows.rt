use crate::run::{Want, check_disks};
use std::test::Fail;

/// The bytes of the first disk of shard 0, the number of the status, and what is printed and told.
type OneDisk = (&'static [u8], u8, &'static [u8], &'static [u8]);

#[test]
fn a_disk_is_a_journal_or_is_told_by_its_first_fault(rt: HostRuntime) -> Result<(), Fail> {
    let rows: [OneDisk; 22] = [
        // As a first opening leaves it.
        (
            b"LEAFJRN1\x01\x01\0\0\0\0\0\0\0\x01\t\0\0\0\x01\x01\0\0\0\0\0\0\0\0",
            0,
            b"shard 0 boot 1 streams 0\n",
            b"",
        ),
        // A closed gate has any byte but 1.
        (
            b"LEAFJRN1\x01\x01\0\0\0\0\0\0\0\0\t\0\0\0\x01\x01\0\0\0\0\0\0\0\0",
            0,
            b"shard 0 boot 0 streams 0\n",
            b"",
        ),
        // Bytes behind the closed gate are not read.
        (
            b"LEAFJRN1\x01\x01\0\0\0\0\0\0\0\x01\t\0\0\0\x01\x01\0\0\0\0\0\0\0\0\x01\x02\x03",
            0,
            b"shard 0 boot 1 streams 0\n",
            b"",
        ),
        // No gate behind the last body.
        (
            b"LEAFJRN1\x01\x01\0\0\0\0\0\0\0\x01\t\0\0\0\x01\x01\0\0\0\0\0\0\0",
            8,
            b"",
            b"leafd: bad journal shard-0.a at 31\n",
        ),
        // A length that passes the end.
        (
            b"LEAFJRN1\x01\x01\0\0\0\0\0\0\0\x01\t\0\0\0\x01\x01\0",
            8,
            b"",
            b"leafd: bad journal shard-0.a at 17\n",
        ),
        // Another magic.
        (
            b"lEAFJRN1\x01\x01\0\0\0\0\0\0\0\x01\t\0\0\0\x01\x01\0\0\0\0\0\0\0\0",
            8,
            b"",
            b"leafd: bad journal shard-0.a at 0\n",
        ),
        // Nothing at all.
        (b"", 8, b"", b"leafd: bad journal shard-0.a at 0\n"),
        // No place for a gate.
        (
            b"LEAFJRN1\x01\x01\0\0\0\0\0\0\0",
            8,
            b"",
            b"leafd: bad journal shard-0.a at 0\n",
        ),
        // No area counts.
        (
            b"LEAFJRN1\0\x01\0\0\0\0\0\0\0\x01\t\0\0\0\x01\x01\0\0\0\0\0\0\0\0",
            8,
            b"",
            b"leafd: bad journal shard-0.a at 8\n",
        ),
        // A length above the most.
        (
            b"LEAFJRN1\x01\x01\0\0\0\0\0\0\0\x01\xff\xff\xff\xff\x01\x01\0\0\0\0\0\0\0\0",
            8,
            b"",
            b"leafd: bad journal shard-0.a at 17\n",
        ),
        // A length of 0.
        (
            b"LEAFJRN1\x01\x01\0\0\0\0\0\0\0\x01\0\0\0\0\0",
            8,
            b"",
            b"leafd: bad journal shard-0.a at 17\n",
        ),
        // A body that is no record.
        (
            b"LEAFJRN1\x01\x01\0\0\0\0\0\0\0\x01\x01\0\0\0\x05\0",
            8,
            b"",
            b"leafd: bad journal shard-0.a at 17\n",
        ),
        // A byte behind a record.
        (
            b"LEAFJRN1\x01\x01\0\0\0\0\0\0\0\x01\n\0\0\0\x01\x01\0\0\0\0\0\0\0\0\0",
            8,
            b"",
            b"leafd: bad journal shard-0.a at 17\n",
        ),
        // The disk ends where a gate is due, behind a body that is no record.
        (
            b"LEAFJRN1\x01\x01\0\0\0\0\0\0\0\x01\x01\0\0\0\x05",
            8,
            b"",
            b"leafd: bad journal shard-0.a at 23\n",
        ),
        // A first opening that is not number 1.
        (
            b"LEAFJRN1\x01\x01\0\0\0\0\0\0\0\x01\t\0\0\0\x01\x02\0\0\0\0\0\0\0\0",
            8,
            b"",
            b"leafd: bad journal shard-0.a at 17\n",
        ),
        // A number that is left out.
        (
            b"LEAFJRN1\x01\x01\0\0\0\0\0\0\0\x01\t\0\0\0\x01\x01\0\0\0\0\0\0\0\x01\t\0\0\0\x01\x03\0\0\0\0\0\0\0\0",
            8,
            b"",
            b"leafd: bad journal shard-0.a at 31\n",
        ),
        // A stream before any opening.
        (
            b"LEAFJRN1\x01\x01\0\0\0\0\0\0\0\x01J\0\0\0\x02\x01\0\0\0\0\0\0\0\x01\0\0\0S\x01\0\0\0\x01\0\0\0S\0\0\0\0\0\0\0\0\0\0\0\0\0\0\0\0\0\0\0\0\0\0\0\0\0\0\0\0\0\0\0\0\0\0\0\0\0\0\0\0\0\0\xb0\x8e\xf0\x1b\0\0\0\0\0\0",
            8,
            b"",
            b"leafd: bad journal shard-0.a at 17\n",
        ),
        // A name that stands already.
        (
            b"LEAFJRN1\x01\x01\0\0\0\0\0\0\0\x01\t\0\0\0\x01\x01\0\0\0\0\0\0\0\x01J\0\0\0\x02\x01\0\0\0\0\0\0\0\x01\0\0\0S\x01\0\0\0\x01\0\0\0S\0\0\0\0\0\0\0\0\0\0\0\0\0\0\0\0\0\0\0\0\0\0\0\0\0\0\0\0\0\0\0\0\0\0\0\0\0\0\0\0\0\0\xb0\x8e\xf0\x1b\0\0\0\0\0\x01J\0\0\0\x02\x02\0\0\0\0\0\0\0\x01\0\0\0S\x01\0\0\0\x01\0\0\0S\0\0\0\0\0\0\0\0\0\0\0\0\0\0\0\0\0\0\0\0\0\0\0\0\0\0\0\0\0\0\0\0\0\0\0\0\0\0\0\0\0\0\xb0\x8e\xf0\x1b\0\0\0\0\0\0",
            8,
            b"",
            b"leafd: bad journal shard-0.a at 110\n",
        ),
        // A configuration that no stream may have.
        (
            b"LEAFJRN1\x01\x01\0\0\0\0\0\0\0\x01\t\0\0\0\x01\x01\0\0\0\0\0\0\0\x01N\0\0\0\x02\x01\0\0\0\0\0\0\0\x01\0\0\0S\x01\0\0\0\x05\0\0\0$JS.a\0\0\0\0\0\0\0\0\0\0\0\0\0\0\0\0\0\0\0\0\0\0\0\0\0\0\0\0\0\0\0\0\0\0\0\0\0\0\0\0\0\0\xb0\x8e\xf0\x1b\0\0\0\0\0\0",
            8,
            b"",
            b"leafd: bad journal shard-0.a at 31\n",
        ),
        // Nothing to remove.
        (
            b"LEAFJRN1\x01\x01\0\0\0\0\0\0\0\x01\t\0\0\0\x01\x01\0\0\0\0\0\0\0\x01\x06\0\0\0\x03\x01\0\0\0S\0",
            8,
            b"",
            b"leafd: bad journal shard-0.a at 31\n",
        ),
        // A message under a number that was passed.
        (
            b"LEAFJRN1\x01\x01\0\0\0\0\0\0\0\x01\t\0\0\0\x01\x01\0\0\0\0\0\0\0\x01J\0\0\0\x02\x01\0\0\0\0\0\0\0\x01\0\0\0S\x01\0\0\0\x01\0\0\0S\0\0\0\0\0\0\0\0\0\0\0\0\0\0\0\0\0\0\0\0\0\0\0\0\0\0\0\0\0\0\0\0\0\0\0\0\0\0\0\0\0\0\xb0\x8e\xf0\x1b\0\0\0\0\0\x01%\0\0\0\x04\x01\0\0\0S\x02\0\0\0\0\0\0\0\x01\0\0\0\0\0\0\0\0\x01\0\0\0S\0\0\0\0\x01\0\0\0x\x01%\0\0\0\x04\x01\0\0\0S\x02\0\0\0\0\0\0\0\x01\0\0\0\0\0\0\0\0\x01\0\0\0S\0\0\0\0\x01\0\0\0x\0",
            8,
            b"",
            b"leafd: bad journal shard-0.a at 152\n",
        ),
        // Limits that change the name.
        (
            b"LEAFJRN1\x01\x01\0\0\0\0\0\0\0\x01\t\0\0\0\x01\x01\0\0\0\0\0\0\0\x01J\0\0\0\x02\x01\0\0\0\0\0\0\0\x01\0\0\0S\x01\0\0\0\x01\0\0\0S\0\0\0\0\0\0\0\0\0\0\0\0\0\0\0\0\0\0\0\0\0\0\0\0\0\0\0\0\0\0\0\0\0\0\0\0\0\0\0\0\0\0\xb0\x8e\xf0\x1b\0\0\0\0\0\x01G\0\0\0\t\x01\0\0\0S\x01\0\0\0T\x01\0\0\0\x01\0\0\0S\0\0\0\0\0\0\0\0\0\0\0\0\0\0\0\0\0\0\0\0\0\0\0\0\0\0\0\0\0\0\0\0\0\0\0\0\0\0\0\0\0\0\xb0\x8e\xf0\x1b\0\0\0\0\0\0",
            8,
            b"",
            b"leafd: bad journal shard-0.a at 110\n",
        ),
    ];
    for (main, number, out, err) in rows {
        let want = Want { number, out, err };
        check_disks(&rt, rt.alloc(), main, None, &want)?;
    }
    Ok(())
}

/// The bytes of both disks of shard 0, the number of the status, and what is printed and told.
type TwoDisks = (
    &'static [u8],
    &'static [u8],
    u8,
    &'static [u8],
    &'static [u8],
);

#[test]
fn of_two_disks_the_newer_is_taken(rt: HostRuntime) -> Result<(), Fail> {
    let rows: [TwoDisks; 12] = [
        // A new spare.
        (
            b"LEAFJRN1\x01\x01\0\0\0\0\0\0\0\x01\t\0\0\0\x01\x01\0\0\0\0\0\0\0\0",
            b"LEAFJRN1\0\0\0\0\0\0\0\0\0\0",
            0,
            b"shard 0 boot 1 streams 0\n",
            b"",
        ),
        // The greater generation is taken.
        (
            b"LEAFJRN1\x01\x01\0\0\0\0\0\0\0\x01\t\0\0\0\x01\x01\0\0\0\0\0\0\0\0",
            b"LEAFJRN1\x01\x02\0\0\0\0\0\0\0\x01\t\0\0\0\x01\x01\0\0\0\0\0\0\0\x01\t\0\0\0\x01\x02\0\0\0\0\0\0\0\0",
            0,
            b"shard 0 boot 2 streams 0\n",
            b"",
        ),
        // The lower generation is not.
        (
            b"LEAFJRN1\x01\x03\0\0\0\0\0\0\0\x01\t\0\0\0\x01\x01\0\0\0\0\0\0\0\0",
            b"LEAFJRN1\x01\x02\0\0\0\0\0\0\0\x01\t\0\0\0\x01\x01\0\0\0\0\0\0\0\x01\t\0\0\0\x01\x02\0\0\0\0\0\0\0\0",
            0,
            b"shard 0 boot 1 streams 0\n",
            b"",
        ),
        // The first of two equal ones.
        (
            b"LEAFJRN1\x01\x01\0\0\0\0\0\0\0\x01\t\0\0\0\x01\x01\0\0\0\0\0\0\0\0",
            b"LEAFJRN1\x01\x01\0\0\0\0\0\0\0\x01\t\0\0\0\x01\x01\0\0\0\0\0\0\0\x01\t\0\0\0\x01\x02\0\0\0\0\0\0\0\0",
            0,
            b"shard 0 boot 1 streams 0\n",
            b"",
        ),
        // The first does not count.
        (
            b"LEAFJRN1\0\x01\0\0\0\0\0\0\0\x01\t\0\0\0\x01\x01\0\0\0\0\0\0\0\0",
            b"LEAFJRN1\x01\0\0\0\0\0\0\0\0\x01\t\0\0\0\x01\x01\0\0\0\0\0\0\0\x01\t\0\0\0\x01\x02\0\0\0\0\0\0\0\0",
            0,
            b"shard 0 boot 2 streams 0\n",
            b"",
        ),
        // A spare without a head.
        (
            b"LEAFJRN1\x01\x01\0\0\0\0\0\0\0\x01\t\0\0\0\x01\x01\0\0\0\0\0\0\0\0",
            b"LEAFJRN2\0\0\0\0\0\0\0\0\0\0",
            8,
            b"",
            b"leafd: bad journal shard-0.b at 0\n",
        ),
        // The older area is tested too.
        (
            b"LEAFJRN1\x01\x03\0\0\0\0\0\0\0\x01\t\0\0\0\x01\x01\0\0\0\0\0\0\0\0",
            b"LEAFJRN1\x01\x02\0\0\0\0\0\0\0\x01\t\0\0\0\x01\x02\0\0\0\0\0\0\0\0",
            8,
            b"",
            b"leafd: bad journal shard-0.b at 17\n",
        ),
        // Both have no head.
        (b"", b"", 8, b"", b"leafd: bad journal shard-0.a at 0\n"),
        // A head before all else.
        (
            b"LEAFJRN1\x01\x01\0\0\0\0\0\0\0\x01\x01\0\0\0\x05\0",
            b"",
            8,
            b"",
            b"leafd: bad journal shard-0.b at 0\n",
        ),
        // A missing gate before a bad one.
        (
            b"LEAFJRN1\x01\x01\0\0\0\0\0\0\0\x01\x01\0\0\0\x05\0",
            b"LEAFJRN1\x01\x01\0\0\0\0\0\0\0\x01\t\0\0\0\x01\x01\0\0\0\0\0\0\0",
            8,
            b"",
            b"leafd: bad journal shard-0.b at 31\n",
        ),
        // A bad gate of the first before one of the spare.
        (
            b"LEAFJRN1\x01\x01\0\0\0\0\0\0\0\x01\t\0\0\0\x01\x01\0\0\0\0\0\0\0\x01\x01\0\0\0\x05\0",
            b"LEAFJRN1\x01\x02\0\0\0\0\0\0\0\x01\x01\0\0\0\x05\0",
            8,
            b"",
            b"leafd: bad journal shard-0.a at 31\n",
        ),
        // Neither counts.
        (
            b"LEAFJRN1\x02\x01\0\0\0\0\0\0\0\x01\t\0\0\0\x01\x01\0\0\0\0\0\0\0\0",
            b"LEAFJRN1\0\0\0\0\0\0\0\0\0\0",
            8,
            b"",
            b"leafd: bad journal shard-0.a at 8\n",
        ),
    ];
    for (main, spare, number, out, err) in rows {
        let want = Want { number, out, err };
        check_disks(&rt, rt.alloc(), main, Some(spare), &want)?;
    }
    Ok(())
}
