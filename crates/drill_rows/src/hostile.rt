use crate::run::{Want, check};
use std::alloc::{AllocError, Global};
use std::test::Fail;

const LONGEST: usize = 16_777_216;

const LONGEST_PAYLOAD: usize = 2_000_000;

fn joined(alloc: Global, front: &[u8], byte: u8, count: usize) -> Result<Vec<u8>, AllocError> {
    let mut script = front.to_vec(alloc)?;
    script.resize(front.len().saturating_add(count), byte)?;
    Ok(script)
}

#[test]
fn a_script_has_a_longest_length(rt: HostRuntime) -> Result<(), Fail> {
    let alloc = rt.alloc();
    // All empty lines but the last.
    let longest = joined(alloc, &[], b'\n', LONGEST - 1)?;
    let longest = joined(alloc, &longest, b'x', 1)?;
    let want = Want {
        number: 1,
        out: b"",
        err: b"leafd: line 16777216: BadLine\n",
    };
    check(&rt, rt.alloc(), &longest, &want)?;
    let longer = vec![in alloc; b'\n'; LONGEST + 1]?;
    let want = Want {
        number: 7,
        out: b"",
        err: b"leafd: script too long\n",
    };
    check(&rt, rt.alloc(), &longer, &want)
}

#[test]
fn a_payload_has_a_longest_length(rt: HostRuntime) -> Result<(), Fail> {
    let alloc = rt.alloc();
    let front = b"node hub\nstream hub S\npub hub S S ";
    let longest = joined(alloc, front, b'a', LONGEST_PAYLOAD)?;
    let want = Want {
        number: 0,
        out: b"2 made\n3 stored 1\n",
        err: b"",
    };
    check(&rt, rt.alloc(), &longest, &want)?;
    let longer = joined(alloc, front, b'a', LONGEST_PAYLOAD + 1)?;
    let want = Want {
        number: 1,
        out: b"2 made\n",
        err: b"leafd: line 3: TooMany\n",
    };
    check(&rt, rt.alloc(), &longer, &want)
}

#[test]
fn bad_bytes_end_a_script_at_their_line(rt: HostRuntime) -> Result<(), Fail> {
    let alloc = rt.alloc();
    let name = b"leafd: line 3: BadName\n".as_slice();
    let line = b"leafd: line 3: BadLine\n".as_slice();
    let rows: [(Vec<u8>, &[u8]); 7] = [
        (joined(alloc, b"node ", b'n', 65)?, name),
        (joined(alloc, b"stream hub ", b'n', 65)?, name),
        (joined(alloc, b"", b'n', 3_000_000)?, line),
        (joined(alloc, b"settle", b' ', 3_000_000)?, line),
        (joined(alloc, b"node ", 0xc3, 1)?, name),
        (joined(alloc, b"node ", 0, 1)?, name),
        (
            joined(alloc, b"pub hub S ", 0xff, 1)?,
            b"leafd: line 3: BadSubject\n",
        ),
    ];
    for (line, err) in &rows {
        let mut script = b"node hub\nstream hub S\n".to_vec(alloc)?;
        script.extend_from_slice(line)?;
        script.extend_from_slice(b"\nstream hub U\n")?;
        let want = Want {
            number: 1,
            out: b"2 made\n",
            err,
        };
        check(&rt, rt.alloc(), &script, &want)?;
    }
    Ok(())
}

#[test]
fn a_name_may_have_64_bytes(rt: HostRuntime) -> Result<(), Fail> {
    let script = joined(rt.alloc(), b"node ", b'n', 64)?;
    let want = Want {
        number: 0,
        out: b"",
        err: b"",
    };
    check(&rt, rt.alloc(), &script, &want)
}

#[test]
fn a_script_has_at_most_16_nodes(rt: HostRuntime) -> Result<(), Fail> {
    let script =
        b"node a\nnode b\nnode c\nnode d\nnode e\nnode f\nnode g\nnode h\nnode i\nnode j\nnode k\nnode l\nnode m\nnode n\nnode o\nnode p\nnode q\n";
    let want = Want {
        number: 1,
        out: b"",
        err: b"leafd: line 17: TooMany\n",
    };
    check(&rt, rt.alloc(), script, &want)
}
