use crate::table::fields;
use nats_text::{Headers, TextFault, number, pieces};
use std::alloc::{AllocError, Global};
use std::test::Fail;
use std::time::{Duration, Instant};

/// Each row is a block, and how what is read of it is written.
const BLOCKS: &[u8] = b"\
    |;\
    NATS/1.0\r\n\r\n|;\
    NATS/1.0 \r\n\r\n|NATS/1.0 \r\n\r\n;\
    NATS/1.0 503\r\n\r\n|NATS/1.0 503\r\n\r\n;\
    NATS/1.0 100 Idle Heartbeat\r\nNats-Last-Consumer: 7\r\n\r\n|NATS/1.0 100 Idle Heartbeat\r\nNats-Last-Consumer: 7\r\n\r\n;\
    NATS/1.0\r\nA:1\r\nb: \t2\t \r\nA:\r\nC: \t \r\n\r\n|NATS/1.0\r\nA: 1\r\nb: 2\r\nA: \r\nC: \r\n\r\n;\
    NATS/1.0\r\nA: x:y\tz \r\n\r\n|NATS/1.0\r\nA: x:y\tz\r\n\r\n;\
    NATS/1.0\r\nA: 1\r\nB:2 \r\n\r\n|NATS/1.0\r\nA: 1\r\nB: 2\r\n\r\n;\
    NATS/1.0\r\nA:\t1\r\n\r\n|NATS/1.0\r\nA: 1\r\n\r\n";

#[test]
fn blocks_are_read_and_written(rt: HostRuntime) -> Result<(), Fail> {
    for row in &pieces(rt.alloc(), BLOCKS, b';')? {
        let (block, want) = fields(row, b'|');
        let written = rewritten(rt.alloc(), block)?;
        assert!(rt; written.as_slice() == want, "{block:?}");
        assert!(rt; Headers::is_written(want), "{want:?}");
        assert!(rt; Headers::is_written(block) == (block == want), "{block:?}");
    }
    Ok(())
}

/// How what is read of a block is written.
fn rewritten(alloc: Global, block: &[u8]) -> Result<Vec<u8>, TextFault> {
    let headers = Headers::read(alloc, block)?;
    written(alloc, &headers)
}

fn written(alloc: Global, headers: &Headers) -> Result<Vec<u8>, TextFault> {
    let mut bytes = Vec::new(alloc);
    headers.write(&mut bytes)?;
    Ok(bytes)
}

/// Each row is a text that is no block, and the place of its first bad line: texts that end early,
/// texts without a first line, wrong ends of lines, wrong names, and bytes behind the empty line.
const NO_BLOCKS: &[u8] = b"\
    N|0;\
    NATS/1.0|0;\
    NATS/1.0\r|0;\
    NATS/1.0\r\n|10;\
    NATS/1.0\r\nA:1|10;\
    NATS/1.0\r\nA:1\r\n|15;\
    NATS/1.0\r\nA:1\r\n\r|15;\
    nats/1.0\r\n\r\n|0;\
    NATS/1.1\r\n\r\n|0;\
    NATS/1.0x\r\n\r\n|0;\
    NATS/1.0\t503\r\n\r\n|0;\
    \r\n|0;\
    NATS/1.0\n\r\n|0;\
    NATS/1.0\r\nA:1\n\r\n|10;\
    NATS/1.0\r\nA:1\r\n\n|15;\
    NATS/1.0\r\nA:1\r2\r\n\r\n|10;\
    NATS/1.0 5\r3\r\n\r\n|0;\
    NATS/1.0\r\nA:1\r\n:2\r\n\r\n|15;\
    NATS/1.0\r\nA\r\n\r\n|10;\
    NATS/1.0\r\nA :1\r\n\r\n|10;\
    NATS/1.0\r\n A:1\r\n\r\n|10;\
    NATS/1.0\r\n\x7f:1\r\n\r\n|10;\
    NATS/1.0\r\n\r:1\r\n\r\n|10;\
    NATS/1.0\r\n\r\nA:1|12;\
    NATS/1.0\r\nA:1\r\n\r\n\r\n|17";

#[test]
fn what_is_no_block_is_refused(rt: HostRuntime) -> Result<(), Fail> {
    for row in &pieces(rt.alloc(), NO_BLOCKS, b';')? {
        let (block, place) = fields(row, b'|');
        assert_eq!(rt; bad_place(rt.alloc(), block), number(place), "{block:?}");
        assert!(rt; !Headers::is_written(block), "{block:?}");
    }
    Ok(())
}

fn bad_place(alloc: Global, block: &[u8]) -> Option<u64> {
    match Headers::read(alloc, block) {
        Err(TextFault::Bad { place }) => Some(place),
        _ => None,
    }
}

const PAIRS: &[u8] = b"NATS/1.0 1\r\nA:1\r\nB:2\r\na:3\r\nA:4\r\n\r\n";

#[test]
fn pairs_are_found(rt: HostRuntime) -> Result<(), Fail> {
    let headers = Headers::read(rt.alloc(), PAIRS)?;
    assert!(rt; headers.status() == Some(b"1".as_slice()));
    assert!(rt; headers.pairs().len() == 4);
    assert!(rt; is_value(&headers, b"A", b"1"));
    assert!(rt; is_value(&headers, b"a", b"3"));
    assert!(rt; headers.get(b"b").is_none());
    Ok(())
}

fn is_value(headers: &Headers, name: &[u8], want: &[u8]) -> bool {
    match headers.get(name) {
        Some(value) => value == want,
        None => false,
    }
}

#[test]
fn pairs_are_set_added_and_removed(rt: HostRuntime) -> Result<(), Fail> {
    let mut headers = Headers::read(rt.alloc(), PAIRS)?;
    assert!(rt; Headers::legal(b"A", b"5"));
    headers.set(b"A", b"5")?;
    assert!(rt; headers.remove(b"B"));
    assert!(rt; !headers.remove(b"B"));
    // A pair that is added stands behind the others of its name.
    assert!(rt; Headers::legal(b"a", b"6"));
    headers.add(b"a", b"6")?;
    let want = b"NATS/1.0 1\r\na: 3\r\nA: 5\r\na: 6\r\n\r\n";
    assert!(rt; written(rt.alloc(), &headers)?.as_slice() == want.as_slice());
    Ok(())
}

/// Each row is a name, a value, and whether headers may have this pair.
const LEGAL: &[u8] = b"\
    A||yes;\
    !~|a b|yes;\
    Nats-Msg-Id|\x01\x7f|yes;\
    |a|no;\
    A:|a|no;\
    A b|a|no;\
    \x7f|a|no;\
    A| a|no;\
    A|a\t|no;\
    A| |no;\
    A|a\rb|no;\
    A|a\nb|no";

#[test]
fn legal_pairs_are_told(rt: HostRuntime) -> Result<(), Fail> {
    for row in &pieces(rt.alloc(), LEGAL, b';')? {
        let (name, rest) = fields(row, b'|');
        let (value, want) = fields(rest, b'|');
        assert!(rt;
            Headers::legal(name, value) == (want == b"yes".as_slice()),
            "{row:?}"
        );
    }
    Ok(())
}

#[test]
fn many_pairs_are_read_quickly(rt: HostRuntime) -> Result<(), Fail> {
    let block = many_pairs(rt.alloc())?;
    let start = Instant::now(&rt)?;
    let written = rewritten(rt.alloc(), &block)?;
    assert!(rt; start.elapsed(&rt)? < Duration::from_secs(1));
    assert!(rt; written.as_slice() == block.as_slice());
    Ok(())
}

fn many_pairs(alloc: Global) -> Result<Vec<u8>, AllocError> {
    let mut block = b"NATS/1.0\r\n".to_vec(alloc)?;
    for _ in 0..10_000 {
        block.extend_from_slice(b"Name: value\r\n")?;
    }
    block.extend_from_slice(b"\r\n")?;
    Ok(block)
}
