//! Records and their bytes, worked by hand from the format: numbers have their least byte first, and
//! texts have their length before them.
use crate::table::joined;
use nats_text::{Bytes, Headers, Message, Name, Subject};
use record_codec::{Rec, RecFault, decode, encode};
use std::alloc::Global;
use std::test::Fail;
use stream_fold::{Config, Copies, Discard, Entry, Mark};

const ZERO: &[u8] = &[0; 8];

const ONE: &[u8] = &[1, 0, 0, 0, 0, 0, 0, 0];
/// 2 + 3 * 256.
const TWO: &[u8] = &[2, 3, 0, 0, 0, 0, 0, 0];

const MOST: &[u8] = &[255; 8];
/// A count or a number of four bytes.
const NONE: &[u8] = &[0; 4];

const FULL: &[u8] = &[255; 4];
/// The name `S`.
const NAME: &[u8] = &[1, 0, 0, 0, 83];
/// Five limits.
const NO_LIMITS: &[u8] = &[0; 40];

const LIMITS: &[u8] = &[255; 40];
/// The patterns `a` and `*`.
const PATTERNS: &[u8] = b"\x02\0\0\0\x01\0\0\0a\x01\0\0\0*";

const MAPPING: &[u8] = b"\x03\0\0\0a.>\x01\0\0\0>";

const BLOCK: &[u8] = b"\x12\0\0\0NATS/1.0\r\nA: b\r\n\r\n";
/// The mark of index 3 and number 1.
const MARK: &[u8] = b"\x01\x03\0\0\0\x01\0\0\0\0\0\0\0";

/// A Put of number 2 + 3 * 256 at the greatest time, with a mark, headers and a payload.
const PUT: &[&[u8]] = &[
    b"\x04",
    NAME,
    TWO,
    MOST,
    MARK,
    b"\x01\0\0\0a",
    BLOCK,
    b"\x02\0\0\0hi",
];

/// A mirror of `S` on `hub` from the greatest moment on, with a filter and a map.
const MIRROR: &[&[u8]] = &[
    b"\x09",
    NAME,
    NAME,
    NONE,
    LIMITS,
    b"\0",
    MOST,
    b"\0",
    b"\x01",
    b"\x01\x03\0\0\0hub",
    NAME,
    b"\x01",
    MOST,
    b"\x01\x01\0\0\0>",
    b"\x01\0\0\0",
    MAPPING,
];

/// Two sources, which name no node and no filter.
const SOURCES: &[&[u8]] = &[
    b"\x09",
    NAME,
    NAME,
    NONE,
    LIMITS,
    b"\0",
    MOST,
    b"\0",
    b"\x02\x02\0\0\0",
    b"\0",
    NAME,
    b"\0",
    ONE,
    b"\0",
    NONE,
    b"\0",
    NAME,
    b"\x01",
    ZERO,
    b"\0",
    NONE,
];

#[test]
fn each_kind_is_read_and_written_again(rt: HostRuntime) -> Result<(), Fail> {
    let rows: [&[&[u8]]; 16] = [
        &[b"\x01", ZERO],
        &[b"\x01", ONE],
        &[b"\x01", MOST],
        &[b"\x02", ZERO, NAME, NONE, NO_LIMITS, b"\0", ZERO, b"\0\0"],
        &[
            b"\x02", MOST, NAME, PATTERNS, LIMITS, b"\x01", MOST, b"\x01", MAPPING, b"\0",
        ],
        &[b"\x03", NAME],
        &[b"\x04", NAME, ZERO, ZERO, b"\0\x01\0\0\0a", ZERO],
        PUT,
        &[b"\x05", NAME, ZERO],
        &[b"\x05", NAME, MOST],
        &[b"\x06", NAME, b"\x03\0\0\0a.*", MOST],
        &[b"\x07", NAME, MOST],
        &[b"\x08", NAME, NONE, ZERO, ZERO],
        &[b"\x08", NAME, FULL, MOST, MOST],
        MIRROR,
        SOURCES,
    ];
    for parts in rows {
        let bytes = joined(rt.alloc(), parts)?;
        let is_again = is_again(rt.alloc(), &bytes)?;
        assert!(rt; is_again, "{bytes:?}");
    }
    Ok(())
}

/// Whether the record that is read of these bytes is written as they are.
fn is_again(alloc: Global, bytes: &[u8]) -> Result<bool, RecFault> {
    let again = respelled(alloc, bytes)?;
    Ok(again.as_slice() == bytes)
}

fn respelled(alloc: Global, bytes: &[u8]) -> Result<Vec<u8>, RecFault> {
    match decode(alloc, bytes) {
        Ok(rec) => {
            let again = spelled(alloc, &rec);
            drop(rec);
            again
        }
        Err(fault) => Err(fault),
    }
}

fn spelled(alloc: Global, rec: &Rec) -> Result<Vec<u8>, RecFault> {
    let mut bytes = Vec::new(alloc);
    match encode(rec, &mut bytes) {
        Ok(()) => Ok(bytes),
        Err(_) => Err(RecFault::NoMemory),
    }
}

// A payload of 5,000 bytes, and a mapping to a text of 5,000 bytes.
#[test]
fn long_texts_are_read_and_written_again(rt: HostRuntime) -> Result<(), Fail> {
    let put = &[
        b"\x04".as_slice(),
        NAME,
        ONE,
        ONE,
        b"\0\x01\0\0\0a\0\0\0\0\x88\x13\0\0",
    ];
    let create = &[
        b"\x02".as_slice(),
        ONE,
        NAME,
        NONE,
        NO_LIMITS,
        b"\0",
        ZERO,
        b"\x01\x01\0\0\0a\x88\x13\0\0",
    ];
    assert!(rt; is_long_again(rt.alloc(), put, b"")?);
    assert!(rt; is_long_again(rt.alloc(), create, b"\0")?);
    Ok(())
}

/// The same of bytes with 5,000 others between them.
fn is_long_again(alloc: Global, front: &[&[u8]], end: &[u8]) -> Result<bool, Fail> {
    let mut bytes = joined(alloc, front)?;
    bytes.resize(bytes.len().saturating_add(5_000), b'x')?;
    bytes.extend_from_slice(end)?;
    Ok(is_again(alloc, &bytes)?)
}

#[test]
fn records_are_spelled_as_by_hand(rt: HostRuntime) -> Result<(), Fail> {
    let mut bytes = Vec::from_slice(rt.alloc(), b"before")?;
    encode(&Rec::Boot { boot: 1 }, &mut bytes)?;
    assert!(rt; bytes.as_slice() == b"before\x01\x01\0\0\0\0\0\0\0".as_slice());
    assert!(rt; is_put_spelled(rt.alloc())?);
    Ok(())
}

fn is_put_spelled(alloc: Global) -> Result<bool, Fail> {
    let want = joined(alloc, PUT)?;
    let found = spelled_put(alloc)?;
    Ok(found.as_slice() == want.as_slice())
}

fn message(alloc: Global) -> Result<Message, Fail> {
    let headers = Headers::read(alloc, b"NATS/1.0\r\nA: b\r\n\r\n")?;
    let payload = Bytes::from_slice(alloc, b"hi")?;
    let subject = Subject::read(alloc, b"a")?;
    Ok(Message {
        subject,
        headers,
        payload,
        time: u64::MAX,
    })
}

fn spelled_put(alloc: Global) -> Result<Vec<u8>, Fail> {
    let rec = put(alloc)?;
    let bytes = spelled(alloc, &rec);
    drop(rec);
    Ok(bytes?)
}

fn put(alloc: Global) -> Result<Rec, Fail> {
    let message = message(alloc)?;
    let name = Name::read(alloc, b"S")?;
    let mark = Some(Mark { index: 3, seq: 1 });
    let entry = Entry::Put {
        seq: 770,
        message,
        mark,
    };
    Ok(Rec::Of { name, entry })
}

#[test]
fn fields_stand_in_their_order(rt: HostRuntime) -> Result<(), Fail> {
    let parts: &[&[u8]] = &[
        b"\x02",
        TWO,
        NAME,
        b"\x01\0\0\0\x01\0\0\0*",
        ONE,
        TWO,
        MOST,
        ZERO,
        ONE,
        b"\x01",
        TWO,
        b"\0",
        b"\0",
    ];
    let bytes = joined(rt.alloc(), parts)?;
    assert!(rt; is_create(rt.alloc(), &bytes));
    Ok(())
}

fn is_create(alloc: Global, bytes: &[u8]) -> bool {
    match decode(alloc, bytes) {
        Ok(rec) => {
            let is_it = has_fields(&rec);
            drop(rec);
            is_it
        }
        Err(_) => false,
    }
}

fn has_fields(rec: &Rec) -> bool {
    match rec {
        Rec::Create { time, config } => {
            *time == 770
                && config.name.bytes() == b"S".as_slice()
                && config.subjects.len() == 1
                && has_limits(config)
                && config.transform.is_none()
                && matches!(config.copies, Copies::Nothing)
        }
        _ => false,
    }
}

fn has_limits(config: &Config) -> bool {
    config.max_msgs == 1
        && config.max_bytes == 770
        && config.max_age == u64::MAX
        && config.max_per_subject == 0
        && config.max_msg_size == 1
        && config.discard == Discard::New
        && config.window == 770
}

#[test]
fn the_first_bad_field_is_told(rt: HostRuntime) -> Result<(), Fail> {
    let rows: [(&[&[u8]], u64); 20] = [
        // No bytes, unknown kinds, and a byte behind a record.
        (&[], 0),
        (&[b"\0"], 0),
        (&[b"\x0a", ZERO], 0),
        (&[b"\xff"], 0),
        (&[b"\x01", ONE, b"\0"], 9),
        // Names that are none, one that is cut, one whose length the bytes don't back, a subject and
        // a pattern that are none.
        (&[b"\x03", NONE], 1),
        (&[b"\x03\x01\0\0\0."], 1),
        (&[b"\x03\x02\0\0\0S"], 1),
        (&[b"\x03", FULL, b"S"], 1),
        (&[b"\x04", NAME, ONE, ONE, b"\0\x03\0\0\0a.*", ZERO], 23),
        (&[b"\x06", NAME, b"\x03\0\0\0>.a", ONE], 6),
        // The bytes of an option, of choices, and of where a copy starts.
        (&[b"\x04", NAME, ONE, ONE, b"\x02", ONE], 22),
        (&[b"\x09", NAME, NAME, NONE, LIMITS, b"\x02"], 55),
        (
            &[b"\x09", NAME, NAME, NONE, LIMITS, b"\0", ONE, b"\0\x03"],
            65,
        ),
        (
            &[
                b"\x09",
                NAME,
                NAME,
                NONE,
                LIMITS,
                b"\0",
                ONE,
                b"\0\x01\0",
                NAME,
                b"\x02",
                ONE,
                b"\0",
                NONE,
            ],
            72,
        ),
        // Counts that the bytes don't back.
        (&[b"\x09", NAME, NAME, FULL], 15),
        (&[b"\x09", NAME, NAME, FULL, NAME], 20),
        // A header block without a space behind a colon, one with the space behind the value, and one
        // without a line.
        (
            &[
                b"\x04",
                NAME,
                ONE,
                ONE,
                b"\0\x01\0\0\0a",
                b"\x11\0\0\0NATS/1.0\r\nA:b\r\n\r\n",
                NONE,
            ],
            28,
        ),
        (
            &[
                b"\x04",
                NAME,
                ONE,
                ONE,
                b"\0\x01\0\0\0a",
                b"\x12\0\0\0NATS/1.0\r\nA:b \r\n\r\n",
                NONE,
            ],
            28,
        ),
        (
            &[
                b"\x04",
                NAME,
                ONE,
                ONE,
                b"\0\x01\0\0\0a",
                b"\x0c\0\0\0NATS/1.0\r\n\r\n",
                NONE,
            ],
            28,
        ),
    ];
    for (parts, place) in rows {
        let bytes = joined(rt.alloc(), parts)?;
        assert_eq!(rt; bad_place(rt.alloc(), &bytes), Some(place), "{bytes:?}");
    }
    Ok(())
}

/// The place at which bytes can't be read.
fn bad_place(alloc: Global, bytes: &[u8]) -> Option<u64> {
    match decode(alloc, bytes) {
        Err(RecFault::Bad { place }) => Some(place),
        _ => None,
    }
}

#[test]
fn each_beginning_of_a_record_is_bad(rt: HostRuntime) -> Result<(), Fail> {
    // The places of the first field that is cut: the kind, the name, the number, the time, the byte
    // of the mark, its index and number, the subject, the header block and the payload.
    let places: [u64; 68] = [
        0, 1, 1, 1, 1, 1, 6, 6, 6, 6, 6, 6, 6, 6, 14, 14, 14, 14, 14, 14, 14, 14, 22, 23, 23, 23,
        23, 27, 27, 27, 27, 27, 27, 27, 27, 35, 35, 35, 35, 35, 40, 40, 40, 40, 40, 40, 40, 40, 40,
        40, 40, 40, 40, 40, 40, 40, 40, 40, 40, 40, 40, 40, 62, 62, 62, 62, 62, 62,
    ];
    let body = joined(rt.alloc(), PUT)?;
    assert_eq!(rt; body.len(), 68);
    for (len, place) in places.iter().enumerate() {
        let front = body.get(..len).unwrap_or(&[]);
        assert_eq!(rt; bad_place(rt.alloc(), front), Some(*place), "length {len}");
    }
    Ok(())
}
