use nats_text::{List, NoMemory, Subject, TextFault};
use std::alloc::Global;
use std::test::Fail;
use subject_transform::{Mappings, Transform, TransformFault};

/// Source, destination, subject and what comes out; nothing is written as an empty text.
const ROWS: [[&str; 4]; 52] = [
    ["foo.*", "bar.$1", "foo.a", "bar.a"],
    ["foo.*", "bar.$1", "baz.a", ""],
    ["foo.*", "bar.$1", "foo.a.b", ""],
    ["*.*", "$2.$1", "a.b", "b.a"],
    ["*.*", "{{wildcard(2)}}.{{WildCard(1)}}", "a.b", "b.a"],
    ["foo.*", " b a r\t. {{ wildcard ( 1 ) }}", "foo.q", "bar.q"],
    ["a", "b", "a", "b"],
    ["a", "$1x", "a", "$1x"],
    ["a.*", "$.$1", "a.b", "$.b"],
    ["a.*", "{{split(1,.)}}", "a.b", "{{split(1,.)}}"],
    ["a", "b\u{1}", "a", ""],
    // The tokens that a `>` took.
    ["a.>", "b.>", "a.x", "b.x"],
    ["a.>", "b.>", "a.x.y.z", "b.x.y.z"],
    ["*.>", "b.$1.>", "a.x.y", "b.a.x.y"],
    [">", ">", "x.y", "x.y"],
    ["a.>", "b.>", "a", ""],
    // Partitions: the hash of `a` is 3826002220, and that of `foobar` is 3214735720.
    ["foo.*", "bar.{{partition(10,1)}}", "foo.a", "bar.0"],
    ["*.*", "p.{{partition(1000,1,2)}}", "foo.bar", "p.720"],
    ["*.*", "p.{{partition(1000,2,1)}}", "bar.foo", "p.720"],
    [
        "*.*",
        "p.{{Partition(4294967295,1,2)}}",
        "foo.bar",
        "p.3214735720",
    ],
    ["*.*", "p.{{partition(1,1)}}", "foo.bar", "p.0"],
    // Splits by a separator.
    ["a.*", "{{split(1,-)}}", "a.-abc-def--ghi-", "abc.def.ghi"],
    ["a.*", "{{split(1,-)}}", "a.abc", "abc"],
    ["a.*", "{{split(1,-)}}", "a.--", ""],
    ["a.*", "{{split(1,aa)}}", "a.xaaaay", "x.y"],
    ["a.*", "{{split(1,aa)}}", "a.aaab", "ab"],
    ["a.*", "{{split(1,aa)}}", "a.baaa", "b.a"],
    ["a.*", "{{split(1,\u{e9})}}", "a.x\u{e9}y", "x.y"],
    // Splits by length.
    ["a.*", "{{splitfromleft(1,3)}}", "a.12345", "123.45"],
    ["a.*", "{{splitfromleft(1,0)}}", "a.12345", "12345"],
    ["a.*", "{{splitfromleft(1,4)}}", "a.12345", "1234.5"],
    ["a.*", "{{splitfromleft(1,5)}}", "a.12345", "12345"],
    ["a.*", "{{splitfromleft(1,6)}}", "a.12345", "12345"],
    ["a.*", "{{splitfromright(1,3)}}", "a.12345", "12.345"],
    ["a.*", "{{splitfromright(1,0)}}", "a.12345", "12345"],
    ["a.*", "{{splitfromright(1,4)}}", "a.12345", "1.2345"],
    ["a.*", "{{splitfromright(1,5)}}", "a.12345", "12345"],
    ["a.*", "{{splitfromright(1,6)}}", "a.12345", "12345"],
    [
        "a.*",
        "{{splitfromright(1,9999999999)}}",
        "a.12345",
        "12345",
    ],
    // Slices.
    [
        "a.*",
        "{{slicefromleft(1,3)}}",
        "a.1234567890",
        "123.456.789.0",
    ],
    [
        "a.*",
        "{{slicefromright(1,3)}}",
        "a.1234567890",
        "1.234.567.890",
    ],
    ["a.*", "{{slicefromleft(1,2)}}", "a.1234", "12.34"],
    ["a.*", "{{slicefromright(1,2)}}", "a.1234", "12.34"],
    ["a.*", "{{slicefromleft(1,4)}}", "a.1234", "1234"],
    ["a.*", "{{slicefromright(1,5)}}", "a.1234", "1234"],
    ["a.*", "{{slicefromleft(1,1)}}", "a.123", "1.2.3"],
    // Characters of one to four bytes.
    [
        "a.*",
        "{{splitfromleft(1,2)}}",
        "a.a\u{e9}\u{20ac}\u{1f600}",
        "a\u{e9}.\u{20ac}\u{1f600}",
    ],
    [
        "a.*",
        "{{splitfromright(1,1)}}",
        "a.a\u{e9}\u{20ac}\u{1f600}",
        "a\u{e9}\u{20ac}.\u{1f600}",
    ],
    [
        "a.*",
        "{{slicefromleft(1,1)}}",
        "a.a\u{e9}\u{20ac}\u{1f600}",
        "a.\u{e9}.\u{20ac}.\u{1f600}",
    ],
    [
        "a.*",
        "{{slicefromright(1,3)}}",
        "a.a\u{e9}\u{20ac}\u{1f600}",
        "a.\u{e9}\u{20ac}\u{1f600}",
    ],
    // A destination of three functions.
    [
        "*.*.*",
        "$3.{{split(2,-)}}.{{slicefromleft(1,1)}}",
        "ab.c-d.e",
        "e.c.d.a.b",
    ],
    ["*.*", "{{slicefromleft(2,2)}}.$1", "x.12345", "12.34.5.x"],
];

/// What a transform makes of a subject, and whether it is this text.
fn gives(alloc: Global, row: &[&str; 4]) -> Result<bool, NoMemory> {
    let Ok(transform) = Transform::read(alloc, row[0].as_bytes(), row[1].as_bytes()) else {
        return Ok(false);
    };
    let Ok(subject) = Subject::read(alloc, row[2].as_bytes()) else {
        return Ok(false);
    };
    match transform.apply(alloc, &subject)? {
        Some(made) => Ok(made.bytes() == row[3].as_bytes()),
        None => Ok(row[3].is_empty()),
    }
}

#[test]
fn transforms_give_what_was_worked_by_hand(rt: HostRuntime) -> Result<(), Fail> {
    for row in ROWS.iter() {
        assert!(rt; gives(rt.alloc(), row)?, "{row:?}");
    }
    Ok(())
}

/// So many bytes `x`.
fn repeated(alloc: Global, count: usize) -> Result<Vec<u8>, NoMemory> {
    let mut text = Vec::new(alloc);
    for _ in 0..count {
        text.push(b'x')?;
    }
    Ok(text)
}

/// Whether two tokens of so many bytes, joined by a dot, are what a transform gives.
fn doubles(alloc: Global, len: usize) -> Result<bool, TransformFault> {
    let transform = Transform::read(alloc, b"*", b"$1.$1")?;
    let token = repeated(alloc, len)?;
    match Subject::read(alloc, &token) {
        Ok(subject) => Ok(transform.apply(alloc, &subject)?.is_some()),
        Err(_) => Ok(false),
    }
}

// A result of 1,023 bytes is a subject, and one of 1,025 bytes is none.
#[test]
fn a_long_result_is_no_subject(rt: HostRuntime) -> Result<(), Fail> {
    assert!(rt; doubles(rt.alloc(), 511)?);
    assert!(rt; !doubles(rt.alloc(), 512)?);
    Ok(())
}

/// Whether a destination of so many bytes behind two blanks is read.
fn is_read(alloc: Global, len: usize) -> Result<bool, NoMemory> {
    let mut dest = Vec::new(alloc);
    dest.extend_from_slice(b" \t")?;
    dest.extend_from_slice(&repeated(alloc, len)?)?;
    Ok(Transform::read(alloc, b"a", &dest).is_ok())
}

// The limit of a destination counts what is left without the blanks.
#[test]
fn a_destination_has_at_most_1024_bytes(rt: HostRuntime) -> Result<(), Fail> {
    assert!(rt; is_read(rt.alloc(), 1)?);
    assert!(rt; is_read(rt.alloc(), 1024)?);
    assert!(rt; !is_read(rt.alloc(), 1025)?);
    Ok(())
}

/// Two transforms, of which the first makes no subject of `a.--`.
fn mappings(alloc: Global) -> Result<Mappings, TransformFault> {
    let mut list = List::new(alloc);
    list.push(Transform::read(alloc, b"a.*", b"{{split(1,-)}}")?)?;
    list.push(Transform::read(alloc, b"*.*", b"second.$2")?)?;
    Ok(Mappings::new(list))
}

/// Whether the mappings make this of a subject.
fn maps(alloc: Global, from: &str, to: &str) -> Result<bool, TransformFault> {
    let mappings = mappings(alloc)?;
    match Subject::read(alloc, from.as_bytes()) {
        Ok(subject) => Ok(mappings.apply(alloc, &subject)?.bytes() == to.as_bytes()),
        Err(_) => Ok(false),
    }
}

// The first transform whose source matches decides.
#[test]
fn the_first_that_matches_decides(rt: HostRuntime) -> Result<(), Fail> {
    for (from, to) in [
        ("a.b-c", "b.c"),
        ("a.--", "a.--"),
        ("b.x", "second.x"),
        ("x.y.z", "x.y.z"),
    ] {
        assert!(rt; maps(rt.alloc(), from, to)?, "{from}");
    }
    Ok(())
}
