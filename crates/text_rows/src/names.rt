//! Where texts stop being names, subjects and patterns. The places are worked by hand from what
//! these are: the first byte with which no such text can begin, or the length where more is owed.
use crate::table::{fields, repeated};
use nats_text::{Name, Pattern, Subject, TextFault, fnv1a, number, pieces};
use std::alloc::Global;
use std::test::Fail;

/// Each row is a text, and its bad places as a name, as a subject and as a pattern, where there are
/// any.
const TEXTS: &[u8] = b"\
    |0 0 0;\
    a|- - -;\
    ORDERS|- - -;\
    a-b_c$d|- - -;\
    orders.new|6 - -;\
    .|0 0 0;\
    .a|0 0 0;\
    a.|1 2 2;\
    a..b|1 2 2;\
    \x20|0 0 0;\
    a b|1 1 1;\
    a\tb|1 1 1;\
    a.\0|1 2 2;\
    a\x7f|1 1 1;\
    a\r\n|1 1 1;\
    !~|- - -;\
    a/b|1 - -;\
    a\\b|1 - -;\
    *|0 1 -;\
    >|0 1 -;\
    a.*|1 3 -;\
    a.>|1 3 -;\
    *.a|0 1 -;\
    *.*.>|0 1 -;\
    >.a|0 1 1;\
    a.>.b|1 3 3;\
    a.>.|1 3 3;\
    *a|0 - -;\
    a*.b>|1 - -;\
    >>|0 - -;\
    a.**|1 - -;\
    a.*>|1 - -;\
    \xc3\xa9|0 - -;\
    a.\xe2\x82\xac.b|1 - -;\
    \xf0\x9f\x98\x80|0 - -;\
    \xef\xbf\xbf|0 - -;\
    *\xc3\xa9.>\xc3\xa9|0 - -;\
    \x80|0 0 0;\
    a\xbf|1 1 1;\
    \xc0\xaf|0 0 0;\
    \xc1\xbf|0 0 0;\
    \xf5\x80\x80\x80|0 0 0;\
    \xff|0 0 0;\
    \xc3(|0 1 1;\
    \xc3.a|0 1 1;\
    \xe2\x82(|0 2 2;\
    \xf0\x9f\x98a|0 3 3;\
    \xc3|0 1 1;\
    a.\xe2\x82|1 4 4;\
    \xf0\x9f\x98|0 3 3;\
    \xe0\x9f\xbf|0 1 1;\
    \xe0\xa0\x80|0 - -;\
    \xf0\x8f\xbf\xbf|0 1 1;\
    \xf0\x90\x80\x80|0 - -;\
    \xed\xa0\x80|0 1 1;\
    \xed\x9f\xbf|0 - -;\
    \xee\x80\x80|0 - -;\
    \xf4\x90\x80\x80|0 1 1;\
    \xf4\x8f\xbf\xbf|0 - -;\
    \xf4\x90|0 1 1";

#[test]
fn texts_are_bad_at_their_places(rt: HostRuntime) -> Result<(), Fail> {
    for row in &pieces(rt.alloc(), TEXTS, b';')? {
        let (text, places) = fields(row, b'|');
        assert!(rt; are_places(rt.alloc(), text, places), "{text:?}");
    }
    Ok(())
}

/// Each row is a number of bytes `a`, the bytes behind them, and the bad places of both together.
const LONG_TEXTS: &[u8] = b"\
    64||- - -;\
    65||64 - -;\
    64|.|64 65 65;\
    63|/|63 - -;\
    1024||64 - -;\
    1025||64 1024 1024;\
    1022|.|64 1023 1023;\
    1023|.|64 1023 1023;\
    1022|.b|64 - -;\
    1022|.*|64 1023 -;\
    1021|.>|64 1023 -;\
    1022|\xc3\xa9|64 - -;\
    1023|\xc3\xa9|64 1023 1023;\
    1020|\xf0\x9f\x98\x80|64 - -;\
    1021|\xf0\x9f\x98\x80|64 1021 1021";

#[test]
fn long_texts_are_bad_at_their_places(rt: HostRuntime) -> Result<(), Fail> {
    for row in &pieces(rt.alloc(), LONG_TEXTS, b';')? {
        let (count, row) = fields(row, b'|');
        let (end, places) = fields(row, b'|');
        let count = number(count).unwrap_or(0) as usize;
        let text = repeated(rt.alloc(), b'a', count, end)?;
        assert!(rt;
            are_places(rt.alloc(), &text, places),
            "{count} and {end:?}"
        );
    }
    Ok(())
}

/// Whether a text is bad at these places, which have blanks between them. A `-` stands for none.
fn are_places(alloc: Global, text: &[u8], places: &[u8]) -> bool {
    let (name, places) = fields(places, b' ');
    let (subject, pattern) = fields(places, b' ');
    place_of(Name::read(alloc, text)) == number(name)
        && place_of(Subject::read(alloc, text)) == number(subject)
        && place_of(Pattern::read(alloc, text)) == number(pattern)
        && Name::legal(text) == number(name).is_none()
        && Subject::legal(text) == number(subject).is_none()
        && Pattern::legal(text) == number(pattern).is_none()
}

/// The place at which a text is bad. No row wants the one that stands for want of memory.
fn place_of<T: Drop>(read: Result<T, TextFault>) -> Option<u64> {
    match read {
        Ok(_) => None,
        Err(TextFault::Bad { place }) => Some(place),
        Err(TextFault::NoMemory) => Some(u64::MAX),
    }
}

#[test]
fn numbers_have_up_to_19_digits(rt: HostRuntime) {
    let rows: [(&[u8], Option<u64>); 12] = [
        (b"0", Some(0)),
        (b"007", Some(7)),
        (b"9223372036854775807", Some(9_223_372_036_854_775_807)),
        (b"0000000000000000001", Some(1)),
        (b"00000000000000000001", None),
        (b"9223372036854775808", None),
        (b"9999999999999999999", None),
        (b"", None),
        (b"+1", None),
        (b"1 ", None),
        (b"-1", None),
        (b"1a", None),
    ];
    for (digits, want) in rows {
        assert_eq!(rt; number(digits), want, "{digits:?}");
    }
}

// Vectors that the authors of the hash publish.
#[test]
fn bytes_are_hashed(rt: HostRuntime) {
    let rows: [(&[u8], u32); 3] = [
        (b"", 0x811c_9dc5),
        (b"a", 0xe40c_292c),
        (b"foobar", 0xbf9c_f968),
    ];
    for (bytes, want) in rows {
        assert_eq!(rt; fnv1a(bytes), want, "{bytes:?}");
    }
}
