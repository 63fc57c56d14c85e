use crate::reads::{Row, is_right};
use leaf_frames::beginning;
use nats_frames::First;
use nats_frames::FrameText::{
    self, InvalidSubject, ParserError, PayloadViolation, UnknownOperation,
};
use nats_text::NoMemory;
use std::alloc::Global;
use std::test::Fail;

/// Two frames, of 13 bytes.
const BEFORE: &str = "PING\r\nLS+ a\r\n";

/// Streams of a leaf link.
const ROWS: [Row; 63] = [
    // Each operation, without regard to case, between any blanks.
    ("ping\r\n\tPong \r\n", "PING\r\nPONG\r\n", None),
    (
        "INFO {\"name\":\"hub\"}\r\n",
        "INFO {\"domain\":\"hub\",\"headers\":false,\"name\":\"hub\"}\r\n",
        None,
    ),
    (
        "connect {\"headers\":true,\"name\":\"l1\",\"domain\":7,\"name\":\"leaf1\"} \r\n",
        "CONNECT {\"domain\":\"leaf1\",\"headers\":true,\"name\":\"leaf1\"}\r\n",
        None,
    ),
    (
        "LS+ a.*\r\nls+  a.> q\t003 \r\n",
        "LS+ a.*\r\nLS+ a.> q 3\r\n",
        None,
    ),
    (
        "LS+ a q 1\r\nLS+ a q 65536\r\n",
        "LS+ a q 1\r\nLS+ a q 65536\r\n",
        None,
    ),
    ("LS- a.*\r\nls- > q\r\n", "LS- a.*\r\nLS- > q\r\n", None),
    (
        "-ERR 'Duplicate Node Name'\r\n",
        "-ERR 'Duplicate Node Name'\r\n",
        None,
    ),
    // The forms of an address.
    ("LMSG s 2\r\nhi\r\n", "LMSG s 2\r\nhi\r\n", None),
    ("lmsg s r 02\r\nhi\r\n", "LMSG s r 2\r\nhi\r\n", None),
    ("LMSG s + r 0\r\n\r\n", "LMSG s r 0\r\n\r\n", None),
    (
        "LMSG s + r q1 q2 0\r\n\r\n",
        "LMSG s + r q1 q2 0\r\n\r\n",
        None,
    ),
    ("LMSG s | q 0\r\n\r\n", "LMSG s | q 0\r\n\r\n", None),
    (
        "LMSG s | q1 q2 1\r\nx\r\n",
        "LMSG s | q1 q2 1\r\nx\r\n",
        None,
    ),
    // A queue is no subject.
    ("LMSG s | a..b 0\r\n\r\n", "LMSG s | a..b 0\r\n\r\n", None),
    // Signs that stand where they are none.
    ("LMSG s + + 0\r\n\r\n", "LMSG s + + 0\r\n\r\n", None),
    ("LMSG s + | 0\r\n\r\n", "LMSG s + | 0\r\n\r\n", None),
    ("LMSG + 0\r\n\r\n", "LMSG + 0\r\n\r\n", None),
    ("LMSG | r 0\r\n\r\n", "LMSG | r 0\r\n\r\n", None),
    ("LMSG s | + 0\r\n\r\n", "LMSG s | + 0\r\n\r\n", None),
    ("LMSG s + r | + 0\r\n\r\n", "LMSG s + r | + 0\r\n\r\n", None),
    // Headers.
    (
        "HMSG s 17 19\r\nNATS/1.0\r\nA:b\r\n\r\nhi\r\n",
        "HMSG s 18 20\r\nNATS/1.0\r\nA: b\r\n\r\nhi\r\n",
        None,
    ),
    (
        "HMSG s + r q 16 16\r\nNATS/1.0 503\r\n\r\n\r\n",
        "HMSG s + r q 16 16\r\nNATS/1.0 503\r\n\r\n\r\n",
        None,
    ),
    (
        "HMSG s r 12 14\r\nNATS/1.0\r\n\r\nhi\r\n",
        "LMSG s r 2\r\nhi\r\n",
        None,
    ),
    ("HMSG s | q 0 0\r\n\r\n", "LMSG s | q 0\r\n\r\n", None),
    // Beginnings.
    ("LMSG s 5\r\nhell", "", None),
    ("LS+ a\r\nLS+ b", "LS+ a\r\n", None),
    // What is none, from the first byte on.
    ("PUB a 0\r\n\r\n", "", Some((UnknownOperation, 0))),
    ("MSG a 1 0\r\n\r\n", "", Some((UnknownOperation, 0))),
    ("+OK\r\n", "", Some((UnknownOperation, 0))),
    ("\r\n", "", Some((ParserError, 0))),
    ("LS+ a\n", "", Some((ParserError, 0))),
    ("PONG x\r\n", "", Some((ParserError, 0))),
    ("INFO {}\r\n", "", Some((ParserError, 0))),
    ("INFO [\"name\"]\r\n", "", Some((ParserError, 0))),
    ("INFO {\"name\":\"hub\"} x\r\n", "", Some((ParserError, 0))),
    ("INFO {\"name\":\"a.b\"}\r\n", "", Some((ParserError, 0))),
    (
        "CONNECT {\"name\":\"a\",\"headers\":1}\r\n",
        "",
        Some((ParserError, 0)),
    ),
    ("LS+\r\n", "", Some((ParserError, 0))),
    ("LS+ p q\r\n", "", Some((ParserError, 0))),
    ("LS+ p q 1 2\r\n", "", Some((ParserError, 0))),
    ("LS+ p q 0\r\n", "", Some((ParserError, 0))),
    ("LS+ p q 65537\r\n", "", Some((ParserError, 0))),
    ("LS+ p q +1\r\n", "", Some((ParserError, 0))),
    ("LS+ a..b\r\n", "", Some((InvalidSubject, 0))),
    ("LS+ a..b q 0\r\n", "", Some((InvalidSubject, 0))),
    ("LS- a.>.b q\r\n", "", Some((InvalidSubject, 0))),
    ("LS- a b c\r\n", "", Some((ParserError, 0))),
    ("-ERR none\r\n", "", Some((ParserError, 0))),
    ("LMSG\r\n", "", Some((ParserError, 0))),
    ("LMSG s\r\n", "", Some((ParserError, 0))),
    ("LMSG s | 0\r\n", "", Some((ParserError, 0))),
    ("LMSG s + 0\r\n", "", Some((ParserError, 0))),
    ("LMSG a..b +\r\n", "", Some((ParserError, 0))),
    ("LMSG a b c 0\r\n", "", Some((ParserError, 0))),
    ("LMSG a.* 0\r\n", "", Some((InvalidSubject, 0))),
    ("LMSG a + b.> x\r\n", "", Some((InvalidSubject, 0))),
    ("LMSG a +1\r\n", "", Some((ParserError, 0))),
    ("LMSG a 2097153\r\n", "", Some((PayloadViolation, 0))),
    ("LMSG a 2\r\nhi!\r\n", "", Some((ParserError, 0))),
    ("HMSG a 5\r\n", "", Some((ParserError, 0))),
    ("HMSG a 5 4\r\n", "", Some((ParserError, 0))),
    ("HMSG a 2097154 2097153\r\n", "", Some((ParserError, 0))),
    (
        "HMSG a 12 12\r\nNATS/1.1\r\n\r\n\r\n",
        "",
        Some((ParserError, 0)),
    ),
];

#[test]
fn streams_of_leaf_links_are_read_as_worked(rt: HostRuntime) -> Result<(), Fail> {
    for row in ROWS.iter() {
        assert!(rt; is_right(rt.alloc(), BEFORE, row)?, "{row:?}");
    }
    Ok(())
}

/// What bytes begin with: a frame of so many bytes, the wish for so many, or a refusal.
#[derive(Clone, Copy, PartialEq)]
enum Begun {
    Frame(usize),
    More(usize),
    Refuse(FrameText),
}

fn what_begins(alloc: Global, bytes: &[u8]) -> Result<Begun, NoMemory> {
    Ok(match beginning(alloc, bytes)? {
        First::Frame { frame: _, len } => Begun::Frame(len),
        First::More { wanted } => Begun::More(wanted),
        First::Refuse(text) => Begun::Refuse(text),
    })
}

#[test]
fn beginnings_are_told(rt: HostRuntime) -> Result<(), Fail> {
    let alloc = rt.alloc();
    assert!(rt; what_begins(alloc, b"PING\r\nPO")? == Begun::Frame(6));
    assert!(rt; what_begins(alloc, b"LS+ a")? == Begun::More(6));
    assert!(rt; what_begins(alloc, b"LMSG s 2\r\nh")? == Begun::More(14));
    assert!(rt; what_begins(alloc, b"LS+\r\n")? == Begun::Refuse(ParserError));
    Ok(())
}
