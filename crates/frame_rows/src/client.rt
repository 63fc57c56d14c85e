use crate::reads::{Row, is_right};
use nats_frames::FrameText::{ParserError, PayloadViolation, UnknownOperation};
use nats_frames::Side;
use std::test::Fail;

/// Two frames, of 18 bytes.
const BEFORE: &str = "PING\r\nPUB a 1\r\nx\r\n";

/// Streams of a client.
const ROWS: [Row; 56] = [
    ("", "", None),
    // Each operation, without regard to case, between any blanks.
    ("PING\r\n", "PING\r\n", None),
    ("\tpong \r\n", "PONG\r\n", None),
    (
        "CONNECT {}\r\n",
        "CONNECT {\"echo\":true,\"headers\":false,\"no_responders\":false,\"verbose\":true}\r\n",
        None,
    ),
    (
        "connect\t{\"verbose\":true,\"verbose\":false,\"lang\":[\"go\"],\"headers\":true,\"no_responders\":true,\"echo\":false} \r\n",
        "CONNECT {\"echo\":false,\"headers\":true,\"no_responders\":true,\"verbose\":false}\r\n",
        None,
    ),
    ("pub a 0\r\n\r\n", "PUB a 0\r\n\r\n", None),
    (
        "Pub  a.b\tr 000000005 \r\nhello\r\n",
        "PUB a.b r 5\r\nhello\r\n",
        None,
    ),
    ("PUB a 4\r\n\r\n\r\n\r\n", "PUB a 4\r\n\r\n\r\n\r\n", None),
    (
        "HPUB a r 17 19\r\nNATS/1.0\r\nA:b\r\n\r\nhi\r\n",
        "HPUB a r 18 20\r\nNATS/1.0\r\nA: b\r\n\r\nhi\r\n",
        None,
    ),
    (
        "HPUB a 16 16\r\nNATS/1.0 503\r\n\r\n\r\n",
        "HPUB a 16 16\r\nNATS/1.0 503\r\n\r\n\r\n",
        None,
    ),
    (
        "HPUB a 12 12\r\nNATS/1.0\r\n\r\n\r\n",
        "HPUB a 0 0\r\n\r\n",
        None,
    ),
    ("HPUB a 0 2\r\nhi\r\n", "HPUB a 0 2\r\nhi\r\n", None),
    (
        "SUB a.* 1\r\nsub  a.> q\t22 \r\n",
        "SUB a.* 1\r\nSUB a.> q 22\r\n",
        None,
    ),
    (
        "UNSUB 1\r\nUNSUB 1 5\r\nUNSUB 1 999999999\r\n",
        "UNSUB 1\r\nUNSUB 1 5\r\nUNSUB 1 999999999\r\n",
        None,
    ),
    // Beginnings.
    ("PUB a 5\r\nhe", "", None),
    ("PUB a 5\r\nhello\r", "", None),
    ("PING\r\nPI", "PING\r\n", None),
    // A subject, pattern or reply that can't be read is dropped with its payload.
    ("SUB a..b 1\r\nPING\r\n", "SUB . 1\r\nPING\r\n", None),
    ("PUB a.* 0\r\n\r\nPING\r\n", "SUB . 1\r\nPING\r\n", None),
    ("PUB a b.> 2\r\nhi\r\nPING\r\n", "SUB . 1\r\nPING\r\n", None),
    (
        "HPUB .a 12 13\r\nNATS/1.0\r\n\r\nx\r\nPING\r\n",
        "SUB . 1\r\nPING\r\n",
        None,
    ),
    ("SUB > 1\r\nSUB a.>.b 1\r\n", "SUB > 1\r\nSUB . 1\r\n", None),
    // What is none, from the first byte on.
    ("PING\r\nPING\n", "PING\r\n", Some((ParserError, 6))),
    ("\n", "", Some((ParserError, 0))),
    ("\r\n", "", Some((ParserError, 0))),
    (" \t\r\n", "", Some((ParserError, 0))),
    ("PUNG\r\n", "", Some((UnknownOperation, 0))),
    ("MSG a 1 0\r\n\r\n", "", Some((UnknownOperation, 0))),
    ("+OK\r\n", "", Some((UnknownOperation, 0))),
    ("INFO {}\r\n", "", Some((UnknownOperation, 0))),
    ("PING x\r\n", "", Some((ParserError, 0))),
    ("CONNECT\r\n", "", Some((ParserError, 0))),
    ("CONNECT []\r\n", "", Some((ParserError, 0))),
    ("CONNECT {} x\r\n", "", Some((ParserError, 0))),
    ("CONNECT {\"verbose\":1}\r\n", "", Some((ParserError, 0))),
    ("PUB a\r\n", "", Some((ParserError, 0))),
    ("PUB a b c 1\r\n", "", Some((ParserError, 0))),
    ("PUB a +1\r\n", "", Some((ParserError, 0))),
    ("PUB a -1\r\n", "", Some((ParserError, 0))),
    ("PUB a 0x1\r\n", "", Some((ParserError, 0))),
    ("PUB a 0000000001\r\n", "", Some((ParserError, 0))),
    ("PUB a.* 1y\r\n", "", Some((ParserError, 0))),
    ("PUB a 1048577\r\n", "", Some((PayloadViolation, 0))),
    ("PUB a 999999999\r\n", "", Some((PayloadViolation, 0))),
    ("PUB a 2\r\nhi \r\n", "", Some((ParserError, 0))),
    ("PUB a 2\r\nhi\n\n", "", Some((ParserError, 0))),
    ("HPUB a 1\r\n", "", Some((ParserError, 0))),
    ("HPUB a 5 4\r\n", "", Some((ParserError, 0))),
    ("HPUB a 1048578 1048577\r\n", "", Some((ParserError, 0))),
    (
        "HPUB a 1048577 1048577\r\n",
        "",
        Some((PayloadViolation, 0)),
    ),
    (
        "HPUB a 12 12\r\nNATS/1.1\r\n\r\n\r\n",
        "",
        Some((ParserError, 0)),
    ),
    ("SUB a\r\n", "", Some((ParserError, 0))),
    ("SUB a q 1 2\r\n", "", Some((ParserError, 0))),
    ("UNSUB\r\n", "", Some((ParserError, 0))),
    ("UNSUB 1 0\r\n", "", Some((ParserError, 0))),
    ("UNSUB 1 x\r\n", "", Some((ParserError, 0))),
];

#[test]
fn streams_of_clients_are_read_as_worked(rt: HostRuntime) -> Result<(), Fail> {
    for row in ROWS.iter() {
        assert!(rt;
            is_right(rt.alloc(), Side::FromClient, BEFORE, row)?,
            "{row:?}"
        );
    }
    Ok(())
}
