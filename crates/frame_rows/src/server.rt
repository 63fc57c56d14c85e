use crate::reads::{Row, is_right};
use nats_frames::FrameText::{InvalidSubject, ParserError, PayloadViolation, UnknownOperation};
use nats_frames::Side;
use std::test::Fail;

/// Two frames, of 11 bytes.
const BEFORE: &str = "PING\r\n+OK\r\n";

/// Streams of a server.
const ROWS: [Row; 27] = [
    // Each operation, without regard to case, between any blanks.
    ("ping\r\nPONG\r\n", "PING\r\nPONG\r\n", None),
    (
        "INFO {\"server_id\":\"I\",\"server_name\":\"N\",\"version\":\"2.10\",\"go\":\"\",\"host\":\"h\u{e9}\",\"port\":4222,\"headers\":true,\"max_payload\":1048576,\"proto\":1,\"jetstream\":true}\r\n",
        "INFO {\"go\":\"\",\"headers\":true,\"host\":\"h\u{e9}\",\"max_payload\":1048576,\"port\":4222,\"proto\":1,\"server_id\":\"I\",\"server_name\":\"N\",\"version\":\"2.10\"}\r\n",
        None,
    ),
    ("+ok \r\n", "+OK\r\n", None),
    (
        "-err 'Slow Consumer'\r\n-ERR ''\r\n",
        "-ERR 'Slow Consumer'\r\n-ERR ''\r\n",
        None,
    ),
    ("MSG a.b 1 0\r\n\r\n", "MSG a.b 1 0\r\n\r\n", None),
    ("msg a 12 \t r 02\r\nhi\r\n", "MSG a 12 r 2\r\nhi\r\n", None),
    (
        "HMSG a 1 17 17\r\nNATS/1.0\r\nA:b\r\n\r\n\r\n",
        "HMSG a 1 18 18\r\nNATS/1.0\r\nA: b\r\n\r\n\r\n",
        None,
    ),
    (
        "HMSG a 1 r 12 14\r\nNATS/1.0\r\n\r\nhi\r\n",
        "HMSG a 1 r 0 2\r\nhi\r\n",
        None,
    ),
    ("MSG a 1 3\r\nhi", "", None),
    // What is none, from the first byte on.
    ("PUB a 0\r\n\r\n", "", Some((UnknownOperation, 0))),
    ("CONNECT {}\r\n", "", Some((UnknownOperation, 0))),
    ("INFO {}\r\n", "", Some((ParserError, 0))),
    (
        "INFO {\"server_id\":\"I\",\"server_name\":\"N.\",\"version\":\"\",\"go\":\"\",\"host\":\"\",\"port\":0,\"headers\":true,\"max_payload\":0,\"proto\":1}\r\n",
        "",
        Some((ParserError, 0)),
    ),
    (
        "INFO {\"server_id\":\"I\",\"server_name\":\"N\",\"version\":\"\",\"go\":\"\",\"host\":\"\",\"port\":4294967296,\"headers\":true,\"max_payload\":0,\"proto\":1}\r\n",
        "",
        Some((ParserError, 0)),
    ),
    ("+OK +OK\r\n", "", Some((ParserError, 0))),
    ("-ERR no\r\n", "", Some((ParserError, 0))),
    ("-ERR '\r\n", "", Some((ParserError, 0))),
    ("MSG a 1\r\n", "", Some((ParserError, 0))),
    ("MSG a 1 r 0 0\r\n", "", Some((ParserError, 0))),
    ("MSG a..b 1 x\r\n", "", Some((InvalidSubject, 0))),
    ("MSG a 1 b. 0\r\n", "", Some((InvalidSubject, 0))),
    ("MSG a.* 1 0\r\n", "", Some((InvalidSubject, 0))),
    ("MSG a 1 +1\r\n", "", Some((ParserError, 0))),
    ("MSG a 1 1048577\r\n", "", Some((PayloadViolation, 0))),
    ("HMSG a 1 12\r\n", "", Some((ParserError, 0))),
    ("HMSG > 1 2 1\r\n", "", Some((InvalidSubject, 0))),
    ("HMSG a 1 2 1\r\n", "", Some((ParserError, 0))),
];

#[test]
fn streams_of_servers_are_read_as_worked(rt: HostRuntime) -> Result<(), Fail> {
    for row in ROWS.iter() {
        assert!(rt;
            is_right(rt.alloc(), Side::FromServer, BEFORE, row)?,
            "{row:?}"
        );
    }
    Ok(())
}
