use crate::reads::{is_read_cut, take};
use nats_frames::FrameText::{ControlLine, InvalidSubject, ParserError, PayloadViolation};
use nats_frames::Side::{FromClient, FromServer};
use nats_frames::{Feed, FrameText, Refused, Side};
use nats_text::NoMemory;
use std::alloc::Global;
use std::test::Fail;

/// A text, so many bytes `x`, and another text.
fn padded(alloc: Global, front: &str, count: usize, back: &str) -> Result<Vec<u8>, NoMemory> {
    let mut whole = Vec::from_slice(alloc, front.as_bytes())?;
    for _ in 0..count {
        whole.push(b'x')?;
    }
    whole.extend_from_slice(back.as_bytes())?;
    Ok(whole)
}

/// Two frames of each side.
const BEFORE: &[u8] = b"PING\r\nPONG\r\n";

/// How a stream ends whose bytes are those frames and such a text, and whether it gave a frame of the text.
fn ends(alloc: Global, side: Side, bytes: &[u8]) -> Result<(Option<Refused>, bool), NoMemory> {
    let mut feed = Feed::new(alloc, side);
    let mut found = Vec::new(alloc);
    feed.feed(BEFORE)?;
    feed.feed(bytes)?;
    let end = take(&mut feed, &mut found)?;
    Ok((end, found.len() > BEFORE.len()))
}

/// Who sends it, what stands before and behind so many bytes `x` in the stream, and whether it is a frame,
/// its beginning, or is refused.
const ROWS: [(Side, &str, usize, &str, Result<bool, FrameText>); 32] = [
    // A line has at most 4,096 bytes before its CR LF.
    (FromClient, "CONNECT {\"x\":\"", 4_080, "\"}\r\n", Ok(true)),
    (
        FromClient,
        "CONNECT {\"x\":\"",
        4_081,
        "\"}\r\n",
        Err(ControlLine),
    ),
    (FromClient, "PUB ", 4_093, "", Ok(false)),
    (FromClient, "PUB ", 4_094, "", Err(ControlLine)),
    (FromClient, "PUB ", 4_092, "\r\n", Err(ParserError)),
    (FromClient, "PUB ", 4_092, "\n", Err(ParserError)),
    (FromClient, "PUB ", 4_093, "\r\n", Err(ControlLine)),
    // A queue and a sid have at most 100 bytes.
    (FromClient, "SUB a ", 100, "\r\n", Ok(true)),
    (FromClient, "SUB a ", 101, "\r\n", Err(ParserError)),
    (FromClient, "SUB a ", 100, " 1\r\n", Ok(true)),
    (FromClient, "SUB a ", 101, " 1\r\n", Err(ParserError)),
    (FromClient, "UNSUB ", 100, "\r\n", Ok(true)),
    (FromClient, "UNSUB ", 101, "\r\n", Err(ParserError)),
    (FromServer, "MSG a ", 100, " 0\r\n\r\n", Ok(true)),
    (FromServer, "MSG a ", 101, " 0\r\n", Err(ParserError)),
    // A subject has at most 1,024 bytes.
    (FromServer, "MSG ", 1_024, " 1 0\r\n\r\n", Ok(true)),
    (
        FromServer,
        "MSG ",
        1_025,
        " 1 0\r\n\r\n",
        Err(InvalidSubject),
    ),
    // A header block and payload have at most 1,048,576 bytes together.
    (FromClient, "PUB a 1048576\r\n", 1_048_576, "\r\n", Ok(true)),
    (
        FromClient,
        "PUB a 1048576\r\n",
        1_048_575,
        "\r\n",
        Ok(false),
    ),
    (
        FromClient,
        "PUB a 1048577\r\n",
        0,
        "",
        Err(PayloadViolation),
    ),
    (
        FromClient,
        "HPUB a 12 1048576\r\nNATS/1.0\r\n\r\n",
        1_048_564,
        "\r\n",
        Ok(true),
    ),
    (
        FromClient,
        "HPUB a 12 1048577\r\nNATS/1.0\r\n\r\n",
        1_048_565,
        "\r\n",
        Err(PayloadViolation),
    ),
    (FromClient, "HPUB a 1048576 1048576\r\n", 0, "", Ok(false)),
    (
        FromClient,
        "HPUB a 1048577 1048576\r\n",
        0,
        "",
        Err(ParserError),
    ),
    (
        FromServer,
        "MSG a 1 1048576\r\n",
        1_048_576,
        "\r\n",
        Ok(true),
    ),
    (
        FromServer,
        "MSG a 1 1048577\r\n",
        0,
        "",
        Err(PayloadViolation),
    ),
    // A size and a count have at most 9 digits.
    (FromClient, "PUB a 000000001\r\n", 1, "\r\n", Ok(true)),
    (
        FromClient,
        "PUB a 0000000001\r\n",
        1,
        "\r\n",
        Err(ParserError),
    ),
    (
        FromClient,
        "PUB a 999999999\r\n",
        0,
        "",
        Err(PayloadViolation),
    ),
    (FromClient, "PUB a 1000000000\r\n", 0, "", Err(ParserError)),
    (FromClient, "UNSUB 1 999999999\r\n", 0, "", Ok(true)),
    (
        FromClient,
        "UNSUB 1 1000000000\r\n",
        0,
        "",
        Err(ParserError),
    ),
];

#[test]
fn each_bound_is_kept(rt: HostRuntime) -> Result<(), Fail> {
    for (side, front, count, back, wanted) in ROWS.iter() {
        let bytes = padded(rt.alloc(), front, *count, back)?;
        let (end, gave) = ends(rt.alloc(), *side, &bytes)?;
        let right = match (end, wanted) {
            (None, Ok(some)) => gave == *some,
            (Some(end), Err(text)) => !gave
                && end
                    == Refused {
                        text: *text,
                        place: 12,
                    },
            _ => false,
        };
        assert!(rt; right, "{front}..{back}");
    }
    Ok(())
}

// A payload of the greatest length, cut in its line, before and within its end.
#[test]
fn a_long_payload_is_read_in_pieces(rt: HostRuntime) -> Result<(), Fail> {
    let alloc = rt.alloc();
    let whole = padded(alloc, "PUB a 1048576\r\n", 1_048_576, "\r\n")?;
    for at in [0, 1, 13, 14, 15, 16, 4_097, 1_048_590, 1_048_591, 1_048_592] {
        if at < whole.len() {
            let right = is_read_cut(alloc, FromClient, whole.split_at(at), &whole, None)?;
            assert!(rt; right, "{at}");
        }
    }
    Ok(())
}

// A feed that is refused answers the same after further pieces, at each call.
#[test]
fn a_refused_feed_stays_refused(rt: HostRuntime) -> Result<(), Fail> {
    for (side, line) in [
        (FromClient, "PING\r\nPUB a 1048577\r\n"),
        (FromServer, "PING\r\nMSG a 1 1048577\r\n"),
    ] {
        let mut feed = Feed::new(rt.alloc(), side);
        let mut found = Vec::new(rt.alloc());
        feed.feed(line.as_bytes())?;
        for _ in 0..3 {
            let end = take(&mut feed, &mut found)?;
            let refused = Refused {
                text: PayloadViolation,
                place: 6,
            };
            assert!(rt; end == Some(refused), "{line}");
            feed.feed(b"PING\r\n")?;
        }
        assert!(rt; found.as_slice() == b"PING\r\n".as_slice(), "{line}");
    }
    Ok(())
}
