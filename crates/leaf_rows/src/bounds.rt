use crate::reads::{is_read_cut, take};
use leaf_frames::LeafFeed;
use nats_frames::FrameText::{self, ControlLine, InvalidSubject, ParserError, PayloadViolation};
use nats_frames::Refused;
use nats_text::NoMemory;
use std::alloc::Global;
use std::test::Fail;

/// A text, so many bytes `x`, and another text.
fn padded(alloc: Global, front: &str, count: usize, back: &str) -> Result<Vec<u8>, NoMemory> {
    let mut whole = Vec::from_slice(alloc, front.as_bytes())?;
    let filling = vec![in alloc; b'x'; count]?;
    whole.extend_from_slice(filling.as_slice())?;
    whole.extend_from_slice(back.as_bytes())?;
    Ok(whole)
}

/// Two frames.
const BEFORE: &[u8] = b"PING\r\nPONG\r\n";

/// How a stream ends whose bytes are those frames and such a text, and whether it gave a frame of the text.
fn ends(alloc: Global, bytes: &[u8]) -> Result<(Option<Refused>, bool), NoMemory> {
    let mut feed = LeafFeed::new(alloc);
    let mut found = Vec::new(alloc);
    feed.feed(BEFORE)?;
    feed.feed(bytes)?;
    let end = take(&mut feed, &mut found)?;
    Ok((end, found.len() > BEFORE.len()))
}

/// What stands before and behind so many bytes `x` in a stream, and whether it is a frame, its beginning, or
/// is refused.
const ROWS: [(&str, usize, &str, Result<bool, FrameText>); 29] = [
    // A queue has at most 100 bytes.
    ("LS+ a ", 100, " 1\r\n", Ok(true)),
    ("LS+ a ", 101, " 1\r\n", Err(ParserError)),
    ("LS- a ", 100, "\r\n", Ok(true)),
    ("LS- a ", 101, "\r\n", Err(ParserError)),
    ("LMSG a | ", 100, " 0\r\n\r\n", Ok(true)),
    ("LMSG a | q ", 101, " 0\r\n", Err(ParserError)),
    ("LMSG a + r q ", 100, " 0\r\n\r\n", Ok(true)),
    ("LMSG a + r q ", 101, " 0\r\n", Err(ParserError)),
    // A pattern, a subject and a reply have at most 1,024 bytes.
    ("LS+ ", 1_024, "\r\n", Ok(true)),
    ("LS+ ", 1_025, "\r\n", Err(InvalidSubject)),
    ("LMSG ", 1_024, " 0\r\n\r\n", Ok(true)),
    ("LMSG ", 1_025, " 0\r\n", Err(InvalidSubject)),
    ("LMSG a ", 1_025, " 0\r\n", Err(InvalidSubject)),
    // A size and a weight have at most 9 digits.
    ("LS+ a q 000065536\r\n", 0, "", Ok(true)),
    ("LS+ a q 0000000001\r\n", 0, "", Err(ParserError)),
    ("LMSG a 000000001\r\n", 1, "\r\n", Ok(true)),
    ("LMSG a 0000000001\r\n", 1, "\r\n", Err(ParserError)),
    // A header block and a payload have at most 2,097,152 bytes together.
    ("LMSG a 2097152\r\n", 2_097_152, "\r\n", Ok(true)),
    ("LMSG a 2097152\r\n", 2_097_151, "\r\n", Ok(false)),
    ("LMSG a 999999999\r\n", 0, "", Err(PayloadViolation)),
    (
        "HMSG a 12 2097152\r\nNATS/1.0\r\n\r\n",
        2_097_140,
        "\r\n",
        Ok(true),
    ),
    ("HMSG a 12 2097153\r\n", 0, "", Err(PayloadViolation)),
    ("HMSG a 2097152 2097152\r\n", 0, "", Ok(false)),
    ("HMSG a 2097153 2097152\r\n", 0, "", Err(ParserError)),
    // A line has at most 8,388,608 bytes before its CR LF.
    ("-ERR '", 8_388_601, "'\r\n", Ok(true)),
    ("-ERR '", 8_388_602, "'\r\n", Err(ControlLine)),
    ("LS+ ", 8_388_604, "\n", Err(ParserError)),
    ("LS+ ", 8_388_605, "", Ok(false)),
    ("LS+ ", 8_388_606, "", Err(ControlLine)),
];

#[test]
fn each_bound_is_kept(rt: HostRuntime) -> Result<(), Fail> {
    for (front, count, back, wanted) in ROWS.iter() {
        let bytes = padded(rt.alloc(), front, *count, back)?;
        let (end, gave) = ends(rt.alloc(), bytes.as_slice())?;
        let right = match (end, wanted) {
            (None, Ok(some)) => gave == *some,
            (Some(end), Err(text)) => !gave
                && end
                    == Refused {
                        text: *text,
                        place: 12,
                    },
            _ => false,
        };
        assert!(rt; right, "{front}..{back}");
    }
    Ok(())
}

// A payload of the greatest length, cut in its line, before and within its end.
#[test]
fn a_long_payload_is_read_in_pieces(rt: HostRuntime) -> Result<(), Fail> {
    let alloc = rt.alloc();
    let whole = padded(alloc, "LMSG a 2097152\r\n", 2_097_152, "\r\n")?;
    let bytes = whole.as_slice();
    for at in [0, 1, 14, 15, 16, 17, 4_097, 2_097_167, 2_097_168, 2_097_169] {
        if at < bytes.len() {
            let right = is_read_cut(alloc, bytes.split_at(at), bytes, None)?;
            assert!(rt; right, "{at}");
        }
    }
    Ok(())
}

// A feed that is refused answers the same after further pieces, at each call.
#[test]
fn a_refused_feed_stays_refused(rt: HostRuntime) -> Result<(), Fail> {
    let mut feed = LeafFeed::new(rt.alloc());
    let mut found = Vec::new(rt.alloc());
    let refused = Refused {
        text: PayloadViolation,
        place: 6,
    };
    feed.feed(b"PING\r\nLMSG a 2097153\r\n")?;
    for _ in 0..3 {
        assert!(rt; take(&mut feed, &mut found)? == Some(refused));
        feed.feed(b"PING\r\n")?;
    }
    assert!(rt; found.as_slice() == b"PING\r\n".as_slice());
    Ok(())
}
