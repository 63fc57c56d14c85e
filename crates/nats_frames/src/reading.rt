//! What a stream begins with.
ghost use Rattle.std.specs.Prelude.{◌≡◌, ◌+◌, ◌^◌, ◌<◌, ◌≤◌, length, take, IsTrue, IfOk};
ghost use Rattle.std.specs.Str.{bytes_eq};
ghost use Rattle.nats_text.specs.Headers.{crlf};
ghost use Rattle.nats_frames.specs.Lines.{has_no_feed};
ghost use Rattle.nats_frames.specs.Stream.{IsFit, most_message, carried, opened, message_of, in_envelope, decided, first_of, first_by};
ghost use Rattle.nats_frames.specs.Frames.{framed, first};

use crate::line::line_end;
use crate::operation::Envelope;
use crate::protocol::Protocol;
use crate::said::{Line, said};
use crate::{ClientFrame, First, FrameText, LineEnd, Said, Side};
use nats_text::{Bytes, Headers, NoMemory, Parcel, Subject, TextFault};
use std::alloc::Global;

/// The greatest length of a line before its CR LF, in bytes.
const MOST_LINE: usize = 4096;

/// How the lines of a side of a client connection are read.
impl Protocol for Side {
    ghost use Rattle.nats_frames.specs.Frames.{most_line, said, framed};

    type Frame = ClientFrame;

    type Envelope = Envelope;

    ghost most = { most_line };

    ghost said = { said };

    ghost framed = { framed };

    fn most_line(&self) -> usize {
        MOST_LINE
    }

    fn said(&self, alloc: Global, line: &[u8]) -> Result<Line, NoMemory> {
        said(alloc, *self, line)
    }

    fn framed(&self, envelope: Envelope, headers: Headers, payload: Bytes) -> ClientFrame {
        framed(envelope, headers, payload)
    }
}

/// What bytes of this side begin with: a frame and its length, the wish for more bytes, or a refusal
/// (the NATS client protocol).
pub fn beginning(alloc: Global, side: Side, bytes: &[u8]) -> Result<First<ClientFrame>, NoMemory>
    ensures { IfOk result (λ it. it ≡ first side bytes.now) }
{
    beginning_from(&side, alloc, bytes, 0)
}

/// What bytes of any kind of connection begin with, where no LF is among the first `looked` of them,
/// which aren't looked at again for one.
pub fn beginning_from<P: Protocol>(
    protocol: &P,
    alloc: Global,
    bytes: &[u8],
    looked: usize,
) -> Result<First<P::Frame>, NoMemory>
    requires looked { looked ≤ length bytes.now }
    requires none { IsTrue (has_no_feed (take looked bytes.now)) }
    ensures { IfOk result (λ it. it ≡ first_by P.most (P.said protocol.now) P.framed bytes.now) }
{
    match line_end(bytes, protocol.most_line(), looked) {
        LineEnd::At(at) => beginning_at(protocol, alloc, bytes, at),
        LineEnd::Missing => Ok(First::More {
            wanted: bytes.len() + 1,
        }),
        LineEnd::Bad(text) => Ok(First::Refuse(text)),
    }
}

// What bytes begin with whose first line ends at this place.
fn beginning_at<P: Protocol>(
    protocol: &P,
    alloc: Global,
    bytes: &[u8],
    at: usize,
) -> Result<First<P::Frame>, NoMemory>
    requires within { at + 2 ≤ length bytes.now }
    requires bound { at ≤ most_message }
    ensures { IfOk result (λ it. it ≡ first_of (P.said protocol.now) P.framed bytes.now (LineEnd.At at)) }
{
    let line = protocol.said(alloc, &bytes[..at])?;
    decided(protocol, alloc, at + 2, &bytes[at + 2..], line)
}

// The frame of what a line of so many bytes says, and of the bytes behind it.
fn decided<P: Protocol>(
    protocol: &P,
    alloc: Global,
    len: usize,
    behind: &[u8],
    line: Said<P::Frame, P::Envelope>,
) -> Result<First<P::Frame>, NoMemory>
    requires fit { IsFit most_message line }
    requires bound { len ≤ most_message + 2 }
    ensures { IfOk result (λ it. it ≡ decided P.framed len behind.now line) }
{
    match line {
        Said::Whole(frame) => Ok(First::Frame { frame, len }),
        Said::Unfit(text) => Ok(First::Refuse(text)),
        Said::Carries {
            envelope,
            block,
            size,
        } => Ok(in_envelope(
            protocol,
            envelope,
            carried(alloc, len, block, size, behind)?,
        )),
    }
}

fn in_envelope<P: Protocol>(
    protocol: &P,
    envelope: P::Envelope,
    message: First<(Headers, Bytes)>,
) -> First<P::Frame>
    ensures { result ≡ in_envelope (P.framed envelope) message }
{
    match message {
        First::Frame {
            frame: (headers, payload),
            len,
        } => First::Frame {
            frame: protocol.framed(envelope, headers, payload),
            len,
        },
        First::More { wanted } => First::More { wanted },
        First::Refuse(text) => First::Refuse(text),
    }
}

// The frame of a message in its envelope.
fn framed(envelope: Envelope, headers: Headers, payload: Bytes) -> ClientFrame
    ensures { result ≡ framed envelope headers payload }
{
    match envelope {
        Envelope::Publication {
            headers: false,
            subject,
            reply,
        } => ClientFrame::Pub(parcel(subject, reply, headers, payload)),
        Envelope::Publication {
            headers: true,
            subject,
            reply,
        } => ClientFrame::HPub(parcel(subject, reply, headers, payload)),
        Envelope::Delivery {
            headers: false,
            sid,
            subject,
            reply,
        } => ClientFrame::Msg {
            sid,
            parcel: parcel(subject, reply, headers, payload),
        },
        Envelope::Delivery {
            headers: true,
            sid,
            subject,
            reply,
        } => ClientFrame::HMsg {
            sid,
            parcel: parcel(subject, reply, headers, payload),
        },
        Envelope::Unreadable => ClientFrame::BadSubject,
    }
}

fn parcel(subject: Subject, reply: Option<Subject>, headers: Headers, payload: Bytes) -> Parcel
    ensures { result ≡ record { subject = subject; reply = reply; headers = headers; payload = payload } }
{
    Parcel {
        subject,
        reply,
        headers,
        payload,
    }
}

/// The header block and the payload behind a line of so many bytes with its end, `size` bytes
/// together, which end in CR LF. The length is that of all three.
pub fn carried(
    alloc: Global,
    line: usize,
    block: usize,
    size: usize,
    behind: &[u8],
) -> Result<First<(Headers, Bytes)>, NoMemory>
    requires within { block ≤ size }
    requires bound { line + size + 2 < 2 ^ 64 }
    ensures { IfOk result (λ it. it ≡ carried message_of line block size behind.now) }
{
    if behind.len() < size + 2 {
        return Ok(First::More {
            wanted: line + size + 2,
        });
    }
    let (message, end) = behind.split_at(size);
    if !is_crlf(&end[..2]) {
        return Ok(First::Refuse(FrameText::ParserError));
    }
    opened(alloc, line + size + 2, block, message)
}

fn is_crlf(bytes: &[u8]) -> bool
    ensures { result ≡ bytes_eq bytes.now crlf }
{
    bytes == b"\r\n".as_slice()
}

// A header block of so many bytes and a payload.
fn opened(
    alloc: Global,
    len: usize,
    block: usize,
    message: &[u8],
) -> Result<First<(Headers, Bytes)>, NoMemory>
    requires { block ≤ length message.now }
    ensures { IfOk result (λ it. it ≡ opened message_of len block message.now) }
{
    let (block, payload) = message.split_at(block);
    let headers = match Headers::read(alloc, block) {
        Ok(headers) => headers,
        Err(TextFault::Bad { place: _ }) => return Ok(First::Refuse(FrameText::ParserError)),
        Err(TextFault::NoMemory) => return Err(NoMemory),
    };
    let payload = Bytes::from_slice(alloc, payload)?;
    Ok(First::Frame {
        frame: (headers, payload),
        len,
    })
}
