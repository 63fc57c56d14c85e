//! How frames are written (the NATS client protocol).
ghost use Rattle.std.specs.Prelude.{◌≡◌, [], ◌∷◌, ◌++◌, OnOk, OnErr, codes, decimal};
ghost use Rattle.std.specs.Option.{option_copied, option_map};
ghost use Rattle.nats_text.specs.Headers.{Extends, written, crlf};
ghost use Rattle.nats_frames.specs.Texts.{HasTexts, text, line_of, body_of, body, behind_spaces, onto_some, size_fields, both_sizes, count_fields};

use crate::ClientFrame;
use crate::write_json::{append_connect, append_info};
use itoa::Buffer;
use nats_text::{Bytes, Headers, NoMemory, Parcel, Subject};

/// Adds the bytes of a frame: operations in upper case, one space between fields, and a header block
/// exactly for `HPub` and `HMsg`. `BadSubject` is written as `SUB . 1`, which is read as one again.
///
/// The texts of an INFO have to be UTF-8, which `str::from_utf8` tells. Without memory the buffer
/// holds the bytes that it held.
pub fn write_frame(frame: &ClientFrame, buf: &mut Vec<u8>) -> Result<(), NoMemory>
    requires { HasTexts frame.now }
    ensures ok { OnOk result (buf.new.items ≡ buf.old.items ++ text frame.now) }
    ensures err { OnErr result (buf.new.items ≡ buf.old.items) }
{
    let start = buf.len();
    let outcome = append_frame(frame, buf);
    if outcome.is_err() {
        buf.truncate(start);
    }
    outcome
}

// Adds the bytes of a frame. Without memory some of them may have been added.
fn append_frame(frame: &ClientFrame, buf: &mut Vec<u8>) -> Result<(), NoMemory>
    requires { HasTexts frame.now }
    ensures ok { OnOk result (buf.new.items ≡ buf.old.items ++ text frame.now) }
    ensures err { OnErr result (Extends buf.old.items buf.new.items) }
{
    append_line(frame, buf)?;
    append(buf, b"\r\n")?;
    append_body(frame, buf)
}

fn append_line(frame: &ClientFrame, buf: &mut Vec<u8>) -> Result<(), NoMemory>
    requires { HasTexts frame.now }
    ensures ok { OnOk result (buf.new.items ≡ buf.old.items ++ line_of frame.now) }
    ensures err { OnErr result (Extends buf.old.items buf.new.items) }
{
    match frame {
        ClientFrame::Connect {
            verbose,
            headers,
            no_responders,
            echo,
        } => append_connect(buf, *verbose, *headers, *no_responders, *echo),
        ClientFrame::Info(info) => append_info(buf, info),
        ClientFrame::Pub(parcel) => append_publish(buf, parcel),
        ClientFrame::HPub(parcel) => append_publish_headers(buf, parcel),
        ClientFrame::Sub {
            pattern,
            queue,
            sid,
        } => append_subscribe(buf, pattern.bytes(), queue, sid.as_slice()),
        ClientFrame::Unsub { sid, max } => append_unsubscribe(buf, sid.as_slice(), *max),
        ClientFrame::Msg { sid, parcel } => append_message(buf, sid.as_slice(), parcel),
        ClientFrame::HMsg { sid, parcel } => append_message_headers(buf, sid.as_slice(), parcel),
        ClientFrame::Ping => append(buf, b"PING"),
        ClientFrame::Pong => append(buf, b"PONG"),
        ClientFrame::Okay => append(buf, b"+OK"),
        ClientFrame::Fault(text) => append_fault(buf, text.as_slice()),
        ClientFrame::BadSubject => append(buf, b"SUB . 1"),
    }
}

fn append_publish(buf: &mut Vec<u8>, parcel: &Parcel) -> Result<(), NoMemory>
    ensures ok { OnOk result (buf.new.items ≡ buf.old.items ++ line_of (ClientFrame.Pub parcel.now)) }
    ensures err { OnErr result (Extends buf.old.items buf.new.items) }
{
    append(buf, b"PUB")?;
    append_field(buf, parcel.subject.bytes())?;
    append_reply(buf, &parcel.reply)?;
    append_number(buf, parcel.payload.len() as u64)
}

fn append_publish_headers(buf: &mut Vec<u8>, parcel: &Parcel) -> Result<(), NoMemory>
    ensures ok { OnOk result (buf.new.items ≡ buf.old.items ++ line_of (ClientFrame.HPub parcel.now)) }
    ensures err { OnErr result (Extends buf.old.items buf.new.items) }
{
    append(buf, b"HPUB")?;
    append_field(buf, parcel.subject.bytes())?;
    append_reply(buf, &parcel.reply)?;
    append_sizes(buf, &parcel.headers, parcel.payload.as_slice())
}

fn append_message(buf: &mut Vec<u8>, sid: &[u8], parcel: &Parcel) -> Result<(), NoMemory>
    ensures ok { OnOk result (buf.new.items ≡ buf.old.items ++ line_of (ClientFrame.Msg sid.now parcel.now)) }
    ensures err { OnErr result (Extends buf.old.items buf.new.items) }
{
    append(buf, b"MSG")?;
    append_field(buf, parcel.subject.bytes())?;
    append_field(buf, sid)?;
    append_reply(buf, &parcel.reply)?;
    append_number(buf, parcel.payload.len() as u64)
}

fn append_message_headers(buf: &mut Vec<u8>, sid: &[u8], parcel: &Parcel) -> Result<(), NoMemory>
    ensures ok { OnOk result (buf.new.items ≡ buf.old.items ++ line_of (ClientFrame.HMsg sid.now parcel.now)) }
    ensures err { OnErr result (Extends buf.old.items buf.new.items) }
{
    append(buf, b"HMSG")?;
    append_field(buf, parcel.subject.bytes())?;
    append_field(buf, sid)?;
    append_reply(buf, &parcel.reply)?;
    append_sizes(buf, &parcel.headers, parcel.payload.as_slice())
}

fn append_subscribe(
    buf: &mut Vec<u8>,
    pattern: &[u8],
    queue: &Option<Bytes>,
    sid: &[u8],
) -> Result<(), NoMemory>
    ensures ok { OnOk result (buf.new.items ≡ buf.old.items ++ line_of (ClientFrame.Sub pattern.now queue.now sid.now)) }
    ensures err { OnErr result (Extends buf.old.items buf.new.items) }
{
    append(buf, b"SUB")?;
    append_field(buf, pattern)?;
    if let Some(queue) = queue {
        append_field(buf, queue.as_slice())?;
    }
    append_field(buf, sid)
}

fn append_unsubscribe(buf: &mut Vec<u8>, sid: &[u8], max: Option<u64>) -> Result<(), NoMemory>
    ensures ok { OnOk result (buf.new.items ≡ buf.old.items ++ line_of (ClientFrame.Unsub sid.now max)) }
    ensures err { OnErr result (Extends buf.old.items buf.new.items) }
{
    append(buf, b"UNSUB")?;
    append_field(buf, sid)?;
    match max {
        Some(max) => append_number(buf, max),
        None => Ok(()),
    }
}

/// `-ERR` and a text in single quotes.
pub fn append_fault(buf: &mut Vec<u8>, text: &[u8]) -> Result<(), NoMemory>
    ensures ok { OnOk result (buf.new.items ≡ buf.old.items ++ line_of (ClientFrame.Fault text.now)) }
    ensures err { OnErr result (Extends buf.old.items buf.new.items) }
{
    append(buf, b"-ERR '")?;
    append(buf, text)?;
    append(buf, b"'")
}

// What stands behind the line: a header block, a payload and CR LF, or nothing.
fn append_body(frame: &ClientFrame, buf: &mut Vec<u8>) -> Result<(), NoMemory>
    ensures ok { OnOk result (buf.new.items ≡ buf.old.items ++ body_of frame.now) }
    ensures err { OnErr result (Extends buf.old.items buf.new.items) }
{
    match frame {
        ClientFrame::Pub(parcel) => append_payload(buf, parcel.payload.as_slice()),
        ClientFrame::Msg { sid: _, parcel } => append_payload(buf, parcel.payload.as_slice()),
        ClientFrame::HPub(parcel) => append_block(buf, parcel),
        ClientFrame::HMsg { sid: _, parcel } => append_block(buf, parcel),
        _ => Ok(()),
    }
}

/// The header block and the payload of a message, and CR LF.
pub fn append_block(buf: &mut Vec<u8>, parcel: &Parcel) -> Result<(), NoMemory>
    ensures ok { OnOk result (buf.new.items ≡ buf.old.items ++ body (written parcel.now.headers) parcel.now.payload) }
    ensures err { OnErr result (Extends buf.old.items buf.new.items) }
{
    parcel.headers.write(buf)?;
    append_payload(buf, parcel.payload.as_slice())
}

fn append_payload(buf: &mut Vec<u8>, payload: &[u8]) -> Result<(), NoMemory>
    ensures ok { OnOk result (buf.new.items ≡ buf.old.items ++ payload.now ++ crlf) }
    ensures err { OnErr result (Extends buf.old.items buf.new.items) }
{
    append(buf, payload)?;
    append(buf, b"\r\n")
}

/// A field behind a space.
pub fn append_field(buf: &mut Vec<u8>, field: &[u8]) -> Result<(), NoMemory>
    ensures ok { OnOk result (buf.new.items ≡ buf.old.items ++ 32 ∷ field.now) }
    ensures err { OnErr result (Extends buf.old.items buf.new.items) }
{
    append(buf, b" ")?;
    append(buf, field)
}

fn append_reply(buf: &mut Vec<u8>, reply: &Option<Subject>) -> Result<(), NoMemory>
    ensures ok { OnOk result (buf.new.items ≡ buf.old.items ++ behind_spaces (onto_some reply.now [])) }
    ensures err { OnErr result (Extends buf.old.items buf.new.items) }
{
    match reply {
        Some(reply) => append_field(buf, reply.bytes()),
        None => Ok(()),
    }
}

/// A number as a field.
pub fn append_number(buf: &mut Vec<u8>, number: u64) -> Result<(), NoMemory>
    ensures ok { OnOk result (buf.new.items ≡ buf.old.items ++ 32 ∷ decimal number) }
    ensures err { OnErr result (Extends buf.old.items buf.new.items) }
{
    let mut digits = Buffer::new();
    append_field(buf, digits.format(number).as_bytes())
}

/// The length of the header block, and of it and the payload together. What is too long for memory is
/// told before anything is written of it.
pub fn append_sizes(buf: &mut Vec<u8>, headers: &Headers, payload: &[u8]) -> Result<(), NoMemory>
    ensures ok { OnOk result (buf.new.items ≡ buf.old.items ++ behind_spaces (both_sizes headers.now payload.now)) }
    ensures err { OnErr result (Extends buf.old.items buf.new.items) }
{
    let block = headers.written_len();
    if block == usize::MAX {
        return Err(NoMemory);
    }
    let Some(size) = block.checked_add(payload.len()) else {
        return Err(NoMemory);
    };
    append_number(buf, block as u64)?;
    append_number(buf, size as u64)
}

/// Bytes as they are.
pub fn append(buf: &mut Vec<u8>, bytes: &[u8]) -> Result<(), NoMemory>
    ensures ok { OnOk result (buf.new.items ≡ buf.old.items ++ bytes.now) }
    ensures err { OnErr result (buf.new.items ≡ buf.old.items) }
{
    buf.extend_from_slice(bytes)?;
    Ok(())
}
