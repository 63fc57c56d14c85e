//! How frames are written (NATS leaf nodes).
ghost use Rattle.std.specs.Prelude.{◌≡◌, [], ◌∷◌, ◌++◌, OnOk, OnErr, decimal};
ghost use Rattle.nats_text.specs.Headers.{Extends, has_none};
ghost use Rattle.nats_frames.specs.Texts.{behind_spaces};
ghost use Rattle.leaf_frames.specs.Texts.{text, line_of, body_of, is_sign, queue_fields, reply_fields, address_fields, message_line};

use crate::LeafFrame;
use crate::write_json::append_hello;
use nats_frames::shared::{
    append, append_block, append_fault, append_field, append_number, append_sizes,
};
use nats_text::{Bytes, Headers, NoMemory, Parcel};

/// Adds the bytes of a frame: operations in upper case, one space between fields, and a header block
/// exactly where the headers aren't empty. Without memory the buffer holds the bytes that it held.
pub fn write_leaf(frame: &LeafFrame, buf: &mut Vec<u8>) -> Result<(), NoMemory>
    ensures ok { OnOk result (buf.new.items ≡ buf.old.items ++ text frame.now) }
    ensures err { OnErr result (buf.new.items ≡ buf.old.items) }
{
    let start = buf.len();
    let outcome = append_frame(frame, buf);
    if outcome.is_err() {
        buf.truncate(start);
    }
    outcome
}

// Adds the bytes of a frame. Without memory some of them may have been added.
fn append_frame(frame: &LeafFrame, buf: &mut Vec<u8>) -> Result<(), NoMemory>
    ensures ok { OnOk result (buf.new.items ≡ buf.old.items ++ text frame.now) }
    ensures err { OnErr result (Extends buf.old.items buf.new.items) }
{
    append_line(frame, buf)?;
    append(buf, b"\r\n")?;
    append_body(frame, buf)
}

fn append_line(frame: &LeafFrame, buf: &mut Vec<u8>) -> Result<(), NoMemory>
    ensures ok { OnOk result (buf.new.items ≡ buf.old.items ++ line_of frame.now) }
    ensures err { OnErr result (Extends buf.old.items buf.new.items) }
{
    match frame {
        LeafFrame::Info { name, headers } => append_hello(buf, b"INFO ", name, *headers),
        LeafFrame::Connect { name, headers } => append_hello(buf, b"CONNECT ", name, *headers),
        LeafFrame::SubOn { pattern, queue } => append_on(buf, pattern.bytes(), queue),
        LeafFrame::SubOff { pattern, queue } => append_off(buf, pattern.bytes(), queue),
        LeafFrame::Msg { parcel, queues } => append_message(buf, parcel, queues.as_slice()),
        LeafFrame::Ping => append(buf, b"PING"),
        LeafFrame::Pong => append(buf, b"PONG"),
        LeafFrame::Fault(text) => append_fault(buf, text.as_slice()),
    }
}

fn append_on(
    buf: &mut Vec<u8>,
    pattern: &[u8],
    group: &Option<(Bytes, u32)>,
) -> Result<(), NoMemory>
    ensures ok { OnOk result (buf.new.items ≡ buf.old.items ++ line_of (LeafFrame.SubOn pattern.now group.now)) }
    ensures err { OnErr result (Extends buf.old.items buf.new.items) }
{
    append(buf, b"LS+")?;
    append_field(buf, pattern)?;
    match group {
        Some((queue, weight)) => append_group(buf, queue.as_slice(), *weight),
        None => Ok(()),
    }
}

fn append_group(buf: &mut Vec<u8>, queue: &[u8], weight: u32) -> Result<(), NoMemory>
    ensures ok { OnOk result (buf.new.items ≡ buf.old.items ++ behind_spaces (queue.now ∷ decimal weight ∷ [])) }
    ensures err { OnErr result (Extends buf.old.items buf.new.items) }
{
    append_field(buf, queue)?;
    append_number(buf, weight as u64)
}

fn append_off(buf: &mut Vec<u8>, pattern: &[u8], queue: &Option<Bytes>) -> Result<(), NoMemory>
    ensures ok { OnOk result (buf.new.items ≡ buf.old.items ++ line_of (LeafFrame.SubOff pattern.now queue.now)) }
    ensures err { OnErr result (Extends buf.old.items buf.new.items) }
{
    append(buf, b"LS-")?;
    append_field(buf, pattern)?;
    match queue {
        Some(queue) => append_field(buf, queue.as_slice()),
        None => Ok(()),
    }
}

fn append_message(buf: &mut Vec<u8>, parcel: &Parcel, queues: &[Bytes]) -> Result<(), NoMemory>
    ensures ok { OnOk result (buf.new.items ≡ buf.old.items ++ message_line parcel.now queues.now) }
    ensures err { OnErr result (Extends buf.old.items buf.new.items) }
{
    if has_none(&parcel.headers) {
        append(buf, b"LMSG")?;
        append_address(buf, parcel, queues)?;
        append_number(buf, parcel.payload.len() as u64)
    } else {
        append(buf, b"HMSG")?;
        append_address(buf, parcel, queues)?;
        append_sizes(buf, &parcel.headers, parcel.payload.as_slice())
    }
}

fn has_none(headers: &Headers) -> bool
    ensures { result ≡ has_none headers.now }
{
    headers.status().is_none() && headers.pairs().is_empty()
}

fn append_address(buf: &mut Vec<u8>, parcel: &Parcel, queues: &[Bytes]) -> Result<(), NoMemory>
    ensures ok { OnOk result (buf.new.items ≡ buf.old.items ++ behind_spaces (address_fields parcel.now.subject parcel.now.reply queues.now)) }
    ensures err { OnErr result (Extends buf.old.items buf.new.items) }
{
    append_field(buf, parcel.subject.bytes())?;
    match &parcel.reply {
        Some(reply) => append_reply(buf, reply.bytes(), queues),
        None => append_groups(buf, queues),
    }
}

// A reply and queues, behind their sign unless the reply stands alone and is no sign itself.
fn append_reply(buf: &mut Vec<u8>, reply: &[u8], queues: &[Bytes]) -> Result<(), NoMemory>
    ensures ok { OnOk result (buf.new.items ≡ buf.old.items ++ behind_spaces (reply_fields reply.now queues.now)) }
    ensures err { OnErr result (Extends buf.old.items buf.new.items) }
{
    if !is_sign(reply) && queues.is_empty() {
        return append_field(buf, reply);
    }
    append_field(buf, b"+")?;
    append_field(buf, reply)?;
    append_queues(buf, queues)
}

fn is_sign(reply: &[u8]) -> bool
    ensures { result ≡ is_sign reply.now }
{
    reply == b"+".as_slice() || reply == b"|".as_slice()
}

// Queues without a reply, behind their sign.
fn append_groups(buf: &mut Vec<u8>, queues: &[Bytes]) -> Result<(), NoMemory>
    ensures ok { OnOk result (buf.new.items ≡ buf.old.items ++ behind_spaces (queue_fields queues.now)) }
    ensures err { OnErr result (Extends buf.old.items buf.new.items) }
{
    if queues.is_empty() {
        return Ok(());
    }
    append_field(buf, b"|")?;
    append_queues(buf, queues)
}

fn append_queues(buf: &mut Vec<u8>, queues: &[Bytes]) -> Result<(), NoMemory>
    ensures ok { OnOk result (buf.new.items ≡ buf.old.items ++ behind_spaces queues.now) }
    ensures err { OnErr result (Extends buf.old.items buf.new.items) }
{
    let mut rest = queues;
    while let [queue, behind @ ..] = rest {
        append_field(buf, queue.as_slice())?;
        rest = behind;
    }
    Ok(())
}

// What stands behind the line: a header block, a payload and CR LF, or nothing.
fn append_body(frame: &LeafFrame, buf: &mut Vec<u8>) -> Result<(), NoMemory>
    ensures ok { OnOk result (buf.new.items ≡ buf.old.items ++ body_of frame.now) }
    ensures err { OnErr result (Extends buf.old.items buf.new.items) }
{
    match frame {
        LeafFrame::Msg { parcel, queues: _ } => append_block(buf, parcel),
        _ => Ok(()),
    }
}
