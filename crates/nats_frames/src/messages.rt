//! What a line that carries a message says.
ghost use Rattle.std.specs.Prelude.{◌≡◌, None, Some, if◌then◌else◌, IfOk};
ghost use Rattle.std.specs.Option.{option_copied};
ghost use Rattle.nats_text.specs.Text.{is_subject};
ghost use Rattle.nats_text.specs.Pieces.{views};
ghost use Rattle.nats_frames.specs.Stream.{IsFit, sized};
ghost use Rattle.nats_frames.specs.Frames.{most_payload, is_address, publication, publish, publish_headers, delivered, delivery, message, message_headers};

use crate::fields::{is_short, size_of};
use crate::operation::Envelope;
use crate::said::{Line, unfit};
use crate::{FrameText, Said, sized};
use nats_text::{Bytes, NoMemory, Subject, TextFault};
use std::alloc::Global;

/// The greatest length of a header block and a payload together, in bytes.
const MOST_PAYLOAD: usize = 1_048_576;

/// PUB: a subject, perhaps a reply, and a size.
pub(crate) fn publish(alloc: Global, others: &[&[u8]]) -> Result<Line, NoMemory>
    ensures said { IfOk result (λ it. it ≡ publish (views others.now)) }
    ensures fit { IfOk result (λ it. IsFit most_payload it) }
{
    match others {
        [subject, size] => published(alloc, false, subject, None, Some(0), size_of(size)),
        [subject, reply, size] => {
            published(alloc, false, subject, Some(*reply), Some(0), size_of(size))
        }
        _ => Ok(unfit()),
    }
}

/// HPUB: a subject, perhaps a reply, the size of the header block, and the whole size.
pub(crate) fn publish_headers(alloc: Global, others: &[&[u8]]) -> Result<Line, NoMemory>
    ensures said { IfOk result (λ it. it ≡ publish_headers (views others.now)) }
    ensures fit { IfOk result (λ it. IsFit most_payload it) }
{
    match others {
        [subject, block, size] => {
            published(alloc, true, subject, None, size_of(block), size_of(size))
        }
        [subject, reply, block, size] => published(
            alloc,
            true,
            subject,
            Some(*reply),
            size_of(block),
            size_of(size),
        ),
        _ => Ok(unfit()),
    }
}

// A publish of these sizes.
fn published(
    alloc: Global,
    headers: bool,
    subject: &[u8],
    reply: Option<&[u8]>,
    block: Option<usize>,
    size: Option<usize>,
) -> Result<Line, NoMemory>
    ensures said { IfOk result (λ it. it ≡ sized (publication headers subject.now (option_copied reply.entry)) most_payload block size) }
    ensures fit { IfOk result (λ it. IsFit most_payload it) }
{
    let envelope = publication(alloc, headers, subject, reply)?;
    Ok(sized(envelope, MOST_PAYLOAD, block, size))
}

/// MSG: a subject, a sid, perhaps a reply, and a size.
pub(crate) fn message(alloc: Global, others: &[&[u8]]) -> Result<Line, NoMemory>
    ensures said { IfOk result (λ it. it ≡ message (views others.now)) }
    ensures fit { IfOk result (λ it. IsFit most_payload it) }
{
    match others {
        [subject, sid, size] => {
            delivery(alloc, false, subject, sid, None, Some(0), size_of(size))
        }
        [subject, sid, reply, size] => delivery(
            alloc,
            false,
            subject,
            sid,
            Some(*reply),
            Some(0),
            size_of(size),
        ),
        _ => Ok(unfit()),
    }
}

/// HMSG: a subject, a sid, perhaps a reply, the size of the header block, and the whole size.
pub(crate) fn message_headers(alloc: Global, others: &[&[u8]]) -> Result<Line, NoMemory>
    ensures said { IfOk result (λ it. it ≡ message_headers (views others.now)) }
    ensures fit { IfOk result (λ it. IsFit most_payload it) }
{
    match others {
        [subject, sid, block, size] => delivery(
            alloc,
            true,
            subject,
            sid,
            None,
            size_of(block),
            size_of(size),
        ),
        [subject, sid, reply, block, size] => delivery(
            alloc,
            true,
            subject,
            sid,
            Some(*reply),
            size_of(block),
            size_of(size),
        ),
        _ => Ok(unfit()),
    }
}

// A publish of a client, who may get the address wrong.
fn publication(
    alloc: Global,
    headers: bool,
    subject: &[u8],
    reply: Option<&[u8]>,
) -> Result<Envelope, NoMemory>
    ensures { IfOk result (λ it. it ≡ publication headers subject.now (option_copied reply.entry)) }
{
    match address(alloc, subject, reply)? {
        Some((subject, reply)) => Ok(Envelope::Publication {
            headers,
            subject,
            reply,
        }),
        None => Ok(Envelope::Unreadable),
    }
}

// A message for a subscription, from a server, who gets no address wrong.
fn delivery(
    alloc: Global,
    headers: bool,
    subject: &[u8],
    sid: &[u8],
    reply: Option<&[u8]>,
    block: Option<usize>,
    size: Option<usize>,
) -> Result<Line, NoMemory>
    ensures said { IfOk result (λ it. it ≡ delivery headers subject.now sid.now (option_copied reply.entry) block size) }
    ensures fit { IfOk result (λ it. IsFit most_payload it) }
{
    if !is_short(sid) {
        return Ok(unfit());
    }
    let address = address(alloc, subject, reply)?;
    delivered(alloc, headers, sid, address, block, size)
}

// The same behind its address, which may have been one that can't be read.
fn delivered(
    alloc: Global,
    headers: bool,
    sid: &[u8],
    address: Option<(Subject, Option<Subject>)>,
    block: Option<usize>,
    size: Option<usize>,
) -> Result<Line, NoMemory>
    ensures said { IfOk result (λ it. it ≡ delivered headers sid.now address block size) }
    ensures fit { IfOk result (λ it. IsFit most_payload it) }
{
    match address {
        Some((subject, reply)) => {
            let envelope = Envelope::Delivery {
                headers,
                sid: Bytes::from_slice(alloc, sid)?,
                subject,
                reply,
            };
            Ok(sized(envelope, MOST_PAYLOAD, block, size))
        }
        None => Ok(Said::Unfit(FrameText::InvalidSubject)),
    }
}

/// A subject, and a reply where there is one, where both can be read.
pub fn address(
    alloc: Global,
    subject: &[u8],
    reply: Option<&[u8]>,
) -> Result<Option<(Subject, Option<Subject>)>, NoMemory>
    ensures { IfOk result (λ it. it ≡ if is_address subject.now (option_copied reply.entry) then Some (subject.now, option_copied reply.entry) else None) }
{
    let Some(subject) = read_subject(alloc, subject)? else {
        return Ok(None);
    };
    let Some(reply) = reply else {
        return Ok(Some((subject, None)));
    };
    match read_subject(alloc, reply)? {
        Some(reply) => Ok(Some((subject, Some(reply)))),
        None => Ok(None),
    }
}

fn read_subject(alloc: Global, text: &[u8]) -> Result<Option<Subject>, NoMemory>
    ensures { IfOk result (λ it. it ≡ if is_subject text.now then Some text.now else None) }
{
    match Subject::read(alloc, text) {
        Ok(subject) => Ok(Some(subject)),
        Err(TextFault::Bad { place: _ }) => Ok(None),
        Err(TextFault::NoMemory) => Err(NoMemory),
    }
}
