//! What a line that carries a message says.
ghost use Rattle.std.specs.Prelude.{◌≡◌, ℕ, List as Items, Option, None, Some, if◌then◌else◌, option_map, IfOk};
ghost use Rattle.std.specs.List.{list_all};
ghost use Rattle.std.specs.Option.{option_copied};
ghost use Rattle.nats_text.specs.Pieces.{views};
ghost use Rattle.nats_frames.specs.Fields.{is_short};
ghost use Rattle.nats_frames.specs.Stream.{IsFit};
ghost use Rattle.leaf_frames.specs.Frames.{most_payload, form_of, address_of, split_last, split_sizes, addressed, addressed_to, addressed_if, in_form, by_form, message};

use crate::address::{Address, Form, Sizes, form_of};
use crate::said::{Line, unfit};
use nats_frames::shared::{address, is_short, size_of};
use nats_frames::{FrameText, Said, sized};
use nats_text::{Bytes, List, NoMemory, Subject};
use std::alloc::Global;

/// The greatest length of a header block and a payload together, in bytes.
const MOST_PAYLOAD: usize = 2_097_152;

/// LMSG and HMSG: an address and the size, or the size of the header block and the whole size.
pub(crate) fn message(alloc: Global, headers: bool, others: &[&[u8]]) -> Result<Line, NoMemory>
    ensures said { IfOk result (λ it. it ≡ message headers (views others.now)) }
    ensures fit { IfOk result (λ it. IsFit most_payload it) }
{
    match others {
        [subject, field, behind @ ..] => match form_of(field) {
            Form::Plain => in_form(alloc, headers, Form::Plain, subject, &others[1..]),
            form => in_form(alloc, headers, form, subject, behind),
        },
        _ => Ok(unfit()),
    }
}

// A message of a form, with the fields behind its subject and its sign.
fn in_form(
    alloc: Global,
    headers: bool,
    form: Form,
    subject: &[u8],
    fields: &[&[u8]],
) -> Result<Line, NoMemory>
    ensures said { IfOk result (λ it. it ≡ in_form form subject.now (split_sizes headers (views fields.now))) }
    ensures fit { IfOk result (λ it. IsFit most_payload it) }
{
    match split_sizes(headers, fields) {
        Some((front, sizes)) => addressed_if(alloc, form, subject, front, sizes),
        None => Ok(unfit()),
    }
}

// The fields before the sizes of a message with or without a header block, and its sizes.
fn split_sizes<'a>(headers: bool, fields: &'a [&'a [u8]]) -> Option<(&'a [&'a [u8]], Sizes)>
    ensures { option_map (λ split. (views split.0.now, split.1)) result ≡ split_sizes headers (views fields.now) }
{
    let (front, last) = split_last(fields)?;
    let size = size_of(last);
    if !headers {
        return Some((
            front,
            Sizes {
                block: Some(0),
                size,
            },
        ));
    }
    let (front, last) = split_last(front)?;
    let block = size_of(last);
    Some((front, Sizes { block, size }))
}

// The fields before the last one, and the last one.
fn split_last<'a>(fields: &'a [&'a [u8]]) -> Option<(&'a [&'a [u8]], &'a [u8])>
    ensures { option_map (λ split. (views split.0.now, split.1.now)) result ≡ split_last (views fields.now) }
{
    match fields {
        [front @ .., last] => Some((front, *last)),
        [] => None,
    }
}

// A message whose fields before the sizes may make no address.
fn addressed_if(
    alloc: Global,
    form: Form,
    subject: &[u8],
    front: &[&[u8]],
    sizes: Sizes,
) -> Result<Line, NoMemory>
    ensures said { IfOk result (λ it. it ≡ addressed_if (address_of form subject.now (views front.now)) sizes) }
    ensures fit { IfOk result (λ it. IsFit most_payload it) }
{
    match form {
        Form::Plain => plain(alloc, subject, front, sizes),
        Form::WithReply => with_reply(alloc, subject, front, sizes),
        Form::WithQueues => with_queues(alloc, subject, front, sizes),
    }
}

fn plain(alloc: Global, subject: &[u8], front: &[&[u8]], sizes: Sizes) -> Result<Line, NoMemory>
    ensures said { IfOk result (λ it. it ≡ addressed_if (address_of Form.Plain subject.now (views front.now)) sizes) }
    ensures fit { IfOk result (λ it. IsFit most_payload it) }
{
    match front {
        [] => addressed(alloc, subject, None, &[], sizes),
        [reply] => addressed(alloc, subject, Some(*reply), &[], sizes),
        _ => Ok(unfit()),
    }
}

fn with_reply(
    alloc: Global,
    subject: &[u8],
    front: &[&[u8]],
    sizes: Sizes,
) -> Result<Line, NoMemory>
    ensures said { IfOk result (λ it. it ≡ addressed_if (address_of Form.WithReply subject.now (views front.now)) sizes) }
    ensures fit { IfOk result (λ it. IsFit most_payload it) }
{
    match front {
        [reply, queues @ ..] => addressed(alloc, subject, Some(*reply), queues, sizes),
        [] => Ok(unfit()),
    }
}

fn with_queues(
    alloc: Global,
    subject: &[u8],
    front: &[&[u8]],
    sizes: Sizes,
) -> Result<Line, NoMemory>
    ensures said { IfOk result (λ it. it ≡ addressed_if (address_of Form.WithQueues subject.now (views front.now)) sizes) }
    ensures fit { IfOk result (λ it. IsFit most_payload it) }
{
    match front {
        [_, ..] => addressed(alloc, subject, None, front, sizes),
        [] => Ok(unfit()),
    }
}

// A message of this address and these sizes.
fn addressed(
    alloc: Global,
    subject: &[u8],
    reply: Option<&[u8]>,
    queues: &[&[u8]],
    sizes: Sizes,
) -> Result<Line, NoMemory>
    ensures said { IfOk result (λ it. it ≡ addressed (record { subject = subject.now; reply = option_copied reply.entry; queues = views queues.now }) sizes) }
    ensures fit { IfOk result (λ it. IsFit most_payload it) }
{
    if !are_short(queues) {
        return Ok(unfit());
    }
    let read = address(alloc, subject, reply)?;
    addressed_to(alloc, read, queues, sizes)
}

// The same once the subject and the reply were looked at, which may have been none.
fn addressed_to(
    alloc: Global,
    read: Option<(Subject, Option<Subject>)>,
    queues: &[&[u8]],
    sizes: Sizes,
) -> Result<Line, NoMemory>
    ensures said { IfOk result (λ it. it ≡ addressed_to read (views queues.now) sizes) }
    ensures fit { IfOk result (λ it. IsFit most_payload it) }
{
    match read {
        Some((subject, reply)) => {
            let queues = copied(alloc, queues)?;
            let address = Address {
                subject,
                reply,
                queues,
            };
            Ok(sized(address, MOST_PAYLOAD, sizes.block, sizes.size))
        }
        None => Ok(Said::Unfit(FrameText::InvalidSubject)),
    }
}

// Whether each field may be a queue.
fn are_short(fields: &[&[u8]]) -> bool
    ensures { result ≡ list_all is_short (views fields.now) }
{
    let mut rest = fields;
    while let [field, behind @ ..] = rest {
        if !is_short(field) {
            return false;
        }
        rest = behind;
    }
    true
}

// Copies of fields.
fn copied(alloc: Global, fields: &[&[u8]]) -> Result<List<Bytes>, NoMemory>
    ensures { IfOk result (λ copies. copies ≡ views fields.now) }
{
    let mut copies = List::new(alloc);
    let mut rest = fields;
    while let [field, behind @ ..] = rest {
        copies.push(Bytes::from_slice(alloc, field)?)?;
        rest = behind;
    }
    Ok(copies)
}
