//! What a line says by itself.
ghost use Rattle.std.specs.Prelude.{◌≡◌, true, option_and_then, IfOk};
ghost use Rattle.std.specs.Option.{option_copied, option_map_or};
ghost use Rattle.nats_text.specs.Pieces.{views};
ghost use Rattle.nats_frames.specs.Stream.{IsFit};
ghost use Rattle.nats_frames.specs.Json.{connect_of, info_of, object_of};
ghost use Rattle.nats_frames.specs.Fields.{is_short};
ghost use Rattle.nats_frames.specs.Frames.{most_payload, whole_or, alone, subscription, subscribe, ended_after, unsubscribe, fault, said_of, said_if, said_by, said};

use crate::fields::{argument, fields, is_short, quoted, size_of};
use crate::members::{connect_of, object_of, server_of};
use crate::messages::{message, message_headers, publish, publish_headers};
use crate::operation::{Envelope, Operation, operation_of};
use crate::{ClientFrame, FrameText, Said, Side};
use nats_text::{Bytes, NoMemory, Pattern, TextFault};
use std::alloc::Global;

pub(crate) type Line = Said<ClientFrame, Envelope>;

/// What a line of this side says.
pub(crate) fn said(alloc: Global, side: Side, line: &[u8]) -> Result<Line, NoMemory>
    ensures said { IfOk result (λ it. it ≡ said side line.now) }
    ensures fit { IfOk result (λ it. IsFit most_payload it) }
{
    let found = fields(alloc, line)?;
    said_by(alloc, side, line, found.as_slice())
}

// The same by the fields of the line, of which the first is the operation.
fn said_by(alloc: Global, side: Side, line: &[u8], found: &[&[u8]]) -> Result<Line, NoMemory>
    ensures said { IfOk result (λ it. it ≡ said_by side line.now (views found.now)) }
    ensures fit { IfOk result (λ it. IsFit most_payload it) }
{
    match found {
        [] => Ok(unfit()),
        [word, others @ ..] => said_if(alloc, operation_of(side, word), line, others),
    }
}

fn said_if(
    alloc: Global,
    operation: Option<Operation>,
    line: &[u8],
    others: &[&[u8]],
) -> Result<Line, NoMemory>
    ensures said { IfOk result (λ it. it ≡ said_if operation line.now (views others.now)) }
    ensures fit { IfOk result (λ it. IsFit most_payload it) }
{
    match operation {
        Some(operation) => said_of(alloc, operation, line, others),
        None => Ok(Said::Unfit(FrameText::UnknownOperation)),
    }
}

fn said_of(
    alloc: Global,
    operation: Operation,
    line: &[u8],
    others: &[&[u8]],
) -> Result<Line, NoMemory>
    ensures said { IfOk result (λ it. it ≡ said_of operation line.now (views others.now)) }
    ensures fit { IfOk result (λ it. IsFit most_payload it) }
{
    match operation {
        Operation::Connect => connect(alloc, argument(line)),
        Operation::Publish => publish(alloc, others),
        Operation::PublishHeaders => publish_headers(alloc, others),
        Operation::Subscribe => subscribe(alloc, others),
        Operation::Unsubscribe => unsubscribe(alloc, others),
        Operation::Info => info(alloc, argument(line)),
        Operation::Message => message(alloc, others),
        Operation::MessageHeaders => message_headers(alloc, others),
        Operation::Ping => Ok(alone(ClientFrame::Ping, others)),
        Operation::Pong => Ok(alone(ClientFrame::Pong, others)),
        Operation::Okay => Ok(alone(ClientFrame::Okay, others)),
        Operation::Error => fault(alloc, quoted(argument(line))),
    }
}

pub(crate) fn unfit() -> Line
    ensures { result ≡ Said.Unfit FrameText.ParserError }
{
    Said::Unfit(FrameText::ParserError)
}

// ---- lines without a payload

fn connect(alloc: Global, argument: &[u8]) -> Result<Line, NoMemory>
    ensures { IfOk result (λ it. it ≡ whole_or FrameText.ParserError (option_and_then connect_of (object_of argument.now))) }
{
    let Some(object) = object_of(alloc, argument)? else {
        return Ok(unfit());
    };
    Ok(whole_or_unfit(connect_of(&object)))
}

fn info(alloc: Global, argument: &[u8]) -> Result<Line, NoMemory>
    ensures { IfOk result (λ it. it ≡ whole_or FrameText.ParserError (option_and_then info_of (object_of argument.now))) }
{
    let Some(object) = object_of(alloc, argument)? else {
        return Ok(unfit());
    };
    Ok(match server_of(alloc, &object)? {
        Some(info) => Said::Whole(ClientFrame::Info(info)),
        None => unfit(),
    })
}

fn whole_or_unfit(frame: Option<ClientFrame>) -> Line
    ensures { result ≡ whole_or FrameText.ParserError frame }
{
    match frame {
        Some(frame) => Said::Whole(frame),
        None => unfit(),
    }
}

// A line of the operation alone.
fn alone(frame: ClientFrame, others: &[&[u8]]) -> Line
    ensures { result ≡ alone frame (views others.now) }
{
    if others.is_empty() {
        Said::Whole(frame)
    } else {
        unfit()
    }
}

fn subscribe(alloc: Global, others: &[&[u8]]) -> Result<Line, NoMemory>
    ensures { IfOk result (λ it. it ≡ subscribe (views others.now)) }
{
    match others {
        [pattern, sid] => subscription(alloc, pattern, None, sid),
        [pattern, queue, sid] => subscription(alloc, pattern, Some(*queue), sid),
        _ => Ok(unfit()),
    }
}

// A subscription, whose pattern a client may get wrong.
fn subscription(
    alloc: Global,
    pattern: &[u8],
    queue: Option<&[u8]>,
    sid: &[u8],
) -> Result<Line, NoMemory>
    ensures { IfOk result (λ it. it ≡ subscription pattern.now (option_copied queue.entry) sid.now) }
{
    if !is_short_or_none(queue) || !is_short(sid) {
        return Ok(unfit());
    }
    let pattern = match Pattern::read(alloc, pattern) {
        Ok(pattern) => pattern,
        Err(TextFault::Bad { place: _ }) => return Ok(Said::Whole(ClientFrame::BadSubject)),
        Err(TextFault::NoMemory) => return Err(NoMemory),
    };
    let queue = copied(alloc, queue)?;
    let sid = Bytes::from_slice(alloc, sid)?;
    Ok(Said::Whole(ClientFrame::Sub {
        pattern,
        queue,
        sid,
    }))
}

fn is_short_or_none(field: Option<&[u8]>) -> bool
    ensures { result ≡ option_map_or is_short (option_copied field.entry) true }
{
    match field {
        Some(field) => is_short(field),
        None => true,
    }
}

fn copied(alloc: Global, field: Option<&[u8]>) -> Result<Option<Bytes>, NoMemory>
    ensures { IfOk result (λ copy. copy ≡ option_copied field.entry) }
{
    match field {
        Some(field) => Ok(Some(Bytes::from_slice(alloc, field)?)),
        None => Ok(None),
    }
}

fn unsubscribe(alloc: Global, others: &[&[u8]]) -> Result<Line, NoMemory>
    ensures { IfOk result (λ it. it ≡ unsubscribe (views others.now)) }
{
    match others {
        [sid] if is_short(sid) => Ok(Said::Whole(ClientFrame::Unsub {
            sid: Bytes::from_slice(alloc, sid)?,
            max: None,
        })),
        [sid, count] if is_short(sid) => ended_after(alloc, sid, size_of(count)),
        _ => Ok(unfit()),
    }
}

// The end of a subscription after so many messages, of which there has to be one at least.
fn ended_after(alloc: Global, sid: &[u8], max: Option<usize>) -> Result<Line, NoMemory>
    ensures { IfOk result (λ it. it ≡ ended_after sid.now max) }
{
    match max {
        Some(max) if max > 0 => Ok(Said::Whole(ClientFrame::Unsub {
            sid: Bytes::from_slice(alloc, sid)?,
            max: Some(max as u64),
        })),
        _ => Ok(unfit()),
    }
}

fn fault(alloc: Global, text: Option<&[u8]>) -> Result<Line, NoMemory>
    ensures { IfOk result (λ it. it ≡ fault (option_copied text.entry)) }
{
    match text {
        Some(text) => Ok(Said::Whole(ClientFrame::Fault(Bytes::from_slice(alloc, text)?))),
        None => Ok(unfit()),
    }
}
