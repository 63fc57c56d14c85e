//! What a line says by itself.
ghost use Rattle.std.specs.Prelude.{◌≡◌, None, Some, if◌then◌else◌, option_and_then, IfOk};
ghost use Rattle.std.specs.Option.{option_copied};
ghost use Rattle.nats_text.specs.Pieces.{views};
ghost use Rattle.nats_text.specs.Text.{is_pattern};
ghost use Rattle.nats_frames.specs.Json.{object_of};
ghost use Rattle.nats_frames.specs.Stream.{IsFit};
ghost use Rattle.leaf_frames.specs.Json.{info_of, connect_of};
ghost use Rattle.leaf_frames.specs.Frames.{most_payload, whole_or_unfit, alone, of_pattern, weighted, group_on, group_off, subscribe_on, subscribe_off, fault, said_of, said_if, said_by, said};

use crate::LeafFrame;
use crate::address::Address;
use crate::members::hello_of;
use crate::messages::message;
use crate::operation::{Operation, operation_of};
use nats_frames::shared::{argument, fields, is_short, object_of, quoted, size_of};
use nats_frames::{FrameText, Said};
use nats_text::{Bytes, NoMemory, Pattern, TextFault};
use std::alloc::Global;

pub(crate) type Line = Said<LeafFrame, Address>;

/// The greatest weight of a group.
const MOST_WEIGHT: usize = 65_536;

/// What a line says.
pub(crate) fn said(alloc: Global, line: &[u8]) -> Result<Line, NoMemory>
    ensures said { IfOk result (λ it. it ≡ said line.now) }
    ensures fit { IfOk result (λ it. IsFit most_payload it) }
{
    let found = fields(alloc, line)?;
    said_by(alloc, line, found.as_slice())
}

// The same by the fields of the line, of which the first is the operation.
fn said_by(alloc: Global, line: &[u8], found: &[&[u8]]) -> Result<Line, NoMemory>
    ensures said { IfOk result (λ it. it ≡ said_by line.now (views found.now)) }
    ensures fit { IfOk result (λ it. IsFit most_payload it) }
{
    match found {
        [] => Ok(unfit()),
        [word, others @ ..] => said_if(alloc, operation_of(word), line, others),
    }
}

fn said_if(
    alloc: Global,
    operation: Option<Operation>,
    line: &[u8],
    others: &[&[u8]],
) -> Result<Line, NoMemory>
    ensures said { IfOk result (λ it. it ≡ said_if operation line.now (views others.now)) }
    ensures fit { IfOk result (λ it. IsFit most_payload it) }
{
    match operation {
        Some(operation) => said_of(alloc, operation, line, others),
        None => Ok(Said::Unfit(FrameText::UnknownOperation)),
    }
}

fn said_of(
    alloc: Global,
    operation: Operation,
    line: &[u8],
    others: &[&[u8]],
) -> Result<Line, NoMemory>
    ensures said { IfOk result (λ it. it ≡ said_of operation line.now (views others.now)) }
    ensures fit { IfOk result (λ it. IsFit most_payload it) }
{
    match operation {
        Operation::Info => info(alloc, argument(line)),
        Operation::Connect => connect(alloc, argument(line)),
        Operation::SubscribeOn => subscribe_on(alloc, others),
        Operation::SubscribeOff => subscribe_off(alloc, others),
        Operation::Message => message(alloc, false, others),
        Operation::MessageHeaders => message(alloc, true, others),
        Operation::Ping => Ok(alone(LeafFrame::Ping, others)),
        Operation::Pong => Ok(alone(LeafFrame::Pong, others)),
        Operation::Error => fault(alloc, quoted(argument(line))),
    }
}

pub(crate) fn unfit() -> Line
    ensures { result ≡ Said.Unfit FrameText.ParserError }
{
    Said::Unfit(FrameText::ParserError)
}

// ---- lines without a payload

fn info(alloc: Global, argument: &[u8]) -> Result<Line, NoMemory>
    ensures { IfOk result (λ it. it ≡ whole_or_unfit (option_and_then info_of (object_of argument.now))) }
{
    let Some(object) = object_of(alloc, argument)? else {
        return Ok(unfit());
    };
    Ok(match hello_of(alloc, &object)? {
        Some((name, headers)) => Said::Whole(LeafFrame::Info { name, headers }),
        None => unfit(),
    })
}

fn connect(alloc: Global, argument: &[u8]) -> Result<Line, NoMemory>
    ensures { IfOk result (λ it. it ≡ whole_or_unfit (option_and_then connect_of (object_of argument.now))) }
{
    let Some(object) = object_of(alloc, argument)? else {
        return Ok(unfit());
    };
    Ok(match hello_of(alloc, &object)? {
        Some((name, headers)) => Said::Whole(LeafFrame::Connect { name, headers }),
        None => unfit(),
    })
}

// A line of the operation alone.
fn alone(frame: LeafFrame, others: &[&[u8]]) -> Line
    ensures { result ≡ alone frame (views others.now) }
{
    if others.is_empty() {
        Said::Whole(frame)
    } else {
        unfit()
    }
}

fn subscribe_on(alloc: Global, others: &[&[u8]]) -> Result<Line, NoMemory>
    ensures { IfOk result (λ it. it ≡ subscribe_on (views others.now)) }
{
    match others {
        [pattern] => plain_on(alloc, pattern),
        [pattern, queue, weight] => group_on(alloc, pattern, queue, size_of(weight)),
        _ => Ok(unfit()),
    }
}

fn plain_on(alloc: Global, pattern: &[u8]) -> Result<Line, NoMemory>
    ensures { IfOk result (λ it. it ≡ of_pattern pattern.now (LeafFrame.SubOn pattern.now None)) }
{
    match read_pattern(alloc, pattern)? {
        Some(pattern) => Ok(Said::Whole(LeafFrame::SubOn {
            pattern,
            queue: None,
        })),
        None => Ok(Said::Unfit(FrameText::InvalidSubject)),
    }
}

// A subscription of a group.
fn group_on(
    alloc: Global,
    pattern: &[u8],
    queue: &[u8],
    weight: Option<usize>,
) -> Result<Line, NoMemory>
    ensures { IfOk result (λ it. it ≡ group_on pattern.now queue.now weight) }
{
    if !is_short(queue) {
        return Ok(unfit());
    }
    match read_pattern(alloc, pattern)? {
        Some(pattern) => weighted(alloc, pattern, queue, weight),
        None => Ok(Said::Unfit(FrameText::InvalidSubject)),
    }
}

fn weighted(
    alloc: Global,
    pattern: Pattern,
    queue: &[u8],
    weight: Option<usize>,
) -> Result<Line, NoMemory>
    ensures { IfOk result (λ it. it ≡ weighted pattern queue.now weight) }
{
    match weight {
        Some(weight) if weight > 0 && weight <= MOST_WEIGHT => {
            let queue = Bytes::from_slice(alloc, queue)?;
            Ok(Said::Whole(LeafFrame::SubOn {
                pattern,
                queue: Some((queue, weight as u32)),
            }))
        }
        _ => Ok(unfit()),
    }
}

fn subscribe_off(alloc: Global, others: &[&[u8]]) -> Result<Line, NoMemory>
    ensures { IfOk result (λ it. it ≡ subscribe_off (views others.now)) }
{
    match others {
        [pattern] => off(alloc, pattern, None),
        [pattern, queue] if is_short(queue) => off(alloc, pattern, Some(*queue)),
        _ => Ok(unfit()),
    }
}

// The end of a subscription.
fn off(alloc: Global, pattern: &[u8], queue: Option<&[u8]>) -> Result<Line, NoMemory>
    ensures { IfOk result (λ it. it ≡ of_pattern pattern.now (LeafFrame.SubOff pattern.now (option_copied queue.entry))) }
{
    let Some(pattern) = read_pattern(alloc, pattern)? else {
        return Ok(Said::Unfit(FrameText::InvalidSubject));
    };
    let queue = match queue {
        Some(queue) => Some(Bytes::from_slice(alloc, queue)?),
        None => None,
    };
    Ok(Said::Whole(LeafFrame::SubOff { pattern, queue }))
}

fn read_pattern(alloc: Global, text: &[u8]) -> Result<Option<Pattern>, NoMemory>
    ensures { IfOk result (λ it. it ≡ if is_pattern text.now then Some text.now else None) }
{
    match Pattern::read(alloc, text) {
        Ok(pattern) => Ok(Some(pattern)),
        Err(TextFault::Bad { place: _ }) => Ok(None),
        Err(TextFault::NoMemory) => Err(NoMemory),
    }
}

fn fault(alloc: Global, text: Option<&[u8]>) -> Result<Line, NoMemory>
    ensures { IfOk result (λ it. it ≡ fault (option_copied text.entry)) }
{
    match text {
        Some(text) => Ok(Said::Whole(LeafFrame::Fault(Bytes::from_slice(alloc, text)?))),
        None => Ok(unfit()),
    }
}
