ghost use Rattle.std.specs.Prelude.{◌≡◌};
ghost use Rattle.leafd_script.specs.Lines.{GivesLine, args_of, headed_line, headed_of, publish_line, publish_of};

use crate::headers::headers_of;
use crate::words::{BAD_LINE, has_empty, name_of, subject_of};
use crate::{Line, LineFault};
use nats_text::{Bytes, cut};
use std::alloc::Global;

pub fn publish_line(alloc: Global, rest: Option<&[u8]>) -> Result<Line, LineFault>
    ensures { GivesLine result (publish_line (args_of rest.entry)) }
{
    let Some(rest) = rest else {
        return Err(BAD_LINE);
    };
    let Some((node, rest)) = cut(rest, b' ') else {
        return Err(BAD_LINE);
    };
    let Some((name, rest)) = cut(rest, b' ') else {
        return Err(BAD_LINE);
    };
    match cut(rest, b' ') {
        Some((subject, text)) => publish_of(alloc, node, name, subject, text),
        None => publish_of(alloc, node, name, rest, b""),
    }
}

fn publish_of(
    alloc: Global,
    node: &[u8],
    name: &[u8],
    subject: &[u8],
    text: &[u8],
) -> Result<Line, LineFault>
    ensures { GivesLine result (publish_of node.now name.now subject.now text.now) }
{
    if has_empty(&[node, name, subject]) {
        return Err(BAD_LINE);
    }
    let node = name_of(alloc, node)?;
    let name = name_of(alloc, name)?;
    let subject = subject_of(alloc, subject)?;
    let text = Bytes::from_slice(alloc, text)?;
    Ok(Line::Publish {
        node,
        name,
        subject,
        text,
    })
}

pub fn headed_line(alloc: Global, rest: Option<&[u8]>) -> Result<Line, LineFault>
    ensures { GivesLine result (headed_line (args_of rest.entry)) }
{
    let Some(rest) = rest else {
        return Err(BAD_LINE);
    };
    let Some((node, rest)) = cut(rest, b' ') else {
        return Err(BAD_LINE);
    };
    let Some((name, rest)) = cut(rest, b' ') else {
        return Err(BAD_LINE);
    };
    let Some((subject, rest)) = cut(rest, b' ') else {
        return Err(BAD_LINE);
    };
    match cut(rest, b' ') {
        Some((headers, text)) => headed_of(alloc, node, name, subject, headers, text),
        None => headed_of(alloc, node, name, subject, rest, b""),
    }
}

fn headed_of(
    alloc: Global,
    node: &[u8],
    name: &[u8],
    subject: &[u8],
    headers: &[u8],
    text: &[u8],
) -> Result<Line, LineFault>
    ensures { GivesLine result (headed_of node.now name.now subject.now headers.now text.now) }
{
    if has_empty(&[node, name, subject]) {
        return Err(BAD_LINE);
    }
    let headers = headers_of(alloc, headers)?;
    let node = name_of(alloc, node)?;
    let name = name_of(alloc, name)?;
    let subject = subject_of(alloc, subject)?;
    let text = Bytes::from_slice(alloc, text)?;
    Ok(Line::PublishWithHeaders {
        node,
        name,
        subject,
        headers,
        text,
    })
}
