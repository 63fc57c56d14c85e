//! What a source makes of a message.
ghost use Rattle.std.specs.Prelude.{◌≡◌, None};
ghost use Rattle.stream_fold.specs.Checking.{config_fault};
ghost use Rattle.source_core.specs.Origins.{IsSource};

use crate::copies::source;
use crate::packets::message;
use crate::streams::config;
use crate::table::fields;
use nats_text::{Headers, List, Message, NoMemory, Origin, TextFault, pieces};
use source_core::via;
use std::alloc::Global;
use std::test::Fail;
use stream_fold::{Config, Copies};

/// Each row is a filter or maps, the subject of the first message of the stream `EU`, and the subject
/// and the value of the header that the source makes of it.
const MADE: &[u8] = b"\
    |a|a|EU 1 > > a\n\
    a|a|a|EU 1 a > a\n\
    a.*=x.$1,*.b=y.$1|a.b|x.b|EU 1 a.* x.$1 a.b\n\
    a.*=x.$1,*.b=y.$1|c.b|y.c|EU 1 *.b y.$1 c.b\n\
    a.*= x . $1 |a.b|x.b|EU 1 a.* x.$1 a.b\n\
    a.>=|a.b|a.b|EU 1 a.> > a.b";

#[test]
fn a_source_tells_where_a_message_comes_from(rt: HostRuntime) -> Result<(), Fail> {
    for row in &pieces(rt.alloc(), MADE, b'\n')? {
        let is_right = makes(rt.alloc(), row)?;
        assert!(rt; is_right, "{row:?}");
    }
    Ok(())
}

fn makes(alloc: Global, row: &[u8]) -> Result<bool, TextFault> {
    let (from, row) = fields(row, b'|');
    let (subject, want) = fields(row, b'|');
    let config = config(alloc, source(alloc, from)?)?;
    let message = headed(alloc, subject)?;
    match made(alloc, &config, &message)? {
        Some(made) => is_made(alloc, &made, want),
        None => Ok(false),
    }
}

/// A message that says that it comes from `x`, with another header behind.
fn headed(alloc: Global, subject: &[u8]) -> Result<Message, TextFault> {
    let mut message = message(alloc, subject, 50, 0)?;
    message.headers = headers(alloc)?;
    Ok(message)
}

fn headers(alloc: Global) -> Result<Headers, TextFault> {
    Headers::read(alloc, b"NATS/1.0\r\nNats-Stream-Source: x\r\nK: v\r\n\r\n")
}

/// What the first source of a configuration that a stream may have makes of the first message.
fn made(alloc: Global, config: &Config, message: &Message) -> Result<Option<Message>, NoMemory> {
    if config.check(alloc).is_err() {
        return Ok(None);
    }
    match &config.copies {
        Copies::Sources(origins) => made_by(alloc, config, origins, message),
        _ => Ok(None),
    }
}

fn made_by(
    alloc: Global,
    config: &Config,
    origins: &List<Origin>,
    message: &Message,
) -> Result<Option<Message>, NoMemory>
    requires legal { config_fault config.now ≡ None }
    requires origins { config.now.copies ≡ Copies.Sources origins.now }
{
    match origins.get(0) {
        Some(want) => via(alloc, 0, want, message, 1),
        None => Ok(None),
    }
}

fn is_made(alloc: Global, made: &Message, want: &[u8]) -> Result<bool, TextFault> {
    let (subject, value) = fields(want, b'|');
    let mut block = Vec::new(alloc);
    made.headers.write(&mut block)?;
    Ok(made.subject.bytes() == subject && block.as_slice() == told(alloc, value)?.as_slice())
}

/// The header block that tells where a message comes from.
fn told(alloc: Global, value: &[u8]) -> Result<Vec<u8>, NoMemory> {
    let mut block = Vec::new(alloc);
    block.extend_from_slice(b"NATS/1.0\r\nK: v\r\nNats-Stream-Source: ")?;
    block.extend_from_slice(value)?;
    block.extend_from_slice(b"\r\n\r\n")?;
    Ok(block)
}
