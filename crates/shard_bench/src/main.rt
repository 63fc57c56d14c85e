//! Publishes messages of 100 bytes to a shard on disks in memory. The words are how many, and to how many
//! streams, 1 to 256, in turn. It prints how many were stored.
#![tactic(auto)]

use mem_disk::MemDisk;
use nats_text::{Bytes, Headers, List, Message, Name, Pattern, Subject, TextFault};
use shard_calls::Shard;
use shard_machine::{Outcome, ShardCall, ShardReply};
use std::alloc::Global;
use std::env;
use std::process::ExitCode;
use stream_fold::{Config, Copies, Discard};

const PAYLOAD: [u8; 100] = [b'x'; 100];

/// The greatest number of streams of a shard.
const MOST_STREAMS: u64 = 256;

/// The duplicate window, in nanoseconds.
const WINDOW: u64 = 120_000_000_000;

/// The name of the stream of a number, which is its subject too.
fn name_of(alloc: Global, number: u64) -> Result<Name, TextFault> {
    let text = format!(in alloc; "S{number}")?;
    Name::read(alloc, text.as_bytes())
}

/// The configuration of a stream on the subject of its name, without limits.
fn config_of(alloc: Global, number: u64) -> Result<Config, TextFault> {
    let mut subjects = List::new(alloc);
    subjects.push(Pattern::of_subject(Subject::of_name(name_of(alloc, number)?)))?;
    Ok(Config {
        name: name_of(alloc, number)?,
        subjects,
        max_msgs: 0,
        max_bytes: 0,
        max_age: 0,
        max_per_subject: 0,
        max_msg_size: 0,
        discard: Discard::Old,
        window: WINDOW,
        copies: Copies::Nothing,
        transform: None,
    })
}

fn message_to(alloc: Global, number: u64) -> Result<Message, TextFault> {
    Ok(Message {
        subject: Subject::of_name(name_of(alloc, number)?),
        headers: Headers::empty(alloc),
        payload: Bytes::from_slice(alloc, &PAYLOAD)?,
        time: 0,
    })
}

/// Makes so many streams, and publishes so many messages to them in turn. It gives how many were stored.
fn publish(
    alloc: Global,
    shard: &mut Shard<MemDisk>,
    count: u64,
    streams: u64,
) -> Result<u64, TextFault> {
    for number in 0..streams {
        let config = config_of(alloc, number)?;
        let reply = shard.call(ShardCall::Create { config, now: 1 });
        drop(reply);
    }
    let mut stored = 0_u64;
    for at in 0..count {
        let number = at % streams.max(1);
        let reply = shard.call(ShardCall::Publish {
            name: name_of(alloc, number)?,
            message: message_to(alloc, number)?,
            now: at,
        });
        if is_stored(&reply) {
            stored = stored.saturating_add(1);
        }
        drop(reply);
    }
    Ok(stored)
}

fn is_stored(reply: &ShardReply) -> bool {
    match &reply.outcome {
        Outcome::Stored { .. } => true,
        _ => false,
    }
}

/// How many messages, and to how many streams.
fn words(rt: HostRuntime) -> Option<(u64, u64)> {
    let mut words = env::args(&rt).ok()?;
    let count = words.nth(1)?.parse().ok()?;
    let streams = words.next()?.parse().ok()?;
    Some((count, streams))
}

/// How many messages a new shard stores.
fn stored(alloc: Global, count: u64, streams: u64) -> Option<u64> {
    let node = Name::read(alloc, b"hub").ok()?;
    let main = MemDisk::new(alloc, Vec::new(alloc), Vec::new(alloc));
    let spare = MemDisk::new(alloc, Vec::new(alloc), Vec::new(alloc));
    let mut shard = match Shard::load(alloc, main, spare, node) {
        Ok(shard) => shard,
        Err(_) => return None,
    };
    publish(alloc, &mut shard, count, streams).ok()
}

fn main(rt: HostRuntime) -> ExitCode {
    let Some((count, streams)) = words(rt) else {
        return ExitCode::from(2);
    };
    if streams < 1 || streams > MOST_STREAMS {
        return ExitCode::from(2);
    }
    let Some(stored) = stored(rt.alloc(), count, streams) else {
        return ExitCode::from(1);
    };
    if println!(rt; "{stored}").is_err() {
        return ExitCode::from(1);
    }
    ExitCode::from(0)
}
