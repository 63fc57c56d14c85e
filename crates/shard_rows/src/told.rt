//! Replies as texts.
use crate::said::{Said, numbers, say, word};
use js_wire::Packet;
use nats_text::{List, Name, NoMemory};
use shard_machine::{CopyFact, Facts, Outcome, ShardRefusal, ShardReply};
use std::alloc::Global;
use stream_fold::{Decision, Reason, Refusal, Why};
use tap_row::Notice;

/// What came of a call, behind `|` what it sends, and behind another one what the taps are told.
pub fn told(alloc: Global, reply: &ShardReply) -> Result<String, NoMemory> {
    let mut text = String::new(alloc);
    push_reply(alloc, &mut text, reply)?;
    Ok(text)
}

fn push_reply(alloc: Global, text: &mut String, reply: &ShardReply) -> Result<(), NoMemory> {
    push_outcome(alloc, text, &reply.outcome)?;
    push_packets(alloc, text, reply.packets.as_slice())?;
    push_notices(alloc, text, reply.notices.as_slice())
}

fn push_outcome(alloc: Global, text: &mut String, outcome: &Outcome) -> Result<(), NoMemory> {
    match outcome {
        Outcome::Info(facts) => push_info(alloc, text, facts),
        Outcome::Listed(names) => push_names(text, names),
        Outcome::Refused(why) => push_refusal(alloc, text, why),
        _ => say(alloc, text, of_outcome(outcome)),
    }
}

fn of_outcome(outcome: &Outcome) -> Said {
    match outcome {
        Outcome::Made { fresh } => made(*fresh),
        Outcome::Updated => word("updated"),
        Outcome::Removed => word("removed"),
        Outcome::Stored { seq } => numbers("stored", *seq, None),
        Outcome::Duplicate { seq } => numbers("duplicate", *seq, None),
        Outcome::Deleted => word("deleted"),
        Outcome::Purged { count } => numbers("purged", *count, None),
        Outcome::Expired { count } => numbers("expired", *count, None),
        Outcome::Found(row) => numbers("found", row.seq, None),
        Outcome::Consumer(name) => numbers("consumer", name.boot, Some(name.count)),
        Outcome::Sent => word("sent"),
        Outcome::Heard(decision) => of_decision(decision),
        _ => word("other"),
    }
}

fn made(fresh: bool) -> Said {
    if fresh { word("made") } else { word("stands") }
}

fn push_info(alloc: Global, text: &mut String, facts: &Facts) -> Result<(), NoMemory> {
    for (word, number) in [
        ("info", facts.incarnation),
        (" of", facts.first),
        (" to", facts.last),
        (",", facts.count),
        (" kept of", facts.bytes),
        (" bytes,", facts.consumers),
    ] {
        say(alloc, text, numbers(word, number, None))?;
    }
    text.push_str(" consumers")?;
    for copy in facts.copies.as_slice() {
        push_copy(alloc, text, copy)?;
    }
    Ok(())
}

fn push_copy(alloc: Global, text: &mut String, copy: &CopyFact) -> Result<(), NoMemory> {
    say(alloc, text, numbers(", copy at", copy.mark, None))?;
    say(alloc, text, of_copy(copy))
}

/// Where a copy stopped, or who sends it messages.
fn of_copy(copy: &CopyFact) -> Said {
    match (&copy.stopped, &copy.consumer) {
        (Some((kept, seen)), _) => numbers(" stopped", *kept, Some(*seen)),
        (None, Some(name)) => numbers(" by", name.boot, Some(name.count)),
        (None, None) => word(""),
    }
}

fn push_names(text: &mut String, names: &List<Name>) -> Result<(), NoMemory> {
    text.push_str("names")?;
    for name in names.as_slice() {
        text.push(' ')?;
        push_bytes(text, name.bytes())?;
    }
    Ok(())
}

fn push_bytes(text: &mut String, bytes: &[u8]) -> Result<(), NoMemory> {
    for byte in bytes {
        text.push(*byte as char)?;
    }
    Ok(())
}

fn of_decision(decision: &Decision) -> Said {
    match decision {
        Decision::Store(_) => word("heard store"),
        Decision::Bind(_) => word("heard bind"),
        Decision::Rebind => word("heard rebind"),
        Decision::Skip => word("heard skip"),
        Decision::Ignore(reason) => ignored(reason),
        Decision::AskAgain(Why::Gap { expected, got }) => {
            numbers("heard gap", *expected, Some(*got))
        }
        Decision::Reply => word("heard reply"),
        Decision::Heard => word("heard"),
        Decision::Refused => word("heard refused"),
        Decision::Stop { kept, seen } => numbers("heard stop", *kept, Some(*seen)),
    }
}

fn ignored(reason: &Reason) -> Said {
    match reason {
        Reason::Old { number, next } => numbers("heard old", *number, Some(*next)),
        Reason::Foreign => word("heard foreign"),
        Reason::Back { seq, front } => numbers("heard back", *seq, Some(*front)),
        Reason::Large { size } => numbers("heard large", *size, None),
        Reason::SeqEnd => word("heard end"),
    }
}

fn push_refusal(alloc: Global, text: &mut String, why: &ShardRefusal) -> Result<(), NoMemory> {
    match why {
        ShardRefusal::BadConfig { member } => {
            text.push_str("BadConfig ")?;
            push_bytes(text, member.as_slice())
        }
        _ => say(alloc, text, of_refusal(why)),
    }
}

fn of_refusal(why: &ShardRefusal) -> Said {
    match why {
        ShardRefusal::Of(why) => by_stream(why),
        ShardRefusal::NoStream => word("NoStream"),
        ShardRefusal::NameTaken => word("NameTaken"),
        ShardRefusal::TooManyStreams => word("TooManyStreams"),
        ShardRefusal::OldAttempt { kept, seen } => {
            numbers("OldAttempt", kept.count, Some(seen.count))
        }
        ShardRefusal::TooManyConsumers => word("TooManyConsumers"),
        ShardRefusal::NoMessage => word("NoMessage"),
        ShardRefusal::JournalFull { end, need } => numbers("JournalFull", *end, Some(*need)),
        ShardRefusal::BadJournal { place } => numbers("BadJournal", *place, None),
        ShardRefusal::NoMemory => word("NoMemory"),
        ShardRefusal::DiskFault => word("DiskFault"),
        _ => word("other"),
    }
}

fn by_stream(why: &Refusal) -> Said {
    match why {
        Refusal::IsMirror => word("IsMirror"),
        Refusal::BadHeader { .. } => word("BadHeader"),
        Refusal::WrongStream => word("WrongStream"),
        Refusal::WrongLast { kept } => numbers("WrongLast", *kept, None),
        Refusal::WrongSubjectLast { kept } => numbers("WrongSubjectLast", *kept, None),
        Refusal::TooLarge { size, limit } => numbers("TooLarge", *size, Some(*limit)),
        Refusal::SeqEnd => word("SeqEnd"),
        Refusal::Full { count, bytes } => numbers("Full", *count, Some(*bytes)),
        Refusal::NoMemory => word("NoMemory"),
    }
}

/// Nothing where there is no packet.
fn push_packets(alloc: Global, text: &mut String, packets: &[Packet]) -> Result<(), NoMemory> {
    let mut before = '|';
    for packet in packets {
        text.push(before)?;
        push_packet(alloc, text, packet)?;
        before = ',';
    }
    Ok(())
}

fn push_packet(alloc: Global, text: &mut String, packet: &Packet) -> Result<(), NoMemory> {
    match packet {
        Packet::Delivery {
            number,
            seq,
            pending,
            ..
        } => {
            let delivery = format!(in alloc; "{number}:{seq}/{pending}")?;
            text.push_str(delivery.as_str())?;
            Ok(())
        }
        _ => say(alloc, text, of_packet(packet)),
    }
}

fn of_packet(packet: &Packet) -> Said {
    match packet {
        Packet::Ask { attempt, .. } => numbers("ask", attempt.boot, Some(attempt.count)),
        Packet::Answer {
            consumer,
            start,
            ..
        } => numbers("answer", consumer.count, Some(*start)),
        Packet::Refuse { err_code, .. } => numbers("refuse", *err_code as u64, None),
        Packet::Beat {
            last_number,
            last_seq,
            ..
        } => numbers("beat", *last_number, Some(*last_seq)),
        Packet::FlowAsk { token, .. } => numbers("flow?", *token, None),
        Packet::FlowReply { token, .. } => numbers("flow!", *token, None),
        _ => word("other"),
    }
}

/// Nothing where there is no notice.
fn push_notices(alloc: Global, text: &mut String, notices: &[Notice]) -> Result<(), NoMemory> {
    let mut before = "||";
    for notice in notices {
        text.push_str(before)?;
        say(alloc, text, of_notice(notice))?;
        before = ",";
    }
    Ok(())
}

fn of_notice(notice: &Notice) -> Said {
    match notice {
        Notice::Stored { seq, .. } => numbers("stored", *seq, None),
        Notice::Removed { count, .. } => numbers("removed", *count, None),
        Notice::Bound { index, .. } => numbers("bound", *index as u64, None),
        Notice::AskedAgain { index, .. } => numbers("asked", *index as u64, None),
        Notice::Stopped { kept, seen, .. } => numbers("stopped", *kept, Some(*seen)),
        Notice::PostFull { held } => numbers("full", *held, None),
    }
}
