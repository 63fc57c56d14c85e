//! Decisions as texts.
use nats_text::{NoMemory, Subject};
use std::alloc::Global;
use stream_fold::{Decision, Entry, Mark, Reason, Why};

/// A decision as a text: its word and its numbers. A message that is stored is told by its number, its
/// subject, its time and its mark, if any.
pub fn told(alloc: Global, decision: &Decision) -> Result<String, NoMemory> {
    match decision {
        Decision::Store(entry) => told_entry(alloc, entry),
        Decision::Bind(entry) => told_entry(alloc, entry),
        Decision::Rebind => Ok(format!(in alloc; "rebind")?),
        Decision::Skip => Ok(format!(in alloc; "skip")?),
        Decision::Ignore(reason) => told_reason(alloc, *reason),
        Decision::AskAgain(why) => told_why(alloc, *why),
        Decision::Reply => Ok(format!(in alloc; "reply")?),
        Decision::Heard => Ok(format!(in alloc; "heard")?),
        Decision::Refused => Ok(format!(in alloc; "refused")?),
        Decision::Stop { kept, seen } => Ok(format!(in alloc; "stop {kept} {seen}")?),
    }
}

fn told_entry(alloc: Global, entry: &Entry) -> Result<String, NoMemory> {
    match entry {
        Entry::Put { seq, message, mark } => {
            told_put(alloc, *seq, &message.subject, message.time, *mark)
        }
        Entry::Bind {
            index,
            incarnation,
            start,
        } => Ok(format!(in alloc; "bind {index} {incarnation} {start}")?),
        _ => Ok(format!(in alloc; "other")?),
    }
}

fn told_put(
    alloc: Global,
    seq: u64,
    subject: &Subject,
    time: u64,
    mark: Option<Mark>,
) -> Result<String, NoMemory> {
    let mut text = format!(in alloc; "store {seq} ")?;
    for byte in subject.bytes() {
        text.push(char::from(*byte))?;
    }
    let at = match mark {
        None => format!(in alloc; " at {time}")?,
        Some(Mark { index, seq }) => format!(in alloc; " at {time} of {index} {seq}")?,
    };
    text.push_str(at.as_str())?;
    Ok(text)
}

fn told_reason(alloc: Global, reason: Reason) -> Result<String, NoMemory> {
    match reason {
        Reason::Old { number, next } => Ok(format!(in alloc; "old {number} {next}")?),
        Reason::Foreign => Ok(format!(in alloc; "foreign")?),
        Reason::Back { seq, front } => Ok(format!(in alloc; "back {seq} {front}")?),
        Reason::Large { size } => Ok(format!(in alloc; "large {size}")?),
        Reason::SeqEnd => Ok(format!(in alloc; "end")?),
    }
}

fn told_why(alloc: Global, why: Why) -> Result<String, NoMemory> {
    let Why::Gap { expected, got } = why;
    Ok(format!(in alloc; "gap {expected} {got}")?)
}
