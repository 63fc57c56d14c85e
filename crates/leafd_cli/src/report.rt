ghost use Rattle.std.specs.Prelude.{◌≡◌, ◌++◌, ◌∷◌, [], IfOk, OnOk};
ghost use Rattle.std.specs.List.{flat_map};
ghost use Rattle.std.specs.Option.{option_copied};
ghost use Rattle.leafd_cli.specs.Effects.{counted};
ghost use Rattle.leafd_cli.specs.Report.{log_title, answer, answer_if, row_text, message_text, pair_text, pairs_text, origins_text, front_text, node_text, title_text, numbers_text, counts_text, head_text, show_text, logged_mark, logged_entry, log_text, streams_on, heads_text};

use crate::stream::Stream;
use crate::texts::{push_counted, push_hex, push_number, push_text};
use nats_text::{Message, Name, NoMemory, Origin, Pair};
use std::alloc::Global;
use stream_fold::{Copies, Entry, Mark, Numbered};

/// An answer, unless answers are no more printed.
pub fn answer(alloc: Global, quiet: bool, number: u64, text: &[u8]) -> Result<Vec<u8>, NoMemory>
    ensures { IfOk result (λ report. report.items ≡ answer_if quiet number text.now) }
{
    let mut report = Vec::new(alloc);
    if quiet {
        return Ok(report);
    }
    push_answer(&mut report, number, text)?;
    Ok(report)
}

fn push_answer(report: &mut Vec<u8>, number: u64, text: &[u8]) -> Result<(), NoMemory>
    ensures { OnOk result (report.new.items ≡ report.old.items ++ answer number text.now) }
{
    push_number(report, number)?;
    push_text(report, b" ")?;
    push_text(report, text)?;
    push_text(report, b"\n")
}

/// What `show` prints.
pub fn show_text(alloc: Global, stream: Option<&Stream>) -> Result<Vec<u8>, NoMemory>
    ensures { IfOk result (λ report. report.items ≡ show_text (option_copied stream.entry)) }
{
    let mut report = Vec::new(alloc);
    if let Some(stream) = stream {
        push_head(&mut report, stream)?;
        push_rows(alloc, &mut report, stream.rows())?;
    }
    Ok(report)
}

/// What `log` prints.
pub fn log_text(alloc: Global, stream: Option<&Stream>) -> Result<Vec<u8>, NoMemory>
    ensures { IfOk result (λ report. report.items ≡ log_text (option_copied stream.entry)) }
{
    let mut report = Vec::new(alloc);
    if let Some(stream) = stream {
        push_log_title(&mut report, stream)?;
        push_entries(alloc, &mut report, stream.log())?;
    }
    Ok(report)
}

fn push_log_title(report: &mut Vec<u8>, stream: &Stream) -> Result<(), NoMemory>
    ensures { OnOk result (report.new.items ≡ report.old.items ++ log_title stream.now) }
{
    push_text(report, b"log ")?;
    push_text(report, stream.node().bytes())?;
    push_text(report, b" ")?;
    push_counted(
        report,
        stream.config().name.bytes(),
        stream.log().len() as u64,
    )?;
    push_text(report, b"\n")
}

fn push_entries(alloc: Global, report: &mut Vec<u8>, entries: &[Entry]) -> Result<(), NoMemory>
    ensures { OnOk result (report.new.items ≡ report.old.items ++ flat_map logged_entry entries.now) }
{
    for entry in entries {
        push_entry(alloc, report, entry)?;
    }
    Ok(())
}

fn push_entry(alloc: Global, report: &mut Vec<u8>, entry: &Entry) -> Result<(), NoMemory>
    ensures { OnOk result (report.new.items ≡ report.old.items ++ logged_entry entry.now) }
{
    match entry {
        Entry::Put { seq, message, mark } => push_put(alloc, report, *seq, message, mark),
        Entry::Del { seq } => push_line(report, b"del", *seq),
        Entry::Purge { pattern, below } => {
            push_text(report, b"purge ")?;
            push_line(report, pattern.bytes(), *below)
        }
        Entry::Expire { now } => push_line(report, b"expire", *now),
        Entry::Bind {
            index,
            incarnation,
            start,
        } => {
            push_counted(report, b"bind", *index as u64)?;
            push_text(report, b" ")?;
            push_number(report, *incarnation)?;
            push_text(report, b" ")?;
            push_number(report, *start)?;
            push_text(report, b"\n")
        }
        Entry::Limits { .. } => push_text(report, b"limits\n"),
    }
}

/// A word, a space, a number and a line feed.
fn push_line(report: &mut Vec<u8>, word: &[u8], number: u64) -> Result<(), NoMemory>
    ensures { OnOk result (report.new.items ≡ report.old.items ++ (counted word.now number ++ 10 ∷ [])) }
{
    push_counted(report, word, number)?;
    push_text(report, b"\n")
}

fn push_put(
    alloc: Global,
    report: &mut Vec<u8>,
    seq: u64,
    message: &Message,
    mark: &Option<Mark>,
) -> Result<(), NoMemory>
    ensures { OnOk result (report.new.items ≡ report.old.items ++ logged_entry (Entry.Put seq message.now mark.now)) }
{
    push_text(report, b"put ")?;
    push_message(alloc, report, seq, message)?;
    push_mark(report, mark)?;
    push_text(report, b"\n")?;
    push_pairs(report, message.headers.pairs())
}

fn push_mark(report: &mut Vec<u8>, mark: &Option<Mark>) -> Result<(), NoMemory>
    ensures { OnOk result (report.new.items ≡ report.old.items ++ logged_mark mark.now) }
{
    match mark {
        None => Ok(()),
        Some(mark) => {
            push_counted(report, b" mark", mark.index as u64)?;
            push_text(report, b" ")?;
            push_number(report, mark.seq)
        }
    }
}

/// The number, the time, the subject and the payload.
fn push_message(
    alloc: Global,
    report: &mut Vec<u8>,
    seq: u64,
    message: &Message,
) -> Result<(), NoMemory>
    ensures { OnOk result (report.new.items ≡ report.old.items ++ message_text seq message.now) }
{
    push_number(report, seq)?;
    push_text(report, b" ")?;
    push_number(report, message.time)?;
    push_text(report, b" ")?;
    push_text(report, message.subject.bytes())?;
    push_text(report, b" ")?;
    push_hex(alloc, report, message.payload.as_slice())
}

fn push_pairs(report: &mut Vec<u8>, pairs: &[Pair]) -> Result<(), NoMemory>
    ensures { OnOk result (report.new.items ≡ report.old.items ++ flat_map pair_text pairs.now) }
{
    for pair in pairs {
        push_pair(report, pair)?;
    }
    Ok(())
}

fn push_pair(report: &mut Vec<u8>, pair: &Pair) -> Result<(), NoMemory>
    ensures { OnOk result (report.new.items ≡ report.old.items ++ pair_text pair.now) }
{
    push_text(report, b"  ")?;
    push_text(report, pair.name.as_slice())?;
    push_text(report, b": ")?;
    push_text(report, pair.value.as_slice())?;
    push_text(report, b"\n")
}

fn push_row(alloc: Global, report: &mut Vec<u8>, row: &Numbered) -> Result<(), NoMemory>
    ensures { OnOk result (report.new.items ≡ report.old.items ++ row_text row.now) }
{
    push_message(alloc, report, row.seq, &row.message)?;
    push_text(report, b"\n")?;
    push_pairs(report, row.message.headers.pairs())
}

/// The messages that are kept.
pub fn push_rows(alloc: Global, report: &mut Vec<u8>, rows: &[Numbered]) -> Result<(), NoMemory>
    ensures { OnOk result (report.new.items ≡ report.old.items ++ flat_map row_text rows.now) }
{
    for row in rows {
        push_row(alloc, report, row)?;
    }
    Ok(())
}

/// What `heads` prints: how far each stream has come, node by node.
pub fn heads_text(alloc: Global, nodes: &[Name], streams: &[Stream]) -> Result<Vec<u8>, NoMemory>
    ensures { IfOk result (λ report. report.items ≡ heads_text nodes.now streams.now) }
{
    let mut report = Vec::new(alloc);
    for node in nodes {
        push_heads_on(&mut report, streams, node)?;
    }
    Ok(report)
}

fn push_heads_on(report: &mut Vec<u8>, streams: &[Stream], node: &Name) -> Result<(), NoMemory>
    ensures { OnOk result (report.new.items ≡ report.old.items ++ flat_map head_text (streams_on streams.now node.now)) }
{
    for stream in streams {
        if stream.is_on(node) {
            push_head(report, stream)?;
        }
    }
    Ok(())
}

fn push_head(report: &mut Vec<u8>, stream: &Stream) -> Result<(), NoMemory>
    ensures { OnOk result (report.new.items ≡ report.old.items ++ head_text stream.now) }
{
    push_title(report, stream)?;
    push_counts(report, stream)?;
    push_origins(report, stream)
}

fn push_title(report: &mut Vec<u8>, stream: &Stream) -> Result<(), NoMemory>
    ensures { OnOk result (report.new.items ≡ report.old.items ++ title_text stream.now) }
{
    push_text(report, b"stream ")?;
    push_text(report, stream.node().bytes())?;
    push_text(report, b" ")?;
    push_text(report, stream.config().name.bytes())
}

fn push_counts(report: &mut Vec<u8>, stream: &Stream) -> Result<(), NoMemory>
    ensures { OnOk result (report.new.items ≡ report.old.items ++ counts_text stream.now) }
{
    push_numbers(report, stream.first(), stream.last(), stream.count())
}

/// The first and last number, and how many messages are kept.
pub fn push_numbers(report: &mut Vec<u8>, first: u64, last: u64, count: u64) -> Result<(), NoMemory>
    ensures { OnOk result (report.new.items ≡ report.old.items ++ numbers_text first last count) }
{
    push_text(report, b" first ")?;
    push_number(report, first)?;
    push_text(report, b" last ")?;
    push_number(report, last)?;
    push_text(report, b" kept ")?;
    push_number(report, count)?;
    push_text(report, b"\n")
}

fn push_origins(report: &mut Vec<u8>, stream: &Stream) -> Result<(), NoMemory>
    ensures { OnOk result (report.new.items ≡ report.old.items ++ origins_text stream.now stream.now.config.copies) }
{
    match &stream.config().copies {
        Copies::Nothing => Ok(()),
        Copies::Sources(_) => Ok(()),
        Copies::Mirror(want) => push_front(report, want, stream.front(want)),
    }
}

fn push_front(report: &mut Vec<u8>, want: &Origin, front: u64) -> Result<(), NoMemory>
    ensures { OnOk result (report.new.items ≡ report.old.items ++ front_text want.now front) }
{
    push_text(report, b"from ")?;
    push_node(report, want)?;
    push_text(report, b" ")?;
    push_text(report, want.stream.bytes())?;
    push_text(report, b" front ")?;
    push_number(report, front)?;
    push_text(report, b"\n")
}

fn push_node(report: &mut Vec<u8>, want: &Origin) -> Result<(), NoMemory>
    ensures { OnOk result (report.new.items ≡ report.old.items ++ node_text want.now.node) }
{
    match &want.node {
        None => Ok(()),
        Some(node) => push_text(report, node.bytes()),
    }
}
