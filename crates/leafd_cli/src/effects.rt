ghost use Rattle.std.specs.Prelude.{◌≡◌, ◌+◌, ◌<◌, ◌^◌, ◌==◌, IfOk, unwrap_or, count_by, nat_le, codes, Ok, Err};
ghost use Rattle.stream_fold.specs.Histories.{last, is_purged, is_expired, kept};
ghost use Rattle.stream_fold.specs.Publishing.{verdict, GivesVerdict};
ghost use Rattle.leafd_cli.specs.Logs.{history_of, limits_of};
ghost use Rattle.leafd_cli.specs.Legal.{with_changes, changed_to};
ghost use Rattle.leafd_cli.specs.Effects.{answers, makes, counted, refusal_text, stored, published, publish_effect, delete_effect, taking, purge_effect, expire_effect, effect, message_of};

use crate::operation::{Effect, Operation};
use crate::stream::Stream;
use crate::texts::counted;
use leafd_script::Changes;
use nats_text::{Bytes, Headers, Message, NoMemory, Pattern, Subject, TextFault, matches};
use std::alloc::Global;
use stream_fold::{Config, Discard, Entry, Numbered, Refusal, Verdict};

/// What an operation on a stream makes at a moment, and what it is answered.
pub fn effect(
    alloc: Global,
    now: u64,
    operation: Operation,
    stream: &Stream,
) -> Result<Effect, NoMemory>
    ensures { IfOk result (λ e. e ≡ effect now operation stream.now) }
{
    match operation {
        Operation::Publish {
            subject,
            headers,
            text,
        } => {
            let message = message_of(now, subject, headers, text, stream);
            publish_effect(alloc, now, message, stream)
        }
        Operation::Delete { seq } => delete_effect(alloc, seq, stream),
        Operation::Purge { pattern, below } => {
            let pattern = pattern_or_all(alloc, pattern)?;
            purge_effect(alloc, pattern, below_or_all(below, stream), stream)
        }
        Operation::Expire => expire_effect(alloc, now, stream),
        Operation::Update { changes } => {
            let config = with_changes(&changes, stream.limits())?;
            makes(alloc, Entry::Limits { config }, b"updated")
        }
    }
}

fn answers(alloc: Global, text: &[u8]) -> Result<Effect, NoMemory>
    ensures { IfOk result (λ e. e ≡ answers text.now) }
{
    let answer = Bytes::from_slice(alloc, text)?;
    Ok(Effect {
        entry: None,
        answer,
    })
}

fn makes(alloc: Global, entry: Entry, text: &[u8]) -> Result<Effect, NoMemory>
    ensures { IfOk result (λ e. e ≡ makes entry text.now) }
{
    match Bytes::from_slice(alloc, text) {
        Ok(answer) => Ok(Effect {
            entry: Some(entry),
            answer,
        }),
        Err(NoMemory) => {
            drop(entry);
            Err(NoMemory)
        }
    }
}

fn message_of(now: u64, subject: Subject, headers: Headers, text: Bytes, stream: &Stream) -> Message
    ensures { result ≡ message_of now subject headers text stream.now }
{
    Message {
        subject,
        headers,
        payload: text,
        time: now.max(stream.clock()),
    }
}

fn publish_effect(
    alloc: Global,
    now: u64,
    message: Message,
    stream: &Stream,
) -> Result<Effect, NoMemory>
    ensures { IfOk result (λ e. e ≡ publish_effect now message stream.now) }
{
    match not_stored(alloc, now, &message, stream) {
        Ok(None) => stored(alloc, message, stream),
        Ok(Some(effect)) => {
            drop(message);
            Ok(effect)
        }
        Err(NoMemory) => {
            drop(message);
            Err(NoMemory)
        }
    }
}

/// What becomes of a publish that stores nothing, `None` where the message is stored.
fn not_stored(
    alloc: Global,
    now: u64,
    message: &Message,
    stream: &Stream,
) -> Result<Option<Effect>, NoMemory>
    ensures { IfOk result (λ found. publish_effect now message.now stream.now ≡ unwrap_or found (stored message.now stream.now)) }
{
    if !stream.takes(&message.subject) {
        let effect = answers(alloc, b"refused NoStream")?;
        return Ok(Some(effect));
    }
    match stream.check(alloc, message, now) {
        Ok(Verdict::Fresh) => Ok(None),
        Ok(Verdict::Duplicate { seq }) => {
            let effect = repeated(alloc, seq)?;
            Ok(Some(effect))
        }
        Err(refusal) => {
            let effect = refused(alloc, &refusal)?;
            Ok(Some(effect))
        }
    }
}

fn stored(alloc: Global, message: Message, stream: &Stream) -> Result<Effect, NoMemory>
    ensures { IfOk result (λ e. e ≡ stored message stream.now) }
{
    let seq = stream.last() + 1;
    match counted(alloc, b"stored", seq) {
        Ok(answer) => Ok(Effect {
            entry: Some(Entry::Put {
                seq,
                message,
                mark: None,
            }),
            answer,
        }),
        Err(NoMemory) => {
            drop(message);
            Err(NoMemory)
        }
    }
}

fn repeated(alloc: Global, seq: u64) -> Result<Effect, NoMemory>
    ensures { IfOk result (λ e. e ≡ answers (counted (codes "duplicate") seq)) }
{
    let answer = counted(alloc, b"duplicate", seq)?;
    Ok(Effect {
        entry: None,
        answer,
    })
}

fn refused(alloc: Global, refusal: &Refusal) -> Result<Effect, NoMemory>
    ensures text { IfOk result (λ e. e ≡ answers (refusal_text refusal.now)) }
    ensures memory { IfOk result (λ e. refusal.now ≡ Refusal.NoMemory → ⊥) }
{
    let answer = refusal_text(alloc, refusal)?;
    Ok(Effect {
        entry: None,
        answer,
    })
}

/// The name of a refusal, and its first number where it has one. Want of memory has none.
fn refusal_text(alloc: Global, refusal: &Refusal) -> Result<Bytes, NoMemory>
    ensures text { IfOk result (λ text. text ≡ refusal_text refusal.now) }
    ensures memory { IfOk result (λ text. refusal.now ≡ Refusal.NoMemory → ⊥) }
{
    match refusal {
        Refusal::IsMirror => Bytes::from_slice(alloc, b"refused IsMirror"),
        Refusal::BadHeader { .. } => Bytes::from_slice(alloc, b"refused BadHeader"),
        Refusal::WrongStream => Bytes::from_slice(alloc, b"refused WrongStream"),
        Refusal::WrongLast { kept } => counted(alloc, b"refused WrongLast", *kept),
        Refusal::WrongSubjectLast { kept } => counted(alloc, b"refused WrongSubjectLast", *kept),
        Refusal::TooLarge { size, .. } => counted(alloc, b"refused TooLarge", *size),
        Refusal::SeqEnd => Bytes::from_slice(alloc, b"refused SeqEnd"),
        Refusal::Full { count, .. } => counted(alloc, b"refused Full", *count),
        Refusal::NoMemory => Err(NoMemory),
    }
}

fn delete_effect(alloc: Global, seq: u64, stream: &Stream) -> Result<Effect, NoMemory>
    ensures { IfOk result (λ e. e ≡ delete_effect seq stream.now) }
{
    if stream.has(seq) {
        makes(alloc, Entry::Del { seq }, b"deleted")
    } else {
        answers(alloc, b"refused NoMessage")
    }
}

/// All subjects where no pattern is named.
fn pattern_or_all(alloc: Global, pattern: Option<Pattern>) -> Result<Pattern, NoMemory>
    ensures { IfOk result (λ p. p ≡ changed_to (codes ">") pattern) }
{
    match pattern {
        Some(pattern) => Ok(pattern),
        None => all_subjects(alloc),
    }
}

fn all_subjects(alloc: Global) -> Result<Pattern, NoMemory>
    ensures { IfOk result (λ p. p ≡ codes ">") }
{
    match Pattern::read(alloc, b">") {
        Ok(pattern) => Ok(pattern),
        Err(_) => Err(NoMemory),
    }
}

/// The number past the last where none is named.
fn below_or_all(below: Option<u64>, stream: &Stream) -> u64
    ensures { result ≡ changed_to (last stream.now.entries + 1) below }
{
    match below {
        Some(below) => below,
        None => stream.last() + 1,
    }
}

fn purge_effect(
    alloc: Global,
    pattern: Pattern,
    below: u64,
    stream: &Stream,
) -> Result<Effect, NoMemory>
    ensures { IfOk result (λ e. e ≡ purge_effect pattern below stream.now) }
{
    let count = purged_count(stream.rows(), &pattern, below);
    taking(
        alloc,
        count as u64,
        Entry::Purge { pattern, below },
        b"purged",
    )
}

fn expire_effect(alloc: Global, now: u64, stream: &Stream) -> Result<Effect, NoMemory>
    ensures { IfOk result (λ e. e ≡ expire_effect now stream.now) }
{
    let count = expired_count(stream.rows(), stream.limits().max_age, now);
    taking(alloc, count as u64, Entry::Expire { now }, b"expired")
}

/// An entry that takes so many messages away, unless there are none.
fn taking(alloc: Global, count: u64, entry: Entry, word: &[u8]) -> Result<Effect, NoMemory>
    ensures { IfOk result (λ e. e ≡ taking count entry (counted word.now count)) }
{
    let answer = match counted(alloc, word, count) {
        Ok(answer) => answer,
        Err(NoMemory) => {
            drop(entry);
            return Err(NoMemory);
        }
    };
    if count == 0 {
        drop(entry);
        return Ok(Effect {
            entry: None,
            answer,
        });
    }
    Ok(Effect {
        entry: Some(entry),
        answer,
    })
}

fn purged_count(rows: &[Numbered], pattern: &Pattern, below: u64) -> usize
    ensures { result ≡ count_by (is_purged pattern.now below) rows.now }
{
    rows.iter()
        .filter(|row| is_purged(row, pattern, below))
        .count()
}

fn is_purged(row: &Numbered, pattern: &Pattern, below: u64) -> bool
    ensures { result ≡ is_purged pattern.now below row.now }
{
    row.seq < below && matches(pattern, &row.message.subject)
}

fn expired_count(rows: &[Numbered], max_age: u64, now: u64) -> usize
    ensures { result ≡ count_by (is_expired max_age now) rows.now }
{
    rows.iter()
        .filter(|row| is_expired(row, max_age, now))
        .count()
}

fn is_expired(row: &Numbered, max_age: u64, now: u64) -> bool
    ensures { result ≡ is_expired max_age now row.now }
{
    max_age != 0 && is_older(row.message.time, max_age, now)
}

/// Whether so much time has passed since the moment.
fn is_older(moment: u64, age: u64, now: u64) -> bool
    ensures { result ≡ nat_le (moment + age) now }
{
    match moment.checked_add(age) {
        Some(end) => end <= now,
        None => false,
    }
}

/// A configuration with the limits that a line names.
pub fn with_changes(changes: &Changes, config: &Config) -> Result<Config, NoMemory>
    ensures { IfOk result (λ c. c ≡ with_changes changes.now config.now) }
{
    let mut changed = config.clone()?;
    changed.max_msgs = changed_to(config.max_msgs, changes.max_msgs);
    changed.max_bytes = changed_to(config.max_bytes, changes.max_bytes);
    changed.max_age = changed_to(config.max_age, changes.max_age);
    changed.max_per_subject = changed_to(config.max_per_subject, changes.max_per_subject);
    changed.max_msg_size = changed_to(config.max_msg_size, changes.max_msg_size);
    changed.discard = discard_changed_to(config.discard, changes.discard);
    Ok(changed)
}

fn changed_to(old: u64, new: Option<u64>) -> u64
    ensures { result ≡ changed_to old new }
{
    match new {
        Some(new) => new,
        None => old,
    }
}

fn discard_changed_to(old: Discard, new: Option<Discard>) -> Discard
    ensures { result ≡ changed_to old new }
{
    match new {
        Some(new) => new,
        None => old,
    }
}
