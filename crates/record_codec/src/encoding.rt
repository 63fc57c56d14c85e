ghost use Rattle.std.specs.Prelude.{◌≡◌, ◌++◌, OnOk, OnErr};
ghost use Rattle.nats_text.specs.Headers.{Extends};
ghost use Rattle.record_codec.specs.Reading.{reading};
ghost use Rattle.record_codec.specs.Spelling.{IsEntry, IsPut, IsSpeakable, entry_text, kind_of, put_text, spelling};

use crate::Rec;
use crate::writing::{
    put_config, put_headers, put_mark, put_name, put_pattern, put_subject, put_text, put_u32,
    put_u64,
};
use nats_text::{Message, NoMemory};
use stream_fold::{Entry, Mark};

/// Adds the record at the end. `NoMemory` comes too where a text is of 2^32 bytes or more, or a list of
/// so many items; the buffer then holds the bytes that it held.
pub fn encode(rec: &Rec, buf: &mut Vec<u8>) -> Result<(), NoMemory>
    ensures ok { OnOk result (buf.new.items ≡ buf.old.items ++ spelling rec.now) }
    ensures speakable { OnOk result (IsSpeakable rec.now) }

    // What is written is read again.
    ensures again { OnOk result (reading (spelling rec.now) ≡ Ok rec.now) }
    ensures err { OnErr result (buf.new.items ≡ buf.old.items) }
{
    let start = buf.len();
    let outcome = put_rec(buf, rec);
    if outcome.is_err() {
        buf.truncate(start);
    }
    outcome
}

#[tactic(auto, unfolding(crate::specs::Spelling::spelling))]
fn put_rec(buf: &mut Vec<u8>, rec: &Rec) -> Result<(), NoMemory>
    ensures ok { OnOk result (buf.new.items ≡ buf.old.items ++ spelling rec.now) }
    ensures speakable { OnOk result (IsSpeakable rec.now) }
    ensures err { OnErr result (Extends buf.old.items buf.new.items) }
{
    match rec {
        Rec::Boot { boot } => {
            buf.push(1)?;
            put_u64(buf, *boot)
        }
        Rec::Create { time, config } => {
            buf.push(2)?;
            put_u64(buf, *time)?;
            put_config(buf, config)
        }
        Rec::Remove { name } => {
            buf.push(3)?;
            put_name(buf, name)
        }
        Rec::Of { name, entry } => {
            buf.push(kind_of(entry))?;
            put_name(buf, name)?;
            put_entry(buf, entry)
        }
    }
}

fn kind_of(entry: &Entry) -> u8
    ensures { result ≡ kind_of entry.now }
{
    match entry {
        Entry::Put { .. } => 4,
        Entry::Del { .. } => 5,
        Entry::Purge { .. } => 6,
        Entry::Expire { .. } => 7,
        Entry::Bind { .. } => 8,
        Entry::Limits { .. } => 9,
    }
}

#[tactic(auto, unfolding(crate::specs::Spelling::entry_text))]
fn put_entry(buf: &mut Vec<u8>, entry: &Entry) -> Result<(), NoMemory>
    ensures ok { OnOk result (buf.new.items ≡ buf.old.items ++ entry_text entry.now) }
    ensures speakable { OnOk result (IsEntry entry.now) }
    ensures err { OnErr result (Extends buf.old.items buf.new.items) }
{
    match entry {
        Entry::Put { seq, message, mark } => put_message(buf, *seq, message, *mark),
        Entry::Del { seq } => put_u64(buf, *seq),
        Entry::Purge { pattern, below } => {
            put_pattern(buf, pattern)?;
            put_u64(buf, *below)
        }
        Entry::Expire { now } => put_u64(buf, *now),
        Entry::Bind {
            index,
            incarnation,
            start,
        } => {
            put_u32(buf, *index)?;
            put_u64(buf, *incarnation)?;
            put_u64(buf, *start)
        }
        Entry::Limits { config } => put_config(buf, config),
    }
}

#[tactic(auto, unfolding(crate::specs::Spelling::put_text))]
fn put_message(
    buf: &mut Vec<u8>,
    seq: u64,
    message: &Message,
    mark: Option<Mark>,
) -> Result<(), NoMemory>
    ensures ok { OnOk result (buf.new.items ≡ buf.old.items ++ put_text seq message.now mark) }
    ensures speakable { OnOk result (IsPut seq message.now mark) }
    ensures err { OnErr result (Extends buf.old.items buf.new.items) }
{
    put_u64(buf, seq)?;
    put_u64(buf, message.time)?;
    put_mark(buf, mark)?;
    put_subject(buf, &message.subject)?;
    put_headers(buf, &message.headers)?;
    put_text(buf, message.payload.as_slice())?;
    Ok(())
}
