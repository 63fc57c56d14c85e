ghost use Rattle.std.specs.Prelude.{◌≡◌, ◌-◌, length, IfOk};
ghost use Rattle.record_codec.specs.Reading.{Gives, Decodes, IsFaultOf, reading, rec_at, fields_at, entry_at, put_at, del_at, purge_at, expire_at, bind_at, limits_at, boot_at, create_at, remove_at, of_at};
ghost use Rattle.record_codec.specs.Spelling.{IsSpeakable, spelling};

use crate::fault::Stop;
use crate::fields::{bad, headers_of, name_of, pattern_of, subject_of, text_of, u32_of, u64_of};
use crate::reading::{config_of, mark_of};
use crate::skimming::skim_rec;
use crate::{Rec, RecFault};
use nats_text::{Bytes, Message};
use std::alloc::Global;
use stream_fold::Entry;

/// Reads a record, all of the bytes. `Bad` comes exactly where they are not what `encode` writes of
/// some record, with the place of the first field that can't be read, or of the first byte behind a
/// whole record. A length or a count that the bytes don't back takes no memory.
///
/// `NoMemory` comes only where the bytes are a record: where memory ends among other bytes, they are
/// gone over once more without it, and told as `Bad`.
pub fn decode(alloc: Global, bytes: &[u8]) -> Result<Rec, RecFault>
    ensures exact { Decodes result (reading bytes.now) }
    ensures memory { result ≡ Err RecFault.NoMemory → (it : Rec) × (reading bytes.now ≡ Ok it) }

    // What is read is spelled so.
    ensures spelled { IfOk result (λ it. bytes.now ≡ spelling it) }
    ensures speakable { IfOk result (λ it. IsSpeakable it) }
{
    whole(alloc, bytes)
}

#[tactic(auto, unfolding(crate::specs::Reading::reading))]
fn whole(alloc: Global, bytes: &[u8]) -> Result<Rec, RecFault>
    ensures exact { Decodes result (reading bytes.now) }
    ensures memory { result ≡ Err RecFault.NoMemory → (it : Rec) × (reading bytes.now ≡ Ok it) }
{
    match rec_of(alloc, bytes) {
        Ok((it, rest)) => {
            if !rest.is_empty() {
                return Err(bad_at(bytes, rest.len()));
            }
            Ok(it)
        }
        Err(Stop::Bad { left }) => Err(bad_at(bytes, left)),
        Err(Stop::NoMemory) => Err(fault_without_memory(bytes)),
    }
}

// The first field that can't be read counts before the want of memory, wherever the memory ended.
#[tactic(auto, unfolding(crate::specs::Reading::reading))]
fn fault_without_memory(bytes: &[u8]) -> RecFault
    ensures { IsFaultOf result (reading bytes.now) }
{
    match skim_rec(bytes) {
        Ok([]) => RecFault::NoMemory,
        Ok(rest) => bad_at(bytes, rest.len()),
        Err(bad) => bad_at(bytes, bad.left),
    }
}

fn bad_at(bytes: &[u8], left: usize) -> RecFault
    ensures { result ≡ RecFault.Bad (length bytes.now - left) }
{
    RecFault::Bad {
        place: bytes.len().saturating_sub(left) as u64,
    }
}

#[tactic(auto, unfolding(crate::specs::Reading::rec_at))]
fn rec_of(alloc: Global, bytes: &[u8]) -> Result<(Rec, &[u8]), Stop>
    ensures { Gives (λ x. (x.0, x.1.now)) result (rec_at bytes.now) }
{
    let [kind, rest @ ..] = bytes else {
        return Err(bad(bytes));
    };
    match kind {
        1 => boot_of(rest),
        2 => create_of(alloc, rest),
        3 => remove_of(alloc, rest),
        4..=9 => change_of(alloc, *kind, rest),
        _ => Err(bad(bytes)),
    }
}

#[tactic(auto, unfolding(crate::specs::Reading::boot_at))]
fn boot_of(bytes: &[u8]) -> Result<(Rec, &[u8]), Stop>
    ensures { Gives (λ x. (x.0, x.1.now)) result (boot_at bytes.now) }
{
    let (boot, rest) = u64_of(bytes)?;
    Ok((Rec::Boot { boot }, rest))
}

#[tactic(auto, unfolding(crate::specs::Reading::create_at))]
fn create_of(alloc: Global, bytes: &[u8]) -> Result<(Rec, &[u8]), Stop>
    ensures { Gives (λ x. (x.0, x.1.now)) result (create_at bytes.now) }
{
    let (time, rest) = u64_of(bytes)?;
    let (config, rest) = config_of(alloc, rest)?;
    Ok((Rec::Create { time, config }, rest))
}

#[tactic(auto, unfolding(crate::specs::Reading::remove_at))]
fn remove_of(alloc: Global, bytes: &[u8]) -> Result<(Rec, &[u8]), Stop>
    ensures { Gives (λ x. (x.0, x.1.now)) result (remove_at bytes.now) }
{
    let (name, rest) = name_of(alloc, bytes)?;
    Ok((Rec::Remove { name }, rest))
}

#[tactic(auto, unfolding(crate::specs::Reading::of_at))]
fn change_of(alloc: Global, kind: u8, bytes: &[u8]) -> Result<(Rec, &[u8]), Stop>
    ensures { Gives (λ x. (x.0, x.1.now)) result (of_at kind bytes.now) }
{
    let (name, rest) = name_of(alloc, bytes)?;
    let (entry, rest) = entry_of(alloc, kind, rest)?;
    Ok((Rec::Of { name, entry }, rest))
}

// An entry of a kind from 4 to 9.
fn entry_of(alloc: Global, kind: u8, bytes: &[u8]) -> Result<(Entry, &[u8]), Stop>
    ensures { Gives (λ x. (x.0, x.1.now)) result (entry_at kind bytes.now) }
{
    match kind {
        4 => put_of(alloc, bytes),
        5 => del_of(bytes),
        6 => purge_of(alloc, bytes),
        7 => expire_of(bytes),
        8 => bind_of(bytes),
        _ => limits_of(alloc, bytes),
    }
}

#[tactic(auto, unfolding(crate::specs::Reading::put_at))]
fn put_of(alloc: Global, bytes: &[u8]) -> Result<(Entry, &[u8]), Stop>
    ensures { Gives (λ x. (x.0, x.1.now)) result (put_at bytes.now) }
{
    let (seq, rest) = u64_of(bytes)?;
    let (time, rest) = u64_of(rest)?;
    let (mark, rest) = mark_of(rest)?;
    let (subject, rest) = subject_of(alloc, rest)?;
    let (headers, rest) = headers_of(alloc, rest)?;
    let (payload, rest) = text_of(rest)?;
    let message = Message {
        subject,
        headers,
        payload: Bytes::from_slice(alloc, payload)?,
        time,
    };
    Ok((Entry::Put { seq, message, mark }, rest))
}

#[tactic(auto, unfolding(crate::specs::Reading::del_at))]
fn del_of(bytes: &[u8]) -> Result<(Entry, &[u8]), Stop>
    ensures { Gives (λ x. (x.0, x.1.now)) result (del_at bytes.now) }
{
    let (seq, rest) = u64_of(bytes)?;
    Ok((Entry::Del { seq }, rest))
}

#[tactic(auto, unfolding(crate::specs::Reading::purge_at))]
fn purge_of(alloc: Global, bytes: &[u8]) -> Result<(Entry, &[u8]), Stop>
    ensures { Gives (λ x. (x.0, x.1.now)) result (purge_at bytes.now) }
{
    let (pattern, rest) = pattern_of(alloc, bytes)?;
    let (below, rest) = u64_of(rest)?;
    Ok((Entry::Purge { pattern, below }, rest))
}

#[tactic(auto, unfolding(crate::specs::Reading::expire_at))]
fn expire_of(bytes: &[u8]) -> Result<(Entry, &[u8]), Stop>
    ensures { Gives (λ x. (x.0, x.1.now)) result (expire_at bytes.now) }
{
    let (now, rest) = u64_of(bytes)?;
    Ok((Entry::Expire { now }, rest))
}

#[tactic(auto, unfolding(crate::specs::Reading::bind_at))]
fn bind_of(bytes: &[u8]) -> Result<(Entry, &[u8]), Stop>
    ensures { Gives (λ x. (x.0, x.1.now)) result (bind_at bytes.now) }
{
    let (index, rest) = u32_of(bytes)?;
    let (incarnation, rest) = u64_of(rest)?;
    let (start, rest) = u64_of(rest)?;
    let bind = Entry::Bind {
        index,
        incarnation,
        start,
    };
    Ok((bind, rest))
}

#[tactic(auto, unfolding(crate::specs::Reading::limits_at))]
fn limits_of(alloc: Global, bytes: &[u8]) -> Result<(Entry, &[u8]), Stop>
    ensures { Gives (λ x. (x.0, x.1.now)) result (limits_at bytes.now) }
{
    let (config, rest) = config_of(alloc, bytes)?;
    Ok((Entry::Limits { config }, rest))
}
