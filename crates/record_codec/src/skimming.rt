//! Records and their parts, gone over without memory: each function answers the bytes behind its part,
//! exactly where the reader of the same name reads it.
ghost use Rattle.record_codec.specs.Reading.{Skims, u32_at, u64_at, text_at, name_at, subject_at, pattern_at, headers_at, option_at, mark_at, mapping_at, start_at, origin_at, discard_at, copies_at, config_at, put_at, purge_at, bind_at, entry_at, create_at, of_at, rec_at};

use crate::fault::BadField;
use crate::fields::{bad_field, text_of, u32_of, u64_of};
use crate::items::{skim_list, skim_option};
use crate::reading::{discard_of, mark_of, start_of};
use nats_text::{Headers, Mapping, Name, Origin, Pattern, Subject};

fn skim_u32(bytes: &[u8]) -> Result<&[u8], BadField>
    ensures { Skims result (u32_at bytes.now) }
{
    let (_, rest) = u32_of(bytes)?;
    Ok(rest)
}

fn skim_u64(bytes: &[u8]) -> Result<&[u8], BadField>
    ensures { Skims result (u64_at bytes.now) }
{
    let (_, rest) = u64_of(bytes)?;
    Ok(rest)
}

fn skim_text(bytes: &[u8]) -> Result<&[u8], BadField>
    ensures { Skims result (text_at bytes.now) }
{
    let (_, rest) = text_of(bytes)?;
    Ok(rest)
}

#[tactic(auto, unfolding(crate::specs::Reading::legal_at))]
pub(crate) fn skim_name(bytes: &[u8]) -> Result<&[u8], BadField>
    ensures { Skims result (name_at bytes.now) }
{
    let (text, rest) = text_of(bytes)?;
    if Name::legal(text) {
        Ok(rest)
    } else {
        Err(bad_field(bytes))
    }
}

#[tactic(auto, unfolding(crate::specs::Reading::legal_at))]
fn skim_subject(bytes: &[u8]) -> Result<&[u8], BadField>
    ensures { Skims result (subject_at bytes.now) }
{
    let (text, rest) = text_of(bytes)?;
    if Subject::legal(text) {
        Ok(rest)
    } else {
        Err(bad_field(bytes))
    }
}

#[tactic(auto, unfolding(crate::specs::Reading::legal_at))]
pub(crate) fn skim_pattern(bytes: &[u8]) -> Result<&[u8], BadField>
    ensures { Skims result (pattern_at bytes.now) }
{
    let (text, rest) = text_of(bytes)?;
    if Pattern::legal(text) {
        Ok(rest)
    } else {
        Err(bad_field(bytes))
    }
}

#[tactic(auto, unfolding(crate::specs::Reading::headers_at))]
fn skim_headers(bytes: &[u8]) -> Result<&[u8], BadField>
    ensures { Skims result (headers_at bytes.now) }
{
    let (text, rest) = text_of(bytes)?;
    if Headers::is_written(text) {
        Ok(rest)
    } else {
        Err(bad_field(bytes))
    }
}

fn skim_mark(bytes: &[u8]) -> Result<&[u8], BadField>
    ensures { Skims result (option_at mark_at bytes.now) }
{
    let (_, rest) = mark_of(bytes)?;
    Ok(rest)
}

#[tactic(auto, unfolding(crate::specs::Reading::mapping_at))]
pub(crate) fn skim_mapping(bytes: &[u8]) -> Result<&[u8], BadField>
    ensures { Skims result (mapping_at bytes.now) }
{
    let rest = skim_text(bytes)?;
    skim_text(rest)
}

fn skim_start(bytes: &[u8]) -> Result<&[u8], BadField>
    ensures { Skims result (start_at bytes.now) }
{
    let (_, rest) = start_of(bytes)?;
    Ok(rest)
}

#[tactic(auto, unfolding(crate::specs::Reading::origin_at))]
pub(crate) fn skim_origin(bytes: &[u8]) -> Result<&[u8], BadField>
    ensures { Skims result (origin_at bytes.now) }
{
    let rest = skim_option::<Name>(bytes)?;
    let rest = skim_name(rest)?;
    let rest = skim_start(rest)?;
    let rest = skim_option::<Pattern>(rest)?;
    skim_list::<Mapping>(rest)
}

fn skim_discard(bytes: &[u8]) -> Result<&[u8], BadField>
    ensures { Skims result (discard_at bytes.now) }
{
    let (_, rest) = discard_of(bytes)?;
    Ok(rest)
}

#[tactic(auto, unfolding(crate::specs::Reading::copies_at))]
fn skim_copies(bytes: &[u8]) -> Result<&[u8], BadField>
    ensures { Skims result (copies_at bytes.now) }
{
    match bytes {
        [0, rest @ ..] => Ok(rest),
        [1, rest @ ..] => skim_origin(rest),
        [2, rest @ ..] => skim_list::<Origin>(rest),
        _ => Err(bad_field(bytes)),
    }
}

#[tactic(auto, unfolding(crate::specs::Reading::config_at))]
fn skim_config(bytes: &[u8]) -> Result<&[u8], BadField>
    ensures { Skims result (config_at bytes.now) }
{
    let rest = skim_name(bytes)?;
    let rest = skim_list::<Pattern>(rest)?;
    let rest = skim_u64(rest)?;
    let rest = skim_u64(rest)?;
    let rest = skim_u64(rest)?;
    let rest = skim_u64(rest)?;
    let rest = skim_u64(rest)?;
    let rest = skim_discard(rest)?;
    let rest = skim_u64(rest)?;
    let rest = skim_option::<Mapping>(rest)?;
    skim_copies(rest)
}

#[tactic(auto, unfolding(crate::specs::Reading::put_at))]
fn skim_put(bytes: &[u8]) -> Result<&[u8], BadField>
    ensures { Skims result (put_at bytes.now) }
{
    let rest = skim_u64(bytes)?;
    let rest = skim_u64(rest)?;
    let rest = skim_mark(rest)?;
    let rest = skim_subject(rest)?;
    let rest = skim_headers(rest)?;
    skim_text(rest)
}

#[tactic(auto, unfolding(crate::specs::Reading::purge_at))]
fn skim_purge(bytes: &[u8]) -> Result<&[u8], BadField>
    ensures { Skims result (purge_at bytes.now) }
{
    let rest = skim_pattern(bytes)?;
    skim_u64(rest)
}

#[tactic(auto, unfolding(crate::specs::Reading::bind_at))]
fn skim_bind(bytes: &[u8]) -> Result<&[u8], BadField>
    ensures { Skims result (bind_at bytes.now) }
{
    let rest = skim_u32(bytes)?;
    let rest = skim_u64(rest)?;
    skim_u64(rest)
}

// An entry of a kind from 4 to 9.
#[tactic(auto, unfolding(crate::specs::Reading::del_at, crate::specs::Reading::expire_at, crate::specs::Reading::limits_at))]
fn skim_entry(kind: u8, bytes: &[u8]) -> Result<&[u8], BadField>
    ensures { Skims result (entry_at kind bytes.now) }
{
    match kind {
        4 => skim_put(bytes),
        5 | 7 => skim_u64(bytes),
        6 => skim_purge(bytes),
        8 => skim_bind(bytes),
        _ => skim_config(bytes),
    }
}

#[tactic(auto, unfolding(crate::specs::Reading::create_at))]
fn skim_create(bytes: &[u8]) -> Result<&[u8], BadField>
    ensures { Skims result (create_at bytes.now) }
{
    let rest = skim_u64(bytes)?;
    skim_config(rest)
}

#[tactic(auto, unfolding(crate::specs::Reading::of_at))]
fn skim_change(kind: u8, bytes: &[u8]) -> Result<&[u8], BadField>
    ensures { Skims result (of_at kind bytes.now) }
{
    let rest = skim_name(bytes)?;
    skim_entry(kind, rest)
}

#[tactic(auto, unfolding(crate::specs::Reading::rec_at, crate::specs::Reading::boot_at, crate::specs::Reading::remove_at))]
pub(crate) fn skim_rec(bytes: &[u8]) -> Result<&[u8], BadField>
    ensures { Skims result (rec_at bytes.now) }
{
    let [kind, rest @ ..] = bytes else {
        return Err(bad_field(bytes));
    };
    match kind {
        1 => skim_u64(rest),
        2 => skim_create(rest),
        3 => skim_name(rest),
        4..=9 => skim_change(*kind, rest),
        _ => Err(bad_field(bytes)),
    }
}
