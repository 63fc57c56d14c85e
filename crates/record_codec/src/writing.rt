//! The parts of records, added at the end of a buffer. Without memory some of their bytes may have been
//! added.
ghost use Rattle.std.specs.Prelude.{◌≡◌, ◌++◌, IfSome, OnOk, OnErr};
ghost use Rattle.nats_text.specs.Headers.{Extends, written, read_block};
ghost use Rattle.record_codec.specs.Spelling.{u32_text, u64_text, text_of, option_text, mapping_text, start_text, origin_text, discard_text, copies_text, config_text, mark_text, IsIn32, IsIn64, IsShort, IsShortName, IsShortPattern, IsShortSubject, IsMapping, IsStart, IsOrigin, AreCopies, IsConfig, IsMark};

use crate::items::{put_list, put_option};
use nats_text::{Headers, Mapping, Name, NoMemory, Origin, Pattern, Start, Subject};
use stream_fold::{Config, Copies, Discard, Mark};

#[tactic(auto, unfolding(crate::specs::Spelling::u32_text))]
pub(crate) fn put_u32(buf: &mut Vec<u8>, number: u32) -> Result<(), NoMemory>
    ensures ok { OnOk result (buf.new.items ≡ buf.old.items ++ u32_text number) }
    ensures within { IsIn32 number }
    ensures err { OnErr result (Extends buf.old.items buf.new.items) }
{
    buf.extend_from_slice(&number.to_le_bytes())?;
    Ok(())
}

#[tactic(auto, unfolding(crate::specs::Spelling::u64_text))]
pub(crate) fn put_u64(buf: &mut Vec<u8>, number: u64) -> Result<(), NoMemory>
    ensures ok { OnOk result (buf.new.items ≡ buf.old.items ++ u64_text number) }
    ensures within { IsIn64 number }
    ensures err { OnErr result (Extends buf.old.items buf.new.items) }
{
    buf.extend_from_slice(&number.to_le_bytes())?;
    Ok(())
}

// A length or a count of 2^32 or more can't be written.
pub(crate) fn put_len(buf: &mut Vec<u8>, len: usize) -> Result<(), NoMemory>
    ensures ok { OnOk result (buf.new.items ≡ buf.old.items ++ u32_text len) }
    ensures short { OnOk result (IsIn32 len) }
    ensures err { OnErr result (Extends buf.old.items buf.new.items) }
{
    if len > u32::MAX as usize {
        return Err(NoMemory);
    }
    put_u32(buf, len as u32)
}

#[tactic(auto, unfolding(crate::specs::Spelling::text_of))]
pub(crate) fn put_text(buf: &mut Vec<u8>, text: &[u8]) -> Result<(), NoMemory>
    ensures ok { OnOk result (buf.new.items ≡ buf.old.items ++ text_of text.now) }
    ensures short { OnOk result (IsShort text.now) }
    ensures err { OnErr result (Extends buf.old.items buf.new.items) }
{
    put_len(buf, text.len())?;
    buf.extend_from_slice(text)?;
    Ok(())
}

pub(crate) fn put_name(buf: &mut Vec<u8>, name: &Name) -> Result<(), NoMemory>
    ensures ok { OnOk result (buf.new.items ≡ buf.old.items ++ text_of name.now) }
    ensures short { OnOk result (IsShortName name.now) }
    ensures err { OnErr result (Extends buf.old.items buf.new.items) }
{
    put_text(buf, name.bytes())
}

pub(crate) fn put_subject(buf: &mut Vec<u8>, subject: &Subject) -> Result<(), NoMemory>
    ensures ok { OnOk result (buf.new.items ≡ buf.old.items ++ text_of subject.now) }
    ensures short { OnOk result (IsShortSubject subject.now) }
    ensures err { OnErr result (Extends buf.old.items buf.new.items) }
{
    put_text(buf, subject.bytes())
}

pub(crate) fn put_pattern(buf: &mut Vec<u8>, pattern: &Pattern) -> Result<(), NoMemory>
    ensures ok { OnOk result (buf.new.items ≡ buf.old.items ++ text_of pattern.now) }
    ensures short { OnOk result (IsShortPattern pattern.now) }
    ensures err { OnErr result (Extends buf.old.items buf.new.items) }
{
    put_text(buf, pattern.bytes())
}

#[tactic(auto, unfolding(crate::specs::Spelling::text_of))]
pub(crate) fn put_headers(buf: &mut Vec<u8>, headers: &Headers) -> Result<(), NoMemory>
    ensures ok { OnOk result (buf.new.items ≡ buf.old.items ++ text_of (written headers.now)) }
    ensures short { OnOk result (IsShort (written headers.now)) }
    ensures again { OnOk result (read_block (written headers.now) ≡ Ok headers.now) }
    ensures err { OnErr result (Extends buf.old.items buf.new.items) }
{
    put_len(buf, headers.written_len())?;
    headers.write(buf)
}

#[tactic(auto, unfolding(crate::specs::Spelling::option_text, crate::specs::Spelling::mark_text))]
pub(crate) fn put_mark(buf: &mut Vec<u8>, mark: Option<Mark>) -> Result<(), NoMemory>
    ensures ok { OnOk result (buf.new.items ≡ buf.old.items ++ option_text mark_text mark) }
    ensures within { OnOk result (IfSome mark IsMark) }
    ensures err { OnErr result (Extends buf.old.items buf.new.items) }
{
    match mark {
        None => buf.push(0)?,
        Some(mark) => {
            buf.push(1)?;
            put_u32(buf, mark.index)?;
            put_u64(buf, mark.seq)?;
        }
    }
    Ok(())
}

#[tactic(auto, unfolding(crate::specs::Spelling::mapping_text))]
pub(crate) fn put_mapping(buf: &mut Vec<u8>, mapping: &Mapping) -> Result<(), NoMemory>
    ensures ok { OnOk result (buf.new.items ≡ buf.old.items ++ mapping_text mapping.now) }
    ensures short { OnOk result (IsMapping mapping.now) }
    ensures err { OnErr result (Extends buf.old.items buf.new.items) }
{
    put_text(buf, mapping.src.as_slice())?;
    put_text(buf, mapping.dest.as_slice())
}

#[tactic(auto, unfolding(crate::specs::Spelling::start_text))]
fn put_start(buf: &mut Vec<u8>, start: Start) -> Result<(), NoMemory>
    ensures ok { OnOk result (buf.new.items ≡ buf.old.items ++ start_text start) }
    ensures within { OnOk result (IsStart start) }
    ensures err { OnErr result (Extends buf.old.items buf.new.items) }
{
    match start {
        Start::Seq(seq) => {
            buf.push(0)?;
            put_u64(buf, seq)
        }
        Start::Time(moment) => {
            buf.push(1)?;
            put_u64(buf, moment)
        }
    }
}

#[tactic(auto, unfolding(crate::specs::Spelling::origin_text))]
pub(crate) fn put_origin(buf: &mut Vec<u8>, origin: &Origin) -> Result<(), NoMemory>
    ensures ok { OnOk result (buf.new.items ≡ buf.old.items ++ origin_text origin.now) }
    ensures short { OnOk result (IsOrigin origin.now) }
    ensures err { OnErr result (Extends buf.old.items buf.new.items) }
{
    put_option(buf, &origin.node)?;
    put_name(buf, &origin.stream)?;
    put_start(buf, origin.start)?;
    put_option(buf, &origin.filter)?;
    put_list(buf, &origin.maps)?;
    Ok(())
}

#[tactic(auto, unfolding(crate::specs::Spelling::discard_text))]
fn put_discard(buf: &mut Vec<u8>, discard: Discard) -> Result<(), NoMemory>
    ensures ok { OnOk result (buf.new.items ≡ buf.old.items ++ discard_text discard) }
    ensures err { OnErr result (Extends buf.old.items buf.new.items) }
{
    match discard {
        Discard::Old => buf.push(0)?,
        Discard::New => buf.push(1)?,
    }
    Ok(())
}

#[tactic(auto, unfolding(crate::specs::Spelling::copies_text))]
fn put_copies(buf: &mut Vec<u8>, copies: &Copies) -> Result<(), NoMemory>
    ensures ok { OnOk result (buf.new.items ≡ buf.old.items ++ copies_text copies.now) }
    ensures short { OnOk result (AreCopies copies.now) }
    ensures err { OnErr result (Extends buf.old.items buf.new.items) }
{
    match copies {
        Copies::Nothing => buf.push(0)?,
        Copies::Mirror(origin) => {
            buf.push(1)?;
            put_origin(buf, origin)?;
        }
        Copies::Sources(origins) => {
            buf.push(2)?;
            put_list(buf, origins)?;
        }
    }
    Ok(())
}

#[tactic(auto, unfolding(crate::specs::Spelling::config_text))]
pub(crate) fn put_config(buf: &mut Vec<u8>, config: &Config) -> Result<(), NoMemory>
    ensures ok { OnOk result (buf.new.items ≡ buf.old.items ++ config_text config.now) }
    ensures short { OnOk result (IsConfig config.now) }
    ensures err { OnErr result (Extends buf.old.items buf.new.items) }
{
    put_name(buf, &config.name)?;
    put_list(buf, &config.subjects)?;
    put_u64(buf, config.max_msgs)?;
    put_u64(buf, config.max_bytes)?;
    put_u64(buf, config.max_age)?;
    put_u64(buf, config.max_per_subject)?;
    put_u64(buf, config.max_msg_size)?;
    put_discard(buf, config.discard)?;
    put_u64(buf, config.window)?;
    put_option(buf, &config.transform)?;
    put_copies(buf, &config.copies)?;
    Ok(())
}
