//! The parts of records, read from the front of bytes as in `fields`.
ghost use Rattle.std.specs.Prelude.{◌≡◌};
ghost use Rattle.record_codec.specs.Reading.{Finds, Gives, option_at, mapping_at, start_at, origin_at, discard_at, copies_at, config_at, mark_at};

use crate::fault::{BadField, Stop};
use crate::fields::{bad, bad_field, name_of, text_of, u32_of, u64_of};
use crate::items::{list_of, option_of};
use nats_text::{Bytes, Mapping, Origin, Start};
use std::alloc::Global;
use stream_fold::{Config, Copies, Discard, Mark};

#[tactic(auto, unfolding(crate::specs::Reading::option_at))]
pub(crate) fn mark_of(bytes: &[u8]) -> Result<(Option<Mark>, &[u8]), BadField>
    ensures { Finds (λ x. (x.0, x.1.now)) result (option_at mark_at bytes.now) }
{
    match bytes {
        [0, rest @ ..] => Ok((None, rest)),
        [1, mark @ ..] => {
            let (mark, rest) = some_mark_of(mark)?;
            Ok((Some(mark), rest))
        }
        _ => Err(bad_field(bytes)),
    }
}

#[tactic(auto, unfolding(crate::specs::Reading::mark_at))]
fn some_mark_of(bytes: &[u8]) -> Result<(Mark, &[u8]), BadField>
    ensures { Finds (λ x. (x.0, x.1.now)) result (mark_at bytes.now) }
{
    let (index, rest) = u32_of(bytes)?;
    let (seq, rest) = u64_of(rest)?;
    Ok((Mark { index, seq }, rest))
}

#[tactic(auto, unfolding(crate::specs::Reading::mapping_at))]
pub(crate) fn mapping_of(alloc: Global, bytes: &[u8]) -> Result<(Mapping, &[u8]), Stop>
    ensures { Gives (λ x. (x.0, x.1.now)) result (mapping_at bytes.now) }
{
    let (src, rest) = text_of(bytes)?;
    let (dest, rest) = text_of(rest)?;
    let mapping = Mapping {
        src: Bytes::from_slice(alloc, src)?,
        dest: Bytes::from_slice(alloc, dest)?,
    };
    Ok((mapping, rest))
}

#[tactic(auto, unfolding(crate::specs::Reading::start_at))]
pub(crate) fn start_of(bytes: &[u8]) -> Result<(Start, &[u8]), BadField>
    ensures { Finds (λ x. (x.0, x.1.now)) result (start_at bytes.now) }
{
    match bytes {
        [0, rest @ ..] => {
            let (seq, rest) = u64_of(rest)?;
            Ok((Start::Seq(seq), rest))
        }
        [1, rest @ ..] => {
            let (moment, rest) = u64_of(rest)?;
            Ok((Start::Time(moment), rest))
        }
        _ => Err(bad_field(bytes)),
    }
}

#[tactic(auto, unfolding(crate::specs::Reading::origin_at))]
pub(crate) fn origin_of(alloc: Global, bytes: &[u8]) -> Result<(Origin, &[u8]), Stop>
    ensures { Gives (λ x. (x.0, x.1.now)) result (origin_at bytes.now) }
{
    let (node, rest) = option_of(alloc, bytes)?;
    let (stream, rest) = name_of(alloc, rest)?;
    let (start, rest) = start_of(rest)?;
    let (filter, rest) = option_of(alloc, rest)?;
    let (maps, rest) = list_of(alloc, rest)?;
    let origin = Origin {
        node,
        stream,
        start,
        filter,
        maps,
    };
    Ok((origin, rest))
}

#[tactic(auto, unfolding(crate::specs::Reading::discard_at))]
pub(crate) fn discard_of(bytes: &[u8]) -> Result<(Discard, &[u8]), BadField>
    ensures { Finds (λ x. (x.0, x.1.now)) result (discard_at bytes.now) }
{
    match bytes {
        [0, rest @ ..] => Ok((Discard::Old, rest)),
        [1, rest @ ..] => Ok((Discard::New, rest)),
        _ => Err(bad_field(bytes)),
    }
}

#[tactic(auto, unfolding(crate::specs::Reading::copies_at))]
fn copies_of(alloc: Global, bytes: &[u8]) -> Result<(Copies, &[u8]), Stop>
    ensures { Gives (λ x. (x.0, x.1.now)) result (copies_at bytes.now) }
{
    match bytes {
        [0, rest @ ..] => Ok((Copies::Nothing, rest)),
        [1, rest @ ..] => {
            let (origin, rest) = origin_of(alloc, rest)?;
            Ok((Copies::Mirror(origin), rest))
        }
        [2, rest @ ..] => {
            let (origins, rest) = list_of(alloc, rest)?;
            Ok((Copies::Sources(origins), rest))
        }
        _ => Err(bad(bytes)),
    }
}

#[tactic(auto, unfolding(crate::specs::Reading::config_at))]
pub(crate) fn config_of(alloc: Global, bytes: &[u8]) -> Result<(Config, &[u8]), Stop>
    ensures { Gives (λ x. (x.0, x.1.now)) result (config_at bytes.now) }
{
    let (name, rest) = name_of(alloc, bytes)?;
    let (subjects, rest) = list_of(alloc, rest)?;
    let (max_msgs, rest) = u64_of(rest)?;
    let (max_bytes, rest) = u64_of(rest)?;
    let (max_age, rest) = u64_of(rest)?;
    let (max_per_subject, rest) = u64_of(rest)?;
    let (max_msg_size, rest) = u64_of(rest)?;
    let (discard, rest) = discard_of(rest)?;
    let (window, rest) = u64_of(rest)?;
    let (transform, rest) = option_of(alloc, rest)?;
    let (copies, rest) = copies_of(alloc, rest)?;
    let config = Config {
        name,
        subjects,
        max_msgs,
        max_bytes,
        max_age,
        max_per_subject,
        max_msg_size,
        discard,
        window,
        transform,
        copies,
    };
    Ok((config, rest))
}
