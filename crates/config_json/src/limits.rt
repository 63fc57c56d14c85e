//! The limits of a stream.
ghost use Rattle.std.specs.Prelude.{◌≡◌, codes};
ghost use Rattle.serde_json.specs.Find.{get};
ghost use Rattle.serde_json.specs.View.{view};
ghost use Rattle.config_json.specs.Answers.{IsRead};
ghost use Rattle.config_json.specs.Others.{absent_or, absent_or_is, is_word};
ghost use Rattle.config_json.specs.Reading.{default_window, discard_of, is_one_replica, limits_in, window_from, window_in};
ghost use Rattle.stream_fold.specs.declared.config.Discard.TheVariants.{Old};

use crate::ApiFault;
use crate::fault::bad;
use crate::value::{is_absent_or_word, is_word, limit_at, whole_at, whole_of};
use serde_json::Value;
use std::alloc::Global;
use stream_fold::Discard;

/// What limits a stream. A limit of 0 is none. Ages and the duplicate window are in nanoseconds,
/// sizes in bytes.
#[derive(Clone, Copy, Debug, Drop)]
pub struct Limits {
    pub max_msgs: u64,
    pub max_bytes: u64,
    pub max_age: u64,
    pub max_per_subject: u64,
    pub max_msg_size: u64,
    pub discard: Discard,
    pub window: u64,
}

/// The window of a stream for which none is given.
const TWO_MINUTES: u64 = 120_000_000_000;

fn default_window(max_age: u64) -> u64
    ensures { result ≡ default_window max_age }
{
    if 0 < max_age && max_age < TWO_MINUTES {
        max_age
    } else {
        TWO_MINUTES
    }
}

fn window_from(max_age: u64, window: u64) -> Option<u64>
    ensures { result ≡ window_from max_age window }
{
    if window == 0 {
        return Some(default_window(max_age));
    }
    if 0 < max_age && max_age < window {
        None
    } else {
        Some(window)
    }
}

fn window_in(max_age: u64, value: &Value) -> Option<u64>
    ensures { result ≡ window_in max_age (get (codes "duplicate_window") (view value.now)) }
{
    let window = whole_at(value, "duplicate_window")?;
    window_from(max_age, window)
}

fn is_absent_or_one_replica(value: &Value) -> bool
    ensures { result ≡ absent_or_is is_one_replica (get (codes "num_replicas") (view value.now)) }
{
    match value.get("num_replicas") {
        Some(member) => is_one_replica(member),
        None => true,
    }
}

fn is_one_replica(value: &Value) -> bool
    ensures { result ≡ is_one_replica (view value.now) }
{
    match whole_of(value) {
        Some(count) => count <= 1,
        None => false,
    }
}

fn discard_of(value: &Value) -> Option<Discard>
    ensures { result ≡ discard_of (view value.now) }
{
    if is_word(value, "old") {
        Some(Discard::Old)
    } else if is_word(value, "new") {
        Some(Discard::New)
    } else {
        None
    }
}

fn discard_in(value: &Value) -> Option<Discard>
    ensures { result ≡ absent_or Old discard_of (get (codes "discard") (view value.now)) }
{
    match value.get("discard") {
        Some(member) => discard_of(member),
        None => Some(Discard::Old),
    }
}

/// The limits that an object has, or the first wrong one of these members.
pub(crate) fn limits_in(alloc: Global, value: &Value) -> Result<Limits, ApiFault>
    ensures { IsRead result (limits_in (view value.now)) }
{
    if !is_absent_or_word(value, "retention", "limits") {
        return Err(bad(alloc, "retention"));
    }
    let Some(max_msgs) = limit_at(value, "max_msgs") else {
        return Err(bad(alloc, "max_msgs"));
    };
    let Some(max_bytes) = limit_at(value, "max_bytes") else {
        return Err(bad(alloc, "max_bytes"));
    };
    let Some(max_per_subject) = limit_at(value, "max_msgs_per_subject") else {
        return Err(bad(alloc, "max_msgs_per_subject"));
    };
    let Some(max_msg_size) = limit_at(value, "max_msg_size") else {
        return Err(bad(alloc, "max_msg_size"));
    };
    let Some(max_age) = whole_at(value, "max_age") else {
        return Err(bad(alloc, "max_age"));
    };
    if !is_absent_or_word(value, "storage", "file") {
        return Err(bad(alloc, "storage"));
    }
    if !is_absent_or_one_replica(value) {
        return Err(bad(alloc, "num_replicas"));
    }
    let Some(discard) = discard_in(value) else {
        return Err(bad(alloc, "discard"));
    };
    let Some(window) = window_in(max_age, value) else {
        return Err(bad(alloc, "duplicate_window"));
    };
    Ok(Limits {
        max_msgs,
        max_bytes,
        max_age,
        max_per_subject,
        max_msg_size,
        discard,
        window,
    })
}
