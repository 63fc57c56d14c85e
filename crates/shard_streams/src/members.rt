//! Members of configurations, compared.
ghost use Rattle.std.specs.Prelude.{◌≡◌, ◌↔◌, IfOk, IsTrue};
ghost use Rattle.stream_fold.specs.Checking.{is_mirror};
ghost use Rattle.stream_fold.specs.Histories.{History};
ghost use Rattle.stream_fold.specs.Held.{StandsFor};
ghost use Rattle.stream_fold.specs.declared.entry.Entry.TheVariants as change;
ghost use Rattle.shard_machine.specs.Answers.{changed_member};
ghost use Rattle.shard_streams.specs.Members.{HasLimits};

use nats_text::{Bytes, Mapping, NoMemory, Pattern};
use std::alloc::Global;
use stream_fold::{Config, Copies, Entry, StreamState};

/// Whether the stream has this configuration.
pub fn has_config(state: &StreamState, config: &Config) -> Result<bool, NoMemory>
    ensures { (h : History) → StandsFor state.now h → IfOk result (λ same. IsTrue same ↔ (state.now.held.limits ≡ config.now)) }
{
    let entry = limits_of(config)?;
    Ok(is_config(state, &entry, config))
}

/// The entry that gives a stream this configuration.
pub fn limits_of(config: &Config) -> Result<Entry, NoMemory>
    ensures { IfOk result (λ entry. entry ≡ change.Limits config.now) }
{
    Ok(Entry::Limits {
        config: config.clone()?,
    })
}

/// Whether the stream has the configuration that this entry would give it.
fn is_config(state: &StreamState, entry: &Entry, config: &Config) -> bool
    ensures { (h : History) → StandsFor state.now h → entry.now ≡ change.Limits config.now → IsTrue result ↔ (state.now.held.limits ≡ config.now) }
{
    if state.fits(entry) {
        has_limits(state.config(), config)
    } else {
        false
    }
}

/// Whether the members that may change are the same.
fn has_limits(old: &Config, new: &Config) -> bool
    ensures { IsTrue result ↔ HasLimits old.now new.now }
{
    old.max_msgs == new.max_msgs
        && old.max_bytes == new.max_bytes
        && old.max_age == new.max_age
        && old.max_per_subject == new.max_per_subject
        && old.max_msg_size == new.max_msg_size
        && old.discard == new.discard
        && same_patterns(old.subjects.as_slice(), new.subjects.as_slice())
        && same_transform(&old.transform, &new.transform)
}

fn same_patterns(patterns: &[Pattern], others: &[Pattern]) -> bool
    ensures { IsTrue result ↔ (patterns.now ≡ others.now) }
{
    if patterns.len() != others.len() {
        return false;
    }
    for place in 0..patterns.len() {
        if !same_pattern(&patterns[place], &others[place]) {
            return false;
        }
    }
    true
}

fn same_pattern(pattern: &Pattern, other: &Pattern) -> bool
    ensures { IsTrue result ↔ (pattern.now ≡ other.now) }
{
    pattern == other
}

fn same_transform(map: &Option<Mapping>, other: &Option<Mapping>) -> bool
    ensures { IsTrue result ↔ (map.now ≡ other.now) }
{
    match (map, other) {
        (None, None) => true,
        (Some(map), Some(other)) => map.src == other.src && map.dest == other.dest,
        _ => false,
    }
}

/// The member that changed of those that can't.
pub fn changed_member(alloc: Global, old: &Config, new: &Config) -> Result<Bytes, NoMemory>
    ensures { IfOk result (λ member. member ≡ changed_member old.now new.now) }
{
    Ok(Bytes::from_slice(alloc, changed_name(old, new))?)
}

fn changed_name(old: &Config, new: &Config) -> &'static [u8]
    ensures { result.now ≡ changed_member old.now new.now }
{
    if old.window != new.window {
        return b"duplicate_window";
    }
    if is_mirror(&old.copies) || is_mirror(&new.copies) {
        return b"mirror";
    }
    b"sources"
}

fn is_mirror(copies: &Copies) -> bool
    ensures { result ≡ is_mirror copies.now }
{
    match copies {
        Copies::Nothing => false,
        Copies::Mirror(_) => true,
        Copies::Sources(_) => false,
    }
}
