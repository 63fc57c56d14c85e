ghost use Rattle.std.specs.Prelude.{◌≡◌, IfOk, length, nat_le, nat_lt, not, ◌==◌, ◌||◌, ◌&&◌};
ghost use Rattle.std.specs.List.{list_any};
ghost use Rattle.std.specs.Option.{option_copied};
ghost use Rattle.nats_text.specs.Matching.{overlap};
ghost use Rattle.stream_fold.specs.Checking.{config_fault, limits_fault, copies_fault, mirror_fault, source_faults, source_fault, start_fault, is_wrong_mirror, are_wrong_sources, has_wrong_subjects, has_wrong_window, keeps_all_sizes, is_copy, some_overlap, own_subjects, is_too_great};

use crate::maps::{has_wrong_maps, has_wrong_transform};
use crate::{Config, Copies, Discard};
use nats_text::{NoMemory, Origin, Pattern, Start, TextFault, overlaps};
use std::alloc::Global;

/// The first wrong member of a configuration, by its name in JetStream.
pub fn wrong_member(
    alloc: Global,
    config: &Config,
    own: &Pattern,
) -> Result<Option<&'static [u8]>, NoMemory>
    requires { own.now ≡ own_subjects }
    ensures { IfOk result (λ member. option_copied member ≡ config_fault config.now) }
{
    if has_wrong_subjects(config, own) {
        return Ok(Some(b"subjects"));
    }
    if let Some(member) = wrong_limit(config) {
        return Ok(Some(member));
    }
    if has_wrong_window(config) {
        return Ok(Some(b"duplicate_window"));
    }
    if let Some(member) = wrong_copies(alloc, config)? {
        return Ok(Some(member));
    }
    if has_wrong_transform(alloc, config)? {
        return Ok(Some(b"subject_transform"));
    }
    Ok(None)
}

/// The subjects under which a node itself speaks.
pub fn own_subjects(alloc: Global) -> Result<Pattern, NoMemory>
    ensures { IfOk result (λ own. own ≡ own_subjects) }
{
    match Pattern::read(alloc, b"$JS.>") {
        Ok(own) => Ok(own),
        Err(TextFault::NoMemory) => Err(NoMemory),
        Err(TextFault::Bad { .. }) => unreachable!(),
    }
}

fn has_wrong_subjects(config: &Config, own: &Pattern) -> bool
    requires { own.now ≡ own_subjects }
    ensures { result ≡ has_wrong_subjects config.now }
{
    let subjects = config.subjects.as_slice();
    (subjects.is_empty() && !is_copy(&config.copies))
        || subjects.len() > 64
        || overlaps_some(own, subjects)
        || some_overlap(subjects)
}

fn is_copy(copies: &Copies) -> bool
    ensures { result ≡ is_copy copies.now }
{
    match copies {
        Copies::Nothing => false,
        Copies::Mirror(_) | Copies::Sources(_) => true,
    }
}

fn overlaps_some(pattern: &Pattern, patterns: &[Pattern]) -> bool
    ensures { result ≡ list_any (overlap pattern.now) patterns.now }
{
    patterns.iter().any(|other| overlaps(pattern, other))
}

fn some_overlap(patterns: &[Pattern]) -> bool
    ensures { result ≡ some_overlap patterns.now }
{
    let mut rest = patterns;
    while let Some((pattern, others)) = rest.split_first() {
        if overlaps_some(pattern, others) {
            return true;
        }
        rest = others;
    }
    false
}

fn wrong_limit(config: &Config) -> Option<&'static [u8]>
    ensures { option_copied result ≡ limits_fault config.now }
{
    if is_too_great(config.max_msgs) {
        return Some(b"max_msgs");
    }
    if is_too_great(config.max_bytes) {
        return Some(b"max_bytes");
    }
    if is_too_great(config.max_per_subject) {
        return Some(b"max_msgs_per_subject");
    }
    if is_too_great(config.max_msg_size) {
        return Some(b"max_msg_size");
    }
    None
}

fn is_too_great(limit: u64) -> bool
    ensures { result ≡ is_too_great limit }
{
    1 << 63 <= limit
}

fn has_wrong_window(config: &Config) -> bool
    ensures { result ≡ has_wrong_window config.now }
{
    config.window == 0 || (config.max_age != 0 && config.max_age < config.window)
}

fn wrong_copies(alloc: Global, config: &Config) -> Result<Option<&'static [u8]>, NoMemory>
    ensures { IfOk result (λ member. option_copied member ≡ copies_fault config.now config.now.copies) }
{
    match &config.copies {
        Copies::Nothing => Ok(None),
        Copies::Mirror(origin) => Ok(wrong_mirror(config, origin)),
        Copies::Sources(origins) => {
            if let Some(member) = wrong_source_of(alloc, origins.as_slice())? {
                return Ok(Some(member));
            }
            if are_wrong_sources(config, origins.as_slice()) {
                Ok(Some(b"sources"))
            } else {
                Ok(None)
            }
        }
    }
}

fn wrong_mirror(config: &Config, origin: &Origin) -> Option<&'static [u8]>
    ensures { option_copied result ≡ mirror_fault config.now origin.now }
{
    if let Some(member) = wrong_start(origin.start) {
        return Some(member);
    }
    if is_wrong_mirror(config, origin) {
        Some(b"mirror")
    } else {
        None
    }
}

fn wrong_start(start: Start) -> Option<&'static [u8]>
    ensures { option_copied result ≡ start_fault start }
{
    match start {
        Start::Seq(seq) if is_too_great(seq) => Some(b"opt_start_seq"),
        Start::Time(moment) if is_too_great(moment) => Some(b"opt_start_time"),
        _ => None,
    }
}

fn keeps_all_sizes(config: &Config) -> bool
    ensures { result ≡ keeps_all_sizes config.now }
{
    config.discard == Discard::Old && config.max_msg_size == 0
}

fn is_wrong_mirror(config: &Config, origin: &Origin) -> bool
    ensures { result ≡ is_wrong_mirror config.now origin.now }
{
    origin.filter.is_some()
        || !origin.maps.is_empty()
        || !config.subjects.is_empty()
        || !keeps_all_sizes(config)
}

fn are_wrong_sources(config: &Config, origins: &[Origin]) -> bool
    ensures { result ≡ are_wrong_sources config.now origins.now }
{
    origins.is_empty() || origins.len() > 32 || !keeps_all_sizes(config)
}

fn wrong_source_of(alloc: Global, origins: &[Origin]) -> Result<Option<&'static [u8]>, NoMemory>
    ensures { IfOk result (λ member. option_copied member ≡ source_faults origins.now) }
{
    for origin in origins {
        if let Some(member) = wrong_source(alloc, origin)? {
            return Ok(Some(member));
        }
    }
    Ok(None)
}

fn wrong_source(alloc: Global, origin: &Origin) -> Result<Option<&'static [u8]>, NoMemory>
    ensures { IfOk result (λ member. option_copied member ≡ source_fault origin.now) }
{
    if let Some(member) = wrong_start(origin.start) {
        return Ok(Some(member));
    }
    if has_wrong_maps(alloc, origin)? {
        return Ok(Some(b"subject_transforms"));
    }
    Ok(None)
}
