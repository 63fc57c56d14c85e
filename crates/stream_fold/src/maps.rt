//! The maps that a source may have, and the transform that a stream may have.
ghost use Rattle.std.specs.Prelude.{◌≡◌, IfOk};
ghost use Rattle.std.specs.List.{list_all};
ghost use Rattle.nats_text.specs.Text.{is_pattern};
ghost use Rattle.subject_transform.specs.Transforms.{is_blank};
ghost use Rattle.stream_fold.specs.Checking.{are_transform, has_short_texts, has_wrong_maps, is_legal_map, is_wrong_transform, leaves_subject, transform_in};

use crate::Config;
use crate::publish::is_mirror;
use nats_text::{Mapping, NoMemory, Origin, Pattern, TextFault};
use std::alloc::Global;
use subject_transform::{Transform, TransformFault};

/// The greatest length of a text of a map, as it is written, in bytes.
const MAX_LEN: usize = 1024;

/// The greatest number of maps of a source.
const MOST_MAPS: usize = 16;

/// Whether a source may not have these maps beside its filter.
pub fn has_wrong_maps(alloc: Global, origin: &Origin) -> Result<bool, NoMemory>
    ensures { IfOk result (λ wrong. wrong ≡ has_wrong_maps origin.now) }
{
    let maps = origin.maps.as_slice();
    if origin.filter.is_some() && !maps.is_empty() {
        return Ok(true);
    }
    if maps.len() > MOST_MAPS {
        return Ok(true);
    }
    Ok(!are_legal_maps(alloc, maps)?)
}

fn are_legal_maps(alloc: Global, maps: &[Mapping]) -> Result<bool, NoMemory>
    ensures { IfOk result (λ legal. legal ≡ list_all is_legal_map maps.now) }
{
    for map in maps {
        if !is_legal_map(alloc, map)? {
            return Ok(false);
        }
    }
    Ok(true)
}

fn is_legal_map(alloc: Global, map: &Mapping) -> Result<bool, NoMemory>
    ensures { IfOk result (λ legal. legal ≡ is_legal_map map.now) }
{
    if !has_short_texts(map) {
        return Ok(false);
    }
    if leaves_subject(map.dest.as_slice()) {
        return is_pattern(alloc, map.src.as_slice());
    }
    are_transform(alloc, map)
}

/// Whether a stream may not have this transform of its own.
pub fn has_wrong_transform(alloc: Global, config: &Config) -> Result<bool, NoMemory>
    ensures { IfOk result (λ wrong. wrong ≡ is_wrong_transform config.now.copies config.now.transform) }
{
    match &config.transform {
        None => Ok(false),
        Some(map) => {
            if is_mirror(&config.copies) || !has_short_texts(map) {
                return Ok(true);
            }
            Ok(!are_transform(alloc, map)?)
        }
    }
}

fn has_short_texts(map: &Mapping) -> bool
    ensures { result ≡ has_short_texts map.now }
{
    map.src.len() <= MAX_LEN && map.dest.len() <= MAX_LEN
}

/// Whether a destination leaves the subject: nothing but blanks stands in it.
pub fn leaves_subject(dest: &[u8]) -> bool
    ensures { result ≡ leaves_subject dest.now }
{
    dest.iter().all(|byte| is_blank(*byte))
}

fn is_blank(byte: u8) -> bool
    ensures { result ≡ is_blank byte }
{
    byte == b' ' || byte == b'\t'
}

fn is_pattern(alloc: Global, text: &[u8]) -> Result<bool, NoMemory>
    ensures { IfOk result (λ is. is ≡ is_pattern text.now) }
{
    match Pattern::read(alloc, text) {
        Ok(_) => Ok(true),
        Err(TextFault::Bad { .. }) => Ok(false),
        Err(TextFault::NoMemory) => Err(NoMemory),
    }
}

fn are_transform(alloc: Global, map: &Mapping) -> Result<bool, NoMemory>
    ensures { IfOk result (λ are. are ≡ are_transform map.now) }
{
    let transform = transform_in(alloc, map)?;
    Ok(transform.is_some())
}

/// The transform that the two texts are, where they are one.
pub fn transform_in(alloc: Global, map: &Mapping) -> Result<Option<Transform>, NoMemory>
    ensures { IfOk result (λ transform. transform ≡ transform_in map.now) }
{
    match Transform::read(alloc, map.src.as_slice(), map.dest.as_slice()) {
        Ok(transform) => Ok(Some(transform)),
        Err(TransformFault::Bad { .. }) => Ok(None),
        Err(TransformFault::NoMemory) => Err(NoMemory),
    }
}
