//! The two texts of a transform, and the maps of a source.
ghost use Rattle.std.specs.Prelude.{◌≡◌, codes, option_map, IfOk};
ghost use Rattle.nats_text.specs.Text.{is_pattern};
ghost use Rattle.serde_json.specs.Find.{get};
ghost use Rattle.serde_json.specs.View.{view, items_view};
ghost use Rattle.subject_transform.specs.Transforms.{is_blank};
ghost use Rattle.stream_fold.specs.Checking.{are_transform, has_short_texts, is_legal_map, leaves_subject};
ghost use Rattle.config_json.specs.Origins.{map_of, mapping_of, maps_beside, maps_in, maps_of, text_at};
ghost use Rattle.config_json.specs.Reading.{transform_of};

use crate::others::other_in;
use nats_text::{Bytes, List, Mapping, NoMemory, Pattern, TextFault};
use serde_json::Value;
use std::alloc::Global;
use subject_transform::{Transform, TransformFault};

/// The greatest length of a text of a transform, as it is written, in bytes.
const MAX_LEN: usize = 1024;

/// The greatest number of maps of an origin.
const MOST_MAPS: usize = 16;

pub(crate) fn text_at<'a>(value: &'a Value, name: &str) -> Option<&'a str>
    ensures { option_map (λ text. text.now) result ≡ text_at name.now (view value.now) }
{
    value.get(name)?.as_str()
}

fn mapping_from(alloc: Global, src: &str, dest: &str) -> Result<Mapping, NoMemory>
    ensures { IfOk result (λ m. (m.src ≡ src.now) × (m.dest ≡ dest.now)) }
{
    let src = Bytes::from_slice(alloc, src.as_bytes())?;
    let dest = Bytes::from_slice(alloc, dest.as_bytes())?;
    Ok(Mapping { src, dest })
}

fn mapping_of(alloc: Global, value: &Value) -> Result<Option<Mapping>, NoMemory>
    ensures { IfOk result (λ m. m ≡ mapping_of (view value.now)) }
{
    if other_in(&["src", "dest"], value).is_some() {
        return Ok(None);
    }
    let Some(src) = text_at(value, "src") else {
        return Ok(None);
    };
    let Some(dest) = text_at(value, "dest") else {
        return Ok(None);
    };
    Ok(Some(mapping_from(alloc, src, dest)?))
}

fn has_short_texts(map: &Mapping) -> bool
    ensures { result ≡ has_short_texts map.now }
{
    map.src.len() <= MAX_LEN && map.dest.len() <= MAX_LEN
}

fn leaves_subject(dest: &[u8]) -> bool
    ensures { result ≡ leaves_subject dest.now }
{
    dest.iter().all(|byte| is_blank(*byte))
}

fn is_blank(byte: u8) -> bool
    ensures { result ≡ is_blank byte }
{
    byte == b' ' || byte == b'\t'
}

fn is_pattern(alloc: Global, text: &[u8]) -> Result<bool, NoMemory>
    ensures { IfOk result (λ is. is ≡ is_pattern text.now) }
{
    match Pattern::read(alloc, text) {
        Ok(_) => Ok(true),
        Err(TextFault::Bad { .. }) => Ok(false),
        Err(TextFault::NoMemory) => Err(NoMemory),
    }
}

fn are_transform(alloc: Global, map: &Mapping) -> Result<bool, NoMemory>
    ensures { IfOk result (λ are. are ≡ are_transform map.now) }
{
    match Transform::read(alloc, map.src.as_slice(), map.dest.as_slice()) {
        Ok(_) => Ok(true),
        Err(TransformFault::Bad { .. }) => Ok(false),
        Err(TransformFault::NoMemory) => Err(NoMemory),
    }
}

fn is_legal_map(alloc: Global, map: &Mapping) -> Result<bool, NoMemory>
    ensures { IfOk result (λ legal. legal ≡ is_legal_map map.now) }
{
    if !has_short_texts(map) {
        return Ok(false);
    }
    if leaves_subject(map.dest.as_slice()) {
        return is_pattern(alloc, map.src.as_slice());
    }
    are_transform(alloc, map)
}

fn map_of(alloc: Global, value: &Value) -> Result<Option<Mapping>, NoMemory>
    ensures { IfOk result (λ m. m ≡ map_of (view value.now)) }
{
    let Some(map) = mapping_of(alloc, value)? else {
        return Ok(None);
    };
    if is_legal_map(alloc, &map)? {
        Ok(Some(map))
    } else {
        Ok(None)
    }
}

fn maps_of(alloc: Global, values: &[Value]) -> Result<Option<List<Mapping>>, NoMemory>
    ensures { IfOk result (λ ms. ms ≡ maps_of (items_view values.now)) }
{
    let mut maps = List::new(alloc);
    for value in values {
        let Some(map) = map_of(alloc, value)? else {
            return Ok(None);
        };
        maps.push(map)?;
    }
    Ok(Some(maps))
}

fn maps_beside(has_filter: bool, maps: List<Mapping>) -> Option<List<Mapping>>
    ensures { result ≡ maps_beside has_filter maps }
{
    if (has_filter && !maps.is_empty()) || maps.len() > MOST_MAPS {
        None
    } else {
        Some(maps)
    }
}

/// The maps of an origin, which stand beside no filter.
pub(crate) fn maps_in(
    alloc: Global,
    has_filter: bool,
    value: &Value,
) -> Result<Option<List<Mapping>>, NoMemory>
    ensures { IfOk result (λ ms. ms ≡ maps_in has_filter (get (codes "subject_transforms") (view value.now))) }
{
    let Some(member) = value.get("subject_transforms") else {
        return Ok(Some(List::new(alloc)));
    };
    let Some(values) = member.as_array() else {
        return Ok(None);
    };
    match maps_of(alloc, values)? {
        Some(maps) => Ok(maps_beside(has_filter, maps)),
        None => Ok(None),
    }
}

/// The transform of a stream's own.
pub(crate) fn transform_of(alloc: Global, value: &Value) -> Result<Option<Mapping>, NoMemory>
    ensures { IfOk result (λ m. m ≡ transform_of (view value.now)) }
{
    let Some(map) = mapping_of(alloc, value)? else {
        return Ok(None);
    };
    if has_short_texts(&map) && are_transform(alloc, &map)? {
        Ok(Some(map))
    } else {
        Ok(None)
    }
}
