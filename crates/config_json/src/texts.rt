//! Whether all that is written of a configuration is UTF-8.
ghost use Rattle.std.specs.Prelude.{◌≡◌, true};
ghost use Rattle.std.specs.Option.{option_map_or};
ghost use Rattle.std.specs.List.{list_all};
ghost use Rattle.std.specs.Str.{is_utf8};
ghost use Rattle.config_json.specs.Writing.{copies_are_text, is_text, mapping_is_text, origin_is_text};

use nats_text::{Mapping, Origin};
use stream_fold::{Config, Copies};

fn is_utf8(bytes: &[u8]) -> bool
    ensures { result ≡ is_utf8 bytes.now }
{
    match str::from_utf8(bytes) {
        Ok(_) => true,
        Err(_) => false,
    }
}

fn mapping_is_text(mapping: &Mapping) -> bool
    ensures { result ≡ mapping_is_text mapping.now }
{
    is_utf8(mapping.src.as_slice()) && is_utf8(mapping.dest.as_slice())
}

fn origin_is_text(origin: &Origin) -> bool
    ensures { result ≡ origin_is_text origin.now }
{
    origin
        .maps
        .as_slice()
        .iter()
        .all(|map| mapping_is_text(map))
}

fn origins_are_text(origins: &[Origin]) -> bool
    ensures { result ≡ list_all origin_is_text origins.now }
{
    origins.iter().all(|origin| origin_is_text(origin))
}

fn copies_are_text(copies: &Copies) -> bool
    ensures { result ≡ copies_are_text copies.now }
{
    match copies {
        Copies::Nothing => true,
        Copies::Mirror(origin) => origin_is_text(origin),
        Copies::Sources(origins) => origins_are_text(origins.as_slice()),
    }
}

/// Whether all that is written of a configuration is UTF-8, as JSON has to be: its names and patterns
/// always are, and here the texts of its transforms are looked at.
pub fn has_texts(config: &Config) -> bool
    ensures { result ≡ is_text config.now }
{
    let copies = copies_are_text(&config.copies);
    match &config.transform {
        Some(transform) => copies && mapping_is_text(transform),
        None => copies,
    }
}
