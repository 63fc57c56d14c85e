//! What lists and options of a record hold, and these lists and options: read from the front of bytes
//! as in `fields`, gone over as in `skimming`, and written as in `writing`.
ghost use Rattle.std.specs.Prelude.{◌≡◌, ◌++◌, IfSome, OnOk, OnErr};
ghost use Rattle.std.specs.List.{flat_map, All};
ghost use Rattle.nats_text.specs.Headers.{Extends};
ghost use Rattle.record_codec.specs.Reading.{Gives, Skims, items_at, list_at, option_at};
ghost use Rattle.record_codec.specs.Spelling.{list_text, option_text, AreFew};

use crate::fault::{BadField, Stop};
use crate::fields::{bad, bad_field, name_of, pattern_of, u32_of};
use crate::reading::{mapping_of, origin_of};
use crate::skimming::{skim_mapping, skim_name, skim_origin, skim_pattern};
use crate::writing::{put_len, put_mapping, put_name, put_origin, put_pattern};
use nats_text::{List, Mapping, Name, NoMemory, Origin, Pattern};
use std::alloc::Global;

/// What a list or an option holds.
pub(crate) trait Item: Drop {
    ghost use Rattle.std.specs.Prelude.{List, ℕ};
    ghost use Rattle.record_codec.specs.Reading.{Reading};

    // How it is read.
    ghost at: { List ℕ → Reading Self };

    // Its bytes.
    ghost text: { Self → List ℕ };

    // It has such bytes.
    ghost is_item: { Self → Type 0 };

    fn read(alloc: Global, bytes: &[u8]) -> Result<(Self, &[u8]), Stop>
        ensures { Gives (λ x. (x.0, x.1.now)) result (at bytes.now) };

    fn skim(bytes: &[u8]) -> Result<&[u8], BadField>
        ensures { Skims result (at bytes.now) };

    fn put(&self, buf: &mut Vec<u8>) -> Result<(), NoMemory>
        ensures ok { OnOk result (buf.new.items ≡ buf.old.items ++ text self.now) }
        ensures short { OnOk result (is_item self.now) }
        ensures err { OnErr result (Extends buf.old.items buf.new.items) };
}

impl Item for Name {
    ghost use Rattle.record_codec.specs.Reading.{name_at};
    ghost use Rattle.record_codec.specs.Spelling.{text_of, IsShortName};

    ghost at = { name_at };

    ghost text = { text_of };

    ghost is_item = { IsShortName };

    fn read(alloc: Global, bytes: &[u8]) -> Result<(Name, &[u8]), Stop> {
        name_of(alloc, bytes)
    }

    fn skim(bytes: &[u8]) -> Result<&[u8], BadField> {
        skim_name(bytes)
    }

    fn put(&self, buf: &mut Vec<u8>) -> Result<(), NoMemory> {
        put_name(buf, self)
    }
}

impl Item for Pattern {
    ghost use Rattle.record_codec.specs.Reading.{pattern_at};
    ghost use Rattle.record_codec.specs.Spelling.{text_of, IsShortPattern};

    ghost at = { pattern_at };

    ghost text = { text_of };

    ghost is_item = { IsShortPattern };

    fn read(alloc: Global, bytes: &[u8]) -> Result<(Pattern, &[u8]), Stop> {
        pattern_of(alloc, bytes)
    }

    fn skim(bytes: &[u8]) -> Result<&[u8], BadField> {
        skim_pattern(bytes)
    }

    fn put(&self, buf: &mut Vec<u8>) -> Result<(), NoMemory> {
        put_pattern(buf, self)
    }
}

impl Item for Mapping {
    ghost use Rattle.record_codec.specs.Reading.{mapping_at};
    ghost use Rattle.record_codec.specs.Spelling.{mapping_text, IsMapping};

    ghost at = { mapping_at };

    ghost text = { mapping_text };

    ghost is_item = { IsMapping };

    fn read(alloc: Global, bytes: &[u8]) -> Result<(Mapping, &[u8]), Stop> {
        mapping_of(alloc, bytes)
    }

    fn skim(bytes: &[u8]) -> Result<&[u8], BadField> {
        skim_mapping(bytes)
    }

    fn put(&self, buf: &mut Vec<u8>) -> Result<(), NoMemory> {
        put_mapping(buf, self)
    }
}

impl Item for Origin {
    ghost use Rattle.record_codec.specs.Reading.{origin_at};
    ghost use Rattle.record_codec.specs.Spelling.{origin_text, IsOrigin};

    ghost at = { origin_at };

    ghost text = { origin_text };

    ghost is_item = { IsOrigin };

    fn read(alloc: Global, bytes: &[u8]) -> Result<(Origin, &[u8]), Stop> {
        origin_of(alloc, bytes)
    }

    fn skim(bytes: &[u8]) -> Result<&[u8], BadField> {
        skim_origin(bytes)
    }

    fn put(&self, buf: &mut Vec<u8>) -> Result<(), NoMemory> {
        put_origin(buf, self)
    }
}

#[tactic(auto, unfolding(crate::specs::Reading::list_at))]
pub(crate) fn list_of<T: Item>(alloc: Global, bytes: &[u8]) -> Result<(List<T>, &[u8]), Stop>
    ensures { Gives (λ x. (x.0, x.1.now)) result (list_at T.at bytes.now) }
{
    let (count, rest) = u32_of(bytes)?;
    let (items, rest) = items_of(alloc, count, rest)?;
    Ok((List::from_vec(items), rest))
}

// So many items. The count is only trusted as far as there are bytes.
fn items_of<T: Item>(alloc: Global, count: u32, bytes: &[u8]) -> Result<(Vec<T>, &[u8]), Stop>
    ensures { Gives (λ x. (x.0.items, x.1.now)) result (items_at T.at count bytes.now) }
{
    let mut items = Vec::new(alloc);
    let mut rest = bytes;
    for _ in 0..count {
        let (item, behind) = T::read(alloc, rest)?;
        items.push(item)?;
        rest = behind;
    }
    Ok((items, rest))
}

#[tactic(auto, unfolding(crate::specs::Reading::option_at))]
pub(crate) fn option_of<T: Item>(alloc: Global, bytes: &[u8]) -> Result<(Option<T>, &[u8]), Stop>
    ensures { Gives (λ x. (x.0, x.1.now)) result (option_at T.at bytes.now) }
{
    match bytes {
        [0, rest @ ..] => Ok((None, rest)),
        [1, rest @ ..] => {
            let (item, rest) = T::read(alloc, rest)?;
            Ok((Some(item), rest))
        }
        _ => Err(bad(bytes)),
    }
}

#[tactic(auto, unfolding(crate::specs::Reading::list_at))]
pub(crate) fn skim_list<T: Item>(bytes: &[u8]) -> Result<&[u8], BadField>
    ensures { Skims result (list_at T.at bytes.now) }
{
    let (count, rest) = u32_of(bytes)?;
    skim_items::<T>(count, rest)
}

fn skim_items<T: Item>(count: u32, bytes: &[u8]) -> Result<&[u8], BadField>
    ensures { Skims result (items_at T.at count bytes.now) }
{
    let mut rest = bytes;
    for _ in 0..count {
        rest = T::skim(rest)?;
    }
    Ok(rest)
}

#[tactic(auto, unfolding(crate::specs::Reading::option_at))]
pub(crate) fn skim_option<T: Item>(bytes: &[u8]) -> Result<&[u8], BadField>
    ensures { Skims result (option_at T.at bytes.now) }
{
    match bytes {
        [0, rest @ ..] => Ok(rest),
        [1, rest @ ..] => T::skim(rest),
        _ => Err(bad_field(bytes)),
    }
}

#[tactic(auto, unfolding(crate::specs::Spelling::list_text))]
pub(crate) fn put_list<T: Item>(buf: &mut Vec<u8>, list: &List<T>) -> Result<(), NoMemory>
    ensures ok { OnOk result (buf.new.items ≡ buf.old.items ++ list_text T.text list.now) }
    ensures short { OnOk result (AreFew T.is_item list.now) }
    ensures err { OnErr result (Extends buf.old.items buf.new.items) }
{
    put_len(buf, list.len())?;
    put_items(buf, list.as_slice())
}

fn put_items<T: Item>(buf: &mut Vec<u8>, items: &[T]) -> Result<(), NoMemory>
    ensures ok { OnOk result (buf.new.items ≡ buf.old.items ++ flat_map T.text items.now) }
    ensures short { OnOk result (All T.is_item items.now) }
    ensures err { OnErr result (Extends buf.old.items buf.new.items) }
{
    for item in items {
        item.put(buf)?;
    }
    Ok(())
}

#[tactic(auto, unfolding(crate::specs::Spelling::option_text))]
pub(crate) fn put_option<T: Item>(buf: &mut Vec<u8>, option: &Option<T>) -> Result<(), NoMemory>
    ensures ok { OnOk result (buf.new.items ≡ buf.old.items ++ option_text T.text option.now) }
    ensures short { OnOk result (IfSome option.now T.is_item) }
    ensures err { OnErr result (Extends buf.old.items buf.new.items) }
{
    match option {
        None => buf.push(0)?,
        Some(item) => {
            buf.push(1)?;
            item.put(buf)?;
        }
    }
    Ok(())
}
