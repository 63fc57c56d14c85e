ghost use Rattle.std.specs.Prelude.{◌≡◌, [], IfOk, codes, option_map, option_and_then};
ghost use Rattle.toml.specs.Data.{as_str, get_member};
ghost use Rattle.toml.specs.View.{view, items_view, table_view};
ghost use Rattle.leafd_conf.specs.Profile.{Gives, mapping_in, mapping_of, mappings_in, mappings_of, optional, transform_of};

use crate::member::{first_other, problem, value_at};
use crate::{ConfKind, ConfProblem};
use nats_text::{Bytes, List, Mapping, NoMemory};
use std::alloc::Global;
use subject_transform::{Transform, TransformFault};
use toml::{Table, Value};

const MAPPINGS: &str = "mappings";

/// The mappings of a configuration, none where it names none.
pub(crate) fn mappings(alloc: Global, table: &Table) -> Result<List<Mapping>, ConfProblem>
    ensures { Gives result (optional mappings_in [] (codes "mappings") (table_view table.now)) }
{
    let Some(value) = value_at(table, MAPPINGS) else {
        return Ok(List::new(alloc));
    };
    match mappings_in(alloc, value)? {
        Some(mappings) => Ok(mappings),
        None => Err(problem(alloc, ConfKind::BadValue, MAPPINGS)),
    }
}

fn mappings_in(alloc: Global, value: &Value) -> Result<Option<List<Mapping>>, NoMemory>
    ensures { IfOk result (λ mappings. mappings ≡ mappings_in (view value.now)) }
{
    match value.as_array() {
        Some(items) => mappings_of(alloc, items),
        None => Ok(None),
    }
}

/// The mappings of an array, `None` where an item is none.
fn mappings_of(alloc: Global, items: &[Value]) -> Result<Option<List<Mapping>>, NoMemory>
    ensures { IfOk result (λ mappings. mappings ≡ mappings_of (items_view items.now)) }
{
    let mut mappings = List::new(alloc);
    for item in items {
        match mapping_in(alloc, item)? {
            Some(mapping) => mappings.push(mapping)?,
            None => return Ok(None),
        }
    }
    Ok(Some(mappings))
}

fn mapping_in(alloc: Global, value: &Value) -> Result<Option<Mapping>, NoMemory>
    ensures { IfOk result (λ mapping. mapping ≡ mapping_in (view value.now)) }
{
    match value.as_table() {
        Some(table) => mapping_of(alloc, table),
        None => Ok(None),
    }
}

fn mapping_of(alloc: Global, table: &Table) -> Result<Option<Mapping>, NoMemory>
    ensures { IfOk result (λ mapping. mapping ≡ mapping_of (table_view table.now)) }
{
    if first_other(table, &["src", "dest"]).is_some() {
        return Ok(None);
    }
    match (text_at(table, "src"), text_at(table, "dest")) {
        (Some(src), Some(dest)) => transform_of(alloc, src, dest),
        _ => Ok(None),
    }
}

/// The text of a member.
fn text_at<'a>(table: &'a Table, member: &str) -> Option<&'a [u8]>
    ensures { option_map (λ text. text.now) result ≡ option_and_then as_str (get_member member.now (table_view table.now)) }
{
    match value_at(table, member) {
        Some(value) => match value.as_str() {
            Some(text) => Some(text.as_bytes()),
            None => None,
        },
        None => None,
    }
}

fn transform_of(alloc: Global, src: &[u8], dest: &[u8]) -> Result<Option<Mapping>, NoMemory>
    ensures { IfOk result (λ mapping. mapping ≡ transform_of src.now dest.now) }
{
    match Transform::read(alloc, src, dest) {
        Ok(_transform) => Ok(Some(Mapping {
            src: Bytes::from_slice(alloc, src)?,
            dest: Bytes::from_slice(alloc, dest)?,
        })),
        Err(TransformFault::Bad { .. }) => Ok(None),
        Err(TransformFault::NoMemory) => Err(NoMemory),
    }
}
