//! The members that no table names.
ghost use Rattle.std.specs.Prelude.{◌≡◌, map, option_map};
ghost use Rattle.std.specs.List.{list_any};
ghost use Rattle.std.specs.Str.{bytes_eq};
ghost use Rattle.serde_json.specs.View.{view, number_view, items_view, members_view};
ghost use Rattle.config_json.specs.Others.{counts_as_absent, first_other, has_no_items, has_no_members, is_no_number, other_in};

use serde_json::{Map, Number, Value};

fn is_no_number(number: &Number) -> bool
    ensures { result ≡ is_no_number (number_view number.now) }
{
    match number.as_i64() {
        Some(number) => number == 0 || number == -1,
        None => false,
    }
}

fn has_no_items(items: &[Value]) -> bool
    ensures { result ≡ has_no_items (items_view items.now) }
{
    items.is_empty()
}

fn has_no_members(members: &Map<String, Value>) -> bool
    ensures { result ≡ has_no_members (members_view members.now.entries) }
{
    members.is_empty()
}

/// Clients write out members that they don't use, with such a value.
fn counts_as_absent(value: &Value) -> bool
    ensures { result ≡ counts_as_absent (view value.now) }
{
    match value {
        Value::Null => true,
        Value::Bool(flag) => !*flag,
        Value::Number(number) => is_no_number(number),
        Value::String(text) => text.is_empty() || text.as_str() == "none",
        Value::Array(items) => has_no_items(items),
        Value::Object(members) => has_no_members(members),
    }
}

fn is_known(known: &[&str], name: &str) -> bool
    ensures { result ≡ list_any (bytes_eq name.now) (map (λ k. k.now) known.now) }
{
    for other in known {
        if name == *other {
            return true;
        }
    }
    false
}

fn first_other<'a>(known: &[&str], members: &'a Map<String, Value>) -> Option<&'a str>
    ensures { option_map (λ t. t.now) result ≡ first_other (map (λ k. k.now) known.now) (members_view members.now.entries) }
{
    for (name, member) in members.iter() {
        if !is_known(known, name.as_str()) && !counts_as_absent(member) {
            return Some(name.as_str());
        }
    }
    None
}

/// The first member of an object, in byte order, that has none of the known names and doesn't count
/// as absent.
pub(crate) fn other_in<'a>(known: &[&str], value: &'a Value) -> Option<&'a str>
    ensures { option_map (λ t. t.now) result ≡ other_in (map (λ k. k.now) known.now) (view value.now) }
{
    match value.as_object() {
        Some(members) => first_other(known, members),
        None => None,
    }
}
