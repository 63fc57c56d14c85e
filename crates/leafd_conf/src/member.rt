ghost use Rattle.std.specs.Prelude.{◌≡◌, None, codes, map, option_map};
ghost use Rattle.toml.specs.Data.{get_member};
ghost use Rattle.toml.specs.View.{view, table_view};
ghost use Rattle.leafd_conf.specs.Profile.{Gives, IsProblem, first_other, is_among, is_reserved, name_in, optional, optional_text_in, or_bad, required, takes, text_in};

use crate::address::is_address;
use crate::{ConfKind, ConfProblem};
use nats_text::{Bytes, Name, TextFault};
use std::alloc::Global;
use toml::{Table, Value};

/// What the text of a member has to be.
#[derive(Clone, Copy, Debug, PartialEq, Eq)]
pub(crate) enum TextRule {
    Any,
    Address,
}

impl TextRule {
    fn takes(self, text: &[u8]) -> bool
        ensures { result ≡ takes self text.now }
    {
        match self {
            TextRule::Any => true,
            TextRule::Address => is_address(text),
        }
    }
}

/// The value of a member.
pub(crate) fn value_at<'a>(table: &'a Table, member: &str) -> Option<&'a Value>
    ensures { option_map (λ value. view value.now) result ≡ get_member member.now (table_view table.now) }
{
    table.get(member)
}

/// The text of a member that has to be there.
pub(crate) fn required(
    alloc: Global,
    table: &Table,
    member: &str,
    rule: TextRule,
) -> Result<Bytes, ConfProblem>
    ensures { Gives result (required (text_in rule) member.now (table_view table.now)) }
{
    match value_at(table, member) {
        Some(value) => text_in(alloc, value, member, rule),
        None => Err(problem(alloc, ConfKind::Missing, member)),
    }
}

/// The text of a member that may be left out.
pub(crate) fn optional(
    alloc: Global,
    table: &Table,
    member: &str,
) -> Result<Option<Bytes>, ConfProblem>
    ensures { Gives result (optional optional_text_in None member.now (table_view table.now)) }
{
    match value_at(table, member) {
        Some(value) => match text_in(alloc, value, member, TextRule::Any) {
            Ok(text) => Ok(Some(text)),
            Err(problem) => Err(problem),
        },
        None => Ok(None),
    }
}

fn text_in(alloc: Global, value: &Value, member: &str, rule: TextRule) -> Result<Bytes, ConfProblem>
    ensures { Gives result (or_bad member.now (text_in rule (view value.now))) }
{
    if let Some(text) = value.as_str() {
        if rule.takes(text.as_bytes()) {
            return Ok(Bytes::from_slice(alloc, text.as_bytes())?);
        }
    }
    Err(problem(alloc, ConfKind::BadValue, member))
}

/// The name of the node.
pub(crate) fn node_name(alloc: Global, table: &Table) -> Result<Name, ConfProblem>
    ensures { Gives result (required name_in (codes "name") (table_view table.now)) }
{
    match value_at(table, "name") {
        Some(value) => name_in(alloc, value),
        None => Err(problem(alloc, ConfKind::Missing, "name")),
    }
}

fn name_in(alloc: Global, value: &Value) -> Result<Name, ConfProblem>
    ensures { Gives result (or_bad (codes "name") (name_in (view value.now))) }
{
    if let Some(text) = value.as_str() {
        if !is_reserved(text.as_bytes()) {
            match Name::read(alloc, text.as_bytes()) {
                Ok(name) => return Ok(name),
                Err(TextFault::NoMemory) => return Err(ConfProblem::NoMemory),
                Err(TextFault::Bad { .. }) => {}
            }
        }
    }
    Err(problem(alloc, ConfKind::BadValue, "name"))
}

/// Whether no node may have this name.
fn is_reserved(name: &[u8]) -> bool
    ensures { result ≡ is_reserved name.now }
{
    name == b"API".as_slice() || name == b"M".as_slice() || name == b"FC".as_slice()
}

/// The first member of a table, in the order of bytes, that isn't one of these.
pub(crate) fn first_other<'a>(table: &'a Table, members: &[&str]) -> Option<&'a str>
    ensures { option_map (λ key. key.now) result ≡ first_other (map (λ member. member.now) members.now) (table_view table.now) }
{
    'members: for (key, _value) in table.iter() {
        if !is_among(key.as_str(), members) {
            return Some(key.as_str());
        }
    }
    None
}

fn is_among(key: &str, members: &[&str]) -> bool
    ensures { result ≡ is_among (map (λ member. member.now) members.now) key.now }
{
    let mut rest = members;
    while let [member, others @ ..] = rest {
        if *member == key {
            return true;
        }
        rest = others;
    }
    false
}

/// What is wrong with a member. There may be no memory for its name.
pub(crate) fn problem(alloc: Global, kind: ConfKind, member: &str) -> ConfProblem
    ensures { IsProblem kind member.now result }
{
    match Bytes::from_slice(alloc, member.as_bytes()) {
        Ok(member) => ConfProblem::Bad { kind, member },
        Err(_) => ConfProblem::NoMemory,
    }
}
