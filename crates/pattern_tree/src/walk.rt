//! The walk along the tokens of a subject.
ghost use Rattle.std.specs.Prelude.{◌≡◌, ℕ, false, true, ◌++◌, ◌∷◌, [], nat_eq, List as Items, None, IfOk};
ghost use Rattle.std.specs.List.{starts_with};
ghost use Rattle.nats_text.specs.Pieces.{views};
ghost use Rattle.pattern_tree.specs.Reached.{Adds, Reached, value_at, in_option, seen};

use nats_text::{NoMemory, cut};
use std::alloc::Global;
use std::collections::BTreeMap;

/// Whether a pattern stands that begins with this front. Where there is none, none does.
pub fn stands<V>(map: &BTreeMap<Vec<u8>, V>, front: &Vec<u8>) -> bool
    ensures { result ≡ false → (k : Items ℕ) → starts_with nat_eq k front.now.items ≡ true → value_at k map.now ≡ None }
{
    match map.range(front..).next() {
        Some((key, _)) => key.as_slice().starts_with(front.as_slice()),
        None => false,
    }
}

/// Adds the value of a pattern, where it stands.
pub fn take_at<'a, V>(
    map: &'a BTreeMap<Vec<u8>, V>,
    key: &[u8],
    found: Vec<&'a V>,
) -> Result<Vec<&'a V>, NoMemory>
    ensures { IfOk result (λ it. seen it.items ≡ seen found.entry.items ++ in_option (value_at key.now map.now)) }
{
    let mut found = found;
    if let Some(value) = map.get(key) {
        found.push(value)?;
    }
    Ok(found)
}

/// A front with a token behind it.
pub fn ended(alloc: Global, front: &[u8], token: &[u8]) -> Result<Vec<u8>, NoMemory>
    ensures { IfOk result (λ it. it.items ≡ front.now ++ token.now) }
{
    let mut text = Vec::from_slice(alloc, front)?;
    text.extend_from_slice(token)?;
    Ok(text)
}

/// A front with a token and a dot behind it.
pub fn longer(alloc: Global, front: &[u8], token: &[u8]) -> Result<Vec<u8>, NoMemory>
    ensures { IfOk result (λ it. it.items ≡ front.now ++ (token.now ++ 46 ∷ [])) }
{
    let mut text = ended(alloc, front, token)?;
    text.push(b'.')?;
    Ok(text)
}

/// Adds the values of all patterns that begin with the front, and whose rest matches what is left of the
/// subject.
pub fn walk<'a, V>(
    alloc: Global,
    map: &'a BTreeMap<Vec<u8>, V>,
    front: &[u8],
    rest: &[u8],
    found: Vec<&'a V>,
) -> Result<Vec<&'a V>, NoMemory>
    ensures { IfOk result (λ it. Adds (Reached front.now rest.now) map.now (seen found.entry.items) (seen it.items)) }
{
    let open = ended(alloc, front, b">")?;
    let mut found = take_at(map, open.as_slice(), found)?;
    let Some((token, after)) = cut(rest, b'.') else {
        let any = ended(alloc, front, b"*")?;
        found = take_at(map, any.as_slice(), found)?;
        let whole = ended(alloc, front, rest)?;
        return take_at(map, whole.as_slice(), found);
    };
    let any = longer(alloc, front, b"*")?;
    if stands(map, &any) {
        found = walk(alloc, map, any.as_slice(), after, found)?;
    }
    let next = longer(alloc, front, token)?;
    if stands(map, &next) {
        found = walk(alloc, map, next.as_slice(), after, found)?;
    }
    Ok(found)
}
