//! The subscriptions by the bytes of their patterns.
ghost use Rattle.std.specs.Prelude.{◌≡◌, ℕ, [], true, List as Items, if◌then◌else◌, OnOk, OnErr};
ghost use Rattle.std.specs.BTreeSet.{replace_key};
ghost use Rattle.std.specs.Set.{remove_key};
ghost use Rattle.std.specs.Str.{bytes_eq};
ghost use Rattle.interest_list.specs.Lists.{subscription_cmp};
ghost use Rattle.pattern_tree.specs.Order.{is_same};
ghost use Rattle.pattern_tree.specs.Standing.{listed};

use crate::Entry;
use nats_text::NoMemory;
use std::alloc::Global;
use std::collections::{BTreeMap, BTreeSet};

/// Entries by the bytes of their patterns. A pattern without entries doesn't stand, for each that stands
/// is walked.
pub type Listing = BTreeMap<Vec<u8>, BTreeSet<Entry>>;

/// Lists an entry under its pattern, in place of one that is equal there.
pub fn list(alloc: Global, listing: &mut Listing, entry: Entry) -> Result<(), NoMemory>
    ensures ok { OnOk result ((pattern : Items ℕ) → listed pattern listing.new ≡ (if bytes_eq entry.pattern pattern then replace_key subscription_cmp (listed pattern listing.old) entry else listed pattern listing.old)) }
    ensures err { OnErr result ((pattern : Items ℕ) → listed pattern listing.new ≡ listed pattern listing.old) }
{
    let pattern = Vec::from_slice(alloc, entry.pattern())?;
    if let Some(entries) = listing.get_mut(pattern.as_slice()) {
        entries.replace(entry)?;
        return Ok(());
    }
    let mut entries = BTreeSet::new(alloc);
    entries.replace(entry)?;
    listing.insert(pattern, entries)?;
    Ok(())
}

/// Takes the entry that is equal to this one from the list of a pattern.
pub fn unlist(listing: &mut Listing, pattern: &[u8], entry: &Entry)
    ensures { (other : Items ℕ) → listed other listing.new ≡ (if bytes_eq pattern.now other then remove_key (is_same entry.now) (listed other listing.old) else listed other listing.old) }
{
    take_listed(listing, pattern, entry);
    drop_if_empty(listing, pattern);
}

fn take_listed(listing: &mut Listing, pattern: &[u8], entry: &Entry)
    ensures { (other : Items ℕ) → listed other listing.new ≡ (if bytes_eq pattern.now other then remove_key (is_same entry.now) (listed other listing.old) else listed other listing.old) }
{
    if let Some(entries) = listing.get_mut(pattern) {
        entries.remove(entry);
    }
}

fn drop_if_empty(listing: &mut Listing, pattern: &[u8])
    ensures { (other : Items ℕ) → listed other listing.new ≡ listed other listing.old }
{
    if is_unused(listing, pattern) {
        listing.remove(pattern);
    }
}

fn is_unused(listing: &Listing, pattern: &[u8]) -> bool
    ensures { result ≡ true → listed pattern.now listing.now ≡ [] }
{
    match listing.get(pattern) {
        Some(entries) => entries.is_empty(),
        None => false,
    }
}
