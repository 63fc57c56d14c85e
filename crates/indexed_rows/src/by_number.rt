ghost use Rattle.std.specs.Prelude.{◌≡◌, ◌<◌, ◌^◌, ◌++◌, ◌∷◌, [], true, length, filter, not, ◌==◌, option_map, OnOk, OnErr};
ghost use Rattle.std.specs.Map.{keys_of};
ghost use Rattle.std.specs.Option.{option_copied};
ghost use Rattle.stream_fold.specs.RowLists.{Rises};
ghost use Rattle.indexed_rows.specs.Entries.{value_at, first_number, last_number, entry_from};

use nats_text::NoMemory;
use std::alloc::Global;
use std::collections::BTreeMap;
use std::marker::Model;

/// Values under numbers that rise. The newest stands apart from the map of the others: once it has moved
/// into the map, one more value takes no memory.
#[derive(Drop)]
pub struct ByNumber<V> {
    older: BTreeMap<u64, V>,
    newest: Option<(u64, V)>,
}

impl<V> Model for ByNumber<V> {
    ghost use Rattle.std.specs.Map.{keys_of};
    ghost use Rattle.std.specs.Prelude.{is_none, ◌++◌};
    ghost use Rattle.stream_fold.specs.RowLists.{Rises};
    ghost use Rattle.indexed_rows.specs.Entries.{Entries, entries_code, with_newest};

    ghost Value = { Entries V };

    ghost coded = { entries_code V.code };

    ghost view = { λ b. record { items = with_newest b.older.entries b.newest; has_room = is_none b.newest } };

    ghost invariant = { λ b. Rises 0 (keys_of (with_newest b.older.entries b.newest)) };
}

impl<V> ByNumber<V> {
    pub fn new(alloc: Global) -> ByNumber<V>
        ensures items { result.items ≡ [] }
        ensures room { result.has_room ≡ true }
    {
        ByNumber {
            older: BTreeMap::new(alloc),
            newest: None,
        }
    }

    pub fn len(&self) -> usize
        ensures { result ≡ length self.now.items }
    {
        let apart = if self.newest.is_some() { 1 } else { 0 };
        self.older.len() + apart
    }

    /// The value under a number.
    pub fn get(&self, number: u64) -> Option<&V>
        ensures { option_copied result ≡ value_at number self.now.items }
    {
        let Some((newest, value)) = &self.newest else {
            return self.older.get(&number);
        };
        if *newest == number {
            return Some(value);
        }
        self.older.get(&number)
    }

    /// The least number.
    pub fn first(&self) -> Option<u64>
        ensures { result ≡ first_number self.now.items }
    {
        match self.older.first_key_value() {
            Some((number, _)) => Some(*number),
            None => self.last(),
        }
    }

    /// The greatest number.
    pub fn last(&self) -> Option<u64>
        ensures { result ≡ last_number self.now.items }
    {
        if let Some((number, _)) = &self.newest {
            return Some(*number);
        }
        match self.older.last_key_value() {
            Some((number, _)) => Some(*number),
            None => None,
        }
    }

    /// The first value at a number or behind it.
    pub fn next_from(&self, number: u64) -> Option<(u64, &V)>
        ensures { option_map (λ e. (e.0, e.1.now)) result ≡ entry_from number self.now.items }
    {
        if let Some((found, value)) = self.older.range(number..).next() {
            return Some((*found, value));
        }
        let Some((found, value)) = &self.newest else {
            return None;
        };
        if number <= *found {
            Some((*found, value))
        } else {
            None
        }
    }
}

impl<V: Drop> ByNumber<V> {
    /// Takes the value under a number away.
    pub fn remove(&mut self, number: u64) -> Option<V>
        ensures value { result ≡ value_at number self.old.items }
        ensures items { self.new.items ≡ filter (λ e. not (e.0 == number)) self.old.items }
        ensures room { self.old.has_room ≡ true → self.new.has_room ≡ true }
    {
        let Some((newest, value)) = self.newest.take() else {
            return self.older.remove(&number);
        };
        if newest == number {
            return Some(value);
        }
        self.newest = Some((newest, value));
        self.older.remove(&number)
    }

    /// Makes room for one more value. Without memory all stays as it was.
    pub fn reserve(&mut self) -> Result<(), NoMemory>
        ensures items { self.new.items ≡ self.old.items }
        ensures ok { OnOk result (self.new.has_room ≡ true) }
        ensures err { OnErr result (self.new.has_room ≡ self.old.has_room) }
    {
        let Some((number, value)) = self.newest.take() else {
            return Ok(());
        };
        match self.older.insert(number, value) {
            Ok(_) => Ok(()),
            Err(failed) => {
                self.newest = Some(failed.value);
                Err(NoMemory)
            }
        }
    }

    /// Adds a value under a number above all others.
    pub fn push(&mut self, number: u64, value: V)
        requires room { self.old.has_room ≡ true }
        requires above { Rises 0 (keys_of (self.old.items ++ (number, value) ∷ [])) }
        ensures { self.new.items ≡ self.old.items ++ (number, value) ∷ [] }
    {
        self.newest = Some((number, value));
    }
}
