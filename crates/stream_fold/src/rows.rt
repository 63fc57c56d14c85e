ghost use Rattle.std.specs.Prelude.{◌≡◌, ◌<◌, ◌≤◌, ◌+◌, ◌^◌, ◌++◌, ◌∷◌, [], ◌==◌, not, filter, OnOk};
ghost use Rattle.std.specs.Option.{option_copied};
ghost use Rattle.nats_text.specs.Sizes.{size};
ghost use Rattle.stream_fold.specs.Histories.{is_purged, is_expired, message_at, newest_of_subjects, newest_within, size_of};
ghost use Rattle.stream_fold.specs.RowLists.{with_place, from_number, seqs, Rises};

use crate::trim::{
    count_of_subject, drop_front, excess_of, is_older, keep_newest_of_each, remove_first, total_of,
};
use crate::{Config, Numbered};
use nats_text::{Message, NoMemory, Pattern, matches};
use std::alloc::Global;
use std::marker::Model;

/// The messages that are kept, oldest first, and the sum of their sizes.
#[derive(Debug, Drop)]
pub struct Rows {
    items: Vec<Numbered>,
    total: u64,
}

impl Model for Rows {
    ghost use Rattle.std.specs.Prelude.{◌-◌, vec_len};
    ghost use Rattle.std.specs.Vec.{vec_capacity};
    ghost use Rattle.stream_fold.specs.RowLists.{RowList, IsTotal};

    ghost Value = { RowList };

    ghost view = { λ r. record { rows = r.items.items; room = vec_capacity r.items - vec_len r.items } };

    ghost invariant = { λ r. IsTotal r.total r.items.items };
}

impl Rows {
    pub fn new(alloc: Global) -> Rows
        ensures { result.rows ≡ [] }
    {
        Rows {
            items: Vec::new(alloc),
            total: 0,
        }
    }

    pub fn as_slice(&self) -> &[Numbered]
        ensures { result.now ≡ self.now.rows }
    {
        self.items.as_slice()
    }

    pub fn total(&self) -> u64
        ensures value { result ≡ size_of self.now.rows }
    {
        self.total
    }

    /// Makes room for one row.
    pub fn reserve(&mut self) -> Result<(), NoMemory>
        ensures rows { self.new.rows ≡ self.old.rows }
        ensures room { self.old.room ≤ self.new.room }
        ensures ok { OnOk result (0 < self.new.room) }
    {
        self.items.reserve(1)?;
        Ok(())
    }

    /// Adds a row at the end.
    pub fn push(&mut self, row: Numbered)
        requires room { 0 < self.old.room }
        requires total { size_of self.old.rows + size row.message < 2 ^ 64 }
        ensures { self.new.rows ≡ self.old.rows ++ row ∷ [] }
    {
        self.total += row.message.size() as u64;
        self.items.push_reserved(row);
    }

    /// Adds a row at the end, where the first one of its subject goes if so many stand. A limit of 0
    /// is none.
    pub fn push_newest(&mut self, row: Numbered, most: u64)
        requires room { 0 < self.old.room }
        requires total { size_of self.old.rows + size row.message < 2 ^ 64 }
        ensures { self.new.rows ≡ with_place most row.message.subject self.old.rows ++ row ∷ [] }
    {
        self.make_place(row.message.subject.bytes(), most);
        self.push(row);
    }

    fn make_place(&mut self, subject: &[u8], most: u64)
        ensures rows { self.new.rows ≡ with_place most subject.now self.old.rows }
        ensures total { size_of self.new.rows ≤ size_of self.old.rows }
        ensures room { self.old.room ≤ self.new.room }
    {
        if most != 0 && most <= count_of_subject(subject, &self.items) as u64 {
            remove_first(&mut self.items, &mut self.total, subject);
        }
    }

    pub fn delete(&mut self, seq: u64)
        ensures { self.new.rows ≡ filter (λ row. not (row.seq == seq)) self.old.rows }
    {
        delete(&mut self.items, seq);
        self.total = total_of(&self.items);
    }

    pub fn purge(&mut self, pattern: &Pattern, below: u64)
        ensures { self.new.rows ≡ filter (λ row. not (is_purged pattern.now below row)) self.old.rows }
    {
        purge(&mut self.items, pattern, below);
        self.total = total_of(&self.items);
    }

    pub fn expire(&mut self, max_age: u64, now: u64)
        ensures { self.new.rows ≡ filter (λ row. not (is_expired max_age now row)) self.old.rows }
    {
        expire(&mut self.items, max_age, now);
        self.total = total_of(&self.items);
    }

    /// Takes away the older messages of each subject that has more than so many. A limit of 0 is none.
    pub fn keep_newest(&mut self, most: u64)
        ensures { self.new.rows ≡ newest_of_subjects most self.old.rows }
    {
        if most != 0 {
            keep_newest_of_each(&mut self.items, most);
            self.total = total_of(&self.items);
        }
    }

    /// Takes away the oldest that the limits on count and bytes don't allow.
    pub fn drop_excess(&mut self, config: &Config)
        ensures { self.new.rows ≡ newest_within config.now self.old.rows }
    {
        let excess = excess_of(&self.items, &mut self.total, config);
        drop_front(&mut self.items, excess);
    }
}

/// The rows from a number on.
pub fn rows_from(rows: &[Numbered], seq: u64) -> &[Numbered]
    requires { Rises 0 (seqs rows.now) }
    ensures rows { result.now ≡ from_number seq rows.now }
    ensures rises { Rises seq (seqs result.now) }
{
    let place = rows.partition_point(|row| row.seq < seq);
    &rows[place..]
}

/// The message of a number, where no lower one is there.
pub fn message_of(rows: &[Numbered], seq: u64) -> Option<&Message>
    requires { Rises seq (seqs rows.now) }
    ensures { option_copied result ≡ message_at seq rows.now }
{
    let row = rows.first()?;
    if row.seq == seq {
        Some(&row.message)
    } else {
        None
    }
}

fn delete(rows: &mut Vec<Numbered>, seq: u64)
    ensures { rows.new.items ≡ filter (λ row. not (row.seq == seq)) rows.old.items }
{
    rows.retain(|row| row.seq != seq);
}

fn purge(rows: &mut Vec<Numbered>, pattern: &Pattern, below: u64)
    ensures { rows.new.items ≡ filter (λ row. not (is_purged pattern.now below row)) rows.old.items }
{
    rows.retain(|row| !is_purged(row, pattern, below));
}

fn is_purged(row: &Numbered, pattern: &Pattern, below: u64) -> bool
    ensures { result ≡ is_purged pattern.now below row.now }
{
    row.seq < below && matches(pattern, &row.message.subject)
}

fn expire(rows: &mut Vec<Numbered>, max_age: u64, now: u64)
    ensures { rows.new.items ≡ filter (λ row. not (is_expired max_age now row)) rows.old.items }
{
    rows.retain(|row| !is_expired(row, max_age, now));
}

fn is_expired(row: &Numbered, max_age: u64, now: u64) -> bool
    ensures { result ≡ is_expired max_age now row.now }
{
    max_age != 0 && is_older(row.message.time, max_age, now)
}
