ghost use Rattle.std.specs.Prelude.{◌≡◌, ◌<◌, ◌+◌, ◌^◌, ◌++◌, ◌∷◌, [], ◌==◌, None, Some, not, filter, length, count_by, slice_get, option_map, OnOk, OnErr};
ghost use Rattle.std.specs.Option.{option_copied};
ghost use Rattle.std.specs.Str.{bytes_eq};
ghost use Rattle.nats_text.specs.Sizes.{size};
ghost use Rattle.stream_fold.specs.Counting.{pushed_out};
ghost use Rattle.stream_fold.specs.Histories.{is_purged, is_expired, message_at, newest_of_subjects, newest_within, size_of};
ghost use Rattle.stream_fold.specs.Publishing.{last_of, next_match};
ghost use Rattle.stream_fold.specs.RowLists.{with_place, EachRow};

use crate::by_number::ByNumber;
use crate::index::{self, Index};
use crate::{expiring, limiting, purging};
use nats_text::{Message, NoMemory, Pattern, Subject};
use std::alloc::Global;
use std::collections::BTreeMap;
use std::marker::Model;
use stream_fold::{Config, Numbered};

/// The messages that are kept, oldest first, found by number and by subject, and the sum of their sizes.
/// Contracts see the list of the rows, and the subject for whose next message places are ready.
#[derive(Drop)]
pub struct IndexedRows {
    index: Index,
}

impl Model for IndexedRows {
    ghost use Rattle.indexed_rows.specs.Indexes.{IndexedList, IsIndexed, rows_of, ready_in};

    ghost Value = { IndexedList };

    ghost view = { λ r. record { rows = rows_of r.index.messages.items; ready = ready_in r.index.coming } };

    ghost invariant = { λ r. IsIndexed r.index };
}

impl IndexedRows {
    /// No messages, and nothing is ready.
    pub fn new(alloc: Global) -> IndexedRows
        ensures rows { result.rows ≡ [] }
        ensures ready { result.ready ≡ None }
    {
        IndexedRows {
            index: Index {
                alloc,
                messages: ByNumber::new(alloc),
                subjects: BTreeMap::new(alloc),
                total: 0,
                latest: 0,
                in_order: true,
                coming: None,
            },
        }
    }

    /// How many messages are kept.
    pub fn len(&self) -> usize
        ensures { result ≡ length self.now.rows }
    {
        self.index.messages.len()
    }

    /// The sum of their sizes, in bytes.
    pub fn total(&self) -> u64
        ensures { result ≡ size_of self.now.rows }
    {
        self.index.total
    }

    /// The least number, where one is kept.
    pub fn first(&self) -> Option<u64>
        ensures { result ≡ option_map (λ row. row.seq) (slice_get self.now.rows 0) }
    {
        self.index.messages.first()
    }

    /// The message that is kept under a number.
    pub fn get(&self, seq: u64) -> Option<&Message>
        ensures { option_copied result ≡ message_at seq self.now.rows }
    {
        self.index.messages.get(seq)
    }

    /// The greatest number of a subject.
    pub fn last_of(&self, subject: &[u8]) -> Option<u64>
        ensures { result ≡ last_of subject.now self.now.rows }
    {
        index::last_of(&self.index, subject)
    }

    /// How many messages of a subject are kept.
    pub fn count_of(&self, subject: &[u8]) -> usize
        ensures { result ≡ count_by (λ row. bytes_eq row.message.subject subject.now) self.now.rows }
    {
        index::count_of(&self.index, subject)
    }

    /// The first message of a subject, where a new one of it is one too many. A limit of 0 is none.
    pub fn pushed_out(&self, most: u64, subject: &[u8]) -> Option<&Message>
        ensures { option_copied result ≡ option_map (λ row. row.message) (pushed_out most subject.now self.now.rows) }
    {
        index::pushed_out(&self.index, most, subject)
    }

    /// The least number at or after `from` of a subject that one of the filters matches. All subjects
    /// match where there is no filter.
    pub fn next_match(&self, from: u64, filters: &[Pattern]) -> Option<u64>
        ensures { result ≡ next_match from filters.now self.now.rows }
    {
        index::next_match(&self.index, from, filters)
    }

    /// Makes places for a message of this subject, so that `push` takes no memory, and takes those away
    /// that were made for another subject and not used. Without memory those stay. A message that is
    /// taken away leaves all places as they are.
    pub fn reserve(&mut self, subject: &Subject) -> Result<(), NoMemory>
        ensures rows { self.new.rows ≡ self.old.rows }
        ensures ok { OnOk result (self.new.ready ≡ Some subject.now) }
        ensures err { OnErr result (self.new.ready ≡ self.old.ready) }
    {
        index::reserve(&mut self.index, subject)
    }

    /// Adds a row at the end, under a number above all others.
    pub fn push(&mut self, row: Numbered)
        requires ready { self.old.ready ≡ Some row.message.subject }
        requires above { EachRow (λ r. r.seq < row.seq) self.old.rows }
        requires total { size_of self.old.rows + size row.message < 2 ^ 64 }
        ensures rows { self.new.rows ≡ self.old.rows ++ row ∷ [] }
    {
        index::push(&mut self.index, row);
    }

    /// Adds a row at the end, where the first one of its subject goes if so many stand. A limit of 0
    /// is none.
    pub fn push_newest(&mut self, row: Numbered, most: u64)
        requires ready { self.old.ready ≡ Some row.message.subject }
        requires above { EachRow (λ r. r.seq < row.seq) self.old.rows }
        requires total { size_of self.old.rows + size row.message < 2 ^ 64 }
        ensures rows { self.new.rows ≡ with_place most row.message.subject self.old.rows ++ row ∷ [] }
    {
        index::make_place(&mut self.index, row.message.subject.bytes(), most);
        index::push(&mut self.index, row);
    }

    /// Takes the message of a number away, where one is kept under it.
    pub fn delete(&mut self, seq: u64)
        ensures rows { self.new.rows ≡ filter (λ row. not (row.seq == seq)) self.old.rows }
        ensures ready { self.new.ready ≡ self.old.ready }
    {
        index::delete(&mut self.index, seq);
    }

    /// Takes the messages away that match and whose numbers are below `below`.
    pub fn purge(&mut self, pattern: &Pattern, below: u64)
        ensures rows { self.new.rows ≡ filter (λ row. not (is_purged pattern.now below row)) self.old.rows }
        ensures ready { self.new.ready ≡ self.old.ready }
    {
        purging::purge(&mut self.index, pattern, below);
    }

    /// Takes the messages away that are as old as the limit on age says. A limit of 0 is none.
    pub fn expire(&mut self, max_age: u64, now: u64)
        ensures rows { self.new.rows ≡ filter (λ row. not (is_expired max_age now row)) self.old.rows }
        ensures ready { self.new.ready ≡ self.old.ready }
    {
        expiring::expire(&mut self.index, max_age, now);
    }

    /// Takes away the older messages of each subject that has more than so many. A limit of 0 is none.
    pub fn keep_newest(&mut self, most: u64)
        ensures rows { self.new.rows ≡ newest_of_subjects most self.old.rows }
        ensures ready { self.new.ready ≡ self.old.ready }
    {
        if most != 0 {
            limiting::keep_newest_of_each(&mut self.index, most);
        }
    }

    /// Takes away the oldest that the limits on count and bytes don't allow.
    pub fn drop_excess(&mut self, config: &Config)
        ensures rows { self.new.rows ≡ newest_within config.now self.old.rows }
        ensures ready { self.new.ready ≡ self.old.ready }
    {
        limiting::drop_excess(&mut self.index, config);
    }
}
