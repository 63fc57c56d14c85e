ghost use Rattle.std.specs.Prelude.{◌≡◌, ◌<◌, ◌+◌, ◌^◌, ◌++◌, ◌∷◌, [], ◌==◌, true, not, ◌&&◌, nat_le, filter, count_by, slice_get, option_map, Some, OnOk, OnErr};
ghost use Rattle.std.specs.Option.{option_copied};
ghost use Rattle.std.specs.List.{list_any};
ghost use Rattle.nats_text.specs.Matching.{matches};
ghost use Rattle.nats_text.specs.Sizes.{size};
ghost use Rattle.stream_fold.specs.Counting.{pushed_out};
ghost use Rattle.stream_fold.specs.Histories.{size_of};
ghost use Rattle.stream_fold.specs.Publishing.{last_of, next_match};
ghost use Rattle.stream_fold.specs.RowLists.{with_place, without_first, EachRow};
ghost use Rattle.indexed_rows.specs.Entries.{number_from};
ghost use Rattle.indexed_rows.specs.Indexes.{IsIndexed, IsInOrder, rows_of, ready_in, seq_in, is_of, takes};

use crate::by_number::ByNumber;
use crate::subjects::{
    Subjects, count_listed, drop_unused, first_listed, last_listed, list_number, reserve_number,
    unlist_number,
};
use nats_text::{Message, NoMemory, Pattern, Subject, matches};
use std::alloc::Global;
use stream_fold::Numbered;

/// What the indexes are made of. `coming` is the subject for whose next message places are ready. The
/// times of messages need not rise: `in_order` says that they do, up to `latest`, as in a stream whose
/// messages were all stored as they came.
#[derive(Drop)]
pub struct Index {
    pub alloc: Global,
    pub messages: ByNumber<Message>,
    pub subjects: Subjects,
    pub total: u64,
    pub latest: u64,
    pub in_order: bool,
    pub coming: Option<Vec<u8>>,
}

/// The greatest number of a subject.
pub fn last_of(index: &Index, subject: &[u8]) -> Option<u64>
    requires { IsIndexed index.now }
    ensures { result ≡ last_of subject.now (rows_of index.now.messages.items) }
{
    last_listed(&index.subjects, subject)
}

/// How many messages of a subject are kept.
pub fn count_of(index: &Index, subject: &[u8]) -> usize
    requires { IsIndexed index.now }
    ensures { result ≡ count_by (is_of subject.now) (rows_of index.now.messages.items) }
{
    count_listed(&index.subjects, subject)
}

/// The least number of a subject.
pub fn first_of(index: &Index, subject: &[u8]) -> Option<u64>
    requires { IsIndexed index.now }
    ensures { result ≡ seq_in (slice_get (filter (is_of subject.now) (rows_of index.now.messages.items)) 0) }
{
    first_listed(&index.subjects, subject)
}

/// The first message of a subject, where a new one of it is one too many.
pub fn pushed_out<'a>(index: &'a Index, most: u64, subject: &[u8]) -> Option<&'a Message>
    requires { IsIndexed index.now }
    ensures { option_copied result ≡ option_map (λ row. row.message) (pushed_out most subject.now (rows_of index.now.messages.items)) }
{
    if !is_full_of(index, subject, most) {
        return None;
    }
    match first_of(index, subject) {
        Some(seq) => index.messages.get(seq),
        None => None,
    }
}

/// Whether so many messages of a subject are kept. A limit of 0 is none.
fn is_full_of(index: &Index, subject: &[u8], most: u64) -> bool
    requires { IsIndexed index.now }
    ensures { result ≡ (not (most == 0) && nat_le most (count_by (is_of subject.now) (rows_of index.now.messages.items))) }
{
    most != 0 && most <= count_of(index, subject) as u64
}

/// The least number at or after `from` of a subject that one of the filters matches. Without a filter it
/// is the first one that is looked at.
pub fn next_match(index: &Index, from: u64, filters: &[Pattern]) -> Option<u64>
    requires { IsIndexed index.now }
    ensures { result ≡ next_match from filters.now (rows_of index.now.messages.items) }
{
    let Some(last) = index.messages.last() else {
        return None;
    };
    let mut next = from;
    while let Some((seq, message)) = index.messages.next_from(next) {
        if is_taken(filters, &message.subject) {
            return Some(seq);
        }
        if last <= seq {
            return None;
        }
        next = seq + 1;
    }
    None
}

fn is_taken(filters: &[Pattern], subject: &Subject) -> bool
    ensures { result ≡ takes filters.now subject.now }
{
    filters.is_empty() || any_matches(filters, subject)
}

fn any_matches(filters: &[Pattern], subject: &Subject) -> bool
    ensures { result ≡ list_any (λ pattern. matches pattern subject.now) filters.now }
{
    filters.iter().any(|pattern| matches(pattern, subject))
}

/// The first number from this one on.
pub fn number_from(index: &Index, from: u64) -> Option<u64>
    ensures { result ≡ number_from from index.now.messages.items }
{
    match index.messages.next_from(from) {
        Some((seq, _)) => Some(seq),
        None => None,
    }
}

/// Makes places for a message of the subject, and takes those away that were made for another subject
/// and not used. Without memory those stay.
pub fn reserve(index: &mut Index, subject: &Subject) -> Result<(), NoMemory>
    requires { IsIndexed index.old }
    ensures indexed { IsIndexed index.new }
    ensures rows { rows_of index.new.messages.items ≡ rows_of index.old.messages.items }
    ensures ok { OnOk result (ready_in index.new.coming ≡ Some subject.now) }
    ensures err { OnErr result (ready_in index.new.coming ≡ ready_in index.old.coming) }
{
    let coming = Vec::from_slice(index.alloc, subject.bytes())?;
    index.messages.reserve()?;
    reserve_number(index.alloc, &mut index.subjects, subject.bytes())?;
    drop_unused(&mut index.subjects, &index.coming, subject.bytes());
    index.coming = Some(coming);
    Ok(())
}

/// Adds a message for which places are ready, under a number above all others.
pub fn push(index: &mut Index, row: Numbered)
    requires indexed { IsIndexed index.old }
    requires ready { ready_in index.old.coming ≡ Some row.message.subject }
    requires above { EachRow (λ r. r.seq < row.seq) (rows_of index.old.messages.items) }
    requires total { size_of (rows_of index.old.messages.items) + size row.message < 2 ^ 64 }
    ensures indexed { IsIndexed index.new }
    ensures rows { rows_of index.new.messages.items ≡ rows_of index.old.messages.items ++ row ∷ [] }
{
    let Numbered { seq, message } = row;
    index.in_order = is_in_order(index, message.time);
    index.latest = message.time;
    index.total += message.size() as u64;
    list_number(&mut index.subjects, message.subject.bytes(), seq);
    index.messages.push(seq, message);
    index.coming = None;
}

/// Whether it is known that no message is older than one before it, and none younger than this time.
fn is_in_order(index: &Index, time: u64) -> bool
    requires { IsIndexed index.now }
    ensures { result ≡ true → IsInOrder time (rows_of index.now.messages.items) }
{
    index.messages.len() == 0 || (index.in_order && index.latest <= time)
}

/// Takes the message of a number away.
pub fn delete(index: &mut Index, seq: u64)
    requires { IsIndexed index.old }
    ensures indexed { IsIndexed index.new }
    ensures rows { rows_of index.new.messages.items ≡ filter (λ row. not (row.seq == seq)) (rows_of index.old.messages.items) }
    ensures ready { index.new.coming ≡ index.old.coming }
{
    let Some(message) = index.messages.remove(seq) else {
        return;
    };
    index.total -= message.size() as u64;
    let subject = message.subject.bytes();
    unlist_number(&mut index.subjects, subject, seq, &index.coming);
}

/// Takes the first message of a subject away, where so many stand. A limit of 0 is none.
pub fn make_place(index: &mut Index, subject: &[u8], most: u64)
    requires { IsIndexed index.old }
    ensures indexed { IsIndexed index.new }
    ensures rows { rows_of index.new.messages.items ≡ with_place most subject.now (rows_of index.old.messages.items) }
    ensures ready { index.new.coming ≡ index.old.coming }
{
    if is_full_of(index, subject, most) {
        drop_first(index, subject);
    }
}

fn drop_first(index: &mut Index, subject: &[u8])
    requires { IsIndexed index.old }
    ensures indexed { IsIndexed index.new }
    ensures rows { rows_of index.new.messages.items ≡ without_first subject.now (rows_of index.old.messages.items) }
    ensures ready { index.new.coming ≡ index.old.coming }
{
    if let Some(seq) = first_of(index, subject) {
        delete(index, seq);
    }
}
