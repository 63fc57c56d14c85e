ghost use Rattle.std.specs.Prelude.{◌≡◌, ◌⊎◌, ◌<◌, ◌==◌, ℕ, List as Items, true, filter, not, slice_get};
ghost use Rattle.std.specs.List.{list_all};
ghost use Rattle.std.specs.Str.{bytes_eq};
ghost use Rattle.nats_text.specs.Matching.{matches};
ghost use Rattle.std.specs.Option.{option_copied};
ghost use Rattle.stream_fold.specs.Histories.{is_purged};
ghost use Rattle.stream_fold.specs.RowLists.{EachRow};
ghost use Rattle.indexed_rows.specs.Indexes.{IsIndexed, below_in, is_of, is_plain, matches_in, rows_of, seq_in};

use crate::index::{Index, delete, first_of, number_from};
use nats_text::laws::literal_patterns;
use nats_text::{Message, Pattern, matches};

/// Takes the messages away that match and whose numbers are below `below`. A pattern without wildcards
/// takes those of one subject; with one each message below is looked at.
pub fn purge(index: &mut Index, pattern: &Pattern, below: u64)
    requires { IsIndexed index.old }
    ensures indexed { IsIndexed index.new }
    ensures rows { rows_of index.new.messages.items ≡ filter (λ row. not (is_purged pattern.now below row)) (rows_of index.old.messages.items) }
    ensures ready { index.new.coming ≡ index.old.coming }
{
    if is_literal(pattern) {
        purge_subject(index, pattern, below);
    } else {
        purge_each(index, pattern, below);
    }
}

/// Whether the pattern has no wildcard, and so matches the subject of its own text alone.
fn is_literal(pattern: &Pattern) -> bool
    ensures { result ≡ true → (subject : Items ℕ) → matches pattern.now subject ≡ bytes_eq subject pattern.now }
{
    literal_patterns();
    are_plain(pattern.bytes())
}

fn are_plain(bytes: &[u8]) -> bool
    ensures { result ≡ list_all is_plain bytes.now }
{
    bytes.iter().all(|byte| *byte != b'*' && *byte != b'>')
}

fn purge_subject(index: &mut Index, pattern: &Pattern, below: u64)
    requires indexed { IsIndexed index.old }
    requires literal { (subject : Items ℕ) → matches pattern.now subject ≡ bytes_eq subject pattern.now }
    ensures indexed { IsIndexed index.new }
    ensures rows { rows_of index.new.messages.items ≡ filter (λ row. not (is_purged pattern.now below row)) (rows_of index.old.messages.items) }
    ensures ready { index.new.coming ≡ index.old.coming }
{
    while let Some(seq) = first_below(index, pattern.bytes(), below) {
        delete(index, seq);
    }
}

/// The least number of a subject, where it is below `below`.
fn first_below(index: &Index, subject: &[u8], below: u64) -> Option<u64>
    requires { IsIndexed index.now }
    ensures { result ≡ below_in below (seq_in (slice_get (filter (is_of subject.now) (rows_of index.now.messages.items)) 0)) }
{
    let Some(seq) = first_of(index, subject) else {
        return None;
    };
    if seq < below { Some(seq) } else { None }
}

fn purge_each(index: &mut Index, pattern: &Pattern, below: u64)
    requires { IsIndexed index.old }
    ensures indexed { IsIndexed index.new }
    ensures rows { rows_of index.new.messages.items ≡ filter (λ row. not (is_purged pattern.now below row)) (rows_of index.old.messages.items) }
    ensures ready { index.new.coming ≡ index.old.coming }
{
    let mut next = 0;
    while let Some(seq) = number_from(index, next) {
        if below <= seq {
            return;
        }
        purge_at(index, pattern, below, seq);
        next = seq + 1;
    }
}

/// Takes the message of a number below `below` away, where it matches.
fn purge_at(index: &mut Index, pattern: &Pattern, below: u64, seq: u64)
    requires indexed { IsIndexed index.old }
    requires below { seq < below }
    ensures indexed { IsIndexed index.new }
    ensures stay { filter (λ row. not (is_purged pattern.now below row)) (rows_of index.new.messages.items) ≡ filter (λ row. not (is_purged pattern.now below row)) (rows_of index.old.messages.items) }
    ensures passes { EachRow (λ row. row.seq ≡ seq → not (is_purged pattern.now below row) ≡ true) (rows_of index.new.messages.items) }
    ensures fewer { (rows_of index.new.messages.items ≡ rows_of index.old.messages.items) ⊎ (rows_of index.new.messages.items ≡ filter (λ row. not (row.seq == seq)) (rows_of index.old.messages.items)) }
    ensures ready { index.new.coming ≡ index.old.coming }
{
    if has_match(index.messages.get(seq), pattern) {
        delete(index, seq);
    }
}

fn has_match(message: Option<&Message>, pattern: &Pattern) -> bool
    ensures { result ≡ matches_in pattern.now (option_copied message.entry) }
{
    match message {
        Some(message) => matches(pattern, &message.subject),
        None => false,
    }
}
