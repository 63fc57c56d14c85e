ghost use Rattle.std.specs.Prelude.{◌≡◌, ◌⊎◌, ◌<◌, ◌==◌, true, not, filter};
ghost use Rattle.std.specs.Option.{option_copied};
ghost use Rattle.stream_fold.specs.Histories.{newest_of_each, newest_within};
ghost use Rattle.stream_fold.specs.RowLists.{counts_within, EachRow};
ghost use Rattle.indexed_rows.specs.Indexes.{IsIndexed, excess, has_at_most, rows_of, too_many};

use crate::index::{Index, count_of, delete, number_from};
use nats_text::Message;
use stream_fold::Config;

/// Takes the oldest messages away that the limits on count and bytes don't allow.
pub fn drop_excess(index: &mut Index, config: &Config)
    requires { IsIndexed index.old }
    ensures indexed { IsIndexed index.new }
    ensures rows { rows_of index.new.messages.items ≡ newest_within config.now (rows_of index.old.messages.items) }
    ensures ready { index.new.coming ≡ index.old.coming }
{
    while let Some(seq) = excess(index, config) {
        delete(index, seq);
    }
}

/// The first number, where the messages are not within the limits.
fn excess(index: &Index, config: &Config) -> Option<u64>
    requires { IsIndexed index.now }
    ensures { result ≡ excess config.now (rows_of index.now.messages.items) }
{
    if are_within(config, index.messages.len(), index.total) {
        return None;
    }
    index.messages.first()
}

/// Whether so many messages of so many bytes are within the limits.
fn are_within(config: &Config, count: usize, bytes: u64) -> bool
    ensures { result ≡ counts_within config.now count bytes }
{
    let few = config.max_msgs == 0 || count as u64 <= config.max_msgs;
    few && (config.max_bytes == 0 || bytes <= config.max_bytes)
}

/// Takes the older messages of each subject away that has more than so many, in one walk: a message
/// that comes while its subject has more is the first of its subject.
pub fn keep_newest_of_each(index: &mut Index, most: u64)
    requires { IsIndexed index.old }
    ensures indexed { IsIndexed index.new }
    ensures rows { rows_of index.new.messages.items ≡ newest_of_each most (rows_of index.old.messages.items) }
    ensures ready { index.new.coming ≡ index.old.coming }
{
    let Some(last) = index.messages.last() else {
        return;
    };
    let mut next = 0;
    while let Some(seq) = number_from(index, next) {
        keep_at(index, seq, most);
        if last <= seq {
            return;
        }
        next = seq + 1;
    }
}

/// Takes the message of a number away, where its subject has more than so many, and none of a lower
/// number has: so it is the first of its subject.
fn keep_at(index: &mut Index, seq: u64, most: u64)
    requires indexed { IsIndexed index.old }
    requires earlier { EachRow (λ row. row.seq < seq → has_at_most most (rows_of index.old.messages.items) row ≡ true) (rows_of index.old.messages.items) }
    ensures indexed { IsIndexed index.new }
    ensures stay { newest_of_each most (rows_of index.new.messages.items) ≡ newest_of_each most (rows_of index.old.messages.items) }
    ensures passes { EachRow (λ row. row.seq ≡ seq → has_at_most most (rows_of index.new.messages.items) row ≡ true) (rows_of index.new.messages.items) }
    ensures fewer { (rows_of index.new.messages.items ≡ rows_of index.old.messages.items) ⊎ (rows_of index.new.messages.items ≡ filter (λ row. not (row.seq == seq)) (rows_of index.old.messages.items)) }
    ensures ready { index.new.coming ≡ index.old.coming }
{
    if has_too_many(index, index.messages.get(seq), most) {
        delete(index, seq);
    }
}

/// Whether there is a message, and more than so many have its subject.
fn has_too_many(index: &Index, message: Option<&Message>, most: u64) -> bool
    requires { IsIndexed index.now }
    ensures { result ≡ too_many most (rows_of index.now.messages.items) (option_copied message.entry) }
{
    match message {
        Some(message) => most < count_of(index, message.subject.bytes()) as u64,
        None => false,
    }
}
