ghost use Rattle.std.specs.Prelude.{◌≡◌, ◌⊎◌, ◌+◌, ◌==◌, ◌&&◌, true, filter, not, nat_le};
ghost use Rattle.std.specs.Option.{option_copied};
ghost use Rattle.stream_fold.specs.Histories.{is_expired};
ghost use Rattle.stream_fold.specs.RowLists.{EachRow};
ghost use Rattle.indexed_rows.specs.Indexes.{IsIndexed, TimesRise, expired_front, expired_in, rows_of};

use crate::index::{Index, delete, number_from};
use nats_text::Message;

/// Takes the messages away that are as old as this. Where no message is older than one before it, those
/// that go are the first ones; else each is looked at. The times of a stream's own messages rise, and so
/// do those of a mirror whose origin's do; so an index by time would cost each message memory for nothing.
pub fn expire(index: &mut Index, max_age: u64, now: u64)
    requires { IsIndexed index.old }
    ensures indexed { IsIndexed index.new }
    ensures rows { rows_of index.new.messages.items ≡ filter (λ row. not (is_expired max_age now row)) (rows_of index.old.messages.items) }
    ensures ready { index.new.coming ≡ index.old.coming }
{
    if index.in_order {
        expire_first(index, max_age, now);
    } else {
        expire_each(index, max_age, now);
    }
}

fn expire_first(index: &mut Index, max_age: u64, now: u64)
    requires indexed { IsIndexed index.old }
    requires order { TimesRise (rows_of index.old.messages.items) }
    ensures indexed { IsIndexed index.new }
    ensures rows { rows_of index.new.messages.items ≡ filter (λ row. not (is_expired max_age now row)) (rows_of index.old.messages.items) }
    ensures ready { index.new.coming ≡ index.old.coming }
{
    while let Some(seq) = first_expired(index, max_age, now) {
        delete(index, seq);
    }
}

/// The first number, where that message has expired.
fn first_expired(index: &Index, max_age: u64, now: u64) -> Option<u64>
    ensures { result ≡ expired_front max_age now (rows_of index.now.messages.items) }
{
    let Some((seq, message)) = index.messages.next_from(0) else {
        return None;
    };
    if is_expired(message, max_age, now) {
        Some(seq)
    } else {
        None
    }
}

fn expire_each(index: &mut Index, max_age: u64, now: u64)
    requires { IsIndexed index.old }
    ensures indexed { IsIndexed index.new }
    ensures rows { rows_of index.new.messages.items ≡ filter (λ row. not (is_expired max_age now row)) (rows_of index.old.messages.items) }
    ensures ready { index.new.coming ≡ index.old.coming }
{
    let Some(last) = index.messages.last() else {
        return;
    };
    let mut next = 0;
    while let Some(seq) = number_from(index, next) {
        expire_at(index, max_age, now, seq);
        if last <= seq {
            return;
        }
        next = seq + 1;
    }
}

/// Takes the message of a number away, where it has expired.
fn expire_at(index: &mut Index, max_age: u64, now: u64, seq: u64)
    requires { IsIndexed index.old }
    ensures indexed { IsIndexed index.new }
    ensures stay { filter (λ row. not (is_expired max_age now row)) (rows_of index.new.messages.items) ≡ filter (λ row. not (is_expired max_age now row)) (rows_of index.old.messages.items) }
    ensures passes { EachRow (λ row. row.seq ≡ seq → not (is_expired max_age now row) ≡ true) (rows_of index.new.messages.items) }
    ensures fewer { (rows_of index.new.messages.items ≡ rows_of index.old.messages.items) ⊎ (rows_of index.new.messages.items ≡ filter (λ row. not (row.seq == seq)) (rows_of index.old.messages.items)) }
    ensures ready { index.new.coming ≡ index.old.coming }
{
    if has_expired(index.messages.get(seq), max_age, now) {
        delete(index, seq);
    }
}

fn has_expired(message: Option<&Message>, max_age: u64, now: u64) -> bool
    ensures { result ≡ expired_in max_age now (option_copied message.entry) }
{
    match message {
        Some(message) => is_expired(message, max_age, now),
        None => false,
    }
}

fn is_expired(message: &Message, max_age: u64, now: u64) -> bool
    ensures { result ≡ (not (max_age == 0) && nat_le (message.now.time + max_age) now) }
{
    max_age != 0 && is_older(message.time, max_age, now)
}

/// Whether so much time has passed since the moment.
fn is_older(moment: u64, age: u64, now: u64) -> bool
    ensures { result ≡ nat_le (moment + age) now }
{
    match moment.checked_add(age) {
        Some(end) => end <= now,
        None => false,
    }
}
