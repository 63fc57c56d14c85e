ghost use Rattle.std.specs.Prelude.{◌≡◌, ◌≤◌, ◌<◌, ◌+◌, ◌^◌, ◌++◌, take, nat_le, length, count_by, drop, vec_len};
ghost use Rattle.std.specs.Vec.{vec_capacity};
ghost use Rattle.std.specs.Str.{bytes_eq};
ghost use Rattle.stream_fold.specs.Histories.{newest_of_each, newest_within, has_subject_of, size_of};
ghost use Rattle.stream_fold.specs.RowLists.{counts_within, without_first};

use crate::{Config, Numbered};

pub fn keep_newest_of_each(rows: &mut Vec<Numbered>, most: u64)
    ensures { rows.new.items ≡ newest_of_each most rows.old.items }
{
    let mut place = 0;
    while place < rows.len() {
        if has_later(&rows[place], &rows[place + 1..], most) {
            rows.remove(place);
        } else {
            place += 1;
        }
    }
}

/// Whether so many of the later messages have the subject of this one.
fn has_later(row: &Numbered, later: &[Numbered], most: u64) -> bool
    ensures { result ≡ nat_le most (count_by (has_subject_of row.now) later.now) }
{
    most <= count_of_subject(row.message.subject.bytes(), later) as u64
}

pub fn count_of_subject(subject: &[u8], rows: &[Numbered]) -> usize
    ensures { result ≡ count_by (λ row. bytes_eq row.message.subject subject.now) rows.now }
{
    rows.iter()
        .filter(|row| row.message.subject.bytes() == subject)
        .count()
}

/// Takes away the first message of the subject, and its size from `total`, the sum of the sizes.
pub fn remove_first(rows: &mut Vec<Numbered>, total: &mut u64, subject: &[u8])
    requires { total.old ≡ size_of rows.old.items }
    ensures rows { rows.new.items ≡ without_first subject.now rows.old.items }
    ensures total { total.new ≡ size_of rows.new.items }
    ensures shorter { vec_len rows.new ≤ vec_len rows.old }
    ensures capacity { vec_capacity rows.new ≡ vec_capacity rows.old }
{
    let place = first_place(subject, rows);
    if place < rows.len() {
        *total -= rows[place].message.size() as u64;
        rows.remove(place);
    }
}

/// The place of the first message of the subject, or one past the last.
fn first_place(subject: &[u8], rows: &[Numbered]) -> usize
    ensures within { result ≤ length rows.now }
    ensures first { take result rows.now ++ drop (result + 1) rows.now ≡ without_first subject.now rows.now }
{
    let mut place = 0;
    while place < rows.len() && !has_subject(&rows[place], subject) {
        place += 1;
    }
    place
}

fn has_subject(row: &Numbered, subject: &[u8]) -> bool
    ensures { result ≡ bytes_eq row.now.message.subject subject.now }
{
    row.message.subject.bytes() == subject
}

/// How many of the oldest messages have to go. `total` is the sum of the sizes, and then that of the
/// others.
pub fn excess_of(rows: &[Numbered], total: &mut u64, config: &Config) -> usize
    requires { total.old ≡ size_of rows.now }
    ensures within { result ≤ length rows.now }
    ensures value { drop result rows.now ≡ newest_within config.now rows.now }
    ensures total { total.new ≡ size_of (drop result rows.now) }
    ensures bound { total.new < 2 ^ 64 }
{
    let mut excess = 0;
    while excess < rows.len() && !are_within(config, rows.len() - excess, *total) {
        *total -= rows[excess].message.size() as u64;
        excess += 1;
    }
    excess
}

/// Whether so many messages of so many bytes are within the limits.
pub fn are_within(config: &Config, count: usize, bytes: u64) -> bool
    ensures { result ≡ counts_within config.now count bytes }
{
    let few = config.max_msgs == 0 || count as u64 <= config.max_msgs;
    few && (config.max_bytes == 0 || bytes <= config.max_bytes)
}

/// The sum of the sizes.
pub fn total_of(rows: &[Numbered]) -> u64
    requires { size_of rows.now < 2 ^ 64 }
    ensures { result ≡ size_of rows.now }
{
    let mut total = 0;
    for row in rows {
        total += row.message.size() as u64;
    }
    total
}

/// Takes away the first items. None and one, which are frequent, cost less than more do.
pub fn drop_front<T: Drop>(items: &mut Vec<T>, count: usize)
    requires { count ≤ vec_len items.old }
    ensures { items.new.items ≡ drop count items.old.items }
{
    if count == 0 {
        return;
    }
    if count == 1 {
        items.remove(0);
        return;
    }
    items.rotate_left(count);
    let rest = items.len() - count;
    items.truncate(rest);
}

/// Whether so much time has passed since the moment.
pub fn is_older(moment: u64, age: u64, now: u64) -> bool
    ensures { result ≡ nat_le (moment + age) now }
{
    match moment.checked_add(age) {
        Some(end) => end <= now,
        None => false,
    }
}
