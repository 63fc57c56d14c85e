//! What entries leave of a mirror that keeps three messages, two of each subject, for 10 nanoseconds,
//! and which entries fit.
ghost use Rattle.stream_fold.specs.Histories.{History};
ghost use Rattle.stream_fold.specs.Held.{StandsFor};

use crate::entries::{full, full_of_one, mirror, number_in, patterns, plain, state, takes};
use crate::table::fields;
use nats_text::{Subject, TextFault, number, pieces};
use std::alloc::Global;
use std::process::Abort;
use std::test::Fail;
use stream_fold::{BoundTo, Config, Entry, StreamState};

/// Each row is an entry, whether it fits, the first and last number and the clock that it leaves, and
/// the digits of the kept numbers.
const ENTRIES: &[u8] = b"\
    bind 1|no|0 0 0 \n\
    bind 0|yes|0 0 0 \n\
    bind 0|no|0 0 0 \n\
    put 2 a 5|yes|2 2 5 2\n\
    put 3 a 6|yes|2 3 6 23\n\
    put 5 a 4|yes|3 5 6 35\n\
    put 6 b.c 7|yes|3 6 7 356\n\
    put 7 b.c 8|yes|5 7 8 567\n\
    del 6|yes|5 7 8 57\n\
    del 6|no|5 7 8 57\n\
    purge b.* 7|yes|5 7 8 57\n\
    purge b.* 8|yes|5 7 8 5\n\
    expire 13|yes|5 7 13 5\n\
    expire 14|yes|8 7 14 \n\
    put 7 a 0|no|8 7 14 \n\
    put 9223372036854775808 a 0|no|8 7 14 \n\
    del 5|no|8 7 14 ";

#[test]
fn entries_leave_what_their_history_says(rt: HostRuntime) -> Result<(), Fail> {
    expect_entries(&rt, rt.alloc(), ENTRIES)
}

fn expect_entries(rt: &impl Abort, alloc: Global, table: &[u8]) -> Result<(), Fail> {
    let config = mirror(alloc)?;
    let mut state = StreamState::new(alloc, config)?;
    for row in &pieces(alloc, table, b'\n')? {
        let is_right = takes_row(alloc, &mut state, row)?;
        assert!(rt; is_right, "{row:?}");
    }
    let to = BoundTo {
        incarnation: 9,
        start: 2,
    };
    assert!(rt; state.bound(0) == Some(to) && state.bound(1).is_none());
    Ok(())
}

/// Whether the entry of a row fits as the row says, and leaves what it says.
fn takes_row(alloc: Global, state: &mut StreamState, row: &[u8]) -> Result<bool, TextFault>
    requires { (h : History) × StandsFor state.old h }
    ensures { (h : History) × StandsFor state.new h }
{
    let (text, want) = fields(row, b'|');
    let (fits, want) = fields(want, b'|');
    let taken = takes(alloc, state, text)?;
    Ok(taken == (fits == b"yes".as_slice()) && shows(state, want))
}

fn shows(state: &StreamState, want: &[u8]) -> bool {
    let (first, rest) = fields(want, b' ');
    let (last, rest) = fields(rest, b' ');
    let (clock, kept) = fields(rest, b' ');
    Some(state.first()) == number(first)
        && Some(state.last()) == number(last)
        && Some(state.clock()) == number(clock)
        && keeps(state, kept)
}

/// Whether just the numbers of these digits are kept.
fn keeps(state: &StreamState, digits: &[u8]) -> bool {
    for digit in b"12345678" {
        let is_kept = state.kept((*digit - b'0') as u64).is_some();
        if is_kept != digits.contains(digit) {
            return false;
        }
    }
    state.rows().len() == digits.len()
}

/// Each row is a number from which on a message is sought, filters with commas between them, and the
/// least number that is found.
const MATCHES: &[u8] = b"\
    0||2\n\
    3||3\n\
    7||-\n\
    1|a|2\n\
    3|a|6\n\
    1|b.*|3\n\
    4|b.*|5\n\
    6|b.*|-\n\
    1|b.d,a|2\n\
    3|b.d,a|5\n\
    4|b.>,b.c|5\n\
    1|c|-\n\
    1|c,b|-\n\
    6|>|6";

#[test]
fn a_state_finds_its_messages(rt: HostRuntime) -> Result<(), Fail> {
    let state = four_messages(rt.alloc())?;
    expect_matches(&rt, rt.alloc(), &state)?;
    // Two subjects of one byte and two of three, and four payloads of four.
    assert!(rt; state.size() == 24 && state.count() == 4 && state.mark(0) == 0);
    Ok(())
}

fn four_messages(alloc: Global) -> Result<StreamState, TextFault> {
    let mut config = plain(alloc)?;
    config.max_msgs = 0;
    state(
        alloc,
        config,
        b"put 2 a 1,put 3 b.c 2,put 5 b.d 3,put 6 a 4",
    )
}

fn expect_matches(rt: &impl Abort, alloc: Global, state: &StreamState) -> Result<(), Fail> {
    for row in &pieces(alloc, MATCHES, b'\n')? {
        let is_right = finds(alloc, state, row)?;
        assert!(rt; is_right, "{row:?}");
    }
    let last = last_of(alloc, state, b"a")?;
    assert!(rt; last == Some(6));
    Ok(())
}

fn finds(alloc: Global, state: &StreamState, row: &[u8]) -> Result<bool, TextFault> {
    let (from, row) = fields(row, b'|');
    let (filters, want) = fields(row, b'|');
    let filters = patterns(alloc, filters)?;
    Ok(state.next_match(number_in(from), &filters) == number(want))
}

fn last_of(alloc: Global, state: &StreamState, subject: &[u8]) -> Result<Option<u64>, TextFault> {
    let subject = Subject::read(alloc, subject)?;
    Ok(state.last_of(&subject))
}

#[test]
fn limits_keep_what_never_changes(rt: HostRuntime) -> Result<(), Fail> {
    let state = full(rt.alloc())?;
    let fits = fits_limits(rt.alloc(), &state)?;
    assert!(rt; fits == (true, false));
    Ok(())
}

/// Whether another greatest number of messages fits, and whether another window does.
fn fits_limits(alloc: Global, state: &StreamState) -> Result<(bool, bool), TextFault> {
    let may = fits_config(state, with_limits(alloc, 7, 10)?);
    let may_not = fits_config(state, with_limits(alloc, 1, 9)?);
    Ok((may, may_not))
}

fn with_limits(alloc: Global, max_msgs: u64, window: u64) -> Result<Config, TextFault> {
    let mut config = full_of_one(alloc)?;
    config.max_msgs = max_msgs;
    config.window = window;
    Ok(config)
}

fn fits_config(state: &StreamState, config: Config) -> bool {
    let entry = Entry::Limits { config };
    let fits = state.fits(&entry);
    drop(entry);
    fits
}
