ghost use Rattle.std.specs.Prelude.{◌≡◌, ◌<◌, ◌≤◌, [], ◌∷◌, ◌++◌, length, drop, map, IfOk, OnOk, slice_index_or};
ghost use Rattle.std.specs.List.Sorted.{IsNonDecreasingBy};
ghost use Rattle.stream_fold.specs.declared.entry.Numbered.{Numbered};
ghost use Rattle.stream_fold.specs.Histories.{last};
ghost use Rattle.stream_fold.specs.Fits.{index_count};
ghost use Rattle.leafd_cli.specs.Logs.{limits_of};
ghost use Rattle.leafd_cli.specs.Plain.{settled_upto, settle_at, missing, no_stream, rows_past, fed_rows, copied_entry};
ghost use Rattle.leafd_cli.specs.Keeping.{AreSound, CanFollow};

use crate::finding::origin_among;
use crate::stream::Stream;
use nats_text::{List, NoMemory};
use std::alloc::Global;
use stream_fold::{Copies, Entry, Numbered};

/// Gives each copy what its origin keeps, in the order in which they were made.
pub fn settle(alloc: Global, streams: &mut Vec<Stream>) -> Result<(), NoMemory>
    requires { AreSound streams.old.items }
    ensures { OnOk result (streams.new.items ≡ settled_upto (length streams.old.items) streams.old.items) }
{
    for place in 0..streams.len() {
        feed(alloc, streams, place)?;
    }
    Ok(())
}

/// Gives the stream at a place what it misses.
fn feed(alloc: Global, streams: &mut Vec<Stream>, place: usize) -> Result<(), NoMemory>
    requires place { place < length streams.old.items }
    requires kept { AreSound streams.old.items }
    ensures { OnOk result (streams.new.items ≡ settle_at place streams.old.items) }
{
    let Some(rows) = missing(alloc, streams, place)? else {
        return Ok(());
    };
    let stream = &mut streams[place];
    take_rows(stream, rows.as_slice())
}

/// The messages that a copy doesn't have yet, or nothing where the stream copies none.
fn missing(
    alloc: Global,
    streams: &[Stream],
    place: usize,
) -> Result<Option<List<Numbered>>, NoMemory>
    requires place { place < length streams.now }
    requires kept { AreSound streams.now }
    ensures { IfOk result (λ rows. rows ≡ missing streams.now (slice_index_or streams.now place no_stream)) }
{
    let copy = &streams[place];
    match &copy.config().copies {
        Copies::Nothing => Ok(None),
        Copies::Sources(_) => Ok(None),
        Copies::Mirror(want) => match origin_among(streams, want) {
            None => Ok(None),
            Some(origin) => Ok(Some(rows_past(alloc, copy.last(), origin.rows())?)),
        },
    }
}

/// Copies of the rows past a number.
fn rows_past(alloc: Global, number: u64, rows: &[Numbered]) -> Result<List<Numbered>, NoMemory>
    requires { IsNonDecreasingBy (λ (row : Numbered). row.seq) rows.now }
    ensures { IfOk result (λ found. found ≡ rows_past number rows.now) }
{
    let first = first_past(number, rows);
    copied(alloc, &rows[first..])
}

fn first_past(number: u64, rows: &[Numbered]) -> usize
    requires { IsNonDecreasingBy (λ (row : Numbered). row.seq) rows.now }
    ensures within { result ≤ length rows.now }
    ensures past { drop result rows.now ≡ rows_past number rows.now }
{
    rows.partition_point(|row| row.seq <= number)
}

fn copied(alloc: Global, rows: &[Numbered]) -> Result<List<Numbered>, NoMemory>
    ensures { IfOk result (λ copies. copies ≡ rows.now) }
{
    let mut copies = Vec::new(alloc);
    for row in rows {
        copies.push(row.clone()?)?;
    }
    Ok(List::from_vec(copies))
}

fn take_rows(stream: &mut Stream, rows: &[Numbered]) -> Result<(), NoMemory>
    requires mirror { 0 < index_count (limits_of stream.old).copies }
    requires rows { CanFollow (last stream.old.entries) rows.now }
    ensures { OnOk result (stream.new ≡ fed_rows rows.now stream.old) }
{
    if stream.bound().is_none() {
        stream.add(Entry::Bind {
            index: 0,
            incarnation: 1,
            start: 1,
        })?;
    }
    add_rows(stream, rows)
}

fn add_rows(stream: &mut Stream, rows: &[Numbered]) -> Result<(), NoMemory>
    requires { CanFollow (last stream.old.entries) rows.now }
    ensures { OnOk result (stream.new ≡ record stream.old { entries = stream.old.entries ++ map copied_entry rows.now }) }
{
    for row in rows {
        stream.add(Entry::Put {
            seq: row.seq,
            message: row.message.clone()?,
            mark: None,
        })?;
    }
    Ok(())
}
