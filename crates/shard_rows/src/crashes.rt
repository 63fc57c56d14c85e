//! A stop at each call of a disk: what was answered is there afterwards, and at most the call that was stopped
//! beside it.
use crate::shards::{answer_to, empty_disk, fresh, loaded};
use mem_disk::{Fate, MemDisk};
use nats_text::{List, NoMemory, pieces};
use shard_calls::Shard;
use shard_machine::Facts;
use shard_store::{StoreFault, read_streams};
use std::alloc::Global;
use std::process::Abort;
use std::test::Fail;
use stream_fold::Numbered;

/// Calls that make a record each.
const CALLS: &[u8] = b"\
    stream n A subjects=a.> max_age=100 window=100\n\
    pub n A a.1 x\n\
    pub n A a.2 y\n\
    stream n B\n\
    pub n B B z\n\
    del n A 1\n\
    update stream n A subjects=a.> max_msgs=1 window=100\n\
    pub n A a.1 xx\n\
    purge n B\n\
    remove B\n\
    stream n B max_msgs=7\n\
    pub n B B zz";

/// How many calls the main disk is made at most for these.
const MOST_CALLS: u64 = 60;

/// What two disks hold of streams: of each its name, how often it was made, its ends, and its messages.
fn kept(alloc: Global, main: MemDisk, spare: MemDisk) -> Result<String, Fail> {
    let mut main = main;
    let mut spare = Some(spare);
    let read = streams_of(alloc, &mut main, &mut spare);
    drop(main);
    drop(spare);
    let streams = read?;
    let text = streams_told(alloc, &streams);
    drop(streams);
    Ok(text?)
}

fn streams_of(
    alloc: Global,
    main: &mut MemDisk,
    spare: &mut Option<MemDisk>,
) -> Result<List<(Facts, List<Numbered>)>, StoreFault> {
    let (_, streams) = read_streams(alloc, main, spare)?;
    Ok(streams)
}

fn streams_told(
    alloc: Global,
    streams: &List<(Facts, List<Numbered>)>,
) -> Result<String, NoMemory> {
    let mut text = String::new(alloc);
    for (facts, rows) in streams.as_slice() {
        push_facts(alloc, &mut text, facts)?;
        push_rows(alloc, &mut text, rows.as_slice())?;
    }
    Ok(text)
}

fn push_facts(alloc: Global, text: &mut String, facts: &Facts) -> Result<(), NoMemory> {
    let name = facts.config.name.bytes();
    let limit = facts.config.max_msgs;
    let head = format!(in alloc;
        "{name:?} {} {limit:?} {} {}:",
        facts.incarnation, facts.first, facts.last
    )?;
    text.push_str(head.as_str())?;
    Ok(())
}

fn push_rows(alloc: Global, text: &mut String, rows: &[Numbered]) -> Result<(), NoMemory> {
    for row in rows {
        let payload = row.message.payload.as_slice();
        let row = format!(in alloc; " {} {} {payload:?}", row.seq, row.message.time)?;
        text.push_str(row.as_str())?;
    }
    text.push('\n')?;
    Ok(())
}

/// What is held once so many of the calls were answered.
fn held_after(alloc: Global, count: usize) -> Result<String, Fail> {
    let mut shard = fresh(alloc, b"n")?;
    let made = make(alloc, &mut shard, count);
    let (main, spare) = shard.close();
    match made {
        Ok(()) => kept(alloc, main, spare),
        Err(fault) => {
            drop(main);
            drop(spare);
            Err(fault)
        }
    }
}

/// Makes so many of the calls.
fn make(alloc: Global, shard: &mut Shard<MemDisk>, count: usize) -> Result<(), Fail> {
    for row in pieces(alloc, CALLS, b'\n')?.iter().take(count) {
        let answer = answer_to(alloc, shard, row, 7)?;
        drop(answer);
    }
    Ok(())
}

/// How many of the calls a shard answers before a disk fails.
fn answered(alloc: Global, shard: &mut Shard<MemDisk>) -> Result<usize, Fail> {
    let mut count = 0_usize;
    for row in &pieces(alloc, CALLS, b'\n')? {
        let answer = answer_to(alloc, shard, row, 7)?;
        if answer.as_bytes() == b"DiskFault".as_slice() {
            break;
        }
        count = count.saturating_add(1);
    }
    Ok(count)
}

/// Whether a stop at a call of the main disk leaves what was answered, with the call that was stopped or
/// without it.
fn survives(alloc: Global, call: u64, fate: Fate, after: &[String]) -> Result<bool, Fail> {
    let mut shard = fresh(alloc, b"n")?;
    shard.fuse(call, fate);
    let answered = answered(alloc, &mut shard);
    let (mut main, mut spare) = shard.close();
    main.after_crash();
    spare.after_crash();
    let count = match answered {
        Ok(count) => count,
        Err(fault) => {
            drop(main);
            drop(spare);
            return Err(fault);
        }
    };
    let found = kept(alloc, main, spare)?;
    Ok(is_one(after, count, &found) || is_one(after, count.saturating_add(1), &found))
}

/// Whether this is what is held once so many calls were answered.
fn is_one(after: &[String], count: usize, found: &String) -> bool {
    match after.get(count) {
        Some(text) => text.as_bytes() == found.as_bytes(),
        None => false,
    }
}

#[test]
fn a_stop_at_each_call_loses_nothing_that_was_answered(rt: HostRuntime) -> Result<(), Fail> {
    let alloc = rt.alloc();
    let mut after = Vec::new(alloc);
    for count in 0..=12 {
        after.push(held_after(alloc, count)?)?;
    }
    for call in 1..=MOST_CALLS {
        for fate in [Fate::Lost, Fate::All, Fate::Torn] {
            let is_right = survives(alloc, call, fate, after.as_slice())?;
            assert!(rt; is_right, "{call} {fate:?}");
        }
    }
    Ok(())
}

#[test]
fn each_load_counts_one_opening_more(rt: HostRuntime) -> Result<(), Fail> {
    let alloc = rt.alloc();
    let mut main = empty_disk(alloc, Vec::new(alloc));
    let mut spare = empty_disk(alloc, Vec::new(alloc));
    for boot in 1..=3 {
        let shard = loaded(alloc, main, spare, b"n")?;
        assert_eq!(rt; shard.boot(), boot);
        assert_eq!(rt; shard.faults(), 0);
        let parts = shard.close();
        main = parts.0;
        spare = parts.1;
    }
    Ok(())
}
