//! Shards on disks in memory.
use crate::calls::{call_of, name_of};
use crate::table::{fields, number_in};
use crate::told::told;
use mem_disk::MemDisk;
use nats_text::{Name, pieces};
use shard_calls::Shard;
use std::alloc::Global;
use std::process::Abort;
use std::test::Fail;

/// A disk of no bytes, which fails at the calls of these numbers.
pub fn empty_disk(alloc: Global, failing: Vec<u64>) -> MemDisk {
    MemDisk::new(alloc, Vec::new(alloc), failing)
}

/// The shard of a node on two disks, which open.
pub fn loaded(
    alloc: Global,
    main: MemDisk,
    spare: MemDisk,
    node: &[u8],
) -> Result<Shard<MemDisk>, Fail> {
    match name_of(alloc, node) {
        Ok(node) => loaded_as(alloc, main, spare, node),
        Err(fault) => {
            drop(main);
            drop(spare);
            Err(fault.into())
        }
    }
}

fn loaded_as(
    alloc: Global,
    main: MemDisk,
    spare: MemDisk,
    node: Name,
) -> Result<Shard<MemDisk>, Fail> {
    match Shard::load(alloc, main, spare, node) {
        Ok(shard) => Ok(shard),
        Err(failed) => {
            drop(failed);
            Err("the shard loads".into())
        }
    }
}

/// The shard of a node on two empty disks.
pub fn fresh(alloc: Global, node: &[u8]) -> Result<Shard<MemDisk>, Fail> {
    let main = empty_disk(alloc, Vec::new(alloc));
    let spare = empty_disk(alloc, Vec::new(alloc));
    loaded(alloc, main, spare, node)
}

/// The shard again after a crash.
pub fn restarted(
    alloc: Global,
    shard: Shard<MemDisk>,
    node: &[u8],
) -> Result<Shard<MemDisk>, Fail> {
    let (mut main, mut spare) = shard.close();
    main.after_crash();
    spare.after_crash();
    loaded(alloc, main, spare, node)
}

/// What a shard answers to a call at a moment.
pub fn answer_to(
    alloc: Global,
    shard: &mut Shard<MemDisk>,
    text: &[u8],
    now: u64,
) -> Result<String, Fail> {
    let call = call_of(alloc, text, now)?;
    let reply = shard.call(call);
    let text = told(alloc, &reply);
    drop(reply);
    Ok(text?)
}

/// Each row is a moment and a call, and what it is answered behind `~`.
pub fn expect_answers(
    rt: &impl Abort,
    alloc: Global,
    shard: &mut Shard<MemDisk>,
    table: &[u8],
) -> Result<(), Fail> {
    for row in &pieces(alloc, table, b'\n')? {
        let (asked, want) = fields(row, b'~');
        let (now, call) = fields(asked, b' ');
        let got = answer_to(alloc, shard, call, number_in(now))?;
        assert!(rt; got.as_bytes() == want, "{row:?} {got}");
    }
    Ok(())
}
