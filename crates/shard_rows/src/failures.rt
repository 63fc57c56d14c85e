//! A call of a disk that fails: what is asked again is done once.
use crate::calls::name_of;
use crate::shards::{answer_to, empty_disk, loaded};
use mem_disk::MemDisk;
use nats_text::{NoMemory, pieces};
use shard_calls::Shard;
use std::alloc::Global;
use std::process::Abort;
use std::test::Fail;

/// Calls, each of which may be made again where a disk failed.
const CALLS: &[u8] = b"\
    stream n S subjects=s\n\
    hpub n S s Nats-Msg-Id:1 a\n\
    hpub n S s Nats-Msg-Id:2 b";

/// A shard whose main disk, or whose spare, fails at the call of a number.
fn failing(alloc: Global, on_spare: bool, call: u64) -> Result<Shard<MemDisk>, Fail> {
    let of_main = calls_if(alloc, !on_spare, call)?;
    let of_spare = calls_if(alloc, on_spare, call)?;
    let node = name_of(alloc, b"n")?;
    let main = empty_disk(alloc, of_main);
    let spare = empty_disk(alloc, of_spare);
    match Shard::load(alloc, main, spare, node) {
        Ok(shard) => Ok(shard),
        Err((fault, main, spare)) => {
            drop(fault);
            loaded(alloc, main, spare, b"n")
        }
    }
}

/// The number of one call, where it fails.
fn calls_if(alloc: Global, fails: bool, call: u64) -> Result<Vec<u64>, NoMemory> {
    let mut calls = Vec::new(alloc);
    if fails {
        calls.push(call)?;
    }
    Ok(calls)
}

/// What a call is answered, which is made again where a disk failed.
fn insisted(alloc: Global, shard: &mut Shard<MemDisk>, call: &[u8]) -> Result<String, Fail> {
    let before = shard.faults();
    let answer = answer_to(alloc, shard, call, 7)?;
    if answer.as_bytes() != b"DiskFault".as_slice() {
        return Ok(answer);
    }
    if shard.faults() <= before {
        return Err("a disk failed".into());
    }
    answer_to(alloc, shard, call, 7)
}

#[test]
fn what_is_asked_again_is_done_once(rt: HostRuntime) -> Result<(), Fail> {
    for on_spare in [false, true] {
        for call in 1..=40 {
            let mut shard = failing(rt.alloc(), on_spare, call)?;
            let once = expect_once(&rt, rt.alloc(), &mut shard, call);
            drop(shard);
            once?;
        }
    }
    Ok(())
}

fn expect_once(
    rt: &impl Abort,
    alloc: Global,
    shard: &mut Shard<MemDisk>,
    call: u64,
) -> Result<(), Fail> {
    for row in &pieces(alloc, CALLS, b'\n')? {
        let answer = insisted(alloc, shard, row)?;
        assert!(rt;
            answer.as_bytes() != b"DiskFault".as_slice(),
            "{call} {row:?}"
        );
    }
    let info = answer_to(alloc, shard, b"info S", 7)?;
    let want = b"info 1 of 1 to 2, 2 kept of 60 bytes, 0 consumers";
    assert!(rt; info.as_bytes() == want.as_slice(), "{call} {info}");
    Ok(())
}
