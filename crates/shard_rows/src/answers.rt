//! Each call once, with its answers.
use crate::shards::{expect_answers, fresh};
use std::process::Abort;
use std::test::Fail;

/// Calls on streams: a moment, the call, and what it is answered.
const STREAMS: &[u8] = b"\
    1 names~names\n\
    1 info A~NoStream\n\
    2 stream n A subjects=a.> max_msgs=3 window=100~made\n\
    3 stream n A subjects=a.> max_msgs=3 window=100~stands\n\
    4 stream n A subjects=a.> max_msgs=4~NameTaken\n\
    5 pub n A b x~NoStream\n\
    5 pub n B a.1 x~NoStream\n\
    5 hpub n A a.1 Nats-Msg-Id:7 x~stored 1||stored 1\n\
    6 pub n A a.2 yy~stored 2||stored 2\n\
    7 hpub n A a.3 Nats-Msg-Id:7 zz~duplicate 1\n\
    8 pub n A a.1 x~stored 3||stored 3\n\
    9 pub n A a.2 x~stored 4||stored 4,removed 1\n\
    9 info A~info 1 of 2 to 4, 3 kept of 13 bytes, 0 consumers\n\
    9 get A 3~found 3\n\
    9 get A 1~NoMessage\n\
    9 get B 1~NoStream\n\
    9 last A a.2~found 4\n\
    9 last A a.9~NoMessage\n\
    9 del n A 3~deleted||removed 1\n\
    9 del n A 3~NoMessage\n\
    9 del n B 3~NoStream\n\
    9 purge n A a.2 4~purged 1||removed 1\n\
    9 purge n A a.2 4~purged 0\n\
    9 purge n B~NoStream\n\
    9 hpub n A a.1 Nats-Expected-Last-Sequence:3 x~WrongLast 4\n\
    9 update stream n A subjects=a.> window=90~BadConfig duplicate_window\n\
    9 update stream n A subjects=a.> max_age=100 window=100~updated\n\
    9 update stream n B~NoStream\n\
    108 expire n A~expired 0\n\
    109 expire n A~expired 1||removed 1\n\
    109 expire n B~NoStream\n\
    109 info A~info 1 of 5 to 4, 0 kept of 0 bytes, 0 consumers\n\
    110 stream n B~made\n\
    110 names~names A B\n\
    111 remove A~removed\n\
    111 remove A~NoStream\n\
    112 stream n A subjects=a.> max_msgs=2~made\n\
    112 info A~info 2 of 0 to 0, 0 kept of 0 bytes, 0 consumers";

/// Calls on copies, where no packet comes: a moment, the call, and what it is answered.
const COPIES: &[u8] = b"\
    1 mirror n C hub ORDERS~made|ask 1 1\n\
    1 pub n C ORDERS x~NoStream\n\
    1 info C~info 1 of 0 to 0, 0 kept of 0 bytes, 0 consumers, copy at 0\n\
    2 tick~sent\n\
    10000000001 tick~sent|ask 1 2\n\
    10000000002 reach hub 1~sent|ask 1 3\n\
    10000000003 reach hub 0~sent\n\
    10000000003 reach sub 1~sent\n\
    10000000004 lost~sent\n\
    10000000004 tick~sent|ask 1 4\n\
    10000000005 pump C 9~sent\n\
    10000000005 pump D 9~NoStream\n\
    10000000006 remove C~removed\n\
    40000000007 tick~sent";

#[test]
fn calls_on_streams_are_answered(rt: HostRuntime) -> Result<(), Fail> {
    let mut shard = fresh(rt.alloc(), b"n")?;
    let held = expect_answers(&rt, rt.alloc(), &mut shard, STREAMS);
    drop(shard);
    held
}

#[test]
fn calls_on_copies_are_answered(rt: HostRuntime) -> Result<(), Fail> {
    let mut shard = fresh(rt.alloc(), b"n")?;
    let held = expect_answers(&rt, rt.alloc(), &mut shard, COPIES);
    drop(shard);
    held
}
