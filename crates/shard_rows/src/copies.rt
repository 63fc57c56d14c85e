//! Two shards, a stream on one and its copy on the other, which are carried each other's packets.
use crate::calls::{call_of, pumping};
use crate::shards::{fresh, restarted};
use crate::table::{fields, number_in};
use crate::told::told;
use js_wire::Packet;
use mem_disk::MemDisk;
use nats_text::{NoMemory, pieces};
use shard_calls::Shard;
use shard_machine::{ShardCall, ShardReply};
use std::alloc::Global;
use std::process::Abort;
use std::test::Fail;

/// How many packets a row makes at most.
const MOST_PACKETS: usize = 100;

/// The shards of the nodes `hub` and `leaf1`.
#[derive(Drop)]
struct Pair {
    hub: Shard<MemDisk>,
    leaf: Shard<MemDisk>,
}

impl Pair {
    /// A call of the shard of a node, and what it is answered. What is sent is put behind the post.
    fn answer(
        &mut self,
        alloc: Global,
        post: &mut Vec<Packet>,
        node: &[u8],
        call: ShardCall,
    ) -> Result<String, NoMemory> {
        let reply = self.call(node == b"hub".as_slice(), call);
        let text = told(alloc, &reply);
        append_sent(post, reply)?;
        text
    }

    fn call(&mut self, on_hub: bool, call: ShardCall) -> ShardReply {
        if on_hub {
            self.hub.call(call)
        } else {
            self.leaf.call(call)
        }
    }

    /// The first packet of the post comes where it is to go, and what is sent for it is put behind the
    /// post. A shard that makes a consumer, or takes the answer to a flow request, sends what it then may.
    fn carry_one(&mut self, alloc: Global, post: &mut Vec<Packet>, now: u64) -> Result<(), Fail> {
        if post.is_empty() {
            return Ok(());
        }
        let packet = post.remove(0);
        let on_hub = is_for_origin(&packet);
        let reply = self.call(on_hub, carried(packet, now));
        append_sent(post, reply)?;
        if on_hub {
            let pump = pumping(alloc, b"ORDERS 9", now)?;
            append_sent(post, self.hub.call(pump))?;
        }
        Ok(())
    }

    /// Carries packets, and those that are sent for them, until none is left.
    fn carry(&mut self, alloc: Global, post: &mut Vec<Packet>, now: u64) -> Result<(), Fail> {
        for _ in 0..MOST_PACKETS {
            if post.is_empty() {
                return Ok(());
            }
            self.carry_one(alloc, post, now)?;
        }
        Err("the packets come to an end".into())
    }
}

/// Whether a packet goes to the shard of the stream that is copied.
fn is_for_origin(packet: &Packet) -> bool {
    match packet {
        Packet::Ask { .. } => true,
        Packet::FlowReply { .. } => true,
        _ => false,
    }
}

/// The call by which a shard is given a packet.
fn carried(packet: Packet, now: u64) -> ShardCall {
    match packet {
        Packet::Ask { .. } => ShardCall::MakeConsumer { ask: packet, now },
        Packet::FlowReply { .. } => ShardCall::FlowReply { packet },
        _ => ShardCall::Heard { packet, now },
    }
}

/// What a reply sends is put behind the post.
fn append_sent(post: &mut Vec<Packet>, reply: ShardReply) -> Result<(), NoMemory> {
    let mut sent = sent_by(reply);
    let appended = post.append(&mut sent);
    drop(sent);
    Ok(appended?)
}

fn sent_by(reply: ShardReply) -> Vec<Packet> {
    let ShardReply {
        outcome,
        entry,
        packets,
        notices,
    } = reply;
    drop(outcome);
    drop(entry);
    drop(notices);
    packets.into_vec()
}

/// Calls of two shards, and the node that crashes behind them, if one does. Each row is the node, a moment, the
/// call, and what it is answered. What is sent is carried at once.
struct Part {
    calls: &'static [u8],
    crashes: &'static [u8],
}

/// A stream and its mirror.
const MIRROR: [Part; 3] = [
    Part {
        calls: b"\
            hub 1 stream n ORDERS~made\n\
            hub 1 pub n ORDERS ORDERS a~stored 1||stored 1\n\
            hub 1 pub n ORDERS ORDERS b~stored 2||stored 2\n\
            leaf1 2 mirror n COPY hub ORDERS~made|ask 1 1\n\
            leaf1 2 info COPY~info 1 of 1 to 2, 2 kept of 14 bytes, 0 consumers, copy at 2 by 1 1\n\
            hub 2 info ORDERS~info 1 of 1 to 2, 2 kept of 14 bytes, 1 consumers\n\
            hub 3 pub n ORDERS ORDERS c~stored 3||stored 3\n\
            hub 3 pump ORDERS 9~sent|3:3/0\n\
            leaf1 3 info COPY~info 1 of 1 to 3, 3 kept of 21 bytes, 0 consumers, copy at 3 by 1 1",
        crashes: b"leaf1",
    },
    Part {
        calls: b"\
            leaf1 4 info COPY~info 1 of 1 to 3, 3 kept of 21 bytes, 0 consumers, copy at 3\n\
            hub 4 del n ORDERS 3~deleted||removed 1\n\
            hub 4 pub n ORDERS ORDERS d~stored 4||stored 4\n\
            hub 4 pump ORDERS 9~sent|4:4/0\n\
            leaf1 4 info COPY~info 1 of 1 to 3, 3 kept of 21 bytes, 0 consumers, copy at 3\n\
            leaf1 4 tick~sent|ask 2 1\n\
            leaf1 4 info COPY~info 1 of 1 to 4, 4 kept of 28 bytes, 0 consumers, copy at 4 by 1 2",
        crashes: b"hub",
    },
    Part {
        calls: b"\
            hub 5 pub n ORDERS ORDERS e~stored 5||stored 5\n\
            hub 5 pump ORDERS 9~sent\n\
            leaf1 60000000005 tick~sent|ask 2 2\n\
            leaf1 60000000005 info COPY~info 1 of 1 to 5, 5 kept of 35 bytes, 0 consumers, copy at 5 by 2 1\n\
            hub 60000000006 remove ORDERS~removed\n\
            hub 60000000006 stream n ORDERS~made\n\
            hub 60000000006 pub n ORDERS ORDERS x~stored 1||stored 1\n\
            leaf1 120000000006 tick~sent|ask 2 3\n\
            leaf1 120000000006 info COPY~info 1 of 1 to 5, 5 kept of 35 bytes, 0 consumers, copy at 5 stopped 1 2",
        crashes: b"",
    },
];

/// The same with a source, whose messages get numbers of its stream's own.
const SOURCE: [Part; 2] = [
    Part {
        calls: b"\
            hub 1 stream n ORDERS~made\n\
            hub 1 pub n ORDERS ORDERS a~stored 1||stored 1\n\
            leaf1 2 source GATHER hub ORDERS~made|ask 1 1\n\
            leaf1 2 pub n GATHER GATHER own~stored 2||stored 2\n\
            hub 3 pub n ORDERS ORDERS b~stored 2||stored 2\n\
            hub 3 pump ORDERS 9~sent|2:2/0\n\
            leaf1 3 del n GATHER 3~deleted||removed 1",
        crashes: b"leaf1",
    },
    Part {
        calls: b"\
            leaf1 4 tick~sent|ask 2 1\n\
            hub 4 pub n ORDERS ORDERS c~stored 3||stored 3\n\
            hub 4 pump ORDERS 9~sent|1:3/0\n\
            leaf1 4 last GATHER ORDERS~found 4\n\
            leaf1 4 get GATHER 3~NoMessage",
        crashes: b"",
    },
];

#[test]
fn a_mirror_comes_as_far_as_its_origin(rt: HostRuntime) -> Result<(), Fail> {
    expect_parts(&rt, rt.alloc(), &MIRROR)
}

#[test]
fn a_source_takes_each_message_once(rt: HostRuntime) -> Result<(), Fail> {
    expect_parts(&rt, rt.alloc(), &SOURCE)
}

/// The shards of two nodes that have nothing yet.
fn fresh_pair(alloc: Global) -> Result<Pair, Fail> {
    let hub = fresh(alloc, b"hub")?;
    match fresh(alloc, b"leaf1") {
        Ok(leaf) => Ok(Pair { hub, leaf }),
        Err(fault) => {
            drop(hub);
            Err(fault)
        }
    }
}

fn expect_parts(rt: &impl Abort, alloc: Global, parts: &[Part]) -> Result<(), Fail> {
    let mut pair = fresh_pair(alloc)?;
    for part in parts {
        let held = expect_rows(rt, alloc, &mut pair, part.calls);
        if let Err(fault) = held {
            drop(pair);
            return Err(fault);
        }
        match crashed(alloc, pair, part.crashes) {
            Ok(again) => pair = again,
            Err(fault) => return Err(fault),
        }
    }
    drop(pair);
    Ok(())
}

fn expect_rows(rt: &impl Abort, alloc: Global, pair: &mut Pair, table: &[u8]) -> Result<(), Fail> {
    for row in &pieces(alloc, table, b'\n')? {
        let (asked, want) = fields(row, b'~');
        let (node, asked) = fields(asked, b' ');
        let (now, call) = fields(asked, b' ');
        let got = answer_in(alloc, pair, node, number_in(now), call)?;
        assert!(rt; got.as_bytes() == want, "{row:?} {got}");
    }
    Ok(())
}

/// What a call is answered. The packets that it sends are carried at once.
fn answer_in(
    alloc: Global,
    pair: &mut Pair,
    node: &[u8],
    now: u64,
    call: &[u8],
) -> Result<String, Fail> {
    let call = call_of(alloc, call, now)?;
    let mut post = Vec::new(alloc);
    let got = pair.answer(alloc, &mut post, node, call);
    let carried = pair.carry(alloc, &mut post, now);
    drop(post);
    carried?;
    Ok(got?)
}

/// The node of this name crashes, if there is one, and its shard is loaded again.
fn crashed(alloc: Global, pair: Pair, node: &[u8]) -> Result<Pair, Fail> {
    let Pair { hub, leaf } = pair;
    if node == b"hub".as_slice() {
        with_hub(restarted(alloc, hub, node), leaf)
    } else if node == b"leaf1".as_slice() {
        with_leaf(hub, restarted(alloc, leaf, node))
    } else {
        Ok(Pair { hub, leaf })
    }
}

fn with_hub(hub: Result<Shard<MemDisk>, Fail>, leaf: Shard<MemDisk>) -> Result<Pair, Fail> {
    match hub {
        Ok(hub) => Ok(Pair { hub, leaf }),
        Err(fault) => {
            drop(leaf);
            Err(fault)
        }
    }
}

fn with_leaf(hub: Shard<MemDisk>, leaf: Result<Shard<MemDisk>, Fail>) -> Result<Pair, Fail> {
    match leaf {
        Ok(leaf) => Ok(Pair { hub, leaf }),
        Err(fault) => {
            drop(hub);
            Err(fault)
        }
    }
}
