//! A pump of a stream's consumers, made before any of them counts as pumped.
ghost use Rattle.std.specs.Prelude.{◌≡◌, ◌++◌, map, flat_map, IfOk, OnOk};
ghost use Rattle.push_consumer.specs.Pumps.{pump_packets, pumped};
ghost use Rattle.shard_machine.specs.Answers.{consumers_of};
ghost use Rattle.shard_copies.specs.Pumped.{put_back};

use crate::lists::reads;
use js_wire::Packet;
use nats_text::{List, Name, NoMemory};
use push_consumer::Consumer;
use std::alloc::Global;
use std::mem;
use stream_fold::StreamState;

/// What the consumers of a stream send, and those consumers once it is sent.
#[derive(Debug, Drop)]
pub struct Pumped {
    pub packets: List<Packet>,
    pub consumers: Vec<Consumer>,
}

/// What the consumers of a stream may send, each at most so many messages.
pub fn pumped_of(
    alloc: Global,
    all: &[Consumer],
    name: &Name,
    state: &StreamState,
    budget: u32,
    now: u64,
) -> Result<Pumped, NoMemory>
    ensures packets { IfOk result (λ it. it.packets ≡ flat_map (pump_packets state.now.held.rows budget) (consumers_of name.now all.now)) }
    ensures consumers { IfOk result (λ it. it.consumers.items ≡ map (pumped state.now.held.rows budget now) (consumers_of name.now all.now)) }
{
    let mut packets = List::new(alloc);
    let mut consumers = Vec::new(alloc);
    for consumer in all {
        if reads(consumer, name) {
            let mut next = copied(consumer)?;
            add_all(&mut packets, next.pump(alloc, state, budget, now)?)?;
            consumers.push(next)?;
        }
    }
    Ok(Pumped { packets, consumers })
}

fn copied(consumer: &Consumer) -> Result<Consumer, NoMemory>
    ensures { IfOk result (λ copy. copy ≡ consumer.now) }
{
    Ok(consumer.clone()?)
}

/// Adds packets behind others.
fn add_all(packets: &mut List<Packet>, sent: List<Packet>) -> Result<(), NoMemory>
    ensures { OnOk result (packets.new ≡ packets.old ++ sent) }
{
    for packet in sent.into_vec() {
        packets.push(packet)?;
    }
    Ok(())
}

/// Puts the consumers of a stream in the places of those which they were made of.
pub fn put_back(all: &mut [Consumer], name: &Name, next: &mut [Consumer])
    ensures { all.new ≡ put_back name.now next.old all.old }
{
    let mut place = 0;
    let mut taken = 0;
    while place < all.len() && taken < next.len() {
        if reads(&all[place], name) {
            mem::swap(&mut all[place], &mut next[taken]);
            taken += 1;
        }
        place += 1;
    }
}
