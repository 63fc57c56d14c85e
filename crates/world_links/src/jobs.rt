//! Which calls of shards a packet makes where it comes, and which node and stream it is for.
ghost use Rattle.std.specs.Prelude.{◌≡◌, ◌<◌, ◌++◌, ℕ, OnOk, OnErr, IfOk};
ghost use Rattle.std.specs.Option.{option_copied};
ghost use Rattle.run_soundness.specs.Worlds.{shard_of};
ghost use Rattle.world_links.specs.States.{call_by};
ghost use Rattle.world_steps.specs.Routes.{destination, stream_of, call_of, pump, packet_jobs, operated};

use js_wire::Packet;
use nats_text::{Name, NoMemory, fnv1a};
use shard_machine::ShardCall;
use std::collections::VecDeque;
use world_steps::Job;

/// The budget of a pump that has no bound.
const WITHOUT_BOUND: u32 = u32::MAX;

/// How many shards a node has.
const SHARDS: u32 = 8;

/// The shard of a stream on its node.
pub fn shard_of(stream: &Name) -> u32
    ensures value { result ≡ shard_of stream.now }
    ensures within { result < 8 }
{
    fnv1a(stream.bytes()) % SHARDS
}

/// The node that a packet is for.
pub fn destination(packet: &Packet) -> &Name
    ensures { result.now ≡ destination packet.now }
{
    match packet {
        Packet::Ask { origin, .. } => origin,
        Packet::Answer { asker, .. } => &asker.node,
        Packet::Refuse { asker, .. } => &asker.node,
        Packet::Delivery { asker, .. } => &asker.node,
        Packet::Beat { asker, .. } => &asker.node,
        Packet::FlowAsk { asker, .. } => &asker.node,
        Packet::FlowReply { origin, .. } => origin,
    }
}

/// The stream of that node that it is for.
pub fn stream_of(packet: &Packet) -> &Name
    ensures { result.now ≡ stream_of packet.now }
{
    match packet {
        Packet::Ask { stream, .. } => stream,
        Packet::Answer { asker, .. } => &asker.stream,
        Packet::Refuse { asker, .. } => &asker.stream,
        Packet::Delivery { asker, .. } => &asker.stream,
        Packet::Beat { asker, .. } => &asker.stream,
        Packet::FlowAsk { asker, .. } => &asker.stream,
        Packet::FlowReply { stream, .. } => stream,
    }
}

/// What a packet is to the shard to which it comes.
#[derive(Clone, Copy, Debug, PartialEq, Eq)]
pub(crate) enum Kind {
    /// It asks for a consumer.
    Asks,
    /// It answers a flow request.
    Answers,
    /// It tells a copy something.
    Tells,
}

fn kind_of(packet: &Packet) -> Kind
    ensures { (now : ℕ) → call_of now packet.now ≡ call_by result now packet.now }
{
    match packet {
        Packet::Ask { .. } => Kind::Asks,
        Packet::Answer { .. } => Kind::Tells,
        Packet::Refuse { .. } => Kind::Tells,
        Packet::Delivery { .. } => Kind::Tells,
        Packet::Beat { .. } => Kind::Tells,
        Packet::FlowAsk { .. } => Kind::Tells,
        Packet::FlowReply { .. } => Kind::Answers,
    }
}

/// The call that a packet makes.
pub fn call_of(now: u64, packet: Packet) -> ShardCall
    ensures { result ≡ call_of now packet }
{
    match kind_of(&packet) {
        Kind::Asks => ShardCall::MakeConsumer { ask: packet, now },
        Kind::Answers => ShardCall::FlowReply { packet },
        Kind::Tells => ShardCall::Heard { packet, now },
    }
}

/// A pump of a stream.
pub fn pump(now: u64, stream: Name) -> Job
    ensures { result ≡ pump now stream }
{
    Job {
        shard: shard_of(&stream),
        call: ShardCall::Pump {
            name: stream,
            budget: WITHOUT_BOUND,
            now,
        },
    }
}

/// A copy of a name.
pub(crate) fn copied(name: &Name) -> Result<Name, NoMemory>
    ensures { IfOk result (λ copy. copy ≡ name.now) }
{
    Ok(name.clone()?)
}

/// Puts the calls of a packet behind those that are due, or none of them.
pub fn push_jobs(jobs: &mut VecDeque<Job>, now: u64, packet: Packet) -> Result<(), NoMemory>
    ensures ok { OnOk result (jobs.new.items ≡ jobs.old.items ++ packet_jobs now packet) }
    ensures err { OnErr result (jobs.new.items ≡ jobs.old.items) }
{
    let stream = copied(stream_of(&packet))?;
    jobs.reserve(2)?;
    let shard = shard_of(&stream);
    let call = call_of(now, packet);
    jobs.push_back_reserved(Job { shard, call });
    jobs.push_back_reserved(pump(now, stream));
    Ok(())
}

/// The stream of an operation.
pub fn operated(call: &ShardCall) -> Option<&Name>
    ensures { option_copied result ≡ operated call.now }
{
    match call {
        ShardCall::Create { config, .. } => Some(&config.name),
        ShardCall::Update { config } => Some(&config.name),
        ShardCall::Remove { name } => Some(name),
        ShardCall::Publish { name, .. } => Some(name),
        ShardCall::Delete { name, .. } => Some(name),
        ShardCall::Purge { name, .. } => Some(name),
        ShardCall::Expire { name, .. } => Some(name),
        ShardCall::Get { .. } => None,
        ShardCall::Info { .. } => None,
        ShardCall::Names => None,
        ShardCall::MakeConsumer { .. } => None,
        ShardCall::Pump { .. } => None,
        ShardCall::FlowReply { .. } => None,
        ShardCall::Reach { .. } => None,
        ShardCall::Heard { .. } => None,
        ShardCall::Tick { .. } => None,
        ShardCall::LinkLost => None,
    }
}
