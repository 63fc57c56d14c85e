ghost use Rattle.std.specs.Prelude.{◌≡◌, ◌++◌, OnOk, IfOk};
ghost use Rattle.shard_machine.specs.Answers.{flow_answer};
ghost use Rattle.js_wire.specs.declared.packet.Packet.{Packet};

use js_wire::Packet;
use nats_text::{List, Name, NoMemory, Stamp};

/// Adds the answer to the flow request that stands in a packet, if one does.
pub fn flow_answer(packet: &Packet, packets: &mut List<Packet>) -> Result<(), NoMemory>
    ensures { OnOk result (packets.new ≡ packets.old ++ flow_answer packet.now) }
{
    match packet {
        Packet::Beat {
            origin,
            stream,
            consumer,
            stalled: Some(token),
            ..
        } => packets.push(answer(origin, stream, *consumer, *token)?),
        Packet::FlowAsk {
            origin,
            stream,
            consumer,
            token,
            ..
        } => packets.push(answer(origin, stream, *consumer, *token)?),
        _ => Ok(()),
    }
}

fn answer(origin: &Name, stream: &Name, consumer: Stamp, token: u64) -> Result<Packet, NoMemory>
    ensures { IfOk result (λ packet. packet ≡ Packet.FlowReply origin.now stream.now consumer token) }
{
    Ok(Packet::FlowReply {
        origin: origin.clone()?,
        stream: stream.clone()?,
        consumer,
        token,
    })
}
