ghost use Rattle.std.specs.Prelude.{◌≡◌, ◌≢◌, ◌⊎◌, [], None, IfOk, IfErr};
ghost use Rattle.js_wire.specs.declared.packet.Packet.{Packet as Sent};
ghost use Rattle.shard_machine.specs.Refusing.{told_with, call_told};
ghost use Rattle.shard_machine.specs.Steps.{refusal_packets, refused_packets, refused};
ghost use Rattle.shard_machine.specs.declared.reply.ShardRefusal.TheVariants.{NoMemory as OutOfMemory};

use crate::{Outcome, ShardCall, ShardRefusal, ShardReply};
use js_wire::Packet;
use nats_text::{List, NoMemory};
use std::alloc::Global;
use stream_fold::Entry;

/// The reply of a refusal: the entry that is in doubt, where a disk failed, and what is sent to a copy
/// for which no consumer was made. Where there is no memory for that, it is the reply of `NoMemory`.
pub fn refused(
    alloc: Global,
    call: &ShardCall,
    why: ShardRefusal,
    doubted: Option<Entry>,
) -> ShardReply
    ensures { (result ≡ refused call.now why doubted) ⊎ ((refused_packets call.now why ≢ []) × (result ≡ refused call.now OutOfMemory None)) }
{
    match packets_told(alloc, call, api_numbers(&why)) {
        Ok(packets) => ShardReply {
            outcome: Outcome::Refused(why),
            entry: doubted,
            packets,
            notices: List::new(alloc),
        },
        Err(NoMemory) => ShardReply {
            outcome: Outcome::Refused(ShardRefusal::NoMemory),
            entry: None,
            packets: List::new(alloc),
            notices: List::new(alloc),
        },
    }
}

/// The status and the error code of the JetStream API by which a copy is told why no consumer is made
/// for it. `None`: it isn't told.
fn api_numbers(why: &ShardRefusal) -> Option<(u32, u32)>
    ensures { (ask : Sent) → refusal_packets ask why.now ≡ told_with ask result }
{
    match why {
        ShardRefusal::Of(_) => None,
        ShardRefusal::NoStream => Some((404, 10059)),
        ShardRefusal::BadConfig { .. } => None,
        ShardRefusal::NameTaken => None,
        ShardRefusal::TooManyStreams => None,
        ShardRefusal::OldAttempt { .. } => None,
        ShardRefusal::TooManyConsumers => Some((400, 10912)),
        ShardRefusal::NoMessage => None,
        ShardRefusal::JournalFull { .. } => Some((500, 10913)),
        ShardRefusal::BadJournal { .. } => Some((500, 10915)),
        ShardRefusal::NoMemory => None,
        ShardRefusal::DiskFault => None,
    }
}

/// What a call sends that is refused with these numbers.
fn packets_told(
    alloc: Global,
    call: &ShardCall,
    numbers: Option<(u32, u32)>,
) -> Result<List<Packet>, NoMemory>
    ensures packets { IfOk result (λ packets. packets ≡ call_told call.now numbers) }
    ensures memory { IfErr result (λ _. call_told call.now numbers ≢ []) }
{
    let mut packets = List::new(alloc);
    if let ShardCall::MakeConsumer { ask, .. } = call {
        if let Packet::Ask { asker, attempt, .. } = ask {
            if let Some((code, err_code)) = numbers {
                packets.push(Packet::Refuse {
                    asker: asker.clone()?,
                    attempt: *attempt,
                    code,
                    err_code,
                })?;
            }
        }
    }
    Ok(packets)
}
