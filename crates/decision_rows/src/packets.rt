//! Askers, and packets to them.
ghost use Rattle.std.specs.Prelude.{IfOk};
ghost use Rattle.replica_ask.specs.Askers.{IsAsking};

use crate::table::{fields, number_in};
use js_wire::{AskerId, Packet};
use nats_text::{
    Bytes, Headers, List, Message, Name, NoMemory, Origin, Stamp, Start, Subject, TextFault, number,
};
use replica_ask::Asker;
use std::alloc::Global;

/// The first attempt of the asker.
const ATTEMPT: Stamp = Stamp { boot: 3, count: 1 };

/// The consumer that answered it.
const CONSUMER: Stamp = Stamp { boot: 7, count: 1 };

fn id(alloc: Global) -> Result<AskerId, TextFault> {
    let node = Name::read(alloc, b"leaf1")?;
    let stream = Name::read(alloc, b"COPY")?;
    Ok(AskerId {
        node,
        stream,
        index: 0,
    })
}

fn origin(alloc: Global) -> Result<Origin, TextFault> {
    let stream = Name::read(alloc, b"EU")?;
    Ok(Origin {
        node: None,
        stream,
        start: Start::Seq(1),
        filter: None,
        maps: List::new(alloc),
    })
}

/// The asker of a copy that has asked once.
fn asking(alloc: Global) -> Result<Asker, TextFault>
    ensures { IfOk result (λ asker. IsAsking asker.phase) }
{
    let mut asker = Asker::new(id(alloc)?, 3);
    let hub = Name::read(alloc, b"hub")?;
    let want = origin(alloc)?;
    let packet = asker.ask(alloc, 5, &hub, &want, Start::Seq(1))?;
    drop(packet);
    Ok(asker)
}

/// An asker that has `asked` once, or that is `bound`: it was answered, and awaits the first delivery.
pub fn asker_in(alloc: Global, phase: &[u8]) -> Result<Asker, TextFault> {
    let mut asker = asking(alloc)?;
    if phase == b"bound".as_slice() {
        asker.bind(CONSUMER, 6);
    }
    Ok(asker)
}

/// A message on a subject at a moment, with a payload of so many bytes.
pub fn message(alloc: Global, subject: &[u8], time: u64, len: usize) -> Result<Message, TextFault> {
    let subject = Subject::read(alloc, subject)?;
    Ok(Message {
        subject,
        headers: Headers::empty(alloc),
        payload: Bytes::from_vec(vec![in alloc; 7u8; len]?),
        time,
    })
}

/// The packet of a text: `answer INCARNATION START`, `refuse`, `deliver NUMBER SEQ SUBJECT [LEN]` with
/// a message at the moment 50, `beat NUMBER [TOKEN]`, or `flow`.
pub fn packet(alloc: Global, text: &[u8]) -> Result<Packet, TextFault> {
    let (kind, rest) = fields(text, b' ');
    let (first, rest) = fields(rest, b' ');
    let first = number_in(first);
    match kind {
        b"answer" => answer(alloc, first, number_in(rest)),
        b"refuse" => refuse(alloc),
        b"deliver" => delivery(alloc, first, rest),
        b"beat" => beat(alloc, first, number(rest)),
        _ => flow(alloc),
    }
}

fn answer(alloc: Global, incarnation: u64, start: u64) -> Result<Packet, TextFault> {
    Ok(Packet::Answer {
        asker: id(alloc)?,
        attempt: ATTEMPT,
        consumer: CONSUMER,
        incarnation,
        start,
    })
}

fn refuse(alloc: Global) -> Result<Packet, TextFault> {
    Ok(Packet::Refuse {
        asker: id(alloc)?,
        attempt: ATTEMPT,
        code: 404,
        err_code: 10059,
    })
}

fn delivery(alloc: Global, number: u64, text: &[u8]) -> Result<Packet, TextFault> {
    let (seq, rest) = fields(text, b' ');
    let (subject, len) = fields(rest, b' ');
    let message = message(alloc, subject, 50, number_in(len) as usize)?;
    Ok(Packet::Delivery {
        asker: id(alloc)?,
        attempt: ATTEMPT,
        stream: Name::read(alloc, b"EU")?,
        consumer: CONSUMER,
        number,
        seq: number_in(seq),
        pending: 0,
        message,
    })
}

fn beat(alloc: Global, last_number: u64, stalled: Option<u64>) -> Result<Packet, TextFault> {
    let asker = id(alloc)?;
    let origin = Name::read(alloc, b"hub")?;
    Ok(Packet::Beat {
        asker,
        attempt: ATTEMPT,
        origin,
        stream: Name::read(alloc, b"EU")?,
        consumer: CONSUMER,
        last_number,
        last_seq: 8,
        stalled,
    })
}

fn flow(alloc: Global) -> Result<Packet, TextFault> {
    let asker = id(alloc)?;
    let origin = Name::read(alloc, b"hub")?;
    Ok(Packet::FlowAsk {
        asker,
        attempt: ATTEMPT,
        origin,
        stream: Name::read(alloc, b"EU")?,
        consumer: CONSUMER,
        token: 1,
    })
}
