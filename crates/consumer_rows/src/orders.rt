//! What packets are to an asker, and when it is due.
use crate::asks::{asker_in, id};
use crate::table::{fields, number_in};
use js_wire::Packet;
use nats_text::{
    Bytes, Headers, List, Message, Name, NoMemory, Stamp, Start, Subject, TextFault, pieces,
};
use replica_ask::{Order, Phase};
use std::alloc::Global;
use std::process::Abort;
use std::test::Fail;

/// Each row is a phase, a packet and its order. The phases are those of `asker_in`. A packet is its
/// kind, its attempt and its consumer, and a number; `=` stands for the stamp of the asker, and `x`
/// for that of another boot.
const ORDERS: &[u8] = b"\
    bound|delivery = = 4|gap 2 4\n\
    bound|delivery = = 3|gap 2 3\n\
    bound|delivery = = 2|next\n\
    bound|delivery = = 1|old 1 2\n\
    bound|delivery = = 0|old 0 2\n\
    bound|delivery = x 2|foreign\n\
    bound|delivery x = 2|foreign\n\
    bound|beat = = 0|beat\n\
    bound|beat = = 1|beat\n\
    bound|beat = = 2|gap 2 3\n\
    bound|beat = = 9|gap 2 10\n\
    bound|beat = x 1|foreign\n\
    bound|beat x = 9|foreign\n\
    bound|flow = = 1|flow\n\
    bound|flow = x 1|foreign\n\
    bound|flow x = 1|foreign\n\
    bound|answer = = 1|foreign\n\
    bound|refuse = = 1|foreign\n\
    bound|ask = = 1|foreign\n\
    bound|reply = = 1|foreign\n\
    asking|answer = = 1|answer\n\
    asking|answer = x 1|answer\n\
    asking|answer x = 1|foreign\n\
    asking|refuse = = 1|refuse\n\
    asking|refuse x = 1|foreign\n\
    asking|delivery = = 1|foreign\n\
    asking|beat = = 0|foreign\n\
    asking|flow = = 1|foreign\n\
    asking|ask = = 1|foreign\n\
    asking|reply = = 1|foreign\n\
    idle|answer = = 1|foreign\n\
    idle|refuse = = 1|foreign\n\
    idle|delivery = = 1|foreign\n\
    stopped|answer = = 1|foreign\n\
    stopped|delivery = = 2|foreign\n\
    stopped|beat = = 9|foreign";

/// The stamp of a word, which is this one or one of another boot.
fn stamp(word: &[u8], own: Stamp) -> Stamp {
    if word == b"=".as_slice() {
        own
    } else {
        Stamp {
            boot: 9,
            count: own.count,
        }
    }
}

fn packet(alloc: Global, text: &[u8]) -> Result<Packet, TextFault> {
    let (kind, rest) = fields(text, b' ');
    let (attempt, rest) = fields(rest, b' ');
    let (consumer, number) = fields(rest, b' ');
    let attempt = stamp(attempt, Stamp { boot: 3, count: 1 });
    let consumer = stamp(consumer, Stamp { boot: 7, count: 2 });
    let number = number_in(number);
    match kind {
        b"delivery" => delivery(alloc, attempt, consumer, number),
        b"beat" => beat(alloc, attempt, consumer, number),
        b"flow" => flow(alloc, attempt, consumer, number),
        b"answer" => Ok(Packet::Answer {
            asker: id(alloc)?,
            attempt,
            consumer,
            incarnation: 1,
            start: 1,
        }),
        b"refuse" => Ok(Packet::Refuse {
            asker: id(alloc)?,
            attempt,
            code: 404,
            err_code: 10059,
        }),
        b"ask" => ask(alloc, attempt),
        _ => reply(alloc, consumer, number),
    }
}

fn delivery(
    alloc: Global,
    attempt: Stamp,
    consumer: Stamp,
    number: u64,
) -> Result<Packet, TextFault> {
    Ok(Packet::Delivery {
        asker: id(alloc)?,
        attempt,
        stream: Name::read(alloc, b"S")?,
        consumer,
        number,
        seq: 8,
        pending: 0,
        message: message(alloc)?,
    })
}

fn message(alloc: Global) -> Result<Message, TextFault> {
    let subject = Subject::read(alloc, b"a")?;
    Ok(Message {
        subject,
        headers: Headers::empty(alloc),
        payload: Bytes::new(alloc),
        time: 0,
    })
}

fn beat(
    alloc: Global,
    attempt: Stamp,
    consumer: Stamp,
    last_number: u64,
) -> Result<Packet, TextFault> {
    Ok(Packet::Beat {
        asker: id(alloc)?,
        attempt,
        origin: Name::read(alloc, b"hub")?,
        stream: Name::read(alloc, b"S")?,
        consumer,
        last_number,
        last_seq: 8,
        stalled: None,
    })
}

fn flow(alloc: Global, attempt: Stamp, consumer: Stamp, token: u64) -> Result<Packet, TextFault> {
    Ok(Packet::FlowAsk {
        asker: id(alloc)?,
        attempt,
        origin: Name::read(alloc, b"hub")?,
        stream: Name::read(alloc, b"S")?,
        consumer,
        token,
    })
}

fn ask(alloc: Global, attempt: Stamp) -> Result<Packet, TextFault> {
    Ok(Packet::Ask {
        asker: id(alloc)?,
        attempt,
        origin: Name::read(alloc, b"hub")?,
        stream: Name::read(alloc, b"S")?,
        start: Start::Seq(1),
        filters: List::new(alloc),
    })
}

fn reply(alloc: Global, consumer: Stamp, token: u64) -> Result<Packet, TextFault> {
    let origin = Name::read(alloc, b"hub")?;
    Ok(Packet::FlowReply {
        origin,
        stream: Name::read(alloc, b"S")?,
        consumer,
        token,
    })
}

fn told(alloc: Global, order: Order) -> Result<String, NoMemory> {
    match order {
        Order::Next => Ok(format!(in alloc; "next")?),
        Order::Old { number, next } => Ok(format!(in alloc; "old {number} {next}")?),
        Order::Foreign => Ok(format!(in alloc; "foreign")?),
        Order::Gap { expected, got } => Ok(format!(in alloc; "gap {expected} {got}")?),
        Order::Beat => Ok(format!(in alloc; "beat")?),
        Order::FlowAsk => Ok(format!(in alloc; "flow")?),
        Order::Answer => Ok(format!(in alloc; "answer")?),
        Order::Refuse => Ok(format!(in alloc; "refuse")?),
    }
}

fn is_order(alloc: Global, row: &[u8]) -> Result<bool, TextFault> {
    let (phase, rest) = fields(row, b'|');
    let (text, want) = fields(rest, b'|');
    let order = order_in(alloc, phase, text)?;
    Ok(told(alloc, order)?.as_bytes() == want)
}

/// What the packet of a text is to an asker in a phase.
fn order_in(alloc: Global, phase: &[u8], text: &[u8]) -> Result<Order, TextFault> {
    let asker = asker_in(alloc, phase, 20_000_000_000)?;
    let packet = packet(alloc, text)?;
    let order = asker.order(&packet);
    drop(packet);
    Ok(order)
}

#[test]
fn packets_are_ordered_by_phase(rt: HostRuntime) -> Result<(), Fail> {
    for row in &pieces(rt.alloc(), ORDERS, b'\n')? {
        assert!(rt; is_order(rt.alloc(), row)?, "{row:?}");
    }
    Ok(())
}

/// Whether an asker that was last heard, or has asked, at 20 seconds is due at a moment.
fn is_due(alloc: Global, phase: &[u8], now: u64) -> Result<bool, TextFault> {
    Ok(asker_in(alloc, phase, 20_000_000_000)?.due(now))
}

#[test]
fn an_asker_is_due_on_both_sides_of_ten_seconds(rt: HostRuntime) -> Result<(), Fail> {
    for (phase, now, want) in [
        ("asking", 29_999_999_999, false),
        ("asking", 30_000_000_000, true),
        ("asking", 10_000_000_001, false),
        ("asking", 10_000_000_000, true),
        ("bound", 29_999_999_999, false),
        ("bound", 30_000_000_000, true),
        ("bound", 10_000_000_001, false),
        ("bound", 10_000_000_000, true),
        ("idle", 20_000_000_000, true),
        ("stopped", 90_000_000_000, false),
        ("stopped", 0, false),
    ] {
        assert_eq!(rt;
            is_due(rt.alloc(), phase.as_bytes(), now)?,
            want,
            "{phase} {now}"
        );
    }
    Ok(())
}

/// The phases through which an asker goes.
fn goes_through(alloc: Global) -> Result<bool, TextFault> {
    let mut asker = asker_in(alloc, b"bound", 5)?;
    asker.heard(6);
    let attempt = Stamp { boot: 3, count: 1 };
    let consumer = Stamp { boot: 7, count: 2 };
    let bound = Phase::Bound {
        attempt,
        consumer,
        next: 2,
        heard: 6,
    };
    let was_bound = *asker.phase() == bound;
    asker.stop(1, 2);
    let was_stopped = *asker.phase() == Phase::Stopped { kept: 1, seen: 2 };
    asker.lost_link();
    let is_idle = *asker.phase() == Phase::Idle;
    Ok(was_bound && was_stopped && is_idle && asker.attempts() == 1 && asker.boot() == 3)
}

#[test]
fn an_asker_goes_through_its_phases(rt: HostRuntime) -> Result<(), Fail> {
    assert!(rt; goes_through(rt.alloc())?);
    Ok(())
}
