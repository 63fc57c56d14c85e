//! Askers in each phase, and what they ask.
ghost use Rattle.std.specs.Prelude.{IfOk};
ghost use Rattle.replica_ask.specs.Askers.{IsAsking};

use crate::table::{fields, patterns};
use js_wire::{AskerId, Packet};
use nats_text::{
    Bytes, List, Mapping, Name, NoMemory, Origin, Pattern, Stamp, Start, TextFault, pieces,
};
use replica_ask::Asker;
use std::alloc::Global;
use std::process::Abort;
use std::test::Fail;

/// The asker of a copy on the node `leaf1`.
pub fn id(alloc: Global) -> Result<AskerId, TextFault> {
    let node = Name::read(alloc, b"leaf1")?;
    let stream = Name::read(alloc, b"COPY")?;
    Ok(AskerId {
        node,
        stream,
        index: 0,
    })
}

/// An origin with the filter and the sources of maps that a text names, with a space between them.
fn origin(alloc: Global, text: &[u8]) -> Result<Origin, TextFault> {
    let (filter, sources) = fields(text, b' ');
    let filter = if filter.is_empty() {
        None
    } else {
        Some(Pattern::read(alloc, filter)?)
    };
    let maps = maps(alloc, sources)?;
    Ok(Origin {
        node: None,
        stream: Name::read(alloc, b"S")?,
        start: Start::Seq(1),
        filter,
        maps,
    })
}

fn maps(alloc: Global, sources: &[u8]) -> Result<List<Mapping>, NoMemory> {
    let mut maps = List::new(alloc);
    if sources.is_empty() {
        return Ok(maps);
    }
    for source in &pieces(alloc, sources, b',')? {
        let src = Bytes::from_slice(alloc, source)?;
        let dest = Bytes::new(alloc);
        maps.push(Mapping { src, dest })?;
    }
    Ok(maps)
}

/// An asker that has asked at a moment.
fn asking(alloc: Global, now: u64) -> Result<Asker, TextFault>
    ensures { IfOk result (λ asker. IsAsking asker.phase) }
{
    let mut asker = Asker::new(id(alloc)?, 3);
    let hub = Name::read(alloc, b"hub")?;
    let want = origin(alloc, b"")?;
    let packet = asker.ask(alloc, now, &hub, &want, Start::Seq(1))?;
    drop(packet);
    Ok(asker)
}

/// An asker that is `idle`, `asking`, `bound` or `stopped`, since a moment. Where it is bound the
/// delivery 2 is awaited.
pub fn asker_in(alloc: Global, phase: &[u8], now: u64) -> Result<Asker, TextFault> {
    let mut asker = asking(alloc, now)?;
    match phase {
        b"asking" => {}
        b"bound" => {
            asker.bind(Stamp { boot: 7, count: 2 }, now);
            asker.took(now);
        }
        b"stopped" => asker.stop(1, 2),
        _ => asker.lost_link(),
    }
    Ok(asker)
}

/// Whether the second attempt of an asker, for such an origin, asks with these filters.
fn asks_for(alloc: Global, from: &[u8], filters: &[u8]) -> Result<bool, TextFault> {
    let mut asker = asking(alloc, 5)?;
    let hub = Name::read(alloc, b"hub")?;
    let want = origin(alloc, from)?;
    let packet = asker.ask(alloc, 6, &hub, &want, Start::Time(9))?;
    let is_right = is_ask(&packet, &patterns(alloc, filters)?);
    drop(packet);
    Ok(is_right && asker.attempts() == 2 && asker.id().index == 0)
}

fn is_ask(packet: &Packet, wanted: &List<Pattern>) -> bool {
    match packet {
        Packet::Ask {
            attempt,
            origin,
            stream,
            start,
            filters,
            ..
        } => {
            *attempt == Stamp { boot: 3, count: 2 }
                && origin.bytes() == b"hub".as_slice()
                && stream.bytes() == b"S".as_slice()
                && *start == Start::Time(9)
                && filters == wanted
        }
        _ => false,
    }
}

#[test]
fn an_asker_asks_for_what_its_origin_says(rt: HostRuntime) -> Result<(), Fail> {
    for (from, filters) in [
        ("", ""),
        ("a.>", "a.>"),
        (" b.*,c", "b.*,c"),
        (" b..,c", "c"),
        ("a b", "a"),
    ] {
        assert!(rt;
            asks_for(rt.alloc(), from.as_bytes(), filters.as_bytes())?,
            "{from}"
        );
    }
    Ok(())
}
