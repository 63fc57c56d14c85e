//! Packets as texts.
use js_wire::Packet;
use nats_text::NoMemory;
use std::alloc::Global;

/// The packets as texts with a space between them: `NUMBER:SEQ/PENDING` for a delivery, `?TOKEN` for
/// a flow request, `beat NUMBER SEQ TOKEN` for a beat, with `-` in place of no token.
pub fn told(alloc: Global, packets: &[Packet]) -> Result<String, NoMemory> {
    let mut text = String::new(alloc);
    for packet in packets {
        if !text.is_empty() {
            text.push(' ')?;
        }
        text.push_str(told_one(alloc, packet)?.as_str())?;
    }
    Ok(text)
}

fn told_one(alloc: Global, packet: &Packet) -> Result<String, NoMemory> {
    match packet {
        Packet::Delivery {
            number,
            seq,
            pending,
            ..
        } => Ok(format!(in alloc; "{number}:{seq}/{pending}")?),
        Packet::FlowAsk { token, .. } => Ok(format!(in alloc; "?{token}")?),
        Packet::Beat {
            last_number,
            last_seq,
            stalled,
            ..
        } => match stalled {
            Some(token) => Ok(format!(in alloc; "beat {last_number} {last_seq} {token}")?),
            None => Ok(format!(in alloc; "beat {last_number} {last_seq} -")?),
        },
        _ => Ok(format!(in alloc; "other")?),
    }
}
