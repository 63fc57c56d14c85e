ghost use Rattle.std.specs.Prelude.{◌≡◌, IfOk};
ghost use Rattle.js_wire.specs.Messages.{message_of};

use crate::Packet;
use crate::headers::{beat_headers, delivery_headers, status_alone};
use crate::payload::{answer_text, ask_text, refusal_text};
use crate::subjects::{attempt_subject, create_subject, delivery_subject, flow_subject};
use nats_text::{Bytes, Headers, NoMemory, Parcel};
use std::alloc::Global;

/// The message that carries a packet.
pub fn to_message(alloc: Global, packet: &Packet) -> Result<Parcel, NoMemory>
    ensures { IfOk result (λ parcel. parcel ≡ message_of packet.now) }
{
    match packet {
        Packet::Ask {
            asker,
            attempt,
            origin,
            stream,
            start,
            filters,
        } => {
            let deliveries = attempt_subject(alloc, asker, *attempt, b"D")?;
            Ok(Parcel {
                subject: create_subject(alloc, origin, stream)?,
                reply: Some(attempt_subject(alloc, asker, *attempt, b"A")?),
                headers: Headers::empty(alloc),
                payload: ask_text(alloc, &deliveries, stream, *start, filters.as_slice())?,
            })
        }
        Packet::Answer {
            asker,
            attempt,
            consumer,
            incarnation,
            start,
        } => Ok(Parcel {
            subject: attempt_subject(alloc, asker, *attempt, b"A")?,
            reply: None,
            headers: Headers::empty(alloc),
            payload: answer_text(alloc, *consumer, *incarnation, *start)?,
        }),
        Packet::Refuse {
            asker,
            attempt,
            code,
            err_code,
        } => Ok(Parcel {
            subject: attempt_subject(alloc, asker, *attempt, b"A")?,
            reply: None,
            headers: Headers::empty(alloc),
            payload: refusal_text(alloc, *code, *err_code)?,
        }),
        Packet::Delivery {
            asker,
            attempt,
            stream,
            consumer,
            number,
            seq,
            pending,
            message,
        } => Ok(Parcel {
            subject: attempt_subject(alloc, asker, *attempt, b"D")?,
            reply: Some(delivery_subject(
                alloc,
                stream,
                *consumer,
                *seq,
                *number,
                message.time,
                *pending,
            )?),
            headers: delivery_headers(alloc, message)?,
            payload: message.payload.clone()?,
        }),
        Packet::Beat {
            asker,
            attempt,
            origin,
            stream,
            consumer,
            last_number,
            last_seq,
            stalled,
        } => Ok(Parcel {
            subject: attempt_subject(alloc, asker, *attempt, b"D")?,
            reply: None,
            headers: beat_headers(
                alloc,
                origin,
                stream,
                *consumer,
                *last_number,
                *last_seq,
                *stalled,
            )?,
            payload: Bytes::new(alloc),
        }),
        Packet::FlowAsk {
            asker,
            attempt,
            origin,
            stream,
            consumer,
            token,
        } => Ok(Parcel {
            subject: attempt_subject(alloc, asker, *attempt, b"D")?,
            reply: Some(flow_subject(alloc, origin, stream, *consumer, *token)?),
            headers: status_alone(alloc, b"100 FlowControl Request")?,
            payload: Bytes::new(alloc),
        }),
        Packet::FlowReply {
            origin,
            stream,
            consumer,
            token,
        } => Ok(Parcel {
            subject: flow_subject(alloc, origin, stream, *consumer, *token)?,
            reply: None,
            headers: Headers::empty(alloc),
            payload: Bytes::new(alloc),
        }),
    }
}
