ghost use Rattle.std.specs.Prelude.{◌≡◌};

use nats_text::{List, Message, Name, Pattern, Stamp, Start};
use std::alloc::AllocError;

/// Which copy asks: the stream that copies, the node on which it stands, and which of the stream's
/// origins it is, from 0.
#[derive(Clone, Debug, Drop)]
pub struct AskerId {
    pub node: Name,
    pub stream: Name,
    pub index: u32,
}

/// What a copy and its origin tell each other. An attempt is given once to each request for messages
/// of a copy; a consumer is what the origin makes for an attempt, and has a name that is given once.
#[derive(Debug, Drop)]
pub enum Packet {
    /// A copy asks a stream on the node `origin` for its messages, from a start on and of the subjects
    /// that one of the filters matches. Without filters all subjects match.
    Ask {
        asker: AskerId,
        attempt: Stamp,
        origin: Name,
        stream: Name,
        start: Start,
        filters: List<Pattern>,
    },
    /// The origin made a consumer, which sends from the number `start` on, of the stream's creation of
    /// this number.
    Answer {
        asker: AskerId,
        attempt: Stamp,
        consumer: Stamp,
        incarnation: u64,
        start: u64,
    },
    /// The origin makes no consumer, with the numbers of the refusal in the JetStream API.
    Refuse {
        asker: AskerId,
        attempt: Stamp,
        code: u32,
        err_code: u32,
    },
    /// A message, which is the consumer's delivery of this number, from 1. `seq` is its number in the
    /// origin, and `pending` tells how many more are kept for this consumer behind it.
    Delivery {
        asker: AskerId,
        attempt: Stamp,
        stream: Name,
        consumer: Stamp,
        number: u64,
        seq: u64,
        pending: u64,
        message: Message,
    },
    /// A consumer that is idle tells how many deliveries it has sent, and the last one's number in the
    /// origin. Where it waits for the answer to a flow request, `stalled` is the latest one's token.
    Beat {
        asker: AskerId,
        attempt: Stamp,
        origin: Name,
        stream: Name,
        consumer: Stamp,
        last_number: u64,
        last_seq: u64,
        stalled: Option<u64>,
    },
    /// A consumer asks its copy to answer once it has taken all that was sent before.
    FlowAsk {
        asker: AskerId,
        attempt: Stamp,
        origin: Name,
        stream: Name,
        consumer: Stamp,
        token: u64,
    },
    /// The answer to a flow request.
    FlowReply {
        origin: Name,
        stream: Name,
        consumer: Stamp,
        token: u64,
    },
}

impl Clone for Packet {
    ghost is_clone = { λ a b. b ≡ a };

    fn clone(&self) -> Result<Packet, AllocError> {
        match self {
            Packet::Ask {
                asker,
                attempt,
                origin,
                stream,
                start,
                filters,
            } => Ok(Packet::Ask {
                asker: asker.clone()?,
                attempt: *attempt,
                origin: origin.clone()?,
                stream: stream.clone()?,
                start: *start,
                filters: filters.clone()?,
            }),
            Packet::Answer {
                asker,
                attempt,
                consumer,
                incarnation,
                start,
            } => Ok(Packet::Answer {
                asker: asker.clone()?,
                attempt: *attempt,
                consumer: *consumer,
                incarnation: *incarnation,
                start: *start,
            }),
            Packet::Refuse {
                asker,
                attempt,
                code,
                err_code,
            } => Ok(Packet::Refuse {
                asker: asker.clone()?,
                attempt: *attempt,
                code: *code,
                err_code: *err_code,
            }),
            Packet::Delivery {
                asker,
                attempt,
                stream,
                consumer,
                number,
                seq,
                pending,
                message,
            } => Ok(Packet::Delivery {
                asker: asker.clone()?,
                attempt: *attempt,
                stream: stream.clone()?,
                consumer: *consumer,
                number: *number,
                seq: *seq,
                pending: *pending,
                message: message.clone()?,
            }),
            Packet::Beat {
                asker,
                attempt,
                origin,
                stream,
                consumer,
                last_number,
                last_seq,
                stalled,
            } => Ok(Packet::Beat {
                asker: asker.clone()?,
                attempt: *attempt,
                origin: origin.clone()?,
                stream: stream.clone()?,
                consumer: *consumer,
                last_number: *last_number,
                last_seq: *last_seq,
                stalled: *stalled,
            }),
            Packet::FlowAsk {
                asker,
                attempt,
                origin,
                stream,
                consumer,
                token,
            } => Ok(Packet::FlowAsk {
                asker: asker.clone()?,
                attempt: *attempt,
                origin: origin.clone()?,
                stream: stream.clone()?,
                consumer: *consumer,
                token: *token,
            }),
            Packet::FlowReply {
                origin,
                stream,
                consumer,
                token,
            } => Ok(Packet::FlowReply {
                origin: origin.clone()?,
                stream: stream.clone()?,
                consumer: *consumer,
                token: *token,
            }),
        }
    }
}
