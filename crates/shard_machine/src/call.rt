use js_wire::Packet;
use nats_text::{Message, Name, Pattern, Subject};
use stream_fold::Config;

/// Which message of a stream is meant.
#[derive(Debug, Drop)]
pub enum Which {
    /// The one of this number.
    Seq(u64),
    /// The latest of this subject.
    LastOf(Subject),
}

/// What may be asked of a shard. `now` is a moment in nanoseconds since 1970.
#[derive(Debug, Drop)]
pub enum ShardCall {
    /// A stream is made, unless one of the name and of an equal configuration stands.
    Create {
        config: Config,
        now: u64,
    },
    /// The limits of a stream change.
    Update {
        config: Config,
    },
    /// A stream goes, with its consumers.
    Remove {
        name: Name,
    },
    /// A client's message is stored.
    Publish {
        name: Name,
        message: Message,
        now: u64,
    },
    /// The message of a number goes.
    Delete {
        name: Name,
        seq: u64,
    },
    /// The messages that match and have a number below go; without `below` all that match.
    Purge {
        name: Name,
        pattern: Pattern,
        below: Option<u64>,
    },
    /// The messages that are as old as the limit on age says go.
    Expire {
        name: Name,
        now: u64,
    },
    /// A message is shown.
    Get {
        name: Name,
        which: Which,
    },
    /// The facts of a stream are shown.
    Info {
        name: Name,
    },
    /// The names of the streams are shown.
    Names,
    /// A copy asks for messages: a consumer is made for it. The packet is an `Ask`.
    MakeConsumer {
        ask: Packet,
        now: u64,
    },
    /// The consumers of a stream send what they may, each at most so many messages.
    Pump {
        name: Name,
        budget: u32,
        now: u64,
    },
    /// A copy answers a flow request. The packet is a `FlowReply`.
    FlowReply {
        packet: Packet,
    },
    /// A node comes into reach, or goes out of it.
    Reach {
        node: Name,
        there: bool,
        now: u64,
    },
    /// A packet for a copy of this shard comes.
    Heard {
        packet: Packet,
        now: u64,
    },
    /// Time passes: idle consumers say so, and copies that heard nothing ask again.
    Tick {
        now: u64,
    },
    /// The node's link is lost: each copy asks anew once it may.
    LinkLost,
}
