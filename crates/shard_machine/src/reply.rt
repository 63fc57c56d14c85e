use crate::Facts;
use js_wire::Packet;
use nats_text::{Bytes, List, Name, Stamp};
use stream_fold::{Decision, Entry, Numbered, Refusal};
use tap_row::Notice;

/// What came of a call.
#[derive(Debug, Drop)]
pub enum Outcome {
    /// The stream stands; `fresh` tells whether this call made it.
    Made { fresh: bool },
    Updated,
    Removed,
    /// The message was stored under the number.
    Stored { seq: u64 },
    /// The message repeats the one of the number, and isn't stored again.
    Duplicate { seq: u64 },
    Deleted,
    /// So many messages went.
    Purged { count: u64 },
    /// So many messages went.
    Expired { count: u64 },
    Found(Numbered),
    Info(Facts),
    /// The names of the streams, in byte order.
    Listed(List<Name>),
    /// A consumer of this name was made.
    Consumer(Stamp),
    /// What there was to send is among the packets.
    Sent,
    /// What the copy decided about the packet.
    Heard(Decision),
    /// The call did nothing but load the shard, where it wasn't loaded, and tell a copy that asked.
    Refused(ShardRefusal),
}

/// Why a call did nothing. A shard that isn't loaded loads before all else, so what keeps it from loading is
/// told first. Of what is wrong with the call the first of this order is told; the refusals of a publish have
/// an order of their own, and stand between `NoStream` and `JournalFull`.
#[derive(Debug, Drop)]
pub enum ShardRefusal {
    /// The stream refuses the publish.
    Of(Refusal),
    /// No stream has the name, or the stream doesn't take the subject.
    NoStream,
    /// The configuration's member is wrong, or can't be changed.
    BadConfig { member: Bytes },
    /// A stream of the name has another configuration.
    NameTaken,
    /// The shard has 256 streams.
    TooManyStreams,
    /// The copy has a consumer of the attempt `kept`, and the attempt `seen` isn't later.
    OldAttempt { kept: Stamp, seen: Stamp },
    /// The stream has 1,024 consumers, and none of this copy.
    TooManyConsumers,
    /// No such message is kept.
    NoMessage,
    /// The journal, whose closed gate is at `end`, has no room for `need` bytes more, or the record would make
    /// a number past `2^63 - 1`. A `need` of 0 means that a disk of `end` bytes is too long to be read.
    JournalFull { end: u64, need: u64 },
    /// What a disk holds is no journal, from this place on.
    BadJournal { place: u64 },
    /// There was no memory. All is as before, but for a load that the call made.
    NoMemory,
    /// A disk failed. The call's record, or the opening of a load, may be in the journal or not, and the
    /// shard loads again at the next call.
    DiskFault,
}

/// The answer of a shard.
#[derive(Debug, Drop)]
pub struct ShardReply {
    pub outcome: Outcome,
    /// The entry that the call made; where a disk failed, that of the record which is in doubt then.
    pub entry: Option<Entry>,
    /// What is to be sent, in order.
    pub packets: List<Packet>,
    /// What the taps are told, in order.
    pub notices: List<Notice>,
}
