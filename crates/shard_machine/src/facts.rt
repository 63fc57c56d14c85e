use nats_text::{List, Name, Stamp};
use stream_fold::Config;

/// How far the copy of one stream has come.
#[derive(Debug, Drop)]
pub struct CopyFact {
    /// The node of the stream that is copied, `None` for the copy's own.
    pub node: Option<Name>,
    /// The name of the stream that is copied.
    pub stream: Name,
    /// The number in the origin up to which it was copied. Of a source it is the mark of its last
    /// message. The messages of a mirror have no marks but the origin's numbers, so of a mirror it is its
    /// last number. Before the first message it is the number before the start.
    pub mark: u64,
    /// Where the copy stopped because the origin isn't the one that it began with: the incarnation that
    /// it is bound to, and the one that it saw.
    pub stopped: Option<(u64, u64)>,
    /// The consumer from which the copy is sent its messages.
    pub consumer: Option<Stamp>,
}

/// What is told of a stream.
#[derive(Debug, Drop)]
pub struct Facts {
    /// The configuration in force.
    pub config: Config,
    /// When it was made, in nanoseconds since 1970.
    pub created: u64,
    /// How often a stream was made under its name, this one included.
    pub incarnation: u64,
    /// The least kept number, or one past the last where none is kept, or 0 where nothing was put.
    pub first: u64,
    /// The greatest number put, else 0.
    pub last: u64,
    /// How many messages are kept.
    pub count: u64,
    /// The sum of the sizes of the messages that are kept, in bytes.
    pub bytes: u64,
    /// How many consumers read it.
    pub consumers: u64,
    /// Its copies of other streams, in the order of the configuration.
    pub copies: List<CopyFact>,
}
