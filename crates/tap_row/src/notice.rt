use nats_text::Name;

/// What happened on a node. A stream is told by its name, and one of its origins by its index, from 0.
#[derive(Debug, Drop)]
pub enum Notice {
    /// A message was stored under the number.
    Stored {
        stream: Name,
        seq: u64,
    },
    /// So many earlier messages are no longer kept.
    Removed {
        stream: Name,
        count: u64,
    },
    /// A copy found its origin.
    Bound {
        stream: Name,
        index: u32,
    },
    /// A copy that missed a message asked its origin again.
    AskedAgain {
        stream: Name,
        index: u32,
    },
    /// A copy of the creation `kept` of its origin stopped, since the origin was made anew as `seen`.
    Stopped {
        stream: Name,
        index: u32,
        kept: u64,
        seen: u64,
    },
    /// A message was dropped, since so many bytes were waiting to be sent.
    PostFull {
        held: u64,
    },
}

/// Whether a tap goes on listening.
#[derive(Clone, Copy, Debug, PartialEq, Eq)]
pub enum Stay {
    Keep,
    Leave,
}
