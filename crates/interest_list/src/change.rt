use nats_text::{Bytes, Pattern};

/// A change of the subscriptions.
#[derive(Debug, Drop)]
pub enum Change {
    /// A client subscribes.
    Add {
        conn: u64,
        sid: Bytes,
        pattern: Pattern,
        queue: Option<Bytes>,
    },
    /// A client ends a subscription.
    Remove {
        conn: u64,
        sid: Bytes,
    },
    /// A link wants messages; where it wanted them for that group, the group has another weight now.
    LinkOn {
        conn: u64,
        pattern: Pattern,
        queue: Option<Bytes>,
        weight: u32,
    },
    /// A link doesn't want messages any more.
    LinkOff {
        conn: u64,
        pattern: Pattern,
        queue: Option<Bytes>,
    },
    /// The node itself wants messages.
    InnerOn {
        pattern: Pattern,
    },
    /// The node itself doesn't want them any more.
    InnerOff {
        pattern: Pattern,
    },
    /// A connection is gone, with all that it wanted and all that it was told.
    DropConn {
        conn: u64,
    },
}
