use nats_text::{Bytes, List};

/// Where a message came from. Nothing goes back there.
#[derive(Clone, Copy, Debug)]
pub enum CameFrom {
    /// A client, which gets its own messages only where it wants that (`echo` of NATS).
    Client { conn: u64, echo: bool },
    Link { conn: u64 },
    /// The node itself.
    Inner,
}

/// One who gets a message.
#[derive(Clone, Debug, Drop)]
pub enum Target {
    /// A client, for its subscription of this number.
    Client { conn: u64, sid: Bytes },
    /// A link, for its plain subscriptions and these groups, in byte order.
    Link { conn: u64, queues: List<Bytes> },
    /// The node itself.
    Inner,
}
