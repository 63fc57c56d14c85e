use nats_text::{Bytes, List, Name, Parcel, Pattern};

/// A frame of a leaf link (NATS leaf nodes). A queue is 1 to 100 bytes without spaces, tabs and line
/// feeds.
#[derive(Drop)]
pub enum LeafFrame {
    /// The first frame of a hub: its name, and whether it takes headers.
    Info {
        name: Name,
        headers: bool,
    },
    /// The first frame of a leaf, which answers that of its hub.
    Connect {
        name: Name,
        headers: bool,
    },
    /// Messages of this pattern are wanted. For a group its queue and its weight, which is 1 to 65,536
    /// members.
    SubOn {
        pattern: Pattern,
        queue: Option<(Bytes, u32)>,
    },
    /// Messages of this pattern aren't wanted any more, by all or by a group.
    SubOff {
        pattern: Pattern,
        queue: Option<Bytes>,
    },
    /// A message for all plain subscriptions, and for the groups of these queues.
    Msg {
        parcel: Parcel,
        queues: List<Bytes>,
    },
    Ping,
    Pong,
    /// An error that the other side tells, without the quotes.
    Fault(Bytes),
}
