use nats_text::{Bytes, Pattern};

/// Who holds a subscription.
#[derive(Clone, Debug, Drop)]
pub enum Holder {
    /// A client, by its connection and its number of the subscription, which NATS calls sid.
    Client { conn: u64, sid: Bytes },
    /// A leaf link, for those behind it.
    Link { conn: u64 },
    /// The node itself.
    Inner,
}

/// A subscription: messages that match the pattern are wanted, by the holder or by a member of a group.
#[derive(Clone, Debug, Drop)]
pub struct Subscription {
    pub holder: Holder,
    pub pattern: Pattern,
    /// The queue of a group, of which one member gets each message.
    pub queue: Option<Bytes>,
    /// How many members of the group stand behind it: 1 to 65,536, and 1 unless a link holds it.
    pub weight: u32,
}
