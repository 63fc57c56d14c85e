use nats_text::{Bytes, Name, Parcel, Pattern};

/// Who sent the bytes.
#[derive(Clone, Copy)]
pub enum Side {
    FromClient,
    FromServer,
}

/// What a server tells of itself when a connection begins.
#[derive(Drop)]
pub struct ServerInfo {
    pub server_id: Name,
    pub server_name: Name,
    pub version: Bytes,
    pub go: Bytes,
    pub host: Bytes,
    pub port: u32,
    pub headers: bool,
    /// The greatest length of a header block and a payload together, in bytes.
    pub max_payload: u64,
    pub proto: u32,
}

/// A frame of a client connection (the NATS client protocol). A queue and a sid are 1 to 100 bytes
/// without spaces, tabs and line feeds.
#[derive(Drop)]
pub enum ClientFrame {
    Connect {
        verbose: bool,
        headers: bool,
        no_responders: bool,
        echo: bool,
    },
    Info(ServerInfo),
    /// A publish without headers.
    Pub(Parcel),
    /// A publish with a header block, which may be empty.
    HPub(Parcel),
    Sub {
        pattern: Pattern,
        queue: Option<Bytes>,
        sid: Bytes,
    },
    /// The subscription ends, at once or after so many messages in all.
    Unsub {
        sid: Bytes,
        max: Option<u64>,
    },
    /// A message without headers for a subscription.
    Msg {
        sid: Bytes,
        parcel: Parcel,
    },
    /// A message with a header block, which may be empty, for a subscription.
    HMsg {
        sid: Bytes,
        parcel: Parcel,
    },
    Ping,
    Pong,
    Okay,
    /// An error that a server tells, without the quotes.
    Fault(Bytes),
    /// A client's SUB, PUB or HPUB whose subject, pattern or reply can't be read. It is dropped with
    /// its payload, and the frames behind it stand.
    BadSubject,
}
