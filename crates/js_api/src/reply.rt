ghost use Rattle.std.specs.Prelude.{◌≡◌};

use nats_text::{Bytes, List, Name};
use stream_fold::{Config, Numbered};

/// What is told of a stream's messages. `created` is in nanoseconds since 1970, and `bytes` is the sum of
/// the messages' sizes.
#[derive(Clone, Copy, Debug, PartialEq, Eq)]
pub struct StateFacts {
    pub created: u64,
    pub first: u64,
    pub last: u64,
    pub count: u64,
    pub bytes: u64,
    pub consumers: u64,
}

/// What a request is answered.
#[derive(Debug, Drop)]
pub enum ApiReply {
    /// The stream stands. It is `fresh` where this request made it, and not where it stood before.
    Made {
        config: Config,
        facts: StateFacts,
        fresh: bool,
    },
    /// What the stream is and has.
    Info {
        config: Config,
        facts: StateFacts,
    },
    /// It is done.
    Done,
    /// So many messages went.
    Purged {
        count: u64,
    },
    /// These are names of streams in byte order from `offset` on, of `total` in all.
    Listed {
        names: List<Name>,
        offset: u64,
        total: u64,
    },
    /// The message that was asked for.
    Found(Numbered),
    /// The request is refused, with the numbers and the text of the API.
    Fault {
        code: u32,
        err_code: u32,
        text: Bytes,
    },
}
