ghost use Rattle.std.specs.Prelude.{◌≡◌};

use nats_text::{Name, Pattern, Subject};
use stream_fold::Config;

/// What a client asks of the streams of a node (the JetStream API of NATS).
#[derive(Debug, Drop)]
pub enum ApiCall {
    /// A stream of this configuration is to be made.
    Create(Config),
    /// A stream takes this configuration.
    Update(Config),
    /// A stream goes, with its messages.
    Remove(Name),
    /// What a stream is and has.
    Info(Name),
    /// The names of the streams in byte order, without the first `offset`.
    Names {
        offset: u64,
    },
    /// Messages of a stream go: those that match, or all, and of them those whose numbers are below
    /// `below`, where it is there.
    Purge {
        name: Name,
        pattern: Option<Pattern>,
        below: Option<u64>,
    },
    /// One message of a stream.
    Get {
        name: Name,
        which: Which2,
    },
    /// The message of this number goes.
    Delete {
        name: Name,
        seq: u64,
    },
}

/// Which message is asked for.
#[derive(Debug, Drop)]
pub enum Which2 {
    /// The one of this number.
    Seq(u64),
    /// The last one of this subject.
    LastOf(Subject),
}
