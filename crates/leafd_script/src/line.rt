use nats_text::{Bytes, Headers, Name, Pattern, Subject};
use stream_fold::{Config, Discard};

/// What a line of a script says.
#[derive(Debug, Drop)]
pub enum Line {
    /// `node N` makes a node. The first is the hub, the others are its leaves.
    Node {
        node: Name,
    },
    /// `stream N S OPTION..` makes a stream, by default on the subject `S`.
    Stream {
        node: Name,
        config: Config,
    },
    /// `mirror N S ON OS OPTION..` makes a mirror of the stream `OS` on the node `ON`.
    Mirror {
        node: Name,
        config: Config,
    },
    /// `update N S OPTION..` changes the limits that it names.
    Update {
        node: Name,
        name: Name,
        changes: Changes,
    },
    /// `pub N S SUBJECT [TEXT]` publishes the rest of the line.
    Publish {
        node: Name,
        name: Name,
        subject: Subject,
        text: Bytes,
    },
    /// `hpub N S SUBJECT H:V[;H:V..] [TEXT]` publishes the rest of the line with headers.
    PublishWithHeaders {
        node: Name,
        name: Name,
        subject: Subject,
        headers: Headers,
        text: Bytes,
    },
    /// `del N S Q` deletes a message by its number.
    Delete {
        node: Name,
        name: Name,
        seq: u64,
    },
    /// `purge N S [PATTERN [BELOW]]` takes away the messages that match and have a number below.
    Purge {
        node: Name,
        name: Name,
        pattern: Option<Pattern>,
        below: Option<u64>,
    },
    /// `expire N S` takes away the messages that are too old by the clock.
    Expire {
        node: Name,
        name: Name,
    },
    /// `clock NANOS` sets the clock, in nanoseconds since 1970.
    Clock {
        moment: u64,
    },
    /// `settle` carries what is under way until every copy has come as far as its origin.
    Settle,
    /// `show N S` prints a stream.
    Show {
        node: Name,
        name: Name,
    },
    /// `log N S` prints the entries of a stream.
    Log {
        node: Name,
        name: Name,
    },
    /// `heads` prints the first lines of every stream.
    Heads,
    /// `quiet` ends the printing of answers.
    Quiet,
}

/// The limits that a line names, each as in [`Config`]. 0 clears one.
#[derive(Clone, Copy, Debug, PartialEq)]
pub struct Changes {
    pub max_msgs: Option<u64>,
    pub max_bytes: Option<u64>,
    pub max_age: Option<u64>,
    pub max_per_subject: Option<u64>,
    pub max_msg_size: Option<u64>,
    pub discard: Option<Discard>,
}
