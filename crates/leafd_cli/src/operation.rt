use leafd_script::Changes;
use nats_text::{Bytes, Headers, Pattern, Subject};
use stream_fold::Entry;

/// What a line does to one stream.
#[derive(Drop)]
pub enum Operation {
    Publish {
        subject: Subject,
        headers: Headers,
        text: Bytes,
    },
    Delete {
        seq: u64,
    },
    Purge {
        pattern: Option<Pattern>,
        below: Option<u64>,
    },
    Expire,
    Update {
        changes: Changes,
    },
}

/// What became of an operation: its entry, where it makes one, and its answer.
#[derive(Drop)]
pub struct Effect {
    pub entry: Option<Entry>,
    pub answer: Bytes,
}
