use shard_machine::Outcome;
use stream_fold::Entry;

/// What a call on a stream that stands does.
#[derive(Debug, Drop)]
pub struct Plan {
    /// The entry that is written. `None`: nothing changes.
    pub entry: Option<Entry>,
    /// What is told of the call once it is done.
    pub outcome: Outcome,
}

/// What comes of a configuration that a stream is to have.
#[derive(Clone, Copy, Debug, PartialEq, Eq)]
pub enum Creation {
    /// A stream of the name has it already.
    Stands,
    /// The stream is to be made.
    New,
}
