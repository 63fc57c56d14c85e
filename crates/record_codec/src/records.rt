use nats_text::Name;
use stream_fold::{Config, Entry};

/// One record of the journal of a shard.
#[derive(Debug, Drop)]
pub enum Rec {
    /// The shard was opened. Its openings are numbered.
    Boot { boot: u64 },
    /// A stream was made, at a time in nanoseconds since 1970.
    Create { time: u64, config: Config },
    /// The stream of this name was taken away.
    Remove { name: Name },
    /// A change of the stream of this name.
    Of { name: Name, entry: Entry },
}
