//! Laws of the definitions that the contracts of this crate cite. Each function does nothing: what it
//! ensures holds of all logs.
ghost use Rattle.shard_streams.specs.HeldImages.{ReplaysHold};

/// What was replayed of a legal log holds the log's image.
pub fn images_of_replays()
    ensures { ReplaysHold }
{}
