ghost use Rattle.std.specs.Prelude.{◌≡◌};
ghost use Rattle.std.specs.Option.{option_copied};
ghost use Rattle.shard_machine.specs.Images.{LogImage, incarnation_in, no_image};
ghost use Rattle.shard_streams.specs.HeldImages.{HoldsImage, ShowsLive};

use log_replay::{Replay, Standing};
use nats_text::Name;
use std::alloc::Global;

/// The streams of a shard.
#[derive(Drop)]
pub struct Streams {
    pub(crate) alloc: Global,
    pub replay: Replay,
}

impl Streams {
    /// The streams of a log without records: none.
    pub fn new(alloc: Global) -> Streams
        ensures { HoldsImage result.replay no_image }
    {
        Streams {
            alloc,
            replay: Replay::new(alloc),
        }
    }

    /// The streams that a log leaves.
    pub fn of_replay(alloc: Global, replay: Replay) -> Streams
        ensures { result.replay ≡ replay }
    {
        Streams { alloc, replay }
    }

    /// The number of the last opening, else 0.
    pub fn boot(&self) -> u64
        ensures { (i : LogImage) → HoldsImage self.now.replay i → result ≡ i.boot }
    {
        self.replay.boot
    }

    /// The stream that stands under a name.
    pub fn live(&self, name: &Name) -> Option<&Standing>
        ensures { (i : LogImage) → HoldsImage self.now.replay i → ShowsLive i name.now (option_copied result) }
    {
        match self.replay.names.get(name.bytes()) {
            None => None,
            Some(known) => known.stream.as_ref(),
        }
    }

    /// How often a stream was made under a name.
    pub fn incarnation(&self, name: &Name) -> u64
        ensures { (i : LogImage) → HoldsImage self.now.replay i → result ≡ incarnation_in i name.now }
    {
        match self.replay.names.get(name.bytes()) {
            None => 0,
            Some(known) => known.incarnation,
        }
    }
}
