ghost use Rattle.std.specs.Prelude.{◌≡◌};

use leaf_frames::LeafFrame;
use nats_text::{Bytes, List, Pattern};

/// What a link is told: messages of this pattern are wanted, by all or by a group.
#[derive(Clone, Debug, Drop)]
pub struct Told {
    pub pattern: Pattern,
    pub queue: Option<Bytes>,
    /// How many members the group has, 65,536 where they are more; 1 where there is no group.
    pub weight: u32,
}

/// What a link was told, by pattern and queue in byte order.
#[derive(Clone, Debug, Drop)]
pub struct ToldTo {
    pub link: u64,
    pub told: List<Told>,
}

/// What can carry a frame to a link.
pub trait Carrier: Drop {
    ghost use Rattle.std.specs.Prelude.{ℕ};
    ghost use Rattle.leaf_frames.specs.declared.frame.LeafFrame.{LeafFrame};

    /// The one that carries this frame to the link of this number.
    ghost carried: { ℕ → LeafFrame → Self };

    fn carry(link: u64, frame: LeafFrame) -> Self
        ensures { result ≡ carried link frame };
}
