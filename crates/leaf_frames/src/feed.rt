ghost use Rattle.std.specs.Prelude.{◌≡◌, ◌+◌, ◌<◌, ◌≤◌, None, length, IfOk, IfSome, OnOk, OnErr, OnSome};
ghost use Rattle.nats_frames.specs.Feeds.{nothing_yet, fed, Gives, HoldsRest};
ghost use Rattle.leaf_frames.specs.Frames.{first};
ghost use Rattle.leaf_frames.specs.Kinds.{IsLeaf};

use crate::LeafFrame;
use crate::laws::written_frames;
use crate::reading::Leaf;
use nats_frames::FeedFault;
use nats_frames::shared::Intake;
use nats_text::NoMemory;
use std::alloc::Global;
use std::marker::Model;

/// A stream of frames that comes in pieces, from either side of a leaf link.
///
/// [`next`](LeafFeed::next) gives its frames, one a call. Between the calls the feed holds the beginning
/// of one frame and what came since.
#[derive(Drop)]
pub struct LeafFeed {
    intake: Intake,
}

impl Model for LeafFeed {
    ghost use Rattle.nats_frames.specs.Feeds.{Waits};
    ghost use Rattle.leaf_frames.specs.Feeds.{Reading};
    ghost use Rattle.leaf_frames.specs.Frames.{first};

    ghost Value = { Reading };

    ghost view = { λ it. record { pending = it.intake.pending; held = it.intake.held } };

    ghost invariant = { λ it. Waits first it.intake.pending.rest it.intake.wanted };
}

impl LeafFeed {
    /// A stream of which nothing came yet. It takes no memory until a piece comes.
    pub fn new(alloc: Global) -> LeafFeed
        ensures { result ≡ record { pending = nothing_yet; held = 0 } }
    {
        LeafFeed {
            intake: Intake::new(alloc),
        }
    }

    /// Takes the next piece of the stream. A feed that is refused lets it go, and needs no memory for it.
    /// Without memory nothing changes.
    pub fn feed(&mut self, piece: &[u8]) -> Result<(), NoMemory>
        ensures ok { OnOk result (self.new.pending ≡ fed self.old.pending piece.now) }
        ensures err { OnErr result (self.new.pending ≡ self.old.pending) }
        ensures standing { OnErr result (self.old.pending.refused ≡ None) }
        ensures held { self.new.held ≤ self.old.held + length piece.now }
    {
        self.intake.feed(piece)
    }

    /// The next frame of the stream so far, or `None` exactly where what is left of it is the beginning of
    /// a frame.
    ///
    /// `Refused` comes exactly where it is none, with the count of the bytes before it, and from then on at
    /// each call. Without memory nothing changes, and the call may be made again: a feed that is refused
    /// needs none.
    pub fn next(&mut self) -> Result<Option<LeafFrame>, FeedFault>
        ensures gives { Gives first self.old.pending result self.new.pending }

        // Its buffer has no more bytes than before, and the rest alone where it gives no frame.
        ensures held { self.new.held ≤ self.old.held }
        ensures rest { HoldsRest result self.new.pending.rest self.new.held }

        // Each frame is taken from the rest.
        ensures shorter { IfOk result (λ it. OnSome it (length self.new.pending.rest < length self.old.pending.rest)) }

        // Each frame is one of a leaf link.
        ensures kind { IfOk result (λ it. IfSome it IsLeaf) }
    {
        // The law that a reading gives frames of leaf links alone.
        written_frames();
        self.intake.next(&Leaf)
    }
}
