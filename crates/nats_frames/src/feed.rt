ghost use Rattle.std.specs.Prelude.{◌≡◌, ◌+◌, ◌<◌, ◌≤◌, None, length, IfOk, IfSome, OnOk, OnErr, OnSome};
ghost use Rattle.nats_frames.specs.Feeds.{nothing_yet, fed, Gives, HoldsRest};
ghost use Rattle.nats_frames.specs.Frames.{first};
ghost use Rattle.nats_frames.specs.Kinds.{IsOf};
ghost use Rattle.nats_frames.specs.Texts.{HasTexts};

use crate::intake::Intake;
use crate::laws::written_frames;
use crate::{ClientFrame, FeedFault, Side};
use nats_text::NoMemory;
use std::alloc::Global;
use std::marker::Model;

/// A stream of frames that comes in pieces, from one side of a client connection.
///
/// [`next`](Feed::next) gives its frames, one a call. Between the calls the feed holds the beginning of
/// one frame and what came since.
#[derive(Drop)]
pub struct Feed {
    side: Side,
    intake: Intake,
}

impl Model for Feed {
    ghost use Rattle.nats_frames.specs.Feeds.{Reading, Waits};
    ghost use Rattle.nats_frames.specs.Frames.{first};

    ghost Value = { Reading };

    ghost view = { λ it. record { side = it.side; pending = it.intake.pending; held = it.intake.held } };

    ghost invariant = { λ it. Waits (first it.side) it.intake.pending.rest it.intake.wanted };
}

impl Feed {
    /// A stream of which nothing came yet. It takes no memory until a piece comes.
    pub fn new(alloc: Global, side: Side) -> Feed
        ensures { result ≡ record { side = side; pending = nothing_yet; held = 0 } }
    {
        Feed {
            side,
            intake: Intake::new(alloc),
        }
    }

    /// Takes the next piece of the stream. A feed that is refused lets it go, and needs no memory for it.
    /// Without memory nothing changes.
    pub fn feed(&mut self, piece: &[u8]) -> Result<(), NoMemory>
        ensures side { self.new.side ≡ self.old.side }
        ensures ok { OnOk result (self.new.pending ≡ fed self.old.pending piece.now) }
        ensures err { OnErr result (self.new.pending ≡ self.old.pending) }
        ensures standing { OnErr result (self.old.pending.refused ≡ None) }
        ensures held { self.new.held ≤ self.old.held + length piece.now }
    {
        self.intake.feed(piece)
    }

    /// The next frame of the stream so far, or `None` exactly where what is left of it is the beginning of
    /// a frame.
    ///
    /// `Refused` comes exactly where it is none, with the count of the bytes before it, and from then on at
    /// each call. Without memory nothing changes, and the call may be made again: a feed that is refused
    /// needs none.
    pub fn next(&mut self) -> Result<Option<ClientFrame>, FeedFault>
        ensures side { self.new.side ≡ self.old.side }
        ensures gives { Gives (first self.old.side) self.old.pending result self.new.pending }

        // Its buffer has no more bytes than before, and the rest alone where it gives no frame.
        ensures held { self.new.held ≤ self.old.held }
        ensures rest { HoldsRest result self.new.pending.rest self.new.held }

        // Each frame is taken from the rest.
        ensures shorter { IfOk result (λ it. OnSome it (length self.new.pending.rest < length self.old.pending.rest)) }

        // Each frame is one that this side may send, and can be written.
        ensures kind { IfOk result (λ it. IfSome it (λ frame. IsOf self.old.side frame)) }
        ensures texts { IfOk result (λ it. IfSome it (λ frame. HasTexts frame)) }
    {
        // The law that a reading gives frames of its side alone.
        written_frames();
        self.intake.next(&self.side)
    }
}
