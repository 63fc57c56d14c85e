ghost use Rattle.std.specs.Prelude.{◌≡◌, ◌+◌, ◌-◌, ◌^◌, ◌<◌, ◌≤◌, [], ◌++◌, None, Some, length, drop, min, IsTrue, IfOk, OnOk, OnErr, OnSome};
ghost use Rattle.nats_frames.specs.Feeds.{nothing_yet, fed, Gives, refusal, told_of, left_of, wanted_of, Waits, IsWithin, HoldsRest};
ghost use Rattle.nats_frames.specs.Stream.{first_by};

use crate::backlog::Backlog;
use crate::line::free_len;
use crate::protocol::Protocol;
use crate::reading::beginning_from;
use crate::{FeedFault, First, FrameText, Refused};
use nats_text::NoMemory;
use std::alloc::Global;
use std::marker::Model;

/// What came of a stream and wasn't taken as frames yet, whatever the kind of connection.
///
/// [`next`](Intake::next) gives its frames, one a call. Neither is a line's end looked for twice in the
/// same bytes, nor a line read again before all of its frame is there, so that the work is in proportion
/// to the bytes.
#[derive(Drop)]
pub struct Intake {
    backlog: Backlog,
    // No LF is among so many bytes of the backlog.
    looked: usize,
    // With fewer bytes than these nothing can be told.
    wanted: usize,
    taken: u64,
    refused: Option<Refused>,
}

impl Model for Intake {
    ghost use Rattle.nats_frames.specs.Feeds.{Held, IsLooked, IsAlone};

    ghost Value = { Held };

    ghost view = { λ it. record { pending = record { rest = it.backlog.bytes; taken = it.taken; refused = it.refused }; wanted = it.wanted; held = it.backlog.held } };

    ghost invariant = { λ it. IsLooked it.backlog.bytes it.looked × IsAlone it.backlog it.wanted it.refused };
}

impl Intake {
    /// A stream of which nothing came yet. It takes no memory until a piece comes.
    pub fn new(alloc: Global) -> Intake
        ensures { result ≡ record { pending = nothing_yet; wanted = 0; held = 0 } }
    {
        Intake {
            backlog: Backlog::new(alloc),
            looked: 0,
            wanted: 0,
            taken: 0,
            refused: None,
        }
    }

    /// Takes the next piece of the stream. One that is refused lets it go, and needs no memory for it.
    /// Without memory nothing changes.
    pub fn feed(&mut self, piece: &[u8]) -> Result<(), NoMemory>
        ensures wanted { self.new.wanted ≡ self.old.wanted }
        ensures ok { OnOk result (self.new.pending ≡ fed self.old.pending piece.now) }
        ensures err { OnErr result (self.new.pending ≡ self.old.pending) }
        ensures standing { OnErr result (self.old.pending.refused ≡ None) }
        ensures held { self.new.held ≤ self.old.held + length piece.now }
    {
        match self.refused() {
            Some(_) => Ok(()),
            None => self.add(piece),
        }
    }

    /// The next frame of the stream so far, or `None` exactly where what is left of it is the beginning of
    /// a frame.
    ///
    /// `Refused` comes exactly where it is none, with the count of the bytes before it, and from then on at
    /// each call. Without memory nothing changes, and the call may be made again. All calls of one value
    /// have the same protocol.
    pub fn next<P: Protocol>(&mut self, protocol: &P) -> Result<Option<P::Frame>, FeedFault>
        requires { Waits (first_by P.most (P.said protocol.now) P.framed) self.old.pending.rest self.old.wanted }
        ensures waits { Waits (first_by P.most (P.said protocol.now) P.framed) self.new.pending.rest self.new.wanted }
        ensures gives { Gives (first_by P.most (P.said protocol.now) P.framed) self.old.pending result self.new.pending }

        // Its buffer has no more bytes than before, and the rest alone where it gives no frame.
        ensures held { self.new.held ≤ self.old.held }
        ensures rest { HoldsRest result self.new.pending.rest self.new.held }

        // Each frame is taken from the rest.
        ensures shorter { IfOk result (λ it. OnSome it (length self.new.pending.rest < length self.old.pending.rest)) }
    {
        match self.refused() {
            Some(refused) => Err(FeedFault::Refused(refused)),
            None => self.next_standing(protocol),
        }
    }

    // The same of a stream that isn't refused.
    fn next_standing<P: Protocol>(&mut self, protocol: &P) -> Result<Option<P::Frame>, FeedFault>
        requires standing { self.old.pending.refused ≡ None }
        requires waits { Waits (first_by P.most (P.said protocol.now) P.framed) self.old.pending.rest self.old.wanted }
        ensures waits { Waits (first_by P.most (P.said protocol.now) P.framed) self.new.pending.rest self.new.wanted }
        ensures gives { Gives (first_by P.most (P.said protocol.now) P.framed) self.old.pending result self.new.pending }
        ensures held { self.new.held ≤ self.old.held }
        ensures rest { HoldsRest result self.new.pending.rest self.new.held }
        ensures shorter { IfOk result (λ it. OnSome it (length self.new.pending.rest < length self.old.pending.rest)) }
    {
        if self.waits() {
            return Ok(None);
        }
        self.look();
        let front = self.front(protocol)?;
        self.told(front)
    }

    // Tells what the stream begins with.
    fn told<F: Drop>(&mut self, front: First<F>) -> Result<Option<F>, FeedFault>
        requires within { IsWithin (length self.old.pending.rest) front }
        requires standing { self.old.pending.refused ≡ None }
        ensures told { result ≡ told_of self.old.pending front }
        ensures left { self.new.pending ≡ left_of self.old.pending front }
        ensures wanted { self.new.wanted ≡ wanted_of front }
        ensures held { self.new.held ≤ self.old.held }
        ensures rest { HoldsRest result self.new.pending.rest self.new.held }
        ensures shorter { IfOk result (λ it. OnSome it (length self.new.pending.rest < length self.old.pending.rest)) }
    {
        match front {
            First::Frame { frame, len } => {
                self.advance(len);
                Ok(Some(frame))
            }
            First::More { wanted } => {
                self.wait(wanted);
                Ok(None)
            }
            First::Refuse(text) => Err(FeedFault::Refused(self.refuse(text))),
        }
    }

    fn refused(&self) -> Option<Refused>
        ensures refused { result ≡ self.now.pending.refused }
        ensures rest { OnSome result (self.now.held ≡ length self.now.pending.rest) }
    {
        self.refused
    }

    fn add(&mut self, piece: &[u8]) -> Result<(), NoMemory>
        ensures wanted { self.new.wanted ≡ self.old.wanted }
        ensures ok { OnOk result (self.new.pending ≡ record self.old.pending { rest = self.old.pending.rest ++ piece.now }) }
        ensures err { OnErr result (self.new.pending ≡ self.old.pending) }
        ensures held { self.new.held ≤ self.old.held + length piece.now }
    {
        self.backlog.add(piece)?;
        Ok(())
    }

    // Whether too few bytes came since more were wanted.
    fn waits(&self) -> bool
        ensures few { IsTrue result → length self.now.pending.rest < self.now.wanted }
        ensures rest { IsTrue result → self.now.held ≡ length self.now.pending.rest }
    {
        self.backlog.len() < self.wanted
    }

    // Looks for the end of the line, behind what was looked at before.
    fn look(&mut self)
        ensures { self.new ≡ self.old }
    {
        self.looked = free_len(self.backlog.bytes(), self.looked);
    }

    // What the rest begins with.
    fn front<P: Protocol>(&self, protocol: &P) -> Result<First<P::Frame>, NoMemory>
        ensures { IfOk result (λ it. it ≡ first_by P.most (P.said protocol.now) P.framed self.now.pending.rest) }
    {
        let alloc = self.backlog.allocator();
        beginning_from(protocol, alloc, self.backlog.bytes(), self.looked)
    }

    // A frame of so many bytes is taken.
    fn advance(&mut self, len: usize)
        requires within { len ≤ length self.old.pending.rest }
        requires standing { self.old.pending.refused ≡ None }
        ensures pending { self.new.pending ≡ record { rest = drop len self.old.pending.rest; taken = min (self.old.pending.taken + len) (2 ^ 64 - 1); refused = None } }
        ensures wanted { self.new.wanted ≡ 0 }
        ensures held { self.new.held ≡ self.old.held }
    {
        self.backlog.advance(len);
        self.looked = 0;
        self.wanted = 0;
        self.taken = self.taken.saturating_add(len as u64);
    }

    // Nothing can be told before there are so many bytes.
    fn wait(&mut self, wanted: usize)
        ensures pending { self.new.pending ≡ self.old.pending }
        ensures wanted { self.new.wanted ≡ wanted }
        ensures held { self.new.held ≡ length self.old.pending.rest }
        ensures less { self.new.held ≤ self.old.held }
    {
        self.wanted = wanted;
        self.backlog.settle();
    }

    // No frame comes any more.
    fn refuse(&mut self, text: FrameText) -> Refused
        ensures refusal { result ≡ refusal self.old.pending text }
        ensures pending { self.new.pending ≡ record { rest = []; taken = self.old.pending.taken; refused = Some (refusal self.old.pending text) } }
        ensures wanted { self.new.wanted ≡ 0 }
        ensures held { self.new.held ≡ 0 }
    {
        let refused = Refused {
            text,
            place: self.taken,
        };
        self.backlog.clear();
        self.looked = 0;
        self.wanted = 0;
        self.refused = Some(refused);
        refused
    }
}
