ghost use Rattle.std.specs.Prelude.{◌≡◌, ◌^◌, ◌<◌, IfOk};
ghost use Rattle.nats_frames.specs.Stream.{IsFit, most_message};

use crate::Said;
use nats_text::{Bytes, Headers, NoMemory};
use std::alloc::Global;

/// What the lines of a kind of connection say. How a line ends and how the header block and the payload
/// stand behind it is the same for all kinds.
pub trait Protocol {
    ghost use Rattle.std.specs.Prelude.{ℕ, List};
    ghost use Rattle.nats_text.specs.Headers.{HeaderBlock};
    ghost use Rattle.nats_frames.specs.declared.stream.Said.{Said as Says};

    type Frame: Drop;

    /// What a line says of a message before its header block and its payload are there.
    type Envelope: Drop;

    /// The greatest length of a line before its CR LF, in bytes.
    ghost most: { ℕ };

    /// What a line says by itself.
    ghost said: { Self → List ℕ → Says Self.Frame Self.Envelope };

    /// The frame of a message in its envelope.
    ghost framed: { Self.Envelope → HeaderBlock → List ℕ → Self.Frame };

    fn most_line(&self) -> usize
        ensures value { result ≡ most }
        ensures bound { result < 2 ^ 32 };

    fn said(
        &self,
        alloc: Global,
        line: &[u8],
    ) -> Result<Said<Self::Frame, Self::Envelope>, NoMemory>
        ensures said { IfOk result (λ it. it ≡ said self.now line.now) }
        ensures fit { IfOk result (λ it. IsFit most_message it) };

    fn framed(&self, envelope: Self::Envelope, headers: Headers, payload: Bytes) -> Self::Frame
        ensures { result ≡ framed envelope headers payload };
}
