//! What a stream begins with.
ghost use Rattle.std.specs.Prelude.{◌≡◌, IfOk};
ghost use Rattle.leaf_frames.specs.Frames.{first};

use crate::LeafFrame;
use crate::address::Address;
use crate::said::{Line, said};
use nats_frames::First;
use nats_frames::shared::{Protocol, beginning_from};
use nats_text::{Bytes, Headers, NoMemory, Parcel};
use std::alloc::Global;

/// The greatest length of a line before its CR LF, in bytes.
const MOST_LINE: usize = 8_388_608;

/// How the lines of a leaf link are read.
#[derive(Clone, Copy)]
pub(crate) struct Leaf;

impl Protocol for Leaf {
    ghost use Rattle.leaf_frames.specs.Frames.{most_line, said, framed};

    type Frame = LeafFrame;

    type Envelope = Address;

    ghost most = { most_line };

    ghost said = { λ _. said };

    ghost framed = { framed };

    fn most_line(&self) -> usize {
        MOST_LINE
    }

    fn said(&self, alloc: Global, line: &[u8]) -> Result<Line, NoMemory> {
        said(alloc, line)
    }

    fn framed(&self, address: Address, headers: Headers, payload: Bytes) -> LeafFrame {
        let Address {
            subject,
            reply,
            queues,
        } = address;
        LeafFrame::Msg {
            parcel: Parcel {
                subject,
                reply,
                headers,
                payload,
            },
            queues,
        }
    }
}

/// What bytes of a leaf link begin with: a frame and its length, the wish for more bytes, or a refusal
/// (NATS leaf nodes).
pub fn beginning(alloc: Global, bytes: &[u8]) -> Result<First<LeafFrame>, NoMemory>
    ensures { IfOk result (λ it. it ≡ first bytes.now) }
{
    beginning_from(&Leaf, alloc, bytes, 0)
}
