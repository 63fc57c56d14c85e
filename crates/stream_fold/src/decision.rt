ghost use Rattle.std.specs.Prelude.{◌≡◌};

use crate::Entry;
use std::alloc::AllocError;

/// Why a copy asks its origin anew.
#[derive(Clone, Copy, Debug, PartialEq, Eq)]
pub enum Why {
    /// A delivery or a heartbeat shows that some before it were lost: the number `expected` was to
    /// come, and `got` came.
    Gap { expected: u64, got: u64 },
}

/// Why a copy does nothing about a packet.
#[derive(Clone, Copy, Debug, PartialEq, Eq)]
pub enum Reason {
    /// A delivery that came before: its number is below the next one.
    Old { number: u64, next: u64 },
    /// A packet of another attempt or consumer, or one that isn't awaited.
    Foreign,
    /// A message whose number in the origin isn't above the `front`, up to which the copy has come: a
    /// mirror's last number, or a source's mark. Or one whose number is above `2^63 - 1`.
    Back { seq: u64, front: u64 },
    /// A message of more than a copy takes: its header block and its payload have `size` bytes.
    Large { size: u64 },
    /// The last number of the copy is `2^63 - 1`.
    SeqEnd,
}

/// What a copy does about a packet of its origin.
#[derive(Debug, Drop)]
pub enum Decision {
    /// It stores a message: the entry is a `Put`.
    Store(Entry),
    /// It binds itself to the incarnation of its origin: the entry is a `Bind`.
    Bind(Entry),
    /// The answer is of the incarnation to which it is bound already.
    Rebind,
    /// It comes past a message that it doesn't take.
    Skip,
    /// It does nothing, and why.
    Ignore(Reason),
    /// It asks its origin anew, and why.
    AskAgain(Why),
    /// It answers a request of flow control.
    Reply,
    /// It heard that its origin is there.
    Heard,
    /// The origin refused its request.
    Refused,
    /// It stops for good: it is bound to the incarnation `kept` and has `seen` another one.
    Stop { kept: u64, seen: u64 },
}

impl Clone for Decision {
    ghost is_clone = { λ a b. b ≡ a };

    fn clone(&self) -> Result<Decision, AllocError> {
        match self {
            Decision::Store(entry) => Ok(Decision::Store(entry.clone()?)),
            Decision::Bind(entry) => Ok(Decision::Bind(entry.clone()?)),
            Decision::Rebind => Ok(Decision::Rebind),
            Decision::Skip => Ok(Decision::Skip),
            Decision::Ignore(reason) => Ok(Decision::Ignore(*reason)),
            Decision::AskAgain(why) => Ok(Decision::AskAgain(*why)),
            Decision::Reply => Ok(Decision::Reply),
            Decision::Heard => Ok(Decision::Heard),
            Decision::Refused => Ok(Decision::Refused),
            Decision::Stop { kept, seen } => Ok(Decision::Stop {
                kept: *kept,
                seen: *seen,
            }),
        }
    }
}
