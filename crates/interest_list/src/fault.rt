ghost use Rattle.std.specs.Prelude.{◌≡◌};
ghost use Rattle.interest_list.specs.declared.fault.InterestFault.TheVariants.{NoMemory as OutOfMemory};

use nats_text::NoMemory;
use std::alloc::{AllocError, AllocFailed};
use thiserror::Error;

/// Why a change of the subscriptions was refused. Each leaves all as it was.
#[derive(Clone, Copy, Debug, PartialEq, Eq, Error)]
pub enum InterestFault {
    /// The connection has a subscription of this number.
    #[error("the number of the subscription is taken")]
    SidTaken,
    /// There is no such subscription.
    #[error("there is no such subscription")]
    NoSid,
    /// As many subscriptions stand as a node may have.
    #[error("too many subscriptions")]
    TooMany,
    /// There was no memory.
    #[error("out of memory")]
    NoMemory,
}

impl From<NoMemory> for InterestFault {
    ghost from_gives = { λ _ e. e ≡ OutOfMemory };

    fn from(_: NoMemory) -> Self {
        InterestFault::NoMemory
    }
}

impl From<AllocError> for InterestFault {
    ghost from_gives = { λ _ e. e ≡ OutOfMemory };

    fn from(_: AllocError) -> Self {
        InterestFault::NoMemory
    }
}

impl<T: Drop> From<AllocFailed<T>> for InterestFault {
    ghost from_gives = { λ _ e. e ≡ OutOfMemory };

    fn from(_: AllocFailed<T>) -> Self {
        InterestFault::NoMemory
    }
}
