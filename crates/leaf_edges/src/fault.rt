ghost use Rattle.std.specs.Prelude.{◌≡◌};
ghost use Rattle.leaf_edges.specs.declared.fault.EdgeError.TheVariants.{NoMemory};

use std::alloc::AllocError;
use thiserror::Error;

/// Why a call to the outside gave no answer.
#[derive(Clone, Copy, Debug, PartialEq, Eq, Error)]
pub enum EdgeError {
    /// The outside failed, and the count of faults of the called object rose.
    #[error("the outside failed")]
    Failed,
    /// There was no memory. Nothing changed.
    #[error("out of memory")]
    NoMemory,
}

impl From<AllocError> for EdgeError {
    ghost from_gives = { λ _ error. error ≡ NoMemory };

    fn from(_: AllocError) -> EdgeError {
        EdgeError::NoMemory
    }
}
