ghost use Rattle.std.specs.Prelude.{ℕ, List, Option};
ghost use Rattle.std.specs.Io.{WritesAtMost};
ghost use Rattle.std.specs.Io.KnownBytes.{WriteAppends};
ghost use Rattle.leaf_edges.specs.Causes.{WriteCauses};

use crate::EdgeError;

/// What bytes are written to.
pub trait Sink: Drop {
    /// The bytes that were written so far, where the sink tells them.
    ghost taken: { Self → Option (List ℕ) };

    /// How many of its calls failed, up to `2^64 - 1`. To take nothing of a piece that isn't empty
    /// counts as a failure.
    ghost faults: { Self → ℕ };

    /// Takes the front of `bytes` and says how many bytes that was. At `Err` it took none.
    fn write(&mut self, bytes: &[u8]) -> Result<usize, EdgeError>
        ensures bound { WritesAtMost result bytes.now }
        ensures bytes { WriteAppends (taken self.old) (taken self.new) result bytes.now }
        ensures cause { WriteCauses (faults self.old) (faults self.new) result bytes.now };
}
