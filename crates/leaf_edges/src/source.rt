ghost use Rattle.std.specs.Prelude.{ℕ, List, Option};
ghost use Rattle.std.specs.Io.{ReadsAtMost};
ghost use Rattle.std.specs.Io.KnownBytes.{ReadConsumes};
ghost use Rattle.leaf_edges.specs.Causes.{ReadCauses};

use crate::EdgeError;

/// What bytes are read from.
pub trait Source: Drop {
    /// The bytes that are left, where the source tells them.
    ghost left: { Self → Option (List ℕ) };

    /// How many of its calls failed, up to `2^64 - 1`.
    ghost faults: { Self → ℕ };

    /// Reads bytes into the front of `buf` and says how many. 0 bytes into a buffer that isn't
    /// empty are the end, and come only where no byte is left. At `Err` no byte was taken.
    fn read(&mut self, buf: &mut [u8]) -> Result<usize, EdgeError>
        ensures bound { ReadsAtMost result buf.new }
        ensures bytes { ReadConsumes (left self.old) (left self.new) result buf.new }
        ensures cause { ReadCauses (faults self.old) (faults self.new) result };
}
