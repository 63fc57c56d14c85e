ghost use Rattle.std.specs.Prelude.{◌≡◌, ℕ, List, Bool, true, false};
ghost use Rattle.leaf_edges.specs.Causes.{Causes};
ghost use Rattle.leaf_edges.specs.Files.{TellsAs, IsEmptyDisk, SameFiles, GoesOut, GoesBack, HandsOut, IfHanded, AddsText, CountsDisk};

use crate::{Disk, EdgeError};

/// A store of disks and texts, each under a name.
pub trait Files: Drop {
    ghost use Rattle.std.specs.Prelude.{Option};

    type D: Disk;

    /// Whether it tells anything of its content. It is the same for each store of a type.
    ghost tells: { Type 0 };

    /// The disk in its place under a name. A name has a disk where one is in its place or out.
    ghost place: { Self → List ℕ → Option Self.D };

    /// Whether the disk of a name is out.
    ghost is_out: { Self → List ℕ → Bool };

    /// The names whose disks were handed out, the first first.
    ghost handed: { Self → List (List ℕ) };

    /// The bytes of the text under a name.
    ghost text_of: { Self → List ℕ → Option (List ℕ) };

    /// How many calls of `disk` and `text` failed, up to `2^64 - 1`.
    ghost faults: { Self → ℕ };

    /// How many disks came back with a fault, up to `2^64 - 1`.
    ghost disk_faults: { Self → ℕ };

    /// Whether the second state of a store may come after the first: what a store of this type keeps from
    /// call to call.
    ghost leads: { Self → Self → Type 0 };

    /// Hands out the disk of a name, with a count of faults of 0. Where there is none it answers
    /// `None`, or, with `make`, hands out an empty one, which has the name from then on.
    fn disk(&mut self, name: &[u8], make: bool) -> Result<Option<Self::D>, EdgeError>
        requires { tells → is_out self.old name.now ≡ false }
        ensures disk { tells → HandsOut (TellsAs Self.D.seen Self.D.images Self.D.moment Self.D.left_since Self.D.unsynced Self.D.done Self.D.failed)
            (IsEmptyDisk Self.D.seen Self.D.images Self.D.unsynced Self.D.done Self.D.failed) (place self.old name.now) make result }
        ensures count { IfHanded result (λ disk. Self.D.faults disk ≡ 0) (Unit {0}) }
        ensures goes { tells → IfHanded result (λ _. GoesOut place is_out handed text_of name.now self.old self.new)
            (SameFiles place is_out handed text_of self.old self.new) }
        ensures disk_faults { disk_faults self.new ≡ disk_faults self.old }
        ensures cause { Causes (faults self.old) (faults self.new) result }
        ensures leads { leads self.old self.new };

    /// Adds the text's bytes to `buf`. It answers `false` where there is no such text. A text of more
    /// than 16,777,216 bytes is a fault. At `false` and at `Err` the buffer is as before.
    fn text(&mut self, name: &[u8], buf: &mut Vec<u8>) -> Result<bool, EdgeError>
        ensures text { AddsText tells (text_of self.old name.now) buf.old.items buf.new.items result }
        ensures same { tells → SameFiles place is_out handed text_of self.old self.new }
        ensures disk_faults { disk_faults self.new ≡ disk_faults self.old }
        ensures cause { Causes (faults self.old) (faults self.new) result }
        ensures leads { leads self.old self.new };

    /// Puts a disk in the place from which it was handed out. A disk with a count of faults other than
    /// 0 counts as one disk fault.
    fn back(&mut self, name: &[u8], disk: Self::D)
        requires { tells → is_out self.old name.now ≡ true }
        ensures goes { tells → GoesBack place is_out handed text_of name.now disk self.old self.new }
        ensures faults { faults self.new ≡ faults self.old }
        ensures disk_faults { CountsDisk (Self.D.faults disk) (disk_faults self.old) (disk_faults self.new) }
        ensures leads { leads self.old self.new };

    /// No call leads from a state to itself.
    ghost leads_here: { (files : Self) → leads files files };

    /// Calls after calls lead on.
    ghost leads_on: { (one two three : Self) → leads one two → leads two three → leads one three };

    /// The disks of a store that tells tell too.
    ghost disks_tell: { tells → Self.D.tells };
}
