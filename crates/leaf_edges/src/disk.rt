ghost use Rattle.std.specs.Prelude.{◌≡◌, ◌≤◌, ◌+◌, ◌^◌, ℕ, List, Bool, true, false, length, take, drop, IfOk, OnOk, IsErrOf, IsTrue};
ghost use Rattle.leaf_edges.specs.Causes.{CausesOne};
ghost use Rattle.leaf_edges.specs.Disks.{Torn, Cut, Follows, Only, Unchanged, Elapses, Notes, NotesSync, overwritten, wrote, cut_to};

use crate::EdgeError;

/// A disk: bytes that are read, written, cut and synced. Between two syncs each written range, and
/// everything past the old end, may hold any bytes after a crash; bytes outside stay. After a sync
/// that succeeds, a crash leaves what a read gives.
pub trait Disk: Drop {
    ghost use Rattle.std.specs.Prelude.{Option};
    ghost use Rattle.leaf_edges.specs.Disks.{Op};

    /// Whether it tells anything of its content. It is the same for each disk of a type.
    ghost tells: { Type 0 };

    /// What a read gives.
    ghost seen: { Self → List ℕ };

    /// The images that a crash may leave now.
    ghost images: { Self → List ℕ → Type 0 };

    /// The moment, a number that doesn't fall.
    ghost moment: { Self → ℕ };

    /// The images that a crash at some moment from that one on may have left.
    ghost left_since: { Self → ℕ → List ℕ → Type 0 };

    /// Whether anything is unsynced.
    ghost unsynced: { Self → Bool };

    /// The writes, cuts and syncs that were Ok, the first first, without a sync at which nothing was
    /// unsynced.
    ghost done: { Self → List Op };

    /// The write, cut or sync that failed last.
    ghost failed: { Self → Option Op };

    /// How many of its calls failed, up to `2^64 - 1`.
    ghost faults: { Self → ℕ };

    /// Whether the second state of a disk may come after the first: what a disk of this type keeps from
    /// call to call.
    ghost leads: { Self → Self → Type 0 };

    /// How many bytes it has.
    fn len(&mut self) -> Result<u64, EdgeError>
        ensures value { tells → IfOk result (λ len. len ≡ length (seen self.old)) }
        ensures same { tells → Unchanged seen images unsynced done failed self.old self.new }
        ensures time { tells → Elapses moment left_since images self.old self.new }
        ensures memory { IsErrOf result EdgeError.NoMemory → ⊥ }
        ensures cause { CausesOne (faults self.old) (faults self.new) result }
        ensures leads { leads self.old self.new };

    /// Fills `buf` with the bytes from `place` on. At `Err` the buffer may hold anything.
    fn read(&mut self, place: u64, buf: &mut [u8]) -> Result<(), EdgeError>
        requires { tells → place + length buf.old ≤ length (seen self.old) }
        ensures bytes { tells → OnOk result (buf.new ≡ take (length buf.old) (drop place (seen self.old))) }
        ensures same { tells → Unchanged seen images unsynced done failed self.old self.new }
        ensures time { tells → Elapses moment left_since images self.old self.new }
        ensures memory { IsErrOf result EdgeError.NoMemory → ⊥ }
        ensures cause { CausesOne (faults self.old) (faults self.new) result }
        ensures leads { leads self.old self.new };

    /// Writes the bytes at `place`, and past the end where they don't fit before it. At `NoMemory`
    /// nothing was written; at `Failed` a crash, and a read too, may find any part of it.
    fn write_at(&mut self, place: u64, bytes: &[u8]) -> Result<(), EdgeError>
        requires { tells → place ≤ length (seen self.old) }
        ensures written { tells → OnOk result (seen self.new ≡ overwritten (seen self.old) place bytes.now) }
        ensures dirt { tells → OnOk result (unsynced self.new ≡ true) }
        ensures notes { tells → Notes done failed self.old self.new (wrote place bytes.now) result }
        ensures crash { tells → Follows (Torn place (length bytes.now)) (images self.old) (images self.new) }
        ensures memory { tells → IsErrOf result EdgeError.NoMemory → Unchanged seen images unsynced done failed self.old self.new }
        ensures time { tells → Elapses moment left_since images self.old self.new }
        ensures cause { CausesOne (faults self.old) (faults self.new) result }
        ensures leads { leads self.old self.new };

    /// Cuts it to the first `len` bytes. At `NoMemory` nothing was cut; at `Failed` a crash, and a
    /// read too, may find it cut or not.
    fn cut(&mut self, len: u64) -> Result<(), EdgeError>
        requires { tells → len ≤ length (seen self.old) }
        ensures shorter { tells → OnOk result (seen self.new ≡ take len (seen self.old)) }
        ensures dirt { tells → OnOk result (unsynced self.new ≡ true) }
        ensures notes { tells → Notes done failed self.old self.new (cut_to len) result }
        ensures crash { tells → Follows (Cut len) (images self.old) (images self.new) }
        ensures memory { tells → IsErrOf result EdgeError.NoMemory → Unchanged seen images unsynced done failed self.old self.new }
        ensures time { tells → Elapses moment left_since images self.old self.new }
        ensures cause { CausesOne (faults self.old) (faults self.new) result }
        ensures leads { leads self.old self.new };

    /// At Ok a crash leaves what a read gives, until the next write or cut. At `Failed` what was
    /// unsynced may be on the disk or not.
    fn sync(&mut self) -> Result<(), EdgeError>
        ensures content { tells → OnOk result (seen self.new ≡ seen self.old) }
        ensures durable { tells → OnOk result (Only (seen self.old) (images self.new)) }
        ensures dirt { tells → OnOk result (unsynced self.new ≡ false) }
        ensures notes { tells → NotesSync done failed unsynced self.old self.new result }
        ensures crash { tells → (c : List ℕ) → images self.new c → images self.old c }
        ensures time { tells → Elapses moment left_since images self.old self.new }
        ensures memory { IsErrOf result EdgeError.NoMemory → ⊥ }
        ensures cause { CausesOne (faults self.old) (faults self.new) result }
        ensures leads { leads self.old self.new };

    /// No call leads from a state to itself.
    ghost leads_here: { (disk : Self) → leads disk disk };

    /// Calls after calls lead on.
    ghost leads_on: { (one two three : Self) → leads one two → leads two three → leads one three };

    /// A disk as it reads is one of its images.
    ghost seen_is_image: { (disk : Self) → tells → images disk (seen disk) };

    /// Where nothing is unsynced a crash leaves what a read gives.
    ghost synced_is_only: { (disk : Self) → tells → unsynced disk ≡ false → Only (seen disk) (images disk) };

    /// An image now is one since any earlier moment.
    ghost counts_now: { (disk : Self) (t : ℕ) (c : List ℕ) → tells → t ≤ moment disk → images disk c → left_since disk t c };

    /// An image since now is one now.
    ghost only_now: { (disk : Self) (c : List ℕ) → tells → left_since disk (moment disk) c → images disk c };
}
