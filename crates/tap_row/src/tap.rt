ghost use Rattle.std.specs.Prelude.{◌≡◌, ◌∷◌, [], ◌++◌, true, ◌↔◌, OnOk, OnErr};
ghost use Rattle.tap_row.specs.declared.notice.Stay.TheVariants.{Leave};

use crate::{Notice, Stay};
use nats_text::NoMemory;

/// One who is told what happens.
pub trait Tap: Drop {
    ghost use Rattle.std.specs.Prelude.{List, ℕ, Bool};
    ghost use Rattle.tap_row.specs.declared.notice.Notice.{Notice};

    /// The tap may have been told just these notices, the first first.
    ghost stands: { Self → List Notice → Type 0 };

    /// Whether its last answer was to leave.
    ghost has_left: { Self → Bool };

    /// The line that it has to say, without its end.
    ghost says: { Self → List ℕ };

    /// Takes a notice, and answers whether the tap stays.
    fn tell(&mut self, notice: &Notice) -> Stay
        ensures told { (notices : List Notice) → stands self.old notices → stands self.new (notices ++ notice.now ∷ []) }
        ensures left { (result ≡ Leave) ↔ (has_left self.new ≡ true) };

    /// Adds the tap's line and a line feed. An error leaves the buffer as it was.
    fn line(&self, buf: &mut Vec<u8>) -> Result<(), NoMemory>
        ensures ok { OnOk result (buf.new.items ≡ buf.old.items ++ (says self.now ++ 10 ∷ [])) }
        ensures err { OnErr result (buf.new.items ≡ buf.old.items) };
}

/// A tap of any kind, which may go to another thread.
pub type BoxedTap = Box<dyn Tap + Send>;
