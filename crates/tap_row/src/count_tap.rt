ghost use Rattle.std.specs.Prelude.{◌≡◌, ◌++◌, [], ◌∷◌, OnOk, OnErr, take, length};
ghost use Rattle.tap_row.specs.Counts.{Counts, counted_line, is_stored};

use crate::{Notice, Stay, Tap};
use itoa::Buffer;
use nats_text::NoMemory;

/// A tap that counts the messages that are stored, and stays. Its line is `stored` and the count. The
/// count stands still at `2^64 - 1`.
#[derive(Debug, Drop)]
pub struct CountTap {
    stored: u64,
}

impl CountTap {
    /// A tap that was told nothing.
    pub fn new() -> CountTap
        ensures { ⟦<CountTap as Tap>⟧.stands result [] }
    {
        CountTap { stored: 0 }
    }
}

impl Tap for CountTap {
    ghost use Rattle.std.specs.Prelude.{false};
    ghost use Rattle.tap_row.specs.Counts.{Counts, counted_line};

    ghost stands = { λ tap notices. Counts tap.stored notices };

    ghost has_left = { λ _. false };

    ghost says = { λ tap. counted_line tap.stored };

    fn tell(&mut self, notice: &Notice) -> Stay {
        if is_stored(notice) {
            self.stored = self.stored.saturating_add(1);
        }
        Stay::Keep
    }

    fn line(&self, buf: &mut Vec<u8>) -> Result<(), NoMemory> {
        let before = buf.len();
        let written = write_line(buf, self.stored);
        if written.is_err() {
            buf.truncate(before);
        }
        written
    }
}

fn is_stored(notice: &Notice) -> bool
    ensures { result ≡ is_stored notice.now }
{
    match notice {
        Notice::Stored { .. } => true,
        Notice::Removed { .. } => false,
        Notice::Bound { .. } => false,
        Notice::AskedAgain { .. } => false,
        Notice::Stopped { .. } => false,
        Notice::PostFull { .. } => false,
    }
}

// Adds the line, or a part of it.
fn write_line(buf: &mut Vec<u8>, stored: u64) -> Result<(), NoMemory>
    ensures ok { OnOk result (buf.new.items ≡ buf.old.items ++ (counted_line stored ++ 10 ∷ [])) }
    ensures err { OnErr result (take (length buf.old.items) buf.new.items ≡ buf.old.items) }
{
    let mut digits = Buffer::new();
    buf.extend_from_slice(b"stored ")?;
    buf.extend_from_slice(digits.format(stored).as_bytes())?;
    buf.push(b'\n')?;
    Ok(())
}
