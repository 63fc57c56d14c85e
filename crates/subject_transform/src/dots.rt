//! Splits and slices of a token by length.
ghost use Rattle.std.specs.Prelude.{◌≡◌, ◌++◌, ◌<◌, ℕ, IsTrue, OnOk};
ghost use Rattle.subject_transform.specs.Parts.{is_length};
ghost use Rattle.subject_transform.specs.Values.{is_later_byte, characters, has_dot, dot_before, dotted_by};

use crate::function::Dots;
use nats_text::NoMemory;

// A byte of a character in UTF-8 behind its first.
fn is_later_byte(byte: u8) -> bool
    ensures { result ≡ is_later_byte byte }
{
    matches!(byte, 0x80..=0xBF)
}

fn characters(token: &[u8]) -> usize
    ensures { result ≡ characters token.now }
{
    token.iter().filter(|byte| !is_later_byte(**byte)).count()
}

impl Dots {
    /// Whether the function takes this length: a slice has 1 character or more.
    pub(crate) fn is_length(self, len: u64) -> bool
        ensures { result ≡ is_length self len }
    {
        match self {
            Dots::SplitFromLeft | Dots::SplitFromRight => true,
            Dots::SliceFromLeft | Dots::SliceFromRight => len > 0,
        }
    }

    // Whether a dot stands before the character at this place, of so many.
    fn stand_before(self, len: u64, count: usize, at: usize) -> bool
        requires within { at < count }
        requires length { IsTrue (is_length self len) }
        ensures { result ≡ has_dot self len count at }
    {
        at > 0
            && match self {
                Dots::SplitFromLeft => at as u64 == len,
                Dots::SplitFromRight => (count - at) as u64 == len,
                Dots::SliceFromLeft => at as u64 % len == 0,
                Dots::SliceFromRight => (count - at) as u64 % len == 0,
            }
    }
}

/// Adds a token with the dots of a split or a slice by this length.
pub(crate) fn push_dotted(
    buf: &mut Vec<u8>,
    dots: Dots,
    len: u64,
    token: &[u8],
) -> Result<(), NoMemory>
    requires { IsTrue (is_length dots len) }
    ensures { OnOk result (buf.new.items ≡ buf.old.items ++ dotted_by dots len token.now) }
{
    let count = characters(token);
    let mut at = 0;
    for byte in token {
        if is_later_byte(*byte) {
            buf.push(*byte)?;
            continue;
        }
        push_character(buf, dots.stand_before(len, count, at), *byte)?;
        at += 1;
    }
    Ok(())
}

// Adds the first byte of a character, behind a dot where it has one.
fn push_character(buf: &mut Vec<u8>, has_dot: bool, byte: u8) -> Result<(), NoMemory>
    ensures { OnOk result (buf.new.items ≡ buf.old.items ++ dot_before has_dot byte) }
{
    if has_dot {
        buf.push(b'.')?;
    }
    buf.push(byte)?;
    Ok(())
}
