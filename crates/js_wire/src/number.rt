//! Numbers in their one spelling: decimal digits without leading zeros.
ghost use Rattle.std.specs.Prelude.{◌≡◌, ◌++◌, OnOk, decimal};
ghost use Rattle.js_wire.specs.Reading.{numeral, small_numeral};

use itoa::Buffer;
use nats_text::NoMemory;

/// Adds bytes.
pub(crate) fn push_text(text: &mut Vec<u8>, more: &[u8]) -> Result<(), NoMemory>
    ensures { OnOk result (text.new.items ≡ text.old.items ++ more.now) }
{
    text.extend_from_slice(more)?;
    Ok(())
}

/// Adds a number.
pub(crate) fn push_number(text: &mut Vec<u8>, number: u64) -> Result<(), NoMemory>
    ensures { OnOk result (text.new.items ≡ text.old.items ++ decimal number) }
{
    let mut digits = Buffer::new();
    push_text(text, digits.format(number).as_bytes())
}

/// The number of 64 bits that a text writes.
pub(crate) fn numeral(text: &[u8]) -> Option<u64>
    ensures { result ≡ numeral text.now }
{
    let Ok(digits) = str::from_utf8(text) else {
        return None;
    };
    let Ok(number) = digits.parse::<u64>() else {
        return None;
    };
    let mut buffer = Buffer::new();
    if buffer.format(number).as_bytes() == text {
        Some(number)
    } else {
        None
    }
}

/// The number of 32 bits that a text writes.
pub(crate) fn small_numeral(text: &[u8]) -> Option<u32>
    ensures { result ≡ small_numeral text.now }
{
    let number = numeral(text)?;
    if number <= u32::MAX as u64 {
        Some(number as u32)
    } else {
        None
    }
}
