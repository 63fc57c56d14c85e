ghost use Rattle.std.specs.Prelude.{◌≡◌, ◌++◌, OnOk, IfOk, decimal};
ghost use Rattle.leafd_cli.specs.Effects.{counted};
ghost use Rattle.leafd_cli.specs.Report.{hex_text};

use itoa::Buffer;
use nats_text::{Bytes, NoMemory};
use std::alloc::Global;

/// Adds bytes.
pub fn push_text(report: &mut Vec<u8>, text: &[u8]) -> Result<(), NoMemory>
    ensures { OnOk result (report.new.items ≡ report.old.items ++ text.now) }
{
    report.extend_from_slice(text)?;
    Ok(())
}

/// Adds a number in decimal digits.
pub fn push_number(report: &mut Vec<u8>, number: u64) -> Result<(), NoMemory>
    ensures { OnOk result (report.new.items ≡ report.old.items ++ decimal number) }
{
    let mut digits = Buffer::new();
    push_text(report, digits.format(number).as_bytes())
}

/// Adds a word, a space and a number.
pub fn push_counted(report: &mut Vec<u8>, word: &[u8], number: u64) -> Result<(), NoMemory>
    ensures { OnOk result (report.new.items ≡ report.old.items ++ counted word.now number) }
{
    push_text(report, word)?;
    push_text(report, b" ")?;
    push_number(report, number)
}

/// Adds lower-case hex, or a dash for nothing.
pub fn push_hex(alloc: Global, report: &mut Vec<u8>, bytes: &[u8]) -> Result<(), NoMemory>
    ensures { OnOk result (report.new.items ≡ report.old.items ++ hex_text bytes.now) }
{
    if bytes.is_empty() {
        return push_text(report, b"-");
    }
    let text = hex::encode(alloc, bytes)?;
    push_text(report, text.as_bytes())
}

/// A word, a space and a number.
pub fn counted(alloc: Global, word: &[u8], number: u64) -> Result<Bytes, NoMemory>
    ensures { IfOk result (λ text. text ≡ counted word.now number) }
{
    let mut text = Vec::new(alloc);
    push_counted(&mut text, word, number)?;
    Ok(Bytes::from_vec(text))
}
