//! The header that tells where a message comes from.
ghost use Rattle.std.specs.Prelude.{◌≡◌, ◌++◌, ◌≤◌, ◌∷◌, length, decimal, IsTrue, IfOk, OnOk};
ghost use Rattle.nats_text.specs.Headers.{is_header_value};
ghost use Rattle.nats_text.specs.Text.{is_name, is_subject};
ghost use Rattle.stream_fold.specs.Sourcing.{source_value};
ghost use Rattle.source_core.specs.Origins.{IsTold};

use crate::routes::Route;
use itoa::Buffer;
use nats_text::{Bytes, NoMemory, Origin, Subject};
use std::alloc::Global;

/// The value of the header: the stream, the message's number there, the filter and the destination that
/// were taken, and the message's subject there.
pub fn source_value(
    alloc: Global,
    want: &Origin,
    route: &Route,
    subject: &Subject,
    seq: u64,
) -> Result<Bytes, NoMemory>
    requires { IsTold route.now }
    ensures value { IfOk result (λ text. text ≡ source_value want.now route.now subject.now seq) }
    ensures legal { IfOk result (λ text. IsTrue (is_header_value text)) }
    ensures short { IfOk result (λ text. length text ≤ 3200) }
{
    let text = words(alloc, want, route, subject, seq)?;
    Ok(text)
}

/// The words of the value, with a blank between each two.
fn words(
    alloc: Global,
    want: &Origin,
    route: &Route,
    subject: &Subject,
    seq: u64,
) -> Result<Bytes, NoMemory>
    ensures value { IfOk result (λ text. text ≡ source_value want.now route.now subject.now seq) }
    ensures name { OnOk result (IsTrue (is_name want.now.stream)) }
    ensures subject { OnOk result (IsTrue (is_subject subject.now)) }
{
    let mut text = Vec::new(alloc);
    text.extend_from_slice(want.stream.bytes())?;
    push_number(&mut text, seq)?;
    push_word(&mut text, route.filter.as_slice())?;
    push_word(&mut text, route.dest.as_slice())?;
    push_word(&mut text, subject.bytes())?;
    Ok(Bytes::from_vec(text))
}

/// Adds a blank and a number in decimal digits.
fn push_number(text: &mut Vec<u8>, number: u64) -> Result<(), NoMemory>
    ensures { OnOk result (text.new.items ≡ text.old.items ++ 32 ∷ decimal number) }
{
    let mut digits = Buffer::new();
    push_word(text, digits.format(number).as_bytes())
}

/// Adds a blank and a word.
fn push_word(text: &mut Vec<u8>, word: &[u8]) -> Result<(), NoMemory>
    ensures { OnOk result (text.new.items ≡ text.old.items ++ 32 ∷ word.now) }
{
    text.push(b' ')?;
    text.extend_from_slice(word)?;
    Ok(())
}
