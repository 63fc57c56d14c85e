//! The subjects of packets, written word by word.
ghost use Rattle.std.specs.Prelude.{◌≡◌, ◌∷◌, ◌++◌, ◌^◌, ◌<◌, IsTrue, IfOk, OnOk, decimal};
ghost use Rattle.nats_text.specs.Text.{is_name, is_subject};
ghost use Rattle.js_wire.specs.Words.{dotted, consumer_name, attempt_subject, create_words, flow_subject, delivery_words};

use crate::AskerId;
use crate::number::{push_number, push_text};
use nats_text::{Name, NoMemory, Stamp, Subject, TextFault};
use std::alloc::Global;

/// A copy of the bytes, which have to be a subject.
pub(crate) fn subject(alloc: Global, text: &[u8]) -> Result<Subject, NoMemory>
    requires { IsTrue (is_subject text.now) }
    ensures { IfOk result (λ subject. subject ≡ text.now) }
{
    match Subject::read(alloc, text) {
        Ok(subject) => Ok(subject),
        Err(TextFault::Bad { .. }) => unreachable!(),
        Err(TextFault::NoMemory) => Err(NoMemory),
    }
}

/// Adds a dot and a word.
fn push_word(text: &mut Vec<u8>, word: &[u8]) -> Result<(), NoMemory>
    ensures { OnOk result (text.new.items ≡ text.old.items ++ 46 ∷ word.now) }
{
    push_text(text, b".")?;
    push_text(text, word)
}

/// Adds a dot and a number.
fn push_number_word(text: &mut Vec<u8>, number: u64) -> Result<(), NoMemory>
    ensures { OnOk result (text.new.items ≡ text.old.items ++ 46 ∷ decimal number) }
{
    push_text(text, b".")?;
    push_number(text, number)
}

/// Adds the name of a consumer, `B<boot>C<count>`.
pub(crate) fn push_consumer(text: &mut Vec<u8>, consumer: Stamp) -> Result<(), NoMemory>
    ensures { OnOk result (text.new.items ≡ text.old.items ++ consumer_name consumer) }
{
    push_text(text, b"B")?;
    push_number(text, consumer.boot)?;
    push_text(text, b"C")?;
    push_number(text, consumer.count)
}

/// `$JS.M.<node>.<stream>.<index>.<boot>.<count>.<end>`, where the last word is a name.
pub(crate) fn attempt_subject(
    alloc: Global,
    asker: &AskerId,
    attempt: Stamp,
    end: &[u8],
) -> Result<Subject, NoMemory>
    requires { IsTrue (is_name end.now) }
    ensures { IfOk result (λ subject. subject ≡ attempt_subject asker.now attempt end.now) }
{
    let mut text = Vec::new(alloc);
    push_text(&mut text, b"$JS.M")?;
    push_word(&mut text, asker.node.bytes())?;
    push_word(&mut text, asker.stream.bytes())?;
    push_number_word(&mut text, u64::from(asker.index))?;
    push_number_word(&mut text, attempt.boot)?;
    push_number_word(&mut text, attempt.count)?;
    push_word(&mut text, end)?;
    subject(alloc, &text)
}

/// `$JS.<origin>.API.CONSUMER.CREATE.<stream>`.
pub(crate) fn create_subject(
    alloc: Global,
    origin: &Name,
    stream: &Name,
) -> Result<Subject, NoMemory>
    ensures { IfOk result (λ subject. subject ≡ dotted (create_words origin.now stream.now)) }
{
    let mut text = Vec::new(alloc);
    push_text(&mut text, b"$JS")?;
    push_word(&mut text, origin.bytes())?;
    push_word(&mut text, b"API")?;
    push_word(&mut text, b"CONSUMER")?;
    push_word(&mut text, b"CREATE")?;
    push_word(&mut text, stream.bytes())?;
    subject(alloc, &text)
}

/// `$JS.FC.<origin>.<stream>.<consumer>.<token>`.
pub(crate) fn flow_subject(
    alloc: Global,
    origin: &Name,
    stream: &Name,
    consumer: Stamp,
    token: u64,
) -> Result<Subject, NoMemory>
    ensures { IfOk result (λ subject. subject ≡ flow_subject origin.now stream.now consumer token) }
{
    let mut text = Vec::new(alloc);
    push_text(&mut text, b"$JS.FC")?;
    push_word(&mut text, origin.bytes())?;
    push_word(&mut text, stream.bytes())?;
    push_text(&mut text, b".")?;
    push_consumer(&mut text, consumer)?;
    push_number_word(&mut text, token)?;
    subject(alloc, &text)
}

/// `$JS.ACK.<stream>.<consumer>.1.<seq>.<number>.<time>.<pending>`.
pub(crate) fn delivery_subject(
    alloc: Global,
    stream: &Name,
    consumer: Stamp,
    seq: u64,
    number: u64,
    time: u64,
    pending: u64,
) -> Result<Subject, NoMemory>
    ensures { IfOk result (λ subject. subject ≡ dotted (delivery_words stream.now consumer seq number time pending)) }
{
    let mut text = Vec::new(alloc);
    push_text(&mut text, b"$JS.ACK")?;
    push_word(&mut text, stream.bytes())?;
    push_text(&mut text, b".")?;
    push_consumer(&mut text, consumer)?;
    push_word(&mut text, b"1")?;
    push_number_word(&mut text, seq)?;
    push_number_word(&mut text, number)?;
    push_number_word(&mut text, time)?;
    push_number_word(&mut text, pending)?;
    subject(alloc, &text)
}
