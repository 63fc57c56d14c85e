ghost use Rattle.std.specs.Prelude.{◌≡◌, ◌++◌, ◌∷◌, [], ℕ, IfOk, IfErr, MatchOption, None};
ghost use Rattle.subject_transform.specs.Transforms.{IsFault};
ghost use Rattle.leafd_cli.specs.declared.status.Status.TheVariants.{Usage};
ghost use Rattle.leafd_words.specs.Commands.{texts_of};
ghost use Rattle.leafd_cli.specs.Mapping.{Maps, AreTransform, IsMapLine, made_of};
ghost use Rattle.leafd_cli.specs.Outcome.{CountsWrite, CountsDisks};

use crate::Status;
use crate::output::write_report;
use crate::texts::push_text;
use leaf_edges::Sink;
use leafd_words::MapWords;
use nats_text::{NoMemory, Subject, TextFault};
use std::alloc::Global;
use subject_transform::{Transform, TransformFault};

/// Prints the subject that a transform makes of a text.
pub fn map_subject<O: Sink>(alloc: Global, words: MapWords<'_>, out: &mut O) -> Status
    ensures report { Maps (texts_of words.entry) (O.taken out.old) (O.taken out.new) result }
    ensures usage { result ≡ Usage → ⊥ }
    ensures write { CountsWrite (O.faults out.old) (O.faults out.new) result }
    ensures disk { (before : ℕ) → CountsDisks before before result }
{
    match line_made(alloc, words) {
        Ok(Some(line)) => write_report(out, &line),
        Ok(None) => Status::NoMatch,
        Err(TransformFault::Bad { place, kind }) => Status::BadTransform { place, kind },
        Err(TransformFault::NoMemory) => Status::NoMemory,
    }
}

/// The line that is printed, `None` where the transform makes no subject.
fn line_made(alloc: Global, words: MapWords<'_>) -> Result<Option<Vec<u8>>, TransformFault>
    ensures legal { IfOk result (λ _. AreTransform (texts_of words.entry)) }
    ensures line { IfOk result (λ line. MatchOption line (made_of (texts_of words.entry) ≡ None) (λ line. IsMapLine (texts_of words.entry) line.items)) }
    ensures fault { IfErr result (λ fault. IsFault words.entry.src.now words.entry.dest.now fault) }
{
    match made(alloc, words)? {
        Some(made) => Ok(Some(line_of(alloc, &made)?)),
        None => Ok(None),
    }
}

/// What the transform makes of the text, which gives nothing where it is no subject.
fn made(alloc: Global, words: MapWords<'_>) -> Result<Option<Subject>, TransformFault>
    ensures legal { IfOk result (λ _. AreTransform (texts_of words.entry)) }
    ensures made { IfOk result (λ made. made ≡ made_of (texts_of words.entry)) }
    ensures fault { IfErr result (λ fault. IsFault words.entry.src.now words.entry.dest.now fault) }
{
    let transform = Transform::read(alloc, words.src, words.dest)?;
    match Subject::read(alloc, words.subject) {
        Ok(subject) => Ok(transform.apply(alloc, &subject)?),
        Err(TextFault::Bad { .. }) => Ok(None),
        Err(TextFault::NoMemory) => Err(TransformFault::NoMemory),
    }
}

/// A subject and LF.
fn line_of(alloc: Global, subject: &Subject) -> Result<Vec<u8>, NoMemory>
    ensures { IfOk result (λ line. line.items ≡ subject.now ++ 10 ∷ []) }
{
    let mut line = Vec::new(alloc);
    push_text(&mut line, subject.bytes())?;
    push_text(&mut line, b"\n")?;
    Ok(line)
}
