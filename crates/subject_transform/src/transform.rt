ghost use Rattle.std.specs.Prelude.{◌≡◌, IsTrue, IfOk, IfErr};
ghost use Rattle.subject_transform.specs.Transforms.{is_transform, IsFault, if_subject, made, sub, without_blanks};

use crate::destination::{first_fault, text_of, without_blanks};
use crate::{TransformFault, TransformKind};
use nats_text::{Bytes, NoMemory, Pattern, Subject, TextFault, matches};
use std::alloc::Global;
use std::marker::Model;

/// A transform of subjects (subject mapping and transforms of NATS): what the wildcards of the source
/// take of a subject goes into the functions of the destination.
///
/// It holds the two texts and no table. A destination has at most 1,024 bytes, so each token of it is
/// read where it is used.
#[derive(Debug, Drop)]
pub struct Transform {
    source: Pattern,
    dest: Bytes,
}

impl Model for Transform {
    ghost use Rattle.std.specs.Prelude.{◌≡◌, true, is_ok};
    ghost use Rattle.nats_text.specs.Text.{tokens};
    ghost use Rattle.subject_transform.specs.Transforms.{TransformTexts, read_destination};

    ghost Value = { TransformTexts };

    ghost view = { λ it. record { src = it.source; dest = it.dest } };

    ghost invariant = { λ it. is_ok (read_destination (tokens it.source) it.dest) ≡ true };
}

impl Transform {
    /// Reads a transform. Spaces and tabs of the destination are dropped first.
    ///
    /// `Bad` comes exactly where the texts are none, with the first fault: that of the source, at the place
    /// where it stops being a pattern; else that of the first bad token of the destination, at its
    /// first byte. Of one token `BadDest` comes before `BadFunction`, `BadNumber` and `BadIndex`, in
    /// this order. `TailMismatch` comes last, at the last token.
    pub fn read(alloc: Global, src: &[u8], dest: &[u8]) -> Result<Transform, TransformFault>
        ensures value { IfOk result (λ it. it ≡ record { src = src.now; dest = without_blanks dest.now }) }
        ensures legal { IfOk result (λ _. IsTrue (is_transform src.now dest.now)) }
        ensures bad { IfErr result (λ fault. IsFault src.now dest.now fault) }
    {
        let source = match Pattern::read(alloc, src) {
            Ok(source) => source,
            Err(TextFault::Bad { place }) => {
                return Err(TransformFault::Bad {
                    place,
                    kind: TransformKind::BadSource,
                });
            }
            Err(TextFault::NoMemory) => return Err(TransformFault::NoMemory),
        };
        let dest = without_blanks(alloc, dest)?;
        match first_fault(source.bytes(), dest.as_slice()) {
            Some(fault) => Err(fault),
            None => Ok(Transform { source, dest }),
        }
    }

    /// The source.
    pub fn src(&self) -> &Pattern
        ensures { result.now ≡ self.now.src }
    {
        &self.source
    }

    /// The destination without its blanks.
    pub fn dest(&self) -> &[u8]
        ensures { result.now ≡ self.now.dest }
    {
        self.dest.as_slice()
    }

    /// What the transform makes of a subject. `None` comes exactly where the source doesn't match the
    /// subject, or where the result is no subject.
    pub fn apply(&self, alloc: Global, subject: &Subject) -> Result<Option<Subject>, NoMemory>
        ensures { IfOk result (λ it. it ≡ sub self.now.src self.now.dest subject.now) }
    {
        if matches(&self.source, subject) {
            self.made(alloc, subject)
        } else {
            Ok(None)
        }
    }

    // The same of a subject that the source matches.
    pub(crate) fn made(&self, alloc: Global, subject: &Subject) -> Result<Option<Subject>, NoMemory>
        ensures { IfOk result (λ it. it ≡ made self.now.src self.now.dest subject.now) }
    {
        match text_of(
            alloc,
            self.source.bytes(),
            self.dest.as_slice(),
            subject.bytes(),
        )? {
            Some(text) => Ok(Subject::of_bytes(text)),
            None => Ok(None),
        }
    }
}
