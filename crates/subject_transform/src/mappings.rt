ghost use Rattle.std.specs.Prelude.{◌≡◌, IfOk};
ghost use Rattle.subject_transform.specs.Mapped.{mapped};

use crate::Transform;
use nats_text::{List, NoMemory, Subject, matches};
use std::alloc::Global;
use std::marker::Model;

/// Transforms in an order, of which the first whose source matches decides.
#[derive(Debug, Drop)]
pub struct Mappings {
    list: List<Transform>,
}

impl Model for Mappings {
    ghost use Rattle.std.specs.Prelude.{List as Items};
    ghost use Rattle.subject_transform.specs.Transforms.{TransformTexts};

    ghost Value = { Items TransformTexts };

    ghost view = { λ it. it.list };
}

impl Mappings {
    pub fn new(list: List<Transform>) -> Mappings
        ensures { result ≡ list }
    {
        Mappings { list }
    }

    /// What the first transform whose source matches makes of the subject. The subject stays as it is
    /// where that transform gives none, and where no source matches.
    pub fn apply(&self, alloc: Global, subject: &Subject) -> Result<Subject, NoMemory>
        ensures { IfOk result (λ it. it ≡ mapped self.now subject.now) }
    {
        for transform in self.list.as_slice() {
            if matches(transform.src(), subject) {
                return match transform.made(alloc, subject)? {
                    Some(made) => Ok(made),
                    None => copied(subject),
                };
            }
        }
        copied(subject)
    }
}

pub(crate) fn copied(subject: &Subject) -> Result<Subject, NoMemory>
    ensures { IfOk result (λ copy. copy ≡ subject.now) }
{
    Ok(subject.clone()?)
}
