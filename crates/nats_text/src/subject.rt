ghost use Rattle.std.specs.Prelude.{◌≡◌, ℕ, false, IsTrue, IfOk};
ghost use Rattle.std.specs.Prelude.{Some, None, if◌then◌else◌};
ghost use Rattle.nats_text.specs.Places.{IsBadPlace};
ghost use Rattle.nats_text.specs.Text.{is_subject};

use crate::scan::{Kind, bad_place};
use crate::{Bytes, Name, TextFault};
use std::alloc::Global;
use std::marker::Model;

/// A subject: 1 to 1,024 bytes of UTF-8, non-empty tokens joined by `.`, each byte above 32 and not
/// 127, and no token `*` or `>` (the subjects of NATS).
#[derive(Clone, Debug, Drop)]
pub struct Subject {
    bytes: Bytes,
}

impl Model for Subject {
    ghost use Rattle.std.specs.Prelude.{◌≡◌, List, ℕ, true};
    ghost use Rattle.nats_text.specs.Text.{is_subject};

    ghost Value = { List ℕ };

    ghost view = { λ subject. subject.bytes };

    ghost invariant = { λ subject. is_subject subject.bytes ≡ true };
}

impl PartialEq for Subject {
    ghost use Rattle.std.specs.Cmp.Lexicographic.{pointwise};
    ghost use Rattle.std.specs.Prelude.{◌==◌};
    ghost use Rattle.std.specs.Cmp.Rules.{comparing};
    ghost use Rattle.std.proofs.Common.{rules};

    ghost eq = { λ a b. pointwise ◌==◌ a b };

    ghost laws = { Prim.search (comparing, rules) };

    fn eq(&self, other: &Subject) -> bool {
        self.bytes == other.bytes
    }
}

impl Subject {
    /// Reads a subject. `Bad` comes exactly where the bytes are none, with the place where they stop being
    /// one. Memory is taken for a subject alone, so that `NoMemory` comes only where the bytes are one.
    pub fn read(alloc: Global, bytes: &[u8]) -> Result<Subject, TextFault>
        ensures value { IfOk result (λ subject. subject ≡ bytes.now) }
        ensures legal { IfOk result (λ _. IsTrue (is_subject bytes.now)) }
        ensures bad { (place : ℕ) → result ≡ Err (TextFault.Bad place) → is_subject bytes.now ≡ false }
        ensures place { (place : ℕ) → result ≡ Err (TextFault.Bad place) → IsBadPlace is_subject bytes.now place }
        ensures memory { result ≡ Err TextFault.NoMemory → IsTrue (is_subject bytes.now) }
    {
        if let Some(place) = bad_place(Kind::Subject, bytes) {
            return Err(TextFault::Bad {
                place: place as u64,
            });
        }
        Ok(Subject {
            bytes: Bytes::from_slice(alloc, bytes)?,
        })
    }

    /// Owned bytes as a subject, without a copy. `None` comes exactly where they are none; they are let go
    /// then. It takes no memory.
    pub fn of_bytes(bytes: Bytes) -> Option<Subject>
        ensures { result ≡ if is_subject bytes then Some bytes else None }
    {
        if Subject::legal(bytes.as_slice()) {
            Some(Subject { bytes })
        } else {
            None
        }
    }

    /// A name as a subject of one token. It takes no memory.
    pub fn of_name(name: Name) -> Subject
        ensures { result ≡ name }
    {
        Subject {
            bytes: name.into_bytes(),
        }
    }

    /// Whether the bytes are a subject. It takes no memory.
    pub fn legal(bytes: &[u8]) -> bool
        ensures { result ≡ is_subject bytes.now }
    {
        bad_place(Kind::Subject, bytes).is_none()
    }

    pub fn bytes(&self) -> &[u8]
        ensures value { result.now ≡ self.now }
        ensures legal { IsTrue (is_subject self.now) }
    {
        self.bytes.as_slice()
    }

    pub(crate) fn into_bytes(self) -> Bytes
        ensures value { result ≡ self }
        ensures legal { IsTrue (is_subject self) }
    {
        let Subject { bytes } = self;
        bytes
    }
}
