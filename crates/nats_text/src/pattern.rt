ghost use Rattle.std.specs.Prelude.{◌≡◌, ℕ, false, IsTrue, IfOk};
ghost use Rattle.nats_text.specs.Places.{IsBadPlace};
ghost use Rattle.nats_text.specs.Text.{is_pattern};

use crate::scan::{Kind, bad_place};
use crate::{Bytes, Subject, TextFault};
use std::alloc::Global;
use std::marker::Model;

/// A pattern of subjects: as a subject, but the token `*` may stand anywhere and the token `>` last
/// (the wildcards of NATS).
#[derive(Clone, Debug, Drop)]
pub struct Pattern {
    bytes: Bytes,
}

impl Model for Pattern {
    ghost use Rattle.std.specs.Prelude.{◌≡◌, List, ℕ, true};
    ghost use Rattle.nats_text.specs.Text.{is_pattern};

    ghost Value = { List ℕ };

    ghost view = { λ pattern. pattern.bytes };

    ghost invariant = { λ pattern. is_pattern pattern.bytes ≡ true };
}

impl PartialEq for Pattern {
    ghost use Rattle.std.specs.Cmp.Lexicographic.{pointwise};
    ghost use Rattle.std.specs.Prelude.{◌==◌};
    ghost use Rattle.std.specs.Cmp.Rules.{comparing};
    ghost use Rattle.std.proofs.Common.{rules};

    ghost eq = { λ a b. pointwise ◌==◌ a b };

    ghost laws = { Prim.search (comparing, rules) };

    fn eq(&self, other: &Pattern) -> bool {
        self.bytes == other.bytes
    }
}

impl Pattern {
    /// Reads a pattern. `Bad` comes exactly where the bytes are none, with the place where they stop being
    /// one. Memory is taken for a pattern alone, so that `NoMemory` comes only where the bytes are one.
    pub fn read(alloc: Global, bytes: &[u8]) -> Result<Pattern, TextFault>
        ensures value { IfOk result (λ pattern. pattern ≡ bytes.now) }
        ensures legal { IfOk result (λ _. IsTrue (is_pattern bytes.now)) }
        ensures bad { (place : ℕ) → result ≡ Err (TextFault.Bad place) → is_pattern bytes.now ≡ false }
        ensures place { (place : ℕ) → result ≡ Err (TextFault.Bad place) → IsBadPlace is_pattern bytes.now place }
        ensures memory { result ≡ Err TextFault.NoMemory → IsTrue (is_pattern bytes.now) }
    {
        if let Some(place) = bad_place(Kind::Pattern, bytes) {
            return Err(TextFault::Bad {
                place: place as u64,
            });
        }
        Ok(Pattern {
            bytes: Bytes::from_slice(alloc, bytes)?,
        })
    }

    /// A subject as a pattern, which matches that subject alone. It takes no memory.
    pub fn of_subject(subject: Subject) -> Pattern
        ensures { result ≡ subject }
    {
        Pattern {
            bytes: subject.into_bytes(),
        }
    }

    /// Whether the bytes are a pattern. It takes no memory.
    pub fn legal(bytes: &[u8]) -> bool
        ensures { result ≡ is_pattern bytes.now }
    {
        bad_place(Kind::Pattern, bytes).is_none()
    }

    pub fn bytes(&self) -> &[u8]
        ensures value { result.now ≡ self.now }
        ensures legal { IsTrue (is_pattern self.now) }
    {
        self.bytes.as_slice()
    }
}
