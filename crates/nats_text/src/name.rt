ghost use Rattle.std.specs.Prelude.{◌≡◌, ℕ, false, not, IsTrue, IfOk, MatchOption};
ghost use Rattle.std.specs.List.{position_from};
ghost use Rattle.nats_text.specs.Places.{IsBadPlace};
ghost use Rattle.nats_text.specs.Text.{is_name, is_name_byte};

use crate::{Bytes, TextFault};
use std::alloc::Global;
use std::marker::Model;

/// The greatest length of a name in bytes.
const MAX_NAME_LEN: usize = 64;

/// A name of a node or a stream: 1 to 64 bytes from 33 to 126, without `.`, `*`, `>`, `/` and `\`
/// (the stream names of JetStream, with a bound on their length).
#[derive(Clone, Debug, Drop)]
pub struct Name {
    bytes: Bytes,
}

impl Model for Name {
    ghost use Rattle.std.specs.Prelude.{◌≡◌, List, ℕ, true};
    ghost use Rattle.nats_text.specs.Text.{is_name};

    ghost Value = { List ℕ };

    ghost view = { λ name. name.bytes };

    ghost invariant = { λ name. is_name name.bytes ≡ true };
}

impl PartialEq for Name {
    ghost use Rattle.std.specs.Cmp.Lexicographic.{pointwise};
    ghost use Rattle.std.specs.Prelude.{◌==◌};
    ghost use Rattle.std.specs.Cmp.Rules.{comparing};
    ghost use Rattle.std.proofs.Common.{rules};

    ghost eq = { λ a b. pointwise ◌==◌ a b };

    ghost laws = { Prim.search (comparing, rules) };

    fn eq(&self, other: &Name) -> bool {
        self.bytes == other.bytes
    }
}

impl Name {
    /// Reads a name. `Bad` comes exactly where the bytes are none, with the place where they stop being
    /// one. Memory is taken for a name alone, so that `NoMemory` comes only where the bytes are one.
    pub fn read(alloc: Global, bytes: &[u8]) -> Result<Name, TextFault>
        ensures value { IfOk result (λ name. name ≡ bytes.now) }
        ensures legal { IfOk result (λ _. IsTrue (is_name bytes.now)) }
        ensures bad { (place : ℕ) → result ≡ Err (TextFault.Bad place) → is_name bytes.now ≡ false }
        ensures place { (place : ℕ) → result ≡ Err (TextFault.Bad place) → IsBadPlace is_name bytes.now place }
        ensures memory { result ≡ Err TextFault.NoMemory → IsTrue (is_name bytes.now) }
    {
        if let Some(place) = bad_place(bytes) {
            return Err(TextFault::Bad {
                place: place as u64,
            });
        }
        Ok(Name {
            bytes: Bytes::from_slice(alloc, bytes)?,
        })
    }

    /// Whether the bytes are a name. It takes no memory.
    pub fn legal(bytes: &[u8]) -> bool
        ensures { result ≡ is_name bytes.now }
    {
        bad_place(bytes).is_none()
    }

    pub fn bytes(&self) -> &[u8]
        ensures value { result.now ≡ self.now }
        ensures legal { IsTrue (is_name self.now) }
    {
        self.bytes.as_slice()
    }

    pub(crate) fn into_bytes(self) -> Bytes
        ensures value { result ≡ self }
        ensures legal { IsTrue (is_name self) }
    {
        let Name { bytes } = self;
        bytes
    }
}

// Where the bytes stop being the beginning of a name, or end too early.
fn bad_place(bytes: &[u8]) -> Option<usize>
    ensures { MatchOption result (IsTrue (is_name bytes.now)) (IsBadPlace is_name bytes.now) }
{
    let front = &bytes[..bytes.len().min(MAX_NAME_LEN)];
    if let Some(place) = bad_byte(front) {
        return Some(place);
    }
    if bytes.is_empty() || bytes.len() > MAX_NAME_LEN {
        Some(front.len())
    } else {
        None
    }
}

fn bad_byte(bytes: &[u8]) -> Option<usize>
    ensures { result ≡ position_from (λ b. not (is_name_byte b)) 0 bytes.now }
{
    bytes.iter().position(|b| !is_name_byte(*b))
}

fn is_name_byte(b: u8) -> bool
    ensures { result ≡ is_name_byte b }
{
    b > 32 && b < 127 && b != b'.' && b != b'*' && b != b'>' && b != b'/' && b != b'\\'
}
