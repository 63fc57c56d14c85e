ghost use Rattle.std.specs.Prelude.{◌≡◌, ◌==◌, ◌++◌, length, drop, codes, true, false, IfOk, MatchOption, IsTrue};
ghost use Rattle.std.specs.List.{starts_with};
ghost use Rattle.nats_text.specs.Text.{is_subject};
ghost use Rattle.subject_transform.specs.Domains.{crosses, domain_prefix, inbound};

use crate::argument::behind;
use crate::mappings::copied;
use crate::taken::first_piece;
use nats_text::{Name, NoMemory, Pattern, Subject, TextFault};
use std::alloc::Global;
use std::marker::Model;

/// The JetStream domain of a node: `$JS.API.` begins its own interface, and `$JS.<domain>.API.` the
/// same one as others name it.
#[derive(Debug, Drop)]
pub struct DomainMap {
    domain: Name,
}

impl Model for DomainMap {
    ghost use Rattle.std.specs.Prelude.{List, ℕ};

    ghost Value = { List ℕ };

    ghost view = { λ it. it.domain };
}

impl DomainMap {
    pub fn new(domain: Name) -> DomainMap
        ensures { result ≡ domain }
    {
        DomainMap { domain }
    }

    /// A subject that comes in: `$JS.<own domain>.API.X` becomes `$JS.API.X`, and every other subject
    /// stays as it is.
    pub fn inbound(&self, alloc: Global, subject: &Subject) -> Result<Subject, NoMemory>
        ensures { IfOk result (λ it. it ≡ inbound self.now subject.now) }
    {
        match self.behind_prefix(subject.bytes()) {
            Some(rest) => own_subject(alloc, rest),
            None => copied(subject),
        }
    }

    /// Whether a pattern goes to other nodes: exactly where its first two tokens aren't `$JS` and `API`,
    /// which name this node's own interface.
    pub fn crosses(&self, pattern: &Pattern) -> bool
        ensures { result ≡ crosses pattern.now }
    {
        let (first, rest) = first_piece(pattern.bytes(), b'.');
        let Some(rest) = rest else {
            return true;
        };
        let (second, _) = first_piece(rest, b'.');
        !(first == b"$JS".as_slice() && second == b"API".as_slice())
    }

    // What stands behind `$JS.<own domain>.API.`.
    fn behind_prefix<'a>(&self, subject: &'a [u8]) -> Option<&'a [u8]>
        ensures { MatchOption result (starts_with ◌==◌ subject.now (domain_prefix self.now) ≡ false)
            (λ rest. (starts_with ◌==◌ subject.now (domain_prefix self.now) ≡ true) × (rest.now ≡ drop (length (domain_prefix self.now)) subject.now)) }
    {
        let named = stripped(subject, b"$JS.")?;
        let called = stripped(named, self.domain.bytes())?;
        stripped(called, b".API.")
    }
}

// What stands behind these bytes, where the text begins with them.
fn stripped<'a>(text: &'a [u8], front: &[u8]) -> Option<&'a [u8]>
    ensures { MatchOption result (starts_with ◌==◌ text.now front.now ≡ false)
        (λ rest. (starts_with ◌==◌ text.now front.now ≡ true) × (rest.now ≡ drop (length front.now) text.now)) }
{
    if text.starts_with(front) {
        Some(behind(text, front.len()))
    } else {
        None
    }
}

// The subject of this node's own interface with this at its end.
fn own_subject(alloc: Global, rest: &[u8]) -> Result<Subject, NoMemory>
    requires { IsTrue (is_subject (codes "$JS.API." ++ rest.now)) }
    ensures { IfOk result (λ it. it ≡ codes "$JS.API." ++ rest.now) }
{
    let mut text = Vec::new(alloc);
    text.extend_from_slice(b"$JS.API.")?;
    text.extend_from_slice(rest)?;
    match Subject::read(alloc, &text) {
        Ok(subject) => Ok(subject),
        Err(TextFault::Bad { .. }) => unreachable!(),
        Err(TextFault::NoMemory) => Err(NoMemory),
    }
}
