ghost use Rattle.std.specs.Prelude.{◌≡◌};
ghost use Rattle.leafd_conf.specs.Kinds.{kind_word};
ghost use Rattle.leafd_conf.specs.declared.fault.ConfProblem.TheVariants.{NoMemory as OutOfMemory};

use nats_text::{Bytes, NoMemory};
use std::alloc::AllocError;
use std::fmt;
use thiserror::Error;

/// What is wrong with a configuration file, in the order in which causes are sought.
#[derive(Clone, Copy, Debug, PartialEq, Eq)]
pub enum ConfKind {
    /// There is no such file.
    NoFile,
    /// The text is no TOML.
    Syntax,
    /// The table has a member that no configuration has.
    Unknown,
    /// A member that has to be there isn't.
    Missing,
    /// A member has a value that it can't have.
    BadValue,
}

impl ConfKind {
    /// The word by which it is told.
    pub fn word(self) -> &'static str
        ensures { result.now ≡ kind_word self }
    {
        match self {
            ConfKind::NoFile => "NoFile",
            ConfKind::Syntax => "Syntax",
            ConfKind::Unknown => "Unknown",
            ConfKind::Missing => "Missing",
            ConfKind::BadValue => "BadValue",
        }
    }
}

impl fmt::Display for ConfKind {
    fn fmt<W: fmt::Write>(&self, f: &mut fmt::Formatter<W>) -> fmt::Result {
        f.write_str(self.word())
    }
}

/// Why a text was not read as a configuration.
#[derive(Debug, Drop, Error)]
pub enum ConfProblem {
    /// The first fault, and the name of the member at fault. It is empty where the whole file is.
    #[error("bad configuration: {kind}")]
    Bad { kind: ConfKind, member: Bytes },
    /// There was no memory.
    #[error("out of memory")]
    NoMemory,
}

impl From<NoMemory> for ConfProblem {
    ghost from_gives = { λ _ e. e ≡ OutOfMemory };

    fn from(_: NoMemory) -> Self {
        ConfProblem::NoMemory
    }
}
