ghost use Rattle.std.specs.Prelude.{◌≡◌};
ghost use Rattle.leafd_script.specs.Kinds.{kind_word};
ghost use Rattle.leafd_script.specs.declared.fault.LineFault.TheVariants.{NoMemory as OutOfMemory};

use nats_text::NoMemory;
use std::fmt;
use thiserror::Error;

/// Why a line of a script isn't legal in its place, in the order in which causes are sought.
#[derive(Clone, Copy, Debug, PartialEq, Eq)]
pub enum ScriptKind {
    /// A form, or an option, that isn't built yet.
    NotYet,
    /// The words fit no form, an option stands where it can't or twice, or a header isn't legal.
    BadLine,
    /// A name of a node or a stream that is none, or that no node may have.
    BadName,
    /// A subject or a pattern that is none.
    BadSubject,
    /// A number that isn't 1 to 19 digits of value at most `2^63 - 1`.
    BadNumber,
    /// A bad value of an option, or a configuration that no stream may have.
    BadOption,
    /// A node of this name was made before.
    NodeTaken,
    /// There is no such node.
    NoNode,
    /// The two nodes aren't the hub and a leaf.
    NoLink,
    /// A stream of this name was made before on its node.
    StreamTaken,
    /// There is no such stream.
    NoStream,
    /// Subjects overlap those of another stream on the node.
    Overlap,
    /// A copy would, in the end, copy itself.
    Cycle,
    /// More than a script may have.
    TooMany,
}

impl ScriptKind {
    /// The word by which a report names it.
    pub fn word(self) -> &'static str
        ensures { result.now ≡ kind_word self }
    {
        match self {
            ScriptKind::NotYet => "NotYet",
            ScriptKind::BadLine => "BadLine",
            ScriptKind::BadName => "BadName",
            ScriptKind::BadSubject => "BadSubject",
            ScriptKind::BadNumber => "BadNumber",
            ScriptKind::BadOption => "BadOption",
            ScriptKind::NodeTaken => "NodeTaken",
            ScriptKind::NoNode => "NoNode",
            ScriptKind::NoLink => "NoLink",
            ScriptKind::StreamTaken => "StreamTaken",
            ScriptKind::NoStream => "NoStream",
            ScriptKind::Overlap => "Overlap",
            ScriptKind::Cycle => "Cycle",
            ScriptKind::TooMany => "TooMany",
        }
    }
}

impl fmt::Display for ScriptKind {
    fn fmt<W: fmt::Write>(&self, f: &mut fmt::Formatter<W>) -> fmt::Result {
        f.write_str(self.word())
    }
}

/// Why a line was not read.
#[derive(Clone, Copy, Debug, PartialEq, Eq, Error)]
pub enum LineFault {
    /// The line isn't legal. Nothing was read of it.
    #[error("bad line: {kind}")]
    Bad { kind: ScriptKind },
    /// There was no memory.
    #[error("out of memory")]
    NoMemory,
}

impl From<NoMemory> for LineFault {
    ghost from_gives = { λ _ e. e ≡ OutOfMemory };

    fn from(_: NoMemory) -> Self {
        LineFault::NoMemory
    }
}
