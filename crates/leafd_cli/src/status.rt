ghost use Rattle.std.specs.Prelude.{◌≡◌};
ghost use Rattle.leafd_cli.specs.Outcome.{status_number};

use leafd_conf::ConfKind;
use leafd_script::ScriptKind;
use nats_text::Bytes;
use subject_transform::TransformKind;

/// How a command ended.
#[derive(Debug, Drop, PartialEq)]
pub enum Status {
    /// The whole report was written, and the input was read to its end.
    Done,
    /// The line of this number, counted from 1, isn't legal in its place. The report before it is
    /// written.
    ScriptFault { line: u64, kind: ScriptKind },
    /// The configuration file isn't there or is none, with its first fault and the member at fault. Nothing was
    /// written.
    ConfFault { kind: ConfKind, member: Bytes },
    /// The words are no command.
    Usage,
    /// The input failed, or the folder of a store or a configuration file. Nothing was written.
    ReadFault,
    /// The output failed. A prefix of the report was written.
    WriteFault,
    /// A disk of a store failed. Nothing was written.
    DiskFault,
    /// There was no memory. A prefix of the report was written.
    NoMemory,
    /// The script has more than 16,777,216 bytes. Nothing was run.
    ScriptTooLong,
    /// The bytes of the file of this name are no journal. The place is in bytes from the file's first.
    /// Nothing was written.
    BadJournal { name: Bytes, place: u64 },
    /// The file of this name has more than `2^40` bytes, namely this many. Nothing was written.
    JournalTooLong { name: Bytes, len: u64 },
    /// The source and the destination are no transform. The place is in bytes from 0, in the source where the
    /// kind is `BadSource`, and else in the destination without its blanks. Nothing was written.
    BadTransform { place: u64, kind: TransformKind },
    /// The transform makes no subject of the word, or that is none itself. Nothing was written.
    NoMatch,
}

impl Status {
    /// The number that the process ends with.
    pub fn number(&self) -> u8
        ensures { result ≡ status_number self.now }
    {
        match self {
            Status::Done => 0,
            Status::ScriptFault { .. } => 1,
            Status::ConfFault { .. } => 1,
            Status::Usage => 2,
            Status::ReadFault => 3,
            Status::WriteFault => 4,
            Status::DiskFault => 5,
            Status::NoMemory => 6,
            Status::ScriptTooLong => 7,
            Status::BadJournal { .. } => 8,
            Status::JournalTooLong { .. } => 12,
            Status::BadTransform { .. } => 1,
            Status::NoMatch => 9,
        }
    }
}
