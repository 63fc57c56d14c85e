ghost use Rattle.std.specs.Prelude.{◌++◌, ◌∷◌, codes, decimal};
ghost use Rattle.std.specs.List.{flat_map};
ghost use Rattle.leaf_edges.specs.Causes.{Pumps};
ghost use Rattle.leafd_script.specs.Kinds.{kind_word};
ghost use Rattle.subject_transform.specs.Kinds.{kind_word as transform_word};
ghost use Rattle.leafd_cli.specs.Outcome.{Tells, conf_fault};

use crate::Status;
use itoa::Buffer;
use leaf_edges::{EdgeError, Sink, pump_all};
use leafd_conf::ConfKind;
use leafd_script::ScriptKind;
use subject_transform::TransformKind;

const USAGE: &[u8] =
    b"leafd: usage: leafd drill | make NUMBER LINES | trial NUMBER LINES | check CONF | inspect DIR | map SRC DEST SUBJECT | serve CONF\n";

/// Writes the line of a status, without taking memory. A fault of the sink is passed over.
pub fn tell<E: Sink>(err: &mut E, status: &Status)
    ensures { Tells (E.taken err.old) (E.taken err.new) status.now }
{
    let _ = match status {
        Status::Done => Ok(()),
        Status::ScriptFault { line, kind } => tell_line(err, *line, *kind),
        Status::ConfFault { kind, member } => tell_conf(err, *kind, member.as_slice()),
        Status::Usage => pump_all(err, USAGE),
        Status::ReadFault => pump_all(err, b"leafd: read fault\n"),
        Status::WriteFault => pump_all(err, b"leafd: write fault\n"),
        Status::DiskFault => pump_all(err, b"leafd: disk fault\n"),
        Status::NoMemory => pump_all(err, b"leafd: out of memory\n"),
        Status::ScriptTooLong => pump_all(err, b"leafd: script too long\n"),
        Status::BadJournal { name, place } => tell_place(err, name.as_slice(), *place),
        Status::JournalTooLong { name, .. } => tell_file(err, name.as_slice()),
        Status::BadTransform { place, kind } => tell_transform(err, *place, *kind),
        Status::NoMatch => pump_all(err, b"leafd: no match\n"),
    };
}

/// Writes which line of a script isn't legal, and why.
fn tell_line<E: Sink>(err: &mut E, line: u64, kind: ScriptKind) -> Result<(), EdgeError>
    ensures { Pumps (E.taken err.old) (E.taken err.new) result (codes "leafd: line " ++ (decimal line ++ (codes ": " ++ (kind_word kind ++ codes "\n")))) }
{
    let mut digits = Buffer::new();
    let number = digits.format(line).as_bytes();
    let word = kind.word().as_bytes();
    pump_pieces(err, &[b"leafd: line ", number, b": ", word, b"\n"])
}

/// Writes what is wrong with a configuration file, and with which member.
fn tell_conf<E: Sink>(err: &mut E, kind: ConfKind, member: &[u8]) -> Result<(), EdgeError>
    ensures { Pumps (E.taken err.old) (E.taken err.new) result (codes "leafd: conf: " ++ conf_fault kind member.now) }
{
    match kind {
        ConfKind::NoFile | ConfKind::Syntax => tell_kind(err, kind.word().as_bytes()),
        ConfKind::Unknown | ConfKind::Missing | ConfKind::BadValue => {
            tell_member(err, kind.word().as_bytes(), member)
        }
    }
}

/// The line of a fault that is no member's.
fn tell_kind<E: Sink>(err: &mut E, word: &[u8]) -> Result<(), EdgeError>
    ensures { Pumps (E.taken err.old) (E.taken err.new) result (codes "leafd: conf: " ++ (word.now ++ codes "\n")) }
{
    pump_pieces(err, &[b"leafd: conf: ", word, b"\n"])
}

/// The line of a fault of a member.
fn tell_member<E: Sink>(err: &mut E, word: &[u8], member: &[u8]) -> Result<(), EdgeError>
    ensures { Pumps (E.taken err.old) (E.taken err.new) result (codes "leafd: conf: " ++ (word.now ++ 32 ∷ (member.now ++ codes "\n"))) }
{
    pump_pieces(err, &[b"leafd: conf: ", word, b" ", member, b"\n"])
}

/// Writes which file is no journal, and where.
fn tell_place<E: Sink>(err: &mut E, name: &[u8], place: u64) -> Result<(), EdgeError>
    ensures { Pumps (E.taken err.old) (E.taken err.new) result (codes "leafd: bad journal " ++ (name.now ++ (codes " at " ++ (decimal place ++ codes "\n")))) }
{
    let mut digits = Buffer::new();
    let number = digits.format(place).as_bytes();
    pump_pieces(err, &[b"leafd: bad journal ", name, b" at ", number, b"\n"])
}

/// Writes which file is too long.
fn tell_file<E: Sink>(err: &mut E, name: &[u8]) -> Result<(), EdgeError>
    ensures { Pumps (E.taken err.old) (E.taken err.new) result (codes "leafd: journal too long " ++ (name.now ++ codes "\n")) }
{
    pump_pieces(err, &[b"leafd: journal too long ", name, b"\n"])
}

/// Writes what is wrong with a transform, and where.
fn tell_transform<E: Sink>(err: &mut E, place: u64, kind: TransformKind) -> Result<(), EdgeError>
    ensures { Pumps (E.taken err.old) (E.taken err.new) result (codes "leafd: transform: " ++ (transform_word kind ++ (codes " at " ++ (decimal place ++ codes "\n")))) }
{
    let mut digits = Buffer::new();
    let number = digits.format(place).as_bytes();
    let word = kind.word().as_bytes();
    pump_pieces(err, &[b"leafd: transform: ", word, b" at ", number, b"\n"])
}

fn pump_pieces<E: Sink>(err: &mut E, pieces: &[&[u8]]) -> Result<(), EdgeError>
    ensures { Pumps (E.taken err.old) (E.taken err.new) result (flat_map (λ piece. piece.now) pieces.now) }
{
    for piece in pieces {
        match pump_all(err, piece) {
            Ok(()) => {}
            Err(error) => return Err(error),
        }
    }
    Ok(())
}
