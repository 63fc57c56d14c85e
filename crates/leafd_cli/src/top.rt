ghost use Rattle.std.specs.Prelude.{◌≡◌, ◌≤◌, List as Items, ℕ, Some, false, length, map};
ghost use Rattle.std.specs.String.{string_bytes};
ghost use Rattle.leaf_edges.specs.Files.{SameFiles};
ghost use Rattle.leafd_words.specs.Commands.{command as named, command_of};
ghost use Rattle.leafd_cli.specs.declared.status.Status.TheVariants.{Usage};
ghost use Rattle.leafd_cli.specs.Reporting.{Prints};
ghost use Rattle.leafd_cli.specs.Folders.{contents, KeepsFiles};
ghost use Rattle.leafd_cli.specs.Runs.{ByCommand, Does, Ends, shown};
ghost use Rattle.leafd_cli.specs.Outcome.{Drills, Tells, CountsRead, CountsWrite, CountsDisks};

use crate::Status;
use crate::check::check;
use crate::drill::run_script;
use crate::input::{LONGEST, read_all};
use crate::inspect::inspect;
use crate::mapping::map_subject;
use crate::tell::tell;
use leaf_edges::{Clock, EdgeError, Files, Sink, Source};
use leafd_words::{Words, WordsFault, read_words};
use std::alloc::Global;

/// Does the command that the words name: `drill` reads a script from `input` and writes its report
/// to `out`; `check` with a file writes to `out` whether this configuration of `files` is that of a hub or of a
/// leaf; `inspect` with a folder writes to `out` what the store in this folder of `files` holds; `map` with
/// a source, a destination and a subject writes to `out` what this transform makes of the subject.
/// A word that begins with `-` is a value only behind the word `--`.
/// Every status but `Done` writes its line to `err`, where a fault is passed over. No command asks the
/// clock yet.
pub fn leafd_run<I: Source, O: Sink, E: Sink, F: Files, K: Clock>(
    alloc: Global,
    words: &[String],
    input: &mut I,
    out: &mut O,
    err: &mut E,
    files: &mut F,
    clock: &mut K,
) -> Status
    requires in_place { F.tells → (name : Items ℕ) → F.is_out files.old name ≡ false }

    ensures ends { Ends (map string_bytes words.now) F.tells (contents F.place F.D.seen files.old) (F.text_of files.old)
        (shown (I.left input.old) (O.taken out.old) (I.faults input.old) (O.faults out.old) (F.faults files.old) (F.disk_faults files.old))
        (shown (I.left input.new) (O.taken out.new) (I.faults input.new) (O.faults out.new) (F.faults files.new) (F.disk_faults files.new)) result }
    ensures told { Tells (E.taken err.old) (E.taken err.new) result }

    // What a command doesn't use stays, and what is used of the files is put back.
    ensures unused { ByCommand (command_of (map string_bytes words.now)) (files.new ≡ files.old)
        (λ _. (input.new ≡ input.old) × (F.tells → SameFiles F.place F.is_out F.handed F.text_of files.old files.new))
        (λ _. input.new ≡ input.old)
        (λ _. (files.new ≡ files.old) × (input.new ≡ input.old)) ((files.new ≡ files.old) × (input.new ≡ input.old)) }
    ensures kept { F.tells → KeepsFiles F.place F.is_out F.D.seen files.old files.new }
    ensures leads { F.leads files.old files.new }
    ensures clock { clock.new ≡ clock.old }
{
    let _ = clock;
    let status = command(alloc, words, input, out, files);
    tell(err, &status);
    status
}

/// Does the command that the words name.
fn command<I: Source, O: Sink, F: Files>(
    alloc: Global,
    words: &[String],
    input: &mut I,
    out: &mut O,
    files: &mut F,
) -> Status
    requires in_place { F.tells → (name : Items ℕ) → F.is_out files.old name ≡ false }
    ensures ends { Ends (map string_bytes words.now) F.tells (contents F.place F.D.seen files.old) (F.text_of files.old)
        (shown (I.left input.old) (O.taken out.old) (I.faults input.old) (O.faults out.old) (F.faults files.old) (F.disk_faults files.old))
        (shown (I.left input.new) (O.taken out.new) (I.faults input.new) (O.faults out.new) (F.faults files.new) (F.disk_faults files.new)) result }
    ensures unused { ByCommand (command_of (map string_bytes words.now)) (files.new ≡ files.old)
        (λ _. (input.new ≡ input.old) × (F.tells → SameFiles F.place F.is_out F.handed F.text_of files.old files.new))
        (λ _. input.new ≡ input.old)
        (λ _. (files.new ≡ files.old) × (input.new ≡ input.old)) ((files.new ≡ files.old) × (input.new ≡ input.old)) }
    ensures kept { F.tells → KeepsFiles F.place F.is_out F.D.seen files.old files.new }
    ensures leads { F.leads files.old files.new }
{
    match read_words(alloc, words) {
        Ok(read) => perform(alloc, read, input, out, files),
        Err(WordsFault::Usage) => Status::Usage,
        Err(WordsFault::NoMemory) => Status::NoMemory,
    }
}

/// Does a command.
fn perform<I: Source, O: Sink, F: Files>(
    alloc: Global,
    words: Words<'_>,
    input: &mut I,
    out: &mut O,
    files: &mut F,
) -> Status
    requires in_place { F.tells → (name : Items ℕ) → F.is_out files.old name ≡ false }
    ensures does { Does (Some (named words.entry)) F.tells (contents F.place F.D.seen files.old) (F.text_of files.old)
        (shown (I.left input.old) (O.taken out.old) (I.faults input.old) (O.faults out.old) (F.faults files.old) (F.disk_faults files.old))
        (shown (I.left input.new) (O.taken out.new) (I.faults input.new) (O.faults out.new) (F.faults files.new) (F.disk_faults files.new)) result }
    ensures usage { result ≡ Usage → ⊥ }
    ensures unused { ByCommand (Some (named words.entry)) (files.new ≡ files.old)
        (λ _. (input.new ≡ input.old) × (F.tells → SameFiles F.place F.is_out F.handed F.text_of files.old files.new))
        (λ _. input.new ≡ input.old)
        (λ _. (files.new ≡ files.old) × (input.new ≡ input.old)) ((files.new ≡ files.old) × (input.new ≡ input.old)) }
    ensures kept { F.tells → KeepsFiles F.place F.is_out F.D.seen files.old files.new }
    ensures leads { F.leads files.old files.new }
{
    match words {
        Words::Drill => drill(alloc, input, out),
        Words::Check { conf } => check(alloc, conf, files, out),
        Words::Inspect { dir } => inspect(alloc, dir, files, out),
        Words::Map { texts } => map_subject(alloc, texts, out),
    }
}

fn drill<I: Source, O: Sink>(alloc: Global, input: &mut I, out: &mut O) -> Status
    ensures report { Drills (I.left input.old) (I.left input.new) (O.taken out.old) (O.taken out.new) result }
    ensures usage { result ≡ Usage → ⊥ }
    ensures read { CountsRead (I.faults input.old) (I.faults input.new) result }
    ensures write { CountsWrite (O.faults out.old) (O.faults out.new) result }
    ensures disk { (before : ℕ) → CountsDisks before before result }
{
    let text = match read_all(alloc, input) {
        Ok(text) => text,
        Err(EdgeError::Failed) => return Status::ReadFault,
        Err(EdgeError::NoMemory) => return Status::NoMemory,
    };
    if text.len() > LONGEST {
        return Status::ScriptTooLong;
    }
    run_text(alloc, &text, out)
}

/// Runs a script that was read.
fn run_text<O: Sink>(alloc: Global, text: &[u8], out: &mut O) -> Status
    requires { length text.now ≤ 16777216 }
    ensures ran { Prints text.now (O.taken out.old) (O.taken out.new) result }
    ensures disk { (before : ℕ) → CountsDisks before before result }
    ensures write { CountsWrite (O.faults out.old) (O.faults out.new) result }
{
    match run_script(alloc, text, out) {
        Ok(None) => Status::Done,
        Ok(Some(stop)) => Status::ScriptFault {
            line: stop.line,
            kind: stop.kind,
        },
        Err(EdgeError::Failed) => Status::WriteFault,
        Err(EdgeError::NoMemory) => Status::NoMemory,
    }
}
