//! `leafd`: a message server for the edge. Its words, its streams and its exit number are those of
//! `leafd_cli::leafd_run`.
#![tactic(auto)]

ghost use Rattle.std.specs.Prelude.{◌≡◌, List as Items, ℕ, false, map};
ghost use Rattle.std.specs.String.{string_bytes};
ghost use Rattle.std.specs.Process.{exit_status};
ghost use Rattle.leafd_cli.specs.declared.status.Status.{Status};
ghost use Rattle.leafd_cli.specs.Folders.{contents};
ghost use Rattle.leafd_cli.specs.Outcome.{status_number, Tells};
ghost use Rattle.leafd_cli.specs.Runs.{Ends, shown};

use leaf_edges::{Clock, DirFiles, Files, Sink, Source, StdErr, StdIn, StdOut, SysClock};
use leafd_cli::{Status, leafd_run};
use std::alloc::{AllocError, Global};
use std::env;
use std::process::ExitCode;

fn main(rt: HostRuntime) -> ExitCode {
    let alloc = rt.alloc();
    let (Ok(words), Ok(folder)) = (words(rt, alloc), String::from_str(alloc, ".")) else {
        return ExitCode::from(Status::NoMemory.number());
    };
    let mut input = StdIn::new(rt.stdin());
    let mut out = StdOut::new(rt.stdout());
    let mut err = StdErr::new(rt.stderr());
    let mut files = DirFiles::new(rt, folder);
    let mut clock = SysClock::new(rt);
    run(
        alloc, &words, &mut input, &mut out, &mut err, &mut files, &mut clock,
    )
}

/// Does the command of the words, and ends with the number of its status.
fn run<I: Source, O: Sink, E: Sink, F: Files, K: Clock>(
    alloc: Global,
    words: &[String],
    input: &mut I,
    out: &mut O,
    err: &mut E,
    files: &mut F,
    clock: &mut K,
) -> ExitCode
    requires in_place { F.tells → (name : Items ℕ) → F.is_out files.old name ≡ false }
    ensures number { (status : Status) × (exit_status result ≡ status_number status) × Tells (E.taken err.old) (E.taken err.new) status
        × Ends (map string_bytes words.now) F.tells (contents F.place F.D.seen files.old) (F.text_of files.old)
        (shown (I.left input.old) (O.taken out.old) (I.faults input.old) (O.faults out.old) (F.faults files.old) (F.disk_faults files.old))
        (shown (I.left input.new) (O.taken out.new) (I.faults input.new) (O.faults out.new) (F.faults files.new) (F.disk_faults files.new)) status }
{
    let status = leafd_run(alloc, words, input, out, err, files, clock);
    ExitCode::from(status.number())
}

/// The words behind the program's name. Words that aren't text are no command, as if there were none.
fn words(rt: HostRuntime, alloc: Global) -> Result<Vec<String>, AllocError> {
    let mut words = Vec::new(alloc);
    let Ok(args) = env::args(&rt) else {
        return Ok(words);
    };
    for word in args.skip(1) {
        words.push(word)?;
    }
    Ok(words)
}
