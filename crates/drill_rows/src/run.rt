ghost use Rattle.std.specs.Prelude.{◌≡◌, List as Items, ℕ, false};

use leaf_edges::{Files, MemSink, MemSource, Source};
use leafd_cli::leafd_run;
use mem_disk::{MemFiles, SetClock};
use std::alloc::Global;
use std::process::Abort;
use std::test::Fail;

/// What a drill has to end with, to print, and to tell of it.
#[derive(Clone, Copy)]
pub struct Want<'a> {
    /// The number of the status. Its line is what is told.
    pub number: u8,
    pub out: &'a [u8],
    pub err: &'a [u8],
}

/// Runs `leafd drill` over a script.
pub fn check(rt: &impl Abort, alloc: Global, script: &[u8], want: &Want<'_>) -> Result<(), Fail> {
    let input = MemSource::new(script.to_vec(alloc)?, Vec::new(alloc));
    let out = MemSink::new(Vec::new(alloc), Vec::new(alloc));
    check_with(rt, alloc, &["drill"], input, out, want)
}

/// Runs the command of these words.
pub fn check_with<S: Source>(
    rt: &impl Abort,
    alloc: Global,
    words: &[&str],
    input: S,
    out: MemSink,
    want: &Want<'_>,
) -> Result<(), Fail> {
    let files = MemFiles::new(alloc, Vec::new(alloc), Vec::new(alloc), Vec::new(alloc));
    check_over(rt, alloc, words, input, files, out, want)
}

/// Runs the command of these words over these files.
pub fn check_over<S: Source, F: Files>(
    rt: &impl Abort,
    alloc: Global,
    words: &[&str],
    input: S,
    files: F,
    out: MemSink,
    want: &Want<'_>,
) -> Result<(), Fail>
    requires { F.tells → (name : Items ℕ) → F.is_out files name ≡ false }
{
    let mut input = input;
    let mut files = files;
    let mut out = out;
    let mut err = MemSink::new(Vec::new(alloc), Vec::new(alloc));
    let mut texts = Vec::new(alloc);
    for word in words {
        texts.push(String::from_str(alloc, word)?)?;
    }
    let mut clock = SetClock::new(Vec::new(alloc));
    let status = leafd_run(
        alloc, &texts, &mut input, &mut out, &mut err, &mut files, &mut clock,
    );
    assert_eq!(rt; status.number(), want.number);
    assert_eq!(rt; out.bytes(), want.out);
    assert_eq!(rt; err.bytes(), want.err);
    Ok(())
}
