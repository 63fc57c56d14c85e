ghost use Rattle.std.specs.Prelude.{◌≡◌, List as Items, ℕ, false, OnOk};

use leaf_edges::{Disk, EdgeError, Files, MemSink, MemSource};
use leafd_cli::leafd_run;
use mem_disk::{MemFiles, SetClock};
use std::alloc::Global;
use std::process::Abort;
use std::test::Fail;

/// What an inspection has to end with, to print, and to tell of it.
#[derive(Clone, Copy)]
pub struct Want<'a> {
    /// The number of the status. Its line is what is told.
    pub number: u8,
    pub out: &'a [u8],
    pub err: &'a [u8],
}

/// Writes a file of a store.
pub fn put_file<F: Files>(files: &mut F, name: &[u8], bytes: &[u8]) -> Result<(), EdgeError>
    requires { F.tells → (other : Items ℕ) → F.is_out files.old other ≡ false }
    ensures { F.tells → (other : Items ℕ) → F.is_out files.new other ≡ false }
{
    match files.disk(name, true) {
        Ok(Some(mut disk)) => {
            let written = disk.write_at(0, bytes);
            files.back(name, disk);
            written
        }
        Ok(None) => Err(EdgeError::Failed),
        Err(error) => Err(error),
    }
}

/// Runs `leafd inspect store` over the files of shard 0.
pub fn check_disks(
    rt: &impl Abort,
    alloc: Global,
    main: &[u8],
    spare: Option<&[u8]>,
    want: &Want<'_>,
) -> Result<(), Fail> {
    let mut files = MemFiles::new(alloc, Vec::new(alloc), Vec::new(alloc), Vec::new(alloc));
    put_file(&mut files, b"store/shard-0.a", main)?;
    if let Some(spare) = spare {
        put_file(&mut files, b"store/shard-0.b", spare)?;
    }
    let out = MemSink::new(Vec::new(alloc), Vec::new(alloc));
    check_files(rt, alloc, &mut files, out, want)
}

/// Runs `leafd inspect store` over these files.
pub fn check_files<F: Files>(
    rt: &impl Abort,
    alloc: Global,
    files: &mut F,
    out: MemSink,
    want: &Want<'_>,
) -> Result<(), Fail>
    requires { F.tells → (name : Items ℕ) → F.is_out files.old name ≡ false }
{
    let mut input = MemSource::new(Vec::new(alloc), Vec::new(alloc));
    let mut out = out;
    let mut err = MemSink::new(Vec::new(alloc), Vec::new(alloc));
    let mut clock = SetClock::new(Vec::new(alloc));
    let mut words = Vec::new(alloc);
    words.push(String::from_str(alloc, "inspect")?)?;
    words.push(String::from_str(alloc, "store")?)?;
    let status = leafd_run(
        alloc, &words, &mut input, &mut out, &mut err, files, &mut clock,
    );
    assert_eq!(rt; status.number(), want.number);
    assert_eq!(rt; out.bytes(), want.out);
    assert_eq!(rt; err.bytes(), want.err);
    Ok(())
}
