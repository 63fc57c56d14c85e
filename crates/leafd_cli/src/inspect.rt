ghost use Rattle.std.specs.Prelude.{◌≡◌, ◌++◌, List as Items, ℕ, true, false, OnOk, IfOk, OnSome, MatchOption};
ghost use Rattle.leaf_edges.specs.Files.{GoesBack, CountsDisk};
ghost use Rattle.std.specs.List.{flat_map};
ghost use Rattle.record_log.specs.declared.fault.Part.TheVariants.{Spare as Second};
ghost use Rattle.leafd_cli.specs.Folders.{contents, KeepsFiles, file_name, path, part_text};
ghost use Rattle.leafd_cli.specs.Inspecting.{stream_text, shard_text, Inspects};
ghost use Rattle.leafd_cli.specs.Inspections.{Reports, Pushes, ReadsDisks, ReadsShard, HasRead, HasReadAll, TurnsInto, fault_status};
ghost use Rattle.leafd_cli.specs.Outcome.{CountsRead, CountsWrite, CountsDisks};
ghost use Rattle.leafd_cli.specs.declared.inspect.InspectFault.TheVariants.{NoMemory as WithoutMemory};

use crate::Status;
use crate::output::write_report;
use crate::report::{push_numbers, push_rows};
use crate::texts::{push_counted, push_number, push_text};
use leaf_edges::{EdgeError, Files, Sink};
use nats_text::{Bytes, List, NoMemory};
use shard_store::{Facts, Part, StoreFault, read_streams};
use std::alloc::Global;
use stream_fold::Numbered;

/// How many shards a store has.
const SHARDS: u64 = 8;

/// Why a store was not printed.
#[derive(Drop)]
pub(crate) enum InspectFault {
    /// The folder failed.
    Read,
    /// A disk failed.
    Disk,
    /// The file of this name is no journal.
    BadJournal { name: Bytes, place: u64 },
    /// The file of this name is too long.
    TooLong { name: Bytes, len: u64 },
    /// There was no memory.
    NoMemory,
}

impl From<NoMemory> for InspectFault {
    ghost from_gives = { λ _ fault. fault ≡ WithoutMemory };

    fn from(_: NoMemory) -> Self {
        InspectFault::NoMemory
    }
}

impl From<EdgeError> for InspectFault {
    ghost use Rattle.leafd_cli.specs.Inspections.{edge_fault};

    ghost from_gives = { λ error fault. fault ≡ edge_fault error };

    fn from(error: EdgeError) -> Self {
        match error {
            EdgeError::Failed => InspectFault::Read,
            EdgeError::NoMemory => InspectFault::NoMemory,
        }
    }
}

/// Prints what each shard of the store in a folder holds. All shards are read before anything is printed.
pub fn inspect<O: Sink, F: Files>(alloc: Global, dir: &[u8], files: &mut F, out: &mut O) -> Status
    requires in_place { F.tells → (name : Items ℕ) → F.is_out files.old name ≡ false }
    ensures report { Inspects F.tells (contents F.place F.D.seen files.old) dir.now (O.taken out.old) (O.taken out.new) result }
    ensures kept { F.tells → KeepsFiles F.place F.is_out F.D.seen files.old files.new }
    ensures leads { F.leads files.old files.new }
    ensures read { CountsRead (F.faults files.old) (F.faults files.new) result }
    ensures disk { CountsDisks (F.disk_faults files.old) (F.disk_faults files.new) result }
    ensures write { CountsWrite (O.faults out.old) (O.faults out.new) result }
{
    match report_of(alloc, dir, files) {
        Ok(report) => write_report(out, &report),
        Err(fault) => fault_status(fault),
    }
}

fn fault_status(fault: InspectFault) -> Status
    ensures { result ≡ fault_status fault }
{
    match fault {
        InspectFault::Read => Status::ReadFault,
        InspectFault::Disk => Status::DiskFault,
        InspectFault::BadJournal { name, place } => Status::BadJournal { name, place },
        InspectFault::TooLong { name, len } => Status::JournalTooLong { name, len },
        InspectFault::NoMemory => Status::NoMemory,
    }
}

/// What is printed of a store.
fn report_of<F: Files>(alloc: Global, dir: &[u8], files: &mut F) -> Result<Vec<u8>, InspectFault>
    requires in_place { F.tells → (name : Items ℕ) → F.is_out files.old name ≡ false }
    ensures report { Reports F.tells (contents F.place F.D.seen files.old) dir.now result }
    ensures kept { F.tells → KeepsFiles F.place F.is_out F.D.seen files.old files.new }
    ensures leads { F.leads files.old files.new }
    ensures cause { HasReadAll (F.faults files.old) (F.faults files.new) (F.disk_faults files.old) (F.disk_faults files.new) result }
{
    let mut report = Vec::new(alloc);
    for shard in 0..SHARDS {
        push_shard(alloc, &mut report, dir, shard, files)?;
    }
    Ok(report)
}

/// Adds what is printed of a shard: nothing where its first disk isn't there.
fn push_shard<F: Files>(
    alloc: Global,
    report: &mut Vec<u8>,
    dir: &[u8],
    shard: u64,
    files: &mut F,
) -> Result<(), InspectFault>
    requires in_place { F.tells → (name : Items ℕ) → F.is_out files.old name ≡ false }
    ensures text { Pushes F.tells (contents F.place F.D.seen files.old) dir.now shard report.old.items report.new.items result }
    ensures kept { F.tells → KeepsFiles F.place F.is_out F.D.seen files.old files.new }
    ensures leads { F.leads files.old files.new }
    ensures cause { HasReadAll (F.faults files.old) (F.faults files.new) (F.disk_faults files.old) (F.disk_faults files.new) result }
{
    match read_store(alloc, dir, shard, files)? {
        Some((boot, streams)) => {
            push_shard_text(alloc, report, shard, boot, streams.as_slice())?;
            Ok(())
        }
        None => Ok(()),
    }
}

/// Reads the streams of a shard, `None` where its first disk isn't there. Each disk is put back.
fn read_store<F: Files>(
    alloc: Global,
    dir: &[u8],
    shard: u64,
    files: &mut F,
) -> Result<Option<(u64, List<(Facts, List<Numbered>)>)>, InspectFault>
    requires in_place { F.tells → (name : Items ℕ) → F.is_out files.old name ≡ false }
    ensures answer { F.tells → ReadsShard (contents F.place F.D.seen files.old) dir.now shard result }
    ensures kept { F.tells → KeepsFiles F.place F.is_out F.D.seen files.old files.new }
    ensures leads { F.leads files.old files.new }
    ensures cause { HasReadAll (F.faults files.old) (F.faults files.new) (F.disk_faults files.old) (F.disk_faults files.new) result }
{
    let name = path(alloc, dir, shard, Part::Main)?;
    let Some(mut disk) = files.disk(&name, false)? else {
        return Ok(None);
    };
    let read = read_shard(alloc, dir, shard, files, &mut disk);
    files.back(&name, disk);
    match read {
        Ok(found) => Ok(Some(found)),
        Err(fault) => Err(fault),
    }
}

/// Reads the streams of a shard from its first disk and from its spare, which is put back.
fn read_shard<F: Files>(
    alloc: Global,
    dir: &[u8],
    shard: u64,
    files: &mut F,
    disk: &mut F::D,
) -> Result<(u64, List<(Facts, List<Numbered>)>), InspectFault>
    requires in_place { F.tells → F.is_out files.old (path dir.now shard Second) ≡ false }
    requires fresh { F.D.faults disk.old ≡ 0 }
    ensures answer { F.tells → ReadsDisks shard (F.D.seen disk.old) (contents F.place F.D.seen files.old (path dir.now shard Second)) result }
    ensures same { F.tells → F.D.seen disk.new ≡ F.D.seen disk.old }
    ensures disk_leads { F.D.leads disk.old disk.new }
    ensures kept { F.tells → KeepsFiles F.place F.is_out F.D.seen files.old files.new }
    ensures leads { F.leads files.old files.new }
    ensures cause { HasRead (F.D.faults disk.new) (F.faults files.old) (F.faults files.new) (F.disk_faults files.old) (F.disk_faults files.new) result }
{
    let name = path(alloc, dir, shard, Part::Spare)?;
    let mut spare = files.disk(&name, false)?;
    let read = read_streams(alloc, disk, &mut spare);
    put_back(files, &name, spare);
    match read {
        Ok(found) => Ok(found),
        Err(fault) => Err(fault_of(alloc, shard, fault)),
    }
}

/// Puts a disk back, if there is one.
fn put_back<F: Files>(files: &mut F, name: &[u8], disk: Option<F::D>)
    requires out { F.tells → OnSome disk (F.is_out files.old name.now ≡ true) }
    ensures leads { F.leads files.old files.new }
    ensures goes { F.tells → MatchOption disk (files.new ≡ files.old) (λ d. GoesBack F.place F.is_out F.handed F.text_of name.now d files.old files.new) }
    ensures faults { F.faults files.new ≡ F.faults files.old }
    ensures disk_faults { MatchOption disk (F.disk_faults files.new ≡ F.disk_faults files.old) (λ d. CountsDisk (F.D.faults d) (F.disk_faults files.old) (F.disk_faults files.new)) }
{
    if let Some(disk) = disk {
        files.back(name, disk);
    }
}

/// What is told of a shard's fault.
fn fault_of(alloc: Global, shard: u64, fault: StoreFault) -> InspectFault
    ensures { TurnsInto shard fault result }
{
    match fault {
        StoreFault::ReadFault => InspectFault::Disk,
        StoreFault::NoMemory => InspectFault::NoMemory,
        StoreFault::BadJournal { part, place } => match file_name(alloc, shard, part) {
            Ok(name) => InspectFault::BadJournal { name, place },
            Err(NoMemory) => InspectFault::NoMemory,
        },
        StoreFault::TooLong { part, len } => match file_name(alloc, shard, part) {
            Ok(name) => InspectFault::TooLong { name, len },
            Err(NoMemory) => InspectFault::NoMemory,
        },
    }
}

/// The name of a file of a shard.
fn file_name(alloc: Global, shard: u64, part: Part) -> Result<Bytes, NoMemory>
    ensures { IfOk result (λ name. name ≡ file_name shard part) }
{
    let mut name = Vec::new(alloc);
    push_file_name(&mut name, shard, part)?;
    Ok(Bytes::from_vec(name))
}

/// The name under which the files are asked for a file of a shard.
fn path(alloc: Global, dir: &[u8], shard: u64, part: Part) -> Result<Vec<u8>, NoMemory>
    ensures { IfOk result (λ name. name.items ≡ path dir.now shard part) }
{
    let mut name = Vec::from_slice(alloc, dir)?;
    push_text(&mut name, b"/")?;
    push_file_name(&mut name, shard, part)?;
    Ok(name)
}

fn push_file_name(name: &mut Vec<u8>, shard: u64, part: Part) -> Result<(), NoMemory>
    ensures { OnOk result (name.new.items ≡ name.old.items ++ file_name shard part) }
{
    push_text(name, b"shard-")?;
    push_number(name, shard)?;
    push_text(name, part_text(part))
}

fn part_text(part: Part) -> &'static [u8]
    ensures { result.now ≡ part_text part }
{
    match part {
        Part::Main => b".a",
        Part::Spare => b".b",
    }
}

fn push_shard_text(
    alloc: Global,
    report: &mut Vec<u8>,
    shard: u64,
    boot: u64,
    streams: &[(Facts, List<Numbered>)],
) -> Result<(), NoMemory>
    ensures { OnOk result (report.new.items ≡ report.old.items ++ shard_text shard boot streams.now) }
{
    push_counted(report, b"shard", shard)?;
    push_counted(report, b" boot", boot)?;
    push_counted(report, b" streams", streams.len() as u64)?;
    push_text(report, b"\n")?;
    push_streams(alloc, report, shard, streams)
}

fn push_streams(
    alloc: Global,
    report: &mut Vec<u8>,
    shard: u64,
    streams: &[(Facts, List<Numbered>)],
) -> Result<(), NoMemory>
    ensures { OnOk result (report.new.items ≡ report.old.items ++ flat_map (stream_text shard) streams.now) }
{
    for (facts, rows) in streams {
        push_stream(alloc, report, shard, facts, rows.as_slice())?;
    }
    Ok(())
}

fn push_stream(
    alloc: Global,
    report: &mut Vec<u8>,
    shard: u64,
    facts: &Facts,
    rows: &[Numbered],
) -> Result<(), NoMemory>
    ensures { OnOk result (report.new.items ≡ report.old.items ++ stream_text shard (facts.now, rows.now)) }
{
    push_counted(report, b"stream", shard)?;
    push_text(report, b" ")?;
    push_text(report, facts.config.name.bytes())?;
    push_numbers(report, facts.first, facts.last, facts.count)?;
    push_rows(alloc, report, rows)
}
