ghost use Rattle.std.specs.Prelude.{◌≡◌, ◌≤◌, ◌+◌, ◌∷◌, ◌++◌, [], ℕ, true, false, List as Items, OnOk, IsErrOf};
ghost use Rattle.record_codec.specs.declared.records.Rec.{Rec as Record};
ghost use Rattle.shard_machine.specs.Legal.{MayFollow};
ghost use Rattle.record_log.specs.LogStates.{uncounted};
ghost use Rattle.record_log.specs.Standing.{EachStandsFor, SinceStandFor, SinceStandOrTorn, IsUntorn};
ghost use Rattle.shard_calls.specs.Adding.{AddsAt, AddCauses, AddsCalls, EndsFor};

use leaf_edges::Disk;
use nats_text::NoMemory;
use record_codec::Rec;
use record_log::{AppendFault, RecordLog, prepare};
use std::alloc::Global;

/// The most bytes of a journal.
const MAX_JOURNAL: u64 = 1 << 40;

/// The most bytes of a record's body.
const MAX_BODY: usize = 2_097_152;

/// What a record needs beside its body: an open gate, the length in four bytes, and the closed gate behind it.
const FRAME_LEN: u64 = 6;

/// Why a record was not added.
#[derive(Clone, Copy, Debug, PartialEq, Eq)]
pub(crate) enum AddFault {
    /// The journal, whose closed gate is at `end`, has no room for `need` bytes more, or the record would
    /// make a number past `2^63 - 1`.
    Full { end: u64, need: u64 },
    /// There was no memory. The log is as before.
    NoMemory,
    /// A disk failed. The record may be in the log or not.
    DiskFault,
}

/// Adds a record to an open log; `numbered` tells whether the numbers that it makes are below `2^63`.
///
/// A record whose body has more than 2,097,152 bytes isn't added, as if there was no memory. A publish makes
/// one of a message with so long a header block and payload; callers keep them to 2,000,000 bytes together.
pub(crate) fn add<D: Disk>(
    alloc: Global,
    log: &mut RecordLog<D>,
    record: &Rec,
    numbered: bool,
) -> Result<(), AddFault>
    requires is_open { log.old.is_open ≡ true }
    ensures ends { AddsAt log.old log.new «record».now numbered result }
    ensures any_moment { (t u : ℕ) (before : Items Record) (logs : Items (Items Record)) → D.tells → t ≤ D.moment log.old.main → u ≤ D.moment log.old.spare →
        EachStandsFor D.images log.old.main log.old.spare (before ∷ []) → MayFollow before «record».now →
        SinceStandFor D.left_since t u log.old.main log.old.spare logs → SinceStandFor D.left_since t u log.new.main log.new.spare ((before ++ «record».now ∷ []) ∷ logs) }
    ensures since_opened { (t u : ℕ) (main spare : D) (before : Items Record) (logs : Items (Items Record)) → D.tells → t ≤ D.moment log.old.main → u ≤ D.moment log.old.spare →
        EachStandsFor D.images log.old.main log.old.spare (before ∷ []) → MayFollow before «record».now →
        IsUntorn D.seen D.images true main log.old.main → IsUntorn D.seen D.images false spare log.old.spare →
        SinceStandOrTorn D.seen D.images D.left_since t u main spare logs log.old.main log.old.spare → SinceStandOrTorn D.seen D.images D.left_since t u main spare ((before ++ «record».now ∷ []) ∷ logs) log.new.main log.new.spare }
    // Where it wasn't tried, or there was no memory, the log stays.
    ensures disks { (before : Items Record) → D.tells → EachStandsFor D.images log.old.main log.old.spare (before ∷ []) → MayFollow before «record».now →
        EachStandsFor D.images log.new.main log.new.spare (EndsFor before «record».now result) }
    ensures one { uncounted log.new ≡ uncounted log.old }
    ensures disk { log.new.on_spare ≡ log.old.on_spare }
    ensures later { D.tells → (D.moment log.old.main ≤ D.moment log.new.main) × (D.moment log.old.spare ≤ D.moment log.new.spare) }
    ensures calls { D.tells → AddsCalls D.done log.old log.new «record».now }
    ensures cause { AddCauses D.faults log.old log.new result }
    ensures leads { D.leads log.old.main log.new.main × D.leads log.old.spare log.new.spare }
{
    let Ok(body) = prepare(alloc, record) else {
        return Err(AddFault::NoMemory);
    };
    if body.len() > MAX_BODY {
        return Err(AddFault::NoMemory);
    }
    let end = log.end();
    let need = FRAME_LEN + body.len() as u64;
    if !numbered || MAX_JOURNAL - need < end {
        return Err(AddFault::Full { end, need });
    }
    match log.append(body.as_slice()) {
        Ok(()) => Ok(()),
        Err(AppendFault::NoMemory) => Err(AddFault::NoMemory),
        Err(AppendFault::DiskFault) => Err(AddFault::DiskFault),
    }
}

/// Adds an opening of this number to an open log, as by [`add`].
pub(crate) fn add_opening<D: Disk>(
    alloc: Global,
    log: &mut RecordLog<D>,
    number: u64,
    numbered: bool,
) -> Result<(), AddFault>
    requires is_open { log.old.is_open ≡ true }
    ensures ends { AddsAt log.old log.new (Record.Boot number) numbered result }
    ensures any_moment { (t u : ℕ) (before : Items Record) (logs : Items (Items Record)) → D.tells → t ≤ D.moment log.old.main → u ≤ D.moment log.old.spare →
        EachStandsFor D.images log.old.main log.old.spare (before ∷ []) → MayFollow before (Record.Boot number) →
        SinceStandFor D.left_since t u log.old.main log.old.spare logs → SinceStandFor D.left_since t u log.new.main log.new.spare ((before ++ (Record.Boot number) ∷ []) ∷ logs) }
    ensures since_opened { (t u : ℕ) (main spare : D) (before : Items Record) (logs : Items (Items Record)) → D.tells → t ≤ D.moment log.old.main → u ≤ D.moment log.old.spare →
        EachStandsFor D.images log.old.main log.old.spare (before ∷ []) → MayFollow before (Record.Boot number) →
        IsUntorn D.seen D.images true main log.old.main → IsUntorn D.seen D.images false spare log.old.spare →
        SinceStandOrTorn D.seen D.images D.left_since t u main spare logs log.old.main log.old.spare → SinceStandOrTorn D.seen D.images D.left_since t u main spare ((before ++ (Record.Boot number) ∷ []) ∷ logs) log.new.main log.new.spare }
    // Where it wasn't tried, or there was no memory, the log stays.
    ensures disks { (before : Items Record) → D.tells → EachStandsFor D.images log.old.main log.old.spare (before ∷ []) → MayFollow before (Record.Boot number) →
        EachStandsFor D.images log.new.main log.new.spare (EndsFor before (Record.Boot number) result) }
    ensures one { uncounted log.new ≡ uncounted log.old }
    ensures disk { log.new.on_spare ≡ log.old.on_spare }
    ensures later { D.tells → (D.moment log.old.main ≤ D.moment log.new.main) × (D.moment log.old.spare ≤ D.moment log.new.spare) }
    ensures calls { D.tells → AddsCalls D.done log.old log.new (Record.Boot number) }
    ensures cause { AddCauses D.faults log.old log.new result }
    ensures leads { D.leads log.old.main log.new.main × D.leads log.old.spare log.new.spare }
{
    let opening = Rec::Boot { boot: number };
    let added = add(alloc, log, &opening, numbered);
    drop(opening);
    added
}
