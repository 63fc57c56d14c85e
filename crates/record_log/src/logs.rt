ghost use Rattle.std.specs.Prelude.{◌≡◌, ◌+◌, ◌≤◌, ◌∷◌, ◌++◌, [], ℕ, Bool, true, false, List as Items, Ok, IfOk, IfErr, OnOk, OnErr, IsErrOf, length};
ghost use Rattle.leaf_edges.specs.Disks.{LeavesOnly};
ghost use Rattle.gate_journal.specs.Areas.{max_body, max_area};
ghost use Rattle.gate_journal.specs.Journals.{Stands, IsBeforeOrAfter, Does, WriteFaults, append_calls, with_body};
ghost use Rattle.mem_disk.specs.MemDisks.{DiskState};
ghost use Rattle.record_codec.specs.declared.records.Rec.{Rec as Record};
ghost use Rattle.record_codec.specs.Reading.{reading};
ghost use Rattle.shard_machine.specs.Legal.{MayFollow};
ghost use Rattle.record_log.specs.LogStates.{in_use, counted, uncounted};
ghost use Rattle.record_log.specs.Standing.{EachStandsFor, SinceStandFor, SinceStandOrTorn, IsUntorn};
ghost use Rattle.record_log.specs.Appending.{Extends, IsShut};
ghost use Rattle.record_log.specs.Opening.{Opened, FailsBy, IsOfCalls, OpenCauses, OpenDoes, Tallies, OnBoth, fault_alone};
ghost use Rattle.record_log.specs.Fuses.{fused};

use crate::opening::{Loaded, load_disks, tallied};
use crate::{AppendFault, OpenFault};
use gate_journal::Journal;
use leaf_edges::Disk;
use log_replay::Replay;
use mem_disk::{Fate, MemDisk};
use std::alloc::Global;
use std::marker::Model;

/// The log of a shard on its two disks. Contracts see the disks, which of them counts, whether the log
/// is open, the place where its journal ends, and how many calls of the disks failed. A log that isn't
/// open is opened again before anything is appended.
#[derive(Drop)]
pub struct RecordLog<D: Disk> {
    alloc: Global,
    main: D,
    spare: D,
    /// Whether the journal is that of the spare.
    on_spare: bool,
    /// The journal of the disk that counts, where the log is open.
    journal: Option<Journal>,
    faults: u64,
}

impl<D: Disk> Model for RecordLog<D> {
    ghost use Rattle.record_log.specs.LogStates.{LogState, log_code};

    ghost Value = { LogState D };

    ghost coded = { log_code D.code };

    ghost use Rattle.std.specs.Prelude.{is_some, ◌<◌, ◌^◌};
    ghost use Rattle.record_log.specs.Serving.{Serves, end_in};

    ghost view = { λ l. record { main = l.main; spare = l.spare; on_spare = l.on_spare; is_open = is_some l.journal; end = end_in l.journal; faults = l.faults } };

    ghost invariant = { λ l. Serves D.tells D.images l.main l.spare l.on_spare l.journal };
}

/// Adds a body to the journal on the disk that counts. The other one isn't called.
fn append_in_use<D: Disk>(
    journal: &mut Journal,
    main: &mut D,
    spare: &mut D,
    on_spare: bool,
    body: &[u8],
) -> Result<(), AppendFault>
    requires some { 1 ≤ length body.now }
    requires most { length body.now ≤ max_body }
    requires room { journal.old.end + 6 + length body.now ≤ max_area }
    requires stands { D.tells → (bodies : Items (Items ℕ)) × Stands D.images (in_use on_spare main.old spare.old) journal.old bodies }
    ensures any_moment { (bodies : Items (Items ℕ)) → D.tells → Stands D.images (in_use on_spare main.old spare.old) journal.old bodies →
        LeavesOnly D.moment D.left_since (in_use on_spare main.old spare.old) (in_use on_spare main.new spare.new) (IsBeforeOrAfter journal.old.generation bodies body.now) }
    ensures ok { (bodies : Items (Items ℕ)) → D.tells → Stands D.images (in_use on_spare main.old spare.old) journal.old bodies →
        OnOk result (Stands D.images (in_use on_spare main.new spare.new) journal.new (bodies ++ body.now ∷ [])) }
    ensures memory { (bodies : Items (Items ℕ)) → D.tells → Stands D.images (in_use on_spare main.old spare.old) journal.old bodies →
        IsErrOf result AppendFault.NoMemory → Stands D.images (in_use on_spare main.new spare.new) journal.new bodies }
    ensures grows { OnOk result (journal.new ≡ with_body journal.old body.now) }
    ensures journal { OnErr result (journal.new ≡ journal.old) }
    ensures one { in_use on_spare spare.new main.new ≡ in_use on_spare spare.old main.old }
    ensures calls { D.tells → Does D.done D.failed (in_use on_spare main.old spare.old) (in_use on_spare main.new spare.new) (append_calls journal.old.end body.now) result }
    ensures cause { WriteFaults (D.faults (in_use on_spare main.old spare.old)) (D.faults (in_use on_spare main.new spare.new)) result }
    ensures leads { D.leads main.old main.new × D.leads spare.old spare.new }
{
    if on_spare {
        journal.append(spare, body)
    } else {
        journal.append(main, body)
    }
}

impl<D: Disk> RecordLog<D> {
    /// Opens the log of two disks, and replays it. An empty disk is formatted before it is read: the main
    /// one counts then, and the spare doesn't.
    ///
    /// Each fault gives the disks back. `TooLong` comes before `BadJournal`, and of one kind the fault of
    /// the main disk comes first. A crash while an empty disk is formatted may leave a part of the new
    /// area, or other bytes in its place, of which the next opening is `BadJournal` unless they are an
    /// area.
    pub fn open(
        alloc: Global,
        mut main: D,
        mut spare: D,
    ) -> Result<(RecordLog<D>, Replay), (OpenFault, D, D)>
        ensures opened { IfOk result (λ found. Opened D.tells D.seen D.images main spare found.1 found.0) }
        ensures counts { IfOk result (λ found. found.0.faults ≡ 0) }
        ensures fault { D.tells → IfErr result (λ failed. FailsBy (D.seen main) (D.seen spare) failed.0) }
        // Disks that stood for a log aren't refused for what they hold.
        ensures stood { (logs : Items (Items Record)) → D.tells → EachStandsFor D.images main spare logs → IfErr result (λ failed. IsOfCalls failed.0) }
        // Whatever logs the disks stood for, they stand for at each moment, but for a torn write of the new
        // area on a disk that was empty.
        ensures any_moment { (t u : ℕ) (logs : Items (Items Record)) → D.tells → t ≤ D.moment main → u ≤ D.moment spare →
            SinceStandFor D.left_since t u main spare logs → OnBoth (SinceStandOrTorn D.seen D.images D.left_since t u main spare logs) result }
        ensures later { D.tells → OnBoth (λ m s. (D.moment main ≤ D.moment m) × (D.moment spare ≤ D.moment s)) result }
        ensures calls { D.tells → OnBoth (λ m s. OpenDoes D.seen D.unsynced D.done main spare m s (fault_alone result)) result }
        ensures cause { OnBoth (λ m s. OpenCauses D.faults main spare m s (fault_alone result)) result }
        ensures leads { OnBoth (λ m s. D.leads main m × D.leads spare s) result }
    {
        match load_disks(alloc, &mut main, &mut spare) {
            Ok(found) => {
                let Loaded {
                    journal,
                    on_spare,
                    replay,
                } = found;
                let log = RecordLog {
                    alloc,
                    main,
                    spare,
                    on_spare,
                    journal: Some(journal),
                    faults: 0,
                };
                Ok((log, replay))
            }
            Err(fault) => Err((fault, main, spare)),
        }
    }

    /// Opens the log again, after a fault of a disk or at any other time, and replays it. At a fault it
    /// isn't open afterwards.
    pub fn reopen(&mut self) -> Result<Replay, OpenFault>
        ensures opened { IfOk result (λ replay. Opened D.tells D.seen D.images self.old.main self.old.spare replay self.new) }
        ensures shut { OnErr result (IsShut self.new) }
        ensures fault { D.tells → IfErr result (FailsBy (D.seen self.old.main) (D.seen self.old.spare)) }
        // Disks that stood for a log aren't refused for what they hold.
        ensures stood { (logs : Items (Items Record)) → D.tells → EachStandsFor D.images self.old.main self.old.spare logs → IfErr result IsOfCalls }
        // Whatever logs the disks stood for, they stand for at each moment, and now.
        ensures any_moment { (t u : ℕ) (logs : Items (Items Record)) → D.tells → t ≤ D.moment self.old.main → u ≤ D.moment self.old.spare →
            SinceStandFor D.left_since t u self.old.main self.old.spare logs → SinceStandFor D.left_since t u self.new.main self.new.spare logs }
        ensures now { (logs : Items (Items Record)) → D.tells → EachStandsFor D.images self.old.main self.old.spare logs → EachStandsFor D.images self.new.main self.new.spare logs }
        ensures later { D.tells → (D.moment self.old.main ≤ D.moment self.new.main) × (D.moment self.old.spare ≤ D.moment self.new.spare) }
        ensures calls { D.tells → OpenDoes D.seen D.unsynced D.done self.old.main self.old.spare self.new.main self.new.spare result }
        ensures cause { OpenCauses D.faults self.old.main self.old.spare self.new.main self.new.spare result }
        ensures tally { Tallies self.old.faults self.new.faults result }
        ensures leads { D.leads self.old.main self.new.main × D.leads self.old.spare self.new.spare }
    {
        match load_disks(self.alloc, &mut self.main, &mut self.spare) {
            Ok(found) => {
                let Loaded {
                    journal,
                    on_spare,
                    replay,
                } = found;
                self.journal = Some(journal);
                self.on_spare = on_spare;
                Ok(replay)
            }
            Err(fault) => {
                self.journal = None;
                self.faults = tallied(self.faults, fault);
                Err(fault)
            }
        }
    }

    /// Adds the body of a record, 1 to 2,097,152 bytes, to an open log, whose journal has at most `2^40`
    /// bytes with it. After `DiskFault` the log isn't open, and its record may be there or not, as the next
    /// opening tells; after `NoMemory` it isn't there, and the log is open.
    pub fn append(&mut self, body: &[u8]) -> Result<(), AppendFault>
        requires is_open { self.old.is_open ≡ true }
        requires some { 1 ≤ length body.now }
        requires most { length body.now ≤ max_body }
        requires room { self.old.end + 6 + length body.now ≤ max_area }
        // Whatever logs the disks stood for, and the log of now with the record, they stand for at each
        // moment.
        ensures any_moment { (t u : ℕ) (log : Items Record) (it : Record) (logs : Items (Items Record)) → D.tells → t ≤ D.moment self.old.main → u ≤ D.moment self.old.spare →
            EachStandsFor D.images self.old.main self.old.spare (log ∷ []) → reading body.now ≡ Ok it → MayFollow log it →
            SinceStandFor D.left_since t u self.old.main self.old.spare logs → SinceStandFor D.left_since t u self.new.main self.new.spare ((log ++ it ∷ []) ∷ logs) }
        // The same since the opening of two disks began, but for a torn write of the new area on one that was
        // empty then.
        ensures since_opened { (t u : ℕ) (main spare : D) (log : Items Record) (it : Record) (logs : Items (Items Record)) → D.tells → t ≤ D.moment self.old.main → u ≤ D.moment self.old.spare →
            EachStandsFor D.images self.old.main self.old.spare (log ∷ []) → reading body.now ≡ Ok it → MayFollow log it →
            IsUntorn D.seen D.images true main self.old.main → IsUntorn D.seen D.images false spare self.old.spare →
            SinceStandOrTorn D.seen D.images D.left_since t u main spare logs self.old.main self.old.spare → SinceStandOrTorn D.seen D.images D.left_since t u main spare ((log ++ it ∷ []) ∷ logs) self.new.main self.new.spare }
        ensures now { (log : Items Record) (it : Record) → D.tells → EachStandsFor D.images self.old.main self.old.spare (log ∷ []) → reading body.now ≡ Ok it → MayFollow log it →
            EachStandsFor D.images self.new.main self.new.spare ((log ++ it ∷ []) ∷ log ∷ []) }
        ensures ok { (log : Items Record) (it : Record) → D.tells → EachStandsFor D.images self.old.main self.old.spare (log ∷ []) → reading body.now ≡ Ok it → MayFollow log it →
            OnOk result (EachStandsFor D.images self.new.main self.new.spare ((log ++ it ∷ []) ∷ [])) }
        ensures memory { (log : Items Record) → D.tells → EachStandsFor D.images self.old.main self.old.spare (log ∷ []) →
            IsErrOf result AppendFault.NoMemory → EachStandsFor D.images self.new.main self.new.spare (log ∷ []) }
        ensures becomes { Extends self.old self.new body.now result }
        ensures disk { self.new.on_spare ≡ self.old.on_spare }
        ensures one { uncounted self.new ≡ uncounted self.old }
        ensures later { D.tells → (D.moment self.old.main ≤ D.moment self.new.main) × (D.moment self.old.spare ≤ D.moment self.new.spare) }
        ensures calls { D.tells → Does D.done D.failed (counted self.old) (counted self.new) (append_calls self.old.end body.now) result }
        ensures cause { WriteFaults (D.faults (counted self.old)) (D.faults (counted self.new)) result }
        ensures tally { WriteFaults self.old.faults self.new.faults result }
        ensures leads { D.leads self.old.main self.new.main × D.leads self.old.spare self.new.spare }
    {
        let mut journal = self.journal.take().unwrap();
        let appended = append_in_use(
            &mut journal,
            &mut self.main,
            &mut self.spare,
            self.on_spare,
            body,
        );
        match appended {
            Ok(()) => {
                self.journal = Some(journal);
                Ok(())
            }
            Err(AppendFault::NoMemory) => {
                self.journal = Some(journal);
                Err(AppendFault::NoMemory)
            }
            Err(AppendFault::DiskFault) => {
                self.faults = self.faults.saturating_add(1);
                Err(AppendFault::DiskFault)
            }
        }
    }

    /// Whether it is open.
    pub fn is_open(&self) -> bool
        ensures { result ≡ self.now.is_open }
    {
        self.journal.is_some()
    }

    /// The place of the closed gate behind the last record, in bytes; 0 where it isn't open.
    pub fn end(&self) -> u64
        ensures { result ≡ self.now.end }
    {
        match &self.journal {
            Some(journal) => journal.end(),
            None => 0,
        }
    }

    /// How many calls of the disks failed since the log was first opened, up to `2^64 - 1`.
    pub fn faults(&self) -> u64
        ensures { result ≡ self.now.faults }
    {
        self.faults
    }

    /// Gives the disks back, the main one first.
    pub fn close(self) -> (D, D)
        ensures { result ≡ (self.main, self.spare) }
    {
        let RecordLog { main, spare, .. } = self;
        (main, spare)
    }
}

impl RecordLog<MemDisk> {
    /// Sets the fuse of the disk that counts, and with 0 takes the fuses of both away.
    pub fn fuse(&mut self, call: u64, fate: Fate)
        ensures { self.new ≡ fused self.old call fate }
    {
        if call == 0 {
            self.main.fuse(0, fate);
            self.spare.fuse(0, fate);
        } else if self.on_spare {
            self.spare.fuse(call, fate);
        } else {
            self.main.fuse(call, fate);
        }
    }
}
