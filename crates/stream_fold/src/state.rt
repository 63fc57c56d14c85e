ghost use Rattle.std.specs.Prelude.{◌≡◌, ◌<◌, ◌+◌, ◌^◌, ◌↔◌, [], length, IsTrue, IfOk, OnOk, OnErr};
ghost use Rattle.std.specs.Option.{option_copied, unwrap_or};
ghost use Rattle.nats_text.specs.Sizes.{size};
ghost use Rattle.stream_fold.specs.Histories.{History, with_entry, message_at, size_of};
ghost use Rattle.stream_fold.specs.Copying.{binding_at, mark, mark_in, origin_named, start_of};
ghost use Rattle.stream_fold.specs.Publishing.{GivesVerdict, verdict, last_of, next_match};
ghost use Rattle.stream_fold.specs.declared.entry.Entry.{Entry};
ghost use Rattle.stream_fold.specs.Fits.{Fits, KeepsMembers, index_count};
ghost use Rattle.stream_fold.specs.Held.{StandsFor, HasRoom, first_of, id_of, sent_id, size_put, transform_of};
ghost use Rattle.stream_fold.specs.RowLists.{from_number, seqs, Rises};
ghost use Rattle.stream_fold.specs.Transforming.{other_subject, own_transform, stored_subject};

use crate::maps::transform_in;
use crate::parts::{Parts, change, reserve_one};
use crate::publish::{last_of, next_match, verdict};
use crate::rows::{Rows, message_of, rows_from};
use crate::same::same_copies;
use crate::{BoundTo, Config, Copies, Entry, Mark, Numbered, Refusal, Verdict};
use nats_text::{Bytes, List, Message, NoMemory, Origin, Pattern, Start, Subject};
use std::alloc::Global;
use std::marker::Model;
use subject_transform::Transform;

/// What a history leaves: the configuration in force, the messages that are kept, the last number,
/// the clock, what the copies are bound to and how far they have come, and what clients sent lately.
/// Contracts compare it with that history.
#[derive(Debug, Drop)]
pub struct StreamState {
    parts: Parts,
}

impl Model for StreamState {
    ghost use Rattle.stream_fold.specs.Held.{State};
    ghost use Rattle.stream_fold.specs.Parts.{state_in, IsWhole};

    ghost Value = { State };

    ghost view = { λ s. state_in s.parts };

    ghost invariant = { λ s. IsWhole s.parts };
}

impl StreamState {
    /// The state of a stream that was just made.
    pub fn new(alloc: Global, config: Config) -> Result<StreamState, NoMemory>
        ensures { IfOk result (λ state. StandsFor state (record { config = config; entries = [] })) }
    {
        let window = config.window;
        let transform = own_transform(alloc, &config)?;
        Ok(StreamState {
            parts: Parts {
                alloc,
                config,
                transform,
                window,
                rows: Rows::new(alloc),
                last: 0,
                clock: 0,
                bindings: Vec::new(alloc),
                marks: Vec::new(alloc),
                sent: Vec::new(alloc),
                spare: None,
                coming: None,
            },
        })
    }

    /// The configuration in force.
    pub fn config(&self) -> &Config
        ensures { result.now ≡ self.now.held.limits }
    {
        &self.parts.config
    }

    /// The greatest number put, else 0.
    pub fn last(&self) -> u64
        ensures value { result ≡ self.now.held.last }
        ensures bound { result < 2 ^ 63 }
    {
        self.parts.last
    }

    /// The greatest time of a message or moment of an expiry, else 0, in nanoseconds since 1970.
    pub fn clock(&self) -> u64
        ensures { result ≡ self.now.held.clock }
    {
        self.parts.clock
    }

    /// How many messages are kept.
    pub fn count(&self) -> u64
        ensures { result ≡ length self.now.held.rows }
    {
        self.rows().len() as u64
    }

    /// The sum of the sizes of the messages that are kept, in bytes.
    pub fn size(&self) -> u64
        ensures { result ≡ size_of self.now.held.rows }
    {
        self.parts.rows.total()
    }

    /// The least kept number, or one past the last where none is kept, or 0 where nothing was put.
    pub fn first(&self) -> u64
        ensures { result ≡ first_of self.now.held.rows self.now.held.last }
    {
        match self.rows().first() {
            Some(row) => row.seq,
            None if self.last() == 0 => 0,
            None => self.last() + 1,
        }
    }

    /// The message that is kept under a number.
    pub fn kept(&self, seq: u64) -> Option<&Message>
        ensures { option_copied result ≡ message_at seq self.now.held.rows }
    {
        message_of(self.rows_from(seq), seq)
    }

    /// The messages that are kept, oldest first.
    pub fn rows(&self) -> &[Numbered]
        ensures { result.now ≡ self.now.held.rows }
    {
        self.parts.rows.as_slice()
    }

    /// The messages that are kept from a number on, oldest first.
    fn rows_from(&self, seq: u64) -> &[Numbered]
        ensures rows { result.now ≡ from_number seq self.now.held.rows }
        ensures rises { Rises seq (seqs result.now) }
    {
        rows_from(self.parts.rows.as_slice(), seq)
    }

    /// What an index of the copies is bound to.
    pub fn bound(&self, index: u32) -> Option<BoundTo>
        ensures { result ≡ binding_at index self.now.held.bindings }
    {
        for binding in &self.parts.bindings {
            if binding.index == index {
                return Some(binding.to);
            }
        }
        None
    }

    /// How far the copy of an index has come: the mark of its last message, else the number before the
    /// one where it starts.
    pub fn mark(&self, index: u32) -> u64
        ensures { (h : History) → StandsFor self.now h → result ≡ mark index h }
    {
        match last_mark(&self.parts.marks, index) {
            Some(seq) => seq,
            None => start_of(
                self.bound(index),
                origin_named(&self.config().copies, index),
            ) - 1,
        }
    }

    /// The subject under which the stream stores a message that was published under this one, where its
    /// transform makes one. `None`: the subject stays. Whether the stream takes a publish is asked of
    /// the subject under which it came, and everything else of this one.
    pub fn stored_subject(
        &self,
        alloc: Global,
        subject: &Subject,
    ) -> Result<Option<Subject>, NoMemory>
        ensures other { IfOk result (λ other. other ≡ other_subject self.now.held.limits.transform subject.now) }
        ensures stored { IfOk result (λ other. unwrap_or other subject.now ≡ stored_subject self.now.held.limits.transform subject.now) }
    {
        match &self.parts.transform {
            None => Ok(None),
            Some(transform) => transform.apply(alloc, subject),
        }
    }

    /// What a publish of this message, under the subject under which it would be stored, at this moment,
    /// in nanoseconds since 1970, is answered: whether it is new or a repeat, or the first refusal of
    /// those in the order of [`Refusal`], where the test for a repeat comes behind `WrongStream`.
    pub fn check(&self, alloc: Global, message: &Message, now: u64) -> Result<Verdict, Refusal>
        ensures { (h : History) → StandsFor self.now h → GivesVerdict result (verdict h message.now now) }
    {
        verdict(&self.parts, alloc, message, now)
    }

    /// The greatest kept number of a subject.
    pub fn last_of(&self, subject: &Subject) -> Option<u64>
        ensures { result ≡ last_of subject.now self.now.held.rows }
    {
        last_of(self.rows(), subject.bytes())
    }

    /// The least kept number at or after `from` of a subject that one of the filters matches. All
    /// subjects match where there is no filter.
    pub fn next_match(&self, from: u64, filters: &List<Pattern>) -> Option<u64>
        ensures { result ≡ next_match from filters.now self.now.held.rows }
    {
        next_match(from, filters.as_slice(), self.rows_from(from))
    }

    /// Whether an entry may come next: a Put has a number above the last and below `2^63`, and so has
    /// its mark; a Del names a kept number; a Bind names an index of the copies that isn't bound; a
    /// Limits keeps the name, the duplicate window and the copies.
    pub fn fits(&self, entry: &Entry) -> bool
        ensures { (h : History) → StandsFor self.now h → IsTrue result ↔ Fits h entry.now }
    {
        match entry {
            Entry::Put { seq, mark, .. } => {
                self.last() < *seq && *seq < 1 << 63 && mark.is_none_or(|mark| mark.seq < 1 << 63)
            }
            Entry::Del { seq } => self.kept(*seq).is_some(),
            Entry::Purge { .. } => true,
            Entry::Expire { .. } => true,
            Entry::Bind { index, .. } => {
                (*index as usize) < index_count(&self.config().copies)
                    && self.bound(*index).is_none()
            }
            Entry::Limits { config } => keeps_members(self.config(), config),
        }
    }

    /// Makes room for one entry, so that `apply` takes no memory. There is none either where the sum
    /// of the sizes would pass `2^64 - 1`. An error leaves the room that was made for another entry.
    pub fn reserve_for(&mut self, entry: &Entry) -> Result<(), NoMemory>
        ensures held { self.new.held ≡ self.old.held }
        ensures history { (h : History) → StandsFor self.old h → StandsFor self.new h }
        ensures ok { OnOk result (HasRoom self.new entry.now) }
        ensures err { OnErr result ((other : Entry) → HasRoom self.old other → HasRoom self.new other) }
    {
        if !sum_fits(self.size(), entry) {
            return Err(NoMemory);
        }
        let spare = id_of(self.parts.alloc, entry)?;
        let coming = transform_of(self.parts.alloc, entry)?;
        reserve_one(&mut self.parts)?;
        self.parts.spare = spare;
        self.parts.coming = coming;
        Ok(())
    }

    /// Takes an entry. The state then stands for the history with that entry.
    pub fn apply(&mut self, entry: Entry)
        requires fits { (h : History) × StandsFor self.old h × Fits h entry }
        requires room { HasRoom self.old entry }
        ensures history { (history : History) → StandsFor self.old history → StandsFor self.new (with_entry history entry) }
    {
        change(&mut self.parts, entry);
        self.parts.rows.drop_excess(&self.parts.config);
    }
}

fn last_mark(marks: &[Mark], index: u32) -> Option<u64>
    ensures { result ≡ mark_in index marks.now }
{
    for mark in marks {
        if mark.index == index {
            return Some(mark.seq);
        }
    }
    None
}

/// The origin that an index names.
fn origin_named(copies: &Copies, index: u32) -> Option<&Origin>
    ensures { option_copied result ≡ origin_named index copies.now }
{
    match copies {
        Copies::Nothing => None,
        Copies::Mirror(origin) => { if index == 0 { Some(origin) } else { None } }
        Copies::Sources(origins) => origins.get(index as usize),
    }
}

fn start_of(bound: Option<BoundTo>, origin: Option<&Origin>) -> u64
    ensures value { result ≡ start_of bound (option_copied origin.entry) }
    ensures positive { 0 < result }
{
    match (origin, bound) {
        (None, _) => 1,
        (Some(_), Some(to)) => to.start.max(1),
        (Some(origin), None) => match origin.start {
            Start::Seq(seq) => seq.max(1),
            Start::Time(_) => 1,
        },
    }
}

/// Whether the size of the entry's message and this sum have a sum of 64 bits.
fn sum_fits(sum: u64, entry: &Entry) -> bool
    ensures { IsTrue result ↔ sum + size_put entry.now < 2 ^ 64 }
{
    match entry {
        Entry::Put { message, .. } => message.left_of(u64::MAX - sum).is_some(),
        Entry::Del { .. } => true,
        Entry::Purge { .. } => true,
        Entry::Expire { .. } => true,
        Entry::Bind { .. } => true,
        Entry::Limits { .. } => true,
    }
}

/// The identifier under which a client sent the entry's message.
fn id_of(alloc: Global, entry: &Entry) -> Result<Option<Bytes>, NoMemory>
    ensures { IfOk result (λ id. id ≡ id_of entry.now) }
{
    match entry {
        Entry::Put { message, mark, .. } => sent_id(alloc, message, *mark),
        Entry::Del { .. } => Ok(None),
        Entry::Purge { .. } => Ok(None),
        Entry::Expire { .. } => Ok(None),
        Entry::Bind { .. } => Ok(None),
        Entry::Limits { .. } => Ok(None),
    }
}

fn sent_id(alloc: Global, message: &Message, mark: Option<Mark>) -> Result<Option<Bytes>, NoMemory>
    ensures { IfOk result (λ id. id ≡ sent_id message.now mark) }
{
    if mark.is_some() {
        return Ok(None);
    }
    match message.headers.get(b"Nats-Msg-Id") {
        Some(id) => Ok(Some(Bytes::from_slice(alloc, id)?)),
        None => Ok(None),
    }
}

/// The transform that the entry brings.
fn transform_of(alloc: Global, entry: &Entry) -> Result<Option<Transform>, NoMemory>
    ensures { IfOk result (λ transform. transform ≡ transform_of entry.now) }
{
    match entry {
        Entry::Put { .. } => Ok(None),
        Entry::Del { .. } => Ok(None),
        Entry::Purge { .. } => Ok(None),
        Entry::Expire { .. } => Ok(None),
        Entry::Bind { .. } => Ok(None),
        Entry::Limits { config } => own_transform(alloc, config),
    }
}

fn own_transform(alloc: Global, config: &Config) -> Result<Option<Transform>, NoMemory>
    ensures { IfOk result (λ transform. transform ≡ own_transform config.now.transform) }
{
    match &config.transform {
        None => Ok(None),
        Some(map) => transform_in(alloc, map),
    }
}

fn keeps_members(old: &Config, new: &Config) -> bool
    ensures { IsTrue result ↔ KeepsMembers old.now new.now }
{
    new.name == old.name && new.window == old.window && same_copies(&new.copies, &old.copies)
}

fn index_count(copies: &Copies) -> usize
    ensures { result ≡ index_count copies.now }
{
    match copies {
        Copies::Nothing => 0,
        Copies::Mirror(_) => 1,
        Copies::Sources(origins) => origins.len(),
    }
}
