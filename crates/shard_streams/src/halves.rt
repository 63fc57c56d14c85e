ghost use Rattle.std.specs.Prelude.{◌≡◌, ◌≤◌, ◌<◌, ◌+◌, ◌^◌, ◌++◌, [], ℕ, List as Items, IfOk, OnOk, IsSome, None, Some, vec_len};
ghost use Rattle.std.specs.Vec.{vec_capacity};
ghost use Rattle.stream_fold.specs.declared.config.Config.{Config as Limits};
ghost use Rattle.stream_fold.specs.declared.entry.Entry.{Entry as Change};
ghost use Rattle.stream_fold.specs.Held.{HasRoom, StandsFor};
ghost use Rattle.record_codec.specs.declared.records.Rec.TheVariants as rec;
ghost use Rattle.log_replay.specs.Replays.{found};
ghost use Rattle.shard_machine.specs.Images.{LogImage, MayChangeIn, MayFollowImage, NameFacts, entered, live_in, next};
ghost use Rattle.shard_machine.specs.Views.{count_gone, entry_notices, removed_notice};
ghost use Rattle.shard_streams.specs.HeldImages.{HoldsImage, HoldsStream, IsStreamOf};
ghost use Rattle.shard_streams.specs.Places.{HasPlaceFor, IsFree, MayTake, stored_notices, stored_number};

use crate::Streams;
use log_replay::{Known, Standing};
use nats_text::{List, Name, NoMemory};
use record_codec::Rec;
use std::alloc::Global;
use stream_fold::{Config, Entry, StreamState};
use tap_row::Notice;

/// How many notices there are at most of an entry.
const MOST_NOTICES: usize = 2;

/// A stream that is to be made, once its record is in the journal.
#[derive(Drop)]
pub struct PreparedCreate {
    pub(crate) rec: Rec,
    pub(crate) state: StreamState,
}

/// An entry that a stream is to take, once its record is in the journal.
#[derive(Drop)]
pub struct PreparedEntry {
    pub(crate) rec: Rec,
    pub(crate) copy: Entry,
    pub(crate) told: Name,
    pub(crate) notices: Vec<Notice>,
}

/// What an entry needs beside its stream: the name for its record and for what is told, place for that,
/// and a copy for the reply.
#[derive(Drop)]
struct Space {
    name: Name,
    told: Name,
    notices: Vec<Notice>,
    copy: Entry,
}

impl PreparedCreate {
    /// The record to append.
    pub fn record(&self) -> &Rec
        ensures { result.now ≡ self.now.rec }
    {
        &self.rec
    }

    /// The state of the stream.
    pub fn state(&self) -> &StreamState
        ensures { result.now ≡ self.now.state }
    {
        &self.state
    }

    /// The record, where it isn't known whether the journal has it.
    pub fn into_doubt(self) -> Rec
        ensures { result ≡ self.rec }
    {
        let PreparedCreate { rec, state: _ } = self;
        rec
    }
}

impl PreparedEntry {
    /// The record to append.
    pub fn record(&self) -> &Rec
        ensures { result.now ≡ self.now.rec }
    {
        &self.rec
    }

    /// The record and its entry, where it isn't known whether the journal has it.
    pub fn into_doubt(self) -> (Rec, Entry)
        ensures rec { result.0 ≡ self.rec }
        ensures entry { result.1 ≡ self.copy }
    {
        let PreparedEntry {
            rec,
            copy,
            told: _,
            notices: _,
        } = self;
        (rec, copy)
    }
}

impl Streams {
    ghost use Rattle.shard_streams.specs.Halves.{IsMadeReady, IsPrepared};

    /// Takes all the memory that an entry needs of the stream that stands under the name. What is held
    /// stays as it was, also at an error.
    pub fn prepare_entry(&mut self, name: &Name, entry: Entry) -> Result<PreparedEntry, NoMemory>
        requires { (i : LogImage) × HoldsImage self.old.replay i × IsSome (live_in i name.now) }
        ensures held { (i : LogImage) → HoldsImage self.old.replay i → HoldsImage self.new.replay i }
        ensures ok { IfOk result (λ prepared. IsPrepared self.new.replay prepared name.now entry) }
    {
        self.reserve(name, &entry)?;
        let Space {
            name,
            told,
            notices,
            copy,
        } = space_for(self.alloc, name, &entry)?;
        Ok(PreparedEntry {
            rec: Rec::Of { name, entry },
            copy,
            told,
            notices,
        })
    }

    /// Makes place for the entry in the stream that stands under the name.
    fn reserve(&mut self, name: &Name, entry: &Entry) -> Result<(), NoMemory>
        requires { (i : LogImage) × HoldsImage self.old.replay i × IsSome (live_in i name.now) }
        ensures held { (i : LogImage) → HoldsImage self.old.replay i → HoldsImage self.new.replay i }
        ensures ok { OnOk result (MayTake entry.now (found name.now self.new.replay.names)) }
    {
        match self.replay.names.get_mut(name.bytes()) {
            None => Err(NoMemory),
            Some(known) => reserve_in(known, entry),
        }
    }

    /// Takes an entry that was prepared. The result has the entry, and what the taps are told of it.
    pub fn commit_entry(&mut self, prepared: PreparedEntry) -> (Entry, List<Notice>)
        requires prepared { (name : Items ℕ) × (entry : Change) × IsPrepared self.old.replay prepared name entry }
        requires follows { (i : LogImage) × HoldsImage self.old.replay i × MayFollowImage i prepared.rec }
        ensures held { (i : LogImage) → HoldsImage self.old.replay i → MayFollowImage i prepared.rec → HoldsImage self.new.replay (next i prepared.rec) }
        ensures entry { (name : Items ℕ) (entry : Change) → prepared.rec ≡ rec.Of name entry → result.0 ≡ entry }
        ensures notices { (i : LogImage) (name : Items ℕ) (entry : Change) (known : NameFacts) → HoldsImage self.old.replay i → MayFollowImage i prepared.rec → prepared.rec ≡ rec.Of name entry → live_in i name ≡ Some known → result.1 ≡ entry_notices name known.stream entry }
    {
        let PreparedEntry {
            rec,
            copy,
            told,
            notices,
        } = prepared;
        let (name, entry) = change_in(rec);
        let stored = number_put(&entry);
        let gone = self.take(&name, entry);
        (copy, notices_of(notices, told, stored, name, gone))
    }

    /// Takes an entry of the stream under the name, and counts the messages that go.
    fn take(&mut self, name: &Name, entry: Entry) -> u64
        requires place { MayTake entry (found name.now self.old.replay.names) }
        requires follows { (i : LogImage) × HoldsImage self.old.replay i × MayFollowImage i (rec.Of name.now entry) }
        ensures held { (i : LogImage) → HoldsImage self.old.replay i → MayFollowImage i (rec.Of name.now entry) → HoldsImage self.new.replay (next i (rec.Of name.now entry)) }
        ensures gone { (i : LogImage) (known : NameFacts) → HoldsImage self.old.replay i → MayFollowImage i (rec.Of name.now entry) → live_in i name.now ≡ Some known → result ≡ count_gone known.stream entry }
    {
        match self.replay.names.get_mut(name.bytes()) {
            None => 0,
            Some(known) => take_in(known, entry),
        }
    }

    /// Takes all the memory that a stream needs which is made at this moment, in nanoseconds since 1970.
    /// What is held stays as it was, also at an error.
    pub fn prepare_create(&mut self, config: &Config, now: u64) -> Result<PreparedCreate, NoMemory>
        requires { (i : LogImage) × HoldsImage self.old.replay i × (live_in i config.now.name ≡ None) }
        ensures held { (i : LogImage) → HoldsImage self.old.replay i → HoldsImage self.new.replay i }
        ensures ok { IfOk result (λ prepared. IsMadeReady self.new.replay prepared config.now now) }
    {
        self.make_place(&config.name)?;
        let state = new_state(self.alloc, config)?;
        prepared_create(config, now, state)
    }

    /// Makes a place under the name, unless there is one.
    fn make_place(&mut self, name: &Name) -> Result<(), NoMemory>
        requires { (i : LogImage) × HoldsImage self.old.replay i × (live_in i name.now ≡ None) }
        ensures held { (i : LogImage) → HoldsImage self.old.replay i → HoldsImage self.new.replay i }
        ensures ok { OnOk result (IsFree (found name.now self.new.replay.names)) }
    {
        if self.replay.names.contains_key(name.bytes()) {
            return Ok(());
        }
        let key = name.bytes().to_vec(self.alloc)?;
        let place = Known {
            incarnation: 0,
            stream: None,
        };
        self.replay.names.insert(key, place)?;
        Ok(())
    }

    /// Makes a stream that was prepared.
    pub fn commit_create(&mut self, prepared: PreparedCreate)
        requires prepared { (config : Limits) × (time : ℕ) × IsMadeReady self.old.replay prepared config time }
        requires follows { (i : LogImage) × HoldsImage self.old.replay i × MayFollowImage i prepared.rec }
        ensures { (i : LogImage) → HoldsImage self.old.replay i → MayFollowImage i prepared.rec → HoldsImage self.new.replay (next i prepared.rec) }
    {
        let PreparedCreate { rec, state } = prepared;
        let (created, config) = creation_in(rec);
        self.make(&config.name, Standing { created, state });
    }

    /// Makes this the stream under the name.
    fn make(&mut self, name: &Name, standing: Standing)
        requires place { IsFree (found name.now self.old.replay.names) }
        requires follows { (i : LogImage) × (config : Limits) × HoldsImage self.old.replay i × (config.name ≡ name.now) × StandsFor standing.state (record { config = config; entries = [] }) × MayFollowImage i (rec.Create standing.created config) }
        ensures { (i : LogImage) (config : Limits) → HoldsImage self.old.replay i → config.name ≡ name.now → StandsFor standing.state (record { config = config; entries = [] }) → MayFollowImage i (rec.Create standing.created config) → HoldsImage self.new.replay (next i (rec.Create standing.created config)) }
    {
        match self.replay.names.get_mut(name.bytes()) {
            None => drop(standing),
            Some(known) => make_in(known, standing),
        }
    }

    /// Takes the stream away that stands under the name, if one does.
    pub fn commit_remove(&mut self, name: &Name)
        ensures { (i : LogImage) → HoldsImage self.old.replay i → HoldsImage self.new.replay (next i (rec.Remove name.now)) }
    {
        match self.replay.names.get_mut(name.bytes()) {
            None => {}
            Some(known) => remove_in(known),
        }
    }

    /// Counts an opening of this number.
    pub fn commit_boot(&mut self, number: u64)
        ensures { (i : LogImage) → HoldsImage self.old.replay i → HoldsImage self.new.replay (next i (rec.Boot number)) }
    {
        self.replay.boot = number;
    }
}

/// Takes the memory that an entry needs beside its stream.
fn space_for(alloc: Global, name: &Name, entry: &Entry) -> Result<Space, NoMemory>
    ensures name { IfOk result (λ space. space.name ≡ name.now) }
    ensures told { IfOk result (λ space. space.told ≡ name.now) }
    ensures none_yet { IfOk result (λ space. space.notices.items ≡ []) }
    ensures notices { IfOk result (λ space. 2 ≤ vec_capacity space.notices) }
    ensures copied { IfOk result (λ space. space.copy ≡ entry.now) }
{
    let told = name.clone()?;
    let name = name.clone()?;
    let notices = Vec::with_capacity(alloc, MOST_NOTICES)?;
    let copy = entry.clone()?;
    Ok(Space {
        name,
        told,
        notices,
        copy,
    })
}

/// The state of a stream that was just made.
fn new_state(alloc: Global, config: &Config) -> Result<StreamState, NoMemory>
    ensures { IfOk result (λ state. StandsFor state (record { config = config.now; entries = [] })) }
{
    let config = config.clone()?;
    StreamState::new(alloc, config)
}

/// What is prepared of a creation: its record, and the state.
fn prepared_create(
    config: &Config,
    now: u64,
    state: StreamState,
) -> Result<PreparedCreate, NoMemory>
    ensures rec { IfOk result (λ prepared. prepared.rec ≡ rec.Create now config.now) }
    ensures state { IfOk result (λ prepared. prepared.state ≡ state) }
{
    let rec = creation_of(config, now)?;
    Ok(PreparedCreate { rec, state })
}

/// The record of a creation.
fn creation_of(config: &Config, now: u64) -> Result<Rec, NoMemory>
    ensures { IfOk result (λ it. it ≡ rec.Create now config.now) }
{
    let config = config.clone()?;
    Ok(Rec::Create { time: now, config })
}

/// The name and the entry of a change.
fn change_in(it: Rec) -> (Name, Entry)
    requires { (name : Items ℕ) × (entry : Change) × (it ≡ rec.Of name entry) }
    ensures { it ≡ rec.Of result.0 result.1 }
{
    match it {
        Rec::Of { name, entry } => (name, entry),
        Rec::Boot { .. } => unreachable!(),
        Rec::Create { .. } => unreachable!(),
        Rec::Remove { .. } => unreachable!(),
    }
}

/// The time and the configuration of a creation.
fn creation_in(it: Rec) -> (u64, Config)
    requires { (config : Limits) × (time : ℕ) × (it ≡ rec.Create time config) }
    ensures { it ≡ rec.Create result.0 result.1 }
{
    match it {
        Rec::Create { time, config } => (time, config),
        Rec::Boot { .. } => unreachable!(),
        Rec::Remove { .. } => unreachable!(),
        Rec::Of { .. } => unreachable!(),
    }
}

/// The number under which the entry stores a message.
fn number_put(entry: &Entry) -> Option<u64>
    ensures { result ≡ stored_number entry.now }
{
    match entry {
        Entry::Put { seq, .. } => Some(*seq),
        Entry::Del { .. } => None,
        Entry::Purge { .. } => None,
        Entry::Expire { .. } => None,
        Entry::Bind { .. } => None,
        Entry::Limits { .. } => None,
    }
}

/// What the taps are told where a message was stored under this number, and so many earlier ones went.
fn notices_of(
    notices: Vec<Notice>,
    told: Name,
    stored: Option<u64>,
    name: Name,
    gone: u64,
) -> List<Notice>
    requires none { notices.items ≡ [] }
    requires room { 2 ≤ vec_capacity notices }
    ensures { result ≡ stored_notices told stored ++ removed_notice name gone }
{
    let mut notices = notices;
    add_stored(&mut notices, told, stored);
    add_removed(&mut notices, name, gone);
    List::from_vec(notices)
}

fn add_stored(notices: &mut Vec<Notice>, stream: Name, stored: Option<u64>)
    requires { vec_len notices.old < vec_capacity notices.old }
    ensures items { notices.new.items ≡ notices.old.items ++ stored_notices stream stored }
    ensures len { vec_len notices.new ≤ vec_len notices.old + 1 }
    ensures capacity { vec_capacity notices.new ≡ vec_capacity notices.old }
{
    if let Some(seq) = stored {
        notices.push_reserved(Notice::Stored { stream, seq });
    }
}

fn add_removed(notices: &mut Vec<Notice>, stream: Name, count: u64)
    requires { vec_len notices.old < vec_capacity notices.old }
    ensures { notices.new.items ≡ notices.old.items ++ removed_notice stream count }
{
    if count != 0 {
        notices.push_reserved(Notice::Removed { stream, count });
    }
}

/// Makes place for the entry in the stream that is held.
fn reserve_in(known: &mut Known, entry: &Entry) -> Result<(), NoMemory>
    ensures incarnation { known.new.incarnation ≡ known.old.incarnation }
    ensures stream { (name : Items ℕ) (facts : NameFacts) → HoldsStream name known.old.stream facts → HoldsStream name known.new.stream facts }
    ensures same { known.old.stream ≡ None → known.new.stream ≡ None }
    ensures ok { OnOk result (IsSome known.old.stream → HasPlaceFor entry.now known.new.stream) }
{
    match &mut known.stream {
        None => Ok(()),
        Some(standing) => standing.state.reserve_for(entry),
    }
}

/// Takes an entry of the stream that is held, and counts the messages that go.
fn take_in(known: &mut Known, entry: Entry) -> u64
    requires place { HasPlaceFor entry known.old.stream }
    requires fits { (name : Items ℕ) × (facts : NameFacts) × HoldsStream name known.old.stream facts × MayChangeIn entry facts }
    ensures incarnation { known.new.incarnation ≡ known.old.incarnation }
    ensures stream { (name : Items ℕ) (facts : NameFacts) → HoldsStream name known.old.stream facts → MayChangeIn entry facts → HoldsStream name known.new.stream (entered entry facts) }
    ensures gone { (name : Items ℕ) (facts : NameFacts) → HoldsStream name known.old.stream facts → MayChangeIn entry facts → result ≡ count_gone facts.stream entry }
{
    match &mut known.stream {
        None => 0,
        Some(standing) => take_of(standing, entry),
    }
}

/// Takes an entry of the stream, and counts the messages that go.
fn take_of(standing: &mut Standing, entry: Entry) -> u64
    requires place { HasRoom standing.old.state entry }
    requires fits { (name : Items ℕ) × (facts : NameFacts) × IsStreamOf name standing.old facts × MayChangeIn entry facts }
    ensures stream { (name : Items ℕ) (facts : NameFacts) → IsStreamOf name standing.old facts → MayChangeIn entry facts → IsStreamOf name standing.new (entered entry facts) }
    ensures gone { (name : Items ℕ) (facts : NameFacts) → IsStreamOf name standing.old facts → MayChangeIn entry facts → result ≡ count_gone facts.stream entry }
{
    let before = standing.state.count();
    let stored = number_put(&entry);
    standing.state.apply(entry);
    let after = standing.state.count();
    match stored {
        None => before.saturating_sub(after),
        Some(_) => before.saturating_sub(after.saturating_sub(1)),
    }
}

/// Makes this the stream of a place that has none.
fn make_in(known: &mut Known, standing: Standing)
    requires { known.old.incarnation + 1 < 2 ^ 64 }
    ensures incarnation { known.new.incarnation ≡ known.old.incarnation + 1 }
    ensures stream { known.new.stream ≡ Some standing }
{
    known.incarnation += 1;
    known.stream = Some(standing);
}

fn remove_in(known: &mut Known)
    ensures incarnation { known.new.incarnation ≡ known.old.incarnation }
    ensures stream { known.new.stream ≡ None }
{
    known.stream = None;
}
