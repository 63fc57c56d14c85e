ghost use Rattle.std.specs.Prelude.{◌≡◌, ◌≤◌, ◌<◌, ◌+◌, ◌^◌, ◌↔◌, ◌∷◌, ◌++◌, [], ℕ, List as Items, Ok, None, Some, is_some, if◌then◌else◌, IfOk, OnOk, IsTrue, MatchBool, MatchOption};
ghost use Rattle.std.specs.Str.{bytes_eq};
ghost use Rattle.stream_fold.specs.Checking.{config_fault};
ghost use Rattle.stream_fold.specs.Histories.{History, with_entry};
ghost use Rattle.stream_fold.specs.Fits.{Fits};
ghost use Rattle.stream_fold.specs.Held.{StandsFor};
ghost use Rattle.record_codec.specs.declared.records.Rec.{Rec as Record};
ghost use Rattle.record_codec.specs.Reading.{reading};
ghost use Rattle.record_codec.specs.Spelling.{spelling};
ghost use Rattle.shard_machine.specs.Logs.{Made, boot, incarnation, live, named};
ghost use Rattle.shard_machine.specs.Legal.{HasFaultless, IsLegal, IsNoNext, MayChange, MayFollow};
ghost use Rattle.log_replay.specs.Replays.{found, IsReplayOf, Knows, Takes, Replays};

use nats_text::{Bytes, Name, NoMemory};
use record_codec::{Rec, RecFault, decode};
use std::alloc::Global;
use std::collections::BTreeMap;
use stream_fold::{Config, ConfigFault, Entry, StreamState};

/// A stream that stands.
#[derive(Drop)]
pub struct Standing {
    /// When it was made, in nanoseconds since 1970.
    pub created: u64,
    pub state: StreamState,
}

/// What a log says of one name.
#[derive(Drop)]
pub struct Known {
    /// How often a stream was made under the name.
    pub incarnation: u64,
    /// The one that stands.
    pub stream: Option<Standing>,
}

/// A log as far as it was read: the number of the last opening, and what was made under each name.
#[derive(Drop)]
pub struct Replay {
    alloc: Global,
    pub boot: u64,
    pub names: BTreeMap<Vec<u8>, Known>,
}

/// What came of reading a log.
pub enum Replayed {
    /// All bodies are its records.
    Log(Replay),
    /// The body with this index is no record that may follow those before it.
    Stops(usize),
}

impl Replay {
    /// What is held of a log without records.
    pub fn new(alloc: Global) -> Replay
        ensures { IsReplayOf result [] }
    {
        Replay {
            alloc,
            boot: 0,
            names: BTreeMap::new(alloc),
        }
    }

    /// Takes the next record, and answers `false` where it may not follow.
    fn take(&mut self, it: Rec) -> Result<bool, NoMemory>
        requires { (log : Items Record) × IsReplayOf self.old log }
        ensures { (log : Items Record) → IsLegal log → IsReplayOf self.old log → Takes log it self.new result }
    {
        match it {
            Rec::Boot { boot } => Ok(self.take_boot(boot)),
            Rec::Create { time, config } => self.take_create(time, config),
            Rec::Remove { name } => Ok(self.take_remove(&name)),
            Rec::Of { name, entry } => self.take_change(&name, entry),
        }
    }

    fn take_boot(&mut self, number: u64) -> bool
        ensures { (log : Items Record) → IsLegal log → IsReplayOf self.old log → Takes log (Record.Boot number) self.new (Ok result) }
    {
        if number == 0 || 1 << 63 <= number || number - 1 != self.boot {
            return false;
        }
        self.boot = number;
        true
    }

    fn take_create(&mut self, time: u64, config: Config) -> Result<bool, NoMemory>
        ensures { (log : Items Record) → IsLegal log → IsReplayOf self.old log → Takes log (Record.Create time config) self.new result }
    {
        if self.boot == 0 || !is_faultless(self.alloc, &config)? {
            return Ok(false);
        }
        let Some(incarnation) = self.next_incarnation(&config.name) else {
            return Ok(false);
        };
        let key = config.name.bytes().to_vec(self.alloc)?;
        let stream = Some(Standing {
            created: time,
            state: StreamState::new(self.alloc, config)?,
        });
        let known = Known {
            incarnation,
            stream,
        };
        self.put(key, known)?;
        Ok(true)
    }

    /// The incarnation of the next stream of the name, where none stands and the number is below `2^63`.
    fn next_incarnation(&self, name: &Name) -> Option<u64>
        ensures { (log : Items Record) → IsReplayOf self.now log → MatchOption result (live log name.now ≡ None → incarnation log name.now + 1 < 2 ^ 63 → ⊥) (λ next. (live log name.now ≡ None) × (next ≡ incarnation log name.now + 1) × (next < 2 ^ 63)) }
    {
        match self.names.get(name.bytes()) {
            None => Some(1),
            Some(known) => known.next_incarnation(),
        }
    }

    /// Holds this under the name, in place of what was held there.
    fn put(&mut self, key: Vec<u8>, known: Known) -> Result<(), NoMemory>
        ensures { OnOk result ((self.new.boot ≡ self.old.boot) × ((name : Items ℕ) → found name self.new.names ≡ (if bytes_eq key.items name then Some known else found name self.old.names))) }
    {
        self.names.insert(key, known)?;
        Ok(())
    }

    fn take_remove(&mut self, name: &Name) -> bool
        ensures { (log : Items Record) → IsLegal log → IsReplayOf self.old log → Takes log (Record.Remove name.now) self.new (Ok result) }
    {
        if self.boot == 0 {
            return false;
        }
        match self.names.get_mut(name.bytes()) {
            None => false,
            Some(known) => known.remove(),
        }
    }

    fn take_change(&mut self, name: &Name, entry: Entry) -> Result<bool, NoMemory>
        requires { (log : Items Record) × IsReplayOf self.old log }
        ensures { (log : Items Record) → IsLegal log → IsReplayOf self.old log → Takes log (Record.Of name.now entry) self.new result }
    {
        if self.boot == 0 {
            return Ok(false);
        }
        match self.names.get_mut(name.bytes()) {
            None => Ok(false),
            Some(known) => known.change(self.alloc, entry),
        }
    }

    /// Takes the record that the body spells, and answers `false` where it spells none that may follow.
    fn take_body(&mut self, body: &[u8]) -> Result<bool, NoMemory>
        requires { (log : Items Record) × IsReplayOf self.old log }
        ensures { (log : Items Record) → IsLegal log → IsReplayOf self.old log → IfOk result (λ taken. MatchBool taken ((it : Record) × (reading body.now ≡ Ok it) × MayFollow log it × IsReplayOf self.new (log ++ it ∷ []) × (body.now ≡ spelling it)) (IsNoNext log body.now)) }
    {
        match decode(self.alloc, body) {
            Ok(it) => self.take(it),
            Err(RecFault::Bad { .. }) => Ok(false),
            Err(RecFault::NoMemory) => Err(NoMemory),
        }
    }
}

impl Known {
    /// The incarnation of the next stream, where none stands and the number is below `2^63`.
    fn next_incarnation(&self) -> Option<u64>
        ensures { MatchOption result (self.now.stream ≡ None → self.now.incarnation + 1 < 2 ^ 63 → ⊥) (λ next. (self.now.stream ≡ None) × (next ≡ self.now.incarnation + 1) × (next < 2 ^ 63)) }
    {
        if self.stream.is_some() || (1 << 63) - 1 <= self.incarnation {
            return None;
        }
        Some(self.incarnation + 1)
    }

    /// Takes the stream away, and answers whether one stood.
    fn remove(&mut self) -> bool
        ensures stood { result ≡ is_some self.old.stream }
        ensures none { self.new.stream ≡ None }
        ensures incarnation { self.new.incarnation ≡ self.old.incarnation }
    {
        self.stream.take().is_some()
    }

    /// Takes an entry of the stream that stands, and answers `false` where it may not come next.
    fn change(&mut self, alloc: Global, entry: Entry) -> Result<bool, NoMemory>
        requires { (log : Items Record) × (name : Items ℕ) × Knows name (Some self.old) (named log name) }
        ensures { (log : Items Record) (name : Items ℕ) → Knows name (Some self.old) (named log name) → IfOk result (λ taken. MatchBool taken ((made : Made) × (live log name ≡ Some made) × MayChange entry made × Knows name (Some self.new) (named (log ++ Record.Of name entry ∷ []) name)) ((made : Made) → live log name ≡ Some made → MayChange entry made → ⊥)) }
    {
        match &mut self.stream {
            None => Ok(false),
            Some(standing) => standing.change(alloc, entry),
        }
    }
}

impl Standing {
    /// Takes an entry, and answers `false` where it may not come next.
    fn change(&mut self, alloc: Global, entry: Entry) -> Result<bool, NoMemory>
        requires { (h : History) × StandsFor self.old.state h }
        ensures { (h : History) → StandsFor self.old.state h → IfOk result (λ taken. MatchBool taken (Fits h entry × HasFaultless entry × (self.new.created ≡ self.old.created) × StandsFor self.new.state (with_entry h entry)) (Fits h entry → HasFaultless entry → ⊥)) }
    {
        if !self.state.fits(&entry) || !has_faultless(alloc, &entry)? {
            return Ok(false);
        }
        self.state.reserve_for(&entry)?;
        self.state.apply(entry);
        Ok(true)
    }
}

/// Whether an entry that changes the limits has a configuration that a stream may have.
fn has_faultless(alloc: Global, entry: &Entry) -> Result<bool, NoMemory>
    ensures { IfOk result (λ faultless. IsTrue faultless ↔ HasFaultless entry.now) }
{
    match entry {
        Entry::Put { .. } => Ok(true),
        Entry::Del { .. } => Ok(true),
        Entry::Purge { .. } => Ok(true),
        Entry::Expire { .. } => Ok(true),
        Entry::Bind { .. } => Ok(true),
        Entry::Limits { config } => is_faultless(alloc, config),
    }
}

/// Whether a stream may have this configuration.
fn is_faultless(alloc: Global, config: &Config) -> Result<bool, NoMemory>
    ensures { IfOk result (λ faultless. IsTrue faultless ↔ (config_fault config.now ≡ None)) }
{
    match config.check(alloc) {
        Ok(()) => Ok(true),
        Err(ConfigFault::Bad { .. }) => Ok(false),
        Err(ConfigFault::NoMemory) => Err(NoMemory),
    }
}

/// Reads the log that bodies stand for.
pub fn read_log(alloc: Global, bodies: &[Bytes]) -> Result<Replayed, NoMemory>
    ensures { Replays bodies.now result }
{
    let mut replay = Replay::new(alloc);
    for (index, body) in bodies.iter().enumerate() {
        if !replay.take_body(body.as_slice())? {
            return Ok(Replayed::Stops(index));
        }
    }
    Ok(Replayed::Log(replay))
}
