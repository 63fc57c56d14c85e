ghost use Rattle.std.specs.Prelude.{◌≡◌, ◌<◌, ◌^◌, ◌∷◌, [], ◌++◌, length, IfOk, OnOk, OnErr, is_some};
ghost use Rattle.std.specs.Str.{bytes_eq};
ghost use Rattle.std.specs.List.{list_any};
ghost use Rattle.nats_text.specs.Matching.{matches};
ghost use Rattle.stream_fold.specs.Histories.{History, kept, last, clock, message_at};
ghost use Rattle.stream_fold.specs.Publishing.{verdict, GivesVerdict};
ghost use Rattle.stream_fold.specs.Copying.{bound, start_by, configured, front};
ghost use Rattle.stream_fold.specs.Held.{first_of, StandsFor, HasRoom};
ghost use Rattle.stream_fold.specs.Fits.{Fits};
ghost use Rattle.leafd_cli.specs.Logs.{is_at, history_of, limits_of};
ghost use Rattle.leafd_cli.specs.Effects.{takes};
ghost use Rattle.leafd_cli.specs.Operations.{new_stream};

use nats_text::{List, Message, Name, NoMemory, Origin, Pattern, Start, Subject, matches};
use std::alloc::Global;
use std::marker::Model;
use stream_fold::{BoundTo, Config, Entry, Numbered, Refusal, StreamState, Verdict};

/// A stream of a node: the configuration of its creation, its log, and what the log leaves.
#[derive(Drop)]
pub struct Stream {
    node: Name,
    config: Config,
    log: List<Entry>,
    state: StreamState,
}

impl Model for Stream {
    ghost use Rattle.std.specs.Prelude.{◌≡◌};
    ghost use Rattle.stream_fold.specs.Held.{StandsFor};
    ghost use Rattle.leafd_cli.specs.Logs.{StreamLog};

    ghost Value = { StreamLog };

    ghost view = { λ s. record { node = s.node; config = s.config; entries = s.log } };

    ghost invariant = { λ s. StandsFor s.state (record { config = s.config; entries = s.log }) };
}

impl Stream {
    pub fn new(alloc: Global, node: Name, config: Config) -> Result<Stream, NoMemory>
        ensures { IfOk result (λ s. s ≡ new_stream node config) }
    {
        match new_state(alloc, &config) {
            Ok(state) => Ok(Stream {
                node,
                config,
                log: List::new(alloc),
                state,
            }),
            Err(NoMemory) => {
                drop(node);
                drop(config);
                Err(NoMemory)
            }
        }
    }

    /// Adds an entry to the log. Without memory the stream stays as it was.
    pub fn add(&mut self, entry: Entry) -> Result<(), NoMemory>
        requires { Fits (history_of self.old) entry }
        ensures { OnOk result (self.new ≡ record self.old { entries = self.old.entries ++ entry ∷ [] }) }
    {
        match note(&mut self.log, &mut self.state, &entry) {
            Ok(()) => {
                self.state.apply(entry);
                Ok(())
            }
            Err(NoMemory) => {
                drop(entry);
                Err(NoMemory)
            }
        }
    }

    pub fn is_at(&self, node: &Name, name: &Name) -> bool
        ensures { result ≡ is_at node.now name.now self.now }
    {
        is_same(self.node.bytes(), node.bytes()) && is_same(self.config.name.bytes(), name.bytes())
    }

    pub fn is_on(&self, node: &Name) -> bool
        ensures { result ≡ bytes_eq self.now.node node.now }
    {
        is_same(self.node.bytes(), node.bytes())
    }

    pub fn node(&self) -> &Name
        ensures { result.now ≡ self.now.node }
    {
        &self.node
    }

    /// The configuration of its creation.
    pub fn config(&self) -> &Config
        ensures { result.now ≡ self.now.config }
    {
        &self.config
    }

    /// The configuration in force.
    pub fn limits(&self) -> &Config
        ensures { result.now ≡ limits_of self.now }
    {
        self.state.config()
    }

    /// The log, the oldest entry first.
    pub fn log(&self) -> &[Entry]
        ensures { result.now ≡ self.now.entries }
    {
        self.log.as_slice()
    }

    /// What a publish of this message at this moment is answered.
    pub fn check(&self, alloc: Global, message: &Message, now: u64) -> Result<Verdict, Refusal>
        ensures { GivesVerdict result (verdict (history_of self.now) message.now now) }
    {
        self.state.check(alloc, message, now)
    }

    /// Whether a message is kept under the number.
    pub fn has(&self, seq: u64) -> bool
        ensures { result ≡ is_some (message_at seq (kept (history_of self.now))) }
    {
        self.state.kept(seq).is_some()
    }

    /// The greatest time of a message or moment of an expiry, else 0.
    pub fn clock(&self) -> u64
        ensures { result ≡ clock self.now.entries }
    {
        self.state.clock()
    }

    /// Whether one of its subjects matches.
    pub fn takes(&self, subject: &Subject) -> bool
        ensures { result ≡ takes subject.now self.now }
    {
        any_matches(self.state.config().subjects.as_slice(), subject)
    }

    pub fn last(&self) -> u64
        ensures value { result ≡ last self.now.entries }
        ensures bound { result < 2 ^ 63 }
    {
        self.state.last()
    }

    pub fn count(&self) -> u64
        ensures { result ≡ length (kept (history_of self.now)) }
    {
        self.state.count()
    }

    pub fn first(&self) -> u64
        ensures { result ≡ first_of (kept (history_of self.now)) (last self.now.entries) }
    {
        self.state.first()
    }

    /// How far a mirror of this origin has come.
    pub fn front(&self, want: &Origin) -> u64
        ensures { result ≡ front want.now.start self.now.entries }
    {
        let before_start = start_by(self.bound(), want.start) - 1;
        self.last().max(before_start)
    }

    pub fn rows(&self) -> &[Numbered]
        ensures { result.now ≡ kept (history_of self.now) }
    {
        self.state.rows()
    }

    pub fn bound(&self) -> Option<BoundTo>
        ensures { result ≡ bound 0 self.now.entries }
    {
        self.state.bound(0)
    }
}

fn new_state(alloc: Global, config: &Config) -> Result<StreamState, NoMemory>
    ensures { IfOk result (λ state. StandsFor state (record { config = config.now; entries = [] })) }
{
    StreamState::new(alloc, config.clone()?)
}

/// Adds a copy of an entry to a log, and makes room for it in the state.
fn note(log: &mut List<Entry>, state: &mut StreamState, entry: &Entry) -> Result<(), NoMemory>
    ensures log { OnOk result (log.new ≡ log.old ++ entry.now ∷ []) }
    ensures err { OnErr result (log.new ≡ log.old) }
    ensures room { OnOk result (HasRoom state.new entry.now) }
    ensures history { (h : History) → StandsFor state.old h → StandsFor state.new h }
{
    state.reserve_for(entry)?;
    log.push(entry.clone()?)?;
    Ok(())
}

fn start_by(bound: Option<BoundTo>, start: Start) -> u64
    ensures value { result ≡ start_by bound start }
    ensures positive { 0 < result }
{
    match bound {
        None => configured(start),
        Some(to) => to.start.max(1),
    }
}

fn configured(start: Start) -> u64
    ensures value { result ≡ configured start }
    ensures positive { 0 < result }
{
    match start {
        Start::Seq(number) => number.max(1),
        Start::Time(_) => 1,
    }
}

/// Whether two texts are the same.
pub fn is_same(a: &[u8], b: &[u8]) -> bool
    ensures { result ≡ bytes_eq a.now b.now }
{
    a == b
}

fn any_matches(patterns: &[Pattern], subject: &Subject) -> bool
    ensures { result ≡ list_any (λ pattern. matches pattern subject.now) patterns.now }
{
    patterns.iter().any(|pattern| matches(pattern, subject))
}
