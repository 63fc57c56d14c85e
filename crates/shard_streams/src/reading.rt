ghost use Rattle.std.specs.Prelude.{◌≡◌, ℕ, List as Items, All, Some, count_by, is_some, length, IfOk, OnOk};
ghost use Rattle.std.specs.BTreeMap.{IsOrdered};
ghost use Rattle.std.specs.Cmp.Lexicographic.{slice_cmp};
ghost use Rattle.std.specs.Ordering.{nat_cmp};
ghost use Rattle.log_replay.specs.Replays.{found};
ghost use Rattle.shard_machine.specs.Answers.{numbered, row_by};
ghost use Rattle.shard_machine.specs.Images.{LogImage, incarnation_in, live_names};
ghost use Rattle.shard_machine.specs.Views.{View};
ghost use Rattle.shard_streams.specs.HeldImages.{HoldsImage, ShowsLive};
ghost use Rattle.shard_streams.specs.Plans.{AddsName, Finds, Informs, names_in};
ghost use Rattle.stream_fold.specs.Histories.{message_at};

use crate::Streams;
use log_replay::{Known, Standing};
use nats_text::{List, Name, NoMemory};
use shard_machine::laws::names_of_images;
use shard_machine::{CopyFact, Facts, ShardRefusal, Which};
use std::alloc::Global;
use std::collections::BTreeMap;
use stream_fold::laws::facts_of_histories;
use stream_fold::{Numbered, StreamState};

impl Streams {
    /// The names under which a stream stands, in byte order.
    pub fn names(&self) -> Result<List<Name>, NoMemory>
        ensures { (i : LogImage) → HoldsImage self.now.replay i → IfOk result (λ names. names ≡ live_names i) }
    {
        names_of_images();
        standing_names(self.alloc, &self.replay.names)
    }

    /// How many streams stand.
    pub fn count(&self) -> usize
        ensures { (i : LogImage) → HoldsImage self.now.replay i → result ≡ length (live_names i) }
    {
        names_of_images();
        standing_count(&self.replay.names)
    }

    /// A copy of the message that is meant, with its number. Refusals are `NoStream`, `NoMessage` and
    /// `NoMemory`.
    pub fn find(&self, name: &Name, which: &Which) -> Result<Numbered, ShardRefusal>
        ensures { (v : View) → HoldsImage self.now.replay v.image → Finds v name.now which.now result }
    {
        match self.live(name) {
            None => Err(ShardRefusal::NoStream),
            Some(standing) => find_in(standing, which),
        }
    }

    /// The facts of a stream, with this count of its consumers and what is known of its copies. Refusals are
    /// `NoStream` and `NoMemory`.
    pub fn facts(
        &self,
        name: &Name,
        consumers: u64,
        copies: List<CopyFact>,
    ) -> Result<Facts, ShardRefusal>
        ensures { (v : View) → HoldsImage self.now.replay v.image → Informs v name.now consumers copies result }
    {
        match self.live(name) {
            None => Err(ShardRefusal::NoStream),
            Some(standing) => facts_of(standing, self.incarnation(name), consumers, copies),
        }
    }
}

/// A copy of the message of the stream that is meant.
fn find_in(standing: &Standing, which: &Which) -> Result<Numbered, ShardRefusal>
    ensures { (v : View) (name : Items ℕ) → ShowsLive v.image name (Some standing.now) → Finds v name which.now result }
{
    facts_of_histories();
    match row_of(&standing.state, which) {
        Ok(Some(row)) => Ok(row),
        Ok(None) => Err(ShardRefusal::NoMessage),
        Err(NoMemory) => Err(ShardRefusal::NoMemory),
    }
}

/// The facts of the stream, which is of this incarnation.
fn facts_of(
    standing: &Standing,
    incarnation: u64,
    consumers: u64,
    copies: List<CopyFact>,
) -> Result<Facts, ShardRefusal>
    ensures { (v : View) (name : Items ℕ) → ShowsLive v.image name (Some standing.now) → incarnation ≡ incarnation_in v.image name → Informs v name consumers copies result }
{
    facts_of_histories();
    let state = &standing.state;
    match state.config().clone() {
        Err(_) => Err(ShardRefusal::NoMemory),
        Ok(config) => Ok(Facts {
            config,
            created: standing.created,
            incarnation,
            first: state.first(),
            last: state.last(),
            count: state.count(),
            bytes: state.size(),
            consumers,
            copies,
        }),
    }
}

/// The names of the streams that stand, each by its configuration. They are held in byte order, each once.
fn standing_names(alloc: Global, held: &BTreeMap<Vec<u8>, Known>) -> Result<List<Name>, NoMemory>
    ensures names { IfOk result (λ names. names ≡ names_in held.now.entries) }
    ensures ordered { IfOk result (λ _. IsOrdered (λ a b. slice_cmp nat_cmp a.items b.items) held.now) }
    ensures found { IfOk result (λ _. All (λ e. found e.0.items held.now ≡ Some e.1) held.now.entries) }
{
    let mut names = List::new(alloc);
    for (_, known) in held.iter() {
        add_name(known, &mut names)?;
    }
    Ok(names)
}

/// Under how many of the names a stream stands. The names are in byte order, each once.
fn standing_count(names: &BTreeMap<Vec<u8>, Known>) -> usize
    ensures count { result ≡ count_by (λ e. is_some e.1.stream) names.now.entries }
    ensures ordered { IsOrdered (λ a b. slice_cmp nat_cmp a.items b.items) names.now }
    ensures found { All (λ e. found e.0.items names.now ≡ Some e.1) names.now.entries }
{
    names
        .iter()
        .filter(|entry| entry.1.stream.is_some())
        .count()
}

/// Adds the name of the stream that stands, if one does.
fn add_name(known: &Known, names: &mut List<Name>) -> Result<(), NoMemory>
    ensures { OnOk result (AddsName known.now.stream names.old names.new) }
{
    if let Some(standing) = &known.stream {
        names.push(standing.state.config().name.clone()?)?;
    }
    Ok(())
}

/// A copy of the message that is meant, where it is kept.
fn row_of(state: &StreamState, which: &Which) -> Result<Option<Numbered>, NoMemory>
    ensures { IfOk result (λ row. row ≡ row_by state.now.held.rows which.now) }
{
    match which {
        Which::Seq(seq) => numbered(state, *seq),
        Which::LastOf(subject) => match state.last_of(subject) {
            None => Ok(None),
            Some(seq) => numbered(state, seq),
        },
    }
}

/// A copy of the message of a number, where it is kept.
fn numbered(state: &StreamState, seq: u64) -> Result<Option<Numbered>, NoMemory>
    ensures { IfOk result (λ row. row ≡ numbered seq (message_at seq state.now.held.rows)) }
{
    match state.kept(seq) {
        None => Ok(None),
        Some(message) => Ok(Some(Numbered {
            seq,
            message: message.clone()?,
        })),
    }
}
