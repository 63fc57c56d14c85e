ghost use Rattle.std.specs.Prelude.{◌≡◌, ◌+◌, ◌<◌, ◌≤◌, ◌^◌, length, Some, MatchBool, List as Items};
ghost use Rattle.record_codec.specs.declared.records.Rec.{Rec as Record};
ghost use Rattle.record_codec.specs.declared.records.Rec.TheVariants as rec;
ghost use Rattle.shard_machine.specs.Images.{LogImage, NameFacts, image, live_in, next, no_image};
ghost use Rattle.shard_machine.specs.Legal.{IsLegal};
ghost use Rattle.shard_machine.specs.Steps.{has_number};
ghost use Rattle.shard_machine.specs.Views.{View, origins_of};
ghost use Rattle.shard_streams.specs.HeldImages.{HoldsImage, IsStreamOf};
ghost use Rattle.log_replay.specs.Replays.{IsReplayOf};
ghost use Rattle.shard_table.specs.Effects.{opened};

use log_replay::{Replay, Standing};
use nats_text::{List, Name, Pattern};
use record_codec::Rec;
use replica_ask::Phase;
use shard_copies::{Askers, Consumers};
use shard_streams::Streams;
use shard_streams::laws::images_of_replays;
use std::alloc::Global;
use stream_fold::laws::facts_of_histories;
use stream_fold::{BoundTo, Copies};

/// What a loaded shard holds beside its journal: the streams of its log, the consumers that read them, and
/// the askers of its copies.
#[derive(Drop)]
pub struct Table {
    pub(crate) alloc: Global,
    pub(crate) streams: Streams,
    pub(crate) consumers: Consumers,
    pub(crate) askers: Askers,
}

impl Table {
    ghost use Rattle.shard_table.specs.Holding.{Holds, copy_seen, match_seen, node_in};

    /// The table of a shard of this node whose log has no records.
    pub fn new(alloc: Global, node: Name) -> Table
        ensures { Holds result (opened node no_image) }
    {
        let mut table = Table {
            alloc,
            streams: Streams::new(alloc),
            consumers: Consumers::new(alloc),
            askers: Askers::new(alloc, node),
        };
        table.begin();
        table
    }

    /// The log was read again, and left these streams. No consumer stands, and no asker has asked.
    pub fn reload(&mut self, streams: Replay)
        ensures held { (log : Items Record) → IsLegal log → IsReplayOf streams log → Holds self.new (opened (node_in self.old) (image log)) }
        ensures node { node_in self.new ≡ node_in self.old }
    {
        images_of_replays();
        self.streams = Streams::of_replay(self.alloc, streams);
        self.begin();
    }

    /// The shard was opened once more. No consumer stands, and no asker has asked. The number of its last
    /// opening stands still at `2^64 - 1`.
    pub fn open(&mut self)
        ensures held { (v : View) → Holds self.old v → v.image.boot + 1 < 2 ^ 63 → Holds self.new (opened v.node (next v.image (rec.Boot (v.image.boot + 1)))) }
        ensures node { node_in self.new ≡ node_in self.old }
    {
        self.streams
            .commit_boot(self.streams.boot().saturating_add(1));
        self.begin();
    }

    /// No consumer stands, and no asker has asked, since the last opening.
    fn begin(&mut self)
        ensures held { (i : LogImage) → HoldsImage self.old.streams.replay i → Holds self.new (opened (node_in self.old) i) }
        ensures node { node_in self.new ≡ node_in self.old }
    {
        let boot = self.streams.boot();
        self.consumers.begin(boot);
        self.askers.begin(boot);
    }

    /// The node of the shard.
    pub fn node(&self) -> &Name
        ensures { result.now ≡ node_in self.now }
    {
        self.askers.node()
    }

    /// Whether the numbers that a record makes are below `2^63`.
    pub fn has_number(&self, it: &Rec) -> bool
        ensures { (v : View) → Holds self.now v → result ≡ has_number v.image it.now }
    {
        match it {
            Rec::Boot { boot } => *boot < 1 << 63,
            Rec::Create { config, .. } => self.streams.incarnation(&config.name) < (1 << 63) - 1,
            Rec::Remove { .. } => true,
            Rec::Of { .. } => true,
        }
    }

    /// The number of the shard's last opening, else 0.
    pub fn boot(&self) -> u64
        ensures { (v : View) → Holds self.now v → result ≡ v.image.boot }
    {
        self.streams.boot()
    }

    /// How far the copy of a stream is with its origin, which has this index, and what it is bound to; `None`
    /// where no such copy stands. A call that waits until copies have come to rest looks here.
    pub fn copy(&self, stream: &Name, index: u32) -> Option<(Phase, Option<BoundTo>)>
        ensures { (v : View) → Holds self.now v → result ≡ copy_seen v stream.now index }
    {
        match self.streams.live(stream) {
            None => None,
            Some(standing) => self.copy_of(stream, standing, index),
        }
    }

    /// The same of a copy of a stream that stands.
    fn copy_of(
        &self,
        stream: &Name,
        standing: &Standing,
        index: u32,
    ) -> Option<(Phase, Option<BoundTo>)>
        ensures { (v : View) (known : NameFacts) → Holds self.now v → live_in v.image stream.now ≡ Some known → IsStreamOf stream.now standing.now known → result ≡ copy_seen v stream.now index }
    {
        facts_of_histories();
        let copied = has_copy(&standing.state.config().copies, index);
        if copied {
            Some((
                self.askers.phase(stream, index),
                standing.state.bound(index),
            ))
        } else {
            None
        }
    }

    /// The least kept number of a stream at or after `from` of a subject that one of the filters matches. All
    /// subjects match where there is no filter. `None` also where no such stream stands.
    pub fn next_match(&self, stream: &Name, from: u64, filters: &List<Pattern>) -> Option<u64>
        ensures { (v : View) → Holds self.now v → result ≡ match_seen from filters.now (live_in v.image stream.now) }
    {
        facts_of_histories();
        match self.streams.live(stream) {
            Some(standing) => standing.state.next_match(from, filters),
            None => None,
        }
    }
}

/// Whether a stream of these copies has one of this index.
fn has_copy(copies: &Copies, index: u32) -> bool
    ensures { MatchBool result (index < length (origins_of copies.now)) (length (origins_of copies.now) ≤ index) }
{
    match copies {
        Copies::Nothing => false,
        Copies::Mirror(_) => index < 1,
        Copies::Sources(origins) => (index as usize) < origins.len(),
    }
}
