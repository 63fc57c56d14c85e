ghost use Rattle.std.specs.Prelude.{◌≡◌, ℕ, List as Items, [], ◌∷◌, map, find, Some, IsSome, IfOk, OnOk};
ghost use Rattle.std.specs.FinMap.{empty};
ghost use Rattle.stream_fold.specs.Checking.{config_fault};
ghost use Rattle.stream_fold.specs.Facts.{StreamFacts, facts};
ghost use Rattle.stream_fold.specs.Fits.{Fits};
ghost use Rattle.stream_fold.specs.Held.{StandsFor};
ghost use Rattle.stream_fold.specs.Histories.{History};
ghost use Rattle.mirror_core.specs.Entries.{IfEntry, IsJournalled};
ghost use Rattle.shard_machine.specs.Views.{View, Copy, copies_of, asker_of, with_asker, with_all_asked, idle_askers, idle_under};
ghost use Rattle.replica_ask.specs.Askers.{AskerState, with_phase, is_due};
ghost use Rattle.shard_machine.specs.Answers.{fact_of_copy};
ghost use Rattle.shard_copies.specs.Asked.{ShowsAskers, ShowsSame, AreKept, Asks, shown, chosen, asked_of, copy_at, copy_of, decided_at, id_in, is_of, phase_behind, HavePlaces};
ghost use Rattle.shard_copies.specs.Places.{is_chosen};

use crate::copies::{ask_start, next_index, node_or, origins, reached};
use crate::decisions::decided;
use crate::kept::{idle_each, idle_of, kept, move_on_in, put_all};
use crate::phases::{consumer_of, stopped_at};
use crate::{Asking, Chosen};
use js_wire::{AskerId, Packet};
use nats_text::{List, Name, NoMemory, Origin};
use replica_ask::{Asker, Phase};
use shard_machine::CopyFact;
use std::alloc::Global;
use std::marker::Model;
use stream_fold::{Decision, Reason, StreamState};

/// The askers of a shard's copies. One that has asked nothing may be there or not. They outlive their streams,
/// so that no attempt is given twice between two openings.
#[derive(Debug, Drop)]
pub struct Askers {
    node: Name,
    boot: u64,
    all: Vec<Asker>,
}

impl Model for Askers {
    ghost use Rattle.shard_copies.specs.Asked.{AskersState};

    ghost Value = { AskersState };

    ghost view = { λ s. record { node = s.node; boot = s.boot; all = s.all.items } };
}

impl Askers {
    /// The askers of a shard of this node that was never opened: none has asked.
    pub fn new(alloc: Global, node: Name) -> Askers
        ensures { result ≡ record { node = node; boot = 0; all = [] } }
    {
        Askers {
            node,
            boot: 0,
            all: Vec::new(alloc),
        }
    }

    /// The node of the shard.
    pub fn node(&self) -> &Name
        ensures { result.now ≡ self.now.node }
    {
        &self.node
    }

    /// The number of the shard's last opening.
    pub fn boot(&self) -> u64
        ensures { result ≡ self.now.boot }
    {
        self.boot
    }

    /// The shard was opened, as its opening of this number: no asker has asked.
    pub fn begin(&mut self, boot: u64)
        ensures state { self.new ≡ record { node = self.old.node; boot = boot; all = [] } }
        ensures shown { (v : View) → v.node ≡ self.old.node → v.image.boot ≡ boot → ShowsAskers self.new v empty }
    {
        self.boot = boot;
        self.all.clear();
    }

    /// How far the asker of a stream and an index is with its origin.
    pub fn phase(&self, name: &Name, index: u32) -> Phase
        ensures { result ≡ (shown self.now name.now index).phase }
    {
        match kept(&self.all, &self.node, name, index) {
            Some(asker) => *asker.phase(),
            None => Phase::Idle,
        }
    }

    /// Those of a stream's copies that are meant ask at this moment, by their index. Their packets come behind
    /// those that are there. They count as sent by [`Askers::asked`]. `NoMemory` comes also where `2^64 - 1`
    /// attempts were given.
    pub fn ask(
        &mut self,
        alloc: Global,
        name: &Name,
        state: &StreamState,
        which: &Chosen,
        now: u64,
        asking: &mut Asking,
    ) -> Result<(), NoMemory>
        ensures shown { ShowsSame self.old self.new }
        ensures kept { AreKept self.old asking.old → OnOk result (AreKept self.new asking.new) }
        ensures asks { (v : View) (h : History) → ShowsAskers self.old v v.askers → StandsFor state.now h → OnOk result (Asks asking.old asking.new v now (chosen which.now v now (copies_of name.now (facts h)))) }
    {
        let mut index = 0;
        for want in origins(state) {
            if self.is_chosen(name, index, want, which, now) {
                self.ask_one(alloc, name, state, index, want, now, asking)?;
            }
            index = next_index(index)?;
        }
        Ok(())
    }

    /// Whether the copy of an origin is one of those that are meant.
    fn is_chosen(&self, name: &Name, index: u32, want: &Origin, which: &Chosen, now: u64) -> bool
        ensures { (v : View) (f : StreamFacts) → ShowsAskers self.now v v.askers → result ≡ is_chosen which.now v now (copy_of name.now index f want.now) }
    {
        match which {
            Chosen::All => true,
            Chosen::Due => self.is_due(name, index, now),
            Chosen::OfNode(node) => node_or(&self.node, &want.node).bytes() == node.bytes(),
        }
    }

    fn is_due(&self, name: &Name, index: u32, now: u64) -> bool
        ensures { result ≡ is_due now (shown self.now name.now index).phase }
    {
        match kept(&self.all, &self.node, name, index) {
            Some(asker) => asker.due(now),
            None => true,
        }
    }

    /// The copy of an origin asks.
    fn ask_one(
        &mut self,
        alloc: Global,
        name: &Name,
        state: &StreamState,
        index: u32,
        want: &Origin,
        now: u64,
        asking: &mut Asking,
    ) -> Result<(), NoMemory>
        ensures shown { ShowsSame self.old self.new }
        ensures kept { AreKept self.old asking.old → OnOk result (AreKept self.new asking.new) }
        ensures asks { (v : View) (h : History) → ShowsAskers self.old v v.askers → StandsFor state.now h → OnOk result (Asks asking.old asking.new v now (copy_of name.now index (facts h) want.now ∷ [])) }
    {
        let start = ask_start(state, index, want)?;
        let mut asker = self.asker_for(name, index)?;
        let packet = asker.ask(alloc, now, node_or(&self.node, &want.node), want, start)?;
        asking.packets.push(packet)?;
        asking.askers.push(asker)?;
        Ok(())
    }

    /// A copy of the asker of a stream and an index, which has its place then.
    fn asker_for(&mut self, name: &Name, index: u32) -> Result<Asker, NoMemory>
        ensures asker { IfOk result (λ asker. asker ≡ shown self.old name.now index) }
        ensures shown { ShowsSame self.old self.new }
        ensures places { (ones : Items AskerState) → HavePlaces self.old.all ones → HavePlaces self.new.all ones }
        ensures kept { OnOk result (IsSome (find (is_of (id_in self.old name.now index)) self.new.all)) }
    {
        if let Some(asker) = kept(&self.all, &self.node, name, index) {
            return Ok(asker.clone()?);
        }
        let id = self.id_of(name, index)?;
        let asker = Asker::new(id, self.boot);
        let copy = asker.clone()?;
        self.all.push(asker)?;
        Ok(copy)
    }

    /// The name of the asker of a stream and an index.
    fn id_of(&self, name: &Name, index: u32) -> Result<AskerId, NoMemory>
        ensures { IfOk result (λ id. id ≡ id_in self.now name.now index) }
    {
        Ok(AskerId {
            node: self.node.clone()?,
            stream: name.clone()?,
            index,
        })
    }

    /// The copy of this index asks at this moment, as by [`Askers::ask`]. One that isn't there doesn't.
    pub fn ask_again(
        &mut self,
        alloc: Global,
        name: &Name,
        state: &StreamState,
        index: u32,
        now: u64,
        asking: &mut Asking,
    ) -> Result<(), NoMemory>
        ensures shown { ShowsSame self.old self.new }
        ensures kept { AreKept self.old asking.old → OnOk result (AreKept self.new asking.new) }
        ensures asks { (v : View) (h : History) (c : Copy) → ShowsAskers self.old v v.askers → StandsFor state.now h → copy_at index (copies_of name.now (facts h)) ≡ Some c → OnOk result (Asks asking.old asking.new v now (c ∷ [])) }
    {
        let all = origins(state);
        if index as usize >= all.len() {
            return Ok(());
        }
        self.ask_one(alloc, name, state, index, &all[index as usize], now, asking)
    }

    /// What was asked counts as sent. It gives the packets.
    pub fn asked(&mut self, asking: Asking) -> List<Packet>
        requires { AreKept self.old asking }
        ensures packets { result ≡ asking.packets }
        ensures shown { (v : View) (now : ℕ) (copies : Items Copy) → ShowsAskers self.old v v.askers → asking.askers ≡ map (asked_of v now) copies → ShowsAskers self.new v (with_all_asked v now copies v.askers) }
    {
        let Asking { packets, askers } = asking;
        put_all(&mut self.all, askers);
        packets
    }

    /// What the copy of a stream and an index does about a packet to it at this moment. A packet for an index
    /// that the stream doesn't have is foreign. The entry that it brings may come next in the stream's history,
    /// and has a record.
    pub fn decide(
        &self,
        alloc: Global,
        name: &Name,
        state: &StreamState,
        index: u32,
        packet: &Packet,
        now: u64,
    ) -> Result<Decision, NoMemory>
        requires { config_fault state.now.held.limits ≡ None }
        ensures exact { (v : View) (h : History) → ShowsAskers self.now v v.askers → StandsFor state.now h → IfOk result (λ decision. decision ≡ decided_at v now packet.now (copy_at index (copies_of name.now (facts h)))) }
        ensures fits { (h : History) → StandsFor state.now h → IfOk result (λ decision. IfEntry (Fits h) decision) }
        ensures journalled { IfOk result (λ decision. IfEntry (IsJournalled state.now.held.limits.name) decision) }
    {
        match kept(&self.all, &self.node, name, index) {
            Some(asker) => decided(alloc, state, index, asker, packet, now),
            None => Ok(Decision::Ignore(Reason::Foreign)),
        }
    }

    /// The copy followed its decision about a packet. One that asks again asked by [`Askers::ask_again`] instead.
    pub fn follow(
        &mut self,
        name: &Name,
        index: u32,
        decision: &Decision,
        packet: &Packet,
        now: u64,
    )
        ensures { (v : View) (c : Copy) → ShowsAskers self.old v v.askers → c.stream ≡ name.now → c.index ≡ index → decision.now ≡ decided_at v now packet.now (Some c) → ShowsAskers self.new v (with_asker c.stream c.index (with_phase (asker_of v c) (phase_behind decision.now packet.now now (asker_of v c).phase)) v.askers) }
    {
        move_on_in(
            &mut self.all,
            &self.node,
            name,
            index,
            decision,
            packet,
            now,
        );
    }

    /// How far each of a stream's copies has come, in the order of its origins.
    pub fn copy_facts(
        &self,
        alloc: Global,
        name: &Name,
        state: &StreamState,
    ) -> Result<List<CopyFact>, NoMemory>
        ensures { (v : View) (h : History) → ShowsAskers self.now v v.askers → StandsFor state.now h → IfOk result (λ told. told ≡ map (fact_of_copy v) (copies_of name.now (facts h))) }
    {
        let mut told = List::new(alloc);
        let mut index = 0;
        for want in origins(state) {
            told.push(self.copy_fact(name, state, index, want)?)?;
            index = next_index(index)?;
        }
        Ok(told)
    }

    fn copy_fact(
        &self,
        name: &Name,
        state: &StreamState,
        index: u32,
        want: &Origin,
    ) -> Result<CopyFact, NoMemory>
        ensures { (v : View) (h : History) → ShowsAskers self.now v v.askers → StandsFor state.now h → IfOk result (λ fact. fact ≡ fact_of_copy v (copy_of name.now index (facts h) want.now)) }
    {
        let phase = self.phase(name, index);
        Ok(CopyFact {
            node: want.node.clone()?,
            stream: want.stream.clone()?,
            mark: reached(state, index, want),
            stopped: stopped_at(phase),
            consumer: consumer_of(phase),
        })
    }

    /// The askers of a stream's copies forget what they asked.
    pub fn idle_under(&mut self, name: &Name)
        ensures { (v : View) → ShowsAskers self.old v v.askers → ShowsAskers self.new v (idle_under name.now v.askers) }
    {
        idle_of(&mut self.all, name);
    }

    /// All askers forget what they asked.
    pub fn idle_all(&mut self)
        ensures { (v : View) → ShowsAskers self.old v v.askers → ShowsAskers self.new v (idle_askers v.askers) }
    {
        idle_each(&mut self.all);
    }
}
