ghost use Rattle.std.specs.Prelude.{◌≡◌, ◌+◌, ◌≤◌, ◌<◌, ◌++◌, ◌∷◌, [], drop, length, Contains, IfOk, IfSome, OnOk, OnErr, Option, Some, None};
ghost use Rattle.std.specs.List.{position_from};
ghost use Rattle.std.specs.Option.{option_map};
ghost use Rattle.world_links.specs.States.{new_link, pushed_at, is_named, is_up_at, name_at, names_in, sites_in, joined_in, channel_at, lane_at, due, Changes, TurnsAt, SameJoined};
ghost use Rattle.world_steps.specs.Links.{losing, repeating, turned_round, emptied, after_carry, arriving};
ghost use Rattle.world_steps.specs.Nets.{AreApart};
ghost use Rattle.world_steps.specs.Routes.{routed, sent, sent_by_hub, sent_by_leaf};
ghost use Rattle.world_steps.specs.Settling.{first_busy};

use crate::jobs::{destination, push_jobs};
use crate::link::Link;
use js_wire::Packet;
use nats_text::{Name, NoMemory};
use std::alloc::Global;
use std::collections::VecDeque;
use std::marker::Model;
use world_steps::{Direction, Job};

/// A direction of the link of the node at a place.
#[derive(Clone, Copy, Debug, PartialEq, Eq)]
pub struct Way {
    pub place: usize,
    pub direction: Direction,
}

/// The nodes of a star with their links, in the order in which they were made. The first is the hub, the others are
/// its leaves.
#[derive(Drop)]
pub struct Links {
    links: Vec<Link>,
}

impl Model for Links {
    ghost use Rattle.std.specs.Prelude.{List};
    ghost use Rattle.world_links.specs.States.{LinkState, names_in};
    ghost use Rattle.world_steps.specs.Nets.{AreApart};

    ghost Value = { List LinkState };

    ghost view = { λ l. l.links.items };

    // No two nodes have one name.
    ghost invariant = { λ l. AreApart (names_in l.links.items) };
}

impl Links {
    pub fn new(alloc: Global) -> Links
        ensures { result ≡ [] }
    {
        Links {
            links: Vec::new(alloc),
        }
    }

    /// How many nodes there are.
    pub fn len(&self) -> usize
        ensures { result ≡ length self.now }
    {
        self.links.len()
    }

    /// Adds a node of a name that no other one has. Its link is up.
    pub fn add(&mut self, alloc: Global, name: Name) -> Result<(), NoMemory>
        requires { Contains (names_in self.old) name → ⊥ }
        ensures ok { OnOk result (self.new ≡ self.old ++ new_link name ∷ []) }
        ensures err { OnErr result (self.new ≡ self.old) }
    {
        self.links.push(Link::new(alloc, name))?;
        Ok(())
    }

    /// The place of the node of a name, where there is one. No two nodes have one name.
    pub fn place_of(&self, name: &Name) -> Option<usize>
        ensures value { result ≡ position_from (is_named name.now) 0 self.now }
        ensures within { IfSome result (λ place. place < length self.now) }
        ensures apart { AreApart (names_in self.now) }
    {
        self.links.iter().position(|link| link.is(name))
    }

    /// The name of the node at a place.
    pub fn name(&self, place: usize) -> &Name
        requires { place < length self.now }
        ensures { result.now ≡ name_at self.now place }
    {
        let link = &self.links[place];
        link.name()
    }

    /// Whether the link of the node at a place is up. The hub counts as joined.
    pub fn is_joined(&self, place: usize) -> bool
        requires { place < length self.now }
        ensures { result ≡ is_up_at self.now place }
    {
        let link = &self.links[place];
        link.is_joined()
    }

    /// Cuts the link of the node at a place, or joins it.
    pub fn set_joined(&mut self, place: usize, up: bool)
        requires { place < length self.old }
        ensures { TurnsAt place up self.old self.new }
    {
        let link = &mut self.links[place];
        link.set_joined(up);
    }

    /// How many frames are under way.
    pub fn len_of(&self, place: usize, direction: Direction) -> usize
        requires { place < length self.now }
        ensures { result ≡ length (channel_at self.now place direction).frames }
    {
        let link = &self.links[place];
        link.len(direction)
    }

    /// How many frames are still to be lost.
    pub fn losses(&self, place: usize, direction: Direction) -> u32
        requires { place < length self.now }
        ensures { result ≡ (channel_at self.now place direction).losses }
    {
        let link = &self.links[place];
        link.losses(direction)
    }

    /// How many frames are still to stay under way as well.
    pub fn repeats(&self, place: usize, direction: Direction) -> u32
        requires { place < length self.now }
        ensures { result ≡ (channel_at self.now place direction).repeats }
    {
        let link = &self.links[place];
        link.repeats(direction)
    }

    /// So many frames more are lost, of those that are carried next; at most 4,096 are ordered at a time.
    pub fn lose(&mut self, place: usize, direction: Direction, count: u32)
        requires place { place < length self.old }
        requires room { (channel_at self.old place direction).losses + count ≤ 4096 }
        ensures { Changes place direction (losing count) self.old self.new }
    {
        let link = &mut self.links[place];
        link.lose(direction, count);
    }

    /// So many frames more stay under way as well, of those that are carried next; at most 4,096 at a time.
    pub fn repeat(&mut self, place: usize, direction: Direction, count: u32)
        requires place { place < length self.old }
        requires room { (channel_at self.old place direction).repeats + count ≤ 4096 }
        ensures { Changes place direction (repeating count) self.old self.new }
    {
        let link = &mut self.links[place];
        link.repeat(direction, count);
    }

    /// Turns the frames under way round, the last first.
    pub fn reverse(&mut self, place: usize, direction: Direction)
        requires { place < length self.old }
        ensures { Changes place direction turned_round self.old self.new }
    {
        let link = &mut self.links[place];
        link.reverse(direction);
    }

    /// Loses the frames under way.
    pub fn clear(&mut self, place: usize, direction: Direction)
        requires { place < length self.old }
        ensures { Changes place direction emptied self.old self.new }
    {
        let link = &mut self.links[place];
        link.clear(direction);
    }

    /// Carries the first frame, and gives it where there is one that is not lost.
    pub fn carry(&mut self, place: usize, direction: Direction) -> Result<Option<Packet>, NoMemory>
        requires { place < length self.old }
        ensures ok { OnOk result (Changes place direction after_carry self.old self.new) }
        ensures frame { IfOk result (λ frame. frame ≡ arriving (channel_at self.old place direction)) }
        ensures err { OnErr result (self.new ≡ self.old) }
    {
        let link = &mut self.links[place];
        link.carry(direction)
    }

    /// Sends a packet on its way from the node at a place. One for the node itself makes calls, behind those that are
    /// due; another one goes behind the frames of a link, or nowhere where its way isn't in reach.
    pub fn route(
        &mut self,
        jobs: &mut VecDeque<Job>,
        now: u64,
        place: usize,
        packet: Packet,
    ) -> Result<(), NoMemory>
        requires { place < length self.old }
        ensures ok { OnOk result (due self.new jobs.new.items ≡ routed now (joined_in self.old) (name_at self.old place) packet (due self.old jobs.old.items)) }
        ensures joined { SameJoined self.old self.new }
        ensures links_kept { OnErr result (self.new ≡ self.old) }
        ensures jobs_kept { OnErr result (jobs.new.items ≡ jobs.old.items) }
    {
        if destination(&packet).bytes() == self.name(place).bytes() {
            push_jobs(jobs, now, packet)?;
            return Ok(());
        }
        self.send(place, packet)?;
        Ok(())
    }

    /// Sends a packet for another node.
    fn send(&mut self, place: usize, packet: Packet) -> Result<(), NoMemory>
        requires { place < length self.old }
        ensures ok { OnOk result (sites_in self.new ≡ sent (joined_in self.old) (name_at self.old place) packet (sites_in self.old)) }
        ensures joined { SameJoined self.old self.new }
        ensures err { OnErr result (self.new ≡ self.old) }
    {
        if place == 0 {
            self.send_from_hub(packet)?;
            return Ok(());
        }
        self.send_from_leaf(place, packet)?;
        Ok(())
    }

    fn send_from_hub(&mut self, packet: Packet) -> Result<(), NoMemory>
        ensures ok { OnOk result (sites_in self.new ≡ sent_by_hub (joined_in self.old) packet (sites_in self.old)) }
        ensures joined { SameJoined self.old self.new }
        ensures err { OnErr result (self.new ≡ self.old) }
    {
        let Some(place) = self.place_of(destination(&packet)) else {
            drop(packet);
            return Ok(());
        };
        self.push_if_joined(place, Direction::ToLeaf, packet)?;
        Ok(())
    }

    fn send_from_leaf(&mut self, place: usize, packet: Packet) -> Result<(), NoMemory>
        requires { place < length self.old }
        ensures ok { OnOk result (sites_in self.new ≡ sent_by_leaf (joined_in self.old) (name_at self.old place) packet (sites_in self.old)) }
        ensures joined { SameJoined self.old self.new }
        ensures err { OnErr result (self.new ≡ self.old) }
        ensures apart { AreApart (names_in self.old) }
    {
        if self.place_of(destination(&packet)).is_none() {
            drop(packet);
            return Ok(());
        }
        self.push_if_joined(place, Direction::ToHub, packet)?;
        Ok(())
    }

    /// Puts a packet behind the frames of a link that is up. It goes nowhere where the link is down.
    fn push_if_joined(
        &mut self,
        place: usize,
        direction: Direction,
        packet: Packet,
    ) -> Result<(), NoMemory>
        requires { place < length self.old }
        ensures ok { OnOk result (self.new ≡ pushed_at place direction packet self.old) }
        ensures err { OnErr result (self.new ≡ self.old) }
    {
        let link = &mut self.links[place];
        if link.is_joined() {
            link.push(direction, packet)?;
            return Ok(());
        }
        drop(packet);
        Ok(())
    }

    /// The first of the leaves' links that is up and has frames under way, and the direction: the one to the leaf comes
    /// before that to the hub.
    pub fn first_busy(&self) -> Option<Way>
        ensures value { option_map (λ way. lane_at self.now way.place way.direction) result ≡ first_busy (joined_in self.now) (drop 1 (sites_in self.now)) }
        ensures within { IfSome result (λ way. way.place < length self.now) }
    {
        for place in 1..self.links.len() {
            if let Some(direction) = self.links[place].busy() {
                return Some(Way { place, direction });
            }
        }
        None
    }
}
