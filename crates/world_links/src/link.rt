ghost use Rattle.std.specs.Prelude.{◌≡◌, ◌+◌, ◌≤◌, ◌==◌, length, IfOk, OnOk, OnErr, not};
ghost use Rattle.std.specs.Str.{bytes_eq};
ghost use Rattle.world_links.specs.States.{new_link, on_channel, busy_way};
ghost use Rattle.world_steps.specs.Links.{channel, with_frame, losing, repeating, turned_round, emptied, after_carry, arriving};

use crate::channel::Channel;
use js_wire::Packet;
use nats_text::{Name, NoMemory};
use std::alloc::Global;
use std::marker::Model;
use world_steps::Direction;

/// A node, and its link with the hub. The hub has none with itself: its channels stay empty.
#[derive(Drop)]
pub(crate) struct Link {
    name: Name,
    joined: bool,
    to_leaf: Channel,
    to_hub: Channel,
}

impl Model for Link {
    ghost use Rattle.world_links.specs.States.{LinkState};

    ghost Value = { LinkState };

    ghost view = { λ l. record { site = record { name = l.name; to_leaf = l.to_leaf; to_hub = l.to_hub }; joined = l.joined } };
}

impl Link {
    pub fn new(alloc: Global, name: Name) -> Link
        ensures { result ≡ new_link name }
    {
        Link {
            name,
            joined: true,
            to_leaf: Channel::new(alloc),
            to_hub: Channel::new(alloc),
        }
    }

    pub fn name(&self) -> &Name
        ensures { result.now ≡ self.now.site.name }
    {
        &self.name
    }

    /// Whether it is the node of this name.
    pub fn is(&self, name: &Name) -> bool
        ensures { result ≡ bytes_eq self.now.site.name name.now }
    {
        self.name.bytes() == name.bytes()
    }

    pub fn is_joined(&self) -> bool
        ensures { result ≡ self.now.joined }
    {
        self.joined
    }

    pub fn set_joined(&mut self, joined: bool)
        ensures { self.new ≡ record { site = self.old.site; joined = joined } }
    {
        self.joined = joined;
    }

    /// How many frames are under way.
    pub fn len(&self, direction: Direction) -> usize
        ensures { result ≡ length (channel direction self.now.site).frames }
    {
        match direction {
            Direction::ToLeaf => self.to_leaf.len(),
            Direction::ToHub => self.to_hub.len(),
        }
    }

    /// How many frames are still to be lost.
    pub fn losses(&self, direction: Direction) -> u32
        ensures { result ≡ (channel direction self.now.site).losses }
    {
        match direction {
            Direction::ToLeaf => self.to_leaf.losses(),
            Direction::ToHub => self.to_hub.losses(),
        }
    }

    /// How many frames are still to stay under way as well.
    pub fn repeats(&self, direction: Direction) -> u32
        ensures { result ≡ (channel direction self.now.site).repeats }
    {
        match direction {
            Direction::ToLeaf => self.to_leaf.repeats(),
            Direction::ToHub => self.to_hub.repeats(),
        }
    }

    /// Puts a frame behind those under way.
    pub fn push(&mut self, direction: Direction, frame: Packet) -> Result<(), NoMemory>
        ensures ok { OnOk result (self.new ≡ on_channel direction (with_frame frame) self.old) }
        ensures err { OnErr result (self.new ≡ self.old) }
    {
        match direction {
            Direction::ToLeaf => self.to_leaf.push(frame),
            Direction::ToHub => self.to_hub.push(frame),
        }
    }

    /// Carries the first frame, and gives it where there is one that isn't lost.
    pub fn carry(&mut self, direction: Direction) -> Result<Option<Packet>, NoMemory>
        ensures ok { OnOk result (self.new ≡ on_channel direction after_carry self.old) }
        ensures frame { IfOk result (λ frame. frame ≡ arriving (channel direction self.old.site)) }
        ensures err { OnErr result (self.new ≡ self.old) }
    {
        match direction {
            Direction::ToLeaf => self.to_leaf.carry(),
            Direction::ToHub => self.to_hub.carry(),
        }
    }

    pub fn lose(&mut self, direction: Direction, count: u32)
        requires { (channel direction self.old.site).losses + count ≤ 4096 }
        ensures { self.new ≡ on_channel direction (losing count) self.old }
    {
        match direction {
            Direction::ToLeaf => self.to_leaf.lose(count),
            Direction::ToHub => self.to_hub.lose(count),
        }
    }

    pub fn repeat(&mut self, direction: Direction, count: u32)
        requires { (channel direction self.old.site).repeats + count ≤ 4096 }
        ensures { self.new ≡ on_channel direction (repeating count) self.old }
    {
        match direction {
            Direction::ToLeaf => self.to_leaf.repeat(count),
            Direction::ToHub => self.to_hub.repeat(count),
        }
    }

    pub fn reverse(&mut self, direction: Direction)
        ensures { self.new ≡ on_channel direction turned_round self.old }
    {
        match direction {
            Direction::ToLeaf => self.to_leaf.reverse(),
            Direction::ToHub => self.to_hub.reverse(),
        }
    }

    pub fn clear(&mut self, direction: Direction)
        ensures { self.new ≡ on_channel direction emptied self.old }
    {
        match direction {
            Direction::ToLeaf => self.to_leaf.clear(),
            Direction::ToHub => self.to_hub.clear(),
        }
    }

    /// The direction that has frames under way over a link that is up, the one to the leaf first.
    pub fn busy(&self) -> Option<Direction>
        ensures { result ≡ busy_way self.now }
    {
        if !self.joined {
            return None;
        }
        if self.to_leaf.len() > 0 {
            return Some(Direction::ToLeaf);
        }
        if self.to_hub.len() > 0 {
            return Some(Direction::ToHub);
        }
        None
    }
}
