ghost use Rattle.std.specs.Prelude.{◌≡◌, ◌+◌, ◌≤◌, [], length, reverse, IfOk, OnOk, OnErr};
ghost use Rattle.world_steps.specs.Links.{empty_channel, with_frame, losing, repeating, turned_round, emptied, after_carry, arriving, first_arriving};
ghost use Rattle.world_links.specs.Carrying.{with_first_again, without_head};

use js_wire::Packet;
use nats_text::NoMemory;
use std::alloc::Global;
use std::collections::VecDeque;
use std::marker::Model;

/// One direction of a link.
#[derive(Drop)]
pub(crate) struct Channel {
    frames: VecDeque<Packet>,
    losses: u32,
    repeats: u32,
}

impl Model for Channel {
    ghost use Rattle.world_steps.specs.Links.{Channel as ChannelState};

    ghost Value = { ChannelState };

    ghost view = { λ c. record { frames = c.frames.items; losses = c.losses; repeats = c.repeats } };
}

impl Channel {
    pub fn new(alloc: Global) -> Channel
        ensures { result ≡ empty_channel }
    {
        Channel {
            frames: VecDeque::new(alloc),
            losses: 0,
            repeats: 0,
        }
    }

    pub fn len(&self) -> usize
        ensures { result ≡ length self.now.frames }
    {
        self.frames.len()
    }

    /// How many frames are still to be lost.
    pub fn losses(&self) -> u32
        ensures { result ≡ self.now.losses }
    {
        self.losses
    }

    /// How many frames are still to stay under way as well.
    pub fn repeats(&self) -> u32
        ensures { result ≡ self.now.repeats }
    {
        self.repeats
    }

    /// Puts a frame behind those under way.
    pub fn push(&mut self, frame: Packet) -> Result<(), NoMemory>
        ensures ok { OnOk result (self.new ≡ with_frame frame self.old) }
        ensures err { OnErr result (self.new ≡ self.old) }
    {
        self.frames.push_back(frame)?;
        Ok(())
    }

    /// Puts a copy of the first frame behind the others, where there is one and it is to stay under way.
    fn keep_first(&mut self) -> Result<(), NoMemory>
        ensures ok { OnOk result (self.new ≡ with_first_again self.old) }
        ensures err { OnErr result (self.new ≡ self.old) }
    {
        if self.repeats > 0 {
            if let Some(first) = self.frames.front() {
                let again = first.clone()?;
                self.frames.push_back(again)?;
                self.repeats -= 1;
            }
        }
        Ok(())
    }

    /// Takes the first frame, and gives it where there is one that isn't lost.
    fn take_first(&mut self) -> Option<Packet>
        ensures value { result ≡ first_arriving self.old.frames self.old.losses }
        ensures rest { self.new ≡ without_head self.old }
    {
        let first = self.frames.pop_front()?;
        if self.losses > 0 {
            self.losses -= 1;
            drop(first);
            return None;
        }
        Some(first)
    }

    /// Carries the first frame, and gives it where there is one that isn't lost.
    pub fn carry(&mut self) -> Result<Option<Packet>, NoMemory>
        ensures ok { OnOk result (self.new ≡ after_carry self.old) }
        ensures frame { IfOk result (λ frame. frame ≡ arriving self.old) }
        ensures err { OnErr result (self.new ≡ self.old) }
    {
        self.keep_first()?;
        Ok(self.take_first())
    }

    pub fn lose(&mut self, count: u32)
        requires { self.old.losses + count ≤ 4096 }
        ensures { self.new ≡ losing count self.old }
    {
        self.losses += count;
    }

    pub fn repeat(&mut self, count: u32)
        requires { self.old.repeats + count ≤ 4096 }
        ensures { self.new ≡ repeating count self.old }
    {
        self.repeats += count;
    }

    pub fn reverse(&mut self)
        ensures { self.new ≡ turned_round self.old }
    {
        self.frames.make_contiguous().reverse();
    }

    pub fn clear(&mut self)
        ensures { self.new ≡ emptied self.old }
    {
        self.frames.clear();
    }
}
