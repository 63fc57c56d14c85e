ghost use Rattle.std.specs.Prelude.{◌≡◌, ◌+◌, ◌≤◌, [], ◌++◌, length, drop, OnOk, OnErr};

use nats_text::NoMemory;
use std::alloc::Global;
use std::marker::Model;

/// The bytes of a stream that no frame was taken of yet. Contracts see them as a list, and how many bytes
/// stand in the buffer.
///
/// Bytes are taken from the front without moving the others. [`settle`](Backlog::settle) lets go of what
/// was taken.
#[derive(Drop)]
pub struct Backlog {
    buffer: Vec<u8>,
    start: usize,
}

impl Model for Backlog {
    ghost use Rattle.std.specs.Prelude.{◌≤◌, length, drop};
    ghost use Rattle.nats_frames.specs.Feeds.{Stock};

    ghost Value = { Stock };

    ghost view = { λ it. record { bytes = drop it.start it.buffer.items; held = length it.buffer.items } };

    ghost invariant = { λ it. it.start ≤ length it.buffer.items };
}

impl Backlog {
    /// No bytes. It takes no memory until bytes are added.
    pub fn new(alloc: Global) -> Backlog
        ensures { result ≡ record { bytes = []; held = 0 } }
    {
        Backlog {
            buffer: Vec::new(alloc),
            start: 0,
        }
    }

    pub fn allocator(&self) -> Global {
        *self.buffer.allocator()
    }

    pub fn bytes(&self) -> &[u8]
        ensures { result.now ≡ self.now.bytes }
    {
        &self.buffer[self.start..]
    }

    pub fn len(&self) -> usize
        ensures { result ≡ length self.now.bytes }
    {
        self.buffer.len() - self.start
    }

    /// Adds bytes at the end. Without memory nothing changes.
    pub fn add(&mut self, piece: &[u8]) -> Result<(), NoMemory>
        ensures ok { OnOk result (self.new ≡ record { bytes = self.old.bytes ++ piece.now; held = self.old.held + length piece.now }) }
        ensures err { OnErr result (self.new ≡ self.old) }
    {
        self.buffer.extend_from_slice(piece)?;
        Ok(())
    }

    /// Takes so many bytes from the front. The others stay where they are in memory.
    pub fn advance(&mut self, len: usize)
        requires { len ≤ length self.old.bytes }
        ensures { self.new ≡ record { bytes = drop len self.old.bytes; held = self.old.held } }
    {
        self.start += len;
    }

    /// Lets go of the bytes that were taken, and gives their memory back where there is memory for one copy of
    /// the others.
    pub fn settle(&mut self)
        ensures bytes { self.new.bytes ≡ self.old.bytes }
        ensures held { self.new.held ≡ length self.old.bytes }
        ensures less { self.new.held ≤ self.old.held }
    {
        if self.start == 0 {
            return;
        }
        if let Ok(rest) = Vec::from_slice(self.allocator(), self.bytes()) {
            self.buffer = rest;
            self.start = 0;
            return;
        }
        cut_front(&mut self.buffer, self.start);
        self.start = 0;
    }

    /// Takes all bytes, and lets go of their memory.
    pub fn clear(&mut self)
        ensures { self.new ≡ record { bytes = []; held = 0 } }
    {
        self.buffer = Vec::new(self.allocator());
        self.start = 0;
    }
}

// Takes so many bytes from the front, and moves the others there.
fn cut_front(buffer: &mut Vec<u8>, len: usize)
    requires { len ≤ length buffer.old.items }
    ensures { buffer.new.items ≡ drop len buffer.old.items }
{
    let left = buffer.len() - len;
    buffer.rotate_left(len);
    buffer.truncate(left);
}
