ghost use Rattle.std.specs.Prelude.{◌≡◌, Some};
ghost use Rattle.std.specs.Io.{ReadsAtMost, WritesAtMost};
ghost use Rattle.std.specs.Io.KnownBytes.{ReadConsumes, WriteAppends};
ghost use Rattle.leaf_edges.specs.Causes.{ReadCauses, WriteCauses};
ghost use Rattle.leaf_edges.specs.Memory.{ReadsExactly, WritesExactly};

use crate::{EdgeError, Sink, Source};
use std::marker::Model;

/// A source in memory. The calls with the listed numbers fail, counted from 1, and no others.
#[derive(Debug, Drop)]
pub struct MemSource {
    bytes: Vec<u8>,
    place: usize,
    failing: Vec<u64>,
    calls: u64,
    faults: u64,
}

impl Model for MemSource {
    ghost use Rattle.std.specs.Prelude.{◌≤◌, drop, vec_len};
    ghost use Rattle.leaf_edges.specs.Memory.{Reading};

    ghost Value = { Reading };

    ghost view = { λ s. record { left = drop s.place s.bytes.items; failing = s.failing.items; calls = s.calls; faults = s.faults } };

    ghost invariant = { λ s. s.place ≤ vec_len s.bytes };
}

impl MemSource {
    /// A source of these bytes whose calls with these numbers fail.
    pub fn new(bytes: Vec<u8>, failing: Vec<u64>) -> MemSource
        ensures { result ≡ record { left = bytes.items; failing = failing.items; calls = 0; faults = 0 } }
    {
        MemSource {
            bytes,
            place: 0,
            failing,
            calls: 0,
            faults: 0,
        }
    }
}

impl Source for MemSource {
    ghost left = { λ s. Some s.left };

    ghost faults = { λ s. s.faults };

    fn read(&mut self, buf: &mut [u8]) -> Result<usize, EdgeError>
        ensures bound { ReadsAtMost result buf.new }
        ensures bytes { ReadConsumes (Some self.old.left) (Some self.new.left) result buf.new }
        ensures cause { ReadCauses self.old.faults self.new.faults result }
        // A call fails exactly where its number is listed.
        ensures exact { ReadsExactly self.old self.new result buf.new }
    {
        self.calls = self.calls.saturating_add(1);
        if self.failing.contains(&self.calls) {
            self.faults = self.faults.saturating_add(1);
            return Err(EdgeError::Failed);
        }
        let left = &self.bytes[self.place..];
        let count = left.len().min(buf.len());
        buf[..count].copy_from_slice(&left[..count]);
        self.place += count;
        Ok(count)
    }
}

/// A sink in memory. The calls with the listed numbers fail, counted from 1; any other takes the
/// whole piece, or answers `NoMemory`.
#[derive(Debug, Drop)]
pub struct MemSink {
    bytes: Vec<u8>,
    failing: Vec<u64>,
    calls: u64,
    faults: u64,
}

impl Model for MemSink {
    ghost use Rattle.leaf_edges.specs.Memory.{Writing};

    ghost Value = { Writing };

    ghost view = { λ s. record { taken = s.bytes.items; failing = s.failing.items; calls = s.calls; faults = s.faults } };
}

impl MemSink {
    /// A sink that has taken these bytes already and whose calls with these numbers fail.
    pub fn new(bytes: Vec<u8>, failing: Vec<u64>) -> MemSink
        ensures { result ≡ record { taken = bytes.items; failing = failing.items; calls = 0; faults = 0 } }
    {
        MemSink {
            bytes,
            failing,
            calls: 0,
            faults: 0,
        }
    }

    /// The bytes that it took.
    pub fn bytes(&self) -> &[u8]
        ensures { result.now ≡ self.now.taken }
    {
        self.bytes.as_slice()
    }
}

impl Sink for MemSink {
    ghost taken = { λ s. Some s.taken };

    ghost faults = { λ s. s.faults };

    fn write(&mut self, bytes: &[u8]) -> Result<usize, EdgeError>
        ensures bound { WritesAtMost result bytes.now }
        ensures bytes { WriteAppends (Some self.old.taken) (Some self.new.taken) result bytes.now }
        ensures cause { WriteCauses self.old.faults self.new.faults result bytes.now }
        // A call fails exactly where its number is listed.
        ensures exact { WritesExactly self.old self.new result bytes.now }
    {
        self.calls = self.calls.saturating_add(1);
        if self.failing.contains(&self.calls) {
            self.faults = self.faults.saturating_add(1);
            return Err(EdgeError::Failed);
        }
        match self.bytes.extend_from_slice(bytes) {
            Ok(()) => Ok(bytes.len()),
            Err(_) => Err(EdgeError::NoMemory),
        }
    }
}
