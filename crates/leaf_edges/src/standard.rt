ghost use Rattle.std.specs.Prelude.{◌≡◌, None};
ghost use Rattle.std.specs.Io.{WritesAtMost};
ghost use Rattle.leaf_edges.specs.Causes.{WriteCauses};

use crate::{EdgeError, Sink, Source};
use std::io::{Read, Stderr, Stdin, Stdout, Write};
use std::marker::Model;

/// Standard input. It tells nothing of its content.
#[derive(Drop)]
pub struct StdIn {
    inner: Stdin,
    faults: u64,
}

/// Contracts see its count of faults.
impl Model for StdIn {
    ghost use Rattle.std.specs.Prelude.{ℕ};

    ghost Value = { ℕ };

    ghost view = { λ s. s.faults };
}

impl StdIn {
    pub fn new(inner: Stdin) -> StdIn
        ensures { result ≡ 0 }
    {
        StdIn { inner, faults: 0 }
    }
}

impl Source for StdIn {
    ghost left = { λ _. None };

    ghost faults = { λ faults. faults };

    fn read(&mut self, buf: &mut [u8]) -> Result<usize, EdgeError> {
        match self.inner.read(buf) {
            Ok(count) => Ok(count),
            Err(_) => {
                self.faults = self.faults.saturating_add(1);
                Err(EdgeError::Failed)
            }
        }
    }
}

/// Writes to a stream of the system. An error counts as a fault, and so does a piece of which nothing
/// was taken.
fn write_to<W: Write>(stream: &mut W, faults: &mut u64, bytes: &[u8]) -> Result<usize, EdgeError>
    ensures bound { WritesAtMost result bytes.now }
    ensures cause { WriteCauses faults.old faults.new result bytes.now }
{
    match stream.write(bytes) {
        Ok(count) => {
            if count == 0 && !bytes.is_empty() {
                *faults = faults.saturating_add(1);
            }
            Ok(count)
        }
        Err(_) => {
            *faults = faults.saturating_add(1);
            Err(EdgeError::Failed)
        }
    }
}

/// Standard output. It tells nothing of its content.
#[derive(Drop)]
pub struct StdOut {
    inner: Stdout,
    faults: u64,
}

/// Contracts see its count of faults.
impl Model for StdOut {
    ghost use Rattle.std.specs.Prelude.{ℕ};

    ghost Value = { ℕ };

    ghost view = { λ s. s.faults };
}

impl StdOut {
    pub fn new(inner: Stdout) -> StdOut
        ensures { result ≡ 0 }
    {
        StdOut { inner, faults: 0 }
    }
}

impl Sink for StdOut {
    ghost taken = { λ _. None };

    ghost faults = { λ faults. faults };

    fn write(&mut self, bytes: &[u8]) -> Result<usize, EdgeError> {
        write_to(&mut self.inner, &mut self.faults, bytes)
    }
}

/// Standard error. It tells nothing of its content.
#[derive(Drop)]
pub struct StdErr {
    inner: Stderr,
    faults: u64,
}

/// Contracts see its count of faults.
impl Model for StdErr {
    ghost use Rattle.std.specs.Prelude.{ℕ};

    ghost Value = { ℕ };

    ghost view = { λ s. s.faults };
}

impl StdErr {
    pub fn new(inner: Stderr) -> StdErr
        ensures { result ≡ 0 }
    {
        StdErr { inner, faults: 0 }
    }
}

impl Sink for StdErr {
    ghost taken = { λ _. None };

    ghost faults = { λ faults. faults };

    fn write(&mut self, bytes: &[u8]) -> Result<usize, EdgeError> {
        write_to(&mut self.inner, &mut self.faults, bytes)
    }
}
