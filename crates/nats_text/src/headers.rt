ghost use Rattle.std.specs.Prelude.{◌≡◌, ◌<◌, ◌≤◌, ◌+◌, ◌-◌, ◌^◌, length, min, ℕ, [], ◌++◌, IsTrue, IfOk, OnOk, OnErr, vec_len, vec_capacity};
ghost use Rattle.std.specs.Option.{option_copied};
ghost use Rattle.std.specs.Result.{is_ok};
ghost use Rattle.nats_text.specs.Pieces.{pieces};
ghost use Rattle.nats_text.specs.Headers.{HeaderBlock, IsBlock, IsFirstBadLine, is_header_block, no_headers, has_none, legal, written, first_value, has_name, with_pair, with_value, without, other_pairs, is_named, Reads, IsFaultOf, read_block, read_pairs, is_written};

use crate::header_lines::{
    bad_line, entry_of_line, is_header_name, is_header_value, is_written, status_of_line,
};
use crate::header_writer::{append_lines, lines_len};
use crate::{Bytes, NoMemory, TextFault, cut};
use std::alloc::Global;
use std::marker::Model;

/// A name and a value of a header.
#[derive(Clone, Debug, Drop, PartialEq)]
pub struct Pair {
    pub name: Bytes,
    pub value: Bytes,
}

/// The headers of a message: a status text, where there is one, and pairs of a name and a value in
/// their order (the header blocks of NATS, ADR-4).
#[derive(Clone, Debug, Drop)]
pub struct Headers {
    status: Option<Bytes>,
    pairs: Vec<Pair>,
}

impl Model for Headers {
    ghost use Rattle.std.specs.Prelude.{◌≡◌, true};
    ghost use Rattle.nats_text.specs.Headers.{HeaderBlock, is_header_block};

    ghost Value = { HeaderBlock };

    ghost view = { λ headers. record { status = headers.status; pairs = headers.pairs.items } };

    ghost invariant = { λ headers. is_header_block (record { status = headers.status; pairs = headers.pairs.items }) ≡ true };
}

impl PartialEq for Headers {
    ghost use Rattle.nats_text.specs.SameHeaders.{same_headers, same_headers-laws};

    ghost eq = { same_headers };

    ghost laws = { same_headers-laws };

    fn eq(&self, other: &Headers) -> bool {
        self.status == other.status && self.pairs == other.pairs
    }
}

impl Headers {
    /// Headers without status and pairs. They take no memory until a pair is set.
    pub fn empty(alloc: Global) -> Headers
        ensures { result ≡ no_headers }
    {
        Headers {
            status: None,
            pairs: Vec::new(alloc),
        }
    }

    /// Reads a header block: `NATS/1.0`, perhaps a space and a status text, and lines `Name:value`,
    /// each line with CR LF at its end, then an empty line and nothing behind it. Spaces and tabs
    /// round a value are dropped. No bytes at all are no headers.
    ///
    /// `Bad` comes exactly where the bytes are no such block. Its place is that of the first byte of
    /// the first bad line; of the line that is cut or missing where the block ends too early; and of
    /// what stands behind the empty line. `NoMemory` comes only where the bytes are such a block.
    pub fn read(alloc: Global, block: &[u8]) -> Result<Headers, TextFault>
        ensures exact { Reads (λ headers. headers) result (read_block block.now) }
        ensures found { IfOk result (λ headers. IsBlock block.now headers) }
        ensures bad { (place : ℕ) → result ≡ Err (TextFault.Bad place) → IsFirstBadLine block.now place }

        // A block is read, unless there is no memory.
        ensures only { (headers : HeaderBlock) → IsBlock block.now headers → Reads (λ it. it) result (Ok headers) }
        ensures memory { result ≡ Err TextFault.NoMemory → (headers : HeaderBlock) × IsBlock block.now headers }
    {
        read_block(alloc, block)
    }

    /// Adds the header block at the end: no bytes where there are neither status nor pairs. One space
    /// stands behind each colon. Without memory the buffer holds the bytes that it held.
    #[tactic(auto, using(crate::proofs::WritesBlocks::reads_written))]
    pub fn write(&self, buf: &mut Vec<u8>) -> Result<(), NoMemory>
        ensures ok { OnOk result (buf.new.items ≡ buf.old.items ++ written self.now) }
        ensures err { OnErr result (buf.new.items ≡ buf.old.items) }

        // What is written is read again.
        ensures again { read_block (written self.now) ≡ Ok self.now }
    {
        if self.has_none() {
            return Ok(());
        }
        let start = buf.len();
        let outcome = append_lines(buf, self.status(), self.pairs());
        if outcome.is_err() {
            buf.truncate(start);
        }
        outcome
    }

    /// Whether the bytes are what [`write`](Headers::write) makes of the headers that
    /// [`read`](Headers::read) reads from them. It takes no memory.
    pub fn is_written(block: &[u8]) -> bool
        ensures { result ≡ is_written block.now }
    {
        is_written(block)
    }

    /// The length of the written header block, or the greatest `usize` where it is longer.
    pub fn written_len(&self) -> usize
        ensures { result ≡ min (length (written self.now)) (2 ^ 64 - 1) }
    {
        if self.has_none() {
            return 0;
        }
        lines_len(self.status(), self.pairs())
    }

    pub(crate) fn has_none(&self) -> bool
        ensures { result ≡ has_none self.now }
    {
        self.status.is_none() && self.pairs.is_empty()
    }

    /// The status text, if any: `503` in the answer that there are no responders.
    pub fn status(&self) -> Option<&[u8]>
        ensures value { option_copied result ≡ self.now.status }
        ensures legal { IsTrue (is_header_block self.now) }
    {
        match &self.status {
            Some(status) => Some(status.as_slice()),
            None => None,
        }
    }

    /// The pairs in their order.
    pub fn pairs(&self) -> &[Pair]
        ensures value { result.now ≡ self.now.pairs }
        ensures legal { IsTrue (is_header_block self.now) }
    {
        self.pairs.as_slice()
    }

    /// The first value of this name, with regard to case.
    pub fn get(&self, name: &[u8]) -> Option<&[u8]>
        ensures { option_copied result ≡ first_value name.now self.now }
    {
        let pair = self.pairs.iter().find(|pair| is_named(name, pair))?;
        Some(pair.value.as_slice())
    }

    /// Takes all pairs of this name away, with regard to case, and says whether there was one.
    pub fn remove(&mut self, name: &[u8]) -> bool
        ensures found { result ≡ has_name name.now self.old }
        ensures rest { self.new ≡ without name.now self.old }
    {
        let had = self.pairs.iter().any(|pair| is_named(name, pair));
        keep_others(&mut self.pairs, name);
        had
    }

    /// Whether headers may have this pair: a name of one byte or more from 33 to 126 without `:`,
    /// and a value without CR and LF and with no space or tab at either end.
    pub fn legal(name: &[u8], value: &[u8]) -> bool
        ensures { result ≡ legal name.now value.now }
    {
        is_header_name(name) && is_header_value(value)
    }

    /// Takes all pairs of this name away, with regard to case, and adds one at the end, which has to
    /// be [`legal`](Headers::legal). Without memory the headers stay as they were.
    pub fn set(&mut self, name: &[u8], value: &[u8]) -> Result<(), NoMemory>
        requires { IsTrue (legal name.now value.now) }
        ensures ok { OnOk result (self.new ≡ with_value name.now value.now self.old) }
        ensures err { OnErr result (self.new ≡ self.old) }
    {
        let pair = copied_pair(*self.pairs.allocator(), name, value)?;
        self.pairs.reserve(1)?;
        keep_others(&mut self.pairs, name);
        self.pairs.push_reserved(pair);
        Ok(())
    }

    /// Adds a pair at the end, which has to be [`legal`](Headers::legal), and keeps those of the same
    /// name. Without memory the headers stay as they were.
    pub fn add(&mut self, name: &[u8], value: &[u8]) -> Result<(), NoMemory>
        requires { IsTrue (legal name.now value.now) }
        ensures ok { OnOk result (self.new ≡ with_pair name.now value.now self.old) }
        ensures err { OnErr result (self.new ≡ self.old) }
    {
        let last = copied_pair(*self.pairs.allocator(), name, value)?;
        self.pairs.push(last)?;
        Ok(())
    }
}

fn read_block(alloc: Global, block: &[u8]) -> Result<Headers, TextFault>
    ensures exact { Reads (λ headers. headers) result (read_block block.now) }
    ensures memory { result ≡ Err TextFault.NoMemory → IsTrue (is_ok (read_block block.now)) }
{
    match copied_block(alloc, block) {
        Err(TextFault::NoMemory) => Err(fault_without_memory(block)),
        read => read,
    }
}

// The first bad line counts before the want of memory, wherever the memory ended.
fn fault_without_memory(block: &[u8]) -> TextFault
    ensures exact { IsFaultOf result (read_block block.now) }
    ensures memory { result ≡ TextFault.NoMemory → IsTrue (is_ok (read_block block.now)) }
{
    match bad_line(block) {
        Some(place) => bad_at(place),
        None => TextFault::NoMemory,
    }
}

fn copied_block(alloc: Global, block: &[u8]) -> Result<Headers, TextFault>
    ensures { Reads (λ headers. headers) result (read_block block.now) }
{
    if block.is_empty() {
        return Ok(Headers::empty(alloc));
    }
    let Some((line, lines)) = cut(block, b'\n') else {
        return Err(TextFault::Bad { place: 0 });
    };
    let Some(status) = status_of_line(line) else {
        return Err(TextFault::Bad { place: 0 });
    };
    let pairs = read_pairs(alloc, block.len() - lines.len(), lines)?;
    let status = copied_status(alloc, status)?;
    Ok(Headers { status, pairs })
}

// The pairs of the lines from a place on.
fn read_pairs(alloc: Global, mut place: usize, lines: &[u8]) -> Result<Vec<Pair>, TextFault>
    requires { place + length lines.now < 2 ^ 64 }
    ensures { Reads (λ pairs. pairs.items) result (read_pairs place (pieces 10 lines.now)) }
{
    let mut pairs = Vec::new(alloc);
    let mut rest = lines;
    while let Some((line, behind)) = cut(rest, b'\n') {
        let Some(entry) = entry_of_line(line) else {
            return Err(bad_at(place));
        };
        place += rest.len() - behind.len();
        let Some((name, value)) = entry else {
            return if behind.is_empty() {
                Ok(pairs)
            } else {
                Err(bad_at(place))
            };
        };
        pairs.push(copied_pair(alloc, name, value)?)?;
        rest = behind;
    }
    Err(bad_at(place))
}

fn bad_at(place: usize) -> TextFault
    ensures { result ≡ TextFault.Bad place }
{
    TextFault::Bad {
        place: place as u64,
    }
}

fn copied_status(alloc: Global, status: Option<&[u8]>) -> Result<Option<Bytes>, NoMemory>
    ensures { IfOk result (λ copy. copy ≡ option_copied status.entry) }
{
    match status {
        Some(status) => Ok(Some(Bytes::from_slice(alloc, status)?)),
        None => Ok(None),
    }
}

fn copied_pair(alloc: Global, name: &[u8], value: &[u8]) -> Result<Pair, NoMemory>
    ensures { IfOk result (λ pair. pair ≡ record { name = name.now; value = value.now }) }
{
    Ok(Pair {
        name: Bytes::from_slice(alloc, name)?,
        value: Bytes::from_slice(alloc, value)?,
    })
}

// Keeps the pairs of all other names, in their order.
fn keep_others(pairs: &mut Vec<Pair>, name: &[u8])
    ensures items { pairs.new.items ≡ other_pairs name.now pairs.old.items }
    ensures shorter { vec_len pairs.new ≤ vec_len pairs.old }
    ensures capacity { vec_capacity pairs.new ≡ vec_capacity pairs.old }
{
    pairs.retain(|pair| !is_named(name, pair));
}

fn is_named(name: &[u8], pair: &Pair) -> bool
    ensures { result ≡ is_named name.now pair.now }
{
    pair.name.as_slice() == name
}
