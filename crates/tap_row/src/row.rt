ghost use Rattle.std.specs.Prelude.{◌≡◌, [], ◌∷◌, ◌++◌, OnOk, OnErr, length, take, drop, ◌≤◌, true, ◌↔◌, List as Items};
ghost use Rattle.tap_row.specs.Rows.{IsTold, lines_of, Detaches};
ghost use Rattle.tap_row.specs.declared.notice.Notice.{Notice as Told};
ghost use Rattle.tap_row.specs.declared.notice.Stay.TheVariants.{Leave};

use crate::{BoxedTap, Notice, Stay};
use nats_text::NoMemory;
use std::alloc::Global;

/// The taps that are attached, in the order in which they came.
#[derive(Drop)]
pub struct TapRow {
    taps: Vec<BoxedTap>,
}

impl TapRow {
    /// No taps.
    pub fn new(alloc: Global) -> TapRow
        ensures { result.taps.items ≡ [] }
    {
        TapRow {
            taps: Vec::new(alloc),
        }
    }

    /// Puts a tap behind the others. A tap that can't be put there is dropped.
    pub fn attach(&mut self, tap: BoxedTap) -> Result<(), NoMemory>
        ensures ok { OnOk result (self.new.taps.items ≡ self.old.taps.items ++ tap ∷ []) }
        ensures err { OnErr result (self.new.taps.items ≡ self.old.taps.items) }
    {
        self.taps.push(tap)?;
        Ok(())
    }

    /// Tells each tap, once and in order, and drops those that answer that they leave.
    pub fn tell(&mut self, notice: &Notice)
        ensures { IsTold stands has_left notice.now self.old.taps.items self.new.taps.items }
    {
        tell_from(&mut self.taps, 0, notice);
    }

    /// Takes the tap of this place out, the first of which is 0. `None` comes exactly where no tap has
    /// that place.
    pub fn detach(&mut self, place: usize) -> Option<BoxedTap>
        ensures { Detaches place self.old.taps.items result self.new.taps.items }
    {
        if place < self.taps.len() {
            Some(self.taps.remove(place))
        } else {
            None
        }
    }

    /// Adds the line of each tap, in order. An error leaves the buffer as it was.
    pub fn lines(&self, buf: &mut Vec<u8>) -> Result<(), NoMemory>
        ensures ok { OnOk result (buf.new.items ≡ buf.old.items ++ lines_of says self.now.taps.items) }
        ensures err { OnErr result (buf.new.items ≡ buf.old.items) }
    {
        let before = buf.len();
        let written = lines_from(&self.taps, 0, buf);
        if written.is_err() {
            buf.truncate(before);
        }
        written
    }
}

fn tell_one(tap: &mut BoxedTap, notice: &Notice) -> Stay
    ensures told { (notices : Items Told) → stands tap.old notices → stands tap.new (notices ++ notice.now ∷ []) }
    ensures left { (result ≡ Leave) ↔ (has_left tap.new ≡ true) }
{
    tap.tell(notice)
}

// The same for the taps from a place on.
fn tell_from(taps: &mut Vec<BoxedTap>, at: usize, notice: &Notice)
    requires { at ≤ length taps.old.items }
    ensures before { take at taps.new.items ≡ take at taps.old.items }
    ensures told { IsTold stands has_left notice.now (drop at taps.old.items) (drop at taps.new.items) }
{
    if at == taps.len() {
        return;
    }
    if tell_one(&mut taps[at], notice) == Stay::Leave {
        drop(taps.remove(at));
        tell_from(taps, at, notice);
    } else {
        tell_from(taps, at + 1, notice);
    }
}

fn line_of(tap: &BoxedTap, buf: &mut Vec<u8>) -> Result<(), NoMemory>
    ensures ok { OnOk result (buf.new.items ≡ buf.old.items ++ (says tap.now ++ 10 ∷ [])) }
    ensures err { OnErr result (buf.new.items ≡ buf.old.items) }
{
    tap.line(buf)
}

// The lines of the taps from a place on; at an error some of them.
fn lines_from(taps: &[BoxedTap], at: usize, buf: &mut Vec<u8>) -> Result<(), NoMemory>
    ensures ok { OnOk result (buf.new.items ≡ buf.old.items ++ lines_of says (drop at taps.now)) }
    ensures err { OnErr result (take (length buf.old.items) buf.new.items ≡ buf.old.items) }
{
    match taps.get(at) {
        None => Ok(()),
        Some(tap) => {
            line_of(tap, buf)?;
            lines_from(taps, at + 1, buf)
        }
    }
}
