//! Streams that copy, and what they have taken.
ghost use Rattle.stream_fold.specs.Histories.{History};
ghost use Rattle.stream_fold.specs.Held.{StandsFor};

use crate::packets::message;
use crate::table::number_in;
use nats_text::{List, Name, TextFault, pieces};
use std::alloc::Global;
use stream_fold::{Config, Copies, Discard, Entry, StreamState};

/// A stream `COPY` of such copies without limits.
pub fn config(alloc: Global, copies: Copies) -> Result<Config, TextFault> {
    let name = Name::read(alloc, b"COPY")?;
    Ok(Config {
        name,
        subjects: List::new(alloc),
        max_msgs: 0,
        max_bytes: 0,
        max_age: 0,
        max_per_subject: 0,
        max_msg_size: 0,
        discard: Discard::Old,
        window: 1,
        transform: None,
        copies,
    })
}

/// The entry of a text: `bind` binds the first copy to the creation 9 of its origin, from the number 3
/// on, and a number puts a message under it at the moment 100.
fn entry(alloc: Global, text: &[u8]) -> Result<Entry, TextFault> {
    if text == b"bind".as_slice() {
        return Ok(Entry::Bind {
            index: 0,
            incarnation: 9,
            start: 3,
        });
    }
    let message = message(alloc, b"a", 100, 0)?;
    Ok(Entry::Put {
        seq: number_in(text),
        message,
        mark: None,
    })
}

/// The state of a stream of such copies after those of these entries that fit, with commas between
/// them.
pub fn state(alloc: Global, copies: Copies, taken: &[u8]) -> Result<StreamState, TextFault> {
    let config = config(alloc, copies)?;
    let mut state = StreamState::new(alloc, config)?;
    for text in &pieces(alloc, taken, b',')? {
        take(alloc, &mut state, text)?;
    }
    Ok(state)
}

fn take(alloc: Global, state: &mut StreamState, text: &[u8]) -> Result<(), TextFault>
    requires { (h : History) × StandsFor state.old h }
    ensures { (h : History) × StandsFor state.new h }
{
    let entry = entry(alloc, text)?;
    if !state.fits(&entry) {
        drop(entry);
        return Ok(());
    }
    match state.reserve_for(&entry) {
        Ok(()) => state.apply(entry),
        Err(no_memory) => {
            drop(entry);
            return Err(no_memory.into());
        }
    }
    Ok(())
}
