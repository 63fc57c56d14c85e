//! Reads publishes of 16 bytes from a stream that comes in pieces of 4 KB. The word is how many. It prints
//! how many frames came out.
#![tactic(auto)]

use nats_frames::{Feed, FeedFault, Side};
use nats_text::NoMemory;
use std::alloc::Global;
use std::env;
use std::process::ExitCode;

const FRAME: &[u8] = b"PUB a 16\r\n0123456789abcdef\r\n";

const PIECE_LEN: usize = 4_096;

/// So many frames fill a whole number of pieces.
const BLOCK_FRAMES: usize = 1_024;

/// So many frames, one behind the other.
fn block(alloc: Global, count: usize) -> Result<Vec<u8>, NoMemory> {
    let mut block = Vec::new(alloc);
    for _ in 0..count {
        block.extend_from_slice(FRAME)?;
    }
    Ok(block)
}

/// How many frames come out of a stream of so many.
fn given_of(alloc: Global, count: usize) -> Result<usize, FeedFault> {
    let whole = block(alloc, BLOCK_FRAMES)?;
    let last = block(alloc, count % BLOCK_FRAMES)?;
    let mut feed = Feed::new(alloc, Side::FromClient);
    let mut given = 0usize;
    for _ in 0..count / BLOCK_FRAMES {
        given = given.saturating_add(given_by(&mut feed, &whole)?);
    }
    Ok(given.saturating_add(given_by(&mut feed, &last)?))
}

/// How many frames come out when these bytes come in pieces.
fn given_by(feed: &mut Feed, bytes: &[u8]) -> Result<usize, FeedFault> {
    let mut given = 0usize;
    for piece in bytes.chunks(PIECE_LEN) {
        feed.feed(piece)?;
        given = given.saturating_add(taken(feed)?);
    }
    Ok(given)
}

/// Takes the frames that are there, which are at most as many as a piece has bytes, and counts them.
fn taken(feed: &mut Feed) -> Result<usize, FeedFault> {
    for count in 0..PIECE_LEN {
        if !takes_next(feed)? {
            return Ok(count);
        }
    }
    Ok(PIECE_LEN)
}

fn takes_next(feed: &mut Feed) -> Result<bool, FeedFault> {
    let Some(frame) = feed.next()? else {
        return Ok(false);
    };
    drop(frame);
    Ok(true)
}

/// How many frames.
fn count(rt: HostRuntime) -> Option<usize> {
    env::args(&rt).ok()?.nth(1)?.parse().ok()
}

fn main(rt: HostRuntime) -> ExitCode {
    let Some(count) = count(rt) else {
        return ExitCode::from(2);
    };
    let Ok(given) = given_of(rt.alloc(), count) else {
        return ExitCode::from(1);
    };
    if println!(rt; "{given}").is_err() {
        return ExitCode::from(1);
    }
    ExitCode::from(0)
}
