//! What a stream gives when it comes in two pieces.
use leaf_frames::{LeafFeed, write_leaf};
use nats_frames::{FeedFault, FrameText, Refused};
use nats_text::NoMemory;
use std::alloc::Global;

/// The bytes of a stream, what is written of its frames, and its refusal if it ends in one.
pub type Row = (&'static str, &'static str, Option<(FrameText, u64)>);

/// The most frames of a stream that is tried.
const MOST_FRAMES: usize = 100;

/// Takes the frames that are there, adds what is written of each, and tells the refusal if there is one.
pub fn take(feed: &mut LeafFeed, found: &mut Vec<u8>) -> Result<Option<Refused>, NoMemory> {
    for _ in 0..MOST_FRAMES {
        match feed.next() {
            Ok(Some(frame)) => write_leaf(&frame, found)?,
            Ok(None) => return Ok(None),
            Err(FeedFault::Refused(refused)) => return Ok(Some(refused)),
            Err(FeedFault::NoMemory) => return Err(NoMemory),
        }
    }
    Ok(None)
}

/// Whether the stream of a row gives what the row says, cut at each place, alone and behind other frames.
pub fn is_right(alloc: Global, before: &str, row: &Row) -> Result<bool, NoMemory> {
    let (bytes, written, refused) = row;
    let alone = is_read(alloc, bytes.as_bytes(), written.as_bytes(), *refused)?;
    let behind = is_read(
        alloc,
        joined(alloc, before, bytes)?.as_slice(),
        joined(alloc, before, written)?.as_slice(),
        moved(*refused, before.len() as u64),
    )?;
    Ok(alone && behind)
}

fn moved(refused: Option<(FrameText, u64)>, by: u64) -> Option<(FrameText, u64)> {
    let (text, place) = refused?;
    Some((text, place.saturating_add(by)))
}

fn joined(alloc: Global, front: &str, back: &str) -> Result<Vec<u8>, NoMemory> {
    let mut whole = Vec::from_slice(alloc, front.as_bytes())?;
    whole.extend_from_slice(back.as_bytes())?;
    Ok(whole)
}

/// Whether a stream gives frames that are written so, and ends so, wherever it is cut.
fn is_read(
    alloc: Global,
    bytes: &[u8],
    written: &[u8],
    refused: Option<(FrameText, u64)>,
) -> Result<bool, NoMemory> {
    for at in 0..bytes.len() {
        if !is_read_cut(alloc, bytes.split_at(at), written, refused)? {
            return Ok(false);
        }
    }
    is_read_cut(alloc, (bytes, &[]), written, refused)
}

/// The same of a stream in two pieces.
pub fn is_read_cut(
    alloc: Global,
    pieces: (&[u8], &[u8]),
    written: &[u8],
    refused: Option<(FrameText, u64)>,
) -> Result<bool, NoMemory> {
    let mut feed = LeafFeed::new(alloc);
    let mut found = Vec::new(alloc);
    feed.feed(pieces.0)?;
    take(&mut feed, &mut found)?;
    feed.feed(pieces.1)?;
    let end = take(&mut feed, &mut found)?;
    Ok(found.as_slice() == written && is_end(end, refused))
}

fn is_end(end: Option<Refused>, refused: Option<(FrameText, u64)>) -> bool {
    match (end, refused) {
        (None, None) => true,
        (Some(end), Some((text, place))) => end == Refused { text, place },
        _ => false,
    }
}
