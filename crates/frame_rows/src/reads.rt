//! What a stream gives when it comes in two pieces.
use nats_frames::{Feed, FeedFault, FrameText, Refused, Side, write_frame};
use nats_text::NoMemory;
use std::alloc::Global;

/// The bytes of a stream, what is written of its frames, and its refusal if it ends in one.
pub type Row = (&'static str, &'static str, Option<(FrameText, u64)>);

/// The most frames of a stream that is tried.
const MOST_FRAMES: usize = 100;

/// Takes the frames that are there, adds what is written of each, and tells the refusal if there is one.
pub fn take(feed: &mut Feed, found: &mut Vec<u8>) -> Result<Option<Refused>, NoMemory> {
    for _ in 0..MOST_FRAMES {
        match add_next(feed, found) {
            Ok(true) => {}
            Ok(false) => return Ok(None),
            Err(FeedFault::Refused(refused)) => return Ok(Some(refused)),
            Err(FeedFault::NoMemory) => return Err(NoMemory),
        }
    }
    Ok(None)
}

/// Adds what is written of the next frame, and tells whether there was one.
fn add_next(feed: &mut Feed, found: &mut Vec<u8>) -> Result<bool, FeedFault> {
    let Some(frame) = feed.next()? else {
        return Ok(false);
    };
    write_frame(&frame, found)?;
    Ok(true)
}

/// Whether the stream of a row gives what the row says, cut at each place, alone and behind other frames.
pub fn is_right(alloc: Global, side: Side, before: &str, row: &Row) -> Result<bool, NoMemory> {
    let (bytes, written, refused) = row;
    let alone = is_read(alloc, side, bytes.as_bytes(), written.as_bytes(), *refused)?;
    let behind = is_read(
        alloc,
        side,
        &joined(alloc, before, bytes)?,
        &joined(alloc, before, written)?,
        moved(*refused, before.len() as u64),
    )?;
    Ok(alone && behind)
}

fn moved(refused: Option<(FrameText, u64)>, by: u64) -> Option<(FrameText, u64)> {
    let (text, place) = refused?;
    Some((text, place.saturating_add(by)))
}

fn joined(alloc: Global, front: &str, back: &str) -> Result<Vec<u8>, NoMemory> {
    let mut whole = Vec::from_slice(alloc, front.as_bytes())?;
    whole.extend_from_slice(back.as_bytes())?;
    Ok(whole)
}

/// Whether a stream gives frames that are written so, and ends so, wherever it is cut.
fn is_read(
    alloc: Global,
    side: Side,
    bytes: &[u8],
    written: &[u8],
    refused: Option<(FrameText, u64)>,
) -> Result<bool, NoMemory> {
    for at in 0..bytes.len() {
        if !is_read_cut(alloc, side, bytes.split_at(at), written, refused)? {
            return Ok(false);
        }
    }
    is_read_cut(alloc, side, (bytes, &[]), written, refused)
}

/// The same of a stream in two pieces.
pub fn is_read_cut(
    alloc: Global,
    side: Side,
    pieces: (&[u8], &[u8]),
    written: &[u8],
    refused: Option<(FrameText, u64)>,
) -> Result<bool, NoMemory> {
    let mut feed = Feed::new(alloc, side);
    let mut found = Vec::new(alloc);
    feed.feed(pieces.0)?;
    take(&mut feed, &mut found)?;
    feed.feed(pieces.1)?;
    let end = take(&mut feed, &mut found)?;
    Ok(found.as_slice() == written && is_end(end, refused))
}

fn is_end(end: Option<Refused>, refused: Option<(FrameText, u64)>) -> bool {
    match (end, refused) {
        (None, None) => true,
        (Some(end), Some((text, place))) => end == Refused { text, place },
        _ => false,
    }
}
