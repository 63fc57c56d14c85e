//! Subscriptions that the lines of a text change.
use interest_list::{InterestFault, InterestList};
use leaf_frames::{LeafFrame, write_leaf};
use nats_text::{Bytes, Name, NoMemory, Pattern, TextFault, number, pieces};
use std::alloc::Global;
use subject_transform::DomainMap;

/// The greatest weight of a group.
const MAX_WEIGHT: u64 = 65_536;

/// No subscriptions, at the node `hub`.
pub fn nobody(alloc: Global) -> Result<InterestList, TextFault> {
    let domain = DomainMap::new(Name::read(alloc, b"hub")?);
    Ok(InterestList::new(alloc, domain))
}

/// The part of a line at a place, which is empty where there is none.
pub fn part<'a>(parts: &[&'a [u8]], at: usize) -> &'a [u8] {
    match parts.get(at) {
        Some(part) => part,
        None => b"",
    }
}

/// A number of a line.
pub fn number_in(text: &[u8]) -> u64 {
    number(text).unwrap_or(0)
}

/// A queue, or none where it is `-`.
fn queue_in(alloc: Global, text: &[u8]) -> Result<Option<Bytes>, NoMemory> {
    if text == b"-".as_slice() {
        Ok(None)
    } else {
        Ok(Some(Bytes::from_slice(alloc, text)?))
    }
}

fn queue_bytes(text: &[u8]) -> Option<&[u8]> {
    if text == b"-".as_slice() {
        None
    } else {
        Some(text)
    }
}

/// Makes the change that a line says: `add CONN SID PATTERN QUEUE`, `remove CONN SID`, `on CONN PATTERN QUEUE
/// WEIGHT`, `off CONN PATTERN QUEUE`, `want PATTERN`, `leave PATTERN` or `drop CONN`.
fn make(
    alloc: Global,
    it: &mut InterestList,
    parts: &[&[u8]],
) -> Result<Result<(), InterestFault>, TextFault> {
    let conn = number_in(part(parts, 1));
    match part(parts, 0) {
        b"add" => {
            let sid = Bytes::from_slice(alloc, part(parts, 2))?;
            let pattern = Pattern::read(alloc, part(parts, 3))?;
            let queue = queue_in(alloc, part(parts, 4))?;
            Ok(it.add(conn, sid, pattern, queue))
        }
        b"remove" => Ok(it.remove(conn, part(parts, 2))),
        b"on" => turn_on(alloc, it, parts),
        b"off" => {
            let pattern = Pattern::read(alloc, part(parts, 2))?;
            Ok(it.link_off(conn, &pattern, queue_bytes(part(parts, 3))))
        }
        b"want" => Ok(it.inner_on(Pattern::read(alloc, part(parts, 1))?)),
        b"leave" => Ok(it.inner_off(&Pattern::read(alloc, part(parts, 1))?)),
        _ => {
            it.drop_conn(conn);
            Ok(Ok(()))
        }
    }
}

fn turn_on(
    alloc: Global,
    it: &mut InterestList,
    parts: &[&[u8]],
) -> Result<Result<(), InterestFault>, TextFault> {
    let pattern = Pattern::read(alloc, part(parts, 2))?;
    let queue = queue_in(alloc, part(parts, 3))?;
    let weight = number_in(part(parts, 4));
    if weight == 0 || weight > MAX_WEIGHT {
        return Ok(Ok(()));
    }
    Ok(it.link_on(number_in(part(parts, 1)), pattern, queue, weight as u32))
}

fn name(fault: InterestFault) -> &'static [u8] {
    match fault {
        InterestFault::SidTaken => b"SidTaken",
        InterestFault::NoSid => b"NoSid",
        InterestFault::TooMany => b"TooMany",
        InterestFault::NoMemory => b"NoMemory",
    }
}

/// Makes the changes of a text, which has `;` between its lines, and gives the names of the refusals.
pub fn make_all(alloc: Global, it: &mut InterestList, text: &[u8]) -> Result<Vec<u8>, TextFault> {
    let mut refused = Vec::new(alloc);
    for line in &pieces(alloc, text, b';')? {
        let parts = pieces(alloc, line, b' ')?;
        if let Err(fault) = make(alloc, it, &parts)? {
            refused.extend_from_slice(name(fault))?;
        }
    }
    Ok(refused)
}

/// Adds the lines of frames.
pub fn write_all(frames: &[LeafFrame], text: &mut Vec<u8>) -> Result<(), NoMemory> {
    for frame in frames {
        write_leaf(frame, text)?;
    }
    Ok(())
}
