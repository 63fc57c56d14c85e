ghost use Rattle.std.specs.Prelude.{◌≡◌, ◌+◌, length};
ghost use Rattle.std.specs.List.{flat_map};
ghost use Rattle.std.specs.Option.{option_copied};
ghost use Rattle.nats_text.specs.Headers.{written, first_text, crlf, pair_line};
ghost use Rattle.nats_text.specs.Sizes.{left_of};

use crate::{Headers, Pair};

// What is left of a room of so many bytes once the written block is in it, or `None` where it
// doesn't fit.
pub(crate) fn left_of_block(room: u64, headers: &Headers) -> Option<u64>
    ensures { result ≡ left_of room (length (written headers.now)) }
{
    if headers.has_none() {
        return Some(room);
    }
    let room = left_of_first_line(room, headers.status())?;
    let room = left_of_pairs(room, headers.pairs())?;
    room.checked_sub(2)
}

fn left_of_first_line(room: u64, status: Option<&[u8]>) -> Option<u64>
    ensures { result ≡ left_of room (length (first_text (option_copied status.entry)) + 2) }
{
    match status {
        None => room.checked_sub(10),
        Some(text) => room.checked_sub(11)?.checked_sub(text.len() as u64),
    }
}

fn left_of_pair(room: u64, pair: &Pair) -> Option<u64>
    ensures { result ≡ left_of room (length (pair_line pair.now)) }
{
    let room = room.checked_sub(4)?;
    let room = room.checked_sub(pair.name.len() as u64)?;
    room.checked_sub(pair.value.len() as u64)
}

fn left_of_pairs(room: u64, pairs: &[Pair]) -> Option<u64>
    ensures { result ≡ left_of room (length (flat_map pair_line pairs.now)) }
{
    let mut room = room;
    for pair in pairs {
        room = left_of_pair(room, pair)?;
    }
    Some(room)
}
