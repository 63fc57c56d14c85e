ghost use Rattle.std.specs.Prelude.{◌≡◌, ◌-◌, ◌^◌, min};
ghost use Rattle.nats_text.specs.Sizes.{size, left_of};

use crate::room::left_of_block;
use crate::{Bytes, Headers, Subject};
use std::alloc::AllocError;

/// A message of a stream. `time` is in nanoseconds since 1970.
#[derive(Debug, Drop)]
pub struct Message {
    pub subject: Subject,
    pub headers: Headers,
    pub payload: Bytes,
    pub time: u64,
}

impl Clone for Message {
    ghost is_clone = { λ copy message. message ≡ copy };

    fn clone(&self) -> Result<Message, AllocError> {
        Ok(Message {
            subject: self.subject.clone()?,
            headers: self.headers.clone()?,
            payload: self.payload.clone()?,
            time: self.time,
        })
    }
}

impl PartialEq for Message {
    ghost use Rattle.nats_text.specs.SameMessages.{same_message, same_message-laws};

    ghost eq = { same_message };

    ghost laws = { same_message-laws };

    fn eq(&self, other: &Message) -> bool {
        self.subject == other.subject
            && self.headers == other.headers
            && self.payload == other.payload
            && self.time == other.time
    }
}

impl Message {
    /// How large the message counts: the length of its subject, its written header block and its
    /// payload, or the greatest `usize` where that is more.
    pub fn size(&self) -> usize
        ensures { result ≡ min (size self.now) (2 ^ 64 - 1) }
    {
        self.subject
            .bytes()
            .len()
            .saturating_add(self.headers.written_len())
            .saturating_add(self.payload.len())
    }

    /// What is left of a room of so many bytes once the message is in it, or `None` where it doesn't
    /// fit. Unlike `size` it is exact for any message.
    pub fn left_of(&self, room: u64) -> Option<u64>
        ensures { result ≡ left_of room (size self.now) }
    {
        let room = room.checked_sub(self.subject.bytes().len() as u64)?;
        let room = left_of_block(room, &self.headers)?;
        room.checked_sub(self.payload.len() as u64)
    }
}

/// A message on its way, with the subject on which an answer is awaited, if any.
#[derive(Clone, Debug, Drop)]
pub struct Parcel {
    pub subject: Subject,
    pub reply: Option<Subject>,
    pub headers: Headers,
    pub payload: Bytes,
}

impl PartialEq for Parcel {
    ghost use Rattle.nats_text.specs.SameMessages.{same_parcel, same_parcel-laws};

    ghost eq = { same_parcel };

    ghost laws = { same_parcel-laws };

    fn eq(&self, other: &Parcel) -> bool {
        self.subject == other.subject
            && self.reply == other.reply
            && self.headers == other.headers
            && self.payload == other.payload
    }
}

/// The boot of a shard and a count within it, which together are given once.
#[derive(Clone, Copy, Debug, PartialEq, Eq)]
pub struct Stamp {
    pub boot: u64,
    pub count: u64,
}

/// Where a copy starts: at a sequence number, or at a moment in nanoseconds since 1970.
#[derive(Clone, Copy, Debug, PartialEq, Eq)]
pub enum Start {
    Seq(u64),
    Time(u64),
}
