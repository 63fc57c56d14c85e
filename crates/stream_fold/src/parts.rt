ghost use Rattle.std.specs.Prelude.{◌≡◌, ◌<◌, ◌≤◌, length, ◌+◌, ◌^◌, ◌++◌, ◌∷◌, [], ◌==◌, not, filter, nat_le, drop, Some, vec_len, OnOk};
ghost use Rattle.std.specs.Vec.{vec_capacity};
ghost use Rattle.std.specs.Str.{bytes_eq};
ghost use Rattle.nats_text.specs.Sizes.{size};
ghost use Rattle.stream_fold.specs.Histories.{size_of};
ghost use Rattle.stream_fold.specs.Held.{id_of, sent_id, size_put, transform_of};
ghost use Rattle.stream_fold.specs.Transforming.{own_transform};
ghost use Rattle.stream_fold.specs.Parts.{held_in, room_in, changed_newest, with_message, with_mark, with_sent, still_open, IsSettled};

use crate::rows::Rows;
use crate::trim::{drop_front, is_older};
use crate::{BoundTo, Config, Entry, Mark, Numbered};
use nats_text::{Bytes, Message, NoMemory};
use std::alloc::Global;
use subject_transform::Transform;

/// What an index of a copy is bound to.
#[derive(Clone, Copy, Debug, PartialEq, Eq)]
pub struct Binding {
    pub index: u32,
    pub to: BoundTo,
}

/// The latest message that a client sent under an identifier.
#[derive(Debug, Drop)]
pub struct Sent {
    pub id: Bytes,
    pub seq: u64,
    pub time: u64,
}

/// What a state is made of. `transform` is that of the configuration in force. `spare` is the identifier
/// of the entry for which room was made, and `coming` the transform that it brings.
#[derive(Debug, Drop)]
pub struct Parts {
    pub alloc: Global,
    pub config: Config,
    pub transform: Option<Transform>,
    pub window: u64,
    pub rows: Rows,
    pub last: u64,
    pub clock: u64,
    pub bindings: Vec<Binding>,
    pub marks: Vec<Mark>,
    pub sent: Vec<Sent>,
    pub spare: Option<Bytes>,
    pub coming: Option<Transform>,
}

/// Makes room for one entry in each list.
pub fn reserve_one(parts: &mut Parts) -> Result<(), NoMemory>
    ensures held { held_in parts.new ≡ held_in parts.old }
    ensures spare { parts.new.spare ≡ parts.old.spare }
    ensures transform { parts.new.transform ≡ parts.old.transform }
    ensures coming { parts.new.coming ≡ parts.old.coming }
    ensures room { room_in parts.old ≤ room_in parts.new }
    ensures ok { OnOk result (0 < room_in parts.new) }
{
    parts.rows.reserve()?;
    parts.bindings.reserve(1)?;
    parts.marks.reserve(1)?;
    parts.sent.reserve(1)?;
    Ok(())
}

/// Does what the entry says, and keeps the limit of each subject. The rows were within it before: so
/// only a new row can be one too many of its subject, and only another limit needs a look at all rows.
pub fn change(parts: &mut Parts, entry: Entry)
    requires settled { IsSettled (held_in parts.old) }
    requires room { 0 < room_in parts.old }
    requires spare { parts.old.spare ≡ id_of entry }
    requires sizes { size_of parts.old.rows.rows + size_put entry < 2 ^ 64 }
    requires transform { parts.old.transform ≡ own_transform parts.old.config.transform }
    requires coming { parts.old.coming ≡ transform_of entry }
    ensures held { held_in parts.new ≡ changed_newest (held_in parts.old) entry }
    ensures transform { parts.new.transform ≡ own_transform parts.new.config.transform }
{
    match entry {
        Entry::Put { seq, message, mark } => put(parts, seq, message, mark),
        Entry::Del { seq } => parts.rows.delete(seq),
        Entry::Purge { pattern, below } => parts.rows.purge(&pattern, below),
        Entry::Expire { now } => {
            parts.clock = parts.clock.max(now);
            parts.rows.expire(parts.config.max_age, now);
        }
        Entry::Bind {
            index,
            incarnation,
            start,
        } => parts.bindings.push_reserved(Binding {
            index,
            to: BoundTo { incarnation, start },
        }),
        Entry::Limits { config } => {
            parts.config = config;
            parts.transform = parts.coming.take();
            parts.rows.keep_newest(parts.config.max_per_subject);
        }
    }
}

fn put(parts: &mut Parts, seq: u64, message: Message, mark: Option<Mark>)
    requires room { 0 < room_in parts.old }
    requires spare { parts.old.spare ≡ sent_id message mark }
    requires sizes { size_of parts.old.rows.rows + size message < 2 ^ 64 }
    ensures held { held_in parts.new ≡ with_message (held_in parts.old) (record { seq = seq; message = message }) mark }
    ensures transform { parts.new.transform ≡ parts.old.transform }
{
    let time = message.time;
    parts.last = parts.last.max(seq);
    parts.clock = parts.clock.max(time);
    if let Some(mark) = mark {
        set_mark(&mut parts.marks, mark);
    }
    if let Some(id) = parts.spare.take() {
        set_sent(&mut parts.sent, Sent { id, seq, time });
        drop_closed(&mut parts.sent, parts.window, parts.clock);
    }
    let row = Numbered { seq, message };
    parts.rows.push_newest(row, parts.config.max_per_subject);
}

fn set_mark(marks: &mut Vec<Mark>, mark: Mark)
    requires { vec_len marks.old < vec_capacity marks.old }
    ensures { marks.new.items ≡ with_mark mark marks.old.items }
{
    let index = mark.index;
    drop_marks_of(marks, index);
    marks.push_reserved(mark);
}

fn drop_marks_of(marks: &mut Vec<Mark>, index: u32)
    ensures items { marks.new.items ≡ filter (λ m. not (m.index == index)) marks.old.items }
    ensures shorter { vec_len marks.new ≤ vec_len marks.old }
    ensures capacity { vec_capacity marks.new ≡ vec_capacity marks.old }
{
    marks.retain(|mark| mark.index != index);
}

fn set_sent(list: &mut Vec<Sent>, sent: Sent)
    requires { vec_len list.old < vec_capacity list.old }
    ensures { list.new.items ≡ with_sent sent list.old.items }
{
    drop_sent_as(list, sent.id.as_slice());
    list.push_reserved(sent);
}

fn drop_sent_as(list: &mut Vec<Sent>, id: &[u8])
    ensures items { list.new.items ≡ filter (λ s. not (bytes_eq s.id id.now)) list.old.items }
    ensures shorter { vec_len list.new ≤ vec_len list.old }
    ensures capacity { vec_capacity list.new ≡ vec_capacity list.old }
{
    list.retain(|sent| sent.id.as_slice() != id);
}

/// Takes away the oldest that no publish can repeat any more.
fn drop_closed(list: &mut Vec<Sent>, window: u64, clock: u64)
    ensures { list.new.items ≡ still_open window clock list.old.items }
{
    let closed = count_closed(list, window, clock);
    drop_front(list, closed);
}

fn count_closed(list: &[Sent], window: u64, clock: u64) -> usize
    ensures within { result ≤ length list.now }
    ensures value { drop result list.now ≡ still_open window clock list.now }
{
    let mut closed = 0;
    while closed < list.len() && is_older(list[closed].time, window, clock) {
        closed += 1;
    }
    closed
}
