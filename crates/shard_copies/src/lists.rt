//! Lists of consumers, as the answers of a shard go over them.
ghost use Rattle.std.specs.Prelude.{◌≡◌, ◌+◌, ◌≤◌, map, filter, find, count_by, not, if◌then◌else◌, None, Some, IfOk, vec_len};
ghost use Rattle.std.specs.Option.{option_copied};
ghost use Rattle.std.specs.Vec.{vec_capacity};
ghost use Rattle.push_consumer.specs.Progress.{after_beat};
ghost use Rattle.replica_ask.specs.Orders.{same_stamp};
ghost use Rattle.shard_machine.specs.declared.reply.ShardRefusal.TheVariants as refusal;
ghost use Rattle.shard_machine.specs.Answers.{reads_stream, serves, same_asker, is_earlier, for_stream, takes_token, paused_for};
ghost use Rattle.shard_copies.specs.Standing.{answer_to};

use js_wire::{AskerId, Packet};
use nats_text::{Name, NoMemory, Stamp};
use push_consumer::{Consumer, Wanted};
use shard_machine::ShardRefusal;

pub fn reads(consumer: &Consumer, name: &Name) -> bool
    ensures { result ≡ reads_stream name.now consumer.now }
{
    consumer.stream().bytes() == name.bytes()
}

fn same_asker(one: &AskerId, other: &AskerId) -> bool
    ensures { result ≡ same_asker one.now other.now }
{
    one.node.bytes() == other.node.bytes()
        && one.stream.bytes() == other.stream.bytes()
        && one.index == other.index
}

fn serves(consumer: &Consumer, name: &Name, asker: &AskerId) -> bool
    ensures { result ≡ serves name.now asker.now consumer.now }
{
    reads(consumer, name) && same_asker(&consumer.wanted().asker, asker)
}

fn is_earlier(one: Stamp, other: Stamp) -> bool
    ensures { result ≡ is_earlier one other }
{
    one.boot < other.boot || (one.boot == other.boot && one.count < other.count)
}

fn same_stamp(one: Stamp, other: Stamp) -> bool
    ensures { result ≡ same_stamp one other }
{
    one.boot == other.boot && one.count == other.count
}

pub fn count_of(all: &[Consumer], name: &Name) -> usize
    ensures { result ≡ count_by (reads_stream name.now) all.now }
{
    all.iter().filter(|consumer| reads(consumer, name)).count()
}

/// The consumer of a stream that serves the asker.
pub fn consumer_for<'a>(all: &'a [Consumer], name: &Name, asker: &AskerId) -> Option<&'a Consumer>
    ensures { option_copied result ≡ find (serves name.now asker.now) all.now }
{
    for consumer in all {
        if serves(consumer, name, asker) {
            return Some(consumer);
        }
    }
    None
}

/// The refusal of an attempt that isn't later than the one that is kept.
pub fn refused_attempt(kept: Stamp, seen: Stamp) -> Option<ShardRefusal>
    ensures { result ≡ (if is_earlier kept seen then None else Some (refusal.OldAttempt kept seen)) }
{
    if is_earlier(kept, seen) {
        None
    } else {
        Some(ShardRefusal::OldAttempt { kept, seen })
    }
}

/// The number behind this one.
pub fn next_count(given: u64) -> Result<u64, NoMemory>
    ensures { IfOk result (λ next. next ≡ given + 1) }
{
    given.checked_add(1).ok_or(NoMemory)
}

pub fn copied_name(name: &Name) -> Result<Name, NoMemory>
    ensures { IfOk result (λ copy. copy ≡ name.now) }
{
    Ok(name.clone()?)
}

/// What the copy is answered for which a consumer was made.
pub fn answer(consumer: Stamp, incarnation: u64, wanted: &Wanted) -> Result<Packet, NoMemory>
    ensures { IfOk result (λ packet. packet ≡ answer_to consumer incarnation wanted.now) }
{
    Ok(Packet::Answer {
        asker: wanted.asker.clone()?,
        attempt: wanted.attempt,
        consumer,
        incarnation,
        start: wanted.start,
    })
}

/// Takes away the consumers of a stream that serve the asker.
pub fn drop_earlier(all: &mut Vec<Consumer>, name: &Name, asker: &AskerId)
    ensures items { all.new.items ≡ filter (λ c. not (serves name.now asker.now c)) all.old.items }
    ensures shorter { vec_len all.new ≤ vec_len all.old }
    ensures capacity { vec_capacity all.new ≡ vec_capacity all.old }
{
    all.retain(|consumer| !serves(consumer, name, asker));
}

/// Takes away the consumers of a stream.
pub fn drop_of(all: &mut Vec<Consumer>, name: &Name)
    ensures { all.new.items ≡ filter (λ c. not (reads_stream name.now c)) all.old.items }
{
    all.retain(|consumer| !reads(consumer, name));
}

/// The consumer of a stream that has this name takes the token.
pub fn take_reply(all: &mut [Consumer], name: &Name, stamp: Stamp, token: u64)
    ensures { all.new ≡ for_stream name.now (λ c. if same_stamp c.name stamp then takes_token token c else c) all.old }
{
    for consumer in all.iter_mut() {
        take_if_named(consumer, name, stamp, token);
    }
}

fn take_if_named(consumer: &mut Consumer, name: &Name, stamp: Stamp, token: u64)
    ensures { consumer.new ≡ (if reads_stream name.now consumer.old then (if same_stamp consumer.old.name stamp then takes_token token consumer.old else consumer.old) else consumer.old) }
{
    if reads(consumer, name) && same_stamp(consumer.name(), stamp) {
        consumer.on_reply(token);
    }
}

/// The consumers of a node's askers go on, or pause.
pub fn pause_for(all: &mut [Consumer], node: &Name, there: bool)
    ensures { all.new ≡ map (paused_for node.now there) all.old }
{
    for consumer in all.iter_mut() {
        pause_if(consumer, node, there);
    }
}

fn pause_if(consumer: &mut Consumer, node: &Name, there: bool)
    ensures { consumer.new ≡ paused_for node.now there consumer.old }
{
    if consumer.wanted().asker.node.bytes() == node.bytes() {
        if there {
            consumer.resume();
        } else {
            consumer.pause();
        }
    }
}

/// The beats for which it is time count as sent.
pub fn count_beats(all: &mut [Consumer], now: u64)
    ensures { all.new ≡ map (after_beat now) all.old }
{
    for consumer in all.iter_mut() {
        consumer.beaten(now);
    }
}
