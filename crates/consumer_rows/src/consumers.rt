//! What a consumer sends: over holes, with filters, within its budget and its window, and its beats.
use crate::streams::state;
use crate::table::{fields, number_in, patterns};
use crate::told::told;
use js_wire::AskerId;
use nats_text::{List, Name, Stamp, TextFault, pieces};
use push_consumer::{Consumer, Wanted};
use std::alloc::Global;
use std::process::Abort;
use std::test::Fail;
use stream_fold::StreamState;

/// What a stream keeps from five messages once the third is deleted.
const HOLES: &[u8] = b"put 1 a 3,put 2 b 3,put 3 a 3,put 4 a 3,put 5 b 3,del 3";

/// Messages that count 262,144 bytes each.
const QUARTERS: &[u8] =
    b"put 1 a 262143,put 2 a 262143,put 3 a 262143,put 4 a 262143,put 5 a 262143,put 6 a 262143";

/// Messages of 1,048,575 bytes each, one less than the window.
const NEAR_WINDOW: &[u8] = b"put 1 a 1048574,put 2 a 1048574,put 3 a 1048574";

/// Two messages of 131,072 bytes, and others of 131,071, 131,072 and 1.
const HALVES: &[u8] = b"put 1 a 131071,put 2 a 131071,put 3 a 131070,put 4 a 131071,put 5 a 0";

/// A consumer that was made at the moment 7 and starts at the number and with the filters of a text.
fn consumer(alloc: Global, wanted: &[u8]) -> Result<Consumer, TextFault> {
    let (start, filters) = fields(wanted, b' ');
    let wanted = Wanted {
        asker: asker(alloc)?,
        attempt: Stamp { boot: 3, count: 1 },
        origin: Name::read(alloc, b"hub")?,
        start: number_in(start),
        filters: patterns(alloc, filters)?,
    };
    let name = Stamp { boot: 4, count: 2 };
    let stream = Name::read(alloc, b"S")?;
    Ok(Consumer::new(name, stream, wanted, 7))
}

fn asker(alloc: Global) -> Result<AskerId, TextFault> {
    let node = Name::read(alloc, b"leaf1")?;
    let stream = Name::read(alloc, b"COPY")?;
    Ok(AskerId {
        node,
        stream,
        index: 0,
    })
}

/// Whether a consumer answers each call of a table as its row says. A row is a call, a bar and what
/// is sent. The calls are `pump BUDGET`, which is made at the moment 8, `tick NOW`, `reply TOKEN`, `pause`,
/// `resume` and `out`, which tells what is outstanding.
fn answers(alloc: Global, entries: &[u8], wanted: &[u8], table: &[u8]) -> Result<bool, TextFault> {
    let state = state(alloc, entries)?;
    let mut consumer = consumer(alloc, wanted)?;
    for row in &pieces(alloc, table, b'\n')? {
        let (call, want) = fields(row, b'|');
        if !answers_one(alloc, &state, &mut consumer, call, want)? {
            return Ok(false);
        }
    }
    Ok(true)
}

fn answers_one(
    alloc: Global,
    state: &StreamState,
    consumer: &mut Consumer,
    call: &[u8],
    want: &[u8],
) -> Result<bool, TextFault> {
    let (kind, argument) = fields(call, b' ');
    let number = number_in(argument);
    match kind {
        b"pump" => pumps(alloc, state, consumer, number, want),
        b"tick" => ticks(alloc, consumer, number, want),
        b"out" => Ok(consumer.outstanding() == number_in(want)),
        b"reply" => {
            consumer.on_reply(number);
            Ok(true)
        }
        b"pause" => {
            consumer.pause();
            Ok(true)
        }
        _ => {
            consumer.resume();
            Ok(true)
        }
    }
}

fn pumps(
    alloc: Global,
    state: &StreamState,
    consumer: &mut Consumer,
    budget: u64,
    want: &[u8],
) -> Result<bool, TextFault> {
    let budget = u32::try_from(budget).unwrap_or(0);
    let packets = consumer.pump(alloc, state, budget, 8)?;
    Ok(told(alloc, packets.as_slice())?.as_bytes() == want)
}

fn ticks(alloc: Global, consumer: &mut Consumer, now: u64, want: &[u8]) -> Result<bool, TextFault> {
    let mut packets = List::new(alloc);
    if let Some(beat) = consumer.tick(alloc, now)? {
        packets.push(beat)?;
    }
    Ok(told(alloc, packets.as_slice())?.as_bytes() == want)
}

#[test]
fn a_consumer_goes_over_holes(rt: HostRuntime) -> Result<(), Fail> {
    let table = b"\
        pump 3|1:1/3 2:2/2 3:4/1\n\
        pump 9|4:5/0\n\
        pump 9|";
    assert!(rt; answers(rt.alloc(), HOLES, b"1", table)?);
    Ok(())
}

#[test]
fn a_consumer_sends_what_its_filters_want(rt: HostRuntime) -> Result<(), Fail> {
    let alloc = rt.alloc();
    assert!(rt; answers(alloc, HOLES, b"1 a", b"pump 9|1:1/1 2:4/0")?);
    assert!(rt; answers(alloc, HOLES, b"2 a,c", b"pump 9|1:4/0")?);
    assert!(rt; answers(alloc, HOLES, b"2 c,>", b"pump 9|1:2/2 2:4/1 3:5/0")?);
    assert!(rt; answers(alloc, HOLES, b"3 c", b"pump 9|")?);
    assert!(rt; answers(alloc, HOLES, b"0", b"pump 9|1:1/3 2:2/2 3:4/1 4:5/0")?);
    assert!(rt; answers(alloc, HOLES, b"6", b"pump 9|")?);
    Ok(())
}

#[test]
fn a_consumer_keeps_to_its_budget_and_its_pause(rt: HostRuntime) -> Result<(), Fail> {
    let table = b"\
        pump 0|\n\
        pump 1|1:1/3\n\
        pause|\n\
        pump 9|\n\
        tick 9000000000|\n\
        resume|\n\
        pump 2|2:2/2 3:4/1\n\
        out|12";
    assert!(rt; answers(rt.alloc(), HOLES, b"1", table)?);
    Ok(())
}

#[test]
fn a_consumer_keeps_to_its_window(rt: HostRuntime) -> Result<(), Fail> {
    let table = b"\
        pump 9|1:1/5 ?1 2:2/4 ?2 3:3/3 ?3 4:4/2 ?4\n\
        out|1048576\n\
        pump 9|\n\
        tick 5000000007|\n\
        tick 5000000008|beat 4 4 4\n\
        reply 5|\n\
        reply 0|\n\
        out|1048576\n\
        reply 1|\n\
        out|786432\n\
        tick 10000000008|beat 4 4 -\n\
        pump 9|5:5/1 ?5\n\
        out|1048576\n\
        reply 5|\n\
        reply 3|\n\
        out|0\n\
        pump 9|6:6/0 ?6\n\
        out|262144";
    assert!(rt; answers(rt.alloc(), QUARTERS, b"1", table)?);
    Ok(())
}

#[test]
fn one_message_may_pass_the_window(rt: HostRuntime) -> Result<(), Fail> {
    let table = b"\
        pump 9|1:1/2 ?1 2:2/1 ?2\n\
        out|2097150\n\
        reply 1|\n\
        pump 9|3:3/0 ?3";
    assert!(rt; answers(rt.alloc(), NEAR_WINDOW, b"1", table)?);
    Ok(())
}

#[test]
fn flow_requests_follow_a_quarter_of_the_window(rt: HostRuntime) -> Result<(), Fail> {
    let table = b"\
        pump 9|1:1/4 2:2/3 ?1 3:3/2 4:4/1 5:5/0 ?2\n\
        out|524288\n\
        reply 2|\n\
        out|0";
    assert!(rt; answers(rt.alloc(), HALVES, b"1", table)?);
    Ok(())
}

#[test]
fn an_idle_consumer_beats(rt: HostRuntime) -> Result<(), Fail> {
    let table = b"\
        tick 6|\n\
        tick 5000000006|\n\
        tick 5000000007|beat 0 0 -\n\
        tick 10000000006|\n\
        pause|\n\
        tick 10000000007|\n\
        resume|\n\
        tick 10000000007|beat 0 0 -\n\
        pump 2|1:1/3 2:2/2\n\
        tick 5000000007|\n\
        tick 5000000008|beat 2 2 -";
    assert!(rt; answers(rt.alloc(), HOLES, b"1", table)?);
    Ok(())
}

/// Whether a consumer tells who it is.
fn tells_its_name(alloc: Global) -> Result<bool, TextFault> {
    let consumer = consumer(alloc, b"5 a")?;
    Ok(
        consumer.name() == Stamp { boot: 4, count: 2 }
            && consumer.stream().bytes() == b"S".as_slice()
            && consumer.wanted().start == 5
            && consumer.wanted().origin.bytes() == b"hub".as_slice(),
    )
}

#[test]
fn a_consumer_tells_its_name(rt: HostRuntime) -> Result<(), Fail> {
    assert!(rt; tells_its_name(rt.alloc())?);
    Ok(())
}
