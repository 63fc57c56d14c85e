//! What a mirror and a source decide about each packet. A row of their tables has what was taken, the
//! phase of the asker, the packet, and the decision.
use crate::copies::{mirror, source};
use crate::packets::{asker_in, packet};
use crate::streams::state;
use crate::table::fields;
use crate::told::told;
use js_wire::Packet;
use nats_text::{NoMemory, TextFault, pieces};
use replica_ask::Asker;
use std::alloc::Global;
use std::test::Fail;
use stream_fold::{Copies, Decision, Reason, StreamState};

/// Of a mirror that starts at 2.
const MIRROR: &[u8] = b"\
    |asked|answer 9 3|bind 0 9 3\n\
    bind|asked|answer 9 5|rebind\n\
    bind|asked|answer 8 3|stop 9 8\n\
    |asked|refuse|refused\n\
    |asked|deliver 1 5 a|foreign\n\
    |asked|flow|foreign\n\
    |bound|answer 9 3|foreign\n\
    |bound|deliver 1 5 a|store 5 a at 50\n\
    |bound|deliver 1 2 a|store 2 a at 50\n\
    |bound|deliver 1 1 a|back 1 1\n\
    bind|bound|deliver 1 2 a|back 2 2\n\
    bind,5|bound|deliver 1 5 a|back 5 5\n\
    bind,5|bound|deliver 1 9 a|store 9 a at 50\n\
    |bound|deliver 1 9223372036854775807 a|store 9223372036854775807 a at 50\n\
    |bound|deliver 1 2^63 a|back 9223372036854775808 1\n\
    |bound|deliver 0 5 a|old 0 1\n\
    |bound|deliver 2 5 a|gap 1 2\n\
    |bound|deliver 1 5 a 2010000|store 5 a at 50\n\
    |bound|deliver 1 5 a 2010001|large 2010001\n\
    |bound|beat 0|heard\n\
    |bound|beat 0 4|reply\n\
    |bound|beat 2|gap 1 3\n\
    |bound|flow|reply";

/// Of a source at the moment 70, with its filter or its maps first.
const SOURCE: &[u8] = b"\
    >||asked|answer 9 3|bind 0 9 3\n\
    >|bind|asked|answer 9 5|rebind\n\
    >|bind|asked|answer 8 3|stop 9 8\n\
    >||asked|refuse|refused\n\
    >||asked|deliver 1 5 a|foreign\n\
    >||asked|flow|foreign\n\
    >||bound|answer 9 3|foreign\n\
    >||bound|deliver 1 5 a|store 1 a at 70 of 0 5\n\
    >|bind|bound|deliver 1 2 a|back 2 2\n\
    >|bind|bound|deliver 1 3 a|store 1 a at 70 of 0 3\n\
    >|6|bound|deliver 1 5 a|store 7 a at 100 of 0 5\n\
    b.>||bound|deliver 1 5 a|skip\n\
    b.>||bound|deliver 1 5 b.c|store 1 b.c at 70 of 0 5\n\
    b.*=c.$1||bound|deliver 1 5 a|skip\n\
    b.*=c.$1||bound|deliver 1 5 b.c|store 1 c.c at 70 of 0 5\n\
    >|9223372036854775807|bound|deliver 1 5 a|end\n\
    b.>|9223372036854775807|bound|deliver 1 5 a|skip\n\
    >||bound|deliver 1 2^63 a|back 9223372036854775808 0\n\
    >||bound|deliver 0 5 a|old 0 1\n\
    >||bound|deliver 2 5 a|gap 1 2\n\
    >||bound|deliver 1 5 a 2010000|store 1 a at 70 of 0 5\n\
    >||bound|deliver 1 5 a 2010001|large 2010001\n\
    >||bound|beat 0|heard\n\
    >||bound|beat 0 4|reply\n\
    >||bound|beat 2|gap 1 3\n\
    >||bound|flow|reply";

#[test]
fn a_mirror_decides(rt: HostRuntime) -> Result<(), Fail> {
    for row in &pieces(rt.alloc(), MIRROR, b'\n')? {
        let is_right = mirror_decides(rt.alloc(), row)?;
        assert!(rt; is_right, "{row:?}");
    }
    Ok(())
}

#[test]
fn a_source_decides(rt: HostRuntime) -> Result<(), Fail> {
    for row in &pieces(rt.alloc(), SOURCE, b'\n')? {
        let is_right = source_decides(rt.alloc(), row)?;
        assert!(rt; is_right, "{row:?}");
    }
    Ok(())
}

fn mirror_decides(alloc: Global, row: &[u8]) -> Result<bool, TextFault> {
    decides(alloc, mirror(alloc)?, row)
}

fn source_decides(alloc: Global, row: &[u8]) -> Result<bool, TextFault> {
    let (from, row) = fields(row, b'|');
    decides(alloc, source(alloc, from)?, row)
}

/// Whether a stream of such copies decides as a row says.
fn decides(alloc: Global, copies: Copies, row: &[u8]) -> Result<bool, TextFault> {
    let (taken, row) = fields(row, b'|');
    let (phase, row) = fields(row, b'|');
    let state = state(alloc, copies, taken)?;
    let asker = asker_in(alloc, phase)?;
    answers(alloc, &state, &asker, row)
}

fn answers(
    alloc: Global,
    state: &StreamState,
    asker: &Asker,
    row: &[u8],
) -> Result<bool, TextFault> {
    let (text, want) = fields(row, b'|');
    let packet = packet(alloc, text)?;
    let answer = decided(alloc, state, asker, &packet);
    drop(packet);
    is_told(alloc, answer?, want)
}

fn is_told(alloc: Global, decision: Decision, want: &[u8]) -> Result<bool, TextFault> {
    let text = told(alloc, &decision);
    drop(decision);
    Ok(text?.as_bytes() == want)
}

/// What the first copy of a stream decides at the moment 70.
fn decided(
    alloc: Global,
    state: &StreamState,
    asker: &Asker,
    packet: &Packet,
) -> Result<Decision, NoMemory> {
    let is_legal = state.config().check(alloc).is_ok();
    match &state.config().copies {
        Copies::Mirror(_) => mirror_core::decide(alloc, state, asker, packet),
        Copies::Sources(origins) if is_legal && !origins.is_empty() => {
            source_core::decide(alloc, state, 0, asker, packet, 70)
        }
        _ => Ok(Decision::Ignore(Reason::Foreign)),
    }
}
