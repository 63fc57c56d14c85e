use crate::rows::{Row, parcel};
use js_wire::of_message;
use nats_text::TextFault;
use std::alloc::Global;
use std::test::Fail;

/// Messages that are nearly those of packets.
const ROWS: [Row; 30] = [
    // A leading zero, a number past 64 bits, an index past 32 bits, a number of no digits.
    ["$JS.FC.hub.ORDERS.B1C1.00", "", "", ""],
    ["$JS.FC.hub.ORDERS.B01C1.0", "", "", ""],
    ["$JS.FC.hub.ORDERS.B1C1.18446744073709551616", "", "", ""],
    ["$JS.FC.hub.ORDERS.B1C1.+1", "", "", ""],
    ["$JS.FC.hub.ORDERS.B1C.1", "", "", ""],
    ["$JS.FC.hub.ORDERS.b1C1.1", "", "", ""],
    // One word more, and one less.
    ["$JS.FC.hub.ORDERS.B1C1.0.0", "", "", ""],
    ["$JS.FC.hub.ORDERS.B1C1", "", "", ""],
    // A payload, a header and a reply where none are.
    ["$JS.FC.hub.ORDERS.B1C1.0", "", "", " "],
    [
        "$JS.FC.hub.ORDERS.B1C1.0",
        "",
        "NATS/1.0\r\na: b\r\n\r\n",
        "",
    ],
    ["$JS.FC.hub.ORDERS.B1C1.0", "x", "", ""],
    // A flow request: another status, a pair, the subject for answers.
    [
        "$JS.M.leaf1.COPY.0.1.1.D",
        "$JS.FC.hub.ORDERS.B1C1.1",
        "NATS/1.0 100 Flowcontrol Request\r\n\r\n",
        "",
    ],
    [
        "$JS.M.leaf1.COPY.0.1.1.D",
        "$JS.FC.hub.ORDERS.B1C1.1",
        "NATS/1.0 100 FlowControl Request\r\na: b\r\n\r\n",
        "",
    ],
    [
        "$JS.M.leaf1.COPY.0.1.1.A",
        "$JS.FC.hub.ORDERS.B1C1.1",
        "NATS/1.0 100 FlowControl Request\r\n\r\n",
        "",
    ],
    [
        "$JS.M.leaf1.COPY.4294967296.1.1.D",
        "$JS.FC.hub.ORDERS.B1C1.1",
        "NATS/1.0 100 FlowControl Request\r\n\r\n",
        "",
    ],
    // A delivery: no subject, another header first, delivered twice, a reply that is missing.
    [
        "$JS.M.leaf1.COPY.0.1.1.D",
        "$JS.ACK.ORDERS.B1C1.1.1.1.0.0",
        "",
        "hello",
    ],
    [
        "$JS.M.leaf1.COPY.0.1.1.D",
        "$JS.ACK.ORDERS.B1C1.1.1.1.0.0",
        "NATS/1.0\r\na: b\r\nNats-Subject: orders.new\r\n\r\n",
        "hello",
    ],
    [
        "$JS.M.leaf1.COPY.0.1.1.D",
        "$JS.ACK.ORDERS.B1C1.1.1.1.0.0",
        "NATS/1.0\r\nNats-Subject: orders.*\r\n\r\n",
        "hello",
    ],
    [
        "$JS.M.leaf1.COPY.0.1.1.D",
        "$JS.ACK.ORDERS.B1C1.2.1.1.0.0",
        "NATS/1.0\r\nNats-Subject: orders.new\r\n\r\n",
        "hello",
    ],
    [
        "$JS.M.leaf1.COPY.0.1.1.D",
        "",
        "NATS/1.0\r\nNats-Subject: orders.new\r\n\r\n",
        "hello",
    ],
    // A heartbeat: another order, one header more, the token of another consumer, two spaces.
    [
        "$JS.M.leaf1.COPY.0.1.1.D",
        "",
        "NATS/1.0 100 Idle Heartbeat\r\nLeafd-Consumer: hub ORDERS B1C1\r\nNats-Last-Stream: 0\r\nNats-Last-Consumer: 0\r\n\r\n",
        "",
    ],
    [
        "$JS.M.leaf1.COPY.0.1.1.D",
        "",
        "NATS/1.0 100 Idle Heartbeat\r\nLeafd-Consumer: hub ORDERS B1C1\r\nNats-Last-Consumer: 0\r\nNats-Last-Stream: 0\r\na: b\r\n\r\n",
        "",
    ],
    [
        "$JS.M.leaf1.COPY.0.1.1.D",
        "",
        "NATS/1.0 100 Idle Heartbeat\r\nLeafd-Consumer: hub ORDERS B1C1\r\nNats-Last-Consumer: 0\r\nNats-Last-Stream: 0\r\nNats-Consumer-Stalled: $JS.FC.hub.ORDERS.B1C2.1\r\n\r\n",
        "",
    ],
    [
        "$JS.M.leaf1.COPY.0.1.1.D",
        "",
        "NATS/1.0 100 Idle Heartbeat\r\nLeafd-Consumer: hub  ORDERS B1C1\r\nNats-Last-Consumer: 0\r\nNats-Last-Stream: 0\r\n\r\n",
        "",
    ],
    // A refusal: blanks in the JSON, members in another order, another member, a number with a fraction,
    // a number past 32 bits, a reply.
    [
        "$JS.M.leaf1.COPY.0.1.1.A",
        "",
        "",
        "{\"error\": {\"code\":0,\"err_code\":0},\"type\":\"io.nats.jetstream.api.v1.consumer_create_response\"}",
    ],
    [
        "$JS.M.leaf1.COPY.0.1.1.A",
        "",
        "",
        "{\"type\":\"io.nats.jetstream.api.v1.consumer_create_response\",\"error\":{\"code\":0,\"err_code\":0}}",
    ],
    [
        "$JS.M.leaf1.COPY.0.1.1.A",
        "",
        "",
        "{\"error\":{\"code\":0,\"err_code\":0},\"more\":1,\"type\":\"io.nats.jetstream.api.v1.consumer_create_response\"}",
    ],
    [
        "$JS.M.leaf1.COPY.0.1.1.A",
        "",
        "",
        "{\"error\":{\"code\":0.0,\"err_code\":0},\"type\":\"io.nats.jetstream.api.v1.consumer_create_response\"}",
    ],
    [
        "$JS.M.leaf1.COPY.0.1.1.A",
        "",
        "",
        "{\"error\":{\"code\":4294967296,\"err_code\":0},\"type\":\"io.nats.jetstream.api.v1.consumer_create_response\"}",
    ],
    [
        "$JS.M.leaf1.COPY.0.1.1.A",
        "x",
        "",
        "{\"error\":{\"code\":0,\"err_code\":0},\"type\":\"io.nats.jetstream.api.v1.consumer_create_response\"}",
    ],
];

/// Whether the message of a row carries no packet.
fn is_nothing(alloc: Global, row: &Row) -> Result<bool, TextFault> {
    Ok(of_message(alloc, &parcel(alloc, row)?)?.is_none())
}

#[test]
fn what_is_almost_a_packet_is_none(rt: HostRuntime) -> Result<(), Fail> {
    for row in ROWS.iter() {
        assert!(rt; is_nothing(rt.alloc(), row)?, "{row:?}");
    }
    Ok(())
}
