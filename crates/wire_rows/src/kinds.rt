use crate::rows::{Row, message, name, parcel, patterns};
use js_wire::{AskerId, Packet, of_message, to_message};
use nats_text::{NoMemory, Parcel, Stamp, Start, TextFault};
use std::alloc::Global;
use std::test::Fail;

const LEAST: Stamp = Stamp { boot: 0, count: 0 };

const FIRST: Stamp = Stamp { boot: 1, count: 1 };

const GREATEST: Stamp = Stamp {
    boot: u64::MAX,
    count: u64::MAX,
};

fn asker(alloc: Global) -> Result<AskerId, TextFault> {
    Ok(AskerId {
        node: name(alloc, "leaf1")?,
        stream: name(alloc, "COPY")?,
        index: 0,
    })
}

fn asker_of_quotes(alloc: Global) -> Result<AskerId, TextFault> {
    Ok(AskerId {
        node: name(alloc, "\"")?,
        stream: name(alloc, "A")?,
        index: u32::MAX,
    })
}

/// A request by number, one by time with filters that JSON escapes, and one by the last moment.
const ASKS: [Row; 3] = [
    [
        "$JS.hub.API.CONSUMER.CREATE.ORDERS",
        "$JS.M.leaf1.COPY.0.1.1.A",
        "",
        "{\"config\":{\"ack_policy\":\"none\",\"deliver_policy\":\"by_start_sequence\",\"deliver_subject\":\"$JS.M.leaf1.COPY.0.1.1.D\",\"flow_control\":true,\"idle_heartbeat\":5000000000,\"opt_start_seq\":1},\"stream_name\":\"ORDERS\"}",
    ],
    [
        "$JS.hub.API.CONSUMER.CREATE.ORDERS",
        "$JS.M.\".A.4294967295.18446744073709551615.18446744073709551615.A",
        "",
        "{\"config\":{\"ack_policy\":\"none\",\"deliver_policy\":\"by_start_time\",\"deliver_subject\":\"$JS.M.\\\".A.4294967295.18446744073709551615.18446744073709551615.D\",\"filter_subjects\":[\"a.\\\"\\\\\",\"\u{e9}.>\"],\"flow_control\":true,\"idle_heartbeat\":5000000000,\"opt_start_time\":\"1970-01-01T00:00:00.000000000Z\"},\"stream_name\":\"ORDERS\"}",
    ],
    [
        "$JS.hub.API.CONSUMER.CREATE.ORDERS",
        "$JS.M.leaf1.COPY.0.0.0.A",
        "",
        "{\"config\":{\"ack_policy\":\"none\",\"deliver_policy\":\"by_start_time\",\"deliver_subject\":\"$JS.M.leaf1.COPY.0.0.0.D\",\"flow_control\":true,\"idle_heartbeat\":5000000000,\"opt_start_time\":\"2554-07-21T23:34:33.709551615Z\"},\"stream_name\":\"ORDERS\"}",
    ],
];

fn ask(alloc: Global, at: usize) -> Result<Packet, TextFault> {
    let (asker, attempt, start, filters) = match at {
        0 => (asker(alloc)?, FIRST, Start::Seq(1), patterns(alloc, &[])?),
        1 => (
            asker_of_quotes(alloc)?,
            GREATEST,
            Start::Time(0),
            patterns(alloc, &["a.\"\\", "\u{e9}.>"])?,
        ),
        _ => (
            asker(alloc)?,
            LEAST,
            Start::Time(u64::MAX),
            patterns(alloc, &[])?,
        ),
    };
    Ok(Packet::Ask {
        asker,
        attempt,
        origin: name(alloc, "hub")?,
        stream: name(alloc, "ORDERS")?,
        start,
        filters,
    })
}

/// Answers and refusals, with the least and the greatest numbers.
const ANSWERS: [Row; 4] = [
    [
        "$JS.M.leaf1.COPY.0.1.1.A",
        "",
        "",
        "{\"incarnation\":0,\"name\":\"B0C0\",\"start\":0,\"type\":\"io.nats.jetstream.api.v1.consumer_create_response\"}",
    ],
    [
        "$JS.M.leaf1.COPY.0.1.1.A",
        "",
        "",
        "{\"incarnation\":18446744073709551615,\"name\":\"B18446744073709551615C18446744073709551615\",\"start\":18446744073709551615,\"type\":\"io.nats.jetstream.api.v1.consumer_create_response\"}",
    ],
    [
        "$JS.M.leaf1.COPY.0.1.1.A",
        "",
        "",
        "{\"error\":{\"code\":0,\"err_code\":0},\"type\":\"io.nats.jetstream.api.v1.consumer_create_response\"}",
    ],
    [
        "$JS.M.leaf1.COPY.0.1.1.A",
        "",
        "",
        "{\"error\":{\"code\":404,\"err_code\":4294967295},\"type\":\"io.nats.jetstream.api.v1.consumer_create_response\"}",
    ],
];

fn answer(alloc: Global, at: usize) -> Result<Packet, TextFault> {
    let asker = asker(alloc)?;
    let attempt = FIRST;
    Ok(match at {
        0 => Packet::Answer {
            asker,
            attempt,
            consumer: LEAST,
            incarnation: 0,
            start: 0,
        },
        1 => Packet::Answer {
            asker,
            attempt,
            consumer: GREATEST,
            incarnation: u64::MAX,
            start: u64::MAX,
        },
        2 => Packet::Refuse {
            asker,
            attempt,
            code: 0,
            err_code: 0,
        },
        _ => Packet::Refuse {
            asker,
            attempt,
            code: 404,
            err_code: u32::MAX,
        },
    })
}

/// Deliveries: the first one, one with the greatest numbers, and one of a message that has a status and
/// headers of the names that packets use.
const DELIVERIES: [Row; 3] = [
    [
        "$JS.M.leaf1.COPY.0.1.1.D",
        "$JS.ACK.ORDERS.B1C1.1.1.1.0.0",
        "NATS/1.0\r\nNats-Subject: orders.new\r\n\r\n",
        "hello",
    ],
    [
        "$JS.M.leaf1.COPY.0.1.1.D",
        "$JS.ACK.ORDERS.B2C3.1.18446744073709551614.18446744073709551615.18446744073709551615.18446744073709551613",
        "NATS/1.0\r\nNats-Subject: orders.new\r\n\r\n",
        "",
    ],
    [
        "$JS.M.leaf1.COPY.0.1.1.D",
        "$JS.ACK.ORDERS.B1C1.1.7.8.9.6",
        "NATS/1.0 100 Idle Heartbeat\r\nNats-Subject: $JS.FC.a\r\nNats-Subject: b\r\nLeafd-Consumer: c\r\n\r\n",
        "{}",
    ],
];

fn delivery(alloc: Global, at: usize) -> Result<Packet, TextFault> {
    let (consumer, numbers, message) = match at {
        0 => (
            FIRST,
            [1, 1, 0],
            message(alloc, ["orders.new", "", "hello"], 0)?,
        ),
        1 => (
            Stamp { boot: 2, count: 3 },
            [u64::MAX, u64::MAX - 1, u64::MAX - 2],
            message(alloc, ["orders.new", "", ""], u64::MAX)?,
        ),
        _ => (
            FIRST,
            [8, 7, 6],
            message(
                alloc,
                [
                    "$JS.FC.a",
                    "NATS/1.0 100 Idle Heartbeat\r\nNats-Subject: b\r\nLeafd-Consumer: c\r\n\r\n",
                    "{}",
                ],
                9,
            )?,
        ),
    };
    Ok(Packet::Delivery {
        asker: asker(alloc)?,
        attempt: FIRST,
        stream: name(alloc, "ORDERS")?,
        consumer,
        number: numbers[0],
        seq: numbers[1],
        pending: numbers[2],
        message,
    })
}

/// Heartbeats, a flow request and its answer.
const BEATS: [Row; 4] = [
    [
        "$JS.M.leaf1.COPY.0.1.1.D",
        "",
        "NATS/1.0 100 Idle Heartbeat\r\nLeafd-Consumer: hub ORDERS B1C1\r\nNats-Last-Consumer: 0\r\nNats-Last-Stream: 0\r\n\r\n",
        "",
    ],
    [
        "$JS.M.leaf1.COPY.0.1.1.D",
        "",
        "NATS/1.0 100 Idle Heartbeat\r\nLeafd-Consumer: hub ORDERS B1C1\r\nNats-Last-Consumer: 18446744073709551615\r\nNats-Last-Stream: 18446744073709551614\r\nNats-Consumer-Stalled: $JS.FC.hub.ORDERS.B1C1.18446744073709551615\r\n\r\n",
        "",
    ],
    [
        "$JS.M.leaf1.COPY.0.1.1.D",
        "$JS.FC.hub.ORDERS.B1C1.18446744073709551615",
        "NATS/1.0 100 FlowControl Request\r\n\r\n",
        "",
    ],
    ["$JS.FC.hub.ORDERS.B1C1.0", "", "", ""],
];

fn beat(alloc: Global, at: usize) -> Result<Packet, TextFault> {
    let asker = asker(alloc)?;
    let origin = name(alloc, "hub")?;
    let stream = name(alloc, "ORDERS")?;
    let attempt = FIRST;
    let consumer = FIRST;
    Ok(match at {
        0 => Packet::Beat {
            asker,
            attempt,
            origin,
            stream,
            consumer,
            last_number: 0,
            last_seq: 0,
            stalled: None,
        },
        1 => Packet::Beat {
            asker,
            attempt,
            origin,
            stream,
            consumer,
            last_number: u64::MAX,
            last_seq: u64::MAX - 1,
            stalled: Some(u64::MAX),
        },
        2 => Packet::FlowAsk {
            asker,
            attempt,
            origin,
            stream,
            consumer,
            token: u64::MAX,
        },
        _ => Packet::FlowReply {
            origin,
            stream,
            consumer,
            token: 0,
        },
    })
}

/// Whether a packet is written as the message of a row.
fn is_written(alloc: Global, packet: &Packet, row: &Row) -> Result<bool, TextFault> {
    Ok(to_message(alloc, packet)? == parcel(alloc, row)?)
}

/// Whether a message carries a packet that is written as this message.
fn comes_back(alloc: Global, parcel: &Parcel) -> Result<bool, NoMemory> {
    match of_message(alloc, parcel)? {
        Some(packet) => Ok(to_message(alloc, &packet)? == *parcel),
        None => Ok(false),
    }
}

/// Whether the message of a row carries a packet that is written as this message.
fn is_read(alloc: Global, row: &Row) -> Result<bool, TextFault> {
    Ok(comes_back(alloc, &parcel(alloc, row)?)?)
}

#[test]
fn requests_are_written_and_read(rt: HostRuntime) -> Result<(), Fail> {
    for (at, row) in ASKS.iter().enumerate() {
        assert!(rt;
            is_written(rt.alloc(), &ask(rt.alloc(), at)?, row)?,
            "{row:?}"
        );
        assert!(rt; is_read(rt.alloc(), row)?, "{row:?}");
    }
    Ok(())
}

#[test]
fn answers_are_written_and_read(rt: HostRuntime) -> Result<(), Fail> {
    for (at, row) in ANSWERS.iter().enumerate() {
        assert!(rt;
            is_written(rt.alloc(), &answer(rt.alloc(), at)?, row)?,
            "{row:?}"
        );
        assert!(rt; is_read(rt.alloc(), row)?, "{row:?}");
    }
    Ok(())
}

#[test]
fn deliveries_are_written_and_read(rt: HostRuntime) -> Result<(), Fail> {
    for (at, row) in DELIVERIES.iter().enumerate() {
        assert!(rt;
            is_written(rt.alloc(), &delivery(rt.alloc(), at)?, row)?,
            "{row:?}"
        );
        assert!(rt; is_read(rt.alloc(), row)?, "{row:?}");
    }
    Ok(())
}

#[test]
fn heartbeats_and_flow_are_written_and_read(rt: HostRuntime) -> Result<(), Fail> {
    for (at, row) in BEATS.iter().enumerate() {
        assert!(rt;
            is_written(rt.alloc(), &beat(rt.alloc(), at)?, row)?,
            "{row:?}"
        );
        assert!(rt; is_read(rt.alloc(), row)?, "{row:?}");
    }
    Ok(())
}
