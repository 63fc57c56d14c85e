ghost use Rattle.std.specs.Prelude.{◌≡◌};
ghost use Rattle.replica_ask.specs.Orders.{of_asking, of_bound, of_beat, of_delivery};

use crate::Order;
use js_wire::Packet;
use nats_text::Stamp;

/// What a packet is to an asker that awaits the answer to an attempt.
pub fn of_asking(asked: Stamp, packet: &Packet) -> Order
    ensures { result ≡ of_asking asked packet.now }
{
    match packet {
        Packet::Answer { attempt, .. } if *attempt == asked => Order::Answer,
        Packet::Refuse { attempt, .. } if *attempt == asked => Order::Refuse,
        _ => Order::Foreign,
    }
}

/// What a packet is to an asker that awaits the delivery `next` of a consumer.
pub fn of_bound(asked: Stamp, bound: Stamp, next: u64, packet: &Packet) -> Order
    ensures { result ≡ of_bound asked bound next packet.now }
{
    match packet {
        Packet::Delivery {
            attempt,
            consumer,
            number,
            ..
        } if *attempt == asked && *consumer == bound => of_delivery(*number, next),
        Packet::Beat {
            attempt,
            consumer,
            last_number,
            ..
        } if *attempt == asked && *consumer == bound => of_beat(*last_number, next),
        Packet::FlowAsk {
            attempt,
            consumer,
            ..
        } if *attempt == asked && *consumer == bound => Order::FlowAsk,
        _ => Order::Foreign,
    }
}

fn of_delivery(number: u64, next: u64) -> Order
    ensures { result ≡ of_delivery number next }
{
    if number == next {
        Order::Next
    } else if number < next {
        Order::Old { number, next }
    } else {
        Order::Gap {
            expected: next,
            got: number,
        }
    }
}

fn of_beat(last_number: u64, next: u64) -> Order
    ensures { result ≡ of_beat last_number next }
{
    if last_number < next {
        Order::Beat
    } else {
        Order::Gap {
            expected: next,
            got: last_number.saturating_add(1),
        }
    }
}
