ghost use Rattle.std.specs.Prelude.{◌≡◌, []};

use js_wire::Packet;
use nats_text::List;
use replica_ask::Asker;
use std::alloc::Global;
use std::marker::Model;

/// Packets that are to be sent, and the askers as they are once those are sent. Nothing has changed yet.
#[derive(Debug, Drop)]
pub struct Asking {
    pub(crate) packets: List<Packet>,
    pub(crate) askers: Vec<Asker>,
}

impl Model for Asking {
    ghost use Rattle.shard_copies.specs.Asked.{AskingState};

    ghost Value = { AskingState };

    ghost view = { λ a. record { packets = a.packets; askers = a.askers.items } };
}

impl Asking {
    /// No copy asks, and these packets are sent before those of copies that will.
    pub fn behind(alloc: Global, packets: List<Packet>) -> Asking
        ensures { result ≡ record { packets = packets; askers = [] } }
    {
        Asking {
            packets,
            askers: Vec::new(alloc),
        }
    }
}
