//! Replies of calls that make no record.
ghost use Rattle.std.specs.Prelude.{◌≡◌, [], None};
ghost use Rattle.shard_machine.specs.declared.reply.Outcome.TheVariants as what;
ghost use Rattle.shard_machine.specs.Views.{replied};

use js_wire::Packet;
use nats_text::List;
use shard_machine::{Outcome, ShardReply};
use std::alloc::Global;

/// The reply of a call that sends nothing.
pub fn with_outcome(alloc: Global, outcome: Outcome) -> ShardReply
    ensures { result ≡ replied outcome None [] [] }
{
    ShardReply {
        outcome,
        entry: None,
        packets: List::new(alloc),
        notices: List::new(alloc),
    }
}

/// The reply of a call that sends what there is.
pub fn with_packets(alloc: Global, packets: List<Packet>) -> ShardReply
    ensures { result ≡ replied what.Sent None packets [] }
{
    ShardReply {
        outcome: Outcome::Sent,
        entry: None,
        packets,
        notices: List::new(alloc),
    }
}
