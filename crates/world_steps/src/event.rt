use nats_text::Name;
use shard_machine::ShardCall;

/// A direction of the link between the hub and a leaf.
#[derive(Clone, Copy, Debug, PartialEq, Eq)]
pub enum Direction {
    ToLeaf,
    ToHub,
}

/// What may be asked of a star of nodes. `from` and `to` are the hub and a leaf.
#[derive(Debug, Drop)]
pub enum Event {
    /// A shard of the node is called, the one of the stream that the call names.
    Call { node: Name, call: ShardCall },
    /// So many of the frames that are under way are carried, the first first.
    Carry { from: Name, to: Name, count: u32 },
    /// So many frames more are lost, of those that are carried next.
    Lose { from: Name, to: Name, count: u32 },
    /// So many frames more stay under way as well, of those that are carried next, behind the others.
    Repeat { from: Name, to: Name, count: u32 },
    /// The frames under way are turned round, the last first.
    Reverse { from: Name, to: Name },
    /// The frames under way are lost.
    Drop { from: Name, to: Name },
    /// The leaf's link goes down.
    Cut { leaf: Name },
    /// The leaf's link goes up.
    Join { leaf: Name },
}
