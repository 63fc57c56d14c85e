//! A shard, and its store: the log for which the journals on its two disks stand, and the streams that it
//! leaves.
//!
//! A [`Shard`] answers calls; its contracts are in `shard_calls`. What two disks stand for is defined in
//! `record_log`, and what is shown of it in `specs/Streams.antt`.
#![tactic(auto)]

mod list;
mod read;

pub use read::read_streams;
pub use record_log::{OpenFault, Part, StoreFault};
pub use shard_calls::Shard;
pub use shard_machine::{CopyFact, Facts, Outcome, ShardCall, ShardRefusal, ShardReply, Which};
