//! A shard's log, replayed: what its records leave of each name, with the states of the streams that stand.
//! Bodies are read, and each record is taken where it may follow those before it, and nowhere else.
//!
//! What a log says is defined in `shard_machine`; when what is held is a log's, in `specs/Replays.antt`.
#![tactic(auto)]

mod replay;

pub use replay::{Known, Replay, Replayed, Standing, read_log};
