//! The two ends of all copies at one shard, in memory: the consumers that send messages of its streams, and
//! the askers of its streams that are copies.
//!
//! Whatever a call of a shard needs memory for is made first, and then counted as done without memory, so
//! that a record can be written in between.
#![tactic(auto)]

mod askers;
mod asking;
mod chosen;
mod consumers;
mod copies;
mod decisions;
mod flow;
mod kept;
mod lists;
mod phases;
mod pumps;

pub use askers::Askers;
pub use asking::Asking;
pub use chosen::Chosen;
pub use consumers::Consumers;
pub use copies::consumer_start;
pub use flow::flow_answer;
