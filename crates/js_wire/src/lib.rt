//! The packets between a copy and its origin, and the messages that carry them (the push consumers
//! and their flow control of JetStream).
#![tactic(auto)]

mod beats;
mod headers;
pub mod laws;
mod number;
mod packet;
mod payload;
mod read;
mod receive;
mod subjects;
mod told;
mod words;
mod write;

pub use packet::{AskerId, Packet};
pub use receive::of_message;
pub use write::to_message;
