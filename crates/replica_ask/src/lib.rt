//! The asker of a copy: which attempt to get messages of the origin stands, and what a packet of the
//! origin is to it (the consumer of a mirror or source in JetStream).
#![tactic(auto)]

mod asker;
mod filters;
mod order;
mod phase;

pub use asker::Asker;
pub use phase::{Order, Phase};
