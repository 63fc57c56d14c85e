//! What an origin sends to one copy: the kept messages that the copy wants, one after another, within a
//! window of bytes and with flow requests (the push consumers of JetStream with flow control).
#![tactic(auto)]

mod consumer;
mod counts;
pub mod laws;
mod send;
mod wanted;

pub use consumer::Consumer;
pub use wanted::Wanted;
