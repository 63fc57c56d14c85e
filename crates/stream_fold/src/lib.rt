//! A stream as a fold over its entries: what a history of puts, deletions, purges, expiries, binds
//! and changed limits leaves (the streams of JetStream).
#![tactic(auto)]

mod config;
mod decision;
mod entry;
pub mod laws;
mod maps;
mod parts;
mod publish;
mod rows;
mod same;
mod state;
mod trim;
mod verdict;
mod wrong_member;

pub use config::{Config, ConfigFault, Copies, Discard};
pub use decision::{Decision, Reason, Why};
pub use entry::{BoundTo, Entry, Mark, Numbered};
pub use nats_text::{Mapping, Origin};
pub use parts::{Binding, Sent};
pub use state::StreamState;
pub use verdict::{Refusal, Verdict};
