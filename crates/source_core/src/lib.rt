//! What a stream with sources decides about a packet of one of them (the sources of JetStream).
#![tactic(auto)]

mod header;
mod made;
mod routes;
mod sourced;

pub use made::via;
pub use sourced::decide;
