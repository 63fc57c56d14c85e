//! What a mirror decides about a packet of its origin (the mirrors of JetStream), and what every copy
//! decides alike.
#![tactic(auto)]

mod contents;
mod mirrored;
mod others;

pub use contents::{content_size, is_back, is_large, legal_message};
pub use mirrored::decide;
pub use others::other_decision;
