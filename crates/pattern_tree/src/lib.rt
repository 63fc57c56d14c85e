//! Subscriptions that are found by who holds them, and by the subjects that they match.
//!
//! They stand in order in one set, and once more by the bytes of their patterns. Patterns that begin with
//! the same tokens stand side by side there, so that a walk along the tokens of a subject asks at each token
//! whether any goes on.
#![tactic(auto)]

mod entry;
mod found;
mod listing;
mod tree;
mod walk;

pub use entry::Entry;
pub use tree::PatternTree;
