//! Moments as texts, and texts as moments (RFC 3339). A moment is a number of nanoseconds since the
//! beginning of 1970 in UTC.
#![tactic(auto)]

pub mod laws;
mod moment;

pub use moment::{moment_of, moment_text};
