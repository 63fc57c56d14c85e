//! A journal of bodies on a disk, each behind a gate byte that is opened only once the body is on the
//! disk: an append is there whole after a crash, or not at all.
//!
//! What the bytes of an area mean is said in `specs/Areas.antt`.
#![tactic(auto)]

mod area;
mod device;
mod fault;
mod journal;
pub mod laws;
mod walk;

pub use area::{Area, Ending};
pub use fault::{AppendFault, LoadFault};
pub use journal::Journal;
