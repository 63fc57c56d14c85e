//! The streams of a shard in memory: what the calls on them are answered, and the change that the record
//! of a call makes.
//!
//! An answer is decided first, and nothing changes by it. A change then has two halves: the first takes all
//! its memory, the second, once the record is in the journal, takes none and can't fail.
//!
//! When what is held is a log's image is defined in `specs/HeldImages.antt`, what is decided in
//! `specs/Plans.antt`, and what a change has ready in `specs/Halves.antt`.
#![tactic(auto)]

mod deciding;
mod halves;
pub mod laws;
mod members;
mod plan;
mod publishing;
mod reading;
mod removing;
mod streams;

pub use halves::{PreparedCreate, PreparedEntry};
pub use plan::{Creation, Plan};
pub use streams::Streams;
