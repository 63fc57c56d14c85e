//! What a step of a star of nodes does: a hub, its leaves, and the packets under way between them. Which events
//! of the world of shards it is made of, in which order, and what is under way then.
//!
//! The world, its events and its runs are defined in `run_soundness`. What is under way on the links is in
//! `specs/Links.antt`, where a packet goes in `specs/Routes.antt`, what a node does with all that comes to it in
//! `specs/Works.antt`, the step of each event in `specs/Steps.antt`, and when the nodes have settled in
//! `specs/CaughtUp.antt` and `specs/Settling.antt`.
#![tactic(auto)]

mod event;
mod job;
pub mod laws;
mod outcome;

pub use event::{Direction, Event};
pub use job::Job;
pub use outcome::StepOutcome;
