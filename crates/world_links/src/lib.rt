//! The links of a hub and its leaves, in memory: what is under way on them, where a packet goes, and which calls of
//! shards it makes where it comes.
//!
//! Each call does what `world_steps` says of a link. What a node does with a packet that comes is `Links::route`, and
//! nothing else here looks into a packet but [`jobs`].
#![tactic(auto)]

mod channel;
mod following;
pub mod jobs;
mod link;
mod links;

pub use following::{follow, has_failed};
pub use links::{Links, Way};
