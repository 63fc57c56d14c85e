//! Every run of nodes that copy one another's streams is sound, whatever is lost, repeated or reordered on
//! the way, and whenever a node crashes.
//!
//! What a shard is in a world is defined in `specs/Shards.antt`, the world, its events and its runs in
//! `specs/Worlds.antt`, and what a sound world is in `specs/Soundness.antt`. There is no code here but the laws.
#![tactic(auto)]

pub mod laws;
