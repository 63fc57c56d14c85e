//! A shard on two disks: what its calls are answered, from what it keeps in memory and from its log.
//!
//! What a shard keeps and what a call leads to is defined in `specs/Shards.antt`, what is kept in memory in
//! `specs/Memories.antt`, what a load leads to in `specs/FirstLoads.antt`, when a disk failed in
//! `specs/Causes.antt`, and which calls of the disks are made in `specs/DeviceCalls.antt`.
#![tactic(auto)]

mod adding;
mod calls;
mod doubt;
mod memory;
mod opening;
mod shard;

pub use record_log::OpenFault;
pub use shard::Shard;
