//! Disks, files and a clock in memory, for runs and tests with no outside.
//!
//! A disk keeps its writes, cuts and syncs, tells from them what a crash may leave, and can be stopped
//! at any write or sync. Each object fails at the calls that it is told to fail at.
#![tactic(auto)]

mod bytes;
mod clock;
mod disk;
mod entry;
mod fate;
mod files;
mod history;
mod named;

pub use clock::SetClock;
pub use disk::MemDisk;
pub use fate::Fate;
pub use files::MemFiles;
pub use named::{NamedDisk, NamedText};
