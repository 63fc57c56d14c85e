//! The outside of `leafd`: sources and sinks of bytes, disks, stores of files and clocks, those that
//! can fail each with a count of its faults.
//!
//! A trait says what its content is, told or not, and when a call may fail: only where its count
//! rose in that call. The sources and sinks in memory tell all; the adapters round the system's
//! streams, files and clock tell nothing of their content and keep the counts alone.
#![tactic(auto)]

mod clock;
mod dir_files;
mod disk;
mod fault;
mod file_disk;
mod files;
mod memory;
mod pump;
mod sink;
mod source;
mod span;
mod standard;
mod sys_clock;

pub use clock::Clock;
pub use dir_files::DirFiles;
pub use disk::Disk;
pub use fault::EdgeError;
pub use file_disk::FileDisk;
pub use files::Files;
pub use memory::{MemSink, MemSource};
pub use pump::pump_all;
pub use sink::Sink;
pub use source::Source;
pub use standard::{StdErr, StdIn, StdOut};
pub use sys_clock::SysClock;
