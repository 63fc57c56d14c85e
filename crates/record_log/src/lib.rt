//! The log of a shard: the records on its two disks, each of which has a journal, so that one of them
//! counts.
//!
//! For which log two disks stand is defined in `specs/Stores.antt` and `specs/Standing.antt`.
#![tactic(auto)]

mod fault;
pub mod laws;
mod logs;
mod opening;
mod read;
mod records;

pub use fault::{OpenFault, Part, StoreFault};
pub use gate_journal::AppendFault;
pub use logs::RecordLog;
pub use read::read_store;
pub use records::prepare;
