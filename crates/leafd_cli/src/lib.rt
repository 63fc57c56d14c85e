//! The commands of `leafd`: `drill` runs a script and prints the report of a right book, `check` prints whether a
//! configuration file is that of a hub or of a leaf, `inspect` what a store holds, and `map` what a transform makes
//! of a subject.
#![tactic(auto)]

mod check;
mod drill;
mod effects;
mod finding;
mod input;
mod inspect;
mod legal;
mod mapping;
mod operation;
mod output;
mod report;
mod settle;
mod shard;
mod status;
mod stream;
mod tell;
mod texts;
mod top;
mod world;

pub use status::Status;
pub use top::leafd_run;
