//! All that a shard answers, in memory: the streams of its log, the consumers that read them, and the askers
//! of its copies.
//!
//! A call is answered in two halves. The first takes all memory, and where the call makes a record nothing
//! changes by it; the second, once the record is in the journal, takes none and can't fail.
//!
//! When a table holds a view is defined in `specs/Holding.antt`, what it answers in `specs/Answering.antt`.
#![tactic(auto)]

mod answered;
mod answering;
mod asker_rows;
mod committing;
mod consumer_rows;
mod hearing;
mod replies;
mod stream_rows;
mod table;

pub use answered::{Answered, Prepared};
pub use table::Table;
