//! What a shard is: the calls that it takes and the replies that it gives, its log of records, and which
//! reply a call has, with loads, records in doubt and faults of its disks.
//!
//! What a log says is defined in `specs/Logs.antt`, which records may follow in `specs/Legal.antt`, and all
//! of a log that is ever needed again in `specs/Images.antt`. What a shard holds is in `specs/Views.antt`, what
//! each call is answered in `specs/Answers.antt`, and a step, whatever comes of it, in `specs/Steps.antt`.
#![tactic(auto)]

mod call;
mod facts;
pub mod laws;
mod refuse;
mod reply;

pub use call::{ShardCall, Which};
pub use facts::{CopyFact, Facts};
pub use refuse::refused;
pub use reply::{Outcome, ShardRefusal, ShardReply};
