//! The words of the command line of `leafd`: which command they name, and what it is given.
#![tactic(auto)]

mod command;
mod fault;
pub mod laws;
mod read;

pub use fault::WordsFault;
pub use read::{MapWords, Words, read_words};
