//! The configuration file of a node: a TOML table, and what is wrong with a text that is none.
#![tactic(auto)]

mod address;
mod conf;
mod fault;
mod mappings;
mod member;

pub use conf::{Conf, read_conf};
pub use fault::{ConfKind, ConfProblem};
