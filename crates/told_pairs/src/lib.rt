//! What leaf links are told of the interest of others (LS+ and LS- of NATS leaf nodes), found without a walk
//! over all subscriptions.
//!
//! [`ToldPairs`] keeps for each pair of pattern and queue how much weight wants it, and for each link what it
//! was told. What a link is to be told of a pair is a look-up, and a telling looks at the pairs that have
//! changed since the last one.
#![tactic(auto)]

mod change_log;
mod links;
mod pair;
mod pairs;
mod telling;
mod wants;

pub use pairs::ToldPairs;
