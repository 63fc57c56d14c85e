//! Interest: who gets a message, and what a link is told (subscriptions, queue groups and leaf nodes of
//! NATS).
//!
//! The definitions say both over a plain list of subscriptions, which stands in an order: clients by
//! connection and number, then links by connection, pattern and queue, then the node itself by pattern.
//! [`InterestList`] is that list, searched from one end to the other.
#![tactic(auto)]

mod change;
mod fault;
mod interest;
mod kept;
pub mod laws;
mod order;
mod subscription;
mod target;
mod targets;
mod telling;
mod tellings;

pub use change::Change;
pub use fault::InterestFault;
pub use interest::InterestList;
pub use subscription::{Holder, Subscription};
pub use target::{CameFrom, Target};
pub use telling::{Carrier, Told, ToldTo};
