//! A lock whose value stands for a history of steps, on threads. Turns come in the order of their
//! tickets, and each seat knows a beginning of the history and its own steps in it.
#![tactic(auto)]

mod gate;
mod kept;
mod lends;
mod lock;
mod open;
mod plays;
mod rule;
mod seat;

pub use kept::Kept;
pub use lock::TurnLock;
pub use seat::{Held, Seat, Turn};
