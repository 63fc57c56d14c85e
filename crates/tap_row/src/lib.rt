//! A row of taps, which are told what happens on a node: what is stored, what goes, how copies fare.
//!
//! A tap is told each notice once, in order, and stays until it answers that it leaves.
#![tactic(auto)]

mod count_tap;
mod notice;
mod row;
mod tap;

pub use count_tap::CountTap;
pub use notice::{Notice, Stay};
pub use row::TapRow;
pub use tap::{BoxedTap, Tap};
