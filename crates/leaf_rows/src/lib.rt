//! Frames of leaf links, worked by hand.
#![tactic(auto)]

#[cfg(test)]
mod bounds;
#[cfg(test)]
mod reads;
#[cfg(test)]
mod rows;
