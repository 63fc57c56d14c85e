//! Packets and the messages that carry them, worked by hand.
#![tactic(auto)]

#[cfg(test)]
mod almost;
#[cfg(test)]
mod kinds;
#[cfg(test)]
mod rows;
