//! Frames of client connections, worked by hand.
#![tactic(auto)]

#[cfg(test)]
mod bounds;
#[cfg(test)]
mod client;
#[cfg(test)]
mod reads;
#[cfg(test)]
mod server;
