//! Worked askers and consumers: what packets are to an asker, when it is due and what it asks, and
//! what a consumer sends.
#![tactic(auto)]

#[cfg(test)]
mod asks;
#[cfg(test)]
mod consumers;
#[cfg(test)]
mod orders;
#[cfg(test)]
mod streams;
#[cfg(test)]
mod table;
#[cfg(test)]
mod told;
