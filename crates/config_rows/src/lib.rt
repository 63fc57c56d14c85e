//! Stream configurations as JSON, worked by hand.
#![tactic(auto)]

#[cfg(test)]
mod bad;
#[cfg(test)]
mod ends;
#[cfg(test)]
mod told;
#[cfg(test)]
mod whole;
