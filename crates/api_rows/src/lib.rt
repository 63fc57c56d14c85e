//! Requests and answers of the JetStream API, worked by hand.
#![tactic(auto)]

#[cfg(test)]
mod answers;
#[cfg(test)]
mod requests;
#[cfg(test)]
mod told;
