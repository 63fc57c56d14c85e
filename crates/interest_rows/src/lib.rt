//! Worked subscriptions: who gets a message, and what a link is told.
#![tactic(auto)]

#[cfg(test)]
mod getting;
#[cfg(test)]
mod lines;
#[cfg(test)]
mod telling;
