//! Rows of taps: who is told, who leaves, and what they say.
#![tactic(auto)]

#[cfg(test)]
mod rows;
