//! The turn lock round a list of numbers: seats that take turns on one thread and on two, and many
//! seats.
#![tactic(auto)]

#[cfg(test)]
mod book;
#[cfg(test)]
mod rows;
