//! Configuration files and words of the command line, worked by hand.
#![tactic(auto)]

#[cfg(test)]
mod faults;
#[cfg(test)]
mod whole;
#[cfg(test)]
mod words;
