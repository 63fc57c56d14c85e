//! Worked stores: the bytes of their files, and what `leafd inspect` prints of them.
#![tactic(auto)]

#[cfg(test)]
mod faults;
#[cfg(test)]
mod rows;
#[cfg(test)]
mod run;
#[cfg(test)]
mod stores;
