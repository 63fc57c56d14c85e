//! Transforms of subjects, worked by hand.
#![tactic(auto)]

#[cfg(test)]
mod domains;
#[cfg(test)]
mod made;
#[cfg(test)]
mod refused;
