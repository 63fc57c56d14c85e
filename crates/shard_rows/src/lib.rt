//! Worked shards: what their calls are answered, two of them that copy, and what crashes leave.
#![tactic(auto)]

#[cfg(test)]
mod answers;
#[cfg(test)]
mod calls;
#[cfg(test)]
mod copies;
#[cfg(test)]
mod crashes;
#[cfg(test)]
mod failures;
#[cfg(test)]
mod said;
#[cfg(test)]
mod shards;
#[cfg(test)]
mod table;
#[cfg(test)]
mod told;
