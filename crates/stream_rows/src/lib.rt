//! Worked streams: what entries leave, how publishes are answered, and wrong configurations.
#![tactic(auto)]

#[cfg(test)]
mod configs;
#[cfg(test)]
mod entries;
#[cfg(test)]
mod histories;
#[cfg(test)]
mod maps;
#[cfg(test)]
mod publishes;
#[cfg(test)]
mod table;
