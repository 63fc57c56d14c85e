//! Worked texts: names, subjects, patterns and header blocks, the lines of a script, and records.
#![tactic(auto)]

#[cfg(test)]
mod configured;
#[cfg(test)]
mod headers;
#[cfg(test)]
mod lines;
#[cfg(test)]
mod matching;
#[cfg(test)]
mod names;
#[cfg(test)]
mod records;
#[cfg(test)]
mod table;
#[cfg(test)]
mod values;
