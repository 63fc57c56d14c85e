//! Worked copies: what a mirror and a source decide about each packet, and what a source makes of a
//! message.
#![tactic(auto)]

#[cfg(test)]
mod copies;
#[cfg(test)]
mod decisions;
#[cfg(test)]
mod made;
#[cfg(test)]
mod packets;
#[cfg(test)]
mod streams;
#[cfg(test)]
mod table;
#[cfg(test)]
mod told;
