//! The records of a journal as bytes: each record has one spelling, and nothing else is read.
#![tactic(auto)]

mod decoding;
mod encoding;
mod fault;
mod fields;
mod items;
pub mod laws;
mod reading;
mod records;
mod skimming;
mod writing;

pub use decoding::decode;
pub use encoding::encode;
pub use fault::RecFault;
pub use records::Rec;
