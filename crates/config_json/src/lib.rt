//! Stream configurations as JSON, as JetStream's API writes and reads them.
//!
//! A configuration is read member by member in one order, and the first wrong member is told by its
//! name.
#![tactic(auto)]

mod copies;
mod fault;
pub mod laws;
mod limits;
mod mapping;
mod origin;
mod others;
mod read;
mod subjects;
mod texts;
mod value;
mod write;

pub use fault::ApiFault;
pub use moments::moment_text;
pub use read::{config_of_json, config_of_value, value_of_json};
pub use texts::has_texts;
pub use write::{config_to_json, config_value};
