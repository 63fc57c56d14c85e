//! The texts of NATS: names, subjects, patterns, header blocks and messages, and the small types
//! that hold them.
//!
//! Contracts see a [`List`] as the list of its items, and a name, a subject or a pattern as the
//! list of its bytes.
#![tactic(auto)]

mod fault;
mod hash;
mod header_lines;
mod header_writer;
mod headers;
pub mod laws;
mod list;
mod matching;
mod message;
mod name;
mod numbers;
mod origin;
mod pattern;
mod room;
mod scan;
mod split;
mod subject;

pub use fault::{NoMemory, TextFault};
pub use hash::fnv1a;
pub use headers::{Headers, Pair};
pub use list::{Bytes, List};
pub use matching::{matches, overlaps, within};
pub use message::{Message, Parcel, Stamp, Start};
pub use name::Name;
pub use numbers::number;
pub use origin::{Mapping, Origin};
pub use pattern::Pattern;
pub use split::{cut, pieces};
pub use subject::Subject;
