//! The frames of a leaf link (NATS leaf nodes): what they are, how they are read from the pieces of a
//! stream, and how they are written.
//!
//! The definitions say what the bytes of a stream begin with and what the text of a frame is, as functions
//! of bytes; [`LeafFeed`], [`beginning`] and [`write_leaf`] are exact by them. [`laws`] says what holds of
//! them. A line and its end, its fields, the payload behind it and the run of a feed are those of
//! `nats_frames`, whose [`FeedFault`](nats_frames::FeedFault) and what it holds are the answers here too.
#![tactic(auto)]

mod address;
mod feed;
mod frame;
pub mod laws;
mod members;
mod messages;
mod operation;
mod reading;
mod said;
mod write;
mod write_json;

pub use feed::LeafFeed;
pub use frame::LeafFrame;
pub use reading::beginning;
pub use write::write_leaf;
