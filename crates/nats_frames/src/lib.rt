//! The frames of a NATS client connection (the NATS client protocol): what they are, how they are read
//! from the pieces of a stream, and how they are written.
//!
//! The definitions say what the bytes of a stream begin with and what the text of a frame is, as functions
//! of bytes; [`Feed`], [`beginning`] and [`write_frame`] are exact by them. [`laws`] says what holds of
//! them: a beginning stays when more bytes come, frames that are taken one after another are those of the
//! stream, and a frame is read again from its text.
#![tactic(auto)]

mod backlog;
mod fault;
mod feed;
mod fields;
mod frame;
mod intake;
pub mod laws;
mod line;
mod members;
mod messages;
mod operation;
mod protocol;
mod reading;
mod said;
pub mod shared;
mod stream;
mod write;
mod write_json;

pub use fault::{FeedFault, FrameText, Refused};
pub use feed::Feed;
pub use frame::{ClientFrame, ServerInfo, Side};
pub use line::{LineEnd, line_end};
pub use reading::{beginning, carried};
pub use stream::{First, Said, sized};
pub use write::write_frame;
