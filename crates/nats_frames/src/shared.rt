//! What the frames of clients and those of leaf links have in common.
pub use crate::fields::{argument, fields, is_short, quoted, size_of};
pub use crate::intake::Intake;
pub use crate::members::{name_at, object_of, switch_at};
pub use crate::messages::address;
pub use crate::operation::is_word;
pub use crate::protocol::Protocol;
pub use crate::reading::beginning_from;
pub use crate::write::{
    append, append_block, append_fault, append_field, append_number, append_sizes,
};
pub use crate::write_json::{append_json, name_text};
