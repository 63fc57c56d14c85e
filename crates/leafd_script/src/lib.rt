//! The lines of a script: what each says, and why a line says nothing.
#![tactic(auto)]

mod configured;
mod fault;
mod forms;
mod headers;
mod line;
mod options;
mod plain;
mod publishing;
mod words;

pub use fault::{LineFault, ScriptKind};
pub use forms::read_line;
pub use line::{Changes, Line};
