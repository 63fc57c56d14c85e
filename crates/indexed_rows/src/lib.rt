//! The messages that a stream keeps, with indexes: by number, by subject, and with their sum. Contracts
//! see them as the list of rows that a stream's history leaves.
#![tactic(auto)]

mod by_number;
mod expiring;
mod index;
mod limiting;
mod purging;
mod rows;
mod subjects;

pub use rows::IndexedRows;
