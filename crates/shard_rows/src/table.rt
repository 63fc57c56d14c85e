use nats_text::{cut, number};

/// What stands before the first separator of a row, and what stands behind it.
pub fn fields(row: &[u8], separator: u8) -> (&[u8], &[u8]) {
    match cut(row, separator) {
        Some(parts) => parts,
        None => (row, &row[row.len()..]),
    }
}

/// A number of a row.
pub fn number_in(digits: &[u8]) -> u64 {
    number(digits).unwrap_or(0)
}
