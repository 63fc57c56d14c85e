use nats_text::{cut, number};

/// What stands before the first separator of a row, and what stands behind it.
pub fn fields(row: &[u8], separator: u8) -> (&[u8], &[u8]) {
    match cut(row, separator) {
        Some(parts) => parts,
        None => (row, &row[row.len()..]),
    }
}

/// A number of a row, where `2^63` is one more than the greatest that a stream has.
pub fn number_in(text: &[u8]) -> u64 {
    if text == b"2^63".as_slice() {
        1 << 63
    } else {
        number(text).unwrap_or(0)
    }
}
