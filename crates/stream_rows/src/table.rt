use nats_text::cut;

/// What stands before the first separator of a row, and what stands behind it.
pub fn fields(row: &[u8], separator: u8) -> (&[u8], &[u8]) {
    match cut(row, separator) {
        Some(parts) => parts,
        None => (row, &row[row.len()..]),
    }
}
