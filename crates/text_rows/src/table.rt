use nats_text::cut;
use std::alloc::{AllocError, Global};

/// What stands before the first separator of a row, and what stands behind it.
pub fn fields(row: &[u8], separator: u8) -> (&[u8], &[u8]) {
    match cut(row, separator) {
        Some(parts) => parts,
        None => (row, &row[row.len()..]),
    }
}

/// These parts behind one another.
pub fn joined(alloc: Global, parts: &[&[u8]]) -> Result<Vec<u8>, AllocError> {
    let mut bytes = Vec::new(alloc);
    for part in parts {
        bytes.extend_from_slice(part)?;
    }
    Ok(bytes)
}

/// So many bytes, and others behind them.
pub fn repeated(alloc: Global, byte: u8, count: usize, end: &[u8]) -> Result<Vec<u8>, AllocError> {
    let mut bytes = vec![in alloc; byte; count]?;
    bytes.extend_from_slice(end)?;
    Ok(bytes)
}
