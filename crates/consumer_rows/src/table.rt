use nats_text::{List, Pattern, TextFault, cut, number, pieces};
use std::alloc::Global;

/// What stands before the first separator of a row, and what stands behind it.
pub fn fields(row: &[u8], separator: u8) -> (&[u8], &[u8]) {
    match cut(row, separator) {
        Some(parts) => parts,
        None => (row, &row[row.len()..]),
    }
}

/// A number of a row.
pub fn number_in(text: &[u8]) -> u64 {
    number(text).unwrap_or(0)
}

/// The patterns of a text, with commas between them.
pub fn patterns(alloc: Global, text: &[u8]) -> Result<List<Pattern>, TextFault> {
    let mut patterns = List::new(alloc);
    if text.is_empty() {
        return Ok(patterns);
    }
    for part in &pieces(alloc, text, b',')? {
        patterns.push(Pattern::read(alloc, part)?)?;
    }
    Ok(patterns)
}
