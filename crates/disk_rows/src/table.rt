use mem_disk::MemDisk;
use nats_text::{cut, number};
use std::alloc::{AllocError, Global};
use std::test::Fail;

/// An area that counts, of generation 1, with the opening of number 1 as its one body.
pub const ONE_BODY: &[u8] = b"LEAFJRN1\x01\x01\0\0\0\0\0\0\0\x01\x09\0\0\0\x01\x01\0\0\0\0\0\0\0\0";

/// The greatest length of a disk in memory, in bytes.
const LONGEST_DISK: usize = 1 << 39;

/// What stands before the first separator of a row, and what stands behind it.
pub fn fields(row: &[u8], separator: u8) -> (&[u8], &[u8]) {
    match cut(row, separator) {
        Some(parts) => parts,
        None => (row, &row[row.len()..]),
    }
}

/// A number of a row.
pub fn number_in(digits: &[u8]) -> u64 {
    number(digits).unwrap_or(0)
}

/// The first `len` bytes of `ONE_BODY`, with others from a place on. The length, the place and the
/// bytes stand in a row with bars between them.
pub fn spoiled(alloc: Global, row: &[u8]) -> Result<Vec<u8>, AllocError> {
    let (len, row) = fields(row, b'|');
    let (place, with) = fields(row, b'|');
    let place = number_in(place) as usize;
    let mut bytes = ONE_BODY.get(..place).unwrap_or(&[]).to_vec(alloc)?;
    bytes.extend_from_slice(with)?;
    let behind = place.saturating_add(with.len());
    let len = number_in(len) as usize;
    bytes.extend_from_slice(ONE_BODY.get(behind..len).unwrap_or(&[]))?;
    Ok(bytes)
}

/// A disk of these bytes, which fails at the calls of these numbers.
pub fn disk_of(alloc: Global, bytes: &[u8], failing: Vec<u64>) -> Result<MemDisk, Fail> {
    if bytes.len() > LONGEST_DISK {
        return Err("a disk is shorter".into());
    }
    let bytes = bytes.to_vec(alloc)?;
    Ok(MemDisk::new(alloc, bytes, failing))
}

/// A disk of these bytes, no call of which fails.
pub fn sound_disk(alloc: Global, bytes: &[u8]) -> Result<MemDisk, Fail> {
    disk_of(alloc, bytes, Vec::new(alloc))
}
