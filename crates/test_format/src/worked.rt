//! The bytes that tests begin with: a worked record, and bytes that go round.
use std::alloc::{AllocError, Global};

/// GE APE, without a location, BHZ, of 2024-02-29T00:00:00, with 100 samples at 100 samples a second: the bytes
/// that are not 0.
pub const HEAD: [u8; 64] =
    *b"000001D APE    BHZGE\x07\xe8\x00\x3c\x00\x00\x00\x00\x00\x00\x00\x64\x00\x64\x00\x01\x00\x00\x00\x01\x00\x00\x00\x00\x00\x40\x00\x30\x03\xe8\x00\x00\x0b\x01\x09\x00\x00\x00\x00\x00\x00\x00\x00\x00";

/// Bytes of a record, by their places.
pub type Changes<'a> = &'a [(usize, u8)];

/// The record of a head, with some of its bytes changed.
pub fn record_of(head: &[u8; 64], changes: Changes<'_>) -> [u8; 512] {
    let mut record = [0; 512];
    record[..64].copy_from_slice(head);
    for &(place, byte) in changes {
        if place < 512 {
            record[place] = byte;
        }
    }
    record
}

/// So many bytes that go round from 0 to 250: no two records of them begin alike.
pub fn round(alloc: Global, count: usize) -> Result<Vec<u8>, AllocError> {
    let mut bytes = Vec::new(alloc);
    for place in 0..count {
        bytes.push((place % 251) as u8)?;
    }
    Ok(bytes)
}
