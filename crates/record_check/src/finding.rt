//! What is wrong with a file of records, and where.
use crate::fault::FileFault;

/// What is wrong with a file of records, and at which of them: the first that is refused, or the bytes that are left
/// over after the last.
#[derive(Clone, Copy, Drop)]
pub struct Finding {
    pub fault: FileFault,
    /// The record's number, from 1 on.
    pub number: u128,
    /// How many bytes of the file are before it.
    pub offset: u128,
}
