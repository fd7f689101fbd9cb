//! The length of a file that is kept beside the numbers of its records.
ghost use Rattle.std.specs.Prelude.{◌≡◌, IfOk};

use std::alloc::{AllocError, Global};
use std::marker::Model;

/// How many records of a file were counted by a state: those that are before this place are not handed again.
#[derive(Drop)]
pub struct FileLength {
    name: Vec<u8>,
    count: u64,
}

impl Model for FileLength {
    ghost use Rattle.continued_files.specs.Lengths.{LengthValue};

    ghost Value = { LengthValue };

    ghost view = { λ l. record { name = l.name.items; count = l.count } };
}

impl FileLength {
    ghost use Rattle.std.specs.Prelude.{◌≡◌, IfOk};

    /// So many records of the file of that name.
    pub fn new(alloc: Global, name: &[u8], count: u64) -> Result<FileLength, AllocError>
        ensures { IfOk result (λ l. l ≡ record { name = name.now; count = count }) }
    {
        Ok(FileLength {
            name: Vec::from_slice(alloc, name)?,
            count,
        })
    }

    /// The file's name.
    pub fn name(&self) -> &[u8]
        ensures { result.now ≡ self.now.name }
    {
        self.name.as_slice()
    }

    /// How many of its records.
    pub fn count(&self) -> u64
        ensures { result ≡ self.now.count }
    {
        self.count
    }
}
