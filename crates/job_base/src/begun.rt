//! A file whose first bytes are kept while it is read.
ghost use Rattle.std.specs.Prelude.{◌≡◌, ◌++◌, ◌-◌, length, take};

use arrayvec::ArrayVec;
use std::io::{self, Read};

/// How many bytes are kept: those of a record.
const MOST: usize = 512;

/// The first bytes of a file, up to 512.
pub type FirstBytes = ArrayVec<u8, MOST>;

/// Bytes that follow on those that are kept are kept too, as far as there is room.
fn hold(first: &mut FirstBytes, bytes: &[u8])
    ensures { first.new.items ≡ first.old.items ++ take (512 - length first.old.items) bytes.now }
{
    let count = bytes.len().min(MOST - first.len());
    let _ = first.try_extend_from_slice(&bytes[..count]);
}

/// Passes on what is read of a file, and keeps its first bytes.
#[derive(Drop)]
pub struct BegunFile<T> {
    inner: T,
    first: FirstBytes,
}

impl<T> BegunFile<T> {
    /// What is read of `inner`, before its first byte.
    pub fn new(inner: T) -> BegunFile<T> {
        BegunFile {
            inner,
            first: ArrayVec::new(),
        }
    }

    /// What was read, and its first bytes.
    pub fn into_parts(self) -> (T, FirstBytes) {
        let BegunFile { inner, first } = self;
        (inner, first)
    }

    /// The first bytes that were read so far.
    pub fn first(&self) -> &[u8] {
        self.first.as_slice()
    }
}

impl<T: Read> Read for BegunFile<T> {
    fn read(&mut self, block: &mut [u8]) -> io::Result<usize> {
        let count = self.inner.read(block)?;
        hold(&mut self.first, &block[..count]);
        Ok(count)
    }
}
