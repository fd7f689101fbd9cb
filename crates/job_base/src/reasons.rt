//! Readers and writers of which the reason of a failure is kept.
use std::io;
use std::io::{Read, Write};

/// Passes on what is read and written, and keeps why the last call that failed did.
#[derive(Drop)]
pub struct ReasonKeeper<T> {
    inner: T,
    reason: Option<io::Error>,
}

impl<T: Drop> ReasonKeeper<T> {
    /// What is read from or written to `inner`, of which no call has failed yet.
    pub fn new(inner: T) -> ReasonKeeper<T> {
        ReasonKeeper {
            inner,
            reason: None,
        }
    }

    /// Why the last call that failed did.
    pub fn into_reason(self) -> Option<io::Error> {
        self.reason
    }
}

impl<T> ReasonKeeper<T> {
    /// Keeps a reason, and answers an error of the same kind.
    fn hold(&mut self, reason: io::Error) -> io::Error {
        let kind = reason.kind();
        self.reason = Some(reason);
        io::Error::from(kind)
    }
}

impl<T: Read> Read for ReasonKeeper<T> {
    fn read(&mut self, block: &mut [u8]) -> io::Result<usize> {
        match self.inner.read(block) {
            Ok(count) => Ok(count),
            Err(reason) => Err(self.hold(reason)),
        }
    }
}

impl<T: Write> Write for ReasonKeeper<T> {
    fn write(&mut self, bytes: &[u8]) -> io::Result<usize> {
        match self.inner.write(bytes) {
            Ok(count) => Ok(count),
            Err(reason) => Err(self.hold(reason)),
        }
    }

    fn flush(&mut self) -> io::Result<()> {
        self.inner.flush()
    }
}
