//! The standard error as a writer, for lines of text beside records on the standard output.
use std::io;
use std::io::Write;

/// Writes text to the standard error.
#[derive(Drop)]
pub struct ErrorOutput<'a> {
    rt: &'a HostRuntime,
}

impl<'a> ErrorOutput<'a> {
    pub fn new(rt: &'a HostRuntime) -> ErrorOutput<'a> {
        ErrorOutput { rt }
    }
}

impl Write for ErrorOutput<'_> {
    fn write(&mut self, bytes: &[u8]) -> io::Result<usize> {
        match str::from_utf8(bytes) {
            Ok(text) => {
                self.rt.eprint(text)?;
                Ok(bytes.len())
            }
            Err(_) => Err(io::Error::from(io::ErrorKind::InvalidData)),
        }
    }

    fn flush(&mut self) -> io::Result<()> {
        Ok(())
    }
}
