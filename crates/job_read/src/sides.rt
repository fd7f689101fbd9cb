//! The two sides of a connection that is read: which answers have come, which commands were sent, and whether commands
//! still go.
use crate::answers::AnswerLines;
use crate::patience::Patience;
use std::io;
use std::io::{Read, Write};
use std::net::{Shutdown, TcpStream};

/// Passes on commands until one can't be sent. The connection is over then: nothing more is passed on, and the next
/// read says so.
#[derive(Drop)]
pub struct CommandWriter<'r> {
    inner: TcpStream,
    patience: &'r Patience,
    is_over: bool,
}

impl<'r> CommandWriter<'r> {
    /// What is written to `inner`.
    pub fn new(inner: TcpStream, patience: &'r Patience) -> CommandWriter<'r> {
        CommandWriter {
            inner,
            patience,
            is_over: false,
        }
    }
}

impl Write for CommandWriter<'_> {
    fn write(&mut self, bytes: &[u8]) -> io::Result<usize> {
        if self.is_over {
            return Ok(bytes.len());
        }
        match self.inner.write(bytes) {
            Ok(count) => {
                self.patience.send(&bytes[..count]);
                Ok(count)
            }
            Err(_) => {
                self.is_over = true;
                let _ = self.inner.shutdown(Shutdown::Both);
                Ok(bytes.len())
            }
        }
    }

    fn flush(&mut self) -> io::Result<()> {
        self.inner.flush()
    }
}

/// Passes on what is read, and looks at the lines that come before the transfer.
#[derive(Drop)]
pub struct AnswerReader<'r, T> {
    inner: T,
    patience: &'r Patience,
    lines: AnswerLines,
}

impl<'r, T> AnswerReader<'r, T> {
    /// What is read from `inner`, of which no line has come yet.
    pub fn new(inner: T, patience: &'r Patience) -> AnswerReader<'r, T> {
        AnswerReader {
            inner,
            patience,
            lines: AnswerLines::new(),
        }
    }

    /// The lines that came before the transfer.
    pub fn lines(&self) -> &AnswerLines {
        &self.lines
    }
}

impl<T: Read> Read for AnswerReader<'_, T> {
    fn read(&mut self, block: &mut [u8]) -> io::Result<usize> {
        let count = self.inner.read(block)?;
        if !self.patience.is_transfer() {
            self.lines.receive(&block[..count]);
        }
        Ok(count)
    }
}
