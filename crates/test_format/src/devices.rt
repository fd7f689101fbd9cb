//! Readers and writers of std, and what is counted of them.
use sl_io::{Counts, DeviceFault, Outer, ReadFault, Sink, Source, WriteFault, read_all, write_all};
use std::io;
use std::io::{Read, Write};
use std::test::*;

#[test]
fn a_reader_of_std_is_read_whole(rt: HostRuntime) -> Result<(), Fail> {
    let mut source = Outer::new(&b"STATION APE GE\r"[..]);
    let got = read_all(rt.alloc(), &mut source)?;
    assert!(rt; got.as_slice() == b"STATION APE GE\r".as_slice() && source.counts().calls == 2);
    Ok(())
}

#[test]
fn a_writer_of_std_is_written_to(rt: HostRuntime) -> Result<(), Fail> {
    let mut sink = Outer::new(Vec::new(rt.alloc()));
    write_all(&mut sink, b"STATION APE GE\r")?;
    assert!(rt; sink.counts().calls == 1);
    assert!(rt; sink.into_inner().as_slice() == b"STATION APE GE\r".as_slice());
    Ok(())
}

/// Gives or takes so many bytes, at most a record's a call, and then fails.
#[derive(Drop)]
pub struct Breaking {
    pub left: usize,
}

impl Read for Breaking {
    fn read(&mut self, buffer: &mut [u8]) -> io::Result<usize> {
        if self.left == 0 {
            return Err(io::Error::from(io::ErrorKind::BrokenPipe));
        }
        let count = buffer.len().min(self.left).min(512);
        buffer[..count].fill(b'A');
        self.left -= count;
        Ok(count)
    }
}

impl Write for Breaking {
    fn write(&mut self, bytes: &[u8]) -> io::Result<usize> {
        if self.left == 0 {
            return Err(io::Error::from(io::ErrorKind::BrokenPipe));
        }
        let count = bytes.len().min(self.left);
        self.left -= count;
        Ok(count)
    }

    fn flush(&mut self) -> io::Result<()> {
        Ok(())
    }
}

/// Takes no byte.
#[derive(Drop)]
pub struct Full;

impl Write for Full {
    fn write(&mut self, _bytes: &[u8]) -> io::Result<usize> {
        Ok(0)
    }

    fn flush(&mut self) -> io::Result<()> {
        Ok(())
    }
}

#[test]
fn a_failed_read_is_counted(rt: HostRuntime) {
    let mut source = Outer::new(Breaking { left: 2 });
    let outcome = read_all(rt.alloc(), &mut source);
    assert!(rt; outcome.err() == Some(ReadFault::Read));
    assert!(rt; (source.counts().calls, source.counts().failures) == (2, 1));
    assert!(rt; source.read(&mut [0; 4]) == Err(DeviceFault) && source.counts().failures == 2);
}

/// How many writes, failures and writes of which no byte was taken are counted of a writer.
fn counts_of(counts: Counts) -> [u64; 3] {
    [counts.calls, counts.failures, counts.empty_writes]
}

#[test]
fn failed_and_empty_writes_are_counted(rt: HostRuntime) {
    let mut failing = Outer::new(Breaking { left: 2 });
    assert!(rt; write_all(&mut failing, b"HELLO\r") == Err(WriteFault));
    assert!(rt; counts_of(failing.counts()) == [2, 1, 0]);
    let mut full = Outer::new(Full);
    assert!(rt; write_all(&mut full, b"HELLO\r") == Err(WriteFault));
    assert!(rt; full.write(b"") == Ok(0) && counts_of(full.counts()) == [2, 0, 1]);
}
