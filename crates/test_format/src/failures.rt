//! Readers and writers of which one call fails: what comes of a failure at each place, in turn.
use crate::devices::Full;
use crate::worked::round;
use feeder::{SendFault, send};
use sl_io::{Failing, MemorySink, MemorySource, Outer, ReadFault, WriteFault, read_all, write_all};
use std::alloc::Global;
use std::test::Fail;

/// Three records.
const FEED: usize = 1536;

/// What a whole reading of a feed in pieces of 700 bytes answers where a read fails, and how many reads and failures
/// are counted.
fn read(alloc: Global, feed: &[u8], due: u64) -> (Result<(), ReadFault>, [u64; 2]) {
    let mut source = Failing::new(MemorySource::in_pieces(feed, 700), due);
    let answer = match read_all(alloc, &mut source) {
        Ok(bytes) if bytes.as_slice() == feed && !source.has_failed() => Ok(()),
        Ok(_) => Err(ReadFault::OutOfMemory),
        Err(fault) => Err(fault),
    };
    (answer, [source.counts().calls, source.counts().failures])
}

#[test]
fn a_read_that_fails_ends_a_whole_reading(rt: HostRuntime) -> Result<(), Fail> {
    let feed = round(rt.alloc(), FEED)?;
    for due in 1..5 {
        assert!(rt;
            read(rt.alloc(), &feed, due) == (Err(ReadFault::Read), [due, 1]),
            "{due}"
        );
    }
    assert!(rt; read(rt.alloc(), &feed, 5) == (Ok(()), [4, 0]));
    Ok(())
}

/// The write that fails of a whole writing of eight bytes, three at a time, and what was written before it.
static WRITTEN: [(u64, &[u8]); 3] = [(1, b""), (2, b"SL0"), (3, b"SL0000")];

/// Whether a whole writing answers so where a write fails, and what was written.
fn is_written(alloc: Global, due: u64, answer: Result<(), WriteFault>, bytes: &[u8]) -> bool {
    let mut sink = Failing::new(MemorySink::in_pieces(alloc, 3), due);
    write_all(&mut sink, b"SL000000") == answer && sink.into_inner().bytes() == bytes
}

#[test]
fn a_write_that_fails_leaves_what_was_written(rt: HostRuntime) {
    for &(due, beginning) in &WRITTEN {
        assert!(rt;
            is_written(rt.alloc(), due, Err(WriteFault), beginning),
            "{due}"
        );
    }
    assert!(rt; is_written(rt.alloc(), 4, Ok(()), b"SL000000"));
}

/// What sending a feed in pieces of 700 bytes answers where a read or a write fails, and how many bytes were written.
fn sent(
    alloc: Global,
    feed: &[u8],
    read_due: u64,
    write_due: u64,
) -> (Result<u64, SendFault>, usize) {
    let mut reader = Failing::new(MemorySource::in_pieces(feed, 700), read_due);
    let mut writer = Failing::new(MemorySink::new(alloc), write_due);
    let answer = send(&mut reader, &mut writer);
    (answer, writer.into_inner().bytes().len())
}

/// The read or the write that fails, the answer, and how many bytes were written: whole records alone.
static SENT: [(u64, u64, Result<u64, SendFault>, usize); 9] = [
    (1, 0, Err(SendFault::Read), 0),
    (2, 0, Err(SendFault::Read), 512),
    (3, 0, Err(SendFault::Read), 1024),
    (4, 0, Err(SendFault::Read), 1536),
    (5, 0, Ok(3), FEED),
    (0, 1, Err(SendFault::Write), 0),
    (0, 2, Err(SendFault::Write), 512),
    (0, 3, Err(SendFault::Write), 1024),
    (0, 4, Ok(3), FEED),
];

#[test]
fn a_call_that_fails_ends_a_feed_behind_whole_records(rt: HostRuntime) -> Result<(), Fail> {
    let feed = round(rt.alloc(), FEED)?;
    for &(read_due, write_due, answer, count) in &SENT {
        assert!(rt;
            sent(rt.alloc(), &feed, read_due, write_due) == (answer, count),
            "{read_due} {write_due}"
        );
    }
    Ok(())
}

#[test]
fn a_writer_that_takes_nothing_ends_a_feed(rt: HostRuntime) {
    let mut reader = MemorySource::in_pieces(&[0; 512], 700);
    let mut writer = Outer::new(Full);
    assert!(rt; send(&mut reader, &mut writer) == Err(SendFault::Write));
    assert!(rt; (writer.counts().failures, writer.counts().empty_writes) == (0, 1));
}
