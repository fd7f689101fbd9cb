//! Files that are longer than a block, and readers and writers that fail.
use crate::devices::Breaking;
use crate::worked::{HEAD, record_of};
use record_check::{AllStations, ListingOptions, check_records};
use sl_io::{MemorySink, MemorySource, Outer, StreamFault};
use std::alloc::{AllocError, Global};
use std::test::Fail;

/// What is said of the worked record behind its number.
const FACTS: &str = "GE APE -- BHZ D 17091648000000 17091648010000 100";

/// So many records.
fn records(alloc: Global, count: u32) -> Result<Vec<u8>, AllocError> {
    let mut bytes = Vec::new(alloc);
    for _ in 0..count {
        bytes.extend_from_slice(&record_of(&HEAD, &[]))?;
    }
    Ok(bytes)
}

/// The lines of so many records.
fn lines(alloc: Global, count: u32) -> Result<String, Fail> {
    let mut lines = String::new(alloc);
    for number in 0..count {
        write!(lines, "{} {FACTS}\n", number.saturating_add(1))?;
    }
    Ok(lines)
}

/// Whether a file's lines are these, and are written in two pieces.
fn is_listed(alloc: Global, bytes: &[u8], wanted: &str) -> Result<bool, StreamFault> {
    let mut sink = MemorySink::new(alloc);
    let verdict = check_records(
        alloc,
        ListingOptions::lines(),
        &AllStations,
        &mut MemorySource::new(bytes),
        &mut sink,
    )?;
    // About 53,000 bytes, of which 32,768 are enough to be written.
    let is_written = sink.bytes() == wanted.as_bytes() && sink.counts().calls == 2;
    Ok(verdict.is_none() && is_written)
}

#[test]
fn lines_are_written_in_large_pieces(rt: HostRuntime) -> Result<(), Fail> {
    let bytes = records(rt.alloc(), 1_000)?;
    let wanted = lines(rt.alloc(), 1_000)?;
    assert!(rt; is_listed(rt.alloc(), &bytes, wanted.as_str())?);
    Ok(())
}

/// Why a reader that fails after so many bytes ends a listing, and how many failures it counts.
fn read_fault(alloc: Global, left: usize) -> (Option<StreamFault>, u64) {
    let mut source = Outer::new(Breaking { left });
    let mut sink = MemorySink::new(alloc);
    let outcome = check_records(
        alloc,
        ListingOptions::lines(),
        &AllStations,
        &mut source,
        &mut sink,
    );
    (outcome.err(), source.counts().failures)
}

/// The same of a writer.
fn write_fault(alloc: Global, bytes: &[u8], left: usize) -> (Option<StreamFault>, u64) {
    let mut sink = Outer::new(Breaking { left });
    let outcome = check_records(
        alloc,
        ListingOptions::lines(),
        &AllStations,
        &mut MemorySource::new(bytes),
        &mut sink,
    );
    (outcome.err(), sink.counts().failures)
}

#[test]
fn a_reader_or_a_writer_that_fails_ends_a_listing(rt: HostRuntime) -> Result<(), Fail> {
    for left in [0, 100, 700] {
        assert!(rt; matches!(read_fault(rt.alloc(), left), (Some(StreamFault::Read), 1)));
    }
    let bytes = records(rt.alloc(), 1_000)?;
    for left in [0, 100, 40_000] {
        assert!(rt;
            matches!(
                write_fault(rt.alloc(), &bytes, left),
                (Some(StreamFault::Write), 1)
            )
        );
    }
    Ok(())
}
