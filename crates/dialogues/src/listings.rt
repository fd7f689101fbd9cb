//! Files of records, and what a check says of them.
use crate::clients::DialogueAnswer;
use crate::fault::Fault;
use crate::line::{DialogueLine, word_and_rest};
use crate::spelling::shown;
use record_check::{AllStations, Finding, ListingOptions, RecordCheck, Times, check_records};
use sl_io::{MemorySink, MemorySource};
use std::alloc::Global;
use std::fs;
use std::rt::Files;

/// How many bytes a read brings, in each of the checks that are made.
const PIECES: [usize; 4] = [1, 7, 512, 1_000];

/// What is wrong with the records of a file, that are read so many bytes at a time.
fn first_fault(alloc: Global, bytes: &[u8], most: usize) -> Result<Option<Finding>, Fault> {
    let mut source = MemorySource::in_pieces(bytes, most.max(1));
    let mut sink = MemorySink::new(alloc);
    let options = ListingOptions::lines();
    match check_records(alloc, options, &AllStations, &mut source, &mut sink) {
        Ok(finding) => Ok(finding),
        Err(_) => Err(Fault::Device),
    }
}

/// Lists one file more.
fn list_file(
    check: &mut RecordCheck,
    options: ListingOptions,
    bytes: &[u8],
    most: usize,
    sink: &mut MemorySink,
) -> Result<(), Fault> {
    let mut source = MemorySource::in_pieces(bytes, most.max(1));
    match check.list_file(options, &AllStations, &mut source, sink) {
        Ok(_) => Ok(()),
        Err(_) => Err(Fault::Device),
    }
}

/// The listing of files, that are read so many bytes at a time.
fn listed(
    alloc: Global,
    options: ListingOptions,
    files: &[Vec<u8>],
    most: usize,
) -> Result<Vec<u8>, Fault> {
    let mut sink = MemorySink::new(alloc);
    let mut check = RecordCheck::new(alloc)?;
    for bytes in files {
        list_file(&mut check, options, bytes.as_slice(), most, &mut sink)?;
    }
    match check.list_streams(options, &mut sink) {
        Ok(()) => Ok(sink.into_bytes()),
        Err(_) => Err(Fault::Device),
    }
}

/// Compares the listing of files, in whatever pieces they are read, with the one that is wanted.
fn compare_listing(
    alloc: Global,
    options: ListingOptions,
    files: &[Vec<u8>],
    wanted: &[u8],
) -> DialogueAnswer {
    for most in PIECES {
        let text = listed(alloc, options, files, most)?;
        if text.as_slice() != wanted {
            return Ok(Some(shown(alloc, text.as_slice())?));
        }
    }
    Ok(None)
}

/// Compares the first fault of records with the one that is wanted: its number, and the record's number and offset, as
/// `4 2 512`, or `none`.
fn compare_fault(alloc: Global, bytes: &[u8], wanted: &str) -> DialogueAnswer {
    let got = match first_fault(alloc, bytes, 700)? {
        Some(
            Finding {
                fault,
                number,
                offset,
            },
        ) => { format!(in alloc; "{} {number} {offset}", fault.reason().number())? }
        None => String::from_str(alloc, "none")?,
    };
    if got.as_str() == wanted {
        return Ok(None);
    }
    Ok(Some(got))
}

/// What a check lists by a word: `lines`, `streams`, `dates` for both with times as dates, `gaps`, or `all` for all of
/// these with times as dates.
fn options_of(word: &str) -> Option<ListingOptions> {
    let (times, has_lines, has_summary, has_gaps) = match word {
        "lines" => (Times::Ticks, true, false, false),
        "streams" => (Times::Ticks, false, true, false),
        "dates" => (Times::Iso, true, true, false),
        "gaps" => (Times::Ticks, false, false, true),
        "all" => (Times::Iso, true, true, true),
        _ => return None,
    };
    Some(ListingOptions {
        times,
        has_lines,
        has_summary,
        has_gaps,
    })
}

/// What stands in files, whose names a comma separates.
fn files_of(rt: &HostRuntime, names: &str) -> Result<Vec<Vec<u8>>, Fault> {
    let mut files = Vec::new(rt.alloc());
    for name in names.split(',') {
        files.push(fs::read(rt, name)?)?;
    }
    Ok(files)
}

/// Plays a line that is about files of records: `records FILE,FILE lines LISTING` or `records FILE fault 4 2 512`.
pub fn play_records(rt: &HostRuntime, line: &DialogueLine) -> DialogueAnswer {
    let (what, rest) = word_and_rest(line.rest);
    if what == "fault" {
        let bytes = fs::read(rt, line.verb)?;
        return compare_fault(rt.alloc(), bytes.as_slice(), rest);
    }
    let Some(options) = options_of(what) else {
        return Err(Fault::Step);
    };
    let files = files_of(rt, line.verb)?;
    let wanted = fs::read(rt, rest)?;
    compare_listing(rt.alloc(), options, files.as_slice(), wanted.as_slice())
}
