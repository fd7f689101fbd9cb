//! Readers that go on one after the other in an archive in memory, each of them stopped somewhere: each record
//! stands in its file once.
use crate::worked::{HEAD, record_of};
use continued_files::{ContinuedFiles, FileLength, Unnamed};
use memory_doubles::{MemoryFiles, NamedRecord};
use mseed_header::read;
use record_archive::{Archive, StationCodes};
use std::alloc::{AllocError, Global};
use std::test::Fail;

/// How many records the servers have.
const COUNT: usize = 12;

/// How many are written until the state is kept.
const EVERY: usize = 3;

/// More calls than a reader makes.
const UNENDING: u64 = 1_000;

/// A reader's archive.
type MemoryArchive = Archive<ContinuedFiles<MemoryFiles>>;

/// The record of a number. Every third one is of another location.
fn record(number: usize) -> [u8; 512] {
    let digit = b'0' + (number % 10) as u8;
    let ten = b'0' + (number / 10 % 10) as u8;
    let location = if number % 3 == 2 { b'1' } else { b'0' };
    record_of(&HEAD, &[(4, ten), (5, digit), (13, b'0'), (14, location)])
}

/// What outlives a reader: its files, and the state with the number that comes next and the lengths of files.
#[derive(Drop)]
struct Left {
    all: Vec<NamedRecord>,
    next: usize,
    lengths: Vec<FileLength>,
}

/// Where a reader is stopped: before so many calls that add or sync, or before so many times that its state takes the
/// place of the last one; and whether its machine loses its power then.
#[derive(Clone, Copy)]
struct Stop {
    calls: u64,
    renames: u64,
    is_power_lost: bool,
}

/// It is not stopped before all is read.
const END: Stop = Stop {
    calls: UNENDING,
    renames: UNENDING,
    is_power_lost: false,
};

/// The archive with which a reader begins.
fn archive_after(
    alloc: Global,
    all: Vec<NamedRecord>,
    lengths: &[FileLength],
    calls: u64,
) -> Result<MemoryArchive, AllocError> {
    let mut stations = Vec::new(alloc);
    stations.push(StationCodes::new(alloc, b"GE", b"APE")?)?;
    let mut named = Vec::new(alloc);
    for length in lengths {
        named.push(FileLength::new(alloc, length.name(), length.count())?)?;
    }
    let files = MemoryFiles::new(alloc, all, calls);
    let files = ContinuedFiles::new(alloc, files, named, Unnamed::Tail);
    Ok(Archive::new(alloc, files, stations))
}

/// A state that was kept: the number that comes next, and the lengths of files.
type Kept = (usize, Vec<FileLength>);

/// Reads records from a number on until the reader is stopped. Answers the last state that it kept, if it kept one.
fn read_from(archive: &mut MemoryArchive, first: usize, renames: u64) -> Option<Kept> {
    let mut kept = None;
    let mut left = renames;
    for number in first..COUNT {
        let record = record(number);
        if archive.put(&record, &read(&record).ok()).is_err() {
            return kept;
        }
        if number % EVERY == EVERY - 1 {
            let Ok(lengths) = archive.last() else {
                return kept;
            };
            if left == 0 {
                return kept;
            }
            left -= 1;
            kept = Some((number + 1, lengths));
        }
    }
    kept
}

/// A reader begins with what is left, and is stopped.
fn run(alloc: Global, before: Left, stop: Stop) -> Result<Left, AllocError> {
    let Left { all, next, lengths } = before;
    let mut archive = archive_after(alloc, all, &lengths, stop.calls)?;
    let kept = read_from(&mut archive, next, stop.renames);
    let all = archive
        .into_folders()
        .into_files()
        .into_left(stop.is_power_lost);
    Ok(match kept {
        Some((next, lengths)) => Left { all, next, lengths },
        None => Left { all, next, lengths },
    })
}

/// How often a record stands in the files.
fn count_of(all: &[NamedRecord], number: usize) -> usize {
    let wanted = record(number);
    let mut count: usize = 0;
    for one in all {
        if one.bytes == wanted {
            count = count.saturating_add(1);
        }
    }
    count
}

/// Whether each record stands in the files once.
fn are_once(all: &[NamedRecord]) -> bool {
    for number in 0..COUNT {
        if count_of(all, number) != 1 {
            return false;
        }
    }
    all.len() == COUNT
}

/// Whether those before a record that stand in its file have lower numbers.
fn comes_after(one: &NamedRecord, before: &[NamedRecord]) -> bool {
    for other in before {
        if other.name.as_slice() == one.name.as_slice() && !is_before(other, one) {
            return false;
        }
    }
    true
}

/// Whether the records of each file stand in it in the order of their numbers.
fn are_in_order(all: &[NamedRecord]) -> bool {
    for (place, one) in all.iter().enumerate() {
        if !comes_after(one, &all[..place]) {
            return false;
        }
    }
    true
}

/// Whether a record has a lower number.
fn is_before(one: &NamedRecord, other: &NamedRecord) -> bool {
    one.bytes[4] < other.bytes[4]
        || (one.bytes[4] == other.bytes[4] && one.bytes[5] < other.bytes[5])
}

/// Two readers are stopped, and a third one reads to the end.
fn after_two(alloc: Global, first: Stop, second: Stop) -> Result<Left, AllocError> {
    let empty = Left {
        all: Vec::new(alloc),
        next: 0,
        lengths: Vec::new(alloc),
    };
    let left = run(alloc, empty, first)?;
    let left = run(alloc, left, second)?;
    run(alloc, left, END)
}

/// How many ways there are to stop a reader, with and without a loss of power: before each of 17 calls, and before each
/// of five times that its state takes the place of the last one.
const STOPS: usize = 44;

/// One of them.
fn stop_at(number: usize) -> Stop {
    let place = (number % 22) as u64;
    let is_power_lost = number >= 22;
    if place < 17 {
        Stop {
            calls: place,
            renames: UNENDING,
            is_power_lost,
        }
    } else {
        Stop {
            calls: UNENDING,
            renames: place - 17,
            is_power_lost,
        }
    }
}

/// Whether each record stands once and in order after two readers that are stopped.
fn is_right_after(alloc: Global, first: usize, second: usize) -> Result<bool, AllocError> {
    let left = after_two(alloc, stop_at(first), stop_at(second))?;
    Ok(are_once(&left.all) && are_in_order(&left.all))
}

#[test]
fn each_record_stands_once_however_two_readers_are_stopped(rt: HostRuntime) -> Result<(), Fail> {
    for first in 0..STOPS {
        for second in 0..STOPS {
            assert!(rt;
                is_right_after(rt.alloc(), first, second)?,
                "{first} {second}"
            );
        }
    }
    Ok(())
}

/// Records, by their numbers, that are handed to one file one after the other.
fn hand_all(files: &mut ContinuedFiles<MemoryFiles>, numbers: &[usize]) -> bool {
    for number in numbers {
        if files.hand("-", &record(*number)).is_err() {
            return false;
        }
    }
    true
}

/// A file with these records, of which a state has counted so many.
fn file_with(
    alloc: Global,
    numbers: &[usize],
    kept: u64,
) -> Result<ContinuedFiles<MemoryFiles>, AllocError> {
    let mut all = Vec::new(alloc);
    for number in numbers {
        all.push(NamedRecord {
            name: b"-".to_vec(alloc)?,
            bytes: record(*number),
        })?;
    }
    let mut named = Vec::new(alloc);
    named.push(FileLength::new(alloc, b"-", kept)?)?;
    let files = MemoryFiles::new(alloc, all, UNENDING);
    Ok(ContinuedFiles::new(alloc, files, named, Unnamed::Tail))
}

/// Whether these records stand in the files, in that order.
fn are(all: &[NamedRecord], numbers: &[usize]) -> bool {
    for (one, number) in all.iter().zip(numbers) {
        if one.bytes != record(*number) {
            return false;
        }
    }
    all.len() == numbers.len()
}

/// Numbers that stand in a file, how many of them a state counts, those that are handed then, what stands in the file
/// after that, and how many of it a state counts that is kept then.
type Case = (
    &'static [usize],
    u64,
    &'static [usize],
    &'static [usize],
    u64,
);

static CASES: [Case; 12] = [
    // The tail comes again as it stands, and then more.
    (&[0, 1, 2], 1, &[1, 2, 3], &[0, 1, 2, 3], 4),
    // It comes in part: the rest may still come.
    (&[0, 1, 2], 1, &[1], &[0, 1, 2], 2),
    // Another server lacks what stands there, or has what doesn't.
    (&[0, 1, 3], 1, &[3, 4], &[0, 1, 3, 4], 1),
    (&[0, 1, 3], 1, &[1, 2, 3, 4], &[0, 1, 3, 2, 4], 5),
    // Records of several stations come in another order.
    (&[0, 1, 2, 3], 0, &[1, 3, 0, 2, 4], &[0, 1, 2, 3, 4], 5),
    (&[0, 1, 2, 3], 1, &[4, 3, 2], &[0, 1, 2, 3, 4], 1),
    // A hole is filled, and what stands behind it comes again.
    (
        &[0, 1, 5, 6, 7],
        1,
        &[1, 2, 3, 4, 5, 6, 7, 8],
        &[0, 1, 5, 6, 7, 2, 3, 4, 8],
        9,
    ),
    // Two places have the same record, which comes twice, and then once more.
    (&[0, 1, 1], 1, &[1, 1, 1], &[0, 1, 1, 1], 4),
    // What was counted is added again, if it is handed.
    (&[0, 1], 2, &[0, 2], &[0, 1, 0, 2], 4),
    // The state counts more than stands there: all of it is tail.
    (&[0], 5, &[1], &[0, 1], 0),
    (&[0], 5, &[1, 0], &[0, 1], 2),
    // Nothing was counted.
    (&[0, 1], 0, &[0, 1, 2], &[0, 1, 2], 3),
];

/// Whether a state would count so many of the only file.
fn counts(files: &mut ContinuedFiles<MemoryFiles>, counted: u64) -> bool {
    match files.last() {
        Ok(lengths) => match lengths.as_slice() {
            [length] => length.count() == counted,
            _ => false,
        },
        Err(_) => false,
    }
}

/// Whether a file is continued as a case says.
fn is_continued(alloc: Global, case: &Case) -> Result<bool, AllocError> {
    let (before, kept, handed, after, counted) = *case;
    let mut files = file_with(alloc, before, kept)?;
    let are_handed = hand_all(&mut files, handed);
    Ok(are_handed && are(files.files().all(), after) && counts(&mut files, counted))
}

#[test]
fn a_tail_is_passed_over_as_it_comes_again(rt: HostRuntime) -> Result<(), Fail> {
    for (row, case) in CASES.iter().enumerate() {
        assert!(rt; is_continued(rt.alloc(), case)?, "in row {row}");
    }
    Ok(())
}
