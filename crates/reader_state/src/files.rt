//! The lines of files.
ghost use Rattle.std.specs.Prelude.{◌≡◌, ◌++◌, ◌<◌, ◌^◌, ℕ, IfOk, List, MatchResult, OnOk, Some, true};
ghost use Rattle.std.specs.Fmt.{decimal};
ghost use Rattle.continued_files.specs.Lengths.{LengthValue};
ghost use Rattle.reader_state.specs.States.{AreLengths, IsLength, are_of_others, file_line, file_words};
ghost use Rattle.reader_state.specs.States.{files_text};
ghost use Rattle.reader_state.specs.declared.reading.StateFault.TheVariants.{OutOfMemory};

use crate::line::{put_count, put_word};
use crate::reading::{StateFault, cut};
use continued_files::FileLength;
use std::alloc::{AllocError, Global};
use std::collections::HashSet;

/// Adds the line of a file.
fn put_file(text: &mut Vec<u8>, file: &FileLength) -> Result<(), AllocError>
    ensures { OnOk result (text.new.items ≡ text.old.items ++ file_line file.now) }
{
    put_word(text, file.name())?;
    put_count(text, file.count())?;
    text.push(b'\n')?;
    Ok(())
}

/// Adds the lines of files.
pub(crate) fn put_files(text: &mut Vec<u8>, files: &[FileLength]) -> Result<(), AllocError>
    ensures { OnOk result (text.new.items ≡ text.old.items ++ files_text files.now) }
{
    for file in files {
        put_file(text, file)?;
    }
    Ok(())
}

/// The number that a text spells in decimal digits.
fn count_of(text: &[u8]) -> Option<u64>
    ensures { (count : ℕ) → count < 2 ^ 64 → text.now ≡ decimal count → result ≡ Some count }
{
    let text = match str::from_utf8(text) {
        Ok(text) => text,
        Err(_) => return None,
    };
    text.parse::<u64>().ok()
}

/// The length that a line tells of, without its end.
pub(crate) fn file_of(alloc: Global, line: &[u8]) -> Result<FileLength, StateFault>
    ensures { (f : LengthValue) → IsLength f → line.now ≡ file_words f
        → MatchResult result (λ file. file ≡ f) (λ fault. fault ≡ OutOfMemory) }
{
    let words = match cut(line, b' ') {
        Some(words) => words,
        None => return Err(StateFault::Invalid),
    };
    let count = match count_of(words.rest) {
        Some(count) => count,
        None => return Err(StateFault::Invalid),
    };
    match FileLength::new(alloc, words.front, count) {
        Ok(file) => Ok(file),
        Err(_) => Err(StateFault::OutOfMemory),
    }
}

/// Whether no two of these lengths are of one file.
pub(crate) fn are_of_others(alloc: Global, files: &[FileLength]) -> Result<bool, AllocError>
    ensures { IfOk result (λ are. are ≡ are_of_others files.now) }
{
    let mut names: HashSet<&[u8]> = HashSet::new(alloc);
    let mut at = files.len();
    while at > 0 {
        at -= 1;
        match names.insert(files[at].name()) {
            Ok(true) => {}
            Ok(false) => return Ok(false),
            Err(_) => return Err(AllocError),
        }
    }
    Ok(true)
}

/// The lengths that lines tell of. What stands behind the last end of a line is passed over.
fn lengths_in(alloc: Global, bytes: &[u8]) -> Result<Vec<FileLength>, StateFault>
    ensures { (fs : List LengthValue) → AreLengths fs → bytes.now ≡ files_text fs
        → MatchResult result (λ files. files.items ≡ fs) (λ fault. fault ≡ OutOfMemory) }
{
    let mut files = Vec::new(alloc);
    let mut left = bytes;
    'lines: while let Some(line) = cut(left, b'\n') {
        let file = file_of(alloc, line.front)?;
        match files.push(file) {
            Ok(()) => {}
            Err(_) => return Err(StateFault::OutOfMemory),
        }
        left = line.rest;
    }
    Ok(files)
}

/// The lengths that lines tell of, no two of which are of one file.
pub(crate) fn files_in(alloc: Global, bytes: &[u8]) -> Result<Vec<FileLength>, StateFault>
    ensures named { IfOk result (λ files. are_of_others files.items ≡ true) }
    ensures back { (fs : List LengthValue) → AreLengths fs → are_of_others fs ≡ true → bytes.now ≡ files_text fs
        → MatchResult result (λ files. files.items ≡ fs) (λ fault. fault ≡ OutOfMemory) }
{
    let files = lengths_in(alloc, bytes)?;
    match are_of_others(alloc, &files) {
        Ok(true) => Ok(files),
        Ok(false) => Err(StateFault::Invalid),
        Err(_) => Err(StateFault::OutOfMemory),
    }
}
