//! Which line of a text that is no state is wrong.
use crate::files::file_of;
use crate::line::{put_count, put_word, put_words};
use crate::reading::{cut, last_of};
use continued_files::FileLength;
use std::alloc::{AllocError, Global};

/// The lines of a text that were looked at, all of which may stand in a state.
#[derive(Drop)]
struct Looked {
    alloc: Global,
    /// Those of files; None before the line `#`.
    files: Option<Vec<FileLength>>,
}

/// Whether a line is one of a station, as it is written.
fn is_station(alloc: Global, line: &[u8]) -> bool {
    let Ok(last) = last_of(alloc, line) else {
        return false;
    };
    let mut text = Vec::new(alloc);
    put_words(&mut text, &last).is_ok() && text.as_slice() == line
}

/// The line of a file, without its end.
fn file_text(alloc: Global, file: &FileLength) -> Result<Vec<u8>, AllocError> {
    let mut text = Vec::new(alloc);
    put_word(&mut text, file.name())?;
    put_count(&mut text, file.count())?;
    Ok(text)
}

/// The length that a line tells of, if it is one of a file as it is written, and of none of these.
fn other_file(alloc: Global, line: &[u8], files: &[FileLength]) -> Option<FileLength> {
    let file = file_of(alloc, line).ok()?;
    let text = file_text(alloc, &file).ok()?;
    for other in files {
        if other.name() == file.name() {
            return None;
        }
    }
    if text.as_slice() == line {
        Some(file)
    } else {
        None
    }
}

impl Looked {
    /// Whether a line may stand behind these, in a state. It is one of them then.
    fn takes(&mut self, line: &[u8]) -> bool {
        match &mut self.files {
            Some(files) => match other_file(self.alloc, line, files) {
                Some(file) => files.push(file).is_ok(),
                None => false,
            },
            None if line == b"#".as_slice() => {
                self.files = Some(Vec::new(self.alloc));
                true
            }
            None => is_station(self.alloc, line),
        }
    }

    /// Whether they end with the line `#`.
    fn are_open(&self) -> bool {
        match &self.files {
            Some(files) => files.is_empty(),
            None => false,
        }
    }
}

/// The first line of a text, from 1 on, that no state has there: it is not one of a station or of a file, or of a file
/// that an earlier line names; or it has no end, or is a `#` that nothing follows. None if there is none, or no memory.
pub fn wrong_line(alloc: Global, text: &[u8]) -> Option<u64> {
    let mut looked = Looked { alloc, files: None };
    let mut number: u64 = 0;
    let mut left = text;
    'lines: while let Some(line) = cut(left, b'\n') {
        number = number.saturating_add(1);
        if !looked.takes(line.front) {
            return Some(number);
        }
        left = line.rest;
    }
    if !left.is_empty() {
        return Some(number.saturating_add(1));
    }
    if looked.are_open() {
        Some(number)
    } else {
        None
    }
}
