//! The stations that fell silent, in red at a terminal.
use std::alloc::{AllocError, Global};

/// How the head of the table of stations begins, once it is laid out.
const HEAD: &[u8] = b"NET ";

/// What stands over the column of states.
const STATES: &[u8] = b"  STATE ";

/// The state of a station that fell silent, with the space after it.
const SILENT: &[u8] = b"silent ";

/// Where the states stand in the lines below this one: none if it ends its table, and as before if it is no head.
fn states_below(line: &[u8], before: Option<usize>) -> Option<usize> {
    if line == b"\n".as_slice() {
        return None;
    }
    if !line.starts_with(HEAD) {
        return before;
    }
    match line.windows(STATES.len()).position(|part| part == STATES) {
        Some(at) => Some(at.saturating_add(2)),
        None => None,
    }
}

/// Adds a line in whose table the states stand there.
fn put_line(text: &mut Vec<u8>, line: &[u8], at: usize) -> Result<(), AllocError> {
    let (before, state) = line.split_at(at.min(line.len()));
    match state.strip_prefix(SILENT) {
        Some(after) => {
            text.extend_from_slice(before)?;
            text.extend_from_slice(b"\x1b[31msilent\x1b[0m ")?;
            text.extend_from_slice(after)
        }
        None => text.extend_from_slice(line),
    }
}

/// Tables that are laid out, with the word `silent` of each station that is silent in red. Only memory can lack.
pub fn with_red(alloc: Global, text: &[u8]) -> Result<Vec<u8>, AllocError> {
    let mut red = Vec::new(alloc);
    let mut states = None;
    for line in text.split_inclusive(|byte| *byte == b'\n') {
        match states {
            Some(at) => put_line(&mut red, line, at)?,
            None => red.extend_from_slice(line)?,
        }
        states = states_below(line, states);
    }
    Ok(red)
}
