//! Bytes as a dialogue spells them: `\r`, `\n` and `\\`, `\xff` for any byte, and `\251*A` for A 251 times.
use crate::fault::Fault;
use std::alloc::{AllocError, Global};

/// How far the spelling of a byte has come.
#[derive(Clone, Copy)]
enum Spelling {
    /// Nothing of it was read.
    Plain,
    /// A backslash.
    Escape,
    /// A backslash and an x.
    High,
    /// The same, and the value of a hexadecimal digit.
    Low(u8),
    /// A backslash and a number.
    Count(usize),
    /// A backslash, a number and a star.
    Times(usize),
}

/// The digits of a count are at most these and one more.
const MOST: usize = 10_000;

fn push_times(byte: u8, times: usize, bytes: &mut Vec<u8>) -> Result<(), AllocError> {
    for _ in 0..times {
        bytes.push(byte)?;
    }
    Ok(())
}

/// A count with one more digit.
fn counted(count: usize, digit: u8) -> Result<Spelling, Fault> {
    if digit.is_ascii_digit() && count < MOST {
        Ok(Spelling::Count(count * 10 + (digit - b'0') as usize))
    } else if digit == b'*' {
        Ok(Spelling::Times(count))
    } else {
        Err(Fault::Step)
    }
}

/// The value of a hexadecimal digit, below 16.
fn value_of(digit: u8) -> Result<u8, Fault> {
    match digit {
        b'0'..=b'9' => Ok(digit - b'0'),
        b'a'..=b'f' => Ok(digit - b'a' + 10),
        _ => Err(Fault::Step),
    }
}

/// What follows a backslash.
fn escaped(byte: u8, bytes: &mut Vec<u8>) -> Result<Spelling, Fault> {
    let meant = match byte {
        b'x' => return Ok(Spelling::High),
        b'r' => b'\r',
        b'n' => b'\n',
        b'\\' => b'\\',
        _ => return counted(0, byte),
    };
    bytes.push(meant)?;
    Ok(Spelling::Plain)
}

/// Reads one more byte of a spelling.
fn read_byte(spelling: Spelling, byte: u8, bytes: &mut Vec<u8>) -> Result<Spelling, Fault> {
    match spelling {
        Spelling::Escape => escaped(byte, bytes),
        Spelling::High => Ok(Spelling::Low(value_of(byte)?)),
        Spelling::Low(high) => {
            bytes.push((high % 16) * 16 + value_of(byte)? % 16)?;
            Ok(Spelling::Plain)
        }
        Spelling::Count(count) => counted(count, byte),
        Spelling::Times(times) => {
            push_times(byte, times, bytes)?;
            Ok(Spelling::Plain)
        }
        Spelling::Plain => {
            if byte == b'\\' {
                return Ok(Spelling::Escape);
            }
            bytes.push(byte)?;
            Ok(Spelling::Plain)
        }
    }
}

/// The bytes that a text spells, and an ending behind them.
pub fn spelled(alloc: Global, text: &str, ending: &[u8]) -> Result<Vec<u8>, Fault> {
    let mut bytes = Vec::new(alloc);
    let mut spelling = Spelling::Plain;
    for byte in text.as_bytes() {
        spelling = read_byte(spelling, *byte, &mut bytes)?;
    }
    if !matches!(spelling, Spelling::Plain) {
        return Err(Fault::Step);
    }
    bytes.extend_from_slice(ending)?;
    Ok(bytes)
}

fn push_shown(byte: u8, text: &mut String) -> Result<(), AllocError> {
    match byte {
        b'\r' => text.push_str("\\r"),
        b'\n' => text.push_str("\\n"),
        b'\\' => text.push_str("\\\\"),
        b' '..=b'~' => text.push(byte as char),
        _ => write!(text, "<{byte}>"),
    }
}

/// Bytes as a report shows them: those that are no letters as their numbers, and the first 80 alone.
pub fn shown(alloc: Global, bytes: &[u8]) -> Result<String, AllocError> {
    let mut text = String::new(alloc);
    for byte in bytes.iter().take(80) {
        push_shown(*byte, &mut text)?;
    }
    if bytes.len() > 80 {
        write!(text, ".. ({} bytes)", bytes.len())?;
    }
    Ok(text)
}
