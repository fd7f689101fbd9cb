//! The wants that a file has, one a line.
ghost use Rattle.std.specs.Prelude.{◌≡◌, IfOk, OnOk, [], map, ◌++◌};
ghost use Rattle.job_read.specs.WantLines.{is_left_out, line_value, lines_before, next_number, want_lines};
ghost use Rattle.job_read.specs.WantLines.{without_return};

use std::alloc::{AllocError, Global};
use text_parts::separators::cut_at;

/// A line that has a want.
#[derive(Clone, Copy)]
pub struct WantLine<'a> {
    /// Its number in the file, from 1 on.
    pub number: u64,
    /// Its text, without its end.
    pub text: &'a [u8],
}

/// A line without the CR that may stand at its end.
pub fn without_return(line: &[u8]) -> &[u8]
    ensures { result.now ≡ without_return line.now }
{
    match line.split_last() {
        Some((b'\r', front)) => front,
        _ => line,
    }
}

/// Whether a line is passed over: it is empty, or begins with `#`.
fn is_left_out(line: &[u8]) -> bool
    ensures { result ≡ is_left_out line.now }
{
    match line.first() {
        Some(byte) => *byte == b'#',
        None => true,
    }
}

/// Adds a line, unless it is passed over.
fn put_line<'a>(
    lines: &mut Vec<WantLine<'a>>,
    number: u64,
    line: &'a [u8],
) -> Result<(), AllocError>
    ensures { OnOk result (map line_value lines.new.items
        ≡ map line_value lines.old.items ++ lines_before number (without_return line.now) []) }
{
    let text = without_return(line);
    if !is_left_out(text) {
        lines.push(WantLine { number, text })?;
    }
    Ok(())
}

/// The lines of a text that have wants. Empty lines and those that begin with `#` are passed over, and so is a CR at
/// the end of a line.
pub fn want_lines<'a>(alloc: Global, text: &'a [u8]) -> Result<Vec<WantLine<'a>>, AllocError>
    ensures { IfOk result (λ lines. map line_value lines.items ≡ want_lines text.now) }
{
    let mut lines = Vec::new(alloc);
    let mut number = 1;
    let mut left = text;
    'lines: while let Some((line, rest)) = cut_at(left, b'\n') {
        put_line(&mut lines, number, line)?;
        number = number.saturating_add(1);
        left = rest;
    }
    put_line(&mut lines, number, left)?;
    Ok(lines)
}
