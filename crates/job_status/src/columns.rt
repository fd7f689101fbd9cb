//! Tables in columns: a table's columns are separated by tabs in its text, and by two spaces and more where it is
//! shown.
ghost use Rattle.std.specs.Prelude.{◌≡◌, ◌≤◌, ◌++◌, OnOk, length, replicate};
ghost use Rattle.job_status.specs.Columns.{after, gap, laid_block, laid_byte, laid_from, origin, widened, widths_from};
ghost use Rattle.job_status.specs.Columns.{shown};

use std::alloc::{AllocError, Global};

/// How many columns are laid out; those after them are as wide as their texts.
const COLUMNS: usize = 16;

/// Where in a table's text a byte stands: in which column of its line, and after how many characters of the column.
#[derive(Clone, Copy, Drop)]
pub struct Pen {
    pub column: usize,
    pub filled: usize,
}

/// The place of a table's first byte.
const ORIGIN: Pen = Pen {
    column: 0,
    filled: 0,
};

impl Pen {
    /// The place after a byte.
    fn after(self, byte: u8) -> Pen
        ensures { result ≡ after self byte }
    {
        match byte {
            b'\n' => ORIGIN,
            b'\t' => Pen {
                column: self.column.saturating_add(1),
                filled: 0,
            },
            _ => Pen {
                column: self.column,
                filled: self.filled.saturating_add(1),
            },
        }
    }
}

/// A column is at least as wide as a text that ends before this byte, if the byte is a tab.
fn widen(widths: &mut [usize], pen: Pen, byte: u8)
    ensures { widths.new ≡ widened widths.old pen byte }
{
    if byte == b'\t' && pen.column < widths.len() {
        widths[pen.column] = widths[pen.column].max(pen.filled);
    }
}

/// How wide each column of a table is.
#[tactic(auto, using(crate::proofs::ColumnLemmas::width_lemmas))]
fn measure(widths: &mut [usize], table: &[u8])
    ensures { widths.new ≡ widths_from widths.old origin table.now }
{
    let mut pen = ORIGIN;
    for byte in table {
        widen(widths, pen, *byte);
        pen = pen.after(*byte);
    }
}

/// How many spaces stand between a text that ends there and the next column.
fn gap(widths: &[usize], pen: Pen) -> usize
    ensures { result ≡ gap widths.now pen }
{
    let width = match widths.get(pen.column) {
        Some(width) => *width,
        None => 0,
    };
    width.saturating_sub(pen.filled).saturating_add(2)
}

/// So many spaces.
fn put_spaces(text: &mut Vec<u8>, count: usize) -> Result<(), AllocError>
    ensures { OnOk result (text.new.items ≡ text.old.items ++ replicate count 32) }
{
    for _ in 0..count {
        text.push(b' ')?;
    }
    Ok(())
}

/// A byte of a table, as it is shown.
fn put_byte(text: &mut Vec<u8>, widths: &[usize], pen: Pen, byte: u8) -> Result<(), AllocError>
    ensures { OnOk result (text.new.items ≡ text.old.items ++ laid_byte widths.now pen byte) }
{
    match byte {
        b'\t' => put_spaces(text, gap(widths, pen)),
        b'\n' => text.extend_from_slice(b"\n"),
        _ => text.extend_from_slice(&[shown(byte)]),
    }
}

/// A byte that is neither a tab nor the end of a line, as it is shown: `?` for one that controls a terminal.
fn shown(byte: u8) -> u8
    ensures { result ≡ shown byte }
{
    if byte < 32 || byte == 127 { b'?' } else { byte }
}

/// The bytes of a table.
#[tactic(auto, using(crate::proofs::ColumnLemmas::laid_lemmas))]
fn put_laid(text: &mut Vec<u8>, widths: &[usize], table: &[u8]) -> Result<(), AllocError>
    ensures { OnOk result (text.new.items ≡ text.old.items ++ laid_from widths.now origin table.now) }
{
    let mut pen = ORIGIN;
    for byte in table {
        put_byte(text, widths, pen, *byte)?;
        pen = pen.after(*byte);
    }
    Ok(())
}

/// A table.
fn put_block(text: &mut Vec<u8>, table: &[u8]) -> Result<(), AllocError>
    ensures { OnOk result (text.new.items ≡ text.old.items ++ laid_block table.now) }
{
    let mut widths = [0usize; COLUMNS];
    measure(&mut widths, table);
    put_laid(text, &widths, table)
}

/// How long the first table of a text is, with the empty line after it.
fn block_len(text: &[u8]) -> usize
    ensures { result ≤ length text.now }
{
    match text.windows(2).position(|pair| pair == b"\n\n".as_slice()) {
        Some(at) => at.saturating_add(2).min(text.len()),
        None => text.len(),
    }
}

/// A text of tables that are separated by empty lines, each laid out in its own columns. Only memory can lack.
pub fn laid_out(alloc: Global, text: &[u8]) -> Result<Vec<u8>, AllocError> {
    let mut laid = Vec::new(alloc);
    let mut rest = text;
    'tables: for _ in 0..text.len() {
        if rest.is_empty() {
            break 'tables;
        }
        let (table, others) = rest.split_at(block_len(rest));
        put_block(&mut laid, table)?;
        rest = others;
    }
    Ok(laid)
}
