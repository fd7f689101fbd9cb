//! On which line of a configuration's text a value begins.
ghost use Rattle.std.specs.Prelude.{◌≡◌, ◌≢◌, ◌+◌, ◌-◌, ◌<◌, ◌≤◌, ◌++◌, ℕ, false, true, length, take, slice_index};
ghost use Rattle.std.specs.Prelude.{IfOk, IfSome, Some, is_some, option_map};
ghost use Rattle.std.specs.Str.{IsUtf8};
ghost use Rattle.toml.specs.Parse.{parse_document};
ghost use Rattle.toml.specs.View.{table_view};
ghost use Rattle.config_explained.specs.ValueLines.{BeginsAt, IsLineIn, IsLineOf, NoneReads, Reads, array_reading};
ghost use Rattle.config_explained.specs.ValueLines.{closed_reading, step_in, whole_step};
ghost use Rattle.config_explained.specs.Values.{value_at};

use crate::finding::table_if_any;
use crate::lines::put;
use crate::place::{place_of, start_of_line};
use crate::values::value_at;
use catalog::{StationStep, Step};
use std::alloc::{AllocError, Global};
use toml::Table;

/// In a text of more bytes no line is looked for, since each look reads it from its beginning.
const MOST_BYTES: usize = 262_144;
/// How many lines are looked at for one up to which a text is TOML.
const MOST_LINES: usize = 64;
/// How often a range of a text is halved.
const MOST_HALVES: usize = 64;

/// The beginning of a text, up to an offset.
#[derive(Clone, Copy, Drop)]
struct Beginning {
    end: usize,
    /// Whether it has the value of the step that is looked for.
    has_value: bool,
}

/// The table of a text with an end put after it, if it is TOML.
fn table_with_end(alloc: Global, text: &[u8], end: &[u8]) -> Result<Option<Table>, AllocError>
    ensures { IfOk result (λ table. IsUtf8 (text.now ++ end.now)
        → parse_document (text.now ++ end.now) ≡ option_map table_view table) }
{
    let mut whole = text.to_vec(alloc)?;
    put(&mut whole, end)?;
    table_if_any(alloc, whole.as_slice())
}

/// The table of the beginning of a text, if it is TOML with an array closed at its end, or with a table in one.
#[tactic(auto, using(crate::proofs::ValueLineLemmas::reading_lemmas))]
fn table_in_array(alloc: Global, text: &[u8]) -> Result<Option<Table>, AllocError>
    ensures { IfOk result (λ table. IsUtf8 text.now → array_reading text.now ≡ option_map table_view table) }
{
    match table_with_end(alloc, text, b"]")? {
        Some(table) => Ok(Some(table)),
        None => table_with_end(alloc, text, b"}]"),
    }
}

/// The table of the beginning of a text, if it is TOML as it stands, or with an array or a table in one closed.
#[tactic(auto, using(crate::proofs::ValueLineLemmas::or_first, crate::proofs::ValueLineLemmas::or_second))]
fn closed_table(alloc: Global, text: &[u8]) -> Result<Option<Table>, AllocError>
    ensures { IfOk result (λ table. IsUtf8 text.now → closed_reading text.now ≡ option_map table_view table) }
{
    match table_if_any(alloc, text)? {
        Some(table) => Ok(Some(table)),
        None => table_in_array(alloc, text),
    }
}

/// Whether the beginning of a text has the value of a step, if it is TOML.
fn has_value(alloc: Global, text: &[u8], step: Step) -> Result<Option<bool>, AllocError>
    ensures { IfOk result (Reads text.now step) }
{
    match closed_table(alloc, text)? {
        Some(table) => Ok(Some(value_at(&table, step).is_some())),
        None => Ok(None),
    }
}

/// Where the line ends in which an offset lies: behind its LF, or at the text's end.
fn end_of_line(text: &[u8], from: usize) -> usize
    requires { from < length text.now }
    ensures later { from < result }
    ensures within { result ≤ length text.now }
    ensures end { result < length text.now → slice_index text.now (result - 1) ≡ 10 }
    ensures same_line { (k : ℕ) → from ≤ k → k + 1 < result → slice_index text.now k ≢ 10 }
{
    for i in from..text.len() {
        if text[i] == b'\n' {
            return i + 1;
        }
    }
    text.len()
}

/// The next end of a line up to which a text is TOML, if one of the next lines has it.
fn next_beginning(
    alloc: Global,
    text: &[u8],
    step: Step,
    from: usize,
) -> Result<Option<Beginning>, AllocError>
    requires { from ≤ length text.now }
    ensures later { IfOk result (λ b. IfSome b (λ it. from < it.end)) }
    ensures within { IfOk result (λ b. IfSome b (λ it. it.end ≤ length text.now)) }
    ensures end { IfOk result (λ b. IfSome b (λ it.
        it.end < length text.now → slice_index text.now (it.end - 1) ≡ 10)) }
    ensures reads { IfOk result (λ b. IfSome b (λ it. Reads (take it.end text.now) step (Some it.has_value))) }
    ensures between { IfOk result (λ b. IfSome b (λ it. NoneReads text.now step from it.end)) }
{
    let mut end = from;
    for _ in 0..MOST_LINES {
        if end == text.len() {
            return Ok(None);
        }
        end = end_of_line(text, end);
        if let Some(has_value) = has_value(alloc, &text[..end], step)? {
            return Ok(Some(Beginning { end, has_value }));
        }
    }
    Ok(None)
}

/// The last line up to which a text is TOML that has not the value of a step, by halving.
fn last_without(alloc: Global, text: &[u8], step: Step) -> Result<Option<usize>, AllocError>
    ensures within { IfOk result (λ at. IfSome at (λ n. n ≤ length text.now)) }
    ensures begins { IfOk result (λ at. IfSome at (λ n.
        n < length text.now → 0 < n → slice_index text.now (n - 1) ≡ 10)) }
    ensures before { IfOk result (λ at. IfSome at (λ n. Reads (take n text.now) step (Some false))) }
{
    let Some(false) = has_value(alloc, &text[..0], step)? else {
        return Ok(None);
    };
    let mut low = 0;
    let mut high = text.len();
    for _ in 0..MOST_HALVES {
        let middle = low + high.saturating_sub(low) / 2;
        match next_beginning(alloc, text, step, middle)? {
            Some(
                Beginning {
                    end,
                    has_value: false,
                },
            ) => low = end,
            Some(_) if middle != low => high = start_of_line(&text[..middle]),
            _ => return Ok(Some(low)),
        }
    }
    Ok(Some(low))
}

/// Where the line begins that brings the value of a step.
fn begin_of(alloc: Global, text: &[u8], step: Step) -> Result<Option<usize>, AllocError>
    ensures within { IfOk result (λ at. IfSome at (λ n. n ≤ length text.now)) }
    ensures begins { IfOk result (λ at. IfSome at (BeginsAt text.now step)) }
{
    let Some(offset) = last_without(alloc, text, step)? else {
        return Ok(None);
    };
    match next_beginning(alloc, text, step, offset)? {
        Some(
            Beginning {
                has_value: true,
                ..
            },
        ) => Ok(Some(offset)),
        _ => Ok(None),
    }
}

/// The step of the whole table of a station, if it is a step of one.
fn whole_step(step: Step) -> Step
    ensures { result ≡ whole_step step }
{
    match step {
        Step::Station(place, _) => Step::Station(place, StationStep::Table),
        _ => step,
    }
}

/// The step whose value is there: a step itself, or that of its station.
fn step_in(table: &Table, step: Step) -> Step
    ensures { result ≡ step_in (table_view table.now) step }
{
    if value_at(table, step).is_some() {
        step
    } else {
        whole_step(step)
    }
}

/// The line on which the value at a step begins.
fn line_at(alloc: Global, text: &[u8], step: Step) -> Result<Option<u128>, AllocError>
    ensures { IfOk result (λ line. IfSome line (IsLineOf text.now step)) }
{
    match begin_of(alloc, text, step)? {
        Some(offset) => Ok(Some(place_of(text, offset).line)),
        None => Ok(None),
    }
}

/// The line of a configuration's text, from 1 on, on which what a step of its reading looks at begins: the value of its
/// key, or the table of its station if that key is missing. An array or a table over several lines is looked into. None
/// if nothing of it is there, if the text is not TOML or has more than 256 KiB, and within a text over more than 64
/// lines. Only memory can lack.
pub fn line_of(alloc: Global, text: &[u8], step: Step) -> Result<Option<u128>, AllocError>
    ensures { IfOk result (λ line. IfSome line (λ n. IsUtf8 text.now
        → IsLineIn (parse_document text.now) text.now step n)) }
{
    if MOST_BYTES < text.len() {
        return Ok(None);
    }
    match table_if_any(alloc, text)? {
        Some(table) => line_at(alloc, text, step_in(&table, step)),
        None => Ok(None),
    }
}
