//! The events of a whole text.
ghost use Rattle.std.specs.Prelude.{◌≡◌, List, ℕ, ◌∷◌, Some, None, map, IfOk, OnOk, IfErr};
ghost use Rattle.std.specs.List.{slice_split};
ghost use Rattle.server_core.specs.Runs.{event_value};
ghost use Rattle.event_script.specs.Failing.{FailsAtLine};
ghost use Rattle.event_script.specs.Rows.{ReadsByTheTable};
ghost use Rattle.event_script.specs.Script.{events_of, events_of_lines, is_line_feed, is_skipped};
ghost use Rattle.event_script.specs.ScriptValues.{with_events};
ghost use Rattle.event_script.specs.declared.fault.ScriptFault.TheVariants.{Script};

use crate::fault::{ScriptError, ScriptFault};
use crate::line::event_of;
use server_core::Event;
use std::alloc::Global;

fn is_line_feed(byte: u8) -> bool
    ensures { result ≡ is_line_feed byte }
{
    byte == b'\n'
}

/// Whether a line spells nothing: it is empty, or begins with `#`.
fn is_skipped(line: &[u8]) -> bool
    ensures { result ≡ is_skipped line.now }
{
    match line {
        [] => true,
        [first, ..] => *first == b'#',
    }
}

/// Puts the event of a line behind the events before it, where the line spells one.
fn read_line(alloc: Global, line: &[u8], events: &mut Vec<Event>) -> Result<(), ScriptFault>
    ensures ok { OnOk result ((ls : List (List ℕ)) →
        with_events (map event_value events.old.items) (events_of_lines (line.now ∷ ls))
        ≡ with_events (map event_value events.new.items) (events_of_lines ls)) }
    ensures script { IfErr result (λ fault. fault ≡ Script → (ls : List (List ℕ))
        → events_of_lines (line.now ∷ ls) ≡ None) }
{
    if is_skipped(line) {
        return Ok(());
    }
    let event = event_of(alloc, line)?;
    events.push(event)?;
    Ok(())
}

/// The events of a script. Each line ends with a line feed, which the last may lack. A line is `open ADDRESS`, `bytes C
/// HEX`, `line C TEXT`, `take C N`, `close C`, `arrive NET STA LOC CHA Y,D,H,M,S,F SAMPLES`, `arrive-hex HEX` or
/// `reload HEX`, with one space between its words; an empty line and one that begins with `#` are skipped. All numbers
/// have 1 to 10 decimal digits. C is a client, counted by the lines `open` from 0, and N is at most 1,000,000. HEX is
/// one or more pairs of hexadecimal digits in either case. TEXT is all that follows the space, and a carriage return is
/// put behind it.
///
/// By `arrive` a record arrives that has the codes of a network, a station, a location (`--` is the empty code) and a
/// channel, a start (year, day of the year, hour, minute, second and ten-thousandths) and a count of samples. Its
/// sequence number is 1, its quality D, its rate 100 samples a second and its encoding 11, its numbers are in
/// big-endian order, and it has no data. Fields that spell no record are a bad line. By `arrive-hex` any 512 bytes
/// arrive.
///
/// By `reload` a configuration is read again: its text is what HEX spells, as a file of one has it (`Config::read`). A
/// text that is no configuration is a bad line. Whether the server takes the configuration is not asked here.
///
/// It fails with Script exactly where some line is none of these, memory aside, and says which line is the first: those
/// before it are a script.
pub fn events_of(alloc: Global, text: &[u8]) -> Result<Vec<Event>, ScriptError>
    ensures ok { IfOk result (λ events. events_of text.now ≡ Some (map event_value events.items)) }
    ensures script { IfErr result (λ e. e.fault ≡ Script → events_of text.now ≡ None) }
    ensures line { IfErr result (λ e. e.fault ≡ Script → FailsAtLine (slice_split is_line_feed text.now) e.line) }
{
    let mut events = Vec::new(alloc);
    let mut number = 0usize;
    let lines = text.split(
        |byte|
            ensures { result ≡ is_line_feed byte.now }
        { is_line_feed(*byte) },
    );
    for line in lines {
        number += 1;
        match read_line(alloc, line, &mut events) {
            Ok(()) => {}
            Err(fault) => return Err(ScriptError {
                fault,
                line: number,
            }),
        }
    }
    Ok(events)
}

/// A law of the definitions: what is read of a line is the event that it is by the table of lines, and a line that
/// stands in no row of it has no event.
pub fn lines_by_the_table()
    ensures { ReadsByTheTable }
{}
