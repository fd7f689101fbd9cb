//! A script's events at a server: from a reader to a writer, and from a file to the standard output.
ghost use Rattle.std.specs.Prelude.{◌≡◌, ◌≢◌, Some, None, length, map, option_map, IfOk, OnOk, IfErr, IfSome};
ghost use Rattle.std.specs.Prelude.{MatchResult};
ghost use Rattle.std.specs.List.{slice_split};
ghost use Rattle.server_core.specs.Runs.{event_value, handed_value};
ghost use Rattle.event_script.specs.Failing.{FailsAtLine};
ghost use Rattle.event_script.specs.Script.{events_of, is_line_feed};
ghost use Rattle.job_check.specs.Output.{output_after, replayed, written_of};
ghost use Rattle.job_check.specs.Replaying.{IfScript, LeavesReader, LeavesWriter, WritesAll, WritesBeginning};
ghost use Rattle.event_script.specs.declared.fault.ScriptFault.TheVariants.{Script as ScriptIsNone};
ghost use Rattle.job_check.specs.declared.replay_fault.ReplayFault.TheVariants.{Stream};
ghost use Rattle.sl_io.specs.declared.faults.StreamFault.TheVariants.{Write};

use crate::replay_fault::ReplayFault;
use catalog::Config;
use event_script::{ScriptError, ScriptFault, dialogue_of, events_of, output_of};
use incidents::Incident;
use job_base::{ReasonKeeper, config_at, is_terminal, open};
use server_core::{Event, Handed, run};
use shown_lines::ShownLine;
use sl_io::{Outer, Sink, Source, StreamFault, read_all, write_all};
use std::alloc::{AllocError, Global};
use std::fmt::{self, Display, Formatter, Write};
use std::io::{self, Read};

/// How a replay writes what happens.
#[derive(Clone, Copy, Drop)]
pub enum ReplayStyle {
    /// A line for each take: what it was handed, in hexadecimal digits.
    Hexadecimal,
    /// A line for each event, as text.
    Dialogue,
}

/// What is written of events and of what their takes were handed.
fn written_of(
    alloc: Global,
    style: ReplayStyle,
    events: &[Event],
    takes: &[Handed],
) -> Result<Vec<u8>, AllocError>
    ensures { IfOk result
        (λ text. text.items ≡ written_of style (map event_value events.now) (map handed_value takes.now)) }
{
    match style {
        ReplayStyle::Hexadecimal => output_of(alloc, takes),
        ReplayStyle::Dialogue => dialogue_of(alloc, events, takes),
    }
}

/// What a server with that configuration writes of events.
fn output_after(
    alloc: Global,
    style: ReplayStyle,
    config: Config,
    events: &[Event],
) -> Result<Vec<u8>, AllocError>
    ensures ok { IfOk result (λ output. output.items ≡ output_after style config (map event_value events.now)) }
{
    let takes = run(alloc, config, events)?;
    let output = written_of(alloc, style, events, takes.as_slice())?;
    Ok(output)
}

/// What is written of a script, and how many events it has.
#[derive(Drop)]
struct Replayed {
    output: Vec<u8>,
    count: usize,
}

/// What a server with that configuration writes of a script. A text that is none is refused at its first line that is
/// no event.
fn output_for(
    alloc: Global,
    style: ReplayStyle,
    config: Config,
    text: &[u8],
) -> Result<Replayed, ScriptError>
    ensures ok { IfOk result (λ made. replayed style config text.now ≡ Some made.output.items) }
    ensures count { IfOk result (λ made. option_map length (events_of text.now) ≡ Some made.count) }
    ensures script { IfErr result (λ e. e.fault ≡ ScriptIsNone → replayed style config text.now ≡ None) }
    ensures line { IfErr result (λ e. e.fault ≡ ScriptIsNone
        → FailsAtLine (slice_split is_line_feed text.now) e.line) }
{
    let events = events_of(alloc, text)?;
    let count = events.len();
    match output_after(alloc, style, config, events.as_slice()) {
        Ok(output) => Ok(Replayed { output, count }),
        Err(_) => Err(ScriptError {
            fault: ScriptFault::OutOfMemory,
            line: 0,
        }),
    }
}

/// Reads a script to its end, does its events at a new server with that configuration, and writes a line for each take,
/// or for each event, as the style says. The output is made whole before its first byte is written, and written in as
/// few calls as the writer takes. Answers how many events the script has.
///
/// It fails with Read where a read failed or 2^64 - 1 reads were made, with Script where the text is no script, and the
/// line that it names is the first that is no event, with Write where a write failed or took no byte, and with
/// OutOfMemory only where there is no memory. The writer is unchanged at all of them but Write, at which it was given a
/// beginning of the output.
pub fn replay<R: Source, W: Sink>(
    alloc: Global,
    style: ReplayStyle,
    config: Config,
    script: &mut R,
    out: &mut W,
) -> Result<usize, ReplayFault>
    ensures count { IfOk result (λ count. IfSome (R.left script.old)
        (λ text. option_map length (events_of text) ≡ Some count)) }
    ensures ok { OnOk result
        (IfSome (R.left script.old)
        (λ text. WritesAll (replayed style config text) (W.written out.old) (W.written out.new))) }
    ensures write { IfErr result (λ fault. fault ≡ Stream Write →
        IfSome (R.left script.old)
        (λ text. WritesBeginning (replayed style config text) (W.written out.old) (W.written out.new))) }
    ensures script { IfErr result (λ fault. IfScript fault (λ line.
        IfSome (R.left script.old) (λ text. replayed style config text ≡ None))) }
    ensures line { IfErr result (λ fault. IfScript fault (λ line.
        IfSome (R.left script.old) (λ text. FailsAtLine (slice_split is_line_feed text) line))) }
    ensures unchanged { IfErr result (λ fault. fault ≢ Stream Write → out.new ≡ out.old) }
    ensures reader { MatchResult result (λ _. R.failures script.new ≡ R.failures script.old)
        (λ fault. LeavesReader fault (R.failures script.old) (R.failures script.new) (R.calls script.old)
        (R.calls script.new)) }
    ensures writer { MatchResult result
        (λ _. (W.failures out.new ≡ W.failures out.old) × (W.empty_writes out.new ≡ W.empty_writes out.old))
        (λ fault. LeavesWriter fault (W.failures out.old) (W.failures out.new) (W.empty_writes out.old)
        (W.empty_writes out.new)) }
{
    let text = match read_all(alloc, script) {
        Ok(text) => text,
        Err(fault) => return Err(ReplayFault::Stream(StreamFault::from(fault))),
    };
    let Replayed { output, count } = match output_for(alloc, style, config, text.as_slice()) {
        Ok(made) => made,
        Err(
            ScriptError {
                fault: ScriptFault::OutOfMemory,
                ..
            },
        ) => return Err(ReplayFault::Stream(StreamFault::OutOfMemory)),
        Err(
            ScriptError {
                fault: ScriptFault::Script,
                line,
            },
        ) => return Err(ReplayFault::Script(line)),
    };
    match write_all(out, output.as_slice()) {
        Ok(()) => Ok(count),
        Err(fault) => Err(ReplayFault::Stream(StreamFault::from(fault))),
    }
}

/// Replays a script, and writes its output to the standard output. Answers how many events it has.
fn write_output<S: Source>(
    rt: &HostRuntime,
    style: ReplayStyle,
    config: Config,
    script: &mut S,
) -> Result<usize, ReplayFault> {
    let mut out = Outer::new(io::writer(rt));
    replay(rt.alloc(), style, config, script, &mut out)
}

/// The same of a script in a file that is open.
fn replay_open<'a, F: Read + Drop>(
    rt: &HostRuntime,
    style: ReplayStyle,
    config: Config,
    script: &'a str,
    file: F,
) -> Result<usize, Incident<'a>> {
    let mut file = Outer::new(ReasonKeeper::new(file));
    match write_output(rt, style, config, &mut file) {
        Ok(count) => Ok(count),
        Err(fault) => {
            let reason = file.into_inner().into_reason();
            Err(fault.in_script(script).at_file(script, reason))
        }
    }
}

/// That a script has no event, as standard error is told.
#[derive(Clone, Copy)]
struct EmptyScript<'a> {
    path: &'a str,
}

impl Display for EmptyScript<'_> {
    fn fmt<W: Write>(&self, f: &mut Formatter<W>) -> fmt::Result {
        let mut line = ShownLine::new(f);
        write!(line, "seedlinkd: no event to replay in {}", self.path)
    }
}

/// Writes the output of a script. The configuration is judged before the script is opened. With `is_verbose`, or at a
/// terminal, it is told if the script has no event.
pub fn replay_files<'a>(
    rt: &HostRuntime,
    style: ReplayStyle,
    config: &'a str,
    script: &'a str,
    is_verbose: bool,
) -> Result<(), Incident<'a>> {
    let config = config_at(rt, config)?.into_config();
    let file = open(rt, script)?;
    let count = replay_open(rt, style, config, script, file)?;
    if count == 0 && (is_verbose || is_terminal()) {
        let _ = eprintln!(rt; "{}", EmptyScript { path: script });
    }
    Ok(())
}
