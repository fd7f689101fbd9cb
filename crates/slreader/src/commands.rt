//! The lines of a plan's commands (SeedLink 3, commands).
//!
//! The want of each command stands beside its line, and the last command has none. The transfer begins once the last
//! command is asked: END, or the action of a plan of one want.
ghost use Rattle.std.specs.Prelude.{◌≡◌, ◌++◌, ◌∷◌, [], IfOk, OnOk, codes, length};
ghost use Rattle.std.specs.Option.{option_copied};
ghost use Rattle.slreader.specs.Wants.{action_line as spec_action_line, argument, command_of, commands_from};
ghost use Rattle.slreader.specs.Wants.{commands_of as spec_commands_of, commands_of_want, last_command};
ghost use Rattle.slreader.specs.Wants.{number_argument, select_line as spec_select_line, selects};
ghost use Rattle.slreader.specs.Wants.{station_line as spec_station_line};
ghost use Rattle.slreader.specs.WantTexts.{action_value, texts};
ghost use Rattle.slreader.specs.Views.{plan_value};

use crate::want::{Plan, Want, WantedAction};
use sl_packet::Seq;
use std::alloc::{AllocError, Global};
use std::marker::Model;

/// A command without its end. One that has an answer is part of a want; the last one has none, and begins the
/// transfer.
#[derive(Drop)]
pub(crate) struct CommandLine {
    pub(crate) want: Option<usize>,
    pub(crate) line: Vec<u8>,
}

impl Model for CommandLine {
    ghost use Rattle.slreader.specs.Wants.{Command};

    ghost Value = { Command };

    ghost view = { λ c. record { want = c.want; line = c.line.items } };
}

impl CommandLine {
    /// How many bytes it has.
    pub(crate) fn len(&self) -> usize
        ensures { result ≡ length self.now.line }
    {
        self.line.len()
    }
}

/// A space and an argument, if there is one.
fn put_argument(line: &mut Vec<u8>, text: Option<&[u8]>) -> Result<(), AllocError>
    ensures { OnOk result (line.new.items ≡ line.old.items ++ argument (option_copied text.entry)) }
{
    match text {
        Some(text) => {
            line.push(b' ')?;
            line.extend_from_slice(text)?;
            Ok(())
        }
        None => Ok(()),
    }
}

/// A space and the six digits of a number, if there is one.
fn put_number(line: &mut Vec<u8>, number: Option<Seq>) -> Result<(), AllocError>
    ensures { OnOk result (line.new.items ≡ line.old.items ++ number_argument number) }
{
    match number {
        Some(number) => {
            line.push(b' ')?;
            line.extend_from_slice(&number.digits())?;
            Ok(())
        }
        None => Ok(()),
    }
}

/// A name, and a number and a moment, as far as they are there.
fn numbered_line(
    alloc: Global,
    name: &[u8],
    number: Option<Seq>,
    begin: Option<&[u8]>,
) -> Result<Vec<u8>, AllocError>
    ensures { IfOk result
        (λ line. line.items ≡ name.now ++ (number_argument number ++ argument (option_copied begin.entry))) }
{
    let mut line = Vec::from_slice(alloc, name)?;
    put_number(&mut line, number)?;
    put_argument(&mut line, begin)?;
    Ok(line)
}

/// TIME and two moments, as far as they are there.
fn timed_line(
    alloc: Global,
    begin: Option<&[u8]>,
    last: Option<&[u8]>,
) -> Result<Vec<u8>, AllocError>
    ensures { IfOk result
        (λ line. line.items
        ≡ codes "TIME" ++ (argument (option_copied begin.entry) ++ argument (option_copied last.entry))) }
{
    let mut line = Vec::from_slice(alloc, b"TIME")?;
    put_argument(&mut line, begin)?;
    put_argument(&mut line, last)?;
    Ok(line)
}

/// DATA, FETCH or TIME with its arguments.
fn action_line(alloc: Global, action: &WantedAction<'_>) -> Result<Vec<u8>, AllocError>
    ensures { IfOk result (λ line. line.items ≡ spec_action_line (action_value action.now)) }
{
    match action {
        WantedAction::Data { number, begin } => numbered_line(alloc, b"DATA", *number, *begin),
        WantedAction::Fetch { number, begin } => numbered_line(alloc, b"FETCH", *number, *begin),
        WantedAction::Time { begin, last } => timed_line(alloc, *begin, *last),
    }
}

/// STATION with the codes of a want.
fn station_line(alloc: Global, want: &Want<'_>) -> Result<Vec<u8>, AllocError>
    ensures { IfOk result (λ line. line.items ≡ spec_station_line want.now) }
{
    let mut line = Vec::from_slice(alloc, b"STATION ")?;
    line.extend_from_slice(want.station)?;
    line.push(b' ')?;
    line.extend_from_slice(want.network)?;
    Ok(line)
}

/// SELECT with a pattern.
fn select_line(alloc: Global, pattern: &[u8]) -> Result<Vec<u8>, AllocError>
    ensures { IfOk result (λ line. line.items ≡ spec_select_line pattern.now) }
{
    let mut line = Vec::from_slice(alloc, b"SELECT ")?;
    line.extend_from_slice(pattern)?;
    Ok(line)
}

/// One command more, which is part of a want.
fn put_command(lines: &mut Vec<CommandLine>, want: usize, line: Vec<u8>) -> Result<(), AllocError>
    ensures { OnOk result (lines.new.items ≡ lines.old.items ++ command_of want line.items ∷ []) }
{
    lines.push(CommandLine {
        want: Some(want),
        line,
    })?;
    Ok(())
}

/// The last command.
fn put_last(lines: &mut Vec<CommandLine>, line: Vec<u8>) -> Result<(), AllocError>
    ensures { OnOk result (lines.new.items ≡ lines.old.items ++ last_command line.items ∷ []) }
{
    lines.push(CommandLine { want: None, line })?;
    Ok(())
}

/// A SELECT for each pattern.
fn put_selects(
    alloc: Global,
    lines: &mut Vec<CommandLine>,
    want: usize,
    patterns: &[&[u8]],
) -> Result<(), AllocError>
    ensures { OnOk result (lines.new.items ≡ lines.old.items ++ selects want (texts patterns.now)) }
{
    for pattern in patterns {
        put_command(lines, want, select_line(alloc, pattern)?)?;
    }
    Ok(())
}

/// The commands of a want in a plan of several.
#[tactic(auto, unfolding(crate::specs::Wants::commands_of_want))]
fn put_want(
    alloc: Global,
    lines: &mut Vec<CommandLine>,
    index: usize,
    want: &Want<'_>,
) -> Result<(), AllocError>
    ensures { OnOk result (lines.new.items ≡ lines.old.items ++ commands_of_want index want.now) }
{
    put_command(lines, index, station_line(alloc, want)?)?;
    put_selects(alloc, lines, index, &want.patterns)?;
    put_command(lines, index, action_line(alloc, &want.action)?)
}

/// The commands of all wants.
fn put_wants(
    alloc: Global,
    lines: &mut Vec<CommandLine>,
    wants: &[Want<'_>],
) -> Result<(), AllocError>
    ensures { OnOk result (lines.new.items ≡ lines.old.items ++ commands_from 0 wants.now) }
{
    for (index, want) in wants.iter().enumerate() {
        put_want(alloc, lines, index, want)?;
    }
    Ok(())
}

/// All commands of a plan after HELLO.
pub(crate) fn commands_of(alloc: Global, plan: &Plan<'_>) -> Result<Vec<CommandLine>, AllocError>
    ensures { IfOk result (λ lines. lines.items ≡ spec_commands_of (plan_value plan.now)) }
{
    let mut lines = Vec::new(alloc);
    match plan {
        Plan::Uni(want) => {
            put_selects(alloc, &mut lines, 0, &want.patterns)?;
            put_last(&mut lines, action_line(alloc, &want.action)?)?;
        }
        Plan::Multi(wants) => {
            put_wants(alloc, &mut lines, wants)?;
            put_last(&mut lines, Vec::from_slice(alloc, b"END")?)?;
        }
    }
    Ok(lines)
}
