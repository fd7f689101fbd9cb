//! What the user is told of words that are no job.
use crate::amounts::{number_in, period_in, seconds_in};
use crate::commands::command_named;
use crate::job::ReadOptions;
use crate::words::{names_nothing, read_options, text_at, texts_at};
use clap::ArgMatches;
use clap::error::ErrorKind;
use std::alloc::{AllocError, Global};
use std::fmt::{self, Display, Formatter, Write};

/// An option whose text is a number, by its name.
#[derive(Clone, Copy, Drop)]
enum Counted {
    /// A number from 1 to 1,000,000,000.
    Number(&'static str),
    /// A length of time.
    Seconds(&'static str),
    /// A number of turns or a length of time.
    Period(&'static str),
}

/// Those of all commands.
static COUNTED: [Counted; 8] = [
    Counted::Number("turns"),
    Counted::Period("reread"),
    Counted::Period("report"),
    Counted::Number("per-address"),
    Counted::Seconds("silent"),
    Counted::Number("from"),
    Counted::Seconds("retry"),
    Counted::Seconds("timeout"),
];

impl Counted {
    /// Whether the option has a text that is not one.
    fn is_wrong(self, arguments: &ArgMatches<'_>) -> bool {
        match self {
            Counted::Number(name) => number_in(arguments, name).is_none(),
            Counted::Seconds(name) => seconds_in(arguments, name).is_none(),
            Counted::Period(name) => period_in(arguments, name).is_none(),
        }
    }
}

impl Display for Counted {
    fn fmt<W: Write>(&self, f: &mut Formatter<W>) -> fmt::Result {
        match self {
            Counted::Number(name) => write!(f, "--{name} takes a number from 1 to 1000000000"),
            Counted::Seconds(name) => write!(f, "--{name} takes seconds, as 600 or 10m"),
            Counted::Period(name) => write!(
                f,
                "--{name} takes turns, as 600, or a time, as 60s, 10m or 2h"
            ),
        }
    }
}

/// The first option with a number whose text is not one.
fn wrong_count(arguments: &ArgMatches<'_>) -> Option<Counted> {
    for option in &COUNTED {
        if option.is_wrong(arguments) {
            return Some(*option);
        }
    }
    None
}

/// What is wrong with an end, if something is.
fn end_mistake(options: &ReadOptions<'_>) -> &'static str {
    if options.begin.is_none() {
        "--end needs --begin"
    } else if options.fetch {
        "--end can't be used with --fetch"
    } else if options.retry.is_some() {
        "--end can't be used with --retry"
    } else {
        "--end can't be used with --state"
    }
}

/// What is wrong with the words of `read`.
fn read_mistake(arguments: &ArgMatches<'_>) -> &'static str {
    let Some(options) = read_options(arguments) else {
        return INVALID;
    };
    if options.wants_file.is_none() && texts_at(arguments, "WANT").is_none() {
        "a WANT or --wants is needed"
    } else if options.archive.is_some() && options.output.is_some() {
        "--archive can't be used with --output"
    } else {
        end_mistake(&options)
    }
}

/// What is wrong with the words of `serve`.
fn serve_mistake(arguments: &ArgMatches<'_>) -> &'static str {
    if text_at(arguments, "status-from").is_some() {
        "--status-from needs --status"
    } else if text_at(arguments, "status-name").is_some() {
        "--status-name needs --status"
    } else {
        "--silent needs --status"
    }
}

/// What is said if no more is known.
const INVALID: &str = "the command line is invalid";

/// What is wrong with the words of a command whose numbers are right.
fn mistake_in(name: &str, arguments: &ArgMatches<'_>) -> &'static str {
    if names_nothing(arguments) {
        return "the name of a file or folder is empty";
    }
    match name {
        "read" => read_mistake(arguments),
        "serve" => serve_mistake(arguments),
        "feed" => "--strict can't be used with --skip",
        "view" => "WHO can't be used with --station",
        _ => INVALID,
    }
}

/// The error that says so, with how the command is used.
fn mistake_error(
    alloc: Global,
    name: &str,
    arguments: &ArgMatches<'_>,
) -> Result<clap::Error, AllocError> {
    let mut command = command_named(alloc, name)?;
    let text = match wrong_count(arguments) {
        Some(option) => format!(in alloc; "{option}")?,
        None => String::from_str(alloc, mistake_in(name, arguments))?,
    };
    command.error(ErrorKind::ArgumentConflict, text.as_str())
}

/// The text that says so.
pub fn mistake_text(alloc: Global, matches: &ArgMatches<'_>) -> Result<String, AllocError> {
    match matches.subcommand() {
        Some((name, arguments)) => text_of(alloc, mistake_error(alloc, name, arguments)?),
        None => String::from_str(alloc, "error: the command line is invalid\n"),
    }
}

/// How the line of a tip begins that helps nobody here: no text of the program begins with a dash.
const NO_TIP: &str = "  tip: to pass ";

/// A text without that tip, and without the empty line after it.
fn without_tip(alloc: Global, text: &str) -> Result<String, AllocError> {
    let mut kept = String::new(alloc);
    let mut is_after_tip = false;
    for line in text.lines() {
        let is_tip = line.starts_with(NO_TIP);
        if !is_tip && !(is_after_tip && line.is_empty()) {
            kept.push_str(line)?;
            kept.push_str("\n")?;
        }
        is_after_tip = is_tip;
    }
    Ok(kept)
}

/// The text of an error of `clap`.
pub fn text_of(alloc: Global, error: clap::Error) -> Result<String, AllocError> {
    match error.to_string(alloc) {
        Ok(text) => without_tip(alloc, text.as_str()),
        Err(_) => Err(AllocError),
    }
}
