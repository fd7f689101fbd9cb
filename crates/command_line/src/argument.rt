//! What an argument of a command is, as `clap` has it.

use clap::{Arg, ArgAction};
use std::alloc::Global;

/// A row of a command's table: what an argument is, by its name and what its value is called, and its help.
#[derive(Clone, Copy)]
pub enum Argument<'a> {
    /// `NAME`.
    Wanted(&'a str, &'a str),
    /// `[NAME]`.
    Spare(&'a str, &'a str),
    /// `NAME..`, one or more.
    Several(&'a str, &'a str),
    /// `[NAME..]`, one or more if it is there.
    Any(&'a str, &'a str),
    /// `[--name]`.
    Flag(&'a str, &'a str),
    /// `--name VALUE`.
    Needed(&'a str, &'a str, &'a str),
    /// `[--name VALUE]`.
    Value(&'a str, &'a str, &'a str),
}

/// A text that has to be there.
fn wanted<'a>(alloc: Global, name: &'a str, help: &'a str) -> Arg<'a> {
    Arg::new(alloc, name).required(true).help(help)
}

/// A text that may be left out.
fn spare<'a>(alloc: Global, name: &'a str, help: &'a str) -> Arg<'a> {
    Arg::new(alloc, name).help(help)
}

/// One or more texts that have to be there.
fn several_wanted<'a>(alloc: Global, name: &'a str, help: &'a str) -> Arg<'a> {
    wanted(alloc, name, help).num_args(1..)
}

/// One or more texts that may be left out.
fn several_spare<'a>(alloc: Global, name: &'a str, help: &'a str) -> Arg<'a> {
    spare(alloc, name, help).num_args(1..)
}

/// A flag `--name`.
fn flag<'a>(alloc: Global, name: &'a str, help: &'a str) -> Arg<'a> {
    Arg::new(alloc, name)
        .long(name)
        .action(ArgAction::SetTrue)
        .help(help)
}

/// An option `--name VALUE`.
fn option<'a>(
    alloc: Global,
    name: &'a str,
    value: &'a str,
    required: bool,
    help: &'a str,
) -> Arg<'a> {
    Arg::new(alloc, name)
        .long(name)
        .value_name(value)
        .required(required)
        .help(help)
}

/// The flag `-v` or `--verbose`, which each command has.
pub fn verbose<'a>(alloc: Global) -> Arg<'a> {
    Arg::new(alloc, "verbose")
        .long("verbose")
        .short('v')
        .action(ArgAction::SetTrue)
        .help("Says on standard error what is wrong and where")
}

impl<'a> Argument<'a> {
    /// The argument of a row.
    pub fn build(self, alloc: Global) -> Arg<'a> {
        match self {
            Argument::Wanted(name, help) => wanted(alloc, name, help),
            Argument::Spare(name, help) => spare(alloc, name, help),
            Argument::Several(name, help) => several_wanted(alloc, name, help),
            Argument::Any(name, help) => several_spare(alloc, name, help),
            Argument::Flag(name, help) => flag(alloc, name, help),
            Argument::Needed(name, value, help) => option(alloc, name, value, true, help),
            Argument::Value(name, value, help) => option(alloc, name, value, false, help),
        }
    }
}
