//! The commands that the program takes, as `clap` has them.

use crate::argument::{Argument, verbose};
use crate::tables::{CHECK, FEED, READ, REPLAY, SERVE, STATUS, VIEW};
use clap::Command;
use std::alloc::{AllocError, Global};

/// What `--version` prints after the program's name: the version, and the logic of the toolchain with which each
/// function was proved before the program was built.
pub const VERSION: &str = "0.2.0 (each function proved, logic dac8208d650f15bf)";

/// What the help of the whole program ends with.
const MORE_HELP: &str = "`seedlinkd --help faults` lists the faults by their numbers";

/// A command that is being built, unless memory ran out on the way.
type Built<'a> = Result<Command<'a>, AllocError>;

/// A command with the flag `-v` or `--verbose`.
fn with_verbose<'a>(alloc: Global, command: Built<'a>) -> Built<'a> {
    command?.arg(verbose(alloc))
}

/// A command with the arguments of a table.
fn with_table<'a>(alloc: Global, command: Command<'a>, table: &'a [Argument<'a>]) -> Built<'a> {
    let mut command = command;
    for row in table {
        command = command.arg(row.build(alloc))?;
    }
    Ok(command)
}

/// What a command is: its name, what it does, and the table of its arguments.
#[derive(Clone, Copy)]
struct CommandRow<'a> {
    name: &'a str,
    about: &'a str,
    table: &'a [Argument<'a>],
}

/// The names of the commands, in the order in which the help of the program lists them.
static NAMES: [&'static str; 7] = ["check", "replay", "view", "serve", "feed", "read", "status"];

/// The row of a command.
fn row<'a>(name: &'a str, about: &'a str, table: &'a [Argument<'a>]) -> CommandRow<'a> {
    CommandRow { name, about, table }
}

/// The row of the command with a name, if there is one.
fn row_of<'a>(name: &str) -> Option<CommandRow<'a>> {
    let row = match name {
        "check" => row("check", "Lists the records of files, a line each", &CHECK),
        "replay" => row(
            "replay",
            "Replays a script against a server and prints what each client\nreceives, in hex",
            &REPLAY,
        ),
        "view" => row(
            "view",
            "Lists the stations that an address sees, what another CONFIG changes,\nor all",
            &VIEW,
        ),
        "serve" => row("serve", "Serves records to clients over sockets", &SERVE),
        "feed" => row("feed", "Sends the records of files to a server", &FEED),
        "read" => row("read", "Reads records from a server, a line each", &READ),
        "status" => row(
            "status",
            "Prints how a server stands, by its status port; ends with 3 if a\nstation is silent",
            &STATUS,
        ),
        _ => return None,
    };
    Some(row)
}

/// A command by its name.
fn command_of<'a>(alloc: Global, name: &str) -> Built<'a> {
    let Some(row) = row_of(name) else {
        return bare(alloc);
    };
    let command = Command::new(alloc, row.name).about(row.about);
    with_verbose(alloc, with_table(alloc, command, row.table))
}

/// A command by its name, whose usage begins with the program's.
pub fn command_named<'a>(alloc: Global, name: &str) -> Built<'a> {
    let whole = format!(in alloc; "seedlinkd {name}")?;
    command_of(alloc, name)?.bin_name(whole.as_str())
}

/// The program before it has arguments and subcommands. Its usage has this name, whatever the file is called.
fn bare<'a>(alloc: Global) -> Built<'a> {
    let bare = Command::new(alloc, "seedlinkd")
        .about("A SeedLink 3 server whose stations are open to stated addresses only")
        .after_help(MORE_HELP)
        .version(VERSION)
        .subcommand_required(true);
    bare.bin_name("seedlinkd")
}

/// The program and its subcommands.
pub fn program<'a>(alloc: Global) -> Built<'a> {
    let mut program = with_verbose(alloc, bare(alloc))?;
    for name in &NAMES {
        program = program.subcommand(command_of(alloc, name)?)?;
    }
    Ok(program)
}
