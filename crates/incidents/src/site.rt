//! Where a failure happened, and the lines that say so.
use shown_lines::put_line;
use std::fmt::{self, Display, Formatter, Write};
use std::io;

/// Where a failure happened, by a name that the user knows.
#[derive(Drop)]
pub enum Place<'a> {
    /// Nowhere that has a name: memory, or the standard output.
    Nowhere,
    /// A file or a folder that a word of the command line names.
    File(&'a str),
    /// A file or a folder below one that a word names.
    Below(String),
    /// A line of a file, from 1 on.
    Line { path: &'a str, number: u64 },
    /// A word of the command line.
    Word(&'a str),
    /// The address of a server, or one to listen on.
    Address(&'a str),
}

/// What is known of a failure beside its place.
#[derive(Drop)]
pub enum Detail {
    /// Nothing that the failure doesn't say.
    Nothing,
    /// The reason that the system gave.
    System(io::Error),
    /// The name of the part that is wrong.
    Part(&'static str),
    /// Lines that whoever found it made, each with two spaces before it and a line end after it.
    Lines(String),
}

/// Where a failure happened, as far as the program knows.
#[derive(Drop)]
pub struct Site<'a> {
    pub place: Place<'a>,
    pub detail: Detail,
}

impl Display for Place<'_> {
    /// The lines that name it.
    fn fmt<W: Write>(&self, f: &mut Formatter<W>) -> fmt::Result {
        match self {
            Place::Nowhere => Ok(()),
            Place::File(path) => put_line(f, "file", *path),
            Place::Below(path) => put_line(f, "file", path.as_str()),
            Place::Line { path, number } => {
                put_line(f, "file", *path)?;
                writeln!(f, "  line: {number}")
            }
            Place::Word(word) => put_line(f, "word", *word),
            Place::Address(address) => put_line(f, "address", *address),
        }
    }
}

impl Display for Detail {
    /// The lines that tell it.
    fn fmt<W: Write>(&self, f: &mut Formatter<W>) -> fmt::Result {
        match self {
            Detail::Nothing => Ok(()),
            Detail::System(reason) => put_line(f, "reason", reason),
            Detail::Part(part) => writeln!(f, "  part: {part}"),
            Detail::Lines(lines) => f.write_str(lines.as_str()),
        }
    }
}

impl Display for Site<'_> {
    fn fmt<W: Write>(&self, f: &mut Formatter<W>) -> fmt::Result {
        write!(f, "{}{}", self.place, self.detail)
    }
}
