//! The commands that a reader has not asked yet.
//!
//! An answer that comes early counts. What is asked depends on the bytes that came alone, and not on what was sent. So
//! several commands can wait to be sent, and `read_over` sends what was asked last before it ends.
ghost use Rattle.std.specs.Prelude.{◌≡◌, ◌+◌, IfSome};
ghost use Rattle.slreader.specs.Lines.{size_of};

use crate::commands::CommandLine;
use std::marker::Model;

/// How many bytes the commands take, with their ends and behind `before` others; None where they are too many to be
/// counted.
pub(crate) fn size_behind(before: usize, lines: &[CommandLine]) -> Option<usize>
    ensures { IfSome result (λ size. size ≡ before + size_of lines.now) }
{
    let mut size = before;
    for line in lines {
        size = size.checked_add(line.len())?.checked_add(1)?;
    }
    Some(size)
}

/// The commands that were not asked yet, in order.
#[derive(Drop)]
pub(crate) struct Agenda {
    lines: Vec<CommandLine>,
    next: usize,
}

impl Model for Agenda {
    ghost use Rattle.std.specs.Prelude.{List, drop};
    ghost use Rattle.slreader.specs.Wants.{Command};

    ghost Value = { List Command };

    ghost view = { λ a. drop a.next a.lines.items };
}

impl Agenda {
    ghost use Rattle.std.specs.Prelude.{◌≡◌, drop};
    ghost use Rattle.std.specs.Option.{option_copied};
    ghost use Rattle.slreader.specs.Lines.{begins_with, first_of, without};

    /// All of the commands.
    pub(crate) fn new(lines: Vec<CommandLine>) -> Agenda
        ensures { result ≡ lines.items }
    {
        Agenda { lines, next: 0 }
    }

    /// The first one.
    pub(crate) fn first(&self) -> Option<&CommandLine>
        ensures { option_copied result ≡ first_of self.now }
    {
        if self.next < self.lines.len() {
            Some(&self.lines[self.next])
        } else {
            None
        }
    }

    /// The first one is asked.
    #[tactic(auto, using(crate::proofs::AgendaLemmas::drop_one))]
    pub(crate) fn advance(&mut self)
        ensures { self.new ≡ drop 1 self.old }
    {
        if self.next < self.lines.len() {
            self.next += 1;
        }
    }

    /// Whether the first one is a command of the want.
    fn begins_with(&self, want: usize) -> bool
        ensures { result ≡ begins_with want self.now }
    {
        match self.first() {
            Some(line) => line.want == Some(want),
            None => false,
        }
    }

    /// The other commands of a want are not asked.
    pub(crate) fn skip(&mut self, want: usize)
        ensures { self.new ≡ without want self.old }
    {
        'skipping: while self.begins_with(want) {
            self.advance();
        }
    }
}
