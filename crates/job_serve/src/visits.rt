//! Lines that several parts of a server write, and among them who comes and goes.
ghost use Rattle.std.specs.Prelude.{◌≡◌, [], ◌∷◌, None, is_some};
ghost use Rattle.ports_logged.specs.Visits.{Notes, Passes};

use crate::asked::{AskedLog, CloseLine, MoreStationsLine};
use crate::counts::SharedCounts;
use crate::refusals::{RefusalLog, RefusedLine, RefusedText};
use error_lines::{ErrorLine, ErrorLines, StandardError};
use files::{microseconds, milliseconds};
use ports::RecordRefusal;
use ports_logged::{Journal, Sent, Visit};
use std::alloc::{AllocError, Global};
use std::cell::{Cell, RefCell};
use std::fmt::{self, Display, Formatter, Write};
use std::net::Ipv4Addr;

/// Lines to standard error that several parts of a server write.
#[derive(Drop)]
pub struct SharedLines {
    lines: RefCell<ErrorLines<StandardError>>,
    /// How many clients were cut since the last line that told it.
    cut: Cell<usize>,
}

impl SharedLines {
    /// Lines to standard error, of which none was dropped.
    pub fn new(errors: StandardError) -> SharedLines {
        SharedLines {
            lines: RefCell::new(ErrorLines::new(errors)),
            cut: Cell::new(0),
        }
    }

    /// Writes a line, or drops it if standard error doesn't take it at once.
    pub fn write_line(&self, line: &ErrorLine) {
        if let Ok(mut lines) = self.lines.try_borrow_mut() {
            let _is_written = lines.write_line(line);
        }
    }

    /// Writes a line of the server's log.
    pub fn tell(&self, text: impl Display + Drop) {
        self.write_line(&line_of(text));
    }

    /// A new configuration cut one more client.
    fn count_cut(&self) {
        self.cut.set(self.cut.get().saturating_add(1));
    }

    /// How many clients were cut since this was asked last.
    pub fn take_cut(&self) -> usize {
        self.cut.replace(0)
    }
}

/// A journal whose entries are lines, as `seedlinkd: open 17 10.0.0.7`. Of records that were refused it writes one for
/// each cause of a feed, and for each unknown station one an hour; of stations that a client was refused one each, up
/// to 64 a client. It counts what a status port tells of visits, if there is one.
#[derive(Drop)]
pub struct VisitLines<'l> {
    rt: &'l HostRuntime,
    /// None if no line is written.
    lines: Option<&'l SharedLines>,
    refusals: RefusalLog,
    asked: AskedLog,
    counts: Option<&'l SharedCounts>,
    /// When the server began, in microseconds of the system's clock, and how many milliseconds had passed since as the
    /// turn under way began.
    began: u64,
    now: u64,
}

impl<'l> VisitLines<'l> {
    /// A journal that wrote and counted nothing yet, of so many clients at most. It fails only for want of memory.
    pub fn new(
        rt: &'l HostRuntime,
        alloc: Global,
        clients: usize,
        lines: Option<&'l SharedLines>,
        counts: Option<&'l SharedCounts>,
    ) -> Result<VisitLines<'l>, AllocError> {
        let refusals = RefusalLog::new(alloc)?;
        let asked = AskedLog::new(alloc, if lines.is_some() { clients } else { 0 })?;
        Ok(VisitLines {
            rt,
            lines,
            refusals,
            asked,
            counts,
            began: microseconds(rt),
            now: 0,
        })
    }
}

/// A line of the server's log.
fn line_of(text: impl Display + Drop) -> ErrorLine {
    let mut line = ErrorLine::new();
    let _ = write!(line, "seedlinkd: {text}");
    line
}

impl VisitLines<'_> {
    /// A record of a feed was refused, of which the visit tells.
    fn write_refused(
        &mut self,
        lines: &SharedLines,
        visit: &Visit,
        port: u64,
        refusal: RecordRefusal,
    ) {
        match self.refusals.add(port, refusal, milliseconds(self.rt)) {
            Some(RefusedLine::First) => lines.write_line(&line_of(visit)),
            Some(more) => lines.write_line(&line_of(RefusedText(more))),
            None => {}
        }
    }

    /// A list of stations of a client is over. If it has more than lines told, it is told how many more.
    fn write_more(
        &mut self,
        lines: &SharedLines,
        word: &'static str,
        port: u64,
        address: Ipv4Addr,
    ) {
        let more = self.asked.end_told();
        if more > 0 {
            lines.write_line(&line_of(MoreStationsLine {
                word,
                port,
                address,
                more,
            }));
        }
    }

    /// Writes the line of a visit, if one is due.
    fn write(&mut self, lines: &SharedLines, visit: &Visit) {
        match visit {
            Visit::Refused {
                port,
                record: _,
                refusal,
            } => self.write_refused(lines, visit, *port, *refusal),
            Visit::FeedOver {
                port,
                address: _,
                records: _,
                refused: _,
            } => {
                self.refusals.forget(*port);
                lines.write_line(&line_of(visit));
            }
            Visit::NoStation { port, codes, .. } => {
                if self.asked.add(*port, *codes) {
                    lines.write_line(&line_of(visit));
                }
            }
            Visit::Reads { .. } | Visit::Packets { .. } => {
                if self.asked.add_told() {
                    lines.write_line(&line_of(visit));
                }
            }
            Visit::Begins { port, address } => self.write_more(lines, "reads", *port, *address),
            Visit::Close { port, address, .. } => {
                self.write_more(lines, "sent", *port, *address);
                let more = self.asked.forget(*port);
                lines.write_line(&line_of(CloseLine { visit, more }));
            }
            Visit::Cut {
                port: _,
                address: _,
            } => lines.count_cut(),
            _ => lines.write_line(&line_of(visit)),
        }
    }
}

impl Journal for VisitLines<'_> {
    // What the standard error takes and shared counts hold, no contract can say.
    ghost noted = { λ _. None };

    ghost passed = { λ _. None };

    ghost listening = { λ s. is_some s.lines };

    fn note(&mut self, visit: Visit)
        ensures notes { Notes None None (visit ∷ []) }
    {
        if let Some(counts) = self.counts {
            counts.note(&visit);
        }
        if let Some(lines) = self.lines {
            self.write(lines, &visit);
        }
    }

    fn took(&mut self, sent: Sent)
        ensures passed { Passes None None (sent ∷ []) }
    {
        if let Some(counts) = self.counts {
            counts.took(sent);
        }
    }

    /// If lines are written.
    fn listens(&self) -> bool
        ensures { result ≡ is_some self.entry.now.lines }
    {
        self.lines.is_some()
    }

    /// What the ports say first after a wait begins a turn. Without a status port nobody asks for the time, and
    /// the clock is not looked at.
    fn heard(&mut self) -> u64 {
        if let Some(counts) = self.counts {
            if counts.is_waiting() {
                let now = microseconds(self.rt);
                counts.begin_turn(now);
                self.now = now.saturating_sub(self.began) / 1_000;
            }
        }
        self.now
    }
}
