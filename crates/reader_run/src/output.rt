//! What is told of a dialogue and was not written yet.
//!
//! A packet that can't be kept as a whole is not listed. Its line is made apart, its record is added to those that are
//! to be written, and then the line to the lines, or neither. What a read brought is written records first. So the
//! order holds at a refused allocation too, and not only where a writer fails.
ghost use Rattle.std.specs.Prelude.{◌≡◌, ◌++◌, ◌∷◌, [], map, OnOk};
ghost use Rattle.reader_run.specs.Lines.{refusal_at, refusal_line};

use crate::packet_lines::PacketLines;
use crate::texts::{put_packet, refusal_line};
use slreader::{GivenPacket, Plan, Want};
use std::alloc::{AllocError, Global};
use std::marker::Model;

/// The line of a want, if it is refused.
#[derive(Drop)]
pub(crate) struct RefusalLine {
    line: Vec<u8>,
}

impl Model for RefusalLine {
    ghost use Rattle.std.specs.Prelude.{ℕ, List};

    ghost Value = { List ℕ };

    ghost view = { λ r. r.line.items };
}

/// The lines of wants, if they are refused.
fn put_refusals(
    alloc: Global,
    refusals: &mut Vec<RefusalLine>,
    wants: &[Want<'_>],
) -> Result<(), AllocError>
    ensures { OnOk result (refusals.new.items ≡ refusals.old.items ++ map refusal_line wants.now) }
{
    for want in wants {
        refusals.push(RefusalLine {
            line: refusal_line(alloc, want)?,
        })?;
    }
    Ok(())
}

fn put_refusal(
    alloc: Global,
    refusals: &mut Vec<RefusalLine>,
    want: &Want<'_>,
) -> Result<(), AllocError>
    ensures { OnOk result (refusals.new.items ≡ refusals.old.items ++ refusal_line want.now ∷ []) }
{
    refusals.push(RefusalLine {
        line: refusal_line(alloc, want)?,
    })?;
    Ok(())
}

/// The line of a want; that of a want that is not there is empty.
fn refusal_at(refusals: &[RefusalLine], want: usize) -> &[u8]
    ensures { result.now ≡ refusal_at refusals.now want }
{
    match refusals.get(want) {
        Some(refusal) => &refusal.line,
        None => &[],
    }
}

/// The lines that were not written yet.
#[derive(Drop)]
pub(crate) struct Output {
    refusals: Vec<RefusalLine>,
    packets: PacketLines,
    lines: Vec<u8>,
    /// The line that is being made.
    line: Vec<u8>,
}

impl Model for Output {
    ghost use Rattle.std.specs.Prelude.{[]};
    ghost use Rattle.reader_run.specs.Lines.{OutputValue};

    ghost Value = { OutputValue };

    ghost view = { λ o. record {
      style = record { refusals = o.refusals.items; packets = o.packets };
      lines = o.lines.items;
      records = [];
    } };
}

impl Output {
    ghost use Rattle.std.specs.Prelude.{◌≡◌, ◌++◌, [], length, take, IfOk, OnErr, OnOk};
    ghost use Rattle.slreader.specs.Views.{plan_value};
    ghost use Rattle.reader_run.specs.Lines.{line_of, nothing_told, refusal_at};

    /// Nothing is told.
    pub(crate) fn new(
        alloc: Global,
        packets: PacketLines,
        plan: &Plan<'_>,
    ) -> Result<Output, AllocError>
        ensures { IfOk result (λ o. o ≡ nothing_told packets (plan_value plan.now)) }
    {
        let mut refusals = Vec::new(alloc);
        match (packets, plan) {
            (PacketLines::Each(_), Plan::Uni(want)) => put_refusal(alloc, &mut refusals, want)?,
            (PacketLines::Each(_), Plan::Multi(wants)) => put_refusals(
                alloc,
                &mut refusals,
                wants,
            )?,
            (PacketLines::No, _) => {}
        }
        Ok(Output {
            refusals,
            packets,
            lines: Vec::new(alloc),
            line: Vec::new(alloc),
        })
    }

    /// The line of a packet; or nothing.
    pub(crate) fn put_packet(&mut self, packet: &GivenPacket<'_>) -> Result<(), AllocError>
        ensures told { OnOk result (self.new
            ≡ record self.old { lines = self.old.lines ++ line_of self.old.style.packets packet.now }) }
        ensures kept { OnErr result (self.new ≡ self.old) }
    {
        self.line.clear();
        put_packet(&mut self.line, self.packets, packet)?;
        self.lines.extend_from_slice(&self.line)
    }

    /// The line of a want that is refused; or nothing.
    pub(crate) fn put_refused(&mut self, want: usize) -> Result<(), AllocError>
        ensures told { OnOk result
            (self.new ≡ record self.old { lines = self.old.lines ++ refusal_at self.old.style.refusals want }) }
        ensures kept { OnErr result (self.new ≡ self.old) }
    {
        self.lines
            .extend_from_slice(refusal_at(&self.refusals, want))
    }

    /// The lines.
    pub(crate) fn lines(&self) -> &[u8]
        ensures { result.now ≡ self.now.lines }
    {
        self.lines.as_slice()
    }

    /// Only the first bytes of the lines are told.
    pub(crate) fn cut(&mut self, count: usize)
        ensures { self.new ≡ record self.old { lines = take count self.old.lines } }
    {
        self.lines.truncate(count);
    }

    /// All of it is written.
    pub(crate) fn clear(&mut self)
        ensures { self.new ≡ record self.old { lines = []; records = [] } }
    {
        self.lines.clear();
    }
}
