//! A reader of several servers, one after the other.
ghost use Rattle.std.specs.Prelude.{OnOk, IfErr};
ghost use Rattle.reader_run.specs.Breaks.{StopsVisits};
ghost use Rattle.reader_run.specs.Following.{Follows};
ghost use Rattle.reader_run.specs.Keeping.{KeepsBehind};
ghost use Rattle.reader_run.specs.Visits.{EndsVisits, asking, progress};

use crate::fault::ListingFault;
use crate::keeping::Keeper;
use crate::packet_lines::PacketLines;
use crate::reading::{is_told_at, read_further};
use crate::record_sink::RecordSink;
use crate::servers::Servers;
use sl_io::Sink;
use slreader::{Tally, Want};
use std::alloc::Global;

/// Why the reading of servers stops.
#[derive(Drop)]
pub enum Break<F> {
    /// At a connection not all that came could be written or kept, or nothing could be asked; or 2^64 - 1 connections
    /// were made.
    Listing(ListingFault),
    /// No server is asked any more.
    Server(F),
}

/// Asks one server after the other for what wants want, each of them for what comes after the packets that were
/// written, until one comes to the end of the transfer. Each connection is read as `read_further` does. One that breaks
/// off before the end is passed over; one at which the reading stops, or comes to the end, is closed.
///
/// So of all that the servers hand out each record is written as it comes, and no server is asked for one that was
/// written. What the keeper keeps counts exactly what was written and made to last before, over all connections.
pub fn follow<S: Servers, O: Sink, P: RecordSink, K: Keeper<P>>(
    alloc: Global,
    lines: PacketLines,
    wants: &[Want<'_>],
    tally: &mut Tally,
    servers: &mut S,
    out: &mut O,
    records: &mut P,
    keeper: &mut K,
) -> Result<(), Break<S::Fault>>
    ensures ends { OnOk result (EndsVisits (asking wants.now lines)
        (progress tally.old (O.written out.old) (O.failures out.old) (O.empty_writes out.old)
        (P.written records.old) (P.failures records.old) (P.empty_writes records.old) (K.failures keeper.old))
        (progress tally.new (O.written out.new) (O.failures out.new) (O.empty_writes out.new)
        (P.written records.new) (P.failures records.new) (P.empty_writes records.new) (K.failures keeper.new))
        (S.told servers.old) (S.told servers.new)) }
    ensures stops { IfErr result (λ why. StopsVisits why (asking wants.now lines)
        (progress tally.old (O.written out.old) (O.failures out.old) (O.empty_writes out.old)
        (P.written records.old) (P.failures records.old) (P.empty_writes records.old) (K.failures keeper.old))
        (progress tally.new (O.written out.new) (O.failures out.new) (O.empty_writes out.new)
        (P.written records.new) (P.failures records.new) (P.empty_writes records.new) (K.failures keeper.new))
        (S.told servers.old) (S.told servers.new)) }
    ensures behind { KeepsBehind (λ t w. Follows wants.now tally.old (P.written records.old) t w)
        (K.done keeper.old) (K.done keeper.new) }
{
    'connections: for _ in 0..u64::MAX {
        let (mut reader, mut writer) = match servers.connect() {
            Ok(connection) => connection,
            Err(fault) => return Err(Break::Server(fault)),
        };
        let read = read_further(
            alloc,
            lines,
            wants,
            tally,
            &mut reader,
            &mut writer,
            out,
            records,
            keeper,
        );
        let fault = match read {
            Ok(()) => {
                servers.close(reader, writer);
                return Ok(());
            }
            Err(fault) => fault,
        };
        if !is_told_at(fault) {
            servers.close(reader, writer);
            return Err(Break::Listing(fault));
        }
        match servers.pass_over(fault, reader, writer) {
            Ok(()) => {}
            Err(fault) => return Err(Break::Server(fault)),
        }
    }
    Err(Break::Listing(ListingFault::Read))
}
