//! A round of a reading: what is asked is sent, a piece is read, and what it gives is written.
ghost use Rattle.std.specs.Prelude.{◌≡◌, ◌≢◌, ◌+◌, ◌<◌, ◌≤◌, ◌++◌, List, ℕ, [], drop, length, take, IfErr, IfNone};
ghost use Rattle.std.specs.Prelude.{IfOk, IfSome, MatchOption, OnErr, OnOk};
ghost use Rattle.std.specs.Io.KnownBytes.{Appends, Consumes, Keeps};
ghost use Rattle.sl_io.specs.Counts.{IsMore, StopsWriting};
ghost use Rattle.slreader.specs.declared.fault.ReaderFault.TheVariants.{Limit};
ghost use Rattle.slreader.specs.Dialogue.Stage.{Failed};
ghost use Rattle.reader_run.specs.declared.fault.ListingFault.TheVariants.{Reader, State};
ghost use Rattle.reader_run.specs.Lines.{beside, line_of, record_of, with_lines, with_records};
ghost use Rattle.reader_run.specs.Pieces.{FailsPiece, StopsPiece, TakesPiece, WritesRecordsFirst};
ghost use Rattle.reader_run.specs.Takes.{StopsGiven, StopsTake};
ghost use Rattle.slreader.specs.Whats.{what_value};
ghost use Rattle.reader_run.specs.Rounds.{Rounds, Sends, StaysInOrder, StopsExchange, StopsTaking, TakesBlock, moment};
ghost use Rattle.reader_run.specs.Stops.{AreBothQuiet, EndsReading, IsQuiet, OneStops, StopsOver, writes};

use crate::fault::ListingFault;
use crate::output::Output;
use crate::record_sink::{RecordSink, SinkFault};
use sl_io::{Sink, Source, WriteFault, write_all};
use sl_packet::PACKET;
use slreader::{GivenPacket, ReaderCore, ReaderFault, What};

/// Writes all that is asked and was not sent.
fn send<W: Sink>(core: &mut ReaderCore, writer: &mut W) -> Result<(), WriteFault>
    ensures written { OnOk result (Appends (W.written writer.old) (W.written writer.new)
        (drop core.old.sent core.old.asked)) }
    ensures sent { OnOk result
        (core.new ≡ record core.old { sent = core.old.sent + length (drop core.old.sent core.old.asked) }) }
    ensures quiet { OnOk result (IsQuiet (W.failures writer.old) (W.failures writer.new)
        (W.empty_writes writer.old) (W.empty_writes writer.new)) }
    ensures stopped { OnErr result (StopsWriting (W.failures writer.old) (W.failures writer.new)
        (W.empty_writes writer.old) (W.empty_writes writer.new)) }
{
    let outgoing = core.outgoing();
    write_all(writer, outgoing)?;
    let count = outgoing.len();
    core.sent(count);
    Ok(())
}

/// Writes what is told: the records, and their lines only once the writer has taken all of the records.
fn write_output<O: Sink, P: RecordSink>(
    output: &mut Output,
    out: &mut O,
    records: &mut P,
) -> Result<(), WriteFault>
    ensures lines { OnOk result (Appends (O.written out.old) (O.written out.new) output.old.lines) }
    ensures records { OnOk result ((waiting : List ℕ) → P.Waits records.old waiting
        → Appends (P.written records.old) (P.written records.new) waiting) }
    ensures cleared { OnOk result (output.new ≡ record output.old { lines = []; records = [] }) }
    ensures quiet { OnOk result (AreBothQuiet
        (writes (O.failures out.old) (O.empty_writes out.old)) (writes (O.failures out.new) (O.empty_writes out.new))
        (writes (P.failures records.old) (P.empty_writes records.old))
        (writes (P.failures records.new) (P.empty_writes records.new))) }
    ensures stopped { OnErr result (OneStops
        (writes (O.failures out.old) (O.empty_writes out.old)) (writes (O.failures out.new) (O.empty_writes out.new))
        (writes (P.failures records.old) (P.empty_writes records.old))
        (writes (P.failures records.new) (P.empty_writes records.new))) }
    ensures order { OnErr result ((waiting : List ℕ) → P.Waits records.old waiting
        → WritesRecordsFirst (beside output.old waiting)
        (O.written out.old) (O.written out.new) (P.written records.old) (P.written records.new)) }
{
    records.hand_on()?;
    write_all(out, output.lines())?;
    output.clear();
    Ok(())
}

/// Tells of a packet, and hands its record on; or neither.
fn put_packet<P: RecordSink>(
    output: &mut Output,
    packet: &GivenPacket<'_>,
    records: &mut P,
) -> Result<(), SinkFault>
    ensures lines { OnOk result (output.new ≡ record output.old {
      lines = output.old.lines ++ line_of output.old.style.packets packet.now;
    }) }
    ensures waits { OnOk result ((waiting : List ℕ) → P.Waits records.old waiting
        → P.Waits records.new (waiting ++ record_of packet.now)) }
    ensures written { OnOk result (P.written records.new ≡ P.written records.old) }
    ensures quiet { OnOk result (IsQuiet (P.failures records.old) (P.failures records.new)
        (P.empty_writes records.old) (P.empty_writes records.new)) }
    ensures kept { OnErr result (output.new ≡ output.old) }
    ensures stopped { IfErr result (λ fault. StopsTake fault (P.Waits records.old) (P.Waits records.new)
        (record_of packet.now) (P.written records.old) (P.written records.new)
        (P.failures records.old) (P.failures records.new)
        (P.empty_writes records.old) (P.empty_writes records.new)) }
{
    let before = output.lines().len();
    match output.put_packet(packet) {
        Ok(()) => {}
        Err(_) => return Err(SinkFault::OutOfMemory),
    }
    match records.put(packet) {
        Ok(()) => Ok(()),
        Err(fault) => {
            output.cut(before);
            Err(fault)
        }
    }
}

/// Tells what was given, and hands the record of a packet on; or neither.
fn put<P: RecordSink>(
    output: &mut Output,
    what: &What<'_>,
    records: &mut P,
) -> Result<(), SinkFault>
    ensures lines { OnOk result (output.new ≡ with_lines output.old (what_value what.now)) }
    ensures waits { OnOk result ((waiting : List ℕ) → P.Waits records.old waiting
        → P.Waits records.new (with_records waiting (what_value what.now))) }
    ensures written { OnOk result (P.written records.new ≡ P.written records.old) }
    ensures quiet { OnOk result (IsQuiet (P.failures records.old) (P.failures records.new)
        (P.empty_writes records.old) (P.empty_writes records.new)) }
    ensures kept { OnErr result (output.new ≡ output.old) }
    ensures stopped { IfErr result (λ fault. StopsGiven fault (P.Waits records.old) (P.Waits records.new)
        (what_value what.now) (P.written records.old) (P.written records.new)
        (P.failures records.old) (P.failures records.new)
        (P.empty_writes records.old) (P.empty_writes records.new)) }
{
    match what {
        What::Nothing => Ok(()),
        What::Hello => Ok(()),
        What::Refused(want) => match output.put_refused(*want) {
            Ok(()) => {
                records.refuse(*want);
                Ok(())
            }
            Err(_) => Err(SinkFault::OutOfMemory),
        },
        What::Packet(packet) => put_packet(output, packet, records),
        What::End => Ok(()),
    }
}

/// Reads a piece, and tells what it gives. Answers whether the transfer is over, or why nothing more is read. It fails
/// if not all records could be written.
fn take_piece<P: RecordSink>(
    core: &mut ReaderCore,
    output: &mut Output,
    piece: &[u8],
    records: &mut P,
) -> Result<Result<bool, ReaderFault>, WriteFault>
    requires plan { core.old.stage ≢ Failed Limit }
    requires output { output.old.records ≡ [] }
    requires waits { P.Waits records.old [] }
    ensures taken { IfOk result (λ taken. IfOk taken (λ is_over.
        TakesPiece core.old core.new output.old output.new piece.now is_over (P.Waits records.new))) }
    ensures failed { IfOk result (λ taken. IfErr taken (λ fault.
        FailsPiece core.old core.new output.old output.new piece.now fault (P.Waits records.new))) }
    ensures written { OnOk result (P.written records.new ≡ P.written records.old) }
    ensures quiet { OnOk result (IsQuiet (P.failures records.old) (P.failures records.new)
        (P.empty_writes records.old) (P.empty_writes records.new)) }
    ensures stopped { OnErr result (StopsPiece core.old output.old piece.now
        (P.written records.old) (P.written records.new) (P.failures records.old) (P.failures records.new)
        (P.empty_writes records.old) (P.empty_writes records.new)) }
{
    let mut left = piece;
    let mut packet = [0u8; PACKET];
    'given: loop {
        let came = match core.incoming(left, &mut packet) {
            Ok(came) => came,
            Err(fault) => return Ok(Err(fault)),
        };
        match &came.what {
            What::Nothing => return Ok(Ok(false)),
            What::End => return Ok(Ok(true)),
            what => match put(output, what, records) {
                Ok(()) => {}
                Err(SinkFault::OutOfMemory) => return Ok(Err(ReaderFault::OutOfMemory)),
                Err(SinkFault::Write) => return Err(WriteFault),
            },
        }
        left = &left[came.used..];
    }
}

/// One read. Answers how many bytes it gave; None where it failed, or gave none.
fn read_block<R: Source>(reader: &mut R, block: &mut [u8]) -> Option<usize>
    requires { 0 < length block.old }
    ensures bound { IfSome result (λ count. count ≤ length block.new) }
    ensures consumed { IfSome result
        (λ count. Consumes (R.left reader.old) (R.left reader.new) (take count block.new)) }
    ensures kept { IfNone result (Keeps (R.left reader.old) (R.left reader.new)) }
    ensures call { IsMore (R.calls reader.old) (R.calls reader.new) 1 }
    ensures ended { MatchOption result
        (EndsReading (R.failures reader.old) (R.failures reader.new) (R.left reader.new))
        (λ _. R.failures reader.new ≡ R.failures reader.old) }
{
    match reader.read(block) {
        Ok(0) => None,
        Ok(count) => Some(count),
        Err(_) => None,
    }
}

/// Sends what is asked, and reads once. Answers how many bytes that gave. It fails with Write if not all could be sent,
/// and with Read if the read failed or gave none.
fn exchange<R: Source, W: Sink>(
    core: &mut ReaderCore,
    block: &mut [u8],
    reader: &mut R,
    writer: &mut W,
) -> Result<usize, ListingFault>
    requires { 0 < length block.old }
    ensures bound { IfOk result (λ count. count ≤ length block.new) }
    ensures sent { OnOk result (Sends core.old core.new (W.written writer.old) (W.written writer.new)) }
    ensures consumed { IfOk result
        (λ count. Consumes (R.left reader.old) (R.left reader.new) (take count block.new)) }
    ensures call { OnOk result (IsMore (R.calls reader.old) (R.calls reader.new) 1) }
    ensures read { OnOk result (R.failures reader.new ≡ R.failures reader.old) }
    ensures quiet { OnOk result (IsQuiet (W.failures writer.old) (W.failures writer.new)
        (W.empty_writes writer.old) (W.empty_writes writer.new)) }
    ensures stopped { IfErr result (λ fault. StopsExchange fault core.old core.new
        (R.left reader.old) (R.left reader.new) (W.written writer.old) (W.written writer.new)
        (R.failures reader.old) (R.failures reader.new)
        (writes (W.failures writer.old) (W.empty_writes writer.old))
        (writes (W.failures writer.new) (W.empty_writes writer.new))) }
{
    match send(core, writer) {
        Ok(()) => {}
        Err(_) => return Err(ListingFault::Write),
    }
    match read_block(reader, block) {
        Some(count) => Ok(count),
        None => Err(ListingFault::Read),
    }
}

/// Takes a piece, and writes what it gives. Answers whether the transfer is over.
fn take_block<O: Sink, P: RecordSink>(
    core: &mut ReaderCore,
    output: &mut Output,
    piece: &[u8],
    out: &mut O,
    records: &mut P,
) -> Result<bool, ListingFault>
    requires plan { core.old.stage ≢ Failed Limit }
    requires output { output.old.records ≡ [] }
    ensures taken { IfOk result (λ is_over. TakesBlock core.old core.new output.old output.new piece.now is_over
        (O.written out.old) (O.written out.new) (P.written records.old) (P.written records.new)) }
    ensures quiet { OnOk result (AreBothQuiet
        (writes (O.failures out.old) (O.empty_writes out.old)) (writes (O.failures out.new) (O.empty_writes out.new))
        (writes (P.failures records.old) (P.empty_writes records.old))
        (writes (P.failures records.new) (P.empty_writes records.new))) }
    ensures stopped { IfErr result (λ fault. StopsTaking fault core.old core.new output.old output.new piece.now
        (O.written out.old) (O.written out.new) (P.written records.old) (P.written records.new)
        (AreBothQuiet
        (writes (O.failures out.old) (O.empty_writes out.old)) (writes (O.failures out.new) (O.empty_writes out.new))
        (writes (P.failures records.old) (P.empty_writes records.old))
        (writes (P.failures records.new) (P.empty_writes records.new)))
        (OneStops
        (writes (O.failures out.old) (O.empty_writes out.old)) (writes (O.failures out.new) (O.empty_writes out.new))
        (writes (P.failures records.old) (P.empty_writes records.old))
        (writes (P.failures records.new) (P.empty_writes records.new)))) }
{
    records.begin();
    let taken = match take_piece(core, output, piece, records) {
        Ok(taken) => taken,
        Err(_) => return Err(ListingFault::Write),
    };
    match write_output(output, out, records) {
        Ok(()) => {}
        Err(_) => return Err(ListingFault::Write),
    }
    match taken {
        Ok(is_over) => Ok(is_over),
        Err(fault) => Err(ListingFault::Reader(fault)),
    }
}

/// Sends what is asked, reads once, and writes what that gives, whatever was listed before. Answers whether the
/// transfer is over: then what was asked last is sent too, since an answer may come before its command was sent.
pub(crate) fn read_once<R: Source, W: Sink, O: Sink, P: RecordSink>(
    core: &mut ReaderCore,
    output: &mut Output,
    block: &mut [u8],
    reader: &mut R,
    writer: &mut W,
    out: &mut O,
    records: &mut P,
) -> Result<bool, ListingFault>
    requires block { 0 < length block.old }
    requires plan { core.old.stage ≢ Failed Limit }
    requires output { output.old.records ≡ [] }
    ensures round { Rounds result
        (moment core.old output.old (R.left reader.old) (W.written writer.old)
        (O.written out.old) (P.written records.old))
        (moment core.new output.new (R.left reader.new) (W.written writer.new)
        (O.written out.new) (P.written records.new)) }
    ensures order { StaysInOrder
        (moment core.old output.old (R.left reader.old) (W.written writer.old)
        (O.written out.old) (P.written records.old))
        (moment core.new output.new (R.left reader.new) (W.written writer.new)
        (O.written out.new) (P.written records.new)) }
    ensures plan { IfErr result (λ fault. fault ≢ Reader Limit) }
    ensures state { IfErr result (λ fault. fault ≢ State) }
    ensures call { OnOk result (IsMore (R.calls reader.old) (R.calls reader.new) 1) }
    ensures read { OnOk result (R.failures reader.new ≡ R.failures reader.old) }
    ensures sent { OnOk result (IsQuiet (W.failures writer.old) (W.failures writer.new)
        (W.empty_writes writer.old) (W.empty_writes writer.new)) }
    ensures quiet { OnOk result (AreBothQuiet
        (writes (O.failures out.old) (O.empty_writes out.old)) (writes (O.failures out.new) (O.empty_writes out.new))
        (writes (P.failures records.old) (P.empty_writes records.old))
        (writes (P.failures records.new) (P.empty_writes records.new))) }
    ensures stopped { IfErr result (λ fault. StopsOver fault
        (EndsReading (R.failures reader.old) (R.failures reader.new) (R.left reader.new))
        (R.failures reader.new ≡ R.failures reader.old)
        (writes (W.failures writer.old) (W.empty_writes writer.old))
        (writes (W.failures writer.new) (W.empty_writes writer.new))
        (writes (O.failures out.old) (O.empty_writes out.old)) (writes (O.failures out.new) (O.empty_writes out.new))
        (writes (P.failures records.old) (P.empty_writes records.old))
        (writes (P.failures records.new) (P.empty_writes records.new))) }
{
    let count = exchange(core, block, reader, writer)?;
    let is_over = take_block(core, output, &block[..count], out, records)?;
    if is_over {
        match send(core, writer) {
            Ok(()) => Ok(true),
            Err(_) => Err(ListingFault::Write),
        }
    } else {
        Ok(false)
    }
}
