//! A reader over a connection.
//!
//! `read_over` has an output for lines and one for records, beside the plan, the connection's reader and its writer. So
//! a listing and a file of records come from one reading; a writer that keeps nothing (`Nowhere`) stands for an output
//! that nobody wants.
ghost use Rattle.std.specs.Prelude.{◌≡◌, ◌≢◌, ◌⊎◌, ◌≤◌, ◌∷◌, [], false, length, true};
ghost use Rattle.std.specs.Prelude.{vec_len, Err, IfErr, IfOk, OnErr, OnOk, ℕ};
ghost use Rattle.std.specs.Prelude.{if◌then◌else◌};
ghost use Rattle.slreader.specs.declared.fault.ReaderFault.TheVariants.{Limit, OutOfMemory};
ghost use Rattle.slreader.specs.Dialogue.{begun};
ghost use Rattle.slreader.specs.Dialogue.Stage.{Failed};
ghost use Rattle.slreader.specs.Views.{plan_value};
ghost use Rattle.slreader.specs.Wants.{is_plan};
ghost use Rattle.reader_run.specs.declared.fault.ListingFault.TheVariants.{Reader, State};
ghost use Rattle.reader_run.specs.Lines.{nothing_told, style_of};
ghost use Rattle.slreader.specs.GoingOn.{begun_at, plan_on};
ghost use Rattle.reader_run.specs.Whole.{IsNotBegunBy};
ghost use Rattle.reader_run.specs.Whole.{Ends, EndsCounted, RecordsFirst, StopsAt, StopsCounted, is_told_before};
ghost use Rattle.reader_run.specs.Keeping.{CountsKeeping, EndsKept, KeepsCounted, Steps, Tells};
ghost use Rattle.reader_run.specs.Keeping.Deed.{Flushed, Kept};
ghost use Rattle.reader_run.specs.Stops.{EndsReads, StopsOver, writes};

use crate::fault::ListingFault;
use crate::keeping::{Keeper, NothingKept, keep_behind, keep_if_due};
use crate::output::Output;
use crate::packet_lines::PacketLines;
use crate::pieces::read_once;
use crate::record_sink::RecordSink;
use sl_io::{Sink, Source};
use slreader::{Plan, ReaderCore, ReaderFault, Tally, Want};
use std::alloc::Global;

/// How many bytes are read at most by one call.
const BLOCK: usize = 65_536;

/// Sends, writes and reads until the transfer is over. Meanwhile what was counted is kept whenever that is due.
fn read_blocks<R: Source, W: Sink, O: Sink, P: RecordSink, K: Keeper<P>>(
    core: &mut ReaderCore,
    output: &mut Output,
    block: &mut [u8],
    reader: &mut R,
    writer: &mut W,
    out: &mut O,
    records: &mut P,
    keeper: &mut K,
) -> Result<(), ListingFault>
    requires block { length block.old ≡ 65536 }
    requires plan { core.old.stage ≢ Failed Limit }
    requires sent { core.old.sent ≤ length core.old.asked }
    requires output { (output.old.lines ≡ []) × (output.old.records ≡ []) }
    ensures ends { OnOk result (EndsCounted core.old core.new.tally output.old.style
        (R.left reader.old) (R.left reader.new) (W.written writer.old) (W.written writer.new)
        (O.written out.old) (O.written out.new) (P.written records.old) (P.written records.new)) }
    ensures told { IfErr result (λ fault. is_told_before fault ≡ true
        → StopsCounted fault core.old core.new.tally output.old.style
        (R.left reader.old) (R.left reader.new) (W.written writer.old) (W.written writer.new)
        (O.written out.old) (O.written out.new) (P.written records.old) (P.written records.new)) }
    ensures order { RecordsFirst core.old output.old.style (R.left reader.old) (R.left reader.new)
        (O.written out.old) (O.written out.new) (P.written records.old) (P.written records.new) }
    ensures plan { IfErr result (λ fault. fault ≢ Reader Limit) }
    ensures behind { KeepsCounted core.old (P.written records.old) (K.done keeper.old) (K.done keeper.new) }
    ensures keeper { CountsKeeping result (K.failures keeper.old) (K.failures keeper.new) }
    ensures stopped { IfErr result (λ fault. StopsOver fault
        (EndsReads (R.failures reader.old) (R.failures reader.new)
        (R.calls reader.old) (R.calls reader.new) (R.left reader.new))
        (R.failures reader.new ≡ R.failures reader.old)
        (writes (W.failures writer.old) (W.empty_writes writer.old))
        (writes (W.failures writer.new) (W.empty_writes writer.new))
        (writes (O.failures out.old) (O.empty_writes out.old)) (writes (O.failures out.new) (O.empty_writes out.new))
        (writes (P.failures records.old) (P.empty_writes records.old))
        (writes (P.failures records.new) (P.empty_writes records.new))) }
{
    let mut kept = core.records();
    'reads: for _ in 0..u64::MAX {
        if read_once(core, output, block, reader, writer, out, records)? {
            return Ok(());
        }
        match keep_if_due(core, records, keeper, &mut kept) {
            Ok(()) => {}
            Err(_) => return Err(ListingFault::State),
        }
    }
    Err(ListingFault::Read)
}

/// What a reading begins with: a reader, its output, and a block to read into.
#[derive(Drop)]
struct Begun {
    core: ReaderCore,
    output: Output,
    block: Vec<u8>,
}

/// An output in which nothing is told, and a block to read into.
fn output_for(
    alloc: Global,
    lines: PacketLines,
    plan: &Plan<'_>,
) -> Result<(Output, Vec<u8>), ListingFault>
    ensures output { IfOk result (λ made. made.0 ≡ nothing_told lines (plan_value plan.now)) }
    ensures block { IfOk result (λ made. vec_len made.1 ≡ 65536) }
    ensures memory { IfErr result (λ fault. fault ≡ Reader OutOfMemory) }
{
    let Ok(output) = Output::new(alloc, lines, plan) else {
        return Err(ListingFault::Reader(ReaderFault::OutOfMemory));
    };
    match vec![in alloc; 0; BLOCK] {
        Ok(block) => Ok((output, block)),
        Err(_) => Err(ListingFault::Reader(ReaderFault::OutOfMemory)),
    }
}

/// What a reading by a plan begins with.
fn begin(alloc: Global, lines: PacketLines, plan: Plan<'_>) -> Result<Begun, ListingFault>
    ensures core { IfOk result (λ b. b.core ≡ begun (plan_value plan.entry)) }
    ensures output { IfOk result (λ b. b.output ≡ nothing_told lines (plan_value plan.entry)) }
    ensures block { IfOk result (λ b. vec_len b.block ≡ 65536) }
    ensures plan { OnOk result (is_plan (plan_value plan.entry) ≡ true) }
    ensures fault { IfErr result (λ fault. IsNotBegunBy fault (plan_value plan.entry)) }
{
    let (output, block) = output_for(alloc, lines, &plan)?;
    match ReaderCore::new(alloc, plan) {
        Ok(core) => Ok(Begun {
            core,
            output,
            block,
        }),
        Err(fault) => Err(ListingFault::Reader(fault)),
    }
}

/// Asks a server for what a plan wants, and lists what it sends (SeedLink 3), a line a packet: `SEQ NET STA LOC CHA
/// TYPE START END SAMPLES`, with the six digits of its number in upper case and the rest as in the listing of a file of
/// records with times that are written so, or `SEQ unreadable` where its record can't be read; and `refused NET STA`
/// for a want that the server refuses. The record of each packet, 512 bytes, is written to `records` as it came. It
/// ends with the end of the transfer.
///
/// All that is asked is sent before each read, and all that is told is written before each read, so that nothing is
/// held back while it waits. A read takes up to 64 KiB. After a fault all that was told before it is written, where
/// the writers take it.
///
/// Records are written before their lines: at the end and at every fault each packet that has a line, or a part of
/// one, has its whole record written. A fault of writing records leaves no line of theirs.
///
/// If the plan can't be asked for, it fails with Limit, and nothing was read or written.
///
/// It fails with the reader's faults; with Read where a read failed, where the input ends before the end of the
/// transfer, or where 2^64 - 1 reads were made; and with Write where something could not be written.
pub fn read_over<R: Source, W: Sink, O: Sink, P: RecordSink>(
    alloc: Global,
    lines: PacketLines,
    plan: Plan<'_>,
    reader: &mut R,
    writer: &mut W,
    out: &mut O,
    records: &mut P,
) -> Result<(), ListingFault>
    ensures ends { OnOk result (Ends (begun (plan_value plan.entry)) (style_of lines (plan_value plan.entry))
        (R.left reader.old) (R.left reader.new) (W.written writer.old) (W.written writer.new)
        (O.written out.old) (O.written out.new) (P.written records.old) (P.written records.new)) }
    ensures told { IfErr result (λ fault. is_told_before fault ≡ true →
        StopsAt fault (begun (plan_value plan.entry)) (style_of lines (plan_value plan.entry))
        (R.left reader.old) (R.left reader.new) (W.written writer.old) (W.written writer.new)
        (O.written out.old) (O.written out.new) (P.written records.old) (P.written records.new)) }
    ensures order { RecordsFirst (begun (plan_value plan.entry)) (style_of lines (plan_value plan.entry))
        (R.left reader.old) (R.left reader.new)
        (O.written out.old) (O.written out.new) (P.written records.old) (P.written records.new) }
    ensures limit { IfErr result (λ fault. fault ≡ Reader Limit → is_plan (plan_value plan.entry) ≡ false) }
    ensures plan { OnOk result (is_plan (plan_value plan.entry) ≡ true) }
    ensures untouched { IfErr result (λ fault. fault ≡ Reader Limit → (reader.new ≡ reader.old)
        × (writer.new ≡ writer.old) × (out.new ≡ out.old) × (records.new ≡ records.old)) }
    ensures stopped { IfErr result (λ fault. StopsOver fault
        (EndsReads (R.failures reader.old) (R.failures reader.new)
        (R.calls reader.old) (R.calls reader.new) (R.left reader.new))
        (R.failures reader.new ≡ R.failures reader.old)
        (writes (W.failures writer.old) (W.empty_writes writer.old))
        (writes (W.failures writer.new) (W.empty_writes writer.new))
        (writes (O.failures out.old) (O.empty_writes out.old)) (writes (O.failures out.new) (O.empty_writes out.new))
        (writes (P.failures records.old) (P.empty_writes records.old))
        (writes (P.failures records.new) (P.empty_writes records.new))) }
{
    let mut begun = begin(alloc, lines, plan)?;
    read_blocks(
        &mut begun.core,
        &mut begun.output,
        &mut begun.block,
        reader,
        writer,
        out,
        records,
        &mut NothingKept,
    )
}

/// Whether all of what was given is told at a fault: it is none of the plan, of memory, of a write or of what is kept.
pub(crate) fn is_told_at(fault: ListingFault) -> bool
    ensures { result ≡ is_told_before fault }
{
    match fault {
        ListingFault::Read => true,
        ListingFault::Write => false,
        ListingFault::State => false,
        ListingFault::Reader(ReaderFault::Limit) => false,
        ListingFault::Reader(ReaderFault::OutOfMemory) => false,
        ListingFault::Reader(_) => true,
    }
}

/// Whether all of what was given is told at an outcome: it is the end, or such a fault.
fn is_told(outcome: &Result<(), ListingFault>) -> bool
    ensures ok { OnOk outcome.now (result ≡ true) }
    ensures fault { IfErr outcome.now (λ fault. result ≡ is_told_before fault) }
{
    match outcome {
        Ok(()) => true,
        Err(fault) => is_told_at(*fault),
    }
}

/// What a reading begins with that goes on: a reader by the plan by which wants go on, which counts on.
fn begin_further(
    alloc: Global,
    lines: PacketLines,
    wants: &[Want<'_>],
    tally: &Tally,
) -> Result<Begun, ListingFault>
    ensures core { IfOk result (λ b. b.core ≡ begun_at (plan_on tally.now wants.now) tally.now) }
    ensures output { IfOk result (λ b. b.output ≡ nothing_told lines (plan_on tally.now wants.now)) }
    ensures block { IfOk result (λ b. vec_len b.block ≡ 65536) }
    ensures fault { IfErr result (λ fault. IsNotBegunBy fault (plan_on tally.now wants.now)) }
{
    let Ok(plan) = Plan::going_on(alloc, wants, tally) else {
        return Err(ListingFault::Reader(ReaderFault::OutOfMemory));
    };
    let Ok(counted) = tally.copy(alloc) else {
        return Err(ListingFault::Reader(ReaderFault::OutOfMemory));
    };
    let (output, block) = output_for(alloc, lines, &plan)?;
    match ReaderCore::going_on(alloc, plan, counted) {
        Ok(core) => Ok(Begun {
            core,
            output,
            block,
        }),
        Err(ReaderFault::Limit) => Err(ListingFault::Reader(ReaderFault::Limit)),
        Err(_) => Err(ListingFault::Reader(ReaderFault::OutOfMemory)),
    }
}

/// Keeps what was counted at an outcome at which all of what was given is told. If that fails, it is the outcome.
fn keep_at<P: RecordSink, K: Keeper<P>>(
    outcome: Result<(), ListingFault>,
    core: &ReaderCore,
    records: &P,
    keeper: &mut K,
) -> Result<(), ListingFault>
    ensures outcome { (result ≡ outcome) ⊎ (result ≡ Err State) }
    ensures ok { OnOk outcome (Steps core.now.tally (P.written records.now) (K.done keeper.old) (K.done keeper.new)) }
    ensures told { IfErr outcome (λ fault. is_told_before fault ≡ true
        → Steps core.now.tally (P.written records.now) (K.done keeper.old) (K.done keeper.new)) }
    ensures untold { IfErr outcome (λ fault. is_told_before fault ≡ false
        → K.done keeper.new ≡ K.done keeper.old) }
    ensures kept { OnOk result (Tells (K.done keeper.old) (K.done keeper.new)
        (Flushed (P.written records.now) ∷ Kept core.now.tally ∷ [])) }
    ensures kept_at { IfErr result (λ fault. is_told_before fault ≡ true → Tells (K.done keeper.old) (K.done keeper.new)
        (Flushed (P.written records.now) ∷ Kept core.now.tally ∷ [])) }
    ensures keeper { (failures : ℕ) → CountsKeeping outcome failures (K.failures keeper.old)
        → CountsKeeping result failures (K.failures keeper.new) }
{
    if !is_told(&outcome) {
        return outcome;
    }
    match keep_behind(core, records, keeper) {
        Ok(()) => outcome,
        Err(_) => Err(ListingFault::State),
    }
}

/// What a reader counted takes a tally's place, if all of what was given is told.
fn count(tally: &mut Tally, begun: Begun, is_told: bool)
    ensures { tally.new ≡ (if is_told then begun.core.tally else tally.old) }
{
    if is_told {
        let Begun {
            core,
            output: _,
            block: _,
        } = begun;
        *tally = core.into_tally();
    }
}

/// Asks a server for what wants want after the packets that were counted, and lists what it sends, as `read_over` does
/// with the plan by which they go on. At the end of the transfer, and at every fault of the dialogue or of reading, the
/// tally counts exactly the packets whose records were written, beside those that it had counted before; so the next
/// server may be asked to go on. At another fault it stays as it was.
///
/// What is counted is kept by the keeper whenever that is due, and at the end and at each fault at which the tally
/// counts. Each time the records are made to last first: so whatever comes next, a reader that begins with what was
/// kept last misses no record, and is sent those again that were written after that. It fails with State where the
/// keeper fails.
pub fn read_further<R: Source, W: Sink, O: Sink, P: RecordSink, K: Keeper<P>>(
    alloc: Global,
    lines: PacketLines,
    wants: &[Want<'_>],
    tally: &mut Tally,
    reader: &mut R,
    writer: &mut W,
    out: &mut O,
    records: &mut P,
    keeper: &mut K,
) -> Result<(), ListingFault>
    ensures ends { OnOk result (EndsCounted (begun_at (plan_on tally.old wants.now) tally.old) tally.new
        (style_of lines (plan_on tally.old wants.now))
        (R.left reader.old) (R.left reader.new) (W.written writer.old) (W.written writer.new)
        (O.written out.old) (O.written out.new) (P.written records.old) (P.written records.new)) }
    ensures told { IfErr result (λ fault. is_told_before fault ≡ true →
        StopsCounted fault (begun_at (plan_on tally.old wants.now) tally.old) tally.new
        (style_of lines (plan_on tally.old wants.now))
        (R.left reader.old) (R.left reader.new) (W.written writer.old) (W.written writer.new)
        (O.written out.old) (O.written out.new) (P.written records.old) (P.written records.new)) }
    ensures kept { IfErr result (λ fault. is_told_before fault ≡ false → tally.new ≡ tally.old) }
    ensures order { RecordsFirst (begun_at (plan_on tally.old wants.now) tally.old)
        (style_of lines (plan_on tally.old wants.now)) (R.left reader.old) (R.left reader.new)
        (O.written out.old) (O.written out.new) (P.written records.old) (P.written records.new) }
    ensures plan { IfErr result (λ fault. fault ≡ Reader Limit → is_plan (plan_on tally.old wants.now) ≡ false) }
    ensures behind { KeepsCounted (begun_at (plan_on tally.old wants.now) tally.old) (P.written records.old)
        (K.done keeper.old) (K.done keeper.new) }
    ensures last { OnOk result
        (EndsKept tally.new (P.written records.new) (K.done keeper.old) (K.done keeper.new)) }
    ensures last_at { IfErr result (λ fault. is_told_before fault ≡ true
        → EndsKept tally.new (P.written records.new) (K.done keeper.old) (K.done keeper.new)) }
    ensures keeper { CountsKeeping result (K.failures keeper.old) (K.failures keeper.new) }
    ensures stopped { IfErr result (λ fault. StopsOver fault
        (EndsReads (R.failures reader.old) (R.failures reader.new)
        (R.calls reader.old) (R.calls reader.new) (R.left reader.new))
        (R.failures reader.new ≡ R.failures reader.old)
        (writes (W.failures writer.old) (W.empty_writes writer.old))
        (writes (W.failures writer.new) (W.empty_writes writer.new))
        (writes (O.failures out.old) (O.empty_writes out.old)) (writes (O.failures out.new) (O.empty_writes out.new))
        (writes (P.failures records.old) (P.empty_writes records.old))
        (writes (P.failures records.new) (P.empty_writes records.new))) }
{
    let mut begun = begin_further(alloc, lines, wants, tally)?;
    let read = read_blocks(
        &mut begun.core,
        &mut begun.output,
        &mut begun.block,
        reader,
        writer,
        out,
        records,
        keeper,
    );
    let outcome = keep_at(read, &begun.core, records, keeper);
    count(tally, begun, is_told(&outcome));
    outcome
}
