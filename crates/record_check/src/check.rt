//! The check of files of records: a line a record, and the first fault of each file.
ghost use Rattle.std.specs.Prelude.{◌≡◌, ◌≤◌, ◌<◌, ◌+◌, ◌^◌, ◌++◌, [], List, ℕ, length, take, IfOk, OnOk, IfErr};
ghost use Rattle.std.specs.Prelude.{OnErr};
ghost use Rattle.std.specs.Prelude.{IfSome, MatchResult, option_map};
ghost use Rattle.std.specs.Io.KnownBytes.{Appends, Consumes, IsAtEnd};
ghost use Rattle.sl_io.specs.Counts.{IsMore, StopsReading, StopsWriting};
ghost use Rattle.sl_io.specs.Known.{AppendsBeginning, ConsumesSome};
ghost use Rattle.record_check.specs.Findings.{FindsFirst, finding_after, finding_of};
ghost use Rattle.record_check.specs.Listing.{file_text, listed_after, partial_line, rules, verdict_by, WritesListing};
ghost use Rattle.record_check.specs.Listing.{verdict_of, BeginsListing};
ghost use Rattle.record_check.specs.Checks.{begun_file, listed_of, piece_read, with_records, StopsChecking};
ghost use Rattle.record_check.specs.Listing.{streams_text};

use crate::finding::Finding;
use crate::listing::Listing;
use crate::options::ListingOptions;
use crate::stations::Stations;
use feeder::{FeedCutter, Feeding};
use sl_io::{ReadFault, Sink, Source, StreamFault, WriteFault, write_all};
use std::alloc::{AllocError, Global};
use std::marker::Model;

/// How many bytes are read at most by one call.
const BLOCK: usize = 65_536;

/// Lists the records that become whole in a piece.
fn list_piece<S: Stations>(
    options: ListingOptions,
    stations: &S,
    cutter: &mut FeedCutter,
    listing: &mut Listing,
    piece: &[u8],
) -> Result<(), AllocError>
    requires { listing.old.good + length piece.now < 2 ^ 100 }
    ensures listed { OnOk result (listing.new ≡ with_records (rules options (S.has_station stations.now))
        listing.old (piece_read cutter.old piece.now).records) }
    ensures rest { OnOk result (cutter.new ≡ (piece_read cutter.old piece.now).rest) }
    ensures good { OnOk result (listing.new.good ≤ listing.old.good + length piece.now) }
{
    let mut left = piece;
    'records: while !left.is_empty() {
        let Feeding { used, whole } = cutter.feed(left);
        match whole {
            Some(record) => listing.list(options, stations, record)?,
            None => {}
        }
        left = &left[used..];
    }
    Ok(())
}

/// One read, whose records are listed. Answers how many bytes it gave, 0 at the end.
fn list_block<S: Stations, R: Source>(
    options: ListingOptions,
    stations: &S,
    reader: &mut R,
    block: &mut [u8],
    cutter: &mut FeedCutter,
    listing: &mut Listing,
) -> Result<usize, ReadFault>
    requires room { 0 < length block.old }
    requires good { listing.old.good + length block.old < 2 ^ 100 }
    ensures consumed { IfOk result (λ n. Consumes (R.left reader.old) (R.left reader.new) (take n block.new)) }
    ensures end { IfOk result (λ n. n ≡ 0 → IsAtEnd (R.left reader.new)) }
    ensures listed { IfOk result (λ n. listing.new
        ≡ with_records (rules options (S.has_station stations.now)) listing.old
        (piece_read cutter.old (take n block.new)).records) }
    ensures rest { IfOk result (λ n. cutter.new ≡ (piece_read cutter.old (take n block.new)).rest) }
    ensures good { OnOk result (listing.new.good ≤ listing.old.good + length block.new) }
    ensures lost { OnErr result (ConsumesSome (R.left reader.old) (R.left reader.new)) }
    ensures call { IsMore (R.calls reader.old) (R.calls reader.new) 1 }
    ensures failures { MatchResult result (λ _. R.failures reader.new ≡ R.failures reader.old)
        (λ fault. StopsReading fault (R.failures reader.old) (R.failures reader.new) (R.calls reader.old)
        (R.calls reader.new)) }
{
    match reader.read(block) {
        Ok(count) => match list_piece(options, stations, cutter, listing, &block[..count]) {
            Ok(()) => Ok(count),
            Err(_) => Err(ReadFault::OutOfMemory),
        },
        Err(_) => Err(ReadFault::Read),
    }
}

/// Writes the lines that are not written yet.
fn write_lines<W: Sink>(writer: &mut W, listing: &mut Listing) -> Result<(), WriteFault>
    ensures ok { OnOk result (Appends (W.written writer.old) (W.written writer.new) listing.old.lines) }
    ensures cleared { OnOk result (listing.new ≡ record listing.old { lines = [] }) }
    ensures kept { OnErr result (listing.new ≡ listing.old) }
    ensures err { OnErr result (AppendsBeginning (W.written writer.old) (W.written writer.new) listing.old.lines) }
    ensures same { OnOk result ((W.failures writer.new ≡ W.failures writer.old)
        × (W.empty_writes writer.new ≡ W.empty_writes writer.old)) }
    ensures stopped { OnErr result
        (StopsWriting (W.failures writer.old) (W.failures writer.new) (W.empty_writes writer.old)
        (W.empty_writes writer.new)) }
{
    write_all(writer, listing.lines())?;
    listing.clear();
    Ok(())
}

/// Writes the lines that are not written yet, where they are many.
fn write_many<W: Sink>(writer: &mut W, listing: &mut Listing) -> Result<(), WriteFault>
    ensures ok { OnOk result ((lines : List ℕ) × Appends (W.written writer.old) (W.written writer.new) lines
        × (listing.old.lines ≡ lines ++ listing.new.lines)) }
    ensures kept { OnOk result (listing.new ≡ record listing.old { lines = listing.new.lines }) }
    ensures few { OnOk result (length listing.new.lines < 32768) }
    ensures err { OnErr result (AppendsBeginning (W.written writer.old) (W.written writer.new) listing.old.lines) }
    ensures same { OnOk result ((W.failures writer.new ≡ W.failures writer.old)
        × (W.empty_writes writer.new ≡ W.empty_writes writer.old)) }
    ensures stopped { OnErr result
        (StopsWriting (W.failures writer.old) (W.failures writer.new) (W.empty_writes writer.old)
        (W.empty_writes writer.new)) }
{
    if listing.is_long() {
        write_lines(writer, listing)
    } else {
        Ok(())
    }
}

/// Lists what is left over of a file, and writes the last lines. Answers what is wrong with the file.
fn finish<W: Sink>(
    options: ListingOptions,
    writer: &mut W,
    rest: usize,
    listing: &mut Listing,
) -> Result<Option<Finding>, StreamFault>
    ensures answer { IfOk result (λ answer. answer
        ≡ option_map (finding_after listing.old.good) (verdict_by listing.old.fault rest)) }
    ensures ok { OnOk result
        (Appends (W.written writer.old) (W.written writer.new)
        (listing.old.lines ++ partial_line options rest)) }
    ensures listed { OnOk result (listed_of listing.new ≡ listed_of listing.old) }
    ensures err { OnErr result
        (AppendsBeginning (W.written writer.old) (W.written writer.new)
        (listing.old.lines ++ partial_line options rest)) }
    ensures same { OnOk result ((W.failures writer.new ≡ W.failures writer.old)
        × (W.empty_writes writer.new ≡ W.empty_writes writer.old)) }
    ensures stopped { IfErr result (λ fault. (failures failures' calls calls' : ℕ) → failures' ≡ failures
        → StopsChecking fault failures failures' calls calls' (W.failures writer.old) (W.failures writer.new)
        (W.empty_writes writer.old) (W.empty_writes writer.new)) }
{
    listing.list_rest(options, rest)?;
    write_lines(writer, listing)?;
    Ok(listing.verdict(rest))
}

/// Lists the gaps, overlaps and streams, whose runs are in order, as far as they are asked for. No line waits.
fn list_in_order<W: Sink>(
    options: ListingOptions,
    writer: &mut W,
    listing: &mut Listing,
) -> Result<(), StreamFault>
    requires { listing.old.lines ≡ [] }
    ensures listed { listed_of listing.new ≡ listed_of listing.old }
    ensures written { OnOk result (Appends (W.written writer.old) (W.written writer.new)
        (streams_text options listing.old.streams)) }
    ensures begun { OnErr result (AppendsBeginning (W.written writer.old) (W.written writer.new)
        (streams_text options listing.old.streams)) }
    ensures same { OnOk result ((W.failures writer.new ≡ W.failures writer.old)
        × (W.empty_writes writer.new ≡ W.empty_writes writer.old)) }
    ensures stopped { IfErr result (λ fault. (failures failures' calls calls' : ℕ) → failures' ≡ failures
        → StopsChecking fault failures failures' calls calls' (W.failures writer.old) (W.failures writer.new)
        (W.empty_writes writer.old) (W.empty_writes writer.new)) }
{
    listing.list_streams(options)?;
    write_lines(writer, listing)?;
    Ok(())
}

/// Checks what is left of the reader, a block at a time.
fn check_blocks<S: Stations, R: Source, W: Sink>(
    options: ListingOptions,
    stations: &S,
    reader: &mut R,
    writer: &mut W,
    block: &mut [u8],
    listing: &mut Listing,
) -> Result<Option<Finding>, StreamFault>
    requires room { length block.old ≡ 65536 }
    requires begun { listing.old ≡ begun_file (listed_of listing.old) }
    ensures finding { IfOk result (λ answer. IfSome (R.left reader.old) (λ bytes.
        answer ≡ finding_of (rules options (S.has_station stations.now)) bytes)) }
    ensures written { OnOk result (IfSome (R.left reader.old)
        (λ bytes. Appends (W.written writer.old) (W.written writer.new)
        (file_text (rules options (S.has_station stations.now)) (listed_of listing.old) bytes))) }
    ensures listed { OnOk result (IfSome (R.left reader.old) (λ bytes. listed_of listing.new
        ≡ listed_after (rules options (S.has_station stations.now)) (listed_of listing.old) bytes)) }
    ensures end { OnOk result (IsAtEnd (R.left reader.new)) }
    ensures begun { OnErr result (IfSome (R.left reader.old)
        (λ bytes. AppendsBeginning (W.written writer.old) (W.written writer.new)
        (file_text (rules options (S.has_station stations.now)) (listed_of listing.old) bytes))) }
    ensures same { OnOk result ((R.failures reader.new ≡ R.failures reader.old)
        × (W.failures writer.new ≡ W.failures writer.old) × (W.empty_writes writer.new ≡ W.empty_writes writer.old)) }
    ensures stopped { IfErr result (λ fault. StopsChecking fault
        (R.failures reader.old) (R.failures reader.new) (R.calls reader.old) (R.calls reader.new)
        (W.failures writer.old) (W.failures writer.new) (W.empty_writes writer.old) (W.empty_writes writer.new)) }
{
    let mut cutter = FeedCutter::new();
    'reads: for _ in 0..u64::MAX {
        if list_block(options, stations, reader, block, &mut cutter, listing)? == 0 {
            return finish(options, writer, cutter.rest(), listing);
        }
        write_many(writer, listing)?;
    }
    Err(StreamFault::Read)
}

/// A check of files of records, one after the other, as one list: their records are numbered on from file to file, and
/// a stream goes on from one file to the next. In a contract it is how many records are listed, and the streams so far.
#[derive(Drop)]
pub struct RecordCheck {
    block: Vec<u8>,
    listing: Listing,
}

impl Model for RecordCheck {
    ghost use Rattle.std.specs.Prelude.{◌≡◌, length};
    ghost use Rattle.record_check.specs.Checks.{listed_of};
    ghost use Rattle.record_check.specs.Listing.{Listed};

    ghost Value = { Listed };

    ghost view = { λ c. listed_of c.listing };

    ghost invariant = { λ c. length c.block.items ≡ 65536 };
}

impl RecordCheck {
    ghost use Rattle.std.specs.Prelude.{◌≡◌, Option, Some, option_map, IfOk, OnOk, IfErr, OnErr, IfSome};
    ghost use Rattle.std.specs.Io.KnownBytes.{Appends, IsAtEnd};
    ghost use Rattle.sl_io.specs.Known.{AppendsBeginning};
    ghost use Rattle.record_check.specs.Checks.{StopsChecking};
    ghost use Rattle.record_check.specs.Findings.{FindsFirst};
    ghost use Rattle.record_check.specs.Listing.{file_text, listed_after, nothing_listed, rules, streams_text};
    ghost use Rattle.record_check.specs.Listing.{verdict_of};
    ghost use Rattle.record_check.specs.Streams.{AreInOrder};

    /// Nothing is listed. It fails only if memory can't be allocated.
    pub fn new(alloc: Global) -> Result<RecordCheck, AllocError>
        ensures { IfOk result (λ check. check ≡ nothing_listed) }
    {
        Ok(RecordCheck {
            block: vec![in alloc; 0; BLOCK]?,
            listing: Listing::new(alloc)?,
        })
    }

    /// Lists each record of 512 bytes that is left of the reader in a line, and the bytes that are left over in one
    /// more, and answers what is wrong with this file: that a record is refused, with the fault of the first (SEED
    /// Reference Manual 2.4, chapter 8), else that bytes are left over, and nothing if all is well. A record that is
    /// read is refused if its station is not one of those that are expected. A record that is refused is a line of the
    /// listing, and the check goes on. The answer names the first record at which something is wrong by its number in
    /// this file: all records before it are read.
    ///
    /// A line is `K NET STA LOC CHA TYPE START END SAMPLES`, with the record's number in the list from 1 on, each space
    /// of the location or channel as `-`, and each other byte of a code that is not 33 to 126 as `?`; or `K refused N
    /// Name`, with ` NET STA` after it if the station is not one of those that are expected. After the records comes
    /// `partial R bytes`.
    ///
    /// The reader is read in blocks of 64 KiB, and never kept as a whole: what is kept grows by streams, if they or
    /// their gaps are asked for, and by runs of their records. After a fault a beginning of the file's lines is
    /// written.
    pub fn list_file<S: Stations, R: Source, W: Sink>(
        &mut self,
        options: ListingOptions,
        stations: &S,
        reader: &mut R,
        writer: &mut W,
    ) -> Result<Option<Finding>, StreamFault>
        ensures finding { IfOk result (λ answer. IfSome (R.left reader.old) (λ bytes.
            answer ≡ finding_of (rules options (S.has_station stations.now)) bytes)) }
        ensures verdict { IfOk result (λ answer. IfSome (R.left reader.old)
            (λ bytes. option_map (λ f. f.fault) answer
            ≡ verdict_of (rules options (S.has_station stations.now)) bytes)) }
        ensures first { IfOk result (λ answer. IfSome (R.left reader.old) (λ bytes.
            FindsFirst (rules options (S.has_station stations.now)) bytes answer)) }
        ensures written { OnOk result (IfSome (R.left reader.old)
            (λ bytes. Appends (W.written writer.old) (W.written writer.new)
            (file_text (rules options (S.has_station stations.now)) self.old bytes))) }
        ensures listed { OnOk result (IfSome (R.left reader.old) (λ bytes.
            self.new ≡ listed_after (rules options (S.has_station stations.now)) self.old bytes)) }
        ensures end { OnOk result (IsAtEnd (R.left reader.new)) }
        ensures begun { OnErr result (IfSome (R.left reader.old)
            (λ bytes. AppendsBeginning (W.written writer.old) (W.written writer.new)
            (file_text (rules options (S.has_station stations.now)) self.old bytes))) }
        ensures same { OnOk result ((R.failures reader.new ≡ R.failures reader.old)
            × (W.failures writer.new ≡ W.failures writer.old)
            × (W.empty_writes writer.new ≡ W.empty_writes writer.old)) }
        ensures stopped { IfErr result (λ fault. StopsChecking fault
            (R.failures reader.old) (R.failures reader.new) (R.calls reader.old) (R.calls reader.new)
            (W.failures writer.old) (W.failures writer.new) (W.empty_writes writer.old) (W.empty_writes writer.new)) }
    {
        self.listing.begin_file();
        check_blocks(
            options,
            stations,
            reader,
            writer,
            &mut self.block,
            &mut self.listing,
        )
    }

    /// Lists the gaps and overlaps of all files, and then the streams, as far as they are asked for.
    ///
    /// Gaps and overlaps are those of the records of a stream in the order of their times, in whatever files and order
    /// they stood, stream by stream in the order of their first records. Records that stood one after the other, each
    /// where the one before it ends within half a sample, are a run; runs are looked at in the order of their starts.
    /// A run that starts more than half a sample after all records before it end makes a line `gap NET STA LOC CHA TYPE
    /// FROM TO LENGTH`; one that starts more than half a sample before one of them ends makes `overlap ..` with the
    /// time that is there twice, or `twice ..` if that is all of the run. Between records that are none of data there
    /// are none of these, since they have no rate or no samples.
    ///
    /// Of a stream the line is `NET STA LOC CHA TYPE RECORDS FIRST LAST GAPS OVERLAPS`, with the earliest start and the
    /// latest end of its records, and how many lines of gaps, and of overlaps and what is there twice, it has.
    pub fn list_streams<W: Sink>(
        &mut self,
        options: ListingOptions,
        writer: &mut W,
    ) -> Result<(), StreamFault>
        ensures order { AreInOrder self.old.streams self.new.streams }
        ensures count { self.new.count ≡ self.old.count }
        ensures written { OnOk result (Appends (W.written writer.old) (W.written writer.new)
            (streams_text options self.new.streams)) }
        ensures begun { OnErr result (AppendsBeginning (W.written writer.old) (W.written writer.new)
            (streams_text options self.new.streams)) }
        ensures same { OnOk result ((W.failures writer.new ≡ W.failures writer.old)
            × (W.empty_writes writer.new ≡ W.empty_writes writer.old)) }
        ensures stopped { IfErr result (λ fault. (failures failures' calls calls' : ℕ) → failures' ≡ failures
            → StopsChecking fault failures failures' calls calls' (W.failures writer.old) (W.failures writer.new)
            (W.empty_writes writer.old) (W.empty_writes writer.new)) }
    {
        self.listing.begin_file();
        self.listing.put_in_order();
        list_in_order(options, writer, &mut self.listing)
    }
}

/// Lists one file, as `RecordCheck::list_file` does, and then its streams.
pub fn check_records<S: Stations, R: Source, W: Sink>(
    alloc: Global,
    options: ListingOptions,
    stations: &S,
    reader: &mut R,
    writer: &mut W,
) -> Result<Option<Finding>, StreamFault>
    ensures verdict { IfOk result (λ answer. IfSome (R.left reader.old)
        (λ bytes. option_map (λ f. f.fault) answer ≡ verdict_of (rules options (S.has_station stations.now)) bytes)) }
    ensures first { IfOk result (λ answer. IfSome (R.left reader.old) (λ bytes.
        FindsFirst (rules options (S.has_station stations.now)) bytes answer)) }
    ensures written { OnOk result (IfSome (R.left reader.old)
        (λ bytes. WritesListing (rules options (S.has_station stations.now)) bytes
        (W.written writer.old) (W.written writer.new))) }
    ensures end { OnOk result (IsAtEnd (R.left reader.new)) }
    ensures begun { OnErr result (IfSome (R.left reader.old)
        (λ bytes. BeginsListing (rules options (S.has_station stations.now)) bytes
        (W.written writer.old) (W.written writer.new))) }
    ensures same { OnOk result ((R.failures reader.new ≡ R.failures reader.old)
        × (W.failures writer.new ≡ W.failures writer.old) × (W.empty_writes writer.new ≡ W.empty_writes writer.old)) }
    ensures stopped { IfErr result (λ fault. StopsChecking fault
        (R.failures reader.old) (R.failures reader.new) (R.calls reader.old) (R.calls reader.new)
        (W.failures writer.old) (W.failures writer.new) (W.empty_writes writer.old) (W.empty_writes writer.new)) }
{
    let mut check = RecordCheck::new(alloc)?;
    let finding = check.list_file(options, stations, reader, writer)?;
    check.list_streams(options, writer)?;
    Ok(finding)
}
