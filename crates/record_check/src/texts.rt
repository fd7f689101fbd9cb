//! The texts of what a record says, put behind a text.
ghost use Rattle.std.specs.Prelude.{◌≡◌, ◌≤◌, ◌+◌, ◌∷◌, ◌++◌, [], OnOk, IfOk, length, map, decimal};
ghost use Rattle.std.specs.Prelude.{vec_capacity, vec_len};
ghost use Rattle.record_check.specs.Listing.{header_text, partial_line, partial_text};
ghost use Rattle.record_check.specs.Listing.{all_gap_lines, count_text, gap_lines, gaps_text, record_line};
ghost use Rattle.record_check.specs.Listing.{record_text, refusal_text, refused_text, seam_lines, seam_text};
ghost use Rattle.record_check.specs.Listing.{span_text, stranger_text, stream_line, stream_lines, summaries_text};
ghost use Rattle.record_check.specs.Listing.{summary_text};
ghost use Rattle.record_check.specs.Streams.{seams_from};
ghost use Rattle.record_check.specs.Words.{duration_text, kind_letter, shown_byte, shown_place, stream_text};
ghost use Rattle.record_check.specs.Words.{time_text, word_text};

use crate::fault::FileFault;
use crate::listing::{Refused, Said};
use crate::options::{ListingOptions, Times};
use crate::runs::{Run, Seam, SeamCount, SeamWalk, ticks_after};
use crate::streams::CheckedStream;
use itoa::{Buffer, Integer};
use mseed_header::{Header, Kind};
use sl_time::{Tick, put_moment, put_seconds};
use std::alloc::AllocError;

/// A byte of a code: `?` stands for one that does not print, or is a space.
fn shown_byte(byte: u8) -> u8
    ensures { result ≡ shown_byte byte }
{
    match byte {
        33..=126 => byte,
        _ => b'?',
    }
}

/// A byte of a location or channel, where `-` stands for a space.
fn shown_place(byte: u8) -> u8
    ensures { result ≡ shown_place byte }
{
    match byte {
        b' ' => b'-',
        _ => shown_byte(byte),
    }
}

/// A record's type, by its letter: D (data), E (event), C (calibration), O (opaque), T (timing) or L (log).
pub fn kind_letter(kind: Kind) -> u8
    ensures { result ≡ kind_letter kind }
{
    match kind {
        Kind::D => b'D',
        Kind::E => b'E',
        Kind::C => b'C',
        Kind::O => b'O',
        Kind::T => b'T',
        Kind::L => b'L',
    }
}

/// A code, for which there is room.
fn put_reserved(text: &mut Vec<u8>, code: &[u8])
    requires room { vec_len text.old + length code.now ≤ vec_capacity text.old }
    ensures items { text.new.items ≡ text.old.items ++ map shown_byte code.now }
    ensures len { vec_len text.new ≡ vec_len text.old + length code.now }
    ensures room { vec_capacity text.old ≤ vec_capacity text.new }
{
    for byte in code {
        text.push_reserved(shown_byte(*byte));
    }
}

/// A code.
fn put_shown(text: &mut Vec<u8>, code: &[u8]) -> Result<(), AllocError>
    ensures { OnOk result (text.new.items ≡ text.old.items ++ map shown_byte code.now) }
{
    text.reserve(code.len())?;
    put_reserved(text, code);
    Ok(())
}

/// A code and a space, by one look at the room that there is.
fn put_code(text: &mut Vec<u8>, code: &[u8]) -> Result<(), AllocError>
    ensures { OnOk result (text.new.items ≡ text.old.items ++ word_text (map shown_byte code.now)) }
{
    text.reserve(code.len() + 1)?;
    put_reserved(text, code);
    text.push_reserved(b' ');
    Ok(())
}

/// A location, and a space.
fn put_location(text: &mut Vec<u8>, code: &[u8; 2]) -> Result<(), AllocError>
    ensures { OnOk result (text.new.items ≡ text.old.items ++ word_text (map shown_place code.now)) }
{
    let [first, second] = *code;
    text.extend_from_slice(&[shown_place(first), shown_place(second), b' '])
}

/// A channel, and a space.
fn put_channel(text: &mut Vec<u8>, code: &[u8; 3]) -> Result<(), AllocError>
    ensures { OnOk result (text.new.items ≡ text.old.items ++ word_text (map shown_place code.now)) }
{
    let [first, second, third] = *code;
    text.extend_from_slice(&[
        shown_place(first),
        shown_place(second),
        shown_place(third),
        b' ',
    ])
}

/// The decimal digits of a number, behind a minus sign where it is below 0.
fn put_number<N: Integer>(text: &mut Vec<u8>, number: N) -> Result<(), AllocError>
    ensures { OnOk result (text.new.items ≡ text.old.items ++ N.text number) }
{
    let mut buffer = Buffer::new();
    text.extend_from_slice(buffer.format(number).as_bytes())?;
    Ok(())
}

/// A number and a space.
fn put_number_word<N: Integer>(text: &mut Vec<u8>, number: N) -> Result<(), AllocError>
    ensures { OnOk result (text.new.items ≡ text.old.items ++ word_text (N.text number)) }
{
    put_number(text, number)?;
    text.push(b' ')?;
    Ok(())
}

/// A time, and a space.
fn put_time(text: &mut Vec<u8>, times: Times, moment: Tick) -> Result<(), AllocError>
    ensures { OnOk result (text.new.items ≡ text.old.items ++ word_text (time_text times moment)) }
{
    match times {
        Times::Ticks => put_number(text, moment.value())?,
        Times::Iso => put_moment(text, moment)?,
    }
    text.push(b' ')?;
    Ok(())
}

/// A length of time.
fn put_duration(text: &mut Vec<u8>, times: Times, ticks: u128) -> Result<(), AllocError>
    ensures { OnOk result (text.new.items ≡ text.old.items ++ duration_text times ticks) }
{
    match times {
        Times::Ticks => put_number(text, ticks),
        Times::Iso => put_seconds(text, ticks),
    }
}

/// Network, station, location and channel, each with a space behind it.
fn put_codes(
    text: &mut Vec<u8>,
    network: &[u8],
    station: &[u8],
    location: &[u8; 2],
    channel: &[u8; 3],
) -> Result<(), AllocError>
    ensures { OnOk result
        (text.new.items ≡ text.old.items ++ stream_text network.now station.now location.now channel.now) }
{
    put_code(text, network)?;
    put_code(text, station)?;
    put_location(text, location)?;
    put_channel(text, channel)?;
    Ok(())
}

/// A type's letter, and a space.
fn put_kind(text: &mut Vec<u8>, kind: Kind) -> Result<(), AllocError>
    ensures { OnOk result (text.new.items ≡ text.old.items ++ word_text (kind_letter kind ∷ [])) }
{
    text.extend_from_slice(&[kind_letter(kind), b' '])
}

fn put_refusal(text: &mut Vec<u8>, fault: FileFault) -> Result<(), AllocError>
    ensures { OnOk result (text.new.items ≡ text.old.items ++ refusal_text fault) }
{
    text.extend_from_slice(b"refused ")?;
    let reason = fault.reason();
    put_number_word(text, reason.number())?;
    text.extend_from_slice(reason.name().as_bytes())?;
    Ok(())
}

/// A record's location, channel and type, each with a space behind it.
fn put_places(text: &mut Vec<u8>, header: &Header<'_>) -> Result<(), AllocError>
    ensures { OnOk result (text.new.items ≡ text.old.items ++ (word_text (map shown_place header.now.location)
        ++ word_text (map shown_place header.now.channel) ++ word_text (kind_letter header.now.kind ∷ []))) }
{
    let [first, second] = *header.location();
    let [third, fourth, fifth] = *header.channel();
    text.extend_from_slice(&[
        shown_place(first),
        shown_place(second),
        b' ',
        shown_place(third),
        shown_place(fourth),
        shown_place(fifth),
        b' ',
        kind_letter(header.kind()),
        b' ',
    ])
}

/// What a header says: `NET STA LOC CHA TYPE START END SAMPLES`, with each space of the location or channel as `-`, and
/// each other byte of a code that is not 33 to 126 as `?`.
#[tactic(auto, using(crate::proofs::TextLemmas::joins_header))]
pub fn put_header(text: &mut Vec<u8>, times: Times, header: &Header<'_>) -> Result<(), AllocError>
    ensures { OnOk result (text.new.items ≡ text.old.items ++ header_text times header.now) }
{
    put_code(text, header.network())?;
    put_code(text, header.station())?;
    put_places(text, header)?;
    put_time(text, times, header.start())?;
    put_time(text, times, header.end())?;
    put_number(text, header.samples())?;
    Ok(())
}

/// The codes of the station of which a record is refused, after a space.
fn put_stranger(text: &mut Vec<u8>, header: &Header<'_>) -> Result<(), AllocError>
    ensures { OnOk result (text.new.items ≡ text.old.items ++ stranger_text header.now) }
{
    text.push(b' ')?;
    put_code(text, header.network())?;
    put_shown(text, header.station())?;
    Ok(())
}

/// Why a record is refused, and of which station it is if that is why.
fn put_refused(text: &mut Vec<u8>, refused: &Refused<'_>) -> Result<(), AllocError>
    ensures { OnOk result (text.new.items ≡ text.old.items ++ refused_text refused.now) }
{
    match refused {
        Refused::Unread(fault) => put_refusal(text, FileFault::Record(*fault)),
        Refused::Stranger(header) => {
            put_refusal(text, FileFault::Station)?;
            put_stranger(text, header)
        }
    }
}

/// What a record says, or why it is refused.
fn put_record(text: &mut Vec<u8>, times: Times, said: &Said<'_>) -> Result<(), AllocError>
    ensures { OnOk result (text.new.items ≡ text.old.items ++ record_text times said.now) }
{
    match said {
        Ok(header) => put_header(text, times, header),
        Err(refused) => put_refused(text, refused),
    }
}

/// The line of a record, if lines are asked for.
pub(crate) fn put_line(
    text: &mut Vec<u8>,
    options: ListingOptions,
    number: u128,
    said: &Said<'_>,
) -> Result<(), AllocError>
    ensures { OnOk result (text.new.items ≡ text.old.items ++ record_line options number said.now) }
{
    if options.has_lines {
        put_number_word(text, number)?;
        put_record(text, options.times, said)?;
        text.push(b'\n')?;
    }
    Ok(())
}

/// The line of the bytes that are left over, where there are some.
fn put_partial(text: &mut Vec<u8>, count: usize) -> Result<(), AllocError>
    ensures { OnOk result (text.new.items ≡ text.old.items ++ partial_text count) }
{
    if count == 0 {
        return Ok(());
    }
    text.extend_from_slice(b"partial ")?;
    put_number_word(text, count)?;
    text.extend_from_slice(b"bytes\n")?;
    Ok(())
}

/// The same, if lines are asked for.
pub(crate) fn put_rest(
    text: &mut Vec<u8>,
    options: ListingOptions,
    count: usize,
) -> Result<(), AllocError>
    ensures { OnOk result (text.new.items ≡ text.old.items ++ partial_line options count) }
{
    if options.has_lines {
        put_partial(text, count)?;
    }
    Ok(())
}

/// How many gaps there are, and how many overlaps.
fn put_count(text: &mut Vec<u8>, count: SeamCount) -> Result<(), AllocError>
    ensures { OnOk result (text.new.items ≡ text.old.items ++ count_text count) }
{
    put_number_word(text, count.gaps)?;
    put_number(text, count.overlaps)?;
    Ok(())
}

/// A stream's type, how many records it has, its earliest start and latest end, and how many gaps and overlaps its runs
/// have, which are in order.
fn put_summary(text: &mut Vec<u8>, times: Times, stream: &CheckedStream) -> Result<(), AllocError>
    ensures { OnOk result (text.new.items ≡ text.old.items ++ summary_text times stream.now) }
{
    put_kind(text, stream.kind())?;
    put_number_word(text, stream.records())?;
    put_time(text, times, stream.first())?;
    put_time(text, times, stream.last())?;
    put_count(text, SeamCount::of(stream.runs()))
}

/// The line of a stream.
fn put_stream(text: &mut Vec<u8>, times: Times, stream: &CheckedStream) -> Result<(), AllocError>
    ensures { OnOk result (text.new.items ≡ text.old.items ++ stream_line times stream.now) }
{
    put_codes(
        text,
        stream.network(),
        stream.station(),
        stream.location(),
        stream.channel(),
    )?;
    put_summary(text, times, stream)?;
    text.push(b'\n')?;
    Ok(())
}

/// The lines of streams.
fn put_streams(
    text: &mut Vec<u8>,
    times: Times,
    streams: &[CheckedStream],
) -> Result<(), AllocError>
    ensures { OnOk result (text.new.items ≡ text.old.items ++ stream_lines times streams.now) }
{
    for stream in streams {
        put_stream(text, times, stream)?;
    }
    Ok(())
}

/// The same, if they are asked for.
pub(crate) fn put_summaries(
    text: &mut Vec<u8>,
    options: ListingOptions,
    streams: &[CheckedStream],
) -> Result<(), AllocError>
    ensures { OnOk result (text.new.items ≡ text.old.items ++ summaries_text options streams.now) }
{
    if options.has_summary {
        put_streams(text, options.times, streams)?;
    }
    Ok(())
}

/// A stream, from when to when, and how long that is.
fn put_span(
    text: &mut Vec<u8>,
    times: Times,
    stream: &CheckedStream,
    from: Tick,
    to: Tick,
) -> Result<(), AllocError>
    ensures { OnOk result (text.new.items ≡ text.old.items ++ span_text times stream.now from to) }
{
    put_codes(
        text,
        stream.network(),
        stream.station(),
        stream.location(),
        stream.channel(),
    )?;
    put_kind(text, stream.kind())?;
    put_time(text, times, from)?;
    put_time(text, times, to)?;
    put_duration(text, times, ticks_after(from, to))?;
    text.push(b'\n')?;
    Ok(())
}

/// The line of what lies between runs of a stream.
fn put_seam(
    text: &mut Vec<u8>,
    times: Times,
    stream: &CheckedStream,
    seam: Seam,
) -> Result<(), AllocError>
    ensures { OnOk result (text.new.items ≡ text.old.items ++ seam_text times stream.now seam) }
{
    let (word, from, to): (&[u8], Tick, Tick) = match seam {
        Seam::Even => return Ok(()),
        Seam::Gap { from, to } => (b"gap ", from, to),
        Seam::Overlap { from, to } => (b"overlap ", from, to),
        Seam::Twice { from, to } => (b"twice ", from, to),
    };
    text.extend_from_slice(word)?;
    put_span(text, times, stream, from, to)
}

/// The lines of what lies before each of some runs.
fn put_seams(
    text: &mut Vec<u8>,
    times: Times,
    stream: &CheckedStream,
    reached: SeamWalk,
    runs: &[Run],
) -> Result<(), AllocError>
    ensures { OnOk result (text.new.items
        ≡ text.old.items ++ seam_lines times stream.now (seams_from reached runs.now)) }
{
    let mut walk = reached;
    for run in runs {
        let seam = walk.step(run);
        put_seam(text, times, stream, seam)?;
    }
    Ok(())
}

/// The lines of the gaps and overlaps of a stream, whose runs are in order.
fn put_stream_gaps(
    text: &mut Vec<u8>,
    times: Times,
    stream: &CheckedStream,
) -> Result<(), AllocError>
    ensures { OnOk result (text.new.items ≡ text.old.items ++ gap_lines times stream.now) }
{
    match stream.runs().split_first() {
        Some((first, runs)) => put_seams(text, times, stream, SeamWalk::behind(first), runs),
        None => Ok(()),
    }
}

/// Those of streams.
fn put_all_gaps(
    text: &mut Vec<u8>,
    times: Times,
    streams: &[CheckedStream],
) -> Result<(), AllocError>
    ensures { OnOk result (text.new.items ≡ text.old.items ++ all_gap_lines times streams.now) }
{
    for stream in streams {
        put_stream_gaps(text, times, stream)?;
    }
    Ok(())
}

/// The same, if they are asked for.
pub(crate) fn put_gaps(
    text: &mut Vec<u8>,
    options: ListingOptions,
    streams: &[CheckedStream],
) -> Result<(), AllocError>
    ensures { OnOk result (text.new.items ≡ text.old.items ++ gaps_text options streams.now) }
{
    if options.has_gaps {
        put_all_gaps(text, options.times, streams)?;
    }
    Ok(())
}
