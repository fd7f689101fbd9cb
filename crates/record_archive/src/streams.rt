//! Streams of which records were put, each with the file of a day.
//!
//! A record of the same stream and the same day goes into the same file, so its codes are not judged again, no text is
//! made and no date is calculated. Of each stream the day is kept of which a record came last.
ghost use Rattle.std.specs.Prelude.{◌≡◌, ◌≤ℤ◌, ◌+◌, ◌+ℤ◌, ◌≤◌, ◌<◌, All, IfErr, IfOk, IfSome, None, Ok, get_or, length};
ghost use Rattle.std.specs.Prelude.{pos, true};
ghost use Rattle.protocol.specs.Record.{header_of};
ghost use Rattle.sl_time.specs.Days.{day_start, IsWithinDay};
ghost use Rattle.record_archive.specs.Archives.{IsUnplaced};
ghost use Rattle.record_archive.specs.Paths.{file_text, folder_text};
ghost use Rattle.record_archive.specs.Places.{HasPlace, IsKnown, IsOfStream, StreamValue, codes_in};

use crate::path::{has_place, put_file, put_folder};
use crate::place::Place;
use crate::stations::{StationCodes, is_wanted};
use continued_files::place_after;
use mseed_header::{Header, Kind};
use record_check::kind_letter;
use sl_time::{DayOfYear, Tick, day_of, of_btime};
use std::alloc::{AllocError, Global};
use std::marker::Model;

/// Ticks of 0.0001 s in a day.
const TICKS_OF_DAY: i64 = 864_000_000;

/// From which moment on some time lasts, and before which.
#[derive(Clone, Copy)]
struct Span {
    from: Tick,
    before: Tick,
}

/// Records with the same codes and the same type that start within some time, and the file into which they are put.
#[derive(Drop)]
pub(crate) struct KnownStream {
    codes: [u8; 12],
    /// The codes and the type as a number.
    number: u128,
    kind: Kind,
    span: Span,
    day: DayOfYear,
    place: Place,
}

impl Model for KnownStream {
    ghost use Rattle.record_archive.specs.Places.{StreamValue};

    ghost Value = { StreamValue };

    ghost view = { λ s. record {
      codes = s.codes;
      kind = s.kind;
      from = s.span.from;
      before = s.span.before;
      year = s.day.year;
      day = s.day.day;
      place = s.place;
    } };
}

/// The codes of a record, as they stand in it.
fn codes_of(bytes: &[u8; 512]) -> &[u8; 12]
    ensures { result.now ≡ codes_in bytes.now }
{
    bytes[8..20].as_array().unwrap()
}

/// Codes and a type as a number, so that they can be put in order.
fn number_of(codes: &[u8; 12], kind: Kind) -> u128 {
    let [a, b, c, d, e, f, g, h, i, j, k, l] = *codes;
    let letter = kind_letter(kind);
    u128::from_be_bytes([0, 0, 0, letter, a, b, c, d, e, f, g, h, i, j, k, l])
}

/// A day from its first moment on.
fn whole_day(day: DayOfYear) -> Option<Span>
    ensures from { IfSome result (λ s. s.from ≡ day_start day.year day.day) }
    ensures before { IfSome result (λ s. s.before ≡ day_start day.year day.day +ℤ pos 864000000) }
{
    let from = of_btime(day.year, day.day, 0, 0, 0, 0)?;
    let before = from.value().checked_add(TICKS_OF_DAY)?;
    Some(Span {
        from,
        before: Tick::new(before),
    })
}

/// The day in which a moment lies; no time if that is out of the range of records.
fn span_of(day: DayOfYear, moment: Tick) -> Span
    requires { IsWithinDay day.year day.day moment }
    ensures from { day_start day.year day.day ≤ℤ result.from }
    ensures before { result.before ≤ℤ day_start day.year (day.day + 1) }
{
    match whole_day(day) {
        Some(span) => span,
        None => Span {
            from: moment,
            before: moment,
        },
    }
}

/// The file of a record's stream and of a day.
fn place_in(alloc: Global, header: &Header<'_>, day: DayOfYear) -> Result<Place, AllocError>
    ensures folder { IfOk result (λ p. p.folder ≡ folder_text day.year header.now) }
    ensures file { IfOk result (λ p. p.file ≡ file_text day.year day.day header.now) }
{
    let mut folder = Vec::new(alloc);
    put_folder(&mut folder, header, day)?;
    let mut file = Vec::new(alloc);
    put_file(&mut file, header, day)?;
    Place::new(alloc, folder, file)
}

/// The stream of a record that says this, on the day in which it starts, if its codes name a place and it is of one of
/// the stations.
fn stream_of(
    alloc: Global,
    stations: &[StationCodes],
    bytes: &[u8; 512],
    header: &Header<'_>,
) -> Result<Option<KnownStream>, AllocError>
    requires { header_of bytes.now ≡ Ok header.now }
    ensures place { IfOk result (λ made. IfSome made (λ s. HasPlace s.year s.day stations.now header.now s.place)) }
    ensures known { IfOk result (λ made. IfSome made (IsKnown stations.now)) }
    ensures none { result ≡ Ok None → IsUnplaced stations.now bytes.now }
{
    if !has_place(header) {
        return Ok(None);
    }
    if !is_wanted(stations, header) {
        return Ok(None);
    }
    let Some(day) = day_of(header.start()) else {
        return Ok(None);
    };
    let codes = codes_of(bytes);
    Ok(Some(KnownStream {
        codes: *codes,
        number: number_of(codes, header.kind()),
        kind: header.kind(),
        span: span_of(day, header.start()),
        day,
        place: place_in(alloc, header, day)?,
    }))
}

impl KnownStream {
    ghost use Rattle.std.specs.Prelude.{◌≡◌, true};
    ghost use Rattle.record_archive.specs.Places.{IsOfStream};

    /// Whether a record, which says this, is one of these.
    fn has(&self, bytes: &[u8; 512], header: &Header<'_>) -> bool
        ensures { result ≡ true → IsOfStream bytes.now header.now self.now }
    {
        self.codes == *codes_of(bytes)
            && self.kind == header.kind()
            && self.span.from <= header.start()
            && header.start() < self.span.before
    }

    /// The file into which they are put.
    pub(crate) fn place(&self) -> &Place
        ensures { result.now ≡ self.now.place }
    {
        &self.place
    }
}

/// The streams of some stations that are known. One is found by its codes and its type.
#[derive(Drop)]
pub(crate) struct KnownStreams {
    alloc: Global,
    stations: Vec<StationCodes>,
    /// By their numbers, rising.
    all: Vec<KnownStream>,
    /// The place of that of the last record.
    last: usize,
    ghost known: { All (IsKnown stations.items) all.items },
}

impl KnownStreams {
    ghost use Rattle.std.specs.Prelude.{◌≡◌, ◌≤◌, ◌<◌, [], All, IfErr, IfOk, IfSome, None, Ok, List, get_or, length};
    ghost use Rattle.std.specs.Prelude.{true};
    ghost use Rattle.protocol.specs.Record.{header_of};
    ghost use Rattle.record_archive.specs.Archives.{IsUnplaced};
    ghost use Rattle.record_archive.specs.Places.{HasPlace, IsKnown, IsOfStream, StreamValue};

    /// None is known.
    pub(crate) fn new(alloc: Global, stations: Vec<StationCodes>) -> KnownStreams
        ensures { result.stations ≡ stations }
    {
        KnownStreams {
            alloc,
            stations,
            all: Vec::new(alloc),
            last: 0,
        }
    }

    /// The stream at a place.
    pub(crate) fn at(&self, place: usize) -> &KnownStream
        requires { place < length self.now.all.items }
        ensures { result.now ≡ get_or self.now.all.items place result.now }
    {
        &self.all[place]
    }

    /// Whether a record, which says this, is one of the stream at a place.
    fn has_at(&self, place: usize, bytes: &[u8; 512], header: &Header<'_>) -> bool
        ensures within { result ≡ true → place < length self.now.all.items }
        ensures stream { result ≡ true → ((s : StreamValue)
            → s ≡ get_or self.now.all.items place s → IsOfStream bytes.now header.now s) }
    {
        match self.all.get(place) {
            Some(stream) => stream.has(bytes, header),
            None => false,
        }
    }

    /// The place of the stream of a record that says this, if it is the one after that of the last record, or that one.
    /// Records of several streams come mostly by turns.
    fn near(&self, bytes: &[u8; 512], header: &Header<'_>) -> Option<usize>
        ensures within { IfSome result (λ at. at < length self.now.all.items) }
        ensures stream { IfSome result (λ at. (s : StreamValue)
            → s ≡ get_or self.now.all.items at s → IsOfStream bytes.now header.now s) }
    {
        let next = place_after(self.last, self.all.len());
        if self.has_at(next, bytes, header) {
            return Some(next);
        }
        if self.has_at(self.last, bytes, header) {
            return Some(self.last);
        }
        None
    }

    /// The place of the stream with that number, or the place where it belongs.
    fn place_of(&self, number: u128) -> Result<usize, usize>
        ensures found { IfOk result (λ at. at < length self.now.all.items) }
        ensures absent { IfErr result (λ at. at ≤ length self.now.all.items) }
    {
        self.all
            .binary_search_by_key(&number, |stream| stream.number)
    }

    /// A stream stands at its place from now on, or is put where it belongs.
    fn set(&mut self, place: Result<usize, usize>, stream: KnownStream) -> Result<usize, AllocError>
        requires found { IfOk place (λ at. at < length self.old.all.items) }
        requires absent { IfErr place (λ at. at ≤ length self.old.all.items) }
        requires known { IsKnown self.old.stations.items stream }
        ensures within { IfOk result (λ at. at < length self.new.all.items) }
        ensures there { IfOk result (λ at. (d : StreamValue) → get_or self.new.all.items at d ≡ stream) }
        ensures stations { self.new.stations ≡ self.old.stations }
    {
        match place {
            Ok(at) => {
                self.all[at] = stream;
                Ok(at)
            }
            Err(at) => {
                self.all.insert(at, stream)?;
                Ok(at)
            }
        }
    }

    /// The stream of a record that says this is known from now on, at its place or where it belongs.
    fn begin(
        &mut self,
        place: Result<usize, usize>,
        bytes: &[u8; 512],
        header: &Header<'_>,
    ) -> Result<Option<usize>, AllocError>
        requires read { header_of bytes.now ≡ Ok header.now }
        requires found { IfOk place (λ at. at < length self.old.all.items) }
        requires absent { IfErr place (λ at. at ≤ length self.old.all.items) }
        ensures stations { self.new.stations ≡ self.old.stations }
        ensures within { IfOk result (λ found. IfSome found (λ at. at < length self.new.all.items)) }
        ensures place { IfOk result (λ found. IfSome found (λ at. (s : StreamValue)
            → s ≡ get_or self.new.all.items at s → HasPlace s.year s.day self.old.stations.items header.now s.place)) }
        ensures none { result ≡ Ok None → IsUnplaced self.old.stations.items bytes.now }
    {
        let Some(stream) = stream_of(self.alloc, self.stations.as_slice(), bytes, header)? else {
            return Ok(None);
        };
        let at = self.set(place, stream)?;
        self.last = at;
        Ok(Some(at))
    }

    /// The place of the stream of a record that says this, which is known from now on. None if the record has no place
    /// in an archive of the stations.
    pub(crate) fn find(
        &mut self,
        bytes: &[u8; 512],
        header: &Header<'_>,
    ) -> Result<Option<usize>, AllocError>
        requires read { header_of bytes.now ≡ Ok header.now }
        ensures stations { self.new.stations ≡ self.old.stations }
        ensures within { IfOk result (λ found. IfSome found (λ at. at < length self.new.all.items)) }
        ensures place { IfOk result (λ found. IfSome found (λ at. (s : StreamValue)
            → s ≡ get_or self.new.all.items at s → HasPlace s.year s.day self.old.stations.items header.now s.place)) }
        ensures none { result ≡ Ok None → IsUnplaced self.old.stations.items bytes.now }
    {
        if let Some(at) = self.near(bytes, header) {
            self.last = at;
            return Ok(Some(at));
        }
        let place = self.place_of(number_of(codes_of(bytes), header.kind()));
        match place {
            Ok(at) if self.all[at].has(bytes, header) => {
                self.last = at;
                Ok(Some(at))
            }
            _ => self.begin(place, bytes, header),
        }
    }
}
