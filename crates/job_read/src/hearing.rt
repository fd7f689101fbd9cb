//! What is reported of what a reader is given: each jump in the numbers of a station of which all records are asked
//! for.
ghost use Rattle.std.specs.Prelude.{◌≡◌, ◌&&◌};
ghost use Rattle.slreader.specs.WantTexts.{action_value};
ghost use Rattle.job_read.specs.Hearing.{are_whole, is_open, is_whole, spares};

use crate::jumps::{HourLimit, JumpEvent, Numbers, TimeBefore};
use crate::notices::{Notice, Teller};
use files::milliseconds;
use mseed_header::{Header, Kind};
use record_check::{Extent, StreamName};
use sl_packet::Seq;
use slreader::{GivenPacket, Reached, Tally, Want, WantedAction};
use std::alloc::{AllocError, Global};
use std::collections::HashMap;

/// Of how many streams at most it is known when their last record ends. Of others no time is known to be missing.
const STREAMS: usize = 4_096;

/// Whether no moment is asked for.
fn is_open(action: &WantedAction<'_>) -> bool
    ensures { result ≡ is_open (action_value action.now) }
{
    match action {
        WantedAction::Data { begin, .. } => begin.is_none(),
        WantedAction::Fetch { begin, .. } => begin.is_none(),
        WantedAction::Time { .. } => false,
    }
}

/// Whether all records of a station are asked for.
#[tactic(auto, using(slreader::proofs::TextLemmas::size_of_texts))]
fn is_whole(want: &Want<'_>) -> bool
    ensures { result ≡ is_whole want.now }
{
    want.patterns.is_empty() && is_open(&want.action)
}

/// Whether a want is of another station, or asks for all of its records.
fn spares(network: &[u8], station: &[u8], want: &Want<'_>) -> bool
    ensures { result ≡ spares network.now station.now want.now }
{
    !(want.network == network && want.station == station) || is_whole(want)
}

/// Whether no want asks for some records of a station alone.
pub fn are_whole(network: &[u8], station: &[u8], wants: &[Want<'_>]) -> bool
    ensures { result ≡ are_whole network.now station.now wants.now }
{
    for want in wants {
        if !spares(network, station, want) {
            return false;
        }
    }
    true
}

/// A station of which all records are asked for.
#[derive(Drop)]
struct Followed {
    network: Vec<u8>,
    station: Vec<u8>,
    numbers: Numbers,
    /// How many jumps there were.
    jumps: u64,
    gaps: HourLimit,
    renumberings: HourLimit,
}

impl Followed {
    /// The station of a want, after its last packet.
    fn new(
        alloc: Global,
        want: &Want<'_>,
        reached: Option<Reached>,
    ) -> Result<Followed, AllocError> {
        Ok(Followed {
            network: Vec::from_slice(alloc, want.network)?,
            station: Vec::from_slice(alloc, want.station)?,
            numbers: Numbers::after(reached),
            jumps: 0,
            gaps: HourLimit::new(),
            renumberings: HourLimit::new(),
        })
    }

    /// Whether it has these codes.
    fn is(&self, network: &[u8], station: &[u8]) -> bool {
        self.station.as_slice() == station && self.network.as_slice() == network
    }

    /// A packet with that number. Answers whether it doesn't follow on the last one.
    fn note(&mut self, number: Seq) -> bool {
        let is_jump = self.numbers.note(number);
        if is_jump {
            self.jumps = self.jumps.wrapping_add(1);
        }
        is_jump
    }

    /// Tells of time that is missing, unless it was told within the hour.
    fn tell_gap<T: Teller>(
        &mut self,
        (last, next): (Seq, Seq),
        missing: Option<u64>,
        now: u64,
        teller: &mut T,
    ) {
        if let Some(more) = self.gaps.allow(now) {
            teller.tell(&Notice::Gap {
                network: &self.network,
                station: &self.station,
                last,
                next,
                missing,
                more,
            });
        }
    }

    /// Tells of numbers that jumped alone, unless it was told within the hour.
    fn tell_numbers<T: Teller>(&mut self, (last, next): (Seq, Seq), now: u64, teller: &mut T) {
        if let Some(more) = self.renumberings.allow(now) {
            teller.tell(&Notice::Renumbered {
                network: &self.network,
                station: &self.station,
                last,
                next,
                more,
            });
        }
    }

    /// Tells of a jump.
    fn tell<T: Teller>(&mut self, rt: &HostRuntime, event: JumpEvent, teller: &mut T) {
        match event {
            JumpEvent::Gap {
                last,
                next,
                missing,
            } => self.tell_gap((last, next), missing, milliseconds(rt), teller),
            JumpEvent::Renumbered { last, next } => {
                self.tell_numbers((last, next), milliseconds(rt), teller)
            }
        }
    }
}

/// The last packet of a stream: at which place its station stands, when its record ends, and after how many jumps of
/// that it came.
#[derive(Clone, Copy)]
struct HeardStream {
    place: usize,
    extent: Extent,
    jumps: u64,
}

/// What is known of the time before a record in its stream, at a station with so many jumps.
fn time_before(last: &Option<HeardStream>, jumps: u64, header: &Header<'_>) -> TimeBefore {
    let Some(last) = last else {
        return TimeBefore::Unknown;
    };
    let Kind::D = header.kind() else {
        return TimeBefore::Whole;
    };
    if last.jumps == jumps {
        return TimeBefore::Whole;
    }
    match last.extent.missing_before(header.start()) {
        0 => TimeBefore::Whole,
        ticks => TimeBefore::Missing(u64::try_from(ticks).unwrap_or(u64::MAX)),
    }
}

/// The stations of wants of which all records are asked for, after what was counted.
fn stations_of(
    alloc: Global,
    wants: &[Want<'_>],
    tally: &Tally,
) -> Result<Vec<Followed>, AllocError> {
    let mut stations = Vec::new(alloc);
    for (place, want) in wants.iter().enumerate() {
        if are_whole(want.network, want.station, wants) {
            stations.push(Followed::new(alloc, want, tally.reached(place))?)?;
        }
    }
    Ok(stations)
}

/// Hears the packets that a reader is given.
#[derive(Drop)]
pub struct Listener {
    stations: Vec<Followed>,
    streams: HashMap<StreamName, HeardStream>,
}

impl Listener {
    /// Before the first packet, after what was counted.
    pub fn new(alloc: Global, wants: &[Want<'_>], tally: &Tally) -> Result<Listener, AllocError> {
        Ok(Listener {
            stations: stations_of(alloc, wants, tally)?,
            streams: HashMap::new(alloc),
        })
    }

    /// The place of the station with these codes, if it is one of those.
    fn place_of(&self, network: &[u8], station: &[u8]) -> Option<usize> {
        for (at, followed) in self.stations.iter().enumerate() {
            if followed.is(network, station) {
                return Some(at);
            }
        }
        None
    }

    /// The place of the station of a packet, by the last one of its stream.
    fn place_behind(&self, last: &Option<HeardStream>, header: &Header<'_>) -> Option<usize> {
        match last {
            Some(stream) => Some(stream.place),
            None => self.place_of(header.network(), header.station()),
        }
    }

    /// The last packet of the stream of that name.
    fn last_of(&self, name: &StreamName) -> Option<HeardStream> {
        match self.streams.get(name) {
            Some(stream) => Some(*stream),
            None => None,
        }
    }

    /// The last packet of a stream is another one.
    fn keep(&mut self, name: StreamName, is_known: bool, last: HeardStream) {
        if is_known || self.streams.len() < STREAMS {
            let _ = self.streams.insert(name, last);
        }
    }

    /// A packet with that number came.
    fn hear_at<T: Teller>(
        &mut self,
        rt: &HostRuntime,
        number: Seq,
        header: &Header<'_>,
        teller: &mut T,
    ) {
        let name = StreamName::of(header);
        let last = self.last_of(&name);
        let Some(place) = self.place_behind(&last, header) else {
            return;
        };
        let Some(station) = self.stations.get_mut(place) else {
            return;
        };
        let is_jump = station.note(number);
        let jumps = station.jumps;
        let before = time_before(&last, jumps, header);
        if let Some(event) = station.numbers.event(is_jump, before) {
            station.tell(rt, event, teller);
        }
        let extent = Extent::of(header);
        self.keep(
            name,
            last.is_some(),
            HeardStream {
                place,
                extent,
                jumps,
            },
        );
    }

    /// A packet came.
    pub fn hear<T: Teller>(&mut self, rt: &HostRuntime, packet: &GivenPacket<'_>, teller: &mut T) {
        let number = Seq::parse(&packet.bytes()[2..8]);
        if let (Some(number), Some(header)) = (number, packet.header()) {
            self.hear_at(rt, number, header, teller);
        }
    }
}
