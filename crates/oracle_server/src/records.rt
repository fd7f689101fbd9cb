//! Random records.
use crate::draws::Draws;
use crate::moments;
use crate::sites::Site;
use mseed_header::{ByteOrder, Fields, make};

/// What a record says, as it was made. Times are seconds of 2024, times 10,000.
#[derive(Clone, Copy, Drop)]
pub struct Facts {
    pub network: &'static [u8],
    pub code: &'static [u8],
    pub location: &'static [u8],
    pub channel: &'static [u8],
    /// The type, as a letter.
    pub kind: u8,
    pub start: u64,
    pub end: u64,
}

/// A record that comes. One without facts is broken.
#[derive(Clone, Copy, Drop)]
pub struct Arrival {
    pub bytes: [u8; 512],
    pub facts: Option<Facts>,
}

/// The type of a record, and the samples, the rate and the blockette that give it.
#[derive(Clone, Copy, Drop)]
struct Sort {
    kind: u8,
    samples: u16,
    rate: i16,
    extra: Option<u16>,
}

fn sort_of(kind: u8, samples: u16, rate: i16, extra: Option<u16>) -> Sort {
    Sort {
        kind,
        samples,
        rate,
        extra,
    }
}

fn drawn_sort(draws: &mut Draws) -> Sort {
    match draws.below(10) {
        0 => sort_of(b'D', 0, 100, None),
        1 => sort_of(b'L', 10, 0, None),
        2 => sort_of(b'E', 0, 1, Some(200)),
        3 => sort_of(b'C', 0, 1, Some(300)),
        4 => sort_of(b'T', 0, 1, Some(500)),
        5 => sort_of(b'O', 0, 1, Some(2000)),
        6 => sort_of(b'D', 500, 100, None),
        _ => sort_of(b'D', 100, 100, None),
    }
}

/// How long the samples of a record take, in units of 0.0001 s.
fn length(sort: Sort) -> u64 {
    if sort.rate == 100 {
        u64::from(sort.samples).saturating_mul(100)
    } else {
        0
    }
}

/// The codes of a record: mostly those of a station.
fn codes(draws: &mut Draws, sites: &'static [Site]) -> (&'static [u8], &'static [u8]) {
    let place = draws.below(sites.len());
    match sites.get(place) {
        Some(site) if !draws.is_one_of(12) => (site.network, site.code),
        _ => (
            draws.text(&[b"GE", b"A", b"ZZ"]),
            draws.text(&[b"S", b"APE", b"NONE"]),
        ),
    }
}

/// A second of a start.
fn drawn_second(draws: &mut Draws) -> u8 {
    match draws.below(6) {
        0 | 1 => 0,
        2 => 1,
        3 => 5,
        4 => 10,
        _ => 59,
    }
}

/// Channels of which a station has many.
static MANY_CHANNELS: [&[u8]; 26] = [
    b"BHA", b"BHB", b"BHC", b"BHD", b"BHE", b"BHF", b"BHG", b"BHH", b"BHI", b"BHJ", b"BHK", b"BHL",
    b"BHM", b"LHA", b"LHB", b"LHC", b"LHD", b"LHE", b"LHF", b"LHG", b"LHI", b"LHJ", b"LHK", b"LHL",
    b"LHM", b"LHN",
];

/// The channel of a record. One in three is of many, so that the stations of a long list have more streams than get a
/// number.
fn channel(draws: &mut Draws) -> &'static [u8] {
    if draws.is_one_of(3) {
        draws.text(&MANY_CHANNELS)
    } else {
        draws.text(&[b"BHZ", b"BHN", b"LHZ", b"HH"])
    }
}

/// What a record says, but for its end, and how it is made.
#[derive(Drop)]
struct Plan {
    facts: Facts,
    sort: Sort,
    day: u16,
    second: u8,
    fraction: u16,
    contents: &'static [u8],
}

fn drawn_plan(draws: &mut Draws, sites: &'static [Site]) -> Plan {
    let (network, code) = codes(draws, sites);
    let sort = drawn_sort(draws);
    let day = if draws.is_one_of(3) { 61 } else { 60 };
    let second = drawn_second(draws);
    let fraction = if draws.is_one_of(4) { 5000 } else { 0 };
    let start = moments::of_day(2024, u64::from(day), u64::from(second), u64::from(fraction));
    let facts = Facts {
        network,
        code,
        location: draws.text(&[b"", b"", b"00", b"1"]),
        channel: channel(draws),
        kind: sort.kind,
        start,
        end: start.saturating_add(length(sort)),
    };
    Plan {
        facts,
        sort,
        day,
        second,
        fraction,
        contents: draws.text(&[b"", b"one", b"two", b"three"]),
    }
}

fn made(plan: &Plan) -> Option<[u8; 512]> {
    let fields = Fields {
        sequence: 1,
        quality: b'D',
        station: plan.facts.code,
        location: plan.facts.location,
        channel: plan.facts.channel,
        network: plan.facts.network,
        year: 2024,
        day: plan.day,
        hour: 0,
        minute: 0,
        second: plan.second,
        fraction: plan.fraction,
        samples: plan.sort.samples,
        factor: plan.sort.rate,
        multiplier: 1,
        encoding: 11,
        order: ByteOrder::Big,
        extra: plan.sort.extra,
        contents: plan.contents,
    };
    make(&fields).ok()
}

/// A record that comes. Some are broken: a byte of the sequence number, the quality or the hour is changed.
pub fn next_arrival(draws: &mut Draws, sites: &'static [Site]) -> Arrival {
    let plan = drawn_plan(draws, sites);
    let Some(bytes) = made(&plan) else {
        return Arrival {
            bytes: [0; 512],
            facts: None,
        };
    };
    if !draws.is_one_of(15) {
        return Arrival {
            bytes,
            facts: Some(plan.facts),
        };
    }
    let mut changed = bytes;
    if let Some(byte) = changed.get_mut(draws.number(&[0, 6, 24])) {
        *byte = b'#';
    }
    Arrival {
        bytes: changed,
        facts: None,
    }
}
