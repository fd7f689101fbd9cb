//! Random lines of a client.
use crate::draws::Draws;
use crate::sites::Site;
use std::alloc::AllocError;

static PATTERNS: [&[u8]; 16] = [
    b"BHZ", b"BH?", b"BH?", b"LHZ", b"!BHZ", b"!LH?", b"!D", b"D", b".D", b"!.T", b"BHZ.D",
    b"!BH?.D", b"00BHZ", b"--BH?", b"!??BHZ", b"1-???.D",
];

/// Patterns that are seldom asked for, and what is none.
static ODD_PATTERNS: [&[u8]; 20] = [
    b"E", b"L", b"O", b".C", b"BHN.E", b"!00BHZ", b"?-HH?", b"bhz", b"BH", b".Q", b"!", b"BHZ.",
    b"0BHZ", b"000BHZ", b"HH-", b"B.Z", b"!!HZ", b"BH\xff", b"?", b"B?Z.?",
];

/// Patterns of which a client asks for many.
static CHANNELS: [&[u8]; 6] = [b"BH?", b"BH?", b"BHZ", b"LHZ", b"!HH?", b"!E"];

static NUMBERS: [&[u8]; 20] = [
    b"000000", b"0", b"1", b"2", b"3", b"4", b"FFFFFC", b"FFFFFD", b"FFFFFE", b"FFFFFF", b"fffffe",
    b"ffffff", b"1F", b"20", b"FE", b"FF", b"100", b"21", b"x", b"0000000",
];

static MOMENTS: [&[u8]; 10] = [
    b"2024,2,29",
    b"2024,2,29,0,0,0",
    b"2024,2,29,0,0,1",
    b"2024,2,29,0,0,2",
    b"2024,2,29,0,0,5",
    b"2024,2,29,0,0,10",
    b"2024,2,29,0,0,59",
    b"2024,3,1",
    b"2024,3,1,0,0,5",
    b"2024,3,1,0,1",
];

/// Moments far away, and what is none.
static ODD_MOMENTS: [&[u8]; 10] = [
    b"2025,1,1",
    b"2000,1,1",
    b"2024,3,1,1",
    b"2024,2,30",
    b"2023,2,29",
    b"2024,2",
    b"2024,2,29,24",
    b"2024,2,29,0,0,0,0",
    b"2024,,29",
    b"now",
];

static OTHERS: [&[u8]; 14] = [
    b"",
    b" ",
    b"INFO ID",
    b"BATCH",
    b"CAPABILITIES",
    b"CAT now",
    b"BYE BYE",
    b"END 1",
    b"HELLO X",
    b"STATION",
    b"STATION A B C",
    b"\x00\xff",
    b"DATAX",
    b"HELL",
];

/// Up to three words of a line.
type Words = [&'static [u8]; 3];

fn pattern(draws: &mut Draws) -> &'static [u8] {
    if draws.is_one_of(5) {
        draws.text(&ODD_PATTERNS)
    } else {
        draws.text(&PATTERNS)
    }
}

fn moment(draws: &mut Draws) -> &'static [u8] {
    if draws.is_one_of(8) {
        draws.text(&ODD_MOMENTS)
    } else {
        draws.text(&MOMENTS)
    }
}

fn action(draws: &mut Draws) -> Words {
    match draws.below(8) {
        0 => [b"DATA", b"", b""],
        1 => [b"FETCH", b"", b""],
        2 => [draws.text(&[b"DATA", b"FETCH"]), draws.text(&NUMBERS), b""],
        3 => [
            draws.text(&[b"DATA", b"FETCH"]),
            draws.text(&NUMBERS),
            moment(draws),
        ],
        4 => [b"TIME", draws.text(&[b"", b"2024,2,29,0,0,5"]), b""],
        5 => [b"TIME", moment(draws), b""],
        _ => [b"TIME", moment(draws), moment(draws)],
    }
}

/// Mostly a station of the configuration.
fn station(draws: &mut Draws, sites: &'static [Site]) -> Words {
    let place = draws.below(sites.len());
    match sites.get(place) {
        Some(site) if !draws.is_one_of(10) => match draws.below(6) {
            0 | 1 => [b"STATION", site.code, b""],
            2 => [
                b"STATION",
                site.code,
                draws.text(&[b"GE", b"XX", b"NO", b"A"]),
            ],
            _ => [b"STATION", site.code, site.network],
        },
        _ => [
            b"STATION",
            draws.text(&[b"NONE", b"ape", b"TOOLONG"]),
            draws.text(&[b"", b"GE", b"ge"]),
        ],
    }
}

fn words(draws: &mut Draws, sites: &'static [Site]) -> Words {
    match draws.below(24) {
        0 => [draws.text(&[b"HELLO", b"hello"]), b"", b""],
        1 => [b"CAT", b"", b""],
        2 if draws.is_one_of(2) => [b"BYE", b"", b""],
        3..=7 => [b"END", b"", b""],
        8..=11 => station(draws, sites),
        12 => [b"SELECT", b"", b""],
        13..=15 => [b"SELECT", pattern(draws), b""],
        16..=21 => action(draws),
        _ => [draws.text(&OTHERS), b"", b""],
    }
}

fn put(draws: &mut Draws, words: Words, out: &mut Vec<u8>) -> Result<(), AllocError> {
    for (place, word) in words.iter().enumerate() {
        if place > 0 && !word.is_empty() {
            out.extend_from_slice(draws.text(&[b" ", b" ", b"  "]))?;
        }
        out.extend_from_slice(word)?;
    }
    out.extend_from_slice(draws.text(&[b"\r", b"\n", b"\r\n"]))
}

/// A line with the bytes that end it.
pub fn line(
    draws: &mut Draws,
    sites: &'static [Site],
    out: &mut Vec<u8>,
) -> Result<(), AllocError> {
    let drawn = words(draws, sites);
    put(draws, drawn, out)
}

/// A station with a pattern or none, and its action.
pub fn request(
    draws: &mut Draws,
    sites: &'static [Site],
    out: &mut Vec<u8>,
) -> Result<(), AllocError> {
    if !draws.is_one_of(8) {
        let named = station(draws, sites);
        put(draws, named, out)?;
    }
    for _ in 0..draws.below(3) {
        let one = pattern(draws);
        put(draws, [b"SELECT", one, b""], out)?;
    }
    wanted(draws, out)
}

/// The end of a negotiation.
pub fn end(draws: &mut Draws, out: &mut Vec<u8>) -> Result<(), AllocError> {
    put(draws, [b"END", b"", b""], out)
}

/// So many SELECTs of one pattern, and one of another. With 64 of them these are at most 800 bytes.
fn patterns(draws: &mut Draws, count: usize, out: &mut Vec<u8>) -> Result<(), AllocError> {
    let channel = draws.text(&CHANNELS);
    for _ in 0..count {
        out.extend_from_slice(b"SELECT ")?;
        out.extend_from_slice(channel)?;
        out.push(b'\r')?;
    }
    let other = pattern(draws);
    put(draws, [b"SELECT", other, b""], out)
}

/// What is wanted of a station.
fn wanted(draws: &mut Draws, out: &mut Vec<u8>) -> Result<(), AllocError> {
    let asked = action(draws);
    put(draws, asked, out)
}

/// Many bytes: a pattern more than a station may have, or a line that is too long, or nearly so.
pub fn many(draws: &mut Draws, out: &mut Vec<u8>) -> Result<(), AllocError> {
    if draws.is_one_of(2) {
        return patterns(draws, 64, out);
    }
    out.extend_from_slice(b"HELLO")?;
    for _ in 0..draws.number(&[250, 251, 252, 1018, 1018, 1019]) {
        out.push(b' ')?;
    }
    out.extend_from_slice(b"\n")
}
