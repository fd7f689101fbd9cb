//! Runs of a loop of whose ports one call is to fail: who joins, what the ports give, and how they take.
use crate::runs::Row::{Feed, Inside, Outside, Quiet, Reads, Writes};
use crate::runs::{PLAIN, RecordRow, Row, Wire};
use std::alloc::Global;
use std::test::Fail;

/// A run.
pub struct Scene {
    pub wires: &'static [Wire],
    /// Whether the last port is a feed's.
    pub has_feed: bool,
    /// What happens: rows, and how often they come one after the other.
    rounds: &'static [(usize, &'static [Row])],
    /// How many turns there are: enough for all, though one can't hear what happens.
    pub turns: usize,
    /// How many bytes the ports take without a failure.
    pub lengths: &'static [usize],
    /// More calls than this are made.
    pub least: u64,
}

/// How many bytes a client gives and a feed gives at once.
const PART: usize = 17;

const FEED_PART: usize = 400;

/// A transfer of GE APE and GE WLF from now on.
const BOTH: &[u8] = b"STATION APE GE\rDATA\rSTATION WLF GE\rDATA\rEND\r";

/// A greeting, and a transfer of GE WLF from now on.
const FOREST: &[u8] = b"HELLO\rSTATION WLF GE\rDATA\rEND\r";

/// Two records of each of two stations of GE, in turn.
const FOUR: [RecordRow; 4] = [
    (b"GE", b"APE", 1),
    (b"GE", b"WLF", 1),
    (b"GE", b"APE", 2),
    (b"GE", b"WLF", 2),
];

/// Three records.
const THREE: [RecordRow; 3] = [(b"GE", b"APE", 1), (b"GE", b"WLF", 2), (b"GE", b"WLF", 3)];

/// A client whose writes take 300 bytes.
const CLIENT: Wire = Wire {
    piece: PART,
    writes: 40,
    first: 300,
    most: 300,
    ..PLAIN
};

/// The same, but its first write takes no byte.
const SLOW: Wire = Wire {
    writes: 41,
    first: 0,
    ..CLIENT
};

/// The same as the first, but each of its answers is followed by "later".
const WAITING: Wire = Wire {
    rests: true,
    pauses: true,
    ..CLIENT
};

/// The feed.
const FEED: Wire = Wire {
    number: 3,
    records: &THREE,
    piece: FEED_PART,
    ..PLAIN
};

/// Two clients join, and the feed once they were heard.
const JOINS: &[(usize, &[Row])] = &[(1, &[Inside(1), Outside(2), Quiet, Quiet, Feed(3)])];

pub static SCENES: [Scene; 4] = [
    // Two clients in transfers and a feed.
    Scene {
        wires: &[
            Wire {
                number: 1,
                text: BOTH,
                ..CLIENT
            },
            Wire {
                number: 2,
                text: FOREST,
                ..CLIENT
            },
            FEED,
        ],
        has_feed: true,
        rounds: JOINS,
        turns: 8,
        lengths: &[1576, 1093, 0],
        least: 12,
    },
    // The same. The first write of each client takes no byte.
    Scene {
        wires: &[
            Wire {
                number: 1,
                text: BOTH,
                ..SLOW
            },
            Wire {
                number: 2,
                text: FOREST,
                ..SLOW
            },
            FEED,
        ],
        has_feed: true,
        rounds: JOINS,
        turns: 8,
        lengths: &[1576, 1093, 0],
        least: 12,
    },
    // The same. Each answer of a port is followed by "later".
    Scene {
        wires: &[
            Wire {
                number: 1,
                text: BOTH,
                ..WAITING
            },
            Wire {
                number: 2,
                text: FOREST,
                ..WAITING
            },
            Wire {
                rests: true,
                ..FEED
            },
        ],
        has_feed: true,
        rounds: &[
            (1, &[Inside(1), Outside(2), Quiet]),
            (10, &[Reads(1), Reads(2), Writes(1), Writes(2), Quiet]),
            (1, &[Feed(3)]),
            (10, &[Reads(3), Writes(1), Writes(2), Quiet]),
        ],
        turns: 24,
        lengths: &[1576, 1093, 0],
        least: 12,
    },
    // Two clients say HELLO, the first in two pieces and with writes of ten bytes.
    Scene {
        wires: &[
            Wire {
                number: 1,
                text: b"HELLO\r",
                piece: 3,
                rests: true,
                writes: 5,
                first: 10,
                most: 10,
                ..PLAIN
            },
            Wire {
                number: 2,
                text: b"HELLO\r",
                ..PLAIN
            },
        ],
        has_feed: false,
        rounds: &[(1, &[Inside(1), Inside(2), Quiet, Reads(1), Quiet])],
        turns: 8,
        lengths: &[45, 45],
        least: 12,
    },
];

/// A client in a transfer of two stations, four records, and writes of one byte.
pub static BYTES: Scene = Scene {
    wires: &[
        Wire {
            number: 1,
            text: BOTH,
            writes: 2200,
            first: 1,
            most: 1,
            ..PLAIN
        },
        Wire {
            number: 2,
            text: b"",
            ..PLAIN
        },
        Wire {
            records: &FOUR,
            ..FEED
        },
    ],
    has_feed: true,
    rounds: JOINS,
    turns: 8,
    lengths: &[2096, 0, 0],
    least: 2100,
};

impl Scene {
    /// What happens, row by row.
    pub fn rows(&self, alloc: Global) -> Result<Vec<Row>, Fail> {
        let mut all = Vec::new(alloc);
        for &(times, rows) in self.rounds {
            for _ in 0..times {
                all.extend_from_slice(rows)?;
            }
        }
        Ok(all)
    }
}
