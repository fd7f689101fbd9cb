//! Loops over ports in memory: who joins, what the ports give, and what they take.
use catalog::Config;
use event_loop::Loop;
use memory_ports::{MemoryPorts, PortScript, ReadAnswer, Script, WriteAnswer};
use ports::Happening;
use std::alloc::Global;
use std::net::Ipv4Addr;
use std::test::Fail;
use test_centre::{CENTRE, RecordOf, made};

/// What happens, as a row of a test has it.
#[derive(Clone, Copy)]
pub enum Row {
    /// A client joins from an address that sees the first three stations.
    Inside(u64),
    /// A client joins from one that sees two.
    Outside(u64),
    Feed(u64),
    Reads(u64),
    Writes(u64),
    Quiet,
}

fn happening(row: Row) -> Happening {
    match row {
        Row::Inside(port) => Happening::Joined(port, Ipv4Addr::new(10, 0, 0, 7)),
        Row::Outside(port) => Happening::Joined(port, Ipv4Addr::new(172, 16, 0, 9)),
        Row::Feed(port) => Happening::JoinedFeed(port),
        Row::Reads(port) => Happening::Readable(port),
        Row::Writes(port) => Happening::Writable(port),
        Row::Quiet => Happening::Quiet,
    }
}

/// What happens, row by row.
pub fn happenings(alloc: Global, rows: &[Row]) -> Result<Vec<Happening>, Fail> {
    let mut all = Vec::new(alloc);
    for row in rows {
        all.push(happening(*row))?;
    }
    Ok(all)
}

/// A record by its network, its station, and the second of the minute in which it starts.
pub type RecordRow = (&'static [u8], &'static [u8], u8);

/// A record of a station.
pub fn record(network: &[u8], station: &[u8], second: u8) -> Result<[u8; 512], Fail> {
    Ok(made(&RecordOf {
        second,
        ..RecordOf::station(network, station)
    })?)
}

/// Records, one after the other.
pub fn records(alloc: Global, rows: &[RecordRow]) -> Result<Vec<u8>, Fail> {
    let mut bytes = Vec::new(alloc);
    for row in rows {
        let (network, station, second) = *row;
        bytes.extend_from_slice(&record(network, station, second)?)?;
    }
    Ok(bytes)
}

/// A port: what it gives, and how much it takes.
#[derive(Clone, Copy)]
pub struct Wire {
    pub number: u64,
    /// Records that it gives, and a text after them.
    pub records: &'static [RecordRow],
    pub text: &'static [u8],
    /// How many bytes it gives at once, at least 1, and whether it gives nothing for a while after each piece.
    pub piece: usize,
    pub rests: bool,
    /// Whether it comes to its end then.
    pub ends: bool,
    /// How many writes are said, how many bytes the first one takes at most, and how many each later one.
    pub writes: usize,
    pub first: usize,
    pub most: usize,
    /// Whether it takes nothing for a while after each of them.
    pub pauses: bool,
}

/// A port that gives nothing, and takes all.
pub const PLAIN: Wire = Wire {
    number: 0,
    records: &[],
    text: b"",
    piece: 520,
    rests: false,
    ends: false,
    writes: 0,
    first: 0,
    most: 0,
    pauses: false,
};

/// What a port gives, piece by piece.
fn reads(alloc: Global, wire: &Wire, bytes: &[u8]) -> Result<Vec<ReadAnswer>, Fail> {
    let mut answers = Vec::new(alloc);
    for piece in bytes.chunks(wire.piece.max(1)) {
        answers.push(ReadAnswer::Piece(piece.to_vec(alloc)?))?;
        if wire.rests {
            answers.push(ReadAnswer::Later)?;
        }
    }
    if wire.ends {
        answers.push(ReadAnswer::Closed)?;
    }
    Ok(answers)
}

/// How much it takes, write by write.
fn writes(alloc: Global, wire: &Wire) -> Result<Vec<WriteAnswer>, Fail> {
    let mut answers = Vec::new(alloc);
    for number in 0..wire.writes {
        let most = if number == 0 { wire.first } else { wire.most };
        answers.push(WriteAnswer::Upto(most))?;
        if wire.pauses {
            answers.push(WriteAnswer::Later)?;
        }
    }
    Ok(answers)
}

/// The script of a port that gives these bytes.
pub fn script_of(alloc: Global, wire: &Wire, bytes: &[u8]) -> Result<PortScript, Fail> {
    let reads = reads(alloc, wire, bytes)?;
    Ok(PortScript::new(wire.number, reads, writes(alloc, wire)?))
}

/// The script of a port.
fn script(alloc: Global, wire: &Wire) -> Result<PortScript, Fail> {
    let mut bytes = records(alloc, wire.records)?;
    bytes.extend_from_slice(wire.text)?;
    script_of(alloc, wire, bytes.as_slice())
}

/// The scripts of some ports.
pub fn scripts(alloc: Global, wires: &[Wire]) -> Result<Vec<PortScript>, Fail> {
    let mut all = Vec::new(alloc);
    for wire in wires {
        all.push(script(alloc, wire)?)?;
    }
    Ok(all)
}

/// Ports at which these rows happen.
pub fn ports(alloc: Global, rows: &[Row], wires: &[Wire]) -> Result<MemoryPorts, Fail> {
    let script = Script::new(happenings(alloc, rows)?, scripts(alloc, wires)?);
    Ok(MemoryPorts::new(alloc, script))
}

/// A loop over the three stations, at whose ports these rows happen.
pub fn looped(alloc: Global, rows: &[Row], wires: &[Wire]) -> Result<Loop<MemoryPorts>, Fail> {
    let ports = ports(alloc, rows, wires)?;
    Ok(Loop::new(alloc, Config::read(alloc, CENTRE)?, ports)?)
}
