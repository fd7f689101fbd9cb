//! Random scripts of ports: the loop does with them what a plain loop does.
use self::plain_loop::{PORTS, PlainLoop, SLIPS, Seen, Slip};
use self::scripts::{Finds, Happens, Line, Scene, Takes};
use catalog::Config;
use event_loop::Loop;
use memory_ports::{FailingPorts, MemoryPorts, PortScript, ReadAnswer, Script, WriteAnswer};
use oracle_server::sites::address;
use ports::Happening;
use std::alloc::Global;
use std::test::Fail;

mod maker;
mod plain_loop;
mod plain_ports;
mod scripts;

const SEED: u64 = 20_261_124;

/// How many scripts there are.
const SCRIPTS: u64 = 4_000;

/// How many of the first ones notice each slip.
const NOTICING: u64 = 1_500;

fn happening(happens: Happens) -> Happening {
    match happens {
        Happens::Joins(port, place) => Happening::Joined(port, address(place)),
        Happens::FeedJoins(port) => Happening::JoinedFeed(port),
        Happens::MayBeRead(port) => Happening::Readable(port),
        Happens::MayBeWritten(port) => Happening::Writable(port),
        Happens::Quiet => Happening::Quiet,
    }
}

fn read_answer(alloc: Global, finds: &Finds) -> Result<ReadAnswer, Fail> {
    Ok(match finds {
        Finds::Bytes(bytes) => ReadAnswer::Piece(bytes.as_slice().to_vec(alloc)?),
        Finds::Later => ReadAnswer::Later,
        Finds::TheEnd => ReadAnswer::Closed,
        Finds::Failure => ReadAnswer::Fail,
    })
}

fn write_answer(takes: Takes) -> WriteAnswer {
    match takes {
        Takes::Upto(most) => WriteAnswer::Upto(most),
        Takes::Later => WriteAnswer::Later,
        Takes::Failure => WriteAnswer::Fail,
    }
}

/// What a port is to answer.
fn port_script(alloc: Global, lines: &[Line], number: u64) -> Result<PortScript, Fail> {
    let mut reads = Vec::new(alloc);
    let mut writes = Vec::new(alloc);
    for line in lines {
        match line {
            Line::Reads(port, finds) if *port == number => reads.push(read_answer(alloc, finds)?)?,
            Line::Writes(port, takes) if *port == number => writes.push(write_answer(*takes))?,
            _ => {}
        }
    }
    Ok(PortScript::new(number, reads, writes))
}

/// The loop over ports that follow the script of a scene.
fn looped(alloc: Global, scene: &Scene) -> Result<Loop<FailingPorts<MemoryPorts>>, Fail> {
    let lines = scene.lines.as_slice();
    let mut happenings = Vec::new(alloc);
    for line in lines {
        if let Line::Happens(happens) = line {
            happenings.push(happening(*happens))?;
        }
    }
    let mut scripts = Vec::new(alloc);
    for number in 0..maker::PORTS {
        scripts.push(port_script(alloc, lines, number)?)?;
    }
    let ports = MemoryPorts::new(alloc, Script::new(happenings, scripts));
    let failing = FailingPorts::new(alloc, ports, scene.due);
    let text = maker::text_of(alloc, scene)?;
    Ok(Loop::new(alloc, Config::read(alloc, text.as_slice())?, failing)?)
}

/// What is seen of a turn of the loop.
fn turn(all: &mut Loop<FailingPorts<MemoryPorts>>, limit: usize) -> Seen {
    let mut seen = Seen {
        has_failed: true,
        happenings: 0,
        quiet: false,
        refused: 0,
        clients: 0,
        feeds: 0,
    };
    if let Ok(turned) = all.turn(limit) {
        seen.has_failed = false;
        seen.happenings = turned.happenings;
        seen.quiet = turned.quiet;
        seen.refused = turned.refused;
    }
    seen.clients = all.clients();
    seen.feeds = all.feeds();
    seen
}

/// Whether a port gave, took and became the same.
fn is_same_port(
    alloc: Global,
    all: &Loop<FailingPorts<MemoryPorts>>,
    plain: &mut PlainLoop,
    number: u64,
) -> Result<bool, Fail> {
    let record = all.ports().record(alloc, number)?;
    let port = plain.ports.port(number)?;
    Ok(
        record.is_shut == port.is_shut
            && record.taken.as_slice() == port.taken.as_slice()
            && record.given.as_slice() == port.given.as_slice(),
    )
}

/// Whether both loops do the same in all turns of a scene.
fn turn_alike(
    scene: &Scene,
    all: &mut Loop<FailingPorts<MemoryPorts>>,
    plain: &mut PlainLoop,
) -> Result<bool, Fail> {
    for _ in 0..scene.turns {
        let seen = plain.turn(scene.arrivals.as_slice())?;
        if turn(all, scene.limit) != seen {
            return Ok(false);
        }
    }
    Ok(true)
}

/// Whether all ports gave, took and became the same.
fn have_same_ports(
    alloc: Global,
    all: &Loop<FailingPorts<MemoryPorts>>,
    plain: &mut PlainLoop,
) -> Result<bool, Fail> {
    for number in 0..PORTS {
        if !is_same_port(alloc, all, plain, number)? {
            return Ok(false);
        }
    }
    Ok(true)
}

/// Whether a plain loop does in a scene what the loop does.
fn agrees_with(
    alloc: Global,
    scene: &Scene,
    slip: Slip,
    all: &mut Loop<FailingPorts<MemoryPorts>>,
) -> Result<bool, Fail> {
    let mut plain = PlainLoop::new(alloc, scene, slip)?;
    Ok(turn_alike(scene, all, &mut plain)? && have_same_ports(alloc, all, &mut plain)?)
}

/// Whether both loops do the same in a scene.
fn agree(alloc: Global, scene: &Scene, slip: Slip) -> Result<bool, Fail> {
    let mut all = looped(alloc, scene)?;
    agrees_with(alloc, scene, slip, &mut all)
}

/// The first of so many scenes in which the loops differ.
fn first_difference(alloc: Global, scenes: u64, slip: Slip) -> Result<Option<u64>, Fail> {
    for number in 0..scenes {
        let scene = maker::scene(alloc, SEED, number)?;
        if !agree(alloc, &scene, slip)? {
            return Ok(Some(number));
        }
    }
    Ok(None)
}

#[test]
fn the_loop_does_what_a_plain_loop_does(rt: HostRuntime) -> Result<(), Fail> {
    assert_eq!(rt; first_difference(rt.alloc(), SCRIPTS, Slip::Nothing)?, None);
    Ok(())
}

#[test]
fn each_slip_is_noticed(rt: HostRuntime) -> Result<(), Fail> {
    for (place, slip) in SLIPS.iter().enumerate() {
        let first = first_difference(rt.alloc(), NOTICING, *slip)?;
        assert!(rt; first.is_some(), "slip {place}");
    }
    Ok(())
}
