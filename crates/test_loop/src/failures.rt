//! A loop of whose ports one call fails, each call in turn: what it costs is that port alone.
use super::runs::ports;
use catalog::Config;
use event_loop::Loop;
use memory_ports::{FailingPorts, MemoryPorts};
use scenes::{BYTES, SCENES, Scene};
use std::alloc::Global;
use std::test::Fail;
use test_centre::CENTRE;

mod scenes;

/// How many happenings are heard and how many calls are made in a pass at most.
const LIMIT: usize = 3000;

/// What became of a port.
#[derive(Drop)]
struct Ending {
    taken: Vec<u8>,
    is_shut: bool,
}

/// What became of a run.
#[derive(Drop)]
struct Outcome {
    endings: Vec<Ending>,
    /// How many turns could not hear what happened.
    faults: usize,
    /// Whether the call that was to fail was made.
    has_failed: bool,
}

/// The loop of a scene over ports of which the `due`-th call fails.
fn failing(
    alloc: Global,
    scene: &Scene,
    due: u64,
) -> Result<Loop<FailingPorts<MemoryPorts>>, Fail> {
    let rows = scene.rows(alloc)?;
    let ports = ports(alloc, rows.as_slice(), scene.wires)?;
    let failing = FailingPorts::new(alloc, ports, due);
    Ok(Loop::new(alloc, Config::read(alloc, CENTRE)?, failing)?)
}

/// How many of some turns could not hear what happened.
fn faults(all: &mut Loop<FailingPorts<MemoryPorts>>, turns: usize) -> usize {
    let mut count: usize = 0;
    for _ in 0..turns {
        if all.turn(LIMIT).is_err() {
            count = count.saturating_add(1);
        }
    }
    count
}

/// What became of each port.
fn endings(
    alloc: Global,
    all: &Loop<FailingPorts<MemoryPorts>>,
    scene: &Scene,
) -> Result<Vec<Ending>, Fail> {
    let mut endings = Vec::new(alloc);
    for wire in scene.wires {
        let record = all.ports().record(alloc, wire.number)?;
        endings.push(Ending {
            taken: record.taken,
            is_shut: record.is_shut,
        })?;
    }
    Ok(endings)
}

/// What becomes of a scene at that loop.
fn outcome_at(
    alloc: Global,
    scene: &Scene,
    all: &mut Loop<FailingPorts<MemoryPorts>>,
) -> Result<Outcome, Fail> {
    let faults = faults(all, scene.turns);
    Ok(Outcome {
        endings: endings(alloc, all, scene)?,
        faults,
        has_failed: all.ports().has_failed(),
    })
}

/// What becomes of a scene where the `due`-th call fails.
fn run_with(alloc: Global, scene: &Scene, due: u64) -> Result<Outcome, Fail> {
    let mut all = failing(alloc, scene, due)?;
    outcome_at(alloc, scene, &mut all)
}

/// Whether a port took what it took without the failure, and is open.
fn is_untouched(one: &Ending, whole: &Ending) -> bool {
    !one.is_shut && one.taken.as_slice() == whole.taken.as_slice()
}

/// Whether a port was shut, and took a beginning of what it took without the failure.
fn is_cut_off(one: &Ending, whole: &Ending) -> bool {
    one.is_shut && whole.taken.as_slice().starts_with(one.taken.as_slice())
}

/// How many ports were cut off, where all others are untouched.
fn cut_off(outcome: &Outcome, whole: &Outcome) -> Option<usize> {
    let mut count: usize = 0;
    for (one, other) in outcome.endings.iter().zip(whole.endings.iter()) {
        if is_cut_off(one, other) {
            count = count.saturating_add(1);
        } else if !is_untouched(one, other) {
            return None;
        }
    }
    Some(count)
}

/// Whether the port of the feed, which is the last, was shut, so that its records came no further, and each client has
/// a beginning of what it was to have.
fn lost_its_feed(outcome: &Outcome, whole: &Outcome) -> bool {
    let mut feed_is_shut = false;
    for (one, other) in outcome.endings.iter().zip(whole.endings.iter()) {
        if !other.taken.as_slice().starts_with(one.taken.as_slice()) {
            return false;
        }
        feed_is_shut = one.is_shut;
    }
    feed_is_shut
}

/// Whether a failure cost one turn its hearing and nothing else, or one client's port, or the feed's.
fn costs_one_port(scene: &Scene, outcome: &Outcome, whole: &Outcome) -> bool {
    match (outcome.faults, cut_off(outcome, whole)) {
        (1, Some(0)) => true,
        (0, Some(1)) => true,
        (0, None) => scene.has_feed && lost_its_feed(outcome, whole),
        _ => false,
    }
}

/// Whether without a failure each port takes as many bytes as the scene says, and none is shut.
fn is_whole(scene: &Scene, whole: &Outcome) -> bool {
    for (one, length) in whole.endings.iter().zip(scene.lengths) {
        if one.is_shut || one.taken.len() != *length {
            return false;
        }
    }
    whole.faults == 0 && whole.endings.len() == scene.lengths.len()
}

/// The first call of a scene whose failure costs more than its port, and how many calls were tried.
fn first_that_costs_more(
    alloc: Global,
    scene: &Scene,
    whole: &Outcome,
) -> Result<(Option<u64>, u64), Fail> {
    for due in 1..10_000 {
        let tried = run_with(alloc, scene, due)?;
        if !tried.has_failed {
            return Ok((None, due));
        }
        if !costs_one_port(scene, &tried, whole) {
            return Ok((Some(due), due));
        }
    }
    Ok((None, 0))
}

/// Whether all is taken without a failure, and each call of a scene that fails costs no more than its port.
fn is_right(alloc: Global, scene: &Scene) -> Result<bool, Fail> {
    let whole = run_with(alloc, scene, 0)?;
    if !is_whole(scene, &whole) {
        return Ok(false);
    }
    let (more, tried) = first_that_costs_more(alloc, scene, &whole)?;
    Ok(more.is_none() && tried > scene.least)
}

#[test]
fn a_call_that_fails_costs_its_port_alone(rt: HostRuntime) -> Result<(), Fail> {
    for (row, scene) in SCENES.iter().enumerate() {
        assert!(rt; is_right(rt.alloc(), scene)?, "scene {row}");
    }
    Ok(())
}

#[test]
fn so_it_is_where_each_write_takes_one_byte(rt: HostRuntime) -> Result<(), Fail> {
    assert!(rt; is_right(rt.alloc(), &BYTES)?);
    Ok(())
}
