//! A server over ports, turn after turn.
//!
//! Failed turns in a row are counted anew when the configuration is read again, and not at a report: a run is made of
//! blocks between two readings of the configuration, of which each may end with 40 by itself.
ghost use Rattle.std.specs.Prelude.{◌≡◌, ◌≤◌, ◌+◌, ◌<◌, OnErr, OnOk};
ghost use Rattle.protocol.specs.Catalog.{Config as ProtocolConfig};
ghost use Rattle.protocol.specs.World.{World};
ghost use Rattle.station_ring.specs.Levels.{raises_after};
ghost use Rattle.server_core.specs.ServerValues.{StandsAt};
ghost use Rattle.event_loop.specs.Hearing.{clients_in, feeds_in};
ghost use Rattle.serving.specs.Runs.{Ran, GaveUp, RanBlock, GaveUpBlock, KeepsIf, KeepsNow, OneTurn, SomeReread};
ghost use Rattle.serving.specs.Runs.{FindsDue, SomeStop};
ghost use Rattle.serving.specs.Timetables.{failures_kept, is_keep_due, turns_of};

use crate::activity::Activity;
use crate::ahead::NumbersAhead;
use crate::between::{Between, Due, NothingBetween, Refusal};
use crate::timetable::Timetable;
use event_loop::{Loop, LoopFault};
use ports::Ports;

/// How many happenings, and how many reads and writes of a port, a turn has at most.
const LIMIT: usize = 64;

/// How many turns in a row may fail.
const FAILURES: u8 = 16;

/// Has a server go on for a turn, after so many that failed in a row. Answers how many have failed in a row by then.
fn one_turn<P: Ports>(server: &mut Loop<P>, failures: u8) -> u8
    requires { failures < 16 }
    ensures turn { (config : ProtocolConfig) (w : World) → StandsAt server.old.server config w →
        OneTurn failures result config w server.old server.new }
    ensures max_clients { server.new.max_clients ≡ server.old.max_clients }
    ensures few_clients { clients_in server.new.seats ≤ server.new.max_clients }
    ensures few_feeds { feeds_in server.new.seats ≤ 16 }
    ensures count { result ≤ failures + 1 }
{
    match server.turn(LIMIT) {
        Ok(_) => 0,
        Err(_) => failures + 1,
    }
}

/// Asks for the configuration, if that is due, and gives it to the server if it is another one. A refusal is handed on.
fn reread<P: Ports, B: Between>(server: &mut Loop<P>, between: &mut B, due: bool)
    ensures rereads { (config : ProtocolConfig) (w : World) → StandsAt server.old.server config w →
        SomeReread due config w server.old (B.asked between.old) server.new
        (B.asked between.new) }
    ensures seats { server.new.seats ≡ server.old.seats }
    ensures max_clients { server.new.max_clients ≡ server.old.max_clients }
{
    if !due {
        return;
    }
    match between.configuration() {
        Ok(Some(config)) => match server.reload(config) {
            Ok(()) => {}
            Err(_) => between.refused(Refusal::Different),
        },
        Ok(None) => {}
        Err(fault) => between.refused(Refusal::Unread(fault)),
    }
}

/// Has the numbers of the stations kept, which last were at these levels of the stations together. Answers at which
/// levels they were kept last now: a fault is handed on, and leaves them.
fn keep_now<P: Ports, B: Between>(server: &Loop<P>, between: &mut B, kept: u64) -> u64
    ensures { (config : ProtocolConfig) (w : World) → StandsAt server.now.server config w →
        KeepsNow config w kept (B.asked between.old) result (B.asked between.new) }
{
    let rings = server.rings();
    match between.keep(&NumbersAhead::of(rings)) {
        Ok(()) => rings.raises(),
        Err(fault) => {
            between.refused(Refusal::Unkept(fault));
            kept
        }
    }
}

/// Has the numbers of the stations kept, if that is due, which last were at these levels of the stations together.
/// Answers at which levels they were kept last now.
fn keep<P: Ports, B: Between>(
    server: &Loop<P>,
    between: &mut B,
    timetable: &Timetable,
    kept: u64,
) -> u64
    ensures { (config : ProtocolConfig) (w : World) → StandsAt server.now.server config w →
        KeepsIf (is_keep_due timetable.now kept (raises_after config w.history)) config w kept
        (B.asked between.old) result (B.asked between.new) }
{
    if !timetable.keeps(kept, server.rings().raises()) {
        return kept;
    }
    keep_now(server, between, kept)
}

/// What is due after so many turns: by their number and, if the timetable says that it is asked for, by time.
fn due_after<B: Between>(between: &mut B, timetable: &Timetable, done: u64) -> Due
    ensures { FindsDue timetable.now done (B.asked between.old) result (B.asked between.new) }
{
    let by_time = if timetable.is_timed() {
        between.due()
    } else {
        Due {
            reread: false,
            report: false,
        }
    };
    timetable.due_after(done, by_time)
}

/// What a stop between two turns leaves.
#[derive(Clone, Copy, Drop)]
pub struct Stopped {
    /// The levels of the stations, together, when their numbers were kept last.
    pub kept: u64,
    /// The configuration was asked for.
    pub reread: bool,
}

/// Does what is due after so many turns, where the numbers were kept last at these levels of the stations.
fn act<P: Ports, B: Between>(
    server: &mut Loop<P>,
    between: &mut B,
    timetable: &Timetable,
    done: u64,
    kept: u64,
) -> Stopped
    ensures stops { (config : ProtocolConfig) (w : World) → StandsAt server.old.server config w →
        SomeStop timetable.now done config w server.old kept (B.asked between.old) server.new result
        (B.asked between.new) }
    ensures seats { server.new.seats ≡ server.old.seats }
    ensures max_clients { server.new.max_clients ≡ server.old.max_clients }
{
    let due = due_after(between, timetable, done);
    let kept = keep(server, between, timetable, kept);
    reread(server, between, due.reread);
    if due.report {
        between.report(Activity::of(server));
    }
    Stopped {
        kept,
        reread: due.reread,
    }
}

/// Does what is to be done after so many turns, where the numbers were kept last at these levels of the stations: what
/// is due, and then the server is lent to whoever watches it.
fn stop<P: Ports, B: Between>(
    server: &mut Loop<P>,
    between: &mut B,
    timetable: &Timetable,
    done: u64,
    kept: u64,
) -> Stopped
    ensures stops { (config : ProtocolConfig) (w : World) → StandsAt server.old.server config w →
        SomeStop timetable.now done config w server.old kept (B.asked between.old) server.new result
        (B.asked between.new) }
    ensures seats { server.new.seats ≡ server.old.seats }
    ensures max_clients { server.new.max_clients ≡ server.old.max_clients }
{
    let stopped = act(server, between, timetable, done, kept);
    between.watch(server);
    stopped
}

/// How many failed turns in a row still count after a stop: none if the configuration was asked for.
fn failures_kept(reread: bool, failures: u8) -> u8
    ensures value { result ≡ failures_kept reread failures }
    ensures few { result ≤ failures }
{
    if reread { 0 } else { failures }
}

/// Has a server go on until the turns of its timetable are done, and does between them what the timetable says. A turn
/// that fails is passed over; it ends early, with 40, only if sixteen turns in a row fail, which are counted anew once
/// the configuration was read again. What was done until then stands, and a further run goes on. The numbers of the
/// stations count as kept when it begins. Memory is needed if a port joins, and for what is asked between turns; what
/// else the loop and its ports allocate they can do without.
pub fn run<P: Ports, B: Between>(
    server: &mut Loop<P>,
    between: &mut B,
    timetable: Timetable,
) -> Result<(), LoopFault>
    ensures ran { OnOk result ((config : ProtocolConfig) (w : World) → StandsAt server.old.server config w →
        Ran timetable config w server.old (B.asked between.old) server.new
        (B.asked between.new)) }
    ensures gave_up { OnErr result ((config : ProtocolConfig) (w : World) → StandsAt server.old.server config w →
        GaveUp timetable config w server.old (B.asked between.old) server.new
        (B.asked between.new)) }
    ensures sixteen { OnErr result (16 ≤ turns_of timetable) }
    ensures few_clients { clients_in server.old.seats ≤ server.old.max_clients →
        clients_in server.new.seats ≤ server.new.max_clients }
    ensures few_feeds { feeds_in server.old.seats ≤ 16 → feeds_in server.new.seats ≤ 16 }
    ensures max_clients { server.new.max_clients ≡ server.old.max_clients }
{
    let turns = timetable.total();
    let mut done = 0u64;
    let mut failures = 0u8;
    let mut kept = server.rings().raises();
    'going: while done < turns {
        let failed = one_turn(server, failures);
        if failed >= FAILURES {
            return Err(LoopFault);
        }
        done += 1;
        let stopped = stop(server, between, &timetable, done, kept);
        kept = stopped.kept;
        failures = failures_kept(stopped.reread, failed);
    }
    Ok(())
}

/// Has a server go on for so many turns, with nothing between them, as `run` does.
pub fn serve_block<P: Ports>(server: &mut Loop<P>, turns: u64) -> Result<(), LoopFault>
    ensures ran { OnOk result ((config : ProtocolConfig) (w : World) → StandsAt server.old.server config w →
        RanBlock turns config w server.old server.new) }
    ensures gave_up { OnErr result ((config : ProtocolConfig) (w : World) → StandsAt server.old.server config w →
        GaveUpBlock turns config w server.old server.new) }
    ensures sixteen { OnErr result (16 ≤ turns) }
    ensures few_clients { clients_in server.old.seats ≤ server.old.max_clients →
        clients_in server.new.seats ≤ server.new.max_clients }
    ensures few_feeds { feeds_in server.old.seats ≤ 16 → feeds_in server.new.seats ≤ 16 }
    ensures max_clients { server.new.max_clients ≡ server.old.max_clients }
{
    run(server, &mut NothingBetween, Timetable::of_turns(turns))
}
