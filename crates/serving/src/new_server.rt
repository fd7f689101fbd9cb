//! A new server, until its turns are over.
ghost use Rattle.std.specs.Prelude.{◌≡◌, ◌≢◌, IfOk, IfErr, OnErr, OnOk};
ghost use Rattle.protocol.specs.Catalog.{Config as ProtocolConfig};
ghost use Rattle.protocol.specs.World.{empty_world};
ghost use Rattle.server_core.specs.ServerValues.{StandsAt};
ghost use Rattle.serving.specs.declared.faults.ServeFault.TheVariants.{Numbers, OutOfMemory, Poll};
ghost use Rattle.serving.specs.Served.{Served, ServedBlock, Ended, EndedBlock, GaveUpNew, KeepsFirst, KeptNothing};
ghost use Rattle.serving.specs.Served.{RanNew};

use crate::ahead::NumbersAhead;
use crate::between::{Between, NothingBetween, Refusal};
use crate::faults::ServeFault;
use crate::running::run;
use crate::timetable::Timetable;
use catalog::Config;
use event_loop::Loop;
use ports::Ports;
use std::alloc::Global;

/// Has the numbers of a new server kept, if numbers are to be kept. A fault is handed on.
fn keep_first<P: Ports, B: Between>(
    server: &Loop<P>,
    between: &mut B,
    timetable: &Timetable,
) -> Result<(), ServeFault>
    ensures kept { OnOk result ((config : ProtocolConfig) → StandsAt server.now.server config empty_world →
        KeepsFirst timetable.now.keep config (B.asked between.old) (B.asked between.new)) }
    ensures unkept { OnErr result ((config : ProtocolConfig) → StandsAt server.now.server config empty_world →
        KeptNothing config (B.asked between.old) (B.asked between.new)) }
    ensures fault { IfErr result (λ fault. fault ≡ Numbers) }
{
    if !timetable.keep {
        return Ok(());
    }
    match between.keep(&NumbersAhead::of(server.rings())) {
        Ok(()) => Ok(()),
        Err(fault) => {
            between.refused(Refusal::Unkept(fault));
            Err(ServeFault::Numbers)
        }
    }
}

/// Runs a new server as the timetable says. If numbers are to be kept, they are kept before the first turn.
fn run_new<P: Ports, B: Between>(
    server: &mut Loop<P>,
    between: &mut B,
    timetable: Timetable,
) -> Result<(), ServeFault>
    ensures ran { OnOk result ((config : ProtocolConfig) → StandsAt server.old.server config empty_world →
        RanNew timetable config server.old (B.asked between.old) server.new (B.asked between.new)) }
    ensures ended { IfErr result (λ fault. fault ≡ Poll → (config : ProtocolConfig) →
        StandsAt server.old.server config empty_world →
        GaveUpNew timetable config server.old (B.asked between.old) server.new (B.asked between.new)) }
    ensures unkept { IfErr result (λ fault. fault ≡ Numbers → (config : ProtocolConfig) →
        StandsAt server.old.server config empty_world →
        KeptNothing config (B.asked between.old) (B.asked between.new)) }
    ensures memory { IfErr result (λ fault. fault ≢ OutOfMemory) }
{
    keep_first(server, between, &timetable)?;
    match run(server, between, timetable) {
        Ok(()) => Ok(()),
        Err(_) => Err(ServeFault::Poll),
    }
}

/// Runs a new server with that configuration over ports, as the timetable says, and gives the ports back. A turn that
/// fails is passed over; sixteen in a row end the server with 40. Without memory for the server it is 25, and nothing
/// was asked. If numbers are to be kept, they are kept before the first turn; if they can't be, that is handed on and
/// it is 49, and no turn was made.
pub fn serve_between<P: Ports + Drop, B: Between>(
    alloc: Global,
    config: Config,
    ports: P,
    between: &mut B,
    timetable: Timetable,
) -> Result<P, ServeFault>
    ensures served { IfOk result (λ left.
        Served timetable config (P.calls ports) (P.calls left) (B.asked between.old) (B.asked between.new)) }
    ensures ended { IfErr result (λ fault. fault ≡ Poll →
        Ended timetable config (P.calls ports) (B.asked between.old) (B.asked between.new)) }
    ensures no_memory { IfErr result (λ fault. fault ≡ OutOfMemory → between.new ≡ between.old) }
    ensures unkept { IfErr result (λ fault. fault ≡ Numbers →
        KeptNothing config (B.asked between.old) (B.asked between.new)) }
{
    let Ok(mut server) = Loop::new(alloc, config, ports) else {
        return Err(ServeFault::OutOfMemory);
    };
    run_new(&mut server, between, timetable)?;
    Ok(server.into_ports())
}

/// Runs a new server with that configuration over ports for so many turns, with nothing between them, and gives the
/// ports back. It ends early as `serve_between` does.
pub fn serve<P: Ports + Drop>(
    alloc: Global,
    config: Config,
    ports: P,
    turns: u64,
) -> Result<P, ServeFault>
    ensures served { IfOk result (λ left. ServedBlock turns config (P.calls ports) (P.calls left)) }
    ensures ended { IfErr result (λ fault. fault ≡ Poll → EndedBlock turns config (P.calls ports)) }
{
    serve_between(
        alloc,
        config,
        ports,
        &mut NothingBetween,
        Timetable::of_turns(turns),
    )
}
