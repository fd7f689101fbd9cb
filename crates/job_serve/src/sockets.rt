//! A server over sockets: its files are opened, its ports are listened on, it runs, and what was not sent yet is sent.
ghost use Rattle.std.specs.Prelude.{◌≡◌, ◌≤◌, ◌+◌, [], IfOk};

use crate::counts::SharedCounts;
use crate::in_force::ConfigSum;
use crate::listening::unlistened_for;
use crate::opening::{Served, ServerDoors, doors_of, is_start_told, served_by};
use crate::operator::{ServeRequest, no_memory, serve_by};
use crate::starting::StartLine;
use crate::status::{StatusDesk, listen_for_status};
use crate::visits::{SharedLines, VisitLines};
use error_lines::StandardError;
use incidents::Incident;
use job_base::ServerAddress;
use ports_logged::LoggedPorts;
use ports_socket::{Admission, MioPorts};
use protocol::limits::FEEDS;
use status_ports::StatusPorts;
use std::alloc::AllocError;
use std::net::Ipv4Addr;

/// What a server listens on.
#[derive(Drop)]
struct Listening<'a> {
    clients: ServerAddress<'a>,
    feeds: ServerAddress<'a>,
    ports: MioPorts,
    /// The status port, if there is one, and its address.
    status: Option<Box<StatusPorts>>,
    status_address: Option<Ipv4Addr>,
}

/// Listens for clients and for feeds, of which those are taken that are admitted, and for whoever asks for the status.
fn listen<'a>(rt: &HostRuntime, doors: ServerDoors<'a>) -> Result<Listening<'a>, Incident<'a>>
    ensures { IfOk result (λ listening. listening.ports.sockets.peers
        ≡ record { admission = doors.entry.admission; joined = 0; opened = [] }) }
{
    let ServerDoors {
        clients,
        feeds,
        admission,
        status,
    } = doors;
    let ports = ports_at(rt, clients, feeds, admission)?;
    let status_address = match &status {
        Some(door) => Some(door.address()),
        None => None,
    };
    let status = listen_for_status(rt, status)?;
    Ok(Listening {
        clients,
        feeds,
        ports,
        status,
        status_address,
    })
}

/// Ports at two addresses.
fn ports_at<'a>(
    rt: &HostRuntime,
    clients: ServerAddress<'a>,
    feeds: ServerAddress<'a>,
    admission: Admission,
) -> Result<MioPorts, Incident<'a>>
    ensures { IfOk result (λ ports. ports.sockets.peers
        ≡ record { admission = admission; joined = 0; opened = [] }) }
{
    let for_clients = clients.endpoint.socket_address();
    let for_feeds = feeds.endpoint.socket_address();
    match MioPorts::listen_to(rt, rt.alloc(), for_clients, for_feeds, admission) {
        Ok(ports) => Ok(ports),
        Err(error) => Err(unlistened_for(clients, feeds, error)),
    }
}

/// Serves clients and feeds as the words say, and then sends what was not sent yet.
pub fn serve_sockets<'a>(rt: &HostRuntime, request: ServeRequest<'a>) -> Result<(), Incident<'a>> {
    let doors = doors_of(rt.alloc(), &request.options)?;
    match Box::new(
        rt.alloc(),
        served_by(rt, &request.options, request.is_verbose)?,
    ) {
        Ok(served) => serve_doors(rt, request, doors, served),
        Err(_) => Err(no_memory()),
    }
}

/// The same, where it is to be.
fn serve_doors<'a>(
    rt: &HostRuntime,
    request: ServeRequest<'a>,
    doors: ServerDoors<'a>,
    served: Box<Served<'a>>,
) -> Result<(), Incident<'a>> {
    let listening = listen(rt, doors)?;
    let lines = SharedLines::new(StandardError::open(rt));
    serve_at(rt, listening, request, served, &lines)
}

/// Serves at ports that are listened on, with lines to standard error, and then sends what was not sent yet.
fn serve_at<'a>(
    rt: &HostRuntime,
    listening: Listening<'a>,
    request: ServeRequest<'a>,
    served: Box<Served<'a>>,
    lines: &SharedLines,
) -> Result<(), Incident<'a>> {
    if is_start_told(&request.options) {
        lines.tell(start_line(&listening, &served));
    }
    if request.options.is_logged {
        lines.tell(ConfigSum::of(served.files.read.text()));
    }
    let Listening { ports, status, .. } = listening;
    match status {
        Some(status) => serve_watched(rt, ports, status, request, served, lines),
        None if request.options.is_logged => serve_logged(rt, ports, request, served, lines, None),
        None => serve_unlogged(rt, ports, request, served, lines),
    }
}

/// What is told of a server that starts: where it listens, also where the system chose the port.
fn start_line(listening: &Listening<'_>, served: &Served<'_>) -> StartLine {
    let (for_clients, for_feeds) = listening.ports.bound();
    StartLine {
        stations: served.config.stations().len(),
        open: served.open,
        clients: (listening.clients.endpoint.address, for_clients),
        feeds: (listening.feeds.endpoint.address, for_feeds),
        status: status_bound(listening),
    }
}

/// Where the status port listens, if there is one.
fn status_bound(listening: &Listening<'_>) -> Option<(Ipv4Addr, u16)> {
    let address = listening.status_address?;
    match listening.status.as_ref()?.port() {
        Ok(port) => Some((address, port)),
        Err(_) => None,
    }
}

/// Serves, and tells nobody who comes and goes.
fn serve_unlogged<'a>(
    rt: &HostRuntime,
    ports: MioPorts,
    request: ServeRequest<'a>,
    served: Box<Served<'a>>,
    lines: &SharedLines,
) -> Result<(), Incident<'a>> {
    let Served { config, files, .. } = Box::into_inner(served);
    let mut ports = serve_by(rt, request, config, files, ports, lines, None)?;
    ports.finish();
    Ok(())
}

/// Serves with a status port.
fn serve_watched<'a, 'l>(
    rt: &'l HostRuntime,
    ports: MioPorts,
    status: Box<StatusPorts>,
    request: ServeRequest<'a>,
    served: Box<Served<'a>>,
    lines: &'l SharedLines,
) -> Result<(), Incident<'a>> {
    let Ok(counts) = SharedCounts::new(rt.alloc()) else {
        return Err(no_memory());
    };
    let silent = request.options.silent;
    match StatusDesk::new(rt, rt.alloc(), status, &served, silent, &counts) {
        Ok(desk) => serve_logged(rt, ports, request, served, lines, Some(desk)),
        Err(_) => Err(no_memory()),
    }
}

/// Ports that tell who comes and goes, and how many records of each feed were refused: in lines, if there are any, and
/// in counts, if there are some.
fn ports_that_log<'l>(
    rt: &'l HostRuntime,
    most: usize,
    ports: MioPorts,
    lines: Option<&'l SharedLines>,
    counts: Option<&'l SharedCounts>,
) -> Result<LoggedPorts<MioPorts, VisitLines<'l>>, AllocError>
    requires { most ≤ 10000 }
    ensures inner { IfOk result (λ logged. logged.inner ≡ ports) }
    ensures room { IfOk result (λ logged. logged.visitors.room ≡ most + 16) }
{
    let journal = VisitLines::new(rt, rt.alloc(), most, lines, counts)?;
    LoggedPorts::new(rt.alloc(), ports, most + FEEDS, journal)
}

/// Serves, tells who comes and goes if that is wanted, and counts it for a status port if there is one.
fn serve_logged<'a, 'l>(
    rt: &'l HostRuntime,
    ports: MioPorts,
    request: ServeRequest<'a>,
    served: Box<Served<'a>>,
    lines: &'l SharedLines,
    status: Option<StatusDesk<'l>>,
) -> Result<(), Incident<'a>> {
    let counts = match &status {
        Some(desk) => Some(desk.counts()),
        None => None,
    };
    let log = if request.options.is_logged {
        Some(lines)
    } else {
        None
    };
    let most = served.config.max_connections();
    let Ok(logged) = ports_that_log(rt, most, ports, log, counts) else {
        return Err(no_memory());
    };
    let Served { config, files, .. } = Box::into_inner(served);
    let logged = serve_by(rt, request, config, files, logged, lines, status)?;
    let (mut ports, _journal) = logged.into_parts();
    ports.finish();
    Ok(())
}
