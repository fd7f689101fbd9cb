//! What came of a client's negotiation is said to the ports, right after the call of the server that read it.
//!
//! Nothing is said, and the server is not asked, if nobody hears it (`Ports::listens`): ports over sockets alone answer
//! that without a look at anything, so that a server without a log spends no instruction on it.
ghost use Rattle.std.specs.Prelude.{◌≡◌, ◌<◌, ◌≤◌, [], ◌∷◌, Ok, Some, length, option_map, slice_get, is_ok, is_some};
ghost use Rattle.std.specs.Result.{result_ok};
ghost use Rattle.protocol.specs.Catalog.{Config as ProtocolConfig};
ghost use Rattle.protocol.specs.Client.{offered};
ghost use Rattle.protocol.specs.World.{World, client_of, step};
ghost use Rattle.protocol.specs.World.Event.{Bytes, Take};
ghost use Rattle.catalog.specs.Places.{station_at};
ghost use Rattle.ports.specs.Decisions.{Decides};
ghost use Rattle.server_core.specs.Marks.{LeavesOthers};
ghost use Rattle.server_core.specs.Refusals.{offer_of};
ghost use Rattle.server_core.specs.ServerValues.{MayTake, StandsAt, news_at};
ghost use Rattle.event_loop.specs.Telling.{HasTold, TellsNews, codes_of, begin_said, mode_of, news_said};
ghost use Rattle.event_loop.specs.Telling.{place_codes, request_said, requests_said};

use catalog::Config;
use ports::{AskedCodes, Decision, Mode, Ports};
use server_core::{Client, Gone, Offer, Server};
use session_state::{Action, AskedStation, Entry, News};

/// The codes of a station that was asked for, for the ports.
fn codes_of(asked: AskedStation) -> AskedCodes
    ensures { result ≡ codes_of asked }
{
    let station = asked.station;
    let network = asked.network;
    AskedCodes { station, network }
}

/// The codes of the station at a place of the configuration.
pub fn place_codes(config: &Config, place: usize) -> AskedCodes
    ensures { result ≡ place_codes config.now place }
{
    match config.stations().get(place) {
        Some(station) => codes_of(AskedStation::of(station.code(), Some(station.network()))),
        None => codes_of(AskedStation::of(b"", Some(b""))),
    }
}

/// What is asked of a station, without numbers and times.
fn mode_of(action: Action) -> Mode
    ensures { result ≡ mode_of action }
{
    match action {
        Action::Data { .. } => Mode::Data,
        Action::Fetch { .. } => Mode::Fetch,
        Action::Time { .. } => Mode::Time,
    }
}

/// It is said that a client's transfer is to have records of a station that it named, if something is asked of that.
fn tell_request<P: Ports>(config: &Config, ports: &mut P, port: u64, entry: &Entry)
    ensures calls { P.calls ports.new ≡ P.calls ports.old }
    ensures failures { P.failures ports.new ≡ P.failures ports.old }
    ensures decides { Decides (P.decided ports.old) (P.decided ports.new) (request_said config.now port entry.now) }
{
    match entry.action.to_option() {
        Some(action) => {
            let codes = place_codes(config, entry.station);
            ports.tell(port, Decision::Reads(codes, mode_of(action)));
        }
        None => {}
    }
}

/// The same of each of them, in order.
fn tell_requests<P: Ports>(config: &Config, ports: &mut P, port: u64, entries: &[Entry])
    ensures calls { P.calls ports.new ≡ P.calls ports.old }
    ensures failures { P.failures ports.new ≡ P.failures ports.old }
    ensures decides { Decides (P.decided ports.old) (P.decided ports.new)
        (requests_said config.now port entries.now) }
{
    for entry in entries {
        tell_request(config, ports, port, entry);
    }
}

/// It is said that a client's transfer begins, and before that of which stations it is to have records.
fn tell_begin<P: Ports>(server: &Server, ports: &mut P, port: u64, client: &Client)
    ensures calls { P.calls ports.new ≡ P.calls ports.old }
    ensures failures { P.failures ports.new ≡ P.failures ports.old }
    ensures decides { Decides (P.decided ports.old) (P.decided ports.new) (begin_said server.now port client.now) }
{
    if let Some(session) = server.session(client) {
        tell_requests(server.config(), ports, port, session.choices());
    }
    ports.tell(port, Decision::Begins);
}

/// What there is to tell of a client's negotiation is said of its port, and is told with that.
pub fn tell_news<P: Ports>(server: &mut Server, ports: &mut P, port: u64, client: &Client)
    ensures calls { P.calls ports.new ≡ P.calls ports.old }
    ensures failures { P.failures ports.new ≡ P.failures ports.old }
    ensures decides { Decides (P.decided ports.old) (P.decided ports.new)
        (news_said server.new port client.now (news_at server.old client.now)) }
    ensures taken { news_at server.new client.now ≡ None }
    ensures stands { (config : ProtocolConfig) (w : World) → StandsAt server.old config w →
        StandsAt server.new config w }
    ensures others { LeavesOthers client.now server.old server.new }
{
    match server.take_news(client) {
        None => {}
        Some(News::NoStation(asked)) => ports.tell(port, Decision::NoStation(codes_of(asked))),
        Some(News::Begins) => tell_begin(server, ports, port, client),
    }
}

/// The same if anybody hears it, and else nothing is said and nothing asked.
fn tell_if_heard<P: Ports>(server: &mut Server, ports: &mut P, port: u64, client: &Client)
    ensures calls { P.calls ports.new ≡ P.calls ports.old }
    ensures failures { P.failures ports.new ≡ P.failures ports.old }
    ensures decides { TellsNews (P.listening ports.old) server.old server.new port client.now
        (P.decided ports.old) (P.decided ports.new) }
    ensures stands { (config : ProtocolConfig) (w : World) → StandsAt server.old config w →
        StandsAt server.new config w }
    ensures others { LeavesOthers client.now server.old server.new }
{
    if ports.listens() {
        tell_news(server, ports, port, client);
    }
}

/// Bytes come from a client, and what comes of its negotiation is said if anybody hears it.
pub fn receive<P: Ports>(
    server: &mut Server,
    ports: &mut P,
    port: u64,
    client: &Client,
    bytes: &[u8],
)
    ensures calls { P.calls ports.new ≡ P.calls ports.old }
    ensures failures { P.failures ports.new ≡ P.failures ports.old }
    ensures stands { (config : ProtocolConfig) (w : World) → StandsAt server.old config w →
        StandsAt server.new config (step config w (Bytes client.now bytes.now)) }
    ensures others { LeavesOthers client.now server.old server.new }
    ensures decides { HasTold (P.listening ports.old) server.new port client.now
        (P.decided ports.old) (P.decided ports.new) }
{
    let _ = server.receive(client, bytes);
    tell_if_heard(server, ports, port, client);
}

/// The first bytes that wait for a client, 1 to all of them, were handed, and what comes of its negotiation is said if
/// anybody hears it.
pub fn took<P: Ports>(server: &mut Server, ports: &mut P, port: u64, client: &Client, count: usize)
    requires { MayTake server.old client.now count }
    ensures calls { P.calls ports.new ≡ P.calls ports.old }
    ensures failures { P.failures ports.new ≡ P.failures ports.old }
    ensures stands { (config : ProtocolConfig) (w : World) → StandsAt server.old config w →
        StandsAt server.new config (step config w (Take client.now count)) }
    ensures others { LeavesOthers client.now server.old server.new }
    ensures decides { HasTold (P.listening ports.old) server.new port client.now
        (P.decided ports.old) (P.decided ports.new) }
{
    let _ = server.took(client, count);
    tell_if_heard(server, ports, port, client);
}

/// The same, and what comes next is made to wait. It answers what was found.
pub fn go_on<P: Ports>(
    server: &mut Server,
    ports: &mut P,
    port: u64,
    client: &Client,
    count: usize,
) -> Result<Offer, Gone>
    requires { MayTake server.old client.now count }
    ensures calls { P.calls ports.new ≡ P.calls ports.old }
    ensures failures { P.failures ports.new ≡ P.failures ports.old }
    ensures stands { (config : ProtocolConfig) (w : World) → StandsAt server.old config w →
        StandsAt server.new config (step config (step config w (Take client.now count)) (Take client.now 0)) }
    ensures answer { (config : ProtocolConfig) (w : World) → StandsAt server.old config w →
        result_ok result ≡ option_map (λ c. offer_of (offered w.history c))
        (client_of (slice_get (step config w (Take client.now count)).connections client.now)) }
    ensures others { LeavesOthers client.now server.old server.new }
    ensures decides { HasTold (P.listening ports.old) server.new port client.now
        (P.decided ports.old) (P.decided ports.new) }
{
    let found = server.go_on(client, count);
    tell_if_heard(server, ports, port, client);
    found
}
