//! The loop: what happens at its ports, and each port's pass in turn.
//!
//! A client whose connection is over is closed once its port may be written to: a port that answered Later is not
//! offered anything before it is told writable again.
ghost use Rattle.std.specs.Prelude.{◌≡◌, ◌+◌, ◌<◌, ◌≤◌, ℕ, [], List, IfOk, MatchResult, OnErr, codes, is_ok, length};
ghost use Rattle.std.specs.Prelude.{◌≢◌, OnOk, drop, false, take, true};
ghost use Rattle.std.specs.declared.option.Option.{Option};
ghost use Rattle.protocol.specs.Catalog.{Config as ProtocolConfig, is_same_but_for_access};
ghost use Rattle.protocol.specs.World.{World, config_by, empty_world, step};
ghost use Rattle.protocol.specs.World.Event.{Reload};
ghost use Rattle.station_ring.specs.HeldRecords.{holdings_of};
ghost use Rattle.server_core.specs.ServerValues.{StandsAt};
ghost use Rattle.sl_io.specs.Counts.{IsMore};
ghost use Rattle.event_loop.specs.Decided.{cuts_in};
ghost use Rattle.event_loop.specs.Deeds.{Tally, refused_more};
ghost use Rattle.event_loop.specs.Feeding.{feed_tally};
ghost use Rattle.event_loop.specs.Going.{Whole, if_open};
ghost use Rattle.event_loop.specs.Hearing.{clients_in, feeds_in};
ghost use Rattle.event_loop.specs.Loops.{TurnMade, TurnFailed};
ghost use Rattle.event_loop.specs.Sleeping.{AreKept, LeavesRest, NoneArrived};
ghost use Rattle.event_loop.specs.Tables.{IsSameSeat, PassesAll, PassesSoFar};
ghost use Rattle.event_loop.specs.Turns.{SeatPass};
ghost use Rattle.ports.specs.Calls.{Call};
ghost use Rattle.ports.specs.Decisions.{Decides};
ghost use Rattle.event_loop.specs.declared.seat.Role.TheVariants.{Client as ClientRole};

use crate::deciding::tell_cut;
use crate::feeding::read_feed;
use crate::hearing::hear;
use crate::passes::{read_client, write_client};
use crate::seat::{Role, Seat};
use crate::seats::{Seats, clients, go, settle, skip, wake_if};
use crate::waking::wake_after;
use catalog::Config;
use ports::Ports;
use protocol::reason::Reason;
use server_core::{ReloadFault, Server};
use sl_packet::PACKET;
use station_ring::Rings;
use std::alloc::{AllocError, Global};
use std::marker::Model;

/// How many bytes a client's read asks for at most: as many as a client ever has room for.
const CLIENT_READ: usize = 1024;

/// How many bytes a feed's read asks for at most: one record, so that no feed brings more records in a pass than a
/// client takes.
const FEED_READ: usize = 512;

/// How many packets a port is handed at once, at most.
const PIECES: usize = 64;

/// What a turn did.
#[derive(Clone, Copy, Drop)]
pub struct Turned {
    /// How many happenings other than Quiet were taken.
    pub happenings: usize,
    /// Whether Quiet ended them.
    pub quiet: bool,
    /// How many records the server refused; it stays at 2^64 - 1.
    pub refused: u64,
}

/// The ports could not say what happened.
#[derive(Clone, Copy, Debug, Drop)]
pub struct LoopFault;

impl LoopFault {
    /// The reason by which the program reports it: 40 Poll.
    pub fn reason(self) -> Reason
        ensures { result ≡ Reason.Poll }
    {
        Reason::Poll
    }
}

/// The pass over one port; whether the port stays open.
fn pass<P: Ports>(
    server: &mut Server,
    ports: &mut P,
    seat: &mut Seat,
    buffer: &mut [u8; CLIENT_READ],
    pieces: &mut Vec<u8>,
    limit: usize,
    refused: &mut u64,
) -> bool
    ensures goes { (happenings : ℕ) (config : ProtocolConfig) (w : World) → StandsAt server.old config w →
        Whole (SeatPass config) limit config w (P.calls ports.old) (P.calls ports.new) server.new
        (feed_tally happenings refused.old) (feed_tally happenings refused.new) seat.old (if_open result seat.new) }
    ensures same { IsSameSeat seat.old seat.new }
    ensures whose { (k : ℕ) → seat.new.role ≡ ClientRole k → seat.old.role ≡ ClientRole k }
    ensures leaves { LeavesRest seat.old (NoneArrived server.old server.new) server.old server.new }
{
    match &mut seat.role {
        Role::Client(client) => {
            let client = client.same();
            read_client(server, ports, &client, seat, buffer, limit)
                && write_client(server, ports, &client, seat, pieces, limit)
        }
        Role::Feed(rest) => read_feed(
            server,
            ports,
            seat.port,
            &mut seat.readable,
            &mut *rest.cutter,
            &mut buffer[..FEED_READ],
            limit,
            refused,
        ),
    }
}

/// Whether records arrived since there were so many.
fn has_more(server: &Server, before: u64) -> bool
    ensures more { result ≡ true → server.now.rings.arrivals ≢ before }
    ensures none { result ≡ false → server.now.rings.arrivals ≡ before }
{
    server.arrivals() != before
}

/// The pass over the port at a place, and where the next port is then. A port that is shut has no seat any more.
fn pass_at<P: Ports>(
    server: &mut Server,
    ports: &mut P,
    seats: &mut Seats,
    at: usize,
    buffer: &mut [u8; CLIENT_READ],
    pieces: &mut Vec<u8>,
    limit: usize,
    refused: &mut u64,
) -> usize
    requires inside { at < length seats.old.all.items }
    requires kept { AreKept server.old seats.old }
    ensures kept { AreKept server.new seats.new }
    ensures limit { seats.new.max_clients ≡ seats.old.max_clients }
    ensures within { result ≤ length seats.new.all.items }
    ensures fewer { length seats.new.all.items + at < length seats.old.all.items + result }
    ensures goes { (happenings : ℕ) (config : ProtocolConfig) (w : World) (calls : Option (List Call)) (t : Tally)
        (ss : List Seat) → PassesSoFar limit config w calls (P.calls ports.old) server.old t
        (feed_tally happenings refused.old) ss (take at seats.old.all.items) (drop at seats.old.all.items)
        → PassesSoFar limit config w calls (P.calls ports.new) server.new t
        (feed_tally happenings refused.new) ss (take result seats.new.all.items) (drop result seats.new.all.items) }
{
    let before = server.arrivals();
    let stays = pass(
        server,
        ports,
        &mut seats.all[at],
        buffer,
        pieces,
        limit,
        refused,
    );
    let brought = has_more(server, before);
    wake_after(
        server,
        seats.all.as_slice(),
        &mut seats.awake,
        &mut seats.marked,
        brought,
    );
    if stays {
        settle(server, seats.all.as_slice(), &mut seats.awake, at);
        at + 1
    } else {
        go(&mut seats.all, &mut seats.awake, &mut seats.feeds, at);
        at
    }
}

/// The passes over all ports, by rising number. Those that sleep are passed over.
fn pass_all<P: Ports>(
    server: &mut Server,
    ports: &mut P,
    seats: &mut Seats,
    pieces: &mut Vec<u8>,
    limit: usize,
    refused: &mut u64,
)
    requires { AreKept server.old seats.old }
    ensures kept { AreKept server.new seats.new }
    ensures limit { seats.new.max_clients ≡ seats.old.max_clients }
    ensures goes { (happenings : ℕ) (config : ProtocolConfig) (w : World) → StandsAt server.old config w →
        PassesAll limit config w (P.calls ports.old) (P.calls ports.new) server.new
        (feed_tally happenings refused.old) (feed_tally happenings refused.new)
        seats.old.all.items seats.new.all.items }
{
    let mut buffer = [0u8; CLIENT_READ];
    let mut at = skip(server, seats.all.as_slice(), seats.awake.as_slice(), 0);
    'passes: while at < seats.all.len() {
        let next = pass_at(
            server,
            ports,
            seats,
            at,
            &mut buffer,
            pieces,
            limit,
            refused,
        );
        at = skip(server, seats.all.as_slice(), seats.awake.as_slice(), next);
    }
}

/// A server over ports. It goes on by turns. Only a port that joins makes a turn allocate: room is made then for its
/// seat, and for as many marked clients as there is room for seats.
#[derive(Drop)]
pub struct Loop<P: Ports> {
    server: Server,
    ports: P,
    seats: Seats,
    /// Packets that are handed to a port at once.
    pieces: Vec<u8>,
    alloc: Global,
    refused: u64,
}

impl<P: Ports> Model for Loop<P> {
    ghost use Rattle.event_loop.specs.Loops.{LoopValue};
    ghost use Rattle.event_loop.specs.Sleeping.{AreKept};

    ghost Value = { LoopValue };

    ghost view = { λ l. record {
      server = l.server;
      calls = P.calls l.ports;
      failures = P.failures l.ports;
      decided = P.decided l.ports;
      seats = l.seats.all.items;
      max_clients = l.seats.max_clients;
      refused = l.refused;
    } };

    ghost invariant = { λ l. AreKept l.server l.seats };
}

impl<P: Ports + Drop> Loop<P> {
    /// A loop over a new server of this configuration, at which no port is open. It fails only for want of memory.
    pub fn new(alloc: Global, config: Config, ports: P) -> Result<Loop<P>, AllocError>
        ensures server { IfOk result (λ made. StandsAt made.server config empty_world) }
        ensures calls { IfOk result (λ made. made.calls ≡ P.calls ports) }
        ensures failures { IfOk result (λ made. made.failures ≡ P.failures ports) }
        ensures decided { IfOk result (λ made. made.decided ≡ P.decided ports) }
        ensures seats { IfOk result (λ made. made.seats ≡ []) }
        ensures max_clients { IfOk result (λ made. made.max_clients ≡ config.max_connections) }
        ensures refused { IfOk result (λ made. made.refused ≡ 0) }
    {
        let seats = Seats::new(alloc, config.max_connections());
        let pieces = Vec::with_capacity(alloc, PIECES * PACKET)?;
        let server = Server::new(alloc, config)?;
        Ok(Loop {
            server,
            ports,
            seats,
            pieces,
            alloc,
            refused: 0,
        })
    }
}

impl<P: Ports> Loop<P> {
    /// Takes up to `limit` happenings, or until Quiet; then goes through the open ports by rising number. Each port's
    /// pass reads while the port may be read, up to `limit` times, and on a client's port then offers and writes, up to
    /// `limit` times. At most `limit` records arrive from each of 16 feeds.
    ///
    /// It fails with 40 Poll only if the ports could not say what happened. What was done before it in the turn stands,
    /// and a further turn goes on. It allocates only as a port joins.
    pub fn turn(&mut self, limit: usize) -> Result<Turned, LoopFault>
        ensures ok { IfOk result (λ turned. (config : ProtocolConfig) (w : World) → StandsAt self.old.server config w →
            TurnMade config limit w self.old self.new turned) }
        ensures failed { OnErr result ((config : ProtocolConfig) (w : World) → StandsAt self.old.server config w →
            TurnFailed config limit w self.old self.new) }
        ensures failures { OnErr result (IsMore self.old.failures self.new.failures 1) }
        ensures few_clients { clients_in self.new.seats ≤ self.new.max_clients }
        ensures few_feeds { feeds_in self.new.seats ≤ 16 }
        ensures max_clients { self.new.max_clients ≡ self.old.max_clients }
        ensures refused { MatchResult result (λ turned. self.new.refused ≡ refused_more self.old.refused turned.refused)
            (λ _. self.new.refused ≡ self.old.refused) }
    {
        let Ok(heard) = hear(
            &mut self.server,
            &mut self.ports,
            &mut self.seats,
            self.alloc,
            limit,
        ) else {
            return Err(LoopFault);
        };
        let mut refused = 0u64;
        pass_all(
            &mut self.server,
            &mut self.ports,
            &mut self.seats,
            &mut self.pieces,
            limit,
            &mut refused,
        );
        self.refused = self.refused.saturating_add(refused);
        Ok(Turned {
            happenings: heard.happenings,
            quiet: heard.quiet,
            refused,
        })
    }

    /// A new configuration comes into force, as at the server: clients whose address has another view under it than at
    /// their open are cut, which is said of their ports, and all others go on. It fails with 34 Different where it
    /// differs from the present one in more than the lists of addresses, and then nothing changes. No port is called:
    /// what a turn hands next is of the new lists.
    pub fn reload(&mut self, config: Config) -> Result<(), ReloadFault>
        ensures stands { (old : ProtocolConfig) (w : World) → StandsAt self.old.server old w →
            StandsAt self.new.server (config_by old (Reload config)) (step old w (Reload config)) }
        ensures answer { is_ok result ≡ is_same_but_for_access self.old.server.config config }
        ensures unchanged { OnErr result (self.new ≡ self.old) }
        ensures only { self.new ≡ record self.old { server = self.new.server; decided = self.new.decided } }
        ensures decides { OnOk result
            (Decides self.old.decided self.new.decided (cuts_in self.new.server self.old.seats)) }
    {
        if let Err(fault) = self.server.reload(config) {
            return Err(fault);
        }
        wake_if(&mut self.seats.awake, true);
        tell_cut(&self.server, &mut self.ports, self.seats.all.as_slice());
        Ok(())
    }

    /// The ports.
    pub fn ports(&self) -> &P
        ensures calls { P.calls result.now ≡ self.now.calls }
        ensures failures { P.failures result.now ≡ self.now.failures }
        ensures decided { P.decided result.now ≡ self.now.decided }
    {
        &self.ports
    }

    /// The ports, once the loop is over. The server is dropped.
    pub fn into_ports(self) -> P
        ensures calls { P.calls result ≡ self.calls }
        ensures failures { P.failures result ≡ self.failures }
        ensures decided { P.decided result ≡ self.decided }
    {
        self.ports
    }

    /// How many clients' ports are open.
    pub fn clients(&self) -> usize
        ensures { result ≡ clients_in self.now.seats }
    {
        clients(self.seats.all.as_slice(), self.seats.feeds)
    }

    /// How many feeds' ports are open.
    pub fn feeds(&self) -> usize
        ensures { result ≡ feeds_in self.now.seats }
    {
        self.seats.feeds
    }

    /// How many records arrived, from all feeds: those that the server accepted.
    pub fn arrivals(&self) -> u64
        ensures { (config : ProtocolConfig) (w : World) → StandsAt self.now.server config w
            → result ≡ length w.history }
    {
        self.server.arrivals()
    }

    /// What the server holds of all stations.
    pub fn rings(&self) -> &Rings
        ensures value { result.now ≡ self.now.server.rings }
        ensures holds { (config : ProtocolConfig) (w : World) → StandsAt self.now.server config w →
            result.now ≡ holdings_of config w.history }
    {
        self.server.rings()
    }

    /// The server.
    pub fn server(&self) -> &Server
        ensures { result.now ≡ self.now.server }
    {
        &self.server
    }

    /// The open ports, by rising number, and whose they are.
    pub fn seats(&self) -> &[Seat]
        ensures { result.now ≡ self.now.seats }
    {
        self.seats.all.as_slice()
    }

    /// How many records the server refused in all turns; it stays at 2^64 - 1.
    pub fn refused(&self) -> u64
        ensures { result ≡ self.now.refused }
    {
        self.refused
    }
}
