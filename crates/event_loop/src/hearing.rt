//! What happens at the ports: who joins, and which port may be read or written to.
ghost use Rattle.std.specs.Prelude.{◌≡◌, ◌≤◌, ℕ, List, [], ◌∷◌, Some, None, Ok, IfOk, OnErr};
ghost use Rattle.std.specs.declared.option.Option.{Option};
ghost use Rattle.protocol.specs.Catalog.{Config};
ghost use Rattle.protocol.specs.World.{World};
ghost use Rattle.server_core.specs.ServerValues.{StandsAt};
ghost use Rattle.sl_io.specs.Counts.{IsMore};
ghost use Rattle.ports.specs.Calls.{Call, Tells};
ghost use Rattle.ports.specs.Calls.Call.{Next};
ghost use Rattle.ports.specs.declared.answers.Happening.TheVariants.{Joined, JoinedFeed};
ghost use Rattle.event_loop.specs.Decided.{ClientDecided, FeedDecided};
ghost use Rattle.event_loop.specs.Deeds.{Tally, no_tally};
ghost use Rattle.event_loop.specs.Going.{Whole};
ghost use Rattle.event_loop.specs.Hearing.{heard};
ghost use Rattle.event_loop.specs.Hearing.End.{Faulted};
ghost use Rattle.event_loop.specs.Tables.{HearsOnce, HeardBy, WholeHearing, CountsFault, tally_heard_by};
ghost use Rattle.event_loop.specs.Sleeping.{AreKept};
ghost use Rattle.event_loop.specs.Tables.{heard_end};

use crate::deciding::turn_away;
use crate::seat::{FeedRest, Role, Seat};
use crate::seats::{Seats, clients, mark_readable, mark_writable, place_of};
use ports::{AwayReason, Decision, Happening, Party, PortFault, Ports};
use protocol::limits::FEEDS;
use server_core::Server;
use std::alloc::Global;
use std::net::Ipv4Addr;

/// What was heard by one call.
#[derive(Clone, Copy, Drop)]
pub enum Heard {
    /// Something happened at a port.
    Happened,
    /// Nothing more happened for now.
    Quiet,
    /// The ports failed.
    Fault,
}

/// What was heard in a turn.
#[derive(Clone, Copy, Drop)]
pub struct HeardInTurn {
    /// How many happenings other than Quiet.
    pub happenings: usize,
    /// Whether Quiet ended them.
    pub quiet: bool,
}

/// A client's port joins: a seat is made and the client opened; or else the port is shut, and nothing came of it. The
/// place of the seat is reserved first, so that no client is opened that could have no seat.
fn join_client<P: Ports>(
    server: &mut Server,
    ports: &mut P,
    seats: &mut Seats,
    alloc: Global,
    port: u64,
    address: Ipv4Addr,
)
    requires { AreKept server.old seats.old }
    ensures kept { AreKept server.new seats.new }
    ensures limit { seats.new.max_clients ≡ seats.old.max_clients }
    ensures failures { P.failures ports.new ≡ P.failures ports.old }
    ensures decides { ClientDecided seats.old.max_clients port seats.old.all.items seats.new.all.items
        (P.decided ports.old) (P.decided ports.new) }
    ensures goes { (t : Tally) (calls : Option (List Call)) (config : Config) (w : World) →
        Tells calls (P.calls ports.old) (Next (Ok (Joined port address)) ∷ []) → StandsAt server.old config w →
        HearsOnce config seats.old.max_clients w calls (P.calls ports.new) server.new t seats.old.all.items
        seats.new.all.items Heard.Happened }
{
    let Err(at) = place_of(seats.all.as_slice(), port) else {
        return;
    };
    if clients(seats.all.as_slice(), seats.feeds) >= seats.max_clients {
        turn_away(ports, port, AwayReason::MaxConnections);
        return;
    }
    if !seats.has_room() {
        turn_away(ports, port, AwayReason::Memory);
        return;
    }
    match server.open(alloc, address) {
        Ok(client) => {
            let _kept = seats
                .all
                .insert(at, Seat::joining(port, Role::Client(client)));
            let _woken = seats.awake.insert(at, 1);
            ports.tell(port, Decision::LetIn(Party::Client));
        }
        Err(_) => turn_away(ports, port, AwayReason::Memory),
    }
}

/// A feed's port joins: a seat is made, or else the port is shut.
fn join_feed<P: Ports>(server: &Server, ports: &mut P, seats: &mut Seats, alloc: Global, port: u64)
    requires { AreKept server.now seats.old }
    ensures kept { AreKept server.now seats.new }
    ensures limit { seats.new.max_clients ≡ seats.old.max_clients }
    ensures failures { P.failures ports.new ≡ P.failures ports.old }
    ensures decides { FeedDecided port seats.old.all.items seats.new.all.items
        (P.decided ports.old) (P.decided ports.new) }
    ensures goes { (t : Tally) (calls : Option (List Call)) (config : Config) (w : World) →
        Tells calls (P.calls ports.old) (Next (Ok (JoinedFeed port)) ∷ []) → StandsAt server.now config w →
        HearsOnce config seats.old.max_clients w calls (P.calls ports.new) server.now t seats.old.all.items
        seats.new.all.items Heard.Happened }
{
    let Err(at) = place_of(seats.all.as_slice(), port) else {
        return;
    };
    if seats.feeds >= FEEDS {
        turn_away(ports, port, AwayReason::Feeds);
        return;
    }
    if !seats.has_room() {
        turn_away(ports, port, AwayReason::Memory);
        return;
    }
    match FeedRest::new(alloc) {
        Ok(rest) => {
            let _kept = seats.all.insert(at, Seat::joining(port, Role::Feed(rest)));
            let _woken = seats.awake.insert(at, 1);
            ports.tell(port, Decision::LetIn(Party::Feed));
            seats.feeds += 1;
        }
        Err(_) => turn_away(ports, port, AwayReason::Memory),
    }
}

/// Hears what happened next.
fn hear_once<P: Ports>(
    server: &mut Server,
    ports: &mut P,
    seats: &mut Seats,
    alloc: Global,
) -> Heard
    requires { AreKept server.old seats.old }
    ensures kept { AreKept server.new seats.new }
    ensures limit { seats.new.max_clients ≡ seats.old.max_clients }
    ensures failures { CountsFault (P.failures ports.old) (P.failures ports.new) result }
    ensures goes { (t : Tally) (config : Config) (w : World) → StandsAt server.old config w →
        HearsOnce config seats.old.max_clients w (P.calls ports.old)
        (P.calls ports.new) server.new t seats.old.all.items seats.new.all.items result }
{
    match ports.next() {
        Ok(Happening::Joined(port, address)) => {
            join_client(server, ports, seats, alloc, port, address);
            Heard::Happened
        }
        Ok(Happening::JoinedFeed(port)) => {
            join_feed(server, ports, seats, alloc, port);
            Heard::Happened
        }
        Ok(Happening::Readable(port)) => {
            mark_readable(&mut seats.all, &mut seats.awake, port);
            Heard::Happened
        }
        Ok(Happening::Writable(port)) => {
            mark_writable(&mut seats.all, &mut seats.awake, port);
            Heard::Happened
        }
        Ok(Happening::Quiet) => Heard::Quiet,
        Err(PortFault) => Heard::Fault,
    }
}

/// Hears up to `limit` happenings, or until Quiet. It fails only if the ports could not say what happened.
pub fn hear<P: Ports>(
    server: &mut Server,
    ports: &mut P,
    seats: &mut Seats,
    alloc: Global,
    limit: usize,
) -> Result<HeardInTurn, PortFault>
    requires { AreKept server.old seats.old }
    ensures kept { AreKept server.new seats.new }
    ensures limit { seats.new.max_clients ≡ seats.old.max_clients }
    ensures ok { IfOk result (λ in_turn. (config : Config) (w : World) → StandsAt server.old config w →
        WholeHearing config seats.old.max_clients limit w (P.calls ports.old) (P.calls ports.new) server.new
        (tally_heard_by in_turn) seats.old.all.items seats.new.all.items (heard_end in_turn)) }
    ensures failed { OnErr result ((config : Config) (w : World) → StandsAt server.old config w →
        (t : Tally) × WholeHearing config seats.old.max_clients limit w (P.calls ports.old)
        (P.calls ports.new) server.new t seats.old.all.items seats.new.all.items Faulted) }
    ensures failures { OnErr result (IsMore (P.failures ports.old) (P.failures ports.new) 1) }
{
    let mut left = limit;
    'hearing: while left > 0 {
        match hear_once(server, ports, seats, alloc) {
            Heard::Happened => left -= 1,
            Heard::Quiet => {
                return Ok(HeardInTurn {
                    happenings: limit - left,
                    quiet: true,
                });
            }
            Heard::Fault => return Err(PortFault),
        }
    }
    Ok(HeardInTurn {
        happenings: limit,
        quiet: false,
    })
}
