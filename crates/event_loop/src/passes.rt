//! The pass over a client's port.
//!
//! A pass asks once whether its client is marked, and then offers until nothing is found. Were it to ask before each
//! offer, the offer that finds nothing would never be made, and no mark would ever be cleared.
//!
//! A take of a run is what the loop does with a client: an offer, a copy of what waits, and the taking of what was
//! copied. There is no call of its own for it.
ghost use Rattle.std.specs.Prelude.{◌≡◌, ◌<◌, ◌≤◌, true, [], ◌∷◌, ◌++◌, length, None, Some, option_map, slice_index_or};
ghost use Rattle.protocol.specs.Client.{offered};
ghost use Rattle.protocol.specs.Catalog.{Config};
ghost use Rattle.protocol.specs.World.{World, step};
ghost use Rattle.protocol.specs.World.Event.{Close, Take};
ghost use Rattle.ports.specs.Calls.{Tells};
ghost use Rattle.ports.specs.Calls.Call.{Shut};
ghost use Rattle.ports.specs.Decisions.{Decides};
ghost use Rattle.ports.specs.declared.decisions.Decision.TheVariants.{Ends};
ghost use Rattle.server_core.specs.Filling.{IsOffered, client_at};
ghost use Rattle.server_core.specs.Marks.{LeavesOthers};
ghost use Rattle.server_core.specs.Refusals.{offer_of};
ghost use Rattle.server_core.specs.ServerValues.{MayTake, StandsAt};
ghost use Rattle.server_core.specs.declared.client.Offer.TheVariants.{Idle};
ghost use Rattle.event_loop.specs.Decided.{traffic_said};
ghost use Rattle.event_loop.specs.Deeds.{Tally};
ghost use Rattle.event_loop.specs.Passes.{ClientReads, ClientWrites, room_in};
ghost use Rattle.event_loop.specs.Going.{Once, Whole, if_open};
ghost use Rattle.event_loop.specs.Offering.{Hands, HandsPieces, IfTook, IfWrites, WritesOn};

use crate::deciding::end_client;
use crate::seat::{Role, Seat};
use crate::telling::{go_on, receive, took};
use ports::{Ending, Got, PortFault, Ports, Put};
use server_core::{Client, Filled, Gone, Offer, Server};
use sl_packet::PACKET;

/// How a pass goes on after a step.
#[derive(Clone, Copy, Drop)]
pub enum Onward {
    /// With the next step.
    On,
    /// Not in this turn.
    Stop,
    /// Never: the port is shut.
    Over,
}

/// A client's port is shut, it is said what it was sent and lost, and why it ends, and the client is closed.
fn shut<P: Ports>(server: &mut Server, ports: &mut P, client: &Client, port: u64, ending: Ending)
    ensures call { Tells (P.calls ports.old) (P.calls ports.new) (Shut port ∷ []) }
    ensures decides { Decides (P.decided ports.old) (P.decided ports.new)
        (traffic_said server.old.config port (slice_index_or server.old.sessions client.now None)
        ++ (port, Ends ending) ∷ []) }
    ensures stands { (config : Config) (w : World) → StandsAt server.old config w
        → StandsAt server.new config (step config w (Close client.now)) }
    ensures others { LeavesOthers client.now server.old server.new }
{
    end_client(server, ports, port, client, ending);
    let _ = server.close(client);
}

/// One read of a client's port, of no more bytes than the client may send.
fn read_piece<P: Ports>(
    server: &mut Server,
    ports: &mut P,
    client: &Client,
    seat: &mut Seat,
    piece: &mut [u8],
) -> Onward
    requires role { seat.old.role ≡ Role.Client client.now }
    requires readable { seat.old.readable ≡ true }
    requires some { 0 < length piece.old }
    requires fits { (config : Config) (w : World) → StandsAt server.old config w →
        length piece.old ≤ room_in w client.now }
    ensures goes { (t : Tally) (config : Config) (w : World) → StandsAt server.old config w →
        Once (ClientReads config client.now) config w (P.calls ports.old)
        (P.calls ports.new) server.new t t seat.old seat.new result }
    ensures role { seat.new.role ≡ Role.Client client.now }
    ensures port { seat.new.port ≡ seat.old.port }
    ensures others { LeavesOthers client.now server.old server.new }
{
    match ports.read(seat.port, piece) {
        Ok(Got::Bytes(count)) => {
            receive(server, ports, seat.port, client, &piece[..count]);
            Onward::On
        }
        Ok(Got::Later) => {
            seat.readable = false;
            Onward::Stop
        }
        Ok(Got::Closed) => {
            shut(server, ports, client, seat.port, Ending::Closed);
            Onward::Over
        }
        Err(PortFault) => {
            shut(server, ports, client, seat.port, Ending::Failed);
            Onward::Over
        }
    }
}

/// One read of a client's port, where it may be read and the client has room.
fn read_once<P: Ports>(
    server: &mut Server,
    ports: &mut P,
    client: &Client,
    seat: &mut Seat,
    buffer: &mut [u8],
) -> Onward
    requires role { seat.old.role ≡ Role.Client client.now }
    requires buffer { 0 < length buffer.old }
    ensures goes { (t : Tally) (config : Config) (w : World) → StandsAt server.old config w →
        Once (ClientReads config client.now) config w (P.calls ports.old)
        (P.calls ports.new) server.new t t seat.old seat.new result }
    ensures role { seat.new.role ≡ Role.Client client.now }
    ensures port { seat.new.port ≡ seat.old.port }
    ensures others { LeavesOthers client.now server.old server.new }
{
    if !seat.readable {
        return Onward::Stop;
    }
    let room = server.room(client).unwrap_or(0).min(buffer.len());
    if room == 0 {
        return Onward::Stop;
    }
    read_piece(server, ports, client, seat, &mut buffer[..room])
}

/// The reads of a pass over a client's port, up to so many; whether the port stays open.
pub fn read_client<P: Ports>(
    server: &mut Server,
    ports: &mut P,
    client: &Client,
    seat: &mut Seat,
    buffer: &mut [u8],
    limit: usize,
) -> bool
    requires role { seat.old.role ≡ Role.Client client.now }
    requires buffer { 0 < length buffer.old }
    ensures goes { (t : Tally) (config : Config) (w : World) → StandsAt server.old config w →
        Whole (ClientReads config client.now) limit config w (P.calls ports.old) (P.calls ports.new) server.new t t
        seat.old (if_open result seat.new) }
    ensures role { seat.new.role ≡ Role.Client client.now }
    ensures port { seat.new.port ≡ seat.old.port }
    ensures others { LeavesOthers client.now server.old server.new }
{
    let mut left = limit;
    'reads: while left > 0 {
        match read_once(server, ports, client, seat, buffer) {
            Onward::On => left -= 1,
            Onward::Stop => return true,
            Onward::Over => return false,
        }
    }
    true
}

/// What came of handing a client's port all that waits for the client.
#[derive(Clone, Copy)]
enum Handing {
    /// The port took so many bytes, one at least.
    Took(usize),
    /// Nothing more is handed in this turn.
    Stopped,
    /// The port is shut.
    Closed,
}

/// All that waits for a client is handed to its port, once the client was offered something and this was found.
fn hand<P: Ports>(
    server: &mut Server,
    ports: &mut P,
    client: &Client,
    seat: &mut Seat,
    found: Result<Offer, Gone>,
) -> Handing
    requires role { seat.old.role ≡ Role.Client client.now }
    requires writable { seat.old.writable ≡ true }
    ensures hands { (t : Tally) (config : Config) (w : World) → IsOffered config w client.now found server.old →
        Hands config client.now w (P.calls ports.old) (P.calls ports.new) server.new t seat.old seat.new found result }
    ensures unchanged { IfTook result (λ count. (server.new ≡ server.old) × (seat.new ≡ seat.old)) }
    ensures waits { IfTook result (MayTake server.new client.now) }
    ensures role { seat.new.role ≡ Role.Client client.now }
    ensures port { seat.new.port ≡ seat.old.port }
    ensures others { LeavesOthers client.now server.old server.new }
{
    let Ok(offer) = found else {
        shut(server, ports, client, seat.port, Ending::Complete);
        return Handing::Closed;
    };
    match offer {
        Offer::Bytes => {}
        Offer::Idle => return Handing::Stopped,
        Offer::Ended => {
            shut(server, ports, client, seat.port, Ending::Complete);
            return Handing::Closed;
        }
    }
    match server.waiting(client) {
        Ok(bytes) => {
            if bytes.is_empty() {
                return Handing::Stopped;
            }
            let Ok(put) = ports.write(seat.port, bytes) else {
                shut(server, ports, client, seat.port, Ending::Failed);
                return Handing::Closed;
            };
            match put {
                Put::Took(count) => {
                    if count == 0 {
                        return Handing::Stopped;
                    }
                    Handing::Took(count)
                }
                Put::Later => {
                    seat.writable = false;
                    Handing::Stopped
                }
            }
        }
        Err(_) => Handing::Stopped,
    }
}

/// Whole packets that wait for a client are handed to its port one after the other, at most so many, once the client
/// was offered something and this was found. None is handed where the port has no room for two: one alone may be taken
/// in part, and is left to `hand`.
fn hand_pieces<P: Ports>(
    server: &mut Server,
    ports: &mut P,
    client: &Client,
    port: u64,
    found: Result<Offer, Gone>,
    most: usize,
    pieces: &mut Vec<u8>,
) -> Filled
    ensures hands { (config : Config) (w : World) → IsOffered config w client.now found server.old →
        HandsPieces config w client.now port (P.calls ports.old) (P.calls ports.new) result server.new }
    ensures most { result.count ≤ most }
    ensures nothing { result.count ≡ 0 → P.calls ports.new ≡ P.calls ports.old }
    ensures others { LeavesOthers client.now server.old server.new }
{
    if most < 2 || !matches!(found, Ok(Offer::Bytes)) {
        return Filled { count: 0, found };
    }
    let fits = most.min(pieces.capacity() / PACKET);
    let room = ports.make_room(port, fits * PACKET) / PACKET;
    if room < 2 {
        return Filled { count: 0, found };
    }
    pieces.clear();
    let filled = server.fill(client, found, room, pieces);
    if filled.count > 0 {
        ports.write_pieces(port, pieces, PACKET);
    }
    filled
}

/// How a pass goes on after a write.
#[derive(Clone, Copy)]
enum Next {
    /// So many writes were made, and it goes on with the next one: the client was offered what comes next, and this was
    /// found.
    Write {
        found: Result<Offer, Gone>,
        made: usize,
    },
    /// Not in this turn.
    Stop,
    /// Never: the port is shut.
    Over,
}

/// Writes to a client's port, at most so many, after which the client is offered what comes next: of whole packets, one
/// each, where the port has room for them, and else one of all that waits for the client.
fn write_on<P: Ports>(
    server: &mut Server,
    ports: &mut P,
    client: &Client,
    seat: &mut Seat,
    found: Result<Offer, Gone>,
    most: usize,
    pieces: &mut Vec<u8>,
) -> Next
    requires role { seat.old.role ≡ Role.Client client.now }
    requires writable { seat.old.writable ≡ true }
    requires some { 0 < most }
    ensures goes { (t : Tally) (config : Config) (w : World) → IsOffered config w client.now found server.old →
        WritesOn config client.now w (P.calls ports.old) (P.calls ports.new) server.new t seat.old seat.new result }
    ensures made { IfWrites result (λ made. (0 < made) × (made ≤ most)) }
    ensures role { seat.new.role ≡ Role.Client client.now }
    ensures writable { IfWrites result (λ _. seat.new.writable ≡ true) }
    ensures port { seat.new.port ≡ seat.old.port }
    ensures others { LeavesOthers client.now server.old server.new }
{
    let filled = hand_pieces(server, ports, client, seat.port, found, most, pieces);
    if filled.count > 0 {
        return Next::Write {
            found: filled.found,
            made: filled.count,
        };
    }
    match hand(server, ports, client, seat, filled.found) {
        Handing::Took(count) => Next::Write {
            found: go_on(server, ports, seat.port, client, count),
            made: 1,
        },
        Handing::Stopped => Next::Stop,
        Handing::Closed => Next::Over,
    }
}

/// The last write of a pass, after which the client is offered nothing.
fn write_last<P: Ports>(
    server: &mut Server,
    ports: &mut P,
    client: &Client,
    seat: &mut Seat,
    found: Result<Offer, Gone>,
) -> Onward
    requires role { seat.old.role ≡ Role.Client client.now }
    requires writable { seat.old.writable ≡ true }
    ensures goes { (t : Tally) (config : Config) (w : World) → IsOffered config w client.now found server.old →
        Once (ClientWrites config client.now) config w (P.calls ports.old)
        (P.calls ports.new) server.new t t seat.old seat.new result }
    ensures role { seat.new.role ≡ Role.Client client.now }
    ensures port { seat.new.port ≡ seat.old.port }
    ensures others { LeavesOthers client.now server.old server.new }
{
    match hand(server, ports, client, seat, found) {
        Handing::Took(count) => {
            took(server, ports, seat.port, client, count);
            Onward::On
        }
        Handing::Stopped => Onward::Stop,
        Handing::Closed => Onward::Over,
    }
}

/// Whether an offer to a client is known to find nothing, so that it may be spared. A client that is marked is offered
/// something even if its patterns refuse what came: that offer finds nothing and takes the mark away.
fn finds_nothing(server: &Server, client: &Client) -> bool
    ensures idle { result ≡ true → (config : Config) (w : World) → StandsAt server.now config w →
        Some Idle ≡ option_map (λ c. offer_of (offered w.history c)) (client_at w client.now) }
    ensures nothing { result ≡ true → (config : Config) (w : World) → StandsAt server.now config w →
        step config w (Take client.now 0) ≡ w }
{
    match server.marked(client) {
        Ok(marked) => !marked,
        Err(_) => false,
    }
}

/// The writes of a pass over a client's port that may be written to, up to so many, one at least; whether the port
/// stays open. The client is offered something once more after each write but the last.
fn write_all<P: Ports>(
    server: &mut Server,
    ports: &mut P,
    client: &Client,
    seat: &mut Seat,
    pieces: &mut Vec<u8>,
    limit: usize,
) -> bool
    requires role { seat.old.role ≡ Role.Client client.now }
    requires writable { seat.old.writable ≡ true }
    requires some { 0 < limit }
    ensures goes { (t : Tally) (config : Config) (w : World) → StandsAt server.old config w →
        Whole (ClientWrites config client.now) limit config w (P.calls ports.old)
        (P.calls ports.new) server.new t t seat.old
        (if_open result seat.new) }
    ensures role { seat.new.role ≡ Role.Client client.now }
    ensures port { seat.new.port ≡ seat.old.port }
    ensures others { LeavesOthers client.now server.old server.new }
{
    let mut found = server.offer(client);
    let mut left = limit;
    'writes: while left > 1 {
        match write_on(server, ports, client, seat, found, left - 1, pieces) {
            Next::Write { found: next, made } => {
                found = next;
                left -= made;
            }
            Next::Stop => return true,
            Next::Over => return false,
        }
    }
    match write_last(server, ports, client, seat, found) {
        Onward::On => true,
        Onward::Stop => true,
        Onward::Over => false,
    }
}

/// The writes of a pass over a client's port, up to so many; whether the port stays open. A client for which nothing
/// would be found is offered nothing. One that is offered something is offered more until nothing is found, which takes
/// its mark away.
pub fn write_client<P: Ports>(
    server: &mut Server,
    ports: &mut P,
    client: &Client,
    seat: &mut Seat,
    pieces: &mut Vec<u8>,
    limit: usize,
) -> bool
    requires role { seat.old.role ≡ Role.Client client.now }
    ensures goes { (t : Tally) (config : Config) (w : World) → StandsAt server.old config w →
        Whole (ClientWrites config client.now) limit config w (P.calls ports.old)
        (P.calls ports.new) server.new t t seat.old
        (if_open result seat.new) }
    ensures role { seat.new.role ≡ Role.Client client.now }
    ensures port { seat.new.port ≡ seat.old.port }
    ensures others { LeavesOthers client.now server.old server.new }
{
    if !seat.writable || limit == 0 {
        return true;
    }
    if finds_nothing(server, client) {
        return true;
    }
    write_all(server, ports, client, seat, pieces, limit)
}
