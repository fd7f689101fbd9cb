//! What is decided of a port is said to the ports.
ghost use Rattle.std.specs.Prelude.{◌≡◌, [], ◌∷◌, ◌++◌, None, slice_index_or};
ghost use Rattle.ports.specs.Calls.{Tells};
ghost use Rattle.ports.specs.Calls.Call.{Shut};
ghost use Rattle.ports.specs.Decisions.{Decides};
ghost use Rattle.ports.specs.declared.decisions.Decision.TheVariants.{Ends, TurnedAway};
ghost use Rattle.event_loop.specs.Decided.{all_packets_said, cut_of, cuts_in, lost_said, packets_said};
ghost use Rattle.event_loop.specs.Decided.{traffic_said};

use crate::seat::{Role, Seat};
use crate::telling::place_codes;
use catalog::Config;
use ports::{AwayReason, Decision, Ending, Ports};
use server_core::{Client, Server};
use session_state::Entry;

/// A port that has just joined is shut, and it is said why.
pub fn turn_away<P: Ports>(ports: &mut P, port: u64, reason: AwayReason)
    ensures call { Tells (P.calls ports.old) (P.calls ports.new) (Shut port ∷ []) }
    ensures failures { P.failures ports.new ≡ P.failures ports.old }
    ensures decides { Decides (P.decided ports.old) (P.decided ports.new) ((port, TurnedAway reason) ∷ []) }
{
    ports.tell(port, Decision::TurnedAway(reason));
    ports.shut(port);
}

/// A port that was let in is shut, and it is said why.
pub fn end<P: Ports>(ports: &mut P, port: u64, ending: Ending)
    ensures call { Tells (P.calls ports.old) (P.calls ports.new) (Shut port ∷ []) }
    ensures failures { P.failures ports.new ≡ P.failures ports.old }
    ensures decides { Decides (P.decided ports.old) (P.decided ports.new) ((port, Ends ending) ∷ []) }
{
    ports.tell(port, Decision::Ends(ending));
    ports.shut(port);
}

/// It is said of which station a client was sent so many packets, if it was sent any.
fn tell_packets<P: Ports>(config: &Config, ports: &mut P, port: u64, place: usize, packets: u64)
    ensures calls { P.calls ports.new ≡ P.calls ports.old }
    ensures failures { P.failures ports.new ≡ P.failures ports.old }
    ensures decides { Decides (P.decided ports.old) (P.decided ports.new)
        (packets_said config.now port place packets) }
{
    if packets > 0 {
        ports.tell(port, Decision::Sent(place_codes(config, place), packets));
    }
}

/// The same of each station that the client named, in order.
fn tell_all_packets<P: Ports>(
    config: &Config,
    ports: &mut P,
    port: u64,
    entries: &[Entry],
    packets: &[u64],
)
    ensures calls { P.calls ports.new ≡ P.calls ports.old }
    ensures failures { P.failures ports.new ≡ P.failures ports.old }
    ensures decides { Decides (P.decided ports.old) (P.decided ports.new)
        (all_packets_said config.now port 0 entries.now packets.now) }
{
    for index in 0..entries.len() {
        let count = packets_at(packets, index);
        tell_packets(config, ports, port, entries[index].station, count);
    }
}

/// How many packets the request with an index was sent.
fn packets_at(packets: &[u64], index: usize) -> u64
    ensures { result ≡ slice_index_or packets.now index 0 }
{
    match packets.get(index) {
        Some(count) => *count,
        None => 0,
    }
}

/// It is said how many records a client lost, if any.
fn tell_lost<P: Ports>(ports: &mut P, port: u64, lost: u64)
    ensures calls { P.calls ports.new ≡ P.calls ports.old }
    ensures failures { P.failures ports.new ≡ P.failures ports.old }
    ensures decides { Decides (P.decided ports.old) (P.decided ports.new) (lost_said port lost) }
{
    if lost > 0 {
        ports.tell(port, Decision::Lost(lost));
    }
}

/// It is said what the client at a port was sent, and how many records it lost.
fn tell_traffic<P: Ports>(server: &Server, ports: &mut P, port: u64, client: &Client)
    ensures calls { P.calls ports.new ≡ P.calls ports.old }
    ensures failures { P.failures ports.new ≡ P.failures ports.old }
    ensures decides { Decides (P.decided ports.old) (P.decided ports.new)
        (traffic_said server.now.config port (slice_index_or server.now.sessions client.now None)) }
{
    if let Some(session) = server.session(client) {
        let config = server.config();
        tell_all_packets(config, ports, port, session.choices(), session.packets());
        tell_lost(ports, port, session.lost());
    }
}

/// A client's port that was let in is shut. It is said what the client was sent and lost, and why it ends.
pub fn end_client<P: Ports>(
    server: &Server,
    ports: &mut P,
    port: u64,
    client: &Client,
    ending: Ending,
)
    ensures call { Tells (P.calls ports.old) (P.calls ports.new) (Shut port ∷ []) }
    ensures failures { P.failures ports.new ≡ P.failures ports.old }
    ensures decides { Decides (P.decided ports.old) (P.decided ports.new)
        (traffic_said server.now.config port (slice_index_or server.now.sessions client.now None)
        ++ (port, Ends ending) ∷ []) }
{
    tell_traffic(server, ports, port, client);
    end(ports, port, ending);
}

/// It is said of a client's port that its client is cut, if it is.
fn tell_if_cut<P: Ports>(server: &Server, ports: &mut P, seat: &Seat)
    ensures calls { P.calls ports.new ≡ P.calls ports.old }
    ensures failures { P.failures ports.new ≡ P.failures ports.old }
    ensures decides { Decides (P.decided ports.old) (P.decided ports.new) (cut_of server.now seat.now) }
{
    match &seat.role {
        Role::Client(client) => {
            if server.is_cut(client) {
                ports.tell(seat.port, Decision::Cut);
            }
        }
        Role::Feed(_) => {}
    }
}

/// It is said of each port whose client is cut, by rising number.
pub fn tell_cut<P: Ports>(server: &Server, ports: &mut P, seats: &[Seat])
    ensures calls { P.calls ports.new ≡ P.calls ports.old }
    ensures failures { P.failures ports.new ≡ P.failures ports.old }
    ensures decides { Decides (P.decided ports.old) (P.decided ports.new) (cuts_in server.now seats.now) }
{
    for seat in seats {
        tell_if_cut(server, ports, seat);
    }
}
