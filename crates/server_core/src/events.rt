//! A whole list of events.
ghost use Rattle.std.specs.Prelude.{◌≡◌, ℕ, ◌<◌, ◌-◌, ◌^◌, length, List, [], ◌∷◌, ◌++◌, map, slice_get};
ghost use Rattle.std.specs.Prelude.{take as first, Bool, true, Some, IfOk, OnOk};
ghost use Rattle.std.specs.Result.{result_ok};
ghost use Rattle.protocol.specs.Catalog.{Config as ProtocolConfig, Entry};
ghost use Rattle.protocol.specs.World.{Event as ProtocolEvent, World, config_by, step, handed, told, taken_by};
ghost use Rattle.protocol.specs.World.{client_of};
ghost use Rattle.protocol.specs.World.Event.{Take};
ghost use Rattle.session_state.specs.Sessions.{SessionValue};
ghost use Rattle.protocol.specs.Alone.{alone, own_view, seen, handed_to, restricted, all_restricted};
ghost use Rattle.protocol.specs.Alone.{reloads_accepted, KeepsVisible};
ghost use Rattle.server_core.specs.ServerValues.{StandsAt};
ghost use Rattle.server_core.specs.Runs.{event_value, handed_value, handed_by, first_waiting, is_over_by};
ghost use Rattle.server_core.specs.Runs.{MissesOnlyOverruns, MissesNothingThatIsHeld};

use crate::client::{Client, Gone, Offer};
use crate::server::Server;
use catalog::Config;
use std::alloc::{AllocError, Global};
use std::net::Ipv4Addr;

/// What happens at a server. Clients are numbered from 0 in the order in which they open; an event of a client that is
/// not open changes nothing.
#[derive(Drop)]
pub enum Event {
    /// A connection opens from an address.
    Open(Ipv4Addr),
    /// A client sends bytes.
    Bytes(usize, Vec<u8>),
    /// A client takes at most so many bytes of what waits.
    Take(usize, usize),
    /// A client's connection ends.
    Close(usize),
    /// A record comes from a feeder.
    Arrive([u8; 512]),
    /// A new configuration is read. One that differs in more than who may use which station changes nothing.
    Reload(Config),
}

/// What a take hands.
#[derive(Drop)]
pub struct Handed {
    pub client: usize,
    pub bytes: Vec<u8>,
    /// Whether the client is told that its connection is over.
    pub ended: bool,
}

/// The first bytes that wait for a client, at most so many.
fn front(
    alloc: Global,
    server: &Server,
    client: &Client,
    count: usize,
) -> Result<Vec<u8>, AllocError>
    ensures session { IfOk result (λ bytes. (s : SessionValue) → slice_get server.now.sessions client.now
        ≡ Some (Some s) → bytes.items ≡ first count s.waiting) }
    ensures answer { IfOk result (λ bytes. (config : ProtocolConfig) (w : World) → StandsAt server.now config w →
        bytes.items ≡ first_waiting count (client_of (slice_get w.connections client.now))) }
{
    let Ok(waiting) = server.waiting(client) else {
        return Ok(Vec::new(alloc));
    };
    let some = count.min(waiting.len());
    let bytes = waiting[..some].to_vec(alloc)?;
    Ok(bytes)
}

/// Whether an offer found that a client's connection is over.
fn is_over(found: Result<Offer, Gone>) -> bool
    ensures { result ≡ is_over_by (result_ok found) }
{
    match found {
        Ok(Offer::Bytes) => false,
        Ok(Offer::Ended) => true,
        Ok(Offer::Idle) => false,
        Err(Gone) => true,
    }
}

/// What waits next for a client is handed, at most so many bytes of it: an offer, and what is taken of it.
fn take(
    alloc: Global,
    server: &mut Server,
    client: &Client,
    count: usize,
) -> Result<Handed, AllocError>
    ensures stands { OnOk result ((config : ProtocolConfig) (w : World) → StandsAt server.old config w →
        StandsAt server.new config (step config w (Take client.now count))) }
    ensures handed { IfOk result (λ x. (config : ProtocolConfig) (w : World) → StandsAt server.old config w →
        handed_value x ≡ told client.now (taken_by w.history (client_of (slice_get w.connections client.now)) count)) }
{
    let found = server.offer(client);
    let bytes = front(alloc, server, client, count)?;
    if !bytes.is_empty() {
        let _ = server.took(client, bytes.len());
    }
    Ok(Handed {
        client: client.number(),
        bytes,
        ended: is_over(found),
    })
}

fn act(
    alloc: Global,
    server: &mut Server,
    event: &Event,
    out: &mut Vec<Handed>,
) -> Result<(), AllocError>
    ensures stands { OnOk result ((config : ProtocolConfig) (w : World) → length w.history < 2 ^ 64 - 1 →
        StandsAt server.old config w →
        StandsAt server.new (config_by config (event_value event.now)) (step config w (event_value event.now))) }
    ensures handed { OnOk result ((config : ProtocolConfig) (w : World) → StandsAt server.old config w →
        map handed_value out.new.items ≡ map handed_value out.old.items ++ handed_by w (event_value event.now)) }
{
    match event {
        Event::Open(address) => {
            server.open(alloc, *address)?;
            Ok(())
        }
        Event::Bytes(client, bytes) => {
            let _ = server.receive(&Client::numbered(*client), bytes.as_slice());
            Ok(())
        }
        Event::Take(client, count) => {
            let handed = take(alloc, server, &Client::numbered(*client), *count)?;
            out.push(handed)?;
            Ok(())
        }
        Event::Close(client) => {
            let _ = server.close(&Client::numbered(*client));
            Ok(())
        }
        Event::Arrive(bytes) => {
            let _ = server.arrive(bytes);
            Ok(())
        }
        Event::Reload(config) => {
            let copy = config.copy(alloc)?;
            let _ = server.reload(copy);
            Ok(())
        }
    }
}

/// How many events there are: fewer than 2^64, so that not so many records arrive as can't be counted.
fn count_of(events: &[Event]) -> usize
    ensures { result ≡ length events.now }
{
    events.len()
}

/// What is handed to each client over a list of events, at a new server. Only memory can lack.
///
/// Each client is handed what a client alone would be handed, from its own events and the arrivals at the stations that
/// it sees (`isolation`). So two clients with the same view, the same events and the same arrivals are handed the same,
/// at whatever servers (`alike`), and a server without stations that a client does not see hands it the same
/// (`hidden_stations`).
///
/// A transfer misses a record that is wanted only where it was overrun: where as many later ones of its station as are
/// held had come when an offer passed over it (`misses`). One that at each of its offers holds all that is wanted
/// misses nothing (`keeps_up`).
#[tactic(auto, using(crate::proofs::RunLemmas::run_lemmas))]
pub fn run(alloc: Global, config: Config, events: &[Event]) -> Result<Vec<Handed>, AllocError>
    ensures handed { IfOk result (λ hs. map handed_value hs.items ≡ handed config (map event_value events.now)) }
    ensures isolation { IfOk result (λ hs. (k : ℕ) → let es = map event_value events.now in
        handed_to k (map handed_value hs.items) ≡ alone (own_view config es k) (seen config es k)) }
    ensures alike { IfOk result (λ hs. (other : ProtocolConfig) (others : List ProtocolEvent) (k j : ℕ)
        → let es = map event_value events.now in
        own_view config es k ≡ own_view other others j → seen config es k ≡ seen other others j →
        handed_to k (map handed_value hs.items) ≡ handed_to j (handed other others)) }
    ensures hidden_stations { IfOk result (λ hs. (keep : Entry → Bool) (k : ℕ) → let es = map event_value events.now in
        KeepsVisible keep config es k →
        reloads_accepted (restricted keep config) (all_restricted keep es) ≡ reloads_accepted config es →
        handed_to k (handed (restricted keep config) (all_restricted keep es))
        ≡ handed_to k (map handed_value hs.items)) }
    ensures misses { IfOk result (λ hs. (k : ℕ)
        → MissesOnlyOverruns config (map event_value events.now) k (map handed_value hs.items)) }
    ensures keeps_up { IfOk result
        (λ hs. (k : ℕ) → MissesNothingThatIsHeld config (map event_value events.now) k (map handed_value hs.items)) }
{
    let mut server = Server::new(alloc, config)?;
    let mut out = Vec::new(alloc);
    let _count = count_of(events);
    for event in events {
        act(alloc, &mut server, event, &mut out)?;
    }
    Ok(out)
}
