//! A server that is watched.
ghost use Rattle.std.specs.Prelude.{◌≡◌, ◌≢◌, ◌/◌, ◌<◌, ◌-◌, ◌^◌, IfOk, IfSome, IsSome};
ghost use Rattle.std.specs.Prelude.{Some, List, false, true, length, map};
ghost use Rattle.std.specs.List.Sorted.{IsNonDecreasingBy, IsPermutation};
ghost use Rattle.protocol.specs.Catalog.{Config as ProtocolConfig};
ghost use Rattle.protocol.specs.World.{World};
ghost use Rattle.server_core.specs.ServerValues.{StandsAt};
ghost use Rattle.event_loop.specs.Hearing.{clients_in, feeds_in};
ghost use Rattle.session_state.specs.Choices.{chosen_of};
ghost use Rattle.session_state.specs.NamedValues.{entry_of};
ghost use Rattle.status_page.specs.declared.value.StationStatus.{StationStatus as StationValue};
ghost use Rattle.server_watch.specs.Watching.{Knows, TellOf, TellsOf, ahead_by, all_noted, limit_at, listed_at};
ghost use Rattle.server_watch.specs.Watching.{client_status_of, reaching};

use crate::arrivals::{Arrivals, note_all, reach_all};
use crate::behind::behind_of;
use catalog::{Config, Station};
use event_loop::{Loop, Role, Seat};
use ports::{Ports, PresentClient};
use session_state::{Session, State};
use sl_time::Tick;
use station_ring::{Ring, Rings};
use status_page::{ClientStatus, LastRecord, NamedCount, StationStatus, StatusValue, TurnTimes};
use std::alloc::{AllocError, Global};

/// How many clients are told of at most.
const CLIENTS: usize = 1_000;

/// What else is told of a server: what the server itself doesn't know.
#[derive(Clone, Copy)]
pub struct Told<'a> {
    /// The program with its version and its logic.
    pub version: &'a [u8],
    /// When it began, by the system's clock.
    pub began: Option<Tick>,
    /// After how many seconds without a record a station is silent of which the configuration says nothing else.
    pub silent_after: u64,
    /// How many records were refused, by reason.
    pub refusals: &'a [NamedCount<'a>],
    /// How many connections were turned away, by reason.
    pub away: &'a [NamedCount<'a>],
    /// How many bytes clients were sent, and how long turns took.
    pub client_bytes: u64,
    pub turns: TurnTimes<'a>,
}

/// What else is told of stations, by their places.
#[derive(Clone, Copy)]
pub struct Listed<'a> {
    /// A text for each of who may use it.
    pub users: &'a [Vec<u8>],
    /// After how many seconds without a record each is silent; without a number never.
    pub limits: &'a [Option<u64>],
}

/// Who follows which station, and what is told of clients.
#[derive(Drop)]
struct Crowd {
    followers: Vec<u64>,
    clients: Vec<ClientStatus>,
    /// How many records all clients lost, those who left too.
    lost: u64,
}

impl Crowd {
    /// Nobody, for so many stations and clients.
    fn new(alloc: Global, stations: usize, clients: usize) -> Result<Crowd, AllocError> {
        let mut followers = Vec::with_capacity(alloc, stations)?;
        followers.resize(stations, 0)?;
        let clients = Vec::with_capacity(alloc, CLIENTS.min(clients))?;
        Ok(Crowd {
            followers,
            clients,
            lost: 0,
        })
    }

    /// Nobody follows a station. Clients who left lost so many records.
    fn forget(&mut self, lost: u64) {
        self.lost = lost;
        self.clients.clear();
        for followers in self.followers.iter_mut() {
            *followers = 0;
        }
    }

    /// Counts a client among the followers of the stations that it named.
    fn follow(&mut self, session: &Session) {
        for choice in session.choices() {
            if let Some(followers) = self.followers.get_mut(choice.station) {
                *followers = followers.saturating_add(1);
            }
        }
    }

    /// Tells of a client, if not as many are told of already as are at most.
    fn tell<P: Ports>(&mut self, server: &Loop<P>, seat: &Seat, now: u64) {
        let Role::Client(client) = &seat.role else {
            return;
        };
        let Some(session) = server.server().session(client) else {
            return;
        };
        self.follow(session);
        self.lost = self.lost.saturating_add(session.lost());
        if self.clients.len() < CLIENTS {
            let visitor = server.ports().present(seat.port);
            let followed = Followed::by(server.rings(), session);
            let status = client_status(now, seat.port, followed, visitor);
            let _ = self.clients.push(status);
        }
    }

    /// Looks at all clients of a server. Those who left lost so many records.
    fn count<P: Ports>(&mut self, now: u64, server: &Loop<P>, lost: u64) {
        self.forget(lost);
        for seat in server.seats() {
            self.tell(server, seat, now);
        }
    }
}

/// What was seen of a server.
#[derive(Drop)]
pub struct Watch {
    arrivals: Vec<Arrivals>,
    crowd: Crowd,
    /// The second of the last look at records, and that of the last look at clients.
    noted: Option<u64>,
    gathered: Option<u64>,
}

impl Watch {
    /// A server with that configuration that begins now: the time is 0. Only memory can lack.
    pub fn new(alloc: Global, config: &Config) -> Result<Watch, AllocError> {
        let stations = config.stations().len();
        let mut arrivals = Vec::with_capacity(alloc, stations)?;
        arrivals.resize(stations, Arrivals::new())?;
        let crowd = Crowd::new(alloc, stations, config.max_connections())?;
        Ok(Watch {
            arrivals,
            crowd,
            noted: None,
            gathered: None,
        })
    }

    /// Looks at the records that came, once a second. It takes no memory.
    pub fn note(&mut self, now: u64, rings: &Rings)
        ensures again { self.old.noted ≡ Some (now / 1000) → self.new ≡ self.old }
        ensures second { self.new.noted ≡ Some (now / 1000) }
        ensures arrivals { self.old.noted ≢ Some (now / 1000) →
            self.new.arrivals.items ≡ all_noted now self.old.arrivals.items rings.now.rings }
    {
        let second = now / 1_000;
        if self.noted == Some(second) {
            return;
        }
        self.noted = Some(second);
        note_all(self.arrivals.as_mut_slice(), rings, now);
    }

    /// Looks at the clients, once a second at most. Those who left so far lost so many records: what all lost is summed
    /// at this look, so that it never falls.
    pub fn gather<P: Ports>(&mut self, now: u64, server: &Loop<P>, lost: u64)
        ensures again { self.old.gathered ≡ Some (now / 1000) → self.new ≡ self.old }
        ensures second { self.new.gathered ≡ Some (now / 1000) }
        ensures minutes { self.old.gathered ≢ Some (now / 1000) →
            self.new.arrivals.items ≡ map (reaching (now / 60000)) self.old.arrivals.items }
    {
        let second = now / 1_000;
        if self.gathered == Some(second) {
            return;
        }
        self.gathered = Some(second);
        reach_all(self.arrivals.as_mut_slice(), now / 60_000);
        self.crowd.count(now, server, lost);
    }

    /// What is told of the station at a place, if one is there.
    fn station_at<'x>(
        &'x self,
        now: u64,
        place: usize,
        station: &'x Station,
        rings: &Rings,
        listed: Listed<'x>,
    ) -> Option<StationStatus<'x>>
        ensures told { IfSome result (TellsOf now place station.now rings.now self.now.arrivals.items
            (listed_at listed.entry.users.now place) (limit_at listed.entry.limits.now place)) }
        ensures there { place < length rings.now.rings → place < length self.now.arrivals.items →
            place < length self.now.crowd.followers.items → IsSome result }
    {
        let ring = rings.ring(place)?;
        let arrivals = self.arrivals.get(place)?;
        let followers = self.crowd.followers.get(place)?;
        Some(StationStatus {
            network: station.network(),
            code: station.code(),
            description: station.description(),
            users: users_at(listed.users, place),
            held: held_of(ring),
            capacity: station.capacity() as u64,
            next_number: ring.next_number().digits(),
            records: ring.pushes(),
            last: last_of(ring),
            age: arrivals.age(now),
            silent_after: limit_at(listed.limits, place),
            minutes: &arrivals.minutes.counts,
            followers: *followers,
        })
    }

    /// What is told of stations, in their order. The list is made anew; only memory for it can lack.
    fn stations_of<'x>(
        &'x self,
        alloc: Global,
        now: u64,
        all: &'x [Station],
        rings: &Rings,
        listed: Listed<'x>,
    ) -> Result<Vec<StationStatus<'x>>, AllocError>
        ensures { IfOk result (λ told.
            Knows (length all.now) rings.now self.now.arrivals.items self.now.crowd.followers.items →
            TellOf now all.now rings.now self.now.arrivals.items listed.entry.users.now listed.entry.limits.now
            told.items) }
    {
        let mut stations = Vec::with_capacity(alloc, all.len())?;
        for (place, station) in all.iter().enumerate() {
            if let Some(status) = self.station_at(now, place, station, rings, listed) {
                // There is room for it.
                if stations.push(status).is_err() {
                    return Err(AllocError);
                }
            }
        }
        Ok(stations)
    }

    /// What is told of all stations, in the order of the configuration or by age, with what else is listed of them. The
    /// list is made anew; only memory for it can lack.
    pub fn stations<'x, P: Ports>(
        &'x self,
        alloc: Global,
        now: u64,
        server: &'x Loop<P>,
        listed: Listed<'x>,
        is_by_age: bool,
    ) -> Result<Vec<StationStatus<'x>>, AllocError>
        ensures told { IfOk result (λ told. (ordered : List StationValue) × (is_by_age ≡ false → told.items ≡ ordered)
            × IsPermutation ordered told.items
            × (Knows (length server.now.server.config.entries) server.now.server.rings self.now.arrivals.items
            self.now.crowd.followers.items → TellOf now server.now.server.config.entries server.now.server.rings
            self.now.arrivals.items listed.entry.users.now listed.entry.limits.now ordered)) }
        ensures by_age { IfOk result (λ told. is_by_age ≡ true →
            IsNonDecreasingBy (λ (s : StationValue). 2 ^ 64 - 1 - s.age) told.items) }
    {
        let config = server.server().config();
        let mut stations = self.stations_of(alloc, now, config.stations(), server.rings(), listed)?;
        if is_by_age {
            stations.sort_by_key(|station| u64::MAX - station.age)?;
        }
        Ok(stations)
    }

    /// What is told of the server, with what is told of its stations.
    pub fn status<'x, P: Ports>(
        &'x self,
        now: u64,
        server: &'x Loop<P>,
        told: Told<'x>,
        stations: &'x [StationStatus<'x>],
    ) -> StatusValue<'x>
        ensures stations { result.stations ≡ stations.entry }
        ensures records { (config : ProtocolConfig) (w : World) → StandsAt server.now.server config w →
            result.records ≡ length w.history }
        ensures open_clients { result.open_clients ≡ clients_in server.now.seats }
        ensures open_feeds { result.open_feeds ≡ feeds_in server.now.seats }
        ensures refused { result.refused ≡ server.now.refused }
        ensures title { result.title.now ≡ server.now.server.config.title }
        ensures silent_after { result.silent_after ≡ told.entry.silent_after }
        ensures client_bytes { result.client_bytes ≡ told.entry.client_bytes }
        ensures turns { result.turns ≡ told.entry.turns }
    {
        StatusValue {
            title: server.server().config().title(),
            version: told.version,
            began: told.began,
            passed: now / 1_000,
            silent_after: told.silent_after,
            open_clients: server.clients() as u64,
            open_feeds: server.feeds() as u64,
            records: server.arrivals(),
            refused: server.refused(),
            refusals: told.refusals,
            away: told.away,
            client_bytes: told.client_bytes,
            client_lost: self.crowd.lost,
            turns: told.turns,
            stations,
            clients: self.crowd.clients.as_slice(),
        }
    }
}

/// How many records a ring holds.
fn held_of(ring: &Ring) -> u64 {
    let pushes = ring.pushes();
    match ring.oldest() {
        Some(oldest) => pushes.saturating_sub(oldest),
        None => 0,
    }
}

/// The last record of a ring.
fn last_of(ring: &Ring) -> Option<LastRecord> {
    let held = ring.get(ring.pushes().checked_sub(1)?)?;
    Some(LastRecord {
        start: held.summary.start,
        stop: held.summary.stop,
    })
}

/// Who may use the station at a place, by texts for all.
fn users_at<'x>(users: &'x [Vec<u8>], place: usize) -> &'x [u8]
    ensures { result.now ≡ listed_at users.now place }
{
    match users.get(place) {
        Some(users) => users.as_slice(),
        None => b"",
    }
}

/// After how long the station at a place is silent, by limits for all.
fn limit_at(limits: &[Option<u64>], place: usize) -> Option<u64>
    ensures { result ≡ limit_at limits.now place }
{
    match limits.get(place) {
        Some(limit) => *limit,
        None => None,
    }
}

/// How many records of the stations that it named a client's transfer has not looked at.
fn behind_in(rings: &Rings, session: &Session) -> u64
    ensures { result ≡ ahead_by session.now.state rings.now (map entry_of (chosen_of session.now.mode)) }
{
    match session.state() {
        State::Transfer(_) => behind_of(rings, session.choices()),
        _ => 0,
    }
}

/// What a client's session tells of it.
#[derive(Clone, Copy)]
struct Followed {
    /// How many stations it named.
    named: u64,
    /// How many of their records its transfer has not looked at.
    behind: u64,
    /// How many went out of their rings before it came to them.
    lost: u64,
}

impl Followed {
    /// What a session tells.
    fn by(rings: &Rings, session: &Session) -> Followed
        ensures named { result.named ≡ length (chosen_of session.now.mode) }
        ensures behind { result.behind
            ≡ ahead_by session.now.state rings.now (map entry_of (chosen_of session.now.mode)) }
        ensures lost { result.lost ≡ session.now.lost }
    {
        Followed {
            named: session.choices().len() as u64,
            behind: behind_in(rings, session),
            lost: session.lost(),
        }
    }
}

/// What is told of a client at a port, if it is known who it is.
fn client_status(
    now: u64,
    port: u64,
    followed: Followed,
    visitor: Option<PresentClient>,
) -> ClientStatus
    ensures { result ≡ client_status_of now port followed visitor }
{
    let Followed {
        named,
        behind,
        lost,
    } = followed;
    match visitor {
        Some(visitor) => ClientStatus {
            number: port,
            address: visitor.address.octets(),
            seconds: now.saturating_sub(visitor.since) / 1_000,
            named,
            bytes: visitor.bytes,
            behind,
            lost,
        },
        None => ClientStatus {
            number: port,
            address: [0; 4],
            seconds: 0,
            named,
            bytes: 0,
            behind,
            lost,
        },
    }
}
