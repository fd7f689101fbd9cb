//! All clients of a server.
//!
//! `Server::ready` borrows the server to change it, since it moves cursors past what is not wanted: asking again then
//! looks at no record twice. It is no event: the server stands for the same world, with the same marks.
ghost use Rattle.std.specs.Prelude.{OnErr, option_map, ◌≡◌, ◌≢◌, ◌-◌, ◌^◌, Err, ◌<◌, ◌≤◌, [], ◌∷◌, ◌++◌, length};
ghost use Rattle.std.specs.Prelude.{slice_get, slice_index_or, IfOk, OnOk, Ok, Some, None, ℕ, not, false, is_some};
ghost use Rattle.std.specs.Prelude.{◌+◌, ◌*◌, is_ok, true, vec_capacity, vec_len};
ghost use Rattle.std.specs.Result.{result_ok};
ghost use Rattle.std.specs.Net.Addr.{ipv4_bits};
ghost use Rattle.protocol.specs.Catalog.{Config as ProtocolConfig, is_same_but_for_access};
ghost use Rattle.protocol.specs.Client.{offered};
ghost use Rattle.protocol.specs.World.{World, config_by, step, empty_world, client_of};
ghost use Rattle.protocol.specs.World.Event.{Open, Bytes, Take, Close, Arrive, Reload};

use crate::arrivals::{ArriveFault, Placing, placed};
use crate::client::{Client, Filled, Gone, Offer, ReceiveRefusal, ReloadFault};
use crate::clients::Clients;
use crate::marks::Marks;
use crate::reviewing::review_all;
use crate::slots;
use catalog::Config;
use session_state::{News, Session, State};
use sl_packet::Seq;
use station_ring::Rings;
use std::alloc::{AllocError, Global};
use std::marker::Model;
use std::net::Ipv4Addr;

/// All clients of a server, each at its number.
#[derive(Drop)]
pub struct Server {
    config: Config,
    rings: Rings,
    clients: Clients,
    marks: Marks,
}

impl Model for Server {
    ghost use Rattle.std.specs.Prelude.{◌≡◌, length};
    ghost use Rattle.server_core.specs.Clients.{IsTable, sessions_of, addresses_of};
    ghost use Rattle.server_core.specs.Marks.{AreMarked, marks_of};
    ghost use Rattle.server_core.specs.Reloads.{AreCurrent, HasHistory};
    ghost use Rattle.server_core.specs.ServerValues.{ServerValue, AreSettled};

    ghost Value = { ServerValue };

    ghost view = { λ s. record {
      config = s.config;
      rings = s.rings;
      sessions = sessions_of s.clients;
      addresses = addresses_of s.clients;
      marks = marks_of s.clients s.marks;
    } };

    ghost invariant = { λ s. IsTable s.clients × AreSettled s.config s.rings s.clients.slots
        × (length s.rings.rings ≡ length s.config.entries)
        × AreMarked s.config s.rings s.marks s.clients.slots × (length s.marks.rows.items ≡ length s.config.entries)
        × HasHistory s.config s.rings × AreCurrent s.config (sessions_of s.clients) (addresses_of s.clients) };
}

impl Server {
    ghost use Rattle.session_state.specs.Sessions.{SessionValue};
    ghost use Rattle.station_ring.specs.declared.held.Summary.{Summary};
    ghost use Rattle.station_ring.specs.HeldRecords.{holdings_of};
    ghost use Rattle.server_core.specs.ServerValues.{MayTake, StandsAt, mark_at, news_at};
    ghost use Rattle.server_core.specs.Marks.{IsAmong, IsSpared, LeavesOthers, MarksThose, OpensNext};
    ghost use Rattle.server_core.specs.Filling.{IsFilled, IsOffered};
    ghost use Rattle.server_core.specs.Reloads.{is_cut_at};
    ghost use Rattle.server_core.specs.Refusals.{is_idle, room_of, receipt, offer_of};
    ghost use Rattle.server_core.specs.declared.client.Offer.TheVariants.{Idle};
    ghost use Rattle.server_core.specs.Arrivals.{answer_to, IsExhausted, IsPlaced};
    ghost use Rattle.server_core.specs.declared.arrivals.ArriveFault.TheVariants.{Exhausted};

    /// A server that no one has come to, and where no record arrived. Only memory can lack.
    pub fn new(alloc: Global, config: Config) -> Result<Server, AllocError>
        ensures { IfOk result (λ server. StandsAt server config empty_world) }
    {
        let rings = Rings::new(alloc, &config)?;
        let marks = Marks::new(alloc, config.stations().len())?;
        Ok(Server {
            config,
            rings,
            clients: Clients::new(alloc),
            marks,
        })
    }

    /// A client comes from an address, and has the next number. Only memory can lack, or numbers once 2^64 - 1 clients
    /// came, and then nothing changes.
    pub fn open(&mut self, alloc: Global, address: Ipv4Addr) -> Result<Client, AllocError>
        ensures ok { OnOk result ((config : ProtocolConfig) (w : World) → StandsAt self.old config w
            → StandsAt self.new config (step config w (Open (ipv4_bits address)))) }
        ensures number { IfOk result (λ c. c ≡ length self.old.sessions) }
        ensures others { OnOk result (OpensNext self.old self.new) }
        ensures err { OnErr result (self.new ≡ self.old) }
    {
        let view = self.config.view(alloc, address)?;
        let session = Session::new(alloc, view)?;
        self.marks.reserve(self.clients.next_slot())?;
        let client = self.clients.open(session, address)?;
        Ok(client)
    }

    /// How many bytes a client may send: 1,024 less the unread ones.
    pub fn room(&self, client: &Client) -> Result<usize, Gone>
        ensures { (config : ProtocolConfig) (w : World) → StandsAt self.now config w
            → result_ok result ≡ option_map room_of (client_of (slice_get w.connections client.now)) }
    {
        match self.session(client) {
            Some(session) => Ok(session.room()),
            None => Err(Gone),
        }
    }

    /// Bytes come from a client, and its lines are obeyed as far as they may be. Bytes that do not fit are refused as a
    /// whole, and nothing changes. In its end they are taken and dropped.
    pub fn receive(&mut self, client: &Client, bytes: &[u8]) -> Result<(), ReceiveRefusal>
        ensures stands { (config : ProtocolConfig) (w : World) → StandsAt self.old config w
            → StandsAt self.new config (step config w (Bytes client.now bytes.now)) }
        ensures answer { (config : ProtocolConfig) (w : World) → StandsAt self.old config w
            → result ≡ receipt (length bytes.now) (client_of (slice_get w.connections client.now)) }
        ensures others { LeavesOthers client.now self.old self.new }
    {
        match self.clients.slot_of(client) {
            Some(slot) => slots::receive_in(
                &self.config,
                &self.rings,
                &mut self.clients.slots,
                &mut self.marks,
                slot,
                bytes,
            ),
            None => Err(ReceiveRefusal::Gone),
        }
    }

    /// Where nothing waits for a client, what comes next is made to wait, and stays until it is taken. It answers
    /// whether bytes wait then, or the client's connection is over, or neither.
    pub fn offer(&mut self, client: &Client) -> Result<Offer, Gone>
        ensures stands { (config : ProtocolConfig) (w : World) → StandsAt self.old config w
            → StandsAt self.new config (step config w (Take client.now 0)) }
        ensures answer { (config : ProtocolConfig) (w : World) → StandsAt self.old config w
            → result_ok result ≡ option_map (λ c. offer_of (offered w.history c))
            (client_of (slice_get w.connections client.now)) }
        ensures unmarked { result ≡ Ok Idle → mark_at self.new client.now ≡ Some false }
        ensures others { LeavesOthers client.now self.old self.new }
    {
        match self.clients.slot_of(client) {
            Some(slot) => slots::offer_in(
                &self.config,
                &self.rings,
                &mut self.clients.slots,
                &mut self.marks,
                slot,
            ),
            None => Err(Gone),
        }
    }

    /// Whether an offer to a client may find something. Where it says no, an offer finds nothing and changes nothing. A
    /// record that arrives marks the clients in a transfer with a request for its station, what a client sends and what
    /// it was handed marks that client, and an offer that finds nothing takes the mark away.
    pub fn marked(&self, client: &Client) -> Result<bool, Gone>
        ensures value { result_ok result ≡ mark_at self.now client.now }
        ensures open { (config : ProtocolConfig) (w : World) → StandsAt self.now config w →
            is_ok result ≡ is_some (client_of (slice_get w.connections client.now)) }
        ensures spared { result ≡ Ok false → (config : ProtocolConfig) (w : World) → StandsAt self.now config w →
            IsSpared config w client.now }
    {
        match self.clients.slot_of(client) {
            Some(slot) => Ok(self.marks.is_marked(slot)),
            None => Err(Gone),
        }
    }

    /// A law: each client that is not marked is open, and may be spared.
    pub fn unmarked_are_spared(&self)
        ensures spared { (k : ℕ) → mark_at self.now k ≡ Some false → (config : ProtocolConfig) (w : World)
            → StandsAt self.now config w → IsSpared config w k }
        ensures there { (k : ℕ) → mark_at self.now k ≡ Some false → (config : ProtocolConfig) (w : World)
            → StandsAt self.now config w → is_some (client_of (slice_get w.connections k)) ≡ true }
    {
        let _ = &self.clients;
    }

    /// All clients that are marked, and no others, stand in a list from now on. It fails only for want of memory, and
    /// then some of them stand in it.
    pub fn marked_clients(&self, some: &mut Vec<Client>) -> Result<(), AllocError>
        ensures all { OnOk result ((k : ℕ) → mark_at self.now k ≡ Some true → IsAmong k some.new.items) }
        ensures only { (k : ℕ) → IsAmong k some.new.items → mark_at self.now k ≡ Some true }
    {
        self.clients.list_set(&self.marks.marked, some)
    }

    /// Whether an offer to a client would find something: bytes, or that the connection is over. It is no event: the
    /// server stands for what it stood for, with the same marks. A client that is not marked is answered without a look
    /// at what is held, and for another no record is looked at twice that it doesn't want.
    pub fn ready(&mut self, client: &Client) -> Result<bool, Gone>
        ensures stands { (config : ProtocolConfig) (w : World) → StandsAt self.old config w →
            StandsAt self.new config w }
        ensures answer { (config : ProtocolConfig) (w : World) → StandsAt self.old config w → result_ok result
            ≡ option_map (λ c. not (is_idle (offer_of (offered w.history c))))
            (client_of (slice_get w.connections client.now)) }
        ensures spared { result ≡ Ok false → (config : ProtocolConfig) (w : World) → StandsAt self.old config w →
            IsSpared config w client.now }
        ensures marks { self.new.marks ≡ self.old.marks }
        ensures others { LeavesOthers client.now self.old self.new }
    {
        match self.clients.slot_of(client) {
            Some(slot) => slots::is_ready_in(
                &self.config,
                &self.rings,
                &mut self.clients.slots,
                &self.marks,
                slot,
            ),
            None => Err(Gone),
        }
    }

    /// What there is to tell of a client's negotiation since this was asked last, if anything: the last of it. A call
    /// that reads what the client sent (`receive`, `took`, `go_on`) leaves at most one thing more, so that whoever asks
    /// after each of them hears of all. It is no event: the server stands for what it stood for, with the same marks.
    pub fn take_news(&mut self, client: &Client) -> Option<News>
        ensures news { result ≡ news_at self.old client.now }
        ensures taken { news_at self.new client.now ≡ None }
        ensures stands { (config : ProtocolConfig) (w : World) → StandsAt self.old config w →
            StandsAt self.new config w }
        ensures marks { self.new.marks ≡ self.old.marks }
        ensures others { LeavesOthers client.now self.old self.new }
    {
        match self.clients.slot_of(client) {
            Some(slot) => slots::take_news_in(
                &self.config,
                &self.rings,
                &mut self.clients.slots,
                &self.marks,
                slot,
            ),
            None => None,
        }
    }

    /// The bytes that wait for a client.
    pub fn waiting(&self, client: &Client) -> Result<&[u8], Gone>
        ensures session { (s : SessionValue) → slice_get self.now.sessions client.now ≡ Some (Some s)
            → option_map (λ bytes. bytes.now) (result_ok result) ≡ Some s.waiting }
        ensures answer { (config : ProtocolConfig) (w : World) → StandsAt self.now config w
            → option_map (λ bytes. bytes.now) (result_ok result)
            ≡ option_map (λ c. c.waiting) (client_of (slice_get w.connections client.now)) }
    {
        match self.session(client) {
            Some(session) => Ok(session.waiting()),
            None => Err(Gone),
        }
    }

    /// The first bytes that wait for a client, 1 to all of them, were handed. When none is left, its further lines are
    /// obeyed.
    pub fn took(&mut self, client: &Client, count: usize) -> Result<(), Gone>
        requires { MayTake self.old client.now count }
        ensures stands { (config : ProtocolConfig) (w : World) → StandsAt self.old config w
            → StandsAt self.new config (step config w (Take client.now count)) }
        ensures answer { (config : ProtocolConfig) (w : World) → StandsAt self.old config w
            → is_ok result ≡ is_some (client_of (slice_get w.connections client.now)) }
        ensures others { LeavesOthers client.now self.old self.new }
    {
        match self.clients.slot_of(client) {
            Some(slot) => slots::took_in(
                &self.config,
                &self.rings,
                &mut self.clients.slots,
                &mut self.marks,
                slot,
                count,
            ),
            None => Err(Gone),
        }
    }

    /// The first bytes that wait for a client, 1 to all of them, were handed, and what comes next is made to wait: what
    /// `took` and then `offer` do, of which the latter answers, in one look at the client.
    pub fn go_on(&mut self, client: &Client, count: usize) -> Result<Offer, Gone>
        requires { MayTake self.old client.now count }
        ensures stands { (config : ProtocolConfig) (w : World) → StandsAt self.old config w
            → StandsAt self.new config (step config (step config w (Take client.now count)) (Take client.now 0)) }
        ensures answer { (config : ProtocolConfig) (w : World) → StandsAt self.old config w
            → result_ok result ≡ option_map (λ c. offer_of (offered w.history c))
            (client_of (slice_get (step config w (Take client.now count)).connections client.now)) }
        ensures unmarked { result ≡ Ok Idle → mark_at self.new client.now ≡ Some false }
        ensures others { LeavesOthers client.now self.old self.new }
    {
        match self.clients.slot_of(client) {
            Some(slot) => slots::go_on_in(
                &self.config,
                &self.rings,
                &mut self.clients.slots,
                &mut self.marks,
                slot,
                count,
            ),
            None => Err(Gone),
        }
    }

    /// Whole packets that wait for a client that was offered something are handed one after the other, at most so many:
    /// they are appended to `out`, which has room for them. What is handed is what as many single offers and takes
    /// would have handed. It stops before anything else that waits (a line, END, a rest of a packet), and answers how
    /// many packets it handed and what the offer after them found. It takes no memory.
    pub fn fill(
        &mut self,
        client: &Client,
        found: Result<Offer, Gone>,
        most: usize,
        out: &mut Vec<u8>,
    ) -> Filled
        requires { vec_len out.old + most * 520 ≤ vec_capacity out.old }
        ensures fills { (config : ProtocolConfig) (w : World) → IsOffered config w client.now found self.old →
            IsFilled config w client.now out.old.items out.new.items result self.new }
        ensures most { result.count ≤ most }
        ensures unmarked { 0 < result.count → result.found ≡ Ok Idle → mark_at self.new client.now ≡ Some false }
        ensures len { vec_len out.new ≡ vec_len out.old + result.count * 520 }
        ensures room { vec_capacity out.old ≤ vec_capacity out.new }
        ensures others { LeavesOthers client.now self.old self.new }
    {
        let Some(slot) = self.clients.slot_of(client) else {
            return Filled { count: 0, found };
        };
        slots::fill_in(
            &self.config,
            &self.rings,
            &mut self.clients.slots,
            &mut self.marks,
            slot,
            found,
            most,
            out,
        )
    }

    /// A record comes from a feeder. Where it is one, and of a station of the configuration, it is the last arrival, is
    /// held, and is answered its number. It fails with Record where it is no record, else with UnknownStation where no
    /// station has its codes, and else with Exhausted exactly where 2^64 - 1 records arrived. It takes no memory.
    pub fn arrive(&mut self, bytes: &[u8; 512]) -> Result<Seq, ArriveFault>
        ensures stands { result ≢ Err Exhausted → (config : ProtocolConfig) (w : World) → StandsAt self.old config w
            → StandsAt self.new config (step config w (Arrive bytes.now)) }
        ensures answer { result ≢ Err Exhausted → (config : ProtocolConfig) (w : World) → StandsAt self.old config w
            → result ≡ answer_to config w.history bytes.now }
        ensures exhausted { result ≡ Err Exhausted → (config : ProtocolConfig) (w : World) → StandsAt self.old config w
            →
            IsExhausted config w.history bytes.now }
        ensures counted { OnOk result ((config : ProtocolConfig) (w : World) → StandsAt self.old config w →
            length w.history < 2 ^ 64 - 1) }
        ensures one_more { OnOk result (self.new.rings.arrivals ≡ self.old.rings.arrivals + 1) }
        ensures marks { OnOk result ((place : ℕ) (summary : Summary) →
            IsPlaced self.old.config bytes.now place summary →
            MarksThose place self.old self.new) }
        ensures count { length self.new.sessions ≡ length self.old.sessions }
        ensures kept { (k : ℕ) → is_some (mark_at self.new k) ≡ is_some (mark_at self.old k) }
        ensures unchanged { OnErr result (self.new ≡ self.old) }
    {
        let placing = placed(&self.config, bytes)?;
        self.hold(bytes, placing)
    }

    /// A record of a station that is there is the last arrival.
    fn hold(&mut self, bytes: &[u8; 512], placing: Placing) -> Result<Seq, ArriveFault>
        requires { IsPlaced self.old.config bytes.now placing.place placing.summary }
        ensures stands { result ≢ Err Exhausted → (config : ProtocolConfig) (w : World) → StandsAt self.old config w
            → StandsAt self.new config (step config w (Arrive bytes.now)) }
        ensures answer { result ≢ Err Exhausted → (config : ProtocolConfig) (w : World) → StandsAt self.old config w
            → result ≡ answer_to config w.history bytes.now }
        ensures exhausted { result ≡ Err Exhausted → (config : ProtocolConfig) (w : World) → StandsAt self.old config w
            →
            IsExhausted config w.history bytes.now }
        ensures counted { OnOk result ((config : ProtocolConfig) (w : World) → StandsAt self.old config w →
            length w.history < 2 ^ 64 - 1) }
        ensures one_more { OnOk result (self.new.rings.arrivals ≡ self.old.rings.arrivals + 1) }
        ensures marks { OnOk result (MarksThose placing.place self.old self.new) }
        ensures count { length self.new.sessions ≡ length self.old.sessions }
        ensures kept { (k : ℕ) → is_some (mark_at self.new k) ≡ is_some (mark_at self.old k) }
        ensures unchanged { OnErr result (self.new ≡ self.old) }
    {
        self.config.codes_are_distinct();
        if self.rings.arrivals() == u64::MAX {
            return Err(ArriveFault::Exhausted);
        }
        let number = self.rings.arrive(placing.place, bytes, placing.summary);
        self.marks.arrived(placing.place);
        Ok(number)
    }

    /// How many records arrived, at all stations: those that were accepted.
    pub fn arrivals(&self) -> u64
        ensures value { result ≡ self.now.rings.arrivals }
        ensures count { (config : ProtocolConfig) (w : World) → StandsAt self.now config w →
            result ≡ length w.history }
    {
        self.rings.arrivals()
    }

    /// What is held of all stations.
    pub fn rings(&self) -> &Rings
        ensures value { result.now ≡ self.now.rings }
        ensures holds { (config : ProtocolConfig) (w : World) → StandsAt self.now config w →
            result.now ≡ holdings_of config w.history }
    {
        &self.rings
    }

    /// A client's connection ends, and the client is gone for good.
    pub fn close(&mut self, client: &Client) -> Result<(), Gone>
        ensures stands { (config : ProtocolConfig) (w : World) → StandsAt self.old config w
            → StandsAt self.new config (step config w (Close client.now)) }
        ensures answer { (config : ProtocolConfig) (w : World) → StandsAt self.old config w
            → is_ok result ≡ is_some (client_of (slice_get w.connections client.now)) }
        ensures others { LeavesOthers client.now self.old self.new }
    {
        match self.clients.close(client.number()) {
            Some(slot) => {
                self.marks.leave(slot);
                Ok(())
            }
            None => Err(Gone),
        }
    }

    /// A new configuration comes into force, where it differs from the present one in nothing but the lists of
    /// addresses. Each open client whose address has another view under it than at its open is cut: what waits for it
    /// is still handed, its unread bytes are dropped, and nothing is read or chosen for it any more. All others go on.
    /// It fails with 34 Different exactly where the configuration differs in anything else, and then nothing changes.
    /// It takes no memory. It compares the stations' lists once, and then asks for each open client only about the
    /// server's list and the stations whose lists changed. If both configurations don't answer these the same for the
    /// client's address, or if more than 256 lists changed, it looks at all stations.
    pub fn reload(&mut self, config: Config) -> Result<(), ReloadFault>
        ensures stands { (old : ProtocolConfig) (w : World) → StandsAt self.old old w →
            StandsAt self.new (config_by old (Reload config)) (step old w (Reload config)) }
        ensures answer { is_ok result ≡ is_same_but_for_access self.old.config config }
        ensures count { length self.new.sessions ≡ length self.old.sessions }
        ensures unchanged { OnErr result (self.new ≡ self.old) }
    {
        if !self.config.is_same_but_for_access(&config) {
            return Err(ReloadFault);
        }
        review_all(
            &self.config,
            &config,
            &self.rings,
            self.clients.opened.as_slice(),
            &mut self.clients.slots,
            &mut self.marks,
        );
        self.config = config;
        Ok(())
    }

    /// Whether a client is cut: it is open, and its address has another view under the configuration in force than the
    /// client has had since it opened. What waits for it is still handed, and then its connection is over.
    pub fn is_cut(&self, client: &Client) -> bool
        ensures { result ≡ is_cut_at self.now client.now }
    {
        let _ = &self.clients;
        let Some(session) = self.session(client) else {
            return false;
        };
        match session.state() {
            State::Ending => {}
            _ => return false,
        }
        match self.clients.address_of(client) {
            Some(address) => !self.config.has_view(address, session.view()),
            None => false,
        }
    }

    /// The configuration in force.
    pub fn config(&self) -> &Config
        ensures { result.now ≡ self.now.config }
    {
        &self.config
    }

    /// The session of a client, while it is open: which stations it named, and how far its transfer has come.
    pub fn session(&self, client: &Client) -> Option<&Session>
        ensures { option_map (λ session. session.now) result ≡ slice_index_or self.now.sessions client.now None }
    {
        let slot = self.clients.slot_of(client)?;
        self.clients.slots.get(slot)
    }
}
