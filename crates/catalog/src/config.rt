//! What a server is set up with.
//!
//! The codes of a place that isn't there in the configuration are empty, in the code as in the definitions, so that
//! comparing stations asks nothing of a caller. No such place comes up.
ghost use Rattle.std.specs.Prelude.{◌≡◌, ◌≢◌, ◌<◌, ◌≤◌, All, length, slice_get, option_map, unwrap_or, false, IfOk};
ghost use Rattle.std.specs.Prelude.{IfErr, OnOk, Ok, Err, Some, None, IfSome};
ghost use Rattle.std.specs.List.{position};
ghost use Rattle.std.specs.Str.{IsUtf8};
ghost use Rattle.std.specs.Net.Addr.{ipv4_bits};
ghost use Rattle.toml.specs.Parse.{parse_document};
ghost use Rattle.toml.specs.View.{table_view};
ghost use Rattle.protocol.specs.Catalog.{has_codes, sees, view_of, is_same_view, is_same_but_for_access};
ghost use Rattle.catalog.specs.Failing.{FailsAt};
ghost use Rattle.catalog.specs.Numbers.{config_by};
ghost use Rattle.catalog.specs.Indexing.{HasShortCodes};
ghost use Rattle.catalog.specs.Orders.{Fits};
ghost use Rattle.catalog.specs.Places.{view_in, HasDistinctCodes};
ghost use Rattle.catalog.specs.Reading.{config_of, config_read};
ghost use Rattle.catalog.specs.declared.error.Step.TheVariants.{Text};

use crate::comparing::{are_same, are_seen, copies};
use crate::error::{ConfigError, Step};
use crate::fault::ConfigFault;
use crate::groups::Groups;
use crate::index::Index;
use crate::keys::table_of;
use crate::listing::stations_of;
use crate::numbers::{KeptNumber, begin_at};
use crate::settings::{access_of, connections_of, title_of};
use crate::station::{Station, copy_of};
use crate::view::{View, see};
use access_list::AccessList;
use std::alloc::{AllocError, Global};
use std::marker::Model;
use std::net::Ipv4Addr;
use toml::Table;

/// The settings of a server.
#[derive(Drop)]
pub struct Config {
    title: Vec<u8>,
    max_connections: usize,
    access: Option<AccessList>,
    stations: Vec<Station>,
    index: Index,
}

impl Model for Config {
    ghost use Rattle.std.specs.Prelude.{◌≤◌, length, All};
    ghost use Rattle.protocol.specs.Catalog.{Config as ProtocolConfig};
    ghost use Rattle.catalog.specs.Places.{HasDistinctCodes};
    ghost use Rattle.catalog.specs.Indexing.{Finds, HasShortCodes};

    ghost Value = { ProtocolConfig };

    ghost view = { λ c. record {
      title = c.title.items;
      max_connections = c.max_connections;
      access = c.access;
      entries = c.stations.items;
    } };

    ghost invariant = { λ c.
        (length c.title.items ≤ 100) × (1 ≤ c.max_connections) × (c.max_connections ≤ 10000) ×
        HasDistinctCodes c.stations.items × All HasShortCodes c.stations.items ×
        Finds c.index.places c.stations.items × (length c.stations.items ≤ 1024) };
}

impl Config {
    /// Reads the text of a configuration, which is TOML in UTF-8. Its keys are judged in this order, and the first that
    /// fails is told: `title`, `access`, `max_connections`, `station`, and then those of each station in order, by the
    /// steps of `StationStep`, which say what is allowed there. Other keys are ignored.
    ///
    /// - `title` has 1 to 100 bytes of printable ASCII.
    /// - `access` is a list of addresses and masks, and may be missing. An entry of `@` and the name of a text of the
    ///   table `groups` stands for the entries of that text.
    /// - `max_connections` is 1 to 10,000, and 100 where it is missing.
    /// - `station` is an array of 1 to 1,024 tables.
    ///
    /// It fails with Toml where the bytes are no UTF-8 or no TOML; with Missing where a key that has to be there is
    /// missing, or one has a value of another kind; with Limit where a value is outside these limits; with Access where
    /// an access list is refused; with Duplicate; and with OutOfMemory only where there is no memory.
    pub fn read(alloc: Global, bytes: &[u8]) -> Result<Config, ConfigFault>
        ensures ok { IfOk result (λ config. config_read (parse_document bytes.now) ≡ Ok config) }
        ensures text { OnOk result (IsUtf8 bytes.now) }
        ensures fault { IfErr result (λ e. e ≢ ConfigFault.OutOfMemory → IsUtf8 bytes.now
            → config_read (parse_document bytes.now) ≡ Err e) }
        ensures no_text { IfErr result (λ e. e ≢ ConfigFault.OutOfMemory → ¬ IsUtf8 bytes.now → e ≡ ConfigFault.Toml) }
    {
        match Config::read_by_steps(alloc, bytes) {
            Ok(config) => Ok(config),
            Err(error) => Err(error.fault),
        }
    }

    /// Reads the text of a configuration as `read` does, and says at a fault which step failed: it is the first that
    /// fails, and all steps before it succeed. At a step of a station the stations before it are read, and its codes
    /// are given where they were read before.
    pub fn read_by_steps(alloc: Global, bytes: &[u8]) -> Result<Config, ConfigError>
        ensures ok { IfOk result (λ config. config_read (parse_document bytes.now) ≡ Ok config) }
        ensures text { OnOk result (IsUtf8 bytes.now) }
        ensures fault { IfErr result (λ e. e.fault ≢ ConfigFault.OutOfMemory → IsUtf8 bytes.now
            → config_read (parse_document bytes.now) ≡ Err e.fault) }
        ensures no_text { IfErr result (λ e. e.fault ≢ ConfigFault.OutOfMemory → ¬ IsUtf8 bytes.now
            → e.fault ≡ ConfigFault.Toml) }
        ensures step { IfErr result (λ e. e.fault ≢ ConfigFault.OutOfMemory → IsUtf8 bytes.now
            → FailsAt (parse_document bytes.now) e) }
        ensures no_step { IfErr result (λ e. e.fault ≢ ConfigFault.OutOfMemory → ¬ IsUtf8 bytes.now → e.step ≡ Text) }
    {
        match table_of(alloc, bytes) {
            Ok(table) => Config::of_table(alloc, &table),
            Err(fault) => Err(ConfigError::at(fault, Step::Text)),
        }
    }

    /// The settings that a table has.
    #[tactic(auto, unfolding(crate::specs::Reading::config_of))]
    fn of_table(alloc: Global, table: &Table) -> Result<Config, ConfigError>
        ensures ok { IfOk result (λ config. config_of (table_view table.now) ≡ Ok config) }
        ensures fault { IfErr result (λ e. e.fault ≢ ConfigFault.OutOfMemory
            → config_of (table_view table.now) ≡ Err e.fault) }
        ensures step { IfErr result (λ e. e.fault ≢ ConfigFault.OutOfMemory
            → FailsAt (Some (table_view table.now)) e) }
    {
        let title = match title_of(alloc, table) {
            Ok(title) => title,
            Err(fault) => return Err(ConfigError::at(fault, Step::Title)),
        };
        let access = match access_of(alloc, &Groups::of(table), table) {
            Ok(access) => access,
            Err(fault) => return Err(ConfigError::at(fault, Step::Access)),
        };
        let max_connections = match connections_of(table) {
            Ok(max_connections) => max_connections,
            Err(fault) => return Err(ConfigError::at(fault, Step::MaxConnections)),
        };
        let listed = stations_of(alloc, table)?;
        Ok(Config {
            title,
            max_connections,
            access,
            stations: listed.stations,
            index: listed.index,
        })
    }

    /// The title, of at most 100 bytes.
    pub fn title(&self) -> &[u8]
        ensures value { result.now ≡ self.now.title }
        ensures short { length result.now ≤ 100 }
    {
        self.title.as_slice()
    }

    /// How many clients may be connected at a time, 1 to 10,000.
    pub fn max_connections(&self) -> usize
        ensures value { result ≡ self.now.max_connections }
        ensures some { 1 ≤ result }
        ensures limit { result ≤ 10000 }
    {
        self.max_connections
    }

    /// The stations, in order.
    pub fn stations(&self) -> &[Station]
        ensures { result.now ≡ self.now.entries }
    {
        self.stations.as_slice()
    }

    /// The place of the first station with these codes, byte for byte, found by their hash.
    pub fn place_of(&self, network: &[u8], code: &[u8]) -> Option<usize>
        ensures value { result ≡ position (λ e. has_codes network.now code.now e.station) self.now.entries }
        ensures few { IfSome result (λ place. place < 1024) }
    {
        self.index.place_of(network, code)
    }

    /// No two of its stations have the same network and code, and none has empty ones: a call that does nothing, for
    /// its contract.
    pub fn codes_are_distinct(&self)
        ensures { HasDistinctCodes self.now.entries }
    {
        let _ = &self.stations;
    }

    /// The codes of its stations are as short as codes may be: a call that does nothing, for its contract.
    pub(crate) fn codes_are_short(&self)
        ensures { All HasShortCodes self.now.entries }
    {
        let _ = &self.stations;
    }

    /// Whether an address may use the station at a place: the station's own list decides, without one the global list,
    /// and without either everybody may. At a place without a station nobody sees anything.
    pub fn sees(&self, place: usize, address: Ipv4Addr) -> bool
        ensures { result ≡ unwrap_or (option_map (λ e. sees e.access self.now.access (ipv4_bits address))
            (slice_get self.now.entries place)) false }
    {
        match self.stations.get(place) {
            Some(station) => station.is_open_to(&self.access, address),
            None => false,
        }
    }

    /// Whether an address may use the stations that have no list of their own.
    pub(crate) fn sees_others(&self, address: Ipv4Addr) -> bool
        ensures { result ≡ sees None self.now.access (ipv4_bits address) }
    {
        match &self.access {
            Some(global) => global.allows(address),
            None => true,
        }
    }

    /// What an address sees: the stations that it may use, in order. Only memory can lack.
    #[tactic(auto, using(crate::proofs::ViewLemmas::view_lemmas))]
    pub fn view(&self, alloc: Global, address: Ipv4Addr) -> Result<View, AllocError>
        ensures view { IfOk result (λ v. view_in self.now v ≡ view_of self.now (ipv4_bits address)) }
        ensures fits { IfOk result (λ v. Fits self.now v) }
    {
        let mut places = Vec::new(alloc);
        for (place, station) in self.stations.iter().enumerate() {
            if station.is_open_to(&self.access, address) {
                see(&mut places, place)?;
            }
        }
        let view = View::of(alloc, places, self.stations())?;
        Ok(view)
    }

    /// Whether an address sees exactly the stations of a view, in the same order.
    pub fn has_view(&self, address: Ipv4Addr, view: &View) -> bool
        ensures { result ≡ is_same_view (view_of self.now (ipv4_bits address)) (view_in self.now view.now) }
    {
        are_seen(self.stations(), &self.access, address, view.places())
    }

    /// Whether another configuration is the same but for the lists of addresses, the server's and the stations': the
    /// same title and limit of connections, and the same stations in the same order.
    pub fn is_same_but_for_access(&self, new: &Config) -> bool
        ensures { result ≡ is_same_but_for_access self.now new.now }
    {
        self.title() == new.title()
            && self.max_connections == new.max_connections
            && are_same(self.stations(), new.stations())
    }

    /// Has each station begin with the number that is kept for it: the first in the list that has its codes. A station
    /// of which none is there keeps its own.
    pub fn begin_at(&mut self, kept: &[KeptNumber])
        ensures { self.new ≡ config_by kept.now self.old }
    {
        begin_at(&mut self.stations, kept);
    }

    /// The same configuration once more. Only memory can lack.
    pub fn copy(&self, alloc: Global) -> Result<Config, AllocError>
        ensures { IfOk result (λ copy. copy ≡ self.now) }
    {
        let title = self.title().to_vec(alloc)?;
        let access = copy_of(alloc, &self.access)?;
        let stations = copies(alloc, self.stations())?;
        let index = Index::of(alloc, stations.as_slice())?;
        Ok(Config {
            title,
            max_connections: self.max_connections,
            access,
            stations,
            index,
        })
    }
}
