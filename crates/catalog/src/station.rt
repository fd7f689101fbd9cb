//! Stations of a configuration.
ghost use Rattle.std.specs.Prelude.{◌≡◌, ◌≢◌, ◌≤◌, length, List, Some, None, IfOk, OnOk, IfErr, Ok, Err, option_map};
ghost use Rattle.std.specs.Net.Addr.{ipv4_bits};
ghost use Rattle.toml.specs.View.{table_view};
ghost use Rattle.protocol.specs.Catalog.{Entry, has_codes, is_same_station, sees};
ghost use Rattle.catalog.specs.Changes.{is_same_list};
ghost use Rattle.catalog.specs.Failing.{FailsWithin};
ghost use Rattle.catalog.specs.Groups.{groups_value};
ghost use Rattle.catalog.specs.Indexing.{key, HasShortCodes};
ghost use Rattle.catalog.specs.Reading.{entry_of};
ghost use Rattle.catalog.specs.Settings.{code_of, key_fault, key_steps, network_of};
ghost use Rattle.catalog.specs.Steps.{first_fault};
ghost use Rattle.catalog.specs.declared.settings.StationStep.TheVariants.{Codes as AtCodes};
ghost use Rattle.catalog.specs.declared.error.Step.TheVariants.{Station as StationAt};

use crate::codes::Codes;
use crate::error::{ConfigError, Step};
use crate::fault::ConfigFault;
use crate::groups::Groups;
use crate::settings::{Settings, StationStep, code_of, network_of};
use access_list::AccessList;
use sl_packet::Seq;
use std::alloc::{AllocError, Global};
use std::marker::Model;
use std::net::Ipv4Addr;
use toml::Table;

/// A station that the server has, and who may use it. In a contract it is its settings with the addresses of its own
/// list, where it has one.
#[derive(Drop)]
pub struct Station {
    network: Vec<u8>,
    code: Vec<u8>,
    codes: Codes,
    description: Vec<u8>,
    capacity: usize,
    first: Seq,
    access: Option<AccessList>,
}

impl Model for Station {
    ghost use Rattle.std.specs.Prelude.{◌≡◌, ◌≤◌, length};
    ghost use Rattle.protocol.specs.Catalog.{Entry};
    ghost use Rattle.catalog.specs.Indexing.{key, AreCodes};

    ghost Value = { Entry };

    ghost view = { λ s. record {
      station = record {
        network = s.network.items;
        code = s.code.items;
        description = s.description.items;
        capacity = s.capacity;
        first = s.first;
      };
      access = s.access;
    } };

    ghost invariant = { λ s.
        (1 ≤ length s.network.items) × (length s.network.items ≤ 2) ×
        (1 ≤ length s.code.items) × (length s.code.items ≤ 5) ×
        (length s.description.items ≤ 60) ×
        (1 ≤ s.capacity) × (s.capacity ≤ 65536) ×
        (s.codes ≡ key s.network.items s.code.items) × AreCodes s.network.items s.code.items };
}

impl Station {
    /// Reads the settings of a station's table, key after key; other keys are ignored. The station is the one at that
    /// place.
    #[tactic(auto, unfolding(crate::specs::Reading::entry_of))]
    pub(crate) fn read(
        alloc: Global,
        groups: &Groups<'_>,
        table: &Table,
        place: usize,
    ) -> Result<Station, ConfigError>
        ensures ok { IfOk result (λ station. entry_of (groups_value groups.now) (table_view table.now) ≡ Ok station) }
        ensures keys { OnOk result
            (first_fault (key_fault (groups_value groups.now) (table_view table.now)) key_steps ≡ None) }
        ensures network { IfOk result (λ station. network_of (table_view table.now) ≡ Ok station.station.network) }
        ensures code { IfOk result (λ station. code_of (table_view table.now) ≡ Ok station.station.code) }
        ensures fault { IfErr result (λ e. e.fault ≢ ConfigFault.OutOfMemory
            → entry_of (groups_value groups.now) (table_view table.now) ≡ Err e.fault) }
        ensures step { IfErr result (λ e. e.fault ≢ ConfigFault.OutOfMemory → (earlier : List Entry)
            → FailsWithin (groups_value groups.now) place earlier (Ok (table_view table.now)) e) }
    {
        let network = match network_of(alloc, table) {
            Ok(network) => network,
            Err(fault) => return Err(ConfigError::at(
                fault,
                Step::Station(place, StationStep::Network),
            )),
        };
        let code = match code_of(alloc, table) {
            Ok(code) => code,
            Err(fault) => return Err(ConfigError::with_network(fault, place, network)),
        };
        let codes = Codes::spelling(network.as_slice(), code.as_slice());
        match Settings::read(alloc, groups, table) {
            Ok(settings) => Ok(Station {
                network,
                code,
                codes,
                description: settings.description,
                capacity: settings.capacity,
                first: settings.first,
                access: settings.access,
            }),
            Err(error) => Err(ConfigError {
                fault: error.fault,
                step: Step::Station(place, error.step),
                network: Some(network),
                code: Some(code),
            }),
        }
    }

    /// Why it is refused: an earlier station has the same codes. It is the one at that place.
    pub(crate) fn repeated(self, place: usize) -> ConfigError
        ensures fault { result.fault ≡ ConfigFault.Duplicate }
        ensures step { result.step ≡ StationAt place AtCodes }
        ensures network { option_map (λ text. text.items) result.network ≡ Some self.station.network }
        ensures code { option_map (λ text. text.items) result.code ≡ Some self.station.code }
    {
        let Station { network, code, .. } = self;
        ConfigError {
            fault: ConfigFault::Duplicate,
            step: Step::Station(place, StationStep::Codes),
            network: Some(network),
            code: Some(code),
        }
    }

    /// The network code, of 1 to 2 bytes (SEED Reference Manual 2.4, chapter 8, fixed header, field 7).
    pub fn network(&self) -> &[u8]
        ensures value { result.now ≡ self.now.station.network }
        ensures some { 1 ≤ length result.now }
        ensures short { length result.now ≤ 2 }
    {
        self.network.as_slice()
    }

    /// The station's code, of 1 to 5 bytes (SEED Reference Manual 2.4, chapter 8, fixed header, field 4).
    pub fn code(&self) -> &[u8]
        ensures value { result.now ≡ self.now.station.code }
        ensures some { 1 ≤ length result.now }
        ensures short { length result.now ≤ 5 }
    {
        self.code.as_slice()
    }

    /// Both codes as numbers.
    pub(crate) fn codes(&self) -> Codes
        ensures value { result ≡ key self.now.station.network self.now.station.code }
        ensures short { HasShortCodes self.now }
    {
        let _ = &self.network;
        self.codes
    }

    /// The text that CAT shows beside its codes, of at most 60 bytes.
    pub fn description(&self) -> &[u8]
        ensures value { result.now ≡ self.now.station.description }
        ensures short { length result.now ≤ 60 }
    {
        self.description.as_slice()
    }

    /// How many of its records the server holds, 1 to 65,536.
    pub fn capacity(&self) -> usize
        ensures value { result ≡ self.now.station.capacity }
        ensures some { 1 ≤ result }
        ensures limit { result ≤ 65536 }
    {
        self.capacity
    }

    /// The number of its first record.
    pub fn first(&self) -> Seq
        ensures { result ≡ self.now.station.first }
    {
        self.first
    }

    /// Another number for its first record.
    pub(crate) fn begin_at(&mut self, first: Seq)
        ensures { self.new ≡ record self.old { station = record self.old.station { first = first } } }
    {
        let own = &mut self.first;
        *own = first;
    }

    /// Whether it has these codes, byte for byte.
    pub(crate) fn has_codes(&self, network: &[u8], code: &[u8]) -> bool
        ensures { result ≡ has_codes network.now code.now self.now.station }
    {
        self.network() == network && self.code() == code
    }

    /// Whether another station has the same settings, whoever may use the two.
    pub(crate) fn is_same(&self, other: &Station) -> bool
        ensures { result ≡ is_same_station self.now.station other.now.station }
    {
        self.network() == other.network()
            && self.code() == other.code()
            && self.description() == other.description()
            && self.capacity == other.capacity
            && self.first.value() == other.first.value()
    }

    /// Whether another station has the same list of its own, or neither has one.
    pub(crate) fn has_same_list(&self, other: &Station) -> bool
        ensures { result ≡ is_same_list self.now.access other.now.access }
    {
        is_same_list(&self.access, &other.access)
    }

    /// The same station once more. Only memory can lack.
    pub(crate) fn copy(&self, alloc: Global) -> Result<Station, AllocError>
        ensures { IfOk result (λ copy. copy ≡ self.now) }
    {
        let network = self.network().to_vec(alloc)?;
        let code = self.code().to_vec(alloc)?;
        let description = self.description().to_vec(alloc)?;
        let access = copy_of(alloc, &self.access)?;
        Ok(Station {
            network,
            code,
            codes: self.codes,
            description,
            capacity: self.capacity,
            first: self.first,
            access,
        })
    }

    /// Whether an address may use it, where the global list is this: its own list decides, without one the global list,
    /// and without either everybody may.
    pub(crate) fn is_open_to(&self, global: &Option<AccessList>, address: Ipv4Addr) -> bool
        ensures { result ≡ sees self.now.access global.now (ipv4_bits address) }
    {
        match (&self.access, global) {
            (Some(own), _) => own.allows(address),
            (None, Some(global)) => global.allows(address),
            (None, None) => true,
        }
    }
}

/// Whether two lists are the same, or neither is there.
fn is_same_list(access: &Option<AccessList>, other: &Option<AccessList>) -> bool
    ensures { result ≡ is_same_list access.now other.now }
{
    match (access, other) {
        (Some(list), Some(other)) => list.is_same(other),
        (None, None) => true,
        (_, _) => false,
    }
}

/// The same list once more, where there is one.
pub(crate) fn copy_of(
    alloc: Global,
    access: &Option<AccessList>,
) -> Result<Option<AccessList>, AllocError>
    ensures { IfOk result (λ copy. copy ≡ access.now) }
{
    match access {
        Some(list) => {
            let copy = list.copy(alloc)?;
            Ok(Some(copy))
        }
        None => Ok(None),
    }
}
