//! The settings that a configuration's table and a station's table have: a function a key, and in which order the keys
//! of a station are read.
ghost use Rattle.std.specs.Prelude.{◌≡◌, ◌≢◌, ◌≤◌, length, IfOk, IfErr, Ok, Err, None};
ghost use Rattle.toml.specs.View.{table_view};
ghost use Rattle.catalog.specs.Failing.{FailsAtSetting};
ghost use Rattle.catalog.specs.Groups.{groups_value, list_meant};
ghost use Rattle.catalog.specs.Settings.{access_spelled, access_of, title_of, connections_of, network_of, code_of};
ghost use Rattle.catalog.specs.Settings.{description_of, capacity_of, first_of, key_fault, setting_steps, settings_of};
ghost use Rattle.catalog.specs.Settings.{settings_value};
ghost use Rattle.catalog.specs.Steps.{first_fault};

use crate::fault::ConfigFault;
use crate::groups::Groups;
use crate::keys::{copied_if, number_at, number_if_any, number_up_to, text_at, text_if_any};
use crate::texts::{is_code, is_description, is_network, is_title};
use access_list::{AccessFault, AccessList};
use sl_packet::Seq;
use std::alloc::Global;
use toml::Table;

/// How many clients may be connected where a configuration says nothing of it.
const CONNECTIONS: usize = 100;

/// The list that an access text spells.
fn access_spelled(alloc: Global, text: &[u8]) -> Result<AccessList, ConfigFault>
    ensures ok { IfOk result (λ list. access_spelled text.now ≡ Ok list) }
    ensures fault { IfErr result (λ e. e ≢ ConfigFault.OutOfMemory → access_spelled text.now ≡ Err e) }
{
    match AccessList::parse(alloc, text) {
        Ok(list) => Ok(list),
        Err(AccessFault::OutOfMemory) => Err(ConfigFault::OutOfMemory),
        Err(cause) => Err(ConfigFault::Access(cause)),
    }
}

/// The list that an access text means, where these are the groups.
fn access_meant(alloc: Global, groups: &Groups<'_>, text: &[u8]) -> Result<AccessList, ConfigFault>
    ensures ok { IfOk result (λ list. access_spelled (list_meant (groups_value groups.now) text.now) ≡ Ok list) }
    ensures fault { IfErr result (λ e. e ≢ ConfigFault.OutOfMemory
        → access_spelled (list_meant (groups_value groups.now) text.now) ≡ Err e) }
{
    match groups.list_meant(alloc, text) {
        Ok(meant) => access_spelled(alloc, meant.as_slice()),
        Err(_) => Err(ConfigFault::OutOfMemory),
    }
}

/// The list of `access`, which may be missing and may name groups.
#[tactic(auto, unfolding(crate::specs::Settings::access_of))]
pub fn access_of(
    alloc: Global,
    groups: &Groups<'_>,
    table: &Table,
) -> Result<Option<AccessList>, ConfigFault>
    ensures ok { IfOk result (λ access. access_of (groups_value groups.now) (table_view table.now) ≡ Ok access) }
    ensures fault { IfErr result (λ e. e ≢ ConfigFault.OutOfMemory
        → access_of (groups_value groups.now) (table_view table.now) ≡ Err e) }
{
    match text_if_any(table, "access")? {
        Some(text) => Ok(Some(access_meant(alloc, groups, text)?)),
        None => Ok(None),
    }
}

/// The text of `title`: 1 to 100 bytes of printable ASCII.
#[tactic(auto, unfolding(crate::specs::Settings::title_of))]
pub fn title_of(alloc: Global, table: &Table) -> Result<Vec<u8>, ConfigFault>
    ensures ok { IfOk result (λ title. title_of (table_view table.now) ≡ Ok title.items) }
    ensures fault { IfErr result (λ e. e ≢ ConfigFault.OutOfMemory → title_of (table_view table.now) ≡ Err e) }
    ensures short { IfOk result (λ title. length title.items ≤ 100) }
{
    let text = text_at(table, "title")?;
    copied_if(alloc, is_title(text), text)
}

/// The number of `max_connections`, 1 to 10,000; 100 where it is missing.
#[tactic(auto, unfolding(crate::specs::Settings::connections_of))]
pub fn connections_of(table: &Table) -> Result<usize, ConfigFault>
    ensures value { result ≡ connections_of (table_view table.now) }
    ensures some { IfOk result (λ n. 1 ≤ n) }
    ensures limit { IfOk result (λ n. n ≤ 10000) }
{
    match number_if_any(table, "max_connections")? {
        Some(number) => number_up_to(10000, number),
        None => Ok(CONNECTIONS),
    }
}

/// The text of `network`: 1 to 2 of `A` to `Z` and `0` to `9`.
#[tactic(auto, unfolding(crate::specs::Settings::network_of))]
pub fn network_of(alloc: Global, table: &Table) -> Result<Vec<u8>, ConfigFault>
    ensures ok { IfOk result (λ text. network_of (table_view table.now) ≡ Ok text.items) }
    ensures fault { IfErr result (λ e. e ≢ ConfigFault.OutOfMemory → network_of (table_view table.now) ≡ Err e) }
    ensures some { IfOk result (λ text. 1 ≤ length text.items) }
    ensures short { IfOk result (λ text. length text.items ≤ 2) }
{
    let text = text_at(table, "network")?;
    copied_if(alloc, is_network(text), text)
}

/// The text of `code`: 1 to 5 of `A` to `Z` and `0` to `9`.
#[tactic(auto, unfolding(crate::specs::Settings::code_of))]
pub fn code_of(alloc: Global, table: &Table) -> Result<Vec<u8>, ConfigFault>
    ensures ok { IfOk result (λ text. code_of (table_view table.now) ≡ Ok text.items) }
    ensures fault { IfErr result (λ e. e ≢ ConfigFault.OutOfMemory → code_of (table_view table.now) ≡ Err e) }
    ensures some { IfOk result (λ text. 1 ≤ length text.items) }
    ensures short { IfOk result (λ text. length text.items ≤ 5) }
{
    let text = text_at(table, "code")?;
    copied_if(alloc, is_code(text), text)
}

/// The text of `description`: 0 to 60 bytes of printable ASCII.
#[tactic(auto, unfolding(crate::specs::Settings::description_of))]
pub fn description_of(alloc: Global, table: &Table) -> Result<Vec<u8>, ConfigFault>
    ensures ok { IfOk result (λ text. description_of (table_view table.now) ≡ Ok text.items) }
    ensures fault { IfErr result (λ e. e ≢ ConfigFault.OutOfMemory → description_of (table_view table.now) ≡ Err e) }
    ensures short { IfOk result (λ text. length text.items ≤ 60) }
{
    let text = text_at(table, "description")?;
    copied_if(alloc, is_description(text), text)
}

/// The number of `capacity`, 1 to 65,536.
#[tactic(auto, unfolding(crate::specs::Settings::capacity_of))]
pub fn capacity_of(table: &Table) -> Result<usize, ConfigFault>
    ensures value { result ≡ capacity_of (table_view table.now) }
    ensures some { IfOk result (λ n. 1 ≤ n) }
    ensures limit { IfOk result (λ n. n ≤ 65536) }
{
    let number = number_at(table, "capacity")?;
    number_up_to(65536, number)
}

/// The number that the text of `first` spells in 1 to 6 hexadecimal digits of either case; 0 where it is missing.
#[tactic(auto, unfolding(crate::specs::Settings::first_of))]
pub fn first_of(table: &Table) -> Result<Seq, ConfigFault>
    ensures { result ≡ first_of (table_view table.now) }
{
    match text_if_any(table, "first")? {
        Some(text) => Seq::parse(text).ok_or(ConfigFault::Limit),
        None => Ok(Seq::of(0).unwrap()),
    }
}

/// A step of the reading of one station, in the order in which they are made.
#[derive(Clone, Copy, Drop)]
pub enum StationStep {
    /// It is a table.
    Table,
    /// `network` has 1 to 2 of `A` to `Z` and `0` to `9`.
    Network,
    /// `code` has 1 to 5 of them.
    Code,
    /// `description` has at most 60 bytes of printable ASCII.
    Description,
    /// `capacity` is a whole number from 1 to 65,536.
    Capacity,
    /// `first` has 1 to 6 hexadecimal digits of either case, and is 0 if it is missing.
    First,
    /// `access` is a list of addresses, masks and names of groups, and may be missing.
    Access,
    /// No earlier station has the same network and code.
    Codes,
}

/// The settings of a station beside its codes.
#[derive(Drop)]
pub(crate) struct Settings {
    pub description: Vec<u8>,
    pub capacity: usize,
    pub first: Seq,
    pub access: Option<AccessList>,
}

/// Why they are refused, and at which step.
#[derive(Clone, Copy, Drop)]
pub(crate) struct SettingsError {
    pub fault: ConfigFault,
    pub step: StationStep,
}

impl Settings {
    /// Reads the settings of a station's table beside its codes, key after key, where these are the groups.
    pub fn read(
        alloc: Global,
        groups: &Groups<'_>,
        table: &Table,
    ) -> Result<Settings, SettingsError>
        ensures ok { IfOk result (λ s. settings_of (groups_value groups.now) (table_view table.now)
            ≡ Ok (settings_value s)) }
        ensures steps { IfOk result (λ s.
            first_fault (key_fault (groups_value groups.now) (table_view table.now)) setting_steps ≡ None) }
        ensures short { IfOk result (λ s. length s.description.items ≤ 60) }
        ensures some { IfOk result (λ s. 1 ≤ s.capacity) }
        ensures limit { IfOk result (λ s. s.capacity ≤ 65536) }
        ensures fault { IfErr result (λ e. e.fault ≢ ConfigFault.OutOfMemory
            → settings_of (groups_value groups.now) (table_view table.now) ≡ Err e.fault) }
        ensures step { IfErr result (λ e. e.fault ≢ ConfigFault.OutOfMemory
            → FailsAtSetting (groups_value groups.now) (table_view table.now) e.fault e.step) }
    {
        let description = read_at(StationStep::Description, description_of(alloc, table))?;
        let capacity = read_at(StationStep::Capacity, capacity_of(table))?;
        let first = read_at(StationStep::First, first_of(table))?;
        let access = read_at(StationStep::Access, access_of(alloc, groups, table))?;
        Ok(Settings {
            description,
            capacity,
            first,
            access,
        })
    }
}

/// What a step has read, or why it is refused there.
fn read_at<T>(step: StationStep, read: Result<T, ConfigFault>) -> Result<T, SettingsError>
    ensures ok { IfOk result (λ value. read ≡ Ok value) }
    ensures fault { IfErr result (λ e. read ≡ Err e.fault) }
    ensures step { IfErr result (λ e. e.step ≡ step) }
{
    match read {
        Ok(value) => Ok(value),
        Err(fault) => Err(SettingsError { fault, step }),
    }
}
