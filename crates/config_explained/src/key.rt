//! The keys of a configuration: the one table of their names, kinds and limits, of what holds without them, and of the
//! values that a station has of them.
ghost use Rattle.std.specs.Prelude.{◌≡◌, IfOk, None, Some, option_map};
ghost use Rattle.toml.specs.View.{view};
ghost use Rattle.config_explained.specs.KeyTable.{ReadsTheTable, key_at, may_be, name_of, row_of, setting_of};
ghost use Rattle.config_explained.specs.KeyTable.{station_key_at};
ghost use Rattle.config_explained.specs.SettingValues.{is_same_value, setting_value};

use crate::kind::ValueKind;
use crate::setting::Setting;
use crate::silence::silence_in;
use catalog::{Station, StationStep, Step};
use std::alloc::{AllocError, Global};
use toml::Value;

/// A key of the whole server, or of a station.
#[derive(Clone, Copy, Drop)]
pub enum Key {
    Title,
    ServerAccess,
    MaxConnections,
    Station,
    Network,
    Code,
    Description,
    Capacity,
    First,
    Access,
    /// Of the whole server: the access lists that have a name.
    Groups,
    /// Of a station: how long it may be silent.
    Silent,
}

/// The keys of the whole server.
pub(crate) static SERVER_KEYS: [Key; 5] = [
    Key::Title,
    Key::ServerAccess,
    Key::MaxConnections,
    Key::Groups,
    Key::Station,
];

/// The keys of a station.
pub(crate) static STATION_KEYS: [Key; 7] = [
    Key::Network,
    Key::Code,
    Key::Description,
    Key::Capacity,
    Key::First,
    Key::Access,
    Key::Silent,
];

/// The steps that take the keys of a station.
pub(crate) static STATION_STEPS: [StationStep; 6] = [
    StationStep::Network,
    StationStep::Code,
    StationStep::Description,
    StationStep::Capacity,
    StationStep::First,
    StationStep::Access,
];

/// What an access list may be.
const LIST_LIMITS: &str =
    "addresses and masks, separated by spaces and commas, as 10.0.0.7, 10.0.0.0/8";

/// A row of the table.
#[derive(Clone, Copy, Drop)]
pub struct TableRow {
    pub name: &'static str,
    pub kind: ValueKind,
    /// What is allowed.
    pub limits: &'static str,
    /// What holds without the key. None if it has to be there.
    pub missing: Option<&'static str>,
}

/// The row of a key that has to be there.
fn required(name: &'static str, kind: ValueKind, limits: &'static str) -> TableRow
    ensures name { result.name.now ≡ name.now }
    ensures kind { result.kind ≡ kind }
    ensures limits { result.limits.now ≡ limits.now }
    ensures missing { result.missing ≡ None }
{
    TableRow {
        name,
        kind,
        limits,
        missing: None,
    }
}

/// The row of a key that may be missing, with what holds then.
fn optional(
    name: &'static str,
    kind: ValueKind,
    limits: &'static str,
    missing: &'static str,
) -> TableRow
    ensures name { result.name.now ≡ name.now }
    ensures kind { result.kind ≡ kind }
    ensures limits { result.limits.now ≡ limits.now }
    ensures missing { option_map (λ t. t.now) result.missing ≡ Some missing.now }
{
    TableRow {
        name,
        kind,
        limits,
        missing: Some(missing),
    }
}

impl Key {
    /// Its row of the table.
    pub fn row(self) -> TableRow
        ensures name { result.name.now ≡ name_of self }
        ensures kind { result.kind ≡ (row_of self).kind }
        ensures limits { result.limits.now ≡ (row_of self).limits }
        ensures missing { option_map (λ t. t.now) result.missing ≡ (row_of self).missing }
    {
        match self {
            Key::Title => required(
                "title",
                ValueKind::Text,
                "1 to 100 bytes of printable ASCII",
            ),
            Key::ServerAccess => optional(
                "access",
                ValueKind::Text,
                LIST_LIMITS,
                "everybody may use a station without a list of its own",
            ),
            Key::MaxConnections => optional(
                "max_connections",
                ValueKind::WholeNumber,
                "a whole number from 1 to 10000",
                "100",
            ),
            Key::Groups => optional(
                "groups",
                ValueKind::Table,
                "a table of texts, each an access list with a name",
                "an access list names no group",
            ),
            Key::Station => required("station", ValueKind::Tables, "1 to 1024 tables"),
            Key::Network => required("network", ValueKind::Text, "1 to 2 of A to Z and 0 to 9"),
            Key::Code => required("code", ValueKind::Text, "1 to 5 of A to Z and 0 to 9"),
            Key::Description => {
                required(
                    "description",
                    ValueKind::Text,
                    "at most 60 bytes of printable ASCII",
                )
            }
            Key::Capacity => required(
                "capacity",
                ValueKind::WholeNumber,
                "a whole number from 1 to 65536",
            ),
            Key::First => optional("first", ValueKind::Text, "1 to 6 hexadecimal digits", "0"),
            Key::Access => optional(
                "access",
                ValueKind::Text,
                LIST_LIMITS,
                "the list of the whole server holds",
            ),
            Key::Silent => optional(
                "silent",
                ValueKind::WholeNumber,
                "a whole number of seconds from 0 to 1000000000, where 0 is never",
                "the seconds of --silent",
            ),
        }
    }

    /// Whether a value is one that it may have. Any value of a key that the reading takes is: the reading judges it.
    pub(crate) fn may_be(self, value: &Value) -> bool
        ensures { result ≡ may_be self (view value.now) }
    {
        match self {
            Key::Groups => value.is_table(),
            Key::Silent => silence_in(value).is_some(),
            _ => true,
        }
    }

    /// Its name.
    pub fn name(self) -> &'static str
        ensures { result.now ≡ name_of self }
    {
        self.row().name
    }
}

/// The key whose value a step takes, where it takes one.
pub(crate) fn key_at(step: Step) -> Option<Key>
    ensures { result ≡ key_at step }
{
    match step {
        Step::Text => None,
        Step::Title => Some(Key::Title),
        Step::Access => Some(Key::ServerAccess),
        Step::MaxConnections => Some(Key::MaxConnections),
        Step::Stations => Some(Key::Station),
        Step::Station(_, step) => station_key_at(step),
    }
}

/// The key whose value a step of a station takes, where it takes one.
pub(crate) fn station_key_at(step: StationStep) -> Option<Key>
    ensures { result ≡ station_key_at step }
{
    match step {
        StationStep::Table | StationStep::Codes => None,
        StationStep::Network => Some(Key::Network),
        StationStep::Code => Some(Key::Code),
        StationStep::Description => Some(Key::Description),
        StationStep::Capacity => Some(Key::Capacity),
        StationStep::First => Some(Key::First),
        StationStep::Access => Some(Key::Access),
    }
}

/// The value of a key of a station. Nothing of its list, which may change while a server runs.
pub(crate) fn setting_of(
    alloc: Global,
    station: &Station,
    key: StationStep,
) -> Result<Setting, AllocError>
    ensures { IfOk result (λ setting. setting_value setting ≡ setting_of station.now.station key) }
{
    match key {
        StationStep::Network => Ok(Setting::Text(station.network().to_vec(alloc)?)),
        StationStep::Code => Ok(Setting::Text(station.code().to_vec(alloc)?)),
        StationStep::Description => Ok(Setting::Text(station.description().to_vec(alloc)?)),
        StationStep::Capacity => Ok(Setting::Number(station.capacity())),
        StationStep::First => Ok(Setting::Sequence(station.first())),
        _ => Ok(Setting::Nothing),
    }
}

/// Whether a key of two stations has the same value.
pub(crate) fn is_same_setting(station: &Station, other: &Station, key: StationStep) -> bool
    ensures { result ≡ is_same_value (setting_of station.now.station key) (setting_of other.now.station key) }
{
    match key {
        StationStep::Network => station.network() == other.network(),
        StationStep::Code => station.code() == other.code(),
        StationStep::Description => station.description() == other.description(),
        StationStep::Capacity => station.capacity() == other.capacity(),
        StationStep::First => station.first().value() == other.first().value(),
        _ => true,
    }
}

/// The table has each key that the reading takes, and no other: tables that have the same values at its keys are read
/// the same, and a step takes each key.
pub fn reads_the_table()
    ensures { ReadsTheTable }
{}
