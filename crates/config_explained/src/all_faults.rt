//! All faults of a configuration: each step of its reading that fails, also behind the first.
ghost use Rattle.std.specs.Prelude.{◌≡◌, ◌≢◌, ◌++◌, [], IfOk, MatchResult, None, OnOk, Some, flat_map, length, map};
ghost use Rattle.std.specs.Prelude.{option_map};
ghost use Rattle.std.specs.List.{list_any};
ghost use Rattle.std.specs.Result.{result_err, result_ok};
ghost use Rattle.std.specs.Str.{IsUtf8};
ghost use Rattle.toml.specs.Parse.{parse_document};
ghost use Rattle.toml.specs.View.{table_view, view};
ghost use Rattle.catalog.specs.Groups.{groups_of, groups_value};
ghost use Rattle.catalog.specs.Keys.{elements_at, table_in};
ghost use Rattle.catalog.specs.Reading.{station_values};
ghost use Rattle.catalog.specs.Settings.{access_of, code_of, connections_of, description_of, key_fault};
ghost use Rattle.catalog.specs.Settings.{network_of, title_of};
ghost use Rattle.config_explained.specs.AllFaults.{all_faults, duplicate_of, faults_in, found_fault, has_same_codes};
ghost use Rattle.config_explained.specs.AllFaults.{is_same_if, is_same_station_in, key_told, name_at, server_faults};
ghost use Rattle.config_explained.specs.AllFaults.{server_told, station_told, stations_faults, table_faults};
ghost use Rattle.config_explained.specs.AllFaults.{value_faults, values_faults};

use crate::finding::table_if_any;
use crate::key::STATION_STEPS;
use crate::tables::value_of;
use catalog::keys::{elements_at, table_in};
use catalog::listing::station_values;
use catalog::settings::{
    access_of, capacity_of, code_of, connections_of, description_of, first_of, network_of, title_of,
};
use catalog::{ConfigError, ConfigFault, Groups, StationStep, Step};
use std::alloc::{AllocError, Global};
use toml::{Table, Value};

/// Why a step fails, if it does. Only memory can lack.
fn fault_of<T: Drop>(read: Result<T, ConfigFault>) -> Result<Option<ConfigFault>, AllocError>
    ensures { IfOk result (λ fault. MatchResult read (λ _. fault ≡ None)
        (λ e. (fault ≡ Some e) × (e ≢ ConfigFault.OutOfMemory))) }
{
    match read {
        Ok(_) => Ok(None),
        Err(ConfigFault::OutOfMemory) => Err(AllocError),
        Err(fault) => Ok(Some(fault)),
    }
}

/// A step of the server, if it fails.
fn tell_server(
    faults: &mut Vec<ConfigError>,
    step: Step,
    fault: Option<ConfigFault>,
) -> Result<(), AllocError>
    ensures { OnOk result (map found_fault faults.new.items
        ≡ map found_fault faults.old.items ++ server_told step fault) }
{
    let Some(fault) = fault else {
        return Ok(());
    };
    faults.push(ConfigError {
        fault,
        step,
        network: None,
        code: None,
    })?;
    Ok(())
}

/// The server's own keys.
#[tactic(auto, using(crate::proofs::FaultLemmas::fault_told))]
fn tell_server_keys(
    alloc: Global,
    faults: &mut Vec<ConfigError>,
    table: &Table,
) -> Result<(), AllocError>
    ensures { OnOk result (map found_fault faults.new.items
        ≡ map found_fault faults.old.items ++ server_faults (table_view table.now)) }
{
    tell_server(faults, Step::Title, fault_of(title_of(alloc, table))?)?;
    let access = access_of(alloc, &Groups::of(table), table);
    tell_server(faults, Step::Access, fault_of(access)?)?;
    tell_server(faults, Step::MaxConnections, connections_of(table).err())?;
    tell_server(faults, Step::Stations, station_values(table).err())
}

/// The network of a station, if it is valid.
fn valid_network(alloc: Global, table: &Table) -> Result<Option<Vec<u8>>, AllocError>
    ensures { IfOk result (λ text.
        option_map (λ t. t.items) text ≡ result_ok (network_of (table_view table.now))) }
{
    match network_of(alloc, table) {
        Ok(text) => Ok(Some(text)),
        Err(ConfigFault::OutOfMemory) => Err(AllocError),
        Err(_) => Ok(None),
    }
}

/// Its code, if it is valid.
fn valid_code(alloc: Global, table: &Table) -> Result<Option<Vec<u8>>, AllocError>
    ensures { IfOk result (λ text.
        option_map (λ t. t.items) text ≡ result_ok (code_of (table_view table.now))) }
{
    match code_of(alloc, table) {
        Ok(text) => Ok(Some(text)),
        Err(ConfigFault::OutOfMemory) => Err(AllocError),
        Err(_) => Ok(None),
    }
}

/// Why the key of a step is refused, if it is.
#[tactic(auto, using(crate::proofs::FaultLemmas::fault_told))]
fn key_fault(
    alloc: Global,
    groups: &Groups<'_>,
    table: &Table,
    step: StationStep,
) -> Result<Option<ConfigFault>, AllocError>
    ensures { IfOk result (λ fault.
        fault ≡ key_fault (groups_value groups.now) (table_view table.now) step) }
{
    match step {
        StationStep::Network => fault_of(network_of(alloc, table)),
        StationStep::Code => fault_of(code_of(alloc, table)),
        StationStep::Description => fault_of(description_of(alloc, table)),
        StationStep::Capacity => Ok(capacity_of(table).err()),
        StationStep::First => Ok(first_of(table).err()),
        StationStep::Access => fault_of(access_of(alloc, groups, table)),
        StationStep::Table | StationStep::Codes => Ok(None),
    }
}

/// A step of the station at a place, if it fails.
fn tell_station(
    alloc: Global,
    faults: &mut Vec<ConfigError>,
    place: usize,
    table: &Table,
    step: StationStep,
    fault: Option<ConfigFault>,
) -> Result<(), AllocError>
    ensures { OnOk result (map found_fault faults.new.items
        ≡ map found_fault faults.old.items ++ station_told place (table_view table.now) step fault) }
{
    let Some(fault) = fault else {
        return Ok(());
    };
    let network = valid_network(alloc, table)?;
    let code = valid_code(alloc, table)?;
    faults.push(ConfigError {
        fault,
        step: Step::Station(place, step),
        network,
        code,
    })?;
    Ok(())
}

/// The keys of a station, by the steps that read them.
fn tell_keys(
    alloc: Global,
    faults: &mut Vec<ConfigError>,
    groups: &Groups<'_>,
    place: usize,
    table: &Table,
    steps: &[StationStep],
) -> Result<(), AllocError>
    ensures { OnOk result (map found_fault faults.new.items ≡ map found_fault faults.old.items
        ++ flat_map (key_told (groups_value groups.now) place (table_view table.now)) steps.now) }
{
    for step in steps {
        let fault = key_fault(alloc, groups, table, *step)?;
        tell_station(alloc, faults, place, table, *step, fault)?;
    }
    Ok(())
}

/// The text at a key.
fn name_at<'a>(table: &'a Table, key: &str) -> Option<&'a [u8]>
    ensures { option_map (λ t. t.now) result ≡ name_at key.now (table_view table.now) }
{
    match value_of(table, key) {
        Some(value) => match value.as_str() {
            Some(text) => Some(text.as_bytes()),
            None => None,
        },
        None => None,
    }
}

/// Whether two texts are there, and the same.
fn is_same_if(text: Option<&[u8]>, other: Option<&[u8]>) -> bool
    ensures { result ≡ is_same_if (option_map (λ t. t.now) text.entry) (option_map (λ t. t.now) other.entry) }
{
    match (text, other) {
        (Some(text), Some(other)) => text == other,
        (_, _) => false,
    }
}

/// Whether two tables have the same network and code.
fn has_same_codes(table: &Table, other: &Table) -> bool
    ensures { result ≡ has_same_codes (table_view table.now) (table_view other.now) }
{
    is_same_if(name_at(table, "network"), name_at(other, "network"))
        && is_same_if(name_at(table, "code"), name_at(other, "code"))
}

/// Whether a value is a table that has the same network and code.
fn is_same_station_in(table: &Table, value: &Value) -> bool
    ensures { result ≡ is_same_station_in (table_view table.now) (table_in (view value.now)) }
{
    match table_in(value) {
        Ok(other) => has_same_codes(table, other),
        Err(_) => false,
    }
}

/// Whether one of some values is a table that has the same network and code.
fn is_repeated(earlier: &[Value], table: &Table) -> bool
    ensures { result ≡ list_any (λ v. is_same_station_in (table_view table.now) (table_in (view v))) earlier.now }
{
    earlier.iter().any(|value| is_same_station_in(table, value))
}

/// Why a station is refused that an earlier one is, if one is.
#[tactic(auto, using(crate::proofs::FaultLemmas::list_any_map))]
fn duplicate_of(earlier: &[Value], table: &Table) -> Option<ConfigFault>
    ensures { result ≡ duplicate_of (map view earlier.now) (table_view table.now) }
{
    if is_repeated(earlier, table) {
        Some(ConfigFault::Duplicate)
    } else {
        None
    }
}

/// The table of a station behind earlier ones.
fn tell_table(
    alloc: Global,
    faults: &mut Vec<ConfigError>,
    groups: &Groups<'_>,
    earlier: &[Value],
    table: &Table,
) -> Result<(), AllocError>
    ensures { OnOk result (map found_fault faults.new.items ≡ map found_fault faults.old.items
        ++ table_faults (groups_value groups.now) (map view earlier.now) (length earlier.now) (table_view table.now)) }
{
    let place = earlier.len();
    tell_keys(alloc, faults, groups, place, table, &STATION_STEPS)?;
    let fault = duplicate_of(earlier, table);
    tell_station(alloc, faults, place, table, StationStep::Codes, fault)
}

/// A value that is to be the table of a station, behind earlier ones.
fn tell_value(
    alloc: Global,
    faults: &mut Vec<ConfigError>,
    groups: &Groups<'_>,
    earlier: &[Value],
    value: &Value,
) -> Result<(), AllocError>
    ensures { OnOk result (map found_fault faults.new.items ≡ map found_fault faults.old.items
        ++ value_faults (groups_value groups.now) (map view earlier.now) (length earlier.now)
        (table_in (view value.now))) }
{
    match table_in(value) {
        Ok(table) => tell_table(alloc, faults, groups, earlier, table),
        Err(fault) => tell_server(
            faults,
            Step::Station(earlier.len(), StationStep::Table),
            Some(fault),
        ),
    }
}

/// All values that are to be the tables of stations.
fn tell_values(
    alloc: Global,
    faults: &mut Vec<ConfigError>,
    groups: &Groups<'_>,
    values: &[Value],
) -> Result<(), AllocError>
    ensures { OnOk result (map found_fault faults.new.items ≡ map found_fault faults.old.items
        ++ values_faults (groups_value groups.now) [] 0 (map view values.now)) }
{
    for (place, value) in values.iter().enumerate() {
        tell_value(alloc, faults, groups, &values[..place], value)?;
    }
    Ok(())
}

/// All faults of a configuration's table.
fn tell_all(alloc: Global, faults: &mut Vec<ConfigError>, table: &Table) -> Result<(), AllocError>
    ensures { OnOk result (map found_fault faults.new.items
        ≡ map found_fault faults.old.items ++ all_faults (table_view table.now)) }
{
    tell_server_keys(alloc, faults, table)?;
    match elements_at(table, "station") {
        Ok(values) => tell_values(alloc, faults, &Groups::of(table), values),
        Err(_) => Ok(()),
    }
}

/// All faults that can be found in a configuration's text: each step of its reading that fails, in the order of the
/// steps, also behind the first, with the network and the code of its station if these are valid. A station is told as
/// a duplicate if an earlier one has the same texts as its codes, valid or not. None of a text that is no TOML. Only
/// memory can lack.
pub fn faults_of(alloc: Global, text: &[u8]) -> Result<Vec<ConfigError>, AllocError>
    ensures { IfOk result (λ faults.
        IsUtf8 text.now → map found_fault faults.items ≡ faults_in (parse_document text.now)) }
{
    let mut faults = Vec::new(alloc);
    if let Some(table) = table_if_any(alloc, text)? {
        tell_all(alloc, &mut faults, &table)?;
    }
    Ok(faults)
}
