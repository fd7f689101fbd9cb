//! The stations that a configuration lists.
ghost use Rattle.std.specs.Prelude.{◌≡◌, ◌≢◌, ◌≤◌, ◌++◌, ◌∷◌, [], All, length, map};
ghost use Rattle.std.specs.Prelude.{IfOk, IfErr, Ok, Err, false, true};
ghost use Rattle.std.specs.List.{list_all};
ghost use Rattle.toml.specs.View.{table_view, view};
ghost use Rattle.catalog.specs.Failing.{FailsAmong, FailsInStations, FailsWithin};
ghost use Rattle.catalog.specs.Groups.{groups_value};
ghost use Rattle.catalog.specs.Indexing.{Finds, HasShortCodes};
ghost use Rattle.catalog.specs.Keys.{table_in};
ghost use Rattle.catalog.specs.Places.{HasDistinctCodes};
ghost use Rattle.catalog.specs.Reading.{is_few, is_repeated, is_table, station_of, station_values, stations_of};
ghost use Rattle.catalog.specs.Reading.{stations_read};

use crate::error::{ConfigError, Step};
use crate::fault::ConfigFault;
use crate::groups::Groups;
use crate::index::Index;
use crate::keys::{elements_at, table_in};
use crate::settings::StationStep;
use crate::station::Station;
use std::alloc::Global;
use toml::{Table, Value};

/// How many stations there may be.
const STATIONS: usize = 1024;

/// Stations, and where each stands by its codes.
#[derive(Drop)]
pub(crate) struct IndexedStations {
    pub stations: Vec<Station>,
    pub index: Index,
}

/// The stations of `station`, an array of 1 to 1,024 tables, in order.
#[tactic(auto, unfolding(crate::specs::Reading::stations_of))]
pub(crate) fn stations_of(alloc: Global, table: &Table) -> Result<IndexedStations, ConfigError>
    ensures ok { IfOk result (λ listed. stations_of (table_view table.now) ≡ Ok listed.stations.items) }
    ensures distinct { IfOk result (λ listed. HasDistinctCodes listed.stations.items) }
    ensures few { IfOk result (λ listed. length listed.stations.items ≤ 1024) }
    ensures finds { IfOk result (λ listed. Finds listed.index.places listed.stations.items) }
    ensures short { IfOk result (λ listed. All HasShortCodes listed.stations.items) }
    ensures fault { IfErr result (λ e. e.fault ≢ ConfigFault.OutOfMemory
        → stations_of (table_view table.now) ≡ Err e.fault) }
    ensures step { IfErr result (λ e. e.fault ≢ ConfigFault.OutOfMemory
        → FailsInStations (table_view table.now) e e.step) }
{
    match station_values(table) {
        Ok(values) => stations_read(alloc, &Groups::of(table), values),
        Err(fault) => Err(ConfigError::at(fault, Step::Stations)),
    }
}

/// The values that describe the stations: those of `station`, which is an array of 1 to 1,024 tables.
#[tactic(auto, using(crate::proofs::ElementLemmas::values_lemmas), unfolding(crate::specs::Reading::station_values))]
pub fn station_values(table: &Table) -> Result<&[Value], ConfigFault>
    ensures ok { IfOk result (λ values. station_values (table_view table.now) ≡ Ok (map view values.now)) }
    ensures few { IfOk result (λ values. length values.now ≤ 1024) }
    ensures fault { IfErr result (λ e. station_values (table_view table.now) ≡ Err e) }
{
    let values = elements_at(table, "station")?;
    if !are_tables(values) {
        return Err(ConfigFault::Missing);
    }
    if !is_few(values.len()) {
        return Err(ConfigFault::Limit);
    }
    Ok(values)
}

/// Whether there may be so many stations.
fn is_few(count: usize) -> bool
    ensures value { result ≡ is_few count }
    ensures limit { result ≡ true → count ≤ 1024 }
{
    1 <= count && count <= STATIONS
}

/// Whether each value is a table.
fn are_tables(values: &[Value]) -> bool
    ensures { result ≡ list_all (λ v. is_table (view v)) values.now }
{
    values.iter().all(|value| value.is_table())
}

/// The stations that values describe.
#[tactic(auto, using(crate::proofs::DistinctLemmas::distinct_lemmas))]
fn stations_read(
    alloc: Global,
    groups: &Groups<'_>,
    values: &[Value],
) -> Result<IndexedStations, ConfigError>
    ensures ok { IfOk result (λ listed. stations_read (groups_value groups.now) [] (map view values.now)
        ≡ Ok listed.stations.items) }
    ensures distinct { IfOk result (λ listed. HasDistinctCodes listed.stations.items) }
    ensures count { IfOk result (λ listed. length listed.stations.items ≡ length values.now) }
    ensures finds { IfOk result (λ listed. Finds listed.index.places listed.stations.items) }
    ensures short { IfOk result (λ listed. All HasShortCodes listed.stations.items) }
    ensures fault { IfErr result (λ e. e.fault ≢ ConfigFault.OutOfMemory
        → stations_read (groups_value groups.now) [] (map view values.now) ≡ Err e.fault) }
    ensures step { IfErr result (λ e. e.fault ≢ ConfigFault.OutOfMemory
        → FailsAmong (groups_value groups.now) (map view values.now) e e.step) }
{
    let mut stations = Vec::new(alloc);
    let mut index = Index::new(alloc);
    for value in values {
        let station = station_of(alloc, groups, stations.as_slice(), &mut index, value)?;
        if let Err(_) = stations.push(station) {
            return Err(ConfigError::at(ConfigFault::OutOfMemory, Step::Stations));
        }
    }
    Ok(IndexedStations { stations, index })
}

/// The station that a value describes, behind earlier ones, whose index it is put into.
#[tactic(auto, unfolding(crate::specs::Reading::station_of))]
fn station_of(
    alloc: Global,
    groups: &Groups<'_>,
    earlier: &[Station],
    index: &mut Index,
    value: &Value,
) -> Result<Station, ConfigError>
    requires { Finds index.old.places earlier.now }
    ensures ok { IfOk result (λ s. station_of (groups_value groups.now) earlier.now (view value.now) ≡ Ok s) }
    ensures apart { IfOk result (λ s. is_repeated earlier.now s.station ≡ false) }
    ensures some { IfOk result (λ s. 1 ≤ length s.station.network) }
    ensures finds { IfOk result (λ s. Finds index.new.places (earlier.now ++ s ∷ [])) }
    ensures short { IfOk result HasShortCodes }
    ensures fault { IfErr result (λ e. e.fault ≢ ConfigFault.OutOfMemory
        → station_of (groups_value groups.now) earlier.now (view value.now) ≡ Err e.fault) }
    ensures step { IfErr result (λ e. e.fault ≢ ConfigFault.OutOfMemory
        → FailsWithin (groups_value groups.now) (length earlier.now) earlier.now (table_in (view value.now)) e) }
{
    let place = earlier.len();
    let table = match table_in(value) {
        Ok(table) => table,
        Err(fault) => return Err(ConfigError::at(fault, Step::Station(place, StationStep::Table))),
    };
    let station = Station::read(alloc, groups, table, place)?;
    let is_repeated = index.add(earlier, &station).map_err(|_| ConfigError::at(
        ConfigFault::OutOfMemory,
        Step::Stations,
    ))?;
    if is_repeated {
        return Err(station.repeated(place));
    }
    Ok(station)
}
