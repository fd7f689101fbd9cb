//! The values that the steps of the reading of a configuration look at.
ghost use Rattle.std.specs.Prelude.{◌≡◌, option_map};
ghost use Rattle.toml.specs.View.{table_view, view};
ghost use Rattle.config_explained.specs.Values.{member_by, setting_at, station_at, value_at};

use crate::key::{Key, key_at, station_key_at};
use crate::tables::value_of;
use catalog::{StationStep, Step};
use toml::{Table, Value};

/// The element of `station` at a place.
fn station_at<'a>(table: &'a Table, place: usize) -> Option<&'a Value>
    ensures { option_map (λ v. view v.now) result ≡ station_at (table_view table.now) place }
{
    match value_of(table, Key::Station.name()) {
        Some(stations) => stations.get(place),
        None => None,
    }
}

/// The value that a step of a station looks at.
fn setting_at<'a>(station: &'a Value, step: StationStep) -> Option<&'a Value>
    ensures { option_map (λ v. view v.now) result ≡ setting_at (view station.now) step }
{
    match step {
        StationStep::Table => Some(station),
        _ => match station_key_at(step) {
            Some(key) => station.get(key.name()),
            None => None,
        },
    }
}

/// The value at a key of the whole server, if a step takes one.
fn member_by<'a>(table: &'a Table, key: Option<Key>) -> Option<&'a Value>
    ensures { option_map (λ v. view v.now) result ≡ member_by (table_view table.now) key }
{
    match key {
        Some(key) => value_of(table, key.name()),
        None => None,
    }
}

/// The value that a step looks at.
pub(crate) fn value_at<'a>(table: &'a Table, step: Step) -> Option<&'a Value>
    ensures { option_map (λ v. view v.now) result ≡ value_at (table_view table.now) step }
{
    match step {
        Step::Station(place, step) => match station_at(table, place) {
            Some(station) => setting_at(station, step),
            None => None,
        },
        _ => member_by(table, key_at(step)),
    }
}
