//! The tables of a configuration.
ghost use Rattle.std.specs.Prelude.{◌≡◌, option_map};
ghost use Rattle.toml.specs.Data.{get_member};
ghost use Rattle.toml.specs.View.{table_view, view};
ghost use Rattle.config_explained.specs.Tables.{station_table};

use toml::{Table, Value};

/// The value at a key.
pub(crate) fn value_of<'a>(table: &'a Table, key: &str) -> Option<&'a Value>
    ensures { option_map (λ v. view v.now) result ≡ get_member key.now (table_view table.now) }
{
    table.get(key)
}

/// The table of the station at a place.
pub(crate) fn station_table<'a>(table: &'a Table, place: usize) -> Option<&'a Table>
    ensures { option_map (λ t. table_view t.now) result ≡ station_table (table_view table.now) place }
{
    match value_of(table, "station") {
        Some(stations) => match stations.get(place) {
            Some(station) => station.as_table(),
            None => None,
        },
        None => None,
    }
}
