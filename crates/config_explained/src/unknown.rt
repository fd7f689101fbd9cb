//! The keys that are not known.
ghost use Rattle.std.specs.Prelude.{◌≡◌, ◌<◌, ◌^◌, ◌++◌, IfOk, OnOk, map};
ghost use Rattle.config_explained.specs.ConfigTexts.{keys_of};
ghost use Rattle.toml.specs.View.{table_view};
ghost use Rattle.protocol.specs.Catalog.{stations_of};
ghost use Rattle.catalog.specs.Groups.{groups_of};
ghost use Rattle.config_explained.specs.Unknown.{lines_if, owner_lines, station_lines, stations_from};
ghost use Rattle.config_explained.specs.Unknown.Whose.{TheGroups};
ghost use Rattle.config_explained.specs.Unknown.{named, unknown_text, whose};

use crate::config_text::ConfigText;
use crate::first_lines::keep_first;
use crate::key_lines::put_line;
use crate::owner::Owner;
use crate::tables::station_table;
use catalog::{Groups, Station};
use std::alloc::{AllocError, Global};
use toml::Table;

/// The lines of the keys of a table that are not known.
fn put_unknown(
    alloc: Global,
    text: &mut Vec<u8>,
    table: &Table,
    owner: Owner<'_>,
) -> Result<(), AllocError>
    ensures { OnOk result (text.new.items ≡ text.old.items ++ owner_lines (whose owner.entry) (table_view table.now)) }
{
    for (key, value) in table.iter() {
        let name = key.as_str();
        if !owner.knows(name, value) {
            put_line(alloc, text, name, owner)?;
        }
    }
    Ok(())
}

/// The lines of the groups that are no texts.
fn put_groups(alloc: Global, text: &mut Vec<u8>, table: &Table) -> Result<(), AllocError>
    ensures { OnOk result (text.new.items
        ≡ text.old.items ++ lines_if TheGroups (groups_of (table_view table.now))) }
{
    match Groups::of(table).table() {
        Some(groups) => put_unknown(alloc, text, groups, Owner::Groups),
        None => Ok(()),
    }
}

/// The lines of a station's keys that are not known.
fn put_station(
    alloc: Global,
    text: &mut Vec<u8>,
    table: &Table,
    place: usize,
    station: &Station,
) -> Result<(), AllocError>
    requires { place < 2 ^ 63 }
    ensures { OnOk result (text.new.items
        ≡ text.old.items ++ station_lines (table_view table.now) place station.now.station) }
{
    match station_table(table, place) {
        Some(keys) => put_unknown(alloc, text, keys, Owner::Station(place + 1, station)),
        None => Ok(()),
    }
}

/// The lines of all stations' keys that are not known.
#[tactic(auto, using(crate::proofs::StationLemmas::station_lemmas))]
fn put_stations(
    alloc: Global,
    text: &mut Vec<u8>,
    stations: &[Station],
    table: &Table,
) -> Result<(), AllocError>
    ensures { OnOk result (text.new.items ≡ text.old.items
        ++ stations_from (table_view table.now) 0 (map (λ e. e.station) stations.now)) }
{
    for (place, station) in stations.iter().enumerate() {
        put_station(alloc, text, table, place, station)?;
    }
    Ok(())
}

/// The keys of a configuration's text that are not known, or have a value that they may not have though reading it
/// ignores that, a line each: first those of the whole server, then groups that are no text, then those of each station with its number, from 1 on, and its codes; those of one table in the order
/// of their bytes. Bytes of a key that are not visible ones of ASCII stand there as `?`. At most 64 keys are named; if
/// there are more, one more line says how many. It fails only if memory can't be allocated.
pub fn unknown_keys(alloc: Global, read: &ConfigText) -> Result<Vec<u8>, AllocError>
    ensures { IfOk result (λ lines.
        lines.items ≡ named (unknown_text (keys_of read.now.text) (stations_of read.now.config))) }
{
    let table = read.table();
    let mut lines = Vec::new(alloc);
    put_unknown(alloc, &mut lines, table, Owner::Server)?;
    put_groups(alloc, &mut lines, table)?;
    put_stations(alloc, &mut lines, read.config().stations(), table)?;
    keep_first(&mut lines)?;
    Ok(lines)
}
