//! Who may use each station.
ghost use Rattle.std.specs.Prelude.{◌≡◌, ◌++◌, IfOk, OnOk, map, option_map, slice_get};
ghost use Rattle.config_explained.specs.ConfigTexts.{keys_of};
ghost use Rattle.toml.specs.View.{table_view};
ghost use Rattle.protocol.specs.Catalog.{stations_of};
ghost use Rattle.config_explained.specs.Holders.{holder_at, holder_line, holder_text, holders_from, holders_text};

use crate::config_text::ConfigText;
use crate::entries::put_list;
use crate::lines::put;
use crate::lists::shown_at;
use catalog::Station;
use std::alloc::{AllocError, Global};
use toml::Table;

/// The line of a station: its network, its code, and whom the list admits that holds for it.
fn put_holders(
    text: &mut Vec<u8>,
    station: &Station,
    list: &Option<Vec<u8>>,
) -> Result<(), AllocError>
    ensures { OnOk result (text.new.items
        ≡ text.old.items ++ holder_line station.now.station (option_map (λ l. l.items) list.now)) }
{
    put(text, station.network())?;
    put(text, b" ")?;
    put(text, station.code())?;
    put_list(text, list)?;
    put(text, b"\n")
}

/// The lines of all stations.
#[tactic(auto, using(crate::proofs::HolderLemmas::holder_lemmas))]
fn put_all(
    alloc: Global,
    text: &mut Vec<u8>,
    stations: &[Station],
    table: &Table,
) -> Result<(), AllocError>
    ensures { OnOk result (text.new.items ≡ text.old.items
        ++ holders_from (table_view table.now) 0 (map (λ e. e.station) stations.now)) }
{
    for (place, station) in stations.iter().enumerate() {
        let list = shown_at(alloc, table, place)?;
        put_holders(text, station, &list)?;
    }
    Ok(())
}

/// All stations of a configuration, in order, a line each: its network, its code, and the entries of the access list
/// that holds for it, as they stand in the configuration's text: its own list, else the server's. In the place of `@` and
/// the name of a group the group's entries stand, each with `@` and that name behind it. A list without an entry admits
/// `nobody`; `-` stands where no list holds, so that everybody may use the station. Only memory can lack.
pub fn holders_of(alloc: Global, read: &ConfigText) -> Result<Vec<u8>, AllocError>
    ensures { IfOk result (λ lines. lines.items ≡ holders_text (keys_of read.now.text) (stations_of read.now.config)) }
{
    let mut lines = Vec::new(alloc);
    put_all(alloc, &mut lines, read.config().stations(), read.table())?;
    Ok(lines)
}

/// The line of the station at a place, if there is one.
fn put_at(
    alloc: Global,
    text: &mut Vec<u8>,
    stations: &[Station],
    table: &Table,
    place: usize,
) -> Result<(), AllocError>
    ensures { OnOk result (text.new.items ≡ text.old.items
        ++ holder_at (table_view table.now) place (option_map (λ e. e.station) (slice_get stations.now place))) }
{
    match stations.get(place) {
        Some(station) => {
            let list = shown_at(alloc, table, place)?;
            put_holders(text, station, &list)
        }
        None => Ok(()),
    }
}

/// The line of the first station of a configuration with these codes, as `holders_of` has it, if there is one. Only
/// memory can lack.
pub fn holder_of(
    alloc: Global,
    read: &ConfigText,
    network: &[u8],
    code: &[u8],
) -> Result<Option<Vec<u8>>, AllocError>
    ensures { IfOk result (λ line.
        option_map (λ l. l.items) line ≡ holder_text (keys_of read.now.text) read.now.config network.now code.now) }
{
    let config = read.config();
    let Some(place) = config.place_of(network, code) else {
        return Ok(None);
    };
    let mut line = Vec::new(alloc);
    put_at(alloc, &mut line, config.stations(), read.table(), place)?;
    Ok(Some(line))
}
