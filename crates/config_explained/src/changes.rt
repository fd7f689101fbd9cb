//! What a new configuration changes, and for whom.
ghost use Rattle.std.specs.Prelude.{◌≡◌, ◌++◌, None, Some, IfOk, OnOk, map, option_map};
ghost use Rattle.toml.specs.View.{table_view};
ghost use Rattle.protocol.specs.Catalog.{is_same_but_for_access, stations_of};
ghost use Rattle.catalog.specs.Groups.{groups_of};
ghost use Rattle.config_explained.specs.Changes.{admission_lines, admitted, admitted_by, changes_text, groups_by};
ghost use Rattle.config_explained.specs.Changes.{has_same_list, is_same_text, kept_lines, new_lines, news_from};
ghost use Rattle.config_explained.specs.Changes.{old_lines, olds_from, place_in, reason_line, refusal_line};
ghost use Rattle.config_explained.specs.Changes.{station_name};
ghost use Rattle.config_explained.specs.ConfigTexts.{keys_of};

use crate::admission::{EVERYTHING, put_admission, put_line};
use crate::config_text::ConfigText;
use crate::group_changes::put_group_changes;
use crate::lines::put;
use crate::lists::{list_at, meant_at};
use crate::network::Network;
use crate::opened::networks_of;
use catalog::{Config, Groups, Station};
use itoa::Buffer;
use protocol::reason::Reason;
use std::alloc::{AllocError, Global};
use toml::Table;

/// The networks that a list admits; all addresses if there is no list.
fn admitted_by(alloc: Global, list: &Option<Vec<u8>>) -> Result<Vec<Network>, AllocError>
    ensures { IfOk result (λ networks. networks.items ≡ admitted_by (option_map (λ l. l.items) list.now)) }
{
    match list {
        Some(list) => networks_of(alloc, list.as_slice()),
        None => [EVERYTHING].to_vec(alloc),
    }
}

/// The networks that may use the station at a place; none if it has no place.
fn admitted(alloc: Global, table: &Table, place: Option<usize>) -> Result<Vec<Network>, AllocError>
    ensures { IfOk result (λ networks. networks.items ≡ admitted (table_view table.now) place) }
{
    match place {
        Some(place) => {
            let list = meant_at(alloc, table, place)?;
            admitted_by(alloc, &list)
        }
        None => Ok(Vec::new(alloc)),
    }
}

/// The tables of two configurations.
#[derive(Clone, Copy)]
struct Tables<'a> {
    old: &'a Table,
    new: &'a Table,
}

/// The place of a station in another configuration.
fn place_in(config: &Config, station: &Station) -> Option<usize>
    ensures { result ≡ place_in config.now station.now.station }
{
    config.place_of(station.network(), station.code())
}

/// The name of a station, as NET_STA.
fn station_name(alloc: Global, station: &Station) -> Result<Vec<u8>, AllocError>
    ensures { IfOk result (λ name. name.items ≡ station_name station.now.station) }
{
    let mut name = station.network().to_vec(alloc)?;
    put(&mut name, b"_")?;
    put(&mut name, station.code())?;
    Ok(name)
}

/// Whether two lists are the same text, or neither is there.
fn is_same_text(list: Option<&[u8]>, other: Option<&[u8]>) -> bool
    ensures { result ≡ is_same_text (option_map (λ l. l.now) list.entry) (option_map (λ l. l.now) other.entry) }
{
    match (list, other) {
        (Some(list), Some(other)) => list == other,
        (None, None) => true,
        (_, _) => false,
    }
}

/// What changes of a station that both configurations have, by its places there.
fn put_kept(
    alloc: Global,
    text: &mut Vec<u8>,
    tables: &Tables<'_>,
    station: &Station,
    place: usize,
    other: usize,
) -> Result<(), AllocError>
    ensures { OnOk result (text.new.items ≡ text.old.items ++ kept_lines (table_view tables.now.old.now)
        (table_view tables.now.new.now) place other station.now.station) }
{
    if is_same_text(list_at(tables.old, place), list_at(tables.new, other)) {
        return Ok(());
    }
    let name = station_name(alloc, station)?;
    let old = admitted(alloc, tables.old, Some(place))?;
    let new = admitted(alloc, tables.new, Some(other))?;
    put_admission(alloc, text, name.as_slice(), old.as_slice(), new.as_slice())
}

/// What changes of a station of the old configuration, which is at that place there.
fn put_old(
    alloc: Global,
    text: &mut Vec<u8>,
    tables: &Tables<'_>,
    place: usize,
    station: &Station,
    new: &Config,
) -> Result<(), AllocError>
    ensures { OnOk result (text.new.items ≡ text.old.items ++ old_lines (table_view tables.now.old.now)
        (table_view tables.now.new.now) place station.now.station (place_in new.now station.now.station)) }
{
    if let Some(other) = place_in(new, station) {
        return put_kept(alloc, text, tables, station, place, other);
    }
    let name = station_name(alloc, station)?;
    put_line(text, name.as_slice(), b" is gone")?;
    let old = admitted(alloc, tables.old, Some(place))?;
    put_admission(alloc, text, name.as_slice(), old.as_slice(), &[])
}

/// The lines of a station of the new configuration, which is at that place there, if the old one does not have it.
fn put_new(
    alloc: Global,
    text: &mut Vec<u8>,
    tables: &Tables<'_>,
    place: usize,
    station: &Station,
    old: &Config,
) -> Result<(), AllocError>
    ensures { OnOk result (text.new.items ≡ text.old.items ++ new_lines (table_view tables.now.new.now)
        place station.now.station (place_in old.now station.now.station)) }
{
    if place_in(old, station).is_some() {
        return Ok(());
    }
    let name = station_name(alloc, station)?;
    put_line(text, name.as_slice(), b" is new")?;
    let new = admitted(alloc, tables.new, Some(place))?;
    put_admission(alloc, text, name.as_slice(), &[], new.as_slice())
}

/// What changes of the stations of the old configuration.
#[tactic(auto, using(crate::proofs::ChangeLemmas::change_lemmas))]
fn put_olds(
    alloc: Global,
    text: &mut Vec<u8>,
    tables: &Tables<'_>,
    stations: &[Station],
    new: &Config,
) -> Result<(), AllocError>
    ensures { OnOk result (text.new.items ≡ text.old.items ++ olds_from (table_view tables.now.old.now)
        (table_view tables.now.new.now) new.now 0 (map (λ e. e.station) stations.now)) }
{
    for (place, station) in stations.iter().enumerate() {
        put_old(alloc, text, tables, place, station, new)?;
    }
    Ok(())
}

/// The stations of the new configuration that the old one does not have.
#[tactic(auto, using(crate::proofs::ChangeLemmas::change_lemmas))]
fn put_news(
    alloc: Global,
    text: &mut Vec<u8>,
    tables: &Tables<'_>,
    stations: &[Station],
    old: &Config,
) -> Result<(), AllocError>
    ensures { OnOk result (text.new.items ≡ text.old.items
        ++ news_from (table_view tables.now.new.now) old.now 0 (map (λ e. e.station) stations.now)) }
{
    for (place, station) in stations.iter().enumerate() {
        put_new(alloc, text, tables, place, station, old)?;
    }
    Ok(())
}

/// The line that says why a running server refuses a configuration.
#[tactic(auto, unfolding(crate::specs::Changes::reason_line))]
fn put_reason(text: &mut Vec<u8>, reason: Reason) -> Result<(), AllocError>
    ensures { OnOk result (text.new.items ≡ text.old.items ++ reason_line reason) }
{
    put(text, b"a running server refuses this: ")?;
    put(text, Buffer::new().format(reason.number()).as_bytes())?;
    put(text, b" ")?;
    put(text, reason.name().as_bytes())?;
    put(text, b"\n")
}

/// The same, unless the new one is the same but for access.
fn put_refusal(text: &mut Vec<u8>, is_same: bool) -> Result<(), AllocError>
    ensures { OnOk result (text.new.items ≡ text.old.items ++ refusal_line is_same) }
{
    if is_same {
        return Ok(());
    }
    put_reason(text, Reason::Different)
}

/// What changes, and for whom, if a server that runs one configuration is given another. First come the groups that
/// both have, then the stations of the old one, in order, and then those that are new. A station is known by its network
/// and code, and nobody may use one that is not there. Where the same text holds for a station in both, what changes is
/// told of the groups that it names. A line each:
///
/// - `@GROUP gains NETWORK` and so on, as below of stations, and then `@GROUP is in the list of N stations`;
/// - `NET_STA is gone`, `NET_STA is new`;
/// - `NET_STA opens to everybody`, `NET_STA closes to everybody`, or `NET_STA closes to everybody but NETWORK NETWORK`;
/// - otherwise `NET_STA gains NETWORK` and `NET_STA loses NETWORK`, for the addresses that could not use it and can, and
///   for those that could and can't any more, in networks as large as they can be;
/// - at the end, if more than access lists differs, that a running server refuses it, by its number and name;
/// - `nothing changes` if there is no other line.
///
/// Only memory can lack. It takes few steps for networks whose masks have their ones on the left; for others up to one
/// for each pattern of the bits that some mask has.
pub fn changes_of(alloc: Global, old: &ConfigText, new: &ConfigText) -> Result<Vec<u8>, AllocError>
    ensures { IfOk result (λ lines.
        lines.items ≡ changes_text (keys_of old.now.text) (keys_of new.now.text) old.now.config new.now.config) }
{
    let tables = Tables {
        old: old.table(),
        new: new.table(),
    };
    let mut lines = Vec::new(alloc);
    put_group_changes(alloc, &mut lines, Groups::of(tables.old).table(), new)?;
    let (old, new) = (old.config(), new.config());
    put_olds(alloc, &mut lines, &tables, old.stations(), new)?;
    put_news(alloc, &mut lines, &tables, new.stations(), old)?;
    put_refusal(&mut lines, old.is_same_but_for_access(new))?;
    if lines.is_empty() {
        put(&mut lines, b"nothing changes\n")?;
    }
    Ok(lines)
}
