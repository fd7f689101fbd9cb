//! Stations that everybody may use.
ghost use Rattle.std.specs.Prelude.{◌≡◌, ◌++◌, ◌==◌, IfOk, OnOk, map, option_map};
ghost use Rattle.config_explained.specs.ConfigTexts.{keys_of};
ghost use Rattle.std.specs.List.{list_any};
ghost use Rattle.toml.specs.View.{table_view};
ghost use Rattle.protocol.specs.Catalog.{stations_of};
ghost use Rattle.access_list.specs.Tokens.{is_separator};
ghost use Rattle.config_explained.specs.Opened.{is_open, is_whole, networks_of, opened_count, opened_from};

use crate::config_text::ConfigText;
use crate::lists::meant_at;
use crate::network::Network;
use access_list::list::is_separator;
use catalog::Station;
use std::alloc::{AllocError, Global};
use toml::Table;

/// The networks of the entries of a list, in order.
pub(crate) fn networks_of(alloc: Global, list: &[u8]) -> Result<Vec<Network>, AllocError>
    ensures { IfOk result (λ networks. networks.items ≡ networks_of list.now) }
{
    let mut networks = Vec::new(alloc);
    let entries = list.split(
        |byte|
            ensures { result ≡ is_separator byte.now }
        { is_separator(*byte) },
    );
    for entry in entries {
        if let Some(network) = Network::parse(entry) {
            networks.push(network)?;
        }
    }
    Ok(networks)
}

/// Whether one of some networks has all addresses: no bit of its mask is one.
fn has_whole(networks: &[Network]) -> bool
    ensures { result ≡ list_any is_whole networks.now }
{
    networks.iter().any(|network| network.mask == 0)
}

/// Whether no list holds, or one with an entry that admits everybody.
fn is_open(alloc: Global, list: &Option<Vec<u8>>) -> Result<bool, AllocError>
    ensures { IfOk result (λ answer. answer ≡ is_open (option_map (λ l. l.items) list.now)) }
{
    match list {
        None => Ok(true),
        Some(list) => {
            let networks = networks_of(alloc, list.as_slice())?;
            Ok(has_whole(networks.as_slice()))
        }
    }
}

/// How many of some stations everybody may use.
#[tactic(auto, using(crate::proofs::OpenedLemmas::opened_lemmas))]
fn count_open(alloc: Global, stations: &[Station], table: &Table) -> Result<usize, AllocError>
    ensures { IfOk result (λ count.
        count ≡ opened_from (table_view table.now) 0 (map (λ e. e.station) stations.now)) }
{
    let mut count = 0;
    for (place, _station) in stations.iter().enumerate() {
        let list = meant_at(alloc, table, place)?;
        if is_open(alloc, &list)? {
            count += 1;
        }
    }
    Ok(count)
}

/// How many stations of a configuration everybody may use: no list holds, neither the
/// station's own nor the server's, or the list that holds has an entry whose mask has no ones. Only memory can lack.
pub fn open_to_everybody(alloc: Global, read: &ConfigText) -> Result<usize, AllocError>
    ensures { IfOk result (λ count. count ≡ opened_count (keys_of read.now.text) (stations_of read.now.config)) }
{
    count_open(alloc, read.config().stations(), read.table())
}
