//! How much of a network sees each station.
ghost use Rattle.std.specs.Prelude.{◌≡◌, ◌++◌, IfOk, OnOk, map, option_map};
ghost use Rattle.config_explained.specs.ConfigTexts.{keys_of};
ghost use Rattle.toml.specs.View.{table_view};
ghost use Rattle.protocol.specs.Catalog.{stations_of};
ghost use Rattle.config_explained.specs.Parts.{part_line, part_of, part_words, parts_from, parts_text};

use crate::config_text::ConfigText;
use crate::coverage::{Coverage, coverage_of};
use crate::lines::put;
use crate::lists::meant_at;
use crate::network::Network;
use crate::opened::networks_of;
use catalog::Station;
use std::alloc::{AllocError, Global};
use toml::Table;

/// How much of a network a list admits: all of it if there is no list.
fn part_of(alloc: Global, list: &Option<Vec<u8>>, network: Network) -> Result<Coverage, AllocError>
    ensures { IfOk result (λ part. part ≡ part_of (option_map (λ l. l.items) list.now) network) }
{
    match list {
        None => Ok(Coverage::Whole),
        Some(list) => {
            let networks = networks_of(alloc, list.as_slice())?;
            Ok(coverage_of(networks.as_slice(), network))
        }
    }
}

/// The word for it, with a space before it.
fn words_of(part: Coverage) -> &'static [u8]
    ensures { result.now ≡ part_words part }
{
    match part {
        Coverage::Whole => b" all",
        Coverage::Part => b" some",
        Coverage::Nothing => b" none",
    }
}

/// The line of a station.
fn put_part(text: &mut Vec<u8>, station: &Station, part: Coverage) -> Result<(), AllocError>
    ensures { OnOk result (text.new.items ≡ text.old.items ++ part_line station.now.station part) }
{
    put(text, station.network())?;
    put(text, b" ")?;
    put(text, station.code())?;
    put(text, words_of(part))?;
    put(text, b"\n")
}

/// The lines of all stations.
#[tactic(auto, using(crate::proofs::PartLemmas::part_lemmas))]
fn put_parts(
    alloc: Global,
    text: &mut Vec<u8>,
    stations: &[Station],
    table: &Table,
    network: Network,
) -> Result<(), AllocError>
    ensures { OnOk result (text.new.items ≡ text.old.items
        ++ parts_from (table_view table.now) network 0 (map (λ e. e.station) stations.now)) }
{
    for (place, station) in stations.iter().enumerate() {
        let list = meant_at(alloc, table, place)?;
        let part = part_of(alloc, &list, network)?;
        put_part(text, station, part)?;
    }
    Ok(())
}

/// All stations of a configuration, in order, a line each: its network, its code, and `all` if every address of a
/// network may use it, `none` if no address of it may, else `some`. Only memory can lack. It takes few steps for networks whose masks have their ones on the left; for others up to one for each
/// pattern of the bits that some mask has and another has not.
pub fn parts_of(alloc: Global, read: &ConfigText, network: Network) -> Result<Vec<u8>, AllocError>
    ensures { IfOk result (λ lines.
        lines.items ≡ parts_text (keys_of read.now.text) network (stations_of read.now.config)) }
{
    let mut lines = Vec::new(alloc);
    put_parts(
        alloc,
        &mut lines,
        read.config().stations(),
        read.table(),
        network,
    )?;
    Ok(lines)
}
