//! The list that holds for a station: what it means, and how it is shown.
ghost use Rattle.std.specs.Prelude.{◌≡◌, ◌++◌, IfOk, OnOk, Some, flat_map, option_map};
ghost use Rattle.toml.specs.View.{table_view};
ghost use Rattle.protocol.specs.Pieces.{split};
ghost use Rattle.access_list.specs.Tokens.{is_separator};
ghost use Rattle.config_explained.specs.Lists.{entry_of_group, entry_shown, list_at, list_owner, list_shown, meant_at};
ghost use Rattle.config_explained.specs.Lists.{owner_at, shown_at};
ghost use Rattle.config_explained.specs.ConfigTexts.{keys_of};
ghost use Rattle.catalog.specs.Groups.{named_in};

use crate::config_text::ConfigText;
use crate::finding::text_at;
use crate::lines::put;
use access_list::list::is_separator;
use catalog::groups::named_in;
use catalog::{Groups, StationStep, Step};
use std::alloc::{AllocError, Global};
use toml::Table;

/// The text of the list that holds for the station at a place: its own, or the server's.
pub(crate) fn list_at<'a>(table: &'a Table, place: usize) -> Option<&'a [u8]>
    ensures { option_map (λ l. l.now) result ≡ list_at (table_view table.now) place }
{
    match text_at(table, Step::Station(place, StationStep::Access)) {
        Some(own) => Some(own),
        None => text_at(table, Step::Access),
    }
}

/// Whose the list is that holds for a station.
#[derive(Clone, Copy, Drop)]
pub enum ListOwner {
    /// The station has it.
    TheStation,
    /// The station has none of its own, and the server has it.
    TheServer,
    /// No list holds: everybody may use the station.
    Nobody,
}

/// Whose the list is that holds for the station at a place.
fn owner_at(table: &Table, place: usize) -> ListOwner
    ensures { result ≡ owner_at (table_view table.now) place }
{
    match (
        text_at(table, Step::Station(place, StationStep::Access)),
        text_at(table, Step::Access),
    ) {
        (Some(_), _) => ListOwner::TheStation,
        (None, Some(_)) => ListOwner::TheServer,
        (None, None) => ListOwner::Nobody,
    }
}

/// Whose the list is that holds for the first station of a configuration with these codes, if there is one.
pub fn list_owner(read: &ConfigText, network: &[u8], code: &[u8]) -> Option<ListOwner>
    ensures { result ≡ list_owner (keys_of read.now.text) read.now.config network.now code.now }
{
    match read.config().place_of(network, code) {
        Some(place) => Some(owner_at(read.table(), place)),
        None => None,
    }
}

/// The list that holds for the station at a place, with the entries of groups in the place of their names.
pub(crate) fn meant_at(
    alloc: Global,
    table: &Table,
    place: usize,
) -> Result<Option<Vec<u8>>, AllocError>
    ensures { IfOk result (λ list. option_map (λ l. l.items) list ≡ meant_at (table_view table.now) place) }
{
    match list_at(table, place) {
        Some(list) => Ok(Some(Groups::of(table).list_meant(alloc, list)?)),
        None => Ok(None),
    }
}

/// The list that holds for the station at a place, as it is shown: with the entries of a group, and the group's name
/// behind each, in the place of its name.
pub(crate) fn shown_at(
    alloc: Global,
    table: &Table,
    place: usize,
) -> Result<Option<Vec<u8>>, AllocError>
    ensures { IfOk result (λ list. option_map (λ l. l.items) list ≡ shown_at (table_view table.now) place) }
{
    match (list_at(table, place), Groups::of(table).table()) {
        (Some(list), Some(groups)) => Ok(Some(list_with_names(alloc, groups, list)?)),
        (Some(list), None) => Ok(Some(list.to_vec(alloc)?)),
        (None, _) => Ok(None),
    }
}

/// An entry of a group with the group's name behind it, and a space.
fn put_entry_of_group(text: &mut Vec<u8>, name: &[u8], entry: &[u8]) -> Result<(), AllocError>
    ensures { OnOk result (text.new.items ≡ text.old.items ++ entry_of_group name.now entry.now) }
{
    if entry.is_empty() {
        return Ok(());
    }
    put(text, entry)?;
    put(text, name)?;
    put(text, b" ")
}

/// The entries of a group.
fn put_group(text: &mut Vec<u8>, name: &[u8], group: &[u8]) -> Result<(), AllocError>
    ensures { OnOk result (text.new.items
        ≡ text.old.items ++ flat_map (entry_of_group name.now) (split is_separator group.now)) }
{
    let entries = group.split(
        |byte|
            ensures { result ≡ is_separator byte.now }
        { is_separator(*byte) },
    );
    for entry in entries {
        put_entry_of_group(text, name, entry)?;
    }
    Ok(())
}

/// An entry and a space, or the entries of the group that it names.
fn put_entry(text: &mut Vec<u8>, groups: &Table, entry: &[u8]) -> Result<(), AllocError>
    ensures { OnOk result (text.new.items
        ≡ text.old.items ++ entry_shown entry.now (named_in (table_view groups.now) entry.now)) }
{
    match named_in(groups, entry) {
        Some(group) => put_group(text, entry, group),
        None => {
            put(text, entry)?;
            put(text, b" ")
        }
    }
}

/// Each entry of a list, or the entries of the group that it names.
fn list_with_names(alloc: Global, groups: &Table, list: &[u8]) -> Result<Vec<u8>, AllocError>
    ensures { IfOk result (λ text. text.items ≡ list_shown (Some (table_view groups.now)) list.now) }
{
    let mut text = Vec::new(alloc);
    let entries = list.split(
        |byte|
            ensures { result ≡ is_separator byte.now }
        { is_separator(*byte) },
    );
    for entry in entries {
        put_entry(&mut text, groups, entry)?;
    }
    Ok(text)
}
