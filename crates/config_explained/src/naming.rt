//! Which lists name a group.
ghost use Rattle.std.specs.Prelude.{◌≡◌, ◌++◌, IfOk, OnOk, map, option_map};
ghost use Rattle.toml.specs.Data.{as_str};
ghost use Rattle.toml.specs.View.{table_view, view};
ghost use Rattle.protocol.specs.Catalog.{stations_of};
ghost use Rattle.access_list.specs.Tokens.{is_separator};
ghost use Rattle.config_explained.specs.ConfigTexts.{keys_of};
ghost use Rattle.config_explained.specs.Naming.{entry_for, has_entry, has_entry_if, naming, naming_from, unused_by};
ghost use Rattle.config_explained.specs.Naming.{unused_if, unused_in, unused_line, unused_text, unused_words};

use crate::config_text::ConfigText;
use crate::lines::put;
use crate::lists::list_at;
use crate::shown_keys::put_key;
use access_list::list::is_separator;
use catalog::{Groups, Station};
use std::alloc::{AllocError, Global};
use toml::{Table, Value};

/// The entry that names a group.
pub(crate) fn entry_for(alloc: Global, name: &str) -> Result<Vec<u8>, AllocError>
    ensures { IfOk result (λ entry. entry.items ≡ entry_for name.now) }
{
    let mut entry = Vec::from_slice(alloc, b"@")?;
    put(&mut entry, name.as_bytes())?;
    Ok(entry)
}

/// Whether a list has an entry.
fn has_entry(list: &[u8], entry: &[u8]) -> bool
    ensures { result ≡ has_entry entry.now list.now }
{
    let pieces = list.split(
        |byte|
            ensures { result ≡ is_separator byte.now }
        { is_separator(*byte) },
    );
    for piece in pieces {
        if entry == piece {
            return true;
        }
    }
    false
}

/// Whether a list that may not be there has an entry.
fn has_entry_if(list: Option<&[u8]>, entry: &[u8]) -> bool
    ensures { result ≡ has_entry_if entry.now (option_map (λ l. l.now) list.entry) }
{
    match list {
        Some(list) => has_entry(list, entry),
        None => false,
    }
}

/// Of how many stations the list that holds has an entry.
#[tactic(auto, using(crate::proofs::NamingLemmas::naming_lemmas))]
pub(crate) fn naming(stations: &[Station], table: &Table, entry: &[u8]) -> usize
    ensures { result ≡ naming (table_view table.now) entry.now (map (λ e. e.station) stations.now) }
{
    let mut count = 0;
    for (place, _station) in stations.iter().enumerate() {
        if has_entry_if(list_at(table, place), entry) {
            count += 1;
        }
    }
    count
}

/// The line of a group that no station's list names.
fn put_words(text: &mut Vec<u8>, name: &str) -> Result<(), AllocError>
    ensures { OnOk result (text.new.items ≡ text.old.items ++ unused_words name.now) }
{
    put(text, b"seedlinkd: group ")?;
    put_key(text, name.as_bytes())?;
    put(text, b" is in the list of no station\n")
}

/// The line of a group, if so many stations' lists name it.
fn put_line(text: &mut Vec<u8>, name: &str, count: usize) -> Result<(), AllocError>
    ensures { OnOk result (text.new.items ≡ text.old.items ++ unused_line name.now count) }
{
    if count == 0 {
        put_words(text, name)
    } else {
        Ok(())
    }
}

/// The line of a group, if it is a text that no station's list names.
fn put_unused(
    alloc: Global,
    text: &mut Vec<u8>,
    read: &ConfigText,
    name: &str,
    value: &Value,
) -> Result<(), AllocError>
    ensures { OnOk result (text.new.items ≡ text.old.items
        ++ unused_if (keys_of read.now.text) (stations_of read.now.config) name.now (as_str (view value.now))) }
{
    if !value.is_str() {
        return Ok(());
    }
    let entry = entry_for(alloc, name)?;
    let count = naming(read.config().stations(), read.table(), entry.as_slice());
    put_line(text, name, count)
}

/// The lines of groups.
fn put_all(
    alloc: Global,
    text: &mut Vec<u8>,
    read: &ConfigText,
    groups: &Table,
) -> Result<(), AllocError>
    ensures { OnOk result (text.new.items ≡ text.old.items
        ++ unused_in (keys_of read.now.text) (stations_of read.now.config) (table_view groups.now)) }
{
    for (name, value) in groups.iter() {
        put_unused(alloc, text, read, name.as_str(), value)?;
    }
    Ok(())
}

/// The groups of a configuration that are in the list of no station, by the bytes of their names, a line each. Groups
/// that are no text are left out: `unknown_keys` names them. Only memory can lack.
pub fn unused_groups(alloc: Global, read: &ConfigText) -> Result<Vec<u8>, AllocError>
    ensures { IfOk result (λ lines. lines.items ≡ unused_text (keys_of read.now.text) (stations_of read.now.config)) }
{
    let mut lines = Vec::new(alloc);
    if let Some(groups) = Groups::of(read.table()).table() {
        put_all(alloc, &mut lines, read, groups)?;
    }
    Ok(lines)
}
