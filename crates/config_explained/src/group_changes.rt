//! What a new configuration changes of groups.
ghost use Rattle.std.specs.Prelude.{◌≡◌, ◌++◌, ◌∷◌, [], IfOk, OnOk, codes, option_map};
ghost use Rattle.toml.specs.Data.{as_str};
ghost use Rattle.toml.specs.View.{table_view, view};
ghost use Rattle.protocol.specs.Catalog.{stations_of};
ghost use Rattle.config_explained.specs.Changes.{admission_lines, change_line, group_at, group_lines, groups_by};
ghost use Rattle.config_explained.specs.Naming.{entry_for};
ghost use Rattle.config_explained.specs.Changes.{groups_in, so_many_stations, with_count};
ghost use Rattle.config_explained.specs.ConfigTexts.{keys_of};
ghost use Rattle.config_explained.specs.Opened.{networks_of};

use crate::admission::{put_admission, put_line};
use crate::config_text::ConfigText;
use crate::lines::put;
use crate::naming::{entry_for, naming};
use crate::opened::networks_of;
use catalog::Groups;
use catalog::groups::named_in;
use itoa::Buffer;
use std::alloc::{AllocError, Global};
use toml::{Table, Value};

/// How many stations there are.
fn put_so_many(text: &mut Vec<u8>, count: usize) -> Result<(), AllocError>
    ensures { OnOk result (text.new.items ≡ text.old.items ++ so_many_stations count) }
{
    if count == 1 {
        return put(text, b"1 station");
    }
    put(text, Buffer::new().format(count).as_bytes())?;
    put(text, b" stations")
}

/// The line that says in the list of how many stations a group is.
fn put_count(
    alloc: Global,
    text: &mut Vec<u8>,
    entry: &[u8],
    count: usize,
) -> Result<(), AllocError>
    ensures { OnOk result (text.new.items ≡ text.old.items
        ++ change_line entry.now (codes " is in the list of " ++ so_many_stations count)) }
{
    let mut words = Vec::from_slice(alloc, b" is in the list of ")?;
    put_so_many(&mut words, count)?;
    put_line(text, entry, words.as_slice())
}

/// What changes of a group, by its texts.
fn lines_of(alloc: Global, entry: &[u8], old: &[u8], new: &[u8]) -> Result<Vec<u8>, AllocError>
    ensures { IfOk result (λ lines.
        lines.items ≡ admission_lines entry.now (networks_of old.now) (networks_of new.now)) }
{
    let old = networks_of(alloc, old)?;
    let new = networks_of(alloc, new)?;
    let mut lines = Vec::new(alloc);
    put_admission(alloc, &mut lines, entry, old.as_slice(), new.as_slice())?;
    Ok(lines)
}

/// Lines of a group, if there are any, and in the list of how many stations it is.
fn put_with_count(
    alloc: Global,
    text: &mut Vec<u8>,
    entry: &[u8],
    count: usize,
    lines: &[u8],
) -> Result<(), AllocError>
    ensures { OnOk result (text.new.items ≡ text.old.items ++ with_count entry.now count lines.now) }
{
    if lines.is_empty() {
        return Ok(());
    }
    put(text, lines)?;
    put_count(alloc, text, entry, count)
}

/// The text of the group that an entry names, if there is one.
fn group_at<'a>(table: &'a Table, entry: &[u8]) -> Option<&'a [u8]>
    ensures { option_map (λ text. text.now) result ≡ group_at (table_view table.now) entry.now }
{
    match Groups::of(table).table() {
        Some(groups) => named_in(groups, entry),
        None => None,
    }
}

/// What changes of a group of the old configuration.
fn put_group(
    alloc: Global,
    text: &mut Vec<u8>,
    name: &str,
    value: &Value,
    new: &ConfigText,
) -> Result<(), AllocError>
    ensures { OnOk result (text.new.items ≡ text.old.items ++ group_lines (keys_of new.now.text)
        (stations_of new.now.config) name.now (as_str (view value.now))
        (group_at (keys_of new.now.text) (entry_for name.now))) }
{
    let entry = entry_for(alloc, name)?;
    match (value.as_str(), group_at(new.table(), entry.as_slice())) {
        (Some(old_list), Some(new_list)) => {
            let lines = lines_of(alloc, entry.as_slice(), old_list.as_bytes(), new_list)?;
            let count = naming(new.config().stations(), new.table(), entry.as_slice());
            put_with_count(alloc, text, entry.as_slice(), count, lines.as_slice())
        }
        (_, _) => Ok(()),
    }
}

/// What changes of groups of the old configuration.
fn put_groups(
    alloc: Global,
    text: &mut Vec<u8>,
    groups: &Table,
    new: &ConfigText,
) -> Result<(), AllocError>
    ensures { OnOk result (text.new.items ≡ text.old.items
        ++ groups_in (keys_of new.now.text) (stations_of new.now.config) (table_view groups.now)) }
{
    for (name, value) in groups.iter() {
        put_group(alloc, text, name.as_str(), value, new)?;
    }
    Ok(())
}

/// What changes of the groups that both configurations have, by the groups of the old one: who is in a group that was
/// not, and who isn't any more, a line each, and then in the list of how many stations it is.
pub(crate) fn put_group_changes(
    alloc: Global,
    text: &mut Vec<u8>,
    groups: Option<&Table>,
    new: &ConfigText,
) -> Result<(), AllocError>
    ensures { OnOk result (text.new.items ≡ text.old.items ++ groups_by (keys_of new.now.text)
        (stations_of new.now.config) (option_map (λ t. table_view t.now) groups.entry)) }
{
    match groups {
        Some(groups) => put_groups(alloc, text, groups, new),
        None => Ok(()),
    }
}
