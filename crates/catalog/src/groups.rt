//! Lists that a configuration gives a name.
ghost use Rattle.std.specs.Prelude.{◌≡◌, ◌++◌, ◌∷◌, [], IfOk, OnOk, Some, option_map};
ghost use Rattle.toml.specs.View.{table_view};
ghost use Rattle.access_list.specs.Tokens.{is_separator};
ghost use Rattle.catalog.specs.Groups.{entry_apart, entry_meant, group_in, groups_of};
ghost use Rattle.catalog.specs.Groups.{groups_value, list_meant, named_in};

use crate::keys::value_at;
use access_list::list::is_separator;
use std::alloc::{AllocError, Global};
use toml::Table;

/// The named lists of a configuration: the texts of its table `groups`, each at its name. `groups_value` is that table,
/// if there is one.
#[derive(Clone, Copy, Drop)]
pub struct Groups<'a> {
    table: Option<&'a Table>,
}

impl<'a> Groups<'a> {
    /// The groups of a configuration's table: its table `groups`. Any other value there names none.
    pub fn of(table: &'a Table) -> Groups<'a>
        ensures { groups_value result ≡ groups_of (table_view table.now) }
    {
        match value_at(table, "groups") {
            Some(value) => Groups {
                table: value.as_table(),
            },
            None => Groups { table: None },
        }
    }

    /// The table of the groups, if there is one.
    pub fn table(&self) -> Option<&'a Table>
        ensures { option_map (λ t. table_view t.now) result ≡ groups_value self.now }
    {
        self.table
    }

    /// The text that an access list means: for each entry of `@` and the name of a group the text of that group, and
    /// any other entry as it is, each with a space behind it. An entry within a group is left as it is. Without groups
    /// it is the list itself. Only memory can lack.
    pub fn list_meant(&self, alloc: Global, list: &[u8]) -> Result<Vec<u8>, AllocError>
        ensures { IfOk result (λ text. text.items ≡ list_meant (groups_value self.now) list.now) }
    {
        match self.table {
            Some(groups) => with_groups(alloc, groups, list),
            None => list.to_vec(alloc),
        }
    }
}

/// The text of the group of that name.
fn group_in<'a>(groups: &'a Table, name: &[u8]) -> Option<&'a [u8]>
    ensures { option_map (λ text. text.now) result ≡ group_in (table_view groups.now) name.now }
{
    for (key, value) in groups.iter() {
        if key.as_str().as_bytes() == name {
            return match value.as_str() {
                Some(text) => Some(text.as_bytes()),
                None => None,
            };
        }
    }
    None
}

/// The text of the group that an entry of an access list names, `@` and the group's name, if it names one of these.
pub fn named_in<'a>(groups: &'a Table, entry: &[u8]) -> Option<&'a [u8]>
    ensures { option_map (λ text. text.now) result ≡ named_in (table_view groups.now) entry.now }
{
    match entry.split_first() {
        Some((b'@', name)) => group_in(groups, name),
        _ => None,
    }
}

/// What stands for an entry: the list that it names, or the entry itself.
fn entry_meant<'a>(groups: &'a Table, entry: &'a [u8]) -> &'a [u8]
    ensures { result.now ≡ entry_meant (table_view groups.now) entry.now }
{
    match named_in(groups, entry) {
        Some(text) => text,
        None => entry,
    }
}

/// What stands for an entry, with a space behind it.
fn put_entry(text: &mut Vec<u8>, groups: &Table, entry: &[u8]) -> Result<(), AllocError>
    ensures { OnOk result (text.new.items ≡ text.old.items ++ entry_apart (table_view groups.now) entry.now) }
{
    text.extend_from_slice(entry_meant(groups, entry))?;
    text.extend_from_slice(b" ")
}

/// What stands for each entry of a list.
fn with_groups(alloc: Global, groups: &Table, list: &[u8]) -> Result<Vec<u8>, AllocError>
    ensures { IfOk result (λ text. text.items ≡ list_meant (Some (table_view groups.now)) list.now) }
{
    let mut text = Vec::new(alloc);
    let entries = list.split(
        |byte|
            ensures { result ≡ is_separator byte.now }
        { is_separator(*byte) },
    );
    for entry in entries {
        put_entry(&mut text, groups, entry)?;
    }
    Ok(text)
}
