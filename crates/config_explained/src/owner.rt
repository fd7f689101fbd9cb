//! Whose keys a table of a configuration has.
ghost use Rattle.std.specs.Prelude.{◌≡◌, ◌++◌, OnOk, codes, find, map};
ghost use Rattle.std.specs.Str.{bytes_eq};
ghost use Rattle.toml.specs.View.{view};
ghost use Rattle.config_explained.specs.KeyTable.{is_key_of, name_of, row_of};
ghost use Rattle.config_explained.specs.Nearest.{nearest};
ghost use Rattle.config_explained.specs.Unknown.{hint, hint_by, is_known, keys_of, owner_words, question, whose};
ghost use Rattle.config_explained.specs.Unknown.Whose.{TheGroup, TheOption, TheStation};

use crate::key::{Key, SERVER_KEYS, STATION_KEYS};
use crate::lines::put;
use crate::nearest::nearest;
use crate::shown_keys::put_key;
use catalog::Station;
use itoa::Buffer;
use std::alloc::{AllocError, Global};
use toml::Value;

/// Whose keys they are.
#[derive(Clone, Copy)]
pub enum Owner<'a> {
    /// The whole server's.
    Server,
    /// Those of its groups.
    Groups,
    /// Of one group, by its name.
    Group(&'a str),
    /// Of an option of the command line.
    Option(&'a str),
    /// Those of a station, which is the so manieth, from 1 on.
    Station(usize, &'a Station),
}

impl Owner<'_> {
    /// The keys that it has.
    fn keys(self) -> &'static [Key]
        ensures { result.now ≡ keys_of (whose self.entry) }
    {
        match self {
            Owner::Server => &SERVER_KEYS,
            Owner::Groups | Owner::Group(_) | Owner::Option(_) => &[],
            Owner::Station(_, _) => &STATION_KEYS,
        }
    }

    /// Whether a key is one that it has, and may have that value.
    pub fn knows(self, key: &str, value: &Value) -> bool
        ensures { result ≡ is_known (whose self.entry) key.now (view value.now) }
    {
        match self {
            Owner::Groups => value.is_str(),
            _ => is_key_of(self.keys(), key, value),
        }
    }

    /// Puts behind a text what a key may be that it has with another value, or else the key that it has and that is
    /// nearest to it, as a question, if one is near.
    pub fn put_hint(self, alloc: Global, text: &mut Vec<u8>, key: &str) -> Result<(), AllocError>
        ensures { OnOk result (text.new.items ≡ text.old.items ++ hint (whose self.entry) key.now) }
    {
        match self {
            Owner::Groups => put(text, b"; it is a text, an access list"),
            _ => put_hint_of(alloc, text, self.keys(), key),
        }
    }

    /// Puts the words that name it behind a text.
    pub fn put_words(self, text: &mut Vec<u8>) -> Result<(), AllocError>
        ensures { OnOk result (text.new.items ≡ text.old.items ++ owner_words (whose self.entry)) }
    {
        match self {
            Owner::Server => Ok(()),
            Owner::Groups => put(text, b", groups"),
            Owner::Group(name) => put_group(text, name),
            Owner::Option(name) => put_option(text, name),
            Owner::Station(number, station) => put_station(text, number, station),
        }
    }
}

/// Whether a text is the name of one of some keys, and may have that value.
fn is_key_of(keys: &[Key], name: &str, value: &Value) -> bool
    ensures { result ≡ is_key_of keys.now name.now (view value.now) }
{
    keys.iter()
        .any(|key| name == key.name() && key.may_be(value))
}

/// The key of that name, if it is one of some.
fn key_named(keys: &[Key], name: &str) -> Option<Key>
    ensures { result ≡ find (λ k. bytes_eq name.now (name_of k)) keys.now }
{
    for key in keys {
        if name == key.name() {
            return Some(*key);
        }
    }
    None
}

/// Puts behind a text what a key of that name may be, or else the nearest of some keys as a question.
fn put_hint_of(
    alloc: Global,
    text: &mut Vec<u8>,
    keys: &[Key],
    name: &str,
) -> Result<(), AllocError>
    ensures { OnOk result (text.new.items ≡ text.old.items ++ hint_by
        (find (λ k. bytes_eq name.now (name_of k)) keys.now) (nearest name.now (map name_of keys.now))) }
{
    match key_named(keys, name) {
        Some(key) => put_limits(text, key),
        None => put_nearest(alloc, text, keys, name),
    }
}

/// Puts behind a text what a key may be.
fn put_limits(text: &mut Vec<u8>, key: Key) -> Result<(), AllocError>
    ensures { OnOk result (text.new.items ≡ text.old.items ++ (codes "; it is " ++ (row_of key).limits)) }
{
    put(text, b"; it is ")?;
    put(text, key.row().limits.as_bytes())
}

/// Puts the nearest of some keys behind a text, as a question, if one is near.
fn put_nearest(
    alloc: Global,
    text: &mut Vec<u8>,
    keys: &[Key],
    name: &str,
) -> Result<(), AllocError>
    ensures { OnOk result (text.new.items
        ≡ text.old.items ++ question (nearest name.now (map name_of keys.now))) }
{
    let Some(near) = nearest(alloc, name, keys)? else {
        return Ok(());
    };
    put(text, b"; did you mean ")?;
    put(text, near.name().as_bytes())?;
    put(text, b"?")?;
    Ok(())
}

/// The words that name a group.
fn put_group(text: &mut Vec<u8>, name: &str) -> Result<(), AllocError>
    ensures { OnOk result (text.new.items ≡ text.old.items ++ owner_words (TheGroup name.now)) }
{
    put(text, b", group ")?;
    put_key(text, name.as_bytes())
}

/// The words that name an option.
fn put_option(text: &mut Vec<u8>, name: &str) -> Result<(), AllocError>
    ensures { OnOk result (text.new.items ≡ text.old.items ++ owner_words (TheOption name.now)) }
{
    put(text, b", ")?;
    put(text, name.as_bytes())
}

/// The words that name a station.
fn put_station(text: &mut Vec<u8>, number: usize, station: &Station) -> Result<(), AllocError>
    ensures { OnOk result (text.new.items ≡ text.old.items ++ owner_words (TheStation number station.now.station)) }
{
    put(text, b", station ")?;
    put(text, Buffer::new().format(number).as_bytes())?;
    put(text, b" ")?;
    put(text, station.network())?;
    put(text, b" ")?;
    put(text, station.code())
}
