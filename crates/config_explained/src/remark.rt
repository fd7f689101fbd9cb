//! Entries of access lists that admit something else than their text looks like.
ghost use Rattle.std.specs.Prelude.{◌≡◌, ◌≤◌, ◌++◌, ◌<◌, ◌^◌, IfOk, OnOk, Some, length, map, option_map};
ghost use Rattle.config_explained.specs.ConfigTexts.{keys_of};
ghost use Rattle.toml.specs.Data.{as_str};
ghost use Rattle.toml.specs.View.{table_view, view};
ghost use Rattle.config_explained.specs.Remarks.{groups_remarks, groups_remarks_if};
ghost use Rattle.config_explained.specs.Unknown.Whose.{TheGroup, TheOption};
ghost use Rattle.protocol.specs.Catalog.{stations_of};
ghost use Rattle.access_list.specs.Tokens.{is_separator};
ghost use Rattle.config_explained.specs.Remarks.{entry_remark, has_leading_ones, list_remarks, remark_line, remark_of};
ghost use Rattle.config_explained.specs.Remarks.{begins_with_digit, has_padding, is_digit, remark_in};
ghost use Rattle.config_explained.specs.Remarks.{alone_line, has_list, is_last_alone, last_alone_line, none_has_list};
ghost use Rattle.config_explained.specs.Remarks.{is_looked_at, remark_if, remark_words, remarks_from, remarks_if};
ghost use Rattle.config_explained.specs.Remarks.{remarks_text};
ghost use Rattle.config_explained.specs.declared.remark.Remarked.TheVariants.{EachEntry};
ghost use Rattle.config_explained.specs.Remarks.{station_remarks};
ghost use Rattle.config_explained.specs.Unknown.{whose};

use crate::config_text::ConfigText;
use crate::finding::text_at;
use crate::lines::put;
use crate::network::{Network, ones};
use crate::owner::Owner;
use access_list::list::is_separator;
use catalog::{Groups, Station, StationStep, Step};
use std::alloc::{AllocError, Global};
use toml::{Table, Value};

/// What an entry of an access list admits that its text doesn't show.
#[derive(Clone, Copy, Drop)]
pub enum Remark {
    /// Its mask has no ones.
    Everybody,
    /// It is `0.0.0.0` alone, which is no client's address.
    Nobody,
    /// The ones of its mask are not on the left.
    Scattered,
    /// Its address has bits outside its mask, as `10.0.0.7/8`.
    Outside,
    /// A number of it begins with 0, as in `010.000.000.007`, which other programs read in base 8.
    Padded,
}

/// Whether a mask has at most so many ones, all on the left.
fn has_leading_ones(count: u32, mask: u32) -> bool
    requires { count ≤ 32 }
    ensures { result ≡ has_leading_ones count mask }
{
    if count == 0 {
        return mask == ones(0);
    }
    mask == ones(count) || has_leading_ones(count - 1, mask)
}

/// Whether a text begins with a digit.
fn begins_with_digit(text: &[u8]) -> bool
    ensures { result ≡ begins_with_digit text.now }
{
    match text.first() {
        Some(byte) => is_digit(*byte),
        None => false,
    }
}

/// Whether a text has a number of more than one digit that begins with 0. What stands before the text is a digit if
/// `inside` says so.
fn has_padding(inside: bool, text: &[u8]) -> bool
    ensures { result ≡ has_padding inside text.now }
{
    let Some((byte, rest)) = text.split_first() else {
        return false;
    };
    if !inside && *byte == b'0' && begins_with_digit(rest) {
        return true;
    }
    has_padding(is_digit(*byte), rest)
}

/// Whether a byte is a digit.
fn is_digit(byte: u8) -> bool
    ensures { result ≡ is_digit byte }
{
    b'0' <= byte && byte <= b'9'
}

/// Which entries are looked at.
#[derive(Clone, Copy, Drop)]
pub enum Remarked {
    /// Each entry.
    EachEntry,
    /// Those that are not the text `0.0.0.0/0`, which looks like what it admits.
    OddEntries,
}

impl Remarked {
    /// Whether an entry is looked at.
    fn includes(self, entry: &[u8]) -> bool
        ensures { result ≡ is_looked_at self entry.now }
    {
        match self {
            Remarked::EachEntry => true,
            Remarked::OddEntries => entry != b"0.0.0.0/0".as_slice(),
        }
    }
}

impl Remark {
    /// What is to be said of a network, if anything.
    pub fn of(network: Network) -> Option<Remark>
        ensures { result ≡ remark_of network }
    {
        if network.mask == 0 {
            Some(Remark::Everybody)
        } else if network.address == 0 && network.mask == ones(32) {
            Some(Remark::Nobody)
        } else if !has_leading_ones(32, network.mask) {
            Some(Remark::Scattered)
        } else if network.address & network.mask != network.address {
            Some(Remark::Outside)
        } else {
            None
        }
    }

    /// What is to be said of an entry that spells a network, if anything.
    fn of_entry(entry: &[u8], network: Network) -> Option<Remark>
        ensures { result ≡ remark_in entry.now network }
    {
        match Remark::of(network) {
            Some(remark) => Some(remark),
            None if has_padding(false, entry) => Some(Remark::Padded),
            None => None,
        }
    }

    /// The words that say it.
    fn words(self) -> &'static [u8]
        ensures { result.now ≡ remark_words self }
    {
        match self {
            Remark::Everybody => b"everybody is admitted",
            Remark::Nobody => b"this address is nobody's",
            Remark::Scattered => b"the ones of the mask are not on the left",
            Remark::Outside => b"the bits of the address outside the mask don't count",
            Remark::Padded => b"a number that begins with 0 is decimal here, and not octal",
        }
    }
}

/// The line of an entry, if there is something to say.
fn put_line(
    text: &mut Vec<u8>,
    entry: &[u8],
    remark: Option<Remark>,
    owner: Owner<'_>,
) -> Result<(), AllocError>
    ensures { OnOk result (text.new.items ≡ text.old.items ++ remark_line (whose owner.entry) entry.now remark) }
{
    let Some(remark) = remark else {
        return Ok(());
    };
    put(text, b"seedlinkd: access ")?;
    put(text, entry)?;
    owner.put_words(text)?;
    put(text, b": ")?;
    put(text, remark.words())?;
    put(text, b"\n")?;
    Ok(())
}

/// The line of an entry, if it is one and there is something to say.
fn put_entry(text: &mut Vec<u8>, entry: &[u8], owner: Owner<'_>) -> Result<(), AllocError>
    ensures { OnOk result (text.new.items ≡ text.old.items ++ entry_remark (whose owner.entry) entry.now) }
{
    let remark = match Network::parse(entry) {
        Some(network) => Remark::of_entry(entry, network),
        None => None,
    };
    put_line(text, entry, remark, owner)
}

/// The same, if it is looked at.
fn put_remarked(
    text: &mut Vec<u8>,
    which: Remarked,
    entry: &[u8],
    owner: Owner<'_>,
) -> Result<(), AllocError>
    ensures { OnOk result (text.new.items
        ≡ text.old.items ++ remark_if which (whose owner.entry) entry.now) }
{
    if which.includes(entry) {
        put_entry(text, entry, owner)
    } else {
        Ok(())
    }
}

/// The lines of a list's entries.
fn put_list_remarks(
    text: &mut Vec<u8>,
    which: Remarked,
    list: &[u8],
    owner: Owner<'_>,
) -> Result<(), AllocError>
    ensures { OnOk result (text.new.items
        ≡ text.old.items ++ list_remarks which (whose owner.entry) list.now) }
{
    let entries = list.split(
        |byte|
            ensures { result ≡ is_separator byte.now }
        { is_separator(*byte) },
    );
    for entry in entries {
        put_remarked(text, which, entry, owner)?;
    }
    Ok(())
}

/// The same of a list that may not be there.
fn put_if(
    text: &mut Vec<u8>,
    which: Remarked,
    list: Option<&[u8]>,
    owner: Owner<'_>,
) -> Result<(), AllocError>
    ensures { OnOk result (text.new.items
        ≡ text.old.items ++ remarks_if which (whose owner.entry) (option_map (λ l. l.now) list.entry)) }
{
    match list {
        Some(list) => put_list_remarks(text, which, list, owner),
        None => Ok(()),
    }
}

/// The lines of a group's list.
fn put_group(
    text: &mut Vec<u8>,
    which: Remarked,
    name: &str,
    value: &Value,
) -> Result<(), AllocError>
    ensures { OnOk result (text.new.items
        ≡ text.old.items ++ remarks_if which (TheGroup name.now) (as_str (view value.now))) }
{
    match value.as_str() {
        Some(list) => put_list_remarks(text, which, list.as_bytes(), Owner::Group(name)),
        None => Ok(()),
    }
}

/// The lines of all groups.
fn put_groups(text: &mut Vec<u8>, which: Remarked, groups: &Table) -> Result<(), AllocError>
    ensures { OnOk result (text.new.items
        ≡ text.old.items ++ groups_remarks which (table_view groups.now)) }
{
    for (name, value) in groups.iter() {
        put_group(text, which, name.as_str(), value)?;
    }
    Ok(())
}

/// The lines of all groups, if there are any.
fn put_groups_if(
    text: &mut Vec<u8>,
    which: Remarked,
    groups: Option<&Table>,
) -> Result<(), AllocError>
    ensures { OnOk result (text.new.items
        ≡ text.old.items ++ groups_remarks_if which (option_map (λ t. table_view t.now) groups.entry)) }
{
    match groups {
        Some(groups) => put_groups(text, which, groups),
        None => Ok(()),
    }
}

/// The lines of a station's own list.
fn put_station(
    text: &mut Vec<u8>,
    which: Remarked,
    table: &Table,
    place: usize,
    station: &Station,
) -> Result<(), AllocError>
    requires { place < 2 ^ 63 }
    ensures { OnOk result (text.new.items
        ≡ text.old.items ++ station_remarks which (table_view table.now) place station.now.station) }
{
    let list = text_at(table, Step::Station(place, StationStep::Access));
    put_if(text, which, list, Owner::Station(place + 1, station))
}

/// The lines of all stations' own lists.
#[tactic(auto, using(crate::proofs::RemarkLemmas::remark_lemmas))]
fn put_stations(
    text: &mut Vec<u8>,
    which: Remarked,
    stations: &[Station],
    table: &Table,
) -> Result<(), AllocError>
    ensures { OnOk result (text.new.items ≡ text.old.items
        ++ remarks_from which (table_view table.now) 0 (map (λ e. e.station) stations.now)) }
{
    for (place, station) in stations.iter().enumerate() {
        put_station(text, which, table, place, station)?;
    }
    Ok(())
}

/// Whether a station has a list of its own.
fn has_list(table: &Table, place: usize) -> bool
    requires { place < 2 ^ 63 }
    ensures { result ≡ has_list (table_view table.now) place }
{
    text_at(table, Step::Station(place, StationStep::Access)).is_some()
}

/// Whether none of the first stations has a list of its own.
#[tactic(auto, using(crate::proofs::AloneLemmas::alone_lemmas))]
fn none_has_list(table: &Table, count: usize) -> bool
    requires { count < 2 ^ 63 }
    ensures { result ≡ none_has_list (table_view table.now) count }
{
    for place in 0..count {
        if has_list(table, place) {
            return false;
        }
    }
    true
}

/// Whether the station at a place has a list of its own, while none before it has one, nor the server.
fn is_last_alone(table: &Table, place: usize) -> bool
    requires { place < 2 ^ 63 }
    ensures { result ≡ is_last_alone (table_view table.now) place }
{
    place > 0
        && text_at(table, Step::Access).is_none()
        && has_list(table, place)
        && none_has_list(table, place)
}

/// The line of the last station, if it alone has a list.
fn put_alone(
    text: &mut Vec<u8>,
    table: &Table,
    place: usize,
    station: &Station,
) -> Result<(), AllocError>
    requires { place < 2 ^ 63 }
    ensures { OnOk result (text.new.items ≡ text.old.items
        ++ alone_line (table_view table.now) place (Some station.now.station)) }
{
    if !is_last_alone(table, place) {
        return Ok(());
    }
    put(text, b"seedlinkd: access")?;
    Owner::Station(place + 1, station).put_words(text)?;
    put(
        text,
        b": it is the one list; that of all stations stands above the first [[station]]\n",
    )?;
    Ok(())
}

/// The line of a list that the last station alone has, while neither the server has one nor another station: TOML takes
/// a key that stands below a station's for the station's.
fn put_last_alone(text: &mut Vec<u8>, table: &Table, stations: &[Station]) -> Result<(), AllocError>
    requires { length stations.now < 2 ^ 63 }
    ensures { OnOk result (text.new.items ≡ text.old.items
        ++ last_alone_line (table_view table.now) (map (λ e. e.station) stations.now)) }
{
    match stations.last() {
        Some(last) => put_alone(text, table, stations.len() - 1, last),
        None => Ok(()),
    }
}

/// The entries of a configuration's access lists that admit something else than their text looks like, a line each:
/// first those of the server's list, then those of each group, by the bytes of their names, and then those of each
/// station's own, with its number, from 1 on, and its codes. An entry is named if it admits everybody, if it is
/// `0.0.0.0` alone, if the ones of its mask are not on the left, if its address has bits outside its mask, or if a
/// number of it begins with 0; of odd entries alone, not if it is `0.0.0.0/0`. The last line is that of a list that the
/// last station alone has, of two or more. Only memory can lack.
pub fn remarks(alloc: Global, which: Remarked, read: &ConfigText) -> Result<Vec<u8>, AllocError>
    ensures { IfOk result (λ lines.
        lines.items ≡ remarks_text which (keys_of read.now.text) (stations_of read.now.config)) }
{
    let table = read.table();
    let mut lines = Vec::new(alloc);
    put_if(
        &mut lines,
        which,
        text_at(table, Step::Access),
        Owner::Server,
    )?;
    put_groups_if(&mut lines, which, Groups::of(table).table())?;
    put_stations(&mut lines, which, read.config().stations(), table)?;
    put_last_alone(&mut lines, table, read.config().stations())?;
    Ok(lines)
}

/// The entries of a list that an option of the command line has, as `--feed-from`, and that admit something else than
/// their text looks like, a line each as `remarks` has them of each entry. Only memory can lack.
pub fn list_remarks(alloc: Global, option: &str, list: &[u8]) -> Result<Vec<u8>, AllocError>
    ensures { IfOk result (λ lines. lines.items ≡ list_remarks EachEntry (TheOption option.now) list.now) }
{
    let mut lines = Vec::new(alloc);
    put_list_remarks(&mut lines, Remarked::EachEntry, list, Owner::Option(option))?;
    Ok(lines)
}
