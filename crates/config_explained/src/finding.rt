//! What is found where a configuration is refused.
ghost use Rattle.std.specs.Prelude.{◌≡◌, ◌≤◌, length, option_and_then, option_map, IfOk};
ghost use Rattle.std.specs.Str.{IsUtf8};
ghost use Rattle.toml.specs.Parse.{parse_document};
ghost use Rattle.toml.specs.View.{table_view};
ghost use Rattle.config_explained.specs.Findings.{Finds, FindsEntry, FindsKind, FindsText, FindsToml, IsEntry};
ghost use Rattle.config_explained.specs.Findings.{IsNotUtf8, refused_in, text_at};

use crate::kind::ValueKind;
use crate::place::{TextPlace, line_from, place_of};
use crate::setting_texts::wanted_of;
use crate::values::value_at;
use access_list::AccessList;
use catalog::keys::table_of;
use catalog::{ConfigError, ConfigFault, Groups, Step};
use shown_lines::put_line;
use std::alloc::{AllocError, Global};
use std::fmt::{self, Display, Formatter, Write};
use toml::Table;

/// What is found where a configuration is refused, beside its fault and its step.
#[derive(Drop)]
pub enum ConfigFinding {
    /// Nothing that the fault and the step don't say.
    Nothing,
    /// The text is not UTF-8: after so many bytes, at that place, it can't go on.
    NotUtf8 {
        offset: usize,
        place: TextPlace,
    },
    /// The text is not TOML: the reason, the place, and the line of that place.
    NotToml {
        reason: String,
        place: TextPlace,
        line: Vec<u8>,
    },
    /// A value of one kind where another is wanted, or none where one has to be.
    OtherKind {
        found: ValueKind,
        wanted: ValueKind,
    },
    /// An entry of an access list that is not an address, alone or with a mask.
    Entry {
        text: Vec<u8>,
    },
}

/// What is found where the text of a configuration is refused with an error, which `Config::read_by_steps` gave for it:
/// where it is not TOML the place of the reader's choice, at a key that is missing or of another kind that kind, and at
/// an access list its first entry that is refused. Only memory can lack.
pub fn finding_of(
    alloc: Global,
    text: &[u8],
    error: &ConfigError,
) -> Result<ConfigFinding, AllocError>
    ensures { IfOk result (Finds text.now error.now) }
{
    match error.fault {
        ConfigFault::Toml => text_finding(alloc, text),
        ConfigFault::Missing => kind_finding(alloc, text, error.step),
        ConfigFault::Access(_) => entry_finding(alloc, text, error.step),
        _ => Ok(ConfigFinding::Nothing),
    }
}

/// What is found in a text that is not UTF-8, or not TOML.
fn text_finding(alloc: Global, text: &[u8]) -> Result<ConfigFinding, AllocError>
    ensures { IfOk result (FindsText text.now) }
{
    match str::from_utf8(text) {
        Ok(utf8) => toml_finding(alloc, utf8),
        Err(error) => Ok(bytes_finding(text, error.valid_up_to())),
    }
}

/// What is found in a text that is UTF-8 up to an offset.
fn bytes_finding(text: &[u8], offset: usize) -> ConfigFinding
    requires { offset ≤ length text.now }
    ensures { IsNotUtf8 text.now offset result }
{
    let place = place_of(text, offset);
    ConfigFinding::NotUtf8 { offset, place }
}

/// What is found in a text that is not TOML.
fn toml_finding(alloc: Global, text: &str) -> Result<ConfigFinding, AllocError>
    ensures { IfOk result (FindsToml (parse_document text.now) text.now) }
{
    match toml::table_from_str(alloc, text) {
        Ok(_) => Ok(ConfigFinding::Nothing),
        Err(error) => match error.span() {
            Some(span) => {
                let place = place_of(text.as_bytes(), span.start);
                Ok(ConfigFinding::NotToml {
                    reason: String::from_str(alloc, error.message())?,
                    place,
                    line: line_from(text.as_bytes(), place.start).to_vec(alloc)?,
                })
            }
            None => Err(AllocError),
        },
    }
}

/// The table of a text, if it is one.
pub(crate) fn table_if_any(alloc: Global, text: &[u8]) -> Result<Option<Table>, AllocError>
    ensures { IfOk result (λ table. IsUtf8 text.now → parse_document text.now ≡ option_map table_view table) }
{
    match table_of(alloc, text) {
        Ok(table) => Ok(Some(table)),
        Err(ConfigFault::OutOfMemory) => Err(AllocError),
        Err(_) => Ok(None),
    }
}

/// The kind of the value at a step, and the one that is wanted.
fn kind_finding(alloc: Global, text: &[u8], step: Step) -> Result<ConfigFinding, AllocError>
    ensures { IfOk result (λ f. IsUtf8 text.now → FindsKind (parse_document text.now) step f) }
{
    match table_if_any(alloc, text)? {
        Some(table) => Ok(ConfigFinding::OtherKind {
            found: ValueKind::of(value_at(&table, step)),
            wanted: wanted_of(step),
        }),
        None => Ok(ConfigFinding::Nothing),
    }
}

/// The first entry of the access list at a step that is refused.
fn entry_finding(alloc: Global, text: &[u8], step: Step) -> Result<ConfigFinding, AllocError>
    ensures { IfOk result (λ f. IsUtf8 text.now → FindsEntry (parse_document text.now) step f) }
{
    match table_if_any(alloc, text)? {
        Some(table) => entry_in(alloc, &table, step),
        None => Ok(ConfigFinding::Nothing),
    }
}

/// The text that the key has which a step reads, if it has one.
pub fn text_at<'a>(table: &'a Table, step: Step) -> Option<&'a [u8]>
    ensures { option_map (λ text. text.now) result ≡ text_at (table_view table.now) step }
{
    match value_at(table, step) {
        Some(value) => match value.as_str() {
            Some(text) => Some(text.as_bytes()),
            None => None,
        },
        None => None,
    }
}

/// The first entry of a list that is refused, among those that it means.
fn refused_in(alloc: Global, table: &Table, list: &[u8]) -> Result<Option<Vec<u8>>, AllocError>
    ensures { IfOk result (λ entry. option_map (λ e. e.items) entry ≡ refused_in (table_view table.now) list.now) }
{
    let meant = Groups::of(table).list_meant(alloc, list)?;
    match AccessList::refused_entry(meant.as_slice()) {
        Some(entry) => Ok(Some(entry.to_vec(alloc)?)),
        None => Ok(None),
    }
}

/// The first entry of the access list at a step of a table that is refused.
fn entry_in(alloc: Global, table: &Table, step: Step) -> Result<ConfigFinding, AllocError>
    ensures { IfOk result (IsEntry (option_and_then (refused_in (table_view table.now))
        (text_at (table_view table.now) step))) }
{
    let Some(list) = text_at(table, step) else {
        return Ok(ConfigFinding::Nothing);
    };
    match refused_in(alloc, table, list)? {
        Some(text) => Ok(ConfigFinding::Entry { text }),
        None => Ok(ConfigFinding::Nothing),
    }
}

impl Display for ConfigFinding {
    /// The lines that say it, each with two spaces before it.
    fn fmt<W: Write>(&self, f: &mut Formatter<W>) -> fmt::Result {
        match self {
            ConfigFinding::Nothing => Ok(()),
            ConfigFinding::NotUtf8 { offset, place } => {
                put_place(f, place)?;
                writeln!(f, "  offset: {offset}\n  found: bytes that are not UTF-8")
            }
            ConfigFinding::NotToml {
                reason,
                place,
                line,
            } => {
                put_place(f, place)?;
                put_line(f, "reason", reason)?;
                put_text(f, "text", line)
            }
            ConfigFinding::OtherKind { found, wanted } => {
                writeln!(f, "  found: {found}\n  wanted: {wanted}")
            }
            ConfigFinding::Entry { text } => {
                put_text(f, "entry", text)?;
                put_no_group(f, text)
            }
        }
    }
}

/// The line that says of an entry that looks like the name of a group that there is none.
fn put_no_group<W: Write>(f: &mut Formatter<W>, text: &Vec<u8>) -> fmt::Result {
    match text.first() {
        Some(b'@') => put_line(f, "reason", "no text of the table groups has this name"),
        _ => Ok(()),
    }
}

/// The lines of a place.
fn put_place<W: Write>(f: &mut Formatter<W>, place: &TextPlace) -> fmt::Result {
    let TextPlace { line, column, .. } = *place;
    writeln!(f, "  line: {line}\n  column: {column}")
}

/// A line that quotes a text.
fn put_text<W: Write>(f: &mut Formatter<W>, word: &str, text: &Vec<u8>) -> fmt::Result {
    match str::from_utf8(text.as_slice()) {
        Ok(text) => put_line(f, word, text),
        Err(_) => Ok(()),
    }
}
