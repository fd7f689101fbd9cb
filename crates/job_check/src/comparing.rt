//! What a new configuration changes, and for whom.
ghost use Rattle.std.specs.Prelude.{◌≡◌, OnOk};
ghost use Rattle.config_explained.specs.ConfigTexts.{keys_of};
ghost use Rattle.std.specs.Io.KnownBytes.{Appends};
ghost use Rattle.config_explained.specs.Changes.{changes_text};
ghost use Rattle.protocol.specs.declared.reason.Reason.TheVariants.{File};

use crate::viewing::write_text;
use config_explained::{ConfigText, Difference, changes_of, first_difference};
use incidents::{Failure, Incident, Place, Site};
use job_base::{judged_config_in, lines_of, open, tell_unknown_keys, text_in};
use protocol::reason::Reason;
use sl_io::{Outer, Sink, StreamFault};
use std::alloc::Global;
use std::io;

/// Writes what changes, and for whom, if a server that runs one configuration is given another, a line each.
pub fn list_changes<W: Sink>(
    alloc: Global,
    old: &ConfigText,
    new: &ConfigText,
    out: &mut W,
) -> Result<(), StreamFault>
    ensures { OnOk result (Appends (W.written out.old) (W.written out.new)
        (changes_text (keys_of old.now.text) (keys_of new.now.text) old.now.config new.now.config)) }
{
    match changes_of(alloc, old, new) {
        Ok(lines) => write_text(lines.as_slice(), out),
        Err(_) => Err(StreamFault::OutOfMemory),
    }
}

/// Writes the lines that explain the first difference but for access lists: the file, the station, the key and its
/// values.
fn write_difference<'a, W: Sink>(
    alloc: Global,
    path: &'a str,
    difference: Difference,
    out: &mut W,
) -> Result<(), StreamFault> {
    let site = Site {
        place: Place::File(path),
        detail: lines_of(alloc, difference),
    };
    match format!(in alloc; "{site}") {
        Ok(lines) => write_text(lines.as_bytes(), out),
        Err(_) => Err(StreamFault::OutOfMemory),
    }
}

/// Writes what changes, and explains the first difference for which a running server refuses the new configuration.
fn write_all<'a>(
    rt: &HostRuntime,
    old: &ConfigText,
    path: &'a str,
    new: &ConfigText,
) -> Result<(), StreamFault> {
    let mut out = Outer::new(io::writer(rt));
    list_changes(rt.alloc(), old, new, &mut out)?;
    match first_difference(rt.alloc(), old.config(), new.config()) {
        Ok(Some(difference)) => write_difference(rt.alloc(), path, difference, &mut out),
        Ok(None) => Ok(()),
        Err(_) => Err(StreamFault::OutOfMemory),
    }
}

/// Names the keys of the new configuration that are not known, for which it is refused with `is_strict`, and writes
/// what it changes.
fn compare<'a>(
    rt: &HostRuntime,
    old: &ConfigText,
    path: &'a str,
    new_text: Vec<u8>,
    is_strict: bool,
) -> Result<(), Incident<'a>> {
    let new = judged_config_in(rt, path, new_text)?;
    tell_unknown_keys(rt, path, &new, is_strict)?;
    match write_all(rt, old, path, &new) {
        Ok(()) => Ok(()),
        Err(fault) => Err(Failure::of(fault.reason()).in_file(path)),
    }
}

/// What is said of a word that is no address and no network, and of which no file can be read.
fn nobody() -> Failure
    ensures { result.reason ≡ File }
{
    Failure::by(
        Reason::File,
        Some("a word is no address and no network, and there is no such file"),
    )
    .allowing(
        "an address as 10.0.0.7, a network as 10.0.0.0/8 (0 to 32), or the file of another configuration",
    )
}

/// A file that could not be opened, by a word that may have been meant for an address.
fn unopened_who<'a>(incident: Incident<'a>) -> Incident<'a>
    ensures { result.failure.reason ≡ incident.entry.failure.reason }
{
    match incident.failure.reason {
        Reason::File => Incident {
            failure: nobody(),
            site: incident.site,
        },
        _ => incident,
    }
}

/// Writes what changes, and for whom, if a server that runs a configuration is given that in a file. Keys of that one
/// that are not known are named on the standard error, and with `is_strict` it is refused for them.
pub fn write_changes<'a>(
    rt: &HostRuntime,
    old: &ConfigText,
    path: &'a str,
    is_strict: bool,
) -> Result<(), Incident<'a>> {
    let file = match open(rt, path) {
        Ok(file) => file,
        Err(incident) => return Err(unopened_who(incident)),
    };
    let new_text = text_in(rt, path, file)?;
    compare(rt, old, path, new_text, is_strict)
}
