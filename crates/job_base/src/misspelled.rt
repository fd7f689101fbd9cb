//! Keys of a configuration that are not known, and so may be misspelled.
ghost use Rattle.std.specs.Prelude.{◌≡◌, [], true, IfOk, IfErr, Ok};
ghost use Rattle.toml.specs.Parse.{parse_document};
ghost use Rattle.catalog.specs.Reading.{config_read};
ghost use Rattle.config_explained.specs.ConfigTexts.{keys_of};
ghost use Rattle.protocol.specs.Catalog.{stations_of};
ghost use Rattle.config_explained.specs.Unknown.{named, unknown_text};
ghost use Rattle.protocol.specs.declared.reason.Reason.TheVariants.{Missing};

use crate::inputs::config_at;
use crate::telling::tell_lines;
use config_explained::{ConfigText, unknown_keys};
use incidents::{Failure, Incident};
use protocol::reason::Reason;
use std::alloc::Global;

/// The lines that name the keys of a configuration's text that are not known.
pub fn unknown_lines<'a>(alloc: Global, read: &ConfigText) -> Result<Vec<u8>, Incident<'a>>
    ensures { IfOk result (λ lines.
        lines.items ≡ named (unknown_text (keys_of read.now.text) (stations_of read.now.config))) }
{
    match unknown_keys(alloc, read) {
        Ok(lines) => Ok(lines),
        Err(_) => Err(Incident::out_of_memory()),
    }
}

/// What is said of a configuration that is refused for keys that are not known.
fn unknown_keys_found() -> Failure
    ensures { result.reason ≡ Missing }
{
    Failure::by(
        Reason::Missing,
        Some("the configuration has keys that are not known"),
    )
}

/// With `is_strict` a configuration is refused if there are lines that name unknown keys of it.
pub fn refuse_unknown<'a>(path: &'a str, lines: &[u8], is_strict: bool) -> Result<(), Incident<'a>>
    ensures taken { IfOk result (λ _. is_strict ≡ true → lines.now ≡ []) }
    ensures refused { IfErr result (λ incident.
        (is_strict ≡ true) × (incident.failure.reason ≡ Missing)) }
{
    if is_strict && !lines.is_empty() {
        return Err(unknown_keys_found().in_file(path));
    }
    Ok(())
}

/// Names the keys of a configuration's text that are not known, a line each on the standard error. With `is_strict` it
/// is refused if there are any.
pub fn tell_unknown_keys<'a>(
    rt: &HostRuntime,
    path: &'a str,
    read: &ConfigText,
    is_strict: bool,
) -> Result<(), Incident<'a>>
    ensures { IfOk result (λ _. is_strict ≡ true →
        named (unknown_text (keys_of read.now.text) (stations_of read.now.config)) ≡ []) }
{
    let lines = unknown_lines(rt.alloc(), read)?;
    tell_lines(rt, lines.as_slice());
    refuse_unknown(path, lines.as_slice(), is_strict)
}

/// The configuration in a file, whose unknown keys are named. With `is_strict` it is refused if there are any.
pub fn checked_config_at<'a>(
    rt: &HostRuntime,
    path: &'a str,
    is_strict: bool,
) -> Result<ConfigText, Incident<'a>>
    ensures { IfOk result (λ read. config_read (parse_document read.text) ≡ Ok read.config) }
{
    let read = config_at(rt, path)?;
    tell_unknown_keys(rt, path, &read, is_strict)?;
    Ok(read)
}
