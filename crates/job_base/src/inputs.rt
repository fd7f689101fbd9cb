//! Files that are read whole, configurations among them.
ghost use Rattle.std.specs.Prelude.{◌≡◌, IfOk, Ok};
ghost use Rattle.toml.specs.Parse.{parse_document};
ghost use Rattle.catalog.specs.Reading.{config_read};

use crate::faults::{line_if_any, tell_faults};
use catalog::{ConfigError, ConfigFault};
use config_explained::{
    ConfigFinding, ConfigText, RefusedConfig, RefusedText, cause_of, finding_of, limit_of,
};
use incidents::{Detail, Failure, Incident, Place};
use protocol::reason::Reason;
use std::alloc::Global;
use std::fmt::Display;
use std::fs::File;
use std::{fs, io};

/// The configuration in a file.
pub fn config_at<'a>(rt: &HostRuntime, path: &'a str) -> Result<ConfigText, Incident<'a>>
    ensures { IfOk result (λ read. config_read (parse_document read.text) ≡ Ok read.config) }
{
    let text = text_at(rt, path)?;
    config_in(rt.alloc(), path, text)
}

/// The text of a configuration's file.
pub fn text_at<'a>(rt: &HostRuntime, path: &'a str) -> Result<Vec<u8>, Incident<'a>> {
    let file = open(rt, path)?;
    text_in(rt, path, file)
}

/// The text of a file that is open, of at most 16 MiB.
pub fn text_in<'a>(rt: &HostRuntime, path: &'a str, file: File) -> Result<Vec<u8>, Incident<'a>> {
    match files::text_in(rt, file) {
        Ok(text) => Ok(text),
        Err(reason) => Err(unopened(path, reason)),
    }
}

/// The configuration that the text of a file spells.
pub fn config_in<'a>(
    alloc: Global,
    path: &'a str,
    text: Vec<u8>,
) -> Result<ConfigText, Incident<'a>>
    ensures config { IfOk result (λ read. config_read (parse_document text.items) ≡ Ok read.config) }
    ensures text { IfOk result (λ read. read.text ≡ text.items) }
{
    match ConfigText::read(alloc, text) {
        Ok(read) => Ok(read),
        Err(refused) => Err(explained(alloc, path, refused)),
    }
}

/// The configuration that the text of a file spells. If it has several faults, each is named on the standard error.
pub fn judged_config_in<'a>(
    rt: &HostRuntime,
    path: &'a str,
    text: Vec<u8>,
) -> Result<ConfigText, Incident<'a>>
    ensures config { IfOk result (λ read. config_read (parse_document text.items) ≡ Ok read.config) }
    ensures text { IfOk result (λ read. read.text ≡ text.items) }
{
    match ConfigText::read(rt.alloc(), text) {
        Ok(read) => Ok(read),
        Err(refused) => {
            tell_faults(rt, refused.text.as_slice());
            Err(explained(rt.alloc(), path, refused))
        }
    }
}

/// The configuration in a file. If it has several faults, each is named on the standard error.
pub fn judged_config_at<'a>(rt: &HostRuntime, path: &'a str) -> Result<ConfigText, Incident<'a>> {
    let text = text_at(rt, path)?;
    judged_config_in(rt, path, text)
}

/// A configuration that is refused, and what is found where it is. Without memory that is nothing.
fn explained<'a>(alloc: Global, path: &'a str, refused: RefusedText) -> Incident<'a> {
    let RefusedText { error, text } = refused;
    if matches!(error.fault, ConfigFault::OutOfMemory) {
        return Incident::out_of_memory();
    }
    let finding = match finding_of(alloc, text.as_slice(), &error) {
        Ok(finding) => finding,
        Err(_) => ConfigFinding::Nothing,
    };
    let found = RefusedConfig {
        error: &error,
        finding: &finding,
        line: line_if_any(alloc, text.as_slice(), &error),
    };
    refused_for(&error)
        .at(Place::File(path))
        .with(lines_of(alloc, found))
}

/// Why a configuration is refused, and what may stand there.
fn refused_for(error: &ConfigError) -> Failure {
    Failure::by(error.fault.reason(), cause_of(error.fault)).allowing(limit_of(error.step))
}

/// The lines that explain something, if there is memory for them.
pub fn lines_of<D: Display + Drop>(alloc: Global, found: D) -> Detail {
    match format!(in alloc; "{found}") {
        Ok(lines) => Detail::Lines(lines),
        Err(_) => Detail::Nothing,
    }
}

/// A file that is opened to be read.
pub fn open<'a>(rt: &HostRuntime, path: &'a str) -> Result<File, Incident<'a>> {
    match fs::open(rt, path) {
        Ok(file) => Ok(file),
        Err(reason) => Err(unopened(path, reason)),
    }
}

/// Why a file could not be opened.
pub fn unopened<'a>(path: &'a str, reason: io::Error) -> Incident<'a> {
    Failure::of(Reason::File).by_system(Place::File(path), reason)
}
