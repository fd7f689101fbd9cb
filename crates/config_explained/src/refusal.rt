//! The lines that explain why a configuration is refused, and where it differs from another one.
use crate::difference::Difference;
use crate::finding::ConfigFinding;
use crate::setting_texts::{key_of, limit_of};
use access_list::AccessFault;
use catalog::{ConfigError, ConfigFault, Step};
use shown_lines::put_line;
use std::fmt::{self, Display, Formatter, Write};

/// Why a configuration is refused, in a sentence, if its reason's own sentence doesn't say it.
pub fn cause_of(fault: ConfigFault) -> Option<&'static str> {
    match fault {
        ConfigFault::Access(fault) => list_cause(fault),
        _ => None,
    }
}

/// The same of an access list.
fn list_cause(fault: AccessFault) -> Option<&'static str> {
    match fault {
        AccessFault::Address => Some(
            "an entry is no address, network or group; everybody is 0.0.0.0/0, and no name of a host is taken",
        ),
        AccessFault::Mask => Some(
            "an entry has no mask of 0 to 32, or of four numbers, after its slash",
        ),
        AccessFault::OutOfMemory => None,
    }
}

/// A configuration that is refused: at which step, what is found there, and on which line, if that is known.
#[derive(Clone, Copy)]
pub struct RefusedConfig<'e> {
    pub error: &'e ConfigError,
    pub finding: &'e ConfigFinding,
    pub line: Option<u128>,
}

impl Display for RefusedConfig<'_> {
    /// The lines that say which line, station and key it is, and what stands there, each with two spaces before it.
    fn fmt<W: Write>(&self, f: &mut Formatter<W>) -> fmt::Result {
        let error = self.error;
        if let Some(line) = self.line {
            writeln!(f, "  line: {line}")?;
        }
        put_key(f, error.step, &error.network, &error.code)?;
        write!(f, "{}", self.finding)
    }
}

/// One of several faults of a configuration: what is found at its step, and on which line, if that is known.
#[derive(Clone, Copy)]
pub struct FaultLine<'e> {
    pub error: &'e ConfigError,
    pub finding: &'e ConfigFinding,
    pub line: Option<u128>,
}

impl Display for FaultLine<'_> {
    /// The line that names it, with its line in the text, its station, its key, what stands there and what is allowed.
    fn fmt<W: Write>(&self, f: &mut Formatter<W>) -> fmt::Result {
        let error = self.error;
        let reason = error.fault.reason();
        write!(f, "seedlinkd: ")?;
        if let Some(line) = self.line {
            write!(f, "line {line}: ")?;
        }
        write!(f, "{} {}", reason.number(), reason.name())?;
        put_station_words(f, error)?;
        if let Some(key) = key_of(error.step) {
            write!(f, ", {key}")?;
        }
        put_finding_words(f, self.finding)?;
        writeln!(f, "; allowed: {}", limit_of(error.step))
    }
}

/// The words that name the station of an error, if it is at one.
fn put_station_words<W: Write>(f: &mut Formatter<W>, error: &ConfigError) -> fmt::Result {
    match error.step {
        Step::Station(place, _) => {
            write!(f, ", station {}", place as u128 + 1)?;
            put_code(f, &error.network)?;
            put_code(f, &error.code)
        }
        _ => Ok(()),
    }
}

/// The words that say what stands there.
fn put_finding_words<W: Write>(f: &mut Formatter<W>, finding: &ConfigFinding) -> fmt::Result {
    match finding {
        ConfigFinding::OtherKind { found, .. } => write!(f, ", found {found}"),
        ConfigFinding::Entry { text } => match str::from_utf8(text.as_slice()) {
            Ok(text) => write!(f, ", entry {text}"),
            Err(_) => Ok(()),
        },
        _ => Ok(()),
    }
}

impl Display for Difference {
    /// The lines that say which station and key differ, and both values, each with two spaces before it.
    fn fmt<W: Write>(&self, f: &mut Formatter<W>) -> fmt::Result {
        put_key(f, self.step, &self.network, &self.code)?;
        put_line(f, "in force", &self.in_force)?;
        put_line(f, "in the file", &self.in_file)
    }
}

/// An entry of an access list that is invalid.
#[derive(Clone, Copy)]
pub struct RefusedEntry<'e>(pub &'e [u8]);

impl Display for RefusedEntry<'_> {
    /// The line that quotes it, with two spaces before it.
    fn fmt<W: Write>(&self, f: &mut Formatter<W>) -> fmt::Result {
        match str::from_utf8(self.0) {
            Ok(text) => put_line(f, "entry", text),
            Err(_) => Ok(()),
        }
    }
}

/// The lines that say which station and key a step reads.
fn put_key<W: Write>(
    f: &mut Formatter<W>,
    step: Step,
    network: &Option<Vec<u8>>,
    code: &Option<Vec<u8>>,
) -> fmt::Result {
    match step {
        Step::Station(place, _) => {
            write!(f, "  station: {}", place as u128 + 1)?;
            put_code(f, network)?;
            put_code(f, code)?;
            writeln!(f, "")?;
        }
        _ => {}
    }
    match key_of(step) {
        Some(key) => writeln!(f, "  key: {key}"),
        None => Ok(()),
    }
}

/// A space and a code, if there is one.
fn put_code<W: Write>(f: &mut Formatter<W>, code: &Option<Vec<u8>>) -> fmt::Result {
    match code {
        Some(bytes) => match str::from_utf8(bytes.as_slice()) {
            Ok(text) => write!(f, " {text}"),
            Err(_) => Ok(()),
        },
        None => Ok(()),
    }
}
