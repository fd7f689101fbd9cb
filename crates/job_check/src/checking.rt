//! Files of records are checked as one list: a line goes out for each record, or what else the options ask for. Each is
//! read in blocks, and what is written goes out in as few calls as the system takes.
ghost use Rattle.std.specs.Prelude.{◌≡◌};
ghost use Rattle.job_check.specs.Listings.{listing_by};

use crate::names::{EmptyFile, FileLine, FileName, files_of};
use command_line::CheckOptions;
use incidents::{Failure, Incident};
use job_base::{
    BegunFile, ConfiguredStations, FirstBytes, ReasonKeeper, Watched, config_at,
    is_output_terminal, is_terminal, size_of, times_of,
};
use record_check::{
    AllStations, FileKind, Finding, ListingOptions, RecordCheck, Stations, kind_of,
};
use sl_io::{Outer, StreamFault};
use std::fs::File;
use std::io::{self, Read};

/// What a check lists, by the options of the command line.
fn listing_options(options: CheckOptions<'_>) -> ListingOptions
    ensures { result ≡ listing_by options.entry.is_iso options.entry.has_summary options.entry.is_quiet
        options.entry.has_gaps }
{
    ListingOptions {
        times: times_of(options.is_iso),
        has_lines: !options.is_quiet,
        has_summary: options.has_summary,
        has_gaps: options.has_gaps,
    }
}

/// Writes a line for each record of files, or what else the options ask for. The words name files, folders whose files
/// are checked in the order of their paths, and by `-` the standard input. All are looked at before the first is read.
///
/// It fails if in one of them a record is refused, or if one ends inside a record: with what is wrong with the first of
/// these files, after all were listed. Of several files each one with which something is wrong has a line on the
/// standard error, with `is_verbose` or at a terminal. With a configuration, records of stations that it has not are
/// refused too.
pub fn check_files<'a>(
    rt: &HostRuntime,
    words: &[&'a str],
    options: CheckOptions<'a>,
    is_verbose: bool,
) -> Result<(), Incident<'a>> {
    let is_shown = is_verbose || is_terminal();
    match options.config {
        Some(config) => check_by(rt, words, options, config, is_shown),
        None => check_named(rt, words, options, &AllStations, is_shown),
    }
}

/// The same, of files that may have records of the stations of the configuration in another one.
fn check_by<'a>(
    rt: &HostRuntime,
    words: &[&'a str],
    options: CheckOptions<'a>,
    config: &'a str,
    is_shown: bool,
) -> Result<(), Incident<'a>> {
    let read = config_at(rt, config)?;
    let stations = ConfiguredStations::new(read.config());
    check_named(rt, words, options, &stations, is_shown)
}

/// The same, of files that may have records of these stations.
fn check_named<'a, S: Stations>(
    rt: &HostRuntime,
    words: &[&'a str],
    options: CheckOptions<'a>,
    stations: &S,
    is_shown: bool,
) -> Result<(), Incident<'a>> {
    let names = files_of(rt, words)?;
    let Ok(mut check) = RecordCheck::new(rt.alloc()) else {
        return Err(Incident::out_of_memory());
    };
    let first = check_each(rt, names, options, stations, &mut check, is_shown)?;
    match list_streams(rt, listing_options(options), &mut check) {
        Ok(()) => first_of(first),
        Err(fault) => Err(Incident::from(Failure::of(fault.reason()))),
    }
}

/// Fails with what is wrong with the first file with which something is wrong.
fn first_of<'a>(first: Option<Incident<'a>>) -> Result<(), Incident<'a>> {
    match first {
        Some(incident) => Err(incident),
        None => Ok(()),
    }
}

/// Lists the records of files, one after the other. Answers what is wrong with the first with which something is wrong.
fn check_each<'a, S: Stations>(
    rt: &HostRuntime,
    names: Vec<FileName<'a>>,
    options: CheckOptions<'a>,
    stations: &S,
    check: &mut RecordCheck,
    is_shown: bool,
) -> Result<Option<Incident<'a>>, Incident<'a>> {
    let is_told = is_shown && names.len() > 1;
    let mut first = None;
    'files: for name in names {
        let refused = check_file(rt, name, options, stations, check, is_told)?;
        first = first.or(refused);
    }
    Ok(first)
}

/// Lists the records of a file. Answers what is wrong with it, and if `is_told` tells that as well. That nothing stands
/// in it is always told.
fn check_file<'a, S: Stations>(
    rt: &HostRuntime,
    name: FileName<'a>,
    options: CheckOptions<'a>,
    stations: &S,
    check: &mut RecordCheck,
    is_told: bool,
) -> Result<Option<Incident<'a>>, Incident<'a>> {
    let file = match name.open(rt) {
        Ok(file) => file,
        Err(reason) => return Err(name.unopened(reason)),
    };
    let Checked {
        finding,
        reason,
        first,
    } = check_open(rt, options, stations, check, file);
    match finding {
        Ok(None) => {
            if first.is_empty() {
                tell_empty(rt, &name);
            }
            Ok(None)
        }
        Ok(Some(finding)) => {
            if is_told {
                tell_file(rt, &name, finding);
            }
            let kind = kind_at(finding, &first);
            Ok(Some(name.refused(rt.alloc(), finding, kind)))
        }
        Err(fault) => Err(name.broken(fault, reason)),
    }
}

/// Tells that nothing stands in a file.
fn tell_empty(rt: &HostRuntime, name: &FileName<'_>) {
    let _ = eprintln!(rt; "{}", EmptyFile { name });
}

/// Tells that something is wrong with one of several files.
fn tell_file(rt: &HostRuntime, name: &FileName<'_>, finding: Finding) {
    let line = FileLine { name, finding };
    let _ = eprintln!(rt; "{line}");
}

/// What a file is known for, if what is wrong with it is wrong from its first record on.
fn kind_at(finding: Finding, first: &FirstBytes) -> Option<FileKind> {
    if finding.number == 1 {
        kind_of(first.as_slice())
    } else {
        None
    }
}

/// What came of listing a file: what is wrong with it, or why it was not listed to its end, why it could not be read if
/// the system said so, and its first bytes.
#[derive(Drop)]
struct Checked {
    finding: Result<Option<Finding>, StreamFault>,
    reason: Option<io::Error>,
    first: FirstBytes,
}

/// Lists the records of a file that is open. How far it is is shown at a terminal, unless lines of records show it
/// there.
fn check_open<S: Stations>(
    rt: &HostRuntime,
    options: CheckOptions<'_>,
    stations: &S,
    check: &mut RecordCheck,
    file: File,
) -> Checked {
    let size = size_of(&file);
    let is_shown = is_terminal() && (options.is_quiet || !is_output_terminal());
    let watched = Watched::new(rt, ReasonKeeper::new(file), size, is_shown);
    let mut begun = BegunFile::new(watched);
    let finding = list_file(rt, listing_options(options), stations, check, &mut begun);
    let (watched, first) = begun.into_parts();
    Checked {
        finding,
        reason: watched.end().into_reason(),
        first,
    }
}

/// Writes what is listed of a file's records to the standard output.
fn list_file<S: Stations, T: Read + Drop>(
    rt: &HostRuntime,
    options: ListingOptions,
    stations: &S,
    check: &mut RecordCheck,
    records: &mut T,
) -> Result<Option<Finding>, StreamFault> {
    let mut records = Outer::new(records);
    let mut out = Outer::new(io::writer(rt));
    check.list_file(options, stations, &mut records, &mut out)
}

/// Writes what is listed of the streams of all files to the standard output.
fn list_streams(
    rt: &HostRuntime,
    options: ListingOptions,
    check: &mut RecordCheck,
) -> Result<(), StreamFault> {
    let mut out = Outer::new(io::writer(rt));
    check.list_streams(options, &mut out)
}
