//! The files of records that the words of the command line name.
use crate::folders::{UnlistedFolder, files_below};
use incidents::{Failure, Incident, Place};
use job_base::{refused_records, unopened};
use protocol::reason::Reason;
use record_check::{FileKind, Finding};
use shown_lines::ShownLine;
use sl_io::StreamFault;
use std::alloc::{AllocError, Global};
use std::fmt::{self, Display, Formatter, Write};
use std::fs::File;
use std::{fs, io};

/// The name of a file of records.
#[derive(Drop)]
pub enum FileName<'a> {
    /// A word of the command line; `-` is the standard input.
    Given(&'a str),
    /// A file that was found in a folder.
    Found(String),
}

impl<'a> FileName<'a> {
    /// The path by which it is opened.
    fn path(&self) -> &str {
        match self {
            FileName::Given("-") => "/dev/stdin",
            FileName::Given(path) => path,
            FileName::Found(path) => path.as_str(),
        }
    }

    /// The name as the user knows it.
    fn shown(&self) -> &str {
        match self {
            FileName::Given(path) => path,
            FileName::Found(path) => path.as_str(),
        }
    }

    /// Where it is.
    fn into_place(self) -> Place<'a> {
        match self {
            FileName::Given(path) => Place::File(path),
            FileName::Found(path) => Place::Below(path),
        }
    }

    /// Opens it.
    pub fn open(&self, rt: &HostRuntime) -> io::Result<File> {
        fs::open(rt, self.path())
    }

    /// It could not be opened.
    pub fn unopened(self, reason: io::Error) -> Incident<'a> {
        match self {
            FileName::Given(path) => unopened(path, reason),
            FileName::Found(path) => found_unopened(path, reason),
        }
    }

    /// Something is wrong with what stands in it, which may be known for no file of records.
    pub fn refused(self, alloc: Global, finding: Finding, kind: Option<FileKind>) -> Incident<'a> {
        refused_records(alloc, self.into_place(), finding, kind)
    }

    /// It could not be read to its end, or its lines could not be written.
    pub fn broken(self, fault: StreamFault, reason: Option<io::Error>) -> Incident<'a> {
        match self {
            FileName::Given(path) => Failure::of(fault.reason())
                .in_file(path)
                .at_file(path, reason),
            FileName::Found(path) => found_broken(path, fault, reason),
        }
    }
}

/// A file of a folder, or a folder in it, that could not be opened.
fn found_unopened<'a>(path: String, reason: io::Error) -> Incident<'a> {
    Failure::of(Reason::File).by_system(Place::Below(path), reason)
}

/// A file of a folder that could not be read to its end. If its lines could not be written, or for want of memory, it
/// is not the file's fault.
fn found_broken<'a>(path: String, fault: StreamFault, reason: Option<io::Error>) -> Incident<'a> {
    let failure = Failure::of(fault.reason());
    match (fault, reason) {
        (StreamFault::Read, Some(reason)) => failure.at(Place::Below(path)).because(reason),
        (StreamFault::Read, None) => failure.at(Place::Below(path)),
        _ => failure.at(Place::Nowhere),
    }
}

/// What is wrong with one of several files, as standard error is told: `seedlinkd: 6 Length at record 17 of FILE`.
#[derive(Clone, Copy)]
pub struct FileLine<'n, 'a> {
    pub name: &'n FileName<'a>,
    pub finding: Finding,
}

impl Display for FileLine<'_, '_> {
    fn fmt<W: Write>(&self, f: &mut Formatter<W>) -> fmt::Result {
        let reason = self.finding.fault.reason();
        let mut line = ShownLine::new(f);
        write!(
            line,
            "seedlinkd: {} {} at record {} of {}",
            reason.number(),
            reason.name(),
            self.finding.number,
            self.name.shown()
        )
    }
}

/// That nothing stands in a file, as standard error is told.
#[derive(Clone, Copy)]
pub struct EmptyFile<'n, 'a> {
    pub name: &'n FileName<'a>,
}

impl Display for EmptyFile<'_, '_> {
    fn fmt<W: Write>(&self, f: &mut Formatter<W>) -> fmt::Result {
        let mut line = ShownLine::new(f);
        write!(line, "seedlinkd: nothing to check in {}", self.name.shown())
    }
}

/// That a folder has no file that is checked, as standard error is told.
#[derive(Clone, Copy)]
struct EmptyFolder<'a> {
    path: &'a str,
    /// How many names were passed over.
    passed: usize,
}

impl Display for EmptyFolder<'_> {
    fn fmt<W: Write>(&self, f: &mut Formatter<W>) -> fmt::Result {
        let mut line = ShownLine::new(f);
        line.write_str("seedlinkd: nothing to check")?;
        if self.passed > 0 {
            write!(line, " ({} passed over)", self.passed)?;
        }
        write!(line, " in {}", self.path)
    }
}

/// A folder whose files can't be listed.
fn unlisted<'a>(fault: UnlistedFolder) -> Incident<'a> {
    found_unopened(fault.path, fault.reason)
}

/// The files of a folder are added to some.
fn add_files<'a>(names: &mut Vec<FileName<'a>>, files: Vec<String>) -> Result<(), AllocError> {
    for path in files {
        names.push(FileName::Found(path))?;
    }
    Ok(())
}

/// The files of a folder and of those in it are added to some.
fn add_folder<'a>(
    rt: &HostRuntime,
    names: &mut Vec<FileName<'a>>,
    folder: &'a str,
) -> Result<(), Incident<'a>> {
    let Ok(path) = String::from_str(rt.alloc(), folder) else {
        return Err(Incident::out_of_memory());
    };
    match files_below(rt, path) {
        Ok(found) => {
            if found.files.is_empty() {
                let line = EmptyFolder {
                    path: folder,
                    passed: found.passed,
                };
                let _ = eprintln!(rt; "{line}");
            }
            match add_files(names, found.files) {
                Ok(()) => Ok(()),
                Err(_) => Err(Incident::out_of_memory()),
            }
        }
        Err(fault) => Err(unlisted(fault)),
    }
}

/// A file is added to some.
fn add_file<'a>(names: &mut Vec<FileName<'a>>, word: &'a str) -> Result<(), Incident<'a>> {
    match names.push(FileName::Given(word)) {
        Ok(()) => Ok(()),
        Err(_) => Err(Incident::out_of_memory()),
    }
}

/// What a word names is added to some: a file, or the files of a folder. It fails if there is no such file.
fn add_word<'a>(
    rt: &HostRuntime,
    names: &mut Vec<FileName<'a>>,
    word: &'a str,
) -> Result<(), Incident<'a>> {
    if word == "-" {
        return add_file(names, word);
    }
    match fs::metadata(rt, word) {
        Ok(found) if found.is_dir() => add_folder(rt, names, word),
        Ok(_) => add_file(names, word),
        Err(reason) => Err(unopened(word, reason)),
    }
}

/// The files that words name, in the order of the words: files, the standard input, and the files of folders in the
/// order of their paths. It fails if a word names nothing, or a folder that can't be listed.
pub fn files_of<'a>(
    rt: &HostRuntime,
    words: &[&'a str],
) -> Result<Vec<FileName<'a>>, Incident<'a>> {
    let mut names = Vec::new(rt.alloc());
    for word in words {
        add_word(rt, &mut names, word)?;
    }
    Ok(names)
}
