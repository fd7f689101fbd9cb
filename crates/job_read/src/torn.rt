//! What is told of a file that ended inside a record or has fewer records than were counted, of many files that are
//! made within a minute, and of a state with several lines of one station.
use continued_files::ShortFile;
use disk_files::FilePlace;
use job_base::Several;
use shown_lines::ShownLine;
use std::fmt::{self, Display, Formatter, Write};

/// A file whose torn end was put aside.
#[derive(Clone, Copy, Drop)]
struct TornFile<'a> {
    path: &'a str,
}

impl Display for TornFile<'_> {
    fn fmt<W: Write>(&self, f: &mut Formatter<W>) -> fmt::Result {
        let mut line = ShownLine::new(f);
        let path = self.path;
        write!(line, "seedlinkd: torn record put into {path}.torn")
    }
}

/// Tells that the torn end of a file was put aside.
pub fn tell_torn(rt: &HostRuntime, path: &str) {
    let _ = eprintln!(rt; "{}", TornFile { path });
}

/// A file that has fewer records than were counted.
#[derive(Clone, Copy, Drop)]
struct ShortenedFile<'a> {
    /// The folder that it lies below, if it is not named by its path.
    top: Option<&'a str>,
    name: &'a str,
    count: u64,
    kept: u64,
}

impl Display for ShortenedFile<'_> {
    fn fmt<W: Write>(&self, f: &mut Formatter<W>) -> fmt::Result {
        let mut line = ShownLine::new(f);
        let (name, count, kept) = (self.name, self.count, self.kept);
        match self.top {
            Some(top) => write!(
                line,
                "seedlinkd: {}, where {kept} were counted, in {top}/{name}",
                Several::records(count)
            ),
            None => write!(
                line,
                "seedlinkd: {}, where {kept} were counted, in {name}",
                Several::records(count)
            ),
        }
    }
}

/// Tells that a file below a folder, or at a path, has fewer records than were counted.
pub fn tell_short(rt: &HostRuntime, place: FilePlace<'_>, file: &ShortFile) {
    let (top, name) = match place {
        FilePlace::Below(top) => (Some(top), file.name.as_str()),
        FilePlace::At(path) => (None, path),
    };
    let (count, kept) = (file.count, file.kept);
    let _ = eprintln!(rt;
        "{}",
        ShortenedFile {
            top,
            name,
            count,
            kept
        }
    );
}

/// Tells that as many files were made within a minute as may be.
pub fn tell_crowded(rt: &HostRuntime) {
    let _ = eprintln!(rt;
        "seedlinkd: 4096 files were made within a minute; the next one waits until that is over"
    );
}

/// A state with several lines of one station.
#[derive(Clone, Copy, Drop)]
struct DoubledState<'a> {
    path: &'a str,
}

impl Display for DoubledState<'_> {
    fn fmt<W: Write>(&self, f: &mut Formatter<W>) -> fmt::Result {
        let mut line = ShownLine::new(f);
        let path = self.path;
        write!(
            line,
            "seedlinkd: several lines of one station in {path}, of which the lowest number counts"
        )
    }
}

/// Tells that a state has several lines of one station.
pub fn tell_doubled(rt: &HostRuntime, path: &str) {
    let _ = eprintln!(rt; "{}", DoubledState { path });
}
