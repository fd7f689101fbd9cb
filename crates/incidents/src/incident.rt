//! A failure, and where it happened.
ghost use Rattle.std.specs.Prelude.{◌≡◌, ◌⊎◌};
ghost use Rattle.incidents.specs.Sites.{feed_place, file_place, server_place, site_by, site_or, word_place};
ghost use Rattle.incidents.specs.declared.site.Detail.TheVariants.{Nothing, System};
ghost use Rattle.protocol.specs.declared.reason.Reason.TheVariants.{OutOfMemory};

use crate::failure::Failure;
use crate::site::{Detail, Place, Site};
use std::fmt::{self, Display, Formatter, Write};
use std::io;

/// Why the program ends with status 1, and where that happened.
#[derive(Drop)]
pub struct Incident<'a> {
    pub failure: Failure,
    pub site: Site<'a>,
}

impl Failure {
    /// It, at a place.
    pub fn at<'a>(self, place: Place<'a>) -> Incident<'a>
        ensures failure { result.failure ≡ self }
        ensures site { result.site ≡ record { place = place.entry; detail = Nothing } }
    {
        Incident {
            failure: self,
            site: Site {
                place,
                detail: Detail::Nothing,
            },
        }
    }

    /// It, in a job that reads a file.
    pub fn in_file<'a>(self, path: &'a str) -> Incident<'a>
        ensures failure { result.failure ≡ self }
        ensures site { result.site ≡ record { place = file_place self.reason path.entry; detail = Nothing } }
    {
        if self.reason.is_memory() || self.reason.is_output() {
            self.at(Place::Nowhere)
        } else {
            self.at(Place::File(path))
        }
    }

    /// It, of a word of the command line.
    pub fn in_word<'a>(self, word: &'a str) -> Incident<'a>
        ensures failure { result.failure ≡ self }
        ensures site { result.site ≡ record { place = word_place self.reason word.entry; detail = Nothing } }
    {
        if self.reason.is_memory() {
            self.at(Place::Nowhere)
        } else {
            self.at(Place::Word(word))
        }
    }

    /// It, in a job that reads from a server.
    pub fn at_server<'a>(self, address: &'a str) -> Incident<'a>
        ensures failure { result.failure ≡ self }
        ensures site { result.site ≡ record { place = server_place self.reason address.entry; detail = Nothing } }
    {
        if self.reason.is_memory() || self.reason.is_output() {
            self.at(Place::Nowhere)
        } else {
            self.at(Place::Address(address))
        }
    }

    /// It, in a job that reads a file and writes to a server.
    pub fn in_feed<'a>(self, path: &'a str, address: &'a str) -> Incident<'a>
        ensures failure { result.failure ≡ self }
        ensures site { result.site
            ≡ record { place = feed_place self.reason path.entry address.entry; detail = Nothing } }
    {
        if self.reason.is_memory() {
            self.at(Place::Nowhere)
        } else if self.reason.is_output() {
            self.at(Place::Address(address))
        } else {
            self.at(Place::File(path))
        }
    }

    /// It, at a place that the system refused, for its reason; or want of memory, if that is the reason.
    pub fn by_system<'a>(self, place: Place<'a>, reason: io::Error) -> Incident<'a>
        ensures failure { (result.failure ≡ self) ⊎ (result.failure.reason ≡ OutOfMemory) }
    {
        if reason.kind() == io::ErrorKind::OutOfMemory {
            return Incident::out_of_memory();
        }
        self.at(place).because(reason)
    }
}

impl<'a> Incident<'a> {
    /// Memory was refused.
    pub fn out_of_memory() -> Incident<'a>
        ensures { result.failure.reason ≡ OutOfMemory }
    {
        Failure::out_of_memory().at(Place::Nowhere)
    }

    /// It, for the reason that the system gave.
    pub fn because(self, reason: io::Error) -> Incident<'a>
        ensures failure { result.failure ≡ self.entry.failure }
        ensures site { result.site ≡ record { place = self.entry.site.place; detail = System reason } }
    {
        self.with(Detail::System(reason))
    }

    /// It, with what else is known of it.
    pub fn with(self, detail: Detail) -> Incident<'a>
        ensures failure { result.failure ≡ self.entry.failure }
        ensures site { result.site ≡ record { place = self.entry.site.place; detail = detail } }
    {
        let Incident { failure, site } = self;
        Incident {
            failure,
            site: Site {
                place: site.place,
                detail,
            },
        }
    }

    /// It, in a job that reads or writes a file: at the file, if the system gave a reason why that could not be read or
    /// took no more.
    pub fn at_file(self, path: &'a str, reason: Option<io::Error>) -> Incident<'a>
        ensures failure { result.failure ≡ self.entry.failure }
        ensures site { result.site ≡ site_by path.entry reason self.entry.site }
    {
        match reason {
            Some(reason) => self.failure.at(Place::File(path)).because(reason),
            None => self,
        }
    }

    /// It, at another site, if that is known.
    pub fn at_site(self, site: Option<Site<'a>>) -> Incident<'a>
        ensures failure { result.failure ≡ self.entry.failure }
        ensures site { result.site ≡ site_or site.entry self.entry.site }
    {
        match site {
            Some(site) => Incident {
                failure: self.failure,
                site,
            },
            None => self,
        }
    }
}

impl<'a> From<Failure> for Incident<'a> {
    fn from(failure: Failure) -> Incident<'a> {
        failure.at(Place::Nowhere)
    }
}

/// What standard error is told of an incident: the line `seedlinkd: N Name`, and on request the lines that explain it.
#[derive(Clone, Copy)]
pub struct ToldIncident<'t, 'a> {
    pub incident: &'t Incident<'a>,
    pub is_verbose: bool,
}

impl Display for ToldIncident<'_, '_> {
    fn fmt<W: Write>(&self, f: &mut Formatter<W>) -> fmt::Result {
        let reason = self.incident.failure.reason;
        writeln!(f, "seedlinkd: {} {}", reason.number(), reason.name())?;
        if self.is_verbose {
            self.incident.fmt(f)?;
        }
        Ok(())
    }
}

impl Display for Incident<'_> {
    /// The lines that explain it, each with two spaces before it.
    fn fmt<W: Write>(&self, f: &mut Formatter<W>) -> fmt::Result {
        writeln!(f, "  cause: {}", self.failure.sentence())?;
        write!(f, "{}", self.site)?;
        match self.failure.allowed {
            Some(allowed) => writeln!(f, "  allowed: {allowed}"),
            None => Ok(()),
        }
    }
}
