//! Records that are read into an archive.
ghost use Rattle.std.specs.Prelude.{◌≡◌, List, None};
ghost use Rattle.std.specs.declared.option.Option.{Option};
ghost use Rattle.continued_files.specs.Lengths.{LengthValue};

use crate::lasting::{Lasting, unlasting};
use crate::locks::LookTime;
use crate::moment::Moment;
use crate::notices::{ErrorTeller, Notice, Teller};
use crate::returns::{LastNumbers, Noted};
use crate::torn::{tell_crowded, tell_short, tell_torn};
use crate::unplaced::UnplacedCount;
use continued_files::{ContinuedFiles, FileLength, Unnamed};
use disk_files::{DiskFiles, FileFailure, FilePlace};
use files::milliseconds;
use incidents::{Detail, Failure, Incident, Place, Site};
use job_base::{descriptor_limit, unopened};
use protocol::reason::Reason;
use reader_run::{RecordSink, SinkFault};
use record_archive::{Archive, ArchiveFault, StationCodes, StationLocks, TopFault, lock_stations};
use sl_io::WriteFault;
use slreader::{GivenPacket, Want};
use std::alloc::{AllocError, Global};
use std::cell::RefCell;
use std::io;
use std::num::NonZeroUsize;

/// An archive on the disk.
type DiskArchive<'r> = Archive<ContinuedFiles<DiskFiles<'r>>>;

/// How many files an archive keeps open at most.
const MOST_OPEN: u64 = 1_024;

/// How many of the descriptors that the program may have an archive leaves to others, beside the locks.
const OTHERS: u64 = 64;

/// An archive of which it is told how many records have no place, and which files had a torn end.
#[derive(Drop)]
pub struct ToldArchive<'r> {
    rt: &'r HostRuntime,
    archive: RefCell<DiskArchive<'r>>,
    numbers: LastNumbers,
    moment: &'r Moment,
    top: &'r str,
    locks: StationLocks,
    /// When it was looked last whether the paths of the locks still name them.
    looked: LookTime,
    /// Why the stations are not locked any more.
    unlocked: Option<TopFault>,
    /// Whether it was told that as many files were made within a minute as may be.
    is_crowded: bool,
    teller: ErrorTeller<'r>,
    count: UnplacedCount,
    failures: u64,
}

/// The stations of wants.
fn stations_of(alloc: Global, wants: &[Want<'_>]) -> Result<Vec<StationCodes>, AllocError> {
    let mut stations = Vec::new(alloc);
    for want in wants {
        stations.push(StationCodes::new(alloc, want.network, want.station)?)?;
    }
    Ok(stations)
}

/// How many files an archive of so many stations keeps open, by how many descriptors the program may have.
fn open_count(limit: Option<u64>, stations: usize) -> NonZeroUsize {
    let others = OTHERS.saturating_add(stations as u64);
    let most = limit
        .unwrap_or(MOST_OPEN)
        .saturating_sub(others)
        .min(MOST_OPEN);
    let most = usize::try_from(most).unwrap_or(0);
    NonZeroUsize::new(most).unwrap_or(NonZeroUsize::MIN)
}

/// Files at a place, in which a reader goes on after what a state says of them. Without a state nothing has to last,
/// and what stands in a file is not handed again.
pub fn files_at<'r, 'a: 'r>(
    rt: &'r HostRuntime,
    place: FilePlace<'a>,
    stations: usize,
    named: Option<Vec<FileLength>>,
    unnamed: Unnamed,
) -> ContinuedFiles<DiskFiles<'r>> {
    let open = open_count(descriptor_limit(), stations);
    let files = DiskFiles::new(rt, rt.alloc(), place, open, named.is_some());
    match named {
        Some(named) => ContinuedFiles::new(rt.alloc(), files, named, unnamed),
        None => ContinuedFiles::new(rt.alloc(), files, Vec::new(rt.alloc()), Unnamed::Kept),
    }
}

/// The archive below a folder of records of the stations that are wanted, to which nobody else adds records of these
/// meanwhile. With a state it goes on after the lengths of files that that names, and can be made to last.
pub fn archive_at<'r, 'a: 'r>(
    rt: &'r HostRuntime,
    top: &'a str,
    named: Option<Vec<FileLength>>,
    wants: &[Want<'_>],
    numbers: LastNumbers,
    moment: &'r Moment,
) -> Result<ToldArchive<'r>, Incident<'a>> {
    let Ok(stations) = stations_of(rt.alloc(), wants) else {
        return Err(Incident::out_of_memory());
    };
    let locks = locks_at(rt, top, &stations)?;
    let place = FilePlace::Below(top);
    let files = files_at(rt, place, stations.len(), named, Unnamed::Tail);
    Ok(ToldArchive {
        rt,
        archive: RefCell::new(Archive::new(rt.alloc(), files, stations)),
        numbers,
        moment,
        top,
        locks,
        looked: LookTime::new(milliseconds(rt)),
        unlocked: None,
        is_crowded: false,
        teller: ErrorTeller::new(rt),
        count: UnplacedCount::new(),
        failures: 0,
    })
}

/// The locks of stations below a folder.
fn locks_at<'a>(
    rt: &HostRuntime,
    top: &'a str,
    stations: &[StationCodes],
) -> Result<StationLocks, Incident<'a>> {
    match lock_stations(rt, rt.alloc(), top, stations) {
        Ok(locks) => Ok(locks),
        Err(fault) => Err(unlocked(top, fault)),
    }
}

/// Why nothing can be put below a folder: at the lock of the station of which another reader adds records.
pub fn unlocked<'a>(top: &'a str, fault: TopFault) -> Incident<'a> {
    match fault {
        TopFault::Unopened(reason) => unopened(top, reason),
        TopFault::Locked(path) => {
            Failure::of(Reason::File).by_system(Place::Below(path), added_to_by_another())
        }
    }
}

/// What is said of an archive of which a station is locked.
fn added_to_by_another() -> io::Error {
    io::Error::new(
        io::ErrorKind::ResourceBusy,
        "another reader adds records of this station",
    )
}

/// A file that the system refused, for its reason.
pub fn site_at<'a>(path: &'a str, reason: io::Error) -> Site<'a> {
    Site {
        place: Place::File(path),
        detail: Detail::System(reason),
    }
}

/// A file below an archive that took no more; the folder of that if the file is not known.
pub fn site_of<'a>(failure: FileFailure, top: &'a str) -> Site<'a> {
    let FileFailure { path, reason } = failure;
    match path {
        Some(path) => Site {
            place: Place::Below(path),
            detail: Detail::System(reason),
        },
        None => site_at(top, reason),
    }
}

/// Why records could not be added to an archive, if that is what ended the reading: at the file that took no more, as
/// far as that is known.
pub fn at_archive<'a>(
    incident: Incident<'a>,
    failure: Option<FileFailure>,
    top: &'a str,
) -> Incident<'a>
    ensures { result.failure ≡ incident.entry.failure }
{
    match failure {
        Some(failure) => Incident {
            failure: incident.failure,
            site: site_of(failure, top),
        },
        None => incident,
    }
}

impl<'r> ToldArchive<'r> {
    /// No more records come: says how many have no place, if more have none than was told, and answers why the last
    /// one could not be added, if that is so.
    pub fn end(&mut self) -> Option<FileFailure> {
        let unplaced = self.archive.get_mut().unplaced();
        if self.count.is_less(unplaced) {
            self.teller.tell(&Notice::Unplaced(unplaced));
        }
        self.disk().take_failure()
    }

    /// Its files on the disk.
    fn disk(&mut self) -> &mut DiskFiles<'r> {
        self.archive.get_mut().folders_mut().files_mut()
    }

    /// Why the stations are not locked any more, if that ended the reading.
    pub fn take_unlocked(&mut self) -> Option<TopFault> {
        self.unlocked.take()
    }

    /// Looks once a second whether the locks still hold.
    fn renew_locks(&mut self)
        ensures { self.new.failures ≡ self.old.failures }
    {
        if self.looked.is_due(milliseconds(self.rt)) {
            if let Err(fault) = self.locks.renew(self.rt, self.top) {
                self.unlocked = Some(fault);
            }
        }
    }

    /// Tells what was found at the last record: a torn file, a file that is shorter than was counted, that as many
    /// files were made within a minute as may be, and how many records have no place, as far as that is due. After a
    /// file that was too short a state is to be kept at once.
    fn tell(&mut self)
        ensures { self.new.failures ≡ self.old.failures }
    {
        let archive = self.archive.get_mut();
        let (short, unplaced) = (archive.take_short(), archive.unplaced());
        let disk = archive.folders_mut().files_mut();
        let (torn, is_crowded) = (disk.take_torn(), disk.take_crowded());
        if let Some(file) = short {
            tell_short(self.rt, FilePlace::Below(self.top), &file);
            self.moment.hurry();
        }
        if let Some(path) = torn {
            tell_torn(self.rt, path.as_str());
        }
        if is_crowded && !self.is_crowded {
            self.is_crowded = true;
            tell_crowded(self.rt);
        }
        if self.count.is_less(unplaced) {
            self.count
                .tell(unplaced, milliseconds(self.rt), &mut self.teller);
        }
    }

    /// Puts a record. If the numbers of its station don't follow, all of each file of that is tail from then on. If so
    /// many of its records were added one after the other that none comes any more that stands in a tail, what is left
    /// of tails is given up.
    #[tactic(auto, unfolding(slreader::specs::Tallies::packet_facts))]
    fn put_noted(
        &mut self,
        packet: &GivenPacket<'_>,
        noted: &Option<Noted>,
    ) -> Result<(), ArchiveFault>
        ensures { self.new.failures ≡ self.old.failures }
    {
        let alloc = self.rt.alloc();
        let archive = self.archive.get_mut();
        let (Some(noted), Some(header)) = (noted, packet.header()) else {
            return archive.put(packet.record(), packet.header());
        };
        let (network, station) = (header.network(), header.station());
        if noted.is_return && archive.return_to_begin(alloc, network, station).is_err() {
            return Err(ArchiveFault::OutOfMemory);
        }
        archive.put(packet.record(), packet.header())?;
        if self.numbers.count(noted.at, archive.is_passed())
            && archive.give_up(alloc, network, station).is_err()
        {
            return Err(ArchiveFault::OutOfMemory);
        }
        Ok(())
    }
}

impl RecordSink for ToldArchive<'_> {
    ghost written = { λ _. None };

    ghost Waits = { λ _ _. Unit {0} };

    ghost failures = { λ a. a.failures };

    ghost empty_writes = { λ _. 0 };

    fn begin(&mut self) {
        self.renew_locks();
        self.archive.get_mut().folders_mut().files_mut().begin();
    }

    fn refuse(&mut self, _want: usize) {}

    fn put(&mut self, packet: &GivenPacket<'_>) -> Result<(), SinkFault> {
        if self.unlocked.is_some() {
            self.failures = self.failures.wrapping_add(1);
            return Err(SinkFault::Write);
        }
        let noted = self.numbers.note(packet, self.moment.connection());
        let put = self.put_noted(packet, &noted);
        self.tell();
        match put {
            Ok(()) => Ok(()),
            Err(ArchiveFault::OutOfMemory) => Err(SinkFault::OutOfMemory),
            Err(ArchiveFault::Folder) => {
                self.failures = self.failures.wrapping_add(1);
                Err(SinkFault::Write)
            }
        }
    }

    fn hand_on(&mut self) -> Result<(), WriteFault> {
        Ok(())
    }
}

impl Lasting for ToldArchive<'_> {
    ghost Lasts = { λ _ _. Unit {0} };

    fn make_last(&self) -> Result<Option<Vec<FileLength>>, FileFailure> {
        let Ok(mut archive) = self.archive.try_borrow_mut() else {
            return Err(unlasting(None));
        };
        match archive.last() {
            Ok(lengths) => Ok(Some(lengths)),
            Err(_) => Err(unlasting(archive.folders_mut().files_mut().take_failure())),
        }
    }
}
