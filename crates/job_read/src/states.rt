//! The file in which a reader keeps how far it is, and when it does.
ghost use Rattle.std.specs.Prelude.{◌≡◌, IfOk, None, OnOk, option_map};
ghost use Rattle.sl_io.specs.Counts.{CountsFailure};
ghost use Rattle.protocol.specs.declared.reason.Reason.TheVariants.{State};

use crate::archiving::{site_at, site_of};
use crate::inlet::Inlet;
use crate::keep_time::{EVERY, KeepTime, keep_time};
use crate::lasting::Lasting;
use crate::locks::HeldLock;
use crate::moment::Moment;
use crate::patience::Patience;
use crate::torn::tell_doubled;
use continued_files::FileLength;
use disk_files::{FileFailure, ONE_FILE};
use files::{milliseconds, place_of, replace, text_in};
use incidents::{Failure, Incident, Place, Site};
use protocol::limits::RECORD;
use protocol::reason::Reason;
use reader_run::{KeepFault, Keeper, RecordSink};
use reader_state::{
    KeptState, StateFault, StatePlace, UnkeptState, keep_state, read_any, wrong_line,
};
use slreader::{LastPacket, Tally, Want};
use std::alloc::{AllocError, Global};
use std::fs::File;
use std::io::ErrorKind;
use std::{fs, io};

/// A file with the state of a reader: what it said when the reader began, and what it is to say.
#[derive(Drop)]
pub struct StateFile<'a> {
    /// The word that names it.
    path: &'a str,
    /// Where it is: not a symbolic link that points to it.
    place: String,
    /// Another name in the same folder, under which the file is written anew.
    new_path: String,
    /// Locked until the end, so that no other reader goes on after packets that this one is about to pass.
    lock: HeldLock,
    /// What it said when the reader began.
    before: KeptState,
    text: Vec<u8>,
}

impl<'a> StateFile<'a> {
    /// Locks a state and reads it. A file that is not there tells of no packet. One that is no plain file is
    /// refused, and not opened.
    pub fn open(rt: &HostRuntime, path: &'a str) -> Result<StateFile<'a>, Incident<'a>> {
        let place = match place_of(rt, path) {
            Ok(place) => place,
            Err(reason) => return Err(refused_at(path, reason)),
        };
        let lock = match HeldLock::new(rt, place.as_str(), "another reader keeps this state") {
            Ok(lock) => lock,
            Err(reason) => return Err(refused_at(path, reason)),
        };
        let before = state_at(rt, place.as_str(), path)?;
        match StateFile::of(rt.alloc(), path, place, lock, before) {
            Ok(file) => Ok(file),
            Err(_) => Err(Incident::out_of_memory()),
        }
    }

    /// A file that said that.
    fn of(
        alloc: Global,
        path: &'a str,
        place: String,
        lock: HeldLock,
        before: KeptState,
    ) -> Result<StateFile<'a>, AllocError> {
        let new_path = format!(in alloc; "{place}.new")?;
        Ok(StateFile {
            path,
            place,
            new_path,
            lock,
            before,
            text: Vec::new(alloc),
        })
    }

    /// The last packets that it told of when the reader began.
    pub fn before(&self) -> &[LastPacket] {
        self.before.lasts()
    }

    /// The lengths of files that it told of then.
    pub fn lengths(&self, alloc: Global) -> Result<Vec<FileLength>, AllocError> {
        let mut lengths = Vec::new(alloc);
        for length in self.before.files() {
            lengths.push(FileLength::new(alloc, length.name(), length.count())?)?;
        }
        Ok(lengths)
    }

    /// Names the length of the one file to which records are added, before the first of this reader, if it is not named
    /// yet: what stands in it was counted, or is nothing that the servers hand again.
    pub fn name_output(&mut self, rt: &HostRuntime, output: &'a str) -> Result<(), Incident<'a>> {
        if self.before.names(ONE_FILE) {
            return Ok(());
        }
        let count = match fs::metadata(rt, output) {
            Ok(found) => found.len() / RECORD as u64,
            Err(reason) => return Err(job_base::unopened(output, reason)),
        };
        if self.before.put_file(rt.alloc(), ONE_FILE, count).is_err() {
            return Err(Incident::out_of_memory());
        }
        match self.write(rt) {
            Ok(()) => Ok(()),
            Err(reason) => Err(
                Failure::of(Reason::State)
                    .at(Place::File(self.path))
                    .because(reason),
            ),
        }
    }

    /// Writes what it said when the reader began.
    fn write(&mut self, rt: &HostRuntime) -> io::Result<()> {
        if self.before.put_text(&mut self.text).is_err() {
            return Err(io::Error::from(ErrorKind::OutOfMemory));
        }
        replace(
            rt,
            self.new_path.as_str(),
            self.place.as_str(),
            self.text.as_slice(),
        )
    }

    /// Where it is.
    pub fn path(&self) -> &'a str {
        self.path
    }

    /// The file is written anew under another name, which then takes its place. Stations that no want asks for stay in
    /// it as they are by then, and so do the lengths of files if the reader writes none.
    fn keep(
        &mut self,
        rt: &HostRuntime,
        tally: &Tally,
        wants: &[Want<'_>],
        files: &Option<Vec<FileLength>>,
    ) -> io::Result<()> {
        self.lock.renew(rt)?;
        let mut place = DiskPlace {
            rt,
            path: self.place.as_str(),
            new_path: self.new_path.as_str(),
        };
        match keep_state(rt.alloc(), &mut place, tally, wants, files) {
            Ok(()) => Ok(()),
            Err(unkept) => Err(reason_of(unkept)),
        }
    }
}

/// A file with a state, which is written anew under another name.
#[derive(Clone, Copy, Drop)]
struct DiskPlace<'p> {
    rt: &'p HostRuntime,
    path: &'p str,
    new_path: &'p str,
}

impl StatePlace for DiskPlace<'_> {
    ghost text = { λ _. None };

    fn read(&mut self) -> io::Result<Vec<u8>> {
        match fs::read(self.rt, self.path) {
            Err(reason) if reason.kind() == ErrorKind::NotFound => Ok(Vec::new(self.rt.alloc())),
            read => read,
        }
    }

    fn replace(&mut self, more: &[u8]) -> io::Result<()> {
        replace(self.rt, self.new_path, self.path, more)
    }
}

/// What is said of a state that was not kept.
fn reason_of(unkept: UnkeptState) -> io::Error {
    match unkept {
        UnkeptState::Device(reason) => reason,
        UnkeptState::Invalid => no_state(),
        UnkeptState::OutOfMemory => io::Error::from(ErrorKind::OutOfMemory),
    }
}

/// Locks the one file to which a reader with a state adds records, so that no other one counts its own records there.
pub fn locked_output<'a>(rt: &HostRuntime, path: &'a str) -> Result<HeldLock, Incident<'a>> {
    let locked = match place_of(rt, path) {
        Ok(place) => HeldLock::new(
            rt,
            place.as_str(),
            "another reader adds records to this file",
        ),
        Err(reason) => Err(reason),
    };
    match locked {
        Ok(lock) => Ok(lock),
        Err(reason) => Err(refused_at(path, reason)),
    }
}

/// What is said of a state that was changed to something else.
fn no_state() -> io::Error {
    io::Error::new(ErrorKind::InvalidData, "the text is not a state any more")
}

/// What is said of a state that can't be opened, or not be read to its end.
fn unread() -> Failure
    ensures { result.reason ≡ State }
{
    Failure::by(Reason::State, Some("the file with the state can't be read"))
}

/// What is said of a file whose text is not a state.
fn invalid() -> Failure
    ensures { result.reason ≡ State }
{
    Failure::by(
        Reason::State,
        Some(
            "the file with the state is not in lines of a network, a station, a number and an end",
        ),
    )
}

/// Why a state, that a word names, was not opened.
pub fn refused_at<'a>(path: &'a str, reason: io::Error) -> Incident<'a> {
    unread().by_system(Place::File(path), reason)
}

/// What a state says; nothing if it is not there.
fn state_at<'a>(rt: &HostRuntime, place: &str, path: &'a str) -> Result<KeptState, Incident<'a>> {
    match fs::open(rt, place) {
        Ok(file) => state_in(rt, file, path),
        Err(reason) if reason.kind() == ErrorKind::NotFound => Ok(KeptState::new(rt.alloc())),
        Err(reason) => Err(refused_at(path, reason)),
    }
}

/// What a state says whose file is open.
fn state_in<'a>(rt: &HostRuntime, file: File, path: &'a str) -> Result<KeptState, Incident<'a>> {
    let text = match text_in(rt, file) {
        Ok(text) => text,
        Err(reason) => return Err(refused_at(path, reason)),
    };
    match read_any(rt.alloc(), text.as_slice()) {
        Ok((state, is_doubled)) => {
            if is_doubled {
                tell_doubled(rt, path);
            }
            Ok(state)
        }
        Err(StateFault::OutOfMemory) => Err(Incident::out_of_memory()),
        Err(StateFault::Invalid) => Err(invalid_at(rt.alloc(), path, text.as_slice())),
    }
}

/// What is said of a file whose text is not a state: at the line that is wrong.
fn invalid_at<'a>(alloc: Global, path: &'a str, text: &[u8]) -> Incident<'a> {
    match wrong_line(alloc, text) {
        Some(number) => invalid().at(Place::Line { path, number }),
        None => invalid().in_file(path),
    }
}

/// A file to which records are added, open once more, to put on the disk what was added.
#[derive(Drop)]
pub struct SameFile<'a> {
    pub path: &'a str,
    pub file: File,
}

/// Why a state was not kept.
#[derive(Drop)]
enum Unkept<'a> {
    /// The file with the state took no more.
    State(io::Error),
    /// A file of records could not be put on the disk.
    Output(&'a str, io::Error),
    /// A file of an archive could not.
    Records(FileFailure),
}

impl<'a> Unkept<'a> {
    /// Where that happened, if the state is at a path.
    fn site(self, path: &'a str) -> Site<'a> {
        match self {
            Unkept::State(reason) => site_at(path, reason),
            Unkept::Output(output, reason) => site_at(output, reason),
            Unkept::Records(failure) => site_of(failure, path),
        }
    }
}

/// Keeps the state of a reader in its file, if it has one, at most once a second while packets come, and once nothing
/// came for a second after a whole packet.
#[derive(Drop)]
pub struct StateKeeper<'r, 'a, 'w> {
    rt: &'r HostRuntime,
    file: Option<Box<StateFile<'a>>>,
    wants: &'r [Want<'w>],
    /// The file to which records are added, if they are, once more.
    output: Option<SameFile<'a>>,
    /// The lengths of files when they were made to last, if files are written.
    lengths: Option<Vec<FileLength>>,
    /// The connection that is read.
    inlet: &'r Inlet,
    /// What its server owes.
    patience: &'r Patience,
    /// What says whether a state is to be kept at once.
    moment: &'r Moment,
    /// When the state was kept last, in milliseconds.
    kept: u64,
    unkept: Option<Unkept<'a>>,
    failures: u64,
}

impl<'r, 'a, 'w> StateKeeper<'r, 'a, 'w> {
    /// A keeper that has kept nothing yet.
    pub fn new(
        rt: &'r HostRuntime,
        file: Option<Box<StateFile<'a>>>,
        wants: &'r [Want<'w>],
        output: Option<SameFile<'a>>,
        inlet: &'r Inlet,
        patience: &'r Patience,
        moment: &'r Moment,
    ) -> StateKeeper<'r, 'a, 'w> {
        StateKeeper {
            rt,
            file,
            wants,
            output,
            lengths: None,
            inlet,
            patience,
            moment,
            kept: 0,
            unkept: None,
            failures: 0,
        }
    }

    /// Where the state could not be kept, if that is what ended the reading.
    pub fn site(self) -> Option<Site<'a>> {
        match (self.file, self.unkept) {
            (Some(file), Some(unkept)) => Some(unkept.site(file.path)),
            _ => None,
        }
    }

    /// A call failed for that reason.
    fn fail(&mut self, unkept: Unkept<'a>) -> Result<(), KeepFault>
        ensures { CountsFailure self.old.failures self.new.failures result }
    {
        self.unkept = Some(unkept);
        self.failures = self.failures.wrapping_add(1);
        Err(KeepFault)
    }

    /// Milliseconds of the system's clock.
    fn now(&self) -> u64 {
        milliseconds(self.rt)
    }

    /// Makes what was written last. The lengths that files have by then are those that are kept next.
    fn take_lengths<P: Lasting>(&mut self, records: &P) -> Result<(), Unkept<'a>>
        ensures lengths { OnOk result (P.Lasts records.now (option_map (λ fs. fs.items) self.new.lengths)) }
        ensures failures { self.new.failures ≡ self.old.failures }
    {
        self.lengths = last_all(records, &self.output)?;
        Ok(())
    }

    /// Keeps what was counted in the file, if there is one, with the lengths that files had when they were made to
    /// last.
    fn keep_in_file(&mut self, tally: &Tally) -> io::Result<()>
        ensures { self.new.failures ≡ self.old.failures }
    {
        match &mut self.file {
            Some(file) => file.keep(self.rt, tally, self.wants, &self.lengths),
            None => Ok(()),
        }
    }
}

impl<P: RecordSink + Lasting> Keeper<P> for StateKeeper<'_, '_, '_> {
    ghost done = { λ _. None };

    ghost failures = { λ k. k.failures };

    fn is_due(&mut self) -> bool {
        if self.file.is_none() {
            return false;
        }
        if self.moment.take_hurry() {
            return true;
        }
        let passed = self.now().saturating_sub(self.kept);
        match keep_time(passed, self.patience.is_owed()) {
            KeepTime::Now => true,
            KeepTime::AfterRead => false,
            KeepTime::AfterSilence => self.inlet.is_silent(EVERY),
        }
    }

    fn flush(&mut self, records: &P) -> Result<(), KeepFault> {
        if self.file.is_none() {
            return Ok(());
        }
        match self.take_lengths(records) {
            Ok(()) => Ok(()),
            Err(unkept) => self.fail(unkept),
        }
    }

    fn keep(&mut self, tally: &Tally) -> Result<(), KeepFault> {
        let kept = self.keep_in_file(tally);
        self.kept = self.now();
        match kept {
            Ok(()) => Ok(()),
            Err(reason) => self.fail(Unkept::State(reason)),
        }
    }
}

/// Makes what was written last, in records and in a file to which they are added. Tells the lengths of files by then.
fn last_all<'a, P: Lasting>(
    records: &P,
    output: &Option<SameFile<'a>>,
) -> Result<Option<Vec<FileLength>>, Unkept<'a>>
    ensures { IfOk result (λ lengths. P.Lasts records.now (option_map (λ fs. fs.items) lengths)) }
{
    let lengths = match records.make_last() {
        Ok(lengths) => lengths,
        Err(failure) => return Err(Unkept::Records(failure)),
    };
    let Some(SameFile { path, file }) = output else {
        return Ok(lengths);
    };
    match synced(file) {
        Ok(()) => Ok(lengths),
        Err(reason) => Err(Unkept::Output(*path, reason)),
    }
}

/// Has the system put on the disk what was written to a file. One that lies on no disk, as a pipe, has no need of it.
fn synced(file: &File) -> io::Result<()> {
    match file.sync_data() {
        Err(reason) if reason.kind() != ErrorKind::InvalidInput => Err(reason),
        _ => Ok(()),
    }
}
