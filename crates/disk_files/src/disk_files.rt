//! Files of records on the disk.
ghost use Rattle.std.specs.Prelude.{◌≡◌, ◌<◌, IfOk, None, Some, length};
ghost use Rattle.disk_files.specs.Opened.{name_at};

use crate::new_files::NewFiles;
use crate::open_file::{OpenFile, identity_of};
use crate::open_files::{NamedFile, OpenFiles};
use continued_files::{FolderFault, RecordFiles};
use files::{folder_of, make_folders, milliseconds, plain_at, sync_folder_of};
use protocol::limits::RECORD;
use std::alloc::Global;
use std::fs::{self, File, Metadata, OpenOptions};
use std::io::{self, ErrorKind};
use std::num::NonZeroUsize;
use std::thread;
use std::time::Duration;

/// After how many milliseconds a file is closed to which nothing was added.
const IDLE: u64 = 60_000;

/// Where files of records lie.
#[derive(Clone, Copy, Drop)]
pub enum FilePlace<'a> {
    /// Below a folder, under their names.
    Below(&'a str),
    /// There is one, at this path, whatever its name is.
    At(&'a str),
}

/// What the system says of a file at which a call failed.
#[derive(Drop)]
pub struct FileFailure {
    /// The path of the file; None if there was no memory for it.
    pub path: Option<String>,
    /// What the system says.
    pub reason: io::Error,
}

/// Files of records on the disk, which no others write to meanwhile. Up to some number are kept open, and one that was
/// not used for long is let go for another.
#[derive(Drop)]
pub struct DiskFiles<'a> {
    rt: &'a HostRuntime,
    alloc: Global,
    place: FilePlace<'a>,
    opened: OpenFiles,
    /// How many pieces of records were begun, and when the last one was, in milliseconds.
    piece: u64,
    now: u64,
    /// Whether what is added is to last.
    lasts: bool,
    /// Something that was added could not be put on the disk.
    is_lost: bool,
    /// What the system said of that.
    lost: Option<FileFailure>,
    /// The path of a file whose torn end was put aside, until it is told.
    torn: Option<String>,
    /// How many files were made within the last minute, and whether as many as may be, until that is told.
    made: NewFiles,
    is_crowded: bool,
    failure: Option<FileFailure>,
}

/// No memory.
fn no_memory() -> io::Error {
    io::Error::from(ErrorKind::OutOfMemory)
}

/// Whether a path names nothing.
fn is_gone(rt: &HostRuntime, path: &str) -> bool {
    match fs::metadata(rt, path) {
        Ok(_) => false,
        Err(reason) => reason.kind() == ErrorKind::NotFound,
    }
}

/// A file to which is added and from which is read, which is made if it is not there.
fn opened_at(rt: &HostRuntime, path: &str) -> io::Result<File> {
    OpenOptions::new()
        .read(true)
        .append(true)
        .create(true)
        .open(rt, path)
}

/// The same, in a folder that is made if it is not there. If it is to last, so are the folders that are made.
fn made_at(rt: &HostRuntime, path: &str, lasts: bool) -> io::Result<File> {
    match opened_at(rt, path) {
        Err(reason) if reason.kind() == ErrorKind::NotFound => {
            let folder = folder_of(path);
            if lasts {
                make_folders(rt, folder)?;
            } else {
                fs::create_dir_all(rt, folder)?;
            }
            opened_at(rt, path)
        }
        opened => opened,
    }
}

/// Whether no more descriptors can be had.
fn is_full(reason: &io::Error) -> bool {
    matches!(reason.raw_os_error(), Some(23 | 24))
}

impl<'a> DiskFiles<'a> {
    /// Files at a place, of which so many are kept open at most. If they are to last, each sync puts on the disk what
    /// was added; else the system does that when it likes.
    pub fn new(
        rt: &'a HostRuntime,
        alloc: Global,
        place: FilePlace<'a>,
        most: NonZeroUsize,
        lasts: bool,
    ) -> DiskFiles<'a> {
        let now = milliseconds(rt);
        DiskFiles {
            rt,
            alloc,
            place,
            opened: OpenFiles::new(alloc, most),
            piece: 0,
            now,
            lasts,
            is_lost: false,
            lost: None,
            torn: None,
            made: NewFiles::new(now),
            is_crowded: false,
            failure: None,
        }
    }

    /// Records of another piece come next. Of each file it is looked then whether its path still names it.
    pub fn begin(&mut self) {
        self.piece = self.piece.wrapping_add(1);
        self.now = milliseconds(self.rt);
    }

    /// What the system says of the last call that failed, once.
    pub fn take_failure(&mut self) -> Option<FileFailure> {
        self.failure.take()
    }

    /// The path of a file whose torn end was put aside, once.
    pub fn take_torn(&mut self) -> Option<String> {
        self.torn.take()
    }

    /// Whether as many files were made within a minute as may be, once. The next one waits until the minute is over.
    pub fn take_crowded(&mut self) -> bool {
        let is_crowded = self.is_crowded;
        self.is_crowded = false;
        is_crowded
    }

    /// One file more is to be made: waits until it may be.
    fn await_turn(&mut self) {
        if let Some(wait) = self.made.make(milliseconds(self.rt)) {
            thread::sleep(self.rt, Duration::from_millis(wait));
            self.made.make(milliseconds(self.rt));
        }
        if self.made.is_full(milliseconds(self.rt)) {
            self.is_crowded = true;
        }
    }

    /// The path of a file.
    fn path_of(&self, name: &str) -> io::Result<String> {
        let path = match self.place {
            FilePlace::Below(top) => format!(in self.alloc; "{top}/{name}"),
            FilePlace::At(path) => String::from_str(self.alloc, path),
        };
        match path {
            Ok(path) => Ok(path),
            Err(_) => Err(no_memory()),
        }
    }

    /// What the system says of a file.
    fn failure_at(&self, name: &str, reason: io::Error) -> FileFailure {
        FileFailure {
            path: self.path_of(name).ok(),
            reason,
        }
    }

    /// A file is no more kept open.
    fn let_go(&mut self, open: NamedFile) {
        if !self.lasts {
            return;
        }
        if let Err(reason) = open.file.sync() {
            self.is_lost = true;
            self.lost = Some(FileFailure {
                path: Some(open.path),
                reason,
            });
        }
    }

    /// A file that was not written for long is no more kept open. Answers whether there was one.
    fn let_go_old(&mut self) -> bool {
        match self.opened.remove_old() {
            Some(old) => {
                self.let_go(old);
                true
            }
            None => false,
        }
    }

    /// Keeps a file open, if need be in place of one that was not written for long.
    fn keep_open(&mut self, name: &str, path: String, file: OpenFile) -> io::Result<()> {
        let Ok(name) = String::from_str(self.alloc, name) else {
            return Err(no_memory());
        };
        if self.opened.is_full() {
            self.let_go_old();
        }
        let opened = NamedFile {
            name,
            path,
            file,
            is_found: true,
        };
        match self.opened.push(opened) {
            Ok(()) => Ok(()),
            Err(_) => Err(no_memory()),
        }
    }

    /// Opens a file. While no descriptor can be had, others are let go.
    fn open_at(&mut self, path: &str) -> io::Result<File> {
        for _ in 0..u64::MAX {
            match made_at(self.rt, path, self.lasts) {
                Err(reason) if is_full(&reason) => {
                    if !self.let_go_old() {
                        return Err(reason);
                    }
                }
                opened => return opened,
            }
        }
        Err(io::Error::from(ErrorKind::Other))
    }

    /// Opens the file of a name, which is not open.
    fn open_new(&mut self, name: &str) -> io::Result<()> {
        let path = self.path_of(name)?;
        let is_new = plain_at(self.rt, path.as_str())?.is_none();
        if is_new {
            self.await_turn();
        }
        let file = self.open_at(path.as_str())?;
        if is_new && self.lasts {
            sync_folder_of(self.rt, path.as_str());
        }
        let opened = OpenFile::new(file, self.now, self.piece)?;
        self.keep_open(name, path, opened)
    }

    /// Has the file of a name open. Answers its place among those that are.
    fn have_open(&mut self, name: &str) -> io::Result<usize>
        ensures within { IfOk result (λ at. at < length self.new.opened.all.items) }
        ensures named { IfOk result (λ at. name_at self.new.opened.all.items at ≡ Some name.now) }
    {
        if let Some(at) = self.opened.find_again(name) {
            return Ok(at);
        }
        self.open_new(name)?;
        match self.opened.find(name) {
            Some(at) => Ok(at),
            None => Err(io::Error::from(ErrorKind::Other)),
        }
    }

    /// A file is closed that is open, but is no more the one at its path.
    fn close_other(&mut self, name: &str, found: &Option<Metadata>) {
        let is_same = match (self.opened.get(name), found) {
            (Some(open), Some(found)) => open.file.is_at(identity_of(found)),
            (Some(_), None) => false,
            (None, _) => true,
        };
        if !is_same {
            self.close(name);
        }
    }

    /// A file is closed, if it is open.
    fn close(&mut self, name: &str) {
        if let Some(open) = self.opened.remove(name) {
            self.let_go(open);
        }
    }

    /// Puts the end of a file that is no whole record into another one, and cuts it off.
    fn put_aside(&mut self, path: String, length: u64) -> io::Result<()> {
        let whole = length - length % RECORD as u64;
        let Ok(aside) = format!(in self.alloc; "{path}.torn") else {
            return Err(no_memory());
        };
        let mut file = opened_at(self.rt, path.as_str())?;
        let mut other = opened_at(self.rt, aside.as_str())?;
        crate::open_file::move_end(&mut file, &mut other, whole, length)?;
        self.torn = Some(path);
        Ok(())
    }

    /// How many records stand in a file that is open, if its path was seen to name it since the piece began.
    fn count_open(&mut self, name: &str) -> Option<u64> {
        let at = self.opened.find(name)?;
        self.opened.all[at].file.count_in(self.piece)
    }

    /// A file that is open has that length, and its path names it.
    fn confirm(&mut self, name: &str, length: u64) {
        let piece = self.piece;
        if let Some(at) = self.opened.find_again(name) {
            self.opened.all[at].file.confirm(piece, length);
        }
    }

    /// How many whole records stand in a file. The first time in a piece its path is looked at.
    fn count_at(&mut self, name: &str) -> io::Result<u64> {
        match self.count_open(name) {
            Some(count) => Ok(count),
            None => self.count_by_path(name),
        }
    }

    /// What the system says of the file that a path names.
    fn found_at(&self, name: &str) -> io::Result<Option<Metadata>> {
        match self.opened.get(name) {
            Some(open) => plain_at(self.rt, open.path.as_str()),
            None => plain_at(self.rt, self.path_of(name)?.as_str()),
        }
    }

    /// How many whole records stand in the file that a path names, whose torn end is put aside.
    fn count_by_path(&mut self, name: &str) -> io::Result<u64> {
        let found = self.found_at(name)?;
        self.close_other(name, &found);
        let length = match found {
            Some(found) => found.len(),
            None => 0,
        };
        if length % RECORD as u64 != 0 {
            self.close(name);
            let path = self.path_of(name)?;
            self.put_aside(path, length)?;
        }
        self.confirm(name, length);
        Ok(length / RECORD as u64)
    }

    /// Reads the record at a place of a file.
    fn read_at(&mut self, name: &str, place: u64, bytes: &mut [u8; 512]) -> io::Result<()> {
        let at = self.have_open(name)?;
        self.opened.all[at].file.read(place, bytes)
    }

    /// Adds a record at the end of a file.
    fn add_at(&mut self, name: &str, bytes: &[u8; 512]) -> io::Result<()> {
        let now = self.now;
        let at = self.have_open(name)?;
        self.opened.all[at].file.add(bytes, now)
    }

    /// Has the system put on the disk what was added to files that are open.
    fn sync_open(&self) -> Result<(), FileFailure> {
        for open in &self.opened.all {
            match open.file.sync() {
                Ok(()) => {}
                Err(reason) => return Err(self.failure_at(open.name.as_str(), reason)),
            }
        }
        Ok(())
    }

    /// Closes files to which nothing was added for a minute.
    fn close_idle(&mut self) {
        let now = milliseconds(self.rt);
        for at in (0..self.opened.all.len()).rev() {
            if let Some(idle) = self.opened.remove_idle(at, now, IDLE) {
                self.let_go(idle);
            }
        }
    }

    /// What the system said of a file of which not all could be put on the disk.
    fn take_lost(&mut self) -> FileFailure {
        match self.lost.take() {
            Some(failure) => failure,
            None => FileFailure {
                path: None,
                reason: io::Error::from(ErrorKind::Other),
            },
        }
    }

    /// Has the system put on the disk what was added, if that is to last.
    fn sync_all(&mut self) -> Result<(), FileFailure> {
        if self.lasts {
            if self.is_lost {
                return Err(self.take_lost());
            }
            self.sync_open()?;
        }
        self.close_idle();
        Ok(())
    }

    /// A call at a file ended so.
    fn tell<T: Drop>(&mut self, name: &str, outcome: io::Result<T>) -> Result<T, FolderFault> {
        match outcome {
            Ok(value) => Ok(value),
            Err(reason) => {
                self.failure = Some(self.failure_at(name, reason));
                Err(FolderFault)
            }
        }
    }
}

impl RecordFiles for DiskFiles<'_> {
    ghost records = { λ _ _. None };

    ghost safe = { λ _ _. None };

    fn count(&mut self, name: &str) -> Result<u64, FolderFault> {
        let counted = self.count_at(name);
        self.tell(name, counted)
    }

    fn read(&mut self, name: &str, place: u64, bytes: &mut [u8; 512]) -> Result<(), FolderFault> {
        let read = self.read_at(name, place, bytes);
        self.tell(name, read)
    }

    fn add(&mut self, name: &str, bytes: &[u8; 512]) -> Result<(), FolderFault> {
        let added = self.add_at(name, bytes);
        self.tell(name, added)
    }

    fn is_gone(&self, name: &str) -> bool {
        match self.path_of(name) {
            Ok(path) => is_gone(self.rt, path.as_str()),
            Err(_) => false,
        }
    }

    fn sync(&mut self) -> Result<(), FolderFault> {
        match self.sync_all() {
            Ok(()) => Ok(()),
            Err(failure) => {
                self.failure = Some(failure);
                Err(FolderFault)
            }
        }
    }
}
