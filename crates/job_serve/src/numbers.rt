//! The file in which a server keeps numbers for its next run.
//!
//! A keep that fails is tried again after each turn. A young station may reach the kept number within two turns, so
//! waiting for more records would be too late. A write to a full disk mostly fails before anything is synced. It is
//! reported once, and again only after a keep that succeeded.
ghost use Rattle.std.specs.Prelude.{◌≡◌, All, IfOk, OnOk, map};
ghost use Rattle.catalog.specs.Numbers.{config_by, numbered};
ghost use Rattle.number_file.specs.Keeping.{AreKeepable, IsKeepable};
ghost use Rattle.number_file.specs.Tables.{with_nexts};
ghost use Rattle.serving.specs.Ahead.{ahead_of};
ghost use Rattle.job_serve.specs.KeptNumbers.{IsText};

use crate::numbers_fault::NumbersFault;
use catalog::{Config, ConfigFault, KeptNumber};
use files::{LockFault, lock_at, place_of, replace, text_in};
use incidents::{Failure, Incident, Place};
use number_file::{NumberTable, read_numbers};
use protocol::reason::Reason;
use serving::NumbersAhead;
use std::alloc::{AllocError, Global};
use std::fs::File;
use std::{fs, io};

/// A file of numbers: what it said when the server began, and what it is to say.
#[derive(Drop)]
pub struct NumberFile<'a> {
    /// The word that names it.
    path: &'a str,
    /// Where it is: not a symbolic link that points to it.
    place: String,
    /// Another name in the same folder, under which the file is written anew.
    new_path: String,
    /// Locked until the end, so that no other server begins with numbers that this one is about to pass.
    _lock: File,
    first: Vec<KeptNumber>,
    table: NumberTable,
    text: Vec<u8>,
}

impl<'a> NumberFile<'a> {
    /// Locks a file of numbers, reads it, and has the stations of a configuration begin with them. One that is not
    /// there has none. The configuration is one that was read, so that its stations' numbers can be kept.
    pub fn open(
        rt: &HostRuntime,
        path: &'a str,
        config: &mut Config,
    ) -> Result<NumberFile<'a>, Incident<'a>>
        requires { AreKeepable (map numbered config.old.entries) }
        ensures { IfOk result (λ file. config.new ≡ config_by file.first.items config.old) }
    {
        let place = place_named(rt, path)?;
        let lock = locked(rt, place.as_str(), path)?;
        let first = kept_at(rt, place.as_str(), path)?;
        config.begin_at(first.as_slice());
        match NumberFile::of(rt.alloc(), path, place, lock, first, config) {
            Ok(file) => Ok(file),
            Err(_) => Err(Incident::out_of_memory()),
        }
    }

    /// A file that said this, for the stations of a configuration.
    fn of(
        alloc: Global,
        path: &'a str,
        place: String,
        lock: File,
        first: Vec<KeptNumber>,
        config: &Config,
    ) -> Result<NumberFile<'a>, AllocError>
        requires first { All IsKeepable first.items }
        requires stations { AreKeepable (map numbered config.now.entries) }
        ensures { IfOk result (λ file. file.first.items ≡ first.items) }
    {
        let table = NumberTable::new(alloc, config, first.as_slice())?;
        let new_path = format!(in alloc; "{place}.new")?;
        Ok(NumberFile {
            path,
            place,
            new_path,
            _lock: lock,
            first,
            table,
            text: Vec::new(alloc),
        })
    }

    /// Has the stations of a configuration begin with what the file said when the server began.
    pub fn begin(&self, config: &mut Config)
        ensures { config.new ≡ config_by self.now.first.items config.old }
    {
        config.begin_at(self.first.as_slice());
    }

    /// The text of a server's numbers. Only memory can lack, and none is taken once a text as long was made.
    fn write(&mut self, numbers: &NumbersAhead<'_>) -> Result<(), AllocError>
        ensures kept { OnOk result (IsText self.old.table (ahead_of numbers.now) self.new.table self.new.text.items) }
        ensures first { self.new.first ≡ self.old.first }
    {
        set_numbers(&mut self.table, numbers);
        self.table.write(&mut self.text)
    }

    /// Keeps the numbers of a server's stations: the file is written anew under another name, which then takes its
    /// place. It takes no memory once it was written.
    pub fn keep(&mut self, rt: &HostRuntime, numbers: &NumbersAhead<'_>) -> Result<(), Incident<'a>>
        ensures kept { OnOk result (IsText self.old.table (ahead_of numbers.now) self.new.table self.new.text.items) }
        ensures first { self.new.first ≡ self.old.first }
    {
        if self.write(numbers).is_err() {
            return Err(Incident::out_of_memory());
        }
        match replace(
            rt,
            self.new_path.as_str(),
            self.place.as_str(),
            self.text.as_slice(),
        ) {
            Ok(()) => Ok(()),
            Err(reason) => Err(
                Failure::of(Reason::Numbers)
                    .at(Place::File(self.path))
                    .because(reason),
            ),
        }
    }
}

/// The numbers of a server's stations take the place of those in a table.
fn set_numbers(table: &mut NumberTable, numbers: &NumbersAhead<'_>)
    ensures { table.new ≡ with_nexts table.old (ahead_of numbers.now) }
{
    for place in 0..numbers.count() {
        match numbers.number(place) {
            Some(number) => table.set(place, number),
            None => {}
        }
    }
}

/// Why a file of numbers, that a word names, was not opened.
fn unopened<'a>(path: &'a str, reason: io::Error) -> Incident<'a> {
    NumbersFault::Unread
        .failure()
        .by_system(Place::File(path), reason)
}

/// Where the file is that a word names: if that is a symbolic link, the file to which it points. It fails if that is no
/// plain file, or if the link points to nothing.
fn place_named<'a>(rt: &HostRuntime, path: &'a str) -> Result<String, Incident<'a>> {
    match place_of(rt, path) {
        Ok(place) => Ok(place),
        Err(reason) if reason.kind() == io::ErrorKind::InvalidInput => Err(
            NumbersFault::Special.failure().in_file(path),
        ),
        Err(reason) => Err(unopened(path, reason)),
    }
}

/// The lock of the file of numbers at a place, that a word names: a file beside it.
fn locked<'a>(rt: &HostRuntime, place: &str, path: &'a str) -> Result<File, Incident<'a>> {
    let Ok(name) = format!(in rt.alloc(); "{place}.lock") else {
        return Err(Incident::out_of_memory());
    };
    match lock_at(rt, name.as_str()) {
        Ok(lock) => Ok(lock),
        Err(LockFault::Busy) => Err(NumbersFault::Locked.failure().in_file(path)),
        Err(LockFault::Refused(reason)) => Err(unopened(path, reason)),
    }
}

/// The numbers in a file; none if it is not there.
fn kept_at<'a>(
    rt: &HostRuntime,
    place: &str,
    path: &'a str,
) -> Result<Vec<KeptNumber>, Incident<'a>>
    ensures { IfOk result (λ numbers. All IsKeepable numbers.items) }
{
    match fs::open(rt, place) {
        Ok(file) => kept_in(rt, file, path),
        Err(reason) if reason.kind() == io::ErrorKind::NotFound => Ok(Vec::new(rt.alloc())),
        Err(reason) => Err(unopened(path, reason)),
    }
}

/// The numbers in a file that is open.
fn kept_in<'a>(rt: &HostRuntime, file: File, path: &'a str) -> Result<Vec<KeptNumber>, Incident<'a>>
    ensures { IfOk result (λ numbers. All IsKeepable numbers.items) }
{
    let text = match text_in(rt, file) {
        Ok(text) => text,
        Err(reason) => return Err(unopened(path, reason)),
    };
    match read_numbers(rt.alloc(), text.as_slice()) {
        Ok(numbers) => Ok(numbers),
        Err(ConfigFault::OutOfMemory) => Err(Incident::out_of_memory()),
        Err(_) => Err(NumbersFault::Invalid.failure().in_file(path)),
    }
}
