//! Files of records in memory.
ghost use Rattle.std.specs.Prelude.{◌≡◌, ◌<◌, ◌≤◌, ◌++◌, ◌∷◌, [], ℕ, List, length, map, take, true, false, IfOk};
ghost use Rattle.std.specs.Prelude.{OnErr, OnOk, Some};
ghost use Rattle.continued_files.specs.Files.{Tells, TellsSame, AddsTo, MakesSafe};
ghost use Rattle.memory_doubles.specs.MemoryRecords.{named, records_of};
ghost use Rattle.continued_files.specs.Places.{record_at};

use continued_files::{FolderFault, RecordFiles};
use std::alloc::{AllocError, Global};

/// A record of a file, and the file's name.
#[derive(Drop)]
pub struct NamedRecord {
    pub name: Vec<u8>,
    pub bytes: [u8; 512],
}

/// Files of records in memory, which tell what stands in them. After so many calls that add or sync each further one
/// fails, as for a reader that is stopped there. So does one for which there is no memory.
#[derive(Drop)]
pub struct MemoryFiles {
    alloc: Global,
    /// All records, in the order in which they were added.
    all: Vec<NamedRecord>,
    /// How many of them were synced.
    synced: usize,
    /// How many more calls add or sync.
    calls: u64,
    ghost within: { synced ≤ length all.items },
}

impl MemoryFiles {
    /// Files with these records, all of which are synced, before so many calls that add or sync.
    pub fn new(alloc: Global, all: Vec<NamedRecord>, calls: u64) -> MemoryFiles
        ensures { (result.all ≡ all) × (result.calls ≡ calls) }
    {
        let synced = all.len();
        MemoryFiles {
            alloc,
            all,
            synced,
            calls,
        }
    }

    /// All records, in the order in which they were added.
    pub fn all(&self) -> &[NamedRecord]
        ensures { result.now ≡ self.now.all.items }
    {
        self.all.as_slice()
    }

    /// What is left at a stop: all records after a kill, and those that were synced after a loss of power.
    pub fn into_left(self, is_power_lost: bool) -> Vec<NamedRecord>
        ensures killed { is_power_lost ≡ false → result.items ≡ self.all.items }
        ensures lost { is_power_lost ≡ true → result.items ≡ take self.synced self.all.items }
    {
        let mut left = self.all;
        if is_power_lost {
            left.truncate(self.synced);
        }
        left
    }

    /// One call less that adds or syncs. It fails if there is none.
    fn call(&mut self) -> Result<(), FolderFault>
        ensures { (self.new.all ≡ self.old.all) × (self.new.synced ≡ self.old.synced) }
    {
        if self.calls == 0 {
            return Err(FolderFault);
        }
        self.calls -= 1;
        Ok(())
    }

    /// Keeps one record more, or none.
    fn store(&mut self, name: &str, bytes: &[u8; 512]) -> Result<(), AllocError>
        ensures kept { OnOk result (map named self.new.all.items
            ≡ map named self.old.all.items ++ record { name = name.now; bytes = bytes.now } ∷ []) }
        ensures same { OnErr result (self.new.all.items ≡ self.old.all.items) }
        ensures synced { self.new.synced ≡ self.old.synced }
    {
        let more = NamedRecord {
            name: Vec::from_slice(self.alloc, name.as_bytes())?,
            bytes: *bytes,
        };
        self.all.push(more)?;
        Ok(())
    }
}

/// How many of these records stand in a file.
fn count_in(all: &[NamedRecord], name: &str) -> u64
    ensures { result ≡ length (records_of (map named all.now) name.now) }
{
    let mut count = 0;
    for one in all {
        if one.name.as_slice() == name.as_bytes() {
            count += 1;
        }
    }
    count
}

/// Copies the record of a file at a place. It fails where none stands.
fn copy_at(
    all: &[NamedRecord],
    name: &str,
    place: u64,
    bytes: &mut [u8; 512],
) -> Result<(), FolderFault>
    ensures { OnOk result ((place < length (records_of (map named all.now) name.now))
        × (bytes.new ≡ record_at (records_of (map named all.now) name.now) place)) }
{
    let mut left = place;
    for one in all {
        if one.name.as_slice() == name.as_bytes() {
            if left == 0 {
                *bytes = one.bytes;
                return Ok(());
            }
            left -= 1;
        }
    }
    Err(FolderFault)
}

impl RecordFiles for MemoryFiles {
    ghost records = { λ f name. Some (records_of (map named f.all.items) name) };

    ghost safe = { λ f name. Some (length (records_of (take f.synced (map named f.all.items)) name)) };

    fn count(&mut self, name: &str) -> Result<u64, FolderFault> {
        Ok(count_in(&self.all, name))
    }

    fn read(&mut self, name: &str, place: u64, bytes: &mut [u8; 512]) -> Result<(), FolderFault> {
        copy_at(&self.all, name, place, bytes)
    }

    fn add(&mut self, name: &str, bytes: &[u8; 512]) -> Result<(), FolderFault> {
        self.call()?;
        match self.store(name, bytes) {
            Ok(()) => Ok(()),
            Err(_) => Err(FolderFault),
        }
    }

    fn is_gone(&self, name: &str) -> bool {
        count_in(&self.all, name) == 0
    }

    fn sync(&mut self) -> Result<(), FolderFault> {
        self.call()?;
        self.synced = self.all.len();
        Ok(())
    }
}
