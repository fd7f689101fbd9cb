//! What an earlier reader left at the end of a file.
ghost use Rattle.std.specs.Prelude.{◌≡◌, ◌+◌, ◌<◌, ◌≤◌, ◌^◌, if◌then◌else◌, ℕ, List, length, IfOk, IfSome, MatchOption};
ghost use Rattle.std.specs.Prelude.{[], OnErr, OnOk, replicate, true};
ghost use Rattle.continued_files.specs.Files.{Tells, TellsSame, TellsOthers};
ghost use Rattle.continued_files.specs.Puts.{StandsAfter};
ghost use Rattle.continued_files.specs.Places.{record_at};
ghost use Rattle.continued_files.specs.Tails.{AreOthers, HasNone, IsLeft, Offers, first_of};
ghost use Rattle.continued_files.specs.Tails.{kept_length, tail_of, without};
ghost use Rattle.std.specs.List.Sorted.{IsNonDecreasingBy};
ghost use Rattle.continued_files.specs.Indexes.{Indexes, IsFirst, entry_of};
ghost use Rattle.std.specs.List.{Contains};

use crate::files::{FolderFault, RecordFiles};
use crate::hashes::hash_of;
use std::alloc::{AllocError, Global};
use std::marker::Model;

/// A record of the tail.
#[derive(Clone, Copy, Drop)]
pub struct Entry {
    hash: u64,
    place: u64,
}

/// The tail of a file: the records that stand in it behind the length that was kept, and may be handed again, in any
/// order. Of each it knows the place, a number by which it is looked for, and whether it is left.
#[derive(Drop)]
pub struct Tail {
    /// The place of its first record.
    from: u64,
    /// Whether each of its records is left.
    left: Vec<bool>,
    /// All its records, in the order of their numbers.
    order: Vec<Entry>,
    /// How many of them were handed.
    taken: usize,
}

impl Model for Tail {
    ghost use Rattle.std.specs.Prelude.{◌<◌, ◌+◌, ◌^◌, length};
    ghost use Rattle.std.specs.List.Sorted.{IsNonDecreasingBy};
    ghost use Rattle.continued_files.specs.Indexes.{IndexValue};

    ghost Value = { IndexValue };

    ghost view = { λ t. record { tail = record { from = t.from; left = t.left.items }; order = t.order.items } };

    ghost invariant = { λ t. IsNonDecreasingBy (λ e. e.hash) t.order.items × (t.from + length t.left.items < 2 ^ 64) };
}

/// The place of the first entry whose number is not below one.
fn first_from(order: &[Entry], hash: u64) -> usize
    requires { IsNonDecreasingBy (λ e. e.hash) order.now }
    ensures { IsFirst order.now hash result }
{
    order.partition_point(|entry| entry.hash < hash)
}

/// The entries of the records of a file between two places.
fn entries_of<F: RecordFiles>(
    alloc: Global,
    files: &mut F,
    name: &str,
    from: u64,
    to: u64,
) -> Result<Vec<Entry>, FolderFault>
    ensures same { TellsSame (F.records files.old) (F.records files.new) }
    ensures safe { TellsSame (F.safe files.old) (F.safe files.new) }
    ensures entries { IfOk result (λ es. (rs : List (List ℕ)) → Tells (F.records files.old) name.now rs
        → (place : ℕ) → from ≤ place → place < to → Contains es.items (entry_of rs place)) }
{
    let mut entries = Vec::new(alloc);
    if from >= to {
        return Ok(entries);
    }
    let mut bytes = [0u8; 512];
    for place in from..to {
        files.read(name, place, &mut bytes)?;
        let hash = hash_of(&bytes);
        let Ok(()) = entries.push(Entry { hash, place }) else {
            return Err(FolderFault);
        };
    }
    Ok(entries)
}

/// The entries in the order of their numbers.
fn in_order(entries: Vec<Entry>) -> Result<Vec<Entry>, AllocError>
    ensures moved { IfOk result (λ es. (e : Entry) → Contains entries.items e → Contains es.items e) }
    ensures sorted { IfOk result (λ es. IsNonDecreasingBy (λ e. e.hash) es.items) }
{
    let mut entries = entries;
    entries.sort_by_key(|entry| entry.hash)?;
    Ok(entries)
}

/// So many records that are left.
fn all_left(alloc: Global, count: u64) -> Result<Vec<bool>, AllocError>
    ensures { IfOk result (λ left. left.items ≡ replicate count true) }
{
    let mut left = Vec::new(alloc);
    left.resize(count as usize, true)?;
    Ok(left)
}

/// Where the tail of a file begins that has so many records, of which a state counts some. A file that has fewer than
/// the state counts is another one, and all of it is tail.
fn first_of(kept: u64, count: u64) -> u64
    ensures first { result ≡ first_of kept count }
    ensures within { result ≤ count }
{
    if count < kept { 0 } else { kept }
}

impl Tail {
    /// The tail of a file that has so many records, of which a state counts some. Each record of the tail is read once.
    pub fn new<F: RecordFiles>(
        alloc: Global,
        files: &mut F,
        name: &str,
        kept: u64,
        count: u64,
    ) -> Result<Tail, FolderFault>
        ensures same { TellsSame (F.records files.old) (F.records files.new) }
        ensures safe { TellsSame (F.safe files.old) (F.safe files.new) }
        ensures tail { IfOk result (λ t. t.tail ≡ tail_of kept count) }
        ensures index { IfOk result (λ t. (rs : List (List ℕ)) → Tells (F.records files.old) name.now rs
            → count ≡ length rs → Indexes t rs) }
    {
        let from = first_of(kept, count);
        let entries = entries_of(alloc, files, name, from, count)?;
        let Ok(order) = in_order(entries) else {
            return Err(FolderFault);
        };
        let Ok(left) = all_left(alloc, count - from) else {
            return Err(FolderFault);
        };
        Ok(Tail {
            from,
            left,
            order,
            taken: 0,
        })
    }

    /// The tail of a file with so many records, none of which is handed again.
    pub fn none(alloc: Global, count: u64) -> Tail
        ensures { result.tail ≡ record { from = count; left = [] } }
    {
        Tail {
            from: count,
            left: Vec::new(alloc),
            order: Vec::new(alloc),
            taken: 0,
        }
    }

    /// Whether it has places, and none of them is left.
    pub fn is_over(&self) -> bool
        ensures { result ≡ true → HasNone self.now.tail }
    {
        self.taken > 0 && self.taken >= self.left.len() && !self.left.contains(&true)
    }

    /// How many records of the file, which has so many, don't come again.
    pub fn kept_length(&self, count: u64) -> u64
        ensures { result ≡ kept_length self.now.tail count }
    {
        for (at, is_left) in self.left.iter().enumerate() {
            if *is_left {
                return self.from + at as u64;
            }
        }
        count
    }

    /// Whether a place is left.
    fn is_left(&self, place: u64) -> bool
        ensures left { result ≡ true → IsLeft self.now.tail place }
        ensures out { IsLeft self.now.tail place → result ≡ true }
    {
        match place.checked_sub(self.from) {
            Some(at) => self.left.get(at as usize).copied().unwrap_or(false),
            None => false,
        }
    }

    /// A record of the tail was handed again.
    fn take_out(&mut self, place: u64)
        ensures left { IsLeft self.old.tail place → self.new.tail ≡ without self.old.tail place }
        ensures order { self.new.order ≡ self.old.order }
        ensures from { self.new.tail.from ≡ self.old.tail.from }
        ensures len { length self.new.tail.left ≡ length self.old.tail.left }
    {
        if let Some(at) = place.checked_sub(self.from) {
            if let Some(is_left) = self.left.get_mut(at as usize) {
                *is_left = false;
                self.taken = self.taken.saturating_add(1);
            }
        }
    }

    /// The place of a record that is left and equals one.
    fn find<F: RecordFiles>(
        &self,
        files: &mut F,
        name: &str,
        bytes: &[u8; 512],
    ) -> Result<Option<u64>, FolderFault>
        ensures same { TellsSame (F.records files.old) (F.records files.new) }
        ensures safe { TellsSame (F.safe files.old) (F.safe files.new) }
        ensures found { IfOk result (λ found. (rs : List (List ℕ)) → Tells (F.records files.old) name.now rs
            → MatchOption found (Indexes self.now rs → AreOthers self.now.tail rs bytes.now)
            (λ place. (IsLeft self.now.tail place) × (place < length rs) × (record_at rs place ≡ bytes.now))) }
    {
        let hash = hash_of(bytes);
        let first = first_from(&self.order, hash);
        let mut other = [0u8; 512];
        for at in first..self.order.len() {
            let entry = self.order[at];
            if entry.hash != hash {
                return Ok(None);
            }
            if self.is_left(entry.place) {
                files.read(name, entry.place, &mut other)?;
                if other.as_slice() == bytes.as_slice() {
                    return Ok(Some(entry.place));
                }
            }
        }
        Ok(None)
    }

    /// A record is handed: it is passed over if it stands in what is left of the tail, and else added to the file.
    /// Answers whether it was added. If it fails, nothing was added, and it is as if the record had not been handed.
    pub fn offer<F: RecordFiles>(
        &mut self,
        files: &mut F,
        name: &str,
        bytes: &[u8; 512],
    ) -> Result<bool, FolderFault>
        ensures offers { OnOk result ((rs : List (List ℕ)) → Tells (F.records files.old) name.now rs
            → Indexes self.old rs → (rs' : List (List ℕ)) × Tells (F.records files.new) name.now rs'
            × Indexes self.new rs' × Offers self.old.tail rs bytes.now self.new.tail rs') }
        ensures stands { OnOk result (StandsAfter name.now bytes.now (F.records files.old) (F.records files.new)) }
        ensures added { IfOk result (λ is_added. (rs : List (List ℕ)) → Tells (F.records files.old) name.now rs
            → (rs' : List (List ℕ)) → Tells (F.records files.new) name.now rs'
            → length rs' ≡ length rs + (if is_added then 1 else 0)) }
        ensures others { TellsOthers name.now (F.records files.old) (F.records files.new) }
        ensures safe { TellsSame (F.safe files.old) (F.safe files.new) }
        ensures failed { OnErr result
            ((self.new ≡ self.old) × TellsSame (F.records files.old) (F.records files.new)) }
    {
        match self.find(files, name, bytes)? {
            Some(place) => {
                self.take_out(place);
                Ok(false)
            }
            None => {
                files.add(name, bytes)?;
                Ok(true)
            }
        }
    }
}
