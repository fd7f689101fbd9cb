//! What is known of a file to which records are handed.
ghost use Rattle.std.specs.Prelude.{◌≡◌, ◌≢◌, ◌+◌, ◌≤◌, if◌then◌else◌, ℕ, List, IfOk, None, OnOk, Some, length};
ghost use Rattle.std.specs.Prelude.{false, true};
ghost use Rattle.continued_files.specs.Files.{Tells, TellsOthers, TellsSame};
ghost use Rattle.continued_files.specs.Indexes.{Indexes};
ghost use Rattle.continued_files.specs.Known.{GivesUp, GivesUpIf, GivesUpOf, Settles, known_at, length_of};
ghost use Rattle.continued_files.specs.Names.{has};
ghost use Rattle.continued_files.specs.Puts.{StandsAfter};
ghost use Rattle.continued_files.specs.Tails.{HasNone, Offers};

use crate::files::{FolderFault, RecordFiles};
use crate::lengths::FileLength;
use crate::names::FileNames;
use crate::tail::Tail;
use std::alloc::Global;
use std::collections::BTreeMap;

/// What stands in a file that the state does not name.
#[derive(Clone, Copy, Drop)]
pub enum Unnamed {
    /// Records that are not handed again.
    Kept,
    /// Records that may be handed again: the file was made after the state was kept.
    Tail,
}

/// A file that had fewer records than were counted: it is another one, or has lost some.
#[derive(Drop)]
pub struct ShortFile {
    /// Its name.
    pub name: String,
    /// How many records it had.
    pub count: u64,
    /// How many were counted.
    pub kept: u64,
}

/// A file to which a record was handed: what is left of its tail, how many records it has, and how many syncs there had
/// been when a record of it was handed last.
#[derive(Drop)]
pub struct Known {
    pub(crate) tail: Tail,
    pub(crate) count: u64,
    pub(crate) syncs: u64,
}

impl Known {
    /// Hands a record to the file, which has so many: it is added at the end, or passed over if it stands in what an
    /// earlier reader left there. Answers whether it was added.
    pub(crate) fn hand<F: RecordFiles>(
        &mut self,
        files: &mut F,
        name: &str,
        bytes: &[u8; 512],
        count: u64,
        syncs: u64,
    ) -> Result<bool, FolderFault>
        ensures stands { OnOk result (StandsAfter name.now bytes.now (F.records files.old) (F.records files.new)) }
        ensures offers { OnOk result ((rs : List (List ℕ)) → Tells (F.records files.old) name.now rs
            → count ≡ length rs → Indexes self.old.tail rs → (rs' : List (List ℕ))
            × Tells (F.records files.new) name.now rs' × (self.new.count ≤ length rs') × Indexes self.new.tail rs'
            × Offers self.old.tail.tail rs bytes.now self.new.tail.tail rs') }
        ensures added { IfOk result (λ is_added. (rs : List (List ℕ)) → Tells (F.records files.old) name.now rs
            → (rs' : List (List ℕ)) → Tells (F.records files.new) name.now rs'
            → length rs' ≡ length rs + (if is_added then 1 else 0)) }
        ensures others { TellsOthers name.now (F.records files.old) (F.records files.new) }
        ensures safe { TellsSame (F.safe files.old) (F.safe files.new) }
    {
        let is_added = self.tail.offer(files, name, bytes)?;
        self.count = count.saturating_add(u64::from(is_added));
        self.syncs = syncs;
        Ok(is_added)
    }

    /// Whether nothing of its tail is left, though it takes memory.
    pub(crate) fn is_over(&self) -> bool
        ensures { result ≡ true → HasNone self.now.tail.tail }
    {
        self.tail.is_over()
    }

    /// What is left of its tail is given up, and takes no memory.
    pub(crate) fn give_up(&mut self, alloc: Global)
        ensures { GivesUp self.old self.new }
    {
        self.tail = Tail::none(alloc, self.count);
    }

    /// The same, if that is so.
    fn give_up_if(&mut self, is_given: bool, alloc: Global)
        ensures { GivesUpIf is_given (Some self.old) (Some self.new) }
    {
        if is_given {
            self.give_up(alloc);
        }
    }

    /// Lets go of the memory of its tail, if nothing of that is left.
    pub(crate) fn settle(&mut self, alloc: Global)
        ensures { Settles (Some self.old) (Some self.new) }
    {
        if self.is_over() {
            self.give_up(alloc);
        }
    }
}

/// The length that is named of a file.
pub(crate) fn named_count(named: &[FileLength], name: &str) -> Option<u64>
    ensures { result ≡ length_of named.now name.now }
{
    for length in named {
        if length.name() == name.as_bytes() {
            return Some(length.count());
        }
    }
    None
}

/// The length of a file is named no more.
pub(crate) fn drop_named(named: &mut Vec<FileLength>, name: &str)
    ensures others { (other : List ℕ) → other ≢ name.now
        → length_of named.new.items other ≡ length_of named.old.items other }
    ensures none { length_of named.new.items name.now ≡ None }
{
    let mut at = named.len();
    while at > 0 {
        at -= 1;
        if named[at].name() == name.as_bytes() {
            named.remove(at);
        }
    }
}

/// The lengths of some files are named no more.
pub(crate) fn drop_lengths(named: &mut Vec<FileLength>, names: &FileNames<'_>)
    ensures none { (name : List ℕ) → has names.now name ≡ true → length_of named.new.items name ≡ None }
    ensures others { (name : List ℕ) → has names.now name ≡ false
        → length_of named.new.items name ≡ length_of named.old.items name }
{
    named.retain(|length| !names.has(length.name()));
}

/// Nothing is known of some files any more.
pub(crate) fn drop_known(all: &mut BTreeMap<String, Known>, names: &FileNames<'_>)
    ensures none { (name : List ℕ) → has names.now name ≡ true → known_at all.new name ≡ None }
    ensures others { (name : List ℕ) → has names.now name ≡ false → known_at all.new name ≡ known_at all.old name }
{
    all.retain(|name, _| !names.has(name.as_bytes()));
}

/// What is left of the tails of some files is given up.
pub(crate) fn give_up_tails(alloc: Global, all: &mut BTreeMap<String, Known>, names: &FileNames<'_>)
    ensures { GivesUpOf (has names.now) all.old all.new }
{
    all.retain(|name, known| {
        known.give_up_if(names.has(name.as_bytes()), alloc);
        true
    });
}
