//! Files in which readers go on one after the other.
//!
//! A file that the state doesn't name is all tail. It can't be told whether it was made after the state was written or
//! is only old; to look through an old one costs one reading and changes nothing. So all files to which records came
//! within the last hour are named, and a state of an earlier version, which names none, is read. What a state named
//! stays named until a record comes to the file, or the file is gone.
//!
//! A record of a tail that doesn't come again, since the servers have lost it, would be looked for in vain for good,
//! and each reader would read the file from there on. When none comes any more is known to whoever knows of servers:
//! then what is left of tails is given up.
ghost use Rattle.std.specs.Prelude.{◌≡◌, ◌≢◌, ◌+◌, ◌⊎◌, [], ℕ, List, IfOk, None, OnOk, Some, if◌then◌else◌, length};
ghost use Rattle.std.specs.Prelude.{false, true};
ghost use Rattle.continued_files.specs.Known.{GivesUpOf, IsIndexed, Knows, KnowsOthers, kept_by, known_at, length_of};
ghost use Rattle.continued_files.specs.Known.{tail_before};
ghost use Rattle.continued_files.specs.Names.{has};
ghost use Rattle.continued_files.specs.Steps.{GivesUpStep, HandsStep, ReturnsStep, files_value};
ghost use Rattle.continued_files.specs.Tails.{Offers, TailValue, all_from};
ghost use Rattle.sl_io.specs.Counts.{CountsFailure};
ghost use Rattle.continued_files.specs.Files.{Tells, TellsOthers, TellsSame};
ghost use Rattle.continued_files.specs.Puts.{StandsAfter};

use crate::files::{FolderFault, RecordFiles};
use crate::known::{
    Known, ShortFile, Unnamed, drop_known, drop_lengths, give_up_tails, named_count,
};
use crate::lengths::FileLength;
use crate::names::FileNames;
use crate::tail::Tail;
use std::alloc::Global;
use std::collections::BTreeMap;

/// Files of records to which each record is added once, though it is handed again to a reader that goes on after one
/// that was stopped.
#[derive(Drop)]
pub struct ContinuedFiles<F: RecordFiles> {
    pub(crate) alloc: Global,
    pub(crate) files: F,
    /// What the state says of files, when the reader begins.
    pub(crate) named: Vec<FileLength>,
    pub(crate) unnamed: Unnamed,
    /// What is known of the files to which records were handed, by their names.
    pub(crate) all: BTreeMap<String, Known>,
    pub(crate) syncs: u64,
    /// The place of the file among those that the state names of which it is asked next whether it is gone.
    pub(crate) asked: usize,
    /// A file that had fewer records than were counted, since that was asked last.
    short: Option<ShortFile>,
    /// Whether the record that was handed last stood in a tail.
    is_passed: bool,
    pub(crate) failures: u64,
}

impl<F: RecordFiles> ContinuedFiles<F> {
    /// These files, of which a state names some.
    pub fn new(
        alloc: Global,
        files: F,
        named: Vec<FileLength>,
        unnamed: Unnamed,
    ) -> ContinuedFiles<F>
        ensures files { result.files ≡ files }
        ensures state { (result.named ≡ named) × (result.unnamed ≡ unnamed) }
        ensures unknown { (name : List ℕ) → known_at result.all name ≡ None }
    {
        ContinuedFiles {
            alloc,
            files,
            named,
            unnamed,
            all: BTreeMap::new(alloc),
            syncs: 0,
            asked: 0,
            short: None,
            is_passed: false,
            failures: 0,
        }
    }

    /// The files.
    pub fn files(&self) -> &F
        ensures { result.now ≡ self.now.files }
    {
        &self.files
    }

    /// The files, for calls that not all files have.
    pub fn files_mut(&mut self) -> &mut F
        ensures { result.now ≡ self.old.files }
    {
        &mut self.files
    }

    /// The files, to which nothing more is handed.
    pub fn into_files(self) -> F
        ensures { result ≡ self.files }
    {
        self.files
    }

    /// How many records of a file with so many don't come again, by the state.
    fn kept_of(&self, name: &str, count: u64) -> u64
        ensures { result ≡ kept_by (length_of self.now.named.items name.now) self.now.unnamed count }
    {
        match (named_count(&self.named, name), self.unnamed) {
            (Some(kept), _) => kept,
            (None, Unnamed::Kept) => count,
            (None, Unnamed::Tail) => 0,
        }
    }

    /// Remembers what is known of a file.
    fn remember(&mut self, name: &str, known: Known) -> Result<(), FolderFault>
        ensures known { OnOk result (known_at self.new.all name.now ≡ Some known) }
        ensures others { OnOk result (KnowsOthers name.now self.old.all self.new.all) }
        ensures same { (self.new.files ≡ self.old.files) × (self.new.named ≡ self.old.named)
            × (self.new.unnamed ≡ self.old.unnamed) × (self.new.failures ≡ self.old.failures) }
    {
        let Ok(name) = String::from_str(self.alloc, name) else {
            return Err(FolderFault);
        };
        match self.all.insert(name, known) {
            Ok(_) => Ok(()),
            Err(_) => Err(FolderFault),
        }
    }

    /// A file has so many records, which are fewer than were counted.
    fn note_short(&mut self, name: &str, count: u64, kept: u64) -> Result<(), FolderFault>
        ensures { (self.new.files ≡ self.old.files) × (self.new.all ≡ self.old.all)
            × (self.new.named ≡ self.old.named) × (self.new.unnamed ≡ self.old.unnamed)
            × (self.new.failures ≡ self.old.failures) }
    {
        let Ok(name) = String::from_str(self.alloc, name) else {
            return Err(FolderFault);
        };
        self.short = Some(ShortFile { name, count, kept });
        Ok(())
    }

    /// Makes the tail of a file that has so many records known, where it isn't yet, or was replaced.
    fn know(&mut self, name: &str, count: u64) -> Result<(), FolderFault>
        ensures known { OnOk result ((rs : List (List ℕ)) → Tells (F.records self.old.files) name.now rs
            → count ≡ length rs → IsIndexed (known_at self.old.all name.now) rs
            → Knows (known_at self.new.all name.now) rs (tail_before (known_at self.old.all name.now)
            (kept_by (length_of self.old.named.items name.now) self.old.unnamed count) count)) }
        ensures others { OnOk result (KnowsOthers name.now self.old.all self.new.all) }
        ensures same { TellsSame (F.records self.old.files) (F.records self.new.files) }
        ensures safe { TellsSame (F.safe self.old.files) (F.safe self.new.files) }
        ensures rest { (self.new.named ≡ self.old.named) × (self.new.unnamed ≡ self.old.unnamed)
            × (self.new.failures ≡ self.old.failures) }
    {
        let kept = match self.all.get(name) {
            Some(known) => {
                if known.count <= count {
                    return Ok(());
                }
                known.count
            }
            None => self.kept_of(name, count),
        };
        if count < kept {
            self.note_short(name, count, kept)?;
        }
        let tail = Tail::new(self.alloc, &mut self.files, name, kept, count)?;
        let syncs = self.syncs;
        self.remember(name, Known { tail, count, syncs })
    }

    /// Hands a record to a file: it is added at the end, or passed over if it stands in what an earlier reader left
    /// there. Answers whether it was added. If it fails, nothing was added, or there is no memory to remember it.
    fn offer(&mut self, name: &str, bytes: &[u8; 512]) -> Result<bool, FolderFault>
        ensures stands { OnOk result
            (StandsAfter name.now bytes.now (F.records self.old.files) (F.records self.new.files)) }
        ensures offers { OnOk result ((rs : List (List ℕ)) → Tells (F.records self.old.files) name.now rs
            → IsIndexed (known_at self.old.all name.now) rs → (rs' : List (List ℕ)) × (t : TailValue)
            × Tells (F.records self.new.files) name.now rs' × Knows (known_at self.new.all name.now) rs' t
            × Offers (tail_before (known_at self.old.all name.now)
            (kept_by (length_of self.old.named.items name.now) self.old.unnamed (length rs)) (length rs))
            rs bytes.now t rs') }
        ensures added { IfOk result (λ is_added. (rs : List (List ℕ)) → Tells (F.records self.old.files) name.now rs
            → (rs' : List (List ℕ)) → Tells (F.records self.new.files) name.now rs'
            → length rs' ≡ length rs + (if is_added then 1 else 0)) }
        ensures other_tails { OnOk result (KnowsOthers name.now self.old.all self.new.all) }
        ensures rest { (self.new.named ≡ self.old.named) × (self.new.unnamed ≡ self.old.unnamed) }
        ensures others { TellsOthers name.now (F.records self.old.files) (F.records self.new.files) }
        ensures safe { TellsSame (F.safe self.old.files) (F.safe self.new.files) }
        ensures failures { self.new.failures ≡ self.old.failures }
    {
        let count = self.files.count(name)?;
        self.know(name, count)?;
        let syncs = self.syncs;
        match self.all.get_mut(name) {
            Some(known) => known.hand(&mut self.files, name, bytes, count, syncs),
            None => Err(FolderFault),
        }
    }

    /// The numbers of a server went back, so that any record of some files may be handed anew: from now on all of each
    /// of these is tail. Of those to which nothing is handed after it no length is told. Others stay as they are, if a
    /// file that is not named is tail.
    pub fn return_to_begin(&mut self, names: &FileNames<'_>)
        ensures tails { (name : List ℕ) (count : ℕ) → has names.now name ≡ true → tail_before
            (known_at self.new.all name) (kept_by (length_of self.new.named.items name) self.new.unnamed count) count
            ≡ all_from 0 count }
        ensures others { (name : List ℕ) → has names.now name ≡ false
            → (known_at self.new.all name ≡ known_at self.old.all name)
            × (length_of self.new.named.items name ≡ length_of self.old.named.items name) }
        ensures step { ReturnsStep (files_value (F.records self.old.files) (F.safe self.old.files) self.old.all
            self.old.named.items self.old.unnamed) (files_value (F.records self.new.files) (F.safe self.new.files)
            self.new.all self.new.named.items self.new.unnamed) (has names.now) }
        ensures unnamed { self.new.unnamed ≡ Unnamed.Tail }
        ensures same { self.new.files ≡ self.old.files }
        ensures failures { self.new.failures ≡ self.old.failures }
    {
        drop_known(&mut self.all, names);
        drop_lengths(&mut self.named, names);
        self.unnamed = Unnamed::Tail;
    }

    /// No record comes any more that stands in what is left of the tails of some files: that is given up.
    pub fn give_up(&mut self, names: &FileNames<'_>)
        ensures tails { GivesUpOf (has names.now) self.old.all self.new.all }
        ensures step { GivesUpStep (files_value (F.records self.old.files) (F.safe self.old.files) self.old.all
            self.old.named.items self.old.unnamed) (files_value (F.records self.new.files) (F.safe self.new.files)
            self.new.all self.new.named.items self.new.unnamed) (has names.now) }
        ensures rest { (self.new.files ≡ self.old.files) × (self.new.named ≡ self.old.named)
            × (self.new.unnamed ≡ self.old.unnamed) × (self.new.failures ≡ self.old.failures) }
    {
        give_up_tails(self.alloc, &mut self.all, names);
    }

    /// A file that had fewer records than were counted, once: the last of several. Until another state is kept the file
    /// has to stay shorter than that: else a reader that goes on takes its first records for counted ones.
    pub fn take_short(&mut self) -> Option<ShortFile>
        ensures short { result ≡ self.old.short }
        ensures none { self.new.short ≡ None }
        ensures same { (self.new.files ≡ self.old.files) × (self.new.all ≡ self.old.all)
            × (self.new.named ≡ self.old.named) × (self.new.unnamed ≡ self.old.unnamed) }
        ensures failures { self.new.failures ≡ self.old.failures }
    {
        self.short.take()
    }

    /// Whether the record that was handed last stood in what an earlier reader left, and so was passed over.
    pub fn is_passed(&self) -> bool
        ensures { result ≡ self.now.is_passed }
    {
        self.is_passed
    }

    /// Hands a record to a file: it is added at the end, or passed over if it stands in what an earlier reader left
    /// there. If it fails, nothing was added, or there is no memory to remember it, and the call counts as one that
    /// failed.
    pub fn hand(&mut self, name: &str, bytes: &[u8; 512]) -> Result<(), FolderFault>
        ensures stands { OnOk result
            (StandsAfter name.now bytes.now (F.records self.old.files) (F.records self.new.files)) }
        ensures offers { OnOk result ((rs : List (List ℕ)) → Tells (F.records self.old.files) name.now rs
            → IsIndexed (known_at self.old.all name.now) rs → (rs' : List (List ℕ)) × (t : TailValue)
            × Tells (F.records self.new.files) name.now rs' × Knows (known_at self.new.all name.now) rs' t
            × Offers (tail_before (known_at self.old.all name.now)
            (kept_by (length_of self.old.named.items name.now) self.old.unnamed (length rs)) (length rs))
            rs bytes.now t rs') }
        ensures step { OnOk result (HandsStep (files_value (F.records self.old.files) (F.safe self.old.files)
            self.old.all self.old.named.items self.old.unnamed) (files_value (F.records self.new.files)
            (F.safe self.new.files) self.new.all self.new.named.items self.new.unnamed) name.now bytes.now) }
        ensures others { TellsOthers name.now (F.records self.old.files) (F.records self.new.files) }
        ensures safe { TellsSame (F.safe self.old.files) (F.safe self.new.files) }
        ensures passed { OnOk result ((rs : List (List ℕ)) → Tells (F.records self.old.files) name.now rs
            → (rs' : List (List ℕ)) → Tells (F.records self.new.files) name.now rs'
            → length rs' ≡ length rs + (if self.new.is_passed then 0 else 1)) }
        ensures failure { CountsFailure self.old.failures self.new.failures result }
    {
        match self.offer(name, bytes) {
            Ok(is_added) => {
                self.is_passed = !is_added;
                Ok(())
            }
            Err(fault) => {
                self.failures = self.failures.wrapping_add(1);
                Err(fault)
            }
        }
    }
}
