//! What lasts of files in which readers go on, and the lengths that a state keeps of them.
ghost use Rattle.std.specs.Prelude.{◌≡◌, ◌≢◌, [], ℕ, List, IfOk, None, OnOk, is_some};
ghost use Rattle.std.specs.Str.{IsUtf8};
ghost use Rattle.continued_files.specs.Files.{MakesSafe, TellsSame};
ghost use Rattle.continued_files.specs.Known.{KeepsIndexes, KeepsTails, KnowsOthers, Settles};
ghost use Rattle.continued_files.specs.Known.{kept_by, known_at, length_of, length_told};
ghost use Rattle.continued_files.specs.Steps.{SyncsStep, files_value};

use crate::continued::ContinuedFiles;
use crate::files::{FolderFault, RecordFiles};
use crate::known::{Unnamed, drop_named};
use crate::lengths::FileLength;
use crate::turns::place_after;
use std::alloc::AllocError;

/// For how many syncs a file is remembered to which nothing was handed.
const REMEMBERED: u64 = 3_600;

impl<F: RecordFiles> ContinuedFiles<F> {
    /// The name of a file to which nothing was handed for long, if there is one.
    fn idle_name(&self) -> Option<String> {
        let syncs = self.syncs;
        for (name, known) in &self.all {
            if known.syncs.saturating_add(REMEMBERED) <= syncs {
                return String::from_str(self.alloc, name.as_str()).ok();
            }
        }
        None
    }

    /// The name of a file of whose tail nothing is left, if there is one.
    fn over_name(&self) -> Option<String> {
        for (name, known) in &self.all {
            if known.is_over() {
                return String::from_str(self.alloc, name.as_str()).ok();
            }
        }
        None
    }

    /// Lets go of the memory of the tail of a file, if nothing of that is left.
    fn settle_one(&mut self, name: &str)
        ensures known { Settles (known_at self.old.all name.now) (known_at self.new.all name.now) }
        ensures others { KnowsOthers name.now self.old.all self.new.all }
        ensures rest { (self.new.files ≡ self.old.files) × (self.new.named ≡ self.old.named)
            × (self.new.unnamed ≡ self.old.unnamed) × (self.new.failures ≡ self.old.failures) }
    {
        let alloc = self.alloc;
        if let Some(known) = self.all.get_mut(name) {
            known.settle(alloc);
        }
    }

    /// Lets go of the memory of a tail of which nothing is left.
    fn settle(&mut self)
        ensures left { KeepsTails self.old.all (λ name count. kept_by (length_of self.old.named.items name)
            self.old.unnamed count) self.new.all (λ name count. kept_by (length_of self.new.named.items name)
            self.new.unnamed count) }
        ensures indexed { KeepsIndexes self.old.all self.new.all }
        ensures rest { (self.new.files ≡ self.old.files) × (self.new.named ≡ self.old.named)
            × (self.new.unnamed ≡ self.old.unnamed) × (self.new.failures ≡ self.old.failures) }
    {
        if let Some(name) = self.over_name() {
            self.settle_one(&name);
        }
    }

    /// Nothing is known any more of the file of a name, and the state doesn't name it.
    fn forget_one(&mut self, name: &str)
        ensures known { (other : List ℕ) → other ≢ name.now
            → (known_at self.new.all other ≡ known_at self.old.all other)
            × (length_of self.new.named.items other ≡ length_of self.old.named.items other) }
        ensures none { (known_at self.new.all name.now ≡ None) × (length_of self.new.named.items name.now ≡ None) }
        ensures rest { (self.new.files ≡ self.old.files) × (self.new.unnamed ≡ self.old.unnamed)
            × (self.new.failures ≡ self.old.failures) }
    {
        self.all.remove(name);
        drop_named(&mut self.named, name);
    }

    /// The name of a file that the state names and that is gone, if it is the turn of that one.
    fn gone_name(&mut self) -> Option<String>
        ensures { (self.new.files ≡ self.old.files) × (self.new.all ≡ self.old.all)
            × (self.new.named ≡ self.old.named) × (self.new.unnamed ≡ self.old.unnamed)
            × (self.new.failures ≡ self.old.failures) }
    {
        self.asked = place_after(self.asked, self.named.len());
        let length = self.named.get(self.asked)?;
        let name = str::from_utf8(length.name()).ok()?;
        if self.files.is_gone(name) {
            String::from_str(self.alloc, name).ok()
        } else {
            None
        }
    }

    /// A file to which nothing was handed for long is forgotten, and so is one that the state names and that is gone,
    /// if that loses nothing: all of a file that is not known and not named is tail.
    fn forget(&mut self)
        ensures left { KeepsTails self.old.all (λ name count. kept_by (length_of self.old.named.items name)
            self.old.unnamed count) self.new.all (λ name count. kept_by (length_of self.new.named.items name)
            self.new.unnamed count) }
        ensures indexed { KeepsIndexes self.old.all self.new.all }
        ensures same { self.new.files ≡ self.old.files }
        ensures failures { self.new.failures ≡ self.old.failures }
    {
        if let Unnamed::Tail = self.unnamed {
            if let Some(name) = self.idle_name() {
                self.forget_one(&name);
            } else if let Some(name) = self.gone_name() {
                self.forget_one(&name);
            }
        }
    }

    /// Makes all records last that were handed so far.
    pub fn sync(&mut self) -> Result<(), FolderFault>
        ensures left { OnOk result (KeepsTails self.old.all (λ name count. kept_by
            (length_of self.old.named.items name) self.old.unnamed count) self.new.all (λ name count. kept_by
            (length_of self.new.named.items name) self.new.unnamed count)) }
        ensures indexed { OnOk result (KeepsIndexes self.old.all self.new.all) }
        ensures same { TellsSame (F.records self.old.files) (F.records self.new.files) }
        ensures safe { OnOk result (MakesSafe (F.records self.new.files) (F.safe self.new.files)) }
        ensures failures { self.new.failures ≡ self.old.failures }
        ensures step { OnOk result (SyncsStep (files_value (F.records self.old.files) (F.safe self.old.files)
            self.old.all self.old.named.items self.old.unnamed) (files_value (F.records self.new.files)
            (F.safe self.new.files) self.new.all self.new.named.items self.new.unnamed)) }
    {
        self.files.sync()?;
        self.syncs = self.syncs.saturating_add(1);
        self.settle();
        self.forget();
        Ok(())
    }

    /// Makes all records last that were handed so far, and then tells how many records of each file don't come again.
    pub fn last(&mut self) -> Result<Vec<FileLength>, FolderFault>
        ensures same { TellsSame (F.records self.old.files) (F.records self.new.files) }
        ensures safe { OnOk result (MakesSafe (F.records self.new.files) (F.safe self.new.files)) }
        ensures failures { self.new.failures ≡ self.old.failures }
        ensures step { OnOk result (SyncsStep (files_value (F.records self.old.files) (F.safe self.old.files)
            self.old.all self.old.named.items self.old.unnamed) (files_value (F.records self.new.files)
            (F.safe self.new.files) self.new.all self.new.named.items self.new.unnamed)) }
        ensures lengths { IfOk result (λ lengths. (name : List ℕ) → IsUtf8 name → length_of lengths.items name
            ≡ length_told (known_at self.new.all name) (length_of self.new.named.items name)) }
    {
        self.sync()?;
        match self.lengths() {
            Ok(lengths) => Ok(lengths),
            Err(_) => Err(FolderFault),
        }
    }

    /// How many records of each file don't come again.
    fn lengths(&self) -> Result<Vec<FileLength>, AllocError>
        ensures { IfOk result (λ lengths. (name : List ℕ) → IsUtf8 name → length_of lengths.items name
            ≡ length_told (known_at self.now.all name) (length_of self.now.named.items name)) }
    {
        let mut lengths = self.known_lengths()?;
        for length in &self.named {
            if self.is_known(length.name()) {
                continue;
            }
            lengths.push(FileLength::new(self.alloc, length.name(), length.count())?)?;
        }
        Ok(lengths)
    }

    /// Whether the file of that name is known.
    fn is_known(&self, name: &[u8]) -> bool
        ensures { IsUtf8 name.now → result ≡ is_some (known_at self.now.all name.now) }
    {
        match str::from_utf8(name) {
            Ok(name) => self.all.contains_key(name),
            Err(_) => false,
        }
    }

    /// How many records of each file that is known don't come again.
    fn known_lengths(&self) -> Result<Vec<FileLength>, AllocError>
        ensures { IfOk result (λ lengths. (name : List ℕ) → length_of lengths.items name
            ≡ length_told (known_at self.now.all name) None) }
    {
        let mut lengths = Vec::new(self.alloc);
        for (name, known) in &self.all {
            let count = known.tail.kept_length(known.count);
            lengths.push(FileLength::new(self.alloc, name.as_bytes(), count)?)?;
        }
        Ok(lengths)
    }
}
