//! One file to which records are put.
ghost use Rattle.std.specs.Prelude.{◌≡◌, ◌+◌, ℕ, IfOk, List, OnOk, codes, if◌then◌else◌, length, true};
ghost use Rattle.std.specs.Str.{IsUtf8};
ghost use Rattle.continued_files.specs.Files.{MakesSafe, Tells, TellsSame};
ghost use Rattle.continued_files.specs.Known.{GivesUpOf, kept_by, known_at, length_of, length_told, tail_before};
ghost use Rattle.continued_files.specs.Puts.{StandsAfter};
ghost use Rattle.continued_files.specs.Runs.{AreDistinct, Moment, Numbers, Series, Step, after_renewal, after_return};
ghost use Rattle.continued_files.specs.Steps.{ComesNoMore, HandsStep, IsAt, SyncsStep, files_value};
ghost use Rattle.continued_files.specs.Tails.{TailValue, all_from};

use continued_files::{ContinuedFiles, FileLength, FileNames, FolderFault, RecordFiles, ShortFile};

/// The name of the one file.
pub const ONE_FILE: &str = "-";

/// One file to which records are put. Each stands in it once, though it is handed again to a reader that goes on after
/// one that was stopped.
#[derive(Drop)]
pub struct ContinuedOutput<F: RecordFiles> {
    files: ContinuedFiles<F>,
}

impl<F: RecordFiles> ContinuedOutput<F> {
    /// The file of these that is named `-`.
    pub fn new(files: ContinuedFiles<F>) -> ContinuedOutput<F>
        ensures { result.files ≡ files }
    {
        ContinuedOutput { files }
    }

    /// The files, for calls that not all files have.
    pub fn files_mut(&mut self) -> &mut ContinuedFiles<F>
        ensures { result.now ≡ self.old.files }
    {
        &mut self.files
    }

    /// The files.
    pub fn into_files(self) -> ContinuedFiles<F>
        ensures { result ≡ self.files }
    {
        self.files
    }

    /// Makes all records last that were put so far, and then tells how many of them don't come again.
    pub fn last(&mut self) -> Result<Vec<FileLength>, FolderFault>
        ensures safe { OnOk result (MakesSafe (F.records self.new.files.files) (F.safe self.new.files.files)) }
        ensures step { OnOk result (SyncsStep (files_value (F.records self.old.files.files) (F.safe self.old.files.files)
            self.old.files.all self.old.files.named.items self.old.files.unnamed)
            (files_value (F.records self.new.files.files) (F.safe self.new.files.files)
            self.new.files.all self.new.files.named.items self.new.files.unnamed)) }
        ensures lengths { IfOk result (λ lengths. (name : List ℕ) → IsUtf8 name → length_of lengths.items name
            ≡ length_told (known_at self.new.files.all name) (length_of self.new.files.named.items name)) }
    {
        self.files.last()
    }

    /// Hands a record to the file.
    pub fn put(&mut self, bytes: &[u8; 512]) -> Result<(), FolderFault>
        ensures stands { OnOk result (StandsAfter (codes "-") bytes.now
            (F.records self.old.files.files) (F.records self.new.files.files)) }
        ensures step { OnOk result (HandsStep (files_value (F.records self.old.files.files) (F.safe self.old.files.files)
            self.old.files.all self.old.files.named.items self.old.files.unnamed)
            (files_value (F.records self.new.files.files) (F.safe self.new.files.files)
            self.new.files.all self.new.files.named.items self.new.files.unnamed) (codes "-") bytes.now) }
        ensures safe { TellsSame (F.safe self.old.files.files) (F.safe self.new.files.files) }
        ensures passed { OnOk result ((rs : List (List ℕ)) → Tells (F.records self.old.files.files) (codes "-") rs
            → (rs' : List (List ℕ)) → Tells (F.records self.new.files.files) (codes "-") rs'
            → length rs' ≡ length rs + (if self.new.files.is_passed then 0 else 1)) }
    {
        self.files.hand(ONE_FILE, bytes)
    }

    /// The numbers of a server went back: from now on all of the file is tail.
    pub fn return_to_begin(&mut self)
        ensures tails { (name : List ℕ) (count : ℕ) → tail_before (known_at self.new.files.all name)
            (kept_by (length_of self.new.files.named.items name) self.new.files.unnamed count) count
            ≡ all_from 0 count }
        ensures step { (m : Moment) (name : List ℕ) (comes : Numbers) → IsAt (files_value (F.records self.old.files.files) (F.safe self.old.files.files)
            self.old.files.all self.old.files.named.items self.old.files.unnamed) name m
            → IsAt (files_value (F.records self.new.files.files) (F.safe self.new.files.files)
            self.new.files.all self.new.files.named.items self.new.files.unnamed) name (after_return m comes) }
        ensures same { self.new.files.files ≡ self.old.files.files }
    {
        self.files.return_to_begin(&FileNames::each());
    }

    /// No record comes any more that stands in what is left of the file's tail: that is given up.
    pub fn give_up(&mut self)
        ensures step { (s : Series) (m : Moment) (name : List ℕ) → AreDistinct s
            → IsAt (files_value (F.records self.old.files.files) (F.safe self.old.files.files)
            self.old.files.all self.old.files.named.items self.old.files.unnamed) name m → ComesNoMore s m
            → (tail : TailValue) × Step s m (after_renewal m tail)
            × IsAt (files_value (F.records self.new.files.files) (F.safe self.new.files.files)
            self.new.files.all self.new.files.named.items self.new.files.unnamed) name (after_renewal m tail) }
        ensures tails { GivesUpOf (λ _. true) self.old.files.all self.new.files.all }
        ensures same { self.new.files.files ≡ self.old.files.files }
    {
        self.files.give_up(&FileNames::each());
    }

    /// Whether the record that was put last stood in what an earlier reader left, and so was passed over.
    pub fn is_passed(&self) -> bool
        ensures { result ≡ self.now.files.is_passed }
    {
        self.files.is_passed()
    }

    /// The file, if it had fewer records than were counted, once: then a state is to be kept at once.
    pub fn take_short(&mut self) -> Option<ShortFile>
        ensures { self.new.files.files ≡ self.old.files.files }
    {
        self.files.take_short()
    }
}
