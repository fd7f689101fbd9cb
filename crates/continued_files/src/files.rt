//! Files of records that are known by names.
//!
//! A path is looked at before the first record of each piece that is read from a server, of at most 126 packets, which
//! costs a call of the system a piece. Once a second would leave what comes in between in a file that is gone, while
//! the state counts it.
ghost use Rattle.std.specs.Prelude.{◌≡◌, ◌<◌, ℕ, List, length, IfOk, OnErr, OnOk};
ghost use Rattle.std.specs.declared.option.Option.{Option};
ghost use Rattle.continued_files.specs.Files.{Tells, TellsSame, AddsTo, MakesSafe};
ghost use Rattle.continued_files.specs.Places.{record_at};

/// A folder can't be made, or a file can't be opened or takes no more.
#[derive(Clone, Copy, Drop)]
pub struct FolderFault;

/// Files of records, each known by a name. A file that is not there has no records. Records are read from it and added
/// at its end, and what was added can be made to last. They may tell what stands in them.
pub trait RecordFiles {
    // The records that stand in the file of a name, in order, if they are told.
    ghost records: { Self → List ℕ → Option (List (List ℕ)) };

    // How many of them are sure to stay, whatever happens to the machine, if that is told.
    ghost safe: { Self → List ℕ → Option ℕ };

    /// How many records stand in a file.
    fn count(&mut self, name: &str) -> Result<u64, FolderFault>
        ensures same { TellsSame (records self.old) (records self.new) }
        ensures safe { TellsSame (safe self.old) (safe self.new) }
        ensures count { IfOk result (λ count.
            (rs : List (List ℕ)) → Tells (records self.old) name.now rs → count ≡ length rs) };

    /// Reads the record at a place. It fails where none stands.
    fn read(&mut self, name: &str, place: u64, bytes: &mut [u8; 512]) -> Result<(), FolderFault>
        ensures same { TellsSame (records self.old) (records self.new) }
        ensures safe { TellsSame (safe self.old) (safe self.new) }
        ensures bytes { OnOk result ((rs : List (List ℕ)) → Tells (records self.old) name.now rs
            → (place < length rs) × (bytes.new ≡ record_at rs place)) };

    /// Adds a record at the end of a file, which is made if it is not there. If it fails nothing was added.
    fn add(&mut self, name: &str, bytes: &[u8; 512]) -> Result<(), FolderFault>
        ensures added { OnOk result (AddsTo name.now bytes.now (records self.old) (records self.new)) }
        ensures refused { OnErr result (TellsSame (records self.old) (records self.new)) }
        ensures safe { TellsSame (safe self.old) (safe self.new) };

    /// Whether no file of that name is there any more. It may be said of none.
    fn is_gone(&self, name: &str) -> bool;

    /// Makes all records last that were added so far.
    fn sync(&mut self) -> Result<(), FolderFault>
        ensures same { TellsSame (records self.old) (records self.new) }
        ensures safe { OnOk result (MakesSafe (records self.new) (safe self.new)) };
}
