//! Folders in memory.
ghost use Rattle.std.specs.Prelude.{◌≡◌, ◌++◌, ◌∷◌, [], map, OnErr, OnOk, Some};
ghost use Rattle.sl_io.specs.Counts.{CountsFailure};
ghost use Rattle.record_archive.specs.Archives.{Put, PutsNothing, PutsOne};
ghost use Rattle.memory_doubles.specs.Stores.{stored};

use continued_files::FolderFault;
use record_archive::{Folders, Place};
use std::alloc::{AllocError, Global};

/// A record that was put, and where.
#[derive(Drop)]
pub struct Stored {
    pub folder: Vec<u8>,
    pub file: Vec<u8>,
    pub bytes: [u8; 512],
}

/// Folders in memory, which tell what was put. A put for which there is no memory fails.
#[derive(Drop)]
pub struct MemoryFolders {
    alloc: Global,
    all: Vec<Stored>,
    failures: u64,
}

impl MemoryFolders {
    /// Nothing was put.
    pub fn new(alloc: Global) -> MemoryFolders
        ensures { result.all.items ≡ [] }
    {
        MemoryFolders {
            alloc,
            all: Vec::new(alloc),
            failures: 0,
        }
    }

    /// All records that were put, in order.
    pub fn all(&self) -> &[Stored]
        ensures { result.now ≡ self.now.all.items }
    {
        self.all.as_slice()
    }

    /// Keeps one more, or none.
    fn store(&mut self, folder: &[u8], file: &[u8], bytes: &[u8; 512]) -> Result<(), AllocError>
        ensures kept { OnOk result (map stored self.new.all.items ≡ map stored self.old.all.items
            ++ record { folder = folder.now; file = file.now; bytes = bytes.now } ∷ []) }
        ensures same { OnErr result (self.new.all.items ≡ self.old.all.items) }
        ensures failures { self.new.failures ≡ self.old.failures }
    {
        let stored = Stored {
            folder: Vec::from_slice(self.alloc, folder)?,
            file: Vec::from_slice(self.alloc, file)?,
            bytes: *bytes,
        };
        self.all.push(stored)?;
        Ok(())
    }
}

impl Folders for MemoryFolders {
    ghost puts = { λ f. Some (map stored f.all.items) };

    ghost Stands = { λ _ _ _. Unit {0} };

    ghost failures = { λ f. f.failures };

    fn put(&mut self, place: &Place, bytes: &[u8; 512]) -> Result<(), FolderFault>
        ensures put { OnOk result
            (PutsOne (Some (map stored self.old.all.items)) (Some (map stored self.new.all.items))
            (record { folder = place.now.folder; file = place.now.file; bytes = bytes.now })) }
        ensures refused { OnErr result
            (PutsNothing (Some (map stored self.old.all.items)) (Some (map stored self.new.all.items))) }
        ensures failure { CountsFailure self.old.failures self.new.failures result }
    {
        match self.store(place.folder(), place.file(), bytes) {
            Ok(()) => Ok(()),
            Err(_) => {
                self.failures = self.failures.wrapping_add(1);
                Err(FolderFault)
            }
        }
    }
}
