//! Where the files of an archive lie.
ghost use Rattle.std.specs.Prelude.{◌≡◌, ℕ, List, OnErr, OnOk};
ghost use Rattle.std.specs.declared.option.Option.{Option};
ghost use Rattle.sl_io.specs.Counts.{CountsFailure};
ghost use Rattle.record_archive.specs.Archives.{Put, PutsNothing, PutsOne};

use crate::place::Place;
use continued_files::FolderFault;

/// Folders with files, to which records are added. They may tell what was put into them. The count of failures is a
/// number below 2^64 that goes on at 0 after 2^64 - 1: a call fails only with one failure more.
pub trait Folders {
    // All records that were put, in order, if they are told.
    ghost puts: { Self → Option (List Put) };

    // What else is known once a record was put.
    ghost Stands: { Self → Self → Put → Type 0 };

    // How many calls failed.
    ghost failures: { Self → ℕ };

    /// Puts the bytes of a record at the end of a file in a folder, both of which are made if they are not there. A put
    /// that fails puts nothing.
    fn put(&mut self, place: &Place, bytes: &[u8; 512]) -> Result<(), FolderFault>
        ensures put { OnOk result (PutsOne (puts self.old) (puts self.new)
            (record { folder = place.now.folder; file = place.now.file; bytes = bytes.now })) }
        ensures stands { OnOk result (Stands self.old self.new
            (record { folder = place.now.folder; file = place.now.file; bytes = bytes.now })) }
        ensures refused { OnErr result (PutsNothing (puts self.old) (puts self.new)) }
        ensures failure { CountsFailure (failures self.old) (failures self.new) result };
}
