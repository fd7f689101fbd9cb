//! Folders of files in which readers go on one after the other.
//!
//! They tell nothing by themselves: what they hold is told by the files, as far as those do.
ghost use Rattle.std.specs.Prelude.{◌≡◌, ◌∷◌, ◌++◌, None, OnErr, OnOk};
ghost use Rattle.continued_files.specs.Puts.{StandsAfter};
ghost use Rattle.continued_files.specs.Steps.{HandsStep, files_value};
ghost use Rattle.sl_io.specs.Counts.{CountsFailure};
ghost use Rattle.record_archive.specs.Archives.{PutsNothing, PutsOne, path_of};

use crate::folders::Folders;
use crate::place::Place;
use continued_files::{ContinuedFiles, FolderFault, RecordFiles};

impl<F: RecordFiles> Folders for ContinuedFiles<F> {
    ghost puts = { λ _. None };

    ghost Stands = { λ old new p. StandsAfter (path_of p) p.bytes (F.records old.files) (F.records new.files)
        × HandsStep (files_value (F.records old.files) (F.safe old.files) old.all old.named.items old.unnamed)
        (files_value (F.records new.files) (F.safe new.files) new.all new.named.items new.unnamed) (path_of p) p.bytes };

    ghost failures = { λ c. c.failures };

    fn put(&mut self, place: &Place, bytes: &[u8; 512]) -> Result<(), FolderFault>
        ensures put { OnOk result (PutsOne None None
            (record { folder = place.now.folder; file = place.now.file; bytes = bytes.now })) }
        ensures stands { OnOk result (StandsAfter (place.now.folder ++ 47 ∷ place.now.file) bytes.now
            (F.records self.old.files) (F.records self.new.files)
            × HandsStep (files_value (F.records self.old.files) (F.safe self.old.files) self.old.all
            self.old.named.items self.old.unnamed) (files_value (F.records self.new.files) (F.safe self.new.files)
            self.new.all self.new.named.items self.new.unnamed) (place.now.folder ++ 47 ∷ place.now.file) bytes.now) }
        ensures refused { OnErr result (PutsNothing None None) }
        ensures failure { CountsFailure self.old.failures self.new.failures result }
    {
        self.hand(place.path(), bytes)
    }
}
