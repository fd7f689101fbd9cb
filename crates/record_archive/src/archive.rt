//! An archive to which records are put.
//!
//! Files of an archive are put on the disk only for a state. Without one the system does it when it likes. With one
//! each file that was added to has to be: those that are kept open when the state is written, each once, and those that
//! were let go before, when that was.
ghost use Rattle.std.specs.Prelude.{◌≡◌, ◌∷◌, [], ℕ, IfOk, List, OnErr, OnOk, false, true};
ghost use Rattle.std.specs.Str.{IsUtf8};
ghost use Rattle.std.specs.Result.{result_ok};
ghost use Rattle.protocol.specs.Record.{header_of};
ghost use Rattle.continued_files.specs.Files.{MakesSafe};
ghost use Rattle.continued_files.specs.Known.{GivesUpOf, kept_by, known_at, length_of, length_told, tail_before};
ghost use Rattle.continued_files.specs.Steps.{GivesUpStep, ReturnsStep, SyncsStep, files_value};
ghost use Rattle.continued_files.specs.Tails.{all_from};
ghost use Rattle.record_archive.specs.Apart.{is_below};
ghost use Rattle.record_archive.specs.Archives.{CountsUnplaced, Fails, HoldsMore, Places};

use crate::folders::Folders;
use crate::path::{below, station_folders};
use crate::placing::{ArchiveFault, Placed, put_record};
use crate::stations::StationCodes;
use crate::streams::KnownStreams;
use continued_files::{ContinuedFiles, FileLength, FolderFault, RecordFiles, ShortFile};
use mseed_header::Header;
use std::alloc::{AllocError, Global};

/// An archive of some stations in folders. A record is put into its file if it is of one of the stations. Memory is
/// taken only for streams of which no record came before, or none of that day.
#[derive(Drop)]
pub struct Archive<F: Folders> {
    folders: F,
    streams: KnownStreams,
    unplaced: u64,
}

impl<F: Folders> Archive<F> {
    /// An archive of these stations in these folders.
    pub fn new(alloc: Global, folders: F, stations: Vec<StationCodes>) -> Archive<F>
        ensures folders { (result.folders ≡ folders) × (result.streams.stations ≡ stations) }
        ensures nothing { result.unplaced ≡ 0 }
    {
        Archive {
            folders,
            streams: KnownStreams::new(alloc, stations),
            unplaced: 0,
        }
    }

    /// Its folders.
    pub fn folders(&self) -> &F
        ensures { result.now ≡ self.now.folders }
    {
        &self.folders
    }

    /// Its folders, for calls that not all folders have.
    pub fn folders_mut(&mut self) -> &mut F
        ensures { result.now ≡ self.old.folders }
    {
        &mut self.folders
    }

    /// Its folders, once no more records come.
    pub fn into_folders(self) -> F
        ensures { result ≡ self.folders }
    {
        self.folders
    }

    /// How many records were put that stand in no file, up to 2^64 - 1.
    pub fn unplaced(&self) -> u64
        ensures { result ≡ self.now.unplaced }
    {
        self.unplaced
    }

    /// Puts a record, of which it is told what it says, if it can be read. One that has no place is counted.
    pub fn put(
        &mut self,
        bytes: &[u8; 512],
        header: &Option<Header<'_>>,
    ) -> Result<(), ArchiveFault>
        requires { header.now ≡ result_ok (header_of bytes.now) }
        ensures put { OnOk result (HoldsMore self.old.streams.stations.items (F.puts self.old.folders)
            (F.puts self.new.folders) (bytes.now ∷ [])) }
        ensures stands { OnOk result (Places self.old.streams.stations.items
            (F.Stands self.old.folders self.new.folders) bytes.now) }
        ensures refused { OnErr result (F.puts self.new.folders ≡ F.puts self.old.folders) }
        ensures fault { Fails (F.failures self.old.folders) (F.failures self.new.folders) result }
        ensures counted { OnOk result
            (CountsUnplaced self.old.streams.stations.items self.old.unplaced self.new.unplaced bytes.now) }
        ensures uncounted { OnErr result (self.new.unplaced ≡ self.old.unplaced) }
        ensures stations { self.new.streams.stations ≡ self.old.streams.stations }
    {
        match put_record(&mut self.folders, &mut self.streams, bytes, header)? {
            Placed::InFile => {}
            Placed::Unplaced => self.unplaced = self.unplaced.saturating_add(1),
        }
        Ok(())
    }
}

impl<F: RecordFiles> Archive<ContinuedFiles<F>> {
    /// Makes all records last that were put so far, and then tells how many records of each file don't come again.
    pub fn last(&mut self) -> Result<Vec<FileLength>, FolderFault>
        ensures safe { OnOk result (MakesSafe (F.records self.new.folders.files) (F.safe self.new.folders.files)) }
        ensures step { OnOk result (SyncsStep (files_value (F.records self.old.folders.files) (F.safe self.old.folders.files)
            self.old.folders.all self.old.folders.named.items self.old.folders.unnamed)
            (files_value (F.records self.new.folders.files) (F.safe self.new.folders.files)
            self.new.folders.all self.new.folders.named.items self.new.folders.unnamed)) }
        ensures lengths { IfOk result (λ lengths. (name : List ℕ) → IsUtf8 name → length_of lengths.items name
            ≡ length_told (known_at self.new.folders.all name) (length_of self.new.folders.named.items name)) }
    {
        self.folders.last()
    }

    /// The numbers of a station went back: from now on all of each file is tail into which records of it are put. If it
    /// fails, nothing changes.
    pub fn return_to_begin(
        &mut self,
        alloc: Global,
        network: &[u8],
        station: &[u8],
    ) -> Result<(), AllocError>
        ensures tails { OnOk result ((name : List ℕ) (count : ℕ) → is_below network.now station.now name ≡ true
            → tail_before (known_at self.new.folders.all name) (kept_by (length_of self.new.folders.named.items name)
            self.new.folders.unnamed count) count ≡ all_from 0 count) }
        ensures others { OnOk result ((name : List ℕ) → is_below network.now station.now name ≡ false
            → (known_at self.new.folders.all name ≡ known_at self.old.folders.all name)
            × (length_of self.new.folders.named.items name ≡ length_of self.old.folders.named.items name)) }
        ensures step { OnOk result (ReturnsStep (files_value (F.records self.old.folders.files) (F.safe self.old.folders.files)
            self.old.folders.all self.old.folders.named.items self.old.folders.unnamed)
            (files_value (F.records self.new.folders.files) (F.safe self.new.folders.files)
            self.new.folders.all self.new.folders.named.items self.new.folders.unnamed) (is_below network.now station.now)) }
        ensures same { (self.new.folders.files ≡ self.old.folders.files) × (self.new.streams ≡ self.old.streams)
            × (self.new.unplaced ≡ self.old.unplaced) }
        ensures refused { OnErr result (self.new ≡ self.old) }
    {
        let text = station_folders(alloc, network, station)?;
        self.folders.return_to_begin(&below(&text));
        Ok(())
    }

    /// No record of a station comes any more that stands in what is left of the tails of its files: that is given up. If
    /// it fails, nothing changes.
    pub fn give_up(
        &mut self,
        alloc: Global,
        network: &[u8],
        station: &[u8],
    ) -> Result<(), AllocError>
        ensures tails { OnOk result
            (GivesUpOf (is_below network.now station.now) self.old.folders.all self.new.folders.all) }
        ensures step { OnOk result (GivesUpStep (files_value (F.records self.old.folders.files) (F.safe self.old.folders.files)
            self.old.folders.all self.old.folders.named.items self.old.folders.unnamed)
            (files_value (F.records self.new.folders.files) (F.safe self.new.folders.files)
            self.new.folders.all self.new.folders.named.items self.new.folders.unnamed) (is_below network.now station.now)) }
        ensures same { (self.new.folders.files ≡ self.old.folders.files) × (self.new.streams ≡ self.old.streams)
            × (self.new.unplaced ≡ self.old.unplaced) }
        ensures refused { OnErr result (self.new ≡ self.old) }
    {
        let text = station_folders(alloc, network, station)?;
        self.folders.give_up(&below(&text));
        Ok(())
    }

    /// Whether the record that was put last into a file stood in what an earlier reader left, and so was passed over.
    pub fn is_passed(&self) -> bool
        ensures { result ≡ self.now.folders.is_passed }
    {
        self.folders.is_passed()
    }

    /// A file that had fewer records than were counted, once: then a state is to be kept at once.
    pub fn take_short(&mut self) -> Option<ShortFile>
        ensures { (self.new.folders.files ≡ self.old.folders.files) × (self.new.streams ≡ self.old.streams)
            × (self.new.unplaced ≡ self.old.unplaced) }
    {
        self.folders.take_short()
    }
}
