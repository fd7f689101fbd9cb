//! One record that is put into an archive.
ghost use Rattle.std.specs.Prelude.{◌≡◌, ◌∷◌, [], Ok, OnErr, OnOk};
ghost use Rattle.std.specs.Result.{result_ok};
ghost use Rattle.protocol.specs.Record.{header_of};
ghost use Rattle.record_archive.specs.Archives.{Fails, HoldsMore, IsPlaced, IsUnplaced, Places};
ghost use Rattle.record_archive.specs.declared.placing.Placed.TheVariants.{InFile, Unplaced};

use crate::folders::Folders;
use crate::streams::KnownStreams;
use mseed_header::Header;

/// What became of a record.
#[derive(Clone, Copy, Drop)]
pub enum Placed {
    /// It stands at the end of its file.
    InFile,
    /// It stands nowhere: it is not valid, its codes name no place, or it is of a station that is not wanted.
    Unplaced,
}

/// Why a record could not be put into an archive.
#[derive(Clone, Copy, Drop)]
pub enum ArchiveFault {
    /// A folder can't be made, or a file can't be opened or takes no more.
    Folder,
    /// Memory lacks.
    OutOfMemory,
}

/// Puts a record that says this at the end of the file of its stream and of the day in which it starts, if its codes
/// name a place and it is of one of the stations.
fn put_read<F: Folders>(
    folders: &mut F,
    streams: &mut KnownStreams,
    bytes: &[u8; 512],
    header: &Header<'_>,
) -> Result<Placed, ArchiveFault>
    requires { header_of bytes.now ≡ Ok header.now }
    ensures stations { streams.new.stations ≡ streams.old.stations }
    ensures put { OnOk result
        (HoldsMore streams.old.stations.items (F.puts folders.old) (F.puts folders.new) (bytes.now ∷ [])) }
    ensures stands { OnOk result
        (Places streams.old.stations.items (F.Stands folders.old folders.new) bytes.now) }
    ensures placed { result ≡ Ok InFile → IsPlaced streams.old.stations.items bytes.now }
    ensures unplaced { result ≡ Ok Unplaced → IsUnplaced streams.old.stations.items bytes.now }
    ensures refused { OnErr result (F.puts folders.new ≡ F.puts folders.old) }
    ensures fault { Fails (F.failures folders.old) (F.failures folders.new) result }
{
    let at = match streams.find(bytes, header) {
        Ok(Some(at)) => at,
        Ok(None) => return Ok(Placed::Unplaced),
        Err(_) => return Err(ArchiveFault::OutOfMemory),
    };
    match folders.put(streams.at(at).place(), bytes) {
        Ok(()) => Ok(Placed::InFile),
        Err(_) => Err(ArchiveFault::Folder),
    }
}

/// Puts a record at the end of the file of its stream and of the day in which it starts, if it is valid, its codes name
/// a place, and it is of one of the stations. It is told what the record says, if it is valid.
pub(crate) fn put_record<F: Folders>(
    folders: &mut F,
    streams: &mut KnownStreams,
    bytes: &[u8; 512],
    header: &Option<Header<'_>>,
) -> Result<Placed, ArchiveFault>
    requires { header.now ≡ result_ok (header_of bytes.now) }
    ensures stations { streams.new.stations ≡ streams.old.stations }
    ensures put { OnOk result
        (HoldsMore streams.old.stations.items (F.puts folders.old) (F.puts folders.new) (bytes.now ∷ [])) }
    ensures stands { OnOk result
        (Places streams.old.stations.items (F.Stands folders.old folders.new) bytes.now) }
    ensures placed { result ≡ Ok InFile → IsPlaced streams.old.stations.items bytes.now }
    ensures unplaced { result ≡ Ok Unplaced → IsUnplaced streams.old.stations.items bytes.now }
    ensures refused { OnErr result (F.puts folders.new ≡ F.puts folders.old) }
    ensures fault { Fails (F.failures folders.old) (F.failures folders.new) result }
{
    match header {
        Some(header) => put_read(folders, streams, bytes, header),
        None => Ok(Placed::Unplaced),
    }
}
