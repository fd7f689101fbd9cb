//! A file of records that is open.
use protocol::limits::RECORD;
use std::cell::Cell;
use std::fs::{self, File, Metadata};
use std::io::{self, ErrorKind, Write};
use std::os::unix::fs::{FileExt, MetadataExt};

/// Which file it is, of those of the machine: its device, and its number there.
pub(crate) type Identity = (u64, u64);

/// Which file that is.
pub(crate) fn identity_of(metadata: &Metadata) -> Identity {
    (metadata.dev(), metadata.ino())
}

/// A file of records that is open.
#[derive(Drop)]
pub(crate) struct OpenFile {
    file: File,
    identity: Identity,
    /// Its length in bytes.
    length: u64,
    /// Whether something was added that the system was not asked to put on the disk.
    is_unsynced: Cell<bool>,
    /// When something was added last, in milliseconds.
    written: u64,
    /// In which piece it was looked whether its path still names it.
    seen: u64,
}

/// Has the system put on the disk what was added to a file. One that lies on no disk has no need of it.
fn synced(file: &File) -> io::Result<()> {
    match file.sync_data() {
        Err(reason) if reason.kind() != ErrorKind::InvalidInput => Err(reason),
        _ => Ok(()),
    }
}

/// The bytes of a file from one place up to another are put at the end of another file, and then cut off. There are
/// fewer than 512.
pub(crate) fn move_end(file: &mut File, other: &mut File, from: u64, to: u64) -> io::Result<()> {
    let mut bytes = [0u8; 512];
    let count = usize::try_from(to.saturating_sub(from))
        .unwrap_or(0)
        .min(512);
    file.read_exact_at(&mut bytes[..count], from)?;
    other.write_all(&bytes[..count])?;
    other.sync_all()?;
    file.set_len(from)
}

impl OpenFile {
    /// A file that was opened at a moment, in a piece.
    pub(crate) fn new(file: File, now: u64, piece: u64) -> io::Result<OpenFile> {
        let metadata = file.metadata()?;
        Ok(OpenFile {
            file,
            identity: identity_of(&metadata),
            length: metadata.len(),
            is_unsynced: Cell::new(false),
            written: now,
            seen: piece,
        })
    }

    /// Whether it is that file.
    pub(crate) fn is_at(&self, identity: Identity) -> bool {
        self.identity.0 == identity.0 && self.identity.1 == identity.1
    }

    /// How many records stand in it, if its path was seen to name it in this piece.
    pub(crate) fn count_in(&self, piece: u64) -> Option<u64> {
        if self.seen == piece {
            Some(self.length / RECORD as u64)
        } else {
            None
        }
    }

    /// Its path names it in this piece, and it has that length.
    pub(crate) fn confirm(&mut self, piece: u64, length: u64) {
        self.seen = piece;
        self.length = length;
    }

    /// Whether nothing was added for so many milliseconds.
    pub(crate) fn is_idle(&self, now: u64, time: u64) -> bool {
        now.saturating_sub(self.written) >= time
    }

    /// Reads the record at a place.
    pub(crate) fn read(&self, place: u64, bytes: &mut [u8; 512]) -> io::Result<()> {
        match place.checked_mul(RECORD as u64) {
            Some(offset) => self.file.read_exact_at(bytes, offset),
            None => Err(io::Error::from(ErrorKind::InvalidInput)),
        }
    }

    /// Adds a record at the end, or nothing: what was written of one that the file didn't take whole is cut off again.
    pub(crate) fn add(&mut self, bytes: &[u8; 512], now: u64) -> io::Result<()> {
        self.is_unsynced.set(true);
        self.written = now;
        match self.file.write_all(bytes) {
            Ok(()) => {
                self.length = self.length.saturating_add(RECORD as u64);
                Ok(())
            }
            Err(reason) => {
                let _ = self.file.set_len(self.length);
                Err(reason)
            }
        }
    }

    /// Has the system put on the disk what was added.
    pub(crate) fn sync(&self) -> io::Result<()> {
        if self.is_unsynced.get() {
            synced(&self.file)?;
            self.is_unsynced.set(false);
        }
        Ok(())
    }
}
