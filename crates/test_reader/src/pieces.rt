//! Pieces of what servers send and of what readers ask and write; and wants by their words.
use mseed_header::FieldFault;
use slreader::{Want, Window};
use std::alloc::Global;
use std::test::Fail;
use test_centre::{RecordOf, made};

/// Records that the server holds, without a begin.
pub const HELD: Window<'static> = Window::Held { begin: None };

/// Records as they come, without a begin.
pub const FROM_NOW_ON: Window<'static> = Window::Following { begin: None };

/// A piece of some bytes.
#[derive(Drop)]
pub enum Piece {
    /// Bytes as they stand.
    Bytes(&'static [u8]),
    /// The record of GE and a station that starts at a second.
    Record(&'static [u8], u8),
}

/// The first record of GE WLF, and that of GE APE.
pub const WLF: Piece = Piece::Record(b"WLF", 0);

pub const APE: Piece = Piece::Record(b"APE", 0);

/// A record of GE and a station, with 100 samples, that starts at a second.
pub fn record_of(station: &[u8], second: u8) -> Result<[u8; 512], FieldFault> {
    made(&RecordOf {
        second,
        ..RecordOf::station(b"GE", station)
    })
}

/// All bytes of some pieces.
pub fn joined(alloc: Global, pieces: &[Piece]) -> Result<Vec<u8>, Fail> {
    let mut all = Vec::new(alloc);
    for piece in pieces {
        match piece {
            Piece::Bytes(bytes) => all.extend_from_slice(bytes)?,
            Piece::Record(station, second) => all.extend_from_slice(&record_of(station, *second)?)?,
        }
    }
    Ok(all)
}

/// What comes after a piece; None if these bytes don't begin with it.
fn after<'a>(bytes: &'a [u8], piece: &Piece) -> Option<&'a [u8]> {
    match piece {
        Piece::Bytes(piece) => bytes.strip_prefix(*piece),
        Piece::Record(station, second) => match record_of(station, *second) {
            Ok(record) => bytes.strip_prefix(record.as_slice()),
            Err(_) => None,
        },
    }
}

/// Whether these bytes are those pieces.
pub fn are_pieces(bytes: &[u8], pieces: &[Piece]) -> bool {
    let mut left = bytes;
    for piece in pieces {
        match after(left, piece) {
            Some(rest) => left = rest,
            None => return false,
        }
    }
    left.is_empty()
}

/// The wants of some words.
pub fn wants_of(
    alloc: Global,
    words: &[&'static [u8]],
    window: Window<'static>,
) -> Result<Vec<Want<'static>>, Fail> {
    let mut wants = Vec::new(alloc);
    for word in words {
        wants.push(Want::parse(alloc, word, window)?)?;
    }
    Ok(wants)
}
