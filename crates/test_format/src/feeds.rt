//! Records by the piece.
ghost use Rattle.std.specs.Prelude.{◌<◌};

use crate::worked::round;
use feeder::{FeedCutter, Feeding};
use std::alloc::{AllocError, Global};
use std::test::Fail;

/// Writes down each record that becomes whole in the piece, one behind the other.
fn cut(cutter: &mut FeedCutter, piece: &[u8], records: &mut Vec<u8>) -> Result<(), AllocError> {
    let mut left = piece;
    while !left.is_empty() {
        let Feeding { used, whole } = cutter.feed(left);
        if let Some(record) = whole {
            records.extend_from_slice(record)?;
        }
        left = &left[used..];
    }
    Ok(())
}

/// The records that are cut out of bytes in pieces of a size, and how many bytes rest behind them.
fn cut_in_pieces(alloc: Global, bytes: &[u8], size: usize) -> Result<(Vec<u8>, usize), AllocError>
    requires { 0 < size }
{
    let mut cutter = FeedCutter::new();
    let mut records = Vec::new(alloc);
    for piece in bytes.chunks(size) {
        cut(&mut cutter, piece, &mut records)?;
    }
    Ok((records, cutter.rest()))
}

/// Whether three records are cut out of bytes in pieces of a size, and 100 bytes rest.
fn is_cut(alloc: Global, bytes: &[u8], size: usize) -> Result<bool, AllocError>
    requires { 0 < size }
{
    let (records, rest) = cut_in_pieces(alloc, bytes, size)?;
    Ok(rest == 100 && records.len() == 1_536 && bytes.starts_with(records.as_slice()))
}

static SIZES: [usize; 7] = [1, 7, 511, 512, 513, 1_024, 1_636];

#[test]
fn pieces_do_not_matter(rt: HostRuntime) -> Result<(), Fail> {
    let bytes = round(rt.alloc(), 3 * 512 + 100)?;
    for &size in &SIZES {
        assert!(rt;
            0 < size && is_cut(rt.alloc(), &bytes, size)?,
            "in pieces of {size}"
        );
    }
    Ok(())
}
