//! Streams of packets by the piece.
ghost use Rattle.std.specs.Prelude.{◌<◌};

use crate::worked::{HEAD, record_of};
use sl_packet::{Cut, Fed, PacketCutter, Seq, frame};
use std::alloc::{AllocError, Global};
use std::test::Fail;

/// What was cut out of pieces.
#[derive(Drop)]
struct Seen {
    /// The packets, one behind the other.
    packets: Vec<u8>,
    count: u32,
    ends: u32,
    faults: u32,
}

impl Seen {
    fn new(alloc: Global) -> Seen {
        Seen {
            packets: Vec::new(alloc),
            count: 0,
            ends: 0,
            faults: 0,
        }
    }

    /// Writes down what the piece gives, up to four packets or ends.
    fn feed(&mut self, cutter: &mut PacketCutter, piece: &[u8]) -> Result<(), AllocError> {
        let mut left = piece;
        for _ in 0..4 {
            match cutter.feed(left) {
                Err(_fault) => {
                    self.faults = self.faults.wrapping_add(1);
                    return Ok(());
                }
                Ok(Fed { used, cut }) => {
                    match cut {
                        Cut::Nothing => {}
                        Cut::Packet(packet) => {
                            self.packets.extend_from_slice(packet)?;
                            self.count = self.count.wrapping_add(1);
                        }
                        Cut::End => self.ends = self.ends.wrapping_add(1),
                    }
                    left = &left[used..];
                }
            }
            if left.is_empty() {
                return Ok(());
            }
        }
        Ok(())
    }
}

/// Three packets, one with digits in lower case, and the end.
fn three_packets(alloc: Global) -> Result<Vec<u8>, AllocError> {
    let mut bytes = Vec::new(alloc);
    for header in [b"SL0000A3", b"SLabcdef", b"SLFFFFFF"] {
        bytes.extend_from_slice(header)?;
        for place in 0..512usize {
            bytes.push((place % 251) as u8)?;
        }
    }
    bytes.extend_from_slice(b"END")?;
    Ok(bytes)
}

/// What is cut out of bytes in pieces of a size, and how many bytes rest behind it.
fn cut_in_pieces(alloc: Global, bytes: &[u8], size: usize) -> Result<(Seen, usize), AllocError>
    requires { 0 < size }
{
    let mut cutter = PacketCutter::new();
    let mut seen = Seen::new(alloc);
    for piece in bytes.chunks(size) {
        seen.feed(&mut cutter, piece)?;
    }
    Ok((seen, cutter.rest()))
}

/// Whether three packets and an end are cut out of bytes in pieces of a size, and nothing rests.
fn is_cut(alloc: Global, bytes: &[u8], size: usize) -> Result<bool, AllocError>
    requires { 0 < size }
{
    let (seen, rest) = cut_in_pieces(alloc, bytes, size)?;
    let are_whole = seen.packets.len() == 1_560 && bytes.starts_with(seen.packets.as_slice());
    Ok(are_whole && (seen.count, seen.ends, seen.faults, rest) == (3, 1, 0, 0))
}

static SIZES: [usize; 6] = [1, 7, 519, 520, 521, 1_563];

#[test]
fn pieces_do_not_matter(rt: HostRuntime) -> Result<(), Fail> {
    let bytes = three_packets(rt.alloc())?;
    for &size in &SIZES {
        assert!(rt;
            0 < size && is_cut(rt.alloc(), &bytes, size)?,
            "in pieces of {size}"
        );
    }
    Ok(())
}

/// Streams in three pieces, and how many ends and faults they give, and how many bytes rest.
static SHORT: [([&[u8]; 3], (u32, u32, usize)); 9] = [
    ([b"EN", b"D", b""], (1, 0, 0)),
    ([b"E", b"N", b"D"], (1, 0, 0)),
    ([b"END", b"", b""], (1, 0, 0)),
    ([b"E", b"N", b""], (0, 0, 2)),
    ([b"S", b"X", b""], (0, 2, 0)),
    ([b"ENDX", b"", b"SL"], (1, 3, 0)),
    ([b"EL", b"", b""], (0, 3, 0)),
    ([b"SL00g", b"SL00000", b""], (0, 3, 0)),
    ([b"SL00f", b"", b"F"], (0, 0, 6)),
];

/// How many ends and faults three pieces give, and how many bytes rest.
fn counts_of(alloc: Global, pieces: [&[u8]; 3]) -> Result<(u32, u32, usize), AllocError> {
    let mut cutter = PacketCutter::new();
    let mut seen = Seen::new(alloc);
    for piece in pieces {
        seen.feed(&mut cutter, piece)?;
    }
    Ok((seen.ends, seen.faults, cutter.rest()))
}

#[test]
fn short_streams_end_or_fail(rt: HostRuntime) -> Result<(), Fail> {
    for (row, &(pieces, counts)) in SHORT.iter().enumerate() {
        assert_eq!(rt; counts_of(rt.alloc(), pieces)?, counts, "at row {row}");
    }
    Ok(())
}

/// Whether the packet of a record has a beginning of its own, and the record after it.
fn is_framed(number: u32, beginning: &[u8], record: &[u8; 512]) -> Option<bool> {
    let packet = frame(Seq::of(number)?, record);
    Some(packet.starts_with(beginning) && packet.ends_with(record))
}

#[test]
fn a_record_is_framed(rt: HostRuntime) {
    assert!(rt; is_framed(163, b"SL0000A3000001D APE", &record_of(&HEAD, &[])) == Some(true));
}
