//! Packets of a transfer.
//!
//! A packet is copied to a buffer of the reader before it is lent, whether it came in one piece or in several. So what
//! a call lends borrows from the reader alone, and not from the piece.
ghost use Rattle.std.specs.Prelude.{◌≡◌, ◌≢◌, ◌≤◌, IfOk, OnOk, length};
ghost use Rattle.sl_packet.specs.Progress.Progress.{Faulty};
ghost use Rattle.slreader.specs.Dialogue.{ReaderValue, at_stage, read_first};
ghost use Rattle.slreader.specs.ReaderViews.{transfer_stage};
ghost use Rattle.slreader.specs.Reads.{cut_first};

use crate::stage::{PieceStep, StageEvent};
use sl_packet::{Cut, NotAPacket, PacketCutter};

/// Reads packets and the end, and copies the packet that becomes whole.
pub(crate) fn read_packet(
    cutter: &mut PacketCutter,
    piece: &[u8],
    packet: &mut [u8; 520],
) -> Result<PieceStep, NotAPacket>
    ensures first { (r : ReaderValue) → read_first (at_stage r (transfer_stage cutter.old)) piece.now
        ≡ cut_first r piece.now result cutter.new packet.new }
    ensures sound { OnOk result (cutter.new ≢ Faulty) }
    ensures within { IfOk result (λ step. step.used ≤ length piece.now) }
{
    let fed = cutter.feed(piece)?;
    match fed.cut {
        Cut::Nothing => Ok(PieceStep {
            used: fed.used,
            event: None,
        }),
        Cut::Packet(whole) => {
            packet.copy_from_slice(whole);
            Ok(PieceStep {
                used: fed.used,
                event: Some(StageEvent::Packet),
            })
        }
        Cut::End => Ok(PieceStep {
            used: fed.used,
            event: Some(StageEvent::End),
        }),
    }
}
