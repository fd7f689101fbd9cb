//! How far a dialogue is, and what a call gives.
use crate::fault::ReaderFault;

/// What a reader is sent next.
#[derive(Clone, Copy)]
pub(crate) enum ReaderStage {
    /// The first line that answers HELLO, of which so many bytes came, the last of them CR or not.
    FirstLine {
        count: usize,
        after_cr: bool,
    },
    /// The second.
    SecondLine {
        count: usize,
        after_cr: bool,
    },
    /// The answer to a command of a want, of which so many bytes came, those of ERROR or not.
    Answer {
        want: usize,
        count: usize,
        is_error: bool,
    },
    /// Packets and the end, as far as the cutter read them.
    Transfer,
    /// Nothing that it could read.
    Failed(ReaderFault),
}

/// What became whole. A packet lies in the reader's buffer.
#[derive(Clone, Copy)]
pub(crate) enum StageEvent {
    /// The two lines that answer HELLO.
    Hello,
    /// An ERROR to a command of that want.
    Refused(usize),
    /// A packet.
    Packet,
    /// The end of the transfer.
    End,
}

/// What a piece gives.
#[derive(Clone, Copy)]
pub(crate) struct PieceStep {
    /// How many bytes of it were read.
    pub(crate) used: usize,
    /// What became whole, if anything did.
    pub(crate) event: Option<StageEvent>,
}
