//! The words of a record that the definitions and the code share.
ghost use Rattle.std.specs.Prelude.{◌≡◌};
ghost use Rattle.protocol.specs.Record.{record_reason};

use crate::reason::Reason;

/// The type of a record, by the letter that a pattern names it with (SeedLink 3, SELECT).
#[derive(Clone, Copy, PartialEq, Eq, Drop)]
pub enum Kind {
    /// Data.
    D,
    /// Event detection.
    E,
    /// Calibration.
    C,
    /// Opaque data.
    O,
    /// Timing.
    T,
    /// Log.
    L,
}

/// The order of the bytes of a record's numbers (SEED Reference Manual 2.4, chapter 8, blockette 1000).
#[derive(Clone, Copy, Drop)]
pub enum ByteOrder {
    /// The high byte first.
    Big,
    /// The low byte first.
    Little,
}

/// Why 512 bytes are no data record (SEED Reference Manual 2.4, chapter 8). A record is refused for the first of these
/// that is true of it.
#[derive(Clone, Copy, Debug, PartialEq, Eq, Drop)]
pub enum RecordFault {
    /// One of the six bytes of the sequence number is no digit, no space and not 0.
    Sequence,
    /// The quality is none of `D`, `R`, `Q` and `M`.
    Quality,
    /// In no order of bytes is there a year of 1900 to 2100 and a day of 1 to 366, or the time is none of a day.
    Time,
    /// An offset of the chain is not above the one before, or a blockette isn't whole within the record.
    Blockettes,
    /// The chain has no blockette 1000.
    No1000,
    /// The first blockette 1000 gives another length than 2^9 bytes.
    Length,
}

impl RecordFault {
    /// The reason by which the program reports it: 1 to 6.
    pub fn reason(self) -> Reason
        ensures { result ≡ record_reason self }
    {
        match self {
            RecordFault::Sequence => Reason::Sequence,
            RecordFault::Quality => Reason::Quality,
            RecordFault::Time => Reason::Time,
            RecordFault::Blockettes => Reason::Blockettes,
            RecordFault::No1000 => Reason::No1000,
            RecordFault::Length => Reason::Length,
        }
    }
}
