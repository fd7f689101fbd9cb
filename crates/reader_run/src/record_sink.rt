//! What takes the records of packets.
ghost use Rattle.std.specs.Prelude.{◌≡◌, ◌++◌, List, ℕ, IfErr, OnErr, OnOk, []};
ghost use Rattle.std.specs.declared.option.Option.{Option};
ghost use Rattle.std.specs.Io.KnownBytes.{Appends};
ghost use Rattle.sl_io.specs.Counts.{StopsWriting};
ghost use Rattle.sl_io.specs.Known.{AppendsBeginning};
ghost use Rattle.reader_run.specs.Lines.{record_of};
ghost use Rattle.reader_run.specs.Stops.{IsQuiet};
ghost use Rattle.reader_run.specs.Takes.{StopsTake};

use sl_io::WriteFault;
use slreader::GivenPacket;

/// Why a record was not taken.
#[derive(Clone, Copy, Drop)]
pub enum SinkFault {
    /// There was no memory for it. Those that were taken before wait as they did.
    OutOfMemory,
    /// Not all of it, and of those that waited, could be written.
    Write,
}

/// What takes the records of packets, each with what it says. A record may be written at once, or wait until all that
/// wait are handed on. The counts are numbers below 2^64 that go on at 0 after 2^64 - 1.
pub trait RecordSink {
    // The bytes of the records that were written, if they are told.
    ghost written: { Self → Option (List ℕ) };

    // These bytes of records may be said to wait.
    ghost Waits: { Self → List ℕ → Type 0 };

    // How many writes failed.
    ghost failures: { Self → ℕ };

    // How many writes took no byte of some bytes.
    ghost empty_writes: { Self → ℕ };

    /// Records of a piece that was read come next. None waits any more.
    fn begin(&mut self)
        ensures waits { Waits self.new [] }
        ensures written { written self.new ≡ written self.old }
        ensures failures { failures self.new ≡ failures self.old }
        ensures empty { empty_writes self.new ≡ empty_writes self.old };

    /// The server refuses a want, by its place among all wants: no record comes of it.
    fn refuse(&mut self, want: usize)
        ensures waits { (records : List ℕ) → Waits self.old records → Waits self.new records }
        ensures written { written self.new ≡ written self.old }
        ensures failures { failures self.new ≡ failures self.old }
        ensures empty { empty_writes self.new ≡ empty_writes self.old };

    /// Puts the record of a packet where it belongs.
    fn put(&mut self, packet: &GivenPacket<'_>) -> Result<(), SinkFault>
        ensures waits { OnOk result ((records : List ℕ) → Waits self.old records
            → Waits self.new (records ++ record_of packet.now)) }
        ensures written { OnOk result (written self.new ≡ written self.old) }
        ensures quiet { OnOk result (IsQuiet (failures self.old) (failures self.new)
            (empty_writes self.old) (empty_writes self.new)) }
        ensures stopped { IfErr result (λ fault. StopsTake fault (Waits self.old) (Waits self.new)
            (record_of packet.now) (written self.old) (written self.new) (failures self.old) (failures self.new)
            (empty_writes self.old) (empty_writes self.new)) };

    /// Writes all records that wait. None waits any more then.
    fn hand_on(&mut self) -> Result<(), WriteFault>
        ensures waits { OnOk result (Waits self.new []) }
        ensures written { OnOk result ((records : List ℕ) → Waits self.old records
            → Appends (written self.old) (written self.new) records) }
        ensures quiet { OnOk result (IsQuiet (failures self.old) (failures self.new)
            (empty_writes self.old) (empty_writes self.new)) }
        ensures begun { OnErr result ((records : List ℕ) → Waits self.old records
            → AppendsBeginning (written self.old) (written self.new) records) }
        ensures stopped { OnErr result (StopsWriting (failures self.old) (failures self.new)
            (empty_writes self.old) (empty_writes self.new)) };
}
