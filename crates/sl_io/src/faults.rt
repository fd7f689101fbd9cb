//! Why a read or a write was refused, and why bytes didn't get from an input to an output.
ghost use Rattle.std.specs.Prelude.{◌≡◌, codes};
ghost use Rattle.sl_io.specs.Faults.{read_reason, stream_reason};
ghost use Rattle.sl_io.specs.Faults.{stream_of};
ghost use Rattle.sl_io.specs.declared.faults.StreamFault.TheVariants.{OutOfMemory, Write};

use protocol::reason::Reason;
use std::alloc::AllocError;

/// One read or write failed.
#[derive(Clone, Copy, PartialEq, Eq, Drop)]
pub struct DeviceFault;

impl DeviceFault {
    /// The reason by which the program reports it: 48 Device.
    pub fn reason(self) -> Reason
        ensures { result ≡ Reason.Device }
    {
        Reason::Device
    }
}

/// Why an input was not read to its end.
#[derive(Clone, Copy, Debug, PartialEq, Eq, Drop)]
pub enum ReadFault {
    /// There was no memory for its bytes.
    OutOfMemory,
    /// A read failed, or 2^64 - 1 reads were made.
    Read,
}

impl ReadFault {
    /// The reason by which the program reports it: 25 or 42.
    pub fn reason(self) -> Reason
        ensures { result ≡ read_reason self }
    {
        match self {
            ReadFault::OutOfMemory => Reason::OutOfMemory,
            ReadFault::Read => Reason::Read,
        }
    }
}

/// Not all bytes were written: a write failed, or took none of the bytes that were left.
#[derive(Clone, Copy, Debug, PartialEq, Eq, Drop)]
pub struct WriteFault;

impl WriteFault {
    /// The reason by which the program reports it: 43 Write.
    pub fn reason(self) -> Reason
        ensures { result ≡ Reason.Write }
    {
        Reason::Write
    }
}

/// Why an input was not read to its end, or why not all that it gives was written.
#[derive(Clone, Copy, Debug, PartialEq, Eq, Drop)]
pub enum StreamFault {
    /// There was no memory for what was read, or for what it gives.
    OutOfMemory,
    /// A read failed, or 2^64 - 1 reads were made.
    Read,
    /// A write failed, or took none of the bytes that were left.
    Write,
}

impl StreamFault {
    /// The reason by which the program reports it: 25, 42 or 43.
    pub fn reason(self) -> Reason
        ensures { result ≡ stream_reason self }
    {
        match self {
            StreamFault::OutOfMemory => Reason::OutOfMemory,
            StreamFault::Read => Reason::Read,
            StreamFault::Write => Reason::Write,
        }
    }
}

impl From<ReadFault> for StreamFault {
    ghost from_gives = { λ fault stream. stream ≡ stream_of fault };

    fn from(fault: ReadFault) -> StreamFault {
        match fault {
            ReadFault::OutOfMemory => StreamFault::OutOfMemory,
            ReadFault::Read => StreamFault::Read,
        }
    }
}

impl From<WriteFault> for StreamFault {
    ghost from_gives = { λ _ stream. stream ≡ Write };

    fn from(_fault: WriteFault) -> StreamFault {
        StreamFault::Write
    }
}

impl From<AllocError> for StreamFault {
    ghost from_gives = { λ _ stream. stream ≡ OutOfMemory };

    fn from(_error: AllocError) -> StreamFault {
        StreamFault::OutOfMemory
    }
}
