//! A writer of nothing.
ghost use Rattle.std.specs.Prelude.{None};

use crate::record_sink::{RecordSink, SinkFault};
use sl_io::{DeviceFault, Sink, WriteFault};
use slreader::GivenPacket;

/// A writer that takes all bytes and keeps none, for records that nobody wants.
#[derive(Drop)]
pub struct Nowhere {
    calls: u64,
}

impl Nowhere {
    /// A writer of nothing.
    pub fn new() -> Nowhere {
        Nowhere { calls: 0 }
    }
}

impl Sink for Nowhere {
    ghost written = { λ _. None };

    ghost failures = { λ _. 0 };

    ghost calls = { λ s. s.calls };

    ghost empty_writes = { λ _. 0 };

    fn write(&mut self, bytes: &[u8]) -> Result<usize, DeviceFault> {
        self.calls = self.calls.wrapping_add(1);
        Ok(bytes.len())
    }
}

/// Records that nobody wants are passed over.
impl RecordSink for Nowhere {
    ghost written = { λ _. None };

    ghost Waits = { λ _ _. Unit {0} };

    ghost failures = { λ _. 0 };

    ghost empty_writes = { λ _. 0 };

    fn begin(&mut self) {}

    fn refuse(&mut self, _want: usize) {}

    fn put(&mut self, _packet: &GivenPacket<'_>) -> Result<(), SinkFault> {
        Ok(())
    }

    fn hand_on(&mut self) -> Result<(), WriteFault> {
        Ok(())
    }
}
