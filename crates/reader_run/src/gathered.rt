//! Records that wait in one block of memory.
ghost use Rattle.std.specs.Prelude.{◌≡◌, []};

use crate::record_sink::{RecordSink, SinkFault};
use sl_io::{Sink, WriteFault, write_all};
use slreader::GivenPacket;
use std::alloc::Global;

/// Records whose bytes are written to a writer, all that a piece gives at once.
#[derive(Drop)]
pub struct Gathered<S> {
    sink: S,
    records: Vec<u8>,
}

impl<S> Gathered<S> {
    /// No record waits.
    pub fn new(alloc: Global, sink: S) -> Gathered<S>
        ensures { (result.sink ≡ sink) × (result.records.items ≡ []) }
    {
        Gathered {
            sink,
            records: Vec::new(alloc),
        }
    }

    /// The writer.
    pub fn sink(&self) -> &S
        ensures { result.now ≡ self.now.sink }
    {
        &self.sink
    }

    /// The writer, once no more records come.
    pub fn into_sink(self) -> S
        ensures { result ≡ self.sink }
    {
        self.sink
    }
}

impl<S: Sink> RecordSink for Gathered<S> {
    ghost written = { λ g. S.written g.sink };

    ghost Waits = { λ g records. g.records.items ≡ records };

    ghost failures = { λ g. S.failures g.sink };

    ghost empty_writes = { λ g. S.empty_writes g.sink };

    fn begin(&mut self) {
        self.records.clear();
    }

    fn refuse(&mut self, _want: usize) {}

    fn put(&mut self, packet: &GivenPacket<'_>) -> Result<(), SinkFault> {
        match self.records.extend_from_slice(packet.record()) {
            Ok(()) => Ok(()),
            Err(_) => Err(SinkFault::OutOfMemory),
        }
    }

    fn hand_on(&mut self) -> Result<(), WriteFault> {
        write_all(&mut self.sink, &self.records)?;
        self.records.clear();
        Ok(())
    }
}
