//! What one port gave and took.
ghost use Rattle.std.specs.Prelude.{◌≡◌, ◌<◌, ◌≤◌, OnOk, IfOk, map, length};
ghost use Rattle.memory_ports.specs.Made.{gave_value, made_value};
ghost use Rattle.memory_ports.specs.Records.{fresh, with_read, with_write, with_call, port_record, record_value};

use crate::memory_ports::log::{Gave, Made};
use ports::{PortFault, Put};
use std::alloc::{AllocError, Global};

/// What one port gave and took so far.
#[derive(Drop)]
pub struct PortRecord {
    /// The bytes that its reads gave.
    pub given: Vec<u8>,
    /// The bytes that it took of its writes.
    pub taken: Vec<u8>,
    /// Whether it was shut.
    pub is_shut: bool,
}

impl PortRecord {
    // A record of a port at which no call was made.
    fn new(alloc: Global) -> PortRecord
        ensures { record_value result ≡ fresh }
    {
        PortRecord {
            given: Vec::new(alloc),
            taken: Vec::new(alloc),
            is_shut: false,
        }
    }

    // A read of the port.
    fn read(&mut self, gave: &Gave) -> Result<(), AllocError>
        ensures { OnOk result (record_value self.new ≡ with_read (record_value self.old) (gave_value gave.now)) }
    {
        if let Gave::Piece(bytes) = gave {
            self.given.extend_from_slice(bytes.as_slice())?;
        }
        Ok(())
    }

    // A write to the port.
    fn write(&mut self, bytes: &[u8], answer: Result<Put, PortFault>) -> Result<(), AllocError>
        ensures { OnOk result (record_value self.new ≡ with_write (record_value self.old) bytes.now answer) }
    {
        if let Ok(Put::Took(count)) = answer {
            self.taken
                .extend_from_slice(&bytes[..count.min(bytes.len())])?;
        }
        Ok(())
    }

    // A call, if it is one of the port.
    fn call(&mut self, port: u64, made: &Made) -> Result<(), AllocError>
        ensures { OnOk result (record_value self.new ≡ with_call port (record_value self.old) (made_value made.now)) }
    {
        match made {
            Made::Next(_) => Ok(()),
            Made::Read(other, _, gave) => {
                if *other == port {
                    self.read(gave)
                } else {
                    Ok(())
                }
            }
            Made::Write(other, bytes, answer) => {
                if *other == port {
                    self.write(bytes.as_slice(), *answer)
                } else {
                    Ok(())
                }
            }
            Made::Shut(other) => {
                if *other == port {
                    self.is_shut = true;
                }
                Ok(())
            }
        }
    }
}

/// The record of a port, by all calls. It fails only for want of memory.
pub fn record_of(alloc: Global, calls: &[Made], port: u64) -> Result<PortRecord, AllocError>
    ensures { IfOk result (λ r. record_value r ≡ port_record port (map made_value calls.now)) }
{
    let mut record = PortRecord::new(alloc);
    for made in calls {
        record.call(port, made)?;
    }
    Ok(record)
}
