//! Servers in memory.
ghost use Rattle.std.specs.Prelude.{◌≡◌, Some, [], ◌∷◌};
ghost use Rattle.reader_run.specs.Keeping.{Tells};
ghost use Rattle.memory_doubles.specs.MemoryCalls.{called_value, told};

use reader_run::{ListingFault, Servers};
use sl_io::{MemorySink, MemorySource};
use std::alloc::Global;

/// How many bytes a read gives at most.
const PIECE: usize = 700;

/// No server is left.
#[derive(Clone, Copy, Debug, PartialEq, Eq, Drop)]
pub struct NoServer;

/// A call of servers in memory.
#[derive(Drop)]
pub enum Called<'a> {
    /// A connection was made, to a server that sends these bytes.
    Connected(&'a [u8]),
    /// No server was left.
    Failed(NoServer),
    /// A connection ended for that reason.
    PassedOver(ListingFault, MemorySource<'a>, MemorySink),
    /// A connection is over.
    Closed(MemorySource<'a>, MemorySink),
}

/// Servers in memory, of which each sends some bytes, whatever it is asked. They tell each call. Once there was no
/// memory to tell of a call, they tell nothing more.
#[derive(Drop)]
pub struct MemoryServers<'a> {
    alloc: Global,
    sent: &'a [Vec<u8>],
    at: usize,
    called: Vec<Called<'a>>,
    lost: bool,
}

impl<'a> MemoryServers<'a> {
    /// Servers that send these bytes, one after the other.
    pub fn new(alloc: Global, sent: &'a [Vec<u8>]) -> MemoryServers<'a>
        ensures { told result ≡ Some [] }
    {
        MemoryServers {
            alloc,
            sent,
            at: 0,
            called: Vec::new(alloc),
            lost: false,
        }
    }

    /// All calls, in order.
    pub fn called(&self) -> &[Called<'a>]
        ensures { result.now ≡ self.now.called.items }
    {
        self.called.as_slice()
    }

    // What the next server sends.
    fn next_sent(&mut self) -> Option<&'a [u8]>
        ensures { told self.new ≡ told self.old }
    {
        let sent = self.sent.get(self.at)?;
        self.at = self.at.wrapping_add(1);
        Some(sent.as_slice())
    }

    // One call more.
    fn remember(&mut self, called: Called<'a>)
        ensures { Tells (told self.old) (told self.new) (called_value called.entry ∷ []) }
    {
        if self.called.push(called).is_err() {
            self.lost = true;
        }
    }
}

impl<'a> Servers for MemoryServers<'a> {
    type Reader = MemorySource<'a>;

    type Writer = MemorySink;

    type Fault = NoServer;

    ghost told = { λ s. told s };

    fn connect(&mut self) -> Result<(MemorySource<'a>, MemorySink), NoServer> {
        match self.next_sent() {
            Some(sent) => {
                self.remember(Called::Connected(sent));
                Ok((
                    MemorySource::in_pieces(sent, PIECE),
                    MemorySink::new(self.alloc),
                ))
            }
            None => {
                self.remember(Called::Failed(NoServer));
                Err(NoServer)
            }
        }
    }

    fn pass_over(
        &mut self,
        fault: ListingFault,
        reader: MemorySource<'a>,
        writer: MemorySink,
    ) -> Result<(), NoServer> {
        self.remember(Called::PassedOver(fault, reader, writer));
        Ok(())
    }

    fn close(&mut self, reader: MemorySource<'a>, writer: MemorySink) {
        self.remember(Called::Closed(reader, writer));
    }
}
