//! What a server has done so far.
ghost use Rattle.std.specs.Prelude.{◌≡◌, length};
ghost use Rattle.protocol.specs.Catalog.{Config};
ghost use Rattle.protocol.specs.World.{World};
ghost use Rattle.server_core.specs.ServerValues.{StandsAt};
ghost use Rattle.event_loop.specs.Hearing.{clients_in, feeds_in};

use event_loop::Loop;
use ports::Ports;
use std::fmt::{self, Display, Formatter, Write};

/// How many clients and feeds are connected, and how many records arrived and were refused since the server began. The
/// refused ones stay at 2^64 - 1.
#[derive(Clone, Copy, Drop)]
pub struct Activity {
    pub clients: usize,
    pub feeds: usize,
    pub records: u64,
    pub refused: u64,
}

impl Activity {
    /// What a server has done so far.
    pub fn of<P: Ports>(server: &Loop<P>) -> Activity
        ensures clients { result.clients ≡ clients_in server.now.seats }
        ensures feeds { result.feeds ≡ feeds_in server.now.seats }
        ensures records { (config : Config) (w : World) → StandsAt server.now.server config w →
            result.records ≡ length w.history }
        ensures refused { result.refused ≡ server.now.refused }
    {
        Activity {
            clients: server.clients(),
            feeds: server.feeds(),
            records: server.arrivals(),
            refused: server.refused(),
        }
    }
}

impl Display for Activity {
    /// As `clients 3, feeds 1, records 1200, refused 2`.
    fn fmt<W: Write>(&self, f: &mut Formatter<W>) -> fmt::Result {
        let Activity {
            clients,
            feeds,
            records,
            refused,
        } = *self;
        write!(
            f,
            "clients {clients}, feeds {feeds}, records {records}, refused {refused}"
        )
    }
}
