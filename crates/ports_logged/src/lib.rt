//! Ports over ports that note who comes and goes: each call is passed on as it is, and what is decided of a port is
//! noted in a journal. A visit is a connection's, from its join to its end.
//!
//! What is noted is a function of what is decided, of the bytes that go over the ports, of the connections that the
//! inner ports turned away themselves, and of the addresses from which connections came. Nothing is allocated once the
//! ports are made. Left out: when something is noted.
#![tactic(auto)]

ghost use Rattle.std.specs.Prelude.{ℕ, ◌≡◌, ◌∷◌, [], Bool, List};
ghost use Rattle.std.specs.declared.option.Option.{Option};
ghost use Rattle.std.specs.declared.net.ipv4_addr.Ipv4Addr.{Ipv4Addr};
ghost use Rattle.ports_logged.specs.declared.visit.Away.{Away};
ghost use Rattle.ports_logged.specs.declared.visit.Sent.{Sent};
ghost use Rattle.ports_logged.specs.declared.visit.Visit.{Visit};
ghost use Rattle.ports_logged.specs.Visits.{Notes, Passes};

mod logging;
mod traffic;
mod visit;
mod visitor;
mod visitors;

pub use logging::LoggedPorts;
use ports::Ports;
use std::net::Ipv4Addr;
pub use visit::{Away, Sent, ShownCodes, Visit};

/// Ports that know from where connections come, and that may turn some away before they join.
pub trait Doors: Ports {
    // The connections that the last `next` turned away, in order.
    ghost turned_away: { Self → List Away };

    // The address of an open port.
    ghost address: { Self → ℕ → Ipv4Addr };

    /// The connections that the last `next` turned away, in order: they joined no port.
    fn turned_away(&self) -> &[Away]
        ensures { result.now ≡ turned_away self.now };

    /// The address from which an open port's connection came; any address if no such port is open.
    fn address(&self, port: u64) -> Ipv4Addr
        ensures { result ≡ address self.now port };
}

/// Whoever is told of visits, and of what ports take.
pub trait Journal {
    // All visits that were noted, if the journal tells them.
    ghost noted: { Self → Option (List Visit) };

    // What ports took, a call after the other, if the journal tells it.
    ghost passed: { Self → Option (List Sent) };

    // Whether it wants to hear of the stations that clients ask for.
    ghost listening: { Self → Bool };

    /// Notes what happened of a visit.
    fn note(&mut self, visit: Visit)
        ensures notes { Notes (noted self.old) (noted self.new) (visit ∷ []) }
        ensures passed { passed self.new ≡ passed self.old };

    /// A port was written to, or handed pieces, and took so many bytes.
    fn took(&mut self, sent: Sent)
        ensures notes { noted self.new ≡ noted self.old }
        ensures passed { Passes (passed self.old) (passed self.new) (sent ∷ []) };

    /// Whether it wants to hear of the stations that clients ask for.
    fn listens(&self) -> bool
        ensures { result ≡ listening self.now };

    /// The ports have said what happened, for which they may have waited. The time, in milliseconds since the server
    /// began, if the journal looks at a clock, and else any.
    fn heard(&mut self) -> u64
        ensures notes { noted self.new ≡ noted self.old }
        ensures passed { passed self.new ≡ passed self.old };
}
