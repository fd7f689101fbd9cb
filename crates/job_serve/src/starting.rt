//! What is told of a server that starts, and of a configuration that comes into force.
use std::fmt::{self, Display, Formatter, Write};
use std::net::Ipv4Addr;

/// So many of something, as `1 station` or `5 stations`.
#[derive(Clone, Copy, Drop)]
struct Several {
    count: usize,
    name: &'static str,
}

impl Display for Several {
    fn fmt<W: Write>(&self, f: &mut Formatter<W>) -> fmt::Result {
        let end = if self.count == 1 { "" } else { "s" };
        write!(f, "{} {}{end}", self.count, self.name)
    }
}

/// A server that starts: how many stations it has, how many of them everybody may use, and where it listens.
#[derive(Clone, Copy, Drop)]
pub struct StartLine {
    pub stations: usize,
    pub open: usize,
    pub clients: (Ipv4Addr, u16),
    pub feeds: (Ipv4Addr, u16),
    pub status: Option<(Ipv4Addr, u16)>,
}

impl Display for StartLine {
    /// `serving 5 stations, 3 open to everybody, at 0.0.0.0:18000, feeds at 127.0.0.1:18001, status at
    /// 127.0.0.1:18002`.
    fn fmt<W: Write>(&self, f: &mut Formatter<W>) -> fmt::Result {
        let stations = Several {
            count: self.stations,
            name: "station",
        };
        write!(
            f,
            "serving {stations}, {} open to everybody, at {}:{}, feeds at {}:{}",
            self.open, self.clients.0, self.clients.1, self.feeds.0, self.feeds.1
        )?;
        match self.status {
            Some((address, port)) => write!(f, ", status at {address}:{port}"),
            None => Ok(()),
        }
    }
}

/// A configuration that comes into force, and how many clients it cuts.
#[derive(Clone, Copy, Drop)]
pub struct InForceLine {
    pub cut: usize,
}

impl Display for InForceLine {
    /// `new configuration in force, 3 clients cut`.
    fn fmt<W: Write>(&self, f: &mut Formatter<W>) -> fmt::Result {
        let clients = Several {
            count: self.cut,
            name: "client",
        };
        write!(f, "new configuration in force, {clients} cut")
    }
}
