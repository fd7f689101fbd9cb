//! Connections to servers that are asked one after the other.
//!
//! A reader notices a server whose machine has vanished by the options that a server sets for its clients
//! (`notice_silence`): it is asked for after 30 seconds of silence, and the connection fails after 90. A feed has none
//! of them: it sends, and a server that reads slowly is not gone.
ghost use Rattle.std.specs.Prelude.{◌≡◌, true, false, IfErr, None, OnOk};
ghost use Rattle.job_read.specs.Endings.{goes_on};
ghost use Rattle.job_read.specs.Places.{place_after};

use crate::answers::{AnswerLines, ServerText};
use crate::asking::RenewedReader;
use crate::endings::{TransferFault, unlisted};
use crate::inlet::Inlet;
use crate::places::Places;
use crate::reading::Reading;
use crate::sent::SentPiece;
use crate::sides::{AnswerReader, CommandWriter};
use incidents::{Failure, Incident, Place};
use job_base::{ServerAddress, connection, lines_of, unconnected};
use protocol::reason::Reason;
use reader_run::{ListingFault, Servers};
use sl_io::Outer;
use socket_options::notice_silence;
use std::io::{self, ErrorKind};
use std::net::{SocketAddr, TcpStream};
use std::time::Duration;

/// The servers of a reading, and whose turn it is.
#[derive(Drop)]
pub struct ServersInTurn<'r, 'a, 'w> {
    rt: &'r HostRuntime,
    reading: &'r Reading<'a, 'w>,
    places: Places,
    /// The connection that is read.
    inlet: &'r Inlet,
}

impl<'r, 'a, 'w> ServersInTurn<'r, 'a, 'w> {
    /// No connection was made yet.
    pub fn new(
        rt: &'r HostRuntime,
        reading: &'r Reading<'a, 'w>,
        inlet: &'r Inlet,
    ) -> ServersInTurn<'r, 'a, 'w> {
        ServersInTurn {
            rt,
            reading,
            places: Places::new(reading.servers.len()),
            inlet,
        }
    }

    /// The server whose turn it is.
    pub fn server(&self) -> Result<ServerAddress<'a>, Incident<'a>> {
        match self.reading.servers.get(self.places.place()) {
            Some(server) => Ok(*server),
            None => Err(Incident::from(Failure::of(Reason::Connect))),
        }
    }

    /// What the server sent last: the line that came last, or the beginning of what came once the transfer was asked
    /// for.
    fn last_sent(&self, lines: &AnswerLines) -> SentPiece {
        if self.reading.patience.is_transfer() {
            self.inlet.sent()
        } else {
            lines.last()
        }
    }

    /// A failure, with what the server sent if that is the failure, and the version that it speaks if that is another
    /// one.
    fn with_sent(&self, incident: Incident<'a>, lines: &AnswerLines) -> Incident<'a>
        ensures { result.failure ≡ incident.entry.failure }
    {
        let reason = incident.failure.reason;
        let text = ServerText::of(reason, self.last_sent(lines), lines.is_four());
        if text.is_empty() {
            incident
        } else {
            incident.with(lines_of(self.rt.alloc(), text))
        }
    }

    /// The turn passes to the next server after a failure, unless that ends the reading.
    fn go_on_after(&mut self, incident: Incident<'a>) -> Result<(), Incident<'a>>
        ensures next { OnOk result ((goes_on incident.entry.failure.reason self.old.places.place self.old.places.count
            self.old.reading.now.is_retried ≡ true) × (self.new.places ≡ record self.old.places {
              place = place_after self.old.places.place self.old.places.count;
            })) }
        ensures ended { IfErr result (λ ended. (ended ≡ incident.entry)
            × (goes_on incident.entry.failure.reason self.old.places.place self.old.places.count
            self.old.reading.now.is_retried ≡ false)) }
    {
        self.reading.pass_over(self.rt, incident, &self.places)?;
        self.places.advance();
        Ok(())
    }
}

/// What comes over a connection, as it is read.
type ConnectionReader<'r> = Outer<AnswerReader<'r, RenewedReader<'r>>>;

/// What comes over a connection, and where commands go.
type Connected<'r> = (ConnectionReader<'r>, Outer<CommandWriter<'r>>);

/// Both sides of a connection, which ends if the server's machine is gone.
fn sides<'r>(
    stream: TcpStream,
    inlet: &'r Inlet,
    rt: &'r HostRuntime,
    reading: &'r Reading<'_, '_>,
) -> io::Result<Connected<'r>> {
    notice_silence(&stream)?;
    let writer = stream.try_clone()?;
    inlet.open(rt.alloc(), stream)?;
    let (renewal, patience) = (&reading.renewal, &reading.patience);
    let reader = RenewedReader::new(inlet, rt, renewal, patience, reading.is_shown());
    Ok((
        Outer::new(AnswerReader::new(reader, patience)),
        Outer::new(CommandWriter::new(writer, &reading.patience)),
    ))
}

/// A connection to a server, if it is made in time.
fn connection_within<'a>(
    rt: &HostRuntime,
    server: ServerAddress<'a>,
    limit: Option<Duration>,
) -> Result<TcpStream, Incident<'a>> {
    let Some(limit) = limit else {
        return connection(rt, server);
    };
    let address = SocketAddr::V4(server.endpoint.socket_address());
    match TcpStream::connect_timeout(rt, &address, limit) {
        Ok(stream) => Ok(stream),
        Err(reason) if reason.kind() == ErrorKind::TimedOut => Err(
            TransferFault::Silent
                .failure()
                .at(Place::Address(server.word))
                .because(reason),
        ),
        Err(reason) => Err(unconnected(server, reason)),
    }
}

/// A connection to a server.
fn connected<'r, 'a>(
    rt: &'r HostRuntime,
    server: ServerAddress<'a>,
    inlet: &'r Inlet,
    reading: &'r Reading<'_, '_>,
) -> Result<Connected<'r>, Incident<'a>> {
    let stream = connection_within(rt, server, reading.patience.limit())?;
    match sides(stream, inlet, rt, reading) {
        Ok(sides) => Ok(sides),
        Err(reason) => Err(unconnected(server, reason)),
    }
}

impl<'r, 'a, 'w> Servers for ServersInTurn<'r, 'a, 'w> {
    type Reader = ConnectionReader<'r>;

    type Writer = Outer<CommandWriter<'r>>;

    type Fault = Incident<'a>;

    ghost told = { λ _. None };

    fn connect(&mut self) -> Result<Connected<'r>, Incident<'a>> {
        self.reading.patience.begin();
        self.reading.moment.connect();
        for _ in 0..u64::MAX {
            let server = self.server()?;
            self.reading.renewal.begin(self.places.place() == 0);
            match connected(self.rt, server, self.inlet, self.reading) {
                Ok(sides) => return Ok(sides),
                Err(incident) => self.go_on_after(incident)?,
            }
        }
        Err(Incident::from(Failure::of(Reason::Connect)))
    }

    fn pass_over(
        &mut self,
        fault: ListingFault,
        reader: ConnectionReader<'r>,
        _writer: Outer<CommandWriter<'r>>,
    ) -> Result<(), Incident<'a>> {
        self.inlet.close();
        if fault == ListingFault::Read && self.reading.renewal.is_over(self.rt) {
            // The first server is asked again, for what was refused too.
            self.places.restart();
            return Ok(());
        }
        let patience = &self.reading.patience;
        let answers = reader.into_inner();
        let lines = answers.lines();
        let fault = unlisted(fault, lines.is_greeted(), patience.is_fault());
        let incident = fault.failure().at_server(self.server()?.word);
        let incident = self.with_sent(incident, lines);
        if patience.is_over() {
            // Nothing more comes of the window: the reading is at its end.
            return Err(incident);
        }
        self.go_on_after(incident)
    }

    fn close(&mut self, _reader: ConnectionReader<'r>, _writer: Outer<CommandWriter<'r>>) {
        self.inlet.close();
    }
}
