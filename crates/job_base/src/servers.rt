//! Servers that words name, and connections to them.
ghost use Rattle.std.specs.Prelude.{◌≡◌, IfErr, IfOk, None, Some};
ghost use Rattle.protocol.specs.declared.reason.Reason.TheVariants.{Address};
ghost use Rattle.job_base.specs.Endpoints.{endpoint_of, endpoint_value};

use crate::endpoint::Endpoint;
use incidents::{Failure, Incident, Place};
use protocol::reason::Reason;
use std::io;
use std::net::{SocketAddr, TcpStream};

/// The address of a server, and the word that names it.
#[derive(Clone, Copy)]
pub struct ServerAddress<'a> {
    pub word: &'a str,
    pub endpoint: Endpoint,
}

/// What is said of a word that is no address with a port.
fn no_address() -> Failure
    ensures { result.reason ≡ Address }
{
    Failure::by(Reason::Address, Some("a word is no address with a port")).allowing(
        "four numbers and a port, as 127.0.0.1:18000; names of hosts and IPv6 are not taken",
    )
}

/// The address that a word names.
///
/// It fails with Address where the word is no address with a port.
pub fn server_of<'a>(word: &'a str) -> Result<ServerAddress<'a>, Incident<'a>>
    ensures endpoint { IfOk result (λ server. endpoint_of word.now ≡ Some (endpoint_value server.endpoint)) }
    ensures word { IfOk result (λ server. server.word ≡ word.entry) }
    ensures refused { IfErr result (λ incident.
        (endpoint_of word.now ≡ None) × (incident.failure.reason ≡ Address)) }
{
    match Endpoint::parse(word.as_bytes()) {
        Some(endpoint) => Ok(ServerAddress { word, endpoint }),
        None => Err(no_address().in_word(word)),
    }
}

/// A connection to a server.
pub fn connect(rt: &HostRuntime, server: Endpoint) -> io::Result<TcpStream> {
    TcpStream::connect(rt, SocketAddr::V4(server.socket_address()))
}

/// A connection to a server that a word names.
pub fn connection<'a>(
    rt: &HostRuntime,
    server: ServerAddress<'a>,
) -> Result<TcpStream, Incident<'a>> {
    match connect(rt, server.endpoint) {
        Ok(stream) => Ok(stream),
        Err(reason) => Err(unconnected(server, reason)),
    }
}

/// Why no connection could be made.
pub fn unconnected<'a>(server: ServerAddress<'a>, reason: io::Error) -> Incident<'a> {
    Failure::of(Reason::Connect)
        .at(Place::Address(server.word))
        .because(reason)
}
