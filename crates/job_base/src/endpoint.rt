//! Addresses with a port, as `127.0.0.1:18000`.
ghost use Rattle.std.specs.Prelude.{◌≡◌, option_map};
ghost use Rattle.std.specs.Net.Socket.{v4_ip, v4_port};
ghost use Rattle.access_list.specs.Addresses.{address_of};
ghost use Rattle.job_base.specs.Endpoints.{both_of, endpoint_of, endpoint_value, port_of};

use access_list::address;
use std::net::{Ipv4Addr, SocketAddrV4};
use text_parts::decimal::number;
use text_parts::separators::cut_at;

/// An address with a port.
#[derive(Clone, Copy)]
pub struct Endpoint {
    pub address: Ipv4Addr,
    pub port: u16,
}

impl Endpoint {
    /// The endpoint that a text spells: four numbers 0 to 255 of one to three digits joined by dots, `:`, and a port 0
    /// to 65535 of one to five digits. None for any other text.
    pub fn parse(text: &[u8]) -> Option<Endpoint>
        ensures { option_map endpoint_value result ≡ endpoint_of text.now }
    {
        let (address_text, port_text) = cut_at(text, b':')?;
        Endpoint::joined(address_text, port_text)
    }

    /// The endpoint of an address and a port.
    fn joined(address_text: &[u8], port_text: &[u8]) -> Option<Endpoint>
        ensures { option_map endpoint_value result ≡ both_of (address_of address_text.now) (port_of port_text.now) }
    {
        match (address(address_text), port(port_text)) {
            (Some(address), Some(port)) => Some(Endpoint { address, port }),
            _ => None,
        }
    }

    /// It as std's sockets take it.
    pub fn socket_address(self) -> SocketAddrV4
        ensures ip { v4_ip result ≡ self.address }
        ensures port { v4_port result ≡ self.port }
    {
        SocketAddrV4::new(self.address, self.port)
    }
}

/// A port: 0 to 65535, of one to five digits.
fn port(text: &[u8]) -> Option<u16>
    ensures { result ≡ port_of text.now }
{
    let number = number(text, 1, 5)?;
    if number > 65_535 {
        return None;
    }
    Some(number as u16)
}
