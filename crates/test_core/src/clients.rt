//! Clients of a new server: what they send, and what they take.
use catalog::Config;
use mseed_header::FieldFault;
use server_core::{Client, Offer, Server};
use std::alloc::Global;
use std::net::Ipv4Addr;
use std::test::Fail;
use test_centre::{CENTRE, RecordOf, made};

/// A record of GE and a station that starts in a second of 2024-02-29.
pub fn record_in(station: &[u8], second: u8) -> Result<[u8; 512], FieldFault> {
    made(&RecordOf {
        second,
        ..RecordOf::station(b"GE", station)
    })
}

/// What is seen at a new server of the three stations.
pub fn at_server<T, F>(alloc: Global, look: F) -> Result<T, Fail>
where
    F: FnOnce(&mut Server, Global) -> Result<T, Fail>,
    requires { F.IsAlwaysCallable look }
{
    let mut server = Server::new(alloc, Config::read(alloc, CENTRE)?)?;
    look(&mut server, alloc)
}

/// What waits for a client is taken, and appended to a list.
fn take_waiting(server: &mut Server, client: &Client, taken: &mut Vec<u8>) -> Result<(), Fail> {
    let Ok(bytes) = server.waiting(client) else {
        return Ok(());
    };
    taken.extend_from_slice(bytes)?;
    let count = bytes.len();
    if count > 0 {
        let _ = server.took(client, count);
    }
    Ok(())
}

/// So many times a client is offered something, and takes all of it.
pub fn take_often(
    server: &mut Server,
    client: &Client,
    times: usize,
    taken: &mut Vec<u8>,
) -> Result<(), Fail> {
    for _ in 0..times {
        if server.offer(client)? == Offer::Bytes {
            take_waiting(server, client, taken)?;
        }
    }
    Ok(())
}

/// A client from an address, which sent a text, and took what it was handed for it at so many offers.
pub fn asking(
    server: &mut Server,
    alloc: Global,
    address: Ipv4Addr,
    text: &[u8],
    times: usize,
) -> Result<Client, Fail> {
    let client = server.open(alloc, address)?;
    server.receive(&client, text)?;
    take_often(server, &client, times, &mut Vec::new(alloc))?;
    Ok(client)
}
