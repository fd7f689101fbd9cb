//! Which clients an offer may find something for: those of a crowd who ask for a record's station; and what is found
//! once bytes were handed.
use crate::clients::{asking, at_server, record_in};
use server_core::{Client, Offer, Server};
use std::alloc::Global;
use std::net::Ipv4Addr;
use std::test::Fail;

/// A transfer of GE WLF from now on.
const FOREST: &[u8] = b"STATION WLF GE\rDATA\rEND\r";

/// A transfer of XX APE from now on, of one channel.
const VAULT: &[u8] = b"STATION APE XX\rSELECT BHZ\rDATA\rEND\r";

/// A client from an address that does not see GE APE, which sent a text, and took all that it is handed for it.
fn settled(server: &mut Server, alloc: Global, text: &[u8]) -> Result<Client, Fail> {
    asking(server, alloc, Ipv4Addr::new(172, 16, 0, 9), text, 20)
}

/// How many bytes wait for a client.
fn waiting_count(server: &Server, client: &Client) -> usize {
    match server.waiting(client) {
        Ok(bytes) => bytes.len(),
        Err(_) => 0,
    }
}

/// What is found once so many bytes of those that wait were handed, and how many wait then.
fn gone_on(server: &mut Server, client: &Client, count: usize) -> Result<(Offer, usize), Fail> {
    let Ok(bytes) = server.waiting(client) else {
        return Ok((Offer::Ended, 0));
    };
    if count == 0 || bytes.len() < count {
        return Ok((Offer::Ended, 0));
    }
    let found = server.go_on(client, count)?;
    Ok((found, waiting_count(server, client)))
}

/// A client to which two records are handed on: after half of the first one's packet, after the rest of it, and after
/// the second one's. The last is whether it is marked then.
fn found_going_on(server: &mut Server, alloc: Global) -> Result<([(Offer, usize); 3], bool), Fail> {
    let client = settled(server, alloc, FOREST)?;
    server.arrive(&record_in(b"WLF", 0)?)?;
    server.arrive(&record_in(b"WLF", 1)?)?;
    let _found = server.offer(&client)?;
    let half = gone_on(server, &client, 260)?;
    let rest = gone_on(server, &client, 260)?;
    let second = gone_on(server, &client, 520)?;
    Ok(([half, rest, second], server.marked(&client)?))
}

#[test]
fn a_take_is_followed_by_an_offer(rt: HostRuntime) -> Result<(), Fail> {
    let (found, is_marked) = at_server(rt.alloc(), found_going_on)?;
    assert!(rt; found == [(Offer::Bytes, 260), (Offer::Bytes, 520), (Offer::Idle, 0)]);
    assert!(rt; !is_marked);
    Ok(())
}

/// How many clients there are: their bits take four words.
const CROWD: usize = 200;

/// Clients that wait by turns for records of GE WLF and of XX APE.
fn crowd(server: &mut Server, alloc: Global) -> Result<Vec<Client>, Fail> {
    let mut clients = Vec::new(alloc);
    for place in 0..CROWD {
        let text = if place % 2 == 0 { FOREST } else { VAULT };
        clients.push(settled(server, alloc, text)?)?;
    }
    Ok(clients)
}

/// Whether every second client is ready, from that one on, and no other.
fn are_ready_by_turns(server: &mut Server, clients: &[Client], first: usize) -> Result<bool, Fail> {
    for (place, client) in clients.iter().enumerate() {
        let is_of_those = place % 2 == first;
        if server.marked(client)? != is_of_those || server.ready(client)? != is_of_those {
            return Ok(false);
        }
    }
    Ok(true)
}

/// Whether a record of GE WLF marks those of a crowd who wait for it, and no one else.
fn marks_one_half(server: &mut Server, alloc: Global) -> Result<bool, Fail> {
    let clients = crowd(server, alloc)?;
    server.arrive(&record_in(b"WLF", 0)?)?;
    are_ready_by_turns(server, clients.as_slice(), 0)
}

#[test]
fn a_record_marks_no_one_else_of_a_crowd(rt: HostRuntime) -> Result<(), Fail> {
    assert!(rt; at_server(rt.alloc(), marks_one_half)?);
    Ok(())
}
