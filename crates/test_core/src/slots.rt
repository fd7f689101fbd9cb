//! Slots that are used again: a client that left is gone for good, and every other one is found by its number.
use catalog::Config;
use oracle_server::draws::Draws;
use oracle_server::sites::{ISLAND, address};
use server_core::{Client, Gone, ReceiveRefusal, Server};
use std::alloc::Global;
use std::test::Fail;

const SEED: u64 = 20_261_124;

/// How many clients open or close by chance.
const STEPS: usize = 10_000;

/// How many of the last clients may close.
const LAST: usize = 400;

fn new_server(alloc: Global) -> Result<Server, Fail> {
    let config = Config::read(alloc, ISLAND.text)?;
    Ok(Server::new(alloc, config)?)
}

/// Whether nothing waits for a client and nothing can be taken of it, since it is gone.
fn hands_nothing(server: &mut Server, client: &Client) -> bool {
    if server.waiting(client).is_ok() {
        return false;
    }
    server.took(client, 1) == Err(Gone)
}

/// Whether each call says that a client is gone.
fn is_gone(server: &mut Server, client: &Client) -> bool {
    server.room(client) == Err(Gone)
        && server.receive(client, b"HELLO\r") == Err(ReceiveRefusal::Gone)
        && server.offer(client) == Err(Gone)
        && server.marked(client) == Err(Gone)
        && server.ready(client) == Err(Gone)
        && hands_nothing(server, client)
        && server.close(client) == Err(Gone)
}

/// A client that said HELLO and left, and one that came after it.
fn left_and_came(server: &mut Server, alloc: Global) -> Result<(Client, Client), Fail> {
    let first = server.open(alloc, address(0))?;
    server.receive(&first, b"HELLO\r")?;
    server.close(&first)?;
    let second = server.open(alloc, address(1))?;
    Ok((first, second))
}

/// Whether the first is gone, and the second has the next number and all its room.
fn is_followed(server: &mut Server, alloc: Global) -> Result<bool, Fail> {
    let (first, second) = left_and_came(server, alloc)?;
    Ok(second.number() == 1 && is_gone(server, &first) && server.room(&second) == Ok(1024))
}

#[test]
fn who_left_is_gone_where_another_came(rt: HostRuntime) -> Result<(), Fail> {
    let mut server = new_server(rt.alloc())?;
    assert!(rt; is_followed(&mut server, rt.alloc())?);
    Ok(())
}

/// All clients that ever opened, and which of them are open.
#[derive(Drop)]
struct Plain {
    clients: Vec<Client>,
    open: Vec<bool>,
}

/// A client opens. Whether it has the next number.
fn open_one(
    alloc: Global,
    draws: &mut Draws,
    server: &mut Server,
    plain: &mut Plain,
) -> Result<bool, Fail> {
    let client = server.open(alloc, address(draws.below(3)))?;
    let is_next = client.number() == plain.clients.len();
    plain.clients.push(client)?;
    plain.open.push(true)?;
    Ok(is_next)
}

/// One of the last clients closes. Whether the server knew it exactly where it was open.
fn close_one(draws: &mut Draws, server: &mut Server, plain: &mut Plain) -> bool {
    let back = draws.below(plain.open.len().min(LAST)).saturating_add(1);
    let place = plain.open.len().saturating_sub(back);
    match (plain.clients.get(place), plain.open.get_mut(place)) {
        (Some(client), Some(open)) => {
            let was = *open;
            *open = false;
            server.close(client).is_ok() == was
        }
        _ => true,
    }
}

/// Whether the server has exactly the clients that are open.
fn has_all(server: &Server, plain: &Plain) -> bool {
    for (client, open) in plain.clients.iter().zip(plain.open.iter()) {
        if server.room(client).is_ok() != *open {
            return false;
        }
    }
    true
}

/// A client opens or closes by chance. Whether the server says of it what the plain list says.
fn act_alike(
    alloc: Global,
    draws: &mut Draws,
    server: &mut Server,
    plain: &mut Plain,
) -> Result<bool, Fail> {
    if draws.is_one_of(2) {
        open_one(alloc, draws, server, plain)
    } else {
        Ok(close_one(draws, server, plain))
    }
}

/// The first step after which the server and the plain list differ.
fn first_difference(alloc: Global, server: &mut Server) -> Result<Option<usize>, Fail> {
    let mut draws = Draws::new(SEED, 0);
    let mut plain = Plain {
        clients: Vec::new(alloc),
        open: Vec::new(alloc),
    };
    for step in 0..STEPS {
        let is_same = act_alike(alloc, &mut draws, server, &mut plain)?;
        if !is_same || (step % 100 == 0 && !has_all(server, &plain)) {
            return Ok(Some(step));
        }
    }
    Ok(None)
}

#[test]
fn opens_and_closes_by_chance(rt: HostRuntime) -> Result<(), Fail> {
    let mut server = new_server(rt.alloc())?;
    assert_eq!(rt; first_difference(rt.alloc(), &mut server)?, None);
    Ok(())
}
