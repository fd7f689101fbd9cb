//! One call that fills a buffer hands what single offers and takes hand.
ghost use Rattle.std.specs.Prelude.{◌≤◌};

use crate::clients::{asking, at_server, record_in, take_often};
use server_core::{Client, Offer, Server};
use std::alloc::Global;
use std::net::Ipv4Addr;
use std::test::Fail;

/// How many records of GE APE are held.
const HELD: u8 = 4;

/// How many packets one call hands at most, and how many it hands of those records.
static ROWS: [(usize, usize); 4] = [(0, 0), (1, 1), (3, 3), (8, 4)];

/// A client that asked for all records of GE APE and was told twice that this is fine.
fn asking_for_all(server: &mut Server, alloc: Global) -> Result<Client, Fail> {
    let address = Ipv4Addr::new(10, 0, 0, 1);
    asking(server, alloc, address, b"STATION APE GE\rFETCH\rEND\r", 2)
}

/// All that such a client is handed, one offer after the other.
fn handed_singly(server: &mut Server, alloc: Global) -> Result<Vec<u8>, Fail> {
    let client = asking_for_all(server, alloc)?;
    let mut taken = Vec::new(alloc);
    take_often(server, &client, 20, &mut taken)?;
    Ok(taken)
}

/// Whether such a client is handed that, first by one call at most so many packets, which hands so many of them, and
/// then one offer after the other.
fn is_handed(
    server: &mut Server,
    alloc: Global,
    most: usize,
    count: usize,
    wanted: &[u8],
) -> Result<bool, Fail>
    requires { most ≤ 8 }
{
    let client = asking_for_all(server, alloc)?;
    let found = server.offer(&client);
    let mut taken = Vec::with_capacity(alloc, most * 520)?;
    let filled = server.fill(&client, found, most, &mut taken);
    take_often(server, &client, 20, &mut taken)?;
    Ok(taken.as_slice() == wanted && filled.found == Ok(Offer::Bytes) && filled.count == count)
}

/// How many bytes single offers hand at a server whose ring of GE APE is full, and the first row that goes otherwise.
fn first_other(server: &mut Server, alloc: Global) -> Result<(usize, Option<usize>), Fail> {
    for second in 0..HELD {
        server.arrive(&record_in(b"APE", second)?)?;
    }
    let wanted = handed_singly(server, alloc)?;
    Ok((wanted.len(), first_other_row(server, alloc, &wanted)?))
}

/// The first row of which a call hands other packets.
fn first_other_row(
    server: &mut Server,
    alloc: Global,
    wanted: &[u8],
) -> Result<Option<usize>, Fail> {
    for (row, &(most, count)) in ROWS.iter().enumerate() {
        if most > 8 || !is_handed(server, alloc, most, count, wanted)? {
            return Ok(Some(row));
        }
    }
    Ok(None)
}

#[test]
fn a_fill_hands_what_single_takes_hand(rt: HostRuntime) -> Result<(), Fail> {
    assert!(rt; at_server(rt.alloc(), first_other)? == (4 * 520 + 3, None));
    Ok(())
}
