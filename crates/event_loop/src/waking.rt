//! Which seats wake when records came: those of the clients that are marked, and no others.
ghost use Rattle.std.specs.Prelude.{◌≡◌, ◌≢◌, ◌<◌, ◌≤◌, ℕ, IfSome, None, OnOk, Some, true, length};
ghost use Rattle.event_loop.specs.Sleeping.{AreSeated, AreWoken, IsSeatOfClient, IsWoken, OnlyWakes, WakesOnly};
ghost use Rattle.event_loop.specs.Sleeping.{role_at};
ghost use Rattle.event_loop.specs.declared.seat.Role.TheVariants.{Client as ClientRole};
ghost use Rattle.server_core.specs.Marks.{IsAmong};
ghost use Rattle.server_core.specs.ServerValues.{mark_at};

use crate::seat::{Role, Seat};
use crate::seats::{wake, wake_if};
use server_core::{Client, Server};
use std::alloc::AllocError;

/// The seat of a client among others: its place, and the client's number.
#[derive(Clone, Copy)]
struct ClientAt {
    at: usize,
    number: usize,
}

/// The first seat of a client from a place on and before another one; None if all of these are feeds'.
fn next_client(seats: &[Seat], from: usize, end: usize) -> Option<ClientAt>
    requires { end ≤ length seats.now }
    ensures within { IfSome result (λ found. (from ≤ found.at) × (found.at < end)) }
    ensures role { IfSome result (λ found. IsSeatOfClient seats.now found.number found.at) }
{
    for at in from..end {
        if let Role::Client(client) = &seats[at].role {
            return Some(ClientAt {
                at,
                number: client.number(),
            });
        }
    }
    None
}

/// The place of a client's seat, found by halving: the clients' numbers rise with their ports if ports are numbered as
/// they join. Seats of feeds are passed over.
fn halved(seats: &[Seat], number: usize) -> Option<usize>
    ensures { IfSome result (λ at. IsSeatOfClient seats.now number at) }
{
    let mut low = 0usize;
    let mut high = seats.len();
    'halves: while low < high {
        let middle = low + (high - low) / 2;
        match next_client(seats, middle, high) {
            Some(found) => {
                if found.number == number {
                    return Some(found.at);
                }
                if found.number < number {
                    low = found.at + 1;
                } else {
                    high = middle;
                }
            }
            None => high = middle,
        }
    }
    None
}

/// The place of a client's seat, found by a look at each.
fn searched(seats: &[Seat], number: usize) -> Option<usize>
    ensures found { IfSome result (λ at. IsSeatOfClient seats.now number at) }
    ensures absent { result ≡ None → (at : ℕ) → at < length seats.now → role_at seats.now at ≢ ClientRole number }
{
    for at in 0..seats.len() {
        if seats[at].role.is_of(number) {
            return Some(at);
        }
    }
    None
}

/// The place of a client's seat, whatever its port; None if it has none.
fn seat_of(seats: &[Seat], number: usize) -> Option<usize>
    ensures found { IfSome result (λ at. IsSeatOfClient seats.now number at) }
    ensures absent { result ≡ None → (at : ℕ) → at < length seats.now → role_at seats.now at ≢ ClientRole number }
{
    match halved(seats, number) {
        Some(at) => Some(at),
        None => searched(seats, number),
    }
}

/// A client's seat does not sleep any more.
fn wake_client(server: &Server, seats: &[Seat], awake: &mut Vec<u8>, client: &Client)
    requires count { length awake.old.items ≡ length seats.now }
    requires seated { AreSeated server.now seats.now }
    ensures wakes { OnlyWakes awake.old.items awake.new.items }
    ensures woken { IsWoken seats.now awake.new.items client.now }
    ensures only { WakesOnly (λ k. k ≡ client.now) seats.now awake.old.items awake.new.items }
{
    let _ = server;
    if let Some(at) = seat_of(seats, client.number()) {
        wake(awake, at);
    }
}

/// The seats of some clients do not sleep any more.
fn wake_clients(server: &Server, seats: &[Seat], awake: &mut Vec<u8>, some: &[Client])
    requires count { length awake.old.items ≡ length seats.now }
    requires seated { AreSeated server.now seats.now }
    ensures wakes { OnlyWakes awake.old.items awake.new.items }
    ensures woken { (k : ℕ) → IsAmong k some.now → IsWoken seats.now awake.new.items k }
    ensures only { WakesOnly (λ k. IsAmong k some.now) seats.now awake.old.items awake.new.items }
{
    for client in some {
        wake_client(server, seats, awake, client);
    }
}

/// The seats of all clients that are marked do not sleep any more, and no other seat wakes. It fails only if there is
/// no memory for the list of these clients, and then none wakes.
fn wake_marked(
    server: &Server,
    seats: &[Seat],
    awake: &mut Vec<u8>,
    marked: &mut Vec<Client>,
) -> Result<(), AllocError>
    requires count { length awake.old.items ≡ length seats.now }
    requires seated { AreSeated server.now seats.now }
    ensures wakes { OnlyWakes awake.old.items awake.new.items }
    ensures woken { OnOk result (AreWoken server.now seats.now awake.new.items) }
    ensures only { WakesOnly (λ k. mark_at server.now k ≡ Some true) seats.now awake.old.items awake.new.items }
{
    server.marked_clients(marked)?;
    wake_clients(server, seats, awake, marked.as_slice());
    Ok(())
}

/// If records came by a pass, the seats of all clients that are marked do not sleep any more. All seats wake if there
/// is no memory for the list of these clients.
pub fn wake_after(
    server: &Server,
    seats: &[Seat],
    awake: &mut Vec<u8>,
    marked: &mut Vec<Client>,
    brought: bool,
)
    requires count { length awake.old.items ≡ length seats.now }
    requires seated { AreSeated server.now seats.now }
    ensures wakes { OnlyWakes awake.old.items awake.new.items }
    ensures woken { brought ≡ true → AreWoken server.now seats.now awake.new.items }
{
    if brought && wake_marked(server, seats, awake, marked).is_err() {
        wake_if(awake, true);
    }
}
