//! The open ports of a loop as one value: where a port's seat is, how it joins and goes, and which ports sleep. A byte
//! stands beside each seat, and a seat whose byte is not 1 has a pass that makes no call.
ghost use Rattle.std.specs.Prelude.{◌≡◌, ◌≢◌, ◌<◌, ◌≤◌, EachIndex, ℕ, List, [], IfErr, IfOk, true, false, drop};
ghost use Rattle.std.specs.Prelude.{length, map, slice_index, take, vec_len};
ghost use Rattle.std.specs.List.{remove};
ghost use Rattle.std.specs.Vec.{vec_capacity};
ghost use Rattle.std.specs.declared.option.Option.{Option};
ghost use Rattle.protocol.specs.Catalog.{Config};
ghost use Rattle.protocol.specs.World.{World};
ghost use Rattle.ports.specs.Calls.{Call};
ghost use Rattle.server_core.specs.ServerValues.{ServerValue};
ghost use Rattle.event_loop.specs.Deeds.{Tally};
ghost use Rattle.event_loop.specs.Hearing.{clients_in, feeds_in, readable_at, writable_at};
ghost use Rattle.event_loop.specs.Sleeping.{AreKept, AreKnown, IsAsleep, seat_at};
ghost use Rattle.event_loop.specs.Tables.{AreRising, IsGapFor, IsSeatOf, PassesSoFar};

use crate::seat::{Role, Seat};
use memchr::memchr;
use server_core::{Client, Server};
use std::alloc::Global;

/// The open ports of a loop.
#[derive(Drop)]
pub struct Seats {
    /// The seat of each, by rising number of the port.
    pub all: Vec<Seat>,
    /// For each seat a 1, or else the port sleeps: its pass would make no call.
    pub awake: Vec<u8>,
    /// Room for the clients that are marked, of which there are no more than seats.
    pub marked: Vec<Client>,
    /// How many of the ports are feeds'.
    pub feeds: usize,
    /// How many of them may be clients'.
    pub max_clients: usize,
}

impl Seats {
    /// No port is open, and so many clients' may be.
    pub fn new(alloc: Global, max_clients: usize) -> Seats
        ensures kept { (server : ServerValue) → AreKept server result }
        ensures all { result.all.items ≡ [] }
        ensures limit { result.max_clients ≡ max_clients }
    {
        Seats {
            all: Vec::new(alloc),
            awake: Vec::new(alloc),
            marked: Vec::new(alloc),
            feeds: 0,
            max_clients,
        }
    }

    /// Makes room for one more seat, for its byte, and for as many marked clients as there is room for seats. It fails
    /// only for want of memory.
    pub fn has_room(&mut self) -> bool
        ensures all { self.new.all.items ≡ self.old.all.items }
        ensures awake { self.new.awake.items ≡ self.old.awake.items }
        ensures feeds { self.new.feeds ≡ self.old.feeds }
        ensures limit { self.new.max_clients ≡ self.old.max_clients }
        ensures kept { (server : ServerValue) → AreKept server self.old → AreKept server self.new }
        ensures room { result ≡ true → vec_len self.new.all < vec_capacity self.new.all }
        ensures byte { result ≡ true → vec_len self.new.awake < vec_capacity self.new.awake }
    {
        self.marked.clear();
        if self.all.reserve(1).is_err() {
            return false;
        }
        if self.awake.reserve(1).is_err() {
            return false;
        }
        self.marked.reserve(self.all.capacity()).is_ok()
    }
}

/// The place of a port's seat, or the place where it belongs.
pub fn place_of(seats: &[Seat], port: u64) -> Result<usize, usize>
    requires { AreRising seats.now }
    ensures found { IfOk result (λ at. IsSeatOf seats.now port at) }
    ensures absent { IfErr result (λ at. IsGapFor seats.now port at) }
{
    seats.binary_search_by_key(&port, |seat| seat.port)
}

/// The port may be read from now on, if it is open.
pub fn mark_readable(seats: &mut Vec<Seat>, awake: &mut Vec<u8>, port: u64)
    requires rising { AreRising seats.old.items }
    requires count { length awake.old.items ≡ length seats.old.items }
    ensures marks { seats.new.items ≡ map (readable_at port) seats.old.items }
    ensures count { length awake.new.items ≡ length awake.old.items }
    ensures others { (i : ℕ) → slice_index awake.new.items i ≢ 1 → (slice_index awake.old.items i ≢ 1)
        × (seat_at seats.new.items i ≡ seat_at seats.old.items i) }
{
    if let Ok(at) = place_of(seats.as_slice(), port) {
        seats[at].readable = true;
        wake(awake, at);
    }
}

/// The port may be written to from now on, if it is open.
pub fn mark_writable(seats: &mut Vec<Seat>, awake: &mut Vec<u8>, port: u64)
    requires rising { AreRising seats.old.items }
    requires count { length awake.old.items ≡ length seats.old.items }
    ensures marks { seats.new.items ≡ map (writable_at port) seats.old.items }
    ensures count { length awake.new.items ≡ length awake.old.items }
    ensures others { (i : ℕ) → slice_index awake.new.items i ≢ 1 → (slice_index awake.old.items i ≢ 1)
        × (seat_at seats.new.items i ≡ seat_at seats.old.items i) }
{
    if let Ok(at) = place_of(seats.as_slice(), port) {
        seats[at].writable = true;
        wake(awake, at);
    }
}

/// The seat at a place is gone, and counted no more.
pub fn remove(seats: &mut Vec<Seat>, feeds: &mut usize, at: usize)
    requires inside { at < length seats.old.items }
    requires feeds { feeds.old ≡ feeds_in seats.old.items }
    ensures seats { seats.new.items ≡ remove seats.old.items at }
    ensures feeds { feeds.new ≡ feeds_in seats.new.items }
{
    let gone = seats.remove(at);
    if !gone.role.is_client() {
        *feeds -= 1;
    }
}

/// How many clients' ports are open, by how many feeds' ports are.
pub fn clients(seats: &[Seat], feeds: usize) -> usize
    requires { feeds ≡ feeds_in seats.now }
    ensures { result ≡ clients_in seats.now }
{
    seats.len() - feeds
}

/// The place of the first byte from a place on that is 1, or how many there are.
fn next_awake(awake: &[u8], from: usize) -> usize
    requires { from ≤ length awake.now }
    ensures within { result ≤ length awake.now }
    ensures later { from ≤ result }
    ensures asleep { (i : ℕ) → from ≤ i → i < result → slice_index awake.now i ≢ 1 }
{
    match memchr(1, &awake[from..]) {
        Some(ahead) => from + ahead,
        None => awake.len(),
    }
}

/// The place of the first port from a place on that does not sleep, or how many there are. Those before it have had
/// their passes with that.
pub fn skip(server: &Server, seats: &[Seat], awake: &[u8], from: usize) -> usize
    requires known { AreKnown server.now seats.now awake.now }
    requires within { from ≤ length seats.now }
    ensures within { result ≤ length seats.now }
    ensures later { from ≤ result }
    ensures goes { (limit : ℕ) (config : Config) (w : World) (calls calls' : Option (List Call)) (t t' : Tally)
        (ss : List Seat) → PassesSoFar limit config w calls calls' server.now t t' ss (take from seats.now)
        (drop from seats.now) → PassesSoFar limit config w calls calls' server.now t t' ss (take result seats.now)
        (drop result seats.now) }
{
    let _ = seats;
    server.unmarked_are_spared();
    next_awake(awake, from)
}

/// 1, or else the seat sleeps.
fn wakefulness(server: &Server, seat: &Seat) -> u8
    ensures { result ≢ 1 → IsAsleep server.now seat.now }
{
    if seat.readable {
        return 1;
    }
    match &seat.role {
        Role::Client(client) => {
            if !seat.writable {
                return 0;
            }
            match server.marked(client) {
                Ok(false) => 0,
                _ => 1,
            }
        }
        Role::Feed(_) => 0,
    }
}

/// After its pass a port sleeps, or not.
pub fn settle(server: &Server, seats: &[Seat], awake: &mut Vec<u8>, at: usize)
    requires inside { at < length seats.now }
    requires count { length awake.old.items ≡ length seats.now }
    ensures count { length awake.new.items ≡ length awake.old.items }
    ensures here { slice_index awake.new.items at ≢ 1 → IsAsleep server.now (seat_at seats.now at) }
    ensures others { (i : ℕ) → i ≢ at → slice_index awake.new.items i ≡ slice_index awake.old.items i }
{
    awake[at] = wakefulness(server, &seats[at]);
}

/// The seat at a place is gone.
pub fn go(seats: &mut Vec<Seat>, awake: &mut Vec<u8>, feeds: &mut usize, at: usize)
    requires inside { at < length seats.old.items }
    requires count { length awake.old.items ≡ length seats.old.items }
    requires feeds { feeds.old ≡ feeds_in seats.old.items }
    ensures seats { seats.new.items ≡ remove seats.old.items at }
    ensures awake { awake.new.items ≡ remove awake.old.items at }
    ensures feeds { feeds.new ≡ feeds_in seats.new.items }
{
    remove(seats, feeds, at);
    let _gone = awake.remove(at);
}

/// Each byte is 1.
fn wake_all(awake: &mut [u8])
    ensures { EachIndex awake.new (λ i. slice_index awake.new i ≡ 1) }
{
    for byte in awake.iter_mut() {
        *byte = 1;
    }
}

/// No port sleeps any more, if so.
pub fn wake_if(awake: &mut Vec<u8>, all: bool)
    ensures count { length awake.new.items ≡ length awake.old.items }
    ensures same { all ≡ false → awake.new.items ≡ awake.old.items }
    ensures woken { all ≡ true → (i : ℕ) → i < length awake.new.items → slice_index awake.new.items i ≡ 1 }
{
    if all {
        wake_all(awake.as_mut_slice());
    }
}

/// The port at a place does not sleep.
pub fn wake(awake: &mut Vec<u8>, at: usize)
    requires { at < length awake.old.items }
    ensures count { length awake.new.items ≡ length awake.old.items }
    ensures here { slice_index awake.new.items at ≡ 1 }
    ensures others { (i : ℕ) → i ≢ at → slice_index awake.new.items i ≡ slice_index awake.old.items i }
{
    awake[at] = 1;
}
