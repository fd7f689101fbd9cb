//! The open clients of a server: their numbers, and the slots in which their sessions are.
//!
//! A server that 2^64 - 1 clients came to lets in no more: `open` fails as where memory lacks. At a thousand clients a
//! second that is after 500 million years.
//!
//! The number of the client stands at each slot as long as the client is open: the marks are bits by slots, so the
//! marked clients, and no others, are listed 64 slots at a time, without a walk over all that are open.
//!
//! An open client's address stands beside its number and slot, so that its view under new access lists can be found.
//! What `Server` says of itself has it as long as the client is open.
ghost use Rattle.std.specs.Prelude.{◌≡◌, ◌≢◌, ◌+◌, ℕ, ◌∷◌, ◌++◌, [], IfOk, OnOk, OnErr, IfSome, Some, None, true};
ghost use Rattle.std.specs.Prelude.{◌<◌, false, is_some, length, option_map, slice_set};
ghost use Rattle.std.specs.Net.Addr.{ipv4_bits};
ghost use Rattle.slab.specs.Slab.{get, Updates};
ghost use Rattle.protocol.specs.Catalog.{Config as ProtocolConfig};
ghost use Rattle.station_ring.specs.HeldRecords.{RingsValue};
ghost use Rattle.server_core.specs.Rows.{bit_of};
ghost use Rattle.server_core.specs.Clients.{AreRising, IsNumberAt, address_in, listed, owner_in, slot_in};
ghost use Rattle.server_core.specs.Marks.{IsAmong};

use crate::client::Client;
use crate::marks::BitRow;
use session_state::Session;
use slab::Slab;
use std::alloc::{AllocError, Global};
use std::net::Ipv4Addr;

/// The number of an open client, the slot in which its session is, and the address from which it came.
#[derive(Clone, Copy)]
pub struct Opened {
    pub number: usize,
    pub slot: usize,
    pub address: Ipv4Addr,
}

/// The clients of a server. A slot is used again once its client has closed, and a number never.
#[derive(Drop)]
pub struct Clients {
    /// How many opened so far, which is the number of the next one.
    pub opens: usize,
    /// The open ones, by rising number.
    pub opened: Vec<Opened>,
    /// Their sessions.
    pub slots: Slab<Session>,
    /// At each slot the number of the client whose session is there.
    pub numbers: Vec<Option<usize>>,
}

/// Makes room for the number at a slot. It fails only for want of memory, and all numbers stay either way.
fn make_room(numbers: &mut Vec<Option<usize>>, slot: usize) -> Result<(), AllocError>
    ensures room { OnOk result (slot < length numbers.new.items) }
    ensures kept { (other : ℕ) → owner_in numbers.new.items other ≡ owner_in numbers.old.items other }
{
    if slot < numbers.len() {
        return Ok(());
    }
    numbers.resize(slot, None)?;
    numbers.push(None)?;
    Ok(())
}

/// Whether the session in a slot is that of the client with a number.
fn is_owner(numbers: &[Option<usize>], slot: usize, number: usize) -> bool
    ensures so { result ≡ true → owner_in numbers.now slot ≡ Some number }
    ensures else_not { result ≡ false → owner_in numbers.now slot ≢ Some number }
{
    match numbers.get(slot) {
        Some(Some(owner)) => *owner == number,
        Some(None) => false,
        None => false,
    }
}

/// The place of an open client by its number, found by halving.
fn place_of(opened: &[Opened], number: usize) -> Option<usize>
    requires { AreRising opened.now }
    ensures found { IfSome result (λ at. IsNumberAt opened.now number at) }
    ensures absent { result ≡ None → slot_in opened.now number ≡ None }
{
    opened.binary_search_by_key(&number, |one| one.number).ok()
}

/// The client in a slot, if there is one, is put to some.
fn add_owner(some: &mut Vec<Client>, slot: usize, owner: Option<usize>) -> Result<(), AllocError>
    ensures ok { OnOk result (some.new.items ≡ some.old.items ++ listed owner) }
    ensures err { OnErr result (some.new.items ≡ some.old.items) }
{
    if let Some(number) = owner {
        some.push(Client::new(number, slot))?;
    }
    Ok(())
}

impl Clients {
    ghost use Rattle.server_core.specs.Clients.{IsTable, session_of, sessions_of, addresses_of};
    ghost use Rattle.server_core.specs.Marks.{IsSetIn};
    ghost use Rattle.server_core.specs.ServerValues.{AreSettled, IsSettled};

    /// No client.
    pub fn new(alloc: Global) -> Clients
        ensures table { IsTable result }
        ensures sessions { sessions_of result ≡ [] }
        ensures addresses { addresses_of result ≡ [] }
        ensures free { (slot : ℕ) → get result.slots slot ≡ None }
        ensures settled { (config : ProtocolConfig) (rings : RingsValue) → AreSettled config rings result.slots }
    {
        Clients {
            opens: 0,
            opened: Vec::new(alloc),
            slots: Slab::new(alloc),
            numbers: Vec::new(alloc),
        }
    }

    /// The slot of a client's session, while it is open: the one that the client says, if its number stands there, and
    /// else the one that is found by its number.
    pub fn slot_of(&self, client: &Client) -> Option<usize>
        requires { IsTable self.now }
        ensures { result ≡ slot_in self.now.opened.items client.now }
    {
        let number = client.number();
        let slot = client.slot();
        if is_owner(self.numbers.as_slice(), slot, number) {
            return Some(slot);
        }
        let at = place_of(self.opened.as_slice(), number)?;
        Some(self.opened[at].slot)
    }

    /// The address from which an open client came.
    pub fn address_of(&self, client: &Client) -> Option<Ipv4Addr>
        requires { IsTable self.now }
        ensures { option_map ipv4_bits result ≡ address_in self.now.opened.items client.now }
    {
        let at = place_of(self.opened.as_slice(), client.number())?;
        Some(self.opened[at].address)
    }

    /// The open clients in the slots whose bit is set, and no others, stand in a list from now on. It fails only for
    /// want of memory.
    pub fn list_set(&self, row: &BitRow, some: &mut Vec<Client>) -> Result<(), AllocError>
        requires { IsTable self.now }
        ensures all { OnOk result ((k slot : ℕ) → slot_in self.now.opened.items k ≡ Some slot
            → bit_of row.now slot ≡ true → IsAmong k some.new.items) }
        ensures only { (k : ℕ) → IsAmong k some.new.items → IsSetIn self.now.opened.items row.now k }
    {
        some.clear();
        let end = self.numbers.len();
        let mut slot = row.next_set(0, end);
        'slots: while slot < end {
            add_owner(some, slot, self.numbers[slot])?;
            slot = row.next_set(slot + 1, end);
        }
        Ok(())
    }

    /// The slot that the next client will have.
    pub fn next_slot(&self) -> usize
        ensures { result ≡ self.now.slots.vacant_key }
    {
        let _ = &self.opened;
        self.slots.vacant_key()
    }

    /// One more client opens with its session, from an address, and has the next number. It fails where memory lacks,
    /// or once 2^64 - 1 clients opened, and then no client changes.
    pub fn open(&mut self, session: Session, address: Ipv4Addr) -> Result<Client, AllocError>
        requires { IsTable self.old }
        ensures table { IsTable self.new }
        ensures number { IfOk result (λ client. client ≡ self.old.opens) }
        ensures opened { OnOk result (sessions_of self.new ≡ sessions_of self.old ++ Some session ∷ []) }
        ensures came { OnOk result (addresses_of self.new ≡ addresses_of self.old ++ Some (ipv4_bits address) ∷ []) }
        ensures err { OnErr result (sessions_of self.new ≡ sessions_of self.old) }
        ensures slots { OnOk result (Updates self.old.slots self.new.slots self.old.slots.vacant_key (Some session)) }
        ensures vacant { OnOk result (get self.old.slots self.old.slots.vacant_key ≡ None) }
        ensures opens { OnOk result (self.new.opens ≡ self.old.opens + 1) }
        ensures others { OnOk result ((other : ℕ) → other ≢ self.old.opens →
            slot_in self.new.opened.items other ≡ slot_in self.old.opened.items other) }
        ensures refused { OnErr result ((slot : ℕ) → get self.new.slots slot ≡ get self.old.slots slot) }
        ensures numbers { OnErr result ((self.new.opens ≡ self.old.opens)
            × (self.new.opened.items ≡ self.old.opened.items)) }
        ensures settled { (config : ProtocolConfig) (rings : RingsValue) → AreSettled config rings self.old.slots →
            IsSettled config rings session → AreSettled config rings self.new.slots }
    {
        let number = self.opens;
        if number == usize::MAX {
            return Err(AllocError);
        }
        self.slots.reserve(1)?;
        let slot = self.slots.vacant_key();
        make_room(&mut self.numbers, slot)?;
        self.opened.push(Opened {
            number,
            slot,
            address,
        })?;
        let _slot = self.slots.insert_reserved(session);
        self.numbers[slot] = Some(number);
        self.opens = number + 1;
        Ok(Client::new(number, slot))
    }

    /// A client is gone, and its slot is free. It answers the slot, where the client was open.
    pub fn close(&mut self, number: usize) -> Option<usize>
        requires { IsTable self.old }
        ensures table { IsTable self.new }
        ensures closed { sessions_of self.new ≡ slice_set (sessions_of self.old) number None }
        ensures left { addresses_of self.new ≡ slice_set (addresses_of self.old) number None }
        ensures answer { is_some result ≡ is_some (session_of self.old.opened.items self.old.slots number) }
        ensures freed { IfSome result (λ slot. Updates self.old.slots self.new.slots slot None) }
        ensures slot { result ≡ slot_in self.old.opened.items number }
        ensures opens { self.new.opens ≡ self.old.opens }
        ensures others { (other : ℕ) → other ≢ number →
            slot_in self.new.opened.items other ≡ slot_in self.old.opened.items other }
        ensures absent { result ≡ None → self.new.slots ≡ self.old.slots }
        ensures settled { (config : ProtocolConfig) (rings : RingsValue) → AreSettled config rings self.old.slots →
            AreSettled config rings self.new.slots }
    {
        let at = place_of(self.opened.as_slice(), number)?;
        let gone = self.opened.remove(at);
        self.numbers[gone.slot] = None;
        let _session = self.slots.try_remove(gone.slot);
        Some(gone.slot)
    }
}
