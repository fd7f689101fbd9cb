//! Which clients an offer may find something for, by the slots of their sessions: rows of bits, one for each slot. Only
//! `reserve` takes memory.
ghost use Rattle.std.specs.Prelude.{◌≡◌, ◌<◌, ◌||◌, ◌&&◌, ℕ, length, not, slice_get, true, false, IfOk, OnOk};
ghost use Rattle.server_core.specs.Rows.{bit_of, HasRoom};
ghost use Rattle.session_state.specs.Choices.{chosen_of};
ghost use Rattle.session_state.specs.declared.session.Settled.TheVariants.{Rest, Start};
ghost use Rattle.transfer.specs.Choosing.{is_transfer};
ghost use Rattle.server_core.specs.Refusals.{is_idle};
ghost use Rattle.server_core.specs.Marks.{Anywhere, Elsewhere, HasRooms, Keeps, asked, bit_by, sends_after};
ghost use Rattle.std.specs.Prelude.{◌≢◌, ◌≤◌, ◌^◌, ◌*◌, nat_lt};
ghost use Rattle.std.specs.List.{slice_index};

use crate::client::Offer;
use session_state::{Session, Settled, State};
use std::alloc::{AllocError, Global};

mod requests;

/// A bit for each slot, from 0 on. A slot that the row has no room for has none, which is read as no.
#[derive(Drop)]
pub struct BitRow {
    words: Vec<u64>,
}

impl BitRow {
    ghost use Rattle.server_core.specs.Rows.{bit_of, HasRoom};

    /// A row with no bit.
    pub fn new(alloc: Global) -> BitRow
        ensures { (slot : ℕ) → bit_of result slot ≡ false }
    {
        BitRow {
            words: Vec::new(alloc),
        }
    }

    /// Whether there is room for a slot's bit.
    pub fn has_room(&self, slot: usize) -> bool
        ensures { result ≡ nat_lt slot (64 * length self.now.words.items) }
    {
        slot / 64 < self.words.len()
    }

    /// Makes room for the bits of the slots up to one. All bits stay. It fails only where there is no memory.
    pub fn reserve(&mut self, slot: usize) -> Result<(), AllocError>
        ensures room { OnOk result (HasRoom self.new slot) }
        ensures kept { (other : ℕ) → bit_of self.new other ≡ bit_of self.old other }
        ensures longer { length self.old.words.items ≤ length self.new.words.items }
    {
        if !self.has_room(slot) {
            self.words.resize(slot / 64 + 1, 0)?;
        }
        Ok(())
    }

    /// Whether a slot's bit is set.
    pub fn is_set(&self, slot: usize) -> bool
        ensures { result ≡ bit_of self.now slot }
    {
        match self.words.get(slot / 64) {
            Some(word) => (*word >> (slot % 64)) & 1 == 1,
            None => false,
        }
    }

    /// The bits of 64 slots, as one word; no bit is set where there is no room for them.
    fn word(&self, at: usize) -> u64
        ensures { result ≡ slice_index self.now.words.items at }
    {
        self.words.get(at).copied().unwrap_or(0)
    }

    /// The first slot from one on, and before another one, whose bit is set; that other one where there is none.
    pub fn next_set(&self, from: usize, end: usize) -> usize
        requires { end < 2 ^ 63 }
        ensures after { from ≤ end → from ≤ result }
        ensures before { result ≤ end }
        ensures set { result < end → bit_of self.now result ≡ true }
        ensures passed { (slot : ℕ) → from ≤ slot → slot < result → bit_of self.now slot ≡ false }
    {
        let mut at = from;
        'groups: while at < end {
            let rest = self.word(at / 64) >> (at % 64);
            if rest != 0 {
                return end.min(at + rest.trailing_zeros() as usize);
            }
            at = at - at % 64 + 64;
        }
        end
    }

    /// Sets a slot's bit, which there is room for.
    pub fn set(&mut self, slot: usize)
        requires { HasRoom self.old slot }
        ensures here { bit_of self.new slot ≡ true }
        ensures others { (other : ℕ) → other ≢ slot → bit_of self.new other ≡ bit_of self.old other }
        ensures room { length self.new.words.items ≡ length self.old.words.items }
    {
        let word = self.words[slot / 64];
        self.words[slot / 64] = word | (1u64 << (slot % 64));
    }

    /// Clears a slot's bit.
    pub fn clear(&mut self, slot: usize)
        ensures here { bit_of self.new slot ≡ false }
        ensures others { (other : ℕ) → other ≢ slot → bit_of self.new other ≡ bit_of self.old other }
        ensures room { length self.new.words.items ≡ length self.old.words.items }
    {
        if self.has_room(slot) {
            let word = self.words[slot / 64];
            self.words[slot / 64] = word & !(1u64 << (slot % 64));
        }
    }

    /// Makes a slot's bit say yes or no. There is room for it.
    pub fn put(&mut self, slot: usize, yes: bool)
        requires { HasRoom self.old slot }
        ensures here { bit_of self.new slot ≡ yes }
        ensures others { (other : ℕ) → other ≢ slot → bit_of self.new other ≡ bit_of self.old other }
        ensures room { length self.new.words.items ≡ length self.old.words.items }
    {
        if yes {
            self.set(slot);
        } else {
            self.clear(slot);
        }
    }

    /// Sets each bit that is set in both of two other rows, where there is room for it.
    pub fn add_common(&mut self, one: &BitRow, other: &BitRow)
        ensures bits { (slot : ℕ) → HasRoom self.old slot
            → bit_of self.new slot ≡ (bit_of self.old slot || (bit_of one.now slot && bit_of other.now slot)) }
        ensures room { length self.new.words.items ≡ length self.old.words.items }
    {
        let both = one.words.len().min(other.words.len());
        for i in 0..self.words.len().min(both) {
            let word = self.words[i];
            self.words[i] = word | (one.words[i] & other.words[i]);
        }
    }
}

/// A bit for each slot, of each kind.
#[derive(Drop)]
pub struct Marks {
    /// The clients for which an offer may find something. For all others it finds nothing.
    pub marked: BitRow,
    /// Those in a transfer.
    pub sending: BitRow,
    /// For each station, at its place, those with a request there. It is kept for those in a transfer, and says nothing
    /// of others.
    pub rows: Vec<BitRow>,
}

/// Whether a session is in a transfer.
fn is_sending(session: &Session) -> bool
    ensures { result ≡ is_transfer session.now.state }
{
    match session.state() {
        State::Transfer(_) => true,
        State::Negotiating => false,
        State::Listing(_) => false,
        State::Starting => false,
        State::Ending => false,
    }
}

/// Whether an offer finds nothing.
fn is_nothing_found(found: Offer) -> bool
    ensures { result ≡ is_idle found }
{
    match found {
        Offer::Idle => true,
        Offer::Bytes => false,
        Offer::Ended => false,
    }
}

impl Marks {
    /// No client, and so many stations. Only memory can lack.
    pub fn new(alloc: Global, stations: usize) -> Result<Marks, AllocError>
        ensures marked { IfOk result (λ marks. (slot : ℕ) → bit_of marks.marked slot ≡ false) }
        ensures sending { IfOk result (λ marks. (slot : ℕ) → bit_of marks.sending slot ≡ false) }
        ensures stations { IfOk result (λ marks. length marks.rows.items ≡ stations) }
    {
        let rows = requests::no_rows(alloc, stations)?;
        Ok(Marks {
            marked: BitRow::new(alloc),
            sending: BitRow::new(alloc),
            rows,
        })
    }

    /// Makes room for a slot's bits. All bits stay. It fails only where there is no memory.
    pub fn reserve(&mut self, slot: usize) -> Result<(), AllocError>
        ensures room { OnOk result (HasRooms self.new slot) }
        ensures kept { Keeps Anywhere self.old self.new }
    {
        requests::reserve_all(self.rows.as_mut_slice(), slot)?;
        self.sending.reserve(slot)?;
        self.marked.reserve(slot)
    }

    /// Whether an offer may find something.
    pub fn is_marked(&self, slot: usize) -> bool
        ensures { result ≡ bit_of self.now.marked slot }
    {
        let _ = &self.rows;
        self.marked.is_set(slot)
    }

    /// The client in a slot was heard, or bytes of it were handed: an offer may find something. Where a transfer was to
    /// start, its requests are kept.
    pub fn heard(&mut self, slot: usize, session: &Session, settled: Settled)
        requires { HasRooms self.old slot }
        ensures marked { bit_of self.new.marked slot ≡ true }
        ensures sends { bit_of self.new.sending slot ≡ is_transfer session.now.state }
        ensures started { settled ≡ Start → (place : ℕ) → place < length self.new.rows.items →
            bit_by (slice_get self.new.rows.items place) slot ≡ asked place (chosen_of session.now.mode) }
        ensures rest { settled ≡ Rest → self.new.rows.items ≡ self.old.rows.items }
        ensures kept { Keeps (Elsewhere slot) self.old self.new }
    {
        match settled {
            Settled::Rest => {}
            Settled::Start => requests::keep(self.rows.as_mut_slice(), slot, session),
        }
        self.sending.put(slot, is_sending(session));
        self.marked.set(slot);
    }

    /// The client in a slot is in no transfer any more, or stays in one.
    fn stay(&mut self, slot: usize, session: &Session)
        ensures sends { bit_of self.new.sending slot
            ≡ (bit_of self.old.sending slot && is_transfer session.now.state) }
        ensures marked { self.new.marked ≡ self.old.marked }
        ensures rest { self.new.rows.items ≡ self.old.rows.items }
        ensures kept { Keeps (Elsewhere slot) self.old self.new }
    {
        let sending = &mut self.sending;
        if !is_sending(session) {
            sending.clear(slot);
        }
    }

    /// An offer to the client in a slot found this.
    fn note(&mut self, slot: usize, found: Offer)
        ensures marked { bit_of self.new.marked slot ≡ (bit_of self.old.marked slot && not (is_idle found)) }
        ensures sending { self.new.sending ≡ self.old.sending }
        ensures rest { self.new.rows.items ≡ self.old.rows.items }
        ensures kept { Keeps (Elsewhere slot) self.old self.new }
    {
        let _ = &self.rows;
        if is_nothing_found(found) {
            self.marked.clear(slot);
        }
    }

    /// The client in a slot was offered what comes next. Where nothing was found, none will be before something comes.
    /// Else it stays marked: for one that is not nothing is found.
    pub fn offered(&mut self, slot: usize, session: &Session, found: Offer)
        ensures marked { bit_of self.new.marked slot ≡ (bit_of self.old.marked slot && not (is_idle found)) }
        ensures sends { bit_of self.new.sending slot
            ≡ (bit_of self.old.sending slot && is_transfer session.now.state) }
        ensures rest { self.new.rows.items ≡ self.old.rows.items }
        ensures kept { Keeps (Elsewhere slot) self.old self.new }
    {
        self.stay(slot, session);
        self.note(slot, found);
    }

    /// Bytes of the client in a slot were handed. It stays marked: bytes waited for it. Where a transfer was to start,
    /// its requests are kept.
    pub fn took(&mut self, slot: usize, session: &Session, settled: Settled)
        requires { HasRooms self.old slot }
        ensures marked { bit_of self.new.marked slot ≡ bit_of self.old.marked slot }
        ensures sends { bit_of self.new.sending slot
            ≡ sends_after settled (bit_of self.old.sending slot) (is_transfer session.now.state) }
        ensures started { settled ≡ Start → (place : ℕ) → place < length self.new.rows.items →
            bit_by (slice_get self.new.rows.items place) slot ≡ asked place (chosen_of session.now.mode) }
        ensures rest { settled ≡ Rest → self.new.rows.items ≡ self.old.rows.items }
        ensures kept { Keeps (Elsewhere slot) self.old self.new }
    {
        match settled {
            Settled::Rest => self.stay(slot, session),
            Settled::Start => {
                requests::keep(self.rows.as_mut_slice(), slot, session);
                self.sending.put(slot, is_sending(session));
            }
        }
    }

    /// Bytes of the client in a slot were handed, and it was offered what comes next. Where a transfer was to start,
    /// its requests are kept.
    pub fn went_on(&mut self, slot: usize, session: &Session, settled: Settled, found: Offer)
        requires { HasRooms self.old slot }
        ensures marked { bit_of self.new.marked slot ≡ (bit_of self.old.marked slot && not (is_idle found)) }
        ensures sends { bit_of self.new.sending slot
            ≡ sends_after settled (bit_of self.old.sending slot) (is_transfer session.now.state) }
        ensures started { settled ≡ Start → (place : ℕ) → place < length self.new.rows.items →
            bit_by (slice_get self.new.rows.items place) slot ≡ asked place (chosen_of session.now.mode) }
        ensures rest { settled ≡ Rest → self.new.rows.items ≡ self.old.rows.items }
        ensures kept { Keeps (Elsewhere slot) self.old self.new }
    {
        self.took(slot, session, settled);
        self.note(slot, found);
    }

    /// The client in a slot is gone.
    pub fn leave(&mut self, slot: usize)
        ensures marked { bit_of self.new.marked slot ≡ false }
        ensures sending { bit_of self.new.sending slot ≡ false }
        ensures kept { Keeps (Elsewhere slot) self.old self.new }
    {
        let _ = &self.rows;
        self.sending.clear(slot);
        self.marked.clear(slot);
    }

    /// A record of the station at a place arrived: an offer may find something for each client in a transfer with a
    /// request there.
    pub fn arrived(&mut self, place: usize)
        ensures marked { (slot : ℕ) → HasRoom self.old.marked slot → bit_of self.new.marked slot
            ≡ (bit_of self.old.marked slot
            || (bit_by (slice_get self.old.rows.items place) slot && bit_of self.old.sending slot)) }
        ensures room { length self.new.marked.words.items ≡ length self.old.marked.words.items }
        ensures sending { self.new.sending ≡ self.old.sending }
        ensures rows { self.new.rows.items ≡ self.old.rows.items }
    {
        if let Some(row) = self.rows.get(place) {
            self.marked.add_common(row, &self.sending);
        }
    }
}
