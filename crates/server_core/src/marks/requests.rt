//! The rows of the stations: who asks for which.
ghost use Rattle.std.specs.Prelude.{◌≡◌, ◌<◌, ◌||◌, ℕ, length, slice_get, false, IfOk, OnOk};
ghost use Rattle.session_state.specs.Choices.{chosen_of};
ghost use Rattle.server_core.specs.Marks.{Anywhere, Elsewhere, KeepsRows, RoomBy, asked, asked_of, bit_by};

use crate::marks::BitRow;
use session_state::{Entry, Session};
use std::alloc::{AllocError, Global};

/// So many rows with no bit. It fails only where there is no memory.
pub fn no_rows(alloc: Global, count: usize) -> Result<Vec<BitRow>, AllocError>
    ensures { IfOk result (λ rows. length rows.items ≡ count) }
{
    let mut rows = Vec::new(alloc);
    for _place in 0..count {
        rows.push(BitRow::new(alloc))?;
    }
    Ok(rows)
}

/// Makes room for a slot's bit in all rows.
pub fn reserve_all(rows: &mut [BitRow], slot: usize) -> Result<(), AllocError>
    ensures room { OnOk result ((place : ℕ) → RoomBy (slice_get rows.new place) slot) }
    ensures kept { KeepsRows Anywhere rows.old rows.new }
{
    for place in 0..rows.len() {
        rows[place].reserve(slot)?;
    }
    Ok(())
}

/// Clears a slot's bit in all rows.
fn clear(rows: &mut [BitRow], slot: usize)
    ensures cleared { (place : ℕ) → bit_by (slice_get rows.new place) slot ≡ false }
    ensures kept { KeepsRows (Elsewhere slot) rows.old rows.new }
{
    for place in 0..rows.len() {
        rows[place].clear(slot);
    }
}

/// Sets a slot's bit in the row of each station for which something is asked.
fn add(rows: &mut [BitRow], slot: usize, choices: &[Entry])
    requires { (place : ℕ) → RoomBy (slice_get rows.old place) slot }
    ensures added { (place : ℕ) → place < length rows.new → bit_by (slice_get rows.new place) slot
        ≡ (bit_by (slice_get rows.old place) slot || asked_of place choices.now) }
    ensures kept { KeepsRows (Elsewhere slot) rows.old rows.new }
{
    for choice in choices {
        if choice.action.is_some() && choice.station < rows.len() {
            rows[choice.station].set(slot);
        }
    }
}

/// A slot's bit is set in the rows of the stations for which a session asks something, and in no other row.
#[tactic(auto, using(crate::proofs::RowLemmas::asked_entries))]
pub fn keep(rows: &mut [BitRow], slot: usize, session: &Session)
    requires { (place : ℕ) → RoomBy (slice_get rows.old place) slot }
    ensures asked { (place : ℕ) → place < length rows.new →
        bit_by (slice_get rows.new place) slot ≡ asked place (chosen_of session.now.mode) }
    ensures kept { KeepsRows (Elsewhere slot) rows.old rows.new }
{
    clear(rows, slot);
    add(rows, slot, session.choices());
}
