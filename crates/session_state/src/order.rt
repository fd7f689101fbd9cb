//! Named stations in the order in which the records ahead of their requests came.
//!
//! The order has the index of each of them, and those without a record ahead stand last. Where the record ahead of one
//! is another one, that index alone moves, to the place that is found by halving, and first it is tried at the end:
//! where records come from the stations by turns, the station whose record was sent has the next one of its own after
//! those of all others.
//!
//! A byte for each, sorted once two or more of them may have a record ahead. The bytes between the old place and the
//! new one are moved at once (`memmove`). A packet takes 69 instructions more with 64 requests than with one, and 88
//! more with 255, if records come by turns. By a prototype in Rust with the same entries it is 132 and 174 if they come
//! at random; a tree of winners takes 159 and 202 in both cases, since it compares at each level. A walk over all
//! cursors takes 13.9 for each request. While one request alone has a record ahead, as in a transfer that keeps up, the
//! order is left as it is.
ghost use Rattle.std.specs.Prelude.{◌≡◌, ◌≢◌, ◌≤◌, ◌<◌, ◌+◌, ◌==◌, ℕ, List, length, slice_index};
ghost use Rattle.std.specs.Prelude.{position};
ghost use Rattle.session_state.specs.declared.choices.Entry.{Entry as EntryValue};
ghost use Rattle.std.specs.Vec.{vec_capacity};
ghost use Rattle.session_state.specs.declared.choices.Ahead.TheVariants.{Only};
ghost use Rattle.session_state.specs.Entries.{TellsAhead};
ghost use Rattle.session_state.specs.Orders.{HasSorted, IsEarliest, IsLater, IsOrder, IsReady, IsSortedBut};
ghost use Rattle.session_state.specs.Orders.{IsSortedFrom, ahead_at, is_sooner};

use crate::choices::{Ahead, Entry, First};

/// Whether the request with the index `a` has a record ahead that came before that of the one with the index `b`, if
/// that has one.
fn is_sooner(entries: &[Entry], a: u8, b: u8) -> bool
    requires a { a < length entries.now }
    requires b { b < length entries.now }
    ensures { result ≡ is_sooner (ahead_at entries.now a) (ahead_at entries.now b) }
{
    let own = &entries[usize::from(a)];
    let other = &entries[usize::from(b)];
    match own.cursor.ahead() {
        Some(stamp) => {
            match other.cursor.ahead() {
                Some(than) => stamp < than,
                None => true,
            }
        }
        None => false,
    }
}

/// The index at a place goes to the front, and those before it one place on.
fn raise(order: &mut [u8], place: usize)
    requires { place < length order.old }
    ensures length { length order.new ≡ length order.old }
    ensures front { slice_index order.new 0 ≡ slice_index order.old place }
    ensures moved { (k : ℕ) → k < place → slice_index order.new (k + 1) ≡ slice_index order.old k }
    ensures rest { (k : ℕ) → place < k → slice_index order.new k ≡ slice_index order.old k }
{
    let index = order[place];
    order.copy_within(0..place, 1);
    order[0] = index;
}

/// The first index goes to a place, and those up to there one place back.
fn lower(order: &mut [u8], place: usize)
    requires { place < length order.old }
    ensures length { length order.new ≡ length order.old }
    ensures there { slice_index order.new place ≡ slice_index order.old 0 }
    ensures moved { (k : ℕ) → k < place → slice_index order.new k ≡ slice_index order.old (k + 1) }
    ensures rest { (k : ℕ) → place < k → slice_index order.new k ≡ slice_index order.old k }
{
    let index = order[0];
    order.copy_within(1..place + 1, 0);
    order[place] = index;
}

/// The place of an index, if it is there.
fn find(order: &[u8], i: usize) -> Option<usize>
    ensures { result ≡ position (λ index. index == i) order.now }
{
    order.iter().position(|index| usize::from(*index) == i)
}

/// An index goes to the front, if it is there.
fn to_front(order: &mut [u8], i: usize)
    requires { IsOrder order.old (length order.old) }
    ensures order { IsOrder order.new (length order.old) }
    ensures front { i < length order.old → slice_index order.new 0 ≡ i }
    ensures sorted { (es : List EntryValue) → IsSortedBut i es order.old → IsSortedFrom 1 es order.new }
{
    if let Some(place) = find(order, i) {
        raise(order, place);
    }
}

/// The place of the first index among the others, which stand in their order: no record ahead of those after it came
/// before its own, nor that before those up to there.
fn place_of(order: &[u8], entries: &[Entry]) -> usize
    requires order { IsOrder order.now (length entries.now) }
    requires some { 0 < length order.now }
    requires sorted { IsSortedFrom 1 entries.now order.now }
    ensures within { result < length order.now }
    ensures before { (k : ℕ) → 0 < k → k ≤ result
        → IsLater entries.now (slice_index order.now 0) (slice_index order.now k) }
    ensures after { (k : ℕ) → result < k → k < length order.now
        → IsLater entries.now (slice_index order.now k) (slice_index order.now 0) }
{
    let index = order[0];
    let last = order.len() - 1;
    if !is_sooner(entries, index, order[last]) {
        return last;
    }
    let mut low = 0;
    let mut high = last;
    while low + 1 < high {
        let middle = low + (high - low) / 2;
        if is_sooner(entries, index, order[middle]) {
            high = middle;
        } else {
            low = middle;
        }
    }
    low
}

/// The first index goes to its place among the others, which stand in their order.
fn settle(order: &mut [u8], entries: &[Entry])
    requires order { IsOrder order.old (length entries.now) }
    requires some { 0 < length order.old }
    requires sorted { IsSortedFrom 1 entries.now order.old }
    ensures order { IsOrder order.new (length entries.now) }
    ensures sorted { IsSortedFrom 0 entries.now order.new }
{
    let place = place_of(order, entries);
    lower(order, place);
}

/// Where one request alone might have a record ahead, it goes to the front, so that all stand in their order but the
/// one whose record ahead is another one.
fn bring_the_only(order: &mut [u8], entries: &[Entry], before: Ahead, i: usize)
    requires order { IsOrder order.old (length entries.now) }
    requires ready { IsReady before i entries.now order.old }
    ensures order { IsOrder order.new (length entries.now) }
    ensures sorted { IsSortedBut i entries.now order.new }
{
    let _ = entries;
    match before {
        Ahead::Nobody => {}
        Ahead::Only(j) => to_front(order, j),
        Ahead::Several => {}
    }
}

/// The order once the record ahead of the request with that index is another one and several may have one, where so
/// many might before. It is kept out of its callers, which stay small for a client with one request.
#[inline(never)]
fn put_in_order(order: &mut [u8], entries: &[Entry], before: Ahead, i: usize)
    requires order { IsOrder order.old (length entries.now) }
    requires index { i < length entries.now }
    requires ready { IsReady before i entries.now order.old }
    ensures order { IsOrder order.new (length entries.now) }
    ensures sorted { IsSortedFrom 0 entries.now order.new }
{
    bring_the_only(order, entries, before, i);
    to_front(order, i);
    settle(order, entries);
}

/// The order once the record ahead of the request with that index is another one, where so many might have one before,
/// and so many may have one now.
pub(crate) fn follow(order: &mut Vec<u8>, entries: &[Entry], before: Ahead, now: Ahead, i: usize)
    requires order { IsOrder order.old.items (length entries.now) }
    requires index { i < length entries.now }
    requires ready { IsReady before i entries.now order.old.items }
    ensures order { IsOrder order.new.items (length entries.now) }
    ensures sorted { HasSorted now order.new.items entries.now }
    ensures capacity { vec_capacity order.new ≡ vec_capacity order.old }
{
    match now {
        Ahead::Nobody => {}
        Ahead::Only(_i) => {}
        Ahead::Several => put_in_order(order.as_mut_slice(), entries, before, i),
    }
}

/// The first request in the order, if it has a record ahead.
fn first_of(order: &[u8], entries: &[Entry]) -> Option<First>
    requires order { IsOrder order.now (length entries.now) }
    requires sorted { IsSortedFrom 0 entries.now order.now }
    ensures { IsEarliest entries.now result }
{
    let index = usize::from(*order.first()?);
    match entries[index].cursor.ahead() {
        Some(stamp) => Some(First { index, stamp }),
        None => None,
    }
}

/// The request with that index, if it has a record ahead, where no other has.
fn only_of(entries: &[Entry], index: usize) -> Option<First>
    requires { TellsAhead (Only index) entries.now }
    ensures { IsEarliest entries.now result }
{
    if index >= entries.len() {
        return None;
    }
    match entries[index].cursor.ahead() {
        Some(stamp) => Some(First { index, stamp }),
        None => None,
    }
}

/// The request whose record ahead came first, if one has any.
pub(crate) fn earliest(ahead: Ahead, order: &[u8], entries: &[Entry]) -> Option<First>
    requires order { IsOrder order.now (length entries.now) }
    requires sorted { HasSorted ahead order.now entries.now }
    requires tells { TellsAhead ahead entries.now }
    ensures { IsEarliest entries.now result }
{
    match ahead {
        Ahead::Nobody => None,
        Ahead::Only(index) => only_of(entries, index),
        Ahead::Several => first_of(order, entries),
    }
}
