//! The places of the status port, and which of them the next connection gets.
ghost use Rattle.std.specs.Prelude.{All};
ghost use Rattle.status_ports.specs.Doors.{AskersValue, IsAllowed, IsHeldFor};

use crate::door::Visitor;
use crate::kept::{Found, KeptTexts};
use crate::slot::{Slot, Stage};
use status_page::{StatusRequest, all_templates, write_refusal};

/// Texts that are used while an answer is made: the body of a refusal, and a single value.
#[derive(Drop)]
pub struct Scratch {
    pub refusal: Vec<u8>,
    pub value: Vec<u8>,
}

/// A place where no connection is.
fn free_place(slots: &[Slot]) -> Option<usize> {
    slots.iter().position(|slot| slot.visitor.is_none())
}

/// What a connection does that may be given up for another one.
#[derive(Clone, Copy)]
enum Pastime {
    /// Its head is not complete, or all was sent.
    Waiting,
    /// Its answer goes.
    Taking,
}

/// Whether a place is one of them. One whose request waits for an answer is not given up.
fn is_at(slot: &Slot, pastime: Pastime) -> bool {
    match slot.stage {
        Stage::Reading | Stage::Ending => matches!(pastime, Pastime::Waiting),
        Stage::Sending => matches!(pastime, Pastime::Taking),
        Stage::Asked(_) => false,
    }
}

/// The oldest connection of those.
fn oldest(slots: &[Slot], pastime: Pastime) -> Option<usize> {
    let mut oldest: Option<(usize, u64)> = None;
    for (place, slot) in slots.iter().enumerate() {
        let since = slot.exchange.since();
        let is_older = match oldest {
            Some((_, before)) => since < before,
            None => true,
        };
        if is_at(slot, pastime) && is_older {
            oldest = Some((place, since));
        }
    }
    match oldest {
        Some((place, _)) => Some(place),
        None => None,
    }
}

/// The place that the next connection gets: a free one, or else that of the oldest connection whose head is not
/// complete or to which all was sent, or else of the oldest that is sent something. None if each waits for an answer.
pub fn place_for(slots: &[Slot]) -> Option<usize> {
    if let Some(place) = free_place(slots) {
        return Some(place);
    }
    match oldest(slots, Pastime::Waiting) {
        Some(place) => Some(place),
        None => oldest(slots, Pastime::Taking),
    }
}

/// A connection comes to a place, and what it has sent already is read.
pub fn seat(slots: &mut [Slot], place: usize, visitor: Visitor, now: u64, name: &[u8])
    ensures { (a : AskersValue) → IsAllowed a visitor → All (IsHeldFor a) slots.old → All (IsHeldFor a) slots.new }
{
    if place < slots.len() {
        let slot = &mut slots[place];
        slot.begin(visitor, now);
        slot.step(now, name);
    }
}

/// Each connection takes a step, at a server of a name.
pub fn step_all(slots: &mut [Slot], now: u64, name: &[u8])
    ensures { (a : AskersValue) → All (IsHeldFor a) slots.old → All (IsHeldFor a) slots.new }
{
    for slot in slots.iter_mut() {
        slot.step(now, name);
    }
}

/// Answers a request that waits at a place, if its text is kept or it is refused. Else it, for which one is to be made.
fn answer_one(
    slot: &mut Slot,
    kept: &KeptTexts,
    scratch: &mut Scratch,
    request: StatusRequest,
    now: u64,
) -> Option<StatusRequest>
    ensures { (a : AskersValue) → IsHeldFor a slot.old → IsHeldFor a slot.new }
{
    match kept.fresh(request.target, now) {
        Found::Fresh(text) => {
            let is_silent = text.is_silent();
            slot.answer(
                &mut scratch.value,
                &all_templates(),
                request,
                is_silent,
                text.body(),
            );
            None
        }
        Found::Missing => Some(request),
        Found::Refusal => {
            let Scratch { refusal, value } = scratch;
            if write_refusal(refusal, value, &all_templates(), request.target).is_ok() {
                slot.answer(value, &all_templates(), request, false, refusal.as_slice());
            }
            None
        }
    }
}

/// Answers a place, if its request waits, and sends as much as is taken at once.
fn serve(
    slot: &mut Slot,
    kept: &KeptTexts,
    scratch: &mut Scratch,
    now: u64,
    name: &[u8],
) -> Option<StatusRequest>
    ensures { (a : AskersValue) → IsHeldFor a slot.old → IsHeldFor a slot.new }
{
    let request = slot.asked()?;
    let missing = answer_one(slot, kept, scratch, request, now);
    slot.step(now, name);
    missing
}

/// Of requests whose texts are to be made, the one whose text is older, so that none waits for another one's for long.
fn older_of(kept: &KeptTexts, one: Option<StatusRequest>, other: StatusRequest) -> StatusRequest {
    match one {
        Some(one) if kept.made(one.target) <= kept.made(other.target) => one,
        _ => other,
    }
}

/// Answers each request that waits and whose text is kept. Else one for which a text is to be made, if there is one.
pub fn serve_all(
    slots: &mut [Slot],
    kept: &KeptTexts,
    scratch: &mut Scratch,
    now: u64,
    name: &[u8],
) -> Option<StatusRequest>
    ensures { (a : AskersValue) → All (IsHeldFor a) slots.old → All (IsHeldFor a) slots.new }
{
    let mut missing = None;
    for slot in slots.iter_mut() {
        if let Some(request) = serve(slot, kept, scratch, now, name) {
            missing = Some(older_of(kept, missing, request));
        }
    }
    missing
}

/// Closes each connection that waits for an answer.
pub fn give_up_all(slots: &mut [Slot])
    ensures { (a : AskersValue) → All (IsHeldFor a) slots.old → All (IsHeldFor a) slots.new }
{
    for slot in slots.iter_mut() {
        if slot.asked().is_some() {
            slot.visitor = None;
        }
    }
}
