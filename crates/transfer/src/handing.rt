//! Packets that are handed as they are chosen: none of them waits in the session.
//!
//! What a client is handed, and how it goes on, is as if each packet had waited and all of it had been taken. This
//! spares a packet a copy to the bytes that wait and the call that takes it. Where one request
//! alone has records that follow each other (`runs`), it is asked once for all of them which record comes first.
ghost use Rattle.std.specs.Prelude.{◌≡◌, ◌≢◌, ◌≤◌, ◌<◌, ◌+◌, ◌*◌, [], List, ℕ, filter_map, true, false};
ghost use Rattle.std.specs.Prelude.{vec_capacity, vec_len};
ghost use Rattle.std.specs.List.{list_all};
ghost use Rattle.protocol.specs.History.{Arrival, next as next_position, is_over};
ghost use Rattle.protocol.specs.Client.{is_nothing, offered};
ghost use Rattle.station_ring.specs.HeldRecords.{holdings_of};
ghost use Rattle.session_state.specs.Choices.{all_at_start, chosen_of, request_in};
ghost use Rattle.session_state.specs.Sessions.{client_in, but_for_cursors};
ghost use Rattle.session_state.specs.declared.session.State.TheVariants.{Starting, Transfer};
ghost use Rattle.transfer.specs.declared.choosing.Chosen.TheVariants.{Packet, Nothing, Complete};
ghost use Rattle.transfer.specs.Cursors.{ArePassed, IsReached, OfAll};
ghost use Rattle.transfer.specs.Sleeping.{Sleeps};
ghost use Rattle.transfer.specs.Choosing.{answer_of, is_transfer, IsCounted};
ghost use Rattle.transfer.specs.Runs.{AreHanded};

use crate::choosing::{Chosen, end_if_complete, found_next};
use crate::runs::{hand_run, pass_run};
use catalog::Config;
use session_state::{Session, State};
use station_ring::Rings;

/// What packets that were handed as they were chosen led to.
#[derive(Clone, Copy)]
pub struct Handing {
    /// How many they were.
    pub count: usize,
    /// What was chosen first.
    pub chosen: Chosen,
}

/// In a transfer, while nothing waits: the packets that `choose` would make wait one after the other are appended to
/// bytes, and nothing waits: one to `most`, for which there is room. It may be fewer than could be handed. Where there
/// is none, this does what `choose` does.
pub fn choose_into(
    session: &mut Session,
    config: &Config,
    rings: &Rings,
    most: usize,
    out: &mut Vec<u8>,
) -> Handing
    requires nothing { session.old.waiting ≡ [] }
    requires some { 0 < most }
    requires room { vec_len out.old + most * 520 ≤ vec_capacity out.old }
    ensures handed { is_transfer session.old.state ≡ true → ArePassed rings.now session.old → (h : List Arrival)
        → rings.now ≡ holdings_of config.now h → result.chosen ≡ Packet
        → AreHanded config.now h session.old out.old.items session.new.state result.count out.new.items }
    ensures client { is_transfer session.old.state ≡ true → ArePassed rings.now session.old → (h : List Arrival)
        → rings.now ≡ holdings_of config.now h → result.chosen ≢ Packet →
        client_in config.now h session.new ≡ offered h (client_in config.now h session.old) }
    ensures answer { (h : List Arrival) (q : ℕ) → rings.now ≡ holdings_of config.now h
        → session.old.state ≡ Transfer q
        → ArePassed rings.now session.old →
        let requests = filter_map (request_in config.now) (chosen_of session.old.mode) in
        result.chosen ≡ answer_of (next_position h requests q) (list_all (is_over h) requests) }
    ensures elsewhere { is_transfer session.old.state ≡ false → result.chosen ≡ Nothing }
    ensures same { result.chosen ≢ Complete → but_for_cursors session.new
        ≡ but_for_cursors (record session.old { state = session.new.state }) }
    ensures sends { result.chosen ≡ Packet → is_transfer session.new.state ≡ true }
    ensures unchanged { result.chosen ≡ Nothing → but_for_cursors session.new ≡ but_for_cursors session.old }
    ensures passed { ArePassed rings.now session.old → ArePassed rings.now session.new }
    ensures reached { is_transfer session.old.state ≡ true → ArePassed rings.now session.old → result.chosen ≡ Nothing
        → OfAll (IsReached rings.now) (chosen_of session.new.mode) }
    ensures sleeps { is_transfer session.old.state ≡ true → ArePassed rings.now session.old → result.chosen ≡ Nothing
        → Sleeps rings.now session.new }
    ensures ended { result.chosen ≡ Complete → is_nothing session.new.waiting ≡ false }
    ensures requests { all_at_start session.new.mode ≡ all_at_start session.old.mode }
    ensures settled { session.old.state ≢ Starting → session.new.state ≢ Starting }
    ensures places { session.new.places ≡ session.old.places }
    ensures kept { result.chosen ≢ Packet → out.new ≡ out.old }
    ensures some { result.chosen ≡ Packet → 0 < result.count }
    ensures none { result.chosen ≢ Packet → result.count ≡ 0 }
    ensures most { result.count ≤ most }
    ensures len { vec_len out.new ≡ vec_len out.old + result.count * 520 }
    ensures room { vec_capacity out.old ≤ vec_capacity out.new }
    ensures counted { result.chosen ≡ Packet → IsCounted result.count session.old session.new }
    ensures uncounted { result.chosen ≢ Packet → session.new.packets ≡ session.old.packets }
{
    let State::Transfer(next) = session.state() else {
        return Handing {
            count: 0,
            chosen: Chosen::Nothing,
        };
    };
    config.codes_are_distinct();
    match found_next(session, rings, next) {
        Some(found) => {
            let run = hand_run(session, rings, found, most, out);
            pass_run(session, rings, run.last, run.count);
            Handing {
                count: run.count,
                chosen: Chosen::Packet,
            }
        }
        None => Handing {
            count: 0,
            chosen: end_if_complete(session, rings),
        },
    }
}
