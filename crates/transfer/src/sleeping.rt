//! Laws of transfers that wait for records.
//!
//! Whether an offer would find something can be asked without making one (`transfer::finds`). It moves the cursors past
//! what is not wanted, so that asking again costs little, and changes nothing else. Where nothing is found the session
//! `Sleeps`: what its stations hold is not wanted, and more may come. That is said of the rings alone, and not of the
//! history, so that it plainly stays true while other rings change.
ghost use Rattle.std.specs.Prelude.{◌≡◌, ℕ, List, Some, is_some, slice_get, true};
ghost use Rattle.protocol.specs.Catalog.{Config as ProtocolConfig};
ghost use Rattle.protocol.specs.Client.{offered};
ghost use Rattle.protocol.specs.History.{Arrival};
ghost use Rattle.station_ring.specs.HeldRecords.{RingsValue, holdings_of};
ghost use Rattle.session_state.specs.NamedValues.{Choice as ChoiceValue};
ghost use Rattle.session_state.specs.declared.session.State.TheVariants.{Transfer};
ghost use Rattle.session_state.specs.Choices.{chosen_of};
ghost use Rattle.session_state.specs.Sessions.{SessionValue, client_in};
ghost use Rattle.transfer.specs.Sleeping.{Sleeps};

/// An offer to a client whose transfer waits changes nothing.
pub fn sleeping_is_idle()
    ensures { (config : ProtocolConfig) (h : List Arrival) (rings : RingsValue) (s : SessionValue) (q : ℕ)
        → Sleeps rings s → s.state ≡ Transfer q →
        rings ≡ holdings_of config h → client_in config h s ≡ offered h (client_in config h s) }
{}

/// A transfer that waits goes on waiting while the rings of the stations that it asks for stay as they are.
pub fn sleeping_goes_on()
    ensures { (before after : RingsValue) (s : SessionValue) →
        ((i : ℕ) (c : ChoiceValue) → slice_get (chosen_of s.mode) i ≡ Some c → is_some c.action ≡ true
        → slice_get after.rings c.station ≡ slice_get before.rings c.station) →
        Sleeps before s → Sleeps after s }
{}
