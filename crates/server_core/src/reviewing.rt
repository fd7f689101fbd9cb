//! Clients that a new configuration cuts.
//!
//! `Server::reload` looks at a client's stations only if what changed may concern its address. First it compares the
//! two configurations' lists station by station, once, token by token. Then it asks for each open client whether both
//! configurations answer its address the same under the server's list, and at each station whose own list changed. If
//! they do, the address sees the same stations under both, and the client has the view that it had before: it costs
//! some hundred instructions, and not a walk over all stations. Otherwise all stations are walked over, as they are if
//! the own lists of more than 256 stations changed: to ask two configurations about so many costs half of the walk or
//! more. The 256 places stand on the stack, so that a reload allocates nothing and keeps nothing.
//!
//! A server says of itself that each session has the view of its address or is cut. This is what a client that is
//! passed over rests on. It holds when a client opens, and a reload leaves it so. No other call changes a view, and a
//! client that is cut stays so, whatever it sends or takes: the definitions say this of a client after any history.
//! Therefore a server also says that there is a history whose records its rings hold.
ghost use Rattle.std.specs.Prelude.{◌≡◌, ◌≢◌, ℕ, length, not, Some, true};
ghost use Rattle.std.specs.Net.Addr.{ipv4_bits};
ghost use Rattle.protocol.specs.Catalog.{view_of, is_same_but_for_access, is_same_view};
ghost use Rattle.catalog.specs.Changes.{changed_places, few};
ghost use Rattle.slab.specs.Slab.{get};
ghost use Rattle.session_state.specs.Sessions.{SessionValue, session_view};
ghost use Rattle.server_core.specs.Clients.{AreApart, AreRising};
ghost use Rattle.server_core.specs.Marks.{AreMarked};
ghost use Rattle.server_core.specs.Reloads.{reviewed_session, AreCurrentIn, AreReviewed, IsCurrent};
ghost use Rattle.server_core.specs.ServerValues.{AreSettled, StayOpen};

use crate::clients::Opened;
use crate::marks::Marks;
use catalog::{Changes, Config};
use session_state::{Session, Settled};
use slab::Slab;
use station_ring::Rings;
use std::net::Ipv4Addr;

/// A session is cut, where its address has another view under the configuration. It answers whether it was.
fn review(config: &Config, session: &mut Session, address: Ipv4Addr) -> bool
    ensures session { session.new ≡ reviewed_session config.now (ipv4_bits address) session.old }
    ensures cut { result
        ≡ not (is_same_view (view_of config.now (ipv4_bits address)) (session_view config.now session.old)) }
{
    if config.has_view(address, session.view()) {
        return false;
    }
    session.cut();
    true
}

/// The client in a slot is cut, where its address has another view under the configuration. Then it may be offered
/// something: what waits, or that its connection is over.
fn review_in(
    config: &Config,
    rings: &Rings,
    slots: &mut Slab<Session>,
    marks: &mut Marks,
    slot: usize,
    address: Ipv4Addr,
)
    requires settled { AreSettled config.now rings.now slots.old }
    requires marked { AreMarked config.now rings.now marks.old slots.old }
    ensures here { (s : SessionValue) → get slots.old slot ≡ Some s →
        get slots.new slot ≡ Some (reviewed_session config.now (ipv4_bits address) s) }
    ensures others { (other : ℕ) → other ≢ slot → get slots.new other ≡ get slots.old other }
    ensures settled { AreSettled config.now rings.now slots.new }
    ensures marked { AreMarked config.now rings.now marks.new slots.new }
    ensures stations { length marks.new.rows.items ≡ length marks.old.rows.items }
    ensures kept { StayOpen slots.old slots.new }
{
    let _ = rings;
    match slots.get_mut(slot) {
        Some(session) => {
            if review(config, session, address) {
                marks.heard(slot, session, Settled::Rest);
            }
        }
        None => {}
    }
}

/// Whether an address certainly has the same view under both configurations. If too many stations changed, the
/// answer is no.
fn is_spared(changes: &Option<Changes>, old: &Config, config: &Config, address: Ipv4Addr) -> bool
    ensures { result ≡ true → is_same_but_for_access old.now config.now ≡ true →
        changes.now ≡ few (changed_places old.now.entries config.now.entries) →
        view_of config.now (ipv4_bits address) ≡ view_of old.now (ipv4_bits address) }
{
    match changes {
        Some(changes) => changes.spare(old, config, address),
        None => false,
    }
}

/// Does what `review_in` does, but looks at no station that did not change if the address certainly has the view
/// that it had under the old configuration.
fn review_unless_spared(
    changes: &Option<Changes>,
    old: &Config,
    config: &Config,
    rings: &Rings,
    slots: &mut Slab<Session>,
    marks: &mut Marks,
    one: &Opened,
)
    requires same { is_same_but_for_access old.now config.now ≡ true }
    requires changes { changes.now ≡ few (changed_places old.now.entries config.now.entries) }
    requires current { (s : SessionValue) → get slots.old one.now.slot ≡ Some s →
        IsCurrent old.now (ipv4_bits one.now.address) s }
    requires settled { AreSettled config.now rings.now slots.old }
    requires marked { AreMarked config.now rings.now marks.old slots.old }
    ensures here { (s : SessionValue) → get slots.old one.now.slot ≡ Some s →
        get slots.new one.now.slot ≡ Some (reviewed_session config.now (ipv4_bits one.now.address) s) }
    ensures others { (other : ℕ) → other ≢ one.now.slot → get slots.new other ≡ get slots.old other }
    ensures settled { AreSettled config.now rings.now slots.new }
    ensures marked { AreMarked config.now rings.now marks.new slots.new }
    ensures stations { length marks.new.rows.items ≡ length marks.old.rows.items }
    ensures kept { StayOpen slots.old slots.new }
{
    if !is_spared(changes, old, config, one.address) {
        review_in(config, rings, slots, marks, one.slot, one.address);
    }
}

/// Cuts each open client whose address has another view under the new configuration. Under the old one each has the
/// view of its address, or is cut already. The stations' lists are compared once. After that a client costs a look
/// at each station whose list changed, and a look at all stations only if these don't settle it.
pub fn review_all(
    old: &Config,
    config: &Config,
    rings: &Rings,
    opened: &[Opened],
    slots: &mut Slab<Session>,
    marks: &mut Marks,
)
    requires same { is_same_but_for_access old.now config.now ≡ true }
    requires current { AreCurrentIn old.now opened.now slots.old }
    requires rising { AreRising opened.now }
    requires apart { AreApart opened.now }
    requires settled { AreSettled config.now rings.now slots.old }
    requires marked { AreMarked config.now rings.now marks.old slots.old }
    ensures each { AreReviewed config.now opened.now slots.old slots.new }
    ensures settled { AreSettled config.now rings.now slots.new }
    ensures marked { AreMarked config.now rings.now marks.new slots.new }
    ensures stations { length marks.new.rows.items ≡ length marks.old.rows.items }
    ensures kept { StayOpen slots.old slots.new }
{
    let changes = Changes::between(old, config);
    for one in opened {
        review_unless_spared(&changes, old, config, rings, slots, marks, one);
    }
}
