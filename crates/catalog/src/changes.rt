//! Which stations two configurations open to other addresses.
ghost use Rattle.std.specs.Prelude.{◌≡◌, option_map, true};
ghost use Rattle.std.specs.List.{list_all};
ghost use Rattle.std.specs.Net.Addr.{ipv4_bits};
ghost use Rattle.protocol.specs.Catalog.{view_of, is_same_but_for_access};
ghost use Rattle.catalog.specs.Changes.{changed_places, few, is_alike, is_alike_at, is_changed_at, is_same_answer};

use crate::config::Config;
use crate::station::Station;
use arrayvec::ArrayVec;
use std::marker::Model;
use std::net::Ipv4Addr;

/// How many changed stations are listed at most. If more changed, looking at all stations costs little more.
const FEW: usize = 256;

/// The places of the stations whose own access lists differ between two configurations, rising, and at most 256.
#[derive(Drop)]
pub struct Changes {
    places: ArrayVec<usize, FEW>,
}

impl Model for Changes {
    ghost use Rattle.std.specs.Prelude.{List, ℕ};

    ghost Value = { List ℕ };

    ghost view = { λ c. c.places.items };
}

impl Changes {
    /// Compares the own access lists of all stations, token by token, and lists the stations whose lists differ; `None`
    /// if these are more than 256. The configurations' global lists are not compared. It doesn't allocate.
    pub fn between(old: &Config, new: &Config) -> Option<Changes>
        ensures { result ≡ few (changed_places old.now.entries new.now.entries) }
    {
        let places = changed_places(old.stations(), new.stations())?;
        Some(Changes { places })
    }

    /// Whether both configurations answer an address the same at each of these stations, and at any station without a
    /// list of its own. If so, if these are all stations whose lists differ, and if the configurations differ in
    /// nothing but access lists, the address sees the same under both.
    #[tactic(auto, using(crate::proofs::ChangesLemmas::same_view))]
    pub fn spare(&self, old: &Config, new: &Config, address: Ipv4Addr) -> bool
        ensures value { result ≡ is_alike old.now new.now self.now (ipv4_bits address) }
        ensures view { result ≡ true → is_same_but_for_access old.now new.now ≡ true →
            self.now ≡ changed_places old.now.entries new.now.entries →
            view_of new.now (ipv4_bits address) ≡ view_of old.now (ipv4_bits address) }
    {
        is_same(old.sees_others(address), new.sees_others(address))
            && are_alike_at(old, new, address, self.places.as_slice())
    }
}

/// Whether two answers are the same.
fn is_same(one: bool, other: bool) -> bool
    ensures { result ≡ is_same_answer one other }
{
    one == other
}

/// Whether both configurations answer an address the same at a place.
fn is_alike_at(old: &Config, new: &Config, address: Ipv4Addr, place: usize) -> bool
    ensures { result ≡ is_alike_at old.now new.now (ipv4_bits address) place }
{
    is_same(old.sees(place, address), new.sees(place, address))
}

/// Whether they do so at all of these places.
fn are_alike_at(old: &Config, new: &Config, address: Ipv4Addr, places: &[usize]) -> bool
    ensures { result ≡ list_all (is_alike_at old.now new.now (ipv4_bits address)) places.now }
{
    places
        .iter()
        .all(|place| is_alike_at(old, new, address, *place))
}

/// Whether the two stations at a place have different lists of their own.
fn is_changed_at(stations: &[Station], others: &[Station], place: usize) -> bool
    ensures { result ≡ is_changed_at stations.now others.now place }
{
    match (stations.get(place), others.get(place)) {
        (Some(station), Some(other)) => !station.has_same_list(other),
        (_, _) => true,
    }
}

/// The places at which the two stations have different lists of their own, if these are few.
fn changed_places(stations: &[Station], others: &[Station]) -> Option<ArrayVec<usize, FEW>>
    ensures { option_map (λ places. places.items) result ≡ few (changed_places stations.now others.now) }
{
    let mut places = ArrayVec::new();
    for place in 0..stations.len() {
        if is_changed_at(stations, others, place) {
            if places.is_full() {
                return None;
            }
            places.push(place);
        }
    }
    Some(places)
}
