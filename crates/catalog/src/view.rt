//! What one address sees of a configuration.
//!
//! A client finds a station in its own view alone. A view has its places twice: in the order of the configuration, and
//! in the order of the stations' codes, which is made when the client opens. STATION with a network halves the second
//! list, without a network it walks over the first; codes are compared as numbers, both in one comparison, and a step
//! of the halving is a call that is never inlined: in every other form that was tried the compiler makes a branch, and
//! one way then takes an instruction or two more. So all codes that a view doesn't have take the same instructions,
//! those of hidden stations and those that don't exist, and no memory of a hidden station is read. Looking into the
//! configuration's map first differed by 8 instructions of 1,212 and by 5 to 12 nanoseconds, which 120,000 questions
//! tell apart. The second list costs two bytes a station and client, and sorting: some 25,000 instructions for 1,024
//! stations in order, 260,000 at worst.
ghost use Rattle.std.specs.Prelude.{◌≡◌, ◌-◌, ◌<◌, ◌≤◌, ◌++◌, ◌∷◌, [], true, false, min, nat_lt, All, IfOk, IfSome};
ghost use Rattle.std.specs.Prelude.{None, option_map, map, find, length, List, ℕ};
ghost use Rattle.std.specs.List.Sorted.{IsNonDecreasingBy};
ghost use Rattle.protocol.specs.Catalog.{find_station, has_codes};
ghost use Rattle.protocol.specs.Reading.{Not};
ghost use Rattle.catalog.specs.Indexing.{rank, HasShortCodes, IsNumberOf};
ghost use Rattle.catalog.specs.Orders.{rank_at, AreInOrder, Fits, HasCodesAt, IsAround, IsFirstFrom, LacksCodesAt};
ghost use Rattle.catalog.specs.Places.{station_at, view_in, AreRising, IsPlace};
ghost use Rattle.catalog.specs.Finding.{IsWithin, has_code};

use crate::codes::{Codes, code_number};
use crate::config::Config;
use crate::station::Station;
use std::alloc::{AllocError, Global};
use std::marker::Model;

/// The stations that an address sees, by their places in the configuration: in its order, and in the order of their
/// codes, so that one is found by its codes without a look at a station that the address doesn't see.
#[derive(Drop)]
pub struct View {
    places: Vec<u16>,
    by_codes: Vec<u16>,
}

impl Model for View {
    ghost use Rattle.catalog.specs.Places.{AreRising, Seen};

    ghost Value = { Seen };

    ghost view = { λ v. record { places = v.places.items; by_codes = v.by_codes.items } };

    ghost invariant = { λ v. AreRising v.places.items };
}

impl View {
    /// The view that has these places of stations.
    pub(crate) fn of(
        alloc: Global,
        places: Vec<u16>,
        stations: &[Station],
    ) -> Result<View, AllocError>
        requires { AreRising places.items }
        ensures places { IfOk result (λ v. v.places ≡ places.items) }
        ensures ordered { IfOk result (λ v. AreInOrder (station_at stations.now) places.items v.by_codes) }
    {
        let by_codes = in_order(alloc, places.as_slice(), stations)?;
        Ok(View { places, by_codes })
    }

    /// The places, rising.
    pub fn places(&self) -> &[u16]
        ensures value { result.now ≡ self.now.places }
        ensures rising { AreRising result.now }
    {
        self.places.as_slice()
    }

    /// The place of the first of its stations that has these codes, byte for byte (SeedLink 3, STATION). Without a
    /// network it is the first with that code. A view with places that the configuration doesn't have finds nothing.
    ///
    /// It looks at no station that the view doesn't have: a hidden one takes the same steps as an unknown one.
    #[tactic(auto, using(crate::proofs::FindLemmas::find_station_fits))]
    pub fn find(&self, config: &Config, code: &[u8], network: Option<&[u8]>) -> Option<usize>
        ensures found { Fits config.now self.now → option_map (station_at config.now.entries) result
            ≡ find_station (view_in config.now self.now) code.now (option_map (λ n. n.now) network.entry) }
        ensures none { Not (All (IsPlace config.now) self.now.places) → result ≡ None }
        ensures place { IfSome result (λ p. IsPlace config.now p) }
    {
        config.codes_are_short();
        let stations = config.stations();
        if !are_within(stations.len(), self.places()) {
            return None;
        }
        match network {
            Some(network) => self.find_codes(config, network, code),
            None => find_code(stations, self.places(), code),
        }
    }

    /// The place of its station with these codes, found by halving.
    fn find_codes(&self, config: &Config, network: &[u8], code: &[u8]) -> Option<usize>
        ensures found { Fits config.now self.now → option_map (station_at config.now.entries) result
            ≡ find (has_codes network.now code.now) (map (station_at config.now.entries) self.now.places) }
        ensures place { IfSome result (λ p. IsPlace config.now p) }
    {
        config.codes_are_distinct();
        config.codes_are_short();
        let sought = Codes::of(network, code)?;
        let stations = config.stations();
        let by_codes = self.by_codes.as_slice();
        let at = first_from(stations, by_codes, sought);
        codes_at(stations, by_codes, at, sought)
    }
}

/// Some places, in the order of their stations' codes.
fn in_order(alloc: Global, places: &[u16], stations: &[Station]) -> Result<Vec<u16>, AllocError>
    ensures { IfOk result (λ order. AreInOrder (station_at stations.now) places.now order.items) }
{
    let mut order = places.to_vec(alloc)?;
    order.sort_unstable_by_key(|place| rank_at(stations, *place));
    Ok(order)
}

/// Where the station at a place stands in the order of codes.
fn rank_at(stations: &[Station], place: u16) -> u128
    ensures { result ≡ rank_at stations.now place }
{
    match stations.get(usize::from(place)) {
        Some(station) => station.codes().rank(),
        None => 0,
    }
}

/// Of places in the order of codes, the first whose station doesn't come before these.
fn first_from(stations: &[Station], by_codes: &[u16], sought: Codes) -> usize
    ensures { IsNonDecreasingBy (rank_at stations.now) by_codes.now
        → IsFirstFrom (λ p. nat_lt (rank_at stations.now p) (rank sought)) by_codes.now result }
{
    let rank = sought.rank();
    let at = border(stations, by_codes, rank);
    match by_codes.get(at) {
        Some(place) => at + step(1, rank_at(stations, *place) < rank),
        None => at,
    }
}

/// Of places in the order of codes, one before which all stations come before a rank, and after which none does.
///
/// What is left is halved as often as their count asks for, without a branch by what is found, so that it takes the
/// same instructions wherever it ends.
fn border(stations: &[Station], by_codes: &[u16], rank: u128) -> usize
    ensures border { IsNonDecreasingBy (rank_at stations.now) by_codes.now
        → IsAround (λ p. nat_lt (rank_at stations.now p) rank) by_codes.now result 1 }
    ensures inside { result ≤ length by_codes.now - 1 }
{
    let mut at = 0;
    let mut left = by_codes.len();
    while left > 1 {
        let half = left / 2;
        let is_before = rank_at(stations, by_codes[at + half - 1]) < rank;
        at += step(half, is_before);
        left -= half;
    }
    at
}

/// How far to go: over so many places or not. A call of its own, since the compiler makes a branch of it in a loop.
#[inline(never)]
fn step(places: usize, is_before: bool) -> usize
    ensures yes { is_before ≡ true → result ≡ places }
    ensures no { is_before ≡ false → result ≡ 0 }
{
    if is_before { places } else { 0 }
}

/// The place there, or the last one, if its station has these codes. It takes the same steps for all codes that it
/// hasn't.
fn codes_at(stations: &[Station], by_codes: &[u16], at: usize, sought: Codes) -> Option<usize>
    ensures some { IfSome result (λ p. HasCodesAt stations.now by_codes.now sought p) }
    ensures none { result ≡ None → LacksCodesAt stations.now by_codes.now (min at (length by_codes.now - 1)) sought }
{
    let last = by_codes.len().checked_sub(1)?;
    let place = usize::from(by_codes[at.min(last)]);
    let station = stations.get(place)?;
    if station.codes().are_same(sought) {
        Some(place)
    } else {
        None
    }
}

/// One place more. There are no more than 1,024 stations, so a place takes two bytes.
pub(crate) fn see(places: &mut Vec<u16>, place: usize) -> Result<(), AllocError>
    requires { place < 1024 }
    ensures { IfOk result (λ done. places.new.items ≡ places.old.items ++ place ∷ []) }
{
    places.push(place as u16)?;
    Ok(())
}

/// Whether all of some places that rise are below a count.
fn are_within(count: usize, places: &[u16]) -> bool
    requires { AreRising places.now }
    ensures yes { result ≡ true → All (λ p. p < count) places.now }
    ensures no { result ≡ false → Not (All (λ p. p < count) places.now) }
{
    match places.last() {
        Some(last) => usize::from(*last) < count,
        None => true,
    }
}

/// The first of the places whose station has this code.
fn find_code(stations: &[Station], places: &[u16], code: &[u8]) -> Option<usize>
    requires within { All (IsWithin stations.now) places.now }
    requires short { All HasShortCodes stations.now }
    ensures found { option_map (station_at stations.now) result
        ≡ find (has_code code.now) (map (station_at stations.now) places.now) }
    ensures place { IfSome result (λ p. IsWithin stations.now p) }
{
    let sought = code_number(code)?;
    for place in places {
        let place = usize::from(*place);
        if has_code(&stations[place], sought) {
            return Some(place);
        }
    }
    None
}

/// Whether a station has the code that this number is.
fn has_code(station: &Station, number: u64) -> bool
    ensures { (code : List ℕ) → IsNumberOf number code → result ≡ has_code code station.now.station }
{
    station.codes().code == number
}
