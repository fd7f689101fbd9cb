//! Stations of two configurations, and the stations that a view has.
ghost use Rattle.std.specs.Prelude.{◌≡◌, ◌<◌, IfOk, filter, length, map};
ghost use Rattle.std.specs.Net.Addr.{ipv4_bits};
ghost use Rattle.protocol.specs.Catalog.{are_same_stations, sees};
ghost use Rattle.catalog.specs.Places.{station_at, HasDistinctCodes};

use crate::station::Station;
use access_list::AccessList;
use std::alloc::{AllocError, Global};
use std::net::Ipv4Addr;

/// Whether two lists have the same stations in the same order, whoever may use them.
#[tactic(auto, using(crate::proofs::SameLemmas::same_lemmas))]
pub(crate) fn are_same(stations: &[Station], others: &[Station]) -> bool
    ensures { result ≡ are_same_stations (map (λ e. e.station) stations.now) (map (λ e. e.station) others.now) }
{
    if stations.len() != others.len() {
        return false;
    }
    for (place, station) in stations.iter().enumerate() {
        if !station.is_same(&others[place]) {
            return false;
        }
    }
    true
}

/// Whether the stations that an address may use are those at these places, in the same order.
#[tactic(auto, using(crate::proofs::SameLemmas::seen_lemmas))]
pub(crate) fn are_seen(
    stations: &[Station],
    global: &Option<AccessList>,
    address: Ipv4Addr,
    places: &[u16],
) -> bool
    requires { HasDistinctCodes stations.now }
    ensures { result ≡ are_same_stations
        (map (λ e. e.station) (filter (λ e. sees e.access global.now (ipv4_bits address)) stations.now))
        (map (station_at stations.now) places.now) }
{
    let mut at = 0usize;
    for (place, station) in stations.iter().enumerate() {
        if station.is_open_to(global, address) {
            if at == places.len() || usize::from(places[at]) != place {
                return false;
            }
            at += 1;
        }
    }
    at == places.len()
}

/// The same stations once more. Only memory can lack.
pub(crate) fn copies(alloc: Global, stations: &[Station]) -> Result<Vec<Station>, AllocError>
    ensures { IfOk result (λ copies. copies.items ≡ stations.now) }
{
    let mut copies = Vec::new(alloc);
    for station in stations {
        copies.push(station.copy(alloc)?)?;
    }
    Ok(copies)
}
