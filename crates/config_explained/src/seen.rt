//! The stations that an address sees.
ghost use Rattle.std.specs.Prelude.{◌≡◌, ◌++◌, IfOk, OnOk};
ghost use Rattle.std.specs.Net.Addr.{ipv4_bits};
ghost use Rattle.protocol.specs.Catalog.{view_of};
ghost use Rattle.config_explained.specs.Seen.{seen_line, seen_text};

use crate::lines::{put, put_padded};
use catalog::{Config, Station};
use std::alloc::{AllocError, Global};
use std::net::Ipv4Addr;

/// The line of a station: as CAT has it, but ended by LF alone.
fn put_station(text: &mut Vec<u8>, station: &Station) -> Result<(), AllocError>
    ensures { OnOk result (text.new.items ≡ text.old.items ++ seen_line station.now.station) }
{
    put_padded(text, station.network(), 2)?;
    put(text, b" ")?;
    put_padded(text, station.code(), 5)?;
    put(text, b" ")?;
    put(text, station.description())?;
    put(text, b"\n")
}

/// The stations that an address sees, in order, a line each. Only memory can lack.
#[tactic(auto, using(crate::proofs::SeenLemmas::seen_lemmas))]
pub fn seen_by(alloc: Global, config: &Config, address: Ipv4Addr) -> Result<Vec<u8>, AllocError>
    ensures { IfOk result (λ text. text.items ≡ seen_text (view_of config.now (ipv4_bits address))) }
{
    let mut text = Vec::new(alloc);
    for (place, station) in config.stations().iter().enumerate() {
        if config.sees(place, address) {
            put_station(&mut text, station)?;
        }
    }
    Ok(text)
}
