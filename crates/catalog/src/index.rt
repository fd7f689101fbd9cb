//! Where the stations of a configuration stand, by their codes.
//!
//! A record that arrives finds its station in a map from codes to places (the kit's `HashMap`), which is made while the
//! stations of the configuration are read: a station is put in behind those before it, and the map says whether one of
//! these has the same codes. Codes that are longer than a station's may be are found nowhere.
//!
//! A station's codes are looked up as two numbers, in the index of a configuration alone: the digits of each are the
//! code's length and its bytes, so two codes have one number only if they are the same. To hash and compare lists of
//! bytes took 170 instructions more a record, and told a hidden station from one that is not there by 55. Everywhere
//! else codes are bytes.
ghost use Rattle.std.specs.Prelude.{◌≡◌, ◌≤◌, ◌++◌, ◌∷◌, [], All, IfOk, None, false, length};
ghost use Rattle.protocol.specs.Reading.{Not};
ghost use Rattle.catalog.specs.Places.{HasDistinctCodes};
ghost use Rattle.catalog.specs.Reading.{is_repeated};
ghost use Rattle.catalog.specs.Indexing.{place_in, AreCodes, AreShort, Finds, HasShortCodes};

use crate::codes::Codes;
use crate::station::Station;
use std::alloc::{AllocError, Global};
use std::collections::HashMap;

/// The places of stations, by their codes.
#[derive(Drop)]
pub(crate) struct Index {
    places: HashMap<Codes, usize>,
}

impl Index {
    /// The index of no stations.
    pub fn new(alloc: Global) -> Index
        ensures { Finds result.places [] }
    {
        Index {
            places: HashMap::new(alloc),
        }
    }

    /// The index of stations, no two of which have the same codes.
    pub fn of(alloc: Global, stations: &[Station]) -> Result<Index, AllocError>
        requires { HasDistinctCodes stations.now }
        ensures finds { IfOk result (λ index. Finds index.places stations.now) }
        ensures short { IfOk result (λ index. All HasShortCodes stations.now) }
    {
        let mut index = Index::new(alloc);
        for (place, station) in stations.iter().enumerate() {
            let _ = index.add(&stations[..place], station)?;
        }
        Ok(index)
    }

    /// Puts in a station behind earlier ones, and says whether one of these has the same codes. Then the index is of no
    /// use any more: it has the place of the later one.
    pub fn add(&mut self, earlier: &[Station], station: &Station) -> Result<bool, AllocError>
        requires { Finds self.old.places earlier.now }
        ensures repeated { IfOk result (λ repeated. repeated ≡ is_repeated earlier.now station.now.station) }
        ensures finds { IfOk result (λ repeated. repeated ≡ false
            → Finds self.new.places (earlier.now ++ station.now ∷ [])) }
        ensures short { IfOk result (λ repeated. HasShortCodes station.now) }
    {
        let replaced = self.places.insert(station.codes(), earlier.len())?;
        Ok(replaced.is_some())
    }

    /// The place at these codes.
    pub fn place_of(&self, network: &[u8], code: &[u8]) -> Option<usize>
        ensures short { AreShort network.now code.now → result ≡ place_in self.now.places network.now code.now }
        ensures spelled { AreShort network.now code.now → AreCodes network.now code.now }
        ensures long { Not (AreShort network.now code.now) → result ≡ None }
    {
        let codes = Codes::of(network, code)?;
        self.places.get(&codes).copied()
    }
}
