//! The stations of which a file of records may have records.
ghost use Rattle.std.specs.Prelude.{◌≡◌, Bool, List, ℕ, true};

/// The stations of which a file of records may have records.
pub trait Stations {
    ghost has_station: { Self → List ℕ → List ℕ → Bool };

    /// Whether a station with these codes is one of them.
    fn has(&self, network: &[u8], station: &[u8]) -> bool
        ensures { result ≡ has_station self.now network.now station.now };
}

/// All stations.
#[derive(Clone, Copy)]
pub struct AllStations;

impl Stations for AllStations {
    ghost has_station = { λ _ _ _. true };

    fn has(&self, _network: &[u8], _station: &[u8]) -> bool {
        true
    }
}
