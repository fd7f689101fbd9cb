//! The stations whose records are put into an archive.
ghost use Rattle.std.specs.Prelude.{◌≡◌};
ghost use Rattle.record_archive.specs.Stations.{is_wanted};

use mseed_header::Header;
use std::alloc::{AllocError, Global};
use std::marker::Model;

/// The codes of a station.
#[derive(Drop)]
pub struct StationCodes {
    network: Vec<u8>,
    station: Vec<u8>,
}

impl Model for StationCodes {
    ghost use Rattle.record_archive.specs.Stations.{CodesValue};

    ghost Value = { CodesValue };

    ghost view = { λ c. record { network = c.network.items; station = c.station.items } };
}

impl StationCodes {
    ghost use Rattle.std.specs.Prelude.{◌≡◌, IfOk};
    ghost use Rattle.record_archive.specs.Stations.{is_of};

    /// These codes.
    pub fn new(alloc: Global, network: &[u8], station: &[u8]) -> Result<StationCodes, AllocError>
        ensures { IfOk result (λ c. c ≡ record { network = network.now; station = station.now }) }
    {
        Ok(StationCodes {
            network: Vec::from_slice(alloc, network)?,
            station: Vec::from_slice(alloc, station)?,
        })
    }

    /// The network's code.
    pub fn network(&self) -> &[u8]
        ensures { result.now ≡ self.now.network }
    {
        self.network.as_slice()
    }

    /// The station's code.
    pub fn station(&self) -> &[u8]
        ensures { result.now ≡ self.now.station }
    {
        self.station.as_slice()
    }

    /// Whether they are the same codes.
    pub(crate) fn is_same(&self, other: &StationCodes) -> bool {
        self.network() == other.network() && self.station() == other.station()
    }

    /// Whether a record is of that station.
    fn are_of(&self, header: &Header<'_>) -> bool
        ensures { result ≡ is_of header.now self.now }
    {
        self.station.as_slice() == header.station() && self.network.as_slice() == header.network()
    }
}

/// Whether a record is of one of these stations.
pub(crate) fn is_wanted(stations: &[StationCodes], header: &Header<'_>) -> bool
    ensures { result ≡ is_wanted stations.now header.now }
{
    for codes in stations {
        if codes.are_of(header) {
            return true;
        }
    }
    false
}
