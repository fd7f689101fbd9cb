//! The stations of a configuration, of which a file may have records.
use catalog::Config;
use record_check::Stations;

/// The stations of a configuration, of which a file may have records.
#[derive(Clone, Copy)]
pub struct ConfiguredStations<'c> {
    config: &'c Config,
}

impl<'c> ConfiguredStations<'c> {
    /// Those of that configuration.
    pub fn new(config: &'c Config) -> ConfiguredStations<'c> {
        ConfiguredStations { config }
    }
}

impl Stations for ConfiguredStations<'_> {
    ghost use Rattle.job_base.specs.Configured.{has_station};

    ghost has_station = { λ s. has_station s.config.now };

    fn has(&self, network: &[u8], station: &[u8]) -> bool {
        self.config.place_of(network, station).is_some()
    }
}
