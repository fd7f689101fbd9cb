//! At which step the reading of a configuration failed.
use crate::fault::ConfigFault;
use crate::settings::StationStep;

/// A step of the reading of a configuration.
#[derive(Clone, Copy, Drop)]
pub enum Step {
    /// The text is TOML in UTF-8.
    Text,
    /// The value of a key, where it has to be there, is there, is of its kind and is within its limits.
    Title,
    Access,
    MaxConnections,
    /// `station` is an array of 1 to 1,024 tables.
    Stations,
    /// A step of the station at a place, counted from 0.
    Station(usize, StationStep),
}

/// Why a text is no configuration, and at which step of its reading.
#[derive(Drop)]
pub struct ConfigError {
    pub fault: ConfigFault,
    pub step: Step,
    /// The network of the station whose step it is, where that was read before.
    pub network: Option<Vec<u8>>,
    /// Its code, likewise.
    pub code: Option<Vec<u8>>,
}

impl ConfigError {
    ghost use Rattle.std.specs.Prelude.{◌≡◌, None, Some, option_map};
    ghost use Rattle.catalog.specs.declared.error.Step.TheVariants.{Station};

    /// A fault at a step that has no station, or at one of which no code was read.
    pub(crate) fn at(fault: ConfigFault, step: Step) -> ConfigError
        ensures fault { result.fault ≡ fault }
        ensures step { result.step ≡ step }
        ensures network { result.network ≡ None }
        ensures code { result.code ≡ None }
    {
        ConfigError {
            fault,
            step,
            network: None,
            code: None,
        }
    }

    /// A fault at the code of the station at a place, of which the network was read.
    pub(crate) fn with_network(fault: ConfigFault, place: usize, network: Vec<u8>) -> ConfigError
        ensures fault { result.fault ≡ fault }
        ensures step { result.step ≡ Station place StationStep.Code }
        ensures network { option_map (λ text. text.items) result.network ≡ Some network.items }
        ensures code { result.code ≡ None }
    {
        ConfigError {
            fault,
            step: Step::Station(place, StationStep::Code),
            network: Some(network),
            code: None,
        }
    }
}
