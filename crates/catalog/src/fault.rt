//! Why a configuration is refused.
ghost use Rattle.std.specs.Prelude.{◌≡◌};
ghost use Rattle.catalog.specs.Faults.{config_reason, fault_cause};

use access_list::AccessFault;
use protocol::reason::Reason;

/// Why a text is no configuration: the fault of the first step of its reading that fails, or want of memory.
#[derive(Clone, Copy, Debug, PartialEq, Eq, Drop)]
pub enum ConfigFault {
    /// The text is no TOML, or no UTF-8.
    Toml,
    /// A key that has to be there is missing, or a key has a value of another kind.
    Missing,
    /// A value is outside its limits.
    Limit,
    /// An earlier station has the same network and code.
    Duplicate,
    /// The text of an access list is refused, for this cause: an address or a mask.
    Access(AccessFault),
    /// Memory lacks.
    OutOfMemory,
}

impl ConfigFault {
    /// The reason by which the program reports it: 20 to 25.
    pub fn reason(self) -> Reason
        ensures { result ≡ config_reason self }
    {
        match self {
            ConfigFault::Toml => Reason::Toml,
            ConfigFault::Missing => Reason::Missing,
            ConfigFault::Limit => Reason::Limit,
            ConfigFault::Duplicate => Reason::Duplicate,
            ConfigFault::Access(_) => Reason::Access,
            ConfigFault::OutOfMemory => Reason::OutOfMemory,
        }
    }

    /// Why an access list is refused, where that is the fault.
    pub fn cause(self) -> Option<AccessFault>
        ensures { result ≡ fault_cause self }
    {
        match self {
            ConfigFault::Access(cause) => Some(cause),
            _ => None,
        }
    }
}
