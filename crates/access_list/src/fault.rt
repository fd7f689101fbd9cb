//! Why a text is no list of addresses and masks.
ghost use Rattle.std.specs.Prelude.{◌≡◌};
ghost use Rattle.access_list.specs.Faults.{access_reason};

use protocol::reason::Reason;

/// Why a text is no list of addresses and masks: the fault of its first token that is none, or want of memory.
#[derive(Clone, Copy, Debug, PartialEq, Eq, Drop)]
pub enum AccessFault {
    /// What a token has before its first `/` is no address.
    Address,
    /// What a token has behind its first `/` is no mask.
    Mask,
    /// There is no memory for the list.
    OutOfMemory,
}

impl AccessFault {
    /// The reason by which the program reports it: 11, 12 or 25.
    pub fn reason(self) -> Reason
        ensures { result ≡ access_reason self }
    {
        match self {
            AccessFault::Address => Reason::Address,
            AccessFault::Mask => Reason::Mask,
            AccessFault::OutOfMemory => Reason::OutOfMemory,
        }
    }
}
