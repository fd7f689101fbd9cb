//! The codes of stations as numbers.
ghost use Rattle.std.specs.Prelude.{◌≡◌, ◌≤◌, IfNone, IfSome, length};
ghost use Rattle.protocol.specs.Reading.{Not};
ghost use Rattle.catalog.specs.Indexing.{codes_eq, key, rank, AreCodes, AreShort, IsNumberOf};

use text_parts::code_numbers::spelled;

/// The code of a station as a number, if it is no longer than such a code may be.
pub(crate) fn code_number(code: &[u8]) -> Option<u64>
    ensures number { IfSome result (λ n. IsNumberOf n code.now) }
    ensures long { IfNone result (Not (length code.now ≤ 5)) }
{
    if code.len() > 5 {
        return None;
    }
    Some(spelled(code))
}

/// The codes of a network and of a station in it, each spelled as a number.
#[derive(Clone, Copy, PartialEq, Eq, Hash)]
pub(crate) struct Codes {
    pub network: u64,
    pub code: u64,
}

impl Codes {
    /// Codes that are no longer than a station's may be.
    pub fn spelling(network: &[u8], code: &[u8]) -> Codes
        requires { AreShort network.now code.now }
        ensures key { result ≡ key network.now code.now }
        ensures spelled { AreCodes network.now code.now }
    {
        Codes {
            network: spelled(network),
            code: spelled(code),
        }
    }

    /// The codes, if they are no longer than a station's may be.
    pub fn of(network: &[u8], code: &[u8]) -> Option<Codes>
        ensures some { IfSome result (λ codes. codes ≡ key network.now code.now) }
        ensures none { IfNone result (Not (AreShort network.now code.now)) }
        ensures spelled { IfSome result (λ codes. AreCodes network.now code.now) }
    {
        if network.len() > 2 || code.len() > 5 {
            return None;
        }
        Some(Codes::spelling(network, code))
    }

    /// Whether both are the same as those, by one comparison: it takes the same instructions wherever they differ.
    pub fn are_same(self, others: Codes) -> bool
        ensures { result ≡ codes_eq self others }
    {
        self.rank() == others.rank()
    }

    /// Both as one number, by which stations are ordered.
    pub fn rank(self) -> u128
        ensures { result ≡ rank self }
    {
        u128::from(self.network) * (1 << 64) + u128::from(self.code)
    }
}
