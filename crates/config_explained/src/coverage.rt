//! How much of a network an access list admits.
ghost use Rattle.std.specs.Prelude.{◌≡◌, ◌<◌, true, false, find, bit_and};
ghost use Rattle.std.specs.Int.{bit_not, w32};
ghost use Rattle.std.specs.List.{list_any};
ghost use Rattle.config_explained.specs.Coverage.{AdmitsAll, coverage, IsBitOf, has_all};
ghost use Rattle.config_explained.specs.Coverage.{has_all_of, meets, with, without};

use crate::network::Network;

/// How much of a network is admitted.
#[derive(Clone, Copy, Drop)]
pub enum Coverage {
    /// All of its addresses.
    Whole,
    /// Some, and not all of them.
    Part,
    /// None of them.
    Nothing,
}

impl Network {
    /// Whether it has all addresses of another network.
    fn has_all(self, other: Network) -> bool
        ensures { result ≡ has_all self other }
    {
        self.mask & other.mask == self.mask && self.address & self.mask == other.address & self.mask
    }

    /// Whether it has an address that another network has.
    pub(crate) fn meets(self, other: Network) -> bool
        ensures { result ≡ meets other self }
    {
        let both = self.mask & other.mask;
        self.address & both == other.address & both
    }

    /// The bits of its mask that are not in another's.
    fn outside(self, other: Network) -> u32
        ensures { result ≡ bit_and self.mask (bit_not w32 other.mask) }
    {
        self.mask & !other.mask
    }

    /// Its addresses without a bit.
    pub(crate) fn without(self, bit: u32) -> Network
        ensures { result ≡ without bit self }
    {
        Network {
            address: self.address & !bit,
            mask: self.mask | bit,
        }
    }

    /// Its addresses with a bit.
    pub(crate) fn with(self, bit: u32) -> Network
        ensures { result ≡ with bit self }
    {
        Network {
            address: self.address | bit,
            mask: self.mask | bit,
        }
    }
}

/// The highest bit of a number.
fn highest_bit(free: u32) -> u32
    requires { 0 < free }
    ensures { IsBitOf result free }
{
    1 << (31 - free.leading_zeros())
}

/// Whether one of some networks has all addresses of another one.
fn is_within_one(networks: &[Network], other: Network) -> bool
    ensures { result ≡ list_any (has_all_of other) networks.now }
{
    networks.iter().any(|network| network.has_all(other))
}

/// The first of some networks that has an address of another one.
fn first_met(networks: &[Network], other: Network) -> Option<Network>
    ensures { result ≡ find (meets other) networks.now }
{
    for network in networks {
        if network.meets(other) {
            return Some(*network);
        }
    }
    None
}

/// Whether some networks together have all addresses of another one. One that has only some of them has a bit in its
/// mask that the other has not: then the addresses with that bit, and those without it, are looked at by themselves.
#[tactic(auto, using(crate::proofs::CoverageLemmas::coverage_lemmas))]
fn have_all(networks: &[Network], other: Network) -> bool
    ensures all { result ≡ true → AdmitsAll networks.now other }
    ensures not_all { result ≡ false → ¬ AdmitsAll networks.now other }
{
    if is_within_one(networks, other) {
        return true;
    }
    match first_met(networks, other) {
        Some(network) => {
            let free = network.outside(other);
            let bit = highest_bit(free);
            have_all(networks, other.without(bit)) && have_all(networks, other.with(bit))
        }
        None => false,
    }
}

/// How much of a network is admitted by a list of networks.
pub fn coverage_of(networks: &[Network], network: Network) -> Coverage
    ensures { result ≡ coverage networks.now network }
{
    if have_all(networks, network) {
        return Coverage::Whole;
    }
    match first_met(networks, network) {
        Some(_) => Coverage::Part,
        None => Coverage::Nothing,
    }
}
