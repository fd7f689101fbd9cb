//! Which addresses a new list admits that an old one doesn't, as networks.
ghost use Rattle.std.specs.Prelude.{◌≡◌, ℕ, ◌<◌, ◌≤◌, ◌^◌, ◌++◌, ◌&&◌, [], IfOk, OnOk, not};
ghost use Rattle.protocol.specs.Access.{allows};
ghost use Rattle.config_explained.specs.Coverage.{coverage};
ghost use Rattle.config_explained.specs.Gains.{by_gain, gain_of, gains, gains_in, masks_at, masks_of};

use crate::coverage::{Coverage, coverage_of};
use crate::network::Network;
use std::alloc::{AllocError, Global};

/// Two lists that are compared.
#[derive(Clone, Copy)]
struct Lists<'a> {
    old: &'a [Network],
    new: &'a [Network],
}

/// The bits that a mask has, or that of one of some networks which meet another one.
fn masks_of(masks: u32, network: Network, others: &[Network]) -> u32
    ensures { result ≡ masks_of masks network others.now }
{
    let mut all = masks;
    for other in others {
        if other.meets(network) {
            all |= other.mask;
        }
    }
    all
}

/// How much of a network gains, by how much of it the two lists admit. Part also stands for what that doesn't say.
fn gain_of(old: Coverage, new: Coverage) -> Coverage
    ensures { result ≡ gain_of old new }
{
    match (old, new) {
        (Coverage::Whole, _) | (_, Coverage::Nothing) => Coverage::Nothing,
        (Coverage::Nothing, Coverage::Whole) => Coverage::Whole,
        (_, _) => Coverage::Part,
    }
}

impl Lists<'_> {
    /// The bits that a mask of a network of them has which meets another one.
    fn masks_at(&self, network: Network) -> u32
        ensures { result ≡ masks_at self.now.old.now self.now.new.now network }
    {
        masks_of(masks_of(0, network, self.old), network, self.new)
    }

    /// How much of a network gains.
    fn gain_of(&self, network: Network) -> Coverage
        ensures { result ≡ gain_of (coverage self.now.old.now network) (coverage self.now.new.now network) }
    {
        gain_of(
            coverage_of(self.old, network),
            coverage_of(self.new, network),
        )
    }

    /// Adds a network to others if all of it gains.
    fn put_whole(&self, gains: &mut Vec<Network>, network: Network) -> Result<(), AllocError>
        ensures { OnOk result (gains.new.items ≡ gains.old.items
            ++ by_gain (gain_of (coverage self.now.old.now network) (coverage self.now.new.now network)) network []) }
    {
        match self.gain_of(network) {
            Coverage::Whole => {
                gains.push(network)?;
                Ok(())
            }
            _ => Ok(()),
        }
    }

    /// Adds the networks that gain in one to others. It is cut at so many of the lowest bits.
    #[tactic(auto, unfolding(crate::specs::Gains::gains_in))]
    fn put_gains(
        &self,
        gains: &mut Vec<Network>,
        bits: u32,
        network: Network,
    ) -> Result<(), AllocError>
        requires { bits ≤ 32 }
        ensures { OnOk result (gains.new.items ≡ gains.old.items
            ++ gains_in self.now.old.now self.now.new.now bits network) }
    {
        if bits == 0 {
            return self.put_whole(gains, network);
        }
        let bit = 1 << (bits - 1);
        let masks = self.masks_at(network);
        if masks & bit == 0 {
            return self.put_gains(gains, bits - 1, network);
        }
        match self.gain_of(network) {
            Coverage::Nothing => Ok(()),
            Coverage::Whole => {
                gains.push(network)?;
                Ok(())
            }
            Coverage::Part => {
                self.put_gains(gains, bits - 1, network.without(bit))?;
                self.put_gains(gains, bits - 1, network.with(bit))
            }
        }
    }
}

/// The networks of the addresses that a new list admits and an old one doesn't, in the order of their addresses, each as
/// large as it can be. Only memory can lack. It takes few steps for networks whose masks have their ones on the left; for
/// others up to one for each pattern of the bits that a mask has which is not so.
pub(crate) fn gains(
    alloc: Global,
    old: &[Network],
    new: &[Network],
) -> Result<Vec<Network>, AllocError>
    ensures value { IfOk result (λ networks. networks.items ≡ gains old.now new.now) }
    ensures words { IfOk result (λ networks. (a : ℕ) → a < 2 ^ 32
        → allows networks.items a ≡ (allows new.now a && not (allows old.now a))) }
{
    let lists = Lists { old, new };
    let mut gains = Vec::new(alloc);
    let everything = Network {
        address: 0,
        mask: 0,
    };
    let _masks = lists.masks_at(everything);
    lists.put_gains(&mut gains, 32, everything)?;
    Ok(gains)
}
