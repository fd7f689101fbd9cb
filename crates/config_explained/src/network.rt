//! The addresses that an entry of an access list admits.
ghost use Rattle.std.specs.Prelude.{◌≡◌, ◌≤◌};
ghost use Rattle.access_list.specs.Tokens.{leading_ones_of, mask_of, ones};

use access_list::address;
use std::marker::Model;
use text_parts::decimal::number;
use text_parts::separators::cut_at;

/// The addresses that have the same bits as one address wherever a mask is one: an entry of an access list. Both are
/// numbers whose high byte is the first of the four numbers of an address.
#[derive(Clone, Copy, Drop)]
pub struct Network {
    pub address: u32,
    pub mask: u32,
}

impl Model for Network {
    ghost use Rattle.protocol.specs.Access.{Token};

    ghost Value = { Token };

    ghost view = { λ n. record { address = n.address; mask = n.mask } };

    ghost inverse = { λ n. record { address = n.address; mask = n.mask } };
}

impl Network {
    ghost use Rattle.std.specs.Prelude.{Some, option_map};
    ghost use Rattle.std.specs.Result.{result_ok};
    ghost use Rattle.access_list.specs.Addresses.{address_of};
    ghost use Rattle.access_list.specs.Tokens.{mask_of, ones, token_by, token_of};

    /// The network that an entry spells: an address, which is that address alone, or an address, `/` and a mask: a
    /// number 0 to 32 of leading ones, or four numbers joined by dots. None if the entry is anything else.
    pub fn parse(text: &[u8]) -> Option<Network>
        ensures { result ≡ result_ok (token_of text.now) }
    {
        match cut_at(text, b'/') {
            None => Network::alone(text),
            Some((address_text, mask_text)) => Network::masked(address_text, mask_text),
        }
    }

    /// The network of one address.
    fn alone(text: &[u8]) -> Option<Network>
        ensures { result ≡ result_ok (token_by (address_of text.now) (Some (ones 32))) }
    {
        let address = address(text)?;
        Some(Network {
            address: address.to_bits(),
            mask: u32::MAX,
        })
    }

    /// The network of an address and a mask.
    fn masked(text: &[u8], mask_text: &[u8]) -> Option<Network>
        ensures { result ≡ result_ok (token_by (address_of text.now) (mask_of mask_text.now)) }
    {
        let address = address(text)?;
        let mask = mask(mask_text)?;
        Some(Network {
            address: address.to_bits(),
            mask,
        })
    }
}

/// The mask that a text spells: a number of leading ones, or four numbers joined by dots.
fn mask(text: &[u8]) -> Option<u32>
    ensures { result ≡ mask_of text.now }
{
    match leading_ones(text) {
        Some(mask) => Some(mask),
        None => Some(address(text)?.to_bits()),
    }
}

/// The mask of as many leading ones as a number of one or two digits says, at most 32.
fn leading_ones(text: &[u8]) -> Option<u32>
    ensures { result ≡ leading_ones_of text.now }
{
    let count = number(text, 1, 2)?;
    if count > 32 {
        return None;
    }
    Some(ones(count as u32))
}

/// The mask of that many leading ones.
pub(crate) fn ones(count: u32) -> u32
    requires { count ≤ 32 }
    ensures { result ≡ ones count }
{
    if count == 0 {
        0
    } else {
        u32::MAX << (32 - count)
    }
}
