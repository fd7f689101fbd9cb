//! Tokens: addresses with masks.
ghost use Rattle.std.specs.Prelude.{◌≡◌};

use crate::addresses::address;
use crate::fault::AccessFault;
use crate::masks::mask;
use std::marker::Model;
use text_parts::separators::cut_at;

/// An address and a mask, each with the first of its four numbers as its high byte.
#[derive(Clone, Copy)]
pub struct Token {
    address: u32,
    mask: u32,
}

impl Model for Token {
    ghost use Rattle.protocol.specs.Access.{Token as ProtocolToken};

    ghost Value = { ProtocolToken };

    ghost view = { λ t. record { address = t.address; mask = t.mask } };

    ghost inverse = { λ t. record { address = t.address; mask = t.mask } };
}

impl Token {
    ghost use Rattle.protocol.specs.Access.{is_in};
    ghost use Rattle.std.specs.Prelude.{◌↔◌, Some, IsTrue};
    ghost use Rattle.access_list.specs.Addresses.{address_of};
    ghost use Rattle.access_list.specs.Tokens.{mask_of, ones, token_by, token_of};

    /// The token that a text spells: an address, which is that address alone, or an address, `/` and a mask.
    pub fn parse(text: &[u8]) -> Result<Token, AccessFault>
        ensures { result ≡ token_of text.now }
    {
        match cut_at(text, b'/') {
            None => Token::alone(text),
            Some((address_text, mask_text)) => Token::masked(address_text, mask_text),
        }
    }

    /// The token of one address.
    fn alone(text: &[u8]) -> Result<Token, AccessFault>
        ensures { result ≡ token_by (address_of text.now) (Some (ones 32)) }
    {
        let address = address(text).ok_or(AccessFault::Address)?;
        Ok(Token {
            address: address.to_bits(),
            mask: u32::MAX,
        })
    }

    /// The token of an address and a mask.
    fn masked(text: &[u8], mask_text: &[u8]) -> Result<Token, AccessFault>
        ensures { result ≡ token_by (address_of text.now) (mask_of mask_text.now) }
    {
        let address = address(text).ok_or(AccessFault::Address)?;
        let mask = mask(mask_text).ok_or(AccessFault::Mask)?;
        Ok(Token {
            address: address.to_bits(),
            mask,
        })
    }

    /// Whether an address has the token's bits wherever the mask is one.
    pub fn has(&self, address: u32) -> bool
        ensures { result ≡ is_in address self.now }
    {
        address & self.mask == self.address & self.mask
    }

    /// Whether another token has the same address and the same mask.
    pub fn is_same(&self, other: &Token) -> bool
        ensures { IsTrue result ↔ (self.now ≡ other.now) }
    {
        self.address == other.address && self.mask == other.mask
    }
}
