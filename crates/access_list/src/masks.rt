//! Masks.
ghost use Rattle.std.specs.Prelude.{◌≡◌, ◌≤◌};
ghost use Rattle.access_list.specs.Tokens.{mask_of, leading_ones_of, ones};

use crate::addresses::address;
use text_parts::decimal::number;

/// The mask that a text spells, its high byte for the first number of an address: a number 0 to 32 of one or two
/// digits, which is that many leading one-bits, or four numbers joined by dots, whose one-bits may stand anywhere.
pub fn mask(text: &[u8]) -> Option<u32>
    ensures { result ≡ mask_of text.now }
{
    match leading_ones(text) {
        Some(mask) => Some(mask),
        None => Some(address(text)?.to_bits()),
    }
}

/// The mask of as many leading one-bits as a number of one or two digits says, at most 32.
fn leading_ones(text: &[u8]) -> Option<u32>
    ensures { result ≡ leading_ones_of text.now }
{
    let count = number(text, 1, 2)?;
    if count > 32 {
        return None;
    }
    Some(ones(count as u32))
}

/// The mask of that many leading one-bits.
fn ones(count: u32) -> u32
    requires { count ≤ 32 }
    ensures { result ≡ ones count }
{
    if count == 0 {
        0
    } else {
        u32::MAX << (32 - count)
    }
}
