//! Addresses.
ghost use Rattle.std.specs.Prelude.{◌≡◌};
ghost use Rattle.std.specs.Option.{option_map};
ghost use Rattle.std.specs.Net.Addr.{ipv4_bits};
ghost use Rattle.access_list.specs.Addresses.{address_of, octet_of, octets_of};

use std::net::Ipv4Addr;
use text_parts::decimal::number;
use text_parts::separators::cut_at;

/// The address that a text spells: four decimal numbers 0 to 255 of one to three digits each, joined by dots. Leading
/// zeros are allowed, as in `010.000.0.7`. None where it is anything else.
pub fn address(text: &[u8]) -> Option<Ipv4Addr>
    ensures { option_map ipv4_bits result ≡ address_of text.now }
{
    let octets = octets(text)?;
    Some(Ipv4Addr::from_octets(octets))
}

/// The four numbers of an address.
#[tactic(auto, using(crate::proofs::OctetLemmas::octets_cut))]
fn octets(text: &[u8]) -> Option<[u8; 4]>
    ensures { result ≡ octets_of text.now }
{
    let (first, rest) = cut_at(text, b'.')?;
    let (second, rest) = cut_at(rest, b'.')?;
    let (third, fourth) = cut_at(rest, b'.')?;
    Some([octet(first)?, octet(second)?, octet(third)?, octet(fourth)?])
}

/// One of the four numbers of an address.
fn octet(digits: &[u8]) -> Option<u8>
    ensures { result ≡ octet_of digits.now }
{
    let number = number(digits, 1, 3)?;
    u8::try_from(number).ok()
}
