//! The text of a network.
ghost use Rattle.std.specs.Prelude.{◌≡◌, ◌≤◌, ◌++◌, OnOk};
ghost use Rattle.config_explained.specs.NetworkTexts.{dotted, leading_count, mask_by, mask_text};
ghost use Rattle.config_explained.specs.NetworkTexts.{network_text, pair_text};

use crate::lines::put;
use crate::network::{Network, ones};
use itoa::Buffer;
use std::alloc::AllocError;

/// Two numbers joined by a dot: the high and the low byte of a number.
fn put_pair(text: &mut Vec<u8>, number: u32) -> Result<(), AllocError>
    ensures { OnOk result (text.new.items ≡ text.old.items ++ pair_text number) }
{
    put(text, Buffer::new().format(number / 256).as_bytes())?;
    put(text, b".")?;
    put(text, Buffer::new().format(number % 256).as_bytes())
}

/// Four numbers joined by dots.
#[tactic(auto, unfolding(crate::specs::NetworkTexts::dotted))]
fn put_dotted(text: &mut Vec<u8>, number: u32) -> Result<(), AllocError>
    ensures { OnOk result (text.new.items ≡ text.old.items ++ dotted number) }
{
    put_pair(text, number / 65_536)?;
    put(text, b".")?;
    put_pair(text, number % 65_536)
}

/// How many ones a mask has, at most so many, if all are on the left.
fn leading_count(count: u32, mask: u32) -> Option<u32>
    requires { count ≤ 32 }
    ensures { result ≡ leading_count count mask }
{
    if mask == ones(count) {
        return Some(count);
    }
    if count == 0 {
        return None;
    }
    leading_count(count - 1, mask)
}

/// A mask by its leading ones, or by its four numbers.
fn put_mask_by(text: &mut Vec<u8>, count: Option<u32>, mask: u32) -> Result<(), AllocError>
    ensures { OnOk result (text.new.items ≡ text.old.items ++ mask_by count mask) }
{
    match count {
        Some(count) => put(text, Buffer::new().format(count).as_bytes()),
        None => put_dotted(text, mask),
    }
}

/// `/` and a mask; nothing if all bits count.
#[tactic(auto, unfolding(crate::specs::NetworkTexts::mask_text))]
fn put_mask(text: &mut Vec<u8>, mask: u32) -> Result<(), AllocError>
    ensures { OnOk result (text.new.items ≡ text.old.items ++ mask_text mask) }
{
    if mask == ones(32) {
        return Ok(());
    }
    put(text, b"/")?;
    put_mask_by(text, leading_count(32, mask), mask)
}

/// Puts a network behind a text as an access list may have it: `10.0.0.7`, `10.0.0.0/8`, or `10.0.0.7/255.0.0.255` if
/// the ones of its mask are not on the left.
#[tactic(auto, unfolding(crate::specs::NetworkTexts::network_text))]
pub(crate) fn put_network(text: &mut Vec<u8>, network: Network) -> Result<(), AllocError>
    ensures { OnOk result (text.new.items ≡ text.old.items ++ network_text network) }
{
    put_dotted(text, network.address)?;
    put_mask(text, network.mask)
}
