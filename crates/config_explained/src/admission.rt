//! Who may use a station, or is in a group, that could not, and who can't any more.
ghost use Rattle.std.specs.Prelude.{◌≡◌, ◌++◌, ◌∷◌, [], OnOk, false, flat_map, map, true};
ghost use Rattle.config_explained.specs.Changes.{admission_by, admission_lines, change_line, closing_words};
ghost use Rattle.config_explained.specs.Changes.{is_everybody, network_line};
ghost use Rattle.config_explained.specs.Holders.{words_of};
ghost use Rattle.config_explained.specs.NetworkTexts.{network_text};

use crate::coverage::{Coverage, coverage_of};
use crate::gains::gains;
use crate::lines::put;
use crate::network::Network;
use crate::network_text::put_network;
use std::alloc::{AllocError, Global};

/// The network of all addresses.
pub(crate) const EVERYTHING: Network = Network {
    address: 0,
    mask: 0,
};

/// Whether some networks together have all addresses.
fn is_everybody(networks: &[Network]) -> bool
    ensures { result ≡ is_everybody networks.now }
{
    matches!(coverage_of(networks, EVERYTHING), Coverage::Whole)
}

/// A line of a station or a group.
pub(crate) fn put_line(text: &mut Vec<u8>, name: &[u8], words: &[u8]) -> Result<(), AllocError>
    ensures { OnOk result (text.new.items ≡ text.old.items ++ change_line name.now words.now) }
{
    put(text, name)?;
    put(text, words)?;
    put(text, b"\n")
}

/// The words that tell who may still use a station after everybody could.
fn put_closing_words(words: &mut Vec<u8>, networks: &[Network]) -> Result<(), AllocError>
    ensures { OnOk result (words.new.items ≡ words.old.items ++ closing_words networks.now) }
{
    put(words, b" closes to everybody")?;
    if networks.is_empty() {
        return Ok(());
    }
    put(words, b" but")?;
    put_networks(words, networks)
}

/// Networks, each after a space.
fn put_networks(words: &mut Vec<u8>, networks: &[Network]) -> Result<(), AllocError>
    ensures { OnOk result (words.new.items ≡ words.old.items ++ words_of (map network_text networks.now)) }
{
    for network in networks {
        put(words, b" ")?;
        put_network(words, *network)?;
    }
    Ok(())
}

/// A line for a network.
fn put_network_line(
    alloc: Global,
    text: &mut Vec<u8>,
    name: &[u8],
    verb: &[u8],
    network: Network,
) -> Result<(), AllocError>
    ensures { OnOk result (text.new.items
        ≡ text.old.items ++ network_line name.now verb.now network) }
{
    let mut words = verb.to_vec(alloc)?;
    put_network(&mut words, network)?;
    put_line(text, name, words.as_slice())
}

/// A line for each of some networks.
fn put_network_lines(
    alloc: Global,
    text: &mut Vec<u8>,
    name: &[u8],
    verb: &[u8],
    networks: &[Network],
) -> Result<(), AllocError>
    ensures { OnOk result (text.new.items
        ≡ text.old.items ++ flat_map (network_line name.now verb.now) networks.now) }
{
    for network in networks {
        put_network_line(alloc, text, name, verb, *network)?;
    }
    Ok(())
}

/// The line of one that everybody could use, and can't any more.
fn put_closing(
    alloc: Global,
    text: &mut Vec<u8>,
    name: &[u8],
    new: &[Network],
) -> Result<(), AllocError>
    ensures { OnOk result (text.new.items
        ≡ text.old.items ++ admission_by true false name.now [] new.now) }
{
    let left = gains(alloc, &[], new)?;
    let mut words = Vec::new(alloc);
    put_closing_words(&mut words, left.as_slice())?;
    put_line(text, name, words.as_slice())
}

/// The lines of one that not everybody could use, and not everybody can.
fn put_gains_and_losses(
    alloc: Global,
    text: &mut Vec<u8>,
    name: &[u8],
    old: &[Network],
    new: &[Network],
) -> Result<(), AllocError>
    ensures { OnOk result (text.new.items
        ≡ text.old.items ++ admission_by false false name.now old.now new.now) }
{
    let gained = gains(alloc, old, new)?;
    put_network_lines(alloc, text, name, b" gains ", gained.as_slice())?;
    let lost = gains(alloc, new, old)?;
    put_network_lines(alloc, text, name, b" loses ", lost.as_slice())
}

/// What changes of a station or a group, by the networks that it admitted and those that it admits.
#[tactic(auto, unfolding(crate::specs::Changes::admission_lines))]
pub(crate) fn put_admission(
    alloc: Global,
    text: &mut Vec<u8>,
    name: &[u8],
    old: &[Network],
    new: &[Network],
) -> Result<(), AllocError>
    ensures { OnOk result (text.new.items
        ≡ text.old.items ++ admission_lines name.now old.now new.now) }
{
    match (is_everybody(old), is_everybody(new)) {
        (true, true) => Ok(()),
        (true, false) => put_closing(alloc, text, name, new),
        (false, true) => put_line(text, name, b" opens to everybody"),
        (false, false) => put_gains_and_losses(alloc, text, name, old, new),
    }
}
