//! What a configuration lets whom see.
//!
//! Of two configurations beside each other (`view OLD NEW`), a station that one does not have counts as one that nobody
//! may use there. A word that is neither an address nor a network is a file, so a misspelled address is 44, before 11.
//! Unknown keys are named of NEW alone: OLD is what runs already.
ghost use Rattle.std.specs.Prelude.{◌≡◌, IfOk, OnOk, is_some};
ghost use Rattle.config_explained.specs.ConfigTexts.{keys_of};
ghost use Rattle.std.specs.Io.KnownBytes.{Appends};
ghost use Rattle.std.specs.Net.Addr.{ipv4_bits};
ghost use Rattle.protocol.specs.Catalog.{stations_of, view_of};
ghost use Rattle.config_explained.specs.Holders.{holder_text, holders_text};
ghost use Rattle.job_check.specs.Viewing.{or_nothing};
ghost use Rattle.config_explained.specs.Parts.{parts_text};
ghost use Rattle.config_explained.specs.Seen.{seen_text};

use crate::comparing::write_changes;
use access_list::address;
use catalog::Config;
use command_line::ViewOptions;
use config_explained::{
    ConfigText, ListOwner, Network, Remarked, holder_of, holders_of, list_owner, parts_of, seen_by,
    unused_groups,
};
use incidents::{Failure, Incident};
use job_base::{judged_config_at, tell_lines, tell_remarks, tell_unknown_keys};
use protocol::reason::Reason;
use sl_io::{Outer, Sink, StreamFault, write_all};
use std::alloc::Global;
use std::io;
use std::net::Ipv4Addr;

/// Writes a text.
pub(crate) fn write_text<W: Sink>(text: &[u8], out: &mut W) -> Result<(), StreamFault>
    ensures { OnOk result (Appends (W.written out.old) (W.written out.new) text.now) }
{
    match write_all(out, text) {
        Ok(()) => Ok(()),
        Err(_) => Err(StreamFault::Write),
    }
}

/// Writes the stations that an address sees, in order, a line each as CAT has it, but ended by LF.
pub fn list_seen<W: Sink>(
    alloc: Global,
    config: &Config,
    address: Ipv4Addr,
    out: &mut W,
) -> Result<(), StreamFault>
    ensures { OnOk result (Appends (W.written out.old) (W.written out.new)
        (seen_text (view_of config.now (ipv4_bits address)))) }
{
    match seen_by(alloc, config, address) {
        Ok(text) => write_text(text.as_slice(), out),
        Err(_) => Err(StreamFault::OutOfMemory),
    }
}

/// Writes all stations of a configuration, in order, a line each: `NET STA LIST`, with the entries of the access list
/// that holds for it.
pub fn list_holders<W: Sink>(
    alloc: Global,
    read: &ConfigText,
    out: &mut W,
) -> Result<(), StreamFault>
    ensures { OnOk result (Appends (W.written out.old) (W.written out.new)
        (holders_text (keys_of read.now.text) (stations_of read.now.config))) }
{
    match holders_of(alloc, read) {
        Ok(lines) => write_text(lines.as_slice(), out),
        Err(_) => Err(StreamFault::OutOfMemory),
    }
}

/// Writes the line of the station of a configuration with these codes, `NET STA LIST` as `list_holders` has it. Answers
/// whether there is one.
pub fn list_station<W: Sink>(
    alloc: Global,
    read: &ConfigText,
    network: &[u8],
    code: &[u8],
    out: &mut W,
) -> Result<bool, StreamFault>
    ensures lines { OnOk result (Appends (W.written out.old) (W.written out.new)
        (or_nothing (holder_text (keys_of read.now.text) read.now.config network.now code.now))) }
    ensures found { IfOk result (λ found.
        found ≡ is_some (holder_text (keys_of read.now.text) read.now.config network.now code.now)) }
{
    match holder_of(alloc, read, network, code) {
        Ok(Some(line)) => {
            write_text(line.as_slice(), out)?;
            Ok(true)
        }
        Ok(None) => {
            write_text(b"", out)?;
            Ok(false)
        }
        Err(_) => Err(StreamFault::OutOfMemory),
    }
}

/// Writes all stations of a configuration, in order, a line each: `NET STA all` if every address of a network may use
/// the station, `none` if no address of it may, else `some`.
pub fn list_parts<W: Sink>(
    alloc: Global,
    read: &ConfigText,
    network: Network,
    out: &mut W,
) -> Result<(), StreamFault>
    ensures { OnOk result (Appends (W.written out.old) (W.written out.new)
        (parts_text (keys_of read.now.text) network (stations_of read.now.config))) }
{
    match parts_of(alloc, read, network) {
        Ok(lines) => write_text(lines.as_slice(), out),
        Err(_) => Err(StreamFault::OutOfMemory),
    }
}

/// What is written of a configuration.
#[derive(Clone, Copy)]
enum ViewAsked<'a> {
    /// All stations, with whom they are open to.
    Everything,
    /// What an address sees.
    Address(Ipv4Addr),
    /// How much of a network sees each station.
    Network(Network),
    /// Who may use the station that a word names.
    Station(&'a str),
    /// What the configuration in another file changes.
    Other(&'a str),
}

/// The address or the network that a word is; any other word is a file.
fn who_in<'a>(word: &'a str) -> ViewAsked<'a> {
    match address(word.as_bytes()) {
        Some(address) => ViewAsked::Address(address),
        None => match Network::parse(word.as_bytes()) {
            Some(network) => ViewAsked::Network(network),
            None => ViewAsked::Other(word),
        },
    }
}

/// What the words ask for.
fn asked_in<'a>(options: &ViewOptions<'a>) -> ViewAsked<'a> {
    match (options.station, options.who) {
        (Some(word), _) => ViewAsked::Station(word),
        (None, Some(word)) => who_in(word),
        (None, None) => ViewAsked::Everything,
    }
}

/// Names the groups of a configuration that are in the list of no station, a line each on the standard error.
fn tell_unused(rt: &HostRuntime, read: &ConfigText) {
    if let Ok(lines) = unused_groups(rt.alloc(), read) {
        tell_lines(rt, lines.as_slice());
    }
}

/// Writes all stations with whom they are open to, and then names what the lists don't look like.
fn write_all_stations(rt: &HostRuntime, read: &ConfigText) -> Result<(), StreamFault> {
    let mut out = Outer::new(io::writer(rt));
    list_holders(rt.alloc(), read, &mut out)?;
    tell_remarks(rt, Remarked::EachEntry, read);
    tell_unused(rt, read);
    Ok(())
}

/// Writes what an address sees.
fn write_seen(rt: &HostRuntime, read: &ConfigText, address: Ipv4Addr) -> Result<(), StreamFault> {
    let mut out = Outer::new(io::writer(rt));
    list_seen(rt.alloc(), read.config(), address, &mut out)
}

/// Writes how much of a network sees each station.
fn write_parts(rt: &HostRuntime, read: &ConfigText, network: Network) -> Result<(), StreamFault> {
    let mut out = Outer::new(io::writer(rt));
    list_parts(rt.alloc(), read, network, &mut out)
}

/// What is said of the list that holds for a station.
fn words_of(owner: ListOwner) -> &'static str {
    match owner {
        ListOwner::TheStation => "its own list",
        ListOwner::TheServer => "the server's list: the station has none of its own",
        ListOwner::Nobody => "no list: neither the station nor the server has one",
    }
}

/// Writes who may use the station that a word names, `NET_STA`, and on the standard error whose list says so. Whether
/// there is such a station.
fn write_station(rt: &HostRuntime, read: &ConfigText, word: &str) -> Result<bool, StreamFault> {
    let Some((network, code)) = word.split_once('_') else {
        return Ok(false);
    };
    let (network, code) = (network.as_bytes(), code.as_bytes());
    let mut out = Outer::new(io::writer(rt));
    let is_there = list_station(rt.alloc(), read, network, code, &mut out)?;
    if let Some(owner) = list_owner(read, network, code) {
        let _ = eprint!(rt; "seedlinkd: {}\n", words_of(owner));
    }
    Ok(is_there)
}

/// What is said of a word that names no station of the configuration.
fn no_station() -> Failure {
    Failure::by(
        Reason::UnknownStation,
        Some("the configuration has no such station"),
    )
    .allowing("a network and a code of the configuration, in capitals, as GE_APE")
}

/// Writes who may use the station that a word names. It fails if there is none.
fn view_station<'a>(
    rt: &HostRuntime,
    options: &ViewOptions<'a>,
    read: &ConfigText,
    word: &'a str,
) -> Result<(), Incident<'a>> {
    match write_station(rt, read, word) {
        Ok(true) => Ok(()),
        Ok(false) => Err(no_station().in_word(word)),
        Err(fault) => Err(Failure::of(fault.reason()).in_file(options.config)),
    }
}

/// Writes what is asked of a configuration.
fn write_view<'a>(
    rt: &HostRuntime,
    options: &ViewOptions<'a>,
    read: &ConfigText,
) -> Result<(), Incident<'a>> {
    let written = match asked_in(options) {
        ViewAsked::Everything => write_all_stations(rt, read),
        ViewAsked::Address(address) => write_seen(rt, read, address),
        ViewAsked::Network(network) => write_parts(rt, read, network),
        ViewAsked::Station(word) => return view_station(rt, options, read, word),
        ViewAsked::Other(path) => return write_changes(rt, read, path, options.is_strict),
    };
    match written {
        Ok(()) => Ok(()),
        Err(fault) => Err(Failure::of(fault.reason()).in_file(options.config)),
    }
}

/// Writes what an address sees of the configuration in a file, or how much of a network sees each station, or who may
/// use a station of it, or what another configuration changes, or all stations with whom they are open to. In the last
/// case entries of lists that admit something else than they look like, and groups that no list names, are named on the
/// standard error. So are keys that are not known, and if the options are strict the configuration is refused for them.
/// If it is compared with another one, the keys of that are named instead. A configuration that is refused has each of
/// its faults named there, if it has several.
pub fn view_file<'a>(rt: &HostRuntime, options: ViewOptions<'a>) -> Result<(), Incident<'a>> {
    let read = judged_config_at(rt, options.config)?;
    if !matches!(asked_in(&options), ViewAsked::Other(_)) {
        tell_unknown_keys(rt, options.config, &read, options.is_strict)?;
    }
    write_view(rt, &options, &read)
}
