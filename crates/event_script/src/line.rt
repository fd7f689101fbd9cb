//! The event of a line.
ghost use Rattle.std.specs.Prelude.{option_map, option_and_then, Some};
ghost use Rattle.protocol.specs.World.Event.{Open, Close, Arrive, Reload};
ghost use Rattle.access_list.specs.Addresses.{address_of};
ghost use Rattle.event_script.specs.Script.{addressed_of, bytes_in, decimal_of, event_of, hex_config_of, hex_record_of};
ghost use Rattle.event_script.specs.Script.{line_in, named_event, record_of, take_in};
ghost use Rattle.event_script.specs.ScriptValues.{IsRead};

use crate::arrive::told_record;
use crate::cuts::{client_and_rest, cut_at};
use crate::fault::ScriptFault;
use crate::numbers::{count, decimal, hex_bytes, hex_record};
use crate::reload::told_config;
use access_list::address;
use server_core::Event;
use std::alloc::Global;

/// The event of a line without its line feed.
pub(crate) fn event_of(alloc: Global, line: &[u8]) -> Result<Event, ScriptFault>
    ensures { IsRead (event_of line.now) result }
{
    match cut_at(b' ', line) {
        Some(cut) => named_event(alloc, cut.front, cut.rest),
        None => Err(ScriptFault::Script),
    }
}

/// The event of a line that begins with that name and a space, by what stands behind it.
fn named_event(alloc: Global, name: &[u8], rest: &[u8]) -> Result<Event, ScriptFault>
    ensures { IsRead (named_event name.now rest.now) result }
{
    if name == b"open".as_slice() {
        open_event(rest)
    } else if name == b"bytes".as_slice() {
        bytes_event(alloc, rest)
    } else if name == b"line".as_slice() {
        line_event(alloc, rest)
    } else if name == b"take".as_slice() {
        take_event(rest)
    } else if name == b"close".as_slice() {
        close_event(rest)
    } else if name == b"arrive".as_slice() {
        arrive_event(rest)
    } else if name == b"arrive-hex".as_slice() {
        arrive_hex_event(rest)
    } else if name == b"reload".as_slice() {
        reload_event(alloc, rest)
    } else {
        Err(ScriptFault::Script)
    }
}

/// `open ADDRESS`.
fn open_event(rest: &[u8]) -> Result<Event, ScriptFault>
    ensures { IsRead (option_map Open (address_of rest.now)) result }
{
    match address(rest) {
        Some(address) => Ok(Event::Open(address)),
        None => Err(ScriptFault::Script),
    }
}

/// `bytes C HEX`.
fn bytes_event(alloc: Global, rest: &[u8]) -> Result<Event, ScriptFault>
    ensures { IsRead (option_and_then bytes_in (addressed_of rest.now)) result }
{
    let Some(sent) = client_and_rest(rest) else {
        return Err(ScriptFault::Script);
    };
    let bytes = hex_bytes(alloc, sent.rest)?;
    Ok(Event::Bytes(sent.client, bytes))
}

/// `line C TEXT`: the text, and a carriage return.
fn line_event(alloc: Global, rest: &[u8]) -> Result<Event, ScriptFault>
    ensures { IsRead (option_map line_in (addressed_of rest.now)) result }
{
    let Some(sent) = client_and_rest(rest) else {
        return Err(ScriptFault::Script);
    };
    let mut bytes = Vec::from_slice(alloc, sent.rest)?;
    bytes.push(b'\r')?;
    Ok(Event::Bytes(sent.client, bytes))
}

/// `take C N`.
fn take_event(rest: &[u8]) -> Result<Event, ScriptFault>
    ensures { IsRead (option_and_then take_in (addressed_of rest.now)) result }
{
    let Some(asked) = client_and_rest(rest) else {
        return Err(ScriptFault::Script);
    };
    match count(asked.rest) {
        Some(count) => Ok(Event::Take(asked.client, count)),
        None => Err(ScriptFault::Script),
    }
}

/// `close C`.
fn close_event(rest: &[u8]) -> Result<Event, ScriptFault>
    ensures { IsRead (option_map Close (decimal_of rest.now)) result }
{
    match decimal(rest) {
        Some(client) => Ok(Event::Close(client)),
        None => Err(ScriptFault::Script),
    }
}

/// `arrive NET STA LOC CHA Y,D,H,M,S,F SAMPLES`.
fn arrive_event(rest: &[u8]) -> Result<Event, ScriptFault>
    ensures { IsRead (option_map Arrive (record_of rest.now)) result }
{
    match told_record(rest) {
        Some(bytes) => Ok(Event::Arrive(bytes)),
        None => Err(ScriptFault::Script),
    }
}

/// `arrive-hex HEX`.
fn arrive_hex_event(rest: &[u8]) -> Result<Event, ScriptFault>
    ensures { IsRead (option_map Arrive (hex_record_of rest.now)) result }
{
    match hex_record(rest) {
        Some(bytes) => Ok(Event::Arrive(bytes)),
        None => Err(ScriptFault::Script),
    }
}

/// `reload HEX`: the text of a configuration. A text that is none is no event.
fn reload_event(alloc: Global, rest: &[u8]) -> Result<Event, ScriptFault>
    ensures { IsRead (option_map Reload (hex_config_of rest.now)) result }
{
    let text = hex_bytes(alloc, rest)?;
    let config = told_config(alloc, text.as_slice())?;
    Ok(Event::Reload(config))
}
