//! Clients of a dialogue: what they send, and what they are handed.
use crate::fault::Fault;
use crate::line::{DialogueLine, number_and_rest, number_of};
use crate::records::{Arrived, packet_line, told_packet};
use crate::spelling::{shown, spelled};
use server_core::{Client, Offer, ReceiveRefusal, Server};
use std::alloc::{AllocError, Global};

/// A client, and what it took that no line has compared yet.
#[derive(Drop)]
pub struct Caller {
    pub name: String,
    pub client: Client,
    pub is_closed: bool,
    pub hand: Vec<u8>,
}

/// What came in place of what a line wants; None if it is as wanted.
pub type DialogueAnswer = Result<Option<String>, Fault>;

/// Copies and takes the first bytes that wait for a client, at most so many.
fn take_waiting(
    server: &mut Server,
    client: &Client,
    most: usize,
    hand: &mut Vec<u8>,
) -> Result<(), Fault> {
    let waiting = server.waiting(client)?;
    let count = most.min(waiting.len());
    hand.extend_from_slice(&waiting[..count])?;
    if count > 0 {
        server.took(client, count)?;
    }
    Ok(())
}

/// A client takes at most so many bytes. Whether its connection is over.
fn take(server: &mut Server, caller: &mut Caller, most: usize) -> Result<bool, Fault> {
    let found = server.offer(&caller.client)?;
    take_waiting(server, &caller.client, most, &mut caller.hand)?;
    Ok(found == Offer::Ended)
}

/// A client takes so many bytes so many times: `2080x1`.
fn take_times(
    alloc: Global,
    server: &mut Server,
    caller: &mut Caller,
    text: &str,
) -> DialogueAnswer {
    let Some((times, most)) = text.split_once('x') else {
        return Err(Fault::Step);
    };
    let most = number_of(most)?;
    for _ in 0..number_of(times)? {
        if take(server, caller, most)? {
            return Ok(Some(String::from_str(alloc, "the end")?));
        }
    }
    Ok(None)
}

/// Compares what a client took, and what a take of 520 bytes brings if that is shorter or nothing is wanted, with what
/// is wanted.
fn compare(
    alloc: Global,
    server: &mut Server,
    records: &[Arrived],
    caller: &mut Caller,
    wanted: &[u8],
    ends: bool,
) -> DialogueAnswer {
    let mut is_over = false;
    if caller.hand.len() < wanted.len() || wanted.is_empty() {
        is_over = take(server, caller, 520)?;
    }
    let is_wanted = caller.hand.as_slice() == wanted && is_over == ends;
    let got = if is_wanted {
        None
    } else {
        Some(got_instead(alloc, records, caller.hand.as_slice(), is_over)?)
    };
    caller.hand.clear();
    Ok(got)
}

/// What a client is handed, as a report shows it.
fn got_instead(
    alloc: Global,
    records: &[Arrived],
    hand: &[u8],
    is_over: bool,
) -> Result<String, AllocError> {
    if is_over {
        return String::from_str(alloc, "the end");
    }
    if hand.is_empty() {
        return String::from_str(alloc, "nothing");
    }
    match packet_line(alloc, records, hand)? {
        Some(line) => Ok(line),
        None => shown(alloc, hand),
    }
}

/// Compares a number with the one that is wanted.
pub fn compare_numbers(alloc: Global, wanted: usize, got: usize) -> DialogueAnswer {
    if wanted == got {
        return Ok(None);
    }
    Ok(Some(got.to_string(alloc)?))
}

/// Compares a word with what is so: `yes` or `no`.
pub fn compare_words(alloc: Global, wanted: &str, is_so: bool) -> DialogueAnswer {
    let got = if is_so { "yes" } else { "no" };
    if wanted == got {
        return Ok(None);
    }
    Ok(Some(String::from_str(alloc, got)?))
}

/// The number of the refusal of what a client sends; 0 if it is accepted.
fn refusal(server: &mut Server, client: &Client, bytes: &[u8]) -> usize {
    match server.receive(client, bytes) {
        Ok(()) => 0,
        Err(refusal) => refusal.reason().number() as usize,
    }
}

/// A client sends bytes, which are to be refused with a number, or accepted if that is 0.
fn send(
    alloc: Global,
    server: &mut Server,
    caller: &Caller,
    bytes: &[u8],
    wanted: usize,
) -> DialogueAnswer {
    let got = refusal(server, &caller.client, bytes);
    compare_numbers(alloc, wanted, got)
}

/// A client sends bytes that are to be refused: `31 \1025*A`.
fn send_refused(alloc: Global, server: &mut Server, caller: &Caller, text: &str) -> DialogueAnswer {
    let (number, rest) = number_and_rest(text)?;
    let bytes = spelled(alloc, rest, b"")?;
    send(alloc, server, caller, bytes.as_slice(), number as usize)
}

fn close(server: &mut Server, caller: &mut Caller) -> DialogueAnswer {
    server.close(&caller.client)?;
    caller.is_closed = true;
    Ok(None)
}

/// Whether the server knows no open client with this number, in each call.
fn is_gone(server: &mut Server, client: &Client) -> bool {
    server.room(client).is_err()
        && server.receive(client, b"HELLO\r") == Err(ReceiveRefusal::Gone)
        && server.offer(client).is_err()
        && server.waiting(client).is_err()
        && server.marked(client).is_err()
        && server.ready(client).is_err()
        && server.close(client).is_err()
}

/// What a client sends or does.
fn act(
    alloc: Global,
    server: &mut Server,
    caller: &mut Caller,
    line: &DialogueLine,
) -> DialogueAnswer {
    match line.verb {
        ">" => {
            let bytes = spelled(alloc, line.rest, b"\r")?;
            send(alloc, server, caller, bytes.as_slice(), 0)
        }
        ">>" => {
            let bytes = spelled(alloc, line.rest, b"")?;
            send(alloc, server, caller, bytes.as_slice(), 0)
        }
        "refused" => send_refused(alloc, server, caller, line.rest),
        "take" => take_times(alloc, server, caller, line.rest),
        "close" => close(server, caller),
        _ => Err(Fault::Step),
    }
}

/// What a client is to be handed; None if the line is about something else.
fn wanted_by(
    alloc: Global,
    records: &[Arrived],
    line: &DialogueLine,
) -> Result<Option<Vec<u8>>, Fault> {
    let bytes = match line.verb {
        "<" => spelled(alloc, line.rest, b"\r\n")?,
        "<<" => spelled(alloc, line.rest, b"")?,
        "packet" => told_packet(alloc, records, line.rest)?,
        "nothing" => Vec::new(alloc),
        "end" => Vec::new(alloc),
        _ => return Ok(None),
    };
    Ok(Some(bytes))
}

fn compare_room(alloc: Global, server: &Server, client: &Client, text: &str) -> DialogueAnswer {
    let room = server.room(client)?;
    compare_numbers(alloc, number_of(text)?, room)
}

/// What is asked about a client; None if the line is about something else.
fn look(
    alloc: Global,
    server: &mut Server,
    client: &Client,
    line: &DialogueLine,
) -> Result<Option<DialogueAnswer>, Fault> {
    let answer = match line.verb {
        "room" => compare_room(alloc, server, client, line.rest),
        "marked" => compare_words(alloc, line.rest, server.marked(client)?),
        "ready" => compare_words(alloc, line.rest, server.ready(client)?),
        "gone" => compare_words(alloc, line.rest, is_gone(server, client)),
        _ => return Ok(None),
    };
    Ok(Some(answer))
}

/// A client does what a line says, or is handed what it wants.
fn hand_or_act(
    alloc: Global,
    server: &mut Server,
    records: &[Arrived],
    caller: &mut Caller,
    line: &DialogueLine,
) -> DialogueAnswer {
    match wanted_by(alloc, records, line)? {
        Some(wanted) => compare(
            alloc,
            server,
            records,
            caller,
            wanted.as_slice(),
            line.verb == "end",
        ),
        None => act(alloc, server, caller, line),
    }
}

/// Plays a line that is about a client.
pub fn play_client(
    alloc: Global,
    server: &mut Server,
    records: &[Arrived],
    caller: &mut Caller,
    line: &DialogueLine,
) -> DialogueAnswer {
    match look(alloc, server, &caller.client, line)? {
        Some(answer) => answer,
        None => hand_or_act(alloc, server, records, caller, line),
    }
}
