//! How a server stands, on the standard output.
ghost use Rattle.std.specs.Prelude.{ℕ, IfOk, List};
ghost use Rattle.job_status.specs.Answers.{Answers};

use crate::answer::answer_in;
use crate::asking::{Stations, ask};
use crate::columns::laid_out;
use crate::reds::with_red;
use incidents::{Failure, Incident};
use job_base::{ServerAddress, connection, has_output_colours, server_of};
use sl_io::{Outer, StreamFault, write_all};
use std::alloc::AllocError;
use std::io;
use std::net::TcpStream;

/// Writes a text on the standard output.
fn write_text(rt: &HostRuntime, text: &[u8]) -> Result<(), Failure> {
    let mut out = Outer::new(io::writer(rt));
    match write_all(&mut out, text) {
        Ok(()) => Ok(()),
        Err(_) => Err(Failure::of(StreamFault::Write.reason())),
    }
}

/// Tables in columns; at a terminal with colours the word `silent` of a station is red.
fn shown_tables(rt: &HostRuntime, body: &[u8]) -> Result<Vec<u8>, AllocError> {
    let text = laid_out(rt.alloc(), body)?;
    if has_output_colours(rt) {
        with_red(rt.alloc(), text.as_slice())
    } else {
        Ok(text)
    }
}

/// Writes what an answer tells. Whether a station is silent.
fn tell_answer(rt: &HostRuntime, bytes: &[u8]) -> Result<bool, Failure>
    ensures { IfOk result (λ is_silent. (body : List ℕ) × Answers bytes.now body is_silent) }
{
    let answer = match answer_in(bytes) {
        Ok(answer) => answer,
        Err(fault) => return Err(fault.failure()),
    };
    let Ok(text) = shown_tables(rt, answer.body) else {
        return Err(Failure::out_of_memory());
    };
    write_text(rt, text.as_slice())?;
    Ok(answer.is_silent)
}

/// Asks a server over a connection that is open, and writes what it answers. Whether a station is silent.
fn tell_by(rt: &HostRuntime, stream: TcpStream, stations: Stations) -> Result<bool, Failure> {
    let bytes = ask(rt, &stream, stations)?;
    tell_answer(rt, bytes.as_slice())
}

/// Connects to a server, and writes what it answers. Whether a station is silent.
fn tell_over<'a>(
    rt: &HostRuntime,
    server: ServerAddress<'a>,
    stations: Stations,
) -> Result<bool, Incident<'a>> {
    let stream = connection(rt, server)?;
    match tell_by(rt, stream, stations) {
        Ok(is_silent) => Ok(is_silent),
        Err(failure) => Err(failure.at_server(server.word)),
    }
}

/// Writes how a server stands and its tables of those stations, by its status port that a word names. Whether a station
/// is silent.
///
/// It fails with Address if the word is no address with a port, with Connect if no connection could be made, with
/// Status if the answer ends too early or is not that of a status port, if not all could be written, and for want of
/// memory.
pub fn tell_status<'a>(
    rt: &HostRuntime,
    word: &'a str,
    stations: Stations,
) -> Result<bool, Incident<'a>> {
    let server = server_of(word)?;
    tell_over(rt, server, stations)
}
