//! The reader beside a server, joined over memory: what the one asks the other is sent, in pieces of any length.
ghost use Rattle.std.specs.Prelude.{◌<◌};

use crate::pieces::{HELD, record_of, wants_of};
use catalog::Config;
use server_core::{Client, Offer, Server};
use sl_packet::Seq;
use slreader::{Plan, ReaderCore, ReaderFault, What};
use std::alloc::Global;
use std::net::Ipv4Addr;
use std::test::Fail;

/// Two stations, of which one holds two records.
const TWO_STATIONS: &[u8] = br#"title = "Test Centre"

[[station]]
network = "GE"
code = "APE"
description = "Island"
capacity = 4

[[station]]
network = "GE"
code = "WLF"
description = "Forest"
capacity = 2
first = "FFFFFE"
"#;

/// Two wants, of which a server refuses the second.
pub fn plan(alloc: Global) -> Result<Plan<'static>, Fail> {
    let wants = wants_of(alloc, &[b"GE_WLF:BH?,!E", b"GE_NONE"], HELD)?;
    Ok(Plan::Multi(wants))
}

/// What is asked by that plan.
pub const ASKED: &[u8] =
    b"HELLO\rSTATION WLF GE\rSELECT BH?\rSELECT !E\rFETCH\rSTATION NONE GE\rEND\r";

/// What came of a dialogue: all that was asked, and a line for each thing that was given.
#[derive(Drop)]
pub struct Log {
    pub asked: Vec<u8>,
    pub given: Vec<u8>,
    is_over: bool,
}

/// Gives the reader a piece, up to the end of the transfer.
fn hear(core: &mut ReaderCore, piece: &[u8], log: &mut Log) -> Result<(), Fail> {
    let mut start = 0;
    let mut packet = [0; 520];
    for _ in 0..=piece.len() {
        if start > piece.len() {
            return Ok(());
        }
        let came = core.incoming(&piece[start..], &mut packet)?;
        match &came.what {
            What::Nothing => return Ok(()),
            What::Hello => log.given.extend_from_slice(b"hello\n")?,
            What::Refused(0) => log.given.extend_from_slice(b"refused 0\n")?,
            What::Refused(_) => log.given.extend_from_slice(b"refused 1\n")?,
            What::Packet(packet) => {
                log.given.extend_from_slice(&packet.bytes()[2..8])?;
                log.given.push(b'\n')?;
            }
            What::End => {
                log.given.extend_from_slice(b"end\n")?;
                log.is_over = true;
                return Ok(());
            }
        }
        start += came.used;
    }
    Ok(())
}

/// Gives the reader bytes, so many at once.
fn hear_all(core: &mut ReaderCore, bytes: &[u8], most: usize, log: &mut Log) -> Result<(), Fail>
    requires { 0 < most }
{
    for piece in bytes.chunks(most) {
        if !log.is_over {
            hear(core, piece, log)?;
        }
    }
    Ok(())
}

/// Sends the server what the reader asks, so many bytes at once.
fn ask(
    server: &mut Server,
    client: &Client,
    core: &mut ReaderCore,
    most: usize,
    log: &mut Log,
) -> Result<(), Fail>
    requires { 0 < most }
{
    let outgoing = core.outgoing();
    log.asked.extend_from_slice(outgoing)?;
    for piece in outgoing.chunks(most) {
        server.receive(client, piece)?;
    }
    let count = outgoing.len();
    core.sent(count);
    Ok(())
}

/// Gives the reader what waits for it, so many bytes at once.
fn answer(
    server: &mut Server,
    client: &Client,
    core: &mut ReaderCore,
    most: usize,
    log: &mut Log,
) -> Result<(), Fail>
    requires { 0 < most }
{
    if server.offer(client)? != Offer::Bytes {
        return Ok(());
    }
    let waiting = server.waiting(client)?;
    let count = waiting.len();
    hear_all(core, waiting, most, log)?;
    if count > 0 {
        server.took(client, count)?;
    }
    Ok(())
}

/// The dialogue of a reader and a server up to the end of the transfer, with so many bytes at once.
fn dialogue(
    server: &mut Server,
    client: &Client,
    core: &mut ReaderCore,
    most: usize,
    log: &mut Log,
) -> Result<(), Fail>
    requires { 0 < most }
{
    for _ in 0..2_000 {
        if !log.is_over {
            ask(server, client, core, most, log)?;
            answer(server, client, core, most, log)?;
        }
    }
    Ok(())
}

/// What comes of a dialogue of a reader that connects to a server, with so many bytes at once.
pub fn log_at(
    alloc: Global,
    server: &mut Server,
    core: &mut ReaderCore,
    most: usize,
) -> Result<Log, Fail>
    requires { 0 < most }
{
    let client = server.open(alloc, Ipv4Addr::new(172, 16, 0, 9))?;
    let mut log = Log {
        asked: Vec::new(alloc),
        given: Vec::new(alloc),
        is_over: false,
    };
    dialogue(server, &client, core, most, &mut log)?;
    Ok(log)
}

/// Whether a reader is given what a server holds of three records of GE WLF.
fn is_given(
    alloc: Global,
    server: &mut Server,
    core: &mut ReaderCore,
    most: usize,
) -> Result<bool, Fail>
    requires { 0 < most }
{
    for second in 1..4 {
        server.arrive(&record_of(b"WLF", second)?)?;
    }
    let log = log_at(alloc, server, core, most)?;
    Ok(
        log.asked.as_slice() == ASKED
            && log.given.as_slice() == b"hello\nrefused 1\nFFFFFF\n000000\nend\n".as_slice()
            && core.records() == 2
            && core.next_wanted(0) == Seq::of(1)
            && core.next_wanted(1) == None,
    )
}

/// The same of a new reader and a new server.
fn is_right(alloc: Global, most: usize) -> Result<bool, Fail>
    requires { 0 < most }
{
    let mut core = ReaderCore::new(alloc, plan(alloc)?)?;
    let mut server = Server::new(alloc, Config::read(alloc, TWO_STATIONS)?)?;
    is_given(alloc, &mut server, &mut core, most)
}

static SIZES: [usize; 3] = [1, 7, 520];

#[test]
fn a_reader_is_given_what_the_server_holds(rt: HostRuntime) -> Result<(), Fail> {
    for &most in &SIZES {
        assert!(rt;
            0 < most && is_right(rt.alloc(), most)?,
            "in pieces of {most}"
        );
    }
    Ok(())
}

/// A byte that is none of a greeting, nothing, and a greeting's beginning.
static AFTER_A_FAULT: [&[u8]; 3] = [b"X", b"", b"SeedLink v3"];

/// Whether a reader that is given these answers each of them by the fault of the first.
fn stays_at_a_fault(core: &mut ReaderCore) -> bool {
    for piece in &AFTER_A_FAULT {
        if core.incoming(piece, &mut [0; 520]).err() != Some(ReaderFault::BadReply) {
            return false;
        }
    }
    true
}

#[test]
fn a_fault_stays(rt: HostRuntime) -> Result<(), Fail> {
    let mut core = ReaderCore::new(rt.alloc(), plan(rt.alloc())?)?;
    assert!(rt; stays_at_a_fault(&mut core));
    Ok(())
}
