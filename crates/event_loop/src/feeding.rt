//! The pass over a feed's port.
//!
//! A read of a feed's port asks for at most 512 bytes, so that one pass of a feed brings no more records than one pass
//! of a client takes. Sockets may read ahead in larger pieces.
//!
//! That a port's read gives at most as many bytes as it was asked for, and what a feed left over is less than a record,
//! is said of each read of a feed. So each brings at most one record, and a turn at most `limit` of each of 16 feeds.
ghost use Rattle.std.specs.Prelude.{◌≡◌, ℕ, ◌<◌, ◌≤◌, Bool, [], ◌∷◌, length};
ghost use Rattle.protocol.specs.Catalog.{Config};
ghost use Rattle.protocol.specs.World.{World};
ghost use Rattle.server_core.specs.ServerValues.{StandsAt};
ghost use Rattle.event_loop.specs.Decided.{RecordDecided, codes_in, refusal_of};
ghost use Rattle.event_loop.specs.Deeds.{Tally};
ghost use Rattle.event_loop.specs.Feeding.{Arrives, FeedReads, fed, feed_seat, feed_tally};
ghost use Rattle.event_loop.specs.Going.{Once, Whole, if_open};
ghost use Rattle.event_loop.specs.Sleeping.{IsQuiet};

use crate::deciding::end;
use crate::passes::Onward;
use feeder::{FeedCutter, Feeding};
use ports::{Decision, Ending, Got, PortFault, Ports, RecordCodes, RecordRefusal};
use protocol::reason::Reason;
use server_core::{ArriveFault, Server};

/// The codes of a record's station, as they stand in its header.
fn codes_in(whole: &[u8; 512]) -> RecordCodes
    ensures { result ≡ codes_in whole.now }
{
    RecordCodes {
        network: [whole[18], whole[19]],
        station: [whole[8], whole[9], whole[10], whole[11], whole[12]],
    }
}

/// Why a record is refused, by the fault that answers it.
fn refusal_of(fault: ArriveFault, whole: &[u8; 512]) -> RecordRefusal
    ensures { result ≡ refusal_of fault whole.now }
{
    match fault {
        ArriveFault::UnknownStation => RecordRefusal::Unknown(codes_in(whole)),
        ArriveFault::Record(fault) => RecordRefusal::Other(fault.reason()),
        ArriveFault::Exhausted => RecordRefusal::Other(Reason::Exhausted),
    }
}

/// A record of a feed's port arrives. One that is refused is counted, and it is said why.
fn take_record<P: Ports>(
    server: &mut Server,
    ports: &mut P,
    port: u64,
    whole: &[u8; 512],
    refused: &mut u64,
)
    ensures calls { P.calls ports.new ≡ P.calls ports.old }
    ensures failures { P.failures ports.new ≡ P.failures ports.old }
    ensures decides { (config : Config) (w : World) → StandsAt server.old config w →
        RecordDecided config w whole.now port (P.decided ports.old) (P.decided ports.new) }
    ensures arrives { (config : Config) (w : World) → StandsAt server.old config w →
        Arrives config w (whole.now ∷ []) server.new refused.old refused.new }
    ensures quiet { IsQuiet server.old server.new }
{
    match server.arrive(whole) {
        Ok(_) => {}
        Err(fault) => {
            *refused = refused.saturating_add(1);
            ports.tell(port, Decision::Refused(refusal_of(fault, whole)));
        }
    }
}

/// The records that a piece of a feed makes whole arrive.
fn take_records<P: Ports>(
    server: &mut Server,
    ports: &mut P,
    port: u64,
    cutter: &mut FeedCutter,
    piece: &[u8],
    refused: &mut u64,
)
    ensures calls { P.calls ports.new ≡ P.calls ports.old }
    ensures failures { P.failures ports.new ≡ P.failures ports.old }
    ensures arrives { (config : Config) (w : World) → StandsAt server.old config w →
        Arrives config w (fed cutter.old piece.now).records server.new refused.old refused.new }
    ensures rest { cutter.new ≡ (fed cutter.old piece.now).rest }
    ensures held { length cutter.old < 512 }
    ensures quiet { IsQuiet server.old server.new }
{
    let _held = cutter.rest();
    let mut left = piece;
    'records: while !left.is_empty() {
        let Feeding { used, whole } = cutter.feed(left);
        match whole {
            Some(whole) => take_record(server, ports, port, whole, refused),
            None => {}
        }
        left = &left[used..];
    }
}

/// One read of a feed's port, if it may be read.
fn read_feed_once<P: Ports>(
    server: &mut Server,
    ports: &mut P,
    port: u64,
    readable: &mut bool,
    cutter: &mut FeedCutter,
    buffer: &mut [u8],
    refused: &mut u64,
) -> Onward
    requires some { 0 < length buffer.old }
    requires short { length buffer.old ≤ 512 }
    ensures goes { (writable : Bool) (happenings : ℕ) (config : Config) (w : World) → StandsAt server.old config w →
        Once (FeedReads config) config w (P.calls ports.old) (P.calls ports.new) server.new
        (feed_tally happenings refused.old) (feed_tally happenings refused.new)
        (feed_seat port cutter.old readable.old writable) (feed_seat port cutter.new readable.new writable) result }
    ensures quiet { IsQuiet server.old server.new }
{
    if !*readable {
        return Onward::Stop;
    }
    match ports.read(port, buffer) {
        Ok(Got::Bytes(count)) => {
            let piece = &buffer[..count];
            take_records(server, ports, port, cutter, piece, refused);
            Onward::On
        }
        Ok(Got::Later) => {
            *readable = false;
            Onward::Stop
        }
        Ok(Got::Closed) => {
            end(ports, port, Ending::Closed);
            Onward::Over
        }
        Err(PortFault) => {
            end(ports, port, Ending::Failed);
            Onward::Over
        }
    }
}

/// The reads of a pass over a feed's port, up to so many; whether the port stays open.
pub fn read_feed<P: Ports>(
    server: &mut Server,
    ports: &mut P,
    port: u64,
    readable: &mut bool,
    cutter: &mut FeedCutter,
    buffer: &mut [u8],
    limit: usize,
    refused: &mut u64,
) -> bool
    requires some { 0 < length buffer.old }
    requires short { length buffer.old ≤ 512 }
    ensures goes { (writable : Bool) (happenings : ℕ) (config : Config) (w : World) → StandsAt server.old config w →
        Whole (FeedReads config) limit config w (P.calls ports.old) (P.calls ports.new) server.new
        (feed_tally happenings refused.old) (feed_tally happenings refused.new)
        (feed_seat port cutter.old readable.old writable)
        (if_open result (feed_seat port cutter.new readable.new writable)) }
    ensures quiet { IsQuiet server.old server.new }
{
    let mut left = limit;
    'reads: while left > 0 {
        match read_feed_once(server, ports, port, readable, cutter, buffer, refused) {
            Onward::On => left -= 1,
            Onward::Stop => return true,
            Onward::Over => return false,
        }
    }
    true
}
