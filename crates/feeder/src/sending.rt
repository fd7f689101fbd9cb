//! The sender of a feed: whole records go from a reader to a writer.
ghost use Rattle.std.specs.Prelude.{◌≡◌, ◌≤◌, ◌<◌, ◌+◌, ◌%◌, ◌≢◌, [], length, take, drop, IfOk, IfErr, OnOk, OnErr};
ghost use Rattle.std.specs.Prelude.{IfSome};
ghost use Rattle.std.specs.Io.KnownBytes.{Appends, Consumes, IsAtEnd, Keeps};
ghost use Rattle.sl_io.specs.Counts.{IsMore};
ghost use Rattle.sl_io.specs.Known.{AppendsBeginning};
ghost use Rattle.protocol.specs.Streams.{feed_of};
ghost use Rattle.feeder.specs.Sending.{Breaks, Passes, StopsSending, capped, send_reason};
ghost use Rattle.feeder.specs.Sending.{whole_part};
ghost use Rattle.feeder.specs.declared.sending.SendFault.TheVariants.{Partial, Read};

use protocol::limits::RECORD;
use protocol::reason::Reason;
use sl_io::{Sink, Source, write_all};

/// How many bytes are read at most by one call, with those of an unfinished record.
const BLOCK: usize = 65_536;

/// Why not all of a feed was sent.
#[derive(Clone, Copy, PartialEq, Eq, Drop)]
pub enum SendFault {
    /// The input ends inside a record. All whole records were written, and no byte of the rest.
    Partial,
    /// A read failed, or 2^64 - 1 reads were made. A beginning of the whole records was written.
    Read,
    /// A write failed, or took none of the bytes that were left. A beginning of the whole records was written.
    Write,
}

impl SendFault {
    /// The reason by which the program reports it: 41, 42 or 43.
    pub fn reason(self) -> Reason
        ensures { result ≡ send_reason self }
    {
        match self {
            SendFault::Partial => Reason::Partial,
            SendFault::Read => Reason::Read,
            SendFault::Write => Reason::Write,
        }
    }
}

/// Puts bytes at the beginning of a block, and reads once behind them. Answers how many bytes were read, 0 at the
/// end.
fn read_behind<R: Source>(reader: &mut R, block: &mut [u8], held: &[u8]) -> Result<usize, SendFault>
    requires { length held.now < length block.old }
    ensures start { take (length held.now) block.new ≡ held.now }
    ensures consumed { IfOk result
        (λ n. Consumes (R.left reader.old) (R.left reader.new) (take n (drop (length held.now) block.new))) }
    ensures bound { IfOk result (λ n. length held.now + n ≤ length block.new) }
    ensures end { IfOk result (λ n. n ≡ 0 → IsAtEnd (R.left reader.new)) }
    ensures call { IsMore (R.calls reader.old) (R.calls reader.new) 1 }
    ensures same { OnOk result (R.failures reader.new ≡ R.failures reader.old) }
    ensures failed { IfErr result (λ fault. (fault ≡ Read) × IsMore (R.failures reader.old) (R.failures reader.new) 1) }
    ensures kept { OnErr result (Keeps (R.left reader.old) (R.left reader.new)) }
{
    block[..held.len()].copy_from_slice(held);
    match reader.read(&mut block[held.len()..]) {
        Ok(count) => Ok(count),
        Err(_) => Err(SendFault::Read),
    }
}

/// Puts what is left over of a block at the beginning of the rest.
fn put_rest(rest: &mut [u8; 512], left: &[u8])
    requires { length left.now ≤ 512 }
    ensures { take (length left.now) rest.new ≡ left.now }
{
    rest[..left.len()].copy_from_slice(left);
}

/// Reads once, writes the records that are whole with the `held` first bytes of the rest before them, and keeps
/// what is left over in the rest. Answers how many bytes were read, 0 at the end.
fn send_once<R: Source, W: Sink>(
    reader: &mut R,
    writer: &mut W,
    block: &mut [u8],
    rest: &mut [u8; 512],
    held: usize,
) -> Result<usize, SendFault>
    requires room { length block.old ≡ 65536 }
    requires held { held < 512 }
    ensures passes { IfOk result
        (λ n. Passes (R.left reader.old) (R.left reader.new) (W.written writer.old) (W.written writer.new)
        (take held rest.old) (take ((held + n) % 512) rest.new) n) }
    ensures bound { IfOk result (λ n. held + n ≤ 65536) }
    ensures end { IfOk result (λ n. n ≡ 0 → IsAtEnd (R.left reader.new)) }
    ensures call { IsMore (R.calls reader.old) (R.calls reader.new) 1 }
    ensures same { OnOk result ((R.failures reader.new ≡ R.failures reader.old)
        × (W.failures writer.new ≡ W.failures writer.old) × (W.empty_writes writer.new ≡ W.empty_writes writer.old)) }
    ensures begun { OnErr result (Breaks (R.left reader.old) (R.left reader.new)
        (W.written writer.old) (W.written writer.new) (take held rest.old)) }
    ensures fails { IfErr result (λ fault. fault ≢ Partial) }
    ensures stopped { IfErr result (λ fault. StopsSending fault
        (R.failures reader.old) (R.failures reader.new) (R.calls reader.old) (R.calls reader.new)
        (W.failures writer.old) (W.failures writer.new) (W.empty_writes writer.old) (W.empty_writes writer.new)) }
{
    let count = read_behind(reader, block, &rest[..held])?;
    let total = held + count;
    let whole = total - total % RECORD;
    match write_all(writer, &block[..whole]) {
        Ok(()) => {
            put_rest(rest, &block[whole..total]);
            Ok(count)
        }
        Err(_) => Err(SendFault::Write),
    }
}

/// Sends the whole records of 512 bytes that are left of the reader, and answers how many they are (2^64 - 1 if
/// there are more). It reads blocks of up to 64 KiB, and writes what is whole after each read.
///
/// It fails with Partial if the input ends inside a record: then all whole records were written. It fails with Read
/// and Write only if a read or a write failed, a write took no byte or 2^64 - 1 reads were made: then a beginning
/// of the whole records was written. It allocates nothing.
pub fn send<R: Source, W: Sink>(reader: &mut R, writer: &mut W) -> Result<u64, SendFault>
    ensures count { IfOk result (λ n.
        IfSome (R.left reader.old) (λ bytes. n ≡ capped (length (feed_of bytes).records))) }
    ensures ok { OnOk result
        (IfSome (R.left reader.old)
        (λ bytes. Appends (W.written writer.old) (W.written writer.new) (whole_part bytes))) }
    ensures all { OnOk result (IfSome (R.left reader.old) (λ bytes. (feed_of bytes).rest ≡ [])) }
    ensures partial { IfErr result (λ fault. fault ≡ Partial → IfSome (R.left reader.old) (λ bytes.
        Appends (W.written writer.old) (W.written writer.new) (whole_part bytes)
        × (0 < length (feed_of bytes).rest))) }
    ensures begun { OnErr result
        (IfSome (R.left reader.old)
        (λ bytes. AppendsBeginning (W.written writer.old) (W.written writer.new) (whole_part bytes))) }
    ensures same { OnOk result ((R.failures reader.new ≡ R.failures reader.old)
        × (W.failures writer.new ≡ W.failures writer.old) × (W.empty_writes writer.new ≡ W.empty_writes writer.old)) }
    ensures stopped { IfErr result (λ fault. StopsSending fault
        (R.failures reader.old) (R.failures reader.new) (R.calls reader.old) (R.calls reader.new)
        (W.failures writer.old) (W.failures writer.new) (W.empty_writes writer.old) (W.empty_writes writer.new)) }
{
    let mut block = [0; BLOCK];
    let mut rest = [0; RECORD];
    let mut held = 0;
    let mut sent = 0u64;
    'reads: for _ in 0..u64::MAX {
        let count = send_once(reader, writer, &mut block, &mut rest, held)?;
        if count == 0 {
            return if held == 0 {
                Ok(sent)
            } else {
                Err(SendFault::Partial)
            };
        }
        sent = sent.saturating_add(((held + count) / RECORD) as u64);
        held = (held + count) % RECORD;
    }
    Err(SendFault::Read)
}
