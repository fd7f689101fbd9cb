//! Whole inputs and whole outputs, over many calls.
ghost use Rattle.std.specs.Prelude.{◌≡◌, ◌<◌, ◌+◌, ◌++◌, ℕ, List, length, take, IfOk, OnOk, IfErr, OnErr, IfSome};
ghost use Rattle.std.specs.Prelude.{MatchResult};
ghost use Rattle.std.specs.Io.{ReadsAtMost};
ghost use Rattle.std.specs.Io.KnownBytes.{Appends, Consumes, IsAtEnd};
ghost use Rattle.sl_io.specs.Counts.{IsMore, StopsReading, StopsWriting};
ghost use Rattle.sl_io.specs.Known.{ConsumesSome, AppendsBeginning};

use crate::{ReadFault, Sink, Source, WriteFault};
use std::alloc::Global;

/// How many bytes are read at most by one call.
const BLOCK: usize = 65_536;

/// Reads all that is left, in blocks of 64 KiB. After a fault what was read is lost. `OutOfMemory` comes where there is
/// no memory for the bytes, and `Read` where a read failed or 2^64 - 1 reads were made.
pub fn read_all<S: Source>(alloc: Global, source: &mut S) -> Result<Vec<u8>, ReadFault>
    ensures bytes { IfOk result (λ v. IfSome (S.left source.old) (λ xs. v.items ≡ xs)) }
    ensures end { OnOk result (IsAtEnd (S.left source.new)) }
    ensures lost { OnErr result (ConsumesSome (S.left source.old) (S.left source.new)) }
    ensures failures { MatchResult result (λ _. S.failures source.new ≡ S.failures source.old)
        (λ fault. StopsReading fault (S.failures source.old) (S.failures source.new) (S.calls source.old)
        (S.calls source.new)) }
{
    let mut block = [0; BLOCK];
    let mut bytes = Vec::new(alloc);
    'reads: for _ in 0..u64::MAX {
        if read_block(source, &mut block, &mut bytes)? == 0 {
            return Ok(bytes);
        }
    }
    Err(ReadFault::Read)
}

// One read, whose bytes are put after those that were read before.
fn read_block<S: Source>(
    source: &mut S,
    block: &mut [u8],
    bytes: &mut Vec<u8>,
) -> Result<usize, ReadFault>
    requires { 0 < length block.old }
    ensures bytes { IfOk result (λ n. bytes.new.items ≡ bytes.old.items ++ take n block.new) }
    ensures consumed { IfOk result (λ n. Consumes (S.left source.old) (S.left source.new) (take n block.new)) }
    ensures lost { OnErr result (ConsumesSome (S.left source.old) (S.left source.new)) }
    ensures end { IfOk result (λ n. n ≡ 0 → IsAtEnd (S.left source.new)) }
    ensures call { IsMore (S.calls source.old) (S.calls source.new) 1 }
    ensures failures { MatchResult result (λ _. S.failures source.new ≡ S.failures source.old)
        (λ fault. StopsReading fault (S.failures source.old) (S.failures source.new) (S.calls source.old)
        (S.calls source.new)) }
{
    match source.read(block) {
        Ok(count) => match bytes.extend_from_slice(&block[..count]) {
            Ok(()) => Ok(count),
            Err(_) => Err(ReadFault::OutOfMemory),
        },
        Err(_) => Err(ReadFault::Read),
    }
}

/// Writes all the bytes, in as many calls as it takes. It stops at a write that fails or takes no byte.
pub fn write_all<S: Sink>(sink: &mut S, bytes: &[u8]) -> Result<(), WriteFault>
    ensures ok { OnOk result (Appends (S.written sink.old) (S.written sink.new) bytes.now) }
    ensures err { OnErr result (AppendsBeginning (S.written sink.old) (S.written sink.new) bytes.now) }
    ensures same { OnOk result ((S.failures sink.new ≡ S.failures sink.old)
        × (S.empty_writes sink.new ≡ S.empty_writes sink.old)) }
    ensures stopped { OnErr result
        (StopsWriting (S.failures sink.old) (S.failures sink.new) (S.empty_writes sink.old) (S.empty_writes sink.new)) }
{
    let mut rest = bytes;
    'writes: while !rest.is_empty() {
        match sink.write(rest) {
            Ok(0) => return Err(WriteFault),
            Ok(count) => rest = &rest[count..],
            Err(_) => return Err(WriteFault),
        }
    }
    Ok(())
}
