//! The records of a file that are passed over before the first one is sent.
ghost use Rattle.std.specs.Prelude.{◌≡◌, drop, Some, IfSome, OnOk};
ghost use Rattle.job_feed.specs.Skipping.{bytes_before};

use protocol::limits::RECORD;
use sl_io::{DeviceFault, Source};

/// How many bytes are read at most by one call.
const BLOCK: usize = 4096;

/// How many bytes of a file are before a record, by its number from 1 on; at most 2^64 - 1.
pub fn bytes_before(number: u64) -> u64
    ensures { result ≡ bytes_before number }
{
    number.saturating_sub(1).saturating_mul(RECORD as u64)
}

/// Passes over so many bytes of a reader, or all that are left if these are fewer. It fails if a read fails.
pub fn pass_over<R: Source>(records: &mut R, count: u64) -> Result<(), DeviceFault>
    ensures { OnOk result (IfSome (R.left records.old) (λ bytes. R.left records.new ≡ Some (drop count bytes))) }
{
    let mut block = [0; BLOCK];
    let mut left = count;
    'passed: while left > 0 {
        let room = left.min(4096) as usize;
        let passed = records.read(&mut block[..room])?;
        if passed == 0 {
            return Ok(());
        }
        left -= passed as u64;
    }
    Ok(())
}
