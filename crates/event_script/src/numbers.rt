//! Numbers and bytes as a script spells them.
ghost use Rattle.std.specs.Prelude.{◌≡◌, Some, None, MatchResult};
ghost use Rattle.event_script.specs.Fitting.{byte_of, short_of};
ghost use Rattle.event_script.specs.Script.{count_of, decimal_of, hex_of, hex_record_of};
ghost use Rattle.event_script.specs.declared.fault.ScriptFault.TheVariants.{Script};

use crate::fault::ScriptFault;
use hex::{FromHex, FromHexError};
use std::alloc::Global;
use text_parts::decimal::number;

/// The digits of a number, at most.
const DIGITS: usize = 10;

/// The bytes that a take asks for, at most.
const MOST_TAKEN: usize = 1_000_000;

/// The number of 1 to 10 decimal digits.
pub(crate) fn decimal(digits: &[u8]) -> Option<usize>
    ensures { result ≡ decimal_of digits.now }
{
    number(digits, 1, DIGITS)
}

/// How many bytes a take asks for: a number to 1,000,000.
pub(crate) fn count(digits: &[u8]) -> Option<usize>
    ensures { result ≡ count_of digits.now }
{
    let count = decimal(digits)?;
    if count <= MOST_TAKEN {
        Some(count)
    } else {
        None
    }
}

/// A number that fits 16 bits.
pub(crate) fn short(digits: &[u8]) -> Option<u16>
    ensures { result ≡ short_of digits.now }
{
    let number = decimal(digits)?;
    u16::try_from(number).ok()
}

/// A number that fits 8 bits.
pub(crate) fn byte(digits: &[u8]) -> Option<u8>
    ensures { result ≡ byte_of digits.now }
{
    let number = decimal(digits)?;
    u8::try_from(number).ok()
}

/// The bytes of one or more pairs of hexadecimal digits of either case.
pub(crate) fn hex_bytes(alloc: Global, digits: &[u8]) -> Result<Vec<u8>, ScriptFault>
    ensures { MatchResult result (λ bytes. hex_of digits.now ≡ Some bytes.items)
        (λ fault. fault ≡ Script → hex_of digits.now ≡ None) }
{
    if digits.is_empty() {
        return Err(ScriptFault::Script);
    }
    match hex::decode(alloc, digits) {
        Ok(bytes) => Ok(bytes),
        Err(FromHexError::OutOfMemory) => Err(ScriptFault::OutOfMemory),
        Err(_) => Err(ScriptFault::Script),
    }
}

/// The 512 bytes of a record, by pairs of hexadecimal digits of either case.
pub(crate) fn hex_record(digits: &[u8]) -> Option<[u8; 512]>
    ensures { result ≡ hex_record_of digits.now }
{
    <[u8; 512] as FromHex>::from_hex(digits).ok()
}
