//! Bytes as a dialogue spells them.
ghost use Rattle.std.specs.Prelude.{◌≡◌, ◌++◌, OnOk, codes};
ghost use Rattle.event_script.specs.Spelling.{byte_digits, spelled, spelled_byte};

use std::alloc::AllocError;

/// The hexadecimal digits, in lower case.
const DIGITS: [u8; 16] = *b"0123456789abcdef";

/// A byte as two hexadecimal digits.
fn put_digits(text: &mut Vec<u8>, byte: u8) -> Result<(), AllocError>
    ensures { OnOk result (text.new.items ≡ text.old.items ++ byte_digits byte) }
{
    text.push(DIGITS[(byte / 16) as usize])?;
    text.push(DIGITS[(byte % 16) as usize])?;
    Ok(())
}

/// A byte that has no spelling of its own.
fn put_escape(text: &mut Vec<u8>, byte: u8) -> Result<(), AllocError>
    ensures { OnOk result (text.new.items ≡ text.old.items ++ (codes "\\x" ++ byte_digits byte)) }
{
    text.extend_from_slice(b"\\x")?;
    put_digits(text, byte)?;
    Ok(())
}

#[tactic(auto, unfolding(crate::specs::Spelling::spelled_byte))]
fn put_byte(text: &mut Vec<u8>, byte: u8) -> Result<(), AllocError>
    ensures { OnOk result (text.new.items ≡ text.old.items ++ spelled_byte byte) }
{
    match byte {
        b'\r' => text.extend_from_slice(b"\\r"),
        b'\n' => text.extend_from_slice(b"\\n"),
        b'\\' => text.extend_from_slice(b"\\\\"),
        b' '..=b'~' => text.extend_from_slice(&[byte]),
        _ => put_escape(text, byte),
    }
}

/// Bytes, one after the other: `\r`, `\n` and `\\` for a carriage return, a line feed and a backslash, and `\x` with
/// two hexadecimal digits for other bytes that do not print.
pub(crate) fn put_spelled(text: &mut Vec<u8>, bytes: &[u8]) -> Result<(), AllocError>
    ensures { OnOk result (text.new.items ≡ text.old.items ++ spelled bytes.now) }
{
    for byte in bytes {
        put_byte(text, *byte)?;
    }
    Ok(())
}
