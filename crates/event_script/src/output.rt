//! The text of what takes are handed.
ghost use Rattle.std.specs.Prelude.{◌≡◌, ◌++◌, map, IfOk, OnOk};
ghost use Rattle.server_core.specs.Runs.{handed_value};
ghost use Rattle.event_script.specs.Output.{bytes_text, end_text, handed_line, output_of};

use server_core::Handed;
use std::alloc::{AllocError, Global};

/// Two hexadecimal digits a byte, in lower case; a dash stands for no byte.
fn push_bytes(alloc: Global, bytes: &[u8], text: &mut Vec<u8>) -> Result<(), AllocError>
    ensures { OnOk result (text.new.items ≡ text.old.items ++ bytes_text bytes.now) }
{
    if bytes.is_empty() {
        text.push(b'-')?;
        return Ok(());
    }
    let digits = hex::encode(alloc, bytes)?;
    text.extend_from_slice(digits.as_bytes())?;
    Ok(())
}

fn push_end(ended: bool, text: &mut Vec<u8>) -> Result<(), AllocError>
    ensures { OnOk result (text.new.items ≡ text.old.items ++ end_text ended) }
{
    if ended {
        text.extend_from_slice(b" end")?;
    }
    Ok(())
}

/// The line of a take.
fn push_line(alloc: Global, take: &Handed, text: &mut Vec<u8>) -> Result<(), AllocError>
    ensures { OnOk result (text.new.items ≡ text.old.items ++ handed_line (handed_value take.now)) }
{
    let client = take.client.to_string(alloc)?;
    text.extend_from_slice(client.as_bytes())?;
    text.push(b' ')?;
    push_bytes(alloc, take.bytes.as_slice(), text)?;
    push_end(take.ended, text)?;
    text.push(b'\n')?;
    Ok(())
}

/// One line a take: the client's number in decimal, a space, and the bytes that it was handed, two hexadecimal digits
/// each in lower case, or `-` for none; then ` end` where the client was told that its connection is over. Each line
/// ends with a line feed. Only memory can lack.
pub fn output_of(alloc: Global, takes: &[Handed]) -> Result<Vec<u8>, AllocError>
    ensures { IfOk result (λ text. text.items ≡ output_of (map handed_value takes.now)) }
{
    let mut text = Vec::new(alloc);
    for take in takes {
        push_line(alloc, take, &mut text)?;
    }
    Ok(text)
}
