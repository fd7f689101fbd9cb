//! Parts of lines, put behind a text.
ghost use Rattle.std.specs.Prelude.{◌≡◌, ◌≤◌, ◌++◌, length, OnOk};
ghost use Rattle.protocol.specs.Record.{padded};

use std::alloc::AllocError;

/// A text.
pub(crate) fn put(text: &mut Vec<u8>, more: &[u8]) -> Result<(), AllocError>
    ensures { OnOk result (text.new.items ≡ text.old.items ++ more.now) }
{
    text.extend_from_slice(more)
}

/// A code, and spaces up to a width.
pub(crate) fn put_padded(text: &mut Vec<u8>, code: &[u8], width: usize) -> Result<(), AllocError>
    requires { length code.now ≤ width }
    ensures { OnOk result (text.new.items ≡ text.old.items ++ padded width code.now) }
{
    put(text, code)?;
    for _ in code.len()..width {
        text.push(b' ')?;
    }
    Ok(())
}
