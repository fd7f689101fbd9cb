//! Keys as they are shown.
ghost use Rattle.std.specs.Prelude.{◌≡◌, ◌++◌, OnOk, map};
ghost use Rattle.config_explained.specs.ShownKeys.{shown};

use std::alloc::AllocError;

/// A byte as it is shown: `?` if it is not a visible one of ASCII.
fn shown(byte: u8) -> u8
    ensures { result ≡ shown byte }
{
    if byte < 33 || byte > 126 { b'?' } else { byte }
}

/// Puts a key behind a text as it is shown.
pub(crate) fn put_key(text: &mut Vec<u8>, key: &[u8]) -> Result<(), AllocError>
    ensures { OnOk result (text.new.items ≡ text.old.items ++ map shown key.now) }
{
    for byte in key {
        text.push(shown(*byte))?;
    }
    Ok(())
}
