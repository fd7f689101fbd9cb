//! Lines that name keys.
ghost use Rattle.std.specs.Prelude.{◌≡◌, ◌++◌, OnOk};
ghost use Rattle.config_explained.specs.Unknown.{key_line, whose};

use crate::lines::put;
use crate::owner::Owner;
use crate::shown_keys::put_key;
use std::alloc::{AllocError, Global};

/// The line of a key that is not known: with what it may be, if it is known with another value, or else with the known
/// one that is nearest, if one is near.
pub fn put_line(
    alloc: Global,
    text: &mut Vec<u8>,
    key: &str,
    owner: Owner<'_>,
) -> Result<(), AllocError>
    ensures { OnOk result (text.new.items ≡ text.old.items ++ key_line (whose owner.entry) key.now) }
{
    put(text, b"seedlinkd: unknown key ")?;
    put_key(text, key.as_bytes())?;
    owner.put_words(text)?;
    owner.put_hint(alloc, text, key)?;
    put(text, b"\n")?;
    Ok(())
}
