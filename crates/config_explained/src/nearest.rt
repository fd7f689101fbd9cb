//! The known key that is nearest to one that is not known.
ghost use Rattle.std.specs.Prelude.{◌≡◌, IfOk, find, map, option_map};
ghost use Rattle.config_explained.specs.KeyTable.{name_of};
ghost use Rattle.config_explained.specs.Nearest.{is_near, nearest};

use crate::key::Key;
use std::alloc::{AllocError, Global};
use strsim::osa_distance;

/// Whether a text becomes another one by at most so many changes: a character left out, put in or replaced, or two
/// neighbours exchanged.
fn is_near(alloc: Global, changes: usize, text: &str, known: &str) -> Result<bool, AllocError>
    ensures { IfOk result (λ is. is ≡ is_near changes text.now known.now) }
{
    let distance = osa_distance(alloc, text, known)?;
    Ok(distance <= changes)
}

/// The first of some keys whose name is so near to a text.
fn first_near(
    alloc: Global,
    changes: usize,
    text: &str,
    keys: &[Key],
) -> Result<Option<Key>, AllocError>
    ensures { IfOk result (λ key.
        option_map name_of key ≡ find (is_near changes text.now) (map name_of keys.now)) }
{
    for key in keys {
        if is_near(alloc, changes, text, key.name())? {
            return Ok(Some(*key));
        }
    }
    Ok(None)
}

/// The key of some whose name is nearest to a text, by at most two changes; of several that are as near, the first one.
/// Only memory can lack.
pub fn nearest(alloc: Global, text: &str, keys: &[Key]) -> Result<Option<Key>, AllocError>
    ensures { IfOk result (λ key. option_map name_of key ≡ nearest text.now (map name_of keys.now)) }
{
    match first_near(alloc, 1, text, keys)? {
        Some(key) => Ok(Some(key)),
        None => first_near(alloc, 2, text, keys),
    }
}
