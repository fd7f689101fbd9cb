//! The entries of an access list's text.
ghost use Rattle.std.specs.Prelude.{◌≡◌, ◌++◌, ◌∷◌, [], OnOk, option_map};
ghost use Rattle.access_list.specs.Tokens.{is_separator};
ghost use Rattle.config_explained.specs.Holders.{entries_of, list_words, words_of};

use crate::lines::put;
use access_list::list::is_separator;
use std::alloc::AllocError;

/// A space and a word.
fn put_word(text: &mut Vec<u8>, word: &[u8]) -> Result<(), AllocError>
    ensures { OnOk result (text.new.items ≡ text.old.items ++ words_of (word.now ∷ [])) }
{
    put(text, b" ")?;
    put(text, word)
}

/// The entries of a list, each after a space.
fn put_entries(text: &mut Vec<u8>, list: &[u8]) -> Result<(), AllocError>
    ensures { OnOk result (text.new.items ≡ text.old.items ++ words_of (entries_of list.now)) }
{
    let entries = list.split(
        |byte|
            ensures { result ≡ is_separator byte.now }
        { is_separator(*byte) },
    );
    for entry in entries {
        if !entry.is_empty() {
            put_word(text, entry)?;
        }
    }
    Ok(())
}

/// Whom a list admits: its entries, or nobody where it has none; `-` where there is no list, so that everybody is
/// admitted.
pub(crate) fn put_list(text: &mut Vec<u8>, list: &Option<Vec<u8>>) -> Result<(), AllocError>
    ensures { OnOk result (text.new.items ≡ text.old.items ++ list_words (option_map (λ l. l.items) list.now)) }
{
    match list {
        None => put_word(text, b"-"),
        Some(list) => {
            let before = text.len();
            put_entries(text, list.as_slice())?;
            if text.len() == before {
                put_word(text, b"nobody")
            } else {
                Ok(())
            }
        }
    }
}
