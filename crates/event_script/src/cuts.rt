//! Texts in parts between separators.
ghost use Rattle.std.specs.Prelude.{◌≡◌, option_map};
ghost use Rattle.event_script.specs.Script.{addressed_of, cut_by, six_of};
ghost use Rattle.event_script.specs.ScriptValues.{addressed_value, cut_value, six_value};

use crate::numbers::decimal;
use text_parts::separators;

/// A text cut at its first separator.
#[derive(Clone, Copy)]
pub(crate) struct ScriptCut<'a> {
    pub front: &'a [u8],
    pub rest: &'a [u8],
}

/// A client's number, and what stands behind the space that follows it.
#[derive(Clone, Copy)]
pub(crate) struct Addressed<'a> {
    pub client: usize,
    pub rest: &'a [u8],
}

/// Six parts of a text.
#[derive(Clone, Copy)]
pub(crate) struct Six<'a> {
    pub first: &'a [u8],
    pub second: &'a [u8],
    pub third: &'a [u8],
    pub fourth: &'a [u8],
    pub fifth: &'a [u8],
    pub sixth: &'a [u8],
}

/// A text cut at its first separator; None where it has none.
pub(crate) fn cut_at(separator: u8, text: &[u8]) -> Option<ScriptCut<'_>>
    ensures { option_map cut_value result ≡ cut_by separator text.now }
{
    let (front, rest) = separators::cut_at(text, separator)?;
    Some(ScriptCut { front, rest })
}

/// A text that begins with a client's number and a space.
pub(crate) fn client_and_rest(text: &[u8]) -> Option<Addressed<'_>>
    ensures { option_map addressed_value result ≡ addressed_of text.now }
{
    let cut = cut_at(b' ', text)?;
    let client = decimal(cut.front)?;
    Some(Addressed {
        client,
        rest: cut.rest,
    })
}

/// The parts of a text that has five separators.
pub(crate) fn six_parts(separator: u8, text: &[u8]) -> Option<Six<'_>>
    ensures { option_map six_value result ≡ six_of separator text.now }
{
    let first = cut_at(separator, text)?;
    let second = cut_at(separator, first.rest)?;
    let third = cut_at(separator, second.rest)?;
    let fourth = cut_at(separator, third.rest)?;
    let fifth = cut_at(separator, fourth.rest)?;
    if cut_at(separator, fifth.rest).is_some() {
        return None;
    }
    Some(Six {
        first: first.front,
        second: second.front,
        third: third.front,
        fourth: fourth.front,
        fifth: fifth.front,
        sixth: fifth.rest,
    })
}
