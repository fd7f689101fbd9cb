//! Words that spell wants.
ghost use Rattle.std.specs.Prelude.{◌≡◌, ◌==◌, Some, IfOk, IfErr};
ghost use Rattle.std.specs.Option.{option_copied};
ghost use Rattle.protocol.specs.Pieces.{split};
ghost use Rattle.slreader.specs.WantTexts.{texts, window_value};
ghost use Rattle.slreader.specs.Words.{front_of, number_behind, patterns_of, rest_of, want_of};
ghost use Rattle.slreader.specs.Words.{IsNoWant};

use crate::fault::ReaderFault;
use crate::want::Want;
use crate::window::{Window, action_of};
use sl_packet::Seq;
use std::alloc::{AllocError, Global};
use text_parts::separators::cut_at;

/// A text cut at its first separator.
#[derive(Clone, Copy)]
pub(crate) struct CutText<'a> {
    pub(crate) front: &'a [u8],
    pub(crate) rest: Option<&'a [u8]>,
}

/// A text cut at its first separator; all of it where it has none.
pub(crate) fn front_and_rest(separator: u8, text: &[u8]) -> CutText<'_>
    ensures front { result.front.now ≡ front_of separator text.now }
    ensures rest { option_copied result.rest ≡ rest_of separator text.now }
{
    match cut_at(text, separator) {
        Some((front, rest)) => CutText {
            front,
            rest: Some(rest),
        },
        None => CutText {
            front: text,
            rest: None,
        },
    }
}

/// The texts that commas separate.
fn pieces_of<'a>(alloc: Global, text: &'a [u8]) -> Result<Vec<&'a [u8]>, AllocError>
    ensures { IfOk result (λ pieces. texts pieces.items ≡ split (λ b. b == 44) text.now) }
{
    let mut pieces = Vec::new(alloc);
    let mut left = text;
    'commas: while let Some((piece, rest)) = cut_at(left, b',') {
        pieces.push(piece)?;
        left = rest;
    }
    pieces.push(left)?;
    Ok(pieces)
}

/// The texts of patterns, where there are some.
fn patterns_of<'a>(alloc: Global, list: Option<&'a [u8]>) -> Result<Vec<&'a [u8]>, AllocError>
    ensures { IfOk result (λ pieces. texts pieces.items ≡ patterns_of (option_copied list.entry)) }
{
    match list {
        Some(list) => pieces_of(alloc, list),
        None => Ok(Vec::new(alloc)),
    }
}

/// The number behind `@`, if there is one; None where its digits are none of a number.
pub(crate) fn number_behind(digits: Option<&[u8]>) -> Option<Option<Seq>>
    ensures { result ≡ number_behind (option_copied digits.entry) }
{
    match digits {
        Some(digits) => Some(Some(Seq::parse(digits)?)),
        None => Some(None),
    }
}

impl<'a> Want<'a> {
    /// The want that a word spells: the network and the station, joined by `_`; then possibly `:` and patterns,
    /// joined by commas; then possibly `@` and a number of 1 to 6 hexadecimal digits, from which on its records are
    /// wanted. So `GE_WLF:BH?,!E@0000A3`. The action is that of the window: DATA or FETCH, or TIME if there is no
    /// number and a begin.
    ///
    /// It fails with Limit where the word spells no want that can be asked for in that window, and with OutOfMemory
    /// only where there is no memory for the patterns.
    #[tactic(auto, unfolding(crate::specs::Words::want_of))]
    pub fn parse(alloc: Global, word: &'a [u8], window: Window<'a>) -> Result<Want<'a>, ReaderFault>
        ensures want { IfOk result (λ want. want_of (window_value window.entry) word.now ≡ Some want) }
        ensures fault { IfErr result (λ fault. IsNoWant fault (want_of (window_value window.entry) word.now)) }
    {
        let numbered = front_and_rest(b'@', word);
        let selected = front_and_rest(b':', numbered.front);
        let codes = front_and_rest(b'_', selected.front);
        let Some(number) = number_behind(numbered.rest) else {
            return Err(ReaderFault::Limit);
        };
        let Some(action) = action_of(window, number) else {
            return Err(ReaderFault::Limit);
        };
        let Some(station) = codes.rest else {
            return Err(ReaderFault::Limit);
        };
        let Ok(patterns) = patterns_of(alloc, selected.rest) else {
            return Err(ReaderFault::OutOfMemory);
        };
        let want = Want {
            network: codes.front,
            station,
            patterns,
            action,
        };
        if want.is_spellable() {
            Ok(want)
        } else {
            Err(ReaderFault::Limit)
        }
    }
}
