//! The parts of a word that spells a want.
ghost use Rattle.std.specs.Prelude.{◌≡◌, ◌==◌, ◌↔◌, None, IsSome};
ghost use Rattle.std.specs.Option.{option_copied};
ghost use Rattle.protocol.specs.Pieces.{split};
ghost use Rattle.slreader.specs.Wants.{has_patterns as spec_has_patterns};
ghost use Rattle.slreader.specs.WantTexts.{window_value};
ghost use Rattle.slreader.specs.WordParts.{has_action, has_code as spec_has_code, wrong_part};
ghost use Rattle.slreader.specs.Words.{number_behind as spec_number_behind, patterns_of, want_of};

use crate::spelling::{NETWORK, PATTERNS, STATION, is_action, is_code, is_pattern};
use crate::want::Want;
use crate::window::{Window, action_of};
use crate::words::{front_and_rest, number_behind};
use text_parts::separators::cut_at;

/// A part of the word that spells a want.
#[derive(Clone, Copy, PartialEq, Eq)]
pub enum WantPart {
    /// The network's code, before `_`.
    Network,
    /// `_` and the station's code.
    Station,
    /// `:` and the patterns, joined by commas.
    Patterns,
    /// `@` and the number.
    Number,
}

/// A code that is there.
fn has_code(most: usize, code: Option<&[u8]>) -> bool
    ensures { result ≡ spec_has_code most (option_copied code.entry) }
{
    match code {
        Some(code) => is_code(most, code),
        None => false,
    }
}

/// Whether commas separate at most 64 patterns.
fn has_patterns(list: &[u8]) -> bool
    ensures { result ≡ spec_has_patterns (split (λ b. b == 44) list.now) }
{
    let mut room = PATTERNS;
    let mut left = list;
    'commas: while let Some((pattern, rest)) = cut_at(left, b',') {
        if room == 0 || !is_pattern(pattern) {
            return false;
        }
        room -= 1;
        left = rest;
    }
    room > 0 && is_pattern(left)
}

/// At most 64 patterns, where there are some.
fn may_have_patterns(list: Option<&[u8]>) -> bool
    ensures { result ≡ spec_has_patterns (patterns_of (option_copied list.entry)) }
{
    match list {
        Some(list) => has_patterns(list),
        None => true,
    }
}

/// Whether the number, or that there is none, makes an action of the window.
fn has_action(window: Window<'_>, digits: Option<&[u8]>) -> bool
    ensures { result ≡ has_action (window_value window.entry) (spec_number_behind (option_copied digits.entry)) }
{
    let Some(number) = number_behind(digits) else {
        return false;
    };
    match action_of(window, number) {
        Some(action) => is_action(&action),
        None => false,
    }
}

impl<'a> Want<'a> {
    /// The first part of a word for which it spells no want in a window, as the parts stand in it; None where it spells
    /// one. The part Number is wrong also where there is none and the window needs one, or the other way round.
    #[tactic(auto, unfolding(crate::specs::Words::want_of))]
    pub fn wrong_part(word: &[u8], window: Window<'_>) -> Option<WantPart>
        ensures part { result ≡ wrong_part (window_value window.entry) word.now }
        ensures none { (result ≡ None) ↔ IsSome (want_of (window_value window.entry) word.now) }
    {
        let numbered = front_and_rest(b'@', word);
        let selected = front_and_rest(b':', numbered.front);
        let codes = front_and_rest(b'_', selected.front);
        if !is_code(NETWORK, codes.front) {
            Some(WantPart::Network)
        } else if !has_code(STATION, codes.rest) {
            Some(WantPart::Station)
        } else if !may_have_patterns(selected.rest) {
            Some(WantPart::Patterns)
        } else if !has_action(window, numbered.rest) {
            Some(WantPart::Number)
        } else {
            None
        }
    }
}
