//! Whether a plan can be asked for.
ghost use Rattle.std.specs.Prelude.{◌≡◌, length, nat_le};
ghost use Rattle.std.specs.List.{list_all};
ghost use Rattle.std.specs.Option.{option_copied};
ghost use Rattle.slreader.specs.Wants.{is_action as spec_is_action, is_code as spec_is_code};
ghost use Rattle.slreader.specs.Wants.{is_code_byte as spec_is_code_byte, is_led, is_moment as spec_is_moment};
ghost use Rattle.slreader.specs.Wants.{is_pattern as spec_is_pattern, has_patterns as spec_has_patterns, is_plan};
ghost use Rattle.slreader.specs.Wants.{is_want, patterns_together, wants_of};
ghost use Rattle.slreader.specs.WantTexts.{action_value, texts};
ghost use Rattle.slreader.specs.Views.{plan_value};

use crate::want::{Plan, Want, WantedAction};
use selector::Pattern;

/// How many bytes a network's code has at most.
pub(crate) const NETWORK: usize = 2;

/// How many bytes a station's code has at most.
pub(crate) const STATION: usize = 5;

/// How many patterns a want has at most.
pub(crate) const PATTERNS: usize = 64;

/// How many patterns the wants of a plan have together at most.
const TOGETHER: usize = 1024;

/// How many wants a plan has at most.
const WANTS: usize = 255;

/// `A` to `Z` or `0` to `9`.
fn is_code_byte(byte: u8) -> bool
    ensures { result ≡ spec_is_code_byte byte }
{
    matches!(byte, b'A'..=b'Z' | b'0'..=b'9')
}

/// Bytes of a code.
fn are_code_bytes(code: &[u8]) -> bool
    ensures { result ≡ list_all spec_is_code_byte code.now }
{
    code.iter().all(|byte| is_code_byte(*byte))
}

/// 1 to `most` bytes of a code.
pub(crate) fn is_code(most: usize, code: &[u8]) -> bool
    ensures { result ≡ spec_is_code most code.now }
{
    1 <= code.len() && code.len() <= most && are_code_bytes(code)
}

/// The text of a pattern.
pub(crate) fn is_pattern(text: &[u8]) -> bool
    ensures { result ≡ spec_is_pattern text.now }
{
    Pattern::parse(text).is_some()
}

/// Texts of patterns.
fn are_patterns(patterns: &[&[u8]]) -> bool
    ensures { result ≡ list_all spec_is_pattern (texts patterns.now) }
{
    for pattern in patterns {
        if !is_pattern(pattern) {
            return false;
        }
    }
    true
}

/// At most 64 texts of patterns.
#[tactic(auto, using(crate::proofs::TextLemmas::size_of_texts))]
fn has_patterns(patterns: &[&[u8]]) -> bool
    ensures { result ≡ spec_has_patterns (texts patterns.now) }
{
    patterns.len() <= PATTERNS && are_patterns(patterns)
}

/// The text of a moment, if there is one.
fn is_moment(text: Option<&[u8]>) -> bool
    ensures { result ≡ spec_is_moment (option_copied text.entry) }
{
    match text {
        Some(text) => sl_time::parse(text).is_ok(),
        None => true,
    }
}

/// The second stands only behind the first.
fn is_led(has_first: bool, has_second: bool) -> bool
    ensures { result ≡ is_led has_first has_second }
{
    has_first || !has_second
}

/// The arguments are texts of moments, and each has the one before it.
pub(crate) fn is_action(action: &WantedAction<'_>) -> bool
    ensures { result ≡ spec_is_action (action_value action.now) }
{
    match action {
        WantedAction::Data { number, begin } => {
            is_led(number.is_some(), begin.is_some()) && is_moment(*begin)
        }
        WantedAction::Fetch { number, begin } => {
            is_led(number.is_some(), begin.is_some()) && is_moment(*begin)
        }
        WantedAction::Time { begin, last } => {
            is_led(begin.is_some(), last.is_some()) && is_moment(*begin) && is_moment(*last)
        }
    }
}

impl<'a> Want<'a> {
    /// How many patterns it has.
    #[tactic(auto, using(crate::proofs::TextLemmas::size_of_texts))]
    fn count(&self) -> usize
        ensures { result ≡ length self.now.patterns }
    {
        self.patterns.len()
    }

    /// Whether it can be asked for: its codes have the right bytes, there are at most 64 patterns, each is one, and
    /// each argument of its action is a moment and has the argument before it.
    #[tactic(auto, unfolding(crate::specs::Wants::is_want))]
    pub fn is_spellable(&self) -> bool
        ensures { result ≡ is_want self.now }
    {
        is_code(NETWORK, self.network)
            && is_code(STATION, self.station)
            && has_patterns(&self.patterns)
            && is_action(&self.action)
    }
}

/// Whether the wants have at most 1,024 patterns together.
fn are_together(wants: &[Want<'_>]) -> bool
    ensures { result ≡ nat_le (patterns_together wants.now) 1024 }
{
    let mut left = TOGETHER;
    for want in wants {
        let count = want.count();
        if count > left {
            return false;
        }
        left -= count;
    }
    true
}

/// Whether each of the wants can be asked for.
fn are_wants(wants: &[Want<'_>]) -> bool
    ensures { result ≡ list_all is_want wants.now }
{
    for want in wants {
        if !want.is_spellable() {
            return false;
        }
    }
    true
}

impl<'a> Plan<'a> {
    /// How many wants it has.
    pub fn len(&self) -> usize
        ensures { result ≡ length (wants_of (plan_value self.now)) }
    {
        match self {
            Plan::Uni(_) => 1,
            Plan::Multi(wants) => wants.len(),
        }
    }

    /// Whether it can be asked for: there are 1 to 255 wants, each of them can be, and
    /// they have at most 1,024 patterns together.
    pub fn is_spellable(&self) -> bool
        ensures { result ≡ is_plan (plan_value self.now) }
    {
        match self {
            Plan::Uni(want) => want.is_spellable(),
            Plan::Multi(wants) => {
                !wants.is_empty() && wants.len() <= WANTS && are_wants(wants) && are_together(wants)
            }
        }
    }
}
