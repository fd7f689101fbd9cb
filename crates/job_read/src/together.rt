//! Whether wants can be asked for together: what one does to an earlier one of its station, and how many there are.
ghost use Rattle.std.specs.Prelude.{◌≡◌, ◌==◌, length};
ghost use Rattle.std.specs.List.{list_any};
ghost use Rattle.slreader.specs.WantTexts.{action_value, texts};
ghost use Rattle.job_read.specs.Together.{add_up, are_negative_in, clash, excess, first_clash, has_few_patterns};
ghost use Rattle.job_read.specs.Together.{has_positive, is_among, is_positive, is_same_number, is_same_station};
ghost use Rattle.job_read.specs.Together.{misfit_of, number_in};
ghost use Rattle.protocol.specs.declared.reason.Reason.TheVariants.{Limit};

use incidents::Failure;
use protocol::reason::Reason;
use sl_packet::Seq;
use slreader::{Want, WantedAction};

/// How many wants one reader can ask for (SeedLink 3, STATION).
const WANTS: usize = 255;

/// How many patterns they can have together.
const PATTERNS: usize = 1024;

/// Why wants are not asked for together, though each of them can be asked for.
#[derive(Clone, Copy, PartialEq, Eq, Drop)]
pub enum Misfit {
    /// The want at that place narrows or moves what an earlier one of its station asks for.
    Clash(usize),
    /// There are more than 255.
    Stations,
    /// They have more than 1,024 patterns.
    Patterns,
    /// There is none.
    Nothing,
}

impl Misfit {
    /// What is said of it.
    fn cause(self) -> &'static str {
        match self {
            Misfit::Clash(_) =>
                "a WANT would narrow or move what an earlier one of its station asks for",
            Misfit::Stations => "there are more WANTs than one reader can ask for",
            Misfit::Patterns => "the WANTs have more patterns than one reader can ask for",
            Misfit::Nothing => "there is no WANT",
        }
    }

    /// What is allowed of wants together.
    fn allowed(self) -> &'static str {
        match self {
            Misfit::Clash(_) => {
                "WANTs of one station that have the same number or none, and of which each adds patterns"
            }
            Misfit::Stations | Misfit::Nothing => "1 to 255 WANTs",
            Misfit::Patterns => "at most 1024 patterns in all WANTs",
        }
    }

    /// It, as the program reports it: 22 Limit.
    pub fn failure(self) -> Failure
        ensures { result.reason ≡ Limit }
    {
        Failure::by(Reason::Limit, Some(self.cause())).allowing(self.allowed())
    }
}

/// Whether a pattern says what to send, and not what not to send.
fn is_positive(pattern: &[u8]) -> bool
    ensures { result ≡ is_positive pattern.now }
{
    match pattern.first() {
        Some(byte) => *byte != b'!',
        None => true,
    }
}

/// Whether a pattern says what to send.
fn has_positive(patterns: &[&[u8]]) -> bool
    ensures { result ≡ has_positive (texts patterns.now) }
{
    for pattern in patterns {
        if is_positive(pattern) {
            return true;
        }
    }
    false
}

/// Whether a text is one of the patterns.
fn is_among(patterns: &[&[u8]], text: &[u8]) -> bool
    ensures { result ≡ is_among (texts patterns.now) text.now }
{
    for pattern in patterns {
        if *pattern == text {
            return true;
        }
    }
    false
}

/// Whether others say not to send what these say not to send.
fn are_negative_in(others: &[&[u8]], patterns: &[&[u8]]) -> bool
    ensures { result ≡ are_negative_in (texts others.now) (texts patterns.now) }
{
    for pattern in patterns {
        if !is_positive(pattern) && !is_among(others, pattern) {
            return false;
        }
    }
    true
}

/// Whether the patterns of both together let pass what either lets pass.
fn add_up(these: &[&[u8]], those: &[&[u8]]) -> bool
    ensures { result ≡ add_up (texts these.now) (texts those.now) }
{
    has_positive(these) == has_positive(those)
        && are_negative_in(those, these)
        && are_negative_in(these, those)
}

/// The number that is asked for.
pub fn number_in(action: &WantedAction<'_>) -> Option<Seq>
    ensures { result ≡ number_in (action_value action.now) }
{
    match action {
        WantedAction::Data { number, .. } => *number,
        WantedAction::Fetch { number, .. } => *number,
        WantedAction::Time { .. } => None,
    }
}

/// Whether both ask for one number, or neither for any.
fn is_same_number(this: Option<Seq>, that: Option<Seq>) -> bool
    ensures { result ≡ is_same_number this that }
{
    match (this, that) {
        (None, None) => true,
        (Some(this), Some(that)) => this.value() == that.value(),
        _ => false,
    }
}

/// Whether both are of one station.
pub fn is_same_station(this: &Want<'_>, that: &Want<'_>) -> bool
    ensures { result ≡ is_same_station this.now that.now }
{
    this.network == that.network && this.station == that.station
}

/// Whether both are of one station, and one of them narrows or moves what the other asks for.
fn do_clash(this: &Want<'_>, that: &Want<'_>) -> bool
    ensures { result ≡ clash this.now that.now }
{
    is_same_station(this, that)
        && !(add_up(&this.patterns, &that.patterns)
            && is_same_number(number_in(&this.action), number_in(&that.action)))
}

/// Whether a want clashes with one of these.
fn does_clash(earlier: &[Want<'_>], want: &Want<'_>) -> bool
    ensures { result ≡ list_any (λ v. clash v want.now) earlier.now }
{
    for other in earlier {
        if do_clash(other, want) {
            return true;
        }
    }
    false
}

/// The place of the first want that clashes with an earlier one.
fn first_clash(wants: &[Want<'_>]) -> Option<usize>
    ensures { result ≡ first_clash wants.now }
{
    for (place, want) in wants.iter().enumerate() {
        if does_clash(&wants[..place], want) {
            return Some(place);
        }
    }
    None
}

/// How many patterns a want has.
#[tactic(auto, using(slreader::proofs::TextLemmas::size_of_texts))]
fn pattern_count(want: &Want<'_>) -> usize
    ensures { result ≡ length want.now.patterns }
{
    want.patterns.len()
}

/// Whether the wants have at most 1,024 patterns together.
fn has_few_patterns(wants: &[Want<'_>]) -> bool
    ensures { result ≡ has_few_patterns wants.now }
{
    let mut left = PATTERNS;
    for want in wants {
        let count = pattern_count(want);
        if count > left {
            return false;
        }
        left -= count;
    }
    true
}

/// Why there are too many wants, if there are, or that there is none.
fn excess(wants: &[Want<'_>]) -> Option<Misfit>
    ensures { result ≡ excess wants.now }
{
    if wants.is_empty() {
        Some(Misfit::Nothing)
    } else if wants.len() > WANTS {
        Some(Misfit::Stations)
    } else if has_few_patterns(wants) {
        None
    } else {
        Some(Misfit::Patterns)
    }
}

/// Why wants are not asked for together, if that is so. They may not clash if records or a state are kept or they come
/// from a file, and then and if servers are asked again there may not be more than one reader can ask for: a server
/// would take the last word for a station, or the reader would end, when nobody looks.
pub fn misfit_of(wants: &[Want<'_>], is_kept: bool, is_retried: bool) -> Option<Misfit>
    ensures { result ≡ misfit_of is_kept is_retried wants.now }
{
    if !is_kept {
        return if is_retried { excess(wants) } else { None };
    }
    match first_clash(wants) {
        Some(place) => Some(Misfit::Clash(place)),
        None => excess(wants),
    }
}
