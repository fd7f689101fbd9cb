//! The parts of a text between commas, one after the other.
ghost use Rattle.std.specs.Prelude.{◌≡◌};
ghost use Rattle.std.specs.Option.{option_copied};
ghost use Rattle.protocol.specs.Pieces.{split};
ghost use Rattle.protocol.specs.Time.{digits_between};
ghost use Rattle.sl_time.specs.Parts.{is_comma, first_part, first_number, first_year, is_over, number_or_zero};
ghost use Rattle.sl_time.specs.Parts.{other_parts};

use std::marker::Model;
use text_parts::decimal::number;
use text_parts::separators::cut_at;

/// The parts that are left of a text.
#[derive(Drop)]
pub struct Parts<'a> {
    text: &'a [u8],
    over: bool,
}

impl<'a> Model for Parts<'a> {
    ghost use Rattle.std.specs.Prelude.{ℕ, List, [], if◌then◌else◌};
    ghost use Rattle.protocol.specs.Pieces.{split};
    ghost use Rattle.sl_time.specs.Parts.{is_comma};

    ghost Value = { List (List ℕ) };

    ghost view = { λ s. if s.over then [] else split is_comma s.text.now };
}

impl<'a> Parts<'a> {
    /// All parts of the text, of which there is always a first.
    pub fn new(text: &'a [u8]) -> Parts<'a>
        ensures { result ≡ split is_comma text.now }
    {
        Parts { text, over: false }
    }

    /// The next part; None where no part is left.
    pub fn next(&mut self) -> Option<&'a [u8]>
        ensures part { option_copied result ≡ first_part self.old }
        ensures rest { self.new ≡ other_parts self.old }
    {
        if self.over {
            return None;
        }
        match cut_at(self.text, b',') {
            Some((part, rest)) => {
                self.text = rest;
                Some(part)
            }
            None => {
                self.over = true;
                Some(self.text)
            }
        }
    }

    /// Whether no part is left.
    pub fn is_over(&self) -> bool
        ensures { result ≡ is_over self.now }
    {
        self.over
    }

    /// The year that the next part is, of four digits.
    pub fn year(&mut self) -> Option<u16>
        ensures value { result ≡ first_year self.old }
        ensures rest { self.new ≡ other_parts self.old }
    {
        let part = self.next()?;
        year_of(part)
    }

    /// The number that the next part is, of one or two digits.
    pub fn number(&mut self) -> Option<u8>
        ensures value { result ≡ first_number self.old }
        ensures rest { self.new ≡ other_parts self.old }
    {
        let part = self.next()?;
        number_of(part)
    }

    /// The same, and 0 where no part is left.
    pub fn number_or_zero(&mut self) -> Option<u8>
        ensures value { result ≡ number_or_zero self.old }
        ensures rest { self.new ≡ other_parts self.old }
    {
        match self.next() {
            Some(part) => number_of(part),
            None => Some(0),
        }
    }
}

/// The number that four decimal digits spell.
fn year_of(digits: &[u8]) -> Option<u16>
    ensures { result ≡ digits_between 4 4 digits.now }
{
    let year = number(digits, 4, 4)?;
    Some(year as u16)
}

/// The number that one or two decimal digits spell.
fn number_of(digits: &[u8]) -> Option<u8>
    ensures { result ≡ digits_between 1 2 digits.now }
{
    let number = number(digits, 1, 2)?;
    Some(number as u8)
}
