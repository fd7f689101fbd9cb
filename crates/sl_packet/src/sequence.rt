//! Sequence numbers: 24 bits, spelled as hexadecimal digits (SeedLink 3, data packets).
ghost use Rattle.std.specs.Prelude.{◌≡◌, ◌<◌, if◌then◌else◌, IfSome, nat_lt};
ghost use Rattle.protocol.specs.Packet.{digit, digits, hex_digit, next_number, number_of, numbers};

use std::marker::Model;

/// Numbers are those below this one.
const NUMBERS: u32 = 0x100_0000;

/// The digits of a number in hexadecimal, at most.
const DIGITS: usize = 6;

/// The sequence number of a packet, below 2^24. The number after the last is 0.
#[derive(Clone, Copy, PartialEq, Eq)]
pub struct Seq {
    number: u32,
}

impl Model for Seq {
    ghost use Rattle.std.specs.Prelude.{ℕ, ◌<◌};
    ghost use Rattle.protocol.specs.Packet.{numbers};

    ghost Value = { ℕ };

    ghost view = { λ s. s.number };

    ghost invariant = { λ s. s.number < numbers };

    ghost inverse = { λ n. record { number = n } };
}

impl Seq {
    /// The sequence number with that value; None from 2^24 on.
    pub fn of(value: u32) -> Option<Seq>
        ensures { result ≡ (if nat_lt value numbers then Some value else None) }
    {
        if value < NUMBERS {
            Some(Seq { number: value })
        } else {
            None
        }
    }

    /// The number that 1 to 6 hexadecimal digits of either case spell; None where the text is anything else.
    pub fn parse(text: &[u8]) -> Option<Seq>
        ensures { result ≡ number_of text.now }
    {
        if text.is_empty() || text.len() > DIGITS {
            return None;
        }
        let mut number = 0;
        for byte in text {
            number = 16 * number + hex_digit(*byte)?;
        }
        Some(Seq { number })
    }

    /// The number of the packet after this one: one more, and 0 after 2^24 - 1.
    pub fn next(self) -> Seq
        ensures { result ≡ next_number self }
    {
        Seq {
            number: (self.value() + 1) % NUMBERS,
        }
    }

    /// Its six hexadecimal digits in upper case, as a packet has them behind `SL`.
    pub fn digits(self) -> [u8; 6]
        ensures { result ≡ digits self }
    {
        let number = self.value();
        [
            digit(number / 0x10_0000 % 16),
            digit(number / 0x1_0000 % 16),
            digit(number / 0x1000 % 16),
            digit(number / 0x100 % 16),
            digit(number / 0x10 % 16),
            digit(number % 16),
        ]
    }

    /// The number itself, from 0 to 2^24 - 1.
    pub fn value(self) -> u32
        ensures same { result ≡ self }
        ensures below { result < numbers }
    {
        self.number
    }
}

/// A hexadecimal digit of either case.
fn hex_digit(byte: u8) -> Option<u32>
    ensures value { result ≡ hex_digit byte }
    ensures below { IfSome result (λ d. d < 16) }
{
    match byte {
        b'0'..=b'9' => Some(u32::from(byte - b'0')),
        b'A'..=b'F' => Some(u32::from(byte - b'A') + 10),
        b'a'..=b'f' => Some(u32::from(byte - b'a') + 10),
        _ => None,
    }
}

/// The sixteen hexadecimal digits, in upper case.
static LETTERS: [u8; 16] = *b"0123456789ABCDEF";

/// The hexadecimal digit of a number below 16, in upper case.
fn digit(value: u32) -> u8
    requires { value < 16 }
    ensures { result ≡ digit value }
{
    LETTERS[value as usize]
}
