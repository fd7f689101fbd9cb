//! Numbers as decimal digits spell them, with leading zeros or without. No call takes memory.
//!
//! Decimal digits are read by a function of this project (`text_parts::decimal::number`): std's `parse` takes a sign
//! before them, and any count of digits.

ghost use Rattle.std.specs.Prelude.{◌≡◌, ◌<◌, ◌≤◌, ◌^◌, IfSome, length};
ghost use Rattle.protocol.specs.Time.{decimal_digit, decimal_number, digits_between};

/// The number that `least` to `most` decimal digits spell, where `most` is ten at most: it is below 10^`most`. None
/// where there are fewer digits or more, and where a byte is no digit.
pub fn number(digits: &[u8], least: usize, most: usize) -> Option<usize>
    requires { most ≤ 10 }
    ensures value { result ≡ digits_between least most digits.now }
    ensures below { IfSome result (λ n. n < 10 ^ most) }
{
    if digits.len() < least || digits.len() > most {
        return None;
    }
    spelled(digits)
}

/// The number that decimal digits spell, at most ten.
fn spelled(digits: &[u8]) -> Option<usize>
    requires { length digits.now ≤ 10 }
    ensures value { result ≡ decimal_number 0 digits.now }
    ensures below { IfSome result (λ n. n < 10 ^ length digits.now) }
{
    let mut number = 0;
    for byte in digits {
        number = 10 * number + digit(*byte)?;
    }
    Some(number)
}

/// The value of a decimal digit.
fn digit(byte: u8) -> Option<usize>
    ensures value { result ≡ decimal_digit byte }
    ensures below { IfSome result (λ d. d < 10) }
{
    match byte {
        b'0'..=b'9' => Some(usize::from(byte - b'0')),
        _ => None,
    }
}
