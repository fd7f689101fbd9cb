//! Codes of networks, stations and channels as numbers, so that two are compared, hashed or put in order in one step.

ghost use Rattle.std.specs.Prelude.{◌≡◌, ◌≤◌, length};
ghost use Rattle.std.specs.List.{slice_index};
ghost use Rattle.text_parts.specs.Spelling.{spelled as spec_spelled, AreBytes};

/// A byte of a text, or 0 after the last.
fn byte_at(text: &[u8], at: usize) -> u8
    ensures { result ≡ slice_index text.now at }
{
    text.get(at).copied().unwrap_or(0)
}

/// A text of up to seven bytes as one number, whose digits are its bytes and its length. Two texts have the same number
/// only if they are the same, and the numbers are in the order of the alphabet.
pub fn spelled(text: &[u8]) -> u64
    requires { length text.now ≤ 7 }
    ensures number { result ≡ spec_spelled text.now }
    ensures bytes { AreBytes text.now }
{
    u64::from_be_bytes([
        byte_at(text, 0),
        byte_at(text, 1),
        byte_at(text, 2),
        byte_at(text, 3),
        byte_at(text, 4),
        byte_at(text, 5),
        byte_at(text, 6),
        text.len() as u8,
    ])
}
