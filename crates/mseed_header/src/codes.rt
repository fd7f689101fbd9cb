//! The codes of a record and its first bytes.
ghost use Rattle.std.specs.Prelude.{◌≡◌, ◌≤◌, length};
ghost use Rattle.protocol.specs.Record.{is_quality as spec_is_quality, is_sequence_byte as spec_is_sequence_byte};
ghost use Rattle.protocol.specs.Record.{trimmed as spec_trimmed};

/// A digit, a space or 0.
pub fn is_sequence_byte(byte: u8) -> bool
    ensures { result ≡ spec_is_sequence_byte byte }
{
    matches!(byte, 0 | b' ' | b'0'..=b'9')
}

pub fn is_quality(byte: u8) -> bool
    ensures { result ≡ spec_is_quality byte }
{
    matches!(byte, b'D' | b'R' | b'Q' | b'M')
}

/// The code in a field, without the spaces at its end that pad it (SEED Reference Manual 2.4, chapter 8).
pub fn trimmed(field: &[u8]) -> &[u8]
    ensures code { result.now ≡ spec_trimmed field.now }
    ensures bound { length result.now ≤ length field.now }
{
    let mut length = field.len();
    while length > 0 && field[length - 1] == b' ' {
        length -= 1;
    }
    &field[..length]
}
