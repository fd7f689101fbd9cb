//! Texts that are cut where a separator stands. No call takes memory.

ghost use Rattle.std.specs.Prelude.{◌≡◌, ◌==◌, ◌+◌, ◌∷◌, [], length, take, drop, position, None, Some};
ghost use Rattle.std.specs.Prelude.{IfSome, MatchOption};
ghost use Rattle.protocol.specs.Pieces.{split};

/// What stands before the first separator of a text, and what stands behind it. None where it has none.
pub fn cut_at(text: &[u8], separator: u8) -> Option<(&[u8], &[u8])>
    ensures place { MatchOption result (position (λ b. b == separator) text.now ≡ None)
        (λ cut. position (λ b. b == separator) text.now ≡ Some (length cut.0.now)) }
    ensures sides { IfSome result (λ cut. (cut.0.now ≡ take (length cut.0.now) text.now)
        × (cut.1.now ≡ drop (length cut.0.now + 1) text.now)) }
    ensures pieces { MatchOption result (split (λ b. b == separator) text.now ≡ text.now ∷ [])
        (λ cut. split (λ b. b == separator) text.now ≡ cut.0.now ∷ split (λ b. b == separator) cut.1.now) }
{
    let place = place_of(text, separator)?;
    Some((&text[..place], &text[place + 1..]))
}

/// Where the first separator stands.
fn place_of(text: &[u8], separator: u8) -> Option<usize>
    ensures { result ≡ position (λ b. b == separator) text.now }
{
    text.iter().position(|byte| *byte == separator)
}
