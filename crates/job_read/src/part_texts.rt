//! The parts of a WANT, and what is allowed there, in words.
use slreader::WantPart;

/// The name of a part.
pub fn name_of(part: WantPart) -> &'static str {
    match part {
        WantPart::Network => "network",
        WantPart::Station => "station",
        WantPart::Patterns => "patterns",
        WantPart::Number => "number",
    }
}

/// What is allowed there.
pub fn allowed_in(part: WantPart) -> &'static str {
    match part {
        WantPart::Network => "1 to 2 of A to Z and 0 to 9, before _",
        WantPart::Station =>
            "1 to 5 of A to Z and 0 to 9, after _; each WANT is a word, or a line, of its own",
        WantPart::Patterns => "1 to 64 patterns joined by commas, as BH?, 00BHZ.D or !E, after :",
        WantPart::Number =>
            "1 to 6 hexadecimal digits, after @; --fetch with --begin needs them, as @0, --end takes none",
    }
}
