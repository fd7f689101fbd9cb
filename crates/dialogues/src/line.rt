//! Lines of a dialogue in words.
use crate::fault::Fault;

/// A line: whom or what it is about, what is done, and the rest.
#[derive(Clone, Copy)]
pub struct DialogueLine<'a> {
    pub subject: &'a str,
    /// What stands behind the subject.
    pub tail: &'a str,
    pub verb: &'a str,
    pub rest: &'a str,
}

/// A text cut at its first space; without one its rest is empty.
pub fn word_and_rest(text: &str) -> (&str, &str) {
    match text.split_once(' ') {
        Some(parts) => parts,
        None => (text, ""),
    }
}

/// A number that a text begins with, and what stands behind its space.
pub fn number_and_rest(text: &str) -> Result<(u8, &str), Fault> {
    let (word, rest) = word_and_rest(text);
    match word.parse() {
        Ok(number) => Ok((number, rest)),
        Err(_) => Err(Fault::Step),
    }
}

/// The number that a text is.
pub fn number_of(text: &str) -> Result<usize, Fault> {
    match text.parse() {
        Ok(number) => Ok(number),
        Err(_) => Err(Fault::Step),
    }
}

/// A line, where it is not empty and no remark.
pub fn line_of(text: &str) -> Option<DialogueLine<'_>> {
    if text.is_empty() || text.starts_with('#') {
        return None;
    }
    let (subject, tail) = word_and_rest(text);
    let (verb, rest) = word_and_rest(tail);
    Some(DialogueLine {
        subject,
        tail,
        verb,
        rest,
    })
}
