//! The lines of a client, as the profile lists them.
use crate::moments;

#[derive(Clone, Copy, Drop)]
pub enum Verb {
    Data,
    Fetch,
    Time,
}

/// What a DATA, FETCH or TIME asks for.
#[derive(Clone, Copy, Drop)]
pub struct Action {
    pub verb: Verb,
    pub number: Option<usize>,
    pub begin: Option<u64>,
    pub end: Option<u64>,
}

#[derive(Clone, Copy, Drop)]
pub enum Command<'a> {
    Nothing,
    Hello,
    Cat,
    Bye,
    End,
    /// A code, and a network where one is named.
    Station(&'a [u8], Option<&'a [u8]>),
    /// A pattern, or none.
    Select(Option<&'a [u8]>),
    Act(Action),
    Other,
}

/// What comes before the first separator, and what after it, where there is one.
pub fn parted(text: &[u8], separator: u8) -> (&[u8], Option<&[u8]>) {
    for (place, byte) in text.iter().enumerate() {
        if *byte == separator {
            return (&text[..place], Some(&text[place + 1..]));
        }
    }
    (text, None)
}

/// The first three words of a line, empty where there are fewer, and how many it has.
fn words_of(line: &[u8]) -> ([&[u8]; 3], usize) {
    let mut words: [&[u8]; 3] = [b""; 3];
    let mut count: usize = 0;
    let mut left = line;
    for _ in 0..=line.len() {
        let (word, rest) = parted(left, b' ');
        if !word.is_empty() {
            if let Some(slot) = words.get_mut(count) {
                *slot = word;
            }
            count = count.saturating_add(1);
        }
        match rest {
            Some(rest) => left = rest,
            None => return (words, count),
        }
    }
    (words, count)
}

/// A number of 1 to 6 hexadecimal digits.
fn hexadecimal(text: &[u8]) -> Option<usize> {
    if text.is_empty() || text.len() > 6 {
        return None;
    }
    let mut value: usize = 0;
    for byte in text {
        let digit = match *byte {
            b'0'..=b'9' => byte.saturating_sub(b'0'),
            b'A'..=b'F' => byte.saturating_sub(b'A').saturating_add(10),
            b'a'..=b'f' => byte.saturating_sub(b'a').saturating_add(10),
            _ => return None,
        };
        value = value.saturating_mul(16).saturating_add(usize::from(digit));
    }
    Some(value)
}

/// The moment that a word is, or nothing where there is no word; none where the word is no moment.
fn moment_in(word: &[u8]) -> Option<Option<u64>> {
    if word.is_empty() {
        return Some(None);
    }
    Some(Some(moments::of_text(word)?))
}

/// The same of a number.
fn number_in(word: &[u8]) -> Option<Option<usize>> {
    if word.is_empty() {
        return Some(None);
    }
    Some(Some(hexadecimal(word)?))
}

/// An action with its words; none where a word is wrong.
fn action_of(verb: Verb, number: &[u8], begin: &[u8], end: &[u8]) -> Option<Action> {
    Some(Action {
        verb,
        number: number_in(number)?,
        begin: moment_in(begin)?,
        end: moment_in(end)?,
    })
}

fn acting<'a>(action: Option<Action>) -> Command<'a> {
    match action {
        Some(action) => Command::Act(action),
        None => Command::Other,
    }
}

/// A word, where there is one.
fn given(word: &[u8]) -> Option<&[u8]> {
    if word.is_empty() { None } else { Some(word) }
}

/// A command of one word.
fn alone<'a>(name: &[u8]) -> Command<'a> {
    if name.eq_ignore_ascii_case(b"HELLO") {
        Command::Hello
    } else if name.eq_ignore_ascii_case(b"CAT") {
        Command::Cat
    } else if name.eq_ignore_ascii_case(b"BYE") {
        Command::Bye
    } else if name.eq_ignore_ascii_case(b"END") {
        Command::End
    } else {
        Command::Other
    }
}

/// A command whose name and up to two more words are given.
fn asked<'a>(name: &[u8], first: &'a [u8], second: &'a [u8]) -> Command<'a> {
    if name.eq_ignore_ascii_case(b"DATA") {
        acting(action_of(Verb::Data, first, second, b""))
    } else if name.eq_ignore_ascii_case(b"FETCH") {
        acting(action_of(Verb::Fetch, first, second, b""))
    } else if name.eq_ignore_ascii_case(b"TIME") {
        acting(action_of(Verb::Time, b"", first, second))
    } else if name.eq_ignore_ascii_case(b"SELECT") && second.is_empty() {
        Command::Select(given(first))
    } else if name.eq_ignore_ascii_case(b"STATION") && !first.is_empty() {
        Command::Station(first, given(second))
    } else if first.is_empty() {
        alone(name)
    } else {
        Command::Other
    }
}

/// The command of a line.
pub fn command_of(line: &[u8]) -> Command<'_> {
    if line.len() > 256 {
        return Command::Other;
    }
    match words_of(line) {
        (_, 0) => Command::Nothing,
        ([name, first, second], 1..=3) => asked(name, first, second),
        _ => Command::Other,
    }
}
