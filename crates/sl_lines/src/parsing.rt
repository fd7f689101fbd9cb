//! Commands out of lines, by their words.
//!
//! `command` takes a line, as the cutter lends it, and not its bytes: a line that is too long is Bad whatever it holds,
//! so the function over lines is the whole. The toolchain does not pass a command with its borrowed words on as an
//! argument (it holds types that are seen as numbers), so a caller matches on the call.
ghost use Rattle.std.specs.Prelude.{◌≡◌, List, ℕ, ℤ, Option, Some};
ghost use Rattle.protocol.specs.Command.{Command as ProtocolCommand, command_of, command_of_words, named, numbered};
ghost use Rattle.protocol.specs.Command.{timed, uppercased, words};
ghost use Rattle.protocol.specs.Command.Command.{Data, Fetch};
ghost use Rattle.protocol.specs.Time.{time_of};
ghost use Rattle.sl_lines.specs.LineValues.{line_value};
ghost use Rattle.sl_lines.specs.CommandValues.{command_value};
ghost use Rattle.sl_lines.specs.WordValues.{AreWords, command_by, resuming, between};
ghost use Rattle.std.specs.Prelude.{◌≢◌, ◌<◌, [], ◌∷◌, length, slice_index, IsTrue, MatchOption};
ghost use Rattle.std.specs.List.{list_all};
ghost use Rattle.std.specs.Char.{is_ascii_uppercase};
ghost use Rattle.std.specs.Str.{bytes_eq};

use crate::actions::Action;
use crate::commands::Command;
use crate::lines::Line;
use sl_packet::Seq;
use sl_time::Tick;

/// The most bytes of a line that can be a command.
const LONGEST: usize = 256;

/// The names of the commands.
#[derive(Clone, Copy)]
enum Name {
    Hello,
    Cat,
    Bye,
    End,
    Station,
    Select,
    Data,
    Fetch,
    Time,
}

/// From where records are asked, by the words of DATA and FETCH.
#[derive(Clone, Copy)]
struct Resumption {
    number: Option<Seq>,
    begin: Option<Tick>,
}

/// Between which moments records are asked, by the words of TIME.
#[derive(Clone, Copy)]
struct Interval {
    begin: Option<Tick>,
    last: Option<Tick>,
}

/// What a line asks: its first word is a command's name in letters of either case, and the others are what the command
/// takes. Runs of spaces (byte 32) separate words, and those at either end count for nothing. A line of more than 256
/// bytes is Bad, whatever it holds. A number is 1 to 6 hexadecimal digits; a time is `year,month,day` and up to three
/// of `,hour`, `,minute` and `,second`.
pub fn command(line: Line<'_>) -> Command<'_>
    ensures { command_value result ≡ command_of (line_value line.entry) }
{
    match line {
        Line::Text(text) => {
            if text.len() > LONGEST {
                return Command::Bad;
            }
            command_of_text(text)
        }
        Line::TooLong => Command::Bad,
    }
}

fn command_of_text(text: &[u8]) -> Command<'_>
    ensures { command_value result ≡ command_of_words (words text.now) }
{
    let Some((word, rest)) = first_word(text) else {
        return Command::Blank;
    };
    match name_of(word) {
        Some(name) => command_with(name, arguments_of(rest)),
        None => Command::Bad,
    }
}

/// The command that a word names, in letters of either case.
fn name_of(word: &[u8]) -> Option<Name>
    ensures { (ws : List (List ℕ)) → named (uppercased word.now) ws ≡ command_by result ws }
{
    if is_named(word, b"HELLO") {
        Some(Name::Hello)
    } else if is_named(word, b"CAT") {
        Some(Name::Cat)
    } else if is_named(word, b"BYE") {
        Some(Name::Bye)
    } else if is_named(word, b"END") {
        Some(Name::End)
    } else if is_named(word, b"STATION") {
        Some(Name::Station)
    } else if is_named(word, b"SELECT") {
        Some(Name::Select)
    } else if is_named(word, b"DATA") {
        Some(Name::Data)
    } else if is_named(word, b"FETCH") {
        Some(Name::Fetch)
    } else if is_named(word, b"TIME") {
        Some(Name::Time)
    } else {
        None
    }
}

/// The command of that name with those words behind it.
fn command_with(name: Name, arguments: Arguments<'_>) -> Command<'_>
    ensures { (ws : List (List ℕ)) → AreWords arguments.entry ws → command_value result ≡ command_by (Some name) ws }
{
    match (name, arguments) {
        (Name::Hello, Arguments::Nothing) => Command::Hello,
        (Name::Cat, Arguments::Nothing) => Command::Cat,
        (Name::Bye, Arguments::Nothing) => Command::Bye,
        (Name::End, Arguments::Nothing) => Command::End,
        (Name::Station, Arguments::One(station)) => Command::Station {
            station,
            network: None,
        },
        (Name::Station, Arguments::Two(station, network)) => Command::Station {
            station,
            network: Some(network),
        },
        (Name::Select, Arguments::Nothing) => Command::Select { pattern: None },
        (Name::Select, Arguments::One(pattern)) => Command::Select {
            pattern: Some(pattern),
        },
        (Name::Data, arguments) => data_command(arguments),
        (Name::Fetch, arguments) => fetch_command(arguments),
        (Name::Time, arguments) => time_command(arguments),
        _ => Command::Bad,
    }
}

fn data_command(arguments: Arguments<'_>) -> Command<'_>
    ensures { (ws : List (List ℕ)) → AreWords arguments.entry ws → command_value result ≡ numbered Data ws }
{
    match resumption_of(arguments) {
        Some(Resumption { number, begin }) => Command::Act(Action::Data { number, begin }),
        None => Command::Bad,
    }
}

fn fetch_command(arguments: Arguments<'_>) -> Command<'_>
    ensures { (ws : List (List ℕ)) → AreWords arguments.entry ws → command_value result ≡ numbered Fetch ws }
{
    match resumption_of(arguments) {
        Some(Resumption { number, begin }) => Command::Act(Action::Fetch { number, begin }),
        None => Command::Bad,
    }
}

fn time_command(arguments: Arguments<'_>) -> Command<'_>
    ensures { (ws : List (List ℕ)) → AreWords arguments.entry ws → command_value result ≡ timed ws }
{
    match interval_of(arguments) {
        Some(Interval { begin, last }) => Command::Act(Action::Time { begin, last }),
        None => Command::Bad,
    }
}

/// What the words of DATA and FETCH say; None where they are not `[number [begin]]`.
fn resumption_of(arguments: Arguments<'_>) -> Option<Resumption>
    ensures { (make : Option ℕ → Option ℤ → ProtocolCommand) (ws : List (List ℕ)) → AreWords arguments.entry ws
        → resuming make result ≡ numbered make ws }
{
    match arguments {
        Arguments::Nothing => Some(Resumption {
            number: None,
            begin: None,
        }),
        Arguments::One(number) => Some(Resumption {
            number: Some(Seq::parse(number)?),
            begin: None,
        }),
        Arguments::Two(number, begin) => Some(Resumption {
            number: Some(Seq::parse(number)?),
            begin: Some(time(begin)?),
        }),
        Arguments::More => None,
    }
}

/// What the words of TIME say; None where they are not `[begin [last]]`.
fn interval_of(arguments: Arguments<'_>) -> Option<Interval>
    ensures { (ws : List (List ℕ)) → AreWords arguments.entry ws → between result ≡ timed ws }
{
    match arguments {
        Arguments::Nothing => Some(Interval {
            begin: None,
            last: None,
        }),
        Arguments::One(begin) => Some(Interval {
            begin: Some(time(begin)?),
            last: None,
        }),
        Arguments::Two(begin, last) => Some(Interval {
            begin: Some(time(begin)?),
            last: Some(time(last)?),
        }),
        Arguments::More => None,
    }
}

/// The moment that a word spells; None where it spells none.
fn time(word: &[u8]) -> Option<Tick>
    ensures { result ≡ time_of word.now }
{
    sl_time::parse(word).ok()
}

/// The words that follow a command's name, as far as any command takes them.
#[derive(Clone, Copy)]
enum Arguments<'a> {
    Nothing,
    One(&'a [u8]),
    Two(&'a [u8], &'a [u8]),
    /// Three words or more.
    More,
}

/// The text without the spaces that it begins with.
fn without_spaces(text: &[u8]) -> &[u8]
    ensures same { words text.now ≡ words result.now }
    ensures word { 0 < length result.now → slice_index result.now 0 ≢ 32 }
{
    for (start, byte) in text.iter().enumerate() {
        if *byte != b' ' {
            return &text[start..];
        }
    }
    &[]
}

/// A text that begins with a word: that word, and what follows it.
#[tactic(auto, using(crate::proofs::WordLemmas::word_lemmas))]
fn first_and_rest(text: &[u8]) -> (&[u8], &[u8])
    requires word { 0 < length text.now }
    requires begun { slice_index text.now 0 ≢ 32 }
    ensures { words text.now ≡ result.0.now ∷ words result.1.now }
{
    for (end, byte) in text.iter().enumerate() {
        if *byte == b' ' {
            return text.split_at(end);
        }
    }
    (text, &[])
}

/// The first word of a text and what follows it, or none where the text has no word.
fn first_word(text: &[u8]) -> Option<(&[u8], &[u8])>
    ensures { MatchOption result (words text.now ≡ [])
        (λ found. words text.now ≡ found.0.now ∷ words found.1.now) }
{
    let begun = without_spaces(text);
    if begun.is_empty() {
        return None;
    }
    Some(first_and_rest(begun))
}

/// The words of what follows a command's name.
fn arguments_of(text: &[u8]) -> Arguments<'_>
    ensures { AreWords result (words text.now) }
{
    let Some((first, text)) = first_word(text) else {
        return Arguments::Nothing;
    };
    let Some((second, text)) = first_word(text) else {
        return Arguments::One(first);
    };
    match first_word(text) {
        None => Arguments::Two(first, second),
        Some(_) => Arguments::More,
    }
}

/// Whether a word is the name, in letters of either case. The name is in upper case.
#[tactic(auto, using(crate::proofs::NameLemmas::name_lemmas))]
fn is_named(word: &[u8], name: &[u8]) -> bool
    requires { IsTrue (list_all is_ascii_uppercase name.now) }
    ensures { result ≡ bytes_eq (uppercased word.now) name.now }
{
    word.eq_ignore_ascii_case(name)
}
