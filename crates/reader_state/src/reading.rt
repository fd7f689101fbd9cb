//! What the text of a state says.
ghost use Rattle.std.specs.Prelude.{◌≡◌, ◌<◌, ◌++◌, ◌∷◌, ℕ, ℤ, List, length, IfOk, IfSome, MatchOption, MatchResult};
ghost use Rattle.std.specs.Prelude.{Some};
ghost use Rattle.std.specs.declared.option.Option.{Option};
ghost use Rattle.std.specs.Prelude.{[], None};
ghost use Rattle.std.specs.Fmt.{signed_decimal};
ghost use Rattle.protocol.specs.Packet.{digits};
ghost use Rattle.slreader.specs.Tallies.{ReachedValue};
ghost use Rattle.slreader.specs.Lasts.{LastValue};
ghost use Rattle.std.specs.Prelude.{true};
ghost use Rattle.reader_state.specs.States.{AreLast, IsEnd, IsLast, IsState, Lacks, StateValue, are_apart, end_text};
ghost use Rattle.reader_state.specs.States.{are_of_others, files_text};
ghost use Rattle.reader_state.specs.States.{state_text, text_of, words_of};
ghost use Rattle.reader_state.specs.declared.reading.StateFault.TheVariants.{OutOfMemory};

use crate::files::files_in;
use crate::state::KeptState;
use crate::writing::put_state;
use sl_packet::Seq;
use sl_time::Tick;
use slreader::{LastPacket, Reached, last_at};
use std::alloc::{AllocError, Global};
use text_parts::separators::cut_at;

/// Why a text is no state.
#[derive(Clone, Copy, Debug, Drop)]
pub enum StateFault {
    /// Memory lacks.
    OutOfMemory,
    /// A line is none of a state, or the last one has no end.
    Invalid,
}

/// A text cut at its first separator.
#[derive(Clone, Copy)]
pub(crate) struct Halves<'a> {
    pub front: &'a [u8],
    pub rest: &'a [u8],
}

/// What stands before the first separator of a text, and what stands behind it. None where it has none.
pub(crate) fn cut(text: &[u8], separator: u8) -> Option<Halves<'_>>
    ensures smaller { IfSome result (λ c. length c.rest.now < length text.now) }
    ensures back { (xs ys : List ℕ) → Lacks separator xs → text.now ≡ xs ++ separator ∷ ys
        → MatchOption result ⊥ (λ c. (c.front.now ≡ xs) × (c.rest.now ≡ ys)) }
    ensures none { Lacks separator text.now → result ≡ None }
{
    match cut_at(text, separator) {
        Some((front, rest)) => Some(Halves { front, rest }),
        None => None,
    }
}

/// The number that a text spells in decimal digits, perhaps behind a sign.
fn ticks_of(text: &[u8]) -> Option<i64>
    ensures back { (tick : ℤ) → IsEnd (Some tick) → text.now ≡ signed_decimal tick → result ≡ Some tick }
    ensures none { text.now ≡ 45 ∷ [] → result ≡ None }
{
    let text = match str::from_utf8(text) {
        Ok(text) => text,
        Err(_) => return None,
    };
    text.parse::<i64>().ok()
}

/// The end that a text spells; None where it spells none.
fn end_of(text: &[u8]) -> Option<Option<Tick>>
    ensures { (end : Option ℤ) → IsEnd end → text.now ≡ end_text end → result ≡ Some end }
{
    match ticks_of(text) {
        Some(ticks) => Some(Some(Tick::new(ticks))),
        None if text == b"-".as_slice() => Some(None),
        None => None,
    }
}

/// What the words for a number and an end say; None where they say nothing.
fn reached_of(number: &[u8], end: &[u8]) -> Option<Reached>
    ensures { (r : ReachedValue) → r.number < 0x1000000 → IsEnd r.end → number.now ≡ digits r.number
        → end.now ≡ end_text r.end → result ≡ Some r }
{
    let number = match Seq::parse(number) {
        Some(number) => number,
        None => return None,
    };
    let end = match end_of(end) {
        Some(end) => end,
        None => return None,
    };
    Some(Reached { number, end })
}

/// The words of a line.
#[derive(Clone, Copy)]
struct Words<'a> {
    network: &'a [u8],
    station: &'a [u8],
    number: &'a [u8],
    end: &'a [u8],
}

/// The words of a line; None where there are fewer.
fn words_in(line: &[u8]) -> Option<Words<'_>>
    ensures { (a b c d : List ℕ) → Lacks 32 a → Lacks 32 b → Lacks 32 c
        → line.now ≡ a ++ 32 ∷ (b ++ 32 ∷ (c ++ 32 ∷ d))
        → MatchOption result ⊥ (λ w. (w.network.now ≡ a) × (w.station.now ≡ b) × (w.number.now ≡ c)
        × (w.end.now ≡ d)) }
{
    let network = cut(line, b' ')?;
    let station = cut(network.rest, b' ')?;
    let number = cut(station.rest, b' ')?;
    Some(Words {
        network: network.front,
        station: station.front,
        number: number.front,
        end: number.rest,
    })
}

/// The last packet that a line tells of. It fails where the line has fewer words, or others.
pub(crate) fn last_of(alloc: Global, line: &[u8]) -> Result<LastPacket, StateFault>
    ensures { (l : LastValue) → IsLast l → line.now ≡ words_of l
        → MatchResult result (λ last. last ≡ l) (λ fault. fault ≡ OutOfMemory) }
{
    let words = match words_in(line) {
        Some(words) => words,
        None => return Err(StateFault::Invalid),
    };
    let reached = match reached_of(words.number, words.end) {
        Some(reached) => reached,
        None => return Err(StateFault::Invalid),
    };
    let last = match LastPacket::new(alloc, words.network, words.station, reached) {
        Ok(last) => last,
        Err(_) => return Err(StateFault::OutOfMemory),
    };
    if last.is_named() {
        Ok(last)
    } else {
        Err(StateFault::Invalid)
    }
}

/// The last packets that lines tell of. What stands behind the last end of a line is passed over.
fn lasts_in(alloc: Global, bytes: &[u8]) -> Result<Vec<LastPacket>, StateFault>
    ensures { (ls : List LastValue) → AreLast ls → bytes.now ≡ text_of ls
        → MatchResult result (λ lasts. lasts.items ≡ ls) (λ fault. fault ≡ OutOfMemory) }
{
    let mut lasts = Vec::new(alloc);
    let mut left = bytes;
    'lines: while let Some(line) = cut(left, b'\n') {
        let last = last_of(alloc, line.front)?;
        match lasts.push(last) {
            Ok(()) => {}
            Err(_) => return Err(StateFault::OutOfMemory),
        }
        left = line.rest;
    }
    Ok(lasts)
}

/// Whether no two of them are of one station.
fn are_apart(lasts: &[LastPacket]) -> bool
    ensures { result ≡ are_apart lasts.now }
{
    for (place, last) in lasts.iter().enumerate() {
        if last_at(last.network(), last.station(), &lasts[place + 1..]).is_some() {
            return false;
        }
    }
    true
}

/// The last packets that lines tell of, no two of which are of one station.
fn stations_in(alloc: Global, bytes: &[u8]) -> Result<Vec<LastPacket>, StateFault>
    ensures apart { IfOk result (λ lasts. are_apart lasts.items ≡ true) }
    ensures back { (ls : List LastValue) → AreLast ls → are_apart ls ≡ true → bytes.now ≡ text_of ls
        → MatchResult result (λ lasts. lasts.items ≡ ls) (λ fault. fault ≡ OutOfMemory) }
{
    let lasts = lasts_in(alloc, bytes)?;
    if are_apart(&lasts) {
        Ok(lasts)
    } else {
        Err(StateFault::Invalid)
    }
}

/// The text that follows the end of a line.
fn after_end(text: &[u8]) -> &[u8]
    ensures { (rest : List ℕ) → text.now ≡ 10 ∷ rest → result.now ≡ rest }
{
    match text {
        [_, rest @ ..] => rest,
        [] => text,
    }
}

/// The lines of stations, and those of files.
fn parts_of(bytes: &[u8]) -> Halves<'_>
    ensures { (s : StateValue) → IsState s → bytes.now ≡ state_text s
        → (result.front.now ≡ text_of s.lasts) × (result.rest.now ≡ files_text s.files) }
{
    match cut(bytes, b'#') {
        Some(halves) => Halves {
            front: halves.front,
            rest: after_end(halves.rest),
        },
        None => Halves {
            front: bytes,
            rest: b"",
        },
    }
}

/// What a text says, in whatever form it may be.
fn state_in(alloc: Global, bytes: &[u8]) -> Result<KeptState, StateFault>
    ensures apart { IfOk result (λ state. are_apart state.lasts ≡ true) }
    ensures named { IfOk result (λ state. are_of_others state.files ≡ true) }
    ensures back { (s : StateValue) → IsState s → bytes.now ≡ state_text s
        → MatchResult result (λ state. state ≡ s) (λ fault. fault ≡ OutOfMemory) }
{
    let parts = parts_of(bytes);
    let lasts = stations_in(alloc, parts.front)?;
    let files = files_in(alloc, parts.rest)?;
    Ok(KeptState { lasts, files })
}

/// Reads the text of a state, exactly as it is written: for each station a line `NET STA NUMBER END`, with codes of
/// 1 to 2 and 1 to 5 bytes of `A` to `Z` and `0` to `9`, the number in six hexadecimal digits in upper case, and the
/// end in decimal ticks of 0.0001 s since 1970 or `-`. No two of them are of one station. If there are lengths of
/// files, a line `#` follows, and then for each of them a line `NAME COUNT`, with the count in decimal digits. No two of
/// them are of one file.
///
/// It fails with Invalid where the text is none that is written, and with OutOfMemory only where memory lacks. What was
/// written is read back.
pub fn read_state(alloc: Global, bytes: &[u8]) -> Result<KeptState, StateFault>
    ensures text { IfOk result (λ state. bytes.now ≡ state_text state) }
    ensures apart { IfOk result (λ state. are_apart state.lasts ≡ true) }
    ensures named { IfOk result (λ state. are_of_others state.files ≡ true) }
    ensures back { (s : StateValue) → IsState s → bytes.now ≡ state_text s
        → MatchResult result (λ state. state ≡ s) (λ fault. fault ≡ OutOfMemory) }
{
    let state = state_in(alloc, bytes)?;
    let mut text = Vec::new(alloc);
    match put_state(&mut text, state.lasts(), state.files()) {
        Ok(()) => {}
        Err(_) => return Err(StateFault::OutOfMemory),
    }
    if text.as_slice() == bytes {
        Ok(state)
    } else {
        Err(StateFault::Invalid)
    }
}

/// Whether no other last packet of its station has a lower number, and none behind it the same.
fn is_lowest(lasts: &[LastPacket], place: usize, last: &LastPacket) -> bool {
    let number = last.reached().number.value();
    for (at, other) in lasts.iter().enumerate() {
        let is_same = other.is_of(last.network(), last.station());
        let other = other.reached().number.value();
        if is_same && (other < number || other == number && at > place) {
            return false;
        }
    }
    true
}

/// Of several last packets of one station the one with the lowest number.
fn lowest_each(alloc: Global, lasts: &[LastPacket]) -> Result<Vec<LastPacket>, AllocError> {
    let mut lowest = Vec::new(alloc);
    for (place, last) in lasts.iter().enumerate() {
        if is_lowest(lasts, place, last) {
            let last = LastPacket::new(alloc, last.network(), last.station(), last.reached())?;
            lowest.push(last)?;
        }
    }
    Ok(lowest)
}

/// Reads the text of a state as earlier versions wrote it for several wants of one station, with a line for each. The
/// lowest number of a station counts: records that come again are passed over.
pub fn read_doubled(alloc: Global, bytes: &[u8]) -> Result<KeptState, StateFault>
    ensures apart { IfOk result (λ state. are_apart state.lasts ≡ true) }
    ensures named { IfOk result (λ state. are_of_others state.files ≡ true) }
{
    let parts = parts_of(bytes);
    let lasts = lasts_in(alloc, parts.front)?;
    let files = files_in(alloc, parts.rest)?;
    let mut text = Vec::new(alloc);
    let Ok(()) = put_state(&mut text, &lasts, &files) else {
        return Err(StateFault::OutOfMemory);
    };
    let Ok(lasts) = lowest_each(alloc, &lasts) else {
        return Err(StateFault::OutOfMemory);
    };
    if text.as_slice() == bytes && are_apart(&lasts) {
        Ok(KeptState { lasts, files })
    } else {
        Err(StateFault::Invalid)
    }
}
