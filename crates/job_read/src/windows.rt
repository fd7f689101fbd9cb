//! The moments between which records are wanted.
ghost use Rattle.std.specs.Prelude.{◌≡◌, ◌⊎◌, false, option_and_then, option_map, IfErr, IfOk};
ghost use Rattle.protocol.specs.Time.{time_of};
ghost use Rattle.sl_time.specs.Parsed.{time_reason};
ghost use Rattle.slreader.specs.WantTexts.{window_value};
ghost use Rattle.protocol.specs.declared.reason.Reason.TheVariants.{Limit};
ghost use Rattle.job_read.specs.Windows.{IsLast, IsLastOf, IsMoment, IsMomentOf, IsNoLast, IsNoMoment, RefusesLast};
ghost use Rattle.job_read.specs.Windows.{RefusesMoment, comma_count, is_backwards, last_text, window_by};

use command_line::ReadOptions;
use incidents::{Failure, Incident, Place};
use protocol::reason::Reason;
use sl_time::{Tick, TimeFault, command_time};
use slreader::Window;
use std::alloc::{AllocError, Global};

/// The text of a command's time for a word of the command line.
///
/// It fails with the time's fault if the word spells no time, and with OutOfMemory only for want of memory.
fn text_of(alloc: Global, word: &str) -> Result<Vec<u8>, Failure>
    ensures text { IfOk result (λ text. IsMoment word.now text.items) }
    ensures fault { IfErr result (IsNoMoment word.now) }
{
    let Ok(text) = command_time(alloc, word.as_bytes()) else {
        return Err(Failure::out_of_memory());
    };
    match sl_time::parse(&text) {
        Ok(_) => Ok(text),
        Err(fault) => Err(no_moment(fault)),
    }
}

/// How many commas a text has.
fn comma_count(text: &[u8]) -> usize
    ensures { result ≡ comma_count text.now }
{
    let mut count = 0;
    for byte in text {
        if *byte == b',' {
            count += 1;
        }
    }
    count
}

/// The text of an end, by that of a command's time: a day ends with its last second.
fn last_text(text: Vec<u8>) -> Result<Vec<u8>, AllocError>
    ensures { IfOk result (λ last. last.items ≡ last_text text.items) }
{
    let mut text = text;
    if comma_count(&text) == 2 {
        text.extend_from_slice(b",23,59,59")?;
    }
    Ok(text)
}

/// The text of a command's time for a word of the command line that names an end.
///
/// It fails as `text_of` does.
fn end_text_of(alloc: Global, word: &str) -> Result<Vec<u8>, Failure>
    ensures text { IfOk result (λ text. IsLast word.now text.items) }
    ensures fault { IfErr result (IsNoLast word.now) }
{
    let Ok(text) = command_time(alloc, word.as_bytes()) else {
        return Err(Failure::out_of_memory());
    };
    let Ok(text) = last_text(text) else {
        return Err(Failure::out_of_memory());
    };
    match sl_time::parse(&text) {
        Ok(_) => Ok(text),
        Err(wrong) => Err(no_moment(wrong)),
    }
}

/// What is said of a word that spells no time.
fn no_moment(fault: TimeFault) -> Failure
    ensures { result.reason ≡ time_reason fault }
{
    let cause = match fault {
        TimeFault::Shape => "a word is no time: the text has not the shape of a time",
        TimeFault::Range => {
            "a word is no time: a number of the time is out of range, or there is no such date"
        }
    };
    Failure::by(fault.reason(), Some(cause)).allowing(
        "a time in UTC, as 2024-02-29, 2024-02-29T00:00:00 (or .0000, four digits) or 2024,2,29,0,0,0",
    )
}

/// The same for an option that may be left out.
fn moment_of<'a>(alloc: Global, word: Option<&'a str>) -> Result<Option<Vec<u8>>, Incident<'a>>
    ensures moment { IfOk result (λ moment. IsMomentOf word.entry (option_map (λ text. text.items) moment)) }
    ensures refused { IfErr result (λ incident. RefusesMoment word.entry incident.failure) }
{
    let Some(word) = word else {
        return Ok(None);
    };
    match text_of(alloc, word) {
        Ok(text) => Ok(Some(text)),
        Err(failure) => Err(failure.in_word(word)),
    }
}

/// The same for an end.
fn end_of<'a>(alloc: Global, word: Option<&'a str>) -> Result<Option<Vec<u8>>, Incident<'a>>
    ensures moment { IfOk result (λ moment. IsLastOf word.entry (option_map (λ text. text.items) moment)) }
    ensures refused { IfErr result (λ incident. RefusesLast word.entry incident.failure) }
{
    let Some(word) = word else {
        return Ok(None);
    };
    match end_text_of(alloc, word) {
        Ok(text) => Ok(Some(text)),
        Err(failure) => Err(failure.in_word(word)),
    }
}

/// The moment that a text spells, if there is one.
fn tick_of(text: &Option<Vec<u8>>) -> Option<Tick>
    ensures { result ≡ option_and_then time_of (option_map (λ t. t.items) text.now) }
{
    match text {
        Some(text) => sl_time::parse(text).ok(),
        None => None,
    }
}

/// Whether the window of a begin and an end ends before it begins.
fn is_backwards(begin: &Option<Vec<u8>>, last: &Option<Vec<u8>>) -> bool
    ensures { result ≡ is_backwards (option_map (λ t. t.items) begin.now) (option_map (λ t. t.items) last.now) }
{
    match (tick_of(begin), tick_of(last)) {
        (Some(begin), Some(last)) => last.value() < begin.value(),
        _ => false,
    }
}

/// Why a window is refused that ends before it begins.
fn backwards<'a>(last: Option<&'a str>) -> Incident<'a>
    ensures { result.failure.reason ≡ Limit }
{
    let failure = Failure::by(Reason::Limit, Some("the window ends before it begins")).allowing(
        "the time of --begin, or a later one",
    );
    match last {
        Some(word) => failure.in_word(word),
        None => failure.at(Place::Nowhere),
    }
}

/// The texts of a begin and an end, as commands spell them, and whether what is held is asked for.
#[derive(Drop)]
pub struct Moments {
    begin: Option<Vec<u8>>,
    last: Option<Vec<u8>>,
    is_fetch: bool,
}

impl Moments {
    /// Those of the options.
    ///
    /// It fails with 60 or 61 if a word spells no time, with 22 if the end lies before the begin, and with
    /// OutOfMemory only if there is no memory.
    pub fn read<'a>(alloc: Global, options: ReadOptions<'a>) -> Result<Moments, Incident<'a>>
        ensures begin { IfOk result (λ moments.
            IsMomentOf options.entry.begin (option_map (λ text. text.items) moments.begin)) }
        ensures last { IfOk result (λ moments.
            IsLastOf options.entry.last (option_map (λ text. text.items) moments.last)) }
        ensures fetch { IfOk result (λ moments. moments.is_fetch ≡ options.entry.fetch) }
        ensures forwards { IfOk result (λ moments. is_backwards (option_map (λ text. text.items) moments.begin)
            (option_map (λ text. text.items) moments.last) ≡ false) }
        ensures refused { IfErr result (λ incident. RefusesMoment options.entry.begin incident.failure
            ⊎ RefusesLast options.entry.last incident.failure ⊎ (incident.failure.reason ≡ Limit)) }
    {
        let begin = moment_of(alloc, options.begin)?;
        let last = end_of(alloc, options.last)?;
        if is_backwards(&begin, &last) {
            return Err(backwards(options.last));
        }
        Ok(Moments {
            begin,
            last,
            is_fetch: options.fetch,
        })
    }

    /// The window that they make.
    pub fn window(&self) -> Window<'_>
        ensures { window_value result ≡ window_by (option_map (λ b. b.items) self.now.begin)
            (option_map (λ b. b.items) self.now.last) self.now.is_fetch }
    {
        let begin = match &self.begin {
            Some(text) => Some(text.as_slice()),
            None => None,
        };
        match (begin, &self.last) {
            (Some(begin), Some(last)) => Window::Between {
                begin,
                last: last.as_slice(),
            },
            _ if self.is_fetch => Window::Held { begin },
            _ => Window::Following { begin },
        }
    }
}
