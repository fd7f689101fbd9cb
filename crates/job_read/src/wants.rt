//! What wants ask for, each and together: those of the command line, and those of a file.
ghost use Rattle.std.specs.Prelude.{◌≡◌, is_some};
ghost use Rattle.job_read.specs.Together.{is_kept};
ghost use Rattle.protocol.specs.declared.reason.Reason.TheVariants.{Limit};
ghost use Rattle.slreader.specs.Faults.{reader_reason};

use crate::part_texts::{allowed_in, name_of};
use crate::together::{Misfit, misfit_of};
use crate::want_lines::want_lines;
use command_line::ReadOptions;
use incidents::{Detail, Failure, Incident, Place};
use job_base::{Endpoint, text_at};
use slreader::{ReaderFault, Want, WantPart, Window};
use std::alloc::{AllocError, Global};

/// Where the text of a want stands.
#[derive(Clone, Copy, Drop)]
enum WantPlace<'a> {
    /// A word of the command line.
    Word(&'a str),
    /// A line of a file, from 1 on.
    Line { path: &'a str, number: u64 },
}

impl<'a> WantPlace<'a> {
    /// It, as a failure's place.
    fn place(self) -> Place<'a> {
        match self {
            WantPlace::Word(word) => Place::Word(word),
            WantPlace::Line { path, number } => Place::Line { path, number },
        }
    }
}

/// The text of a want, and where it stands.
#[derive(Clone, Copy)]
struct WantText<'a, 'w> {
    place: WantPlace<'a>,
    text: &'w [u8],
}

/// The text of the file of wants, or of the standard input if its name is `-`; empty if there is none.
pub fn wants_text<'a>(rt: &HostRuntime, path: Option<&'a str>) -> Result<Vec<u8>, Incident<'a>> {
    match path {
        Some("-") => text_at(rt, "/dev/stdin"),
        Some(path) => text_at(rt, path),
        None => Ok(Vec::new(rt.alloc())),
    }
}

/// The texts of the words, and then of the lines of a file.
fn texts_of<'a: 'w, 'w>(
    alloc: Global,
    words: &[&'a str],
    path: &'a str,
    listed: &'w [u8],
) -> Result<Vec<WantText<'a, 'w>>, AllocError> {
    let mut texts = Vec::new(alloc);
    for word in words {
        texts.push(WantText {
            place: WantPlace::Word(*word),
            text: word.as_bytes(),
        })?;
    }
    put_lines(alloc, &mut texts, path, listed)?;
    Ok(texts)
}

/// Adds the texts of the lines of a file.
fn put_lines<'a, 'w>(
    alloc: Global,
    texts: &mut Vec<WantText<'a, 'w>>,
    path: &'a str,
    listed: &'w [u8],
) -> Result<(), AllocError> {
    for line in &want_lines(alloc, listed)? {
        texts.push(WantText {
            place: WantPlace::Line {
                path,
                number: line.number,
            },
            text: line.text,
        })?;
    }
    Ok(())
}

/// What the words of wants ask for, and the lines of a file of wants. Beside options with which nobody may look they
/// have to be fit to be asked for together.
pub fn wants_of<'a: 'w, 'w>(
    alloc: Global,
    words: &[&'a str],
    listed: &'w [u8],
    window: Window<'w>,
    options: ReadOptions<'a>,
) -> Result<Vec<Want<'w>>, Incident<'a>> {
    let path = options.wants_file.unwrap_or("");
    let Ok(texts) = texts_of(alloc, words, path, listed) else {
        return Err(Incident::out_of_memory());
    };
    let wants = each_of(alloc, &texts, window)?;
    match misfit_of(&wants, is_kept(options), options.retry.is_some()) {
        Some(misfit) => Err(refused(&texts, misfit)),
        None => Ok(wants),
    }
}

/// Whether nobody may look at what becomes of the wants: records or a state are kept, or they come from a file.
fn is_kept(options: ReadOptions<'_>) -> bool
    ensures { result ≡ is_kept (is_some options.entry.archive) (is_some options.entry.state)
        (is_some options.entry.wants_file) }
{
    options.archive.is_some() || options.state.is_some() || options.wants_file.is_some()
}

/// What each text asks for.
fn each_of<'a, 'w>(
    alloc: Global,
    texts: &[WantText<'a, 'w>],
    window: Window<'w>,
) -> Result<Vec<Want<'w>>, Incident<'a>> {
    let mut wants = Vec::new(alloc);
    for text in texts {
        let want = want_of(alloc, text, window)?;
        if wants.push(want).is_err() {
            return Err(Incident::out_of_memory());
        }
    }
    Ok(wants)
}

/// What a text asks for.
fn want_of<'a, 'w>(
    alloc: Global,
    text: &WantText<'a, 'w>,
    window: Window<'w>,
) -> Result<Want<'w>, Incident<'a>> {
    match Want::parse(alloc, text.text, window) {
        Ok(want) => Ok(want),
        Err(fault) => Err(unwanted(text, window, fault)),
    }
}

/// What is said of a text that is no want: if it is an address, that servers are one word.
fn cause_of(text: &[u8], fault: ReaderFault) -> Option<&'static str> {
    if Endpoint::parse(text).is_some() {
        return Some("a WANT is an address: several servers are one word, with commas between them");
    }
    fault.cause()
}

/// A text that is no want in a window, and which part of it is wrong.
fn unwanted<'a>(text: &WantText<'a, '_>, window: Window<'_>, fault: ReaderFault) -> Incident<'a>
    ensures { result.failure.reason ≡ reader_reason fault }
{
    let failure = Failure::by(fault.reason(), cause_of(text.text, fault));
    if failure.reason.is_memory() {
        return failure.at(Place::Nowhere);
    }
    let place = text.place.place();
    match Want::wrong_part(text.text, window) {
        Some(part) => failure
            .allowing(allowed_in(part))
            .at(place)
            .with(Detail::Part(name_of(part))),
        None => failure.at(place),
    }
}

/// Why wants are not asked for together: at the want that clashes with an earlier one, if that is why.
fn refused<'a>(texts: &[WantText<'a, '_>], misfit: Misfit) -> Incident<'a>
    ensures { result.failure.reason ≡ Limit }
{
    let failure = misfit.failure();
    match clashing(texts, misfit) {
        Some(text) => failure
            .at(text.place.place())
            .with(Detail::Part(name_of(WantPart::Station))),
        None => failure.at(Place::Nowhere),
    }
}

/// The want that clashes with an earlier one, if that is why some are not asked for together.
fn clashing<'t, 'a, 'w>(
    texts: &'t [WantText<'a, 'w>],
    misfit: Misfit,
) -> Option<&'t WantText<'a, 'w>> {
    match misfit {
        Misfit::Clash(place) => texts.get(place),
        _ => None,
    }
}
