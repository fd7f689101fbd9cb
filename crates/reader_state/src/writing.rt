//! The text that a reader keeps.
ghost use Rattle.std.specs.Prelude.{◌≡◌, ◌++◌, OnOk, true};
ghost use Rattle.reader_state.specs.States.{are_apart, files_part, lasts_after, one_each, others_of, state_text};
ghost use Rattle.reader_state.specs.States.{text_of};

use crate::files::put_files;
use crate::line::put_line;
use continued_files::FileLength;
use slreader::{LastPacket, Tally, Want, last_at};
use std::alloc::{AllocError, Global};

/// Adds lines.
pub(crate) fn put_lines(text: &mut Vec<u8>, lasts: &[LastPacket]) -> Result<(), AllocError>
    ensures { OnOk result (text.new.items ≡ text.old.items ++ text_of lasts.now) }
{
    for last in lasts {
        put_line(text, last)?;
    }
    Ok(())
}

/// Adds a line for each station. Of several packets of one station it is that of the last.
fn put_each(text: &mut Vec<u8>, lasts: &[LastPacket]) -> Result<(), AllocError>
    ensures { OnOk result (text.new.items ≡ text.old.items ++ text_of (one_each lasts.now)) }
{
    for (place, last) in lasts.iter().enumerate() {
        if last_at(last.network(), last.station(), &lasts[place + 1..]).is_none() {
            put_line(text, last)?;
        }
    }
    Ok(())
}

/// Adds the lines of those that are of other stations.
fn put_others(
    text: &mut Vec<u8>,
    lasts: &[LastPacket],
    before: &[LastPacket],
) -> Result<(), AllocError>
    ensures { OnOk result (text.new.items ≡ text.old.items ++ text_of (others_of lasts.now before.now)) }
{
    for last in before {
        if last_at(last.network(), last.station(), lasts).is_none() {
            put_line(text, last)?;
        }
    }
    Ok(())
}

/// The lines of stations take the place of another text.
fn put_stations(
    alloc: Global,
    text: &mut Vec<u8>,
    tally: &Tally,
    wants: &[Want<'_>],
    before: &[LastPacket],
) -> Result<(), AllocError>
    ensures { OnOk result (text.new.items ≡ text_of (lasts_after tally.now wants.now before.now)) }
{
    let lasts = tally.lasts(alloc, wants)?;
    text.clear();
    put_each(text, &lasts)?;
    put_others(text, &lasts, before)
}

/// Adds what follows the lines of stations.
fn put_files_part(text: &mut Vec<u8>, files: &[FileLength]) -> Result<(), AllocError>
    ensures { OnOk result (text.new.items ≡ text.old.items ++ files_part files.now) }
{
    if files.is_empty() {
        return Ok(());
    }
    text.extend_from_slice(b"#\n")?;
    put_files(text, files)
}

/// Adds the text of a state.
pub(crate) fn put_state(
    text: &mut Vec<u8>,
    lasts: &[LastPacket],
    files: &[FileLength],
) -> Result<(), AllocError>
    ensures { OnOk result
        (text.new.items ≡ text.old.items ++ state_text (record { lasts = lasts.now; files = files.now })) }
{
    put_lines(text, lasts)?;
    put_files_part(text, files)
}

/// The text of what is kept takes the place of another text: the last packet of each station of the wants, in the order
/// of the wants, then those of other stations that were kept before, and the lengths of files. There is one line for a
/// station, however many wants are of it, so that the text can be read again. Only memory can lack.
pub fn write_state(
    alloc: Global,
    text: &mut Vec<u8>,
    tally: &Tally,
    wants: &[Want<'_>],
    before: &[LastPacket],
    files: &[FileLength],
) -> Result<(), AllocError>
    ensures text { OnOk result (text.new.items
        ≡ state_text (record { lasts = lasts_after tally.now wants.now before.now; files = files.now })) }
    ensures apart { are_apart before.now ≡ true
        → are_apart (lasts_after tally.now wants.now before.now) ≡ true }
{
    put_stations(alloc, text, tally, wants, before)?;
    put_files_part(text, files)
}
