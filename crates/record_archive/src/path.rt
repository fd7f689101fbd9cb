//! The place of a record in an archive.
ghost use Rattle.std.specs.Prelude.{◌≡◌, ◌≤◌, ◌++◌, ◌∷◌, [], IfOk, OnOk};
ghost use Rattle.std.specs.List.{list_all};
ghost use Rattle.protocol.specs.Record.{trimmed};
ghost use Rattle.record_archive.specs.Apart.{station_folders};
ghost use Rattle.record_archive.specs.Paths.{channel_text, codes_text, file_text, folder_text, four_digits, has_place};
ghost use Rattle.record_archive.specs.Paths.{is_name, is_name_byte, is_reserved, last_digit, three_digits, with_mark};

use continued_files::FileNames;
use mseed_header::{Header, trimmed};
use record_check::kind_letter;
use sl_time::DayOfYear;
use std::alloc::{AllocError, Global};

/// Whether a byte may stand in the name of a folder or file: one that prints, but `/`.
fn is_name_byte(byte: u8) -> bool
    ensures { result ≡ is_name_byte byte }
{
    32 < byte && byte < 127 && byte != b'/'
}

/// Whether a text is nothing, `.` or `..`, which name no folder of their own.
fn is_reserved(text: &[u8]) -> bool
    ensures { result ≡ is_reserved text.now }
{
    match text {
        [] => true,
        [a] => *a == b'.',
        [a, b] => *a == b'.' && *b == b'.',
        _ => false,
    }
}

/// Whether all bytes may stand in a name.
fn are_name_bytes(text: &[u8]) -> bool
    ensures { result ≡ list_all is_name_byte text.now }
{
    text.iter().all(|byte| is_name_byte(*byte))
}

/// Whether a code can be the name of a folder.
fn is_name(code: &[u8]) -> bool
    ensures { result ≡ is_name code.now }
{
    !is_reserved(code) && are_name_bytes(code)
}

/// Whether the codes of a record name a place in an archive.
pub(crate) fn has_place(header: &Header<'_>) -> bool
    ensures { result ≡ has_place header.now }
{
    is_name(header.network())
        && is_name(header.station())
        && are_name_bytes(trimmed(header.location()))
        && is_name(trimmed(header.channel()))
}

/// The last decimal digit of a number.
fn last_digit(number: u16) -> u8
    ensures { result ≡ last_digit number }
{
    b'0' + (number % 10) as u8
}

/// A byte.
fn put_byte(text: &mut Vec<u8>, byte: u8) -> Result<(), AllocError>
    ensures { OnOk result (text.new.items ≡ text.old.items ++ byte ∷ []) }
{
    text.push(byte)?;
    Ok(())
}

/// A text and a separator.
fn put_with(text: &mut Vec<u8>, more: &[u8], mark: u8) -> Result<(), AllocError>
    ensures { OnOk result (text.new.items ≡ text.old.items ++ with_mark more.now mark) }
{
    text.extend_from_slice(more)?;
    put_byte(text, mark)
}

/// The channel and the type.
fn put_channel(text: &mut Vec<u8>, header: &Header<'_>) -> Result<(), AllocError>
    ensures { OnOk result (text.new.items ≡ text.old.items ++ channel_text header.now) }
{
    put_with(text, trimmed(header.channel()), b'.')?;
    put_byte(text, kind_letter(header.kind()))
}

/// A year in four digits and a separator.
fn put_year(text: &mut Vec<u8>, year: u16, mark: u8) -> Result<(), AllocError>
    ensures { OnOk result (text.new.items ≡ text.old.items ++ with_mark (four_digits year) mark) }
{
    let digits = [
        last_digit(year / 1000),
        last_digit(year / 100),
        last_digit(year / 10),
        last_digit(year),
    ];
    put_with(text, &digits, mark)
}

/// A day of the year, in three digits.
fn put_day(text: &mut Vec<u8>, day: u16) -> Result<(), AllocError>
    ensures { OnOk result (text.new.items ≡ text.old.items ++ three_digits day) }
{
    let digits = [last_digit(day / 100), last_digit(day / 10), last_digit(day)];
    text.extend_from_slice(&digits)
}

/// The folder of a record's stream and year.
pub(crate) fn put_folder(
    text: &mut Vec<u8>,
    header: &Header<'_>,
    day: DayOfYear,
) -> Result<(), AllocError>
    ensures { OnOk result (text.new.items ≡ text.old.items ++ folder_text day.year header.now) }
{
    put_year(text, day.year, b'/')?;
    put_with(text, header.network(), b'/')?;
    put_with(text, header.station(), b'/')?;
    put_channel(text, header)
}

/// A record's codes and type, as the name of its file has them, each with a separator.
fn put_codes(text: &mut Vec<u8>, header: &Header<'_>) -> Result<(), AllocError>
    ensures { OnOk result (text.new.items ≡ text.old.items ++ codes_text header.now) }
{
    put_with(text, header.network(), b'.')?;
    put_with(text, header.station(), b'.')?;
    put_with(text, trimmed(header.location()), b'.')?;
    put_channel(text, header)?;
    put_byte(text, b'.')
}

/// The name of the file of a record's stream and day.
pub(crate) fn put_file(
    text: &mut Vec<u8>,
    header: &Header<'_>,
    day: DayOfYear,
) -> Result<(), AllocError>
    ensures { OnOk result (text.new.items ≡ text.old.items ++ file_text day.year day.day header.now) }
{
    put_codes(text, header)?;
    put_year(text, day.year, b'.')?;
    put_day(text, day.day)
}

/// The folders of a station, as they stand in a path after its year.
pub(crate) fn station_folders(
    alloc: Global,
    network: &[u8],
    station: &[u8],
) -> Result<Vec<u8>, AllocError>
    ensures { IfOk result (λ text. text.items ≡ station_folders network.now station.now) }
{
    let mut text = Vec::new(alloc);
    text.push(b'/')?;
    put_with(&mut text, network, b'/')?;
    put_with(&mut text, station, b'/')?;
    Ok(text)
}

/// The files in folders of a station, of whatever year.
pub(crate) fn below(folders: &[u8]) -> FileNames<'_>
    ensures { (result.after ≡ 4) × (result.text.now ≡ folders.now) }
{
    FileNames {
        after: 4,
        text: folders,
    }
}
