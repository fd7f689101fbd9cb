//! The line of a station.
ghost use Rattle.std.specs.Prelude.{◌≡◌, ◌++◌, ◌∷◌, [], OnOk};
ghost use Rattle.std.specs.Fmt.{decimal};
ghost use Rattle.reader_state.specs.States.{end_text, line_of, words_of};

use itoa::Buffer;
use sl_time::Tick;
use slreader::LastPacket;
use std::alloc::AllocError;

/// Adds a text and a space.
pub(crate) fn put_word(text: &mut Vec<u8>, word: &[u8]) -> Result<(), AllocError>
    ensures { OnOk result (text.new.items ≡ text.old.items ++ (word.now ++ 32 ∷ [])) }
{
    text.extend_from_slice(word)?;
    text.push(b' ')?;
    Ok(())
}

/// Adds a number in decimal digits.
pub(crate) fn put_count(text: &mut Vec<u8>, count: u64) -> Result<(), AllocError>
    ensures { OnOk result (text.new.items ≡ text.old.items ++ decimal count) }
{
    let mut buffer = Buffer::new();
    text.extend_from_slice(buffer.format(count).as_bytes())
}

/// Adds the end of a record, or `-` if it is not known.
fn put_end(text: &mut Vec<u8>, end: Option<Tick>) -> Result<(), AllocError>
    ensures { OnOk result (text.new.items ≡ text.old.items ++ end_text end) }
{
    match end {
        Some(end) => {
            let mut buffer = Buffer::new();
            text.extend_from_slice(buffer.format(end.value()).as_bytes())
        }
        None => text.extend_from_slice(b"-"),
    }
}

/// Adds the line of a station, without its end.
pub(crate) fn put_words(text: &mut Vec<u8>, last: &LastPacket) -> Result<(), AllocError>
    ensures { OnOk result (text.new.items ≡ text.old.items ++ words_of last.now) }
{
    put_word(text, last.network())?;
    put_word(text, last.station())?;
    put_word(text, &last.reached().number.digits())?;
    put_end(text, last.reached().end)
}

/// Adds the line of a station.
pub(crate) fn put_line(text: &mut Vec<u8>, last: &LastPacket) -> Result<(), AllocError>
    ensures { OnOk result (text.new.items ≡ text.old.items ++ line_of last.now) }
{
    put_words(text, last)?;
    text.push(b'\n')?;
    Ok(())
}
