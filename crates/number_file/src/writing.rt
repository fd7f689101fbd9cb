//! The text of a file of numbers.
ghost use Rattle.std.specs.Prelude.{◌≡◌, ◌++◌, OnOk};
ghost use Rattle.number_file.specs.Text.{line_of, text_of, text_of_number};

use catalog::KeptNumber;
use std::alloc::AllocError;

/// Adds a line with a text at a key.
fn push_line(text: &mut Vec<u8>, key: &[u8], value: &[u8]) -> Result<(), AllocError>
    ensures { OnOk result (text.new.items ≡ text.old.items ++ line_of key.now value.now) }
{
    text.extend_from_slice(key)?;
    text.extend_from_slice(b" = \"")?;
    text.extend_from_slice(value)?;
    text.extend_from_slice(b"\"\n")?;
    Ok(())
}

/// Adds the table of one number.
fn push_number(text: &mut Vec<u8>, number: &KeptNumber) -> Result<(), AllocError>
    ensures { OnOk result (text.new.items ≡ text.old.items ++ text_of_number number.now) }
{
    text.extend_from_slice(b"[[station]]\n")?;
    push_line(text, b"network", number.network())?;
    push_line(text, b"code", number.code())?;
    push_line(text, b"next", &number.next().digits())?;
    Ok(())
}

/// Adds the text of numbers: for each a table `[[station]]` with its codes, and with the number as six digits.
pub fn push_numbers(text: &mut Vec<u8>, numbers: &[KeptNumber]) -> Result<(), AllocError>
    ensures { OnOk result (text.new.items ≡ text.old.items ++ text_of numbers.now) }
{
    for number in numbers {
        push_number(text, number)?;
    }
    Ok(())
}
