//! How a value stands in a text: whatever it holds, it is a value there and no part of the language.
ghost use Rattle.std.specs.Prelude.{◌≡◌, ◌∷◌, ◌++◌, [], OnOk};
ghost use Rattle.std.specs.Prelude.{◌<◌};
ghost use Rattle.status_page.specs.Escapes.{escaped, escaped_byte, hex_digit, html_byte};
ghost use Rattle.status_page.specs.Escapes.{json_byte, label_byte, numbered};
ghost use Rattle.status_page.specs.Escapes.{shown_byte};

use std::alloc::AllocError;

/// The language of a text.
#[derive(Clone, Copy, Drop)]
pub enum Language {
    /// HTML: `&`, `<`, `>` and both quotes of a value are references.
    Html,
    /// The text format of Prometheus: backslashes, double quotes and line ends of a value are escaped.
    Metrics,
    /// Plain text: bytes of a value that control a terminal are shown as `?`.
    Plain,
    /// JSON (RFC 8259): in a string, double quotes, backslashes and all that is not printable ASCII are escaped.
    Json,
}

/// A byte as it is.
fn put_single(text: &mut Vec<u8>, byte: u8) -> Result<(), AllocError>
    ensures { OnOk result (text.new.items ≡ text.old.items ++ (byte ∷ [])) }
{
    text.push(byte)?;
    Ok(())
}

/// A byte in HTML.
fn put_html(text: &mut Vec<u8>, byte: u8) -> Result<(), AllocError>
    ensures { OnOk result (text.new.items ≡ text.old.items ++ html_byte byte) }
{
    match byte {
        b'&' => text.extend_from_slice(b"&amp;"),
        b'<' => text.extend_from_slice(b"&lt;"),
        b'>' => text.extend_from_slice(b"&gt;"),
        b'"' => text.extend_from_slice(b"&quot;"),
        b'\'' => text.extend_from_slice(b"&#39;"),
        _ => put_single(text, byte),
    }
}

/// A byte in a label of Prometheus.
fn put_label(text: &mut Vec<u8>, byte: u8) -> Result<(), AllocError>
    ensures { OnOk result (text.new.items ≡ text.old.items ++ label_byte byte) }
{
    match byte {
        b'\\' => text.extend_from_slice(b"\\\\"),
        b'"' => text.extend_from_slice(b"\\\""),
        b'\n' => text.extend_from_slice(b"\\n"),
        _ => put_single(text, byte),
    }
}

/// A byte in plain text.
fn put_shown(text: &mut Vec<u8>, byte: u8) -> Result<(), AllocError>
    ensures { OnOk result (text.new.items ≡ text.old.items ++ shown_byte byte) }
{
    if byte < 32 || byte == 127 {
        put_single(text, b'?')
    } else {
        put_single(text, byte)
    }
}

/// The hexadecimal digit of a number, as a byte.
fn hex_digit(number: u8) -> u8
    requires { number < 16 }
    ensures { result ≡ hex_digit number }
{
    if number < 10 {
        b'0' + number
    } else {
        b'a' - 10 + number
    }
}

/// A byte by its number, as `\u001b`.
fn put_numbered(text: &mut Vec<u8>, byte: u8) -> Result<(), AllocError>
    ensures { OnOk result (text.new.items ≡ text.old.items ++ numbered byte) }
{
    text.extend_from_slice(b"\\u00")?;
    put_single(text, hex_digit(byte / 16))?;
    put_single(text, hex_digit(byte % 16))
}

/// A byte in a string of JSON.
fn put_json(text: &mut Vec<u8>, byte: u8) -> Result<(), AllocError>
    ensures { OnOk result (text.new.items ≡ text.old.items ++ json_byte byte) }
{
    if byte == b'"' {
        text.extend_from_slice(b"\\\"")
    } else if byte == b'\\' {
        text.extend_from_slice(b"\\\\")
    } else if byte < 32 || byte > 126 {
        put_numbered(text, byte)
    } else {
        put_single(text, byte)
    }
}

/// A byte of a value.
fn put_byte(text: &mut Vec<u8>, language: Language, byte: u8) -> Result<(), AllocError>
    ensures { OnOk result (text.new.items ≡ text.old.items ++ escaped_byte language byte) }
{
    match language {
        Language::Html => put_html(text, byte),
        Language::Metrics => put_label(text, byte),
        Language::Plain => put_shown(text, byte),
        Language::Json => put_json(text, byte),
    }
}

/// A value. Only memory can lack.
pub fn put_escaped(text: &mut Vec<u8>, language: Language, bytes: &[u8]) -> Result<(), AllocError>
    ensures { OnOk result (text.new.items ≡ text.old.items ++ escaped language bytes.now) }
{
    for byte in bytes {
        put_byte(text, language, *byte)?;
    }
    Ok(())
}
