//! The texts of the bytes of outputs.

ghost use Rattle.std.specs.Prelude.{◌≡◌, ◌++◌, ◌<◌, ◌+◌, ◌∷◌, [], OnOk, string_bytes};
ghost use Rattle.om_commands.specs.Quoted.{bytes_text, octal_text, quoted, quoted_byte};
ghost use Rattle.om_look.specs.Trace.{body_text};

use std::alloc::{AllocError, Global};

/// How the bytes of an output are written.
#[derive(Clone, Copy, Debug, PartialEq, Eq)]
pub enum BytesForm {
    /// In hexadecimal, two digits a byte, and `-` where there is none.
    Hex,
    /// As text between quotation marks, with the escapes of C: printable ASCII as it is, `\"`, `\\`, `\n`, `\t` and `\r`, and any
    /// other byte as a backslash and three octal digits.
    Text,
}

/// Writes bytes in a form.
pub fn push_bytes_in(
    alloc: Global,
    text: &mut String,
    form: BytesForm,
    bytes: &[u8],
) -> Result<(), AllocError>
    ensures { OnOk result (string_bytes text.new ≡ string_bytes text.old ++ bytes_text form bytes.now) }
{
    match form {
        BytesForm::Hex => push_bytes(alloc, text, bytes),
        BytesForm::Text => push_quoted(text, bytes),
    }
}

/// Writes bytes in hexadecimal, and a mark where there is none.
pub fn push_bytes(alloc: Global, text: &mut String, bytes: &[u8]) -> Result<(), AllocError>
    ensures { OnOk result (string_bytes text.new ≡ string_bytes text.old ++ body_text bytes.now) }
{
    if bytes.is_empty() {
        return text.push('-');
    }
    text.push_str(&hex::encode(alloc, bytes)?)
}

// Writes bytes as text between quotation marks.
fn push_quoted(text: &mut String, bytes: &[u8]) -> Result<(), AllocError>
    ensures { OnOk result (string_bytes text.new ≡ string_bytes text.old ++ quoted bytes.now) }
{
    text.push('"')?;
    for byte in bytes {
        push_quoted_byte(text, *byte)?;
    }
    text.push('"')
}

// Writes a byte as it stands between quotation marks.
fn push_quoted_byte(text: &mut String, byte: u8) -> Result<(), AllocError>
    ensures { OnOk result (string_bytes text.new ≡ string_bytes text.old ++ quoted_byte byte) }
{
    match byte {
        b'"' => text.push_str("\\\""),
        b'\\' => text.push_str("\\\\"),
        b'\n' => text.push_str("\\n"),
        b'\t' => text.push_str("\\t"),
        b'\r' => text.push_str("\\r"),
        b' '..=b'~' => text.push(byte as char),
        _ => push_octal(text, byte),
    }
}

// Writes a backslash and the three octal digits of a byte.
fn push_octal(text: &mut String, byte: u8) -> Result<(), AllocError>
    ensures { OnOk result (string_bytes text.new ≡ string_bytes text.old ++ octal_text byte) }
{
    text.push('\\')?;
    push_digit(text, byte / 64)?;
    push_digit(text, byte / 8 % 8)?;
    push_digit(text, byte % 8)
}

// Writes a digit.
fn push_digit(text: &mut String, digit: u8) -> Result<(), AllocError>
    requires { digit < 8 }
    ensures { OnOk result (string_bytes text.new ≡ string_bytes text.old ++ (48 + digit) ∷ []) }
{
    text.push((b'0' + digit) as char)
}
