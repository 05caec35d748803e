ghost use Rattle.std.specs.Prelude.{◌≡◌, ◌<◌, ◌++◌, [], ◌∷◌, OnOk};
ghost use Rattle.std.specs.List.{list_any};
ghost use Rattle.std.specs.Option.{option_copied};
ghost use Rattle.std.specs.Str.{chars};
ghost use Rattle.tag_report.specs.Shown.{hides, if_utf8, is_readable, hex_digit, shown_byte, shown};

use std::alloc::AllocError;
use std::str;

/// Whether a character has no place in a line: a control character, a separator of lines, or one that turns the
/// direction of writing.
fn hides(character: char) -> bool
    ensures { result ≡ hides character }
{
    let code = u32::from(character);
    code >= 0x7F && code <= 0x9F
        || code >= 0x200E && code <= 0x200F
        || code >= 0x2028 && code <= 0x202E
        || code >= 0x2066 && code <= 0x2069
}

/// A text as UTF-8, if it is.
#[tactic(auto, using(crate::proofs::Utf8::is_one, crate::proofs::Utf8::is_none))]
fn as_utf8(bytes: &[u8]) -> Option<&str>
    ensures { option_copied result ≡ if_utf8 bytes.now }
{
    match str::from_utf8(bytes) {
        Ok(text) => Some(text),
        Err(_) => None,
    }
}

/// Whether a text has such a character.
fn hides_any(text: &str) -> bool
    ensures { result ≡ list_any hides (chars text.now) }
{
    text.chars().any(|character| hides(character))
}

/// Whether a text is UTF-8, and each of its characters beyond ASCII can be shown.
#[tactic(auto, unfolding(crate::specs::Shown::is_readable))]
fn is_readable(bytes: &[u8]) -> bool
    ensures { result ≡ is_readable bytes.now }
{
    match as_utf8(bytes) {
        Some(text) => !hides_any(text),
        None => false,
    }
}

/// Returns the hexadecimal digit of a number below 16.
fn hex_digit(number: u8) -> u8
    requires { number < 16 }
    ensures { result ≡ hex_digit number }
{
    if number < 10 {
        b'0' + number
    } else {
        b'a' + (number - 10)
    }
}

/// Adds a byte of a text: itself, `\\` or `\x` and two digits.
fn push_byte(out: &mut Vec<u8>, readable: bool, byte: u8) -> Result<(), AllocError>
    ensures { OnOk result (out.new.items ≡ out.old.items ++ shown_byte readable byte) }
{
    if byte == b'\\' {
        return out.extend_from_slice(b"\\\\");
    }
    if byte >= 0x20 && byte < 0x7F || readable && byte >= 0x80 {
        return out.extend_from_slice(&[byte]);
    }
    out.extend_from_slice(&[b'\\', b'x', hex_digit(byte / 16), hex_digit(byte % 16)])
}

/// Adds a text as it is shown.
#[tactic(auto, unfolding(crate::specs::Shown::shown))]
pub(crate) fn push_shown(out: &mut Vec<u8>, text: &[u8]) -> Result<(), AllocError>
    ensures { OnOk result (out.new.items ≡ out.old.items ++ shown text.now) }
{
    let readable = is_readable(text);
    for byte in text {
        push_byte(out, readable, *byte)?;
    }
    Ok(())
}
