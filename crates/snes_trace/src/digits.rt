//! Writes numbers and texts of a trace.

ghost use Rattle.std.specs.Prelude.{◌≡◌, ◌<◌, ◌++◌, OnOk};
ghost use Rattle.snes_trace.specs.Digits.{hex_digit, hex2, hex4, hex6};

use itoa::Buffer;
use std::alloc::AllocError;

/// Spaces: as many as a column may need.
static SPACES: [u8; 40] = [b' '; 40];

/// Returns the uppercase hexadecimal digit of a number below 16.
fn digit(number: u8) -> u8
    requires { number < 16 }
    ensures { result ≡ hex_digit number }
{
    if number < 10 {
        b'0' + number
    } else {
        b'A' + (number - 10)
    }
}

/// Adds the two hexadecimal digits of a byte.
pub fn push_hex2(out: &mut Vec<u8>, byte: u8) -> Result<(), AllocError>
    ensures { OnOk result (out.new.items ≡ out.old.items ++ hex2 byte) }
{
    out.extend_from_slice(&[digit(byte / 16), digit(byte % 16)])
}

/// Adds the four hexadecimal digits of a 16-bit word.
pub fn push_hex4(out: &mut Vec<u8>, word: u16) -> Result<(), AllocError>
    ensures { OnOk result (out.new.items ≡ out.old.items ++ hex4 word) }
{
    out.extend_from_slice(&[
        digit((word / 4096 % 16) as u8),
        digit((word / 256 % 16) as u8),
        digit((word / 16 % 16) as u8),
        digit((word % 16) as u8),
    ])
}

/// Adds the six hexadecimal digits of a 24-bit address.
pub fn push_hex6(out: &mut Vec<u8>, address: u32) -> Result<(), AllocError>
    ensures { OnOk result (out.new.items ≡ out.old.items ++ hex6 address) }
{
    out.extend_from_slice(&[
        digit((address / 1_048_576 % 16) as u8),
        digit((address / 65_536 % 16) as u8),
        digit((address / 4096 % 16) as u8),
        digit((address / 256 % 16) as u8),
        digit((address / 16 % 16) as u8),
        digit((address % 16) as u8),
    ])
}

/// Adds the given number of spaces, at most 40.
pub fn push_spaces(out: &mut Vec<u8>, count: usize) -> Result<(), AllocError> {
    out.extend_from_slice(&SPACES[..count.min(40)])
}

/// Adds a decimal number, padded with spaces on the left up to a width.
pub fn push_number(out: &mut Vec<u8>, number: u64, width: usize) -> Result<(), AllocError> {
    let mut digits = Buffer::new();
    let text = digits.format(number);
    push_spaces(out, width.saturating_sub(text.len()))?;
    push_text(out, text)
}

/// Adds a text.
pub fn push_text(out: &mut Vec<u8>, text: &str) -> Result<(), AllocError>
    ensures { OnOk result (out.new.items ≡ out.old.items ++ text.now) }
{
    out.extend_from_slice(text.as_bytes())
}
