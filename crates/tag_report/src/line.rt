ghost use Rattle.std.specs.Prelude.{◌≡◌, ◌++◌, ◌∷◌, [], OnOk, Some, None, decimal};
ghost use Rattle.std.specs.Option.{option_copied};
ghost use Rattle.tag_report.specs.Shown.{shown};
ghost use Rattle.tag_report.specs.Report.{with_text, with_number, with_track};

use crate::shown::push_shown;
use itoa::Buffer;
use std::alloc::AllocError;

/// Adds a text of this program's own.
fn push(out: &mut Vec<u8>, text: &str) -> Result<(), AllocError>
    ensures { OnOk result (out.new.items ≡ out.old.items ++ text.now) }
{
    out.extend_from_slice(text.as_bytes())
}

/// Adds a number in decimal digits.
fn push_decimal(out: &mut Vec<u8>, number: u32) -> Result<(), AllocError>
    ensures { OnOk result (out.new.items ≡ out.old.items ++ decimal number) }
{
    let mut digits = Buffer::new();
    out.extend_from_slice(digits.format(number).as_bytes())
}

/// Adds the line of a text, if it is there. The name ends with a colon and a space.
pub(crate) fn push_text(
    out: &mut Vec<u8>,
    name: &str,
    text: Option<&[u8]>,
) -> Result<(), AllocError>
    ensures { OnOk result (out.new.items ≡ with_text out.old.items name.now (option_copied text.entry)) }
{
    let Some(text) = text else {
        return Ok(());
    };
    push(out, name)?;
    push_shown(out, text)?;
    push(out, "\n")
}

/// Adds the line of a number, if it is there.
pub(crate) fn push_number(
    out: &mut Vec<u8>,
    name: &str,
    number: Option<u32>,
) -> Result<(), AllocError>
    ensures { OnOk result (out.new.items ≡ with_number out.old.items name.now number) }
{
    let Some(number) = number else {
        return Ok(());
    };
    push(out, name)?;
    push_decimal(out, number)?;
    push(out, "\n")
}

/// Adds the line of a track, if it is there: the number in the high byte, and the character in the low byte.
pub(crate) fn push_track(out: &mut Vec<u8>, track: Option<u32>) -> Result<(), AllocError>
    ensures { OnOk result (out.new.items ≡ with_track out.old.items track) }
{
    let Some(track) = track else {
        return Ok(());
    };
    push(out, "track: ")?;
    push_decimal(out, track / 256)?;
    let letter = track % 256;
    if letter > 0x20 && letter < 0x7F {
        out.push(letter as u8)?;
    }
    push(out, "\n")
}
