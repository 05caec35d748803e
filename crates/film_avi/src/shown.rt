ghost use Rattle.std.specs.Prelude.{◌≡◌, ◌+◌, ◌*◌, ◌<◌, ◌++◌, length, OnOk, vec_len};
ghost use Rattle.film_avi.specs.Shown.{turned, turned_row, turned_rows};

use film_formats::{FRAME_BYTES, ROW_BYTES, WIDTH, dot_of_row};
use std::alloc::AllocError;

/// A dot with its red in the high five bits and its blue in the low five.
#[inline(always)]
fn turned_dot(dot: u16) -> u16
    ensures { result ≡ turned dot }
{
    1024 * (dot % 32) + 32 * (dot / 32 % 32) + dot / 1024 % 32
}

/// Adds a row of dots.
fn push_turned_row(out: &mut Vec<u8>, row: &[u8]) -> Result<(), AllocError>
    requires { length row.now ≡ ROW_BYTES }
    ensures { OnOk result (out.new.items ≡ out.old.items ++ turned_row row.now WIDTH) }
{
    for column in 0..WIDTH {
        let dot = turned_dot(dot_of_row(row, column));
        out.extend_from_slice(&[(dot % 256) as u8, (dot / 256 % 256) as u8])?;
    }
    Ok(())
}

/// Adds a frame as an AVI file holds it: 478 rows from the bottom up, each row of the frame twice.
pub fn push_turned(out: &mut Vec<u8>, frame: &[u8]) -> Result<(), AllocError>
    requires { length frame.now ≡ FRAME_BYTES }
    ensures { OnOk result (out.new.items ≡ out.old.items ++ turned_rows frame.now 478) }
{
    for row in 0..478usize {
        let from = ROW_BYTES * ((477 - row) / 2);
        push_turned_row(out, &frame[from..from + ROW_BYTES])?;
    }
    Ok(())
}
