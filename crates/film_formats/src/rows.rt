ghost use Rattle.std.specs.Prelude.{◌≡◌, ℕ, ◌+◌, ◌*◌, ◌<◌, ◌++◌, length, OnOk, vec_len};
ghost use Rattle.film_formats.specs.Colours.{shown, dot_at};

use crate::colours::Colour;
use crate::{ROW_BYTES, WIDTH};
use std::alloc::AllocError;

/// The dot in a column of a row.
#[inline(always)]
pub fn dot_of_row(row: &[u8], column: usize) -> u16
    requires row { length row.now ≡ 1024 }
    requires column { column < 512 }
    ensures { result ≡ dot_at row.now column }
{
    row[2 * column] as u16 + 256 * row[2 * column + 1] as u16
}

/// Adds a row as it is shown: three bytes a dot.
#[tactic(auto, using(crate::proofs::RowLemmas::shown_steps))]
pub fn push_row(out: &mut Vec<u8>, row: &[u8]) -> Result<(), AllocError>
    requires { length row.now ≡ ROW_BYTES }
    ensures items { OnOk result (out.new.items ≡ out.old.items ++ shown row.now WIDTH) }
    ensures len { OnOk result (vec_len out.new ≡ vec_len out.old + 1536) }
{
    for column in 0..WIDTH {
        let colour = Colour::of_dot(dot_of_row(row, column));
        out.extend_from_slice(&[colour.red, colour.green, colour.blue])?;
    }
    Ok(())
}
