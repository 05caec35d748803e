ghost use Rattle.std.specs.Prelude.{◌≡◌, ℕ, ◌+◌, ◌*◌, ◌/◌, ◌<◌, ◌≤◌, ◌++◌, length, OnOk, vec_len};
ghost use Rattle.film_formats.specs.Colours.{colour_of, dot_at};
ghost use Rattle.film_formats.specs.Mixed.{dimmed, marked, marked_row, sum4, mean_of, small_row};

use crate::colours::Colour;
use crate::rows::dot_of_row;
use crate::{ROW_BYTES, WIDTH};
use std::alloc::AllocError;

/// The dots of a small picture's row.
pub const SMALL_WIDTH: usize = 128;

/// A dot of the picture of where two films differ.
#[inline(always)]
fn marked_dot(first: u16, second: u16) -> Colour
    ensures { result ≡ marked first second }
{
    if first == second {
        let colour = Colour::of_dot(first);
        Colour {
            red: colour.red / 4,
            green: colour.green / 4,
            blue: colour.blue / 4,
        }
    } else {
        Colour {
            red: 255,
            green: 0,
            blue: 0,
        }
    }
}

/// Adds a row of the picture of where two films differ. A dot is red where they do, else the dot of both at a quarter
/// of its brightness.
pub fn push_marked_row(out: &mut Vec<u8>, first: &[u8], second: &[u8]) -> Result<(), AllocError>
    requires first { length first.now ≡ ROW_BYTES }
    requires second { length second.now ≡ ROW_BYTES }
    ensures items { OnOk result (out.new.items ≡ out.old.items ++ marked_row first.now second.now WIDTH) }
    ensures len { OnOk result (vec_len out.new ≡ vec_len out.old + 1536) }
{
    for column in 0..WIDTH {
        let colour = marked_dot(dot_of_row(first, column), dot_of_row(second, column));
        out.extend_from_slice(&[colour.red, colour.green, colour.blue])?;
    }
    Ok(())
}

/// The sums of the channels over four dots of a row.
#[derive(Clone, Copy)]
struct Sums {
    red: u16,
    green: u16,
    blue: u16,
}

/// The sums over four dots from a column on.
#[inline(always)]
fn four_dots(row: &[u8], column: usize) -> Sums
    requires row { length row.now ≡ ROW_BYTES }
    requires column { column + 3 < WIDTH }
    ensures red { result.red ≡ sum4 (λ c. c.red) row.now column }
    ensures green { result.green ≡ sum4 (λ c. c.green) row.now column }
    ensures blue { result.blue ≡ sum4 (λ c. c.blue) row.now column }
{
    let a = Colour::of_dot(dot_of_row(row, column));
    let b = Colour::of_dot(dot_of_row(row, column + 1));
    let c = Colour::of_dot(dot_of_row(row, column + 2));
    let d = Colour::of_dot(dot_of_row(row, column + 3));
    Sums {
        red: a.red as u16 + b.red as u16 + c.red as u16 + d.red as u16,
        green: a.green as u16 + b.green as u16 + c.green as u16 + d.green as u16,
        blue: a.blue as u16 + b.blue as u16 + c.blue as u16 + d.blue as u16,
    }
}

/// The mean of two sums of four bytes each.
#[inline(always)]
fn mean8(upper: u16, lower: u16) -> u8
    requires upper { upper ≤ 1020 }
    requires lower { lower ≤ 1020 }
    ensures { result ≡ (upper + lower) / 8 }
{
    ((upper + lower) / 8) as u8
}

/// The mean colour of eight dots: four of a row from a column on, and the four below them.
#[inline(always)]
fn mean_colour(upper: &[u8], lower: &[u8], column: usize) -> Colour
    requires upper { length upper.now ≡ ROW_BYTES }
    requires lower { length lower.now ≡ ROW_BYTES }
    requires column { column + 3 < WIDTH }
    ensures { result ≡ mean_of upper.now lower.now column }
{
    let above = four_dots(upper, column);
    let below = four_dots(lower, column);
    Colour {
        red: mean8(above.red, below.red),
        green: mean8(above.green, below.green),
        blue: mean8(above.blue, below.blue),
    }
}

/// Adds a row of a small picture: each dot is the mean of eight, four of each row.
pub fn push_small_row(out: &mut Vec<u8>, upper: &[u8], lower: &[u8]) -> Result<(), AllocError>
    requires upper { length upper.now ≡ ROW_BYTES }
    requires lower { length lower.now ≡ ROW_BYTES }
    ensures { OnOk result (out.new.items ≡ out.old.items ++ small_row upper.now lower.now SMALL_WIDTH) }
{
    for column in 0..SMALL_WIDTH {
        let colour = mean_colour(upper, lower, 4 * column);
        out.extend_from_slice(&[colour.red, colour.green, colour.blue])?;
    }
    Ok(())
}
