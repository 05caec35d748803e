//! The comparison of a frame with a picture that is kept as PNG, in `look diff --frame`.

ghost use Rattle.std.specs.Prelude.{◌≡◌, length};

use crate::compare::{Dot, Marked};
use crate::films;
use anyhow::Result;
use companion_words::{DONE, NO};
use film_formats::FRAME_BYTES;
use golden_frame::{Found, Golden};
use std::rt::Files;

/// Reads the picture of a file.
fn read_golden<R: Files + AllocGlobal>(rt: &R, name: &str) -> Result<Golden> {
    let file = films::read(rt, name)?;
    Golden::read(rt.alloc(), name, file.as_slice())
}

/// Prints what was found of the frame of a number, which has `all` half-pixels, and returns the status.
fn tell<R: Print>(rt: &R, number: u64, found: &Found, all: usize) -> Result<u8> {
    let Some(place) = found.place else {
        println!(rt; "alike: {all} half-pixels of frame {number}")?;
        return Ok(DONE);
    };
    println!(rt; "different: {} of {all} half-pixels", found.differing)?;
    let [red, green, blue] = place.golden;
    println!(rt;
        "first: frame {number}, row {}, dot {}: {} and ({red} {green} {blue})",
        place.row,
        place.dot,
        Dot(place.film)
    )?;
    Ok(NO)
}

/// Compares the frame of a number with a picture, prints what was found, and returns the status.
fn compare<R: Files + Print + AllocGlobal>(
    rt: &R,
    picture: &Golden,
    number: u64,
    frame: &[u8],
    marked: Marked<'_>,
) -> Result<u8>
    requires { length frame.now ≡ FRAME_BYTES }
{
    let found = picture.compare(rt.alloc(), frame)?;
    if found.place.is_some() {
        marked.write(rt, frame, found.turned())?;
    }
    tell(rt, number, &found, picture.half_pixels())
}

/// Obeys `look diff --frame NUMBER VIDEO PNG`.
pub fn say_difference<R: Files + Print + AllocGlobal>(
    rt: &R,
    number: u64,
    marked: Marked<'_>,
) -> Result<u8> {
    let [video, golden] = marked.inputs;
    let picture = read_golden(rt, golden)?;
    let frames = films::open_at(rt, video, number)?;
    compare(rt, &picture, number, frames.frame(), marked)
}
