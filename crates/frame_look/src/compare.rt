//! The comparison of two films, in `look diff`.

ghost use Rattle.std.specs.Prelude.{◌≡◌, length};

use crate::films::{self, Frames};
use crate::found::{Found, Parts, compare};
use anyhow::Result;
use clap::ArgMatches;
use film_formats::{Colour, FRAME_BYTES, ROW_BYTES, first_apart, marked_png};
use std::fmt;
use std::io::Read;
use std::rt::Files;

/// A dot's 15 bits and its 24-bit colour, as they are printed.
#[derive(Clone, Copy)]
pub struct Dot(pub u16);

impl fmt::Display for Dot {
    fn fmt<W: fmt::Write>(&self, f: &mut fmt::Formatter<W>) -> fmt::Result {
        let dot = self.0;
        let colour = Colour::of_dot(dot);
        write!(
            f,
            "{dot:04x} ({} {} {})",
            colour.red, colour.green, colour.blue
        )
    }
}

/// The first dot in which two films differ.
#[derive(Clone, Copy)]
pub struct Place {
    frame: u64,
    row: usize,
    dot: usize,
    first: u16,
    second: u16,
}

impl fmt::Display for Place {
    fn fmt<W: fmt::Write>(&self, f: &mut fmt::Formatter<W>) -> fmt::Result {
        write!(
            f,
            "frame {}, row {}, dot {}: {} and {}",
            self.frame,
            self.row,
            self.dot,
            Dot(self.first),
            Dot(self.second)
        )
    }
}

impl<F: Read + Drop> Parts for Frames<'_, F> {
    type Place = Place;

    fn read_next(&mut self) -> Result<bool> {
        self.next()
    }

    fn place(&self, other: &Self, number: u64) -> Option<Place> {
        let (first, second) = (self.frame(), other.frame());
        let at = first_apart(first, second)?;
        let low = at - at % 2;
        Some(Place {
            frame: number,
            row: at / ROW_BYTES,
            dot: at % ROW_BYTES / 2,
            first: u16::from_le_bytes([first[low], first[low + 1]]),
            second: u16::from_le_bytes([second[low], second[low + 1]]),
        })
    }
}

/// A picture of where two frames differ: its name, if it is wanted, and those of the inputs, of which it may be none.
#[derive(Clone, Copy)]
pub struct Marked<'a> {
    pub out: Option<&'a str>,
    pub inputs: [&'a str; 2],
}

impl Marked<'_> {
    /// Writes the picture of these frames, if it is wanted.
    pub fn write<R: Files + AllocGlobal>(self, rt: &R, first: &[u8], second: &[u8]) -> Result<()>
        requires first { length first.now ≡ FRAME_BYTES }
        requires second { length second.now ≡ FRAME_BYTES }
    {
        if let Some(out) = self.out {
            let file = marked_png(rt.alloc(), first, second)?;
            films::write(rt, out, self.inputs.as_slice(), file.as_slice())?;
        }
        Ok(())
    }
}

/// Compares two films, frame by frame. Writes a picture of the first frame that differs, if one is wanted.
fn compare_films<'a, R: Files + AllocGlobal>(
    rt: &R,
    a: &mut Frames<'a, R::File>,
    b: &mut Frames<'a, R::File>,
    marked: Marked<'_>,
) -> Result<Found<Place>> {
    let mut found = Found::new();
    if compare(a, b, &mut found)? {
        marked.write(rt, a.frame(), b.frame())?;
        compare(a, b, &mut found)?;
    }
    Ok(found)
}

/// Opens the two films that are the inputs of a picture, and compares them.
fn compare_files<R: Files + AllocGlobal>(rt: &R, marked: Marked<'_>) -> Result<Found<Place>> {
    let [first, second] = marked.inputs;
    let mut a = films::open_film(rt, first)?;
    let mut b = films::open_film(rt, second)?;
    compare_films(rt, &mut a, &mut b, marked)
}

/// Obeys `look diff A B`.
pub fn say_difference<R: Files + Print + AllocGlobal>(
    rt: &R,
    words: &ArgMatches<'_>,
) -> Result<u8> {
    let first = films::name_in(words, "A");
    let second = films::name_in(words, "B");
    if words.get_flag("state") {
        let lines = words.get_one::<u64>("lines").unwrap_or(20);
        return crate::state_apart::say_difference(rt, first, second, lines);
    }
    if words.get_flag("audio") {
        return crate::samples::say_difference(rt, first, second);
    }
    let marked = Marked {
        out: words.get_str("png"),
        inputs: [first, second],
    };
    if let Some(frame) = words.get_one::<u64>("frame") {
        return crate::golden::say_difference(rt, frame, marked);
    }
    let found = compare_files(rt, marked)?;
    found.tell(rt, "film", "frames")
}
