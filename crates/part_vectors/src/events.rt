//! Cases of the beam, such as `data/beam.txt`: its events.
//!
//! A line `beam K REGION` begins a new beam, `ntsc` or `pal`. `p CLOCKS TIMES KIND H V OVERSCAN EVENTS
//! LINECLOCK LINE BLANK` is TIMES steps of CLOCKS clocks with that timer and overscan bit. EVENTS are
//! all their events in order, a letter each: L Line, B Blank, F HdmaFrame, R Refresh, D Draw, H
//! HdmaLine, T Timer, and `-` if none came. The last three are the position of the beam after them.

use crate::line::Line;
use beam::{Beam, Happens};
use snes_defs::{IrqTime, Region};

/// Whether the beam does what a line says. An unknown line doesn't hold.
pub fn passes_as(beam: &mut Beam, line: &str) -> bool {
    let mut words = Line::new(line);
    match words.word() {
        Some("beam") => begins(beam, words).unwrap_or(false),
        Some("end") => true,
        Some("p") => passes(beam, words).unwrap_or(false),
        _ => false,
    }
}

/// Begins a new beam.
fn begins(beam: &mut Beam, mut words: Line<'_>) -> Option<bool> {
    let _number = words.word()?;
    let region = match words.word()? {
        "ntsc" => Region::Ntsc,
        "pal" => Region::Pal,
        _ => return None,
    };
    *beam = Beam::new(region);
    Some(true)
}

/// Whether the steps of a line give its events, and the beam is then where it says.
fn passes(beam: &mut Beam, mut words: Line<'_>) -> Option<bool> {
    let clocks = words.decimal()?;
    let times = words.decimal::<u16>()?;
    let irq = time_of(&mut words)?;
    let overscan = words.bit()?;
    let mut letters = letters_of(words.word()?);
    beam.aim(irq);
    let mut same = true;
    for _ in 0..times {
        match steps(beam, clocks, overscan, letters) {
            Some(others) => letters = others,
            None => same = false,
        }
    }
    Some(same && letters.is_empty() && stands_at(beam, &mut words)?)
}

/// Returns the letters of a word; a hyphen stands for none.
fn letters_of(word: &str) -> &[u8] {
    if word == "-" { &[] } else { word.as_bytes() }
}

/// Reads the timer of the next words.
pub fn time_of(words: &mut Line<'_>) -> Option<IrqTime> {
    Some(IrqTime {
        kind: words.decimal()?,
        h: words.decimal()?,
        v: words.decimal()?,
    })
}

/// Takes a step of the given number of clocks. Returns the letters after those of its events; `None` if they differ.
fn steps<'a>(beam: &mut Beam, clocks: u16, overscan: bool, letters: &'a [u8]) -> Option<&'a [u8]> {
    let mut letters = Some(letters);
    let mut rest = clocks;
    // At most one event time a clock.
    for _ in 0..clocks {
        let left = beam.clocks_left();
        if rest < left {
            break;
        }
        rest -= left;
        let happens = beam.reach(overscan);
        letters = match letters {
            Some(letters) => after(letters, happens),
            None => None,
        };
    }
    if rest < beam.clocks_left() {
        beam.go_on(rest);
    }
    letters
}

/// Whether the beam is where the next words say.
fn stands_at(beam: &Beam, words: &mut Line<'_>) -> Option<bool> {
    let h = words.decimal::<u16>()?;
    let v = words.decimal::<u16>()?;
    let blank = words.bit()?;
    let spot = beam.spot();
    Some(spot.h == h && spot.v == v && spot.blank == blank)
}

/// Returns the letters after those of these events, if they come first, in order.
fn after(letters: &[u8], happens: Happens) -> Option<&[u8]> {
    let letters = expect(letters, happens.line, b'L')?;
    let letters = expect(letters, happens.blank, b'B')?;
    let letters = expect(letters, happens.hdma_frame, b'F')?;
    let letters = expect(letters, happens.refresh, b'R')?;
    let letters = expect(letters, happens.draw, b'D')?;
    let letters = expect(letters, happens.hdma_line, b'H')?;
    expect(letters, happens.timer, b'T')
}

/// Returns the letters after this one, if it comes first or isn't to come.
fn expect(letters: &[u8], comes: bool, letter: u8) -> Option<&[u8]> {
    if comes {
        let (first, rest) = letters.split_first()?;
        if *first == letter { Some(rest) } else { None }
    } else {
        Some(letters)
    }
}
